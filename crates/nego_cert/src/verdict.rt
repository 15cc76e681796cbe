//! What replaying a certificate comes to.

use nego_expr::Summary;

/// Why a use of a certificate isn't made.
#[derive(Clone, Copy, Debug, PartialEq, Eq)]
pub enum RuleWhy {
    /// The rule doesn't allow it, or it names what isn't there.
    Guard,
    /// There would be more than 20,000 nodes.
    Nodes,
}

/// What replaying a certificate comes to.
#[derive(Debug, Drop)]
pub enum Verdict {
    /// Every use was made, and one atom is left, of which this is the summary.
    Accepted(Summary),
    /// The use on this line is the first that can't be made.
    Rejected(u32, RuleWhy),
    /// Every use was made, and so many atoms are left, more than one.
    NotOne(u32),
}
