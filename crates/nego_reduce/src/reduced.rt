//! What is left of a work when rules were used in their order.

use nego_expr::{Summary, Uses, Work};

/// What is left of a work, and the uses that were made of it, in their order.
#[derive(Debug, Drop)]
pub enum Reduced {
    /// One atom is left, of which this is the summary.
    One(Summary, Uses),
    /// More than one atom is left, and no use is the next one.
    Stuck(Work, Uses),
    /// The next use would make more than 20,000 nodes.
    NodeLimit(Work, Uses),
}
