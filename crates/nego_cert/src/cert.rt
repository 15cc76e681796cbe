//! What a certificate says.

use nego_base::Seq;
use nego_expr::Use;

/// A use of a rule, and the line of the text on which it stands, counted from 1.
#[derive(Clone, Copy, Debug, PartialEq, Eq)]
pub struct CertLine {
    pub line: u32,
    pub what: Use,
}

/// A certificate: uses of rules, to be made one after the other. Its numbers need not name anything.
#[derive(Debug, Drop)]
pub struct Cert {
    pub uses: Seq<CertLine>,
}
