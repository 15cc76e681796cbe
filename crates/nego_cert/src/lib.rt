//! Certificates: their text, read and printed, and their replay, which checks a certificate use by use.
#![tactic(auto)]

mod cert;
pub mod laws;
mod lines;
mod printing;
mod reading;
mod replaying;
mod row;
mod summary_lines;
mod summary_reading;
mod summary_row;
mod verdict;

pub use cert::{Cert, CertLine};
pub use printing::print_cert;
pub use reading::read_cert;
pub use replaying::replay;
pub use summary_reading::read_summary;
pub use verdict::{RuleWhy, Verdict};
