//! What a command tells.

use crate::Status;
use nego_base::Text;

/// A text for `out`, and the status with which it is told.
#[derive(Debug, Drop)]
pub struct Answer {
    pub status: Status,
    pub text: Text,
}
