use thiserror::Error;

/// A call of the outside failed. The object's count of faults tells that it did.
#[derive(Clone, Copy, Debug, PartialEq, Eq, Error)]
#[error("a call of the outside failed")]
pub struct Failed;
