//! The first fault of shape of each kind.

pub(crate) mod counts;
pub(crate) mod outcomes;
pub(crate) mod parties;
pub(crate) mod sizes;
pub(crate) mod twice;
