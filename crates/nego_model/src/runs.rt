//! Runs as they are handed over, and how far one goes.

use crate::Marking;
use nego_base::{AtomId, OutcomeId, Seq};

/// Occurrences in their order: each an atom and one of its outcomes. Nothing is asked of the numbers.
pub type Run = Seq<(AtomId, OutcomeId)>;

/// How far occurrences go from the opening marking.
#[derive(Clone, Copy, Debug, PartialEq, Eq)]
pub enum Follow {
    /// All occur, and leave the final marking.
    Complete,
    /// All occur, and leave this marking, which isn't final.
    Partial(Marking),
    /// The entry at this place, from 0, is the first that doesn't occur.
    Stops(usize),
}
