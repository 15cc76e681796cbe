/// What a leader chooses when it decides: an outcome among the open ones of its atom, and joint data among those that
/// the outcome gives. Both numbers count round and round.
#[derive(Clone, Copy, Debug, PartialEq, Eq)]
pub struct Choice {
    /// The outcome among the open ones, from 0.
    pub outcome: u32,
    /// The joint data among those to which the outcome leads, from 0.
    pub pick: u32,
}
