//! What was done to disks over memory.

use nego_base::Text;

/// What a call did to the content of a disk.
#[derive(Debug, Drop)]
pub enum Update {
    /// It wrote this piece from this place on.
    Write(usize, Text),
    /// It cut the content to this length.
    Cut(usize),
}

/// What a call did to a disk: an update, or a sync where there is none.
#[derive(Debug, Drop)]
pub struct Change {
    pub disk: u32,
    pub update: Option<Update>,
}
