//! What a stop leaves of a disk over memory.
ghost use Rattle.std.specs.Prelude.{◌≡◌, IfOk, OnOk};
ghost use Rattle.nego_io.specs.Disks.{overwritten};
ghost use Rattle.nego_io.specs.MemDisks.{at_first, disk_after};
ghost use Rattle.nego_io.specs.Replay.{remade, replay_of};

use crate::change::{Change, Update};
use nego_base::{Memory, Text};
use std::alloc::Global;

/// A disk while its changes are made once more: its content, and its image in which each byte that was written since
/// its last sync is the filler.
#[derive(Debug, Drop)]
pub struct Replay {
    pub content: Text,
    pub image: Text,
    filler: u8,
}

impl Replay {
    /// The disk at first.
    pub fn new(alloc: Global, first: &[u8], filler: u8) -> Result<Replay, Memory>
        ensures { IfOk result (λ replay. replay ≡ replay_of filler (at_first first.now)) }
    {
        Ok(Replay {
            content: Text::copy(alloc, first)?,
            image: Text::copy(alloc, first)?,
            filler,
        })
    }

    /// Makes a change of the disk once more.
    pub fn redo(&mut self, alloc: Global, update: &Option<Update>) -> Result<(), Memory>
        ensures { OnOk result (self.new ≡ remade update.now self.old) }
    {
        match update {
            Some(Update::Write(at, piece)) => {
                let filling = Text::from_vec(vec![in alloc; self.filler; piece.len()]?);
                self.content = spliced(alloc, self.content.as_slice(), *at, piece.as_slice())?;
                self.image = spliced(alloc, self.image.as_slice(), *at, filling.as_slice())?;
            }
            Some(Update::Cut(to)) => {
                self.content.truncate(*to);
                self.image.truncate(*to);
            }
            None => self.image = Text::copy(alloc, self.content.as_slice())?,
        }
        Ok(())
    }
}

/// A disk with its changes, of these changes of all disks, made once more.
pub fn replayed(
    alloc: Global,
    first: &[u8],
    changes: &[Change],
    i: u32,
    filler: u8,
) -> Result<Replay, Memory>
    ensures { IfOk result (λ replay. replay ≡ replay_of filler (disk_after i first.now changes.now)) }
{
    let mut replay = Replay::new(alloc, first, filler)?;
    for change in changes {
        if change.disk == i {
            replay.redo(alloc, &change.update)?;
        }
    }
    Ok(replay)
}

/// The content with a piece written over it, from a place on.
pub fn spliced(alloc: Global, content: &[u8], at: usize, piece: &[u8]) -> Result<Text, Memory>
    ensures { IfOk result (λ text. text ≡ overwritten at piece.now content.now) }
{
    let mut text = Text::copy(alloc, &content[..content.len().min(at)])?;
    text.extend_from_slice(piece)?;
    let end = at.saturating_add(piece.len());
    text.extend_from_slice(&content[content.len().min(end)..])?;
    Ok(text)
}
