//! Disks over memory.
ghost use Rattle.std.specs.Prelude.{◌≡◌, ◌<◌, ◌≤◌, ◌+◌, ◌^◌, min, length, take, drop, ◌++◌, [], ◌∷◌, is_ok, is_err, IsErr, IsTrue, IfOk, OnOk, OnErr, Some, None};
ghost use Rattle.nego_io.specs.Outside.{HasCause};
ghost use Rattle.nego_io.specs.Disks.{LeavesNow, LeavesOnly, IsRead, Follows, AreCallsOn, HasContent, IsSynced, overwritten, Torn, Shortened, Ragged};
ghost use Rattle.nego_io.specs.MemDisks.{told_of, content_now, disk_now, must_fail, no_disk_calls, after_look, after_make, filled};
ghost use Rattle.nego_io.specs.declared.change.Update.TheVariants as updates;

use crate::change::{Change, Update};
use crate::disk_calls::DiskCalls;
use crate::replay::{replayed, spliced};
use crate::{Disks, Failed};
use nego_base::{Memory, Seq, Text};
use std::alloc::Global;
use std::marker::Model;

/// Disks over memory, of which calls can be made to fail. They always tell, and keep each change that was made, so
/// that they answer for every moment.
#[derive(Debug, Drop)]
pub struct MemDisks {
    alloc: Global,
    first: Seq<Text>,
    changes: Seq<Change>,
    contents: Seq<Text>,
    calls: DiskCalls,
}

impl Model for MemDisks {
    ghost use Rattle.nego_io.specs.MemDisks.{MemDisksState};

    ghost Value = { MemDisksState };

    ghost use Rattle.nego_io.specs.MemDisks.{ArePresent};

    ghost view = { λ d. record { first = d.first; changes = d.changes; calls = d.calls } };

    ghost invariant = { λ d. ArePresent (record { first = d.first; changes = d.changes; calls = d.calls }) d.contents };
}

impl MemDisks {
    /// Disks with these contents, and nothing pending. The calls with these numbers on these disks fail, and every call
    /// from the fuse on, counted over all disks.
    pub fn new(
        alloc: Global,
        contents: Seq<Seq<u8>>,
        fails: Seq<(u32, u64)>,
        fuse: Option<u64>,
    ) -> Result<MemDisks, Memory>
        requires { length contents < 2 ^ 32 }
        ensures { IfOk result (λ d. d ≡ record { first = contents; changes = []; calls = no_disk_calls (length contents) fails fuse }) }
    {
        let calls = DiskCalls::new(alloc, contents.len(), fails, fuse)?;
        let mut first = Seq::new(alloc);
        for content in contents.as_slice() {
            first.push(Text::copy(alloc, content.as_slice())?)?;
        }
        Ok(MemDisks {
            alloc,
            first,
            changes: Seq::new(alloc),
            contents,
            calls,
        })
    }

    /// The image of a disk in which every byte written since its last sync is the filler.
    pub fn remains(&self, alloc: Global, i: u32, filler: u8) -> Result<Seq<u8>, Memory>
        requires { i < length self.now.first }
        ensures filled { IfOk result (λ image. image ≡ filled filler (disk_now self.now i).pending (disk_now self.now i).synced) }
        ensures left { IfOk result (λ image. LeavesNow (told_of self.now) i image) }
    {
        let first = self.first[i as usize].as_slice();
        let replay = replayed(alloc, first, self.changes.as_slice(), i, filler)?;
        Ok(replay.image)
    }

    /// How many calls failed since they found no memory. The count stays at its last value.
    pub fn starved(&self) -> u64
        ensures { result ≡ self.now.calls.starved }
    {
        self.calls.starved
    }
}

impl MemDisks {
    /// Writes a piece over the content of a disk.
    fn write(&mut self, i: u32, at: usize, piece: &[u8]) -> Result<(), Memory>
        requires { i < length self.old.first }
        ensures ok { OnOk result (self.new ≡ record self.old { changes = self.old.changes ++ record { disk = i; update = Some (updates.Write at piece.now) } ∷ [] }) }
        ensures err { OnErr result (self.new ≡ self.old) }
    {
        let content = self.contents[i as usize].as_slice();
        let next = spliced(self.alloc, content, at, piece)?;
        let change = Change {
            disk: i,
            update: Some(Update::Write(at, Text::copy(self.alloc, piece)?)),
        };
        self.changes.push(change)?;
        self.contents.set(i as usize, next);
        Ok(())
    }

    /// Cuts the content of a disk.
    fn shorten(&mut self, i: u32, to: usize) -> Result<(), Memory>
        requires { i < length self.old.first }
        ensures ok { OnOk result (self.new ≡ record self.old { changes = self.old.changes ++ record { disk = i; update = Some (updates.Cut to) } ∷ [] }) }
        ensures err { OnErr result (self.new ≡ self.old) }
    {
        let change = Change {
            disk: i,
            update: Some(Update::Cut(to)),
        };
        self.changes.push(change)?;
        self.contents[i as usize].truncate(to);
        Ok(())
    }

    /// Makes what is pending on a disk last.
    fn settle(&mut self, i: u32) -> Result<(), Memory>
        requires { i < length self.old.first }
        ensures ok { OnOk result (self.new ≡ record self.old { changes = self.old.changes ++ record { disk = i; update = None } ∷ [] }) }
        ensures err { OnErr result (self.new ≡ self.old) }
    {
        let change = Change {
            disk: i,
            update: None,
        };
        self.changes.push(change)?;
        Ok(())
    }
}

impl Disks for MemDisks {
    ghost use Rattle.nego_io.specs.ImageLaws.{content-is_image};

    ghost told = { told_of };

    ghost content_is_left = { λ d i below told. content-is_image d i };

    fn disks(&self) -> u32 {
        self.first.len() as u32
    }

    fn len(&mut self, i: u32) -> Result<u64, Failed>
        requires { i < length self.old.first }
        ensures length { IfOk result (λ n. IsTrue (told_of self.new).telling → n ≡ length ((told_of self.old).content i)) }
        ensures read { IsRead i (told_of self.old) (told_of self.new) }
        ensures cause { HasCause ((told_of self.old).faults i) ((told_of self.new).faults i) result }

        // It fails exactly where its number is listed or the fuse is reached.
        ensures fails { is_err result ≡ must_fail i self.old.calls }
        ensures state { self.new ≡ after_look i (is_ok result) self.old }
    {
        if self.calls.begin(i) {
            return Err(self.calls.fail(i));
        }
        Ok(self.contents[i as usize].len() as u64)
    }

    fn read(&mut self, i: u32, at: u64, buf: &mut [u8]) -> Result<usize, Failed>
        requires { i < length self.old.first }
        ensures count { IfOk result (λ n. n ≤ length buf.new) }
        ensures bytes { IfOk result (λ n. IsTrue (told_of self.new).telling → take n buf.new ≡ take (length buf.new) (drop at ((told_of self.old).content i))) }
        ensures read { IsRead i (told_of self.old) (told_of self.new) }
        ensures cause { HasCause ((told_of self.old).faults i) ((told_of self.new).faults i) result }

        // It fails exactly where its number is listed or the fuse is reached.
        ensures fails { is_err result ≡ must_fail i self.old.calls }
        ensures state { self.new ≡ after_look i (is_ok result) self.old }

        // Of the buffer it changes the bytes read alone.
        ensures buffer { IfOk result (λ n. buf.new ≡ take n (drop at (content_now self.old i)) ++ drop n buf.old) }
        ensures unchanged { OnErr result (buf.new ≡ buf.old) }
    {
        if self.calls.begin(i) {
            return Err(self.calls.fail(i));
        }
        let content = self.contents[i as usize].as_slice();
        let left = &content[content.len().min(at as usize)..];
        let n = buf.len().min(left.len());
        buf[..n].copy_from_slice(&left[..n]);
        Ok(n)
    }

    fn write_at(&mut self, i: u32, at: u64, piece: &[u8]) -> Result<(), Failed>
        requires disk { i < length self.old.first }
        requires within { IsTrue (told_of self.old).telling → at ≤ length ((told_of self.old).content i) }
        ensures content { OnOk result (HasContent (told_of self.new) i (overwritten at piece.now ((told_of self.old).content i))) }
        ensures torn { OnErr result (IsTrue (told_of self.new).telling → Torn at (length piece.now) ((told_of self.old).content i) ((told_of self.new).content i)) }
        ensures images { LeavesOnly (Follows (Torn at (length piece.now)) (told_of self.old) i) i (told_of self.old) (told_of self.new) }
        ensures calls { AreCallsOn i (told_of self.old) (told_of self.new) }
        ensures cause { HasCause ((told_of self.old).faults i) ((told_of self.new).faults i) result }

        // It fails where its number is listed or the fuse is reached, and else only where it found no memory.
        ensures fails { IsTrue (must_fail i self.old.calls) → IsErr result }
        ensures state { self.new ≡ after_make i (is_ok result) (Some (updates.Write at piece.now)) self.old }
    {
        if self.calls.begin(i) {
            return Err(self.calls.fail(i));
        }
        match self.write(i, at as usize, piece) {
            Ok(()) => Ok(()),
            Err(Memory) => Err(self.calls.starve(i)),
        }
    }

    fn cut(&mut self, i: u32, to: u64) -> Result<(), Failed>
        requires disk { i < length self.old.first }
        requires within { IsTrue (told_of self.old).telling → to ≤ length ((told_of self.old).content i) }
        ensures content { OnOk result (HasContent (told_of self.new) i (take to ((told_of self.old).content i))) }
        ensures ragged { OnErr result (IsTrue (told_of self.new).telling → Ragged to ((told_of self.old).content i) ((told_of self.new).content i)) }
        ensures images { OnOk result (LeavesOnly (Follows (Shortened to) (told_of self.old) i) i (told_of self.old) (told_of self.new)) }
        ensures images_err { OnErr result (LeavesOnly (Follows (Ragged to) (told_of self.old) i) i (told_of self.old) (told_of self.new)) }
        ensures calls { AreCallsOn i (told_of self.old) (told_of self.new) }
        ensures cause { HasCause ((told_of self.old).faults i) ((told_of self.new).faults i) result }

        // It fails where its number is listed or the fuse is reached, and else only where it found no memory.
        ensures fails { IsTrue (must_fail i self.old.calls) → IsErr result }
        ensures state { self.new ≡ after_make i (is_ok result) (Some (updates.Cut to)) self.old }
    {
        if self.calls.begin(i) {
            return Err(self.calls.fail(i));
        }
        match self.shorten(i, to as usize) {
            Ok(()) => Ok(()),
            Err(Memory) => Err(self.calls.starve(i)),
        }
    }

    fn sync(&mut self, i: u32) -> Result<(), Failed>
        requires { i < length self.old.first }
        ensures synced { OnOk result (IsSynced (told_of self.new) i) }
        ensures content { OnOk result (HasContent (told_of self.new) i ((told_of self.old).content i)) }
        ensures images { LeavesOnly (LeavesNow (told_of self.old) i) i (told_of self.old) (told_of self.new) }
        ensures calls { AreCallsOn i (told_of self.old) (told_of self.new) }
        ensures cause { HasCause ((told_of self.old).faults i) ((told_of self.new).faults i) result }

        // It fails where its number is listed or the fuse is reached, and else only where it found no memory.
        ensures fails { IsTrue (must_fail i self.old.calls) → IsErr result }
        ensures state { self.new ≡ after_make i (is_ok result) None self.old }
    {
        if self.calls.begin(i) {
            return Err(self.calls.fail(i));
        }
        match self.settle(i) {
            Ok(()) => Ok(()),
            Err(Memory) => Err(self.calls.starve(i)),
        }
    }
}
