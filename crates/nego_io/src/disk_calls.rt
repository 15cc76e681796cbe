//! The calls of disks over memory.
ghost use Rattle.std.specs.Prelude.{◌≡◌, ◌<◌, ◌≤◌, length, slice_index, IfOk};
ghost use Rattle.nego_io.specs.MemDisks.{is_listed_call, is_reached, must_fail, counted, no_disk_calls};
ghost use Rattle.nego_io.specs.Outside.{next_count, Rose};

use crate::Failed;
use nego_base::{Memory, Seq};
use std::alloc::Global;

/// The calls of disks over memory: which of them fail, and how many were made and failed. The counts stay at their
/// last value.
#[derive(Debug, Drop)]
pub struct DiskCalls {
    /// The disk and the number, counted from 0, of each call that fails.
    pub listed: Seq<(u32, u64)>,
    /// From this number on, counted over all disks, every call fails.
    pub fuse: Option<u64>,
    /// How many calls were made on all disks.
    pub all: u64,
    /// How many were made on each disk.
    pub made: Seq<u64>,
    /// How many failed on each disk.
    pub failed: Seq<u64>,
    /// How many failed since they found no memory.
    pub starved: u64,
}

impl DiskCalls {
    /// No call was made.
    pub fn new(
        alloc: Global,
        disks: usize,
        listed: Seq<(u32, u64)>,
        fuse: Option<u64>,
    ) -> Result<DiskCalls, Memory>
        ensures { IfOk result (λ calls. calls ≡ no_disk_calls disks listed fuse) }
    {
        Ok(DiskCalls {
            listed,
            fuse,
            all: 0,
            made: Seq::from_vec(vec![in alloc; 0; disks]?),
            failed: Seq::from_vec(vec![in alloc; 0; disks]?),
            starved: 0,
        })
    }

    /// Whether the next call comes after the fuse is reached.
    fn is_blown(&self) -> bool
        ensures { result ≡ is_reached self.now.fuse self.now.all }
    {
        match self.fuse {
            Some(fuse) => fuse <= self.all,
            None => false,
        }
    }

    /// Counts a call on the disk, and answers whether it is one of those that fail.
    pub fn begin(&mut self, i: u32) -> bool
        requires { i < length self.old.made }
        ensures answer { result ≡ must_fail i self.old }
        ensures counts { self.new ≡ record self.old { all = next_count self.old.all; made = counted i self.old.made } }
    {
        let number = self.made[i as usize];
        let fails = is_listed(self.listed.as_slice(), i, number) || self.is_blown();
        self.all = self.all.saturating_add(1);
        self.made.set(i as usize, number.saturating_add(1));
        fails
    }

    /// Counts a call that failed.
    pub fn fail(&mut self, i: u32) -> Failed
        requires { i < length self.old.failed }
        ensures counts { self.new ≡ record self.old { failed = counted i self.old.failed } }
        ensures later { slice_index self.old.failed i ≤ slice_index self.new.failed i }
        ensures rose { Rose (slice_index self.old.failed i) (slice_index self.new.failed i) }
    {
        let failed = self.failed[i as usize].saturating_add(1);
        self.failed.set(i as usize, failed);
        Failed
    }

    /// Counts a call that failed since it found no memory.
    pub fn starve(&mut self, i: u32) -> Failed
        requires { i < length self.old.failed }
        ensures counts { self.new ≡ record self.old { failed = counted i self.old.failed; starved = next_count self.old.starved } }
        ensures later { slice_index self.old.failed i ≤ slice_index self.new.failed i }
        ensures rose { Rose (slice_index self.old.failed i) (slice_index self.new.failed i) }
    {
        self.starved = self.starved.saturating_add(1);
        self.fail(i)
    }
}

/// Whether the list has the disk with this number of a call.
fn is_listed(listed: &[(u32, u64)], i: u32, number: u64) -> bool
    ensures { result ≡ is_listed_call i number listed.now }
{
    listed.iter().any(|call| call.0 == i && call.1 == number)
}
