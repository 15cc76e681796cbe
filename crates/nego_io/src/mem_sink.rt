ghost use Rattle.std.specs.Prelude.{◌≡◌, ◌≤◌, ◌-◌, not, ◌&&◌, if◌then◌else◌, is_err, IsErr, IsTrue, IfOk, OnErr, IsOkAnd, [], length, take, Some};
ghost use Rattle.nego_base.specs.Members.{is_in};
ghost use Rattle.nego_io.specs.Outside.{PutHasCause, Puts, next_count};
ghost use Rattle.nego_io.specs.Calls.{after_call, no_calls};

use crate::calls::Calls;
use crate::{Failed, Sink};
use nego_base::{Memory, Seq};
use std::alloc::Global;
use std::marker::Model;

/// A sink into memory, of which calls can be made to fail. It always tells.
#[derive(Debug, Drop)]
pub struct MemSink {
    bytes: Vec<u8>,
    calls: Calls,
    starved: u64,
}

impl Model for MemSink {
    ghost use Rattle.nego_io.specs.Calls.{SinkState};

    ghost Value = { SinkState };

    ghost view = { λ s. record { taken = s.bytes.items; calls = s.calls; starved = s.starved } };
}

impl MemSink {
    /// Nothing was taken. The calls with these numbers, counted from 0, fail. It takes no memory until the first call.
    pub fn new(alloc: Global, fails: Seq<u64>) -> Result<MemSink, Memory>
        ensures { IsOkAnd result (λ s. s ≡ record { taken = []; calls = no_calls fails; starved = 0 }) }
    {
        Ok(MemSink {
            bytes: Vec::new(alloc),
            calls: Calls::new(fails),
            starved: 0,
        })
    }

    /// What it took.
    pub fn bytes(&self) -> &[u8]
        ensures { result.now ≡ self.now.taken }
    {
        self.bytes.as_slice()
    }

    /// How many calls failed since they found no memory. The count stays at its last value.
    pub fn starved(&self) -> u64
        ensures { result ≡ self.now.starved }
    {
        self.starved
    }
}

impl Sink for MemSink {
    ghost taken = { λ s. Some s.taken };

    ghost faults = { λ s. s.calls.failed };

    /// Takes the whole piece.
    fn put(&mut self, piece: &[u8]) -> Result<usize, Failed>
        ensures count { IfOk result (λ n. n ≤ length piece.now) }
        ensures taken { IfOk result (λ n. Puts (take n piece.now) (Some self.old.taken) (Some self.new.taken)) }
        ensures err { OnErr result (Puts [] (Some self.old.taken) (Some self.new.taken)) }
        ensures cause { PutHasCause piece.now self.old.calls.failed self.new.calls.failed result }

        // It fails exactly where its number is listed or it found no memory, and does nothing else then.
        ensures listed { IsTrue (is_in self.old.calls.made self.old.calls.listed) → IsErr result }
        ensures starved { self.new.starved ≡ (if is_err result && not (is_in self.old.calls.made self.old.calls.listed) then next_count self.old.starved else self.old.starved) }
        ensures calls { self.new.calls ≡ after_call (is_err result) self.old.calls }
        ensures amount { IfOk result (λ n. n ≡ length piece.now) }
    {
        if self.calls.begin() {
            return Err(self.calls.fail());
        }
        match self.bytes.extend_from_slice(piece) {
            Ok(()) => Ok(piece.len()),
            Err(_) => {
                self.starved = self.starved.saturating_add(1);
                Err(self.calls.fail())
            }
        }
    }
}
