ghost use Rattle.std.specs.Prelude.{◌≡◌, ◌<◌, ◌≤◌, ◌↔◌, min, is_err, IsErr, IsTrue, IfOk, OnErr, [], ◌++◌, length, take, drop, Some};
ghost use Rattle.nego_base.specs.Members.{is_in};
ghost use Rattle.nego_io.specs.Outside.{HasCause, WhereTold, Takes};
ghost use Rattle.nego_io.specs.Calls.{after_call, no_calls};

use crate::calls::Calls;
use crate::{Failed, Source};
use nego_base::Seq;
use std::marker::Model;

/// A source over bytes in memory, of which calls can be made to fail. It always tells, and takes no memory.
#[derive(Debug, Drop)]
pub struct MemSource {
    bytes: Seq<u8>,
    at: usize,
    calls: Calls,
}

impl Model for MemSource {
    ghost use Rattle.std.specs.Prelude.{◌≤◌, length, drop};
    ghost use Rattle.nego_io.specs.Calls.{SourceState};

    ghost Value = { SourceState };

    ghost view = { λ s. record { left = drop s.at s.bytes; calls = s.calls } };

    ghost invariant = { λ s. s.at ≤ length s.bytes };
}

impl MemSource {
    /// All the bytes are left. The calls with these numbers, counted from 0, fail.
    pub fn new(bytes: Seq<u8>, fails: Seq<u64>) -> MemSource
        ensures left { result.left ≡ bytes }
        ensures calls { result.calls ≡ no_calls fails }
    {
        MemSource {
            bytes,
            at: 0,
            calls: Calls::new(fails),
        }
    }
}

impl Source for MemSource {
    ghost left = { λ s. Some s.left };

    ghost faults = { λ s. s.calls.failed };

    /// Moves as many bytes as there are and as the buffer takes.
    fn take(&mut self, buf: &mut [u8]) -> Result<usize, Failed>
        ensures count { IfOk result (λ n. n ≤ length buf.new) }
        ensures taken { IfOk result (λ n. Takes (take n buf.new) (Some self.old.left) (Some self.new.left)) }
        ensures end { IfOk result (λ n. 0 < length buf.new → WhereTold (Some self.old.left) (Some self.new.left) (λ before _. (n ≡ 0) ↔ (before ≡ []))) }
        ensures err { OnErr result (Takes [] (Some self.old.left) (Some self.new.left)) }
        ensures cause { HasCause self.old.calls.failed self.new.calls.failed result }

        // It fails exactly where its number is listed, and does nothing else then.
        ensures listed { IsErr result ↔ IsTrue (is_in self.old.calls.made self.old.calls.listed) }
        ensures calls { self.new.calls ≡ after_call (is_err result) self.old.calls }
        ensures amount { IfOk result (λ n. n ≡ min (length buf.old) (length self.old.left)) }
        ensures buffer { IfOk result (λ n. buf.new ≡ take n self.old.left ++ drop n buf.old) }
        ensures unchanged { OnErr result (buf.new ≡ buf.old) }
    {
        if self.calls.begin() {
            return Err(self.calls.fail());
        }
        let left = &self.bytes.as_slice()[self.at..];
        let n = buf.len().min(left.len());
        buf[..n].copy_from_slice(&left[..n]);
        self.at += n;
        Ok(n)
    }
}
