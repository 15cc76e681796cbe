ghost use Rattle.std.specs.Prelude.{◌≡◌, ◌≤◌};
ghost use Rattle.nego_base.specs.Members.{is_in};
ghost use Rattle.nego_io.specs.Outside.{next_count};
ghost use Rattle.nego_io.specs.Calls.{no_calls};

use crate::Failed;
use nego_base::Seq;
use std::marker::Model;

/// The calls of an object over memory: the numbers of those that fail, counted from 0, how many were made, and how
/// many failed. The counts stay at their last value.
#[derive(Debug, Drop)]
pub struct Calls {
    fails: Seq<u64>,
    made: u64,
    failed: u64,
}

impl Model for Calls {
    ghost use Rattle.nego_io.specs.Calls.{CallRecord};

    ghost Value = { CallRecord };

    ghost view = { λ c. record { listed = c.fails; made = c.made; failed = c.failed } };
}

impl Calls {
    /// No call was made.
    pub fn new(fails: Seq<u64>) -> Calls
        ensures { result ≡ no_calls fails }
    {
        Calls {
            fails,
            made: 0,
            failed: 0,
        }
    }

    /// Counts a call, and answers whether it is one of those that fail.
    pub fn begin(&mut self) -> bool
        ensures listed { result ≡ is_in self.old.made self.old.listed }
        ensures counted { self.new ≡ record self.old { made = next_count self.old.made } }
    {
        let listed = self.fails.as_slice().contains(&self.made);
        self.made = self.made.saturating_add(1);
        listed
    }

    /// Counts a call that failed.
    pub fn fail(&mut self) -> Failed
        ensures counted { self.new ≡ record self.old { failed = next_count self.old.failed } }
        ensures later { self.old.failed ≤ self.new.failed }
    {
        self.failed = self.failed.saturating_add(1);
        Failed
    }
}
