ghost use Rattle.std.specs.Prelude.{◌≡◌, ℕ, ◌<◌, ◌≤◌, ◌↔◌, List, [], length, take, Option, IfOk, OnErr};
ghost use Rattle.nego_io.specs.Outside.{HasCause, WhereTold, Takes};

use crate::Failed;

/// Where bytes come from. An object that tells after a call told before it.
pub trait Source {
    /// What is left, where it is told.
    ghost left: { Self → Option (List ℕ) };

    /// How often a call failed. It stays at the last number of its type.
    ghost faults: { Self → ℕ };

    /// Moves the first bytes of what is left into the front of the buffer, and answers how many.
    /// For a buffer that isn't empty that is 0 exactly at the end of input. Nothing but a failure moves the count.
    fn take(&mut self, buf: &mut [u8]) -> Result<usize, Failed>
        ensures count { IfOk result (λ n. n ≤ length buf.new) }
        ensures taken { IfOk result (λ n. Takes (take n buf.new) (left self.old) (left self.new)) }
        ensures end { IfOk result (λ n. 0 < length buf.new → WhereTold (left self.old) (left self.new) (λ before _. (n ≡ 0) ↔ (before ≡ []))) }
        ensures err { OnErr result (Takes [] (left self.old) (left self.new)) }
        ensures cause { HasCause (faults self.old) (faults self.new) result };
}
