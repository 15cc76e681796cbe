ghost use Rattle.std.specs.Prelude.{ℕ, ◌≤◌, List, [], length, take, Option, IfOk, OnErr};
ghost use Rattle.nego_io.specs.Outside.{PutHasCause, Puts};

use crate::Failed;

/// Where bytes go. An object that tells after a call told before it.
pub trait Sink {
    /// What was taken, where it is told.
    ghost taken: { Self → Option (List ℕ) };

    /// How often a call failed. It stays at the last number of its type.
    ghost faults: { Self → ℕ };

    /// Puts the first bytes of the piece behind what was taken, and answers how many.
    /// For a piece that isn't empty, 0 counts as a fault. Nothing else but a failure moves the count.
    fn put(&mut self, piece: &[u8]) -> Result<usize, Failed>
        ensures count { IfOk result (λ n. n ≤ length piece.now) }
        ensures taken { IfOk result (λ n. Puts (take n piece.now) (taken self.old) (taken self.new)) }
        ensures err { OnErr result (Puts [] (taken self.old) (taken self.new)) }
        ensures cause { PutHasCause piece.now (faults self.old) (faults self.new) result };
}
