//! Disks.
ghost use Rattle.std.specs.Prelude.{◌≡◌, ℕ, ◌<◌, ◌≤◌, length, take, drop, IsTrue, IfOk, OnOk, OnErr};
ghost use Rattle.nego_io.specs.Outside.{HasCause};
ghost use Rattle.nego_io.specs.Disks.{ToldDisks, LeavesNow, LeavesOnly, IsRead, Follows, AreCallsOn, HasContent, IsSynced, overwritten, Torn, Shortened, Ragged};

use crate::Failed;

/// All disks of one program as one object, since a stop meets them all at the same moment. Each call but the first
/// names a disk by its number. An object that tells after a call told before it.
pub trait Disks {
    /// What is told of the disks. The counts of faults stay at the last number of their type.
    ghost told: { Self → ToldDisks };

    /// How many disks there are.
    fn disks(&self) -> u32
        ensures { result ≡ (told self.now).disks };

    /// The length of a disk's content.
    fn len(&mut self, i: u32) -> Result<u64, Failed>
        requires { i < (told self.old).disks }
        ensures length { IfOk result (λ n. IsTrue (told self.new).telling → n ≡ length ((told self.old).content i)) }
        ensures read { IsRead i (told self.old) (told self.new) }
        ensures cause { HasCause ((told self.old).faults i) ((told self.new).faults i) result };

    /// Moves the bytes from a place on into the front of the buffer, as many as are there and as the buffer takes, and
    /// answers how many.
    fn read(&mut self, i: u32, at: u64, buf: &mut [u8]) -> Result<usize, Failed>
        requires { i < (told self.old).disks }
        ensures count { IfOk result (λ n. n ≤ length buf.new) }
        ensures bytes { IfOk result (λ n. IsTrue (told self.new).telling → take n buf.new ≡ take (length buf.new) (drop at ((told self.old).content i))) }
        ensures read { IsRead i (told self.old) (told self.new) }
        ensures cause { HasCause ((told self.old).faults i) ((told self.new).faults i) result };

    /// Writes over what is there, and past its end. Until a sync succeeds, a stop may leave any bytes in the range.
    fn write_at(&mut self, i: u32, at: u64, piece: &[u8]) -> Result<(), Failed>
        requires disk { i < (told self.old).disks }
        requires within { IsTrue (told self.old).telling → at ≤ length ((told self.old).content i) }
        ensures content { OnOk result (HasContent (told self.new) i (overwritten at piece.now ((told self.old).content i))) }
        ensures torn { OnErr result (IsTrue (told self.new).telling → Torn at (length piece.now) ((told self.old).content i) ((told self.new).content i)) }
        ensures images { LeavesOnly (Follows (Torn at (length piece.now)) (told self.old) i) i (told self.old) (told self.new) }
        ensures calls { AreCallsOn i (told self.old) (told self.new) }
        ensures cause { HasCause ((told self.old).faults i) ((told self.new).faults i) result };

    /// Cuts a disk to a length. Until a sync succeeds, a stop may leave any length between.
    fn cut(&mut self, i: u32, to: u64) -> Result<(), Failed>
        requires disk { i < (told self.old).disks }
        requires within { IsTrue (told self.old).telling → to ≤ length ((told self.old).content i) }
        ensures content { OnOk result (HasContent (told self.new) i (take to ((told self.old).content i))) }
        ensures ragged { OnErr result (IsTrue (told self.new).telling → Ragged to ((told self.old).content i) ((told self.new).content i)) }
        ensures images { OnOk result (LeavesOnly (Follows (Shortened to) (told self.old) i) i (told self.old) (told self.new)) }
        ensures images_err { OnErr result (LeavesOnly (Follows (Ragged to) (told self.old) i) i (told self.old) (told self.new)) }
        ensures calls { AreCallsOn i (told self.old) (told self.new) }
        ensures cause { HasCause ((told self.old).faults i) ((told self.new).faults i) result };

    /// Where it succeeds, a stop leaves what a read gives.
    fn sync(&mut self, i: u32) -> Result<(), Failed>
        requires { i < (told self.old).disks }
        ensures synced { OnOk result (IsSynced (told self.new) i) }
        ensures content { OnOk result (HasContent (told self.new) i ((told self.old).content i)) }
        ensures images { LeavesOnly (LeavesNow (told self.old) i) i (told self.old) (told self.new) }
        ensures calls { AreCallsOn i (told self.old) (told self.new) }
        ensures cause { HasCause ((told self.old).faults i) ((told self.new).faults i) result };

    /// The content is one of the disk's images.
    ghost content_is_left: { (d : Self) (i : ℕ) → i < (told d).disks → IsTrue (told d).telling → LeavesNow (told d) i ((told d).content i) };
}
