//! An agent's journal.
ghost use Rattle.std.specs.Prelude.{◌≡◌, ℕ, ◌<◌, ◌≤◌, ◌+◌, ◌*◌, ◌++◌, ◌∷◌, [], ◌↔◌, ◌⊎◌, false, true, All, length, take, List, IsTrue, IfOk, IfErr, OnOk};
ghost use Rattle.nego_io.specs.Disks.{LeavesOnly, AreCallsOn, HasContent, overwritten};
ghost use Rattle.agent_msg.specs.Records.{PlainRecord, entry, entries, IsTidy};
ghost use Rattle.agent_msg.specs.Bytes.{RecordFits, entry_bytes};
ghost use Rattle.agent_journal.specs.Slots.{kept, StandsFor};
ghost use Rattle.agent_journal.specs.Journal.{IsSettled, IsReady, KeepsSome, KeepsOrAdds, BeginsWith, LoadFails, AppendFails, after_append};

use crate::JournalFault;
use crate::slots::{MOST, put, read_records, repair};
use agent_msg::Record;
use nego_base::Seq;
use nego_io::Disks;
use std::alloc::Global;
use std::marker::Model;

/// A journal on a disk. Contracts see how many records it has, and whether it has to be loaded again.
#[derive(Debug, Drop)]
pub struct Journal {
    count: u32,
    failed: bool,
}

impl Model for Journal {
    ghost use Rattle.std.specs.Prelude.{◌≤◌};
    ghost use Rattle.agent_journal.specs.Journal.{JournalState};

    ghost Value = { JournalState };

    ghost view = { λ j. record { count = j.count; failed = j.failed } };

    ghost invariant = { λ j. j.count ≤ 10000 };
}

impl Journal {
    /// The journal that a disk keeps, and its records. What stands behind the records that count is cut off, and the
    /// next gate closed. A stop at any moment leaves an image that keeps the records of one that was there before.
    pub fn load<D: Disks>(
        alloc: Global,
        disks: &mut D,
        i: u32,
    ) -> Result<(Journal, Seq<Record>), JournalFault>
        requires { i < (D.told disks.old).disks }
        ensures records { IfOk result (λ r. IsTrue (D.told disks.new).telling → StandsFor ((D.told disks.old).content i) (entries r.1)) }
        ensures tidy { IfOk result (λ r. All IsTidy r.1) }
        ensures journal { IfOk result (λ r. r.0 ≡ record { count = length r.1; failed = false }) }
        ensures settled { IfOk result (λ r. IsSettled (D.told disks.new) i (length r.1)) }
        ensures content { IfOk result (λ r. HasContent (D.told disks.new) i (take (128 * length r.1) ((D.told disks.old).content i) ++ 0 ∷ [])) }
        ensures kept { IfOk result (λ r. IsTrue (D.told disks.new).telling → kept ((D.told disks.new).content i) ≡ kept ((D.told disks.old).content i)) }
        ensures stayed { IfOk result (λ _. (D.told disks.new).faults i ≡ (D.told disks.old).faults i) }
        ensures images { LeavesOnly (KeepsSome (D.told disks.old) i) i (D.told disks.old) (D.told disks.new) }
        ensures calls { AreCallsOn i (D.told disks.old) (D.told disks.new) }
        ensures err { IfErr result (LoadFails i (D.told disks.old) (D.told disks.new)) }
    {
        disks.sync(i)?;
        let records = read_records(alloc, disks, i)?;
        let count = records.len() as u32;
        repair(disks, i, count)?;
        let journal = Journal {
            count,
            failed: false,
        };
        Ok((journal, records))
    }

    /// Appends a record. A stop at any moment leaves an image that keeps the records from before, or these and the new
    /// one; once it answers Ok each image keeps the new one too.
    pub fn append<D: Disks>(
        &mut self,
        disks: &mut D,
        i: u32,
        r: &Record,
    ) -> Result<(), JournalFault>
        requires disk { i < (D.told disks.old).disks }
        requires spelled { RecordFits (entry r.now) }
        requires ready { IsReady self.old (D.told disks.old) i }
        ensures must_reload { (result ≡ Err JournalFault.MustReload) ↔ (self.old.failed ≡ true) }
        ensures full { (result ≡ Err JournalFault.Full) ↔ ((self.old.failed ≡ false) × (self.old.count ≡ 10000)) }
        ensures journal { self.new ≡ after_append result self.old }
        ensures err { IfErr result (AppendFails i (D.told disks.old) (D.told disks.new)) }
        ensures untouched { (self.old.failed ≡ true) ⊎ (self.old.count ≡ 10000) → disks.new ≡ disks.old }
        ensures settled { OnOk result (IsSettled (D.told disks.new) i (self.old.count + 1)) }
        ensures content { OnOk result (HasContent (D.told disks.new) i (overwritten (128 * self.old.count) (1 ∷ (entry_bytes (entry r.now) ++ 0 ∷ [])) ((D.told disks.old).content i))) }
        ensures added { OnOk result (IsTrue (D.told disks.new).telling → kept ((D.told disks.new).content i) ≡ kept ((D.told disks.old).content i) ++ entry_bytes (entry r.now) ∷ []) }
        ensures stayed { OnOk result ((D.told disks.new).faults i ≡ (D.told disks.old).faults i) }
        ensures images { self.old.failed ≡ false → LeavesOnly (KeepsOrAdds (kept ((D.told disks.old).content i)) (entry r.now)) i (D.told disks.old) (D.told disks.new) }
        ensures grows { (journal : List PlainRecord) (from : ℕ) → BeginsWith journal from i (D.told disks.old) → BeginsWith journal from i (D.told disks.new) }
        ensures calls { AreCallsOn i (D.told disks.old) (D.told disks.new) }
    {
        if self.failed {
            return Err(JournalFault::MustReload);
        }
        if self.count >= MOST {
            return Err(JournalFault::Full);
        }
        match put(disks, i, self.count, r) {
            Ok(()) => {
                self.count += 1;
                Ok(())
            }
            Err(_) => {
                self.failed = true;
                Err(JournalFault::DiskFault)
            }
        }
    }
}
