//! Why a journal isn't loaded, or a record isn't appended.
ghost use Rattle.std.specs.Prelude.{◌≡◌};

use nego_base::Memory;
use nego_io::Failed;
use thiserror::Error;

/// Why a journal isn't loaded, or a record isn't appended.
#[derive(Clone, Copy, Debug, PartialEq, Eq, Error)]
pub enum JournalFault {
    /// A call of the disk failed. The journal has to be loaded again.
    #[error("a call of the disk failed")]
    DiskFault,
    /// The journal has 10,000 records.
    #[error("the journal is full")]
    Full,
    /// A record that counts, by its place, spells none.
    #[error("record {0} is off its form")]
    BadRecord(u32),
    /// An earlier append met a fault of the disk.
    #[error("the journal has to be loaded again")]
    MustReload,
    /// Want of memory.
    #[error("out of memory")]
    Memory,
}

impl From<Memory> for JournalFault {
    ghost use Rattle.agent_journal.specs.declared.fault.JournalFault.TheVariants as faults;

    ghost from_gives = { λ _ e. e ≡ faults.Memory };

    fn from(_: Memory) -> JournalFault {
        JournalFault::Memory
    }
}

impl From<Failed> for JournalFault {
    ghost use Rattle.agent_journal.specs.declared.fault.JournalFault.TheVariants as faults;

    ghost from_gives = { λ _ e. e ≡ faults.DiskFault };

    fn from(_: Failed) -> JournalFault {
        JournalFault::DiskFault
    }
}
