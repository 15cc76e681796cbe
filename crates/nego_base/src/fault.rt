//! Where and why a text of lines is refused.
ghost use Rattle.std.specs.Prelude.{◌≡◌};
ghost use Rattle.nego_base.specs.declared.fault.ScanAnswer.TheVariants as scan_answers;
ghost use Rattle.nego_base.specs.declared.fault.ReadFaults.TheVariants as read_faults;
ghost use Rattle.nego_base.specs.Scan.{read_fault_of};

use crate::Memory;
use thiserror::Error;

/// Why a text of lines is refused at a place.
#[derive(Clone, Copy, Debug, PartialEq, Eq)]
pub enum FaultKind {
    /// A line, also a comment, has more than 1,024 bytes without its end.
    Line,
    /// A line that isn't a comment has a byte that is neither a blank nor from 0x21 to 0x7E.
    Byte,
    /// The first line has the right first word, and its second isn't `1`.
    Version,
    /// A line's first word isn't one that may stand there, or the text ends without `end`.
    Word,
    /// A line has too many or too few words.
    Count,
    /// A word that must be a name isn't one.
    Name,
    /// A word that must be a number isn't one.
    Number,
    /// A word of a case line is off its grammar, or `:` doesn't stand once in the line.
    Case,
    /// No agent of the diagram has the name.
    Agent,
    /// There is one event too many.
    Many,
}

/// A fault of a text of lines, at a place. Lines and columns count from 1; a column is the place of a byte in its line.
#[derive(Clone, Copy, Debug, PartialEq, Eq)]
pub struct Fault {
    pub line: u32,
    pub column: u32,
    pub kind: FaultKind,
}

/// Why a text wasn't scanned.
#[derive(Clone, Copy, Debug, PartialEq, Eq, Error)]
pub enum ScanAnswer {
    /// The text has a fault of kind `Line` or `Byte`.
    #[error("a line is too long or has a wrong byte")]
    Off(Fault),
    /// Want of memory.
    #[error("out of memory")]
    Memory,
}

/// Why a text of lines wasn't read.
#[derive(Clone, Copy, Debug, PartialEq, Eq, Error)]
pub enum ReadFaults {
    /// The text is off its grammar.
    #[error("the text is off its grammar")]
    Off(Fault),
    /// Want of memory.
    #[error("out of memory")]
    Memory,
}

impl From<Memory> for ScanAnswer {
    ghost from_gives = { λ _ e. e ≡ scan_answers.Memory };

    fn from(_error: Memory) -> ScanAnswer {
        ScanAnswer::Memory
    }
}

impl From<Fault> for ScanAnswer {
    ghost from_gives = { λ fault e. e ≡ scan_answers.Off fault };

    fn from(fault: Fault) -> ScanAnswer {
        ScanAnswer::Off(fault)
    }
}

impl From<Memory> for ReadFaults {
    ghost from_gives = { λ _ e. e ≡ read_faults.Memory };

    fn from(_error: Memory) -> ReadFaults {
        ReadFaults::Memory
    }
}

impl From<Fault> for ReadFaults {
    ghost from_gives = { λ fault e. e ≡ read_faults.Off fault };

    fn from(fault: Fault) -> ReadFaults {
        ReadFaults::Off(fault)
    }
}

impl From<ScanAnswer> for ReadFaults {
    ghost from_gives = { λ answer e. e ≡ read_fault_of answer };

    fn from(answer: ScanAnswer) -> ReadFaults {
        match answer {
            ScanAnswer::Off(fault) => ReadFaults::Off(fault),
            ScanAnswer::Memory => ReadFaults::Memory,
        }
    }
}
