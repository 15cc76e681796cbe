//! How a call of the program ends.

ghost use Rattle.std.specs.Prelude.{◌≡◌};
ghost use Rattle.nego_cli.specs.Status.{status_number};

/// How a call of the program ended.
#[derive(Clone, Copy, Debug, PartialEq, Eq)]
pub enum Status {
    /// The answer was put on `out`.
    Done,
    /// The answer was put on `out`, and it says no.
    No,
    /// The words are no command that is built.
    Words,
    /// The input was refused.
    Refused,
    /// The answer was put on `out`, and it decides nothing.
    Undecided,
    /// The source failed.
    ReadFault,
    /// A sink failed.
    WriteFault,
    /// Memory was wanted and not given.
    Memory,
}

impl Status {
    /// The exit status of the program.
    pub fn number(self) -> u8
        ensures { result ≡ status_number self }
    {
        match self {
            Status::Done => 0,
            Status::No => 1,
            Status::Words => 2,
            Status::Refused => 3,
            Status::Undecided => 4,
            Status::ReadFault => 5,
            Status::WriteFault => 6,
            Status::Memory => 9,
        }
    }
}
