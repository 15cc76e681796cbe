//! What the words of a call say.

ghost use Rattle.std.specs.Prelude.{◌≡◌};
ghost use Rattle.nego_cli.specs.declared.command.WordsAnswer.TheVariants.{Memory as NoMemory};

use nego_base::Seq;
use std::alloc::{AllocError, AllocFailed};
use thiserror::Error;

/// A command with its numbers. All but `Node` are built; that one is read as a command, and the program answers
/// them as words that are no command. Start values are 1 to 16 numbers, each at most 999,999; whether they are as many as
/// the agents, and below their sizes, only a diagram tells.
#[derive(Debug, Drop)]
pub enum Command {
    /// The form of a diagram: its counts, whether it is deterministic, and an order of its atoms or a cycle.
    Check,
    /// The reduction of a diagram.
    Reduce,
    /// The replay of a certificate on a diagram.
    Replay,
    /// The answers of a diagram from start values, one of each agent.
    Ask(Seq<u32>),
    /// The run of a schedule from start values, one of each agent.
    Run(Seq<u32>),
    /// The run of all agents over disks and a link: the seed, the most turns, at most 10,000, and start values, one of
    /// each agent.
    Node(u64, u32, Seq<u32>),
    /// A diagram that is made, with so many atoms, from 2 to 64.
    Make(u32),
}

/// Why words give no command.
#[derive(Clone, Copy, Debug, PartialEq, Eq, Error)]
pub enum WordsAnswer {
    /// The words are no command.
    #[error("the words are no command")]
    Words,
    /// Memory was wanted and not given.
    #[error("out of memory")]
    Memory,
}

impl From<AllocError> for WordsAnswer {
    ghost from_gives = { λ _ e. e ≡ NoMemory };

    fn from(_error: AllocError) -> WordsAnswer {
        WordsAnswer::Memory
    }
}

impl From<nego_base::Memory> for WordsAnswer {
    ghost from_gives = { λ _ e. e ≡ NoMemory };

    fn from(_error: nego_base::Memory) -> WordsAnswer {
        WordsAnswer::Memory
    }
}

impl<T: Drop> From<AllocFailed<T>> for WordsAnswer {
    ghost from_gives = { λ _ e. e ≡ NoMemory };

    fn from(_error: AllocFailed<T>) -> WordsAnswer {
        WordsAnswer::Memory
    }
}
