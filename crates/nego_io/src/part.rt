ghost use Rattle.std.specs.Prelude.{◌≡◌, ◌-◌, ◌^◌, ◌<◌, ◌≤◌, [], IfOk, length};
ghost use Rattle.nego_io.specs.Outside.{WhereTold};
ghost use Rattle.nego_io.specs.Part.{reading, Whole};
ghost use Rattle.nego_io.specs.Answer.{Answers, PartHasCause};
ghost use Rattle.nego_io.specs.declared.part.ReadAnswer.TheVariants.{ReadFault, Memory as Starved};

use crate::front::{Front, MAX_REACH};
use crate::{Failed, Source};
use nego_base::{Memory, Text};
use std::alloc::Global;
use thiserror::Error;

/// The bytes of a part: lines, of which the last is the first whose only word is `end`.
#[derive(Debug, Drop)]
pub struct Part {
    pub bytes: Text,
}

/// Why no part was read.
#[derive(Clone, Copy, Debug, PartialEq, Eq, Error)]
pub enum ReadAnswer {
    /// A call of the source failed.
    #[error("the source failed")]
    ReadFault,
    /// The part has more bytes than the limit.
    #[error("the part is too long")]
    TooLong,
    /// The input ended before the line `end`, which is missing on this line. The first line is 1.
    #[error("no end on line {line}")]
    NoEnd { line: u32 },
    /// Want of memory.
    #[error("out of memory")]
    Memory,
}

impl From<Failed> for ReadAnswer {
    ghost from_gives = { λ _ e. e ≡ ReadFault };

    fn from(_error: Failed) -> ReadAnswer {
        ReadAnswer::ReadFault
    }
}

impl From<Memory> for ReadAnswer {
    ghost from_gives = { λ _ e. e ≡ Starved };

    fn from(_error: Memory) -> ReadAnswer {
        ReadAnswer::Memory
    }
}

/// Reads the part that the input begins with, in pieces of which each byte belongs to it, and leaves what is behind it,
/// also where a call fails or memory is wanted. It takes at most `limit + 1` bytes. Programs take all their input so.
pub fn read_part<S: Source>(alloc: Global, source: &mut S, limit: u32) -> Result<Part, ReadAnswer>
    requires { limit < 2 ^ 32 - 1 }
    // Where the source tells, each answer has its cause in what was left.
    ensures answers { WhereTold (S.left source.old) (S.left source.new) (Answers limit result) }
    // Whether it tells or not, the bytes are a part and no more.
    ensures whole { IfOk result (λ part. reading limit part.bytes ≡ Whole part.bytes []) }
    ensures fits { IfOk result (λ part. length part.bytes ≤ limit) }
    ensures cause { PartHasCause result (S.faults source.old) (S.faults source.new) }
    ensures later { S.faults source.old ≤ S.faults source.new }
{
    let mut front = Front::new(alloc);
    let mut buf = [0u8; MAX_REACH];
    loop {
        let room = limit as usize + 1 - front.bytes.len();
        let most = front.reach().min(room);
        let count = source.take(&mut buf[..most])?;
        if count == 0 {
            return front.finish();
        }
        if count == room {
            return Err(ReadAnswer::TooLong);
        }
        if front.put(&buf[..count])? {
            return Ok(Part { bytes: front.bytes });
        }
    }
}
