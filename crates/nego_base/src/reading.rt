//! What readers of texts of lines do alike, each by the grammar of its lines.
ghost use Rattle.std.specs.Prelude.{◌≡◌, ◌-◌, ◌^◌, ◌<◌, IfOk};
ghost use Rattle.nego_base.specs.LineAnswers.{FitsLine, Tells};
ghost use Rattle.nego_base.specs.LineGrammar.{missing_end};
ghost use Rattle.nego_base.specs.LineWalk.{word_in};

use crate::{Fault, FaultKind, Line, Memory, ShortText, Word};
use std::alloc::Global;

impl Line {
    /// The word at a place of the line, counted from 0, or a fault `Count` behind the line's last byte.
    #[tactic(auto, unfolding(crate::specs::LineWalk::word_in))]
    pub fn word(&self, i: usize) -> Result<&Word, Fault>
        requires { FitsLine self.now }
        ensures { Tells (λ word. word.now) result (word_in self.now i) }
    {
        self.words.get(i).ok_or(self.past_end(FaultKind::Count))
    }
}

impl Word {
    /// The same word.
    pub fn copied(&self, alloc: Global) -> Result<Word, Memory>
        ensures { IfOk result (λ copy. copy ≡ self.now) }
    {
        Ok(Word {
            line: self.line,
            column: self.column,
            text: ShortText::copy(alloc, self.text.as_slice())?,
        })
    }
}

/// The fault of a text of so many lines whose last line is missing, on the line behind them.
pub fn missing_end(count: u32) -> Fault
    requires { count < 2 ^ 32 - 1 }
    ensures { result ≡ missing_end count }
{
    Fault {
        line: count + 1,
        column: 1,
        kind: FaultKind::Word,
    }
}
