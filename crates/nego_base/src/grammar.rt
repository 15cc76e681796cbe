//! What readers of texts of lines ask of a line and of a word, each with its fault.
ghost use Rattle.std.specs.Prelude.{◌≡◌, ◌-◌, ◌^◌, ◌<◌};
ghost use Rattle.std.specs.Str.{bytes_eq};
ghost use Rattle.nego_base.specs.Grammar.{at_word, past_line, exact_words, least_words, name_word, number_word, text_word};

use crate::{Fault, FaultKind, Line, Word, is_name, number_of};

impl Line {
    /// The fault of a word that is missing behind the line's last.
    pub fn past_end(&self, kind: FaultKind) -> Fault
        requires { self.now.length < 2 ^ 32 - 1 }
        ensures { result ≡ past_line kind self.now }
    {
        Fault {
            line: self.number,
            column: self.length + 1,
            kind,
        }
    }

    /// That the line has at least n words. Where it has fewer, the fault is `Count` behind its last byte.
    #[tactic(auto, unfolding(crate::specs::Grammar::least_words))]
    pub fn at_least(&self, n: usize) -> Result<(), Fault>
        requires { self.now.length < 2 ^ 32 - 1 }
        ensures { result ≡ least_words n self.now }
    {
        if self.words.len() < n {
            return Err(self.past_end(FaultKind::Count));
        }
        Ok(())
    }

    /// That the line has n words and no more. The fault is `Count`, at the first word too many, or behind the line's
    /// last byte where there are too few.
    #[tactic(auto, unfolding(crate::specs::Grammar::exact_words))]
    pub fn exactly(&self, n: usize) -> Result<(), Fault>
        requires { self.now.length < 2 ^ 32 - 1 }
        ensures { result ≡ exact_words n self.now }
    {
        match self.words.get(n) {
            Some(word) => Err(word.fault(FaultKind::Count)),
            None => self.at_least(n),
        }
    }
}

impl Word {
    /// A fault at the word.
    pub fn fault(&self, kind: FaultKind) -> Fault
        ensures { result ≡ at_word kind self.now }
    {
        Fault {
            line: self.line,
            column: self.column,
            kind,
        }
    }

    /// Whether the word has these bytes.
    pub fn is(&self, text: &[u8]) -> bool
        ensures { result ≡ bytes_eq self.now.text text.now }
    {
        self.text.as_slice() == text
    }

    /// That the word has these bytes, or a fault `Word` there.
    #[tactic(auto, unfolding(crate::specs::Grammar::text_word))]
    pub fn expect(&self, text: &[u8]) -> Result<(), Fault>
        ensures { result ≡ text_word text.now self.now }
    {
        if self.is(text) {
            Ok(())
        } else {
            Err(self.fault(FaultKind::Word))
        }
    }

    /// That the word is a name, or a fault `Name` there.
    #[tactic(auto, unfolding(crate::specs::Grammar::name_word))]
    pub fn name(&self) -> Result<(), Fault>
        ensures { result ≡ name_word self.now }
    {
        if is_name(self.text.as_slice()) {
            Ok(())
        } else {
            Err(self.fault(FaultKind::Name))
        }
    }

    /// The number that the word is, or a fault `Number` there.
    #[tactic(auto, unfolding(crate::specs::Grammar::number_word))]
    pub fn number(&self) -> Result<u32, Fault>
        ensures { result ≡ number_word self.now }
    {
        number_of(self.text.as_slice()).ok_or(self.fault(FaultKind::Number))
    }
}
