//! Names as words. What is made stands in no text: each of its words has line 1 and column 1.
ghost use Rattle.std.specs.Prelude.{◌≡◌, ◌∷◌, map, decimal, IfOk};
ghost use Rattle.nego_reader.specs.Content.{texts};
ghost use Rattle.nego_make.specs.Generated.{agent_name, atom_name};

use nego_base::{Memory, Seq, ShortText, Text, Word};
use std::alloc::Global;

/// The bytes as a word.
pub(crate) fn word(alloc: Global, bytes: &[u8]) -> Result<Word, Memory>
    ensures { IfOk result (λ word. word.text ≡ bytes.now) }
{
    Ok(Word {
        line: 1,
        column: 1,
        text: ShortText::copy(alloc, bytes)?,
    })
}

/// The letter and the number.
fn numbered(alloc: Global, letter: u8, k: u32) -> Result<Word, Memory>
    ensures { IfOk result (λ word. word.text ≡ letter ∷ decimal k) }
{
    let mut text = Text::copy(alloc, &[letter])?;
    text.push_decimal(u64::from(k))?;
    Ok(Word {
        line: 1,
        column: 1,
        text: ShortText::copy(alloc, text.as_slice())?,
    })
}

/// The name of agent a.
pub(crate) fn agent_name(alloc: Global, a: u32) -> Result<Word, Memory>
    ensures { IfOk result (λ word. word.text ≡ agent_name a) }
{
    numbered(alloc, b'a', a)
}

/// The name of atom i.
pub(crate) fn atom_name(alloc: Global, i: u32) -> Result<Word, Memory>
    ensures { IfOk result (λ word. word.text ≡ atom_name i) }
{
    numbered(alloc, b'm', i)
}

/// The names of the agents.
pub(crate) fn agent_names(alloc: Global, agents: &[u32]) -> Result<Seq<Word>, Memory>
    ensures { IfOk result (λ words. texts words ≡ map agent_name agents.now) }
{
    let mut words = Seq::new(alloc);
    for a in agents {
        words.push(agent_name(alloc, *a)?)?;
    }
    Ok(words)
}
