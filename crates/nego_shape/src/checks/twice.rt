//! Names that stand twice.

ghost use Rattle.std.specs.Prelude.{◌≡◌, List, take, slice_get};
ghost use Rattle.std.specs.Option.{option_copied};
ghost use Rattle.nego_base.specs.declared.line.Word.{Word};
ghost use Rattle.nego_base.specs.Firsts.{first_among, first_numbered};
ghost use Rattle.nego_reader.specs.declared.parsed.PSet.{PSet};
ghost use Rattle.std.specs.Str.{bytes_eq};
ghost use Rattle.nego_shape.specs.Faults.{stands_in, again, repeated, is_led, sent_again, twice_in_out, twice_in_atom, twice_words};

use nego_base::Word;
use nego_reader::{PAgent, PAtom, PCase, PNext, POut, PSet, Parsed};

/// What has or names a name.
trait Named {
    ghost name_of: { Self → Word };

    fn name(&self) -> &Word
        ensures { result.now ≡ name_of self.now };
}

impl Named for PAgent {
    ghost name_of = { λ agent. agent.name };

    fn name(&self) -> &Word {
        &self.name
    }
}

impl Named for PAtom {
    ghost name_of = { λ atom. atom.name };

    fn name(&self) -> &Word {
        &self.name
    }
}

impl Named for POut {
    ghost name_of = { λ out. out.name };

    fn name(&self) -> &Word {
        &self.name
    }
}

impl Named for PSet {
    ghost name_of = { λ set. set.agent };

    fn name(&self) -> &Word {
        &self.agent
    }
}

impl Named for Word {
    ghost name_of = { λ word. word };

    fn name(&self) -> &Word {
        self
    }
}

/// Whether two words have the same bytes.
fn is_same(word: &Word, other: &Word) -> bool
    ensures { result ≡ bytes_eq other.now.text word.now.text }
{
    other.text.as_slice() == word.text.as_slice()
}

/// Whether the word stands among these.
fn stands_in(words: &[Word], word: &Word) -> bool
    ensures { result ≡ stands_in words.now word.now }
{
    words.iter().any(|other| is_same(word, other))
}

/// The item's name, where one before it has this name too.
fn again<'a, T: Named>(before: &[T], item: &'a T) -> Option<&'a Word>
    ensures { option_copied result ≡ slice_get (again T.name_of before.now item.now) 0 }
{
    let word = item.name();
    if before.iter().any(|other| is_same(word, other.name())) {
        Some(word)
    } else {
        None
    }
}

/// The first name that an earlier item has.
#[tactic(auto, unfolding(crate::specs::Faults::numbered))]
fn repeated<T: Named>(items: &[T]) -> Option<&Word>
    ensures { option_copied result ≡ slice_get (repeated T.name_of items.now) 0 }
{
    for (i, item) in items.iter().enumerate() {
        if let Some(word) = again(&items[..i], item) {
            return Some(word);
        }
    }
    None
}

/// The first agent that a case assigns twice.
#[tactic(auto, unfolding(nego_base::specs::Firsts::first_among))]
fn twice_in_cases(cases: &[PCase]) -> Option<&Word>
    ensures { option_copied result ≡ first_among (λ case. slice_get (repeated (λ (set : PSet). set.agent) case.sets) 0) cases.now }
{
    for case in cases {
        if let Some(word) = repeated(case.sets.as_slice()) {
            return Some(word);
        }
    }
    None
}

/// Whether the agent stands on one of the lines, which is for this atom.
fn is_led(nexts: &[PNext], atom: &Word, agent: &Word) -> bool
    ensures { result ≡ is_led nexts.now atom.now agent.now }
{
    nexts.iter().any(|next| is_same(atom, &next.atom) && stands_in(next.agents.as_slice(), agent))
}

/// The first agent of a next line who stands on it before, or on an earlier line for the same atom.
#[tactic(auto, unfolding(crate::specs::Faults::numbered))]
fn sent_again<'a>(earlier: &[PNext], next: &'a PNext) -> Option<&'a Word>
    ensures { option_copied result ≡ slice_get (sent_again earlier.now next.now) 0 }
{
    let agents = next.agents.as_slice();
    for (i, agent) in agents.iter().enumerate() {
        if stands_in(&agents[..i], agent) || is_led(earlier, &next.atom, agent) {
            return Some(agent);
        }
    }
    None
}

/// The first agent who stands twice on next lines for one atom.
#[tactic(auto, unfolding(nego_base::specs::Firsts::first_numbered))]
fn twice_on_nexts(nexts: &[PNext]) -> Option<&Word>
    ensures { option_copied result ≡ first_numbered (λ k next. slice_get (sent_again (take k nexts.now) next) 0) 0 nexts.now }
{
    for (i, next) in nexts.iter().enumerate() {
        if let Some(word) = sent_again(&nexts[..i], next) {
            return Some(word);
        }
    }
    None
}

/// The first name that stands twice from the outcome's name on, with these outcomes before it.
fn twice_in_out<'a>(before: &[POut], out: &'a POut) -> Option<&'a Word>
    ensures { option_copied result ≡ slice_get (twice_in_out before.now out.now) 0 }
{
    if let Some(word) = again(before, out) {
        return Some(word);
    }
    if let Some(word) = twice_in_cases(out.cases.as_slice()) {
        return Some(word);
    }
    twice_on_nexts(out.nexts.as_slice())
}

/// The first name that stands twice in the outcomes of an atom.
#[tactic(auto, unfolding(nego_base::specs::Firsts::first_numbered))]
fn twice_in_outs(outs: &[POut]) -> Option<&Word>
    ensures { option_copied result ≡ first_numbered (λ i out. slice_get (twice_in_out (take i outs.now) out) 0) 0 outs.now }
{
    for (i, out) in outs.iter().enumerate() {
        if let Some(word) = twice_in_out(&outs[..i], out) {
            return Some(word);
        }
    }
    None
}

/// The first name that stands twice from the atom's name on, with these atoms before it.
fn twice_in_atom<'a>(before: &[PAtom], atom: &'a PAtom) -> Option<&'a Word>
    ensures { option_copied result ≡ slice_get (twice_in_atom before.now atom.now) 0 }
{
    if let Some(word) = again(before, atom) {
        return Some(word);
    }
    if let Some(word) = repeated(atom.parties.as_slice()) {
        return Some(word);
    }
    twice_in_outs(atom.outs.as_slice())
}

/// The first name that stands twice in the atoms.
#[tactic(auto, unfolding(nego_base::specs::Firsts::first_numbered))]
fn twice_in_atoms(atoms: &[PAtom]) -> Option<&Word>
    ensures { option_copied result ≡ first_numbered (λ n atom. slice_get (twice_in_atom (take n atoms.now) atom) 0) 0 atoms.now }
{
    for (n, atom) in atoms.iter().enumerate() {
        if let Some(word) = twice_in_atom(&atoms[..n], atom) {
            return Some(word);
        }
    }
    None
}

/// The first name that stands twice.
pub(crate) fn twice_in(p: &Parsed) -> Option<&Word>
    ensures { option_copied result ≡ slice_get (twice_words p.now) 0 }
{
    if let Some(word) = repeated(p.agents.as_slice()) {
        return Some(word);
    }
    twice_in_atoms(p.atoms.as_slice())
}
