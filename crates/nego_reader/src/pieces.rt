//! From lines to what they say, each piece with the lines behind it.

ghost use Rattle.std.specs.Prelude.{◌≡◌, ◌+◌, ◌-◌, ◌<◌, ◌^◌, ◌≤◌, true, false, List, [], ◌∷◌, All, map, option_map, IfSome, IfNone, IfOk, length};
ghost use Rattle.std.specs.List.{flat_map};
ghost use Rattle.nego_base.specs.LineGrammar.{missing_end};
ghost use Rattle.nego_base.specs.declared.fault.Fault.{Fault};
ghost use Rattle.nego_base.specs.declared.line.Line.{Line};
ghost use Rattle.nego_reader.specs.Rows.{Kind, Nego, Agent, Atom, Out, Case, Next, First, Last, End, Row, AgentRow, CaseRow, NextRow, out_rows, atom_rows, rows_of, keyword};
ghost use Rattle.nego_reader.specs.Reading.{walk, line_at, header_at, nothing_at, end_at, last_at, ends_at};
ghost use Rattle.nego_base.specs.LineAnswers.{Gives, Tells, FitsLine};
ghost use Rattle.nego_reader.specs.Answer.{Goes, begins};

use crate::lines::{agent_in, case_in, header_in, named_in, names_in, next_in};
use crate::parsed::{PAgent, PAtom, PCase, PNext, POut, Parsed};
use nego_base::{Fault, FaultKind, Line, ReadFaults, Seq, Word, missing_end};
use std::alloc::Global;

/// The first line and those behind it, where the first begins with this word.
#[tactic(auto, unfolding(crate::specs::Answer::begins))]
fn next_line<'a>(lines: &'a [Line], first: &[u8]) -> Option<(&'a Line, &'a [Line])>
    requires { All FitsLine lines.now }
    ensures parts { IfSome result (λ x. lines.now ≡ x.0.now ∷ x.1.now) }
    ensures found { IfSome result (λ _. begins first.now lines.now ≡ true) }
    ensures line { IfSome result (λ x. FitsLine x.0.now) }
    ensures behind { IfSome result (λ x. All FitsLine x.1.now) }
    ensures none { IfNone result (begins first.now lines.now ≡ false) }
{
    let [line, rest @ ..] = lines else {
        return None;
    };
    match line.words.get(0) {
        Some(word) if word.is(first) => Some((line, rest)),
        _ => None,
    }
}

/// The agents.
fn agents(alloc: Global, lines: &[Line]) -> Result<(Seq<PAgent>, &[Line]), ReadFaults>
    requires { All FitsLine lines.now }
    ensures { Goes (λ x. (map AgentRow x.0, x.1.now)) (Agent ∷ Atom ∷ First ∷ []) lines.now (Atom ∷ First ∷ []) result }
{
    let mut agents = Seq::new(alloc);
    let mut rest = lines;
    while let Some((line, after)) = next_line(rest, b"agent") {
        agents.push(agent_in(alloc, line)?)?;
        rest = after;
    }
    Ok((agents, rest))
}

/// The cases of an outcome.
fn cases(alloc: Global, lines: &[Line]) -> Result<(Seq<PCase>, &[Line]), ReadFaults>
    requires { All FitsLine lines.now }
    ensures { Goes (λ x. (map CaseRow x.0, x.1.now)) (Case ∷ Next ∷ Out ∷ Atom ∷ First ∷ []) lines.now (Next ∷ Out ∷ Atom ∷ First ∷ []) result }
{
    let mut cases = Seq::new(alloc);
    let mut rest = lines;
    while let Some((line, after)) = next_line(rest, b"case") {
        cases.push(case_in(alloc, line)?)?;
        rest = after;
    }
    Ok((cases, rest))
}

/// Where an outcome sends its agents.
fn nexts(alloc: Global, lines: &[Line]) -> Result<(Seq<PNext>, &[Line]), ReadFaults>
    requires { All FitsLine lines.now }
    ensures { Goes (λ x. (map NextRow x.0, x.1.now)) (Next ∷ Out ∷ Atom ∷ First ∷ []) lines.now (Out ∷ Atom ∷ First ∷ []) result }
{
    let mut nexts = Seq::new(alloc);
    let mut rest = lines;
    while let Some((line, after)) = next_line(rest, b"next") {
        nexts.push(next_in(alloc, line)?)?;
        rest = after;
    }
    Ok((nexts, rest))
}

/// The outcome that begins with the line.
fn outcome<'a>(
    alloc: Global,
    line: &Line,
    after: &'a [Line],
) -> Result<(POut, &'a [Line]), ReadFaults>
    requires line { FitsLine line.now }
    requires behind { All FitsLine after.now }
    requires begins { begins (keyword Out) (line.now ∷ after.now) ≡ true }
    ensures shorter { IfOk result (λ x. length x.1.now ≤ length after.now) }
    ensures reads { Goes (λ x. (out_rows x.0, x.1.now)) (Out ∷ Atom ∷ First ∷ []) (line.now ∷ after.now) (Out ∷ Atom ∷ First ∷ []) result }
{
    let name = named_in(alloc, line)?;
    let (cases, rest) = cases(alloc, after)?;
    let (nexts, rest) = nexts(alloc, rest)?;
    Ok((POut { name, cases, nexts }, rest))
}

/// The outcomes of an atom.
fn outs(alloc: Global, lines: &[Line]) -> Result<(Seq<POut>, &[Line]), ReadFaults>
    requires { All FitsLine lines.now }
    ensures { Goes (λ x. (flat_map out_rows x.0, x.1.now)) (Out ∷ Atom ∷ First ∷ []) lines.now (Atom ∷ First ∷ []) result }
{
    let mut outs = Seq::new(alloc);
    let mut rest = lines;
    while let Some((line, after)) = next_line(rest, b"out") {
        let (out, after) = outcome(alloc, line, after)?;
        outs.push(out)?;
        rest = after;
    }
    Ok((outs, rest))
}

/// The atom that begins with the line.
fn atom<'a>(
    alloc: Global,
    line: &Line,
    after: &'a [Line],
) -> Result<(PAtom, &'a [Line]), ReadFaults>
    requires line { FitsLine line.now }
    requires behind { All FitsLine after.now }
    requires begins { begins (keyword Atom) (line.now ∷ after.now) ≡ true }
    ensures shorter { IfOk result (λ x. length x.1.now ≤ length after.now) }
    ensures reads { Goes (λ x. (atom_rows x.0, x.1.now)) (Atom ∷ First ∷ []) (line.now ∷ after.now) (Atom ∷ First ∷ []) result }
{
    let (name, parties) = names_in(alloc, 2, line)?;
    let (outs, rest) = outs(alloc, after)?;
    Ok((
        PAtom {
            name,
            parties,
            outs,
        },
        rest,
    ))
}

/// The atoms.
fn atoms(alloc: Global, lines: &[Line]) -> Result<(Seq<PAtom>, &[Line]), ReadFaults>
    requires { All FitsLine lines.now }
    ensures { Goes (λ x. (flat_map atom_rows x.0, x.1.now)) (Atom ∷ First ∷ []) lines.now (First ∷ []) result }
{
    let mut atoms = Seq::new(alloc);
    let mut rest = lines;
    while let Some((line, after)) = next_line(rest, b"atom") {
        let (atom, after) = atom(alloc, line, after)?;
        atoms.push(atom)?;
        rest = after;
    }
    Ok((atoms, rest))
}

/// The first line, whose first word must be this one, and the lines behind it.
#[tactic(auto, unfolding(crate::specs::Reading::line_at))]
fn line_at<'a>(
    lines: &'a [Line],
    first: &[u8],
    missing: Fault,
) -> Result<(&'a Line, &'a [Line]), Fault>
    requires { All FitsLine lines.now }
    ensures parts { Tells (λ x. (x.0.now, x.1.now)) result (line_at first.now missing lines.now) }
    ensures line { IfOk result (λ x. FitsLine x.0.now) }
    ensures behind { IfOk result (λ x. All FitsLine x.1.now) }
{
    let [line, rest @ ..] = lines else {
        return Err(missing);
    };
    let word = line.word(0)?;
    if word.is(first) {
        Ok((line, rest))
    } else {
        Err(word.fault(FaultKind::Word))
    }
}

/// The lines behind the header.
#[tactic(auto, unfolding(crate::specs::Reading::header_at))]
fn header_at(lines: &[Line], missing: Fault) -> Result<&[Line], Fault>
    requires { All FitsLine lines.now }
    ensures rest { Tells (λ rest. rest.now) result (header_at missing lines.now) }
    ensures fits { IfOk result (λ rest. All FitsLine rest.now) }
{
    let (line, rest) = line_at(lines, b"nego", missing)?;
    header_in(line)?;
    Ok(rest)
}

/// That there is no line.
#[tactic(auto, unfolding(crate::specs::Reading::nothing_at))]
fn nothing_at(lines: &[Line]) -> Result<(), Fault>
    requires { All FitsLine lines.now }
    ensures { Tells (λ _. tt) result (nothing_at lines.now) }
{
    let [line, ..] = lines else {
        return Ok(());
    };
    Err(line.word(0)?.fault(FaultKind::Word))
}

/// That the line `end` comes, and no other behind it.
#[tactic(auto, unfolding(crate::specs::Reading::end_at))]
fn end_at(lines: &[Line], missing: Fault) -> Result<(), Fault>
    requires { All FitsLine lines.now }
    ensures { Tells (λ _. tt) result (end_at missing lines.now) }
{
    let (line, rest) = line_at(lines, b"end", missing)?;
    line.exactly(1)?;
    nothing_at(rest)
}

/// The name of the last atom, behind which the text ends.
#[tactic(auto, unfolding(crate::specs::Reading::last_at))]
fn last_at(alloc: Global, lines: &[Line], missing: Fault) -> Result<Word, ReadFaults>
    requires { All FitsLine lines.now }
    ensures { Gives (λ name. name) result (last_at missing lines.now) }
{
    let (line, rest) = line_at(lines, b"last", missing)?;
    let last = named_in(alloc, line)?;
    end_at(rest, missing)?;
    Ok(last)
}

/// The names of the first and of the last atom, in the last lines.
#[tactic(auto, unfolding(crate::specs::Reading::ends_at))]
fn ends_at(alloc: Global, lines: &[Line], missing: Fault) -> Result<(Word, Word), ReadFaults>
    requires { All FitsLine lines.now }
    ensures { Gives (λ names. names) result (ends_at missing lines.now) }
{
    let (line, rest) = line_at(lines, b"first", missing)?;
    let first = named_in(alloc, line)?;
    let last = last_at(alloc, rest, missing)?;
    Ok((first, last))
}

/// The diagram that the lines of a text of so many lines spell.
pub(crate) fn diagram(alloc: Global, lines: &[Line], count: u32) -> Result<Parsed, ReadFaults>
    requires fits { All FitsLine lines.now }
    requires few { count < 2 ^ 32 - 1 }
    ensures { Gives rows_of result (walk (missing_end count) (Nego ∷ []) lines.now) }
{
    let missing = missing_end(count);
    let rest = header_at(lines, missing)?;
    let (agents, rest) = agents(alloc, rest)?;
    let (atoms, rest) = atoms(alloc, rest)?;
    let (first, last) = ends_at(alloc, rest, missing)?;
    Ok(Parsed {
        agents,
        atoms,
        first,
        last,
    })
}
