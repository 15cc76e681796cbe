//! The diagram of a text that has no fault of shape but that of cases which leave joint data uncovered. Names become
//! numbers in the order of the text.

ghost use Rattle.std.specs.Prelude.{◌≡◌, ◌+◌, ◌<◌, ◌≤◌, ◌==◌, ◌&&◌, ◌++◌, ℕ, [], length, map, take, All, Contains, IfOk, IfErr, OnOk};
ghost use Rattle.std.specs.List.{range_with_len, list_any};
ghost use Rattle.nego_base.specs.Members.{is_in, IsRisingBelow};
ghost use Rattle.nego_data.specs.Cases.{rows_of};
ghost use Rattle.nego_model.specs.Parts.{plain_outcome};
ghost use Rattle.nego_reader.specs.Content.{content_of, atom_content, out_content, case_content};
ghost use Rattle.nego_shape.specs.Answer.{Tells};
ghost use Rattle.nego_shape.specs.Faults.{numbered, uncovered, faults, first_of};
ghost use Rattle.nego_shape.specs.Naming.{sizes_in, all_outs, parties_at, next_atoms, case_in, cases_in, outcome_in, diagram_in};
ghost use Rattle.nego_shape.specs.Conditions.{IsFormed, AllCovered};
ghost use Rattle.nego_shape.specs.Shaped.{HasNameWords};
ghost use Rattle.nego_shape.specs.Made.{placed_at, parts_from, next_numbers, out_numbers, atom_numbers};

use crate::fault::{ShapeAnswer, ShapeFault, ShapeKind};
use crate::numbering::Numbered;
use crate::numbers::{AtomNumbers, NextNumbers, OutNumbers};
use crate::sizing::sizes_of;
use nego_base::{AgentId, AgentSet, AtomId, AtomSet, Memory, OutcomeId, Seq, Text};
use nego_data::cases::Case;
use nego_data::{Sizes, Table, TableFault, TableMaker};
use nego_model::{AtomPart, Diagram, OutcomePart, Parts};
use nego_reader::{PAtom, POut, Parsed};
use std::alloc::Global;

/// The diagram that the text is, or the fault of its first outcome whose cases leave joint data uncovered. The text has
/// no other fault of shape, and its words are names, as those of a text that was read.
pub(crate) fn diagram(
    alloc: Global,
    p: &Numbered,
    numbers: &[AtomNumbers],
) -> Result<Diagram, ShapeAnswer>
    requires shaped { IsFormed (content_of p.now) }
    requires named { HasNameWords (content_of p.now) }
    requires numbers { numbers.now ≡ map (atom_numbers (content_of p.now)) p.now.atoms }
    ensures total { IfOk result (λ _. faults AllCovered p.now ≡ []) }
    ensures content { IfOk result (λ d. d ≡ diagram_in (content_of p.now)) }
    ensures err { IfErr result (λ e. Tells e (first_of (faults AllCovered p.now))) }
{
    let text = p.text();
    let agents = names_of(alloc, text)?;
    let sizes = sizes_of(alloc, text)?;
    let atoms = atoms_of(alloc, p, numbers)?;
    let outcomes = outcomes_of(alloc, p, &sizes, numbers)?;
    Ok(Diagram::from_parts(Parts {
        agents,
        sizes,
        atoms,
        outcomes,
        first: p.atom(&text.first),
        last: p.atom(&text.last),
    }))
}

/// The agents' names.
fn names_of(alloc: Global, p: &Parsed) -> Result<Seq<Text>, Memory>
    ensures { IfOk result (λ names. names ≡ map (λ agent. agent.name.text) p.now.agents) }
{
    let mut names = Seq::new(alloc);
    for agent in p.agents.iter() {
        names.push(Text::copy(alloc, agent.name.text.as_slice())?)?;
    }
    Ok(names)
}

/// The atoms; the outcomes of each have the numbers behind those of the atoms before.
fn atoms_of(alloc: Global, p: &Numbered, numbers: &[AtomNumbers]) -> Result<Seq<AtomPart>, Memory>
    requires shaped { IsFormed (content_of p.now) }
    requires numbers { numbers.now ≡ map (atom_numbers (content_of p.now)) p.now.atoms }
    ensures { IfOk result (λ parts. parts ≡ parts_from (content_of p.now) 0 (map atom_content p.now.atoms)) }
{
    let mut parts = Seq::new(alloc);
    let mut start = 0;
    let atoms = p.text().atoms.as_slice();
    for (n, atom) in atoms.iter().enumerate() {
        parts.push(atom_part(alloc, atom, numbers[n].parties, start)?)?;
        start += atom.outs.len() as u32;
    }
    Ok(parts)
}

/// The atom with these parties, whose outcomes begin with this number.
fn atom_part(alloc: Global, atom: &PAtom, parties: AgentSet, start: u32) -> Result<AtomPart, Memory>
    requires { length atom.now.outs ≤ 256 }
    ensures { IfOk result (λ part. part ≡ record { name = atom.now.name.text; parties = parties; start = start; count = length atom.now.outs }) }
{
    Ok(AtomPart {
        name: Text::copy(alloc, atom.name.text.as_slice())?,
        parties,
        start,
        count: atom.outs.len() as u32,
    })
}

/// The outcomes of all atoms, or the fault of the first whose cases leave joint data uncovered.
fn outcomes_of(
    alloc: Global,
    p: &Numbered,
    sizes: &Sizes,
    numbers: &[AtomNumbers],
) -> Result<Seq<OutcomePart>, ShapeAnswer>
    requires shaped { IsFormed (content_of p.now) }
    requires sizes { sizes.now ≡ sizes_in (content_of p.now) }
    requires numbers { numbers.now ≡ map (atom_numbers (content_of p.now)) p.now.atoms }
    ensures parts { IfOk result (λ parts. map (plain_outcome (length p.now.agents)) parts ≡ map (outcome_in (content_of p.now)) (all_outs (content_of p.now))) }
    ensures total { IfOk result (λ _. faults AllCovered p.now ≡ []) }
    ensures err { IfErr result (λ e. Tells e (first_of (faults AllCovered p.now))) }
{
    let atoms = p.text().atoms.as_slice();
    let mut outcomes = Seq::new(alloc);
    for (n, atom) in atoms.iter().enumerate() {
        add_outcomes(
            alloc,
            p,
            sizes,
            n,
            atom.outs.as_slice(),
            &numbers[n],
            &mut outcomes,
        )?;
    }
    Ok(outcomes)
}

/// Puts the outcomes of atom n behind those of the atoms before, or answers the fault of the first whose cases leave
/// joint data uncovered.
fn add_outcomes(
    alloc: Global,
    p: &Numbered,
    sizes: &Sizes,
    n: usize,
    outs: &[POut],
    numbers: &AtomNumbers,
    outcomes: &mut Seq<OutcomePart>,
) -> Result<(), ShapeAnswer>
    requires shaped { IsFormed (content_of p.now) }
    requires sizes { sizes.now ≡ sizes_in (content_of p.now) }
    requires atom { n < length p.now.atoms }
    requires outs { All (λ out. Contains (all_outs (content_of p.now)) (placed_at n (out_content out))) outs.now }
    requires parties { numbers.now.parties ≡ parties_at (content_of p.now) n }
    requires numbers { numbers.now.outs ≡ map (out_numbers (content_of p.now)) outs.now }
    requires few { length outcomes.old + length outs.now ≤ 256 }
    ensures parts { OnOk result (map (plain_outcome (length p.now.agents)) outcomes.new ≡ map (plain_outcome (length p.now.agents)) outcomes.old ++ map (λ out. outcome_in (content_of p.now) (placed_at n (out_content out))) outs.now) }
    ensures total { OnOk result (numbered (uncovered (content_of p.now)) (length outcomes.old) outs.now ≡ []) }
    ensures err { IfErr result (λ e. Tells e (first_of (numbered (uncovered (content_of p.now)) (length outcomes.old) outs.now))) }
{
    let mut maker = TableMaker::new(alloc, sizes, numbers.parties);
    for (i, out) in outs.iter().enumerate() {
        let o = OutcomeId(outcomes.len() as u32);
        outcomes.push(outcome_part(alloc, p, &mut maker, n, o, out, &numbers.outs[i])?)?;
    }
    Ok(())
}

/// Outcome o, as one of atom n, or its fault where its cases leave joint data uncovered.
fn outcome_part(
    alloc: Global,
    p: &Numbered,
    maker: &mut TableMaker,
    n: usize,
    o: OutcomeId,
    out: &POut,
    numbers: &OutNumbers,
) -> Result<OutcomePart, ShapeAnswer>
    requires shaped { IsFormed (content_of p.now) }
    requires sizes { maker.old.sizes ≡ sizes_in (content_of p.now) }
    requires parties { maker.old.parties ≡ parties_at (content_of p.now) n }
    requires atom { n < length p.now.atoms }
    requires out { Contains (all_outs (content_of p.now)) (placed_at n (out_content out.now)) }
    requires numbers { numbers.now ≡ out_numbers (content_of p.now) out.now }
    ensures part { IfOk result (λ part. plain_outcome (length p.now.agents) part ≡ outcome_in (content_of p.now) (placed_at n (out_content out.now))) }
    ensures total { IfOk result (λ _. uncovered (content_of p.now) o.0 out.now ≡ []) }
    ensures err { IfErr result (λ e. Tells e (first_of (uncovered (content_of p.now) o.0 out.now))) }
    ensures maker { maker.new ≡ maker.old }
{
    Ok(OutcomePart {
        name: Text::copy(alloc, out.name.text.as_slice())?,
        atom: AtomId(n as u32),
        nexts: next_sets(p, n, out, numbers.nexts.as_slice()),
        table: table(alloc, p, maker, n, o, out, numbers.cases.as_slice())?,
    })
}

/// For each agent its next atoms after the outcome.
fn next_sets(p: &Numbered, n: usize, out: &POut, nexts: &[NextNumbers]) -> [AtomSet; 16]
    requires shaped { IsFormed (content_of p.now) }
    requires out { Contains (all_outs (content_of p.now)) (placed_at n (out_content out.now)) }
    requires nexts { nexts.now ≡ map (next_numbers (content_of p.now)) out.now.nexts }
    ensures { take (length p.now.agents) result ≡ map (next_atoms (content_of p.now) (out_content out.now)) (range_with_len 0 (length p.now.agents)) }
{
    let mut sets = [AtomSet::none(); 16];
    for a in 0..p.text().agents.len() {
        sets[a] = next_set(nexts, AgentId(a as u32));
    }
    sets
}

/// The next atoms of the agent.
fn next_set(nexts: &[NextNumbers], a: AgentId) -> AtomSet
    requires agent { a.0 < 16 }
    requires atoms { All (λ next. next.atom.0 < 64) nexts.now }
    ensures rising { IsRisingBelow 64 result }
    ensures members { (n : ℕ) → is_in n result ≡ list_any (λ next. (next.atom.0 == n) && is_in a.0 next.agents) nexts.now }
{
    let mut set = AtomSet::none();
    for next in nexts {
        if next.agents.has(a) {
            set = set.with(next.atom);
        }
    }
    set
}

/// The table of the cases of outcome o, or its fault where they leave joint data uncovered.
fn table(
    alloc: Global,
    p: &Numbered,
    maker: &mut TableMaker,
    n: usize,
    o: OutcomeId,
    out: &POut,
    cases: &[Case],
) -> Result<Table, ShapeAnswer>
    requires shaped { IsFormed (content_of p.now) }
    requires sizes { maker.old.sizes ≡ sizes_in (content_of p.now) }
    requires parties { maker.old.parties ≡ parties_at (content_of p.now) n }
    requires atom { n < length p.now.atoms }
    requires out { Contains (all_outs (content_of p.now)) (placed_at n (out_content out.now)) }
    requires cases { cases.now ≡ map (λ case. case_in (content_of p.now) (case_content case)) out.now.cases }
    ensures rows { IfOk result (λ table. table ≡ rows_of (sizes_in (content_of p.now)) (cases_in (content_of p.now) (out_content out.now))) }
    ensures total { IfOk result (λ _. uncovered (content_of p.now) o.0 out.now ≡ []) }
    ensures err { IfErr result (λ e. Tells e (first_of (uncovered (content_of p.now) o.0 out.now))) }
    ensures maker { maker.new ≡ maker.old }
{
    match maker.table(alloc, cases) {
        Ok(table) => Ok(table),
        Err(TableFault::Memory) => Err(ShapeAnswer::Memory),
        Err(TableFault::NotTotal(d)) => Err(ShapeAnswer::Off(ShapeFault {
            line: out.name.line,
            kind: ShapeKind::NotTotal(o, d),
        })),
    }
}
