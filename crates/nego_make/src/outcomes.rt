//! The outcomes of an atom, and where they send its parties.
ghost use Rattle.std.specs.Prelude.{◌≡◌, ◌<◌, [], ◌∷◌, map, codes, IfOk};
ghost use Rattle.nego_reader.specs.Content.{PlusTerm, texts, term_content, set_content, next_content, out_content};
ghost use Rattle.nego_make.specs.Generated.{agent_name, movers, next_line, next_lines, outcome, assign, two_ways, endings, outcomes};

use crate::parties::{is_next, parties};
use crate::words::{agent_name, atom_name, word};
use nego_base::{Memory, Seq, Word};
use nego_reader::{PCase, PNext, POut, PSet, PTerm};
use std::alloc::Global;

/// The names of the parties of atom i of n whose next atom is j.
fn movers(alloc: Global, n: u32, i: u32, j: u32) -> Result<Seq<Word>, Memory>
    requires behind { i < j }
    requires within { j < n }
    ensures { IfOk result (λ agents. texts agents ≡ map agent_name (movers n i j)) }
{
    let mut agents = Seq::new(alloc);
    for a in parties(n, i) {
        if is_next(n, i, j, *a) {
            agents.push(agent_name(alloc, *a)?)?;
        }
    }
    Ok(agents)
}

/// The next line of atom i of n for atom j, on which nobody may stand.
fn next_line(alloc: Global, n: u32, i: u32, j: u32) -> Result<PNext, Memory>
    requires behind { i < j }
    requires within { j < n }
    ensures { IfOk result (λ line. next_content line ≡ next_line n i j) }
{
    let agents = movers(alloc, n, i, j)?;
    let atom = atom_name(alloc, j)?;
    Ok(PNext { atom, agents })
}

/// The next lines of each outcome of atom i of n.
fn next_lines(alloc: Global, n: u32, i: u32) -> Result<Seq<PNext>, Memory>
    requires { i < n }
    ensures { IfOk result (λ nexts. map next_content nexts ≡ next_lines n i) }
{
    let mut nexts = Seq::new(alloc);
    for j in i + 1..n {
        let line = next_line(alloc, n, i, j)?;
        if !line.agents.is_empty() {
            nexts.push(line)?;
        }
    }
    Ok(nexts)
}

/// An outcome with one case that demands nothing.
fn outcome(alloc: Global, name: &[u8], sets: Seq<PSet>, nexts: Seq<PNext>) -> Result<POut, Memory>
    ensures { IfOk result (λ out. out_content out ≡ outcome name.now (map set_content sets) (map next_content nexts)) }
{
    let mut cases = Seq::new(alloc);
    let tests = Seq::new(alloc);
    cases.push(PCase { tests, sets })?;
    let name = word(alloc, name)?;
    Ok(POut { name, cases, nexts })
}

/// That agent a is assigned this.
fn assign(alloc: Global, a: u32, term: PTerm) -> Result<Seq<PSet>, Memory>
    ensures { IfOk result (λ sets. map set_content sets ≡ assign a (term_content term)) }
{
    let mut sets = Seq::new(alloc);
    let agent = agent_name(alloc, a)?;
    sets.push(PSet { agent, term })?;
    Ok(sets)
}

/// That agent a is assigned the value of agent b and k more.
fn assign_sum(alloc: Global, a: u32, b: u32, k: u32) -> Result<Seq<PSet>, Memory>
    ensures { IfOk result (λ sets. map set_content sets ≡ assign a (PlusTerm (agent_name b) k)) }
{
    let name = agent_name(alloc, b)?;
    assign(alloc, a, PTerm::Plus(name, k))
}

/// The outcome of the first atom.
fn start(alloc: Global, n: u32) -> Result<Seq<POut>, Memory>
    requires { 0 < n }
    ensures { IfOk result (λ outs. map out_content outs ≡ outcome (codes "go") [] (next_lines n 0) ∷ []) }
{
    let mut outs = Seq::new(alloc);
    outs.push(outcome(alloc, b"go", Seq::new(alloc), next_lines(alloc, n, 0)?)?)?;
    Ok(outs)
}

/// The outcomes of an atom between the first and the last: one adds 1 to the value of p, and one gives p the value of q.
fn two_ways(alloc: Global, n: u32, i: u32, p: u32, q: u32) -> Result<Seq<POut>, Memory>
    requires { i < n }
    ensures { IfOk result (λ outs. map out_content outs ≡ two_ways p q (next_lines n i)) }
{
    let mut outs = Seq::new(alloc);
    let more = assign_sum(alloc, p, p, 1)?;
    outs.push(outcome(alloc, b"x", more, next_lines(alloc, n, i)?)?)?;
    let other = assign_sum(alloc, p, q, 0)?;
    outs.push(outcome(alloc, b"y", other, next_lines(alloc, n, i)?)?)?;
    Ok(outs)
}

/// The outcomes of the last atom.
fn endings(alloc: Global) -> Result<Seq<POut>, Memory>
    ensures { IfOk result (λ outs. map out_content outs ≡ endings) }
{
    let mut outs = Seq::new(alloc);
    outs.push(outcome(alloc, b"good", Seq::new(alloc), Seq::new(alloc))?)?;
    let nothing = assign(alloc, 0, PTerm::Number(0))?;
    outs.push(outcome(alloc, b"bad", nothing, Seq::new(alloc))?)?;
    Ok(outs)
}

/// The outcomes of atom i of n.
pub(crate) fn outcomes(alloc: Global, n: u32, i: u32) -> Result<Seq<POut>, Memory>
    requires { i < n }
    ensures { IfOk result (λ outs. map out_content outs ≡ outcomes n i) }
{
    if i == 0 {
        return start(alloc, n);
    }
    if i + 1 == n {
        return endings(alloc);
    }
    let agents = parties(n, i);
    two_ways(alloc, n, i, agents[0], agents[1])
}
