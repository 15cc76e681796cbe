//! Rules of outcomes, by the numbers of agents and atoms.

ghost use Rattle.std.specs.Prelude.{◌≡◌, ℕ, ◌+◌, ◌<◌, ◌≤◌, ◌==◌, ◌∷◌, length, map, slice_get, Some, All, Contains};
ghost use Rattle.std.specs.List.{list_any};
ghost use Rattle.nego_base.specs.Firsts.{first_among, first_numbered};
ghost use Rattle.nego_base.specs.Members.{is_in, IsRisingBelow};
ghost use Rattle.nego_data.specs.CaseForm.{TestBelow, SetBelow, operand_agents, term_agents};
ghost use Rattle.nego_reader.specs.Content.{content_of, out_content, case_content};
ghost use Rattle.nego_shape.specs.Naming.{agent_names, atom_names, all_outs, case_in};
ghost use Rattle.nego_shape.specs.Made.{HasNumbers, placed_at, next_numbers, out_numbers, atom_numbers};
ghost use Rattle.nego_shape.specs.Shaped.{IsDeclared, case_names, last_number};
ghost use Rattle.nego_shape.specs.Faults.{faults, first_of, missing, case_line};
ghost use Rattle.nego_shape.specs.Rules.{condition_by, next_faults, case_faults, out_faults, over_agents};

use crate::fault::{ShapeFault, ShapeKind};
use crate::numbering::Numbered;
use crate::numbers::{AtomNumbers, NextNumbers, OutNumbers};
use nego_base::{AgentId, AgentSet, OutcomeId};
use nego_data::cases::{Case, Operand, Set, Term, Test};
use nego_reader::{PAgent, PAtom, PCase, PNext, POut};

/// A rule of outcomes.
#[derive(Clone, Copy)]
pub enum Rule {
    /// Each party of another atom than the last stands on a next line.
    AllSent,
    /// Who stands on a next line is a party of the outcome's atom and of the next atom.
    NoStranger,
    /// An outcome of the last atom has no next line.
    LastEnds,
    /// Who stands in a case is a party of the outcome's atom.
    PartiesAlone,
    /// A number that is assigned is below its agent's size.
    NoLargeValue,
}

/// What breaks the rule first.
pub(crate) fn broken(rule: Rule, p: &Numbered, numbers: &[AtomNumbers]) -> Option<ShapeFault>
    requires names { HasNumbers (content_of p.now) }
    requires outcomes { length (all_outs (content_of p.now)) ≤ 256 }
    requires numbers { numbers.now ≡ map (atom_numbers (content_of p.now)) p.now.atoms }
    ensures { result ≡ first_of (faults (condition_by rule) p.now) }
{
    let atoms = p.text().atoms.as_slice();
    let mut start = 0;
    for (n, atom) in atoms.iter().enumerate() {
        if let Some(fault) = broken_from(rule, p, numbers, n, start, atom) {
            return Some(fault);
        }
        start += atom.outs.len();
    }
    None
}

/// What breaks the rule first in the outcomes of atom n, which are numbered from `start` on.
#[tactic(auto, unfolding(nego_base::specs::Firsts::first_numbered))]
fn broken_from(
    rule: Rule,
    p: &Numbered,
    numbers: &[AtomNumbers],
    n: usize,
    start: usize,
    atom: &PAtom,
) -> Option<ShapeFault>
    requires names { HasNumbers (content_of p.now) }
    requires numbers { numbers.now ≡ map (atom_numbers (content_of p.now)) p.now.atoms }
    requires atom { slice_get p.now.atoms n ≡ Some atom.now }
    requires few { start + length atom.now.outs ≤ 256 }
    ensures { result ≡ first_numbered (λ i out. first_of (out_faults rule (content_of p.now) n (start + i) out)) 0 atom.now.outs }
{
    let own = &numbers[n];
    for (i, out) in atom.outs.as_slice().iter().enumerate() {
        if let Some(fault) = broken_at(rule, p, numbers, n, start + i, out, &own.outs[i]) {
            return Some(fault);
        }
    }
    None
}

/// What breaks the rule first in outcome o, which is one of atom n.
fn broken_at(
    rule: Rule,
    p: &Numbered,
    numbers: &[AtomNumbers],
    n: usize,
    o: usize,
    out: &POut,
    own: &OutNumbers,
) -> Option<ShapeFault>
    requires names { HasNumbers (content_of p.now) }
    requires numbers { numbers.now ≡ map (atom_numbers (content_of p.now)) p.now.atoms }
    requires atom { n < length p.now.atoms }
    requires outcome { o < 256 }
    requires out { Contains (all_outs (content_of p.now)) (placed_at n (out_content out.now)) }
    requires own { own.now ≡ out_numbers (content_of p.now) out.now }
    ensures { result ≡ first_of (out_faults rule (content_of p.now) n o out.now) }
{
    match rule {
        Rule::AllSent => missing(p, numbers, n, o, out, own.nexts.as_slice()),
        Rule::NoStranger | Rule::LastEnds => {
            on_nexts(rule, p, numbers, n, o, out, own.nexts.as_slice())
        }
        Rule::PartiesAlone | Rule::NoLargeValue => {
            on_cases(rule, p, numbers, n, o, out, own.cases.as_slice())
        }
    }
}

/// Whether atom n is the last.
fn is_last(p: &Numbered, n: usize) -> bool
    requires { HasNumbers (content_of p.now) }
    ensures { result ≡ (n == last_number (content_of p.now)) }
{
    n == p.atom(&p.text().last).0 as usize
}

/// The least party of atom n, which isn't the last, who stands on no next line.
fn missing(
    p: &Numbered,
    numbers: &[AtomNumbers],
    n: usize,
    o: usize,
    out: &POut,
    nexts: &[NextNumbers],
) -> Option<ShapeFault>
    requires names { HasNumbers (content_of p.now) }
    requires numbers { numbers.now ≡ map (atom_numbers (content_of p.now)) p.now.atoms }
    requires atom { n < length p.now.atoms }
    requires outcome { o < 256 }
    requires nexts { nexts.now ≡ map (next_numbers (content_of p.now)) out.now.nexts }
    ensures { result ≡ first_of (missing (content_of p.now) n o out.now) }
{
    if is_last(p, n) {
        return None;
    }
    let a = numbers[n].parties.difference(sent(nexts)).least()?;
    Some(ShapeFault {
        line: out.name.line,
        kind: ShapeKind::NextMissing(OutcomeId(o as u32), a),
    })
}

/// Who stands on these next lines.
fn sent(nexts: &[NextNumbers]) -> AgentSet
    ensures rising { IsRisingBelow 16 result }
    ensures members { (a : ℕ) → is_in a result ≡ list_any (λ next. is_in a next.agents) nexts.now }
{
    let mut set = AgentSet::none();
    for next in nexts {
        set = set.union(next.agents);
    }
    set
}

/// What breaks the rule first on the next lines of the outcome.
#[tactic(auto, unfolding(nego_base::specs::Firsts::first_among))]
fn on_nexts(
    rule: Rule,
    p: &Numbered,
    numbers: &[AtomNumbers],
    n: usize,
    o: usize,
    out: &POut,
    own: &[NextNumbers],
) -> Option<ShapeFault>
    requires names { HasNumbers (content_of p.now) }
    requires numbers { numbers.now ≡ map (atom_numbers (content_of p.now)) p.now.atoms }
    requires atom { n < length p.now.atoms }
    requires outcome { o < 256 }
    requires out { Contains (all_outs (content_of p.now)) (placed_at n (out_content out.now)) }
    requires own { own.now ≡ map (next_numbers (content_of p.now)) out.now.nexts }
    ensures { result ≡ first_among (λ next. first_of (next_faults rule (content_of p.now) n o next)) out.now.nexts }
{
    for (i, next) in out.nexts.as_slice().iter().enumerate() {
        if let Some(fault) = on_next(rule, p, numbers, n, o, next, &own[i]) {
            return Some(fault);
        }
    }
    None
}

/// What breaks the rule first on the next line.
fn on_next(
    rule: Rule,
    p: &Numbered,
    numbers: &[AtomNumbers],
    n: usize,
    o: usize,
    next: &PNext,
    own: &NextNumbers,
) -> Option<ShapeFault>
    requires names { HasNumbers (content_of p.now) }
    requires numbers { numbers.now ≡ map (atom_numbers (content_of p.now)) p.now.atoms }
    requires atom { n < length p.now.atoms }
    requires outcome { o < 256 }
    requires next { IsDeclared (atom_names (content_of p.now)) next.now.atom.text }
    requires own { own.now ≡ next_numbers (content_of p.now) next.now }
    ensures { result ≡ first_of (next_faults rule (content_of p.now) n o next.now) }
{
    let line = next.atom.line;
    let o = OutcomeId(o as u32);
    if let Rule::LastEnds = rule {
        return if is_last(p, n) {
            Some(ShapeFault {
                line,
                kind: ShapeKind::LastLeads(o),
            })
        } else {
            None
        };
    }
    let parties = numbers[n].parties;
    let both = parties.difference(parties.difference(numbers[own.atom.0 as usize].parties));
    let a = own.agents.difference(both).least()?;
    Some(ShapeFault {
        line,
        kind: ShapeKind::NextStranger(o, a, own.atom),
    })
}

/// What breaks the rule first in the cases of the outcome.
#[tactic(auto, unfolding(nego_base::specs::Firsts::first_among))]
fn on_cases(
    rule: Rule,
    p: &Numbered,
    numbers: &[AtomNumbers],
    n: usize,
    o: usize,
    out: &POut,
    own: &[Case],
) -> Option<ShapeFault>
    requires names { HasNumbers (content_of p.now) }
    requires numbers { numbers.now ≡ map (atom_numbers (content_of p.now)) p.now.atoms }
    requires atom { n < length p.now.atoms }
    requires outcome { o < 256 }
    requires out { Contains (all_outs (content_of p.now)) (placed_at n (out_content out.now)) }
    requires own { own.now ≡ map (λ case. case_in (content_of p.now) (case_content case)) out.now.cases }
    ensures { result ≡ first_among (λ case. first_of (case_faults rule (content_of p.now) n o case)) out.now.cases }
{
    for (i, case) in out.cases.as_slice().iter().enumerate() {
        if let Some(fault) = on_case(rule, p, numbers, n, o, case, &own[i]) {
            return Some(fault);
        }
    }
    None
}

/// What breaks the rule first in the case.
fn on_case(
    rule: Rule,
    p: &Numbered,
    numbers: &[AtomNumbers],
    n: usize,
    o: usize,
    case: &PCase,
    own: &Case,
) -> Option<ShapeFault>
    requires names { HasNumbers (content_of p.now) }
    requires numbers { numbers.now ≡ map (atom_numbers (content_of p.now)) p.now.atoms }
    requires atom { n < length p.now.atoms }
    requires outcome { o < 256 }
    requires case { All (IsDeclared (agent_names (content_of p.now))) (case_names (case_content case.now)) }
    requires own { own.now ≡ case_in (content_of p.now) (case_content case.now) }
    ensures { result ≡ first_of (case_faults rule (content_of p.now) n o case.now) }
{
    let line = case_line(case);
    let o = OutcomeId(o as u32);
    if let Rule::NoLargeValue = rule {
        let a = overfull(p.text().agents.as_slice(), own.sets.as_slice()).least()?;
        return Some(ShapeFault {
            line,
            kind: ShapeKind::ValueTooLarge(o, a),
        });
    }
    let named = tested(own.tests.as_slice()).union(assigned(own.sets.as_slice()));
    let a = named.difference(numbers[n].parties).least()?;
    Some(ShapeFault {
        line,
        kind: ShapeKind::NotParty(o, a),
    })
}

/// The line of the first name in the case.
fn case_line(case: &PCase) -> u32
    ensures { result ≡ case_line case.now }
{
    match (case.tests.as_slice(), case.sets.as_slice()) {
        ([test, ..], _) => test.left.line,
        ([], [set, ..]) => set.agent.line,
        ([], []) => 0,
    }
}

/// Who stands in the comparisons.
fn tested(tests: &[Test]) -> AgentSet
    requires { All (TestBelow 16) tests.now }
    ensures rising { IsRisingBelow 16 result }
    ensures members { (a : ℕ) → is_in a result ≡ list_any (λ test. is_in a (test.agent.0 ∷ operand_agents test.right)) tests.now }
{
    let mut set = AgentSet::none();
    for test in tests {
        set = set.with(test.agent);
        if let Operand::Value(b) = test.right {
            set = set.with(b);
        }
    }
    set
}

/// Who stands in the assignments.
fn assigned(sets: &[Set]) -> AgentSet
    requires { All (SetBelow 16) sets.now }
    ensures rising { IsRisingBelow 16 result }
    ensures members { (a : ℕ) → is_in a result ≡ list_any (λ set. is_in a (set.agent.0 ∷ term_agents set.term)) sets.now }
{
    let mut named = AgentSet::none();
    for set in sets {
        named = named.with(set.agent);
        if let Term::Plus(b, _) | Term::Minus(b, _) = set.term {
            named = named.with(b);
        }
    }
    named
}

/// Who is assigned a number that isn't below its size.
fn overfull(agents: &[PAgent], sets: &[Set]) -> AgentSet
    requires agents { length agents.now ≤ 16 }
    requires sets { All (λ set. set.agent.0 < length agents.now) sets.now }
    ensures rising { IsRisingBelow 16 result }
    ensures members { (a : ℕ) → is_in a result ≡ list_any (λ set. is_in a (over_agents (map (λ agent. agent.size) agents.now) set)) sets.now }
{
    let mut over = AgentSet::none();
    for set in sets {
        if let Term::Number(n) = set.term {
            if agents[set.agent.0 as usize].size <= n {
                over = over.with(set.agent);
            }
        }
    }
    over
}
