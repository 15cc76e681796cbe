//! The work that a deterministic diagram begins as.
ghost use Rattle.std.specs.Prelude.{◌≡◌, ◌<◌, ◌≤◌, length, map, slice_get, IfOk, IfErr};
ghost use Rattle.std.specs.List.{range_with_len};
ghost use Rattle.nego_model.specs.Expression.{Base};
ghost use Rattle.nego_model.specs.Diagram.{parties_of, nexts_of, outcome_name};
ghost use Rattle.nego_model.specs.Limits.{IsWithinLimits};
ghost use Rattle.nego_model.specs.Summary.{final_outcomes};
ghost use Rattle.nego_expr.specs.Counts.{AreCountsOf, AreEntriesOf};
ghost use Rattle.nego_expr.specs.Fresh.{fresh_at, fresh_work, outcomes_of};
ghost use Rattle.nego_expr.specs.Sorted.{AreMembersOf, AreSlotsOf};
ghost use Rattle.nego_expr.specs.StandsFor.{HasTheRuns, IsFresh, StandsFor};
ghost use Rattle.nego_expr.specs.Use.{most_nodes};
ghost use Rattle.nego_expr.specs.WorkFault.{WorkFaultHolds};
ghost use Rattle.nego_expr.specs.WorkView.{plain_outcome};

use crate::counts::Counts;
use crate::slots::Slots;
use crate::{Node, Nodes, Outcome, Targets, Work, WorkFault};
use nego_base::{
    AgentId, AgentSet, AtomId, AtomSet, Memory, NodeId, OutcomeId, Reserved, Seq, Text,
};
use nego_model::Diagram;
use std::alloc::Global;

impl Work {
    /// The work that a deterministic diagram begins as. Its outcomes keep their numbers, and each is its own
    /// expression.
    pub fn new(alloc: Global, d: &Diagram) -> Result<Work, WorkFault>
        ensures fresh { IfOk result (λ w. IsFresh w.plain d.now) }
        ensures stands { IfOk result (λ w. StandsFor w.plain d.now) }
        ensures runs { IfOk result (λ w. HasTheRuns w.plain d.now) }
        // `NotDeterministic` comes exactly where the diagram isn't, with the least pair.
        ensures err { IfErr result (λ e. WorkFaultHolds d.now e) }
    {
        if let Some((o, a)) = d.first_undetermined() {
            return Err(WorkFault::NotDeterministic(o, a));
        }
        Ok(build(alloc, d)?)
    }
}

/// The fresh work.
fn build(alloc: Global, d: &Diagram) -> Result<Work, Memory>
    ensures fresh { IfOk result (λ w. w.plain ≡ fresh_work d.now) }
    ensures limits { IsWithinLimits d.now }
{
    let agents = d.agents();
    let alive = outcomes_of(alloc, d)?;
    Ok(Work {
        agents,
        left: AtomSet::below(d.atoms()),
        parties: parties_of_atoms(alloc, d)?,
        first: d.first(),
        last: d.last(),
        nodes: base_nodes(alloc, d.outcomes())?,
        numbers: d.outcomes(),
        slots: slots_of(alloc, alive.as_slice())?,
        counts: counts_of(d),
        entries: entries_of(alive.as_slice()),
        members: members_of(alloc, alive.as_slice())?,
        outcomes: alive,
        names: final_names(alloc, d)?,
        bases: parties_of_outcomes(alloc, d)?,
    })
}

/// The parties of each atom.
fn parties_of_atoms(alloc: Global, d: &Diagram) -> Result<Seq<AgentSet>, Memory>
    ensures { IfOk result (λ parties. parties ≡ map (parties_of d.now) (range_with_len 0 (length d.now.atoms))) }
{
    let mut parties = Seq::new(alloc);
    for n in 0..d.atoms() {
        parties.push(d.parties(AtomId(n)))?;
    }
    Ok(parties)
}

/// A node for each outcome.
fn base_nodes(alloc: Global, count: u32) -> Result<Nodes, Memory>
    requires { count ≤ most_nodes }
    ensures nodes { IfOk result (λ made. made.nodes ≡ map Base (range_with_len 0 count)) }
    ensures room { IfOk result (λ made. made.room ≡ 0) }
{
    let mut nodes = Nodes::new(alloc, count)?;
    for o in 0..count {
        nodes.push(Node::Base(OutcomeId(o)));
    }
    Ok(nodes)
}

/// The alive outcomes: all that there are.
fn outcomes_of(alloc: Global, d: &Diagram) -> Result<Reserved<Outcome>, Memory>
    ensures { IfOk result (λ outcomes. map plain_outcome outcomes.items ≡ outcomes_of d.now 0 d.now.outcomes) }
{
    let mut outcomes = Reserved::new(alloc, d.outcomes() as usize)?;
    for o in 0..d.outcomes() {
        outcomes.push(fresh_outcome(d, OutcomeId(o)));
    }
    Ok(outcomes)
}

/// Their slots.
fn slots_of(alloc: Global, outcomes: &[Outcome]) -> Result<Slots, Memory>
    ensures { IfOk result (λ slots. AreSlotsOf (map plain_outcome outcomes.now) slots.items) }
{
    let mut slots = Slots::new(alloc, outcomes.len())?;
    for outcome in outcomes {
        slots.insert(outcome);
    }
    Ok(slots)
}

/// The same without their targets.
fn members_of(alloc: Global, outcomes: &[Outcome]) -> Result<Slots, Memory>
    ensures { IfOk result (λ members. AreMembersOf (map plain_outcome outcomes.now) members.items) }
{
    let mut members = Slots::new(alloc, outcomes.len())?;
    for outcome in outcomes {
        members.insert(&outcome.without_targets());
    }
    Ok(members)
}

/// How many of them each atom has.
fn counts_of(d: &Diagram) -> Counts
    ensures { AreCountsOf (map (λ x. x.atom) (outcomes_of d.now 0 d.now.outcomes)) result }
{
    let mut counts = Counts::none();
    for o in 0..d.outcomes() {
        counts.add(d.atom_of(OutcomeId(o)));
    }
    counts
}

/// How many of them, of other atoms, lead to each atom.
fn entries_of(outcomes: &[Outcome]) -> Counts
    requires { length outcomes.now < 4294967295 }
    ensures { AreEntriesOf (map plain_outcome outcomes.now) result }
{
    let mut entries = Counts::none();
    for outcome in outcomes {
        entries.add_each(outcome.entered());
    }
    entries
}

/// The outcome as it is alive at first.
fn fresh_outcome(d: &Diagram, o: OutcomeId) -> Outcome
    requires { o.0 < length d.now.outcomes }
    ensures { plain_outcome result ≡ fresh_at d.now o.0 }
{
    Outcome {
        number: o,
        atom: d.atom_of(o),
        targets: targets_after(d, o),
        node: NodeId(o.0),
        passed: AtomSet::none(),
    }
}

/// Where the outcome sends each agent: to its next atom.
fn targets_after(d: &Diagram, o: OutcomeId) -> Targets
    requires { o.0 < length d.now.outcomes }
    ensures { result ≡ map (λ a. slice_get (nexts_of d.now o.0 a) 0) (range_with_len 0 (length d.now.agents)) }
{
    let mut targets = Targets::none(d.agents());
    for a in 0..d.agents() {
        let a = AgentId(a);
        if let Some(n) = d.nexts(o, a).least() {
            targets.set(a, n);
        }
    }
    targets
}

/// The names of the last atom's outcomes.
fn final_names(alloc: Global, d: &Diagram) -> Result<Seq<Text>, Memory>
    requires { IsWithinLimits d.now }
    ensures { IfOk result (λ names. names ≡ map (outcome_name d.now) (final_outcomes d.now)) }
{
    let (start, count) = d.outcomes_of(d.last());
    let mut names = Seq::new(alloc);
    for i in 0..count {
        names.push(Text::copy(alloc, d.outcome_name(OutcomeId(start + i)))?)?;
    }
    Ok(names)
}

/// The parties of each outcome's atom.
fn parties_of_outcomes(alloc: Global, d: &Diagram) -> Result<Seq<AgentSet>, Memory>
    ensures { IfOk result (λ parties. parties ≡ map (λ outcome. parties_of d.now outcome.atom) d.now.outcomes) }
{
    let mut parties = Seq::new(alloc);
    for o in 0..d.outcomes() {
        parties.push(d.parties(d.atom_of(OutcomeId(o))))?;
    }
    Ok(parties)
}
