//! A diagram under rewriting, and what may be asked of it.
ghost use Rattle.std.specs.Prelude.{◌≡◌, ℕ, ◌<◌, ◌≤◌, ◌==◌, Some, None, IfSome, IfNone, slice_get, IsTrue, IsSome, filter, find, length, map, not, nat_lt, is_some, option_map};
ghost use Rattle.nego_base.specs.Members.{is_in, IsRising};
ghost use Rattle.nego_expr.specs.Sorted.{plain_slot, IsSorted};
ghost use Rattle.nego_expr.specs.Use.{leads_in};
ghost use Rattle.nego_expr.specs.Work.{outcome_at, outcome_among, outcomes_at, sent_to, work_parties};
ghost use Rattle.nego_expr.specs.WorkView.{plain_outcome, AreAlive};

use crate::counts::Counts;
use crate::slots::Slots;
use crate::{Nodes, Outcome, Slot, Targets};
use nego_base::{AgentId, AgentSet, AtomId, AtomSet, NodeId, OutcomeId, Reserved, Seq, Text};
use std::marker::Model;

/// A diagram under rewriting. Contracts see a plain work, and for how many more nodes and outcomes there is room.
/// No reader takes memory, nor does an edit, for which there is to be room.
#[derive(Debug, Drop)]
pub struct Work {
    pub(crate) agents: u32,
    /// The atoms that are left.
    pub(crate) left: AtomSet,
    /// The parties of every atom that was read, by its number.
    pub(crate) parties: Seq<AgentSet>,
    pub(crate) first: AtomId,
    pub(crate) last: AtomId,
    pub(crate) nodes: Nodes,
    /// The least number of an outcome that was never used.
    pub(crate) numbers: u32,
    /// The alive outcomes, by rising number.
    pub(crate) outcomes: Reserved<Outcome>,
    /// Their slots, rising.
    pub(crate) slots: Slots,
    /// The same slots without their targets, rising: by atom and number.
    pub(crate) members: Slots,
    /// How many of them each atom has.
    pub(crate) counts: Counts,
    /// How many of them, of other atoms, lead to each atom.
    pub(crate) entries: Counts,
    /// The names of the last atom's outcomes, in their order.
    pub(crate) names: Seq<Text>,
    /// For each outcome that was read the parties of its atom: what contracts speak of, and nothing reads.
    pub(crate) bases: Seq<AgentSet>,
}

impl Model for Work {
    ghost use Rattle.nego_expr.specs.Room.{RoomyWork};

    ghost Value = { RoomyWork };

    ghost use Rattle.nego_expr.specs.WorkView.{roomy_work, IsUsable};

    ghost view = { λ w. roomy_work w };

    ghost invariant = { λ w. IsUsable w };
}

/// The place of the outcome of a number, where there is one.
pub(crate) fn place_of(outcomes: &[Outcome], o: OutcomeId) -> Option<usize>
    requires { IsRising (map (λ outcome. outcome.number) (map plain_outcome outcomes.now)) }
    ensures found { IfSome result (λ i. option_map plain_outcome (slice_get outcomes.now i) ≡ outcome_among (map plain_outcome outcomes.now) o.0) }
    ensures there { IfSome result (λ i. i < length outcomes.now) }
    ensures none { IfNone result (outcome_among (map plain_outcome outcomes.now) o.0 ≡ None) }
{
    outcomes.binary_search_by_key(&o.0, |x| x.number.0).ok()
}

impl Work {
    /// How many agents there are, at most 16.
    pub fn agents(&self) -> u32
        ensures value { result ≡ self.now.plain.agents }
        ensures few { result ≤ 16 }
    {
        self.agents
    }

    /// The atoms that are left.
    pub fn left(&self) -> AtomSet
        ensures { result ≡ map (λ atom. atom.number) self.now.plain.atoms }
    {
        self.left
    }

    /// Whether the atom is left. Then its number is one that a set may have.
    pub fn is_left(&self, n: AtomId) -> bool
        ensures value { result ≡ is_in n.0 (map (λ atom. atom.number) self.now.plain.atoms) }
        ensures few { IsTrue result → n.0 < 64 }
    {
        n.0 < 64 && self.left.has(n)
    }

    /// The atom for which everyone is ready at first.
    pub fn first(&self) -> AtomId
        ensures { result.0 ≡ self.now.plain.first }
    {
        self.first
    }

    /// The atom whose outcomes are final.
    pub fn last(&self) -> AtomId
        ensures { result.0 ≡ self.now.plain.last }
    {
        self.last
    }

    /// The parties of an atom that is left.
    pub fn parties(&self, n: AtomId) -> AgentSet
        requires left { IsTrue (is_in n.0 (map (λ atom. atom.number) self.now.plain.atoms)) }
        ensures { result ≡ work_parties self.now.plain n.0 }
    {
        self.parties[n.0 as usize]
    }

    /// The nodes of all expressions.
    pub fn nodes(&self) -> &Nodes
        ensures { result.now.nodes ≡ self.now.plain.nodes }
    {
        &self.nodes
    }

    /// The least number of an outcome that was never used.
    pub fn numbers(&self) -> u32
        ensures { result ≡ self.now.plain.numbers }
    {
        self.numbers
    }

    /// The alive outcomes, by rising number.
    pub fn outcomes(&self) -> &[Outcome]
        ensures { map plain_outcome result.now ≡ self.now.plain.outcomes }
    {
        self.outcomes.as_slice()
    }

    /// The slots of the alive outcomes, rising.
    pub fn sorted(&self) -> &[Slot]
        ensures { IsSorted self.now.plain.outcomes (map plain_slot result.now) }
    {
        self.slots.as_slice()
    }

    /// The alive outcome of a number, where there is one.
    pub fn outcome(&self, o: OutcomeId) -> Option<&Outcome>
        ensures { option_map (λ x. plain_outcome x.now) result ≡ outcome_at self.now.plain o.0 }
    {
        let outcomes = self.outcomes.as_slice();
        outcomes.get(place_of(outcomes, o)?)
    }

    /// The first alive outcome of an atom whose number isn't below this one. Its own number isn't the greatest there is.
    pub fn next_of(&self, n: AtomId, from: OutcomeId) -> Option<&Outcome>
        ensures value { option_map (λ x. plain_outcome x.now) result ≡ find (λ x. not (nat_lt x.number from.0)) (outcomes_at self.now.plain n.0) }
        ensures bound { IfSome result (λ x. x.now.number.0 < 4294967295) }
        ensures alive { AreAlive self.now.plain.agents self.now.plain.numbers (length self.now.plain.nodes) self.now.plain.outcomes }
    {
        let o = self.members.next_of(n, from)?;
        self.outcome(o)
    }

    /// How many alive outcomes an atom has.
    pub fn count_of(&self, n: AtomId) -> u32
        ensures { result ≡ length (outcomes_at self.now.plain n.0) }
    {
        self.counts.count(n)
    }

    /// The atoms that have one alive outcome.
    pub fn ones(&self) -> AtomSet
        ensures { (n : ℕ) → is_in n result ≡ (length (outcomes_at self.now.plain n) == 1) }
    {
        self.counts.ones()
    }

    /// How many alive outcomes of other atoms lead to an atom that is left.
    pub fn entered_by(&self, n: AtomId) -> u32
        requires left { IsTrue (is_in n.0 (map (λ atom. atom.number) self.now.plain.atoms)) }
        ensures { result ≡ length (filter (leads_in n.0) self.now.plain.outcomes) }
    {
        self.entries.count(n)
    }

    /// Whether there is an alive outcome of this number.
    pub fn alive(&self, o: OutcomeId) -> bool
        ensures { result ≡ is_some (outcome_at self.now.plain o.0) }
    {
        self.outcome(o).is_some()
    }

    /// The atom of an alive outcome.
    pub fn atom_of(&self, o: OutcomeId) -> AtomId
        requires { IsSome (outcome_at self.now.plain o.0) }
        ensures { option_map (λ x. x.atom) (outcome_at self.now.plain o.0) ≡ Some result.0 }
    {
        self.outcome(o).unwrap().atom
    }

    /// Where an alive outcome sends each agent.
    pub fn targets(&self, o: OutcomeId) -> &Targets
        requires { IsSome (outcome_at self.now.plain o.0) }
        ensures { option_map (λ x. x.targets) (outcome_at self.now.plain o.0) ≡ Some result.now }
    {
        &self.outcome(o).unwrap().targets
    }

    /// Where an alive outcome sends an agent.
    pub fn target(&self, o: OutcomeId, a: AgentId) -> Option<AtomId>
        requires alive { IsSome (outcome_at self.now.plain o.0) }
        requires agent { a.0 < self.now.plain.agents }
        ensures { option_map (λ x. sent_to x a.0) (outcome_at self.now.plain o.0) ≡ Some (option_map (λ n. n.0) result) }
    {
        self.outcome(o).unwrap().target(a)
    }

    /// The node of an alive outcome's expression.
    pub fn node_of(&self, o: OutcomeId) -> NodeId
        requires { IsSome (outcome_at self.now.plain o.0) }
        ensures { option_map (λ x. x.node) (outcome_at self.now.plain o.0) ≡ Some result.0 }
    {
        self.outcome(o).unwrap().node
    }

    /// The atoms that an alive outcome passed.
    pub fn passed(&self, o: OutcomeId) -> AtomSet
        requires { IsSome (outcome_at self.now.plain o.0) }
        ensures { option_map (λ x. x.passed) (outcome_at self.now.plain o.0) ≡ Some result }
    {
        self.outcome(o).unwrap().passed
    }
}
