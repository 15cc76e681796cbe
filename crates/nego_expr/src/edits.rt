//! The edits of a work. None takes memory, and each is safe after any other: the rules make their effects of them.
ghost use Rattle.std.specs.Prelude.{◌≡◌, ◌==◌, ◌+◌, ◌-◌, ◌<◌, ◌≤◌, ◌++◌, ◌∷◌, [], All, filter, not, IsTrue, IsSome, Some, length, map, option_map, slice_get, slice_set};
ghost use Rattle.nego_base.specs.Members.{is_in};
ghost use Rattle.nego_model.specs.Expression.{children};
ghost use Rattle.nego_expr.specs.Work.{outcome_at, outcomes_at};
ghost use Rattle.nego_expr.specs.Edits.{then_each, with_outcome, without_atom, without_outcome};
ghost use Rattle.nego_expr.specs.NodeView.{plain_node};
ghost use Rattle.nego_expr.specs.WorkView.{plain_outcome};

use crate::work::place_of;
use crate::{Node, Outcome, Targets, Work};
use nego_base::{AtomId, AtomSet, NodeId, OutcomeId, Reserved};

impl Work {
    /// Adds a node, of which the children are there.
    pub fn add_node(&mut self, n: Node) -> NodeId
        requires spare { 0 < self.old.spare_nodes }
        requires children { All (λ child. child < length self.old.plain.nodes) (children (plain_node n)) }
        ensures number { result.0 ≡ length self.old.plain.nodes }
        ensures plain { self.new.plain ≡ record self.old.plain { nodes = self.old.plain.nodes ++ plain_node n ∷ [] } }
        ensures spare { self.new.spare_nodes ≡ self.old.spare_nodes - 1 }
        ensures kept { self.old.spare_outcomes ≤ self.new.spare_outcomes }
    {
        self.nodes.push(n)
    }

    /// Adds an outcome to an atom that is left, and gives it the least number that was never used.
    pub fn add_outcome(
        &mut self,
        n: AtomId,
        targets: Targets,
        node: NodeId,
        passed: AtomSet,
    ) -> OutcomeId
        requires spare { 0 < self.old.spare_outcomes }
        requires left { IsTrue (is_in n.0 (map (λ atom. atom.number) self.old.plain.atoms)) }
        requires fit { length targets ≡ self.old.plain.agents }
        requires there { node.0 < length self.old.plain.nodes }
        ensures number { result.0 ≡ self.old.plain.numbers }
        ensures plain { self.new.plain ≡ record self.old.plain {
          numbers = self.old.plain.numbers + 1;
          outcomes = self.old.plain.outcomes
              ++ record { number = self.old.plain.numbers; atom = n.0; targets = targets; node = node.0; passed = passed } ∷ [];
        } }
        ensures spare { self.new.spare_outcomes ≡ self.old.spare_outcomes - 1 }
        ensures kept { self.old.spare_nodes ≤ self.new.spare_nodes }
    {
        let number = OutcomeId(self.numbers);
        self.numbers += 1;
        let outcome = Outcome {
            number,
            atom: n,
            targets,
            node,
            passed,
        };
        self.counts.add(n);
        self.entries.add_each(outcome.entered());
        self.slots.insert(&outcome);
        self.members.insert(&outcome.without_targets());
        self.outcomes.push(outcome);
        number
    }

    /// Gives an alive outcome other targets, another node and other passed atoms.
    pub fn set_outcome(&mut self, o: OutcomeId, targets: Targets, node: NodeId, passed: AtomSet)
        requires alive { IsSome (outcome_at self.old.plain o.0) }
        requires fit { length targets ≡ self.old.plain.agents }
        requires there { node.0 < length self.old.plain.nodes }
        ensures plain { Some self.new.plain ≡ option_map (λ x. record self.old.plain {
          outcomes = with_outcome (record x { targets = targets; node = node.0; passed = passed }) self.old.plain.outcomes;
        }) (outcome_at self.old.plain o.0) }
        ensures kept { (self.old.spare_nodes ≤ self.new.spare_nodes) × (self.old.spare_outcomes ≤ self.new.spare_outcomes) }
    {
        let outcomes = self.outcomes.as_slice();
        let i = place_of(outcomes, o).unwrap();
        let old = &outcomes[i];
        let new = Outcome {
            number: o,
            atom: old.atom,
            targets,
            node,
            passed,
        };
        self.slots.replace(old, &new);
        let before = old.entered();
        let after = new.entered();
        self.entries.remove_each(before.difference(after));
        self.entries.add_each(after.difference(before));
        self.outcomes.set(i, new);
    }

    /// Takes an alive outcome away.
    pub fn drop_outcome(&mut self, o: OutcomeId)
        requires alive { IsSome (outcome_at self.old.plain o.0) }
        ensures plain { self.new.plain ≡ record self.old.plain { outcomes = without_outcome o.0 self.old.plain.outcomes } }
        ensures kept { (self.old.spare_nodes ≤ self.new.spare_nodes) × (self.old.spare_outcomes ≤ self.new.spare_outcomes) }
    {
        let i = place_of(self.outcomes.as_slice(), o).unwrap();
        let outcome = self.outcomes.remove(i);
        self.slots.remove(&outcome);
        self.counts.remove(outcome.atom);
        self.entries.remove_each(outcome.entered());
        self.members.remove(&outcome.without_targets());
    }

    /// Takes an atom and its outcomes away.
    pub fn drop_atom(&mut self, n: AtomId)
        requires left { IsTrue (is_in n.0 (map (λ atom. atom.number) self.old.plain.atoms)) }
        ensures plain { self.new.plain ≡ without_atom n.0 self.old.plain }
        ensures kept { (self.old.spare_nodes ≤ self.new.spare_nodes) × (self.old.spare_outcomes ≤ self.new.spare_outcomes) }
    {
        self.leave(n);
        while let Some(x) = self.next_of(n, OutcomeId(0)) {
            let o = x.number;
            self.drop_outcome(o);
        }
    }

    /// Takes an atom away, and none of its outcomes.
    fn leave(&mut self, n: AtomId)
        requires left { IsTrue (is_in n.0 (map (λ atom. atom.number) self.old.plain.atoms)) }
        ensures plain { self.new.plain ≡ record self.old.plain { atoms = filter (λ atom. not (atom.number == n.0)) self.old.plain.atoms } }
        ensures kept { (self.old.spare_nodes ≤ self.new.spare_nodes) × (self.old.spare_outcomes ≤ self.new.spare_outcomes) }
    {
        self.left = self.left.without(n);
    }

    /// Makes an atom that is left the first.
    pub fn set_first(&mut self, n: AtomId)
        requires left { IsTrue (is_in n.0 (map (λ atom. atom.number) self.old.plain.atoms)) }
        ensures plain { self.new.plain ≡ record self.old.plain { first = n.0 } }
        ensures kept { (self.old.spare_nodes ≤ self.new.spare_nodes) × (self.old.spare_outcomes ≤ self.new.spare_outcomes) }
    {
        self.first = n;
    }

    /// Puts a node before the node of each outcome of an atom: each has a new node, which is the one and then its own.
    pub fn then_each(&mut self, x: NodeId, n: AtomId)
        requires spare { length (outcomes_at self.old.plain n.0) ≤ self.old.spare_nodes }
        requires there { x.0 < length self.old.plain.nodes }
        ensures plain { self.new.plain ≡ then_each x.0 n.0 self.old.plain }
        ensures spare { self.new.spare_nodes + length (outcomes_at self.old.plain n.0) ≡ self.old.spare_nodes }
        ensures kept { self.old.spare_outcomes ≤ self.new.spare_outcomes }
    {
        let mut from = OutcomeId(0);
        while let Some(y) = self.next_of(n, from) {
            let (o, own) = (y.number, y.node);
            let node = self.add_node(Node::Then(x, own));
            self.set_node(o, node);
            from = OutcomeId(o.0 + 1);
        }
    }

    /// Gives an alive outcome another node.
    fn set_node(&mut self, o: OutcomeId, node: NodeId)
        requires alive { IsSome (outcome_at self.old.plain o.0) }
        requires there { node.0 < length self.old.plain.nodes }
        ensures plain { Some self.new.plain ≡ option_map (λ x. record self.old.plain {
          outcomes = with_outcome (record x { node = node.0 }) self.old.plain.outcomes;
        }) (outcome_at self.old.plain o.0) }
        ensures nodes { self.new.spare_nodes ≡ self.old.spare_nodes }
        ensures kept { self.old.spare_outcomes ≤ self.new.spare_outcomes }
    {
        let i = place_of(self.outcomes.as_slice(), o).unwrap();
        put_node(&mut self.outcomes, i, node);
    }
}

/// Gives the outcome at a place another node.
fn put_node(outcomes: &mut Reserved<Outcome>, i: usize, node: NodeId)
    requires { i < length outcomes.old.items }
    ensures outcomes { option_map (λ y. slice_set (map plain_outcome outcomes.old.items) i (record y { node = node.0 }))
        (slice_get (map plain_outcome outcomes.old.items) i) ≡ Some (map plain_outcome outcomes.new.items) }
    ensures room { outcomes.new.room ≡ outcomes.old.room }
{
    outcomes.get_mut(i).unwrap().node = node;
}
