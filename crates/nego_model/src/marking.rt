//! Markings, and how occurrences change them.
ghost use Rattle.std.specs.Prelude.{◌≡◌, ◌↔◌, ◌<◌, [], ◌∷◌, Some, None, if◌then◌else◌, length, drop, replicate, IsTrue};
ghost use Rattle.std.specs.List.{list_all};
ghost use Rattle.nego_base.specs.Members.{is_in};
ghost use Rattle.nego_model.specs.Occurring.{opening_marking, final_marking, ready, enables, moved, after};
ghost use Rattle.nego_model.specs.Diagram.{negotiation_of, parties_of, nexts_of, outcomes_from};
ghost use Rattle.nego_model.specs.Followed.{marking_in};

use crate::Diagram;
use nego_base::{AgentId, AtomId, AtomSet, OutcomeId};

/// A marking: for each agent the atoms that it is ready for. What stands past a diagram's agents is not read. Nothing
/// here takes memory.
#[derive(Clone, Copy, Debug, PartialEq, Eq)]
pub struct Marking {
    /// For each agent the atoms that it is ready for, and past the agents anything.
    pub ready: [AtomSet; 16],
}

impl Marking {
    /// Everyone is ready for the first atom alone.
    pub fn opening(d: &Diagram) -> Marking
        ensures value { marking_in d.now result ≡ opening_marking (negotiation_of d.now) }
        ensures entries { result.ready ≡ replicate 16 (d.now.first ∷ []) }
    {
        let first = AtomSet::none().with(d.first());
        Marking { ready: [first; 16] }
    }

    /// Whether it is an atom and each party is ready for it.
    pub fn enabled(&self, d: &Diagram, n: AtomId) -> bool
        ensures { result ≡ enables (negotiation_of d.now) (marking_in d.now self.now) n.0 }
    {
        n.0 < d.atoms() && self.are_ready(d, n)
    }

    /// Lets the atom occur with the outcome. False where it isn't enabled or the outcome isn't its own; then nothing
    /// changes. What stands past the diagram's agents never does.
    pub fn fire(&mut self, d: &Diagram, n: AtomId, o: OutcomeId) -> bool
        ensures value { after (negotiation_of d.now) (marking_in d.now self.old) (n.0, o.0) ≡ (if result then Some (marking_in d.now self.new) else None) }
        ensures refused { ¬ IsTrue result → self.new ≡ self.old }
        ensures rest { drop (length d.now.agents) self.new.ready ≡ drop (length d.now.agents) self.old.ready }
    {
        if !self.enabled(d, n) || !is_own(d, n, o) {
            return false;
        }
        self.move_parties(d, n, o);
        true
    }

    /// Whether everyone is ready for nothing.
    pub fn is_final(&self, d: &Diagram) -> bool
        ensures { IsTrue result ↔ (marking_in d.now self.now ≡ final_marking (negotiation_of d.now)) }
    {
        for a in 0..d.agents() {
            if self.ready[a as usize].count() > 0 {
                return false;
            }
        }
        true
    }

    /// Whether each party is ready for the atom.
    fn are_ready(&self, d: &Diagram, n: AtomId) -> bool
        requires { n.0 < length d.now.atoms }
        ensures { result ≡ list_all (λ a. is_in n.0 (ready (marking_in d.now self.now) a)) (parties_of d.now n.0) }
    {
        let parties = d.parties(n);
        for a in 0..d.agents() {
            if parties.has(AgentId(a)) && !self.ready[a as usize].has(n) {
                return false;
            }
        }
        true
    }

    /// Each party goes on to its next atoms.
    fn move_parties(&mut self, d: &Diagram, n: AtomId, o: OutcomeId)
        requires atom { n.0 < length d.now.atoms }
        requires outcome { o.0 < length d.now.outcomes }
        ensures value { marking_in d.now self.new ≡ moved 0 (parties_of d.now n.0) (nexts_of d.now o.0) (marking_in d.now self.old) }
        ensures rest { drop (length d.now.agents) self.new.ready ≡ drop (length d.now.agents) self.old.ready }
    {
        let parties = d.parties(n);
        for a in 0..d.agents() {
            if parties.has(AgentId(a)) {
                self.ready[a as usize] = d.nexts(o, AgentId(a));
            }
        }
    }
}

/// Whether the outcome is one of the atom's.
fn is_own(d: &Diagram, n: AtomId, o: OutcomeId) -> bool
    requires { n.0 < length d.now.atoms }
    ensures own { result ≡ is_in o.0 (outcomes_from 0 d.now.outcomes n.0) }
    ensures in_range { IsTrue result → o.0 < length d.now.outcomes }
{
    let (start, count) = d.outcomes_of(n);
    (start..start + count).contains(&o.0)
}
