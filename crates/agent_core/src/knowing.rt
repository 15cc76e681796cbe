//! What the leader of an atom knows of its parties.
ghost use Rattle.std.specs.Prelude.{◌≡◌, ℕ, ◌<◌, ◌&&◌, not, length, slice_index};
ghost use Rattle.std.specs.Option.{option_map, option_map_or, is_some};
ghost use Rattle.std.specs.Result.{result_map_both};
ghost use Rattle.nego_base.specs.Members.{is_in};
ghost use Rattle.nego_data.specs.Data.{data_count};
ghost use Rattle.nego_model.specs.Diagram.{IsDiagram};
ghost use Rattle.agent_msg.specs.Messages.{ready_message};
ghost use Rattle.agent_core.specs.Agents.{IsValid};
ghost use Rattle.agent_core.specs.Deciding.{held_for, known_of, waits_for, atom_to_decide, known_joint};
ghost use Rattle.agent_core.specs.Views.{plain_refused};

use crate::Agent;
use crate::answers::Refused;
use agent_msg::Ready;
use nego_base::{AgentId, AgentSet, AtomId};
use nego_model::Diagram;

impl Agent {
    /// The atom that the agent may decide, or why it decides none, by the first that fits.
    pub(crate) fn atom_to_decide(&self, d: &Diagram) -> Result<AtomId, Refused>
        requires valid { IsValid d.now self.now.plain }
        ensures { result_map_both (λ n. n.0) plain_refused result ≡ atom_to_decide d.now self.now.plain }
    {
        let Some(n) = self.at else {
            return Err(Refused::Finished);
        };
        if d.leader(n) != self.id {
            return Err(Refused::NotLeader);
        }
        match self.waits_for(d, n) {
            Some(p) => Err(Refused::Waits(p)),
            None => Ok(n),
        }
    }

    /// The least party of an atom of whom nothing is known.
    fn waits_for(&self, d: &Diagram, n: AtomId) -> Option<AgentId>
        requires { n.0 < length d.now.atoms }
        ensures { option_map (λ p. p.0) result ≡ waits_for d.now self.now.plain n.0 }
    {
        let parties = d.parties(n);
        for p in 0..d.agents() {
            let p = AgentId(p);
            if self.is_unknown(d, n, parties, p) {
                return Some(p);
            }
        }
        None
    }

    /// Whether the agent is one of these, and nothing is known of it for the atom.
    fn is_unknown(&self, d: &Diagram, n: AtomId, parties: AgentSet, p: AgentId) -> bool
        requires atom { n.0 < length d.now.atoms }
        requires agent { p.0 < 16 }
        ensures { result ≡ (is_in p.0 parties && not (is_some (known_of d.now self.now.plain n.0 p.0))) }
    {
        parties.has(p) && self.known_of(d, n, p).is_none()
    }

    /// What is known of an agent for an atom: of the agent itself what it has to say, else the Ready that it holds for the
    /// atom.
    pub(crate) fn known_of(&self, d: &Diagram, n: AtomId, p: AgentId) -> Option<Ready>
        requires { n.0 < length d.now.atoms }
        ensures { option_map ready_message result ≡ known_of d.now self.now.plain n.0 p.0 }
    {
        if p == self.id {
            return Some(self.ready_for(d, n));
        }
        self.held_for(n, p)
    }

    /// The Ready that is held from an agent for an atom.
    fn held_for(&self, n: AtomId, p: AgentId) -> Option<Ready>
        ensures { option_map ready_message result ≡ held_for self.now.plain n.0 p.0 }
    {
        let ready = self.held(p)?;
        if ready.atom == n { Some(ready) } else { None }
    }

    /// The joint data as they are known to the leader of an atom, with 0 for each agent of whom nothing is known.
    pub(crate) fn known_joint(&self, d: &Diagram, n: AtomId) -> u16
        requires valid { IsValid d.now self.now.plain }
        requires atom { n.0 < length d.now.atoms }
        ensures value { result ≡ known_joint d.now self.now.plain n.0 }
        ensures in_range { result < data_count d.now.sizes }
        ensures diagram { IsDiagram d.now }
    {
        let values = self.known_values(d, n);
        d.sizes().joint(&values)
    }

    /// The agents' values as they are known for an atom, with 0 where nothing is known.
    fn known_values(&self, d: &Diagram, n: AtomId) -> [u16; 16]
        requires { n.0 < length d.now.atoms }
        ensures values { (p : ℕ) → p < length d.now.agents → slice_index result p ≡ option_map_or (λ ready. ready.value) (known_of d.now self.now.plain n.0 p) 0 }
        ensures diagram { IsDiagram d.now }
    {
        let mut values = [0; 16];
        for p in 0..d.agents() {
            values[p as usize] = self.known_value(d, n, AgentId(p));
        }
        values
    }

    /// The value of an agent as it is known for an atom, and 0 where nothing is known.
    fn known_value(&self, d: &Diagram, n: AtomId, p: AgentId) -> u16
        requires { n.0 < length d.now.atoms }
        ensures { result ≡ option_map_or (λ ready. ready.value) (known_of d.now self.now.plain n.0 p.0) 0 }
    {
        match self.known_of(d, n, p) {
            Some(ready) => ready.value,
            None => 0,
        }
    }

    /// The agents' visits as they are known for an atom, with 0 where nothing is known.
    pub(crate) fn known_visits(&self, d: &Diagram, n: AtomId) -> [u16; 16]
        requires { n.0 < length d.now.atoms }
        ensures { (p : ℕ) → p < length d.now.agents → slice_index result p ≡ option_map_or (λ ready. ready.visit) (known_of d.now self.now.plain n.0 p) 0 }
    {
        let mut visits = [0; 16];
        for p in 0..d.agents() {
            visits[p as usize] = self.known_visit(d, n, AgentId(p));
        }
        visits
    }

    /// The visit of an agent as it is known for an atom, and 0 where nothing is known.
    fn known_visit(&self, d: &Diagram, n: AtomId, p: AgentId) -> u16
        requires { n.0 < length d.now.atoms }
        ensures { result ≡ option_map_or (λ ready. ready.visit) (known_of d.now self.now.plain n.0 p.0) 0 }
    {
        match self.known_of(d, n, p) {
            Some(ready) => ready.visit,
            None => 0,
        }
    }
}
