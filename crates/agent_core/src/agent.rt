//! An agent, and what one reads of it.
ghost use Rattle.std.specs.Prelude.{◌≡◌, ◌<◌, length, max, map, OnOk, OnErr};
ghost use Rattle.std.specs.Option.{option_map};
ghost use Rattle.agent_msg.specs.Messages.{ready_message};
ghost use Rattle.agent_msg.specs.Records.{entry};
ghost use Rattle.nego_model.specs.Negotiation.{IsDeterministic};
ghost use Rattle.nego_model.specs.Diagram.{PlainDiagram, negotiation_of};
ghost use Rattle.agent_core.specs.Agents.{held_from, nothing_held, IsValid};
ghost use Rattle.agent_core.specs.Acts.{ready_of, own_ready};

use agent_msg::{Ready, Record};
use nego_base::{AgentId, AtomId, Memory, Reserved};
use nego_model::Diagram;
use std::marker::Model;

/// One agent. Contracts see a plain agent, and for how many more records there is room. Only loading and `reserve` take
/// memory.
#[derive(Debug, Drop)]
pub struct Agent {
    pub(crate) id: AgentId,
    /// The value at the beginning: what contracts speak of, and nothing reads.
    pub(crate) start: u16,
    pub(crate) at: Option<AtomId>,
    pub(crate) value: u16,
    pub(crate) records: Reserved<Record>,
    /// For each agent the Ready that is held from it.
    pub(crate) held: [Option<Ready>; 16],
}

impl Model for Agent {
    ghost use Rattle.agent_core.specs.Roomy.{RoomyAgent};

    ghost Value = { RoomyAgent };

    ghost use Rattle.agent_core.specs.Views.{roomy_agent, IsKept};

    ghost view = { roomy_agent };

    ghost invariant = { IsKept };
}

impl Agent {
    /// Makes room for a record, so that neither `give` nor `decide` can want memory. On refusal nothing changes.
    pub fn reserve(&mut self) -> Result<(), Memory>
        ensures agent { self.new.plain ≡ self.old.plain }
        ensures ok { OnOk result (self.new.spare ≡ max self.old.spare 1) }
        ensures err { OnErr result (self.new.spare ≡ self.old.spare) }
    {
        self.records.reserve(1)
    }

    /// The records, in order.
    pub fn records(&self) -> &[Record]
        ensures { map entry result.now ≡ self.now.plain.records }
    {
        self.records.as_slice()
    }

    /// The agent's value.
    pub fn value(&self) -> u16
        ensures { result ≡ self.now.plain.value }
    {
        self.value
    }

    /// The atom at which the agent is; none where it is finished.
    pub fn at(&self) -> Option<AtomId>
        ensures { option_map (λ n. n.0) result ≡ self.now.plain.at }
    {
        self.at
    }

    /// The Ready that is held from an agent.
    pub fn held(&self, from: AgentId) -> Option<Ready>
        ensures { option_map ready_message result ≡ held_from self.now.plain from.0 }
    {
        let slot = self.held.get(from.0 as usize)?;
        *slot
    }

    /// Drops what is held.
    pub fn forget(&mut self)
        ensures agent { self.new.plain ≡ record self.old.plain { held = nothing_held } }
        ensures spare { self.new.spare ≡ self.old.spare }
        ensures valid { (d : PlainDiagram) → IsValid d self.old.plain → IsValid d self.new.plain }
    {
        self.held = [None; 16];
    }

    /// How many records there are.
    pub(crate) fn visit(&self) -> u16
        ensures { result ≡ length self.now.plain.records }
    {
        self.records.len() as u16
    }

    /// What the agent tells the leader of its atom. None where it is finished or leads its atom itself.
    pub fn tell(&self, d: &Diagram) -> Option<Ready>
        requires deterministic { IsDeterministic (negotiation_of d.now) }
        requires valid { IsValid d.now self.now.plain }
        ensures { option_map ready_message result ≡ ready_of d.now self.now.plain }
    {
        let n = self.at?;
        if d.leader(n) == self.id {
            return None;
        }
        Some(self.ready_for(d, n))
    }

    /// What the agent has to say to the leader of an atom.
    pub(crate) fn ready_for(&self, d: &Diagram, n: AtomId) -> Ready
        requires { n.0 < length d.now.atoms }
        ensures { ready_message result ≡ own_ready d.now self.now.plain n.0 }
    {
        Ready {
            from: self.id,
            to: d.leader(n),
            atom: n,
            visit: self.visit(),
            value: self.value,
        }
    }
}
