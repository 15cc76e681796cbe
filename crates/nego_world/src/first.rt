//! The world at the beginning.
ghost use Rattle.std.specs.Prelude.{◌≡◌, ◌<◌, ◌≤◌, length, map, slice_index, IfOk};
ghost use Rattle.std.specs.List.{range_with_len};
ghost use Rattle.nego_data.specs.Data.{data_count};
ghost use Rattle.nego_model.specs.Negotiation.{IsDeterministic};
ghost use Rattle.nego_model.specs.Diagram.{negotiation_of};
ghost use Rattle.agent_core.specs.Agents.{beginning};
ghost use Rattle.agent_core.specs.Deciding.{value_in};
ghost use Rattle.agent_core.specs.Worlds.{first_world};
ghost use Rattle.agent_core.specs.Consistency.{IsConsistent};

use crate::World;
use crate::history::History;
use crate::messages::Messages;
use agent_core::Agent;
use nego_base::{AgentId, Memory, Seq};
use nego_model::Diagram;
use std::alloc::Global;

impl World {
    /// The world at the beginning, where no agent has a record.
    pub fn new(alloc: Global, d: &Diagram, start: u16) -> Result<World, Memory>
        requires deterministic { IsDeterministic (negotiation_of d.now) }
        requires start { start < data_count d.now.sizes }
        ensures world { IfOk result (λ w. w ≡ first_world d.now start) }
        ensures consistent { IfOk result (IsConsistent d.now) }
    {
        let agents = first_agents(alloc, d, start)?;
        Ok(World {
            agents,
            sent: Messages::new(alloc),
            history: History::new(alloc, start),
        })
    }
}

/// The agents at the beginning, in order.
fn first_agents(alloc: Global, d: &Diagram, start: u16) -> Result<Seq<Agent>, Memory>
    requires deterministic { IsDeterministic (negotiation_of d.now) }
    requires start { start < data_count d.now.sizes }
    ensures agents { IfOk result (λ agents. map (λ agent. agent.plain) agents ≡ map (λ a. beginning d.now a (value_in d.now start a)) (range_with_len 0 (length d.now.agents))) }
    ensures few { IfOk result (λ agents. length agents ≤ 16) }
{
    let values = d.sizes().split(start);
    let mut agents = Seq::new(alloc);
    for a in 0..d.agents() {
        agents.push(first_agent(alloc, d, AgentId(a), values[a as usize])?)?;
    }
    Ok(agents)
}

/// An agent at the beginning.
fn first_agent(alloc: Global, d: &Diagram, a: AgentId, value: u16) -> Result<Agent, Memory>
    requires deterministic { IsDeterministic (negotiation_of d.now) }
    requires known { a.0 < length d.now.agents }
    requires value { value < slice_index d.now.sizes a.0 }
    ensures { IfOk result (λ agent. agent.plain ≡ beginning d.now a.0 value) }
{
    match Agent::load(alloc, d, a, value, &[]) {
        Ok(agent) => Ok(agent),
        Err(_) => Err(Memory),
    }
}
