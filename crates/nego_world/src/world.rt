//! The world of all agents, and what one reads of it.
ghost use Rattle.std.specs.Prelude.{◌≡◌, ◌<◌, length, slice_get, Some, IfSome, IfNone};
ghost use Rattle.std.specs.List.{Contains};
ghost use Rattle.std.specs.Option.{option_map, is_none};
ghost use Rattle.nego_model.specs.Joining.{steps_of};
ghost use Rattle.nego_model.specs.Followed.{occurrences};
ghost use Rattle.agent_msg.specs.Messages.{message};
ghost use Rattle.nego_world.specs.Stepping.{finished_count};

use crate::history::History;
use crate::messages::Messages;
use agent_core::Agent;
use agent_msg::Msg;
use nego_base::{AgentId, Seq};
use nego_model::Run;
use std::marker::Model;

/// The world of all agents. Contracts see a plain world.
#[derive(Drop)]
pub struct World {
    pub(crate) agents: Seq<Agent>,
    pub(crate) sent: Messages,
    pub(crate) history: History,
}

impl Model for World {
    ghost use Rattle.agent_core.specs.Worlds.{PlainWorld};

    ghost Value = { PlainWorld };

    ghost use Rattle.nego_world.specs.WorldView.{plain_world};
    ghost use Rattle.std.specs.Prelude.{◌≤◌, length};

    ghost view = { plain_world };

    ghost invariant = { λ w. length w.agents ≤ 16 };
}

impl World {
    /// An agent of the world.
    pub fn agent(&self, a: AgentId) -> &Agent
        requires { a.0 < length self.now.agents }
        ensures { slice_get self.now.agents a.0 ≡ Some result.now.plain }
    {
        &self.agents[a.0 as usize]
    }

    /// How many messages were sent, each counted once.
    pub fn sent(&self) -> u32
        ensures { result ≡ length self.now.sent }
    {
        self.sent.len()
    }

    /// The message of a number.
    pub fn message(&self, i: u32) -> Option<Msg>
        ensures { option_map message result ≡ slice_get self.now.sent i }
    {
        self.sent.get(i)
    }

    /// The number of a message. None exactly where it wasn't sent.
    pub fn number_of(&self, m: &Msg) -> Option<u32>
        ensures some { IfSome result (λ i. slice_get self.now.sent i ≡ Some (message m.now)) }
        ensures none { IfNone result (¬ Contains self.now.sent (message m.now)) }
    {
        self.sent.number_of(m)
    }

    /// The occurrences of the history.
    pub fn history(&self) -> &Run
        ensures { occurrences result.now ≡ steps_of self.now.history }
    {
        self.history.steps()
    }

    /// The joint data after an entry of the history.
    pub fn joint_after(&self, i: usize) -> u16
        requires { i < length self.now.history }
        ensures { option_map (λ entry. entry.joint) (slice_get self.now.history i) ≡ Some result }
    {
        self.history.joint_after(i)
    }

    /// How many agents are finished.
    pub fn finished(&self) -> u32
        ensures { result ≡ finished_count self.now }
    {
        self.agents
            .iter()
            .filter(|agent| is_finished(agent))
            .count() as u32
    }
}

/// Whether an agent is finished.
fn is_finished(agent: &Agent) -> bool
    ensures { result ≡ is_none agent.now.plain.at }
{
    match agent.at() {
        Some(_) => false,
        None => true,
    }
}
