//! How a record is kept.
ghost use Rattle.std.specs.Prelude.{◌≡◌, ◌-◌, ◌<◌, ◌≤◌, length};
ghost use Rattle.agent_msg.specs.Records.{entry};
ghost use Rattle.agent_core.specs.Agents.{IsValid, IsStep, recorded, record_outcome, value_after};

use crate::Agent;
use agent_msg::Record;
use nego_base::{AgentId, OutcomeId};
use nego_model::Diagram;

/// The outcome of a record.
pub(crate) fn outcome_of(r: &Record) -> OutcomeId
    ensures { result.0 ≡ record_outcome (entry r.now) }
{
    match r {
        Record::Move { outcome, .. } | Record::Decision { outcome, .. } => *outcome,
    }
}

/// The value that an agent has after a record of its own.
pub(crate) fn value_after(r: &Record, a: AgentId) -> u16
    requires { a.0 < 16 }
    ensures { result ≡ value_after a.0 (entry r.now) }
{
    match r {
        Record::Move { after, .. } => *after,
        Record::Decision {
            parties,
            afters,
            ..
        } if parties.has(a) => afters[a.0 as usize],
        _ => 0,
    }
}

impl Agent {
    /// Keeps a record that is a step of the agent. There is to be room for it.
    pub(crate) fn record(&mut self, d: &Diagram, r: &Record)
        requires valid { IsValid d.now self.old.plain }
        requires room { 0 < self.old.spare }
        requires few { length self.old.plain.records ≤ 10000 }
        requires step { IsStep d.now self.old.plain (entry r.now) }
        ensures agent { self.new.plain ≡ recorded d.now self.old.plain (entry r.now) }
        ensures spare { self.new.spare ≡ self.old.spare - 1 }
        ensures valid { IsValid d.now self.new.plain }
    {
        self.at = d.nexts(outcome_of(r), self.id).least();
        self.value = value_after(r, self.id);
        self.records.push(*r);
    }
}
