//! What was decided, and the joint data after each decision.
ghost use Rattle.std.specs.Prelude.{◌≡◌, ℕ, ◌<◌, [], ◌∷◌, ◌++◌, All, length, slice_get, slice_index, Some, OnOk, OnErr};
ghost use Rattle.std.specs.Option.{option_map, option_map_or};
ghost use Rattle.nego_data.specs.Data.{data_count};
ghost use Rattle.nego_model.specs.Joining.{steps_of, joint_after};
ghost use Rattle.nego_model.specs.Followed.{occurrences};
ghost use Rattle.nego_model.specs.Diagram.{IsDiagram};
ghost use Rattle.agent_msg.specs.Records.{entry};
ghost use Rattle.agent_core.specs.Agents.{size_of, shares_in, share_of};
ghost use Rattle.agent_core.specs.Worlds.{changed, entered};
ghost use Rattle.nego_world.specs.Stepping.{value_after_in};

use agent_msg::Record;
use nego_base::{AgentId, AtomId, Memory, OutcomeId, Seq};
use nego_model::{Diagram, Run};
use std::alloc::Global;
use std::marker::Model;

/// The joint data at the start, what was decided, and the joint data after each decision. Contracts see the start and
/// the entries.
#[derive(Drop)]
pub(crate) struct History {
    start: u16,
    steps: Run,
    /// The joint data after each step.
    joints: Seq<u16>,
}

impl Model for History {
    ghost use Rattle.std.specs.Prelude.{◌≡◌, length};
    ghost use Rattle.nego_world.specs.Roomy.{StartedEntries};

    ghost Value = { StartedEntries };

    ghost use Rattle.nego_world.specs.WorldView.{started_entries};

    ghost view = { started_entries };

    ghost invariant = { λ h. length h.joints ≡ length h.steps };
}

impl History {
    /// The history of nothing, from a start on.
    pub(crate) fn new(alloc: Global, start: u16) -> History
        ensures start { result.start ≡ start }
        ensures entries { result.entries ≡ [] }
    {
        History {
            start,
            steps: Run::new(alloc),
            joints: Seq::new(alloc),
        }
    }

    /// The occurrences of the entries.
    pub(crate) fn steps(&self) -> &Run
        ensures { occurrences result.now ≡ steps_of self.now.entries }
    {
        &self.steps
    }

    /// The joint data after an entry.
    pub(crate) fn joint_after(&self, i: usize) -> u16
        requires { i < length self.now.entries }
        ensures { option_map (λ e. e.joint) (slice_get self.now.entries i) ≡ Some result }
    {
        self.joints[i]
    }

    /// The joint data after all entries.
    fn joint(&self) -> u16
        ensures { result ≡ joint_after self.now.start self.now.entries }
    {
        match self.joints.last() {
            Some(joint) => *joint,
            None => self.start,
        }
    }

    /// Enters a record: a decision becomes the next entry. On refusal nothing changes.
    pub(crate) fn enter(&mut self, d: &Diagram, r: &Record) -> Result<(), Memory>
        requires joint { joint_after self.old.start self.old.entries < data_count d.now.sizes }
        requires afters { All (λ s. s.after < size_of d.now s.agent) (shares_in (entry r.now)) }
        ensures start { self.new.start ≡ self.old.start }
        ensures ok { OnOk result (self.new.entries ≡ entered d.now self.old.start self.old.entries (entry r.now)) }
        ensures err { OnErr result (self.new.entries ≡ self.old.entries) }
    {
        match r {
            Record::Move { .. } => Ok(()),
            Record::Decision { atom, outcome, .. } => {
                let joint = changed(d, self.joint(), r);
                self.push(*atom, *outcome, joint)
            }
        }
    }

    /// Puts an entry at the end. On refusal nothing changes.
    fn push(&mut self, n: AtomId, o: OutcomeId, joint: u16) -> Result<(), Memory>
        ensures start { self.new.start ≡ self.old.start }
        ensures ok { OnOk result (self.new.entries ≡ self.old.entries ++ record { step = (n.0, o.0); joint = joint } ∷ []) }
        ensures err { OnErr result (self.new.entries ≡ self.old.entries) }
    {
        self.steps.push((n, o))?;
        match self.joints.push(joint) {
            Ok(()) => Ok(()),
            Err(memory) => {
                self.steps.pop();
                Err(memory)
            }
        }
    }
}

/// The joint data in which the parties of a record have their values after it, and each other agent its own before.
fn changed(d: &Diagram, joint: u16, r: &Record) -> u16
    requires joint { joint < data_count d.now.sizes }
    requires afters { All (λ s. s.after < size_of d.now s.agent) (shares_in (entry r.now)) }
    ensures { result ≡ changed d.now joint (shares_in (entry r.now)) }
{
    let values = values_after(d, joint, r);
    d.sizes().joint(&values)
}

/// The agents' values: those of the parties of a record after it, and those of the others before.
fn values_after(d: &Diagram, joint: u16, r: &Record) -> [u16; 16]
    requires { joint < data_count d.now.sizes }
    ensures values { (a : ℕ) → a < length d.now.agents → slice_index result a ≡ value_after_in d.now joint (shares_in (entry r.now)) a }
    ensures diagram { IsDiagram d.now }
{
    let before = d.sizes().split(joint);
    let mut values = [0; 16];
    for a in 0..d.agents() {
        values[a as usize] = after_or(r, AgentId(a), before[a as usize]);
    }
    values
}

/// The value of an agent after a record, where it is one of its parties, and else another value.
fn after_or(r: &Record, a: AgentId, other: u16) -> u16
    requires { a.0 < 16 }
    ensures { result ≡ option_map_or (λ s. s.after) (share_of a.0 (shares_in (entry r.now))) other }
{
    match r {
        Record::Decision {
            parties,
            afters,
            ..
        } if parties.has(a) => afters[a.0 as usize],
        _ => other,
    }
}
