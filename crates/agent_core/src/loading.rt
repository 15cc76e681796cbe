//! An agent is loaded from its journal.
ghost use Rattle.std.specs.Prelude.{◌≡◌, ◌↔◌, ◌<◌, ◌≤◌, length, map, slice_index, Some, IfOk, IfErr, IsTrue, All};
ghost use Rattle.nego_base.specs.Members.{is_in};
ghost use Rattle.nego_model.specs.Negotiation.{IsDeterministic, IsOutcome};
ghost use Rattle.nego_model.specs.Diagram.{negotiation_of};
ghost use Rattle.agent_msg.specs.Records.{entry, share};
ghost use Rattle.agent_core.specs.Agents.{size_of, beginning, left_by, IsMoveOf, IsDecisionOf, IsStep, IsValid};
ghost use Rattle.agent_core.specs.Loading.{HasLoadFault};

use crate::Agent;
use crate::reading::{is_member, is_outcome};
use agent_msg::Record;
use nego_base::{AgentId, AgentSet, AtomId, Memory, OutcomeId, Reserved};
use nego_model::Diagram;
use std::alloc::Global;
use thiserror::Error;

/// Why a journal makes no agent.
#[derive(Clone, Copy, Debug, PartialEq, Eq, Error)]
pub enum LoadFault {
    /// The record of this place, from 0, is the first that isn't a step of the agent.
    #[error("a record is no step of the agent")]
    WrongRecord(u32),
    /// Memory was wanted.
    #[error("out of memory")]
    Memory,
}

impl From<Memory> for LoadFault {
    ghost use Rattle.agent_core.specs.declared.loading.LoadFault.TheVariants as faults;

    ghost from_gives = { λ _ e. e ≡ faults.Memory };

    fn from(_error: Memory) -> LoadFault {
        LoadFault::Memory
    }
}

impl Agent {
    /// The agent that a journal leaves, holding nothing. The value at the start is the agent's own.
    pub fn load(
        alloc: Global,
        d: &Diagram,
        id: AgentId,
        start: u16,
        journal: &[Record],
    ) -> Result<Agent, LoadFault>
        requires deterministic { IsDeterministic (negotiation_of d.now) }
        requires known { id.0 < length d.now.agents }
        requires value { start < size_of d.now id.0 }
        requires few { length journal.now ≤ 10000 }
        ensures agent { IfOk result (λ a. a.plain ≡ left_by d.now id.0 start (map entry journal.now)) }
        ensures valid { IfOk result (λ a. IsValid d.now a.plain) }
        ensures err { IfErr result (HasLoadFault d.now id.0 start (map entry journal.now)) }
    {
        let mut agent = Agent::beginning(alloc, d, id, start, journal.len())?;
        for (i, r) in journal.iter().enumerate() {
            if !agent.is_step(d, r) {
                return Err(LoadFault::WrongRecord(i as u32));
            }
            agent.record(d, r);
        }
        Ok(agent)
    }

    /// The agent at the beginning, with room for so many records.
    fn beginning(
        alloc: Global,
        d: &Diagram,
        id: AgentId,
        start: u16,
        room: usize,
    ) -> Result<Agent, Memory>
        requires known { id.0 < length d.now.agents }
        requires value { start < size_of d.now id.0 }
        ensures agent { IfOk result (λ a. a.plain ≡ beginning d.now id.0 start) }
        ensures spare { IfOk result (λ a. a.spare ≡ room) }
        ensures valid { IfOk result (λ a. IsValid d.now a.plain) }
    {
        let records = Reserved::new(alloc, room)?;
        Ok(Agent {
            id,
            start,
            at: Some(d.first()),
            value: start,
            records,
            held: [None; 16],
        })
    }

    /// Whether the record is a step of the agent.
    fn is_step(&self, d: &Diagram, r: &Record) -> bool
        requires valid { IsValid d.now self.now.plain }
        ensures { IsTrue result ↔ IsStep d.now self.now.plain (entry r.now) }
    {
        match r {
            Record::Move {
                atom,
                outcome,
                after,
            } => self.is_move(d, *atom, *outcome, *after),
            Record::Decision {
                atom,
                outcome,
                parties,
                visits,
                afters,
            } => self.is_decision(d, *atom, *outcome, *parties, visits, afters),
        }
    }

    /// Whether the outcome is one of the atom at which the agent is.
    fn is_next(&self, d: &Diagram, n: AtomId, o: OutcomeId) -> bool
        ensures { IsTrue result ↔ ((self.now.plain.at ≡ Some n.0) × IsOutcome (negotiation_of d.now) n.0 o.0) }
    {
        self.at == Some(n) && is_outcome(d, n, o)
    }

    /// Whether a move is a step of the agent.
    fn is_move(&self, d: &Diagram, n: AtomId, o: OutcomeId, after: u16) -> bool
        requires valid { IsValid d.now self.now.plain }
        ensures { IsTrue result ↔ IsMoveOf d.now self.now.plain n.0 o.0 after }
    {
        self.is_next(d, n, o) && d.leader(n) != self.id && after < d.sizes().size(self.id)
    }

    /// Whether a decision is a step of the agent.
    fn is_decision(
        &self,
        d: &Diagram,
        n: AtomId,
        o: OutcomeId,
        parties: AgentSet,
        visits: &[u16; 16],
        afters: &[u16; 16],
    ) -> bool
        requires valid { IsValid d.now self.now.plain }
        ensures { IsTrue result ↔ IsDecisionOf d.now self.now.plain n.0 o.0 (map (share visits.now afters.now) parties) }
    {
        if !self.is_next(d, n, o) || d.leader(n) != self.id {
            return false;
        }
        if !are_same(parties, d.parties(n)) || visits[self.id.0 as usize] != self.visit() {
            return false;
        }
        are_below(d, parties, afters)
    }
}

/// Whether two sets have the same members.
fn are_same(one: AgentSet, other: AgentSet) -> bool
    ensures { IsTrue result ↔ (one ≡ other) }
{
    one.within(other) && other.within(one)
}

/// Whether each party's value is below the party's size.
fn are_below(d: &Diagram, parties: AgentSet, values: &[u16; 16]) -> bool
    requires { All (λ p. p < length d.now.agents) parties }
    ensures { IsTrue result ↔ All (λ p. slice_index values.now p < size_of d.now p) parties }
{
    for p in 0..d.agents() {
        if !is_below(d, parties, values, AgentId(p)) {
            return false;
        }
    }
    true
}

/// Whether the agent's value is below its size, where it is one of the parties.
fn is_below(d: &Diagram, parties: AgentSet, values: &[u16; 16], p: AgentId) -> bool
    requires { p.0 < length d.now.agents }
    ensures { IsTrue result ↔ (IsTrue (is_in p.0 parties) → slice_index values.now p.0 < size_of d.now p.0) }
{
    if !is_member(parties, p) || p.0 >= d.agents() {
        return true;
    }
    values[p.0 as usize] < d.sizes().size(p)
}
