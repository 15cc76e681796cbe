//! What becomes of a message that is given to an agent.
ghost use Rattle.std.specs.Prelude.{◌≡◌, ◌+◌, ◌<◌, ◌≤◌, ◌==◌, nat_lt, length, find, slice_set, Some, IsTrue};
ghost use Rattle.std.specs.List.{list_any};
ghost use Rattle.std.specs.Option.{option_map, option_copied};
ghost use Rattle.nego_model.specs.Negotiation.{IsDeterministic};
ghost use Rattle.nego_model.specs.Diagram.{negotiation_of};
ghost use Rattle.agent_msg.specs.Messages.{ReadyOf, DecideOf, message, ready_message, decide_message};
ghost use Rattle.agent_msg.specs.Records.{entry};
ghost use Rattle.agent_core.specs.Agents.{IsValid, shares_in, share_of};
ghost use Rattle.agent_core.specs.Acts.{Kept, IsUnrecorded, after_act, has_visit, is_for, answered_by, is_passed, is_awaited, given_ready, given_decide, given, taking};
ghost use Rattle.agent_core.specs.Views.{plain_give, IsTidyGive};

use crate::reading::{is_outcome, is_party};
use crate::{Agent, Give};
use agent_msg::{Decide, Msg, Ready, Record, decide_for};
use nego_base::AgentId;
use nego_model::Diagram;

/// The visit of an agent in a record, where this is a decision with it.
fn visit_in(r: &Record, p: AgentId) -> Option<u16>
    requires { p.0 < 16 }
    ensures { result ≡ option_map (λ s. s.visit) (share_of p.0 (shares_in (entry r.now))) }
{
    match r {
        Record::Decision {
            parties,
            visits,
            ..
        } if parties.has(p) => Some(visits[p.0 as usize]),
        _ => None,
    }
}

/// Whether the record is a decision with the agent on this visit.
fn meets(r: &Record, p: AgentId, visit: u16) -> bool
    requires { p.0 < 16 }
    ensures { result ≡ has_visit p.0 (λ v. v == visit) (entry r.now) }
{
    visit_in(r, p) == Some(visit)
}

/// Whether the record is a decision with the agent on a greater visit.
fn passes(r: &Record, p: AgentId, visit: u16) -> bool
    requires { p.0 < 16 }
    ensures { result ≡ has_visit p.0 (nat_lt visit) (entry r.now) }
{
    match visit_in(r, p) {
        Some(v) => visit < v,
        None => false,
    }
}

/// The first decision with the agent on this visit.
fn first_met(records: &[Record], p: AgentId, visit: u16) -> Option<&Record>
    requires { p.0 < 16 }
    ensures { option_copied result ≡ find (λ r. has_visit p.0 (λ v. v == visit) (entry r)) records.now }
{
    records.iter().find(|r| meets(r, p, visit))
}

/// Whether some decision with the agent is on a greater visit.
fn some_passes(records: &[Record], p: AgentId, visit: u16) -> bool
    requires { p.0 < 16 }
    ensures { result ≡ list_any (λ r. has_visit p.0 (nat_lt visit) (entry r)) records.now }
{
    records.iter().any(|r| passes(r, p, visit))
}

impl Agent {
    /// Gives the agent a message. It takes no memory: there is to be room for a record, which a move that is recorded
    /// uses up.
    pub fn give(&mut self, d: &Diagram, m: &Msg) -> Give
        requires deterministic { IsDeterministic (negotiation_of d.now) }
        requires valid { IsValid d.now self.old.plain }
        requires room { 0 < self.old.spare }
        requires few { length self.old.plain.records ≤ 10000 }
        ensures answer { plain_give result ≡ given d.now self.old.plain (message m.now) }
        ensures agent { self.new.plain ≡ after_act d.now self.old.plain (taking self.old.plain (message m.now) (plain_give result)) }
        ensures spare { self.new.spare + length self.new.plain.records ≡ self.old.spare + length self.old.plain.records }
        ensures valid { IsValid d.now self.new.plain }
        ensures tidy { IsTidyGive result }
    {
        match m {
            Msg::Ready(ready) if ready.to == self.id => self.give_ready(d, ready),
            Msg::Decide(decide) if decide.to == self.id => self.give_decide(d, decide),
            _ => Give::Stranger,
        }
    }

    /// Gives the agent a Ready that is addressed to it.
    fn give_ready(&mut self, d: &Diagram, ready: &Ready) -> Give
        requires valid { IsValid d.now self.old.plain }
        requires own { ready.now.to.0 ≡ self.old.plain.id }
        ensures answer { plain_give result ≡ given_ready d.now self.old.plain (ready_message ready.now) }
        ensures agent { self.new.plain ≡ after_act d.now self.old.plain (taking self.old.plain (ReadyOf (ready_message ready.now)) (plain_give result)) }
        ensures spare { self.new.spare ≡ self.old.spare }
        ensures valid { IsValid d.now self.new.plain }
        ensures tidy { IsTidyGive result }
    {
        let answer = self.answer_ready(d, ready);
        if let Give::Kept = answer {
            self.hold(*ready);
        }
        answer
    }

    /// What becomes of a Ready that is addressed to the agent.
    fn answer_ready(&self, d: &Diagram, ready: &Ready) -> Give
        requires valid { IsValid d.now self.now.plain }
        ensures value { plain_give result ≡ given_ready d.now self.now.plain (ready_message ready.now) }
        ensures unrecorded { IsUnrecorded (plain_give result) }
        ensures kept { plain_give result ≡ Kept → IsTrue (is_for d.now self.now.plain (ready_message ready.now)) }
    {
        if !self.is_for(d, ready) {
            return Give::Stranger;
        }
        if let Some(decision) = self.decision_on(ready) {
            return self.answer_by(ready, decision);
        }
        if self.is_passed(ready) {
            return Give::Stranger;
        }
        Give::Kept
    }

    /// Whether a Ready is for an atom that the agent leads, from another party, with a value below the party's size.
    fn is_for(&self, d: &Diagram, ready: &Ready) -> bool
        ensures value { result ≡ is_for d.now self.now.plain (ready_message ready.now) }
        ensures few { IsTrue result → ready.now.from.0 < 16 }
    {
        if !is_party(d, ready.atom, ready.from) || ready.from == self.id {
            return false;
        }
        d.leader(ready.atom) == self.id && ready.value < d.sizes().size(ready.from)
    }

    /// The first decision on the Ready: the one with its sender on its visit.
    fn decision_on(&self, ready: &Ready) -> Option<&Record>
        requires { ready.now.from.0 < 16 }
        ensures { option_map entry (option_copied result) ≡ find (has_visit ready.now.from.0 (λ v. v == ready.now.visit)) self.now.plain.records }
    {
        first_met(self.records(), ready.from, ready.visit)
    }

    /// The answer to a Ready on which the agent decided.
    fn answer_by(&self, ready: &Ready, decision: &Record) -> Give
        ensures { plain_give result ≡ answered_by self.now.plain (ready_message ready.now) (entry decision.now) }
    {
        match decide_for(decision, self.id, ready.from) {
            Some(decide) if decide.atom == ready.atom => Give::Again(decide),
            _ => Give::Stranger,
        }
    }

    /// Whether a decision with the sender, or the Ready that is held from it, has a greater visit than the Ready.
    fn is_passed(&self, ready: &Ready) -> bool
        requires { ready.now.from.0 < 16 }
        ensures { result ≡ is_passed self.now.plain (ready_message ready.now) }
    {
        if some_passes(self.records(), ready.from, ready.visit) {
            return true;
        }
        match self.held(ready.from) {
            Some(held) => ready.visit < held.visit,
            None => false,
        }
    }

    /// Gives the agent a Decide that is addressed to it.
    fn give_decide(&mut self, d: &Diagram, decide: &Decide) -> Give
        requires valid { IsValid d.now self.old.plain }
        requires room { 0 < self.old.spare }
        requires few { length self.old.plain.records ≤ 10000 }
        ensures answer { plain_give result ≡ given_decide d.now self.old.plain (decide_message decide.now) }
        ensures agent { self.new.plain ≡ after_act d.now self.old.plain (taking self.old.plain (DecideOf (decide_message decide.now)) (plain_give result)) }
        ensures spare { self.new.spare + length self.new.plain.records ≡ self.old.spare + length self.old.plain.records }
        ensures valid { IsValid d.now self.new.plain }
        ensures tidy { IsTidyGive result }
    {
        if decide.visit < self.visit() {
            return Give::Old;
        }
        if !self.is_awaited(d, decide) {
            return Give::Stranger;
        }
        let r = Record::Move {
            atom: decide.atom,
            outcome: decide.outcome,
            after: decide.after,
        };
        self.record(d, &r);
        Give::Recorded(r)
    }

    /// Whether a Decide is the one that the agent waits for.
    fn is_awaited(&self, d: &Diagram, decide: &Decide) -> bool
        requires valid { IsValid d.now self.now.plain }
        ensures { result ≡ is_awaited d.now self.now.plain (decide_message decide.now) }
    {
        if decide.visit != self.visit() || self.at != Some(decide.atom) {
            return false;
        }
        let leader = d.leader(decide.atom);
        if leader == self.id || leader != decide.from {
            return false;
        }
        is_outcome(d, decide.atom, decide.outcome) && decide.after < d.sizes().size(self.id)
    }

    /// Holds a Ready, in place of the one from its sender.
    fn hold(&mut self, ready: Ready)
        ensures agent { self.new.plain ≡ record self.old.plain { held = slice_set self.old.plain.held ready.from.0 (Some (ready_message ready)) } }
        ensures spare { self.new.spare ≡ self.old.spare }
    {
        let from = ready.from.0 as usize;
        if from < self.held.len() {
            self.held[from] = Some(ready);
        }
    }
}
