//! How an agent decides.
ghost use Rattle.std.specs.Prelude.{◌≡◌, ◌+◌, ◌<◌, ◌≤◌, ℕ, false, length, map, slice_index, Ok, Err, IsTrue};
ghost use Rattle.std.specs.Option.{option_map};
ghost use Rattle.std.specs.Result.{result_ok};
ghost use Rattle.nego_base.specs.Members.{is_in};
ghost use Rattle.nego_model.specs.Negotiation.{IsDeterministic};
ghost use Rattle.nego_model.specs.Diagram.{negotiation_of};
ghost use Rattle.agent_msg.specs.Messages.{ready_message};
ghost use Rattle.agent_msg.specs.Records.{PlainRecord, entry, IsTidy};
ghost use Rattle.agent_core.specs.Agents.{IsStep, IsValid};
ghost use Rattle.agent_core.specs.Deciding.{atom_to_decide, decision_by, unless_from, without_from, decided, after_decision, reduces};
ghost use Rattle.agent_core.specs.Views.{plain_decided, plain_refused, IsTidyDecided};

use crate::answers::Refused;
use crate::picking::pick;
use crate::reading::is_member;
use crate::{Agent, Choice, Decided};
use agent_msg::{Ready, Record};
use nego_base::{AgentId, AgentSet, AtomId};
use nego_model::Diagram;

impl Agent {
    /// The choice with its numbers reduced as `decide` reduces them. None exactly where `decide` would be refused.
    pub fn choice_of(&self, d: &Diagram, c: Choice) -> Option<Choice>
        requires deterministic { IsDeterministic (negotiation_of d.now) }
        requires valid { IsValid d.now self.now.plain }
        ensures { result ≡ result_ok (reduces d.now self.now.plain c) }
    {
        match self.atom_to_decide(d) {
            Ok(n) => Some(pick(d, n, self.known_joint(d, n), c).choice),
            Err(_) => None,
        }
    }

    /// What the agent decides by a choice, or why it doesn't decide. It changes nothing.
    pub fn would_decide(&self, d: &Diagram, c: Choice) -> Decided
        requires deterministic { IsDeterministic (negotiation_of d.now) }
        requires valid { IsValid d.now self.now.plain }
        ensures answer { plain_decided result ≡ decided d.now self.now.plain c }
        ensures step { (e : PlainRecord) → plain_decided result ≡ Ok e → IsStep d.now self.now.plain e }
        ensures tidy { IsTidyDecided result }
    {
        match self.atom_to_decide(d) {
            Ok(n) => Decided::Done(self.decision(d, n, c)),
            Err(refused) => refusal(refused),
        }
    }

    /// Decides the agent's atom. A refusal changes nothing. It takes no memory: there is to be room for a record, which
    /// the decision uses up.
    pub fn decide(&mut self, d: &Diagram, c: Choice) -> Decided
        requires deterministic { IsDeterministic (negotiation_of d.now) }
        requires valid { IsValid d.now self.old.plain }
        requires room { 0 < self.old.spare }
        requires few { length self.old.plain.records ≤ 10000 }
        ensures answer { plain_decided result ≡ decided d.now self.old.plain c }
        ensures agent { self.new.plain ≡ after_decision d.now self.old.plain c }
        ensures spare { self.new.spare + length self.new.plain.records ≡ self.old.spare + length self.old.plain.records }
        ensures valid { IsValid d.now self.new.plain }
        ensures tidy { IsTidyDecided result }
    {
        let n = match self.atom_to_decide(d) {
            Ok(n) => n,
            Err(refused) => return refusal(refused),
        };
        let r = self.decision(d, n, c);
        self.record(d, &r);
        self.drop_from(d.parties(n));
        Decided::Done(r)
    }

    /// The decision of an atom of whose parties all is known.
    fn decision(&self, d: &Diagram, n: AtomId, c: Choice) -> Record
        requires valid { IsValid d.now self.now.plain }
        requires atom { atom_to_decide d.now self.now.plain ≡ Ok n.0 }
        ensures value { entry result ≡ decision_by d.now self.now.plain n.0 c }
        ensures step { IsStep d.now self.now.plain (entry result) }
        ensures tidy { IsTidy result }
    {
        let picked = pick(d, n, self.known_joint(d, n), c);
        let parties = d.parties(n);
        Record::Decision {
            atom: n,
            outcome: picked.outcome,
            parties,
            visits: only(&self.known_visits(d, n), parties),
            afters: only(&d.sizes().split(picked.joint), parties),
        }
    }

    /// Drops what is held from these agents.
    fn drop_from(&mut self, agents: AgentSet)
        ensures agent { self.new.plain ≡ record self.old.plain { held = without_from agents self.old.plain.held } }
        ensures spare { self.new.spare ≡ self.old.spare }
    {
        self.held = held_without(&self.held, agents);
    }
}

/// The numbers of these agents, and 0 for each other.
fn only(numbers: &[u16; 16], agents: AgentSet) -> [u16; 16]
    ensures members { (p : ℕ) → IsTrue (is_in p agents) → slice_index result p ≡ slice_index numbers.now p }
    ensures others { (p : ℕ) → is_in p agents ≡ false → slice_index result p ≡ 0 }
{
    let mut left = [0; 16];
    if agents.count() == 0 {
        return left;
    }
    for p in 0..16 {
        left[p as usize] = one_of(numbers, agents, AgentId(p));
    }
    left
}

/// The number of an agent, where it is one of these, and else 0.
fn one_of(numbers: &[u16; 16], agents: AgentSet, p: AgentId) -> u16
    requires { p.0 < 16 }
    ensures member { IsTrue (is_in p.0 agents) → result ≡ slice_index numbers.now p.0 }
    ensures other { is_in p.0 agents ≡ false → result ≡ 0 }
{
    if agents.has(p) {
        numbers[p.0 as usize]
    } else {
        0
    }
}

/// What is held, without what is from these agents.
fn held_without(held: &[Option<Ready>; 16], agents: AgentSet) -> [Option<Ready>; 16]
    ensures { map (option_map ready_message) result ≡ without_from agents (map (option_map ready_message) held.now) }
{
    let mut left = [None; 16];
    for p in 0..16 {
        left[p] = unless_from(held[p], agents);
    }
    left
}

/// A Ready that is held, unless it is from one of these agents.
fn unless_from(held: Option<Ready>, agents: AgentSet) -> Option<Ready>
    ensures { option_map ready_message result ≡ unless_from agents (option_map ready_message held) }
{
    match held {
        Some(ready) if is_member(agents, ready.from) => None,
        _ => held,
    }
}

/// The answer where an agent doesn't decide.
fn refusal(refused: Refused) -> Decided
    ensures { plain_decided result ≡ Err (plain_refused refused) }
{
    match refused {
        Refused::Finished => Decided::Finished,
        Refused::NotLeader => Decided::NotLeader,
        Refused::Waits(p) => Decided::Waits(p),
    }
}
