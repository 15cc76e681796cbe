//! Events happen to the world.
ghost use Rattle.std.specs.Prelude.{◌≡◌, ◌<◌, ◌≤◌, length, slice_get, Some, Ok, All, IfOk, IfErr, OnOk, OnErr};
ghost use Rattle.std.specs.Option.{option_map, option_to_list};
ghost use Rattle.nego_model.specs.Negotiation.{IsDeterministic};
ghost use Rattle.nego_model.specs.Diagram.{PlainDiagram, IsDiagram, negotiation_of};
ghost use Rattle.agent_msg.specs.Messages.{message, decide_message};
ghost use Rattle.agent_msg.specs.Records.{entry, IsTidy};
ghost use Rattle.agent_core.specs.Agents.{IsValid, IsStep};
ghost use Rattle.agent_core.specs.Acts.{after_act, given, taking};
ghost use Rattle.agent_core.specs.Deciding.{decided};
ghost use Rattle.agent_core.specs.Views.{plain_give, IsTidyGive};
ghost use Rattle.agent_core.specs.Worlds.{Ending, GoesOn, StopsBefore, StopsAfter, agent_of, addressee, step};
ghost use Rattle.agent_core.specs.Worlds as worlds;
ghost use Rattle.agent_core.specs.Consistency.{IsConsistent};
ghost use Rattle.nego_world.specs.Events.{plain_event, NamesAgent};
ghost use Rattle.nego_world.specs.Stepping.{again_of, kept_of, Happened, TellsDeed, KeepsTidy, HasStepFault, HasFewRecords};

use crate::{Event, StepFault, Stepped, World};
use agent_core::{Agent, Choice, Decided, Give};
use agent_msg::{Decide, Msg, Record};
use nego_base::{AgentId, Memory};
use nego_model::Diagram;

impl World {
    /// Lets an event happen. A refusal changes nothing.
    pub fn step(&mut self, d: &Diagram, e: &Event) -> Result<Stepped, StepFault>
        requires deterministic { IsDeterministic (negotiation_of d.now) }
        requires consistent { IsConsistent d.now self.old }
        requires few { HasFewRecords self.old }
        requires known { NamesAgent d.now (plain_event e.now) }
        ensures world { OnOk result (step d.now self.old (plain_event e.now) ≡ Ok self.new) }
        ensures told { IfOk result (TellsDeed d.now self.old (plain_event e.now)) }
        ensures tidy { IfOk result KeepsTidy }
        ensures err { IfErr result (HasStepFault d.now self.old (plain_event e.now)) }
        ensures unchanged { OnErr result (self.new ≡ self.old) }
        ensures consistent { IsConsistent d.now self.new }
    {
        let _agents = d.agents();
        self.happen(d, e)
    }

    /// Lets an event happen, by its kind.
    fn happen(&mut self, d: &Diagram, e: &Event) -> Result<Stepped, StepFault>
        requires diagram { IsDiagram d.now }
        requires deterministic { IsDeterministic (negotiation_of d.now) }
        requires consistent { IsConsistent d.now self.old }
        requires few { HasFewRecords self.old }
        requires known { NamesAgent d.now (plain_event e.now) }
        ensures ok { IfOk result (λ stepped. Happened d.now self.old (plain_event e.now) stepped self.new) }
        ensures err { IfErr result (HasStepFault d.now self.old (plain_event e.now)) }
        ensures unchanged { OnErr result (self.new ≡ self.old) }
    {
        match *e {
            Event::Tell(a) => self.tell(d, a),
            Event::Give(i) => self.give(d, i),
            Event::Decide(a, c) => self.decide(d, a, c),
            Event::Stop(a) => Ok(self.stop(a)),
            Event::GiveLost(i) => self.lose_given(d, i),
            Event::GiveKept(i) => self.keep_given(d, i),
            Event::DecideLost(a, c) => self.lose_decision(d, a, c),
            Event::DecideKept(a, c) => self.keep_decision(d, a, c),
        }
    }

    /// An agent tells.
    fn tell(&mut self, d: &Diagram, a: AgentId) -> Result<Stepped, StepFault>
        requires diagram { IsDiagram d.now }
        requires deterministic { IsDeterministic (negotiation_of d.now) }
        requires consistent { IsConsistent d.now self.old }
        requires known { a.0 < length d.now.agents }
        ensures ok { IfOk result (λ stepped. Happened d.now self.old (worlds.Tell a.0) stepped self.new) }
        ensures err { IfErr result (HasStepFault d.now self.old (worlds.Tell a.0)) }
        ensures unchanged { OnErr result (self.new ≡ self.old) }
    {
        self.sent.reserve(1)?;
        let ready = self.agents[a.0 as usize].tell(d);
        self.sent.put_ready(ready);
        Ok(Stepped {
            agent: a,
            kept: None,
            ready,
            again: None,
        })
    }

    /// An agent stops.
    fn stop(&mut self, a: AgentId) -> Stepped
        requires known { a.0 < length self.old.agents }
        ensures { (diagram : PlainDiagram) → Happened diagram self.old (worlds.Stop a.0) result self.new }
    {
        self.agents[a.0 as usize].forget();
        Stepped {
            agent: a,
            kept: None,
            ready: None,
            again: None,
        }
    }

    /// The message of a number, to be given.
    fn to_give(&self, i: u32) -> Result<Msg, StepFault>
        ensures ok { IfOk result (λ m. slice_get self.now.sent i ≡ Some (message m)) }
        ensures err { IfErr result (λ fault. (diagram : PlainDiagram) (ending : Ending) → HasStepFault diagram self.now (worlds.Give i ending) fault) }
    {
        match self.message(i) {
            Some(m) => Ok(m),
            None => Err(StepFault::NoMessage(i)),
        }
    }

    /// A message is given.
    fn give(&mut self, d: &Diagram, i: u32) -> Result<Stepped, StepFault>
        requires diagram { IsDiagram d.now }
        requires deterministic { IsDeterministic (negotiation_of d.now) }
        requires consistent { IsConsistent d.now self.old }
        requires few { HasFewRecords self.old }
        ensures ok { IfOk result (λ stepped. Happened d.now self.old (worlds.Give i GoesOn) stepped self.new) }
        ensures err { IfErr result (HasStepFault d.now self.old (worlds.Give i GoesOn)) }
        ensures unchanged { OnErr result (self.new ≡ self.old) }
    {
        let m = self.to_give(i)?;
        let to = addressee(&m);
        self.sent.reserve(1)?;
        let given = take(&mut self.agents[to.0 as usize], d, &m)?;
        let again = decide_again(&given);
        self.sent.put_again(again);
        Ok(Stepped {
            agent: to,
            kept: recorded(&given),
            ready: None,
            again,
        })
    }

    /// A message is given to an agent that stops before a record is kept.
    fn lose_given(&mut self, d: &Diagram, i: u32) -> Result<Stepped, StepFault>
        requires diagram { IsDiagram d.now }
        requires deterministic { IsDeterministic (negotiation_of d.now) }
        requires consistent { IsConsistent d.now self.old }
        ensures ok { IfOk result (λ stepped. Happened d.now self.old (worlds.Give i StopsBefore) stepped self.new) }
        ensures err { IfErr result (HasStepFault d.now self.old (worlds.Give i StopsBefore)) }
        ensures unchanged { OnErr result (self.new ≡ self.old) }
    {
        let m = self.to_give(i)?;
        Ok(self.stop(addressee(&m)))
    }

    /// A message is given to an agent that stops after a record is kept, before anything is sent.
    fn keep_given(&mut self, d: &Diagram, i: u32) -> Result<Stepped, StepFault>
        requires diagram { IsDiagram d.now }
        requires deterministic { IsDeterministic (negotiation_of d.now) }
        requires consistent { IsConsistent d.now self.old }
        requires few { HasFewRecords self.old }
        ensures ok { IfOk result (λ stepped. Happened d.now self.old (worlds.Give i StopsAfter) stepped self.new) }
        ensures err { IfErr result (HasStepFault d.now self.old (worlds.Give i StopsAfter)) }
        ensures unchanged { OnErr result (self.new ≡ self.old) }
    {
        let m = self.to_give(i)?;
        let to = addressee(&m);
        let agent = &mut self.agents[to.0 as usize];
        let given = take(agent, d, &m)?;
        agent.forget();
        Ok(Stepped {
            agent: to,
            kept: recorded(&given),
            ready: None,
            again: None,
        })
    }

    /// What an agent decides, or why it doesn't.
    fn decision(&self, d: &Diagram, a: AgentId, c: Choice) -> Result<Record, StepFault>
        requires diagram { IsDiagram d.now }
        requires deterministic { IsDeterministic (negotiation_of d.now) }
        requires consistent { IsConsistent d.now self.now }
        requires known { a.0 < length d.now.agents }
        ensures ok { IfOk result (λ r. decided d.now (agent_of d.now self.now a.0) c ≡ Ok (entry r)) }
        ensures step { IfOk result (λ r. IsStep d.now (agent_of d.now self.now a.0) (entry r)) }
        ensures tidy { IfOk result IsTidy }
        ensures err { IfErr result (λ fault. (ending : Ending) → HasStepFault d.now self.now (worlds.Decide a.0 c ending) fault) }
    {
        match self.agent(a).would_decide(d, c) {
            Decided::Done(r) => Ok(r),
            Decided::Finished => Err(StepFault::Finished),
            Decided::NotLeader => Err(StepFault::NotLeader),
            Decided::Waits(p) => Err(StepFault::Waits(p)),
        }
    }

    /// An agent decides. All that grows is made to grow before the agent changes.
    fn decide(&mut self, d: &Diagram, a: AgentId, c: Choice) -> Result<Stepped, StepFault>
        requires diagram { IsDiagram d.now }
        requires deterministic { IsDeterministic (negotiation_of d.now) }
        requires consistent { IsConsistent d.now self.old }
        requires few { HasFewRecords self.old }
        requires known { a.0 < length d.now.agents }
        ensures ok { IfOk result (λ stepped. Happened d.now self.old (worlds.Decide a.0 c GoesOn) stepped self.new) }
        ensures err { IfErr result (HasStepFault d.now self.old (worlds.Decide a.0 c GoesOn)) }
        ensures unchanged { OnErr result (self.new ≡ self.old) }
    {
        let r = self.decision(d, a, c)?;
        let agent = &mut self.agents[a.0 as usize];
        agent.reserve()?;
        self.sent.reserve(16)?;
        self.history.enter(d, &r)?;
        agent.decide(d, c);
        self.sent.put_decides(a, &r);
        Ok(Stepped {
            agent: a,
            kept: Some(r),
            ready: None,
            again: None,
        })
    }

    /// An agent decides, but stops before its record is kept.
    fn lose_decision(&mut self, d: &Diagram, a: AgentId, c: Choice) -> Result<Stepped, StepFault>
        requires diagram { IsDiagram d.now }
        requires deterministic { IsDeterministic (negotiation_of d.now) }
        requires consistent { IsConsistent d.now self.old }
        requires known { a.0 < length d.now.agents }
        ensures ok { IfOk result (λ stepped. Happened d.now self.old (worlds.Decide a.0 c StopsBefore) stepped self.new) }
        ensures err { IfErr result (HasStepFault d.now self.old (worlds.Decide a.0 c StopsBefore)) }
        ensures unchanged { OnErr result (self.new ≡ self.old) }
    {
        self.decision(d, a, c)?;
        Ok(self.stop(a))
    }

    /// An agent decides, but stops after its record is kept, before anything is sent.
    fn keep_decision(&mut self, d: &Diagram, a: AgentId, c: Choice) -> Result<Stepped, StepFault>
        requires diagram { IsDiagram d.now }
        requires deterministic { IsDeterministic (negotiation_of d.now) }
        requires consistent { IsConsistent d.now self.old }
        requires few { HasFewRecords self.old }
        requires known { a.0 < length d.now.agents }
        ensures ok { IfOk result (λ stepped. Happened d.now self.old (worlds.Decide a.0 c StopsAfter) stepped self.new) }
        ensures err { IfErr result (HasStepFault d.now self.old (worlds.Decide a.0 c StopsAfter)) }
        ensures unchanged { OnErr result (self.new ≡ self.old) }
    {
        let r = self.decision(d, a, c)?;
        let agent = &mut self.agents[a.0 as usize];
        agent.reserve()?;
        self.history.enter(d, &r)?;
        agent.decide(d, c);
        agent.forget();
        Ok(Stepped {
            agent: a,
            kept: Some(r),
            ready: None,
            again: None,
        })
    }
}

/// To whom a message is addressed.
fn addressee(m: &Msg) -> AgentId
    ensures { result.0 ≡ addressee (message m.now) }
{
    match m {
        Msg::Ready(ready) => ready.to,
        Msg::Decide(decide) => decide.to,
    }
}

/// Gives an agent a message, with room for a record. On refusal the agent is as before.
fn take(agent: &mut Agent, d: &Diagram, m: &Msg) -> Result<Give, Memory>
    requires deterministic { IsDeterministic (negotiation_of d.now) }
    requires valid { IsValid d.now agent.old.plain }
    requires few { length agent.old.plain.records ≤ 10000 }
    ensures answer { IfOk result (λ g. plain_give g ≡ given d.now agent.old.plain (message m.now)) }
    ensures agent { IfOk result (λ g. agent.new.plain ≡ after_act d.now agent.old.plain (taking agent.old.plain (message m.now) (plain_give g))) }
    ensures tidy { IfOk result IsTidyGive }
    ensures err { OnErr result (agent.new.plain ≡ agent.old.plain) }
{
    agent.reserve()?;
    Ok(agent.give(d, m))
}

/// The record that was kept of a message.
fn recorded(given: &Give) -> Option<Record>
    ensures kept { option_map entry result ≡ kept_of (plain_give given.now) }
    ensures tidy { IsTidyGive given.now → All IsTidy (option_to_list result) }
{
    match given {
        Give::Recorded(r) => Some(*r),
        _ => None,
    }
}

/// The Decide that a message gets again.
fn decide_again(given: &Give) -> Option<Decide>
    ensures { option_map decide_message result ≡ again_of (plain_give given.now) }
{
    match given {
        Give::Again(decide) => Some(*decide),
        _ => None,
    }
}
