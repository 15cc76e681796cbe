//! The report of a world.

ghost use Rattle.std.specs.Prelude.{◌≡◌, ◌<◌, ◌++◌, All, OnOk, IfOk, codes, decimal, length, map};
ghost use Rattle.std.specs.List.{flat_map};
ghost use Rattle.nego_data.specs.Data.{data_count, split};
ghost use Rattle.nego_model.specs.Diagram.{negotiation_of};
ghost use Rattle.nego_model.specs.Negotiation.{IsDeterministic};
ghost use Rattle.agent_msg.specs.Records.{entry, share};
ghost use Rattle.agent_core.specs.Agents.{IsValid};
ghost use Rattle.agent_core.specs.Consistency.{IsConsistent};
ghost use Rattle.world_text.specs.Named.{IsNamedStep, IsNamedEntry, IsNamedRecord};
ghost use Rattle.world_text.specs.ReportText.{step_words, number_words, entry_line, share_words, record_line, place_words, journal_lines, agent_lines, head_lines, all_agents, report_text};

use agent_core::Agent;
use agent_msg::Record;
use nego_base::{AgentId, AgentSet, AtomId, Memory, OutcomeId, Text};
use nego_model::Diagram;
use nego_world::World;
use std::alloc::Global;

/// The report of a consistent world after so many events.
#[tactic(auto, unfolding(crate::specs::ReportText::report_text))]
pub fn report(alloc: Global, d: &Diagram, w: &World, events: u64) -> Result<Text, Memory>
    requires deterministic { IsDeterministic (negotiation_of d.now) }
    requires consistent { IsConsistent d.now w.now }
    ensures { IfOk result (λ text. text ≡ report_text d.now w.now events) }
{
    let agents = d.agents();
    let mut text = head(alloc, w, events)?;
    put_history(&mut text, d, w)?;
    put_agents(&mut text, d, w)?;
    put_finished(&mut text, w.finished(), agents)?;
    Ok(text)
}

/// The first lines, with the number of events and of messages.
fn head(alloc: Global, w: &World, events: u64) -> Result<Text, Memory>
    ensures { IfOk result (λ text. text ≡ head_lines w.now events) }
{
    let mut text = Text::copy(alloc, b"world 1\nevents ")?;
    text.push_decimal(events)?;
    text.extend_from_slice(b"\nsent ")?;
    text.push_decimal(u64::from(w.sent()))?;
    text.extend_from_slice(b"\n")?;
    Ok(text)
}

/// Puts how many agents are finished, and how many there are, behind the text.
fn put_finished(text: &mut Text, finished: u32, agents: u32) -> Result<(), Memory>
    ensures { OnOk result (text.new ≡ text.old ++ (codes "finished " ++ (decimal finished ++ (codes " of " ++ (decimal agents ++ codes "\n"))))) }
{
    text.extend_from_slice(b"finished ")?;
    text.push_decimal(u64::from(finished))?;
    text.extend_from_slice(b" of ")?;
    text.push_decimal(u64::from(agents))?;
    text.extend_from_slice(b"\n")
}

/// Puts the history behind the text.
fn put_history(text: &mut Text, d: &Diagram, w: &World) -> Result<(), Memory>
    requires { All (IsNamedEntry d.now) w.now.history }
    ensures { OnOk result (text.new ≡ text.old ++ flat_map (entry_line d.now) w.now.history) }
{
    let steps = w.history().as_slice();
    for (i, step) in steps.iter().enumerate() {
        put_entry(text, d, *step, w.joint_after(i))?;
    }
    Ok(())
}

/// Puts an entry of the history behind the text.
fn put_entry(
    text: &mut Text,
    d: &Diagram,
    step: (AtomId, OutcomeId),
    joint: u16,
) -> Result<(), Memory>
    requires step { IsNamedStep d.now step.0.0 step.1.0 }
    requires joint { joint < data_count d.now.sizes }
    ensures { OnOk result (text.new ≡ text.old ++ entry_line d.now (record { step = (step.0.0, step.1.0); joint = joint })) }
{
    text.extend_from_slice(b"did ")?;
    put_step(text, d, step.0, step.1)?;
    put_values(text, d, joint)?;
    text.extend_from_slice(b"\n")
}

/// Puts the values of the agents in joint data behind the text.
fn put_values(text: &mut Text, d: &Diagram, joint: u16) -> Result<(), Memory>
    requires { joint < data_count d.now.sizes }
    ensures { OnOk result (text.new ≡ text.old ++ number_words (split d.now.sizes joint)) }
{
    let values = d.sizes().split(joint);
    put_numbers(text, &values[..d.sizes().count() as usize])
}

/// Puts an atom and an outcome behind the text.
fn put_step(text: &mut Text, d: &Diagram, n: AtomId, o: OutcomeId) -> Result<(), Memory>
    requires { IsNamedStep d.now n.0 o.0 }
    ensures { OnOk result (text.new ≡ text.old ++ step_words d.now n.0 o.0) }
{
    text.extend_from_slice(d.atom_name(n))?;
    text.extend_from_slice(b" ")?;
    text.extend_from_slice(d.outcome_name(o))
}

/// Puts numbers behind the text, each behind a blank.
fn put_numbers(text: &mut Text, numbers: &[u16]) -> Result<(), Memory>
    ensures { OnOk result (text.new ≡ text.old ++ number_words numbers.now) }
{
    for n in numbers {
        text.extend_from_slice(b" ")?;
        text.push_decimal(u64::from(*n))?;
    }
    Ok(())
}

/// Puts the agents behind the text, each with its records.
fn put_agents(text: &mut Text, d: &Diagram, w: &World) -> Result<(), Memory>
    requires deterministic { IsDeterministic (negotiation_of d.now) }
    requires consistent { IsConsistent d.now w.now }
    ensures { OnOk result (text.new ≡ text.old ++ all_agents d.now w.now) }
{
    for a in 0..d.agents() {
        put_agent(text, d, AgentId(a), w.agent(AgentId(a)))?;
    }
    Ok(())
}

/// Puts an agent and its records behind the text.
fn put_agent(text: &mut Text, d: &Diagram, a: AgentId, agent: &Agent) -> Result<(), Memory>
    requires known { a.0 < length d.now.agents }
    requires valid { IsValid d.now agent.now.plain }
    requires records { All (IsNamedRecord d.now) agent.now.plain.records }
    ensures { OnOk result (text.new ≡ text.old ++ agent_lines d.now a.0 agent.now.plain) }
{
    text.extend_from_slice(b"agent ")?;
    text.extend_from_slice(d.agent_name(a))?;
    put_place(text, d, agent)?;
    text.extend_from_slice(b" ")?;
    text.push_decimal(u64::from(agent.value()))?;
    put_journal(text, d, agent)
}

/// Puts an agent's records behind the text.
fn put_journal(text: &mut Text, d: &Diagram, agent: &Agent) -> Result<(), Memory>
    requires { All (IsNamedRecord d.now) agent.now.plain.records }
    ensures { OnOk result (text.new ≡ text.old ++ journal_lines d.now (length agent.now.plain.records) agent.now.plain.records) }
{
    let records = agent.records();
    put_counted(text, d, records)
}

/// Puts the number of records and the records behind the text.
fn put_counted(text: &mut Text, d: &Diagram, records: &[Record]) -> Result<(), Memory>
    requires { All (IsNamedRecord d.now) (map entry records.now) }
    ensures { OnOk result (text.new ≡ text.old ++ journal_lines d.now (length records.now) (map entry records.now)) }
{
    text.extend_from_slice(b" records ")?;
    text.push_decimal(records.len() as u64)?;
    text.extend_from_slice(b"\n")?;
    put_records(text, d, records)
}

/// Puts where the agent is behind the text.
fn put_place(text: &mut Text, d: &Diagram, agent: &Agent) -> Result<(), Memory>
    requires { IsValid d.now agent.now.plain }
    ensures { OnOk result (text.new ≡ text.old ++ place_words d.now agent.now.plain.at) }
{
    match agent.at() {
        Some(n) => {
            text.extend_from_slice(b" at ")?;
            text.extend_from_slice(d.atom_name(n))
        }
        None => text.extend_from_slice(b" done"),
    }
}

/// Puts records behind the text.
fn put_records(text: &mut Text, d: &Diagram, records: &[Record]) -> Result<(), Memory>
    requires { All (IsNamedRecord d.now) (map entry records.now) }
    ensures { OnOk result (text.new ≡ text.old ++ flat_map (record_line d.now) (map entry records.now)) }
{
    for r in records {
        put_record(text, d, r)?;
    }
    Ok(())
}

/// Puts a record behind the text.
fn put_record(text: &mut Text, d: &Diagram, r: &Record) -> Result<(), Memory>
    requires { IsNamedRecord d.now (entry r.now) }
    ensures { OnOk result (text.new ≡ text.old ++ record_line d.now (entry r.now)) }
{
    match r {
        Record::Move {
            atom,
            outcome,
            after,
        } => {
            text.extend_from_slice(b"move ")?;
            put_step(text, d, *atom, *outcome)?;
            text.extend_from_slice(b" ")?;
            text.push_decimal(u64::from(*after))?;
        }
        Record::Decision {
            atom,
            outcome,
            parties,
            visits,
            afters,
        } => {
            text.extend_from_slice(b"decision ")?;
            put_step(text, d, *atom, *outcome)?;
            put_shares(text, d, *parties, visits, afters)?;
        }
    }
    text.extend_from_slice(b"\n")
}

/// Puts the parties of a decision behind the text.
fn put_shares(
    text: &mut Text,
    d: &Diagram,
    parties: AgentSet,
    visits: &[u16; 16],
    afters: &[u16; 16],
) -> Result<(), Memory>
    requires { All (λ a. a < length d.now.agents) parties }
    ensures { OnOk result (text.new ≡ text.old ++ flat_map (share_words d.now) (map (share visits.now afters.now) parties)) }
{
    let mut left = parties;
    while let Some(a) = left.least() {
        put_share(text, d, a, visits[a.0 as usize], afters[a.0 as usize])?;
        left = left.without(a);
    }
    Ok(())
}

/// Puts a party of a decision behind the text, with its visit and its value after.
fn put_share(text: &mut Text, d: &Diagram, a: AgentId, visit: u16, after: u16) -> Result<(), Memory>
    requires { a.0 < length d.now.agents }
    ensures { OnOk result (text.new ≡ text.old ++ share_words d.now (record { agent = a.0; visit = visit; after = after })) }
{
    text.extend_from_slice(b" ")?;
    text.extend_from_slice(d.agent_name(a))?;
    text.extend_from_slice(b":")?;
    text.push_decimal(u64::from(visit))?;
    text.extend_from_slice(b":")?;
    text.push_decimal(u64::from(after))
}
