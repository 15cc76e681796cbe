//! `run`: what a schedule leaves of the agents of a diagram.

ghost use Rattle.std.specs.Prelude.{◌≡◌, ◌<◌, ◌≤◌, [], length, Ok, IfOk, IfErr, OnOk};
ghost use Rattle.nego_data.specs.Data.{data_count};
ghost use Rattle.nego_model.specs.Negotiation.{IsDeterministic};
ghost use Rattle.nego_model.specs.Diagram.{negotiation_of};
ghost use Rattle.nego_world.specs.Events.{NamesAgents, plain_lines};
ghost use Rattle.world_text.specs.ScheduleText.{most_events};
ghost use Rattle.nego_cli.specs.Effect.{effect};
ghost use Rattle.nego_cli.specs.Dispatch.{HasNoText, IsAnswerBy, IsRefusedFor};
ghost use Rattle.nego_cli.specs.Starts.{StartsAt, CannotStart};
ghost use Rattle.nego_cli.specs.Turn.{TellsText};
ghost use Rattle.nego_cli.specs.Run.{RunTurn, RunText, ScheduleTurn, IsRunText};

use crate::Status;
use crate::answer::Answer;
use crate::determined::deterministic;
use crate::failure::{Failure, Refusal};
use crate::schedule::load_schedule;
use crate::starts::start_of;
use nego_io::Source;
use nego_model::Diagram;
use nego_world::{PlayFault, Schedule, play};
use std::alloc::Global;
use world_text::report;

/// Reads the schedule behind the diagram, lets its events happen from the start of these values on, one for each agent,
/// and tells the report of the world that they leave.
pub(crate) fn run<S: Source>(
    alloc: Global,
    d: Diagram,
    values: &[u32],
    source: &mut S,
) -> Result<Answer, Failure>
    ensures found { IsAnswerBy (RunTurn values.now d) (RunText values.now d) 1 (effect S.left S.faults source.old source.new) result }
    ensures later { S.faults source.old ≤ S.faults source.new }
{
    let (d, start) = started(d, values)?;
    let schedule = load_schedule(alloc, &d, source)?;
    played(alloc, d, start, &schedule)
}

/// The diagram, where it is deterministic, and the start of its agents, where these values are one.
fn started(d: Diagram, values: &[u32]) -> Result<(Diagram, u16), Failure>
    ensures same { IfOk result (λ pair. pair.0 ≡ d) }
    ensures deterministic { OnOk result (IsDeterministic (negotiation_of d)) }
    ensures starts { IfOk result (λ pair. StartsAt d values.now (Ok pair.1)) }
    ensures in_range { IfOk result (λ pair. pair.1 < data_count d.sizes) }
    ensures err { IfErr result (IsRefusedFor (CannotStart d values.now)) }
{
    let d = deterministic(d)?;
    match start_of(&d, values) {
        Ok(start) => Ok((d, start)),
        Err(fault) => Err(Failure::Refused(Refusal::NoStart(d, fault))),
    }
}

/// The report of the world that the schedule leaves from the start on, or the first event that is refused.
fn played(alloc: Global, d: Diagram, start: u16, schedule: &Schedule) -> Result<Answer, Failure>
    requires deterministic { IsDeterministic (negotiation_of d) }
    requires start { start < data_count d.sizes }
    requires named { NamesAgents d (plain_lines schedule.now) }
    requires few { length (plain_lines schedule.now) ≤ most_events }
    ensures turn { IfOk result (λ _. ScheduleTurn d start (plain_lines schedule.now) [] TellsText) }
    ensures ok { IfOk result (λ answer. IsRunText d start (plain_lines schedule.now) answer.status answer.text) }
    ensures err { IfErr result (HasNoText (ScheduleTurn d start (plain_lines schedule.now)) []) }
{
    let world = match play(alloc, &d, start, schedule) {
        Ok(world) => world,
        Err(PlayFault::At(line, why)) => {
            return Err(Failure::Refused(Refusal::NoStep(d, line, why)));
        }
        Err(PlayFault::Memory) => return Err(Failure::Memory),
    };
    let text = report(alloc, &d, &world, schedule.events.len() as u64)?;
    Ok(Answer {
        status: Status::Done,
        text,
    })
}
