//! Reads the schedule that stands behind a diagram.

ghost use Rattle.std.specs.Prelude.{◌<◌, ◌≤◌, ◌-◌, ◌^◌, length, IfOk, IfErr};
ghost use Rattle.nego_world.specs.Events.{NamesAgents, plain_lines};
ghost use Rattle.world_text.specs.ScheduleTable.{SpellsSchedule};
ghost use Rattle.world_text.specs.ScheduleText.{most_events};
ghost use Rattle.nego_cli.specs.Effect.{effect};
ghost use Rattle.nego_cli.specs.Loading.{HasNoSchedule, HasNoValue, HasValue, IsNoSchedule, IsUnspelled};

use crate::failure::{Failure, PartName, Refusal};
use crate::load::load_part;
use nego_base::ReadFaults;
use nego_io::Source;
use nego_model::Diagram;
use nego_world::Schedule;
use std::alloc::Global;
use world_text::read_schedule;

/// The schedule that the text spells for the diagram.
fn spelled_schedule(alloc: Global, d: &Diagram, text: &[u8]) -> Result<Schedule, Failure>
    requires { length text.now < 2 ^ 32 - 1 }
    ensures ok { IfOk result (λ s. SpellsSchedule d.now text.now (plain_lines s)) }
    ensures named { IfOk result (λ s. NamesAgents d.now (plain_lines s)) }
    ensures few { IfOk result (λ s. length (plain_lines s) ≤ most_events) }
    ensures err { IfErr result (IsUnspelled (HasNoSchedule d.now) text.now) }
{
    match read_schedule(alloc, d, text) {
        Ok(schedule) => Ok(schedule),
        Err(ReadFaults::Off(fault)) => {
            Err(Failure::Refused(Refusal::Off(PartName::Schedule, fault)))
        }
        Err(ReadFaults::Memory) => Err(Failure::Memory),
    }
}

/// Reads the schedule for the diagram that the rest of the input begins with.
pub(crate) fn load_schedule<S: Source>(
    alloc: Global,
    d: &Diagram,
    source: &mut S,
) -> Result<Schedule, Failure>
    ensures ok { IfOk result (λ s. HasValue (SpellsSchedule d.now) (effect S.left S.faults source.old source.new) (plain_lines s)) }
    ensures named { IfOk result (λ s. NamesAgents d.now (plain_lines s)) }
    ensures few { IfOk result (λ s. length (plain_lines s) ≤ most_events) }
    ensures err { IfErr result (HasNoValue (IsNoSchedule d.now) (effect S.left S.faults source.old source.new)) }
    ensures later { S.faults source.old ≤ S.faults source.new }
{
    let part = load_part(alloc, PartName::Schedule, source)?;
    spelled_schedule(alloc, d, &part.bytes)
}
