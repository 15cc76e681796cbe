//! From the text of a schedule to its events.

ghost use Rattle.std.specs.Prelude.{◌-◌, ◌<◌, ◌≤◌, ◌^◌, ◌∷◌, ◌++◌, [], All, IfOk, IfErr, drop, length, map};
ghost use Rattle.nego_base.specs.LineAnswers.{Gives, Tells, FitsLine};
ghost use Rattle.nego_base.specs.declared.fault.Fault.{Fault};
ghost use Rattle.nego_base.specs.LineGrammar.{missing_end};
ghost use Rattle.nego_model.specs.Limits.{HasNames};
ghost use Rattle.nego_world.specs.Events.{plain_lines, NamesAgents};
ghost use Rattle.world_text.specs.ScheduleReading.{walk, plain_items};
ghost use Rattle.world_text.specs.ScheduleTable.{Begin, Behind, Over, SpellsSchedule, ScheduleHasCause, SpellsNothing};
ghost use Rattle.world_text.specs.ScheduleText.{most_events, EventRow, EndRow, rows_of};

use crate::lines::{event, header};
use nego_base::{AgentId, Fault, FaultKind, Line, ReadFaults, Seq, missing_end, scan};
use nego_model::Diagram;
use nego_world::{EventLine, Schedule};
use std::alloc::Global;

/// The schedule that the text spells, with the diagram's agents by their names, or the text's first fault.
pub fn read_schedule(alloc: Global, d: &Diagram, bytes: &[u8]) -> Result<Schedule, ReadFaults>
    // Each line, and the one behind the last, has a number of 32 bits.
    requires { length bytes.now < 2 ^ 32 - 1 }
    ensures spelled { IfOk result (λ s. SpellsSchedule d.now bytes.now (plain_lines s)) }
    ensures named { IfOk result (λ s. NamesAgents d.now (plain_lines s)) }
    ensures few { IfOk result (λ s. length (plain_lines s) ≤ most_events) }
    ensures fault { IfErr result (λ e. ScheduleHasCause d.now e bytes.now) }
    ensures unspelled { IfErr result (λ e. SpellsNothing d.now e bytes.now) }
{
    let text = scan(alloc, bytes)?;
    names_differ(d);
    schedule(alloc, d, text.lines.as_slice(), text.count)
}

/// The names of the agents differ.
fn names_differ(d: &Diagram)
    ensures { HasNames d.now }
{
    if d.agents() > 0 {
        let _name = d.agent_name(AgentId(0));
    }
}

/// The schedule that the lines say, where the text has so many lines.
fn schedule(alloc: Global, d: &Diagram, lines: &[Line], count: u32) -> Result<Schedule, ReadFaults>
    requires lines { All FitsLine lines.now }
    requires count { count < 2 ^ 32 - 1 }
    ensures { Gives (λ s. rows_of (plain_lines s)) result (walk d.now (missing_end count) Begin lines.now) }
{
    match lines.get(0) {
        Some(first) => {
            header(d, first)?;
            let events = events(alloc, d, &lines[1..], count)?;
            Ok(Schedule { events })
        }
        None => Err(ReadFaults::Off(missing_end(count))),
    }
}

/// The events of the lines behind the header, of which the last is the end.
fn events(
    alloc: Global,
    d: &Diagram,
    lines: &[Line],
    count: u32,
) -> Result<Seq<EventLine>, ReadFaults>
    requires lines { All FitsLine lines.now }
    requires count { count < 2 ^ 32 - 1 }
    ensures { Gives (λ events. map EventRow (plain_items events) ++ EndRow ∷ []) result (walk d.now (missing_end count) (Behind 0) lines.now) }
{
    let mut events = Seq::new(alloc);
    for line in lines {
        let Some(event) = event(d, events.len(), line)? else {
            nothing_behind(d, lines, events.len() + 1)?;
            return Ok(events);
        };
        events.push(EventLine {
            line: line.number,
            event,
        })?;
    }
    Err(ReadFaults::Off(missing_end(count)))
}

/// That no line is behind the end, from this place on.
fn nothing_behind(d: &Diagram, lines: &[Line], i: usize) -> Result<(), Fault>
    requires { All FitsLine lines.now }
    ensures { (missing : Fault) → Tells (λ _. []) result (walk d.now missing Over (drop i lines.now)) }
{
    match lines.get(i) {
        Some(line) => Err(line.word(0)?.fault(FaultKind::Word)),
        None => Ok(()),
    }
}
