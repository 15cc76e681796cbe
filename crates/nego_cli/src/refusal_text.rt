//! The line that says why an input is refused, which is built before it is written.

ghost use Rattle.std.specs.Prelude.{◌≡◌, IfOk, OnOk};
ghost use Rattle.nego_base.specs.Appending.{Appends};
ghost use Rattle.nego_world.specs.Events.{RefusalNamesAgent};
ghost use Rattle.nego_world.specs.Stepping.{plain_why};
ghost use Rattle.nego_cli.specs.Refusals.{IsAgentNamed, IsNamed, event_refusal_words, fault_words, kind_name, part_name, place_words, refusal_words, refusal_line, start_fault_words};

use crate::failure::{PartName, Refusal, StartFault};
use crate::names::add_choice;
use crate::shape_text::add_kind;
use nego_base::{Fault, FaultKind, Memory, Text};
use nego_model::Diagram;
use nego_world::StepWhy;
use std::alloc::Global;

/// The line of the refusal.
pub(crate) fn refusal_line(alloc: Global, why: &Refusal) -> Result<Text, Memory>
    requires { IsNamed why.now }
    ensures { IfOk result (λ line. line ≡ refusal_line why.now) }
{
    let mut text = Text::copy(alloc, b"refused ")?;
    add_refusal(alloc, &mut text, why)?;
    text.extend_from_slice(b"\n")?;
    Ok(text)
}

/// Adds what is refused, and why.
fn add_refusal(alloc: Global, text: &mut Text, why: &Refusal) -> Result<(), Memory>
    requires { IsNamed why.now }
    ensures { OnOk result (Appends text.old text.new (refusal_words why.now)) }
{
    match why {
        Refusal::TooLong(part) => {
            text.extend_from_slice(part_name(*part))?;
            text.extend_from_slice(b" TooLong")
        }
        Refusal::NoEnd(part, line) => {
            add_place(text, *part, *line)?;
            text.extend_from_slice(b"NoEnd")
        }
        Refusal::Off(part, fault) => add_fault(text, *part, *fault),
        Refusal::Misshapen(p, fault) => {
            add_place(text, PartName::Diagram, fault.line)?;
            add_kind(alloc, text, p, &fault.kind)
        }
        Refusal::Undetermined(d, o, a) => {
            text.extend_from_slice(b"NotDeterministic ")?;
            add_choice(text, d, *o, *a)
        }
        Refusal::NoStart(d, fault) => add_start_fault(text, d, *fault),
        Refusal::NoStep(d, line, why) => {
            add_place(text, PartName::Schedule, *line)?;
            add_event_refusal(text, d, *why)
        }
    }
}

/// Adds why an event is refused.
fn add_event_refusal(text: &mut Text, d: &Diagram, why: StepWhy) -> Result<(), Memory>
    requires { RefusalNamesAgent d.now (plain_why why) }
    ensures { OnOk result (Appends text.old text.new (event_refusal_words d.now (plain_why why))) }
{
    match why {
        StepWhy::NoMessage(i) => {
            text.extend_from_slice(b"NoMessage ")?;
            text.push_decimal(u64::from(i))
        }
        StepWhy::Finished => text.extend_from_slice(b"Finished"),
        StepWhy::NotLeader => text.extend_from_slice(b"NotLeader"),
        StepWhy::Waits(p) => {
            text.extend_from_slice(b"Waits ")?;
            text.extend_from_slice(d.agent_name(p))
        }
    }
}

/// Adds why start values are no start of the diagram's agents.
fn add_start_fault(text: &mut Text, d: &Diagram, fault: StartFault) -> Result<(), Memory>
    requires { IsAgentNamed d.now fault }
    ensures { OnOk result (Appends text.old text.new (start_fault_words d.now fault)) }
{
    match fault {
        StartFault::StartCount(given) => {
            text.extend_from_slice(b"StartCount ")?;
            text.push_decimal(given as u64)?;
        }
        StartFault::StartTooLarge(a) => {
            text.extend_from_slice(b"StartTooLarge ")?;
            text.extend_from_slice(d.agent_name(a))?;
        }
    }
    Ok(())
}

/// Adds the name of a part and the number of a line.
fn add_place(text: &mut Text, part: PartName, line: u32) -> Result<(), Memory>
    ensures { OnOk result (Appends text.old text.new (place_words part line)) }
{
    text.extend_from_slice(part_name(part))?;
    text.extend_from_slice(b" line ")?;
    text.push_decimal(u64::from(line))?;
    text.extend_from_slice(b" ")
}

/// Adds the place and the kind of a fault of grammar.
fn add_fault(text: &mut Text, part: PartName, fault: Fault) -> Result<(), Memory>
    ensures { OnOk result (Appends text.old text.new (fault_words part fault)) }
{
    add_place(text, part, fault.line)?;
    text.extend_from_slice(b"column ")?;
    text.push_decimal(u64::from(fault.column))?;
    text.extend_from_slice(b" ")?;
    text.extend_from_slice(kind_name(fault.kind))
}

/// The name of the part.
fn part_name(part: PartName) -> &'static [u8]
    ensures { result.now ≡ part_name part }
{
    match part {
        PartName::Diagram => b"diagram",
        PartName::Certificate => b"certificate",
        PartName::Schedule => b"schedule",
    }
}

/// The name of the kind.
fn kind_name(kind: FaultKind) -> &'static [u8]
    ensures { result.now ≡ kind_name kind }
{
    match kind {
        FaultKind::Line => b"Line",
        FaultKind::Byte => b"Byte",
        FaultKind::Version => b"Version",
        FaultKind::Word => b"Word",
        FaultKind::Count => b"Count",
        FaultKind::Name => b"Name",
        FaultKind::Number => b"Number",
        FaultKind::Case => b"Case",
        FaultKind::Agent => b"Agent",
        FaultKind::Many => b"Many",
    }
}
