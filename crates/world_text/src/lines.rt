//! What one line of a schedule says.

ghost use Rattle.std.specs.Prelude.{◌≡◌, ◌<◌, ◌-◌};
ghost use Rattle.std.specs.Option.{option_map};
ghost use Rattle.nego_base.specs.LineAnswers.{Tells, FitsLine};
ghost use Rattle.std.specs.Prelude.{find};
ghost use Rattle.std.specs.Str.{bytes_eq};
ghost use Rattle.world_text.specs.ScheduleReading.{agent_named, agent_of, agent_at, number_at, event_begins, agent_in, number_in, decision_in, header_in, plain_kind, row_of, row_in, said_in};
ghost use Rattle.world_text.specs.ScheduleTable.{Begin, Behind, keyword, kinds_behind};
ghost use Rattle.world_text.specs.ScheduleText.{HeaderRow};

use agent_core::Choice;
use nego_base::{AgentId, Fault, FaultKind, Line, Word};
use nego_model::Diagram;
use nego_world::Event;

/// The most events of a schedule.
const MAX_EVENTS: usize = 10_000;

/// The agent of this name.
fn agent_named(d: &Diagram, name: &[u8]) -> Option<AgentId>
    ensures { option_map (λ a. a.0) result ≡ agent_named d.now name.now }
{
    for a in 0..d.agents() {
        if d.agent_name(AgentId(a)) == name {
            return Some(AgentId(a));
        }
    }
    None
}

/// The agent that the word names.
#[tactic(auto, unfolding(crate::specs::ScheduleReading::agent_of))]
fn agent_of(d: &Diagram, word: &Word) -> Result<AgentId, Fault>
    ensures { Tells (λ a. a.0) result (agent_of d.now word.now) }
{
    word.name()?;
    agent_named(d, word.text.as_slice()).ok_or(word.fault(FaultKind::Agent))
}

/// The agent that the word at a place of the line names.
#[tactic(auto, unfolding(crate::specs::ScheduleReading::agent_at))]
fn agent_at(d: &Diagram, i: usize, line: &Line) -> Result<AgentId, Fault>
    requires { FitsLine line.now }
    ensures { Tells (λ a. a.0) result (agent_at d.now i line.now) }
{
    agent_of(d, line.word(i)?)
}

/// The number at a place of the line.
#[tactic(auto, unfolding(crate::specs::ScheduleReading::number_at))]
fn number_at(i: usize, line: &Line) -> Result<u32, Fault>
    requires { FitsLine line.now }
    ensures { Tells (λ n. n) result (number_at i line.now) }
{
    line.word(i)?.number()
}

/// That the line of an event behind n others has so many words, and that there is room for the event.
#[tactic(auto, unfolding(crate::specs::ScheduleReading::event_begins))]
fn event_begins(count: usize, n: usize, line: &Line) -> Result<(), Fault>
    requires { FitsLine line.now }
    ensures { Tells (λ _. tt) result (event_begins count n line.now) }
{
    line.exactly(count)?;
    let first = line.word(0)?;
    if n < MAX_EVENTS {
        Ok(())
    } else {
        Err(first.fault(FaultKind::Many))
    }
}

/// The agent in the line of an event behind n others.
#[tactic(auto, unfolding(crate::specs::ScheduleReading::agent_in))]
fn agent_in(d: &Diagram, n: usize, line: &Line) -> Result<AgentId, Fault>
    requires { FitsLine line.now }
    ensures { Tells (λ a. a.0) result (agent_in d.now n line.now) }
{
    event_begins(2, n, line)?;
    agent_at(d, 1, line)
}

/// The number in the line of an event behind n others.
#[tactic(auto, unfolding(crate::specs::ScheduleReading::number_in))]
fn number_in(n: usize, line: &Line) -> Result<u32, Fault>
    requires { FitsLine line.now }
    ensures { Tells (λ i. i) result (number_in n line.now) }
{
    event_begins(2, n, line)?;
    number_at(1, line)
}

/// The agent and the choice in the line of an event behind n others.
#[tactic(auto, unfolding(crate::specs::ScheduleReading::decision_in))]
fn decision_in(d: &Diagram, n: usize, line: &Line) -> Result<(AgentId, Choice), Fault>
    requires { FitsLine line.now }
    ensures { Tells (λ x. (x.0.0, x.1)) result (decision_in d.now n line.now) }
{
    event_begins(4, n, line)?;
    let a = agent_at(d, 1, line)?;
    let outcome = number_at(2, line)?;
    let pick = number_at(3, line)?;
    Ok((a, Choice { outcome, pick }))
}

/// That the first line, which begins with the right word, is of version 1.
#[tactic(auto, unfolding(crate::specs::ScheduleReading::header_in))]
fn header_in(line: &Line) -> Result<(), Fault>
    requires { FitsLine line.now }
    ensures { Tells (λ _. tt) result (header_in line.now) }
{
    line.exactly(2)?;
    let version = line.word(1)?;
    if version.is(b"1") {
        Ok(())
    } else {
        Err(version.fault(FaultKind::Version))
    }
}

/// That the line is the header.
#[tactic(auto, unfolding(crate::specs::ScheduleReading::row_in, crate::specs::ScheduleReading::row_of, nego_base::specs::Grammar::text_word, nego_base::specs::LineWalk::kind_of_line))]
pub(crate) fn header(d: &Diagram, line: &Line) -> Result<(), Fault>
    requires { FitsLine line.now }
    ensures { Tells (λ _. HeaderRow) result (row_in d.now Begin line.now) }
{
    line.word(0)?.expect(b"schedule")?;
    header_in(line)
}

/// The kinds of lines behind the header.
#[derive(Clone, Copy)]
enum LineKind {
    End,
    Tell,
    Stop,
    Give,
    GiveLost,
    GiveKept,
    Decide,
    DecideLost,
    DecideKept,
}

/// The kind of the lines behind the header that begin with this word.
fn kind_of(first: &Word) -> Option<LineKind>
    ensures { option_map plain_kind result ≡ find (λ kind. bytes_eq first.now.text (keyword kind)) kinds_behind }
{
    if first.is(b"end") {
        Some(LineKind::End)
    } else if first.is(b"tell") {
        Some(LineKind::Tell)
    } else if first.is(b"stop") {
        Some(LineKind::Stop)
    } else if first.is(b"give") {
        Some(LineKind::Give)
    } else if first.is(b"give_lost") {
        Some(LineKind::GiveLost)
    } else if first.is(b"give_kept") {
        Some(LineKind::GiveKept)
    } else if first.is(b"decide") {
        Some(LineKind::Decide)
    } else if first.is(b"decide_lost") {
        Some(LineKind::DecideLost)
    } else if first.is(b"decide_kept") {
        Some(LineKind::DecideKept)
    } else {
        None
    }
}

/// The event in a line of this kind behind n others; none where the line is the end.
#[tactic(auto, unfolding(crate::specs::ScheduleReading::row_of))]
fn event_of(d: &Diagram, n: usize, kind: LineKind, line: &Line) -> Result<Option<Event>, Fault>
    requires { FitsLine line.now }
    ensures { Tells (said_in line.now) result (row_of d.now (Behind n) (plain_kind kind) line.now) }
{
    let event = match kind {
        LineKind::End => {
            line.exactly(1)?;
            return Ok(None);
        }
        LineKind::Tell => Event::Tell(agent_in(d, n, line)?),
        LineKind::Stop => Event::Stop(agent_in(d, n, line)?),
        LineKind::Give => Event::Give(number_in(n, line)?),
        LineKind::GiveLost => Event::GiveLost(number_in(n, line)?),
        LineKind::GiveKept => Event::GiveKept(number_in(n, line)?),
        LineKind::Decide => decision_in(d, n, line).map(|(a, choice)| Event::Decide(a, choice))?,
        LineKind::DecideLost => {
            decision_in(d, n, line).map(|(a, choice)| Event::DecideLost(a, choice))?
        }
        LineKind::DecideKept => {
            decision_in(d, n, line).map(|(a, choice)| Event::DecideKept(a, choice))?
        }
    };
    Ok(Some(event))
}

/// The event in a line behind n others; none where the line is the end.
#[tactic(auto, unfolding(crate::specs::ScheduleReading::row_in, nego_base::specs::LineWalk::kind_of_line))]
pub(crate) fn event(d: &Diagram, n: usize, line: &Line) -> Result<Option<Event>, Fault>
    requires { FitsLine line.now }
    ensures { Tells (said_in line.now) result (row_in d.now (Behind n) line.now) }
{
    let first = line.word(0)?;
    let kind = kind_of(first).ok_or(first.fault(FaultKind::Word))?;
    event_of(d, n, kind, line)
}
