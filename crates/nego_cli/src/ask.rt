//! `ask`: the answers of a diagram to a start.

ghost use Rattle.std.specs.Prelude.{◌≡◌, ◌<◌, [], length, map, slice_index, IfOk, IfErr, OnOk, All};
ghost use Rattle.nego_base.specs.Appending.{Appends};
ghost use Rattle.nego_data.specs.Data.{data_count};
ghost use Rattle.nego_model.specs.Summary.{final_outcomes};
ghost use Rattle.nego_reduce.specs.Reducing.{uses_of};
ghost use Rattle.nego_cli.specs.Ask.{AskTurn, AskText, IsAnswerTo, IsAnswerIn, answer_line, answer_lines, numbered};
ghost use Rattle.nego_cli.specs.Dispatch.{HasNoText};
ghost use Rattle.nego_cli.specs.JointTexts.{AreJointTexts};
ghost use Rattle.nego_cli.specs.Reduction.{IsJudged};
ghost use Rattle.nego_cli.specs.Turn.{TellsText};
ghost use Rattle.nego_cli.specs.Verdict.{verdict_line};

use crate::answer::Answer;
use crate::failure::{Failure, Refusal};
use crate::joint_texts::JointTexts;
use crate::reduction::{fresh_work, reduction};
use crate::starts::start_of;
use crate::verdict::Verdict;
use nego_base::{Memory, OutcomeId, Steps, Text};
use nego_model::Diagram;
use nego_reduce::Reduced;
use std::alloc::Global;
use std::sync::ledger::Ledger;

/// Tells how the diagram's complete runs end that begin with the start of these values, one for each agent.
pub(crate) fn ask<C: Ledger>(
    alloc: Global,
    d: Diagram,
    values: &[u32],
    steps: &mut Steps<C>,
) -> Result<Answer, Failure>
    ensures turn { IfOk result (λ _. AskTurn values.now d [] TellsText) }
    ensures ok { IfOk result (λ answer. AskText values.now d [] answer.status answer.text) }
    ensures err { IfErr result (HasNoText (AskTurn values.now d) []) }
{
    let (diagram, work) = fresh_work(alloc, d)?;
    let start = match start_of(&diagram, values) {
        Ok(start) => start,
        Err(fault) => return Err(Failure::Refused(Refusal::NoStart(diagram, fault))),
    };
    let (reduced, verdict) = reduction(alloc, &diagram, work, steps)?;
    let text = print_answer(alloc, &diagram, &reduced, verdict, start)?;
    Ok(Answer {
        status: verdict.status(),
        text,
    })
}

/// The text of the answers to the start, or the line of the verdict where the diagram isn't reduced to one atom.
fn print_answer(
    alloc: Global,
    d: &Diagram,
    reduced: &Reduced,
    verdict: Verdict,
    start: u16,
) -> Result<Text, Memory>
    requires judged { IsJudged d.now reduced.now verdict }
    requires start { start < data_count d.now.sizes }
    ensures { IfOk result (IsAnswerTo d.now start (length (uses_of reduced.now)) verdict) }
{
    match reduced {
        Reduced::One(summary, _) => {
            let answers = nego_eval::ask(alloc, d, summary, start)?;
            print_answers(alloc, d, answers.as_slice())
        }
        Reduced::Stuck(_, uses) => print_verdict(alloc, verdict, uses.len()),
        Reduced::NodeLimit(_, uses) => print_verdict(alloc, verdict, uses.len()),
    }
}

/// The line of the verdict alone.
fn print_verdict(alloc: Global, verdict: Verdict, uses: usize) -> Result<Text, Memory>
    ensures { IfOk result (λ text. text ≡ verdict_line verdict uses []) }
{
    let mut text = Text::new(alloc);
    verdict.add_line(&mut text, uses)?;
    Ok(text)
}

/// The text of answers, each the place of a final outcome and joint data.
fn print_answers(alloc: Global, d: &Diagram, answers: &[(u32, u16)]) -> Result<Text, Memory>
    requires { All (IsAnswerIn d.now) answers.now }
    ensures { IfOk result (λ text. text ≡ answer_lines d.now (map (numbered d.now) answers.now)) }
{
    let mut text = Text::new(alloc);
    let mut joints = JointTexts::new(alloc, d.sizes())?;
    for answer in answers {
        add_answer(alloc, &mut text, d, &mut joints, *answer)?;
    }
    Ok(text)
}

/// Adds the line of an answer.
fn add_answer(
    alloc: Global,
    text: &mut Text,
    d: &Diagram,
    joints: &mut JointTexts,
    answer: (u32, u16),
) -> Result<(), Memory>
    requires answer { IsAnswerIn d.now answer }
    requires sizes { joints.old.sizes.now ≡ d.now.sizes }
    requires texts { AreJointTexts d.now.sizes joints.old.texts }
    ensures sizes { joints.new.sizes ≡ joints.old.sizes }
    ensures texts { OnOk result (AreJointTexts d.now.sizes joints.new.texts) }
    ensures line { OnOk result (Appends text.old text.new (answer_line d.now (numbered d.now answer))) }
{
    text.extend_from_slice(d.outcome_name(final_outcome(d, answer.0)))?;
    joints.add(alloc, text, answer.1)?;
    text.extend_from_slice(b"\n")
}

/// The final outcome at a place.
fn final_outcome(d: &Diagram, place: u32) -> OutcomeId
    requires { place < length (final_outcomes d.now) }
    ensures value { result.0 ≡ slice_index (final_outcomes d.now) place }
    ensures in_range { result.0 < length d.now.outcomes }
{
    let (first, _) = d.outcomes_of(d.last());
    OutcomeId(first + place)
}
