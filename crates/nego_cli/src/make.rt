//! `make`: a diagram to try things on.

ghost use Rattle.std.specs.Prelude.{◌≡◌, ◌≤◌, [], length, IfOk, IfErr, OnOk};
ghost use Rattle.nego_base.specs.Appending.{Appends};
ghost use Rattle.nego_model.specs.Diagram.{IsDiagram};
ghost use Rattle.nego_reader.specs.Content.{content_of};
ghost use Rattle.nego_shape.specs.Conditions.{HasShape};
ghost use Rattle.nego_shape.specs.Naming.{diagram_in};
ghost use Rattle.nego_shape.specs.Shaped.{HasNameWords};
ghost use Rattle.nego_reduce.specs.Reducing.{uses_of};
ghost use Rattle.nego_cli.specs.Dispatch.{HasNoText};
ghost use Rattle.nego_cli.specs.Make.{MakeTurn, MakeText, made_line, size_words, use_words};
ghost use Rattle.nego_cli.specs.Reduction.{nodes_of};
ghost use Rattle.nego_cli.specs.Turn.{TellsText};

use crate::Status;
use crate::answer::Answer;
use crate::failure::Failure;
use crate::reduction::{fresh_work, reduction};
use nego_base::{Memory, Steps, Text};
use nego_make::make_diagram;
use nego_model::Diagram;
use nego_reader::{Parsed, print_diagram};
use nego_reduce::Reduced;
use nego_shape::{ShapeAnswer, shape};
use std::alloc::Global;
use std::sync::ledger::Ledger;

/// Tells the diagram of n atoms, n from 2 to 64, and what its reduction comes to.
pub(crate) fn make<C: Ledger>(
    alloc: Global,
    n: u32,
    steps: &mut Steps<C>,
) -> Result<Answer, Failure>
    requires some { 2 ≤ n }
    requires few { n ≤ 64 }
    ensures turn { IfOk result (λ _. MakeTurn [] TellsText) }
    ensures ok { IfOk result (λ answer. MakeText n [] answer.status answer.text) }
    ensures err { IfErr result (HasNoText MakeTurn []) }
{
    let made = make_diagram(alloc, n)?;
    let (diagram, work) = fresh_work(alloc, shaped(alloc, &made)?)?;
    let (reduced, _) = reduction(alloc, &diagram, work, steps)?;
    let mut text = print_diagram(alloc, &made)?;
    add_line(&mut text, &diagram, &reduced)?;
    Ok(Answer {
        status: Status::Done,
        text,
    })
}

/// The diagram of a value that has the shape of one.
fn shaped(alloc: Global, made: &Parsed) -> Result<Diagram, Memory>
    requires named { HasNameWords (content_of made.now) }
    requires shaped { HasShape (content_of made.now) }
    ensures content { IfOk result (λ d. d ≡ diagram_in (content_of made.now)) }
    ensures diagram { IfOk result IsDiagram }
{
    match shape(alloc, made) {
        Ok(diagram) => Ok(diagram),
        Err(ShapeAnswer::Memory) => Err(Memory),
        Err(ShapeAnswer::Off(_)) => unreachable!(),
    }
}

/// Adds the line behind the diagram.
fn add_line(text: &mut Text, d: &Diagram, reduced: &Reduced) -> Result<(), Memory>
    ensures { OnOk result (Appends text.old text.new (made_line d.now (length (uses_of reduced.now)) (length (nodes_of reduced.now)))) }
{
    let (uses, nodes) = counts(reduced);
    add_sizes(text, d.atoms(), d.outcomes())?;
    add_uses(text, uses, nodes)
}

/// Adds how many atoms and outcomes the diagram has.
fn add_sizes(text: &mut Text, atoms: u32, outcomes: u32) -> Result<(), Memory>
    ensures { OnOk result (Appends text.old text.new (size_words atoms outcomes)) }
{
    text.extend_from_slice(b"made atoms ")?;
    text.push_decimal(u64::from(atoms))?;
    text.extend_from_slice(b" outcomes ")?;
    text.push_decimal(u64::from(outcomes))
}

/// Adds how many uses are made of it, and how many nodes they leave, and ends the line.
fn add_uses(text: &mut Text, uses: usize, nodes: u32) -> Result<(), Memory>
    ensures { OnOk result (Appends text.old text.new (use_words uses nodes)) }
{
    text.extend_from_slice(b" uses ")?;
    text.push_decimal(uses as u64)?;
    text.extend_from_slice(b" nodes ")?;
    text.push_decimal(u64::from(nodes))?;
    text.extend_from_slice(b"\n")
}

/// How many uses were made, and how many nodes they leave.
fn counts(reduced: &Reduced) -> (usize, u32)
    ensures uses { result.0 ≡ length (uses_of reduced.now) }
    ensures nodes { result.1 ≡ length (nodes_of reduced.now) }
{
    match reduced {
        Reduced::One(summary, uses) => (uses.len(), summary.nodes.len()),
        Reduced::Stuck(left, uses) | Reduced::NodeLimit(left, uses) => {
            (uses.len(), left.nodes().len())
        }
    }
}
