//! The diagram of a text's value, or its first fault of shape.

ghost use Rattle.std.specs.Prelude.{◌≡◌, IfOk, IfErr};
ghost use Rattle.nego_model.specs.Diagram.{IsDiagram};
ghost use Rattle.nego_reader.specs.Content.{content_of};
ghost use Rattle.nego_shape.specs.Answer.{HasCause, LacksShape, HasJoint};
ghost use Rattle.nego_shape.specs.Naming.{diagram_in};
ghost use Rattle.nego_shape.specs.Conditions.{HasShape};
ghost use Rattle.nego_shape.specs.Shaped.{HasNameWords};

use crate::checks::counts::count_fault;
use crate::fault::ShapeAnswer;
use crate::finding::{inner_fault, twice};
use crate::making::diagram;
use crate::numbering::Numbered;
use crate::numbers::atoms_numbers;
use nego_model::Diagram;
use nego_reader::Parsed;
use std::alloc::Global;

/// The diagram that the text's value is, or its first fault of shape. Its words are names, as those of a text that was
/// read.
pub fn shape(alloc: Global, p: &Parsed) -> Result<Diagram, ShapeAnswer>
    requires { HasNameWords (content_of p.now) }
    ensures shaped { IfOk result (λ _. HasShape (content_of p.now)) }
    ensures content { IfOk result (λ d. d ≡ diagram_in (content_of p.now)) }
    ensures diagram { IfOk result IsDiagram }
    ensures err { IfErr result (λ e. HasCause e p.now) }
    ensures misshapen { IfErr result (λ e. LacksShape e p.now) }
    ensures joint { IfErr result (λ e. HasJoint e p.now) }
{
    shaped(alloc, p)
}

/// The same, stage by stage.
fn shaped(alloc: Global, p: &Parsed) -> Result<Diagram, ShapeAnswer>
    requires { HasNameWords (content_of p.now) }
    ensures shaped { IfOk result (λ _. HasShape (content_of p.now)) }
    ensures content { IfOk result (λ d. d ≡ diagram_in (content_of p.now)) }
    ensures diagram { IfOk result IsDiagram }
    ensures err { IfErr result (λ e. HasCause e p.now) }
{
    if let Some(fault) = count_fault(p) {
        return Err(ShapeAnswer::Off(fault));
    }
    if let Some(fault) = twice(alloc, p)? {
        return Err(ShapeAnswer::Off(fault));
    }
    let numbered = Numbered::new(alloc, p)?;
    let numbers = atoms_numbers(alloc, &numbered)?;
    if let Some(fault) = inner_fault(alloc, &numbered, numbers.as_slice())? {
        return Err(ShapeAnswer::Off(fault));
    }
    diagram(alloc, &numbered, numbers.as_slice())
}
