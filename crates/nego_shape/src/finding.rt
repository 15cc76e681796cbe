//! The first fault of shape, stage by stage.

ghost use Rattle.std.specs.Prelude.{◌≡◌, map, IfOk};
ghost use Rattle.nego_base.specs.Firsts.{first_among};
ghost use Rattle.nego_reader.specs.Content.{content_of};
ghost use Rattle.nego_shape.specs.Rules.{condition_by};
ghost use Rattle.nego_shape.specs.Faults.{inner, faults, first_of, first_fault};
ghost use Rattle.nego_shape.specs.Conditions.{NamedOnce};
ghost use Rattle.nego_shape.specs.Made.{HasNumbers, atom_numbers};
ghost use Rattle.nego_shape.specs.Conditions.{Holds, SomeAgent, FewOutcomes};

use crate::checks::outcomes::{Rule, broken};
use crate::checks::parties::party_fault;
use crate::checks::sizes::size_fault;
use crate::checks::twice::twice_in;
use crate::fault::{ShapeFault, ShapeKind};
use crate::numbering::Numbered;
use crate::numbers::AtomNumbers;
use nego_base::{Memory, Text};
use nego_reader::Parsed;
use std::alloc::Global;

/// The first name that stands twice.
pub(crate) fn twice(alloc: Global, p: &Parsed) -> Result<Option<ShapeFault>, Memory>
    ensures { IfOk result (λ fault. fault ≡ first_of (faults NamedOnce p.now)) }
{
    let Some(word) = twice_in(p) else {
        return Ok(None);
    };
    let text = Text::copy(alloc, word.text.as_slice())?;
    Ok(Some(ShapeFault {
        line: word.line,
        kind: ShapeKind::Twice(text),
    }))
}

/// The first fault of a text whose names have numbers, but that of cases which leave joint data uncovered.
pub(crate) fn inner_fault(
    alloc: Global,
    p: &Numbered,
    numbers: &[AtomNumbers],
) -> Result<Option<ShapeFault>, Memory>
    requires some_agent { Holds SomeAgent (content_of p.now) }
    requires few_outcomes { Holds FewOutcomes (content_of p.now) }
    requires names { HasNumbers (content_of p.now) }
    requires numbers { numbers.now ≡ map (atom_numbers (content_of p.now)) p.now.atoms }
    ensures { IfOk result (λ fault. fault ≡ first_fault inner p.now) }
{
    if let Some(fault) = party_fault(p, numbers) {
        return Ok(Some(fault));
    }
    let rules = [
        Rule::AllSent,
        Rule::NoStranger,
        Rule::LastEnds,
        Rule::PartiesAlone,
    ];
    if let Some(fault) = first_broken(&rules, p, numbers) {
        return Ok(Some(fault));
    }
    if let Some(fault) = size_fault(alloc, p.text())? {
        return Ok(Some(fault));
    }
    Ok(broken(Rule::NoLargeValue, p, numbers))
}

/// What breaks the first of the rules that is broken.
#[tactic(auto, unfolding(nego_base::specs::Firsts::first_among))]
fn first_broken(rules: &[Rule], p: &Numbered, numbers: &[AtomNumbers]) -> Option<ShapeFault>
    requires few_outcomes { Holds FewOutcomes (content_of p.now) }
    requires names { HasNumbers (content_of p.now) }
    requires numbers { numbers.now ≡ map (atom_numbers (content_of p.now)) p.now.atoms }
    ensures { result ≡ first_among (λ rule. first_of (faults (condition_by rule) p.now)) rules.now }
{
    for rule in rules {
        if let Some(fault) = broken(*rule, p, numbers) {
            return Some(fault);
        }
    }
    None
}
