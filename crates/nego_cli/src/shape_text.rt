//! The words of a fault of shape.

ghost use Rattle.std.specs.Prelude.{◌≡◌, ◌++◌, ◌<◌, Some, None, OnOk};
ghost use Rattle.nego_data.specs.Data.{data_count, split};
ghost use Rattle.nego_data.specs.Sizes.{AreSizes};
ghost use Rattle.nego_model.specs.Diagram.{agent_name, atom_name, outcome_name, atom_of};
ghost use Rattle.nego_reader.specs.Content.{content_of};
ghost use Rattle.nego_shape.specs.Answer.{AreJointIn};
ghost use Rattle.nego_shape.specs.Naming.{sizes_in};
ghost use Rattle.nego_base.specs.Appending.{Appends};
ghost use Rattle.nego_cli.specs.Refusals.{diagram_of, many_name, outcome_words, choice_words, value_words, shape_words};

use crate::joint_text::add_joint;
use nego_base::{AgentId, Memory, OutcomeId, Text};
use nego_reader::Parsed;
use nego_shape::{Many, ShapeKind, sizes_of};
use std::alloc::Global;

/// Adds the kind of a fault, and its arguments.
pub(crate) fn add_kind(
    alloc: Global,
    text: &mut Text,
    p: &Parsed,
    kind: &ShapeKind,
) -> Result<(), Memory>
    requires { AreJointIn p.now kind.now }
    ensures { OnOk result (Appends text.old text.new (shape_words (diagram_of p.now) kind.now)) }
{
    match kind {
        ShapeKind::NoAgent => text.extend_from_slice(b"NoAgent"),
        ShapeKind::TooMany(what) => add_named(text, b"TooMany ", many_name(*what)),
        ShapeKind::Twice(name) => add_named(text, b"Twice ", name.as_slice()),
        ShapeKind::Unknown(name) => add_named(text, b"Unknown ", name.as_slice()),
        ShapeKind::NoParty(n) => add_named(text, b"NoParty ", atom_name(p, n.0 as usize)),
        ShapeKind::NoOutcome(n) => add_named(text, b"NoOutcome ", atom_name(p, n.0 as usize)),
        ShapeKind::FirstLacks(a) => add_named(text, b"FirstLacks ", agent_name(p, *a)),
        ShapeKind::LastLacks(a) => add_named(text, b"LastLacks ", agent_name(p, *a)),
        ShapeKind::NextMissing(o, a) => add_choice(text, b"NextMissing ", p, *o, *a),
        ShapeKind::NextStranger(o, a, n) => {
            add_choice(text, b"NextStranger ", p, *o, *a)?;
            add_named(text, b" ", atom_name(p, n.0 as usize))
        }
        ShapeKind::LastLeads(o) => add_outcome(text, b"LastLeads ", p, *o),
        ShapeKind::NotParty(o, a) => add_choice(text, b"NotParty ", p, *o, *a),
        ShapeKind::ZeroSize(a) => add_named(text, b"ZeroSize ", agent_name(p, *a)),
        ShapeKind::SizeTooLarge(a) => add_named(text, b"SizeTooLarge ", agent_name(p, *a)),
        ShapeKind::JointTooLarge(a) => add_named(text, b"JointTooLarge ", agent_name(p, *a)),
        ShapeKind::ValueTooLarge(o, a) => add_choice(text, b"ValueTooLarge ", p, *o, *a),
        ShapeKind::NotTotal(o, e) => {
            add_outcome(text, b"NotTotal ", p, *o)?;
            add_values(alloc, text, p, *e)
        }
    }
}

/// Adds words and a name behind them.
fn add_named(text: &mut Text, words: &[u8], name: &[u8]) -> Result<(), Memory>
    ensures { OnOk result (Appends text.old text.new (λ rest. words.now ++ (name.now ++ rest))) }
{
    text.extend_from_slice(words)?;
    text.extend_from_slice(name)
}

/// Adds words, and an outcome behind them.
fn add_outcome(text: &mut Text, words: &[u8], p: &Parsed, o: OutcomeId) -> Result<(), Memory>
    ensures { OnOk result (Appends text.old text.new (λ rest. words.now ++ outcome_words (diagram_of p.now) o.0 rest)) }
{
    let (n, name) = outcome_at(p, o.0 as usize);
    text.extend_from_slice(words)?;
    text.extend_from_slice(atom_name(p, n))?;
    text.extend_from_slice(b".")?;
    text.extend_from_slice(name)
}

/// Adds words, and an outcome and an agent behind them.
fn add_choice(
    text: &mut Text,
    words: &[u8],
    p: &Parsed,
    o: OutcomeId,
    a: AgentId,
) -> Result<(), Memory>
    ensures { OnOk result (Appends text.old text.new (λ rest. words.now ++ choice_words (diagram_of p.now) o.0 a.0 rest)) }
{
    add_outcome(text, words, p, o)?;
    add_named(text, b" ", agent_name(p, a))
}

/// Adds the values of the agents in joint data, each behind a blank.
fn add_values(alloc: Global, text: &mut Text, p: &Parsed, d: u16) -> Result<(), Memory>
    requires sizes { AreSizes (sizes_in (content_of p.now)) }
    requires data { d < data_count (sizes_in (content_of p.now)) }
    ensures { OnOk result (Appends text.old text.new (value_words (split (sizes_in (content_of p.now)) d))) }
{
    add_joint(text, &sizes_of(alloc, p)?, d)
}

/// The name of an agent, and no bytes where there is none of this number.
fn agent_name(p: &Parsed, a: AgentId) -> &[u8]
    ensures { result.now ≡ agent_name (diagram_of p.now) a.0 }
{
    match p.agents.get(a.0 as usize) {
        Some(agent) => agent.name.text.as_slice(),
        None => b"",
    }
}

/// The name of an atom, and no bytes where there is none of this number.
fn atom_name(p: &Parsed, n: usize) -> &[u8]
    ensures { result.now ≡ atom_name (diagram_of p.now) n }
{
    match p.atoms.get(n) {
        Some(atom) => atom.name.text.as_slice(),
        None => b"",
    }
}

/// The number of an outcome's atom and the outcome's name; 0 and no bytes where there is no outcome of this number.
fn outcome_at(p: &Parsed, o: usize) -> (usize, &[u8])
    ensures atom { result.0 ≡ atom_of (diagram_of p.now) o }
    ensures name { result.1.now ≡ outcome_name (diagram_of p.now) o }
{
    let mut left = o;
    for (n, atom) in p.atoms.iter().enumerate() {
        if let Some(out) = atom.outs.get(left) {
            return (n, out.name.text.as_slice());
        }
        left -= atom.outs.len();
    }
    (0, b"")
}

/// The name of what there is too much of.
fn many_name(what: Many) -> &'static [u8]
    ensures { result.now ≡ many_name what }
{
    match what {
        Many::Agents => b"agents",
        Many::Atoms => b"atoms",
        Many::Outcomes => b"outcomes",
    }
}
