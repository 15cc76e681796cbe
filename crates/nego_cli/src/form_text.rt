//! The text that tells the form of a diagram.

ghost use Rattle.std.specs.Prelude.{◌<◌, ◌++◌, codes, length, IfOk, OnOk, IfSome, All};
ghost use Rattle.nego_model.specs.Diagram.{IsDiagram, atom_name};
ghost use Rattle.nego_base.specs.Appending.{Appends};
ghost use Rattle.nego_cli.specs.Check.{IsFormOf};
ghost use Rattle.nego_model.specs.Undetermined.{IsFirstUndetermined};
ghost use Rattle.nego_cli.specs.FormText.{count_line, choice_line, atom_words, order_line, choice_numbers, AreAtoms};

use crate::names::add_choice;
use nego_base::{AgentId, AtomId, Memory, OutcomeId, Text};
use nego_model::Diagram;
use nego_shape::{Order, determined, order};
use std::alloc::Global;

/// The form of the diagram: its counts, whether it is deterministic, and an order of its atoms or a cycle.
pub(crate) fn print_form(alloc: Global, d: &Diagram) -> Result<Text, Memory>
    ensures form { IfOk result (IsFormOf d.now) }
    ensures diagram { IsDiagram d.now }
{
    let choice = determined(d).err();
    let order = order(alloc, d)?;
    let mut text = Text::new(alloc);
    add_count(&mut text, b"agents", d.agents())?;
    add_count(&mut text, b"atoms", d.atoms())?;
    add_count(&mut text, b"outcomes", d.outcomes())?;
    add_count(&mut text, b"joint", d.sizes().all() as u32)?;
    add_determined(&mut text, d, choice)?;
    add_order(&mut text, d, &order)?;
    Ok(text)
}

/// Adds a number behind its name, on a line.
fn add_count(text: &mut Text, name: &[u8], n: u32) -> Result<(), Memory>
    ensures { OnOk result (Appends text.old text.new (count_line name.now n)) }
{
    text.extend_from_slice(name)?;
    text.extend_from_slice(b" ")?;
    text.push_decimal(u64::from(n))?;
    text.extend_from_slice(b"\n")
}

/// Adds whether the diagram is deterministic, or else where it first isn't.
fn add_determined(
    text: &mut Text,
    d: &Diagram,
    choice: Option<(OutcomeId, AgentId)>,
) -> Result<(), Memory>
    requires { IfSome choice (λ pair. IsFirstUndetermined d.now pair.0.0 pair.1.0) }
    ensures { OnOk result (Appends text.old text.new (choice_line d.now (choice_numbers choice))) }
{
    match choice {
        None => text.extend_from_slice(b"deterministic")?,
        Some((o, a)) => {
            text.extend_from_slice(b"not deterministic ")?;
            add_choice(text, d, o, a)?;
        }
    }
    text.extend_from_slice(b"\n")
}

/// Adds the order of the atoms, or the cycle.
fn add_order(text: &mut Text, d: &Diagram, order: &Order) -> Result<(), Memory>
    requires { AreAtoms d.now order.now }
    ensures { OnOk result (Appends text.old text.new (order_line d.now order.now)) }
{
    match order {
        Order::Acyclic(atoms) => {
            text.extend_from_slice(b"acyclic")?;
            add_atoms(text, d, atoms.as_slice())?;
        }
        Order::Cycle(atoms) => {
            text.extend_from_slice(b"cyclic")?;
            add_atoms(text, d, atoms.as_slice())?;
        }
    }
    text.extend_from_slice(b"\n")
}

/// Adds the names of atoms, each behind a blank.
fn add_atoms(text: &mut Text, d: &Diagram, atoms: &[AtomId]) -> Result<(), Memory>
    requires { All (λ n. n.0 < length d.now.atoms) atoms.now }
    ensures { OnOk result (Appends text.old text.new (atom_words d.now atoms.now)) }
{
    for n in atoms {
        add_atom(text, d, *n)?;
    }
    Ok(())
}

/// Adds the name of an atom behind a blank.
fn add_atom(text: &mut Text, d: &Diagram, n: AtomId) -> Result<(), Memory>
    requires { n.0 < length d.now.atoms }
    ensures { OnOk result (Appends text.old text.new (λ rest. codes " " ++ (atom_name d.now n.0 ++ rest))) }
{
    text.extend_from_slice(b" ")?;
    text.extend_from_slice(d.atom_name(n))
}
