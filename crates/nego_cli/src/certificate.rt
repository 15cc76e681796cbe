//! The text of a reduction: the certificate, the verdict, and the summary or the atoms that are left.

ghost use Rattle.std.specs.Prelude.{◌≡◌, ◌<◌, [], ◌++◌, length, map, IfOk, OnOk};
ghost use Rattle.nego_base.specs.Appending.{Appends};
ghost use Rattle.nego_expr.specs.UseView.{plain_use};
ghost use Rattle.nego_cert.specs.CertificateText.{certificate_text};
ghost use Rattle.nego_cli.specs.Certificate.{left_line, left_lines, reduced_text};
ghost use Rattle.nego_cli.specs.Verdict.{verdict_line};

use crate::verdict::Verdict;
use nego_base::{AtomId, AtomSet, Memory, Text};
use nego_cert::print_cert;
use nego_expr::{Uses, print_summary};
use nego_model::Diagram;
use nego_reduce::Reduced;
use std::alloc::Global;

/// The text of a reduction: the certificate of the uses, the line of the verdict, and the summary or the atoms that are
/// left.
pub(crate) fn print_reduction(
    alloc: Global,
    d: &Diagram,
    reduced: &Reduced,
    verdict: Verdict,
) -> Result<Text, Memory>
    ensures { IfOk result (λ text. text ≡ reduced_text d.now reduced.now verdict) }
{
    match reduced {
        Reduced::One(summary, uses) => {
            let mut text = print_verdict(alloc, uses, verdict)?;
            let summary = print_summary(alloc, summary)?;
            text.extend_from_slice(summary.as_slice())?;
            Ok(text)
        }
        Reduced::Stuck(left, uses) | Reduced::NodeLimit(left, uses) => {
            let mut text = print_verdict(alloc, uses, verdict)?;
            add_left(&mut text, d, left.left())?;
            Ok(text)
        }
    }
}

/// The text of the certificate of the uses, and the line of the verdict.
fn print_verdict(alloc: Global, uses: &Uses, verdict: Verdict) -> Result<Text, Memory>
    ensures { IfOk result (λ text. Appends [] text (λ rest. certificate_text (map plain_use uses.now) ++ verdict_line verdict (length uses.now) rest)) }
{
    let mut text = print_cert(alloc, uses)?;
    verdict.add_line(&mut text, uses.len())?;
    Ok(text)
}

/// Adds a line for each atom of the diagram that is left.
fn add_left(text: &mut Text, d: &Diagram, left: AtomSet) -> Result<(), Memory>
    ensures { OnOk result (Appends text.old text.new (left_lines d.now left)) }
{
    for n in 0..d.atoms() {
        if left.has(AtomId(n)) {
            add_atom(text, d, AtomId(n))?;
        }
    }
    Ok(())
}

/// Adds the line of an atom that is left.
fn add_atom(text: &mut Text, d: &Diagram, n: AtomId) -> Result<(), Memory>
    requires { n.0 < length d.now.atoms }
    ensures { OnOk result (Appends text.old text.new (left_line d.now n.0)) }
{
    text.extend_from_slice(b"left ")?;
    text.extend_from_slice(d.atom_name(n))?;
    text.extend_from_slice(b"\n")
}
