//! From the text of a summary to the summary.
ghost use Rattle.std.specs.Prelude.{◌-◌, ◌<◌, ◌^◌, ◌≡◌, [], ◌∷◌, IfOk, IfErr, All, length, map};
ghost use Rattle.nego_base.specs.LineAnswers.{FitsLine};
ghost use Rattle.nego_base.specs.LineGrammar.{missing_end};
ghost use Rattle.nego_expr.specs.SummaryText.{plain_summary};
ghost use Rattle.nego_cert.specs.declared.summary_row.SummaryKind.TheVariants as kinds;
ghost use Rattle.nego_cert.specs.SummaryReading.{Adds, ReadsSummary, known_of, nothing_yet, said_by, walk};
ghost use Rattle.nego_cert.specs.SummaryTable.{SpellsNoSummary, SpellsSummary, SummaryHasCause};

use crate::lines::header_in;
use crate::summary_lines::{final_in, kind_in, node_in};
use crate::summary_row::SummaryKind;
use nego_base::{Line, ReadFaults, Seq, Text, missing_end, scan};
use nego_expr::{Final, Nodes, Summary};
use std::alloc::Global;

/// The summary that the text spells, or the text's first fault.
pub fn read_summary(alloc: Global, bytes: &[u8]) -> Result<Summary, ReadFaults>
    // Each line, and the one behind the last, has a number of 32 bits.
    requires { length bytes.now < 2 ^ 32 - 1 }
    ensures spelled { IfOk result (λ s. SpellsSummary bytes.now (plain_summary s)) }
    ensures fault { IfErr result (λ e. SummaryHasCause e bytes.now) }
    ensures unspelled { IfErr result (λ e. SpellsNoSummary e bytes.now) }
{
    let lines = scan(alloc, bytes)?;
    summary(alloc, lines.lines.as_slice(), lines.count)
}

/// The summary that the lines of a text of so many lines spell.
fn summary(alloc: Global, lines: &[Line], count: u32) -> Result<Summary, ReadFaults>
    requires fits { All FitsLine lines.now }
    requires few { count < 2 ^ 32 - 1 }
    ensures { ReadsSummary result (walk (missing_end count) (known_of (kinds.Header ∷ []) nothing_yet) lines.now) }
{
    let missing = missing_end(count);
    let mut summary = Summary {
        nodes: Nodes::new(alloc, 0)?,
        finals: Seq::new(alloc),
    };
    let mut may: &[SummaryKind] = &[SummaryKind::Header];
    for line in lines {
        let kind = kind_in(may, line)?;
        add(alloc, &mut summary, kind, line)?;
        may = kind.followers();
    }
    if may.is_empty() {
        Ok(summary)
    } else {
        Err(ReadFaults::Off(missing))
    }
}

/// Adds what the line, which is of this kind, says.
#[tactic(auto, unfolding(crate::specs::SummaryReading::said_by))]
fn add(
    alloc: Global,
    summary: &mut Summary,
    kind: SummaryKind,
    line: &Line,
) -> Result<(), ReadFaults>
    requires { FitsLine line.now }
    ensures { Adds (plain_summary summary.old) (plain_summary summary.new) result (said_by (length (plain_summary summary.old).nodes) (map (λ outcome. outcome.name) (plain_summary summary.old).finals) kind line.now) }
{
    match kind {
        SummaryKind::Header => header_in(line)?,
        SummaryKind::Node => {
            let node = node_in(summary.nodes.len(), line)?;
            summary.nodes.reserve(1)?;
            summary.nodes.push(node);
        }
        SummaryKind::Final => {
            let (word, node) = final_in(summary.nodes.len(), summary.finals.as_slice(), line)?;
            let name = Text::copy(alloc, word.text.as_slice())?;
            summary.finals.push(Final { name, node })?;
        }
        SummaryKind::End => line.exactly(1)?,
    }
    Ok(())
}
