//! From the text of a diagram to what it says.

ghost use Rattle.std.specs.Prelude.{◌-◌, ◌<◌, ◌^◌, IfOk, IfErr, length};
ghost use Rattle.nego_reader.specs.declared.parsed.Parsed.{Parsed};
ghost use Rattle.nego_reader.specs.Spelling.{Spells};
ghost use Rattle.nego_reader.specs.Answer.{ReadHasCause, SpellsNothing};

use crate::parsed::Parsed;
use crate::pieces::diagram;
use nego_base::{ReadFaults, scan};
use std::alloc::Global;

/// The diagram that the text spells, or the text's first fault.
pub fn read_diagram(alloc: Global, bytes: &[u8]) -> Result<Parsed, ReadFaults>
    // Each line, and the one behind the last, has a number of 32 bits.
    requires { length bytes.now < 2 ^ 32 - 1 }
    ensures spelled { IfOk result (λ p. Spells bytes.now p) }
    ensures fault { IfErr result (λ e. ReadHasCause e bytes.now) }
    ensures unspelled { IfErr result (λ e. SpellsNothing e bytes.now) }
{
    let lines = scan(alloc, bytes)?;
    diagram(alloc, lines.lines.as_slice(), lines.count)
}
