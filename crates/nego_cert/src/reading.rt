//! From the text of a certificate to what it says.
ghost use Rattle.std.specs.Prelude.{◌≡◌, ◌-◌, ◌<◌, ◌^◌, [], ◌∷◌, ◌++◌, IfOk, IfErr, OnOk, All, length};
ghost use Rattle.nego_base.specs.LineAnswers.{FitsLine};
ghost use Rattle.nego_base.specs.LineGrammar.{missing_end};
ghost use Rattle.nego_cert.specs.declared.row.Kind.TheVariants as kinds;
ghost use Rattle.nego_cert.specs.Reading.{Reads, use_in, walk};
ghost use Rattle.nego_cert.specs.Table.{ReadHasCause, SpellsCertificate, SpellsNothing};

use crate::lines::{kind_in, row_of};
use crate::row::{Kind, Row};
use crate::{Cert, CertLine};
use nego_base::{Line, Memory, ReadFaults, Seq, missing_end, scan};
use std::alloc::Global;

/// The certificate that the text spells, or the text's first fault.
pub fn read_cert(alloc: Global, bytes: &[u8]) -> Result<Cert, ReadFaults>
    // Each line, and the one behind the last, has a number of 32 bits.
    requires { length bytes.now < 2 ^ 32 - 1 }
    ensures spelled { IfOk result (λ cert. SpellsCertificate bytes.now cert) }
    ensures fault { IfErr result (λ e. ReadHasCause e bytes.now) }
    ensures unspelled { IfErr result (λ e. SpellsNothing e bytes.now) }
{
    let lines = scan(alloc, bytes)?;
    certificate(alloc, lines.lines.as_slice(), lines.count)
}

/// The certificate that the lines of a text of so many lines spell.
fn certificate(alloc: Global, lines: &[Line], count: u32) -> Result<Cert, ReadFaults>
    requires fits { All FitsLine lines.now }
    requires few { count < 2 ^ 32 - 1 }
    ensures { Reads result (walk (missing_end count) (kinds.Header ∷ []) lines.now) }
{
    let missing = missing_end(count);
    let mut uses = Seq::new(alloc);
    let mut may: &[Kind] = &[Kind::Header];
    for line in lines {
        let kind = kind_in(may, line)?;
        keep(&mut uses, row_of(kind, line)?)?;
        may = kind.followers();
    }
    if may.is_empty() {
        Ok(Cert { uses })
    } else {
        Err(ReadFaults::Off(missing))
    }
}

/// Puts the use of the row, where it is one, at the end.
fn keep(uses: &mut Seq<CertLine>, row: Row) -> Result<(), Memory>
    ensures { OnOk result (uses.new ≡ uses.old ++ use_in row) }
{
    match row {
        Row::Use(line) => uses.push(line),
        Row::Header | Row::End => Ok(()),
    }
}
