//! Reads the parts of an input, and what they spell.

ghost use Rattle.std.specs.Prelude.{◌<◌, ◌-◌, ◌^◌, [], ◌∷◌, length, IfOk, IfErr, ◌≤◌};
ghost use Rattle.nego_reader.specs.Content.{content_of};
ghost use Rattle.nego_shape.specs.Shaped.{HasNameWords};
ghost use Rattle.nego_cli.specs.Effect.{effect};
ghost use Rattle.nego_cli.specs.Parts.{HasRead, ReadPart};
ghost use Rattle.nego_cli.specs.Loading.{HasNoPart, HasValue, HasNoValue, HasNoDiagram, IsNoDiagram, IsDiagramOf, HasNoCertificate, IsNoCertificate, IsUnspelled, IsShapeOf, HasNoShape};
ghost use Rattle.nego_cert.specs.Table.{SpellsCertificate};

use crate::failure::{Failure, PartName, Refusal};
use nego_base::ReadFaults;
use nego_cert::{Cert, read_cert};
use nego_io::{Part, ReadAnswer, Source, read_part};
use nego_model::Diagram;
use nego_reader::{Parsed, read_diagram};
use nego_shape::{ShapeAnswer, shape};
use std::alloc::Global;

/// How many bytes a part of an input may have.
const PART_LIMIT: u32 = 262_144;

/// Reads the part of this name that the input begins with: the diagram, or a part behind it.
pub(crate) fn load_part<S: Source>(
    alloc: Global,
    name: PartName,
    source: &mut S,
) -> Result<Part, Failure>
    ensures fits { IfOk result (λ part. length part.bytes < 2 ^ 32 - 1) }
    ensures ok { IfOk result (λ part. HasRead (ReadPart part.bytes ∷ []) (effect S.left S.faults source.old source.new)) }
    ensures err { IfErr result (HasNoPart name (effect S.left S.faults source.old source.new)) }
    ensures later { S.faults source.old ≤ S.faults source.new }
{
    match read_part(alloc, source, PART_LIMIT) {
        Ok(part) => Ok(part),
        Err(ReadAnswer::TooLong) => Err(Failure::Refused(Refusal::TooLong(name))),
        Err(ReadAnswer::NoEnd { line }) => Err(Failure::Refused(Refusal::NoEnd(name, line))),
        Err(ReadAnswer::ReadFault) => Err(Failure::ReadFault),
        Err(ReadAnswer::Memory) => Err(Failure::Memory),
    }
}

/// The diagram that the text spells.
fn spelled_diagram(alloc: Global, text: &[u8]) -> Result<Diagram, Failure>
    requires { length text.now < 2 ^ 32 - 1 }
    ensures ok { IfOk result (IsDiagramOf text.now) }
    ensures err { IfErr result (IsUnspelled HasNoDiagram text.now) }
{
    match read_diagram(alloc, text) {
        Ok(parsed) => shaped(alloc, parsed),
        Err(ReadFaults::Off(fault)) => {
            Err(Failure::Refused(Refusal::Off(PartName::Diagram, fault)))
        }
        Err(ReadFaults::Memory) => Err(Failure::Memory),
    }
}

/// The diagram that the value is.
fn shaped(alloc: Global, parsed: Parsed) -> Result<Diagram, Failure>
    requires { HasNameWords (content_of parsed) }
    ensures ok { IfOk result (IsShapeOf parsed) }
    ensures err { IfErr result (HasNoShape parsed) }
{
    match shape(alloc, &parsed) {
        Ok(diagram) => Ok(diagram),
        Err(ShapeAnswer::Off(fault)) => Err(Failure::Refused(Refusal::Misshapen(parsed, fault))),
        Err(ShapeAnswer::Memory) => Err(Failure::Memory),
    }
}

/// Reads the diagram that the input begins with.
pub(crate) fn load<S: Source>(alloc: Global, source: &mut S) -> Result<Diagram, Failure>
    ensures ok { IfOk result (HasValue IsDiagramOf (effect S.left S.faults source.old source.new)) }
    ensures err { IfErr result (HasNoValue IsNoDiagram (effect S.left S.faults source.old source.new)) }
    ensures later { S.faults source.old ≤ S.faults source.new }
{
    let part = load_part(alloc, PartName::Diagram, source)?;
    spelled_diagram(alloc, &part.bytes)
}

/// The certificate that the text spells.
fn spelled_certificate(alloc: Global, text: &[u8]) -> Result<Cert, Failure>
    requires { length text.now < 2 ^ 32 - 1 }
    ensures ok { IfOk result (SpellsCertificate text.now) }
    ensures err { IfErr result (IsUnspelled HasNoCertificate text.now) }
{
    match read_cert(alloc, text) {
        Ok(cert) => Ok(cert),
        Err(ReadFaults::Off(fault)) => {
            Err(Failure::Refused(Refusal::Off(PartName::Certificate, fault)))
        }
        Err(ReadFaults::Memory) => Err(Failure::Memory),
    }
}

/// Reads the certificate that the rest of the input begins with.
pub(crate) fn load_certificate<S: Source>(alloc: Global, source: &mut S) -> Result<Cert, Failure>
    ensures ok { IfOk result (HasValue SpellsCertificate (effect S.left S.faults source.old source.new)) }
    ensures err { IfErr result (HasNoValue IsNoCertificate (effect S.left S.faults source.old source.new)) }
    ensures later { S.faults source.old ≤ S.faults source.new }
{
    let part = load_part(alloc, PartName::Certificate, source)?;
    spelled_certificate(alloc, &part.bytes)
}
