//! What one line of a certificate says.
ghost use Rattle.std.specs.Prelude.{◌≡◌, find};
ghost use Rattle.std.specs.Str.{bytes_eq};
ghost use Rattle.nego_base.specs.LineAnswers.{FitsLine, Tells};
ghost use Rattle.nego_cert.specs.Lines.{keyword};
ghost use Rattle.nego_cert.specs.Reading.{header_in, kind_in, number_in, one_in, row_of, two_in, use_row};

use crate::CertLine;
use crate::row::{Kind, Row};
use nego_base::{AtomId, Fault, FaultKind, Line, OutcomeId, Word};
use nego_expr::Use;

/// Of which of these kinds the line is, by its first word.
#[tactic(auto, unfolding(nego_base::specs::LineWalk::kind_of_line))]
pub(crate) fn kind_in(may: &[Kind], line: &Line) -> Result<Kind, Fault>
    requires { FitsLine line.now }
    ensures { Tells (λ kind. kind) result (kind_in may.now line.now) }
{
    let first = line.word(0)?;
    kind_named(may, first).ok_or(first.fault(FaultKind::Word))
}

/// The first of the kinds of which lines begin with the word.
fn kind_named(may: &[Kind], first: &Word) -> Option<Kind>
    ensures { result ≡ find (λ kind. bytes_eq first.now.text (keyword kind)) may.now }
{
    may.iter().copied().find(|kind| first.is(kind.keyword()))
}

/// The number at a place of the line.
#[tactic(auto, unfolding(crate::specs::Reading::number_in))]
pub(crate) fn number_in(line: &Line, i: usize) -> Result<u32, Fault>
    requires { FitsLine line.now }
    ensures { Tells (λ n. n) result (number_in line.now i) }
{
    line.word(i)?.number()
}

/// That the line is of version 1.
#[tactic(auto, unfolding(crate::specs::Reading::header_in))]
pub(crate) fn header_in(line: &Line) -> Result<(), Fault>
    requires { FitsLine line.now }
    ensures { Tells (λ _. tt) result (header_in line.now) }
{
    line.exactly(2)?;
    let version = line.word(1)?;
    if version.is(b"1") {
        Ok(())
    } else {
        Err(version.fault(FaultKind::Version))
    }
}

/// The number in the line, which has two words.
#[tactic(auto, unfolding(crate::specs::Reading::one_in))]
fn one_in(line: &Line) -> Result<u32, Fault>
    requires { FitsLine line.now }
    ensures { Tells (λ n. n) result (one_in line.now) }
{
    line.exactly(2)?;
    number_in(line, 1)
}

/// The two numbers in the line, which has three words.
#[tactic(auto, unfolding(crate::specs::Reading::two_in))]
fn two_in(line: &Line) -> Result<(u32, u32), Fault>
    requires { FitsLine line.now }
    ensures { Tells (λ x. x) result (two_in line.now) }
{
    line.exactly(3)?;
    let one = number_in(line, 1)?;
    let two = number_in(line, 2)?;
    Ok((one, two))
}

/// The use on the line.
fn use_row(line: &Line, what: Use) -> Row
    ensures { result ≡ use_row line.now what }
{
    Row::Use(CertLine {
        line: line.number,
        what,
    })
}

/// What the line, which is of this kind, says.
#[tactic(auto, unfolding(crate::specs::Reading::row_of))]
pub(crate) fn row_of(kind: Kind, line: &Line) -> Result<Row, Fault>
    requires { FitsLine line.now }
    ensures { Tells (λ row. row) result (row_of kind line.now) }
{
    match kind {
        Kind::Header => {
            header_in(line)?;
            Ok(Row::Header)
        }
        Kind::Merge => {
            let (o1, o2) = two_in(line)?;
            Ok(use_row(line, Use::Merge(OutcomeId(o1), OutcomeId(o2))))
        }
        Kind::Iterate => {
            let o = one_in(line)?;
            Ok(use_row(line, Use::Iterate(OutcomeId(o))))
        }
        Kind::Shortcut => {
            let (o, n) = two_in(line)?;
            Ok(use_row(line, Use::Shortcut(OutcomeId(o), AtomId(n))))
        }
        Kind::Close => {
            line.exactly(1)?;
            Ok(use_row(line, Use::Close))
        }
        Kind::End => {
            line.exactly(1)?;
            Ok(Row::End)
        }
    }
}
