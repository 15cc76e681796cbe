//! What one line of a summary says.
ghost use Rattle.std.specs.Prelude.{◌≡◌, ◌≤◌, ◌<◌, find, map, option_map, IfOk};
ghost use Rattle.std.specs.List.{list_any};
ghost use Rattle.std.specs.Str.{bytes_eq};
ghost use Rattle.nego_base.specs.LineAnswers.{FitsLine, Tells};
ghost use Rattle.nego_expr.specs.NodeView.{plain_node};
ghost use Rattle.nego_expr.specs.SummaryText.{plain_final};
ghost use Rattle.nego_expr.specs.Use.{most_nodes};
ghost use Rattle.nego_cert.specs.SummaryLines.{keyword};
ghost use Rattle.nego_cert.specs.SummaryReading.{below_in, form_named, form_word_of, kind_in, made_of, new_word, node_in, place_in, two_below, final_in};
ghost use Rattle.nego_cert.specs.SummaryTable.{IsNodeAt};

use crate::lines::number_in;
use crate::summary_row::{Form, SummaryKind};
use nego_base::{Fault, FaultKind, Line, NodeId, OutcomeId, Word};
use nego_expr::{Final, Node};

/// The most nodes that a summary has.
const MOST_NODES: u32 = 20_000;

/// Of which of these kinds the line is, by its first word.
#[tactic(auto, unfolding(nego_base::specs::LineWalk::kind_of_line))]
pub(crate) fn kind_in(may: &[SummaryKind], line: &Line) -> Result<SummaryKind, Fault>
    requires { FitsLine line.now }
    ensures { Tells (λ kind. kind) result (kind_in may.now line.now) }
{
    let first = line.word(0)?;
    kind_named(may, first).ok_or(first.fault(FaultKind::Word))
}

/// The first of the kinds of which lines begin with the word.
fn kind_named(may: &[SummaryKind], first: &Word) -> Option<SummaryKind>
    ensures { result ≡ find (λ kind. bytes_eq first.now.text (keyword kind)) may.now }
{
    may.iter().copied().find(|kind| first.is(kind.keyword()))
}

/// The form that the word says.
#[tactic(auto, unfolding(crate::specs::SummaryReading::form_named))]
fn form_named(word: &Word) -> Option<Form>
    ensures { result ≡ form_named word.now.text }
{
    if word.is(b"base") {
        Some(Form::Base)
    } else if word.is(b"join") {
        Some(Form::Join)
    } else if word.is(b"then") {
        Some(Form::Then)
    } else if word.is(b"star") {
        Some(Form::Star)
    } else {
        None
    }
}

/// The form that the word says, or a fault `Word` there.
#[tactic(auto, unfolding(crate::specs::SummaryReading::form_word_of))]
fn form_of(word: &Word) -> Result<Form, Fault>
    ensures { Tells (λ form. form) result (form_word_of word.now) }
{
    form_named(word).ok_or(word.fault(FaultKind::Word))
}

/// That the line's node has this number, of which there are so many at most.
#[tactic(auto, unfolding(crate::specs::SummaryReading::place_in, crate::specs::SummaryReading::number_if))]
fn place_in(i: u32, line: &Line) -> Result<u32, Fault>
    requires { FitsLine line.now }
    ensures { Tells (λ n. n) result (place_in i line.now) }
{
    let word = line.word(1)?;
    let n = word.number()?;
    if n == i && i < MOST_NODES {
        Ok(n)
    } else {
        Err(word.fault(FaultKind::Number))
    }
}

/// The node below this number, at a place of the line.
#[tactic(auto, unfolding(crate::specs::SummaryReading::below_in, crate::specs::SummaryReading::number_if))]
fn below_in(nodes: u32, line: &Line, i: usize) -> Result<u32, Fault>
    requires { FitsLine line.now }
    ensures { Tells (λ n. n) result (below_in nodes line.now i) }
{
    let word = line.word(i)?;
    let n = word.number()?;
    if n < nodes {
        Ok(n)
    } else {
        Err(word.fault(FaultKind::Number))
    }
}

/// The two nodes below this number.
#[tactic(auto, unfolding(crate::specs::SummaryReading::two_below))]
fn two_below(nodes: u32, line: &Line) -> Result<(NodeId, NodeId), Fault>
    requires { FitsLine line.now }
    ensures { Tells (λ xy. (xy.0.0, xy.1.0)) result (two_below nodes line.now) }
{
    let x = below_in(nodes, line, 3)?;
    let y = below_in(nodes, line, 4)?;
    Ok((NodeId(x), NodeId(y)))
}

/// What the line's node is made of.
#[tactic(auto, unfolding(crate::specs::SummaryReading::made_of))]
fn made_of(form: Form, nodes: u32, line: &Line) -> Result<Node, Fault>
    requires { FitsLine line.now }
    ensures { Tells plain_node result (made_of form nodes line.now) }
{
    match form {
        Form::Base => {
            let o = number_in(line, 3)?;
            Ok(Node::Base(OutcomeId(o)))
        }
        Form::Join => {
            let (x, y) = two_below(nodes, line)?;
            Ok(Node::Join(x, y))
        }
        Form::Then => {
            let (x, y) = two_below(nodes, line)?;
            Ok(Node::Then(x, y))
        }
        Form::Star => {
            let x = below_in(nodes, line, 3)?;
            Ok(Node::Star(NodeId(x)))
        }
    }
}

/// The node in the line, where there are so many before it.
#[tactic(auto, unfolding(crate::specs::SummaryReading::node_in))]
pub(crate) fn node_in(nodes: u32, line: &Line) -> Result<Node, Fault>
    requires { FitsLine line.now }
    ensures { Tells plain_node result (node_in nodes line.now) }
{
    line.at_least(3)?;
    let form = form_of(line.word(2)?)?;
    line.exactly(form.words())?;
    place_in(nodes, line)?;
    made_of(form, nodes, line)
}

/// Whether one of the final outcomes has the word as its name.
fn is_name_of(finals: &[Final], word: &Word) -> bool
    ensures { result ≡ list_any (λ outcome. bytes_eq outcome.name word.now.text) finals.now }
{
    finals
        .iter()
        .any(|outcome| outcome.name.as_slice() == word.text.as_slice())
}

/// The name and the node in the line, where there are these final outcomes before it.
#[tactic(auto, unfolding(crate::specs::SummaryReading::final_in, crate::specs::SummaryReading::new_word))]
pub(crate) fn final_in<'a>(
    nodes: u32,
    finals: &[Final],
    line: &'a Line,
) -> Result<(&'a Word, NodeId), Fault>
    requires { FitsLine line.now }
    ensures { Tells (λ x. record { name = x.0.now.text; node = x.1.0 }) result (final_in nodes (map (λ outcome. outcome.name) (map plain_final finals.now)) line.now) }
{
    line.exactly(3)?;
    let word = line.word(1)?;
    word.name()?;
    if is_name_of(finals, word) {
        return Err(word.fault(FaultKind::Name));
    }
    let node = below_in(nodes, line, 2)?;
    Ok((word, NodeId(node)))
}
