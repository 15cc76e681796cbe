//! Summaries, and their text.
ghost use Rattle.std.specs.Prelude.{◌≡◌, ◌++◌, ℕ, List, codes, decimal, map, IfOk, OnOk};
ghost use Rattle.nego_base.specs.Appending.{Appends};
ghost use Rattle.nego_expr.specs.NodeView.{plain_node};
ghost use Rattle.nego_expr.specs.SummaryText.{plain_final, plain_summary, node_words, node_line, node_lines, final_line, final_lines, summary_text};

use crate::{Node, Nodes};
use nego_base::{Memory, NodeId, Seq, Text};
use std::alloc::Global;

/// A final outcome: its name, and the node of what the complete runs with it do.
#[derive(Debug, Drop)]
pub struct Final {
    pub name: Text,
    pub node: NodeId,
}

/// What a diagram does as a whole: all nodes, and the final outcomes in their order.
#[derive(Debug, Drop)]
pub struct Summary {
    pub nodes: Nodes,
    pub finals: Seq<Final>,
}

/// The text of a summary.
pub fn print_summary(alloc: Global, s: &Summary) -> Result<Text, Memory>
    ensures { IfOk result (λ text. text ≡ summary_text (plain_summary s.now)) }
{
    let mut text = Text::copy(alloc, b"summary 1\n")?;
    add_nodes(&mut text, s.nodes.as_slice())?;
    add_finals(&mut text, s.finals.as_slice())?;
    text.extend_from_slice(b"end\n")?;
    Ok(text)
}

/// Adds a line for each node.
fn add_nodes(text: &mut Text, nodes: &[Node]) -> Result<(), Memory>
    ensures { OnOk result (Appends text.old text.new (node_lines 0 (map plain_node nodes.now))) }
{
    for (i, node) in nodes.iter().enumerate() {
        add_node(text, i, *node)?;
    }
    Ok(())
}

/// Adds a node's line.
fn add_node(text: &mut Text, i: usize, node: Node) -> Result<(), Memory>
    ensures { OnOk result (Appends text.old text.new (node_line i (plain_node node))) }
{
    text.extend_from_slice(b"node ")?;
    text.push_decimal(i as u64)?;
    text.extend_from_slice(b" ")?;
    add_words(text, node)?;
    text.extend_from_slice(b"\n")
}

/// Adds what a node is.
fn add_words(text: &mut Text, node: Node) -> Result<(), Memory>
    ensures { OnOk result (Appends text.old text.new (node_words (plain_node node))) }
{
    match node {
        Node::Base(o) => add_one(text, b"base ", o.0),
        Node::Join(x, y) => add_two(text, b"join ", x, y),
        Node::Then(x, y) => add_two(text, b"then ", x, y),
        Node::Star(x) => add_one(text, b"star ", x.0),
    }
}

/// Adds a word and a number.
fn add_one(text: &mut Text, word: &[u8], n: u32) -> Result<(), Memory>
    ensures { OnOk result (Appends text.old text.new (λ rest. word.now ++ (decimal n ++ rest))) }
{
    text.extend_from_slice(word)?;
    text.push_decimal(n as u64)
}

/// Adds a word and two numbers.
fn add_two(text: &mut Text, word: &[u8], x: NodeId, y: NodeId) -> Result<(), Memory>
    ensures { OnOk result (Appends text.old text.new (λ rest. word.now ++ (decimal x.0 ++ (codes " " ++ (decimal y.0 ++ rest))))) }
{
    add_one(text, word, x.0)?;
    add_one(text, b" ", y.0)
}

/// Adds a line for each final outcome.
fn add_finals(text: &mut Text, finals: &[Final]) -> Result<(), Memory>
    ensures { OnOk result (Appends text.old text.new (final_lines (map plain_final finals.now))) }
{
    for outcome in finals {
        add_final(text, outcome)?;
    }
    Ok(())
}

/// Adds a final outcome's line.
fn add_final(text: &mut Text, outcome: &Final) -> Result<(), Memory>
    ensures { OnOk result (Appends text.old text.new (final_line (plain_final outcome.now))) }
{
    text.extend_from_slice(b"final ")?;
    text.extend_from_slice(outcome.name.as_slice())?;
    add_one(text, b" ", outcome.node.0)?;
    text.extend_from_slice(b"\n")
}
