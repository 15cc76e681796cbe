//! Answers of summaries that are built node by node.
ghost use Rattle.std.specs.Prelude.{◌≡◌, ◌<◌, ℕ, length, All, IsTrue, IfOk, ⊤};
ghost use Rattle.nego_model.specs.Expression.{IsNodeList, NodeBases, children};
ghost use Rattle.nego_model.specs.Summary.{IsFormed};
ghost use Rattle.nego_expr.specs.NodeView.{plain_node};
ghost use Rattle.nego_expr.specs.SummaryText.{plain_summary};

use crate::{ask, holds};
use nego_base::{NodeId, OutcomeId, Seq, Text};
use nego_expr::{Final, Node, Nodes, Summary};
use nego_model::Diagram;
use nego_reader::read_diagram;
use nego_shape::{shape, spelled_words_are_names};
use std::alloc::Global;
use std::process::Abort;
use std::test::Fail;

/// One agent with two values, which the one outcome changes over.
const FLIP: &[u8] = b"nego 1\n\
agent a 2\n\
atom only a\n\
out flip\n\
case a=0 : a:=1\n\
case a=1 : a:=0\n\
first only\n\
last only\n\
end\n";

/// The first atom sets the value, and the last adds to it.
const SET_AND_ADD: &[u8] = b"nego 1\n\
agent a 4\n\
atom start a\n\
out go\n\
case : a:=1\n\
next stop a\n\
atom stop a\n\
out ok\n\
case : a:=a+1\n\
first start\n\
last stop\n\
end\n";

#[test]
fn summaries_answer(rt: HostRuntime) -> Result<(), Fail> {
    doubles(&rt, rt.alloc())?;
    set_and_add(&rt, rt.alloc())?;
    Ok(())
}

/// Each of sixty nodes is the one before it, twice: each node is walked once.
fn doubles(rt: &impl Abort, alloc: Global) -> Result<(), Fail> {
    let d = shaped(rt, alloc, FLIP)?;
    let mut nodes = Seq::new(alloc);
    nodes.push(Node::Base(OutcomeId(0)))?;
    for j in 0..60 {
        nodes.push(Node::Then(NodeId(j), NodeId(j)))?;
    }
    let s = summary(rt, alloc, nodes.as_slice(), 60, d.outcomes())?;
    assert!(rt; d.sizes().all() == 2);
    let answers = ask(alloc, &d, &s, 0)?;
    assert!(rt; answers.as_slice() == [(0, 0)].as_slice());
    Ok(())
}

/// What is set and then added to is one more.
fn set_and_add(rt: &impl Abort, alloc: Global) -> Result<(), Fail> {
    let d = shaped(rt, alloc, SET_AND_ADD)?;
    let nodes = [
        Node::Base(OutcomeId(0)),
        Node::Base(OutcomeId(1)),
        Node::Then(NodeId(0), NodeId(1)),
    ];
    let s = summary(rt, alloc, &nodes, 2, d.outcomes())?;
    assert!(rt; d.sizes().all() == 4);
    assert!(rt; holds(alloc, &d, &s, 0, 0, 2)?);
    assert!(rt; !holds(alloc, &d, &s, 0, 0, 1)?);
    Ok(())
}

fn shaped(rt: &impl Abort, alloc: Global, text: &[u8]) -> Result<Diagram, Fail> {
    assert!(rt; text.len() < 9_000);
    let parsed = read_diagram(alloc, text)?;
    spelled_words_are_names();
    Ok(shape(alloc, &parsed)?)
}

/// The summary of these nodes with one final outcome.
fn summary(
    rt: &impl Abort,
    alloc: Global,
    list: &[Node],
    last: u32,
    outcomes: u32,
) -> Result<Summary, Fail>
    ensures formed { IfOk result (λ s. IsFormed outcomes (plain_summary s)) }
    ensures one { IfOk result (λ s. length s.finals ≡ 1) }
{
    let nodes = nodes_of(rt, alloc, list, outcomes)?;
    assert!(rt; last < nodes.len());
    let _first = nodes.get(NodeId(0));
    let mut finals = Seq::new(alloc);
    finals.push(Final {
        name: Text::copy(alloc, b"done")?,
        node: NodeId(last),
    })?;
    Ok(summary_of(nodes, finals, outcomes))
}

/// The summary of nodes over the outcomes below the count, and final outcomes of these nodes.
fn summary_of(nodes: Nodes, finals: Seq<Final>, outcomes: u32) -> Summary
    requires below { IsNodeList nodes.nodes }
    requires bases { All (NodeBases (λ o. o < outcomes) (λ i. ⊤)) nodes.nodes }
    requires finals { All (λ outcome. outcome.node.0 < length nodes.nodes) finals }
    ensures formed { IsFormed outcomes (plain_summary result) }
    ensures finals { result.finals ≡ finals }
{
    Summary { nodes, finals }
}

/// The list of these nodes, each of which is over nodes before it and outcomes below the count.
fn nodes_of(rt: &impl Abort, alloc: Global, list: &[Node], outcomes: u32) -> Result<Nodes, Fail>
    ensures { IfOk result (λ nodes. All (NodeBases (λ o. o < outcomes) (λ i. ⊤)) nodes.nodes) }
{
    let mut nodes = Nodes::new(alloc, 0)?;
    for node in list {
        assert!(rt; nodes.len() < 20_000);
        assert!(rt; is_over(*node, nodes.len(), outcomes));
        nodes.reserve(1)?;
        nodes.push(*node);
    }
    Ok(nodes)
}

/// Whether a node is over nodes and outcomes whose numbers are below these counts.
fn is_over(node: Node, nodes: u32, outcomes: u32) -> bool
    ensures children { IsTrue result → All (λ child. child < nodes) (children (plain_node node)) }
    ensures base { IsTrue result → NodeBases (λ o. o < outcomes) (λ i. ⊤) (plain_node node) }
{
    match node {
        Node::Base(o) => o.0 < outcomes,
        Node::Star(x) => x.0 < nodes,
        Node::Join(x, y) | Node::Then(x, y) => x.0 < nodes && y.0 < nodes,
    }
}
