//! Values made and printed, against a worked answer.
ghost use Rattle.std.specs.Prelude.{◌<◌, All, IsTrue};
ghost use Rattle.nego_model.specs.Expression.{children};
ghost use Rattle.nego_expr.specs.NodeView.{plain_node};

use crate::{Final, Node, Nodes, Summary, Targets, print_summary};
use nego_base::{AgentId, AtomId, NodeId, OutcomeId, Seq, Text};
use std::alloc::Global;
use std::process::Abort;
use std::test::Fail;

/// The nodes behind those of ten outcomes.
static MADE: [Node; 10] = [
    Node::Join(NodeId(2), NodeId(3)),
    Node::Star(NodeId(1)),
    Node::Then(NodeId(11), NodeId(10)),
    Node::Then(NodeId(0), NodeId(12)),
    Node::Then(NodeId(4), NodeId(6)),
    Node::Then(NodeId(14), NodeId(7)),
    Node::Join(NodeId(15), NodeId(5)),
    Node::Then(NodeId(13), NodeId(16)),
    Node::Then(NodeId(17), NodeId(8)),
    Node::Then(NodeId(17), NodeId(9)),
];

#[test]
fn values_answer(rt: HostRuntime) -> Result<(), Fail> {
    targets(&rt);
    summaries(&rt, rt.alloc())?;
    Ok(())
}

fn targets(rt: &impl Abort) {
    let mut targets = Targets::none(16);
    targets.set(AgentId(15), AtomId(3));
    let before = targets.copy();
    targets.set(AgentId(0), AtomId(63));
    assert!(rt; targets.get(AgentId(0)) == Some(AtomId(63)));
    assert!(rt; targets.get(AgentId(1)) == None);
    assert!(rt; targets.get(AgentId(15)) == Some(AtomId(3)));
    assert!(rt; before.get(AgentId(0)) == None);
    assert!(rt; before.get(AgentId(15)) == Some(AtomId(3)));
}

fn summaries(rt: &impl Abort, alloc: Global) -> Result<(), Fail> {
    let mut nodes = Nodes::new(alloc, 0)?;
    assert!(rt; nodes.is_empty());
    for o in 0..10 {
        add(rt, &mut nodes, Node::Base(OutcomeId(o)))?;
    }
    for node in &MADE {
        add(rt, &mut nodes, *node)?;
    }
    assert!(rt; nodes.len() == 20);
    assert!(rt; nodes.get(NodeId(11)) == Some(Node::Star(NodeId(1))));
    assert!(rt; nodes.get(NodeId(20)) == None);
    let mut finals = Seq::new(alloc);
    finals.push(outcome(alloc, b"delivered", 18)?)?;
    finals.push(outcome(alloc, b"cancelled", 19)?)?;
    let text = print_summary(alloc, &Summary { nodes, finals })?;
    assert!(rt;
        text.as_slice()
            == b"summary 1\n\
              node 0 base 0\n\
              node 1 base 1\n\
              node 2 base 2\n\
              node 3 base 3\n\
              node 4 base 4\n\
              node 5 base 5\n\
              node 6 base 6\n\
              node 7 base 7\n\
              node 8 base 8\n\
              node 9 base 9\n\
              node 10 join 2 3\n\
              node 11 star 1\n\
              node 12 then 11 10\n\
              node 13 then 0 12\n\
              node 14 then 4 6\n\
              node 15 then 14 7\n\
              node 16 join 15 5\n\
              node 17 then 13 16\n\
              node 18 then 17 8\n\
              node 19 then 17 9\n\
              final delivered 18\n\
              final cancelled 19\n\
              end\n"
                .as_slice()
    );
    Ok(())
}

fn outcome(alloc: Global, name: &[u8], node: u32) -> Result<Final, Fail> {
    Ok(Final {
        name: Text::copy(alloc, name)?,
        node: NodeId(node),
    })
}

/// Puts a node of older nodes at the end.
fn add(rt: &impl Abort, nodes: &mut Nodes, node: Node) -> Result<(), Fail> {
    assert!(rt; nodes.len() < 20_000);
    assert!(rt; is_of_nodes_below(node, nodes.len()));
    nodes.reserve(1)?;
    nodes.push(node);
    Ok(())
}

fn is_of_nodes_below(node: Node, count: u32) -> bool
    ensures { IsTrue result → All (λ child. child < count) (children (plain_node node)) }
{
    match node {
        Node::Base(_) => true,
        Node::Star(x) => x.0 < count,
        Node::Join(x, y) => x.0 < count && y.0 < count,
        Node::Then(x, y) => x.0 < count && y.0 < count,
    }
}
