//! Nodes of expressions, and lists of them.
ghost use Rattle.std.specs.Prelude.{◌≡◌, ◌==◌, ◌+◌, ◌-◌, ◌<◌, ◌≤◌, [], ◌∷◌, ◌++◌, length, map, max, slice_get, option_map, All, IfOk, OnOk, OnErr};
ghost use Rattle.nego_model.specs.Expression.{IsNodeList, children};
ghost use Rattle.nego_expr.specs.NodeView.{plain_node};
ghost use Rattle.nego_expr.specs.Use.{most_nodes};

use nego_base::{Memory, NodeId, OutcomeId, Reserved};
use std::alloc::Global;
use std::marker::Model;

/// A node of an expression over the outcomes of the diagram that was read.
#[derive(Clone, Copy, Debug, PartialEq, Eq)]
pub enum Node {
    /// An outcome.
    Base(OutcomeId),
    /// What either node relates.
    Join(NodeId, NodeId),
    /// What the first node relates, and then the second.
    Then(NodeId, NodeId),
    /// What the node relates any number of times, none among them.
    Star(NodeId),
}

/// Nodes in the order in which they were made, with room for more. Each child of a node has a smaller number than the
/// node. There are at most 20,000, with the room.
#[derive(Debug, Drop)]
pub struct Nodes {
    items: Reserved<Node>,
}

impl Model for Nodes {
    ghost use Rattle.std.specs.Prelude.{◌+◌, ◌≤◌, length, map};
    ghost use Rattle.nego_model.specs.Expression.{IsNodeList};
    ghost use Rattle.nego_expr.specs.NodeView.{plain_node};
    ghost use Rattle.nego_expr.specs.Room.{RoomyNodes};
    ghost use Rattle.nego_expr.specs.Use.{most_nodes};

    ghost Value = { RoomyNodes };

    ghost view = { λ n. record { nodes = map plain_node n.items.items; room = n.items.room } };

    ghost invariant = { λ n. IsNodeList (map plain_node n.items.items) × (length n.items.items + n.items.room ≤ most_nodes) };
}

impl Nodes {
    /// No node, and room for so many.
    pub fn new(alloc: Global, room: u32) -> Result<Nodes, Memory>
        requires { room ≤ most_nodes }
        ensures nodes { IfOk result (λ n. n.nodes ≡ []) }
        ensures room { IfOk result (λ n. n.room ≡ room) }
    {
        let items = Reserved::new(alloc, room as usize)?;
        Ok(Nodes { items })
    }

    /// How many nodes there are.
    pub fn len(&self) -> u32
        ensures value { result ≡ length self.now.nodes }
        ensures few { result + self.now.room ≤ most_nodes }
    {
        self.items.len() as u32
    }

    /// Whether there is no node.
    pub fn is_empty(&self) -> bool
        ensures { result ≡ (length self.now.nodes == 0) }
    {
        self.items.is_empty()
    }

    /// The node of a number, where there is one.
    pub fn get(&self, i: NodeId) -> Option<Node>
        ensures value { option_map plain_node result ≡ slice_get self.now.nodes i.0 }
        ensures below { IsNodeList self.now.nodes }
    {
        self.items.as_slice().get(i.0 as usize).copied()
    }

    /// The nodes in their order.
    pub fn as_slice(&self) -> &[Node]
        ensures value { map plain_node result.now ≡ self.now.nodes }
        ensures below { IsNodeList self.now.nodes }
    {
        self.items.as_slice()
    }

    /// Puts a node of older nodes at the end, and answers its number.
    pub fn push(&mut self, node: Node) -> NodeId
        requires room { 0 < self.old.room }
        requires children { All (λ child. child < length self.old.nodes) (children (plain_node node)) }
        ensures number { result.0 ≡ length self.old.nodes }
        ensures nodes { self.new.nodes ≡ self.old.nodes ++ plain_node node ∷ [] }
        ensures room { self.new.room ≡ self.old.room - 1 }
    {
        let number = self.len();
        self.items.push(node);
        NodeId(number)
    }

    /// Makes room for at least so many more nodes. On refusal all is as before.
    pub fn reserve(&mut self, room: u32) -> Result<(), Memory>
        requires { length self.old.nodes + room ≤ most_nodes }
        ensures nodes { self.new.nodes ≡ self.old.nodes }
        ensures ok { OnOk result (self.new.room ≡ max self.old.room room) }
        ensures err { OnErr result (self.new.room ≡ self.old.room) }
    {
        self.items.reserve(room as usize)
    }
}
