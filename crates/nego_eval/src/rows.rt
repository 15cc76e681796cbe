//! The rows of a summary's nodes.
ghost use Rattle.std.specs.Prelude.{◌≡◌, ◌⊎◌, ℕ, ◌<◌, length, map, All, IfOk, OnOk, IfErr, OnErr, IsTrue, is_some, IsSome, ⊤};
ghost use Rattle.std.specs.List.{range_with_len};
ghost use Rattle.nego_data.specs.Data.{data_count};
ghost use Rattle.nego_base.specs.Members.{is_in};
ghost use Rattle.nego_model.specs.Expression.{IsNodeList, NodeBases};
ghost use Rattle.nego_model.specs.Diagram.{relation_of, outcome_table};
ghost use Rattle.nego_eval.specs.Kept.{open_places};
ghost use Rattle.nego_eval.specs.Frames.{AreRows, AreAlike, IsPair, IsRowAt, kept_row, place_of};

use crate::kept::KeptRows;
use nego_base::{Memory, NodeId, OutcomeId, Seq};
use nego_data::{DataSet, Lender};
use nego_expr::Nodes;
use nego_model::Diagram;
use std::alloc::Global;

/// A node, and joint data from which it starts.
#[derive(Clone, Copy, Debug)]
pub(crate) struct Pair {
    pub(crate) node: NodeId,
    pub(crate) start: u16,
}

/// The rows of nodes over a diagram that are kept. The row of a node and a start has the joint data that the node
/// relates to the start.
#[derive(Debug, Drop)]
pub(crate) struct Rows<'a> {
    pub(crate) diagram: &'a Diagram,
    pub(crate) nodes: &'a Nodes,
    pub(crate) joint: u16,
    pub(crate) tables: Seq<Lender<'a>>,
    pub(crate) kept: KeptRows,
}

impl<'a> Rows<'a> {
    /// No row yet.
    pub(crate) fn new(
        alloc: Global,
        diagram: &'a Diagram,
        nodes: &'a Nodes,
    ) -> Result<Rows<'a>, Memory>
        requires below { IsNodeList nodes.now.nodes }
        requires bases { All (NodeBases (λ o. o < length diagram.now.outcomes) (λ i. ⊤)) nodes.now.nodes }
        ensures rows { IfOk result AreRows }
        ensures diagram { IfOk result (λ rows. rows.diagram.now ≡ diagram.now) }
        ensures nodes { IfOk result (λ rows. rows.nodes.now ≡ nodes.now) }
    {
        let joint = diagram.sizes().all();
        let tables = lenders(alloc, diagram)?;
        let kept = KeptRows::none(alloc, nodes.len() as usize * joint as usize)?;
        Ok(Rows {
            diagram,
            nodes,
            joint,
            tables,
            kept,
        })
    }

    /// The place of a pair.
    fn place(&self, pair: Pair) -> usize
        ensures { result ≡ place_of self.now pair }
    {
        pair.node.0 as usize * self.joint as usize + pair.start as usize
    }

    /// The row of a pair, or the pair again where it has none yet.
    pub(crate) fn find(&self, pair: Pair) -> Result<&DataSet, Pair>
        requires rows { AreRows self.now }
        requires there { IsPair self.now pair }
        ensures row { IfOk result (λ row. IsRowAt self.now pair row.now) }
        ensures wanted { IfErr result (λ wanted. wanted ≡ pair) }
        ensures vacant { OnErr result (kept_row self.now pair ≡ None) }
    {
        self.kept.get(self.place(pair)).ok_or(pair)
    }

    /// Whether the row of a pair is kept.
    pub(crate) fn has(&self, pair: Pair) -> bool
        requires rows { AreRows self.now }
        requires there { IsPair self.now pair }
        ensures { result ≡ is_some (kept_row self.now pair) }
    {
        self.kept.get(self.place(pair)).is_some()
    }

    /// The row of a pair, which is kept.
    pub(crate) fn get(&self, pair: Pair) -> &DataSet
        requires rows { AreRows self.now }
        requires there { IsPair self.now pair }
        requires kept { IsSome (kept_row self.now pair) }
        ensures { IsRowAt self.now pair result.now }
    {
        self.kept.get(self.place(pair)).unwrap()
    }

    /// Keeps the row of a pair that has none.
    pub(crate) fn keep(&mut self, pair: Pair, row: DataSet) -> Result<(), Memory>
        requires rows { AreRows self.old }
        requires there { IsPair self.old pair }
        requires vacant { kept_row self.old pair ≡ None }
        requires row { IsRowAt self.old pair row }
        ensures alike { AreAlike self.old self.new }
        ensures rows { OnOk result (AreRows self.new) }
        ensures fewer { OnOk result (open_places self.new.kept < open_places self.old.kept) }
        ensures only { OnOk result ((other : Pair) → IsPair self.old other → IsSome (kept_row self.new other) → IsSome (kept_row self.old other) ⊎ (other ≡ pair)) }
    {
        let place = self.place(pair);
        self.kept.keep(place, row)
    }

    /// The row of an outcome.
    pub(crate) fn base(&self, o: OutcomeId, start: u16) -> DataSet
        requires rows { AreRows self.now }
        requires outcome { o.0 < length self.now.diagram.now.outcomes }
        requires start { start < self.now.joint }
        ensures exact { (e : ℕ) → is_in e result ≡ relation_of self.now.diagram.now o.0 start e }
        ensures below { (e : ℕ) → IsTrue (is_in e result) → e < self.now.joint }
    {
        let _table = self.diagram.table(o);
        self.tables[o.0 as usize].row(start)
    }
}

/// The tables of all outcomes, ready to lend their rows.
fn lenders<'a>(alloc: Global, diagram: &'a Diagram) -> Result<Seq<Lender<'a>>, Memory>
    ensures { IfOk result (λ tables. tables ≡ map (outcome_table diagram.now) (range_with_len 0 (length diagram.now.outcomes))) }
{
    let mut tables = Seq::new(alloc);
    for o in 0..diagram.outcomes() {
        tables.push(diagram.table(OutcomeId(o)).lend(alloc)?)?;
    }
    Ok(tables)
}
