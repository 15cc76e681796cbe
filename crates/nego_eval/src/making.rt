//! The making of rows: what is still to be made stands on a list of its own.
ghost use Rattle.std.specs.Prelude.{◌≡◌, ◌<◌, List, length, All, IfOk, OnOk, IsSome, ⊤};
ghost use Rattle.std.specs.List.{Contains};
ghost use Rattle.nego_model.specs.Expression.{IsNodeList, NodeBases};
ghost use Rattle.nego_eval.specs.Kept.{open_places};
ghost use Rattle.nego_eval.specs.Frames.{AreAlike, IsPair, IsFrame, kept_row};
ghost use Rattle.nego_eval.specs.Making.{AreMaking, AreAsked, IsAskedOf};

use crate::frame::Frame;
use crate::rows::{Pair, Rows};
use nego_base::{Memory, Seq};
use nego_expr::Nodes;
use nego_model::Diagram;
use std::alloc::Global;

/// Rows that are kept, and rows in the making that wait for others.
#[derive(Debug, Drop)]
pub(crate) struct Making<'a> {
    pub(crate) rows: Rows<'a>,
    pub(crate) waiting: Seq<Frame>,
}

impl<'a> Making<'a> {
    /// No row yet.
    pub(crate) fn new(
        alloc: Global,
        diagram: &'a Diagram,
        nodes: &'a Nodes,
    ) -> Result<Making<'a>, Memory>
        requires below { IsNodeList nodes.now.nodes }
        requires bases { All (NodeBases (λ o. o < length diagram.now.outcomes) (λ i. ⊤)) nodes.now.nodes }
        ensures making { IfOk result AreMaking }
        ensures diagram { IfOk result (λ making. making.rows.diagram.now ≡ diagram.now) }
        ensures nodes { IfOk result (λ making. making.rows.nodes.now ≡ nodes.now) }
    {
        let rows = Rows::new(alloc, diagram, nodes)?;
        let waiting = Seq::new(alloc);
        Ok(Making { rows, waiting })
    }

    /// Makes rows until that of the pair is kept.
    pub(crate) fn make(&mut self, pair: Pair) -> Result<(), Memory>
        requires making { AreMaking self.old }
        requires there { IsPair self.old.rows pair }
        ensures alike { AreAlike self.old.rows self.new.rows }
        ensures making { OnOk result (AreMaking self.new) }
        ensures kept { OnOk result (IsSome (kept_row self.new.rows pair)) }
        ensures asked { OnOk result ((roots : List Pair) → Contains roots pair → AreAsked roots self.old → AreAsked roots self.new) }
    {
        while !self.rows.has(pair) {
            let frame = self.next(pair);
            self.finish(frame)?;
        }
        Ok(())
    }

    /// The latest row that waits and isn't made yet; where there is none, that of the pair.
    fn next(&mut self, pair: Pair) -> Frame
        requires making { AreMaking self.old }
        requires there { IsPair self.old.rows pair }
        requires vacant { kept_row self.old.rows pair ≡ None }
        ensures rows { self.new.rows ≡ self.old.rows }
        ensures making { AreMaking self.new }
        ensures asked { (roots : List Pair) → AreAsked roots self.old → AreAsked roots self.new }
        ensures frame { IsFrame self.old.rows result }
        ensures vacant { kept_row self.old.rows result.pair ≡ None }
        ensures wanted { (roots : List Pair) → Contains roots pair → AreAsked roots self.old → IsAskedOf self.old.rows roots result.pair }
    {
        while let Some(frame) = self.waiting.pop() {
            if !self.rows.has(frame.pair) {
                return frame;
            }
        }
        Frame::new(pair)
    }

    /// Makes a row, or one that it stands on; those that stand on it wait.
    fn finish(&mut self, first: Frame) -> Result<(), Memory>
        requires making { AreMaking self.old }
        requires frame { IsFrame self.old.rows first }
        requires vacant { kept_row self.old.rows first.pair ≡ None }
        ensures alike { AreAlike self.old.rows self.new.rows }
        ensures making { OnOk result (AreMaking self.new) }
        ensures fewer { OnOk result (open_places self.new.rows.kept < open_places self.old.rows.kept) }
        ensures asked { OnOk result ((roots : List Pair) → AreAsked roots self.old → IsAskedOf self.old.rows roots first.pair → AreAsked roots self.new) }
    {
        let mut frame = first;
        while let Err(wanted) = frame.advance(&self.rows) {
            self.waiting.push(frame)?;
            frame = Frame::new(wanted);
        }
        let Frame {
            pair,
            met,
            followed: _,
        } = frame;
        self.rows.keep(pair, met)
    }
}
