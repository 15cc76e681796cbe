//! Rows in the making.
ghost use Rattle.std.specs.Prelude.{◌≡◌, ℕ, ◌<◌, ◌≤◌, ◌||◌, ◌==◌, false, true, slice_get, Some, MatchOption, IfErr, IfSome, OnOk};
ghost use Rattle.nego_base.specs.Members.{is_in};
ghost use Rattle.nego_data.specs.DataSets.{IsNoneBesides};
ghost use Rattle.nego_model.specs.Expression.{Join, Then, Star};
ghost use Rattle.nego_eval.specs.Begun.{IsRowOf};
ghost use Rattle.nego_eval.specs.Rows.{lacked};
ghost use Rattle.nego_eval.specs.Asked.{Asks};
ghost use Rattle.nego_eval.specs.Frames.{AreRows, IsPair, IsRowAt, IsWanted, IsFrame, StepsBy, IsThrough, IsClosing, meaning};

use crate::rows::{Pair, Rows};
use nego_base::NodeId;
use nego_data::DataSet;
use nego_expr::Node;

/// A row in the making: the joint data that were met so far, and those that were followed.
#[derive(Debug, Drop)]
pub(crate) struct Frame {
    pub(crate) pair: Pair,
    pub(crate) met: DataSet,
    pub(crate) followed: DataSet,
}

impl Frame {
    /// The row of a pair before anything is met.
    pub(crate) fn new(pair: Pair) -> Frame
        ensures pair { result.pair ≡ pair }
        ensures met { (e : ℕ) → is_in e result.met ≡ false }
        ensures followed { (e : ℕ) → is_in e result.followed ≡ false }
    {
        Frame {
            pair,
            met: DataSet::none(),
            followed: DataSet::none(),
        }
    }

    /// Goes on with the row until it is whole, or until the row of another pair is wanted, which it answers.
    pub(crate) fn advance(&mut self, rows: &Rows) -> Result<(), Pair>
        requires rows { AreRows rows.now }
        requires frame { IsFrame rows.now self.old }
        ensures pair { self.new.pair ≡ self.old.pair }
        ensures frame { IsFrame rows.now self.new }
        ensures row { OnOk result (IsRowAt rows.now self.old.pair self.new.met) }
        ensures wanted { IfErr result (λ wanted. IsWanted rows.now self.old.pair wanted) }
    {
        match rows.nodes.get(self.pair.node) {
            None => unreachable!(),
            Some(Node::Base(o)) => {
                self.met = rows.base(o, self.pair.start);
                Ok(())
            }
            Some(Node::Join(one, two)) => self.join(rows, one, two),
            Some(Node::Then(first, second)) => self.through(rows, first, second),
            Some(Node::Star(child)) => self.close(rows, child),
        }
    }

    /// What either node relates.
    fn join(&mut self, rows: &Rows, one: NodeId, two: NodeId) -> Result<(), Pair>
        requires rows { AreRows rows.now }
        requires there { IsPair rows.now self.old.pair }
        requires one { one.0 < self.old.pair.node.0 }
        requires two { two.0 < self.old.pair.node.0 }
        requires node { slice_get rows.now.nodes.now.nodes self.old.pair.node.0 ≡ Some (Join one.0 two.0) }
        ensures pair { self.new.pair ≡ self.old.pair }
        ensures row { OnOk result (IsRowAt rows.now self.old.pair self.new.met) }
        ensures wanted { IfErr result (λ wanted. IsWanted rows.now self.old.pair wanted) }
    {
        let start = self.pair.start;
        let ones = rows.find(Pair { node: one, start })?;
        let twos = rows.find(Pair { node: two, start })?;
        let mut met = DataSet::none();
        met.add(ones);
        met.add(twos);
        self.met = met;
        Ok(())
    }

    /// What the first node relates, and then the second.
    fn through(&mut self, rows: &Rows, first: NodeId, second: NodeId) -> Result<(), Pair>
        requires rows { AreRows rows.now }
        requires through { IsThrough rows.now self.old first.0 second.0 }
        ensures pair { self.new.pair ≡ self.old.pair }
        ensures steps { StepsBy rows.now self.new second.0 }
        ensures row { OnOk result (IsRowAt rows.now self.old.pair self.new.met) }
        ensures wanted { IfErr result (λ wanted. IsWanted rows.now self.old.pair wanted) }
    {
        let start = self.pair.start;
        let middle = rows.find(Pair { node: first, start })?;
        let is_loop = begins_with_star(rows, first) || begins_with_star(rows, second);
        self.take_kept(rows, first, second, middle);
        while let Some(y) = self.left_of(middle, is_loop) {
            self.follow(rows, second, y)?;
        }
        Ok(())
    }

    /// Takes the node's own rows that are kept, where the first node is a star and nothing was followed yet.
    fn take_kept(&mut self, rows: &Rows, first: NodeId, second: NodeId, middle: &DataSet)
        requires rows { AreRows rows.now }
        requires through { IsThrough rows.now self.old first.0 second.0 }
        requires middle { IsRowOf (meaning rows.now first.0) rows.now.joint self.old.pair.start middle.now }
        ensures pair { self.new.pair ≡ self.old.pair }
        ensures through { IsThrough rows.now self.new first.0 second.0 }
    {
        if is_star(rows, first) && self.is_new() {
            self.take_from(rows, first, second, middle);
            self.take_before(rows, first, second, middle);
        }
    }

    /// Whether nothing was followed yet.
    fn is_new(&self) -> bool {
        self.followed.least_besides(&DataSet::none(), 0).is_none()
    }

    /// Takes the node's own rows that are kept from the numbers between, from the start on: the first has most of the others.
    fn take_from(&mut self, rows: &Rows, first: NodeId, second: NodeId, middle: &DataSet)
        requires rows { AreRows rows.now }
        requires through { IsThrough rows.now self.old first.0 second.0 }
        requires middle { IsRowOf (meaning rows.now first.0) rows.now.joint self.old.pair.start middle.now }
        ensures pair { self.new.pair ≡ self.old.pair }
        ensures through { IsThrough rows.now self.new first.0 second.0 }
    {
        let mut from = self.pair.start;
        while let Some(y) = middle.least_besides(&self.followed, from) {
            self.take(rows, first, second, y);
            from = y + 1;
        }
    }

    /// The same of the numbers before the start, from the last to the first.
    fn take_before(&mut self, rows: &Rows, first: NodeId, second: NodeId, middle: &DataSet)
        requires rows { AreRows rows.now }
        requires through { IsThrough rows.now self.old first.0 second.0 }
        requires middle { IsRowOf (meaning rows.now first.0) rows.now.joint self.old.pair.start middle.now }
        ensures pair { self.new.pair ≡ self.old.pair }
        ensures through { IsThrough rows.now self.new first.0 second.0 }
    {
        let mut end = self.pair.start;
        while let Some(y) = last_besides(middle, &self.followed, 0, end) {
            self.take(rows, first, second, y);
            end = y;
        }
    }

    /// Where the first node is a star, and the node's own row from a number is kept, takes that row, and follows all that
    /// the star relates to the number at once.
    fn take(&mut self, rows: &Rows, first: NodeId, second: NodeId, y: u16)
        requires rows { AreRows rows.now }
        requires through { IsThrough rows.now self.old first.0 second.0 }
        requires start { y < rows.now.joint }
        requires between { meaning rows.now first.0 self.old.pair.start y }
        ensures pair { self.new.pair ≡ self.old.pair }
        ensures through { IsThrough rows.now self.new first.0 second.0 }
    {
        let node = self.pair.node;
        let start = y;
        if let Some(Node::Star(_)) = rows.nodes.get(first) {
            if let Ok(whole) = rows.find(Pair { node, start }) {
                if let Ok(closed) = rows.find(Pair { node: first, start }) {
                    self.met.add(whole);
                    self.followed.add(closed);
                }
            }
        }
    }

    /// A number that wasn't followed. Beside a loop it is the last from the start on, or the first before it: so rows from
    /// which later ones may take most are made first, where the loop counts up or down.
    fn left_of(&self, middle: &DataSet, is_loop: bool) -> Option<u16>
        requires { self.now.pair.start ≤ 1024 }
        ensures { MatchOption result (IsNoneBesides (λ e. is_in e middle.now) (λ e. is_in e self.now.followed) 0 1024) (λ y. (is_in y middle.now ≡ true) × (is_in y self.now.followed ≡ false)) }
    {
        if is_loop {
            if let Some(y) = last_besides(middle, &self.followed, self.pair.start, 1024) {
                return Some(y);
            }
        }
        middle.least_besides(&self.followed, 0)
    }

    /// What the node relates any number of times. Each number is followed once.
    fn close(&mut self, rows: &Rows, child: NodeId) -> Result<(), Pair>
        requires rows { AreRows rows.now }
        requires closing { IsClosing rows.now self.old child.0 }
        ensures pair { self.new.pair ≡ self.old.pair }
        ensures steps { StepsBy rows.now self.new child.0 }
        ensures row { OnOk result (IsRowAt rows.now self.old.pair self.new.met) }
        ensures wanted { IfErr result (λ wanted. IsWanted rows.now self.old.pair wanted) }
    {
        self.met.insert(self.pair.start);
        while let Some(y) = self.next() {
            self.step(rows, child, y)?;
        }
        Ok(())
    }

    /// A number that was met and not followed, from the start on where there is one: the rows from there are kept sooner.
    fn next(&self) -> Option<u16>
        requires { self.now.pair.start ≤ 1024 }
        ensures { MatchOption result (IsNoneBesides (λ e. is_in e self.now.met) (λ e. is_in e self.now.followed) 0 1024) (λ y. (is_in y self.now.met ≡ true) × (is_in y self.now.followed ≡ false)) }
    {
        if let Some(y) = self.met.least_besides(&self.followed, self.pair.start) {
            return Some(y);
        }
        self.met.least_besides(&self.followed, 0)
    }

    /// Follows a number that a star has met: where the star's row from there is kept, all of it is followed at once. The
    /// rows of greater starts are asked for first, so that most of a row is taken from others.
    fn step(&mut self, rows: &Rows, child: NodeId, y: u16) -> Result<(), Pair>
        requires rows { AreRows rows.now }
        requires closing { IsClosing rows.now self.old child.0 }
        requires met { is_in y self.old.met ≡ true }
        requires fresh { is_in y self.old.followed ≡ false }
        ensures pair { self.new.pair ≡ self.old.pair }
        ensures steps { StepsBy rows.now self.new child.0 }
        ensures grows { (e : ℕ) → is_in e self.old.met ≡ true → is_in e self.new.met ≡ true }
        ensures fewer { OnOk result (lacked self.new.followed < lacked self.old.followed) }
        ensures wanted { IfErr result (λ wanted. IsWanted rows.now self.old.pair wanted) }
    {
        let other = Pair {
            node: self.pair.node,
            start: y,
        };
        match rows.find(other) {
            Ok(closed) => {
                self.met.add(closed);
                self.followed.add(closed);
                self.followed.insert(y);
                Ok(())
            }
            Err(wanted) => {
                if self.pair.start < y {
                    return Err(wanted);
                }
                self.follow(rows, child, y)
            }
        }
    }

    /// Follows a number by the next step: all that the child relates to it is met.
    fn follow(&mut self, rows: &Rows, child: NodeId, y: u16) -> Result<(), Pair>
        requires rows { AreRows rows.now }
        requires steps { StepsBy rows.now self.old child.0 }
        requires start { y < rows.now.joint }
        requires fresh { is_in y self.old.followed ≡ false }
        requires sound { (e : ℕ) → meaning rows.now child.0 y e → meaning rows.now self.old.pair.node.0 self.old.pair.start e }
        requires asks { Asks (meaning rows.now) rows.now.nodes.now.nodes self.old.pair (record { node = child; start = y }) }
        ensures pair { self.new.pair ≡ self.old.pair }
        ensures steps { StepsBy rows.now self.new child.0 }
        ensures grows { (e : ℕ) → is_in e self.old.met ≡ true → is_in e self.new.met ≡ true }
        ensures followed { OnOk result ((e : ℕ) → is_in e self.new.followed ≡ (y == e || is_in e self.old.followed)) }
        ensures fewer { OnOk result (lacked self.new.followed < lacked self.old.followed) }
        ensures wanted { IfErr result (λ wanted. IsWanted rows.now self.old.pair wanted) }
    {
        let row = rows.find(Pair {
            node: child,
            start: y,
        })?;
        self.met.add(row);
        self.followed.insert(y);
        Ok(())
    }
}

/// Whether the node is a star, or a composition whose first node is one.
fn begins_with_star(rows: &Rows, node: NodeId) -> bool {
    match rows.nodes.get(node) {
        Some(Node::Then(first, _)) => is_star(rows, first),
        _ => is_star(rows, node),
    }
}

/// Whether the node is a star.
fn is_star(rows: &Rows, node: NodeId) -> bool {
    matches!(rows.nodes.get(node), Some(Node::Star(_)))
}

/// A number from one on and below an end that is in the set and not in the other. It is the last: each search halves what
/// is left.
fn last_besides(set: &DataSet, other: &DataSet, from: u16, end: u16) -> Option<u16>
    requires { end ≤ 1024 }
    ensures within { IfSome result (λ y. is_in y set.now ≡ true) }
    ensures without { IfSome result (λ y. is_in y other.now ≡ false) }
    ensures below { IfSome result (λ y. y < end) }
{
    let mut last = None;
    let mut low = from;
    let mut high = end;
    while low < high {
        let mid = low + (high - low) / 2;
        match found_below(set, other, mid, high) {
            Some(y) => {
                last = Some(y);
                low = y + 1;
            }
            None => high = mid,
        }
    }
    last
}

/// The least number from one on that is in the set and not in the other, where it is below an end.
fn found_below(set: &DataSet, other: &DataSet, from: u16, end: u16) -> Option<u16>
    requires { from ≤ 1024 }
    ensures within { IfSome result (λ y. is_in y set.now ≡ true) }
    ensures without { IfSome result (λ y. is_in y other.now ≡ false) }
    ensures range { IfSome result (λ y. (from ≤ y) × (y < end)) }
{
    let y = set.least_besides(other, from)?;
    if y < end { Some(y) } else { None }
}
