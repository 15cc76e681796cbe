//! What a choice picks among the outcomes of an atom and the joint data after.
ghost use Rattle.std.specs.Prelude.{◌≡◌, ◌<◌, nat_lt, length, slice_get, slice_index, IsTrue};
ghost use Rattle.nego_base.specs.Members.{is_in};
ghost use Rattle.nego_data.specs.Data.{data_count};
ghost use Rattle.nego_model.specs.Diagram.{IsDiagram, outcomes_from};
ghost use Rattle.agent_core.specs.Deciding.{related_by, open_outcomes, chosen_outcome, chosen_joint, reduced};

use crate::Choice;
use nego_base::{AtomId, OutcomeId};
use nego_model::Diagram;

/// Whether an outcome relates joint data to some.
fn is_open(d: &Diagram, o: OutcomeId, joint: u16) -> bool
    requires outcome { o.0 < length d.now.outcomes }
    requires joint { joint < data_count d.now.sizes }
    ensures { result ≡ nat_lt 0 (length (related_by d.now o.0 joint)) }
{
    d.table(o).nth(joint, 0).is_some()
}

/// How many outcomes of an atom are open at joint data: at least one.
fn open_count(d: &Diagram, n: AtomId, joint: u16) -> u32
    requires diagram { IsDiagram d.now }
    requires atom { n.0 < length d.now.atoms }
    requires joint { joint < data_count d.now.sizes }
    ensures value { result ≡ length (open_outcomes d.now n.0 joint) }
    ensures some { 0 < result }
{
    let (start, count) = d.outcomes_of(n);
    (start..start + count)
        .filter(|o| is_open(d, OutcomeId(*o), joint))
        .count() as u32
}

/// The open outcome of an atom at joint data of this place.
fn open_outcome(d: &Diagram, n: AtomId, joint: u16, k: u32) -> OutcomeId
    requires atom { n.0 < length d.now.atoms }
    requires joint { joint < data_count d.now.sizes }
    requires place { k < length (open_outcomes d.now n.0 joint) }
    ensures value { result.0 ≡ slice_index (open_outcomes d.now n.0 joint) k }
    ensures open { IsTrue (is_in result.0 (open_outcomes d.now n.0 joint)) }
{
    OutcomeId(nth_open(d, n, joint, k).unwrap())
}

/// The number of the open outcome of this place, where there is one.
fn nth_open(d: &Diagram, n: AtomId, joint: u16, k: u32) -> Option<u32>
    requires atom { n.0 < length d.now.atoms }
    requires joint { joint < data_count d.now.sizes }
    ensures { result ≡ slice_get (open_outcomes d.now n.0 joint) k }
{
    let (start, count) = d.outcomes_of(n);
    let mut open = (start..start + count).filter(|o| is_open(d, OutcomeId(*o), joint));
    open.nth(k as usize)
}

/// What a choice picks: its numbers reduced, the outcome, and the joint data after it.
#[derive(Debug, Drop)]
pub(crate) struct Picked {
    pub(crate) choice: Choice,
    pub(crate) outcome: OutcomeId,
    pub(crate) joint: u16,
}

/// What a choice picks among the open outcomes of an atom at joint data, and among the data to which the outcome leads.
pub(crate) fn pick(d: &Diagram, n: AtomId, joint: u16, c: Choice) -> Picked
    requires diagram { IsDiagram d.now }
    requires atom { n.0 < length d.now.atoms }
    requires joint { joint < data_count d.now.sizes }
    ensures choice { result.choice ≡ reduced d.now n.0 joint c }
    ensures outcome { result.outcome.0 ≡ chosen_outcome d.now n.0 joint c }
    ensures joint { result.joint ≡ chosen_joint d.now n.0 joint c }
    ensures in_range { result.joint < data_count d.now.sizes }
    ensures own { IsTrue (is_in result.outcome.0 (outcomes_from 0 d.now.outcomes n.0)) }
    ensures related { IsTrue (is_in result.joint (related_by d.now result.outcome.0 joint)) }
{
    let outcome = c.outcome % open_count(d, n, joint);
    let o = open_outcome(d, n, joint, outcome);
    let count = related_count(d, o, joint);
    let pick = c.pick % count;
    Picked {
        choice: Choice { outcome, pick },
        outcome: o,
        joint: related_joint(d, o, joint, pick),
    }
}

/// To how many joint data an outcome relates joint data.
fn related_count(d: &Diagram, o: OutcomeId, joint: u16) -> u32
    requires outcome { o.0 < length d.now.outcomes }
    requires joint { joint < data_count d.now.sizes }
    ensures { result ≡ length (related_by d.now o.0 joint) }
{
    d.table(o).count(joint) as u32
}

/// The joint data of this place among those to which an outcome relates joint data.
fn related_joint(d: &Diagram, o: OutcomeId, joint: u16, k: u32) -> u16
    requires outcome { o.0 < length d.now.outcomes }
    requires joint { joint < data_count d.now.sizes }
    requires place { k < length (related_by d.now o.0 joint) }
    ensures value { result ≡ slice_index (related_by d.now o.0 joint) k }
    ensures in_range { result < data_count d.now.sizes }
    ensures related { IsTrue (is_in result (related_by d.now o.0 joint)) }
{
    let table = d.table(o);
    let _count = table.count(joint);
    table.nth(joint, k as u16).unwrap()
}
