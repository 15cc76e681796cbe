//! The answers of a summary.
ghost use Rattle.std.specs.Prelude.{◌≡◌, ◌↔◌, ◌^◌, ◌<◌, ◌≤◌, ◌++◌, length, map, IfOk, OnOk, IsTrue};
ghost use Rattle.std.specs.List.{filter, range_with_len};
ghost use Rattle.nego_base.specs.Members.{is_in};
ghost use Rattle.nego_data.specs.Data.{data_count};
ghost use Rattle.nego_model.specs.Diagram.{relation_of};
ghost use Rattle.nego_model.specs.Summary.{IsFormed};
ghost use Rattle.nego_expr.specs.SummaryText.{plain_summary};
ghost use Rattle.nego_eval.specs.Answers.{IsAnswer, AreAnswers};

use crate::making::Making;
use crate::rows::{Pair, Rows};
use nego_base::{Memory, Seq};
use nego_data::DataSet;
use nego_expr::Summary;
use nego_model::Diagram;
use std::alloc::Global;

/// Pairs of the place of a final outcome and joint data.
pub type Answers = Seq<(u32, u16)>;

/// The final outcomes, by their places, and the joint data to which the start is related by their nodes, in rising
/// order. Only rows that are needed are made, each once.
pub fn ask(alloc: Global, d: &Diagram, s: &Summary, start: u16) -> Result<Answers, Memory>
    requires formed { IsFormed (length d.now.outcomes) (plain_summary s.now) }
    requires few { length s.now.finals < 2 ^ 32 }
    requires start { start < data_count d.now.sizes }
    ensures { IfOk result (λ answers. AreAnswers (relation_of d.now) (plain_summary s.now) start answers) }
{
    let mut making = Making::new(alloc, d, &s.nodes)?;
    let mut answers = Seq::new(alloc);
    for (place, outcome) in s.finals.as_slice().iter().enumerate() {
        let pair = Pair {
            node: outcome.node,
            start,
        };
        making.make(pair)?;
        add_row(
            &mut answers,
            place as u32,
            making.rows.get(pair),
            making.rows.joint,
        )?;
    }
    Ok(answers)
}

/// Adds the pairs of a place and each joint data that is in a row, in their order.
fn add_row(answers: &mut Answers, place: u32, row: &DataSet, joint: u16) -> Result<(), Memory>
    requires { joint ≤ 1024 }
    ensures { OnOk result (answers.new ≡ answers.old ++ map (λ e. (place, e)) (filter (λ e. is_in e row.now) (range_with_len 0 joint))) }
{
    for e in 0..joint {
        if row.has(e) {
            answers.push((place, e))?;
        }
    }
    Ok(())
}

/// Whether the final outcome at a place relates the start to the end.
pub fn holds(
    alloc: Global,
    d: &Diagram,
    s: &Summary,
    place: u32,
    start: u16,
    end: u16,
) -> Result<bool, Memory>
    requires formed { IsFormed (length d.now.outcomes) (plain_summary s.now) }
    requires place { place < length s.now.finals }
    requires start { start < data_count d.now.sizes }
    requires end { end < data_count d.now.sizes }
    ensures { IfOk result (λ related. IsTrue related ↔ IsAnswer (relation_of d.now) (plain_summary s.now) start place end) }
{
    let pair = Pair {
        node: s.finals[place as usize].node,
        start,
    };
    let mut making = Making::new(alloc, d, &s.nodes)?;
    making.make(pair)?;
    Ok(making.rows.get(pair).has(end))
}
