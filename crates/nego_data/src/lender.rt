//! The rows of an outcome's table, lent as sets of joint data.
ghost use Rattle.std.specs.Prelude.{◌≡◌, ℕ, ◌+◌, ◌-◌, ◌<◌, ◌≤◌, [], length, slice_index, slice_index_or, true, All, IfOk, MatchOption};
ghost use Rattle.nego_base.specs.Members.{is_in, IsRisingBelow};
ghost use Rattle.nego_data.specs.Parts.{widened, IsPart};
ghost use Rattle.nego_data.specs.Lent.{spread_of, AreNarrower, IsMoved};

use crate::Sizes;
use crate::data_set::DataSet;
use crate::parts::{are_same, part_number};
use crate::rows::Rows;
use nego_base::{AgentSet, Memory, Seq};
use std::alloc::Global;
use std::marker::Model;

/// The table of an outcome, ready to lend its rows. Contracts see the table.
#[derive(Debug, Drop)]
pub struct Lender<'a> {
    sizes: Sizes,
    parties: AgentSet,
    part: Sizes,
    rows: &'a Rows,
    spread: Option<Seq<u16>>,
}

impl<'a> Model for Lender<'a> {
    ghost use Rattle.std.specs.Prelude.{ℕ, List};
    ghost use Rattle.nego_data.specs.Parts.{widened};
    ghost use Rattle.nego_data.specs.Lent.{IsLent};

    ghost Value = { List (List ℕ) };

    ghost view = { λ l. widened l.parties l.sizes l.rows.now };

    ghost invariant = { λ l. IsLent l.parties l.sizes l.part l.rows.now l.spread };
}

impl<'a> Lender<'a> {
    /// The table that rows of the parties' values are.
    pub(crate) fn new(
        alloc: Global,
        sizes: &Sizes,
        parties: AgentSet,
        part: &Sizes,
        rows: &'a Rows,
    ) -> Result<Lender<'a>, Memory>
        requires { IsPart parties sizes.now part.now rows.now }
        ensures { IfOk result (λ lender. lender ≡ widened parties sizes.now rows.now) }
    {
        let spread = spread_where_narrower(alloc, sizes, part)?;
        Ok(Lender {
            sizes: *sizes,
            parties,
            part: *part,
            rows,
            spread,
        })
    }

    /// The joint data to which d is related. d is below the number of joint data.
    pub fn row(&self, d: u16) -> DataSet
        requires { d < length self.now }
        ensures { result ≡ slice_index_or self.now d [] }
    {
        match &self.spread {
            None => self.rows.row(d),
            Some(spread) => {
                let values = self.sizes.split(d);
                let number = part_number(self.parties, &self.part, &values);
                moved_row(&self.rows.row(number), spread.as_slice(), d, number)
            }
        }
    }
}

/// For each number of the parties' values the joint data with these values in which everyone else has 0; `None` where
/// everyone is a party.
fn spread_where_narrower(
    alloc: Global,
    sizes: &Sizes,
    part: &Sizes,
) -> Result<Option<Seq<u16>>, Memory>
    requires { AreNarrower part.now sizes.now }
    ensures { IfOk result (λ spread. MatchOption spread (part.now ≡ sizes.now) (λ s. s ≡ spread_of sizes.now part.now)) }
{
    if are_same(part, sizes) {
        return Ok(None);
    }
    let spread = spread_of(alloc, sizes, part)?;
    Ok(Some(spread))
}

/// For each number of the parties' values the joint data with these values in which everyone else has 0.
fn spread_of(alloc: Global, sizes: &Sizes, part: &Sizes) -> Result<Seq<u16>, Memory>
    requires { AreNarrower part.now sizes.now }
    ensures { IfOk result (λ spread. spread ≡ spread_of sizes.now part.now) }
{
    let mut spread = Seq::new(alloc);
    for n in 0..part.all() {
        spread.push(sizes.joint(&part.split(n)))?;
    }
    Ok(spread)
}

/// The numbers of a row, each moved from where the number stands to where d is.
fn moved_row(row: &DataSet, spread: &[u16], d: u16, number: u16) -> DataSet
    requires number { number < length spread.now }
    requires few { length spread.now ≤ 1024 }
    requires small { All (λ e. e < 1024) spread.now }
    requires start { d < 1024 }
    requires fits { (n : ℕ) → is_in n row.now ≡ true → (n < length spread.now) × (slice_index spread.now number ≤ d + slice_index spread.now n) × (d + slice_index spread.now n < slice_index spread.now number + 1024) }
    ensures { IsMoved row.now spread.now d number result }
{
    let none = DataSet::none();
    let base = spread[number as usize];
    let mut moved = DataSet::none();
    let mut from = 0;
    while let Some(n) = row.least_besides(&none, from) {
        moved.insert(d + spread[n as usize] - base);
        from = n + 1;
    }
    moved
}
