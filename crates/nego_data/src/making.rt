//! The rows of an outcome's cases.
ghost use Rattle.std.specs.Prelude.{◌≡◌, ◌≢◌, ℕ, ◌<◌, ◌≤◌, ◌&&◌, ◌||◌, ◌==◌, [], ◌∷◌, length, map, All, IsTrue, IfOk, IfErr};
ghost use Rattle.nego_data.specs.BitRows.{is_set};
ghost use Rattle.nego_data.specs.Data.{data_count};
ghost use Rattle.nego_data.specs.Tables.{IsTable, is_related};
ghost use Rattle.nego_data.specs.Cases.{covers, relates, rows_of};
ghost use Rattle.nego_data.specs.CaseForm.{AssignsOnce, AssignsBelow, IsNamedBelow, AllCovered, TestBelow, fault_of};
ghost use Rattle.std.specs.List.{list_all, range_with_len};
ghost use Rattle.nego_data.specs.Given.{is_above};
ghost use Rattle.nego_data.specs.Sizes.{tuple_of};
ghost use Rattle.nego_data.specs.Covered.{AreThose, IsKnown, TellsCovered, keep_all, keeps_all};
ghost use Rattle.nego_data.specs.Assignments.{IsApplied};
ghost use Rattle.nego_data.specs.Makers.{HasOffsets};
ghost use Rattle.nego_data.specs.declared.making.TableFault.TheVariants.{Memory as Starved};

use crate::Sizes;
use crate::applied::{Applied, applied_to, keep_applied};
use crate::bit_row::BitRow;
use crate::cases::Case;
use crate::covered::{Known, has_all, newly_covered};
use crate::giving::{FreeOffsets, free_agents, least_number, offsets_above};
use crate::rows::Rows;
use nego_base::{Memory, Seq};
use std::alloc::Global;
use thiserror::Error;

/// Why a table wasn't made.
#[derive(Clone, Copy, Debug, PartialEq, Eq, Error)]
pub enum TableFault {
    /// No case covers these joint data, the least such.
    #[error("no case covers some joint data")]
    NotTotal(u16),
    /// Want of memory.
    #[error("out of memory")]
    Memory,
}

impl From<Memory> for TableFault {
    ghost from_gives = { λ _ e. e ≡ Starved };

    fn from(_error: Memory) -> TableFault {
        TableFault::Memory
    }
}

/// Why there are no rows.
#[derive(Clone, Copy, Debug)]
pub(crate) enum NoRows {
    /// The cases cover just these joint data, and others there are.
    Covered(BitRow),
    /// Want of memory.
    Memory,
}

impl From<Memory> for NoRows {
    ghost use Rattle.nego_data.specs.declared.making.NoRows.TheVariants.{Memory as Starved};

    ghost from_gives = { λ _ e. e ≡ Starved };

    fn from(_error: Memory) -> NoRows {
        NoRows::Memory
    }
}

/// Why there is no table, by the least joint data that no case covers.
pub(crate) fn fault_of(uncovered: Option<u16>) -> TableFault
    ensures { result ≡ fault_of uncovered }
{
    match uncovered {
        Some(d) => TableFault::NotTotal(d),
        None => TableFault::Memory,
    }
}

/// The rows of the cases over joint data of these sizes, which have these values.
pub(crate) fn rows_of_cases(
    alloc: Global,
    sizes: &Sizes,
    values: &[[u16; 16]],
    known: &mut Seq<Known>,
    offsets: &mut Seq<FreeOffsets>,
    cases: &[Case],
) -> Result<Rows, NoRows>
    requires values { values.now ≡ map (tuple_of sizes.now) (range_with_len 0 (data_count sizes.now)) }
    requires known { All (IsKnown sizes.now) known.old }
    requires offsets { All (HasOffsets sizes.now) offsets.old }
    requires named { All (IsNamedBelow (length sizes.now)) cases.now }
    requires once { All AssignsOnce cases.now }
    requires fits { All (AssignsBelow sizes.now) cases.now }
    ensures rows { IfOk result (λ rows. rows ≡ rows_of sizes.now cases.now) }
    ensures covered { IfOk result (λ _. AllCovered sizes.now cases.now) }
    ensures err { IfErr result (TellsCovered sizes.now cases.now) }
    ensures known { All (IsKnown sizes.now) known.new }
    ensures offsets { All (HasOffsets sizes.now) offsets.new }
{
    let mut rows = Rows::empty(alloc, sizes.all())?;
    let mut applied = Seq::new(alloc);
    let mut covered = BitRow::none();
    for case in cases {
        add_new(
            &mut rows,
            &mut covered,
            &mut applied,
            known,
            offsets,
            sizes,
            values,
            case,
        );
    }
    if !has_all(sizes, &covered) {
        return Err(NoRows::Covered(covered));
    }
    Ok(rows)
}

/// Whether there is a case, and each covers all joint data and leaves them as they are.
pub(crate) fn keep_all(cases: &[Case]) -> bool
    ensures { result ≡ keep_all cases.now }
{
    !cases.is_empty() && each_keeps_all(cases)
}

fn each_keeps_all(cases: &[Case]) -> bool
    ensures { result ≡ list_all keeps_all cases.now }
{
    cases.iter().all(|case| keeps_all(case))
}

/// Whether the case covers all joint data and leaves them as they are, as it has no comparison and no assignment.
fn keeps_all(case: &Case) -> bool
    ensures { result ≡ keeps_all case.now }
{
    case.tests.is_empty() && case.sets.is_empty()
}

/// Relates and covers what the case does too. It isn't evaluated to the end where its assignments were applied to all that
/// it covers.
fn add_new<'a>(
    rows: &mut Rows,
    covered: &mut BitRow,
    applied: &mut Seq<Applied<'a>>,
    known: &mut Seq<Known>,
    offsets: &mut Seq<FreeOffsets>,
    sizes: &Sizes,
    values: &[[u16; 16]],
    case: &'a Case,
)
    requires few { data_count sizes.now ≤ 1024 }
    requires values { values.now ≡ map (tuple_of sizes.now) (range_with_len 0 (data_count sizes.now)) }
    requires tests { All (TestBelow 16) case.now.tests }
    requires named { IsNamedBelow (length sizes.now) case.now }
    requires once { AssignsOnce case.now }
    requires fits { AssignsBelow sizes.now case.now }
    requires table { IsTable (data_count sizes.now) rows.old }
    requires applied { All (IsApplied sizes.now rows.old) applied.old }
    requires known { All (IsKnown sizes.now) known.old }
    requires offsets { All (HasOffsets sizes.now) offsets.old }
    ensures table { IsTable (data_count sizes.now) rows.new }
    ensures related { (d e : ℕ) → d < data_count sizes.now → e < data_count sizes.now →
        is_related rows.new d e ≡ (is_related rows.old d e || relates sizes.now (case.now ∷ []) d e) }
    ensures covered { (d : ℕ) → d < data_count sizes.now → is_set covered.new.words d ≡ (is_set covered.old.words d || covers case.now (tuple_of sizes.now d)) }
    ensures applied { All (IsApplied sizes.now rows.new) applied.new }
    ensures known { All (IsKnown sizes.now) known.new }
    ensures offsets { All (HasOffsets sizes.now) offsets.new }
{
    let mut done = applied_to(applied.as_slice(), case);
    done.keep(covered);
    let Some(those) = newly_covered(known, sizes, values, case, &done) else {
        return;
    };
    covered.add(&those);
    add_case(rows, offsets, sizes, values, case, &those);
    keep_applied(applied, case, &those);
}

/// Relates what the case relates too, in a table of the sizes' joint data, of which it covers those.
fn add_case(
    rows: &mut Rows,
    offsets: &mut Seq<FreeOffsets>,
    sizes: &Sizes,
    values: &[[u16; 16]],
    case: &Case,
    those: &BitRow,
)
    requires values { values.now ≡ map (tuple_of sizes.now) (range_with_len 0 (data_count sizes.now)) }
    requires named { IsNamedBelow (length sizes.now) case.now }
    requires once { AssignsOnce case.now }
    requires fits { AssignsBelow sizes.now case.now }
    requires those { AreThose sizes.now (covers case.now) those.now.words }
    requires table { IsTable (data_count sizes.now) rows.old }
    requires offsets { All (HasOffsets sizes.now) offsets.old }
    ensures table { IsTable (data_count sizes.now) rows.new }
    ensures related { (d e : ℕ) → d < data_count sizes.now → e < data_count sizes.now →
        is_related rows.new d e ≡ (is_related rows.old d e || relates sizes.now (case.now ∷ []) d e) }
    ensures offsets { All (HasOffsets sizes.now) offsets.new }
{
    let all = sizes.all();
    let above = offsets_above(offsets, sizes, values, free_agents(case));
    for d in 0..all {
        if those.has(d) {
            let least = least_number(sizes, case, d, &values[d as usize]);
            relate(rows, d, least, &above);
        }
    }
}

/// Relates d to what is above the least by an offset.
fn relate(rows: &mut Rows, d: u16, least: u16, offsets: &Option<BitRow>)
    requires from { d < length rows.old }
    requires to { least < length rows.old }
    ensures table { IsTable (length rows.old) rows.new }
    ensures related { (c e : ℕ) → c < length rows.old → e < length rows.old →
        is_related rows.new c e ≡ (is_related rows.old c e || (c == d && is_above offsets.now least e)) }
{
    match offsets {
        None => rows.relate(d, least),
        Some(offsets) => rows.relate_all(d, least, offsets),
    }
}
