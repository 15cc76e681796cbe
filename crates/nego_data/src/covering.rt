//! Which joint data a case covers.
ghost use Rattle.std.specs.Prelude.{◌≡◌, ◌<◌, not, find, All};
ghost use Rattle.std.specs.List.{list_any, range_with_len};
ghost use Rattle.nego_data.specs.BitRows.{is_set};
ghost use Rattle.nego_data.specs.Data.{data_count};
ghost use Rattle.nego_data.specs.Parts.{part_number, part_sizes};
ghost use Rattle.nego_data.specs.Sizes.{tuple_of};
ghost use Rattle.nego_data.specs.Cases.{covers, test_holds, operand_value, compares};
ghost use Rattle.nego_data.specs.CaseForm.{TestBelow, OperandBelow};

use crate::Sizes;
use crate::bit_row::BitRow;
use crate::cases::{Case, Operand, Test};
use crate::parts::part_number;
use crate::places::place_of;
use nego_base::{AgentSet, Op};

/// The least joint data that no case covers.
pub(crate) fn first_uncovered(sizes: &Sizes, cases: &[Case]) -> Option<u16>
    requires { All (λ case. All (TestBelow 16) case.tests) cases.now }
    ensures { result ≡ find (λ d. not (list_any (λ case. covers case (tuple_of sizes.now d)) cases.now)) (range_with_len 0 (data_count sizes.now)) }
{
    (0..sizes.all()).find(|d| !any_covers(cases, &sizes.split(*d)))
}

/// The least joint data whose parties' values aren't in the set.
pub(crate) fn first_outside(
    sizes: &Sizes,
    parties: AgentSet,
    part: &Sizes,
    set: &BitRow,
) -> Option<u16>
    requires { part.now ≡ part_sizes parties sizes.now }
    ensures { result ≡ find (λ d. not (is_set set.now.words (part_number parties sizes.now d))) (range_with_len 0 (data_count sizes.now)) }
{
    (0..sizes.all()).find(|d| is_outside(sizes, parties, part, set, *d))
}

/// Whether the parties' values in these joint data aren't in the set.
fn is_outside(sizes: &Sizes, parties: AgentSet, part: &Sizes, set: &BitRow, d: u16) -> bool
    requires part { part.now ≡ part_sizes parties sizes.now }
    requires below { d < data_count sizes.now }
    ensures { result ≡ not (is_set set.now.words (part_number parties sizes.now d)) }
{
    let _all = part.all();
    !set.has(part_number(parties, part, &sizes.split(d)))
}

/// Whether some case covers the values.
fn any_covers(cases: &[Case], values: &[u16; 16]) -> bool
    requires { All (λ case. All (TestBelow 16) case.tests) cases.now }
    ensures { result ≡ list_any (λ case. covers case values.now) cases.now }
{
    cases.iter().any(|case| covers(case, values))
}

/// Whether all comparisons of the case hold of the values.
fn covers(case: &Case, values: &[u16; 16]) -> bool
    requires { All (TestBelow 16) case.now.tests }
    ensures { result ≡ covers case.now values.now }
{
    case.tests.iter().all(|test| test_holds(test, values))
}

/// Whether the comparison holds of the values.
pub(crate) fn test_holds(test: &Test, values: &[u16; 16]) -> bool
    requires { TestBelow 16 test.now }
    ensures { result ≡ test_holds test.now values.now }
{
    let left = u32::from(values[place_of(test.agent)]);
    compares(test.op, left, operand_value(test.right, values))
}

/// The number on the right of a comparison.
fn operand_value(operand: Operand, values: &[u16; 16]) -> u32
    requires { OperandBelow 16 operand }
    ensures { result ≡ operand_value operand values.now }
{
    match operand {
        Operand::Number(n) => n,
        Operand::Value(b) => u32::from(values[place_of(b)]),
    }
}

/// Whether the comparison of the numbers holds.
fn compares(op: Op, left: u32, right: u32) -> bool
    ensures { result ≡ compares op left right }
{
    match op {
        Op::Eq => left == right,
        Op::Ne => left != right,
        Op::Lt => left < right,
        Op::Le => left <= right,
        Op::Gt => left > right,
        Op::Ge => left >= right,
    }
}
