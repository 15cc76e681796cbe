//! Joint data in a text.

ghost use Rattle.std.specs.Prelude.{◌++◌, ◌<◌, codes, decimal, OnOk};
ghost use Rattle.nego_base.specs.Appending.{Appends};
ghost use Rattle.nego_data.specs.Data.{data_count, split};
ghost use Rattle.nego_cli.specs.Refusals.{value_words};

use nego_base::{Memory, Text};
use nego_data::Sizes;

/// Adds the values of the agents in joint data, each behind a blank.
pub(crate) fn add_joint(text: &mut Text, sizes: &Sizes, d: u16) -> Result<(), Memory>
    requires { d < data_count sizes.now }
    ensures { OnOk result (Appends text.old text.new (value_words (split sizes.now d))) }
{
    let values = sizes.split(d);
    add_numbers(text, &values[..sizes.count() as usize])
}

/// Adds numbers, each behind a blank.
fn add_numbers(text: &mut Text, numbers: &[u16]) -> Result<(), Memory>
    ensures { OnOk result (Appends text.old text.new (value_words numbers.now)) }
{
    for n in numbers {
        add_number(text, *n)?;
    }
    Ok(())
}

/// Adds a number behind a blank.
fn add_number(text: &mut Text, n: u16) -> Result<(), Memory>
    ensures { OnOk result (Appends text.old text.new (λ rest. codes " " ++ (decimal n ++ rest))) }
{
    text.extend_from_slice(b" ")?;
    text.push_decimal(u64::from(n))
}
