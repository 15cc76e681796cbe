//! The text of a certificate.
ghost use Rattle.std.specs.Prelude.{◌≡◌, ◌++◌, decimal, map, IfOk, OnOk};
ghost use Rattle.nego_base.specs.Appending.{Appends};
ghost use Rattle.nego_expr.specs.UseView.{plain_use};
ghost use Rattle.nego_cert.specs.CertificateText.{certificate_text, use_line, use_lines};

use nego_base::{Memory, Text};
use nego_expr::{Use, Uses};
use std::alloc::Global;

/// The text of a certificate of the uses.
pub fn print_cert(alloc: Global, uses: &Uses) -> Result<Text, Memory>
    ensures { IfOk result (λ text. text ≡ certificate_text (map plain_use uses.now)) }
{
    let mut text = Text::copy(alloc, b"certificate 1\n")?;
    add_uses(&mut text, uses.as_slice())?;
    text.extend_from_slice(b"end\n")?;
    Ok(text)
}

/// Adds a line for each use.
fn add_uses(text: &mut Text, uses: &[Use]) -> Result<(), Memory>
    ensures { OnOk result (Appends text.old text.new (use_lines (map plain_use uses.now))) }
{
    for u in uses {
        add_use(text, *u)?;
    }
    Ok(())
}

/// Adds the line of a use.
fn add_use(text: &mut Text, u: Use) -> Result<(), Memory>
    ensures { OnOk result (Appends text.old text.new (use_line (plain_use u))) }
{
    match u {
        Use::Merge(o1, o2) => {
            add_words(text, b"merge ", o1.0)?;
            add_words(text, b" ", o2.0)?;
        }
        Use::Iterate(o) => add_words(text, b"iterate ", o.0)?,
        Use::Shortcut(o, n) => {
            add_words(text, b"shortcut ", o.0)?;
            add_words(text, b" ", n.0)?;
        }
        Use::Close => text.extend_from_slice(b"close")?,
    }
    text.extend_from_slice(b"\n")
}

/// Adds words and a number behind them.
fn add_words(text: &mut Text, words: &[u8], n: u32) -> Result<(), Memory>
    ensures { OnOk result (Appends text.old text.new (λ rest. words.now ++ (decimal n ++ rest))) }
{
    text.extend_from_slice(words)?;
    text.push_decimal(n as u64)
}
