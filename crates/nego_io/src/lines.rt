ghost use Rattle.std.specs.Prelude.{◌≡◌};
ghost use Rattle.nego_io.specs.Part.{is_end, is_end_line};

use nego_base::{all_blank, from_word, line_body};

/// Whether the one word of the bytes is `end`.
fn only_word_is_end(bytes: &[u8]) -> bool
    ensures { result ≡ is_end bytes.now }
{
    match from_word(bytes).strip_prefix(b"end") {
        Some(rest) => all_blank(rest),
        None => false,
    }
}

/// Whether the one word of the line is `end`.
pub fn ends_part(line: &[u8]) -> bool
    ensures { result ≡ is_end_line line.now }
{
    only_word_is_end(line_body(line))
}
