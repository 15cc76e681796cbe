ghost use Rattle.std.specs.Prelude.{◌≡◌, ◌≤◌, true, length};
ghost use Rattle.std.specs.List.{list_all};
ghost use Rattle.nego_base.specs.Number.{is_digit, is_numeral, value_of, number_of};

/// The most digits of a number.
const MAX_DIGITS: usize = 6;

/// The number that the bytes are: 1 to 6 digits, without a leading zero unless it is `0`. None where they aren't one.
#[tactic(auto, unfolding(crate::specs::Number::number_of))]
pub fn number_of(bytes: &[u8]) -> Option<u32>
    ensures { result ≡ number_of bytes.now }
{
    if bytes.len() <= MAX_DIGITS && is_numeral(bytes) {
        Some(value_of(bytes))
    } else {
        None
    }
}

/// Whether the bytes are digits, one or more, of which the first is `0` only alone.
pub fn is_numeral(bytes: &[u8]) -> bool
    ensures { result ≡ is_numeral bytes.now }
{
    !bytes.is_empty() && all_digits(bytes) && (bytes.len() == 1 || bytes[0] != b'0')
}

fn all_digits(bytes: &[u8]) -> bool
    ensures { result ≡ list_all is_digit bytes.now }
{
    bytes.iter().all(|b| b.is_ascii_digit())
}

/// The number that the digits are.
fn value_of(bytes: &[u8]) -> u32
    requires few { length bytes.now ≤ 6 }
    requires digits { list_all is_digit bytes.now ≡ true }
    ensures { result ≡ value_of bytes.now }
{
    let mut value = 0;
    for b in bytes {
        value = 10 * value + u32::from(*b - b'0');
    }
    value
}
