ghost use Rattle.std.specs.Prelude.{◌≡◌};
ghost use Rattle.nego_base.specs.Name.{is_name, are_name_bytes, is_letter, is_name_byte};

/// The most bytes that a name has.
const MAX_NAME: usize = 24;

/// Whether the bytes are a name: 1 to 24 small letters, digits and `_`, the first of them a letter.
#[tactic(auto, unfolding(crate::specs::Name::is_name))]
pub fn is_name(bytes: &[u8]) -> bool
    ensures { result ≡ is_name bytes.now }
{
    !bytes.is_empty() && bytes.len() <= MAX_NAME && is_letter(bytes[0]) && are_name_bytes(bytes)
}

fn are_name_bytes(bytes: &[u8]) -> bool
    ensures { result ≡ are_name_bytes bytes.now }
{
    bytes.iter().all(|b| is_name_byte(*b))
}

fn is_letter(b: u8) -> bool
    ensures { result ≡ is_letter b }
{
    b.is_ascii_lowercase()
}

fn is_name_byte(b: u8) -> bool
    ensures { result ≡ is_name_byte b }
{
    is_letter(b) || b.is_ascii_digit() || b == b'_'
}
