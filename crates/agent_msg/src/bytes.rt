//! Numbers as bytes, the high byte first.
ghost use Rattle.std.specs.Prelude.{◌≡◌, ◌+◌, ◌*◌, ◌/◌};
ghost use Rattle.agent_msg.specs.Bytes.{low_byte};

/// The low byte of a number.
pub fn low(n: u32) -> u8
    ensures { result ≡ low_byte n }
{
    (n % 256) as u8
}

/// The byte before the low one.
pub fn high(n: u32) -> u8
    ensures { result ≡ low_byte (n / 256) }
{
    low(n / 256)
}

/// The number of two bytes.
pub fn number(high: u8, low: u8) -> u16
    ensures { result ≡ 256 * high + low }
{
    256 * u16::from(high) + u16::from(low)
}
