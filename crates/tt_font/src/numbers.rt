//! Big-endian numbers in the bytes of a font (OpenType specification, "Data types").

ghost use Rattle.std.specs.Prelude.{◌≡◌, ◌+◌, ◌≤◌, length};
ghost use Rattle.tt_font.specs.Numbers.{u16_at, u32_at};

use byteorder::{BigEndian, ByteOrder};

/// Returns the u16 at an offset, big-endian.
#[tactic(auto, unfolding(crate::specs::Numbers::u16_at))]
pub fn u16_at(bytes: &[u8], place: usize) -> u16
    requires { place + 2 ≤ length bytes.now }
    ensures { result ≡ u16_at place bytes.now }
{
    BigEndian::read_u16(&bytes[place..])
}

/// Returns the u32 at an offset, big-endian.
#[tactic(auto, unfolding(crate::specs::Numbers::u32_at))]
pub fn u32_at(bytes: &[u8], place: usize) -> u32
    requires { place + 4 ≤ length bytes.now }
    ensures { result ≡ u32_at place bytes.now }
{
    BigEndian::read_u32(&bytes[place..])
}
