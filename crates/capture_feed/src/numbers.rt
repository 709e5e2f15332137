//! Numbers in a capture's bytes, with the highest byte first or last.
ghost use Rattle.std.specs.Prelude.{◌≡◌, ◌+◌, ◌≤◌, length};
ghost use Rattle.capture_feed.specs.Numbers.{number_at};

use byteorder::{BigEndian, ByteOrder, LittleEndian};

/// The number in the four bytes at this place.
pub fn u32_at(bytes: &[u8], at: usize, is_big: bool) -> u32
    requires { at + 4 ≤ length bytes.now }
    ensures { result ≡ number_at is_big at 4 bytes.now }
{
    if is_big {
        BigEndian::read_u32(&bytes[at..at + 4])
    } else {
        LittleEndian::read_u32(&bytes[at..at + 4])
    }
}

/// The number in the two bytes at this place.
pub fn u16_at(bytes: &[u8], at: usize, is_big: bool) -> u16
    requires { at + 2 ≤ length bytes.now }
    ensures { result ≡ number_at is_big at 2 bytes.now }
{
    if is_big {
        BigEndian::read_u16(&bytes[at..at + 2])
    } else {
        LittleEndian::read_u16(&bytes[at..at + 2])
    }
}
