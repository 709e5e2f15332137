//! The channels of a data set.
ghost use Rattle.std.specs.Prelude.{◌≡◌, ◌+◌, ◌≤◌, length};
ghost use Rattle.sv_frame.specs.Channels.{channel_at};

use byteorder::{BigEndian, ByteOrder};

/// One instantaneous value, a current in mA or a voltage in units of 10 mV, and its quality word.
#[derive(Clone, Copy, Debug, Default, PartialEq, Eq)]
pub struct Channel {
    pub value: i32,
    pub quality: u32,
}

/// The value and the quality word that stand at `place`.
pub(crate) fn channel_at(bytes: &[u8], place: usize) -> Channel
    requires { place + 8 ≤ length bytes.now }
    ensures { result ≡ channel_at bytes.now place }
{
    Channel {
        value: BigEndian::read_i32(&bytes[place..]),
        quality: BigEndian::read_u32(&bytes[place + 4..]),
    }
}
