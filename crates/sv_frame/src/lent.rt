//! What is lent from a frame. A frame has 2048 bytes at most.
ghost use Rattle.std.specs.Prelude.{◌≤◌, length};

use crate::channel::{Channel, channel_at};

/// One sample set (ASDU), its slices where they lie in the frame.
#[derive(Clone, Copy, Debug, PartialEq, Eq)]
pub struct Asdu<'a> {
    /// The name of the stream (svID).
    pub sv_id: &'a [u8],
    /// The data set, at most 2048 bytes.
    pub samples: &'a [u8],
    /// The configuration revision (confRev).
    pub conf_rev: u32,
    /// The sample counter (smpCnt).
    pub counter: u16,
    /// The state of the clock (smpSynch): 0 none, 1 local, 2 global.
    pub synch: u8,
    pub ghost small: { length samples.now ≤ 2048 },
}

impl Asdu<'_> {
    ghost use Rattle.std.specs.Prelude.{◌≡◌};
    ghost use Rattle.sv_frame.specs.Channels.{channels_of};

    /// The eight channels IA, IB, IC, IN, UA, UB, UC and UN. `None` comes exactly where the data
    /// set isn't 64 bytes.
    pub fn channels(&self) -> Option<[Channel; 8]>
        ensures { result ≡ channels_of self.now.samples.now }
    {
        let samples = self.samples;
        if samples.len() != 64 {
            return None;
        }
        Some([
            channel_at(samples, 0),
            channel_at(samples, 8),
            channel_at(samples, 16),
            channel_at(samples, 24),
            channel_at(samples, 32),
            channel_at(samples, 40),
            channel_at(samples, 48),
            channel_at(samples, 56),
        ])
    }
}

impl Default for Asdu<'_> {
    fn default() -> Self {
        Asdu {
            sv_id: &[],
            counter: 0,
            conf_rev: 0,
            synch: 0,
            samples: &[],
        }
    }
}

/// The bytes that hold the sample sets of a frame, none of them read yet, and how many there have to be: from one to
/// sixteen.
#[derive(Clone, Copy, Debug)]
pub struct AsduSequence<'a> {
    pub count: usize,
    pub bytes: &'a [u8],
    ghost counted: { (1 ≤ count) × (count ≤ 16) },
    ghost small: { length bytes.now ≤ 2048 },
}

/// The number of the ASDUs as it is spelled, and the bytes that hold them.
#[derive(Clone, Copy)]
pub struct Parts<'a> {
    pub count: &'a [u8],
    pub sequence: &'a [u8],
    pub ghost small: { length sequence.now ≤ 2048 },
}
