//! Sample sets, and frames of them.
ghost use Rattle.std.specs.Prelude.{◌≡◌, ◌<◌};

use std::alloc::{AllocError, Global};
use sv_frame::Asdu;

/// A sample set of this svID with this counter and data set, with confRev 1 and smpSynch 2.
pub fn sample_set<'a>(sv_id: &'a [u8], counter: u16, samples: &'a [u8; 64]) -> Asdu<'a>
    ensures name { result.sv_id.now ≡ sv_id.now }
    ensures counter { result.counter ≡ counter }
    ensures samples { result.samples.now ≡ samples.now }
{
    Asdu {
        sv_id,
        counter,
        conf_rev: 1,
        synch: 2,
        samples,
    }
}

/// A frame of 116 bytes with one sample set: svID MU01, smpCnt 0, confRev 1, smpSynch 2, and eight
/// zeros. A line is ready by the counters and by how good the values are, so zeros serve as well as the
/// voltages of a healthy line.
pub const SAMPLE_FRAME: [u8; 116] = [
    0x01, 0x0c, 0xcd, 0x04, 0x00, 0x01, 0x02, 0x00, 0x00, 0x00, 0x00, 0x01, 0x88, 0xba, 0x40, 0x00,
    0x00, 0x66, 0x00, 0x00, 0x00, 0x00, 0x60, 0x5c, 0x80, 0x01, 0x01, 0xa2, 0x57, 0x30, 0x55, 0x80,
    0x04, 0x4d, 0x55, 0x30, 0x31, 0x82, 0x02, 0x00, 0x00, 0x83, 0x04, 0x00, 0x00, 0x00, 0x01, 0x85,
    0x01, 0x02, 0x87, 0x40, 0x00, 0x00, 0x00, 0x00, 0x00, 0x00, 0x00, 0x00, 0x00, 0x00, 0x00, 0x00,
    0x00, 0x00, 0x00, 0x00, 0x00, 0x00, 0x00, 0x00, 0x00, 0x00, 0x00, 0x00, 0x00, 0x00, 0x00, 0x00,
    0x00, 0x00, 0x00, 0x00, 0x00, 0x00, 0x00, 0x00, 0x00, 0x00, 0x00, 0x00, 0x00, 0x00, 0x00, 0x00,
    0x00, 0x00, 0x00, 0x00, 0x00, 0x00, 0x00, 0x00, 0x00, 0x00, 0x00, 0x00, 0x00, 0x00, 0x00, 0x00,
    0x00, 0x00, 0x00, 0x00,
];

/// How many sample sets a frame has, a tag of a virtual network or nothing, and the bytes from the
/// length of the frame's data unit on to the head of the sequence of its sets.
pub type Form = (u16, &'static [u8], &'static [u8]);

pub const SINGLE: Form = (
    1,
    &[],
    &[0x00, 0x66, 0, 0, 0, 0, 0x60, 0x5c, 0x80, 1, 1, 0xa2, 0x57],
);

pub const TAGGED: Form = (
    1,
    &[0x81, 0x00, 0x80, 0x00],
    &[0x00, 0x66, 0, 0, 0, 0, 0x60, 0x5c, 0x80, 1, 1, 0xa2, 0x57],
);

pub const PAIR: Form = (
    2,
    &[],
    &[
        0x00, 0xbf, 0, 0, 0, 0, 0x60, 0x81, 0xb4, 0x80, 1, 2, 0xa2, 0x81, 0xae,
    ],
);

pub const SIXTEEN: Form = (
    16,
    &[],
    &[
        0x05, 0x83, 0, 0, 0, 0, 0x60, 0x82, 0x05, 0x77, 0x80, 1, 16, 0xa2, 0x82, 0x05, 0x70,
    ],
);

pub const SEVENTEEN: Form = (
    17,
    &[],
    &[
        0x05, 0xda, 0, 0, 0, 0, 0x60, 0x82, 0x05, 0xce, 0x80, 1, 17, 0xa2, 0x82, 0x05, 0xc7,
    ],
);

/// What stands before the sample sets of a frame of this form.
pub fn head_of(alloc: Global, form: &Form) -> Result<Vec<u8>, AllocError> {
    let (_, tag, words) = *form;
    let mut frame = Vec::new(alloc);
    frame.extend_from_slice(&SAMPLE_FRAME[..12])?;
    frame.extend_from_slice(tag)?;
    frame.extend_from_slice(&SAMPLE_FRAME[12..16])?;
    frame.extend_from_slice(words)?;
    Ok(frame)
}

/// Adds a sample set of MU01 with this counter and data set to a frame.
pub fn put_set(frame: &mut Vec<u8>, counter: u16, data: &[u8; 64]) -> Result<(), AllocError> {
    frame.extend_from_slice(&SAMPLE_FRAME[29..39])?;
    frame.extend_from_slice(&counter.to_be_bytes())?;
    frame.extend_from_slice(&SAMPLE_FRAME[41..52])?;
    frame.extend_from_slice(data)
}

/// A frame of this form with zeros for data, with this counter and those that follow it.
pub fn frame_of_zeros(alloc: Global, form: &Form, first: u16) -> Result<Vec<u8>, AllocError> {
    let mut frame = head_of(alloc, form)?;
    for place in 0..form.0 {
        put_set(&mut frame, first.wrapping_add(place), &[0; 64])?;
    }
    Ok(frame)
}
