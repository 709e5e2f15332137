//! Captures of frames.
use crate::frames::{Form, head_of, put_set};
use crate::signals::{Signal, Span, data_of};
use std::alloc::{AllocError, Global};

/// The header of a capture with microseconds, its numbers with the lowest byte first.
pub const LITTLE_MICROS: [u8; 24] = [
    0xd4, 0xc3, 0xb2, 0xa1, 2, 0, 4, 0, 0, 0, 0, 0, 0, 0, 0, 0, 0xff, 0xff, 0, 0, 1, 0, 0, 0,
];

/// Adds a record without a time to the capture, its numbers in this byte order.
pub fn put_record(
    capture: &mut Vec<u8>,
    is_big: bool,
    bytes: &[u8],
    captured: u32,
) -> Result<(), AllocError> {
    let number = if is_big {
        captured.to_be_bytes()
    } else {
        captured.to_le_bytes()
    };
    capture.extend_from_slice(&[0; 8])?;
    capture.extend_from_slice(&number)?;
    capture.extend_from_slice(&number)?;
    capture.extend_from_slice(bytes)
}

/// Adds the record of a frame of this form with the counters from the first on.
fn put_frame(
    alloc: Global,
    capture: &mut Vec<u8>,
    form: &Form,
    signal: Signal,
    first: u16,
) -> Result<(), AllocError> {
    let mut frame = head_of(alloc, form)?;
    for place in 0..form.0 {
        let counter = first.wrapping_add(place);
        put_set(&mut frame, counter, &data_of(signal, counter))?;
    }
    let captured = u32::try_from(frame.len()).unwrap_or(0);
    put_record(capture, false, &frame, captured)
}

/// A capture with microseconds of frames of this form, in these spans.
pub fn signals_of(alloc: Global, form: &Form, spans: &[Span]) -> Result<Vec<u8>, AllocError> {
    let mut capture = Vec::new(alloc);
    capture.extend_from_slice(&LITTLE_MICROS)?;
    for (from, to, signal) in spans {
        for counter in *from..*to {
            if counter.checked_rem(form.0) == Some(0) {
                put_frame(alloc, &mut capture, form, *signal, counter)?;
            }
        }
    }
    Ok(capture)
}
