//! Captures of frames of zeros, byte by byte as a row wants them.
use row_inputs::{Form, frame_of_zeros, put_record};
use std::alloc::{AllocError, Global};

/// The records with the counters from the first on to before the second: their form, bytes replaced in
/// each, and the captured length, to which each is cut or padded with zeros.
pub type Part = (u16, u16, &'static Form, &'static [(usize, u8)], u32);

/// A frame with this counter and those that follow it, cut or padded, after these replacements.
fn frame_of(
    alloc: Global,
    form: &Form,
    first: u16,
    replaced: &[(usize, u8)],
    captured: u32,
) -> Result<Vec<u8>, AllocError> {
    let mut frame = frame_of_zeros(alloc, form, first)?;
    for (at, byte) in replaced {
        if *at < frame.len() {
            frame[*at] = *byte;
        }
    }
    frame.resize(captured as usize, 0)?;
    Ok(frame)
}

/// A capture of these records, its numbers in the byte order of its header.
pub fn capture_of(alloc: Global, header: &[u8], parts: &[Part]) -> Result<Vec<u8>, AllocError> {
    let is_big = header.starts_with(&[0xa1]);
    let mut capture = Vec::new(alloc);
    capture.extend_from_slice(header)?;
    for (from, to, form, replaced, captured) in parts {
        for counter in *from..*to {
            if counter.checked_rem(form.0) == Some(0) {
                let frame = frame_of(alloc, form, counter, replaced, *captured)?;
                put_record(&mut capture, is_big, &frame, *captured)?;
            }
        }
    }
    Ok(capture)
}
