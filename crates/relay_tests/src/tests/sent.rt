//! The frames of a GOOSE file, read back by their tags, each of one byte as their lengths.

use std::alloc::{AllocError, Global};

/// What the frame of a record tells. Numbers that aren't found are 0.
#[derive(Clone, Copy, PartialEq, Eq, Debug, Drop)]
pub struct Sent {
    /// The record's nanoseconds within its second.
    pub nanos: u64,
    /// timeAllowedtoLive.
    pub live_ms: u64,
    /// stNum.
    pub state: u64,
    /// sqNum.
    pub sequence: u64,
    /// The trip, and whether its quality is good.
    pub trip: bool,
    pub is_good: bool,
    /// The start.
    pub start: bool,
    /// The zones that operate: bit z - 1 is that of zone z.
    pub zones: u8,
}

/// The byte at this place, or 0.
fn byte(bytes: &[u8], place: usize) -> u8 {
    bytes.get(place).copied().unwrap_or(0)
}

/// Four bytes of a record's head, the lowest first.
fn word(bytes: &[u8], place: usize) -> u64 {
    let mut number: u64 = 0;
    for later in 0..4 {
        let at = place.wrapping_add(3).wrapping_sub(later);
        number = number
            .wrapping_mul(256)
            .wrapping_add(u64::from(byte(bytes, at)));
    }
    number
}

/// The number in the element of this tag, among the elements from byte 28 of a frame on.
fn number_of(frame: &[u8], tag: u8) -> u64 {
    let mut place: usize = 28;
    for _ in 0..12 {
        let after = place
            .wrapping_add(2)
            .wrapping_add(usize::from(byte(frame, place.wrapping_add(1))));
        if byte(frame, place) == tag {
            let mut number: u64 = 0;
            for at in place.wrapping_add(2)..after {
                number = number
                    .wrapping_mul(256)
                    .wrapping_add(u64::from(byte(frame, at)));
            }
            return number;
        }
        place = after;
    }
    0
}

/// What a frame tells that is sent at these nanoseconds. The values of the data set are its last 35 bytes.
fn told(nanos: u64, frame: &[u8]) -> Sent {
    let data = frame.len().wrapping_sub(35);
    Sent {
        nanos,
        live_ms: number_of(frame, 0x81),
        state: number_of(frame, 0x85),
        sequence: number_of(frame, 0x86),
        trip: byte(frame, data.wrapping_add(2)) != 0,
        is_good: byte(frame, data.wrapping_add(6)) == 0,
        start: byte(frame, data.wrapping_add(10)) != 0,
        zones: byte(frame, data.wrapping_add(34)),
    }
}

/// What the records of a GOOSE file tell, at most 64.
pub fn sent_of(alloc: Global, file: &[u8]) -> Result<Vec<Sent>, AllocError> {
    let mut all = Vec::new(alloc);
    let mut place: usize = 24;
    for _ in 0..64 {
        if place >= file.len() {
            return Ok(all);
        }
        let from = place.wrapping_add(16);
        let to = from.wrapping_add(word(file, place.wrapping_add(8)) as usize);
        let frame = file.get(from..to).unwrap_or(b"");
        all.push(told(word(file, place.wrapping_add(4)), frame))?;
        place = to;
    }
    Ok(all)
}

/// The records of a GOOSE file whose frames have this control block reference of 13 bytes, at most 64 records in all.
pub fn part_of(alloc: Global, file: &[u8], reference: &[u8]) -> Result<Vec<u8>, AllocError> {
    let mut part = Vec::new(alloc);
    let mut place: usize = 24;
    for _ in 0..64 {
        if place >= file.len() {
            return Ok(part);
        }
        let from = place.wrapping_add(16);
        let to = from.wrapping_add(word(file, place.wrapping_add(8)) as usize);
        let name = file.get(from.wrapping_add(30)..from.wrapping_add(43));
        if name == Some(reference) {
            part.extend_from_slice(file.get(place..to).unwrap_or(b""))?;
        }
        place = to;
    }
    Ok(part)
}
