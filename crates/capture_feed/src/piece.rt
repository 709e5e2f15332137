//! A piece of a capture.

/// Where the captured bytes of a record stand in the block, and how many there are.
#[derive(Clone, Copy)]
pub struct Place {
    pub at: usize,
    pub captured: u32,
}

/// A piece of a capture that was taken off: its length in bytes, and its record, if it has one.
#[derive(Clone, Copy)]
pub struct Piece {
    pub size: u64,
    pub packet: Option<Place>,
}
