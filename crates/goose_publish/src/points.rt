//! What is published, and when.

/// The published data set: what the relay says at a sample.
#[derive(Clone, Copy, Default, PartialEq, Eq, Debug)]
pub struct Points {
    /// The trip is sealed in.
    pub trip: bool,
    /// Some loop is inside some zone.
    pub start: bool,
    /// A power swing is declared.
    pub swing: bool,
    /// A fuse failure is declared.
    pub fuse: bool,
    /// The zones that operate: bit z - 1 is that of zone z.
    pub zones: u8,
    /// A whole cycle of taken and good samples ends here.
    pub ready: bool,
}

/// A frame that is sent.
#[derive(Clone, Copy, Default, PartialEq, Eq, Debug)]
pub struct Send {
    /// The number of the sample at which it is sent.
    pub number: u64,
    /// The number of the sample at which the points changed last.
    pub change: u64,
    /// The count of changes, stNum.
    pub state: u32,
    /// The count of frames since the change, sqNum.
    pub sequence: u32,
    /// How many milliseconds a receiver may wait for the next frame, timeAllowedtoLive.
    pub live_ms: u32,
    /// The points at the sample.
    pub points: Points,
}
