//! What is kept of a taken sample, and what the record as a whole covers.
use sample_stream::Sample;

/// A taken sample, and whether the trip stands at it.
#[derive(Clone, Copy, PartialEq, Eq, Debug)]
pub struct Recorded {
    /// In samples since the settings' start.
    pub number: u64,
    pub sample: Sample,
    pub trip: bool,
}

/// What a record covers.
#[derive(Clone, Copy, PartialEq, Eq, Debug)]
pub struct Span {
    /// The number of the first covered sample.
    pub first: u64,
    /// The number of the sample at which the trip begins.
    pub trip: u64,
    /// How many samples are covered.
    pub count: usize,
}
