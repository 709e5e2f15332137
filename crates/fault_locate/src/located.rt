//! What is told of a trip.
use event_record::At;

/// The two distances to a trip's fault, in thousandths of the line, each within a million to either side.
#[derive(Clone, Copy, PartialEq, Eq, Debug)]
pub struct Located {
    /// The sample at which they are told.
    pub at: At,
    /// The loop that raised the trip, from 0 to 5 for AG, BG, CG, AB, BC and CA.
    pub lp: u8,
    /// By the reactance method, where it can be measured.
    pub distance: Option<i64>,
    /// By Takagi's method, where the current before the fault is known too.
    pub takagi: Option<i64>,
}
