//! What is told of a line's trips.
use event_record::At;

/// What happens to the breaker of a line.
#[derive(Clone, Copy, PartialEq, Eq, Debug)]
pub enum GuardWhat {
    /// A trip that isn't reclosed, since it rises in the reclaim time behind a reclosing.
    Final,
    /// The breaker failed to open: current still flows the failure time behind a trip's rise.
    Fail,
    /// The one reclosing after a trip, the dead time behind its reset.
    Reclose,
}

/// What happens at a sample.
#[derive(Clone, Copy, PartialEq, Eq, Debug)]
pub struct GuardEvent {
    pub at: At,
    pub what: GuardWhat,
}
