//! The times of a guard.
ghost use Rattle.std.specs.Prelude.{◌≡◌, ◌≤◌};
ghost use Rattle.breaker_guard.specs.Guarding.{waits_of, AreTimes};

use relay_settings::samples_of;

/// What a guard is set to, in milliseconds.
#[derive(Clone, Copy, PartialEq, Eq, Debug)]
pub struct GuardTimes {
    /// From a trip's rise until the breaker has failed: 1 to 10000.
    pub fail_ms: u32,
    /// From a trip's reset until it is reclosed: 1 to 60000.
    pub dead_ms: u32,
    /// From a reclosing on, for how long a new trip is final: 1 to 600000.
    pub reclaim_ms: u32,
}

/// The same times in samples.
#[derive(Clone, Copy, PartialEq, Eq, Debug)]
pub struct Waits {
    pub fail: u32,
    pub dead: u32,
    pub reclaim: u32,
}

/// The times at `rate` samples a second, rounded up.
pub fn waits_of(rate: u32, times: GuardTimes) -> Waits
    requires rate { rate ≤ 4800 }
    requires times { AreTimes times }
    ensures { result ≡ waits_of rate times }
{
    Waits {
        fail: samples_of(rate, times.fail_ms),
        dead: samples_of(rate, times.dead_ms),
        reclaim: samples_of(rate, times.reclaim_ms),
    }
}
