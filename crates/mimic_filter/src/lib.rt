//! The mimic filter, which takes the decaying offset out of the samples of a fault current.
//!
//! It is a digital copy of the line's own impedance: a difference of this sample and the one before,
//! with the factors `a` and `b` in 1024ths. It works in eight lanes, one a channel, with currents in
//! mA and voltages in units of 10 mV, before the filter and after it. It stands on `lanes` for the
//! exact operations. `specs/Mimic.antt` has the formula for one channel.
#![tactic(auto)]

ghost use Rattle.std.specs.Prelude.{◌≡◌, ◌≤◌};
ghost use Rattle.std.specs.Int.RustNames.{unsigned_abs};
ghost use Rattle.relay_num.specs.Bounds.{AllBelow, value_bound};
ghost use Rattle.mimic_filter.specs.Mimic.{filtered_lanes};

use lanes::{at_least8, at_most8, difference8, floor_shift8, short_multiple8};
use relay_num::MOST_VALUE;

#[cfg(test)]
mod tests;

/// The factors are in parts of 2 to this power, 1024.
const FACTOR_BITS: u32 = 10;

/// The filtered value in each lane: `(a * now - b * before) / 1024` rounded down, and then limited to
/// the range of a sample's value, at most 2^28 - 1 in size. The factors are at most 65536 in size, and
/// all values are below 2^28.
pub fn mimic8(a: i64, b: i64, now: &[i64; 8], before: &[i64; 8]) -> [i64; 8]
    requires a { unsigned_abs a ≤ 65536 }
    requires b { unsigned_abs b ≤ 65536 }
    requires now { AllBelow now.now value_bound }
    requires before { AllBelow before.now value_bound }
    ensures { result ≡ filtered_lanes a b now.now before.now }
{
    let step = difference8(&short_multiple8(now, a), &short_multiple8(before, b));
    let filtered = floor_shift8(&step, FACTOR_BITS);
    at_least8(&at_most8(&filtered, MOST_VALUE), -MOST_VALUE)
}
