//! The curves, and what an element of them is set to.
ghost use Rattle.std.specs.Prelude.{◌≡◌, ◌≤◌, ◌<◌, ◌^◌, false};
ghost use Rattle.inverse_time.specs.InverseCurves.{IsDial, excess_of, is_enough};

use crate::numbers::root;

/// An inverse-time curve of IEC 60255-151.
#[derive(Clone, Copy, PartialEq, Eq, Debug)]
pub enum Curve {
    /// Very inverse: k is 13.5, alpha 1.
    Very,
    /// Extremely inverse: k is 80, alpha 2.
    Extremely,
}

/// What the elements are set to.
#[derive(Clone, Copy, PartialEq, Eq, Debug)]
pub struct Dial {
    pub curve: Curve,
    /// The pickup: 1 to 100000000 mA.
    pub pickup: u32,
    /// The time multiplier setting: 25 to 1500 thousandths.
    pub tms: u32,
}

/// What a sample adds whose multiple has this square in millionths.
pub fn excess(curve: Curve, square: u64) -> u64
    requires low { 1000000 ≤ square }
    requires high { square ≤ 400000000 }
    ensures value { result ≡ excess_of curve square }
    ensures most { result ≤ 400000000 }
{
    match curve {
        Curve::Very => root(square) - 1000,
        Curve::Extremely => square - 1_000_000,
    }
}

/// Whether the sum has come to the curve's time, at `rate` samples a second.
pub fn enough(dial: Dial, rate: u32, sum: u64) -> bool
    requires dial { IsDial dial }
    requires rate { rate ≤ 4800 }
    requires sum { sum < 2 ^ 41 }
    ensures value { result ≡ is_enough dial.curve dial.tms rate sum }
    ensures below { result ≡ false → sum < 2 ^ 40 }
{
    let share = u64::from(dial.tms) * u64::from(rate);
    match dial.curve {
        Curve::Very => 2 * sum >= 27 * share,
        Curve::Extremely => sum >= 80_000 * share,
    }
}
