//! The multiple of the pickup, squared, and its root.
ghost use Rattle.std.specs.Prelude.{◌≡◌, ◌⊎◌, ◌≤◌, ◌^◌, ◌+◌, ◌*◌, ◌<◌};
ghost use Rattle.relay_num.specs.Numbers.{IsBelow};
ghost use Rattle.inverse_time.specs.Multiples.{multiple_of, whole_root};

use relay_num::{Cx, norm};

/// The square of 20 times the pickup, in millionths.
const MOST_MULTIPLE: u128 = 400_000_000;

/// The square of the multiple of the pickup that a current is, in millionths and rounded down, at most that of 20
/// times: of the phasor `p` of `n` samples a cycle (80 or 96) and the pickup of 1 to 100000000 mA. The parts of
/// `p` are at most `2 ^ 30` in size.
pub fn multiple(p: Cx, n: u32, pickup: u32) -> u64
    requires n { (n ≡ 80) ⊎ (n ≡ 96) }
    requires p { IsBelow p (2 ^ 30 + 1) }
    requires pickup_low { 1 ≤ pickup }
    requires pickup_high { pickup ≤ 100000000 }
    ensures value { result ≡ multiple_of p n pickup }
    ensures most { result ≤ 400000000 }
{
    let base = u128::from(n) * u128::from(pickup);
    let square = 2_048_000_000 * norm(p).unsigned_abs() / (base * base);
    square.min(MOST_MULTIPLE) as u64
}

/// The greatest whole number whose square is at most `x`.
pub fn root(x: u64) -> u64
    requires { x ≤ 400000000 }
    ensures value { result ≡ whole_root x }
    ensures most { result ≤ 20000 }
    ensures next { x < (result + 1) * (result + 1) }
{
    x.isqrt()
}
