//! Quotients that are rounded down, and kept within a limit.
ghost use Rattle.std.specs.Prelude.{◌≡◌, ◌<◌, ◌≤◌, ◌^◌};
ghost use Rattle.std.specs.Int.RustNames.{unsigned_abs};
ghost use Rattle.std.specs.Option.{ForSome};
ghost use Rattle.relay_num.specs.Numbers.{floor_div};
ghost use Rattle.fault_locate.specs.Quotients.{limited, quotient_of, IsLimited};

/// The greatest size of a distance, in thousandths of the line.
const MOST: u128 = 1_000_000;

/// `a` divided by `d`, rounded down, also below 0, and kept within a million to either side. None comes exactly
/// where `d` is 0. Both are below `2 ^ 126` in size.
pub fn quotient(a: i128, d: i128) -> Option<i64>
    requires a { unsigned_abs a < 2 ^ 126 }
    requires d { unsigned_abs d < 2 ^ 126 }
    ensures value { result ≡ quotient_of a d }
    ensures size { ForSome result IsLimited }
{
    if d == 0 {
        None
    } else if d > 0 {
        Some(floor_limited(a, d.unsigned_abs()))
    } else {
        Some(floor_limited(-a, d.unsigned_abs()))
    }
}

/// The same by a divisor above 0.
fn floor_limited(a: i128, d: u128) -> i64
    requires a { unsigned_abs a < 2 ^ 126 }
    requires d { 0 < d }
    ensures value { result ≡ limited (floor_div a d) }
    ensures size { IsLimited result }
{
    if a >= 0 {
        (a.unsigned_abs() / d).min(MOST) as i64
    } else {
        // -1 and what is above it down to -d, for one, rounds down to -1
        let below = ((a.unsigned_abs() - 1) / d).min(MOST - 1) as i64;
        -1 - below
    }
}
