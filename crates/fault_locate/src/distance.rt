//! The two distances of a loop.
ghost use Rattle.std.specs.Prelude.{◌≡◌, ◌<◌, ◌≤◌, ◌^◌};
ghost use Rattle.std.specs.Int.RustNames.{unsigned_abs};
ghost use Rattle.std.specs.Option.{ForSome};
ghost use Rattle.relay_num.specs.Bounds.{loop_voltage_bound, loop_current_bound, reach_bound};
ghost use Rattle.relay_num.specs.Numbers.{IsBelow, value_of, scaled};
ghost use Rattle.fault_locate.specs.Quotients.{IsLimited};
ghost use Rattle.fault_locate.specs.Distances.{across, reactance_distance, takagi_distance};

use crate::numbers::quotient;
use relay_num::{Cx, Cx128, difference, mul, norm};

/// The distance by the reactance method, in thousandths of the line, of a loop's voltage in counts of 10 mV and its
/// current in thousandths of 1 mA. The line's reactance is in milliohms. None comes exactly where the divisor is 0:
/// where there is no current.
pub fn by_reactance(u: Cx, i: Cx, line_x: i64) -> Option<i64>
    requires u { IsBelow u loop_voltage_bound }
    requires i { IsBelow i loop_current_bound }
    requires line_x { unsigned_abs line_x < reach_bound }
    ensures value { result ≡ reactance_distance u i line_x }
    ensures size { ForSome result IsLimited }
{
    quotient(
        1000 * across(milliohms_times(u), i),
        i128::from(line_x) * norm(i),
    )
}

/// The distance by Takagi's method, of the same, the loop's current before the fault, and the line's impedance in
/// milliohms. None comes exactly where the divisor is 0.
pub fn by_takagi(u: Cx, i: Cx, before: Cx, line: Cx) -> Option<i64>
    requires u { IsBelow u loop_voltage_bound }
    requires i { IsBelow i loop_current_bound }
    requires before { IsBelow before loop_current_bound }
    requires line { IsBelow line reach_bound }
    ensures value { result ≡ takagi_distance u i before line }
    ensures size { ForSome result IsLimited }
{
    let change = difference(i, before);
    quotient(
        1000 * across(milliohms_times(u), change),
        across(mul(line, i), change),
    )
}

/// A voltage in the unit in which one thousandth of 1 mA drives it through one milliohm.
fn milliohms_times(u: Cx) -> Cx128
    requires { IsBelow u loop_voltage_bound }
    ensures value { value_of result ≡ scaled 10000000 u }
    ensures size { IsBelow (value_of result) (2 ^ 67) }
{
    Cx128 {
        re: 10_000_000 * i128::from(u.re),
        im: 10_000_000 * i128::from(u.im),
    }
}

/// The imaginary part of the product of `a` and the conjugate of `b`, exactly.
fn across(a: Cx128, b: Cx) -> i128
    requires a { IsBelow (value_of a) (2 ^ 67) }
    requires b { IsBelow b (2 ^ 46) }
    ensures value { result ≡ across (value_of a) b }
    ensures size { unsigned_abs result < 2 ^ 114 }
{
    let (b_re, b_im) = (i128::from(b.re), i128::from(b.im));
    a.im * b_re - a.re * b_im
}
