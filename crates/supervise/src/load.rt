//! Whether the impedance is that of load.

ghost use Rattle.std.specs.Prelude.{◌≡◌, ◌^◌, ◌<◌, ◌≤◌, ◌*ℤ◌, ◌&&◌, pos};
ghost use Rattle.std.specs.Int.RustNames.{unsigned_abs, int_lt, int_le};
ghost use Rattle.relay_num.specs.Bounds.{sequence_bound};
ghost use Rattle.relay_num.specs.Numbers.{IsBelow};
ghost use Rattle.relay_settings.specs.Ranges.{IsLoad};
ghost use Rattle.supervise.specs.Load.{is_load};

use apparent_impedance::{Impedance, impedance_of};
use relay_num::Cx;
use relay_settings::LoadSettings;

/// Whether the impedance of the positive sequence is that of load, which is no fault between phases: of 3U1,
/// `u1`, in counts of 10 mV, and 3I1, `i1`, in counts of 1 mA, whose parts are below 2^32 in size. It is where
/// the resistance is at least `r` in size, in either direction, and the reactance at most `slope` thousandths
/// of the resistance. Without current there is no load.
pub fn load_blocks(s: &LoadSettings, u1: Cx, i1: Cx) -> bool
    requires settings { IsLoad s.now }
    requires u1 { IsBelow u1 sequence_bound }
    requires i1 { IsBelow i1 sequence_bound }
    ensures { result ≡ is_load s.now u1 i1 }
{
    let z = impedance_of(u1, i1);
    let is_far = is_far(&z, s.r);
    is_far & is_flat(&z, s.slope)
}

/// Whether there is a current, and the resistance is at least `r`.
fn is_far(z: &Impedance, r: i64) -> bool
    requires { unsigned_abs r ≤ 1000000 }
    ensures { result ≡ (int_lt (pos 0) z.now.square && int_le (r *ℤ z.now.square) z.now.resistance) }
{
    (z.square > 0) & (z.resistance >= z.milliohms(r))
}

/// Whether the reactance is at most `slope` thousandths of the resistance.
fn is_flat(z: &Impedance, slope: i64) -> bool
    requires { unsigned_abs slope ≤ 10000 }
    ensures { result ≡ int_le (pos 1000 *ℤ z.now.reactance) (slope *ℤ z.now.resistance) }
{
    let (resistance, reactance) = (z.resistance, z.reactance);
    times(1000, reactance) <= times(slope, resistance)
}

/// `k` times `x`.
fn times(k: i64, x: i128) -> i128
    requires k { unsigned_abs k ≤ 10000 }
    requires x { unsigned_abs x < 2 ^ 80 }
    ensures { result ≡ k *ℤ x }
{
    i128::from(k) * x
}
