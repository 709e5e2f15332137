//! Where the impedance lies, and whether the line is unbalanced.

ghost use Rattle.std.specs.Prelude.{◌≡◌, ◌^◌, ◌<◌, ◌≤◌, ◌*ℤ◌, ◌&&◌, pos};
ghost use Rattle.std.specs.Int.RustNames.{unsigned_abs, int_le, int_lt};
ghost use Rattle.relay_num.specs.Bounds.{sequence_bound};
ghost use Rattle.relay_num.specs.Numbers.{IsBelow, norm};
ghost use Rattle.relay_settings.specs.Ranges.{IsSwing};
ghost use Rattle.swing_block.specs.Blinders.{place_of, is_unbalanced};

use apparent_impedance::{Impedance, impedance_of};
use relay_num::{Cx, norm};
use relay_settings::SwingSettings;

/// Where the apparent impedance lies. What lies on a blinder is within it.
#[derive(Clone, Copy, PartialEq, Eq, Debug)]
pub enum SwingPlace {
    /// Beyond the outer blinder, as load is; or there is no current.
    Outside,
    /// Within the outer blinder and not within the inner one.
    Between,
    /// Within the inner blinder.
    Inner,
}

impl SwingPlace {
    ghost use Rattle.std.specs.Prelude.{◌≡◌};
    ghost use Rattle.swing_block.specs.Swinging.{is_between, is_within};

    /// Whether it is between the blinders.
    pub(crate) fn is_between(self) -> bool
        ensures { result ≡ is_between self }
    {
        match self {
            SwingPlace::Between => true,
            SwingPlace::Outside | SwingPlace::Inner => false,
        }
    }

    /// Whether it is within the outer blinder.
    pub(crate) fn is_within(self) -> bool
        ensures { result ≡ is_within self }
    {
        match self {
            SwingPlace::Outside => false,
            SwingPlace::Between | SwingPlace::Inner => true,
        }
    }
}

/// Where the impedance of the positive sequence lies: of 3U1, `u1`, in counts of 10 mV, and 3I1, `i1`, in
/// counts of 1 mA, whose parts are below 2^32 in size. `Inner` where resistance and reactance are at most
/// `inner_r` and `inner_x` in size, else `Between` where they are at most `outer_r` and `outer_x`, else
/// `Outside`; without current it is `Outside`.
pub fn swing_place(s: &SwingSettings, u1: Cx, i1: Cx) -> SwingPlace
    requires settings { IsSwing s.now }
    requires u1 { IsBelow u1 sequence_bound }
    requires i1 { IsBelow i1 sequence_bound }
    ensures { result ≡ place_of s.now u1 i1 }
{
    let z = impedance_of(u1, i1);
    if is_within_blinder(&z, s.inner_r, s.inner_x) {
        SwingPlace::Inner
    } else if is_within_blinder(&z, s.outer_r, s.outer_x) {
        SwingPlace::Between
    } else {
        SwingPlace::Outside
    }
}

/// Whether resistance and reactance are at most `r` and `x` in size.
fn is_within_blinder(z: &Impedance, r: i64, x: i64) -> bool
    requires r { unsigned_abs r ≤ 1000000 }
    requires x { unsigned_abs x ≤ 1000000 }
    ensures { result ≡ (int_lt (pos 0) z.now.square
        && int_le z.now.resistance (r *ℤ z.now.square) && int_le z.now.reactance (x *ℤ z.now.square)) }
{
    (z.square > 0) & (z.resistance <= z.milliohms(r)) & (z.reactance <= z.milliohms(x))
}

/// Whether the line is unbalanced, and so has a fault and no swing: 3I2, `i2`, is at least `i2_share`
/// thousandths of 3I1, `i1`, in size. A line without any current is. Parts are below 2^32 in size.
pub fn unbalanced(s: &SwingSettings, i1: Cx, i2: Cx) -> bool
    requires settings { IsSwing s.now }
    requires i1 { IsBelow i1 sequence_bound }
    requires i2 { IsBelow i2 sequence_bound }
    ensures { result ≡ is_unbalanced s.now i1 i2 }
{
    let share = s.i2_share * s.i2_share;
    times(1_000_000, norm(i2)) >= times(share, norm(i1))
}

/// `k` times `square`.
fn times(k: u32, square: i128) -> i128
    requires k { k ≤ 1000000 }
    requires square { unsigned_abs square < 2 ^ 96 }
    ensures { result ≡ pos k *ℤ square }
{
    i128::from(k) * square
}
