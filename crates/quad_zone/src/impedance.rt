//! What every quadrilateral asks of a loop, formed once.
ghost use Rattle.std.specs.Prelude.{◌≡◌, ◌^◌, ◌<◌, ◌≤◌, ◌*ℤ◌, ◌+ℤ◌, ◌-ℤ◌, ◌≤ℤ◌, pos};
ghost use Rattle.std.specs.Int.RustNames.{unsigned_abs};
ghost use Rattle.relay_num.specs.Bounds.{loop_voltage_bound, loop_current_bound};
ghost use Rattle.relay_num.specs.Numbers.{IsBelow};
ghost use Rattle.apparent_impedance.specs.Impedance.{apparent, loop_scale};

use apparent_impedance::{LOOP_SCALE, apparent};
use relay_num::{Cx, Steps, norm};
use relay_settings::QuadSettings;
use std::sync::ledger::Ledger;

/// The impedance of a loop in milliohms, as fractions over `square`.
#[derive(Clone, Copy, Drop)]
pub struct LoopImpedance {
    /// The resistance in milliohms, times `square`.
    resistance: i128,
    /// The reactance in milliohms, times `square`.
    reactance: i128,
    /// The square of the current's size; 0 where there is no current, and no impedance.
    square: i128,
    ghost resistance_size: { unsigned_abs resistance < 2 ^ 110 },
    ghost reactance_size: { unsigned_abs reactance < 2 ^ 110 },
    ghost square_size: { unsigned_abs square < 2 ^ 96 },
    ghost square_sign: { pos 0 ≤ℤ square },
}

impl LoopImpedance {
    ghost use Rattle.std.specs.Prelude.{◌≡◌, ◌+◌, pos, neg_ℤ, ◌+ℤ◌, ◌-ℤ◌, ◌*ℤ◌, ◌&&◌};
    ghost use Rattle.std.specs.Int.RustNames.{int_le};
    ghost use Rattle.relay_num.specs.declared.Cx.{Cx};
    ghost use Rattle.relay_num.specs.Bounds.{loop_voltage_bound, loop_current_bound};
    ghost use Rattle.relay_num.specs.Numbers.{IsBelow, opposite};
    ghost use Rattle.relay_settings.specs.Ranges.{IsQuad};
    ghost use Rattle.quad_zone.specs.Quad.{is_inside_quad};
    ghost use Rattle.quad_zone.specs.Impedances.{IsImpedance};

    /// Of the voltage `u` and the current `i`, sized as in `quad_inside`.
    pub fn of(u: Cx, i: Cx) -> LoopImpedance
        requires u { IsBelow u loop_voltage_bound }
        requires i { IsBelow i loop_current_bound }
        ensures { IsImpedance u i result }
    {
        let apparent = apparent(LOOP_SCALE, u, i);
        LoopImpedance {
            resistance: apparent.re,
            reactance: apparent.im,
            square: norm(i),
        }
    }

    /// The same loop with its current turned round, as a zone that looks backwards takes it.
    pub fn turned(&self) -> LoopImpedance
        ensures { (u i : Cx) → IsImpedance u i self.now → IsImpedance u (opposite i) result }
    {
        LoopImpedance {
            resistance: -self.resistance,
            reactance: -self.reactance,
            square: self.square,
        }
    }

    /// Whether the loop is inside the quadrilateral, as `quad_inside` says. One step, a zone test.
    pub fn is_inside<L: Ledger>(&self, q: &QuadSettings, steps: &mut Steps<L>) -> bool
        requires settings { IsQuad q.now }
        ensures inside { (u i : Cx) → IsImpedance u i self.now → result ≡ is_inside_quad q.now u i }
        ensures cost { steps.new ≡ steps.old + 1 }
    {
        steps.tick();
        if self.square == 0 {
            return false;
        }
        if !self.is_below_top(q) {
            return false;
        }
        if !self.is_between_sides(q) {
            return false;
        }
        self.is_above_bottom(q)
    }

    /// Whether the reactance is at most the reach, less the tilt for each ohm of resistance.
    fn is_below_top(&self, q: &QuadSettings) -> bool
        requires { IsQuad q.now }
        ensures { result ≡ int_le (pos 1000 *ℤ self.now.reactance +ℤ q.now.tilt *ℤ self.now.resistance) (pos 1000 *ℤ q.now.reach_x *ℤ self.now.square) }
    {
        tilted(self.reactance, q.tilt, self.resistance) <= times(1000 * q.reach_x, self.square)
    }

    /// Whether the resistance, less the lean of the sides for each ohm of reactance, is within the reach to both sides.
    fn is_between_sides(&self, q: &QuadSettings) -> bool
        requires { IsQuad q.now }
        ensures { result ≡ (int_le (neg_ℤ (pos 1000) *ℤ q.now.reach_r *ℤ self.now.square) (pos 1000 *ℤ self.now.resistance -ℤ q.now.slope *ℤ self.now.reactance)
            && int_le (pos 1000 *ℤ self.now.resistance -ℤ q.now.slope *ℤ self.now.reactance) (pos 1000 *ℤ q.now.reach_r *ℤ self.now.square)) }
    {
        let side = leaned(self.resistance, q.slope, self.reactance);
        let reach = times(1000 * q.reach_r, self.square);
        side.unsigned_abs() <= reach as u128
    }

    /// Whether the reactance is at least the reach behind the relay.
    fn is_above_bottom(&self, q: &QuadSettings) -> bool
        requires { IsQuad q.now }
        ensures { result ≡ int_le (neg_ℤ q.now.back_x *ℤ self.now.square) self.now.reactance }
    {
        -times(q.back_x, self.square) <= self.reactance
    }
}

/// `1000 * x + k * y`
fn tilted(x: i128, k: i64, y: i128) -> i128
    requires k { unsigned_abs k ≤ 1000 }
    requires x { unsigned_abs x < 2 ^ 110 }
    requires y { unsigned_abs y < 2 ^ 110 }
    ensures { result ≡ pos 1000 *ℤ x +ℤ k *ℤ y }
{
    1000 * x + i128::from(k) * y
}

/// `1000 * x - k * y`, with `k` of at least 0: an unsigned factor takes a multiplication less.
fn leaned(x: i128, k: i64, y: i128) -> i128
    requires k { unsigned_abs k ≤ 1000 }
    requires k_sign { pos 0 ≤ℤ k }
    requires x { unsigned_abs x < 2 ^ 110 }
    requires y { unsigned_abs y < 2 ^ 110 }
    ensures { result ≡ pos 1000 *ℤ x -ℤ k *ℤ y }
{
    1000 * x - i128::from(k as u64) * y
}

/// `k * size`, of a reach and a square, which aren't below 0: unsigned factors take a multiplication less.
fn times(k: i64, size: i128) -> i128
    requires k { unsigned_abs k < 2 ^ 30 }
    requires k_sign { pos 0 ≤ℤ k }
    requires size { unsigned_abs size < 2 ^ 96 }
    requires size_sign { pos 0 ≤ℤ size }
    ensures value { result ≡ k *ℤ size }
    ensures size { unsigned_abs result < 2 ^ 126 }
    ensures sign { pos 0 ≤ℤ result }
{
    (u128::from(k as u64) * size as u128) as i128
}
