//! The loops of a distance relay: voltage, compensated current and polarising voltage of each.
//!
//! Loops come in the order AG, BG, CG, AB, BC, CA, and phases as A, B, C; a mask of loops has its bits in
//! that order (`specs/Masks.antt`). Voltages keep their unit; loop currents are thousandths of it, since the
//! residual compensation factor is in thousandths. The six loops are formed at once in eight lanes. It stands
//! on `lanes` for exact operations on these, and on `relay_num` for complex numbers.
#![tactic(auto)]

ghost use Rattle.std.specs.Prelude.{◌≡◌, ◌<◌, ◌^◌, ◌*◌};
ghost use Rattle.std.specs.Int.RustNames.{unsigned_abs};
ghost use Rattle.relay_num.specs.Bounds.{AllBelow, phasor_bound, sequence_bound, loop_voltage_bound, loop_current_bound, polarising_bound};
ghost use Rattle.relay_num.specs.Numbers.{IsBelow, sum, product};
ghost use Rattle.loop_impedance.specs.Loops.{ArePhasesBelow, AreLoopsBelow, item, voltages_of, currents_of, polarising_of};
ghost use Rattle.loop_impedance.specs.LoopLanes.{between_lanes, compensated_lanes, joined_lanes};

use lanes::{difference8, multiple8, sum8};
use relay_num::{Cx, sum, times_a, times_a2};

mod laws;
#[cfg(test)]
mod tests;

pub use laws::show_masks_agree;

/// Voltage and current of each loop.
#[derive(Clone, Copy, PartialEq, Eq, Debug, Drop)]
pub struct LoopPairs {
    pub u: [Cx; 6],
    pub i: [Cx; 6],
}

/// The loops of three phase voltages and currents, whose parts are at most 2^30 in size. `k0` is the
/// residual compensation factor in thousandths, with parts from -4000 to 4000. The voltages' parts are
/// at most 2^31 in size, and the currents' below 2^45.
pub fn loops(u: &[Cx; 3], i: &[Cx; 3], k0: Cx) -> LoopPairs
    requires u { ArePhasesBelow u.now phasor_bound }
    requires i { ArePhasesBelow i.now phasor_bound }
    requires k0 { IsBelow k0 4001 }
    ensures u { result.u ≡ voltages_of (item 0 u.now) (item 1 u.now) (item 2 u.now) }
    ensures i { result.i ≡ currents_of k0 (item 0 i.now) (item 1 i.now) (item 2 i.now) }
    ensures u_size { AreLoopsBelow result.u loop_voltage_bound }
    ensures i_size { AreLoopsBelow result.i loop_current_bound }
{
    let [ua, ub, uc] = *u;
    let [ia, ib, ic] = *i;
    LoopPairs {
        u: voltages(ua, ub, uc),
        i: currents(ia, ib, ic, k0),
    }
}

/// The polarising voltage of each loop, of `p` for phase A. The parts of `p` are below 2^32 in size,
/// and those of the loops below 2^34.
pub fn loop_pols(p: Cx) -> [Cx; 6]
    requires { IsBelow p sequence_bound }
    ensures pols { result ≡ polarising_of p }
    ensures size { AreLoopsBelow result polarising_bound }
{
    voltages(p, times_a2(p), times_a(p))
}

/// The loops of three phase voltages.
fn voltages(a: Cx, b: Cx, c: Cx) -> [Cx; 6]
    requires a { IsBelow a (2 ^ 33) }
    requires b { IsBelow b (2 ^ 33) }
    requires c { IsBelow c (2 ^ 33) }
    ensures { result ≡ voltages_of a b c }
{
    joined(&between(a.re, b.re, c.re), &between(a.im, b.im, c.im))
}

/// The loops of three phase currents.
fn currents(a: Cx, b: Cx, c: Cx, k0: Cx) -> [Cx; 6]
    requires a { IsBelow a phasor_bound }
    requires b { IsBelow b phasor_bound }
    requires c { IsBelow c phasor_bound }
    requires k0 { IsBelow k0 4001 }
    ensures { result ≡ currents_of k0 a b c }
{
    let shared = compensation(k0, total(a, b, c));
    joined(
        &compensated(&between(a.re, b.re, c.re), shared.re),
        &compensated(&between(a.im, b.im, c.im), shared.im),
    )
}

/// One part, real or imaginary, of each loop in its lane: of a ground loop that of its phase, of a phase loop
/// the difference of two. Two of the eight lanes aren't used.
#[inline(always)]
fn between(a: i64, b: i64, c: i64) -> [i64; 8]
    requires a { unsigned_abs a < 2 ^ 33 }
    requires b { unsigned_abs b < 2 ^ 33 }
    requires c { unsigned_abs c < 2 ^ 33 }
    ensures { result ≡ between_lanes a b c }
{
    difference8(&[a, b, c, a, b, c, 0, 0], &[0, 0, 0, b, c, a, 0, 0])
}

/// A thousand times each lane, and in those of the ground loops `shared` besides.
#[inline(always)]
fn compensated(lanes: &[i64; 8], shared: i64) -> [i64; 8]
    requires lanes { AllBelow lanes.now (2 ^ 40) }
    requires shared { unsigned_abs shared < 2 ^ 50 }
    ensures { result ≡ compensated_lanes lanes.now shared }
{
    sum8(
        &multiple8(lanes, 1000),
        &[shared, shared, shared, 0, 0, 0, 0, 0],
    )
}

/// The loops of these real and imaginary parts.
#[inline(always)]
fn joined(re: &[i64; 8], im: &[i64; 8]) -> [Cx; 6]
    ensures { result ≡ joined_lanes re.now im.now }
{
    [
        Cx {
            re: re[0],
            im: im[0],
        },
        Cx {
            re: re[1],
            im: im[1],
        },
        Cx {
            re: re[2],
            im: im[2],
        },
        Cx {
            re: re[3],
            im: im[3],
        },
        Cx {
            re: re[4],
            im: im[4],
        },
        Cx {
            re: re[5],
            im: im[5],
        },
    ]
}

/// The sum of three numbers.
fn total(a: Cx, b: Cx, c: Cx) -> Cx
    requires a { IsBelow a phasor_bound }
    requires b { IsBelow b phasor_bound }
    requires c { IsBelow c phasor_bound }
    ensures sum { result ≡ sum (sum a b) c }
    ensures size { IsBelow result (3 * phasor_bound) }
{
    sum(sum(a, b), c)
}

/// The compensation of a ground loop's current, in thousandths: `k0` times the residual current.
fn compensation(k0: Cx, residual: Cx) -> Cx
    requires k0 { IsBelow k0 4001 }
    requires residual { IsBelow residual (3 * phasor_bound) }
    ensures value { result ≡ product k0 residual }
    ensures size { IsBelow result (2 ^ 50) }
{
    Cx {
        re: k0.re * residual.re - k0.im * residual.im,
        im: k0.re * residual.im + k0.im * residual.re,
    }
}
