//! Which loops have the least current.

ghost use Rattle.std.specs.Prelude.{◌≡◌, ◌<◌, ◌≤◌, ◌⊎◌, [], ◌∷◌};
ghost use Rattle.relay_num.specs.Bounds.{sequence_bound};
ghost use Rattle.relay_num.specs.Numbers.{IsBelow, difference, is_at_least};
ghost use Rattle.loop_impedance.specs.Loops.{ArePhasesBelow, item};
ghost use Rattle.loop_impedance.specs.Masks.{mask};
ghost use Rattle.supervise.specs.Current.{allowed};

use relay_num::{Cx, at_least_rms, difference};

/// The mask of the loops that have the least current: bit 0 for AG, then BG, CG, AB, BC and CA.
///
/// A ground loop has it where its phase current is at least `i_min` and 3I0 at least `i0_min`, a phase loop
/// where the difference of its two phase currents is at least `i_min`. `i` has the phases A, B and C as
/// phasors of `n` samples a cycle, 80 or 96. Minima are counts rms, at most 10^8; parts are below 2^32 in
/// size.
pub fn current_allowed(i: &[Cx; 3], i0: Cx, n: u32, i_min: u32, i0_min: u32) -> u8
    requires i { ArePhasesBelow i.now sequence_bound }
    requires i0 { IsBelow i0 sequence_bound }
    requires n { (n ≡ 80) ⊎ (n ≡ 96) }
    requires i_min { i_min ≤ 100000000 }
    requires i0_min { i0_min ≤ 100000000 }
    ensures { result ≡ mask (allowed (item 0 i.now) (item 1 i.now) (item 2 i.now) i0 n i_min i0_min) }
{
    let [a, b, c] = *i;
    let ground = at_least_rms(i0, n, i0_min);
    let ag = at_least_rms(a, n, i_min) & ground;
    let bg = at_least_rms(b, n, i_min) & ground;
    let cg = at_least_rms(c, n, i_min) & ground;
    let ab = between_at_least(a, b, n, i_min);
    let bc = between_at_least(b, c, n, i_min);
    let ca = between_at_least(c, a, n, i_min);
    mask_of(ag, bg, cg) + 8 * mask_of(ab, bc, ca)
}

/// Whether `a` less `b` is at least `least` counts rms.
fn between_at_least(a: Cx, b: Cx, n: u32, least: u32) -> bool
    requires a { IsBelow a sequence_bound }
    requires b { IsBelow b sequence_bound }
    requires n { (n ≡ 80) ⊎ (n ≡ 96) }
    requires least { least ≤ 100000000 }
    ensures { result ≡ is_at_least (difference a b) n least }
{
    at_least_rms(difference(a, b), n, least)
}

/// The mask of three bits, the lowest first.
fn mask_of(a: bool, b: bool, c: bool) -> u8
    ensures mask { result ≡ mask (a ∷ b ∷ c ∷ []) }
    ensures size { result < 8 }
{
    u8::from(a) + 2 * u8::from(b) + 4 * u8::from(c)
}
