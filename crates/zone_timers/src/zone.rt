//! The runs of the loops, a zone at a time in eight lanes, of which the first six are used.
ghost use Rattle.std.specs.Prelude.{ℕ, ◌≡◌, ◌+◌, ◌<◌, ◌≤◌, ◌==◌, if◌then◌else◌, ◌↔◌};
ghost use Rattle.std.specs.Prelude.{All, min, slice_index, IsTrue, [], ◌∷◌};
ghost use Rattle.loop_impedance.specs.Masks.{loop_mask, has_bit};
ghost use Rattle.zone_timers.specs.ZoneMasks.{has_loop, zone_masks};
ghost use Rattle.zone_timers.specs.Operate.{delay_of};
ghost use Rattle.zone_timers.specs.KeptTimers.{lane};

use std::simd::prelude::*;

/// The bit of a mask that each lane stands for; the last two stand for none.
const BITS: [u32; 8] = [1, 2, 4, 8, 16, 32, 0, 0];

/// The runs after one more take: where the loop is inside one more than before, up to its end, otherwise 0.
#[inline(always)]
fn runs_after(runs: &[u32; 8], ends: &[u32; 8], inside: u8) -> [u32; 8]
    requires { (lp : ℕ) → lp < 6 → 0 < slice_index ends.now lp }
    ensures { (lp : ℕ) → lp < 6 → slice_index result lp ≡
        (if has_bit lp inside then min (slice_index runs.now lp + 1) (slice_index ends.now lp) else 0) }
{
    let (runs, ends) = (u32x8::from_array(*runs), u32x8::from_array(*ends));
    // Each end is at least 1, so the least of what lies before both is one less than the run.
    let one = u32x8::splat(1);
    let raised = runs.simd_min(ends - one) + one;
    let none = u32x8::splat(0);
    let is_inside = (u32x8::splat(u32::from(inside)) & u32x8::from_array(BITS)).simd_ne(none);
    is_inside.select(raised, none).to_array()
}

/// The mask of the loops whose runs have come to their ends.
#[inline(always)]
fn ended(runs: &[u32; 8], ends: &[u32; 8]) -> u8
    ensures { result ≡ loop_mask (λ lp. slice_index runs.now lp == slice_index ends.now lp) }
{
    let is_at_end = u32x8::from_array(*runs).simd_eq(u32x8::from_array(*ends));
    (is_at_end.to_bitmask() % 64) as u8
}

/// Whether no loop of any zone is inside.
pub fn is_none(inside: &[u8; 5]) -> bool
    ensures { IsTrue result ↔ (inside.now ≡ 0 ∷ 0 ∷ 0 ∷ 0 ∷ 0 ∷ []) }
{
    let [first, second, third, fourth, fifth] = *inside;
    first == 0 && second == 0 && third == 0 && fourth == 0 && fifth == 0
}

/// One more than each loop's delay.
pub fn ends_of(ground_delays: &[u32; 5], phase_delays: &[u32; 5]) -> [[u32; 8]; 5]
    requires ground_delays { All (λ delay. delay ≤ 288000) ground_delays.now }
    requires phase_delays { All (λ delay. delay ≤ 288000) phase_delays.now }
    ensures { (zone lp : ℕ) → zone < 5 → lp < 6 → lane result zone lp ≡ delay_of ground_delays.now phase_delays.now zone lp + 1 }
{
    let mut ends = [[0; 8]; 5];
    for zone in 0..5 {
        let (g, p) = (ground_delays[zone] + 1, phase_delays[zone] + 1);
        ends[zone] = [g, g, g, p, p, p, p, p];
    }
    ends
}

/// Counts the run of each loop up to its end, and answers for each zone the mask of those that have come to it.
pub fn take_zones(ends: &[[u32; 8]; 5], inside: &[u8; 5], runs: &mut [[u32; 8]; 5]) -> [u8; 5]
    requires { (zone lp : ℕ) → zone < 5 → lp < 6 → 0 < lane ends.now zone lp }
    ensures runs { (zone lp : ℕ) → zone < 5 → lp < 6 → lane runs.new zone lp ≡
        (if has_loop zone lp inside.now then min (lane runs.old zone lp + 1) (lane ends.now zone lp) else 0) }
    ensures ended { result ≡ zone_masks (λ zone lp. lane runs.new zone lp == lane ends.now zone lp) }
{
    let mut operated = [0; 5];
    for zone in 0..5 {
        let row = runs_after(&runs[zone], &ends[zone], inside[zone]);
        operated[zone] = ended(&row, &ends[zone]);
        runs[zone] = row;
    }
    operated
}
