//! Which loops are inside which zone at a ready sample: up to thirty tests, the cheap ones first.
ghost use Rattle.std.specs.Prelude.{ℕ, ◌≡◌, ◌≤◌, ◌<◌, ◌+◌, ◌⊎◌, ◌^◌, false, Some, [], ◌∷◌};
ghost use Rattle.std.specs.List.{All};
ghost use Rattle.std.specs.Option.{ForSome, option_map};
ghost use Rattle.relay_num.specs.Bounds.{reach_bound};
ghost use Rattle.relay_num.specs.Numbers.{IsBelow};
ghost use Rattle.relay_settings.specs.declared.types.Shape.TheVariants.{Mho, Quad};
ghost use Rattle.relay_settings.specs.Ranges.{IsLine, IsZone, IsZonePart, IsQuad};
ghost use Rattle.relay_settings.specs.Settings.{plain_line};
ghost use Rattle.loop_impedance.specs.Masks.{mask, loop_mask};
ghost use Rattle.zone_timers.specs.ZoneMasks.{zone_masks};
ghost use Rattle.line_relay.specs.Inside.{holds_of};
ghost use Rattle.line_relay.specs.Decided.{inside_masks_by};
ghost use Rattle.line_relay.specs.Measured.{measured};
ghost use Rattle.line_relay.specs.FarBelow.{greatest_by};
ghost use Rattle.line_relay.specs.FormedLoops.{candidates_of, is_held, shape_mask, part_mask};

use crate::loops::{Loops, Sides, form_sides, has_bit, loops_of};
use crate::measured::measure;
use crate::quiet::is_far_below;
use relay_num::{Cx, Steps};
use relay_settings::{Dir, LineSettings, QuadSettings, Shape, ZonePart, ZoneSettings};
use std::sync::ledger::Ledger;
use supervise::current_allowed;
use zone_shape::{FormedLoop, has_quad, is_reverse};

/// The masks of the loops inside each of five zones, for what is measured where the sample is ready and what
/// the guards say of it. `greatest` is the greatest part of the phase currents: without a loop that has the least
/// current nothing more is formed. At most 30 steps.
pub fn inside_masks<L: Ledger>(
    settings: &LineSettings,
    n: u32,
    phasors: &Option<[Cx; 8]>,
    greatest: u64,
    polarising: Option<Cx>,
    swing: bool,
    blown: bool,
    steps: &mut Steps<L>,
) -> [u8; 5]
    requires settings { IsLine settings.now }
    requires n { (n ≡ 80) ⊎ (n ≡ 96) }
    requires phasors { ForSome phasors.now (All (λ p. IsBelow p (2 ^ 30 + 1))) }
    requires greatest { greatest ≡ greatest_by (option_map measured phasors.now) }
    requires polarising { ForSome polarising (λ p. IsBelow p (2 ^ 32)) }
    ensures masks { result ≡ inside_masks_by n (plain_line settings.now) (option_map measured phasors.now) polarising swing blown }
    ensures cost { steps.new ≤ steps.old + 30 }
{
    let Some(phasors) = phasors else {
        return [0; 5];
    };
    if blown || is_far_below(greatest, n, settings.i_min) {
        return [0; 5];
    }
    formed_masks(settings, n, phasors, polarising, swing, steps)
}

/// The same of phasors that are there, where no fuse is blown. Few samples need this, so it is kept apart.
#[inline(never)]
fn formed_masks<L: Ledger>(
    settings: &LineSettings,
    n: u32,
    phasors: &[Cx; 8],
    polarising: Option<Cx>,
    swing: bool,
    steps: &mut Steps<L>,
) -> [u8; 5]
    requires settings { IsLine settings.now }
    requires n { (n ≡ 80) ⊎ (n ≡ 96) }
    requires phasors { All (λ p. IsBelow p (2 ^ 30 + 1)) phasors.now }
    requires polarising { ForSome polarising (λ p. IsBelow p (2 ^ 32)) }
    ensures masks { result ≡ inside_masks_by n (plain_line settings.now) (Some (measured phasors.now)) polarising swing false }
    ensures cost { steps.new ≤ steps.old + 30 }
{
    let m = measure(phasors);
    let with_current = current_allowed(
        &m.currents,
        m.current.zero,
        n,
        settings.i_min,
        settings.i0_min,
    );
    if with_current == 0 {
        return [0; 5];
    }
    let zones = settings.zones.as_slice();
    let mut loops = loops_of(settings, &m, polarising);
    loops.form(with_current, has_quad(zones));
    let sides = form_sides(settings, n, &m, &loops, with_current);
    five_masks(zones, &loops, &sides, swing, steps)
}

/// The masks of five zones, 0 where there is no such zone.
fn five_masks<L: Ledger>(
    zones: &[ZoneSettings],
    loops: &Loops,
    sides: &Sides,
    swing: bool,
    steps: &mut Steps<L>,
) -> [u8; 5]
    requires zones { All IsZone zones.now }
    ensures masks { result ≡ zone_masks (λ place lp. holds_of (λ zone. is_held loops.now sides.now swing zone lp) zones.now place) }
    ensures cost { steps.new ≤ steps.old + 30 }
{
    [
        mask_at(zones, 0, loops, sides, swing, steps),
        mask_at(zones, 1, loops, sides, swing, steps),
        mask_at(zones, 2, loops, sides, swing, steps),
        mask_at(zones, 3, loops, sides, swing, steps),
        mask_at(zones, 4, loops, sides, swing, steps),
    ]
}

/// The mask of the loops inside the zone at this place.
fn mask_at<L: Ledger>(
    zones: &[ZoneSettings],
    place: usize,
    loops: &Loops,
    sides: &Sides,
    swing: bool,
    steps: &mut Steps<L>,
) -> u8
    requires zones { All IsZone zones.now }
    ensures mask { result ≡ loop_mask (λ lp. holds_of (λ zone. is_held loops.now sides.now swing zone lp) zones.now place) }
    ensures cost { steps.new ≤ steps.old + 6 }
{
    match zones.get(place) {
        Some(zone) => zone_mask(zone, loops, sides, swing, steps),
        None => 0,
    }
}

/// What a part of a zone asks of three loops besides its shape.
#[derive(Clone, Copy)]
struct Asked {
    /// The loops that the zone may hold, the lowest bit for the first of the three.
    candidates: u8,
    /// The zone looks backwards.
    reversed: bool,
}

/// The mask of the loops inside a zone: those that have the least current and the direction that the zone asks, that
/// load doesn't block, and that are within the characteristic of their part, which is tested last.
fn zone_mask<L: Ledger>(
    zone: &ZoneSettings,
    loops: &Loops,
    sides: &Sides,
    swing: bool,
    steps: &mut Steps<L>,
) -> u8
    requires zone { IsZone zone.now }
    ensures mask { result ≡ loop_mask (is_held loops.now sides.now swing zone.now) }
    ensures cost { steps.new ≤ steps.old + 6 }
{
    if zone.swing_block & swing {
        return 0;
    }
    let candidates = candidates(zone.dir, sides);
    if candidates == 0 {
        return 0;
    }
    let reversed = is_reverse(zone.dir);
    let asked = Asked {
        candidates,
        reversed,
    };
    let ground = part_mask(&zone.ground, asked, &loops.ag, &loops.bg, &loops.cg, steps);
    if zone.load_block & sides.is_load {
        return ground;
    }
    let asked = Asked {
        candidates: candidates / 8,
        reversed,
    };
    ground + 8 * part_mask(&zone.phase, asked, &loops.ab, &loops.bc, &loops.ca, steps)
}

/// The mask of the loops inside a part of a zone, the lowest bit for the first of three.
#[inline(never)]
fn part_mask<L: Ledger>(
    part: &Option<ZonePart>,
    asked: Asked,
    a: &FormedLoop,
    b: &FormedLoop,
    c: &FormedLoop,
    steps: &mut Steps<L>,
) -> u8
    requires part { ForSome part.now IsZonePart }
    ensures mask { result ≡ part_mask part.now asked.candidates asked.reversed a.now b.now c.now }
    ensures few { result < 8 }
    ensures cost { steps.new ≤ steps.old + 3 }
{
    match part {
        Some(part) => match &part.shape {
            Shape::Mho(reach) => circle_mask(*reach, asked, a, b, c, steps),
            Shape::Quad(quad) => quad_mask(quad, asked, a, b, c, steps),
        },
        None => 0,
    }
}

/// The mask of the loops inside a circle.
fn circle_mask<L: Ledger>(
    reach: Cx,
    asked: Asked,
    a: &FormedLoop,
    b: &FormedLoop,
    c: &FormedLoop,
    steps: &mut Steps<L>,
) -> u8
    requires reach { IsBelow reach reach_bound }
    ensures mask { result ≡ shape_mask (Mho reach) asked.candidates asked.reversed a.now b.now c.now }
    ensures few { result < 8 }
    ensures cost { steps.new ≤ steps.old + 3 }
{
    three_bits(
        has_bit(asked.candidates, 0) && a.is_in_circle(reach, asked.reversed, steps),
        has_bit(asked.candidates, 1) && b.is_in_circle(reach, asked.reversed, steps),
        has_bit(asked.candidates, 2) && c.is_in_circle(reach, asked.reversed, steps),
    )
}

/// The mask of the loops inside a quadrilateral.
fn quad_mask<L: Ledger>(
    quad: &QuadSettings,
    asked: Asked,
    a: &FormedLoop,
    b: &FormedLoop,
    c: &FormedLoop,
    steps: &mut Steps<L>,
) -> u8
    requires quad { IsQuad quad.now }
    ensures mask { result ≡ shape_mask (Quad quad.now) asked.candidates asked.reversed a.now b.now c.now }
    ensures few { result < 8 }
    ensures cost { steps.new ≤ steps.old + 3 }
{
    three_bits(
        has_bit(asked.candidates, 0) && a.is_in_quad(quad, asked.reversed, steps),
        has_bit(asked.candidates, 1) && b.is_in_quad(quad, asked.reversed, steps),
        has_bit(asked.candidates, 2) && c.is_in_quad(quad, asked.reversed, steps),
    )
}

/// The number of three bits, the lowest first.
fn three_bits(a: bool, b: bool, c: bool) -> u8
    ensures mask { result ≡ mask (a ∷ b ∷ c ∷ []) }
    ensures few { result < 8 }
{
    u8::from(a) + 2 * u8::from(b) + 4 * u8::from(c)
}

/// The loops that a zone of this direction may hold.
fn candidates(dir: Dir, sides: &Sides) -> u8
    ensures { result ≡ candidates_of dir sides.now }
{
    match dir {
        Dir::Forward => sides.ahead,
        Dir::Reverse => sides.behind,
        Dir::Unasked => sides.with_current,
    }
}
