//! Which part of a zone a loop has, and whether it is inside that.

ghost use Rattle.std.specs.Prelude.{◌≡◌, ◌<◌, ◌≤◌, ◌+◌};
ghost use Rattle.std.specs.Option.{ForSome};
ghost use Rattle.std.specs.List.{list_any};
ghost use Rattle.relay_settings.specs.Ranges.{IsZone, IsZonePart};
ghost use Rattle.zone_shape.specs.LoopBounds.{IsLoopInBounds};
ghost use Rattle.zone_shape.specs.ZoneParts.{part_of, is_reverse, is_in_zone, is_quad_part, has_quad};

use crate::shape_holds;
use relay_num::{Cx, Steps};
use relay_settings::{Dir, Shape, ZonePart, ZoneSettings};
use std::sync::ledger::Ledger;

/// Whether loop `lp` of six (0 for AG, then BG, CG, AB, BC and CA) is inside the zone: AG, BG and CG have its
/// part to ground, AB, BC and CA its part between phases, and without the part no loop is inside. A zone in
/// reverse takes the opposite of the current. Sizes and steps are those of `shape_holds`.
pub fn zone_holds<L: Ledger>(
    zone: &ZoneSettings,
    lp: usize,
    u: Cx,
    i: Cx,
    pol: Option<Cx>,
    steps: &mut Steps<L>,
) -> bool
    requires zone { IsZone zone.now }
    requires bounds { IsLoopInBounds u i pol }
    ensures zone { result ≡ is_in_zone zone.now lp u i pol }
    ensures cost { steps.new ≤ steps.old + 1 }
{
    match part_of(zone, lp) {
        Some(part) => shape_holds(&part.shape, is_reverse(zone.dir), u, i, pol, steps),
        None => false,
    }
}

/// Whether some zone has a quadrilateral.
pub fn has_quad(zones: &[ZoneSettings]) -> bool
    ensures { result ≡ list_any has_quad zones.now }
{
    zones
        .iter()
        .any(|zone| is_quad(&zone.ground) || is_quad(&zone.phase))
}

/// Whether the part is a quadrilateral.
fn is_quad(part: &Option<ZonePart>) -> bool
    ensures { result ≡ is_quad_part part.now }
{
    match part {
        Some(part) => match part.shape {
            Shape::Mho(_) => false,
            Shape::Quad(_) => true,
        },
        None => false,
    }
}

/// The part that the loop has.
fn part_of(zone: &ZoneSettings, lp: usize) -> Option<ZonePart>
    requires { IsZone zone.now }
    ensures part { result ≡ part_of zone.now lp }
    ensures range { ForSome result IsZonePart }
{
    if lp < 3 { zone.ground } else { zone.phase }
}

/// Whether a zone of this direction looks backwards.
pub fn is_reverse(dir: Dir) -> bool
    ensures { result ≡ is_reverse dir }
{
    match dir {
        Dir::Reverse => true,
        Dir::Forward | Dir::Unasked => false,
    }
}
