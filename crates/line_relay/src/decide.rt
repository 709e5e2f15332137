//! What the masks of loops say of a sample: whether a zone with trip operates, and whether the line is dead.
ghost use Rattle.std.specs.Prelude.{ℕ, ◌≡◌, ◌≤◌, ◌+◌, ◌⊎◌, ◌^◌, Bool, not, ◌&&◌, ◌==◌, slice_index, List, [], ◌∷◌};
ghost use Rattle.std.specs.Option.{ForSome, option_map};
ghost use Rattle.std.specs.List.{All};
ghost use Rattle.relay_num.specs.Numbers.{IsBelow};
ghost use Rattle.relay_settings.specs.Ranges.{IsLine, IsZone};
ghost use Rattle.relay_settings.specs.Settings.{plain_line};
ghost use Rattle.line_relay.specs.Measured.{measured};
ghost use Rattle.line_relay.specs.Inside.{holds_of};
ghost use Rattle.line_relay.specs.Points.{has_some};
ghost use Rattle.line_relay.specs.Decided.{trips_by, dead_by};
ghost use Rattle.line_relay.specs.FarBelow.{greatest_by};

use crate::measured::measure;
use crate::quiet::is_far_below;
use relay_num::{Cx, at_least_rms};
use relay_settings::{LineSettings, ZoneSettings};

/// Whether a zone with trip operates in some loop.
pub fn trips(zones: &[ZoneSettings], operate: &[u8; 5]) -> bool
    ensures { result ≡ trips_by zones.now operate.now }
{
    let [first, second, third, fourth, fifth] = *operate;
    trips_in(zones, 0, first)
        || trips_in(zones, 1, second)
        || trips_in(zones, 2, third)
        || trips_in(zones, 3, fourth)
        || trips_in(zones, 4, fifth)
}

/// Whether the zone at this place has trip and a loop in its mask.
fn trips_in(zones: &[ZoneSettings], place: usize, mask: u8) -> bool
    ensures { result ≡ (holds_of (λ zone. zone.trip) zones.now place && not (mask == 0)) }
{
    match zones.get(place) {
        Some(zone) => zone.trip && mask != 0,
        None => false,
    }
}

/// Whether the sample is ready and none of its phase currents is as large as `open_i`. `greatest` is the greatest part of
/// these currents.
pub fn is_dead(settings: &LineSettings, n: u32, phasors: &Option<[Cx; 8]>, greatest: u64) -> bool
    requires settings { IsLine settings.now }
    requires n { (n ≡ 80) ⊎ (n ≡ 96) }
    requires phasors { ForSome phasors.now (All (λ p. IsBelow p (2 ^ 30 + 1))) }
    requires greatest { greatest ≡ greatest_by (option_map measured phasors.now) }
    ensures { result ≡ dead_by n (plain_line settings.now) (option_map measured phasors.now) }
{
    let Some(phasors) = phasors else {
        return false;
    };
    if is_far_below(greatest, n, settings.open_i) {
        return true;
    }
    let [a, b, c] = measure(phasors).currents;
    !at_least_rms(a, n, settings.open_i)
        && !at_least_rms(b, n, settings.open_i)
        && !at_least_rms(c, n, settings.open_i)
}
