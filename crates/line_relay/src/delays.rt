//! The delays of the zones' parts in samples.
ghost use Rattle.std.specs.Prelude.{◌≡◌, ◌≤◌, All, IfSome};
ghost use Rattle.std.specs.Option.{option_map};
ghost use Rattle.relay_settings.specs.Ranges.{IsZone, IsZonePart};
ghost use Rattle.line_relay.specs.Operate.{delays_of, delay_in, part_delay};

use relay_settings::{ZonePart, ZoneSettings, samples_of};

/// The delay of each zone's ground part, 0 where there is none.
pub fn ground_delays(rate: u32, zones: &[ZoneSettings]) -> [u32; 5]
    requires rate { rate ≤ 4800 }
    requires zones { All IsZone zones.now }
    ensures delays { result ≡ delays_of (λ zone. zone.ground) rate zones.now }
    ensures few { All (λ delay. delay ≤ 288000) result }
{
    [
        ground_delay(rate, zones, 0),
        ground_delay(rate, zones, 1),
        ground_delay(rate, zones, 2),
        ground_delay(rate, zones, 3),
        ground_delay(rate, zones, 4),
    ]
}

/// The delay of each zone's phase part, 0 where there is none.
pub fn phase_delays(rate: u32, zones: &[ZoneSettings]) -> [u32; 5]
    requires rate { rate ≤ 4800 }
    requires zones { All IsZone zones.now }
    ensures delays { result ≡ delays_of (λ zone. zone.phase) rate zones.now }
    ensures few { All (λ delay. delay ≤ 288000) result }
{
    [
        phase_delay(rate, zones, 0),
        phase_delay(rate, zones, 1),
        phase_delay(rate, zones, 2),
        phase_delay(rate, zones, 3),
        phase_delay(rate, zones, 4),
    ]
}

fn ground_delay(rate: u32, zones: &[ZoneSettings], place: usize) -> u32
    requires rate { rate ≤ 4800 }
    requires zones { All IsZone zones.now }
    ensures delay { result ≡ delay_in (λ zone. zone.ground) rate zones.now place }
    ensures few { result ≤ 288000 }
{
    match zones.get(place) {
        Some(zone) => part_delay(rate, &zone.ground),
        None => 0,
    }
}

fn phase_delay(rate: u32, zones: &[ZoneSettings], place: usize) -> u32
    requires rate { rate ≤ 4800 }
    requires zones { All IsZone zones.now }
    ensures delay { result ≡ delay_in (λ zone. zone.phase) rate zones.now place }
    ensures few { result ≤ 288000 }
{
    match zones.get(place) {
        Some(zone) => part_delay(rate, &zone.phase),
        None => 0,
    }
}

fn part_delay(rate: u32, part: &Option<ZonePart>) -> u32
    requires rate { rate ≤ 4800 }
    requires part { IfSome part.now IsZonePart }
    ensures delay { result ≡ part_delay rate part.now }
    ensures few { result ≤ 288000 }
{
    match part {
        Some(part) => samples_of(rate, part.delay_ms),
        None => 0,
    }
}
