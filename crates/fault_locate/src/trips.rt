//! The trip among a sample's events, and the loop that raised it.
ghost use Rattle.std.specs.Prelude.{◌≡◌, ◌<◌};
ghost use Rattle.std.specs.List.{All};
ghost use Rattle.std.specs.Option.{ForSome};
ghost use Rattle.event_record.specs.Printable.{IsPrintable};
ghost use Rattle.fault_locate.specs.TripEvents.{is_trip_event, has_trip, loop_of_event, first_loop_of};

use event_record::{Event, What};
use relay_settings::ZoneSettings;

/// Whether a trip begins to stand.
pub fn has_trip(events: &[Event]) -> bool
    ensures { result ≡ has_trip events.now }
{
    events.iter().any(is_trip_event)
}

fn is_trip_event(event: &Event) -> bool
    ensures { result ≡ is_trip_event event.now }
{
    matches!(
        event,
        Event::Line {
            what: What::Trip,
            ..
        }
    )
}

/// The loop of the first operation of a zone that has `trip`. None comes exactly where there is none.
pub fn first_loop(zones: &[ZoneSettings], events: &[Event]) -> Option<u8>
    requires { All IsPrintable events.now }
    ensures value { result ≡ first_loop_of zones.now events.now }
    ensures below { ForSome result (λ lp. lp < 6) }
{
    for event in events {
        if let Some(lp) = tripping_loop(zones, event) {
            return Some(lp);
        }
    }
    None
}

/// The loop of an operation of a zone that has `trip`; an event names a zone by its number, from 1.
fn tripping_loop(zones: &[ZoneSettings], event: &Event) -> Option<u8>
    requires { IsPrintable event.now }
    ensures value { result ≡ loop_of_event zones.now event.now }
    ensures below { ForSome result (λ lp. lp < 6) }
{
    let Event::Line {
        what: What::Operate { zone, lp },
        ..
    } = *event
    else {
        return None;
    };
    match zones.get(usize::from(zone - 1)) {
        Some(zone) if zone.trip => Some(lp),
        _ => None,
    }
}
