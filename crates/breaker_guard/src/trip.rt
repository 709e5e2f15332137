//! The trip by a burst's events.
ghost use Rattle.std.specs.Prelude.{◌≡◌};
ghost use Rattle.std.specs.List.{list_any};
ghost use Rattle.breaker_guard.specs.TripEvents.{is_trip, is_reset, tells, trip_after};

use event_record::{Event, What};

/// Whether the trip stands behind these events, if it did before (`was`) or didn't.
pub fn trip_after(was: bool, events: &[Event]) -> bool
    ensures { result ≡ trip_after was events.now }
{
    has_trip(events) || was && !has_reset(events)
}

fn has_trip(events: &[Event]) -> bool
    ensures { result ≡ list_any (tells is_trip) events.now }
{
    events.iter().any(is_trip)
}

fn has_reset(events: &[Event]) -> bool
    ensures { result ≡ list_any (tells is_reset) events.now }
{
    events.iter().any(is_reset)
}

fn is_trip(event: &Event) -> bool
    ensures { result ≡ tells is_trip event.now }
{
    matches!(
        event,
        Event::Line {
            what: What::Trip,
            ..
        }
    )
}

fn is_reset(event: &Event) -> bool
    ensures { result ≡ tells is_reset event.now }
{
    matches!(
        event,
        Event::Line {
            what: What::Reset,
            ..
        }
    )
}
