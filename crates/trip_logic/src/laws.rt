//! Laws of the definitions, and no code.

ghost use Rattle.trip_logic.specs.NumberedTrip.{TripsByNumber};

/// What a trip answers over the takes is the rule over sample numbers that may have gaps.
pub fn show_trips_by_number<S>()
    ensures { TripsByNumber S }
{}
