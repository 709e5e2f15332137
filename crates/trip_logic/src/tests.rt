//! A trip of at least two samples that ends once the line was dead for two.
use super::*;

#[test]
fn one_operation_trips_until_the_line_is_dead(rt: HostRuntime) {
    let mut trip = Trip::new(2, 2);
    let rows = [
        (10, true, false, (true, true, false)),
        (11, false, true, (true, false, false)),
        (12, false, true, (false, false, true)),
        (13, false, true, (false, false, false)),
        (14, false, true, (false, false, false)),
    ];
    for (number, operated, dead, (on, rose, fell)) in rows {
        let state = trip.take(number, operated, dead);
        assert_eq!(rt; state, TripState { on, rose, fell }, "at {number}");
    }
}
