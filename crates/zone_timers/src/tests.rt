//! Rows worked by hand, with delays in zone 1 and none in the others.
use super::*;

#[test]
fn a_loop_operates_once_it_was_inside_for_the_whole_delay(rt: HostRuntime) {
    let delays = [2, 0, 0, 0, 0];
    let mut timers = Timers::new(&delays, &delays);
    for (inside, operated) in [(1, 0), (1, 0), (3, 1), (3, 1), (3, 3)] {
        let answer = timers.take(&[inside, 0, 0, 0, 0]);
        assert_eq!(rt; answer, [operated, 0, 0, 0, 0], "at {inside}");
    }
    timers.clear();
    assert_eq!(rt; timers.take(&[3, 255, 0, 0, 32]), [0, 63, 0, 0, 32]);
}

#[test]
fn each_part_of_a_zone_has_its_own_delay(rt: HostRuntime) {
    let mut timers = Timers::new(&[1, 0, 0, 0, 0], &[0; 5]);
    assert_eq!(rt; timers.take(&[9, 0, 0, 0, 0]), [8, 0, 0, 0, 0]);
    assert_eq!(rt; timers.take(&[9, 0, 0, 0, 0]), [9, 0, 0, 0, 0]);
}
