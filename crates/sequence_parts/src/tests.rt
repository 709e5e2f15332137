//! Rows worked by hand.
use super::*;
use relay_num::at_least_rms;

#[test]
fn one_phase_turns_apart_and_three_equal_phases_are_zero_sequence(rt: HostRuntime) {
    let none = Cx { re: 0, im: 0 };
    let one = Sequence {
        zero: Cx { re: 16384, im: 0 },
        plus: Cx {
            re: -8192,
            im: 14189,
        },
        minus: Cx {
            re: -8192,
            im: -14189,
        },
    };
    assert_eq!(rt; parts(none, one.zero, none), one);
    let greatest = Cx {
        re: 1_073_741_824,
        im: 1_073_741_824,
    };
    let equal = Sequence {
        zero: Cx {
            re: 3_221_225_472,
            im: 3_221_225_472,
        },
        plus: none,
        minus: none,
    };
    assert_eq!(rt; parts(greatest, greatest, greatest), equal);
    assert!(rt; at_least_rms(Cx { re: 5, im: 0 }, 96, 2));
    assert!(rt; !at_least_rms(Cx { re: 4, im: 0 }, 96, 2));
}
