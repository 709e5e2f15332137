//! Rows worked by hand.
use super::*;

const ROW: LoopPairs = LoopPairs {
    u: [
        Cx { re: 1, im: 0 },
        Cx { re: 0, im: 0 },
        Cx { re: 0, im: 1 },
        Cx { re: 1, im: 0 },
        Cx { re: 0, im: -1 },
        Cx { re: -1, im: 1 },
    ],
    i: [
        Cx { re: 1100, im: 600 },
        Cx { re: 100, im: 1600 },
        Cx { re: -900, im: 600 },
        Cx {
            re: 1000,
            im: -1000,
        },
        Cx { re: 1000, im: 1000 },
        Cx { re: -2000, im: 0 },
    ],
};

const POLS: [Cx; 6] = [
    Cx { re: 16384, im: 0 },
    Cx {
        re: -8192,
        im: -14189,
    },
    Cx {
        re: -8192,
        im: 14189,
    },
    Cx {
        re: 24576,
        im: 14189,
    },
    Cx { re: 0, im: -28378 },
    Cx {
        re: -24576,
        im: 14189,
    },
];

#[test]
fn ground_loops_are_compensated_and_phase_loops_are_differences(rt: HostRuntime) {
    let volts = [
        Cx { re: 1, im: 0 },
        Cx { re: 0, im: 0 },
        Cx { re: 0, im: 1 },
    ];
    let amps = [
        Cx { re: 1, im: 0 },
        Cx { re: 0, im: 1 },
        Cx { re: -1, im: 0 },
    ];
    assert_eq!(rt; loops(&volts, &amps, Cx { re: 600, im: -100 }), ROW);
    assert_eq!(rt; loop_pols(POLS[0]), POLS);
    let most = Cx {
        re: 1_073_741_824,
        im: 1_073_741_824,
    };
    let least = Cx {
        re: -1_073_741_824,
        im: -1_073_741_824,
    };
    let greatest = loops(
        &[most, least, most],
        &[most, most, most],
        Cx {
            re: 4000,
            im: -4000,
        },
    );
    assert_eq!(rt;
        greatest.u[3],
        Cx {
            re: 2_147_483_648,
            im: 2_147_483_648
        }
    );
    assert_eq!(rt;
        greatest.i[0],
        Cx {
            re: 26_843_545_600_000,
            im: 1_073_741_824_000
        }
    );
}
