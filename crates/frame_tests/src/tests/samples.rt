//! The numbers of counters at 4800 samples per second, and good samples.
use sample_stream::{Numberer, Taken, sample_of};
use sv_frame::Channel;

#[test]
fn counters_are_carried_on_over_the_second(rt: HostRuntime) {
    let mut stream = Numberer::new(4800);
    assert_eq!(rt; stream.take(4752), Taken::First { number: 4752 });
    assert_eq!(rt;
        stream.take(0),
        Taken::Jump {
            number: 4800,
            missing: 47
        }
    );
    assert_eq!(rt; stream.take(1), Taken::Next { number: 4801 });
    assert_eq!(rt; stream.last(), Some(4801));
}

#[test]
fn late_and_wild_counters_are_not_taken(rt: HostRuntime) {
    let mut stream = Numberer::new(4800);
    assert_eq!(rt; stream.take(500), Taken::First { number: 500 });
    assert_eq!(rt; stream.take(500), Taken::Repeat);
    assert_eq!(rt; stream.take(436), Taken::Late { behind: 64 });
    assert_eq!(rt; stream.take(4800), Taken::Wild);
    assert_eq!(rt;
        stream.take(435),
        Taken::Jump {
            number: 5235,
            missing: 4734
        }
    );
    assert_eq!(rt; stream.take(435).number(), None);
}

/// A lane, its value and quality, the mask, the clock and its least, and whether the sample is good.
static LANES: [(usize, i32, u32, u32, u8, u8, bool); 9] = [
    (0, 268435455, 0, 1, 2, 2, true),
    (0, 268435456, 0, 1, 2, 2, false),
    (6, -268435455, 0, 1, 2, 2, true),
    (6, -268435456, 0, 1, 2, 2, false),
    (4, 7, 3, 2, 2, 2, false),
    (4, 7, 3, 4, 2, 2, true),
    (3, -2147483648, 0xffffffff, 0xffffffff, 2, 2, true),
    (2, 7, 0, 1, 1, 2, false),
    (2, 7, 0, 1, 2, 1, true),
];

#[test]
fn good_samples_have_small_values_of_good_quality(rt: HostRuntime) {
    for (lane, value, quality, mask, synch, least, good) in &LANES {
        let mut channels = [Channel {
            value: 0,
            quality: 0,
        }; 8];
        let mut values = [0; 8];
        assert!(rt; *lane < 8);
        channels[*lane] = Channel {
            value: *value,
            quality: *quality,
        };
        if *good && *lane != 3 {
            values[*lane] = i64::from(*value);
        }
        let sample = sample_of(&channels, *mask, *synch, *least);
        assert_eq!(rt; sample.good, *good, "lane {lane} at {value}");
        assert_eq!(rt; sample.values, values, "lane {lane} at {value}");
    }
}
