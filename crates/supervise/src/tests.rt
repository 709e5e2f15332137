//! Rows worked by hand: at a current of 100 mA a count of voltage is 100 milliohms, and at 4800 samples a
//! second 1 ms is 5 samples.
use super::*;
use relay_num::Cx;
use relay_settings::{FuseSettings, LoadSettings};

const FUSE: FuseSettings = FuseSettings {
    u2_min: 1,
    i2_max: 1,
    hold_ms: 1,
};

const LOAD: LoadSettings = LoadSettings { r: 100, slope: 500 };

const NONE: Cx = Cx { re: 0, im: 0 };

#[test]
fn a_suspect_take_blocks_for_its_time_without_negative_sequence(rt: HostRuntime) {
    let mut fuse = Fuse::new(&FUSE, 4800);
    assert!(rt; fuse.take(true, true));
    for _ in 0..4 {
        assert!(rt; fuse.take(false, true));
    }
    assert!(rt; !fuse.take(false, true));
    let mut other = Fuse::new(&FUSE, 4800);
    assert!(rt; other.take(true, true));
    assert!(rt; !other.take(false, false));
    assert!(rt; other.take(false, true));
    other.clear();
    assert!(rt; !other.take(false, true));
}

#[test]
fn load_is_far_and_flat(rt: HostRuntime) {
    let current = Cx { re: 100, im: 0 };
    assert!(rt; load_blocks(&LOAD, Cx { re: 2, im: 1 }, current));
    assert!(rt; !load_blocks(&LOAD, Cx { re: 2, im: 2 }, current));
    let farther = LoadSettings { r: 201, slope: 500 };
    assert!(rt; !load_blocks(&farther, Cx { re: 2, im: 1 }, current));
    assert!(rt; load_blocks(&LOAD, Cx { re: -2, im: 1 }, current));
    assert!(rt; !load_blocks(&LOAD, NONE, NONE));
}

#[test]
fn ground_loops_need_residual_current(rt: HostRuntime) {
    let currents = [Cx { re: 5, im: 0 }, NONE, NONE];
    assert_eq!(rt;
        current_allowed(&currents, Cx { re: 5, im: 0 }, 96, 2, 2),
        41
    );
    assert_eq!(rt;
        current_allowed(&currents, Cx { re: 4, im: 0 }, 96, 2, 2),
        40
    );
}
