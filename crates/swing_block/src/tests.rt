//! Rows worked by hand: at a current of 100 mA a count of voltage is 100 milliohms, and at 4800 samples a
//! second 1 and 2 ms are 5 and 10 samples.
use super::*;
use crate::SwingPlace::{Between, Inner, Outside};
use relay_num::Cx;
use relay_settings::SwingSettings;

const SETTINGS: SwingSettings = SwingSettings {
    outer_r: 400,
    outer_x: 200,
    inner_r: 200,
    inner_x: 100,
    pass_ms: 1,
    max_ms: 2,
    i2_share: 500,
};

const CURRENT: Cx = Cx { re: 100, im: 0 };

/// Whether each of so many takes answers `want`.
fn each(swing: &mut Swing, count: u32, place: SwingPlace, unbalanced: bool, want: bool) -> bool {
    let mut each = true;
    for _ in 0..count {
        each &= swing.take(place, unbalanced) == want;
    }
    each
}

#[test]
fn a_swing_is_declared_between_the_blinders_and_ends(rt: HostRuntime) {
    let mut swing = Swing::new(&SETTINGS, 4800);
    assert!(rt; each(&mut swing, 4, Between, false, false));
    assert!(rt; each(&mut swing, 1, Between, false, true));
    assert!(rt; each(&mut swing, 9, Inner, false, true));
    assert!(rt; each(&mut swing, 1, Inner, false, false));
    swing.clear();
    assert!(rt; each(&mut swing, 4, Between, false, false));
    assert!(rt; each(&mut swing, 1, Between, false, true));
    assert!(rt; each(&mut swing, 3, Inner, false, true));
    assert!(rt; each(&mut swing, 1, Inner, true, false));
    assert!(rt; each(&mut swing, 1, Inner, false, true));
    swing.clear();
    assert!(rt; each(&mut swing, 4, Between, false, false));
    assert!(rt; each(&mut swing, 20, Inner, false, false));
}

#[test]
fn each_place_includes_its_blinder(rt: HostRuntime) {
    assert_eq!(rt; swing_place(&SETTINGS, Cx { re: 2, im: 1 }, CURRENT), Inner);
    assert_eq!(rt;
        swing_place(&SETTINGS, Cx { re: -2, im: -1 }, CURRENT),
        Inner
    );
    assert_eq!(rt;
        swing_place(&SETTINGS, Cx { re: 3, im: 1 }, CURRENT),
        Between
    );
    assert_eq!(rt;
        swing_place(&SETTINGS, Cx { re: 4, im: -2 }, CURRENT),
        Between
    );
    assert_eq!(rt;
        swing_place(&SETTINGS, Cx { re: 5, im: 1 }, CURRENT),
        Outside
    );
    assert_eq!(rt;
        swing_place(&SETTINGS, Cx { re: 2, im: 3 }, CURRENT),
        Outside
    );
    let none = Cx { re: 0, im: 0 };
    assert_eq!(rt; swing_place(&SETTINGS, none, none), Outside);
}

#[test]
fn half_the_positive_sequence_is_unbalanced(rt: HostRuntime) {
    assert!(rt; unbalanced(&SETTINGS, CURRENT, Cx { re: 0, im: -50 }));
    assert!(rt; !unbalanced(&SETTINGS, CURRENT, Cx { re: 0, im: -49 }));
}
