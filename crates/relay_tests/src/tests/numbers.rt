//! A turn by a third of a circle rounds each part down.
use relay_num::{Cx, times_a, times_a2};

#[test]
fn turned_parts_are_rounded_down(rt: HostRuntime) {
    let one = Cx { re: 1, im: 0 };
    assert_eq!(rt; times_a(one), Cx { re: -1, im: 0 });
    assert_eq!(rt; times_a2(one), Cx { re: -1, im: -1 });
    let scale = Cx { re: 16384, im: 0 };
    let turned = Cx {
        re: -8192,
        im: 14189,
    };
    assert_eq!(rt; times_a(scale), turned);
}
