//! Loops just inside a reach of one ohm, seen forwards and backwards.
ghost use Rattle.std.specs.Prelude.{◌≡◌, ◌<◌};
ghost use Rattle.std.specs.Option.{ForSome};
ghost use Rattle.relay_num.specs.Bounds.{loop_voltage_bound, loop_current_bound, polarising_bound};
ghost use Rattle.relay_num.specs.Numbers.{IsBelow};
ghost use Rattle.relay_settings.specs.Ranges.{IsShape, IsZone};

use super::*;
use relay_num::open_steps;
use relay_settings::{Dir, QuadSettings, ZonePart, ZoneSettings};
use std::marker::Brand;
use std::sync::ledger::Blank;

const MHO: Shape = Shape::Mho(Cx { re: 0, im: 1000 });

const QUAD: Shape = Shape::Quad(QuadSettings {
    reach_r: 500,
    reach_x: 1000,
    tilt: 0,
    slope: 0,
    back_x: 0,
});

fn inside<L: Ledger>(shape: Shape, reversed: bool, i: Cx, pol: Option<Cx>, blank: Blank) -> bool
    requires shape { IsShape shape }
    requires i { IsBelow i loop_current_bound }
    requires pol { ForSome pol (λ p. IsBelow p polarising_bound) }
    requires name { blank.name ≡ L.name }
    requires parts { blank.parts ≡ L.parts }
    requires shares { 0 < blank.parts }
{
    let u = Cx { re: 1, im: 0 };
    shape_holds(&shape, reversed, u, i, pol, &mut open_steps::<L>(blank))
}

const AHEAD: Cx = Cx { re: 0, im: -10001 };

const BEHIND: Cx = Cx { re: 0, im: 10001 };

const POL: Option<Cx> = Some(Cx { re: 1, im: 0 });

const ZONE: ZoneSettings = ZoneSettings {
    ground: Some(ZonePart {
        shape: MHO,
        delay_ms: 0,
    }),
    phase: None,
    dir: Dir::Reverse,
    trip: true,
    swing_block: false,
    load_block: false,
};

fn in_zone<L: Ledger>(zone: ZoneSettings, lp: usize, i: Cx, blank: Blank) -> bool
    requires zone { IsZone zone }
    requires i { IsBelow i loop_current_bound }
    requires name { blank.name ≡ L.name }
    requires parts { blank.parts ≡ L.parts }
    requires shares { 0 < blank.parts }
{
    let one = Cx { re: 1, im: 0 };
    zone_holds(&zone, lp, one, i, Some(one), &mut open_steps::<L>(blank))
}

#[test]
fn a_loop_without_its_part_is_outside(rt: HostRuntime) {
    assert_eq!(rt; in_zone::<Brand>(ZONE, 2, BEHIND, Blank::new(1)), true);
    assert_eq!(rt; in_zone::<Brand>(ZONE, 2, AHEAD, Blank::new(1)), false);
    assert_eq!(rt; in_zone::<Brand>(ZONE, 3, BEHIND, Blank::new(1)), false);
}

#[test]
fn a_reverse_zone_sees_the_current_turned_round(rt: HostRuntime) {
    assert_eq!(rt;
        inside::<Brand>(MHO, false, AHEAD, POL, Blank::new(1)),
        true
    );
    assert_eq!(rt;
        inside::<Brand>(MHO, true, AHEAD, POL, Blank::new(1)),
        false
    );
    assert_eq!(rt;
        inside::<Brand>(MHO, true, BEHIND, POL, Blank::new(1)),
        true
    );
    assert_eq!(rt;
        inside::<Brand>(QUAD, false, AHEAD, POL, Blank::new(1)),
        true
    );
    assert_eq!(rt;
        inside::<Brand>(QUAD, true, AHEAD, POL, Blank::new(1)),
        false
    );
    assert_eq!(rt;
        inside::<Brand>(QUAD, true, BEHIND, POL, Blank::new(1)),
        true
    );
}

#[test]
fn a_mho_alone_asks_for_a_polarising_voltage(rt: HostRuntime) {
    assert_eq!(rt;
        inside::<Brand>(MHO, false, AHEAD, None, Blank::new(1)),
        false
    );
    assert_eq!(rt;
        inside::<Brand>(QUAD, false, AHEAD, None, Blank::new(1)),
        true
    );
}
