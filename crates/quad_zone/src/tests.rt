//! Rows worked by hand: at a current of 10 mA a count of voltage is an ohm.
ghost use Rattle.std.specs.Prelude.{◌≡◌, ◌<◌, ◌+◌, ◌^◌};
ghost use Rattle.relay_num.specs.Numbers.{IsBelow};
ghost use Rattle.relay_settings.specs.Ranges.{IsQuad};

use super::*;
use relay_num::open_steps;
use std::marker::Brand;
use std::sync::ledger::Blank;

fn inside<L: Ledger>(q: &QuadSettings, u: Cx, i: Cx, blank: Blank) -> bool
    requires name { blank.name ≡ L.name }
    requires parts { blank.parts ≡ L.parts }
    requires shares { 0 < blank.parts }
    requires settings { IsQuad q.now }
    requires u { IsBelow u (2 ^ 31 + 1) }
    requires i { IsBelow i (2 ^ 45) }
{
    quad_inside(q, u, i, &mut open_steps::<L>(blank))
}

#[test]
fn an_edge_is_inside_and_a_milliohm_less_is_not(rt: HostRuntime) {
    let current = Cx { re: 10_000, im: 0 };
    let mut q = QuadSettings {
        reach_r: 1,
        reach_x: 1000,
        tilt: 0,
        slope: 0,
        back_x: 0,
    };
    let ahead = Cx { re: 0, im: 1 };
    assert!(rt; inside::<Brand>(&q, ahead, current, Blank::new(1)));
    q.reach_x = 999;
    assert!(rt; !inside::<Brand>(&q, ahead, current, Blank::new(1)));
    let leaning = QuadSettings {
        reach_r: 1800,
        reach_x: 1500,
        tilt: 250,
        slope: 200,
        back_x: 0,
    };
    let corner = Cx { re: 2, im: 1 };
    assert!(rt; inside::<Brand>(&leaning, corner, current, Blank::new(1)));
    assert!(rt; !inside::<Brand>(&leaning, Cx { re: 0, im: -1 }, current, Blank::new(1)));
    let widest = QuadSettings {
        reach_r: 1_000_000,
        reach_x: 1_000_000,
        tilt: 500,
        slope: 1000,
        back_x: 1_000_000,
    };
    let greatest = Cx {
        re: 2_147_483_648,
        im: -2_147_483_648,
    };
    let most = Cx {
        re: 35_184_372_088_831,
        im: -35_184_372_088_831,
    };
    assert!(rt; inside::<Brand>(&widest, greatest, most, Blank::new(1)));
}
