//! Loops on the circle and just inside it, and at the greatest values.
ghost use Rattle.std.specs.Prelude.{◌≡◌, ◌<◌, ◌+◌, ◌^◌};
ghost use Rattle.relay_num.specs.Numbers.{IsBelow};

use crate::mho_inside;
use relay_num::{Cx, Cx128, mul_conj, open_steps};
use std::marker::Brand;
use std::sync::ledger::{Blank, Ledger};

fn inside<L: Ledger>(z: Cx, u: Cx, i: Cx, pol: Cx, blank: Blank) -> bool
    requires z { IsBelow z (2 ^ 20) }
    requires u { IsBelow u (2 ^ 31 + 1) }
    requires i { IsBelow i (2 ^ 45) }
    requires pol { IsBelow pol (2 ^ 34) }
    requires name { blank.name ≡ L.name }
    requires parts { blank.parts ≡ L.parts }
    requires shares { 0 < blank.parts }
{
    mho_inside(z, u, i, pol, &mut open_steps::<L>(blank))
}

#[test]
fn a_loop_on_the_circle_is_outside(rt: HostRuntime) {
    let z = Cx { re: 0, im: 1000 };
    let u = Cx { re: 1, im: 0 };
    let on = Cx { re: 0, im: -10000 };
    let within = Cx { re: 0, im: -10001 };
    assert_eq!(rt; inside::<Brand>(z, u, on, u, Blank::new(1)), false);
    assert_eq!(rt; inside::<Brand>(z, u, within, u, Blank::new(1)), true);
}

#[test]
fn the_greatest_values_do_not_wrap(rt: HostRuntime) {
    let z = Cx {
        re: 1048575,
        im: 1048575,
    };
    let u = Cx {
        re: -2147483648,
        im: -2147483648,
    };
    let i = Cx {
        re: 35184372088831,
        im: -35184372088831,
    };
    let pol = Cx {
        re: 17179869183,
        im: 17179869183,
    };
    let against = Cx {
        re: -17179869183,
        im: -17179869183,
    };
    assert_eq!(rt; inside::<Brand>(z, u, i, pol, Blank::new(1)), true);
    assert_eq!(rt; inside::<Brand>(z, u, i, against, Blank::new(1)), false);
}

#[test]
fn the_greatest_product_does_not_wrap(rt: HostRuntime) {
    let operating = Cx128 {
        re: 1208925819614629174706175,
        im: 1208925819614629174706175,
    };
    let polarising = Cx {
        re: 35184372088831,
        im: 35184372088831,
    };
    let torque = mul_conj(operating, polarising);
    assert_eq!(rt; torque.re, 85070591730232198014204352230848462850);
    assert_eq!(rt; torque.im, 0);
}
