//! Rows by Ohm's law: 10 mV over 1 mA are 10 ohms.
ghost use Rattle.std.specs.Prelude.{◌^◌};
ghost use Rattle.relay_num.specs.Numbers.{IsBelow};

use super::*;

const COUNT: Cx = Cx { re: 1, im: 0 };

const GREATEST: Cx = Cx {
    re: 4_294_967_295,
    im: 4_294_967_295,
};

fn parts(u: Cx, i: Cx) -> (i128, i128, i128)
    requires u { IsBelow u (2 ^ 32) }
    requires i { IsBelow i (2 ^ 32) }
{
    let z = impedance_of(u, i);
    (z.resistance, z.reactance, z.square)
}

#[test]
fn voltage_over_current_is_in_milliohms(rt: HostRuntime) {
    let lagging = Cx { re: 0, im: -1 };
    assert_eq!(rt; parts(COUNT, COUNT), (10_000, 0, 1));
    assert_eq!(rt; parts(COUNT, lagging), (0, 10_000, 1));
    assert_eq!(rt; parts(COUNT, Cx { re: -2, im: 0 }), (20_000, 0, 4));
    assert_eq!(rt; parts(lagging, COUNT), (0, 10_000, 1));
    assert_eq!(rt;
        parts(Cx { re: 2, im: 1 }, Cx { re: 100, im: 0 }),
        (2_000_000, 1_000_000, 10_000)
    );
    assert_eq!(rt; parts(COUNT, Cx { re: 0, im: 0 }), (0, 0, 0));
    let square = 36_893_488_130_239_234_050;
    assert_eq!(rt; parts(GREATEST, GREATEST), (10_000 * square, 0, square));
    let z = impedance_of(Cx { re: 2, im: 1 }, Cx { re: 100, im: 0 });
    assert_eq!(rt; z.resistance, z.milliohms(200));
    assert_eq!(rt; z.reactance, z.milliohms(100));
}
