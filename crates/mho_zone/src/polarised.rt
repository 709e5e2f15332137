//! What every circle asks of a loop, formed once.
ghost use Rattle.std.specs.Prelude.{◌≡◌, ◌<◌, ◌^◌};
ghost use Rattle.std.specs.Int.RustNames.{unsigned_abs};
ghost use Rattle.relay_num.specs.Bounds.{loop_voltage_bound, polarising_bound};
ghost use Rattle.relay_num.specs.Numbers.{IsBelow, value_of, product, scaled, conjugate};

use apparent_impedance::{LOOP_SCALE, apparent, power};
use relay_num::{Cx, Cx128, Steps, mul_conj};
use std::sync::ledger::Ledger;

/// What every circle asks of a loop, formed once of its voltage, its current and its polarising voltage.
#[derive(Clone, Copy, Drop)]
pub struct Polarised {
    /// The polarising voltage times the conjugate of the current.
    power: Cx128,
    /// The part of 10^7 times the voltage along the polarising voltage, times the latter's size.
    along: i128,
    ghost power_size: { IsBelow (value_of power) (2 ^ 80) },
    ghost along_size: { unsigned_abs along < 2 ^ 100 },
}

impl Polarised {
    ghost use Rattle.std.specs.Prelude.{◌≡◌, ◌^◌, ◌+◌};
    ghost use Rattle.relay_num.specs.declared.Cx.{Cx};
    ghost use Rattle.relay_num.specs.Bounds.{reach_bound, loop_voltage_bound, loop_current_bound, polarising_bound};
    ghost use Rattle.relay_num.specs.Numbers.{IsBelow, value_of, product, conjugate, opposite};
    ghost use Rattle.mho_zone.specs.Mho.{is_inside_mho};
    ghost use Rattle.mho_zone.specs.Polarising.{IsPolarised};

    /// Of the voltage `u`, the current `i` and the polarising voltage `pol`, sized as in `mho_inside`.
    pub fn of(u: Cx, i: Cx, pol: Cx) -> Polarised
        requires u { IsBelow u loop_voltage_bound }
        requires i { IsBelow i loop_current_bound }
        requires pol { IsBelow pol polarising_bound }
        ensures { IsPolarised u i pol result }
    {
        Polarised {
            power: power(pol, i),
            along: along(u, pol),
        }
    }

    /// The same loop with its current turned round, as a zone that looks backwards takes it.
    pub fn turned(&self) -> Polarised
        ensures { (u i pol : Cx) → IsPolarised u i pol self.now → IsPolarised u (opposite i) pol result }
    {
        Polarised {
            power: Cx128 {
                re: -self.power.re,
                im: -self.power.im,
            },
            along: self.along,
        }
    }

    /// The polarising voltage times the conjugate of the current (`apparent_impedance::power`).
    pub fn power(&self) -> &Cx128
        ensures power { (u i pol : Cx) → IsPolarised u i pol self.now → value_of result.now ≡ product pol (conjugate i) }
        ensures size { IsBelow (value_of result.now) (2 ^ 80) }
    {
        &self.power
    }

    /// Whether the loop is inside the circle that has the reach `z` as its diameter, as `mho_inside` says. One step, a
    /// zone test.
    pub fn is_inside<L: Ledger>(&self, z: Cx, steps: &mut Steps<L>) -> bool
        requires z { IsBelow z reach_bound }
        ensures inside { (u i pol : Cx) → IsPolarised u i pol self.now → result ≡ is_inside_mho z u i pol }
        ensures cost { steps.new ≡ steps.old + 1 }
    {
        steps.tick();
        mul_conj(self.power, z).re > self.along
    }
}

/// The real part of 10^7 times `u` times the conjugate of `pol`.
fn along(u: Cx, pol: Cx) -> i128
    requires u { IsBelow u loop_voltage_bound }
    requires pol { IsBelow pol polarising_bound }
    ensures value { result ≡ (product (scaled 10000000 u) (conjugate pol)).re }
    ensures size { unsigned_abs result < 2 ^ 100 }
{
    apparent(LOOP_SCALE, u, pol).re
}
