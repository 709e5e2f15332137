//! The mho comparator: whether the impedance that a loop sees lies inside the circle of a zone's reach.
//!
//! Reach is in milliohms, and the loop's voltage and the polarising voltage in units of 10 mV. The
//! loop's current is in mA times 1000, as a compensated current is; so voltages stand in the product's
//! unit (a millionth of a milliohm times an mA) once they are multiplied by 10 000 000. What every circle asks
//! of a loop is formed once, as `Polarised`; a circle then takes two products of its own. It stands on
//! `apparent_impedance` for powers, on `relay_num` for the products, which are exact, and for the steps.
#![tactic(auto)]

ghost use Rattle.std.specs.Prelude.{◌≡◌, ◌+◌};
ghost use Rattle.relay_num.specs.Bounds.{reach_bound, loop_voltage_bound, loop_current_bound, polarising_bound};
ghost use Rattle.relay_num.specs.Numbers.{IsBelow};
ghost use Rattle.mho_zone.specs.Mho.{is_inside_mho};

use relay_num::{Cx, Steps};
use std::sync::ledger::Ledger;

mod polarised;
#[cfg(test)]
mod tests;

pub use polarised::Polarised;

/// Whether a loop of voltage `u` and current `i` is inside the circle that has the reach `z` as its
/// diameter, with `pol` as the polarising voltage (Phadke and Thorp, Computer Relaying for Power
/// Systems): the real part of `(z * i - 10^7 * u) * conj(pol)` is above 0. A loop on the circle is
/// outside. One step, a zone test.
pub fn mho_inside<L: Ledger>(z: Cx, u: Cx, i: Cx, pol: Cx, steps: &mut Steps<L>) -> bool
    requires z { IsBelow z reach_bound }
    requires u { IsBelow u loop_voltage_bound }
    requires i { IsBelow i loop_current_bound }
    requires pol { IsBelow pol polarising_bound }
    ensures inside { result ≡ is_inside_mho z u i pol }
    ensures cost { steps.new ≡ steps.old + 1 }
{
    Polarised::of(u, i, pol).is_inside(z, steps)
}
