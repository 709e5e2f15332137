//! The quadrilateral comparator: whether a loop's impedance is inside a zone's four sides.
//!
//! Voltages are counts of 10 mV, loop currents thousandths of 1 mA, reaches milliohms, tilt and slope
//! thousandths. The sides are compared without a division, each multiplied by the square of the
//! current's size; every such product is below 2^122. What every quadrilateral asks of a loop is formed once, as
//! `LoopImpedance`. It stands on `apparent_impedance` for the impedance as
//! a fraction, on `relay_num` for complex numbers and counted steps, and on `relay_settings` for the zone's
//! settings.
#![tactic(auto)]

ghost use Rattle.std.specs.Prelude.{◌≡◌, ◌+◌};
ghost use Rattle.relay_num.specs.Bounds.{loop_voltage_bound, loop_current_bound};
ghost use Rattle.relay_num.specs.Numbers.{IsBelow};
ghost use Rattle.relay_settings.specs.Ranges.{IsQuad};
ghost use Rattle.quad_zone.specs.Quad.{is_inside_quad};

use relay_num::{Cx, Steps};
use relay_settings::QuadSettings;
use std::sync::ledger::Ledger;

mod impedance;
#[cfg(test)]
mod tests;

pub use impedance::LoopImpedance;

/// Whether a loop with the voltage `u` and the current `i` is inside the quadrilateral; a loop on a side
/// is inside, and one without current is not. The voltage's parts are at most 2^31 in size and the
/// current's below 2^45. One step.
///
/// A zone that looks backwards hands in the negative of its current.
pub fn quad_inside<L: Ledger>(q: &QuadSettings, u: Cx, i: Cx, steps: &mut Steps<L>) -> bool
    requires settings { IsQuad q.now }
    requires u { IsBelow u loop_voltage_bound }
    requires i { IsBelow i loop_current_bound }
    ensures inside { result ≡ is_inside_quad q.now u i }
    ensures cost { steps.new ≡ steps.old + 1 }
{
    LoopImpedance::of(u, i).is_inside(q, steps)
}
