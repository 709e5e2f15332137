//! The reach of a zone, whichever its shape: whether a loop's impedance is inside.
//!
//! The loop's voltage and the polarising voltage are counts of 10 mV, its current thousandths of 1 mA,
//! reaches milliohms. A zone has a part for the loops to ground and one for those between phases, each with a
//! shape of its own; a zone that looks backwards takes the opposite of the current. `FormedLoop` forms what the shapes
//! of all zones ask of a loop once. It stands on `mho_zone` and `quad_zone` for the two shapes, on `relay_settings` for
//! the settings, and on `relay_num` for complex numbers and counted steps.
#![tactic(auto)]

ghost use Rattle.std.specs.Prelude.{◌≡◌, ◌≤◌, ◌+◌, if◌then◌else◌};
ghost use Rattle.relay_num.specs.Bounds.{loop_current_bound};
ghost use Rattle.relay_num.specs.Numbers.{IsBelow, opposite};
ghost use Rattle.relay_settings.specs.Ranges.{IsShape};
ghost use Rattle.zone_shape.specs.LoopBounds.{IsLoopInBounds};
ghost use Rattle.zone_shape.specs.Shapes.{is_inside, has_shape};

use mho_zone::mho_inside;
use quad_zone::quad_inside;
use relay_num::{Cx, Steps, opposite};
use relay_settings::Shape;
use std::sync::ledger::Ledger;

mod formed;
#[cfg(test)]
mod tests;
mod zone;

pub use formed::FormedLoop;
pub use zone::{has_quad, is_reverse, zone_holds};

/// Whether a loop of voltage `u`, whose parts are at most 2^31 in size, and current `i`, whose parts are
/// below 2^45, is inside the shape; `reversed` says that the zone looks backwards. A mho polarises from `pol`,
/// whose parts are below 2^34, and without it no loop is inside; a quadrilateral doesn't ask for it. One step
/// at most, a zone test.
pub fn shape_holds<L: Ledger>(
    shape: &Shape,
    reversed: bool,
    u: Cx,
    i: Cx,
    pol: Option<Cx>,
    steps: &mut Steps<L>,
) -> bool
    requires shape { IsShape shape.now }
    requires bounds { IsLoopInBounds u i pol }
    ensures shape { result ≡ has_shape shape.now reversed u i pol }
    ensures cost { steps.new ≤ steps.old + 1 }
{
    holds(shape, u, towards(reversed, i), pol, steps)
}

/// The current as the zone takes it.
fn towards(reversed: bool, i: Cx) -> Cx
    requires { IsBelow i loop_current_bound }
    ensures value { result ≡ (if reversed then opposite i else i) }
    ensures size { IsBelow result loop_current_bound }
{
    if reversed { opposite(i) } else { i }
}

/// Whether the loop is inside the shape, whichever way the zone looks.
fn holds<L: Ledger>(shape: &Shape, u: Cx, i: Cx, pol: Option<Cx>, steps: &mut Steps<L>) -> bool
    requires shape { IsShape shape.now }
    requires bounds { IsLoopInBounds u i pol }
    ensures shape { result ≡ is_inside shape.now u i pol }
    ensures cost { steps.new ≤ steps.old + 1 }
{
    match shape {
        Shape::Mho(reach) => match pol {
            Some(pol) => mho_inside(*reach, u, i, pol, steps),
            None => false,
        },
        Shape::Quad(quad) => quad_inside(quad, u, i, steps),
    }
}
