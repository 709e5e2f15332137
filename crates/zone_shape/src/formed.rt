//! A loop with what the shapes of all zones ask of it.
ghost use Rattle.std.specs.Prelude.{◌≡◌};
ghost use Rattle.std.specs.Option.{ForSome};
ghost use Rattle.quad_zone.specs.Impedances.{IsImpedance};
ghost use Rattle.zone_shape.specs.LoopBounds.{IsLoopInBounds};
ghost use Rattle.zone_shape.specs.Polarising.{IsPolarisedBy};

use crate::towards;
use mho_zone::{Polarised, mho_inside};
use quad_zone::{LoopImpedance, quad_inside};
use relay_num::{Cx, Steps};
use relay_settings::QuadSettings;
use std::sync::ledger::Ledger;

/// A loop, and what the shapes of all zones ask of it, formed once. Where that wasn't formed a shape forms it itself.
#[derive(Clone, Copy, Drop)]
pub struct FormedLoop {
    /// The voltage in counts of 10 mV, its parts at most 2^31 in size.
    pub u: Cx,
    /// The current in thousandths of 1 mA, its parts below 2^45.
    pub i: Cx,
    /// The polarising voltage in counts of 10 mV, its parts below 2^34.
    pub pol: Option<Cx>,
    impedance: Option<LoopImpedance>,
    polarised: Option<Polarised>,
    ghost bounds: { IsLoopInBounds u i pol },
    ghost impedance_is: { ForSome impedance (IsImpedance u i) },
    ghost polarised_is: { ForSome polarised (IsPolarisedBy u i pol) },
}

impl FormedLoop {
    ghost use Rattle.std.specs.Prelude.{◌≡◌, ◌≤◌, ◌+◌};
    ghost use Rattle.std.specs.Option.{ForSome};
    ghost use Rattle.relay_num.specs.Bounds.{reach_bound};
    ghost use Rattle.relay_num.specs.Numbers.{IsBelow};
    ghost use Rattle.relay_settings.specs.declared.types.Shape.TheVariants.{Mho, Quad};
    ghost use Rattle.relay_settings.specs.Ranges.{IsQuad};
    ghost use Rattle.zone_shape.specs.LoopBounds.{IsLoopInBounds};
    ghost use Rattle.zone_shape.specs.Polarising.{IsPolarisedBy};
    ghost use Rattle.zone_shape.specs.Shapes.{has_shape};

    /// A loop of which nothing is formed yet.
    #[inline(always)]
    pub fn unformed(u: Cx, i: Cx, pol: Option<Cx>) -> FormedLoop
        requires { IsLoopInBounds u i pol }
        ensures u { result.u ≡ u }
        ensures i { result.i ≡ i }
        ensures pol { result.pol ≡ pol }
    {
        FormedLoop {
            u,
            i,
            pol,
            impedance: None,
            polarised: None,
        }
    }

    /// Forms what circles ask of the loop, and where `has_quad` says so what quadrilaterals do. It is formed where the
    /// loop lies, out of line, so that it isn't moved.
    #[inline(never)]
    pub fn form(&mut self, has_quad: bool)
        ensures u { self.new.u ≡ self.old.u }
        ensures i { self.new.i ≡ self.old.i }
        ensures pol { self.new.pol ≡ self.old.pol }
    {
        if has_quad {
            self.impedance = Some(LoopImpedance::of(self.u, self.i));
        }
        if let Some(pol) = self.pol {
            self.polarised = Some(Polarised::of(self.u, self.i, pol));
        }
    }

    /// What circles ask, where it was formed.
    pub fn polarised(&self) -> &Option<Polarised>
        ensures { ForSome result.now (IsPolarisedBy self.now.u self.now.i self.now.pol) }
    {
        &self.polarised
    }

    /// Whether the loop is inside the circle of this reach, as `shape_holds` says, and in at most one step as there:
    /// without a polarising voltage no loop is.
    #[inline(always)]
    pub fn is_in_circle<L: Ledger>(&self, reach: Cx, reversed: bool, steps: &mut Steps<L>) -> bool
        requires reach { IsBelow reach reach_bound }
        ensures shape { result ≡ has_shape (Mho reach) reversed self.now.u self.now.i self.now.pol }
        ensures cost { steps.new ≤ steps.old + 1 }
    {
        match &self.polarised {
            Some(formed) => {
                if reversed {
                    formed.turned().is_inside(reach, steps)
                } else {
                    formed.is_inside(reach, steps)
                }
            }
            None => match self.pol {
                Some(pol) => mho_inside(reach, self.u, towards(reversed, self.i), pol, steps),
                None => false,
            },
        }
    }

    /// Whether the loop is inside the quadrilateral, as `shape_holds` says, and in at most one step as there.
    #[inline(always)]
    pub fn is_in_quad<L: Ledger>(
        &self,
        quad: &QuadSettings,
        reversed: bool,
        steps: &mut Steps<L>,
    ) -> bool
        requires quad { IsQuad quad.now }
        ensures shape { result ≡ has_shape (Quad quad.now) reversed self.now.u self.now.i self.now.pol }
        ensures cost { steps.new ≤ steps.old + 1 }
    {
        match &self.impedance {
            Some(formed) => {
                if reversed {
                    formed.turned().is_inside(quad, steps)
                } else {
                    formed.is_inside(quad, steps)
                }
            }
            None => quad_inside(quad, self.u, towards(reversed, self.i), steps),
        }
    }
}
