//! The symmetrical components of three phasors, each times three.
//!
//! Parts are those of the phasors, currents or voltages alike. A turn by a third of a circle is
//! multiplied by (-8192 ± 14189 j) / 16384 and rounded down, so the components are whole numbers. It
//! stands on `relay_num` for complex numbers and their turns.
#![tactic(auto)]

ghost use Rattle.std.specs.Prelude.{◌≡◌, ◌^◌};
ghost use Rattle.relay_num.specs.Bounds.{phasor_bound, sequence_bound};
ghost use Rattle.relay_num.specs.Numbers.{IsBelow, sum};
ghost use Rattle.sequence_parts.specs.Sequences.{sequence_of};

use relay_num::{Cx, sum, times_a, times_a2};

#[cfg(test)]
mod tests;

/// Three times the zero, the positive and the negative sequence.
#[derive(Clone, Copy, PartialEq, Eq, Debug, Default, Drop)]
pub struct Sequence {
    pub zero: Cx,
    pub plus: Cx,
    pub minus: Cx,
}

/// The components of the phases A, B and C, whose parts are at most 2^30 in size. Their own parts are
/// below 2^32.
pub fn parts(a: Cx, b: Cx, c: Cx) -> Sequence
    requires a { IsBelow a phasor_bound }
    requires b { IsBelow b phasor_bound }
    requires c { IsBelow c phasor_bound }
    ensures parts { result ≡ sequence_of a b c }
    ensures zero { IsBelow result.zero sequence_bound }
    ensures plus { IsBelow result.plus sequence_bound }
    ensures minus { IsBelow result.minus sequence_bound }
{
    Sequence {
        zero: added(a, b, c),
        plus: added(a, times_a(b), times_a2(c)),
        minus: added(a, times_a2(b), times_a(c)),
    }
}

/// The sum of three numbers.
fn added(a: Cx, b: Cx, c: Cx) -> Cx
    requires a { IsBelow a (2 ^ 60) }
    requires b { IsBelow b (2 ^ 60) }
    requires c { IsBelow c (2 ^ 60) }
    ensures { result ≡ sum (sum a b) c }
{
    sum(sum(a, b), c)
}
