//! The direction of a loop: forward, reverse or neither, by the sign of a torque.
//!
//! The line's impedance is in milliohms; voltages and currents keep the units of phasors, sequence
//! parts and loops, since only the sign of a torque tells. Every torque is below 2^102 in size. It
//! stands on `apparent_impedance` for powers and on `relay_num` for complex numbers.
#![tactic(auto)]

ghost use Rattle.std.specs.Prelude.{◌≡◌, ◌^◌, IfSome};
ghost use Rattle.relay_num.specs.Bounds.{reach_bound, loop_current_bound, polarising_bound, sequence_bound};
ghost use Rattle.relay_num.specs.Numbers.{IsBelow, value_of, product, conjugate};
ghost use Rattle.relay_num.specs.declared.Cx.{Cx};
ghost use Rattle.direction.specs.Torques.{side, sense_by_negative, sense_by_polarising, direction_of};

use apparent_impedance::power;
use relay_num::{Cx, Cx128, mul_conj};

#[cfg(test)]
mod tests;

/// The side on which a loop's fault is.
#[derive(Clone, Copy, PartialEq, Eq, Debug)]
pub enum Sense {
    /// Ahead of the relay, towards the line.
    Forward,
    /// Behind the relay.
    Reverse,
    /// There is no torque, or no polarising voltage.
    Neither,
}

/// The direction of a loop with the current `i` on a line of the impedance `zl`.
///
/// Where `minus`, the negative sequence's voltage and current, is there, it decides by their torque.
/// Otherwise the torque of the current against the loop's polarising voltage `pol` does, and without
/// one the direction is `Neither`. Parts are below 2^20 in size for `zl`, 2^45 for `i`, 2^34 for
/// `pol`, and 2^32 for `minus`.
pub fn loop_direction(zl: Cx, i: Cx, pol: Option<Cx>, minus: Option<(Cx, Cx)>) -> Sense
    requires zl { IsBelow zl reach_bound }
    requires i { IsBelow i loop_current_bound }
    requires pol { IfSome pol (λ p. IsBelow p polarising_bound) }
    requires minus { IfSome minus (λ m. IsBelow m.0 sequence_bound × IsBelow m.1 sequence_bound) }
    ensures { result ≡ direction_of zl i pol minus }
{
    match minus {
        Some((u2, i2)) => by_negative(zl, u2, i2),
        None => match pol {
            Some(p) => by_polarising(zl, i, p),
            None => Sense::Neither,
        },
    }
}

/// The direction of ground loops by the torque of the negative sequence, whose parts are below 2^32 in size and whose voltage is against its current at a fault ahead.
pub fn by_negative(zl: Cx, u2: Cx, i2: Cx) -> Sense
    requires zl { IsBelow zl reach_bound }
    requires u2 { IsBelow u2 sequence_bound }
    requires i2 { IsBelow i2 sequence_bound }
    ensures { result ≡ sense_by_negative zl u2 i2 }
{
    let torque = mul_conj(power(u2, i2), zl).re;
    side(torque < 0, torque > 0)
}

/// By the torque of the current against the polarising voltage.
fn by_polarising(zl: Cx, i: Cx, p: Cx) -> Sense
    requires zl { IsBelow zl reach_bound }
    requires i { IsBelow i loop_current_bound }
    requires p { IsBelow p polarising_bound }
    ensures { result ≡ sense_by_polarising zl i p }
{
    sense_of_power(zl, &power(p, i))
}

/// The direction of a loop on a line of the impedance `zl`, by the product of its polarising voltage and the conjugate
/// of its current (`apparent_impedance::power`), whose parts are below 2^80 in size.
pub fn sense_of_power(zl: Cx, power: &Cx128) -> Sense
    requires zl { IsBelow zl reach_bound }
    requires power { IsBelow (value_of power.now) (2 ^ 80) }
    ensures { (i p : Cx) → value_of power.now ≡ product p (conjugate i) → result ≡ sense_by_polarising zl i p }
{
    let torque = mul_conj(*power, zl).re;
    side(torque > 0, torque < 0)
}

/// The first that holds.
fn side(ahead: bool, behind: bool) -> Sense
    ensures { result ≡ side ahead behind }
{
    if ahead {
        Sense::Forward
    } else if behind {
        Sense::Reverse
    } else {
        Sense::Neither
    }
}
