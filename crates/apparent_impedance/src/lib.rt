//! The apparent impedance of a voltage and a current, as a fraction that is compared without a division.
//!
//! Voltages are phasors, sequence parts or loop voltages in counts of 10 mV, and currents in counts of 1 mA or,
//! of loops, in thousandths of that: their quotient times `PHASOR_SCALE` or `LOOP_SCALE` is in milliohms. Resistance and reactance are told by their size alone, as the
//! blinders of a power swing and the range of a load ask. Every part is below 2^80 in size, and a compared
//! one below 2^86. It stands on `relay_num` for complex numbers.
#![tactic(auto)]

ghost use Rattle.std.specs.Prelude.{◌≡◌, ◌^◌, ◌<◌, ◌≤◌, ◌*ℤ◌};
ghost use Rattle.std.specs.Int.RustNames.{unsigned_abs};
ghost use Rattle.relay_num.specs.Bounds.{sequence_bound, loop_current_bound, polarising_bound};
ghost use Rattle.relay_num.specs.Numbers.{IsBelow, value_of, scaled, norm, product, conjugate};
ghost use Rattle.apparent_impedance.specs.Impedance.{apparent, phasor_scale, loop_scale, resistance, reactance};

use relay_num::{Cx, Cx128, mul_conj, norm};

#[cfg(test)]
mod tests;

/// The scale that gives milliohms, of a voltage in counts of 10 mV and a current in counts of 1 mA.
pub const PHASOR_SCALE: u32 = 10_000;

/// The scale that gives milliohms, of a voltage in counts of 10 mV and a loop's current, which is in
/// thousandths of 1 mA.
pub const LOOP_SCALE: u32 = 10_000_000;

/// How great an impedance is along both axes, in milliohms, as fractions over `square`.
#[derive(Clone, Copy, Drop)]
pub struct Impedance {
    /// The size of the resistance in milliohms, times `square`.
    pub resistance: i128,
    /// The size of the reactance in milliohms, times `square`.
    pub reactance: i128,
    /// The square of the current's size; 0 where there is no current, and no impedance.
    pub square: i128,
    ghost resistance_size: { unsigned_abs resistance < 2 ^ 80 },
    ghost reactance_size: { unsigned_abs reactance < 2 ^ 80 },
    ghost square_size: { unsigned_abs square < 2 ^ 66 },
}

impl Impedance {
    /// So many milliohms on the scale of `resistance` and `reactance`, for a comparison with either. There
    /// are at most 1 000 000 of them.
    pub fn milliohms(&self, milliohms: i64) -> i128
        requires { unsigned_abs milliohms ≤ 1000000 }
        ensures { result ≡ milliohms *ℤ self.now.square }
    {
        i128::from(milliohms) * self.square
    }
}

/// The impedance of the voltage `u` and the current `i`, whose parts are below 2^32 in size.
pub fn impedance_of(u: Cx, i: Cx) -> Impedance
    requires u { IsBelow u sequence_bound }
    requires i { IsBelow i sequence_bound }
    ensures resistance { result.resistance ≡ resistance u i }
    ensures reactance { result.reactance ≡ reactance u i }
    ensures square { result.square ≡ norm i }
{
    let apparent = in_milliohms(u, i);
    Impedance {
        resistance: apparent.re.abs(),
        reactance: apparent.im.abs(),
        square: norm(i),
    }
}

/// The impedance in milliohms, times the square of the current's size.
fn in_milliohms(u: Cx, i: Cx) -> Cx128
    requires u { IsBelow u sequence_bound }
    requires i { IsBelow i sequence_bound }
    ensures value { value_of result ≡ apparent phasor_scale u i }
    ensures size { IsBelow (value_of result) (2 ^ 80) }
{
    apparent(PHASOR_SCALE, u, i)
}

/// `scale` times the impedance of the voltage `u` and the current `i`, times the square of the current's size.
/// `scale` is at most 10^7, the voltage's parts are below 2^32 in size and the current's below 2^45.
pub fn apparent(scale: u32, u: Cx, i: Cx) -> Cx128
    requires scale { scale ≤ loop_scale }
    requires u { IsBelow u sequence_bound }
    requires i { IsBelow i loop_current_bound }
    ensures { value_of result ≡ apparent scale u i }
{
    mul_conj(times(scale, u), i)
}

/// The product of a voltage and the conjugate of a current, exactly, as a complex power is. The voltage's parts are
/// below 2^34 in size and the current's below 2^45.
pub fn power(u: Cx, i: Cx) -> Cx128
    requires u { IsBelow u polarising_bound }
    requires i { IsBelow i loop_current_bound }
    ensures value { value_of result ≡ product u (conjugate i) }
    ensures size { IsBelow (value_of result) (2 ^ 80) }
{
    mul_conj(wide(u), i)
}

/// The same number with wide parts.
fn wide(z: Cx) -> Cx128
    requires { IsBelow z polarising_bound }
    ensures { value_of result ≡ z }
{
    Cx128 {
        re: i128::from(z.re),
        im: i128::from(z.im),
    }
}

/// `scale` times `u`; the parts fit in 64 bits.
fn times(scale: u32, u: Cx) -> Cx128
    requires scale { scale ≤ loop_scale }
    requires u { IsBelow u sequence_bound }
    ensures { value_of result ≡ scaled scale u }
{
    let scale = i64::from(scale);
    Cx128 {
        re: i128::from(scale * u.re),
        im: i128::from(scale * u.im),
    }
}
