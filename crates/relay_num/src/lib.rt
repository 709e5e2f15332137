//! The relay's whole-number arithmetic: complex numbers, the printed sine tables, counted steps and decimal digits.
//!
//! Every call is exact within the bounds that it requires, and nothing here takes memory. It stands on
//! `arrayvec` for bounded texts and on std's ledger for the steps; every other crate stands on it. A phasor's
//! parts are scaled counts: a peak of A counts over a cycle of N samples has the size A * N / 64.
//! `specs/Bounds.antt` has the sizes that the relay's numbers stay below, and `specs/Numbers.antt` what is done
//! to them.
#![tactic(auto)]

ghost use Rattle.std.specs.Prelude.{◌≡◌, ◌^◌, ◌<◌, ◌≤◌, ◌+◌, ℕ, ◌⊎◌, pos, ◌*◌, ◌*ℤ◌, ◌≤ℤ◌, IsTrue, ◌↔◌};
ghost use Rattle.relay_num.specs.Numbers.{floor_div, IsBelow, value_of, product, conjugate, norm, sum, difference, opposite, scaled, turned, turned_back, is_at_least};

mod copies;
mod decimals;
mod steps;
mod waves;

pub use copies::{copy_of, put_bytes};
pub use decimals::put_decimal;
pub use steps::{Steps, open_steps};
pub use waves::wave;

/// The greatest size of a sample's value, in mA or in counts of 10 mV, raw and filtered.
pub const MOST_VALUE: i64 = 268_435_455;

/// The samples of a cycle at 4000 samples a second and 50 Hz, or at 4800 and 60 Hz.
pub const SHORT_CYCLE: u32 = 80;

/// The samples of a cycle at 4800 samples a second and 50 Hz.
pub const LONG_CYCLE: u32 = 96;

/// A full-cycle sum is divided by 2 to this power to make a phasor.
pub const PHASOR_BITS: u32 = 19;

/// There was not enough memory.
#[derive(Clone, Copy, PartialEq, Eq, Debug, Drop)]
pub struct NoMemory;

/// A complex whole number, as a phasor or an impedance in milliohms: the parts along the real and the imaginary axis.
#[derive(Clone, Copy, PartialEq, Eq, Debug, Default, Drop)]
pub struct Cx {
    pub re: i64,
    pub im: i64,
}

/// A complex whole number with wide parts, which hold each product of two phasors exactly.
#[derive(Clone, Copy, PartialEq, Eq, Debug, Default, Drop)]
pub struct Cx128 {
    pub re: i128,
    pub im: i128,
}

/// `x` divided by `2 ^ bits`, rounded down, also below 0: `floor_shift(-1, 19)` is -1. `bits` is at most 62.
pub fn floor_shift(x: i64, bits: u32) -> i64
    requires { bits < 63 }
    ensures { result ≡ floor_div x (2 ^ bits) }
{
    x >> bits
}

/// The product `a * b`, exactly. The parts of both are below `2 ^ 62` in size.
pub fn mul(a: Cx, b: Cx) -> Cx128
    requires a { IsBelow a (2 ^ 62) }
    requires b { IsBelow b (2 ^ 62) }
    ensures { value_of result ≡ product a b }
{
    let (a_re, a_im) = (i128::from(a.re), i128::from(a.im));
    let (b_re, b_im) = (i128::from(b.re), i128::from(b.im));
    Cx128 {
        re: a_re * b_re - a_im * b_im,
        im: a_re * b_im + a_im * b_re,
    }
}

/// The product of `a` and the conjugate of `b`, exactly: its angle is that by which `a` leads `b`.
/// The parts of `a` are below `2 ^ 80` in size, those of `b` below `2 ^ 45`.
pub fn mul_conj(a: Cx128, b: Cx) -> Cx128
    requires a { IsBelow (value_of a) (2 ^ 80) }
    requires b { IsBelow b (2 ^ 45) }
    ensures { value_of result ≡ product (value_of a) (conjugate b) }
{
    let (b_re, b_im) = (i128::from(b.re), i128::from(b.im));
    Cx128 {
        re: a.re * b_re + a.im * b_im,
        im: a.im * b_re - a.re * b_im,
    }
}

/// The sum `a + b`, exactly. The parts of both are below `2 ^ 62` in size.
pub fn sum(a: Cx, b: Cx) -> Cx
    requires a { IsBelow a (2 ^ 62) }
    requires b { IsBelow b (2 ^ 62) }
    ensures { result ≡ sum a b }
{
    Cx {
        re: a.re + b.re,
        im: a.im + b.im,
    }
}

/// The difference `a - b`, exactly. The parts of both are below `2 ^ 62` in size.
pub fn difference(a: Cx, b: Cx) -> Cx
    requires a { IsBelow a (2 ^ 62) }
    requires b { IsBelow b (2 ^ 62) }
    ensures { result ≡ difference a b }
{
    Cx {
        re: a.re - b.re,
        im: a.im - b.im,
    }
}

/// The opposite of `z`, exactly. Its parts are below `2 ^ 62` in size.
pub fn opposite(z: Cx) -> Cx
    requires { IsBelow z (2 ^ 62) }
    ensures { result ≡ opposite z }
{
    Cx {
        re: -z.re,
        im: -z.im,
    }
}

/// `k` times `z`, exactly. `k` is at most `2 ^ 16`, and the parts of `z` are below `2 ^ 46` in size.
pub fn scaled(k: u32, z: Cx) -> Cx
    requires k { k ≤ 2 ^ 16 }
    requires z { IsBelow z (2 ^ 46) }
    ensures { result ≡ scaled k z }
{
    let k = i64::from(k);
    Cx {
        re: k * z.re,
        im: k * z.im,
    }
}

/// `x` turned forward by a third of a circle, the operator a of symmetrical components: its product with
/// (-8192 + 14189 j) / 16384, each part rounded down. The parts of `x` are below `2 ^ 48` in size.
pub fn times_a(x: Cx) -> Cx
    requires { IsBelow x (2 ^ 48) }
    ensures { result ≡ turned x }
{
    Cx {
        re: floor_shift(-8192 * x.re - 14189 * x.im, 14),
        im: floor_shift(14189 * x.re - 8192 * x.im, 14),
    }
}

/// `x` turned forward by two thirds of a circle, the operator a squared: its product with
/// (-8192 - 14189 j) / 16384, each part rounded down. The parts of `x` are below `2 ^ 48` in size.
pub fn times_a2(x: Cx) -> Cx
    requires { IsBelow x (2 ^ 48) }
    ensures { result ≡ turned_back x }
{
    Cx {
        re: floor_shift(-8192 * x.re + 14189 * x.im, 14),
        im: floor_shift(-14189 * x.re - 8192 * x.im, 14),
    }
}

/// The square of the size, exactly. The parts of `p` are below `2 ^ 62` in size.
pub fn norm(p: Cx) -> i128
    requires { IsBelow p (2 ^ 62) }
    ensures { result ≡ norm p }
{
    let (re, im) = (i128::from(p.re), i128::from(p.im));
    re * re + im * im
}

/// Whether `p`, a phasor of `n` samples a cycle (80 or 96), is at least `m` counts rms (mA, or 10 mV counts);
/// at equality it is. The parts of `p` are below `2 ^ 48` in size, and `m` is at most `2 ^ 30`.
pub fn at_least_rms(p: Cx, n: u32, m: u32) -> bool
    requires n { (n ≡ 80) ⊎ (n ≡ 96) }
    requires p { IsBelow p (2 ^ 48) }
    requires m { m ≤ 2 ^ 30 }
    ensures { result ≡ is_at_least p n m }
{
    let least = i128::from(n) * i128::from(m);
    2048 * norm(p) >= least * least
}
