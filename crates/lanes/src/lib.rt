//! Exact operations on eight whole numbers of 64 bits at once, one a channel of a sample.
//!
//! Each call is one operation of a vector, and each says what it gives in whole numbers of any size,
//! lane by lane; its conditions are the sizes up to which 64 bits hold that. It takes no memory. It
//! stands on the vectors of std, and on `relay_num` for division that rounds down.
//! `specs/Lanes.antt` has the words: `sums`, `differences`, `multiples`, `quotients`.
#![tactic(auto)]

ghost use Rattle.std.specs.Prelude.{◌≡◌, ◌<◌, ◌^◌};
ghost use Rattle.std.specs.Int.RustNames.{unsigned_abs};
ghost use Rattle.relay_num.specs.Bounds.{AllBelow};
ghost use Rattle.lanes.specs.Lanes.{sums, differences, multiples, quotients, at_most, at_least};

use std::simd::prelude::*;

/// The sum in each lane. Condition: all values are below 2^62 in size.
#[inline(always)]
pub fn sum8(a: &[i64; 8], b: &[i64; 8]) -> [i64; 8]
    requires a { AllBelow a.now (2 ^ 62) }
    requires b { AllBelow b.now (2 ^ 62) }
    ensures { result ≡ sums a.now b.now }
{
    (i64x8::from_array(*a) + i64x8::from_array(*b)).to_array()
}

/// `a` less `b` in each lane. Condition: all values are below 2^62 in size.
#[inline(always)]
pub fn difference8(a: &[i64; 8], b: &[i64; 8]) -> [i64; 8]
    requires a { AllBelow a.now (2 ^ 62) }
    requires b { AllBelow b.now (2 ^ 62) }
    ensures { result ≡ differences a.now b.now }
{
    (i64x8::from_array(*a) - i64x8::from_array(*b)).to_array()
}

/// Each lane times `k`. Condition: the values are below 2^40 in size, and `k` is below 2^20.
#[inline(always)]
pub fn multiple8(a: &[i64; 8], k: i64) -> [i64; 8]
    requires a { AllBelow a.now (2 ^ 40) }
    requires k { unsigned_abs k < 2 ^ 20 }
    ensures { result ≡ multiples a.now k }
{
    (i64x8::from_array(*a) * i64x8::splat(k)).to_array()
}

/// The same vector. Condition: its lanes are below 2^31 in size.
#[inline(always)]
fn short(a: i64x8) -> i64x8
    requires { AllBelow a (2 ^ 31) }
    ensures { result ≡ a }
{
    // The shifts tell the compiler that each lane has 32 bits, and then it leaves them out: it makes a product of two
    // such vectors in one instruction where 64 bits take eight.
    (a << 32i64) >> 32i64
}

/// Each lane times `k`, at less cost than `multiple8`. Condition: the values and `k` are below 2^31 in size.
#[inline(always)]
pub fn short_multiple8(a: &[i64; 8], k: i64) -> [i64; 8]
    requires a { AllBelow a.now (2 ^ 31) }
    requires k { unsigned_abs k < 2 ^ 31 }
    ensures { result ≡ multiples a.now k }
{
    (short(i64x8::from_array(*a)) * short(i64x8::splat(k))).to_array()
}

/// Each lane divided by `2 ^ bits`, rounded down, also below 0. Condition: the values are below 2^62 in size,
/// and `bits` is at most 62.
#[inline(always)]
pub fn floor_shift8(a: &[i64; 8], bits: u32) -> [i64; 8]
    requires a { AllBelow a.now (2 ^ 62) }
    requires bits { bits < 63 }
    ensures { result ≡ quotients a.now (2 ^ bits) }
{
    (i64x8::from_array(*a) >> i64::from(bits)).to_array()
}

/// Each lane, or `most` where the lane is greater. Condition: the values are below 2^62 in size.
#[inline(always)]
pub fn at_most8(a: &[i64; 8], most: i64) -> [i64; 8]
    requires { AllBelow a.now (2 ^ 62) }
    ensures { result ≡ at_most most a.now }
{
    i64x8::from_array(*a)
        .simd_min(i64x8::splat(most))
        .to_array()
}

/// Each lane, or `least` where the lane is less. Condition: the values are below 2^62 in size.
#[inline(always)]
pub fn at_least8(a: &[i64; 8], least: i64) -> [i64; 8]
    requires { AllBelow a.now (2 ^ 62) }
    ensures { result ≡ at_least least a.now }
{
    i64x8::from_array(*a)
        .simd_max(i64x8::splat(least))
        .to_array()
}
