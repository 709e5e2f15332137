//! The data: one line a sample.
ghost use Rattle.std.specs.Prelude.{◌≡◌, ℕ, ℤ, List, [], ◌∷◌, ◌++◌, ◌+◌, ◌<◌, ◌≤◌, Bool, length, decimal, IfSome, IfOk, MatchResult, IsSomeAnd, IsTrue, ◌↔◌, ◌^◌};
ghost use Rattle.std.specs.Fmt.{signed_decimal};
ghost use Rattle.jiff_core.specs.Calendar.{IsWithin};
ghost use Rattle.comtrade_read.specs.Rows.{IsSample, AreSamples, flag_text, row_text, data_text};

use crate::field::after;
use crate::number::{read_number, read_value};
use crate::pair::PairError;
use std::alloc::Global;

/// No sample is later after the first, in microseconds.
const LATEST: u64 = 144_000;

/// A sample of a record: its time after the first in microseconds, the currents IA, IB and IC in mA and the voltages
/// UA, UB and UC in counts of 10 mV, whether it is good, and whether the trip stands at it.
#[derive(Clone, Copy, Debug, PartialEq, Eq)]
pub struct PairSample {
    pub micros: u64,
    pub values: [i64; 6],
    pub good: bool,
    pub trip: bool,
}

/// The values of the phases A, B and C.
#[derive(Clone, Copy)]
struct Phases {
    a: i64,
    b: i64,
    c: i64,
}

/// Whether a sample is good, and whether the trip stands at it.
#[derive(Clone, Copy)]
struct Flags {
    good: bool,
    trip: bool,
}

/// The samples of the data, which has this many lines.
pub(crate) fn read_data(
    alloc: Global,
    text: &[u8],
    count: usize,
) -> Result<Vec<PairSample>, PairError>
    requires { count ≤ 577 }
    ensures sound { IfOk result (λ v. (length v.items ≡ count) × AreSamples 0 v.items × (text.now ≡ data_text v.items)) }
    ensures complete { (samples : List PairSample) → length samples ≡ count → AreSamples 0 samples → text.now ≡ data_text samples →
        MatchResult result (λ v. v.items ≡ samples) (λ e. e ≡ PairError.NoMemory) }
{
    let mut samples = Vec::new(alloc);
    let mut left = text;
    let mut least = 0;
    for i in 0..count {
        let Some((sample, rest)) = read_row(left, i as u64 + 1, least) else {
            return Err(PairError::Refused);
        };
        let Ok(()) = samples.push(sample) else {
            return Err(PairError::NoMemory);
        };
        least = sample.micros + 1;
        left = rest;
    }
    if is_end(left) {
        Ok(samples)
    } else {
        Err(PairError::Refused)
    }
}

/// Whether this is the end of the file alone.
fn is_end(text: &[u8]) -> bool
    ensures { IsTrue result ↔ (text.now ≡ 26 ∷ []) }
{
    text == [0x1A].as_slice()
}

/// The sample of the i-th line, at this time or later, and the bytes behind its line.
fn read_row<'a>(text: &'a [u8], i: u64, least: u64) -> Option<(PairSample, &'a [u8])>
    requires { i < 10 ^ 9 }
    ensures sound { IfSome result (λ r. (text.now ≡ row_text i r.0 ++ r.1.now) × (least ≤ r.0.micros) × IsSample r.0) }
    ensures complete { (s : PairSample) (rest : List ℕ) → least ≤ s.micros → IsSample s → text.now ≡ row_text i s ++ rest →
        IsSomeAnd result (λ r. (r.0 ≡ s) × (r.1.now ≡ rest)) }
{
    let (micros, values) = read_time(text, i, least)?;
    let (current, voltages) = read_phases(values)?;
    let (voltage, words) = read_phases(voltages)?;
    let (flags, rest) = read_flags(words)?;
    let sample = PairSample {
        micros,
        values: [
            current.a, current.b, current.c, voltage.a, voltage.b, voltage.c,
        ],
        good: flags.good,
        trip: flags.trip,
    };
    Some((sample, rest))
}

/// The time of the i-th line, which is this or later, and the bytes behind its comma.
fn read_time<'a>(text: &'a [u8], i: u64, least: u64) -> Option<(u64, &'a [u8])>
    requires { i < 10 ^ 9 }
    ensures sound { IfSome result (λ r. (text.now ≡ decimal i ++ 44 ∷ (decimal r.0 ++ 44 ∷ r.1.now)) × (least ≤ r.0) × (r.0 ≤ 144000)) }
    ensures complete { (micros : ℕ) (rest : List ℕ) → least ≤ micros → micros ≤ 144000 → text.now ≡ decimal i ++ 44 ∷ (decimal micros ++ 44 ∷ rest) →
        IsSomeAnd result (λ r. (r.0 ≡ micros) × (r.1.now ≡ rest)) }
{
    let (place, times) = read_number(text, b',')?;
    let (micros, rest) = read_number(times, b',')?;
    if place == i && least <= micros && micros <= LATEST {
        Some((micros, rest))
    } else {
        None
    }
}

/// The values of three phases, each before a comma, and the bytes behind them.
fn read_phases<'a>(text: &'a [u8]) -> Option<(Phases, &'a [u8])>
    ensures sound { IfSome result (λ r. (text.now ≡ signed_decimal r.0.a ++ 44 ∷ (signed_decimal r.0.b ++ 44 ∷ (signed_decimal r.0.c ++ 44 ∷ r.1.now)))
        × IsWithin 268435455 r.0.a × IsWithin 268435455 r.0.b × IsWithin 268435455 r.0.c) }
    ensures complete { (x y z : ℤ) (rest : List ℕ) → IsWithin 268435455 x → IsWithin 268435455 y → IsWithin 268435455 z →
        text.now ≡ signed_decimal x ++ 44 ∷ (signed_decimal y ++ 44 ∷ (signed_decimal z ++ 44 ∷ rest)) →
        IsSomeAnd result (λ r. (r.0.a ≡ x) × (r.0.b ≡ y) × (r.0.c ≡ z) × (r.1.now ≡ rest)) }
{
    let (a, behind_a) = read_value(text)?;
    let (b, behind_b) = read_value(behind_a)?;
    let (c, rest) = read_value(behind_b)?;
    Some((Phases { a, b, c }, rest))
}

/// The last two words of a line, and the bytes behind its end.
fn read_flags<'a>(text: &'a [u8]) -> Option<(Flags, &'a [u8])>
    ensures sound { IfSome result (λ r. text.now ≡ flag_text r.0.good ++ 44 ∷ (flag_text r.0.trip ++ 13 ∷ 10 ∷ r.1.now)) }
    ensures complete { (good trip : Bool) (rest : List ℕ) → text.now ≡ flag_text good ++ 44 ∷ (flag_text trip ++ 13 ∷ 10 ∷ rest) →
        IsSomeAnd result (λ r. (r.0.good ≡ good) × (r.0.trip ≡ trip) × (r.1.now ≡ rest)) }
{
    let (good, comma) = read_flag(text)?;
    let word = after(comma, b",")?;
    let (trip, end) = read_flag(word)?;
    let rest = after(end, b"\r\n")?;
    Some((Flags { good, trip }, rest))
}

/// One word, 0 or 1, and the bytes behind it.
fn read_flag<'a>(text: &'a [u8]) -> Option<(bool, &'a [u8])>
    ensures sound { IfSome result (λ r. text.now ≡ flag_text r.0 ++ r.1.now) }
    ensures complete { (flag : Bool) (rest : List ℕ) → text.now ≡ flag_text flag ++ rest → IsSomeAnd result (λ r. (r.0 ≡ flag) × (r.1.now ≡ rest)) }
{
    if let Some(rest) = after(text, b"0") {
        return Some((false, rest));
    }
    let rest = after(text, b"1")?;
    Some((true, rest))
}
