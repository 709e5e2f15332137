//! The lines of the data.
ghost use Rattle.std.specs.Prelude.{◌≡◌, ◌≤◌, ◌<◌, ◌+◌, ◌-◌, ◌*◌, ◌/◌, ◌^◌, ◌++◌, [], ◌∷◌, length, codes, slice_index_or, pos, if◌then◌else◌};
ghost use Rattle.comtrade_read.specs.Rows.{values_text, value_text, flag_text};
ghost use Rattle.comtrade_write.specs.DataTexts.{data_text, six_of, micros_of};

use crate::covered::Recorded;
use crate::numbers::{put_number, put_signed};
use arrayvec::ArrayVec;
use relay_num::put_bytes;
use sample_stream::Sample;

/// A covered sample is at most this many numbers behind the first: six cycles of 96 samples.
const MOST_BEHIND: u64 = 576;

/// The line of the i-th covered sample, with its end: its place and its time after the first covered sample, its
/// values, and whether it is good and the trip stands. `i` is at most 577, and the sample at most 576 numbers behind
/// the first.
pub(crate) fn data_text(
    rate: u32,
    first: u64,
    i: usize,
    recorded: &Recorded,
    last: bool,
) -> ArrayVec<u8, 160>
    requires rate { 1 < rate }
    requires i { i ≤ 577 }
    ensures { recorded.now.number ≤ first + 576 →
        result.items ≡ data_text rate first i recorded.now ++ (if last then 26 ∷ [] else []) }
{
    let mut out = ArrayVec::new();
    put_number(&mut out, i as u64);
    out.push(b',');
    put_number(&mut out, micros(rate, first, recorded.number));
    out.push(b',');
    put_values(&mut out, &recorded.sample);
    out.push(flag(recorded.sample.good));
    out.push(b',');
    out.push(flag(recorded.trip));
    put_bytes(&mut out, b"\r\n");
    if last {
        out.push(0x1A);
    }
    out
}

/// The time of a sample after the first, in whole microseconds, rounded down.
fn micros(rate: u32, first: u64, number: u64) -> u64
    requires { 1 < rate }
    ensures value { number ≤ first + 576 → result ≡ micros_of rate first number }
    ensures small { result < 10 ^ 9 }
{
    let behind = number.saturating_sub(first).min(MOST_BEHIND);
    behind * 1_000_000 / u64::from(rate)
}

/// Appends the currents and the voltages of a sample, each with a comma behind it.
fn put_values(out: &mut ArrayVec<u8, 160>, sample: &Sample)
    requires { length out.old.items ≤ 20 }
    ensures bytes { out.new.items ≡ out.old.items ++ values_text (six_of sample.now) }
    ensures long { length out.new.items ≤ length out.old.items + 126 }
{
    put_lane(out, &sample.values, 0);
    put_lane(out, &sample.values, 1);
    put_lane(out, &sample.values, 2);
    put_lane(out, &sample.values, 4);
    put_lane(out, &sample.values, 5);
    put_lane(out, &sample.values, 6);
}

/// Appends the value of a lane and a comma.
fn put_lane(out: &mut ArrayVec<u8, 160>, values: &[i64; 8], lane: usize)
    requires lane { lane < 8 }
    requires room { length out.old.items + 21 ≤ 160 }
    ensures bytes { out.new.items ≡ out.old.items ++ value_text (slice_index_or values.now lane (pos 0)) }
    ensures long { length out.new.items ≤ length out.old.items + 21 }
{
    put_signed(out, values[lane]);
    out.push(b',');
}

/// The digit of a fact.
fn flag(holds: bool) -> u8
    ensures { result ∷ [] ≡ flag_text holds }
{
    if holds { b'1' } else { b'0' }
}
