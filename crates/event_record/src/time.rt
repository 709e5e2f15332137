//! The time of a sample.
ghost use Rattle.std.specs.Prelude.{◌≡◌, ◌≤◌, ◌<◌, ◌+◌, ◌^◌, ◌++◌, length};
ghost use Rattle.event_record.specs.Time.{time_of, date_text, clock_text, time_text};

use crate::calendar::{CivilDate, civil_date};
use crate::digits::put_fixed;
use arrayvec::ArrayVec;
use relay_settings::Common;

/// The moment of a sample.
#[derive(Clone, Copy, PartialEq, Eq, Debug)]
pub struct At {
    /// The sample's number, in samples since the settings' start.
    pub number: u64,
    /// Its second since 1970 (UTC, without leap seconds), modulo 2^32.
    pub seconds: u32,
    /// The nanosecond in it, rounded down.
    pub nanos: u32,
}

/// The moment of the sample with this number: `number` samples after the settings' start, at their rate in
/// samples a second.
pub fn at_of(common: &Common, number: u64) -> At
    requires { 1 < common.now.rate }
    ensures time { result ≡ time_of common.now number }
    ensures below { result.nanos < 10 ^ 9 }
{
    let rate = u64::from(common.rate);
    let seconds = (u64::from(common.start) + number / rate) % 4_294_967_296;
    let nanos = number % rate * 1_000_000_000 / rate;
    At {
        number,
        seconds: seconds as u32,
        nanos: nanos as u32,
    }
}

/// Appends the civil time of a second with nine digits of nanoseconds.
#[tactic(auto, unfolding(crate::specs::Time::time_text))]
pub(crate) fn put_time(out: &mut ArrayVec<u8, 160>, seconds: u32, nanos: u32)
    requires { length out.old.items + 30 ≤ 160 }
    ensures bytes { out.new.items ≡ out.old.items ++ time_text seconds nanos }
    ensures long { length out.new.items ≡ length out.old.items + 30 }
{
    let CivilDate { year, month, day } = civil_date(seconds / 86400);
    put_date(out, year, month, day);
    out.push(b'T');
    put_clock(out, seconds % 86400);
    out.push(b'.');
    put_fixed(out, 9, nanos);
    out.push(b'Z');
}

/// Appends a civil date, as `2024-02-29`.
fn put_date(out: &mut ArrayVec<u8, 160>, year: u32, month: u32, day: u32)
    requires { length out.old.items + 10 ≤ 160 }
    ensures bytes { out.new.items ≡ out.old.items ++ date_text year month day }
    ensures long { length out.new.items ≡ length out.old.items + 10 }
{
    put_fixed(out, 4, year);
    out.push(b'-');
    put_fixed(out, 2, month);
    out.push(b'-');
    put_fixed(out, 2, day);
}

/// Appends the clock of a second of a day, as `23:59:59`. The bytes have to fit.
pub fn put_clock(out: &mut ArrayVec<u8, 160>, second: u32)
    requires { length out.old.items + 8 ≤ 160 }
    ensures bytes { out.new.items ≡ out.old.items ++ clock_text second }
    ensures long { length out.new.items ≡ length out.old.items + 8 }
{
    put_fixed(out, 2, second / 3600);
    out.push(b':');
    put_fixed(out, 2, second / 60 % 60);
    out.push(b':');
    put_fixed(out, 2, second % 60);
}
