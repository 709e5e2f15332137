//! The civil date of a day.
ghost use Rattle.std.specs.Prelude.{◌≡◌, ◌≤◌, pos};
ghost use Rattle.jiff_core.specs.Date.{epoch_day};
ghost use Rattle.event_record.specs.Time.{year_of, month_of, day_of};

use jiff::Timestamp;
use jiff::civil::{Date, date};
use jiff::tz::Offset;

/// A date of the proleptic Gregorian calendar.
#[derive(Clone, Copy, PartialEq, Eq, Debug)]
pub struct CivilDate {
    pub year: u32,
    /// From 1 to 12.
    pub month: u32,
    /// The day of the month, from 1 on.
    pub day: u32,
}

/// The date of a day in UTC, counted from 1970-01-01 as 0. The last day of a clock of 2^32 seconds is 49710.
pub fn civil_date(day: u32) -> CivilDate
    requires { day ≤ 49710 }
    ensures year { result.year ≡ year_of day }
    ensures month { result.month ≡ month_of day }
    ensures day { result.day ≡ day_of day }
{
    let date = date_of(day);
    CivilDate {
        year: date.year() as u32,
        month: date.month() as u32,
        day: date.day() as u32,
    }
}

/// The date of a day, as `jiff` has it.
fn date_of(day: u32) -> Date
    requires { day ≤ 49710 }
    ensures { epoch_day result ≡ pos day }
{
    match Timestamp::from_second(i64::from(day) * 86400) {
        Ok(midnight) => Offset::UTC.to_datetime(midnight).date(),
        // every such second is in jiff's range
        Err(_) => date(1970, 1, 1),
    }
}
