//! Dates and times of day.
ghost use Rattle.std.specs.Prelude.{◌≡◌, ℕ, List, ◌∷◌, ◌++◌, ◌≤◌, ◌<◌, ◌^◌, IfSome, IsSomeAnd, IsTrue, ◌↔◌};
ghost use Rattle.comtrade_read.specs.Moments.{Moment, IsDay, IsClock, IsMoment, day_text, clock_text, moment_text};

use crate::field::after;
use crate::number::read_fixed;
use jiff_core::civil::Date;

/// The bytes behind a moment as `29/02/2024,23:59:59.000208` and the end of its line.
pub(crate) fn read_moment<'a>(text: &'a [u8]) -> Option<&'a [u8]>
    ensures sound { IfSome result (λ left. (m : Moment) × IsMoment m × (text.now ≡ moment_text m ++ 13 ∷ 10 ∷ left.now)) }
    ensures complete { (m : Moment) (rest : List ℕ) → IsMoment m → text.now ≡ moment_text m ++ 13 ∷ 10 ∷ rest →
        IsSomeAnd result (λ left. left.now ≡ rest) }
{
    let clock = read_day(text)?;
    let end = read_clock(clock)?;
    after(end, b"\n")
}

/// The bytes behind a day as `29/02/2024` and a comma.
fn read_day<'a>(text: &'a [u8]) -> Option<&'a [u8]>
    ensures sound { IfSome result (λ left. (year month day : ℕ) × IsDay year month day × (text.now ≡ day_text year month day ++ 44 ∷ left.now)) }
    ensures complete { (year month day : ℕ) (rest : List ℕ) → IsDay year month day → text.now ≡ day_text year month day ++ 44 ∷ rest →
        IsSomeAnd result (λ left. left.now ≡ rest) }
{
    let (day, rest) = read_fixed(text, 2, b'/')?;
    let (month, rest) = read_fixed(rest, 2, b'/')?;
    let (year, rest) = read_fixed(rest, 4, b',')?;
    if is_day(year, month, day) {
        Some(rest)
    } else {
        None
    }
}

/// Whether the calendar has the day, in a year from 1970 to 2106.
fn is_day(year: u64, month: u64, day: u64) -> bool
    requires years { year < 10 ^ 4 }
    requires months { month < 10 ^ 2 }
    requires days { day < 10 ^ 2 }
    ensures { IsTrue result ↔ IsDay year month day }
{
    year >= 1970 && year <= 2106 && Date::new(year as i16, month as i8, day as i8).is_ok()
}

/// The bytes behind a time of day as `23:59:59.000208` and a carriage return.
fn read_clock<'a>(text: &'a [u8]) -> Option<&'a [u8]>
    ensures sound { IfSome result (λ left. (hour minute second micros : ℕ) × IsClock hour minute second micros × (text.now ≡ clock_text hour minute second micros ++ 13 ∷ left.now)) }
    ensures complete { (hour minute second micros : ℕ) (rest : List ℕ) → IsClock hour minute second micros →
        text.now ≡ clock_text hour minute second micros ++ 13 ∷ rest → IsSomeAnd result (λ left. left.now ≡ rest) }
{
    let (hour, rest) = read_fixed(text, 2, b':')?;
    let (minute, rest) = read_fixed(rest, 2, b':')?;
    let (second, rest) = read_fixed(rest, 2, b'.')?;
    let (micros, rest) = read_fixed(rest, 6, b'\r')?;
    if is_clock(hour, minute, second, micros) {
        Some(rest)
    } else {
        None
    }
}

/// Whether this is a time of day below 24 hours.
fn is_clock(hour: u64, minute: u64, second: u64, micros: u64) -> bool
    ensures { IsTrue result ↔ IsClock hour minute second micros }
{
    hour < 24 && minute < 60 && second < 60 && micros < 1_000_000
}
