//! What a line tells: events, the time of a sample, and the text of a log line.
//!
//! A sample's time is the start's second and the sample number over the rate, in whole nanoseconds rounded
//! down, on a clock of 2^32 seconds since 1970 (UTC, without leap seconds). Civil dates are those of `jiff`.
//! A log line is `NAME TIME NUMBER WORDS`, `NAME - - WORDS` where the line has no sample yet, or
//! `frame K malformed WORD`, each with one newline at its end; `specs/Line.antt` is the whole table.
//! Nothing here takes memory. It stands on `relay_num` (decimal digits), `sv_frame` (why a frame
//! isn't read) and `relay_settings` (rate and start).
#![tactic(auto)]

mod calendar;
mod digits;
mod event;
mod line;
#[cfg(test)]
mod tests;
mod time;

pub use calendar::{CivilDate, civil_date};
pub use digits::put_fixed;
pub use event::{Event, What};
pub use line::{begin_line, loop_name, print, put_place};
pub use time::{At, at_of, put_clock};
