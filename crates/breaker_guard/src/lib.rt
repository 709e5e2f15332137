//! Breaker failure (ANSI 50BF) and one reclosing (ANSI 79): for each line of the settings, when the breaker failed
//! to open, when one reclosing is given after a trip, and when a trip is final because it came too soon after one.
//! The rules are this project's own.
//!
//! A trip of the line has failed to open the breaker where current still flows, while the trip stands, at or after
//! the failure time behind its rise. It is final where it rises in the reclaim time behind a reclosing that was
//! given before. A trip that reset, didn't fail and isn't final is reclosed at the first sample at or after the
//! dead time behind its reset, unless another trip rises by then. Current flows at a ready sample where a phase has
//! at least the line's `open_i`.
//!
//! Times are given in milliseconds, and taken in samples, rounded up; currents are rms, in mA.
//!
//! The definition speaks of the whole list of trips, each with its own samples: read `specs/GuardTakes` (what is
//! taken of a sample), `specs/TripSpans` (the trips), `specs/Guarding` (failure, final trips and reclosings),
//! `specs/GuardEvents` (what is told) and `specs/GuardLines` (which line tells it); `specs/GuardTexts` has the text
//! of the log. All trips together tell one line at most at a sample, which is `show_one_line`. The code keeps where
//! the newest trip stands and the number of the newest reclosing, which `specs/KeptWatch` says. Each line gives its
//! sample sets to a `Line` of `line_relay`, whose events tell the trip, and to a `Front` for the phasors. Memory is
//! taken only in `Guards::new`.
#![tactic(auto)]

mod current;
mod event;
mod guard;
mod laws;
#[cfg(test)]
mod tests;
mod text;
mod trip;
mod waits;
mod watch;

pub use event::{GuardEvent, GuardWhat};
pub use guard::{Guard, Guards};
pub use laws::show_one_line;
pub use text::print_guard;
pub use waits::GuardTimes;
