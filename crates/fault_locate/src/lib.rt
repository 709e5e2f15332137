//! Fault locator (ANSI 21FL): after each trip of a line, the distance to its fault in thousandths of the line, by the
//! reactance method and by the method of T. Takagi and others (1982). Both formulas are this project's own.
//!
//! A line's trip and the loop that raised it are read from its events. The fault is measured at the first taken sample
//! at least a whole cycle behind the trip. Exactly a cycle behind it, where the sample is ready, the full-cycle phasors
//! are those of the fault alone; at a later sample, or one that isn't ready, both distances are missing, and the line
//! is told all the same. Takagi's method takes off the loop's current two cycles before the trip, and needs that each
//! number from there on was taken. A trip that follows before that takes the place of the one that waits.
//!
//! Voltages are in counts of 10 mV, loop currents in thousandths of 1 mA, impedances in milliohms, and distances in
//! thousandths of the line, rounded down and kept within a million to either side.
//!
//! The definition speaks of sample numbers, over the list of a line's samples, and looks back in it: read
//! `specs/Distances` (both formulas) with `specs/Quotients`, `specs/TripLoops` (what is read from the events),
//! `specs/Locating` (what is told, and at which sample) and `specs/LocateLines` (which line tells it);
//! `specs/LocateTexts` has the text of the log. The code keeps the phase currents of the last two cycles and the trip
//! that waits, which `specs/KeptLookback` and `specs/KeptWaiting` say. Each line stands on a `Line` of `line_relay`
//! for the events and on a `Front` for the samples and their phasors, by their public contracts alone; `line_bank` has
//! the bank of all lines. Memory is taken only in `Locators::new`.
#![tactic(auto)]

mod distance;
mod located;
mod locator;
mod lookback;
mod measure;
mod numbers;
mod pairs;
mod text;
mod trips;
mod waiting;

pub use located::Located;
pub use locator::{Locator, Locators};
pub use text::print_located;
