//! Blocking by power swing: where the apparent impedance of the positive sequence lies between two
//! blinders, and whether it has stayed between them long enough to be a swing and no fault.
//!
//! A fault takes the impedance from load into the inner blinder at once, a swing moves it slowly. Sequence
//! parts are three times the component, voltages in counts of 10 mV and currents in counts of 1 mA; blinders
//! are milliohms; times are milliseconds in the settings and samples within. A take is one ready sample, and
//! `clear` begins anew where one isn't. `specs/Swinging.antt` says it over the whole list of takes, and
//! `specs/NumberedSwing.antt` over sample numbers that may have gaps. It stands on `apparent_impedance` for
//! the impedance as a fraction, on `relay_settings` for blinders and times, on `sample_windows` for windows
//! and runs, and on `relay_num` for complex numbers; it takes no memory.
//!
//! The law over numbers is `show_swings_by_number`; proofs cite `NumberedSwingLemmas.is_swing_numbered`. Its
//! premises: none is ready of no samples, and the numbers rise.
#![tactic(auto)]

mod blinders;
mod laws;
mod swing;
#[cfg(test)]
mod tests;

pub use blinders::{SwingPlace, swing_place, unbalanced};
pub use laws::show_swings_by_number;
pub use swing::Swing;
