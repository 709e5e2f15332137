//! The drill: a reproducible exercise of a station of two lines, as frames of sampled values and as settings.
//!
//! A plan is made of a number and of a count of seconds. In each second each line is healthy, has a ground
//! fault, loses two frames or has one bad sample, as a word of a PCG32 generator says; at 4800 samples a second,
//! two in each frame, both lines send in turn. Values are counts of 1 mA and of 10 mV. `specs/PlannedFrames.antt`
//! defines the list of all frames of a number and a count of seconds, over `specs/DrawnWords.antt` for the words,
//! `specs/DrillSignal.antt` for the samples and `specs/DrillFrame.antt` for the bytes; `specs/DrillSettings.antt`
//! has the settings of the two lines.
//!
//! It stands on `rand_pcg` for the words, on `relay_num` for the sine table, on `ber_fields` for the elements of a
//! frame and on `relay_settings`. Making frames takes no memory; the settings take a list of two lines.
#![tactic(auto)]

mod frame;
mod laws;
mod plan;
mod settings;
mod signal;
mod slot;
#[cfg(test)]
mod tests;
mod text;

pub use laws::{show_how_long_frames, show_how_many_frames};
pub use plan::Plan;
pub use settings::drill_settings;
pub use text::drill_text;
