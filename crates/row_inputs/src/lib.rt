//! What the crates of rows put in: settings texts, sample sets, frames, captures, words, and rooms that hold them; and
//! the configuration of a record, which two of them want.
//!
//! Only crates of tests stand on this one. All inputs are of one line L1 at 4800 samples a second and 50 Hz, so 96 a
//! cycle, whose sample sets have the svID MU01; a row changes the few keys, bytes or channels that it is about.
#![tactic(auto)]

mod captures;
mod frames;
mod pair;
mod rooms;
mod settings;
mod signals;

pub use captures::{LITTLE_MICROS, put_record, signals_of};
pub use frames::{
    Form, PAIR, SAMPLE_FRAME, SEVENTEEN, SINGLE, SIXTEEN, TAGGED, frame_of_zeros, head_of, put_set,
    sample_set,
};
pub use pair::CONFIG;
pub use rooms::{room_with, words_of};
pub use settings::{LINES, SETTINGS, ZONE, changed, settings_of, sixteen_lines};
pub use signals::{
    Channel, GROUND_FAULT, Signal, Span, channels_of, data_of, data_set, wave_value,
};
