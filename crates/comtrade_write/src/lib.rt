//! The record of a trip as a pair of texts, after the ASCII form of COMTRADE 1999 (IEEE C37.111-1999): a
//! configuration of 17 lines, and data with one line a sample.
//!
//! A `Recorder` hears the sample sets of one line of the settings and keeps what the record of that line's k-th
//! trip covers: the taken samples from two cycles before the trip to four behind it. Values are in mA and in
//! counts of 10 mV, as the samples have them. Which samples are covered, the channels' order and the widths are
//! this project's own; nothing is said of records that others write.
//!
//! The definition is over the list of all sample sets, the newest first. Read `specs/Covered` (which samples a
//! record covers), `specs/ConfigTexts` and `specs/DataTexts` (what the lines say), and `specs/Recordings` (the record
//! of a line after the sample sets that were heard); `specs/KeptWindow` and `specs/KeptRecorder` say what the code
//! keeps. How a line is spelled stands once, in the grammar of `comtrade_read`, which reads a pair back.
//! It stands on `line_relay`, whose `Line` tells when a trip begins and ends and whose `Front` gives the samples, on
//! `event_record` for their times, on `circular_buffer` for the samples that are kept, and on `comtrade_read`. It
//! takes memory only in `Recorder::new`.
#![tactic(auto)]

mod config;
mod covered;
mod data;
mod laws;
mod moment;
mod numbers;
mod recorder;
mod watch;
mod window;

pub use comtrade_read::{Pair, PairError, PairSample, read_pair};
pub use laws::show_record_is_a_pair;
pub use recorder::Recorder;
