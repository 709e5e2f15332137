//! The record of a trip read back from its pair of texts, after the ASCII form of COMTRADE 1999 (IEEE C37.111-1999): a
//! configuration of 17 lines, and data with one line a sample.
//!
//! The grammar is a relation between two whole texts and what they say, and `read_pair` is bound to it from both sides:
//! what it reads is what the texts say, and where it refuses them they say nothing. Which channels a configuration has,
//! in which units, and the ranges of names, rates, dates, times and values are this project's own; nothing is said of
//! records that others write.
//!
//! Read `specs/Pairs` (when two texts are a pair), `specs/Configurations` and `specs/Moments` (the configuration), and
//! `specs/Rows` (the data). Each text is defined by what it says, so a reader is a search for what makes the text: each
//! of the private readers takes the front of a text, finds what it says and what stands behind, and finds nothing
//! exactly where nothing fits. The law `show_one_meaning` says that two texts say one thing at most. It stands on
//! `jiff_core` for the calendar, and takes memory for the samples alone.
#![tactic(auto)]

mod config;
mod data;
mod field;
mod laws;
mod moment;
mod number;
mod pair;
#[cfg(test)]
mod tests;

pub use data::PairSample;
pub use laws::show_one_meaning;
pub use pair::{Pair, PairError, read_pair};
