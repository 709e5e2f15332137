//! The sample stream of one merging unit: which sample sets are taken, with which number, and whether
//! a sample is good.
//!
//! The sample counter (smpCnt of IEC 61850-9-2) starts anew each second. A `Numberer` carries it on
//! into one number that doesn't: the first number is the counter, and each later one the next that is
//! congruent to its counter modulo the rate. A counter that comes again, or late by at most 64
//! samples, isn't taken. Currents are in mA and voltages in units of 10 mV, as in the frame.
//!
//! `specs/Numbering.antt` defines the outcome of each counter over the list of all of them, and
//! `specs/Samples.antt` when a sample is good. It stands on `sv_frame` for the channels of a data set.
#![tactic(auto)]

mod after;
mod laws;
mod numberer;
mod sample;

pub use laws::show_numbers_are_unique;
pub use numberer::{Numberer, Taken};
pub use sample::{Sample, sample_of};
