//! What supervises the zones: a blown fuse of the voltage transformer, load, and the least current of a loop.
//!
//! Voltages are in counts of 10 mV and currents in counts of 1 mA, sequence parts being three times the
//! component; the load's resistance is in milliohms and its slope in thousandths; times are milliseconds in
//! the settings and samples within. A take of the fuse is one ready sample, and `clear` begins anew where one
//! isn't. `specs/Fusing.antt` says it over the whole list of takes, and `specs/NumberedFuse.antt` over sample
//! numbers that may have gaps. It stands on `apparent_impedance` for the impedance as a fraction, on
//! `loop_impedance` for the order of phases and loops, on `relay_settings` for the settings, on
//! `sample_windows` for windows over takes, and on `relay_num` for complex numbers; it takes no memory.
//!
//! The law of the fuse over numbers is `show_blows_by_number`; proofs cite
//! `NumberedFuseLemmas.is_blown_numbered`. Its premises: none is ready of no samples, and the numbers rise.
#![tactic(auto)]

mod current;
mod fuse;
mod laws;
mod load;
#[cfg(test)]
mod tests;

pub use current::current_allowed;
pub use fuse::Fuse;
pub use laws::show_blows_by_number;
pub use load::load_blocks;
