//! The lines of a relay together: up to sixteen, of which each takes its own sample sets.
//!
//! A sample set belongs to the line whose svID it has (IEC 61850-9-2); the svIDs of a relay's lines differ, so
//! it has one owner at most. A station reads captured frames, hands each sample set to its owner, and answers
//! what that line brings. No other line changes, so each line says of its own sample sets what it would say
//! alone. A malformed frame, or other traffic, changes no line.
//!
//! `specs/Owners` says whose a sample set is, `specs/Told` what is told of it, and `specs/KeptStation` what a
//! station holds. It stands on `line_relay` for a line and on `sv_frame` for frames.
#![tactic(auto)]

mod heard;
mod station;

pub use heard::Heard;
pub use station::Station;
