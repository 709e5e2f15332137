//! Worked rows of the fault locator. This crate holds tests alone.
//!
//! The expected lines were computed by a plain program in Python, which forms each phasor anew and looks back over the
//! whole list of samples.
#![tactic(auto)]

#[cfg(test)]
mod tests;
