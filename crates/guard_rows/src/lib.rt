//! Worked rows of the breaker guard. This crate holds tests alone.
//!
//! The expected lines were computed by a plain program over the whole list of samples and trips.
#![tactic(auto)]

#[cfg(test)]
mod tests;
