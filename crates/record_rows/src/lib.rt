//! Worked rows of the record of a trip. This crate holds tests alone.
//!
//! The expected texts were made by a plain program that knows the signals and the number of the trip alone.
#![tactic(auto)]

#[cfg(test)]
mod tests;
