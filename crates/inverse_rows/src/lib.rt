//! Worked rows of the inverse-time elements. This crate holds tests alone.
//!
//! The expected lines were computed by a plain program over the whole list of samples, which forms every sum anew.
#![tactic(auto)]

#[cfg(test)]
mod tests;
