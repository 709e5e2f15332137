//! Worked rows of the frame reader, of the sample stream above it and of the BER elements below it.
//! This crate holds tests alone.
//!
//! The rows are laid out by hand after IEC 61850-9-2 and ITU-T X.690; each names the answer that the
//! formats give.
#![tactic(auto)]

#[cfg(test)]
mod tests;
