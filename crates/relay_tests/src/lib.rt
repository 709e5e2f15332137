//! Worked rows of the whole relay on a room in memory. This crate holds tests alone.
#![tactic(auto)]

#[cfg(test)]
mod tests;
