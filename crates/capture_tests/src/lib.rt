//! Worked rows of captures in both formats, laid out by hand after the libpcap file format and
//! draft-ietf-opsawg-pcapng; and the caller that shows for how long a record is lent. This crate holds tests alone beside
//! that caller.
#![tactic(auto)]

mod lending;
#[cfg(test)]
mod tests;
