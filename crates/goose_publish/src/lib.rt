//! The GOOSE publisher of a line: at which samples a frame is sent, and its bytes (IEC 61850-8-1).
//!
//! A frame is sent where the published data set changes, and is then repeated at offsets of 4, 12, 28, 60
//! milliseconds and so on, whose steps double up to the heartbeat. A sample's number counts from the settings'
//! start, at the settings' rate; offsets are milliseconds, and fall on the first sample that is as late.
//!
//! `specs/Publishing.antt` defines what is sent at each take over the list of all of them, and
//! `specs/GooseFrame.antt` the frame's bytes; the `show_` functions are laws of these definitions, and do nothing.
//! It stands on `relay_settings` for the settings, on `sample_windows` for searches over numbers and takes, and
//! on `ber_fields` for the elements of a frame. Nothing here takes memory.
#![tactic(auto)]

mod frame;
mod laws;
mod pace;
mod points;
mod publisher;
mod put;
mod schedule;
mod tags;
#[cfg(test)]
mod tests;

pub use frame::FrameRoom;
pub use laws::{
    show_change_is_newest, show_counts_go_on_with_1, show_each_offset_counts, show_last_is_greatest,
};
pub use points::{Points, Send};
pub use publisher::Publisher;
