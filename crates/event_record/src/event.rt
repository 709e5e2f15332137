//! Events.
use crate::time::At;
use sv_frame::Reason;

/// What happened on a line. A zone is from 1 to 5; a loop, `lp`, is from 0 to 5 for AG, BG, CG, AB, BC and CA.
#[derive(Clone, Copy, PartialEq, Eq, Debug)]
pub enum What {
    /// The line's first taken sample.
    First,
    /// So many samples are missing before this one.
    Jump { missing: u32 },
    /// A whole cycle of taken and good samples ends here.
    Ready,
    /// It no longer does.
    Lost,
    /// A power swing is declared.
    SwingOn,
    /// It is released.
    SwingOff,
    /// A fuse failure is declared.
    FuseOn,
    /// It is released.
    FuseOff,
    /// The loop is inside the zone.
    Entered { zone: u8, lp: u8 },
    /// It no longer is.
    Left { zone: u8, lp: u8 },
    /// The loop was inside the zone through the zone's whole delay.
    Operate { zone: u8, lp: u8 },
    /// The trip is sealed in.
    Trip,
    /// The trip ends.
    Reset,
    /// A sample set has another configuration revision than the line's.
    ConfRev { got: u32 },
    /// A sample set's data has another length than 64 bytes.
    Length { got: u32 },
    /// A sample set's counter is out of range.
    Wild { counter: u16 },
    /// A sample set has the counter of the last taken sample.
    Repeat { counter: u16 },
    /// A sample set's counter lies at most 64 samples behind the last taken sample.
    Late { counter: u16, behind: u32 },
}

/// What a log line says.
#[derive(Clone, Copy, PartialEq, Eq, Debug)]
pub enum Event {
    /// The frame of this record, counted from 1, isn't read, for this reason.
    Malformed { frame: u64, reason: Reason },
    /// What happened on a line at its last taken sample; none before the first.
    Line { at: Option<At>, what: What },
}

impl Default for Event {
    fn default() -> Event {
        Event::Line {
            at: None,
            what: What::First,
        }
    }
}
