//! The opening of a run's files: the capture with its header, and the outputs.
ghost use Rattle.std.specs.Prelude.{◌≡◌, ◌≤◌, length, None};
ghost use Rattle.room_io.specs.Room.{at};
ghost use Rattle.capture_feed.specs.Left.{IsFresh, limit_of};
ghost use Rattle.relay_tool.specs.Files.{IsWrittenFile};
ghost use Rattle.relay_tool.specs.Run.{most_capture};
ghost use Rattle.relay_tool.specs.Opening.{OpensCapture, OpensOutput};

use crate::put::Failed;
use capture_feed::{Feed, FeedStop};
use room_io::{Room, Slot};

/// A record is asked for only while fewer bytes of the capture were taken.
pub const MOST_CAPTURE: u64 = 1 << 40;

/// Why no record of the capture is asked for.
#[derive(Clone, Copy, Debug, Drop)]
pub enum CaptureStop {
    /// The capture could not be opened, or a read failed.
    Fault,
    /// It has no header.
    NotCapture,
}

/// Opens the capture and reads its header.
pub fn open_capture<R: Room>(feed: &mut Feed, name: &str, room: &mut R) -> Result<(), CaptureStop>
    requires fresh { IsFresh feed.old }
    requires limit { limit_of feed.old ≡ most_capture }
    requires unnamed { (R.state room.old).capture.name ≡ None }
    requires short { length name.now ≤ 1024 }
    ensures { OpensCapture name.now (R.state room.old) (R.state room.new) feed.new result }
{
    match room.open_in(Slot::Capture, name) {
        Ok(()) => {}
        Err(_) => return Err(CaptureStop::Fault),
    }
    match feed.begin(room) {
        Ok(()) => Ok(()),
        Err(stop) => match stop {
            FeedStop::NotCapture => Err(CaptureStop::NotCapture),
            _ => Err(CaptureStop::Fault),
        },
    }
}

/// Opens an output file.
pub fn open_output<R: Room>(room: &mut R, slot: Slot, name: &str) -> Result<(), Failed>
    requires output { IsWrittenFile slot }
    requires unnamed { (at (R.state room.old) slot).name ≡ None }
    requires short { length name.now ≤ 1024 }
    ensures { OpensOutput slot name.now (R.state room.old) (R.state room.new) result }
{
    match room.open_out(slot, name) {
        Ok(()) => Ok(()),
        Err(_) => Err(Failed { slot }),
    }
}
