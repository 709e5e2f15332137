//! `replay SETTINGS CAPTURE GOOSE LOG`: the main job, in its order of work.
ghost use Rattle.std.specs.Prelude.{◌≡◌, true, Some};
ghost use Rattle.room_io.specs.Room.{IsUnused, IsReadyOut};
ghost use Rattle.room_io.specs.declared.room.Slot.TheVariants.{Goose};
ghost use Rattle.capture_feed.specs.Written.{header_bytes};
ghost use Rattle.relay_tool.specs.Words.{are_short, replay as replay_of};
ghost use Rattle.relay_tool.specs.Asking.{names_of_files};
ghost use Rattle.relay_tool.specs.Ends.{ending_by};
ghost use Rattle.relay_tool.specs.Running.{ending_of_stop};
ghost use Rattle.relay_tool.specs.Making.{Puts};
ghost use Rattle.relay_tool.specs.Leaving.{Leaves};

use crate::end::End;
use crate::files::{MOST_CAPTURE, open_capture, open_output};
use crate::lines::Lines;
use crate::put::{Failed, put};
use crate::run::{Stopped, run};
use crate::settings::accept_settings;
use crate::words::Files;
use arrayvec::ArrayVec;
use capture_feed::{Feed, put_header};
use room_io::{Room, Slot};
use std::alloc::Global;
use std::marker::Brand;
use std::sync::ledger::Blank;

/// The whole job: the settings, all memory, the capture's header, the outputs, the records.
pub fn replay<R: Room>(alloc: Global, files: &Files<'_>, room: &mut R) -> Result<Stopped, End>
    requires unused { IsUnused (R.state room.old) }
    requires short { are_short (names_of_files files.now) ≡ true }
    ensures { Leaves (Some (replay_of (names_of_files files.now))) (R.state room.old) (R.state room.new) (ending_by ending_of_stop result) }
{
    let settings = accept_settings(alloc, files.settings, room)?;
    let mut feed = Feed::new(alloc, MOST_CAPTURE)?;
    let mut lines = Lines::new(alloc, &settings)?;
    open_capture(&mut feed, files.capture, room)?;
    open_output(room, Slot::Goose, files.goose)?;
    open_output(room, Slot::Log, files.log)?;
    put_goose_header(room)?;
    let stopped = run::<R, Lines, Brand>(&mut feed, &mut lines, room, Blank::new(1))?;
    Ok(stopped)
}

/// Writes the header of the GOOSE capture.
fn put_goose_header<R: Room>(room: &mut R) -> Result<(), Failed>
    requires { IsReadyOut Goose (R.state room.old) }
    ensures { Puts Goose header_bytes (R.state room.old) (R.state room.new) result }
{
    let mut header: ArrayVec<u8, 1064> = ArrayVec::new();
    put_header(&mut header);
    put(room, Slot::Goose, header.as_slice())
}
