//! One write to an output.
ghost use Rattle.room_io.specs.Room.{IsReadyOut};
ghost use Rattle.std.specs.Prelude.{◌≤◌, length};
ghost use Rattle.room_io.specs.declared.room.Slot.TheVariants.{Log};
ghost use Rattle.event_record.specs.Line.{line_text};
ghost use Rattle.event_record.specs.Printable.{IsPrintable};
ghost use Rattle.relay_tool.specs.Making.{Puts};

use event_record::{Event, print};
use room_io::{Room, Slot, write_whole};

/// A call of this slot failed.
#[derive(Clone, Copy, Debug, Drop)]
pub struct Failed {
    pub slot: Slot,
}

/// Appends these bytes to an output, all of them or, where a write fails, a front.
pub fn put<R: Room>(room: &mut R, slot: Slot, bytes: &[u8]) -> Result<(), Failed>
    requires { IsReadyOut slot (R.state room.old) }
    ensures { Puts slot bytes.now (R.state room.old) (R.state room.new) result }
{
    match write_whole(room, slot, bytes) {
        Ok(()) => Ok(()),
        Err(_) => Err(Failed { slot }),
    }
}

/// Writes the line of an event of the line with this name, which is empty for a malformed frame. It isn't inlined,
/// so that its room is cleared only where there is an event.
#[inline(never)]
pub fn put_event<R: Room>(room: &mut R, name: &[u8], event: &Event) -> Result<(), Failed>
    requires log { IsReadyOut Log (R.state room.old) }
    requires name { length name.now ≤ 16 }
    requires printable { IsPrintable event.now }
    ensures { Puts Log (line_text name.now event.now) (R.state room.old) (R.state room.new) result }
{
    put(room, Slot::Log, print(name, event).as_slice())
}
