//! The study `locate`: what the fault locators tell, as lines of the log.
ghost use Rattle.std.specs.Prelude.{◌≤◌, length};
ghost use Rattle.room_io.specs.Room.{IsReadyOut};
ghost use Rattle.room_io.specs.declared.room.Slot.TheVariants.{Log};
ghost use Rattle.fault_locate.specs.LocateTexts.{IsPrintableLocated, located_text};
ghost use Rattle.relay_tool.specs.Making.{Puts};

use crate::put::{Failed, put};
use crate::study_bank::Studied;
use fault_locate::{Located, Locator, print_located};
use room_io::{Room, Slot};

impl Studied for Locator {
    ghost use Rattle.relay_tool.specs.Output.{located_items};

    ghost items = { located_items };

    fn put<R: Room>(room: &mut R, name: &[u8], told: &Option<Located>) -> Result<(), Failed> {
        match told {
            Some(located) => put_located(room, name, located),
            None => Ok(()),
        }
    }
}

/// Writes the line of a located fault. It isn't inlined, so that its room is cleared only where there is one.
#[inline(never)]
fn put_located<R: Room>(room: &mut R, name: &[u8], located: &Located) -> Result<(), Failed>
    requires log { IsReadyOut Log (R.state room.old) }
    requires name { length name.now ≤ 16 }
    requires printable { IsPrintableLocated located.now }
    ensures { Puts Log (located_text name.now located.now) (R.state room.old) (R.state room.new) result }
{
    put(room, Slot::Log, print_located(name, located).as_slice())
}
