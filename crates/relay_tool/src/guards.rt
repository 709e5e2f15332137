//! The study `guard`: what the breaker guards tell, as lines of the log.
ghost use Rattle.std.specs.Prelude.{◌≤◌, length};
ghost use Rattle.room_io.specs.Room.{IsReadyOut};
ghost use Rattle.room_io.specs.declared.room.Slot.TheVariants.{Log};
ghost use Rattle.breaker_guard.specs.GuardTexts.{IsPrintableGuard, guard_text};
ghost use Rattle.relay_tool.specs.Making.{Puts};

use crate::put::{Failed, put};
use crate::study_bank::Studied;
use breaker_guard::{Guard, GuardEvent, print_guard};
use room_io::{Room, Slot};

impl Studied for Guard {
    ghost use Rattle.breaker_guard.specs.Guarding.{listed};
    ghost use Rattle.relay_tool.specs.Output.{guard_items};

    ghost items = { λ name told. guard_items name (listed told) };

    fn put<R: Room>(room: &mut R, name: &[u8], told: &Option<GuardEvent>) -> Result<(), Failed> {
        match told {
            Some(event) => put_guard(room, name, event),
            None => Ok(()),
        }
    }
}

/// Writes the line of a guard's event. It isn't inlined, so that its room is cleared only where there is one.
#[inline(never)]
fn put_guard<R: Room>(room: &mut R, name: &[u8], event: &GuardEvent) -> Result<(), Failed>
    requires log { IsReadyOut Log (R.state room.old) }
    requires name { length name.now ≤ 16 }
    requires printable { IsPrintableGuard event.now }
    ensures { Puts Log (guard_text name.now event.now) (R.state room.old) (R.state room.new) result }
{
    put(room, Slot::Log, print_guard(name, event).as_slice())
}
