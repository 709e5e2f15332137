//! The study `backup`: what the inverse-time elements tell, as lines of the log.
ghost use Rattle.std.specs.Prelude.{◌≤◌, length};
ghost use Rattle.std.specs.List.{All};
ghost use Rattle.room_io.specs.Room.{IsReadyOut};
ghost use Rattle.room_io.specs.declared.room.Slot.TheVariants.{Log};
ghost use Rattle.inverse_time.specs.BackupTexts.{IsPrintableEvent, backup_text};
ghost use Rattle.relay_tool.specs.Output.{backup_items};
ghost use Rattle.relay_tool.specs.Making.{Makes, Puts};

use crate::put::{Failed, put};
use crate::study_bank::Studied;
use arrayvec::ArrayVec;
use inverse_time::{Backup, BackupEvent, print_backup};
use room_io::{Room, Slot};

impl Studied for Backup {
    ghost use Rattle.relay_tool.specs.Output.{backup_items};

    ghost items = { λ name told. backup_items name told.items };

    fn put<R: Room>(
        room: &mut R,
        name: &[u8],
        told: &ArrayVec<BackupEvent, 6>,
    ) -> Result<(), Failed> {
        put_backups(room, name, told.as_slice())
    }
}

/// Writes the lines of a line's inverse-time events.
fn put_backups<R: Room>(room: &mut R, name: &[u8], events: &[BackupEvent]) -> Result<(), Failed>
    requires log { IsReadyOut Log (R.state room.old) }
    requires name { length name.now ≤ 16 }
    requires printable { All IsPrintableEvent events.now }
    ensures { Makes (backup_items name.now events.now) (R.state room.old) (R.state room.new) result }
{
    for event in events {
        put_backup(room, name, event)?;
    }
    Ok(())
}

/// Writes the line of an inverse-time event. It isn't inlined, so that its room is cleared only where there is one.
#[inline(never)]
fn put_backup<R: Room>(room: &mut R, name: &[u8], event: &BackupEvent) -> Result<(), Failed>
    requires log { IsReadyOut Log (R.state room.old) }
    requires name { length name.now ≤ 16 }
    requires printable { IsPrintableEvent event.now }
    ensures { Puts Log (backup_text name.now event.now) (R.state room.old) (R.state room.new) result }
{
    put(room, Slot::Log, print_backup(name, event).as_slice())
}
