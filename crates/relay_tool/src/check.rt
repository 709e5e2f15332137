//! `check SETTINGS`: whether a settings file would be accepted.
ghost use Rattle.std.specs.Prelude.{◌≡◌, ◌+◌, ◌≤◌, ◌<◌, ◌^◌, ◌++◌, length, Some};
ghost use Rattle.std.specs.Fmt.{decimal};
ghost use Rattle.room_io.specs.Room.{IsUnused};
ghost use Rattle.relay_settings.specs.Settings.{plain_settings, plain_lines};
ghost use Rattle.relay_settings.specs.Ranges.{InRange};
ghost use Rattle.relay_tool.specs.Endings.{done};
ghost use Rattle.relay_tool.specs.Ends.{ending_by};
ghost use Rattle.relay_tool.specs.Words.{check as check_of};
ghost use Rattle.relay_tool.specs.Run.{check_text, zones_in};
ghost use Rattle.relay_tool.specs.Leaving.{Leaves};

use crate::end::End;
use crate::note::{Note, append, put_number, text};
use crate::put::put;
use crate::settings::accept_settings;
use relay_settings::{LineSettings, Settings};
use room_io::{Room, Slot};
use std::alloc::Global;

/// Reads the settings, and writes how many lines and zones they have to standard output.
pub fn check<R: Room>(alloc: Global, name: &str, room: &mut R) -> Result<(), End>
    requires unused { IsUnused (R.state room.old) }
    requires short { length name.now ≤ 1024 }
    ensures { Leaves (Some (check_of name.now)) (R.state room.old) (R.state room.new) (ending_by (λ u. done) result) }
{
    let settings = accept_settings(alloc, name, room)?;
    put(room, Slot::Answer, answer_of(&settings).as_slice())?;
    Ok(())
}

/// How many zones the lines have in all.
fn zones_of(lines: &[LineSettings]) -> u64
    requires { length lines.now ≤ 16 }
    ensures { result ≡ zones_in (plain_lines lines.now) }
{
    let mut zones: u64 = 0;
    for line in lines {
        zones += line.zones.len() as u64;
    }
    zones
}

fn answer_of(settings: &Settings) -> Note
    requires { InRange settings.now }
    ensures { result.items ≡ check_text (plain_settings settings.now) }
{
    let mut answer = text(b"ok ");
    put_number(&mut answer, settings.lines.len() as u64);
    append(&mut answer, b" lines ");
    put_number(&mut answer, zones_of(settings.lines.as_slice()));
    append(&mut answer, b" zones\n");
    answer
}
