//! The settings of a run, read from their slot.
ghost use Rattle.std.specs.Prelude.{◌≡◌, ◌≤◌, length};
ghost use Rattle.room_io.specs.Room.{IsUnused};
ghost use Rattle.relay_tool.specs.Accepting.{ReadsSettings, stop_of_error};

use arrayvec::ArrayString;
use relay_settings::Settings;
use room_io::{ReadStop, Room, Slot, read_up_to};
use settings_read::{SettingsError, read_settings};
use std::alloc::Global;

/// One byte more than the longest settings file, so that a longer one shows.
const MOST_SETTINGS: usize = 1_048_577;

/// Why there are no settings.
#[derive(Clone, Copy, Debug, Drop)]
pub enum SettingsStop {
    /// The settings could not be opened, or a read failed.
    Fault,
    /// They are refused, by this number and at this key.
    Refused { number: u8, key: ArrayString<64> },
    /// There was not enough memory.
    NoMemory,
}

/// Opens the settings, reads them to their end or to one byte beyond their limit, and accepts them.
pub fn accept_settings<R: Room>(
    alloc: Global,
    name: &str,
    room: &mut R,
) -> Result<Settings, SettingsStop>
    requires unused { IsUnused (R.state room.old) }
    requires short { length name.now ≤ 1024 }
    ensures { ReadsSettings name.now (R.state room.old) (R.state room.new) result }
{
    match room.open_in(Slot::Settings, name) {
        Ok(()) => {}
        Err(_) => return Err(SettingsStop::Fault),
    }
    let text = match read_up_to(alloc, room, Slot::Settings, MOST_SETTINGS) {
        Ok(text) => text,
        Err(ReadStop::Fault) => return Err(SettingsStop::Fault),
        Err(ReadStop::NoMemory) => return Err(SettingsStop::NoMemory),
    };
    match read_settings(alloc, text.as_slice()) {
        Ok(settings) => Ok(settings),
        Err(error) => Err(stop_of(error)),
    }
}

fn stop_of(error: SettingsError) -> SettingsStop
    ensures { result ≡ stop_of_error error }
{
    match error {
        SettingsError::NoMemory => SettingsStop::NoMemory,
        SettingsError::Refused { number, key } => SettingsStop::Refused { number, key },
    }
}
