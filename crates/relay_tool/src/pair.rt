//! The pair of a trip's record, written: the lines of its configuration, and then those of its data.
ghost use Rattle.std.specs.Prelude.{◌≡◌, ◌<◌, ℕ, List, map};
ghost use Rattle.room_io.specs.Room.{IsReadyOut};
ghost use Rattle.room_io.specs.declared.room.Slot.TheVariants.{Config, Data};
ghost use Rattle.relay_settings.specs.declared.types.Common.{Common};
ghost use Rattle.relay_settings.specs.Settings.{PlainLine};
ghost use Rattle.sv_frame.specs.Asdu.{PlainAsdu};
ghost use Rattle.comtrade_write.specs.KeptRecorder.{StandsFor, count_of};
ghost use Rattle.comtrade_write.specs.Recordings.{config_of, data_of};
ghost use Rattle.relay_tool.specs.Output.{config_item, data_item, pair_items};
ghost use Rattle.relay_tool.specs.Making.{Makes, OnlyWrites};

use crate::put::{Failed, put};
use comtrade_write::Recorder;
use room_io::{Room, Slot};

/// How many lines a configuration has.
const CONFIG_LINES: usize = 17;

/// Writes the lines of the record's configuration and then those of its data. The record covers some samples.
pub fn put_pair<R: Room>(recorder: &Recorder, room: &mut R) -> Result<(), Failed>
    requires count { 0 < count_of recorder.now }
    requires config { IsReadyOut Config (R.state room.old) }
    requires values { IsReadyOut Data (R.state room.old) }
    ensures only { OnlyWrites (R.state room.old) (R.state room.new) }
    ensures made { (common : Common) (settings : PlainLine) (k : ℕ) (past : List PlainAsdu) → StandsFor common settings k past recorder.now →
        Makes (pair_items common settings k past) (R.state room.old) (R.state room.new) result }
{
    put_config(recorder, room)?;
    put_data(recorder, room)
}

/// Writes the lines of the configuration.
fn put_config<R: Room>(recorder: &Recorder, room: &mut R) -> Result<(), Failed>
    requires count { 0 < count_of recorder.now }
    requires config { IsReadyOut Config (R.state room.old) }
    ensures only { OnlyWrites (R.state room.old) (R.state room.new) }
    ensures made { (common : Common) (settings : PlainLine) (k : ℕ) (past : List PlainAsdu) → StandsFor common settings k past recorder.now →
        Makes (map (config_item settings.name) (config_of common settings k past)) (R.state room.old) (R.state room.new) result }
{
    let mut done: usize = 0;
    while done < CONFIG_LINES {
        put(
            room,
            Slot::Config,
            recorder.config_line(done + 1).as_slice(),
        )?;
        done += 1;
    }
    Ok(())
}

/// Writes the lines of the data.
fn put_data<R: Room>(recorder: &Recorder, room: &mut R) -> Result<(), Failed>
    requires count { 0 < count_of recorder.now }
    requires values { IsReadyOut Data (R.state room.old) }
    ensures only { OnlyWrites (R.state room.old) (R.state room.new) }
    ensures made { (common : Common) (settings : PlainLine) (k : ℕ) (past : List PlainAsdu) → StandsFor common settings k past recorder.now →
        Makes (map (data_item settings.name) (data_of common settings k past)) (R.state room.old) (R.state room.new) result }
{
    let count = recorder.count();
    let mut done: usize = 0;
    while done < count {
        put(room, Slot::Data, recorder.data_line(done + 1).as_slice())?;
        done += 1;
    }
    Ok(())
}
