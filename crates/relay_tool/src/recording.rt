//! The record of a line's trip, as a pair of files: the capture is heard to its stop before an output is opened.
ghost use Rattle.std.specs.Prelude.{◌≡◌, ◌<◌, ℕ, [], true, None, Some, Ok, IfSome, IfNone, length, slice_index_or};
ghost use Rattle.room_io.specs.Room.{RoomState, IsUnused};
ghost use Rattle.capture_feed.specs.Left.{IsFresh, limit_of};
ghost use Rattle.relay_settings.specs.Settings.{PlainLine, plain_lines, plain_settings};
ghost use Rattle.relay_settings.specs.declared.types.Settings.{Settings as SettingsRead};
ghost use Rattle.comtrade_write.specs.KeptRecorder.{StandsFor, heard_of};
ghost use Rattle.relay_tool.specs.Words.{recording};
ghost use Rattle.relay_tool.specs.Asking.{names_of_record, IsRecord};
ghost use Rattle.relay_tool.specs.Run.{line_named, most_capture};
ghost use Rattle.relay_tool.specs.Accepting.{ReadsSettings};
ghost use Rattle.relay_tool.specs.Ends.{ending_of, ending_by, lacking_end};
ghost use Rattle.relay_tool.specs.Leaving.{Leaves};

use crate::end::End;
use crate::files::{MOST_CAPTURE, open_capture, open_output};
use crate::listen::listen;
use crate::pair::put_pair;
use crate::run::Stopped;
use crate::settings::accept_settings;
use crate::words::RecordWords;
use capture_feed::Feed;
use comtrade_write::Recorder;
use relay_settings::LineSettings;
use room_io::{Room, Slot};
use std::alloc::Global;
use std::marker::Brand;
use std::sync::ledger::Blank;

/// The whole of `record`: the settings, the line's name, all memory, the capture to its stop, the outputs.
pub fn record<R: Room>(alloc: Global, words: &RecordWords<'_>, room: &mut R) -> Result<End, End>
    requires unused { IsUnused (R.state room.old) }
    requires numbers { IsRecord words.now }
    ensures { Leaves (Some (recording (names_of_record words.now))) (R.state room.old) (R.state room.new) (ending_by ending_of result) }
{
    let settings = accept_settings(alloc, words.settings, room)?;
    let Some(place) = place_of(settings.lines.as_slice(), words.line.as_bytes()) else {
        return Err(End::NoLine);
    };
    let mut feed = Feed::new(alloc, MOST_CAPTURE)?;
    let mut recorder = Recorder::new(alloc, &settings, place, words.trip)?;
    keep(&mut feed, &mut recorder, words, room)
}

/// The place of the line with this name.
fn place_of(lines: &[LineSettings], name: &[u8]) -> Option<usize>
    ensures within { IfSome result (λ place. place < length lines.now) }
    ensures found { IfSome result (λ place. (d : PlainLine) → line_named name.now (plain_lines lines.now) ≡ Some (slice_index_or (plain_lines lines.now) place d)) }
    ensures none { IfNone result (line_named name.now (plain_lines lines.now) ≡ None) }
{
    for (place, line) in lines.iter().enumerate() {
        if line.name.as_slice() == name {
            return Some(place);
        }
    }
    None
}

/// How a run ends that found fewer trips than asked for.
fn lacking(stopped: Stopped, trips: u64) -> End
    ensures { ending_of result ≡ lacking_end stopped trips }
{
    match stopped {
        Stopped::Whole => End::NoTrip { trips },
        Stopped::Cut { .. } | Stopped::Damaged { .. } | Stopped::TooLong { .. } => End::from(
            stopped,
        ),
    }
}

/// Opens the capture and hears it to its stop; then, where the line has the trip, opens the outputs and writes the pair. The
/// settings were read, and nothing else was done.
fn keep<R: Room>(
    feed: &mut Feed,
    recorder: &mut Recorder,
    words: &RecordWords<'_>,
    room: &mut R,
) -> Result<End, End>
    requires fresh { IsFresh feed.old }
    requires limit { limit_of feed.old ≡ most_capture }
    requires heard { heard_of recorder.old ≡ 0 }
    requires capture { (R.state room.old).capture.name ≡ None }
    requires config { (R.state room.old).config_file.name ≡ None }
    requires values { (R.state room.old).data_file.name ≡ None }
    requires numbers { IsRecord words.now }
    ensures { (line : PlainLine) (settings : SettingsRead) (old : RoomState) →
        IsUnused old → ReadsSettings words.now.settings.now old (R.state room.old) (Ok settings) →
        line_named words.now.line.now (plain_settings settings).lines ≡ Some line → StandsFor settings.common line words.now.trip [] recorder.old →
        Leaves (Some (recording (names_of_record words.now))) old (R.state room.new) (ending_by ending_of result) }
{
    open_capture(feed, words.capture, room)?;
    let stopped = listen::<R, Brand>(feed, recorder, room, Blank::new(1))?;
    if recorder.count() == 0 {
        return Ok(lacking(stopped, recorder.trips()));
    }
    open_output(room, Slot::Config, words.config_file)?;
    open_output(room, Slot::Data, words.data_file)?;
    put_pair(recorder, room)?;
    Ok(End::from(stopped))
}
