//! The top call.
ghost use Rattle.std.specs.Prelude.{◌≡◌, map, string_bytes};
ghost use Rattle.room_io.specs.Room.{IsUnused};
ghost use Rattle.relay_tool.specs.Words.{form};
ghost use Rattle.relay_tool.specs.Ends.{ending_of};
ghost use Rattle.relay_tool.specs.Answers.{Answers};
ghost use Rattle.relay_tool.specs.Headline.{IsHeadline};
ghost use Rattle.relay_tool.specs.Leaving.{Leaves};

use crate::check::check;
use crate::end::{End, status_of};
use crate::exercise::drill;
use crate::note::note_of;
use crate::recording::record;
use crate::replay::replay;
use crate::study::study;
use crate::words::{Command, parse};
use room_io::{Room, Slot, write_whole};
use std::alloc::Global;

/// Does what the words ask for over this room, in which nothing was opened or written, and answers
/// the status:
///
/// - 0: the input was used to its end and all was written;
/// - 1: the words are no form;
/// - 2: the settings are refused;
/// - 3: the capture has no header;
/// - 4: the capture ended within a record;
/// - 5: a record's captured length is above 262,144, or a block of a pcapng capture isn't sound;
/// - 6: a call of the room failed;
/// - 7: there was not enough memory, before the capture or an output was opened;
/// - 8: a record was asked for when 2^40 bytes of the capture were taken;
/// - 9: the capture was used to its end, and the line has fewer trips than asked for;
/// - 10: no line of the settings has the name.
///
/// Each status but 0 writes its note.
pub fn relay<R: Room>(alloc: Global, words: &[String], room: &mut R) -> u8
    requires { IsUnused (R.state room.old) }
    ensures answers { Answers (map string_bytes words.now) (R.state room.old) (R.state room.new) result }
    ensures headline { IsHeadline (map string_bytes words.now) (R.state room.old) (R.state room.new) result }
{
    let end = perform(alloc, words, room);
    let _ = write_whole(room, Slot::Note, note_of(&end).as_slice());
    status_of(&end)
}

/// All but the note.
fn perform<R: Room>(alloc: Global, words: &[String], room: &mut R) -> End
    requires { IsUnused (R.state room.old) }
    ensures { Leaves (form (map string_bytes words.now)) (R.state room.old) (R.state room.new) (ending_of result) }
{
    match parse(words) {
        Some(Command::Replay(files)) => match replay(alloc, &files, room) {
            Ok(stopped) => End::from(stopped),
            Err(end) => end,
        },
        Some(Command::Check(settings)) => match check(alloc, settings, room) {
            Ok(()) => End::Done,
            Err(end) => end,
        },
        Some(Command::Drill { seed, seconds }) => match drill(alloc, seed, seconds, room) {
            Ok(()) => End::Done,
            Err(end) => end,
        },
        Some(Command::Study(asked, files)) => match study(alloc, asked, &files, room) {
            Ok(stopped) => End::from(stopped),
            Err(end) => end,
        },
        Some(Command::Record(words)) => match record(alloc, &words, room) {
            Ok(end) => end,
            Err(end) => end,
        },
        None => End::Usage,
    }
}
