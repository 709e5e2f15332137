//! A capture's records, one by one, for the recorder of a trip: each frame is read, and each of its sample sets is
//! heard. Nothing is written while a capture is heard, so there is no bank and no log here.
ghost use Rattle.std.specs.Prelude.{◌≡◌, ◌≢◌, ◌+◌, ◌*◌, ◌<◌, ◌≤◌, ◌^◌, ◌++◌, ℕ, List, [], IsTrue, length, min, reverse, IfErr, OnOk};
ghost use Rattle.room_io.specs.Room.{IsReadyIn, OnlyAt};
ghost use Rattle.room_io.specs.declared.room.Slot.TheVariants.{Capture};
ghost use Rattle.capture_feed.specs.Left.{found, is_live};
ghost use Rattle.relay_settings.specs.declared.types.Common.{Common};
ghost use Rattle.relay_settings.specs.Settings.{PlainLine};
ghost use Rattle.sv_frame.specs.Asdu.{PlainAsdu, plain_asdus};
ghost use Rattle.sv_frame.specs.Frame.{sv};
ghost use Rattle.comtrade_write.specs.KeptRecorder.{StandsFor, heard_of};
ghost use Rattle.relay_tool.specs.Output.{sets_of};
ghost use Rattle.relay_tool.specs.Listening.{Listens};

use crate::put::Failed;
use crate::run::{Stopped, ended_by};
use arrayvec::ArrayVec;
use capture_feed::{Feed, Rec};
use comtrade_write::Recorder;
use relay_num::{Steps, open_steps};
use room_io::Room;
use std::sync::ledger::{Blank, Ledger};
use sv_frame::{Asdu, SvKind, read_into};

/// Hears sample sets, in their order.
fn hear_sets<L: Ledger>(recorder: &mut Recorder, asdus: &[Asdu<'_>], steps: &mut Steps<L>)
    requires few { heard_of recorder.old + length asdus.now ≤ 2 ^ 40 }
    ensures after { (common : Common) (settings : PlainLine) (k : ℕ) (past : List PlainAsdu) → StandsFor common settings k past recorder.old →
        StandsFor common settings k (reverse (plain_asdus asdus.now) ++ past) recorder.new }
    ensures counted { heard_of recorder.new ≡ heard_of recorder.old + length asdus.now }
{
    for asdu in asdus {
        recorder.hear(asdu, steps);
    }
}

/// Hears the sample sets of a record's frame. A frame that is malformed or of another kind has none.
fn hear_frame<L: Ledger>(recorder: &mut Recorder, frame: Rec<'_>, steps: &mut Steps<L>)
    requires few { heard_of recorder.old + 16 ≤ 2 ^ 40 }
    requires lent { length frame.bytes.now ≡ min frame.captured 2048 }
    ensures after { (common : Common) (settings : PlainLine) (k : ℕ) (past : List PlainAsdu) → StandsFor common settings k past recorder.old →
        StandsFor common settings k (reverse (sets_of (sv frame.entry.bytes.now frame.entry.captured)) ++ past) recorder.new }
    ensures counted { heard_of recorder.new ≤ heard_of recorder.old + 16 }
{
    let mut sets = ArrayVec::new();
    match read_into(frame.bytes, frame.captured, steps, &mut sets) {
        SvKind::Pdu => hear_sets(recorder, sets.as_slice(), steps),
        SvKind::Bad(_) | SvKind::Other => {}
    }
}

/// Hears the records that the feed has left, one by one.
fn listen_all<R: Room, L: Ledger>(
    feed: &mut Feed,
    recorder: &mut Recorder,
    room: &mut R,
    steps: &mut Steps<L>,
) -> Result<Stopped, Failed>
    requires live { IsTrue (is_live feed.old) }
    requires capture { IsReadyIn Capture (R.state room.old) }
    requires heard { heard_of recorder.old ≡ 0 }
    ensures only { OnlyAt Capture (R.state room.old) (R.state room.new) }
    ensures records { (common : Common) (settings : PlainLine) (k : ℕ) → StandsFor common settings k [] recorder.old →
        Listens (λ past. StandsFor common settings k past recorder.new) (found feed.old) (R.state room.old) (R.state room.new) result }
{
    let mut records: u64 = 0;
    'records: loop {
        match feed.next(room) {
            Ok(got) => match got {
                Some(frame) => {
                    records += 1;
                    hear_frame(recorder, frame, steps);
                }
                None => return Ok(Stopped::Whole),
            },
            Err(stop) => return ended_by(stop, records),
        }
    }
}

/// Hears the records that the feed has left, with a count of steps of its own.
pub fn listen<R: Room, L: Ledger>(
    feed: &mut Feed,
    recorder: &mut Recorder,
    room: &mut R,
    blank: Blank,
) -> Result<Stopped, Failed>
    requires name { blank.name ≡ L.name }
    requires parts { blank.parts ≡ L.parts }
    requires shares { 0 < blank.parts }
    requires live { IsTrue (is_live feed.old) }
    requires capture { IsReadyIn Capture (R.state room.old) }
    requires heard { heard_of recorder.old ≡ 0 }
    ensures only { OnlyAt Capture (R.state room.old) (R.state room.new) }
    ensures records { (common : Common) (settings : PlainLine) (k : ℕ) → StandsFor common settings k [] recorder.old →
        Listens (λ past. StandsFor common settings k past recorder.new) (found feed.old) (R.state room.old) (R.state room.new) result }
{
    let mut steps = open_steps::<L>(blank);
    listen_all(feed, recorder, room, &mut steps)
}
