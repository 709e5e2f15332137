//! A capture's records, one by one, for a bank: each frame is read, each of its sample sets is heard, and what
//! that tells is written.
ghost use Rattle.std.specs.Prelude.{◌≡◌, ◌+◌, ◌*◌, ◌<◌, ◌≤◌, ◌^◌, ◌++◌, ℕ, List, [], Bool, IsTrue, length, min, reverse, OnOk, true};
ghost use Rattle.sample_windows.specs.Windows.{in_order};
ghost use Rattle.room_io.specs.Room.{IsReadyOut, IsReadyIn};
ghost use Rattle.room_io.specs.declared.room.Slot.{Slot};
ghost use Rattle.room_io.specs.declared.room.Slot.TheVariants.{Capture, Log};
ghost use Rattle.capture_feed.specs.Left.{found, is_live};
ghost use Rattle.sv_frame.specs.Asdu.{PlainAsdu, plain_asdu, plain_asdus};
ghost use Rattle.sv_frame.specs.Frame.{sv, bad};
ghost use Rattle.sv_frame.specs.Answer.{sequence_view};
ghost use Rattle.relay_tool.specs.Output.{Tells, frame_items};
ghost use Rattle.relay_tool.specs.Making.{Makes, OnlyWrites, Treats};
ghost use Rattle.relay_tool.specs.Files.{IsWrittenFile};
ghost use Rattle.relay_tool.specs.Running.{Runs, halted};

use crate::bank::Bank;
use crate::put::{Failed, put_event};
use arrayvec::ArrayVec;
use capture_feed::{Feed, FeedStop, Rec};
use event_record::Event;
use relay_num::{Steps, open_steps};
use room_io::{Room, Slot};
use std::sync::ledger::{Blank, Ledger};
use sv_frame::{Asdu, AsduSequence, Opened, Reason, open};

/// Where a capture stops that could be read to there. Counts are of whole records before the stop.
#[derive(Clone, Copy, Debug, Drop)]
pub enum Stopped {
    /// It was used to its end.
    Whole,
    /// It ended within a record.
    Cut { records: u64 },
    /// The next record tells this captured length, which is too great.
    Damaged { records: u64, size: u32 },
    /// A record was asked for when as many bytes were taken as may be.
    TooLong { records: u64 },
}

/// Hears each sample set of a frame, in their order.
fn hear_all<R: Room, B: Bank, L: Ledger>(
    bank: &mut B,
    asdus: &[Asdu<'_>],
    room: &mut R,
    steps: &mut Steps<L>,
) -> Result<(), Failed>
    requires few { B.heard bank.old + length asdus.now ≤ 2 ^ 40 }
    requires open { (slot : Slot) → IsTrue (B.outputs slot) → IsReadyOut slot (R.state room.old) }
    ensures only { OnlyWrites (R.state room.old) (R.state room.new) }
    ensures made { (tells : Tells) (past : List PlainAsdu) → B.stands bank.old tells past →
        Makes (in_order tells past (plain_asdus asdus.now)) (R.state room.old) (R.state room.new) result }
    ensures after { (tells : Tells) (past : List PlainAsdu) → B.stands bank.old tells past →
        OnOk result (B.stands bank.new tells (reverse (plain_asdus asdus.now) ++ past)) }
    ensures counted { B.heard bank.new ≤ B.heard bank.old + length asdus.now }
{
    for asdu in asdus {
        bank.hear(asdu, room, steps)?;
    }
    Ok(())
}

/// Writes the line of a malformed frame, the record of this number.
fn put_malformed<R: Room>(room: &mut R, number: u64, reason: Reason) -> Result<(), Failed>
    requires number { number ≤ 2 ^ 36 }
    requires log { IsReadyOut Log (R.state room.old) }
    ensures { (tells : Tells) (past : List PlainAsdu) →
        Makes (frame_items tells number past (bad reason)) (R.state room.old) (R.state room.new) result }
{
    let event = Event::Malformed {
        frame: number,
        reason,
    };
    put_event(room, b"", &event)
}

/// Hears the sample set of a frame that has to hold one, the record of this number: no list is made for it.
fn hear_only<R: Room, B: Bank, L: Ledger>(
    bank: &mut B,
    number: u64,
    asdus: AsduSequence<'_>,
    room: &mut R,
    steps: &mut Steps<L>,
) -> Result<(), Failed>
    requires one { asdus.count ≡ 1 }
    requires number { number ≤ 2 ^ 36 }
    requires few { B.heard bank.old + 16 ≤ 2 ^ 40 }
    requires log { IsReadyOut Log (R.state room.old) }
    requires open { (slot : Slot) → IsTrue (B.outputs slot) → IsReadyOut slot (R.state room.old) }
    ensures treats { Treats (B.stands bank.old) (B.stands bank.new) number (sequence_view asdus.entry) (R.state room.old) (R.state room.new) result }
    ensures counted { B.heard bank.new ≤ B.heard bank.old + 16 }
{
    match asdus.only(steps) {
        Ok(asdu) => bank.hear(&asdu, room, steps),
        Err(reason) => put_malformed(room, number, reason),
    }
}

/// Hears the sample sets of a frame, the record of this number. It isn't inlined, so that the room for their list is
/// cleared only where there are several.
#[inline(never)]
fn hear_several<R: Room, B: Bank, L: Ledger>(
    bank: &mut B,
    number: u64,
    asdus: AsduSequence<'_>,
    room: &mut R,
    steps: &mut Steps<L>,
) -> Result<(), Failed>
    requires number { number ≤ 2 ^ 36 }
    requires few { B.heard bank.old + 16 ≤ 2 ^ 40 }
    requires log { IsReadyOut Log (R.state room.old) }
    requires open { (slot : Slot) → IsTrue (B.outputs slot) → IsReadyOut slot (R.state room.old) }
    ensures treats { Treats (B.stands bank.old) (B.stands bank.new) number (sequence_view asdus.entry) (R.state room.old) (R.state room.new) result }
    ensures counted { B.heard bank.new ≤ B.heard bank.old + 16 }
{
    let mut sets = ArrayVec::new();
    match asdus.put_into(steps, &mut sets) {
        Ok(()) => hear_all(bank, sets.as_slice(), room, steps),
        Err(reason) => put_malformed(room, number, reason),
    }
}

/// Treats the record of this number: a malformed frame has its line in the log.
fn treat<R: Room, B: Bank, L: Ledger>(
    bank: &mut B,
    number: u64,
    frame: Rec<'_>,
    room: &mut R,
    steps: &mut Steps<L>,
) -> Result<(), Failed>
    requires number { number ≤ 2 ^ 36 }
    requires few { B.heard bank.old + 16 ≤ 2 ^ 40 }
    requires lent { length frame.bytes.now ≡ min frame.captured 2048 }
    requires log { IsReadyOut Log (R.state room.old) }
    requires open { (slot : Slot) → IsTrue (B.outputs slot) → IsReadyOut slot (R.state room.old) }
    ensures treats { Treats (B.stands bank.old) (B.stands bank.new) number (sv frame.entry.bytes.now frame.entry.captured) (R.state room.old) (R.state room.new) result }
    ensures counted { B.heard bank.new ≤ B.heard bank.old + 16 }
{
    match open(frame.bytes, frame.captured, steps) {
        Opened::Other => Ok(()),
        Opened::Bad(reason) => put_malformed(room, number, reason),
        Opened::Asdus(asdus) => {
            if asdus.count == 1 {
                hear_only(bank, number, asdus, room, steps)
            } else {
                hear_several(bank, number, asdus, room, steps)
            }
        }
    }
}

/// Where the feed stops behind so many records.
pub fn ended_by(stop: FeedStop, records: u64) -> Result<Stopped, Failed>
    ensures { result ≡ halted stop records }
{
    match stop {
        FeedStop::Fault | FeedStop::NotCapture => Err(Failed {
            slot: Slot::Capture,
        }),
        FeedStop::Cut => Ok(Stopped::Cut { records }),
        FeedStop::Damaged { length } => Ok(Stopped::Damaged {
            records,
            size: length,
        }),
        FeedStop::TooLong => Ok(Stopped::TooLong { records }),
    }
}

/// Runs a bank over the records that the feed has left, one by one, with a count of steps of its own.
pub fn run<R: Room, B: Bank, L: Ledger>(
    feed: &mut Feed,
    bank: &mut B,
    room: &mut R,
    blank: Blank,
) -> Result<Stopped, Failed>
    requires name { blank.name ≡ L.name }
    requires parts { blank.parts ≡ L.parts }
    requires shares { 0 < blank.parts }
    requires live { IsTrue (is_live feed.old) }
    requires capture { IsReadyIn Capture (R.state room.old) }
    requires log { IsReadyOut Log (R.state room.old) }
    requires open { (slot : Slot) → IsTrue (B.outputs slot) → IsReadyOut slot (R.state room.old) }
    requires heard { B.heard bank.old ≡ 0 }
    ensures { (tells : Tells) → B.stands bank.old tells [] →
        Runs tells (found feed.old) (R.state room.old) (R.state room.new) result }
{
    let mut steps = open_steps::<L>(blank);
    let mut records: u64 = 0;
    'records: loop {
        match feed.next(room) {
            Ok(got) => match got {
                Some(frame) => {
                    records += 1;
                    treat(bank, records, frame, room, &mut steps)?;
                }
                None => return Ok(Stopped::Whole),
            },
            Err(stop) => return ended_by(stop, records),
        }
    }
}
