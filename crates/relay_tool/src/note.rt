//! The note that tells how a run ended.
ghost use Rattle.std.specs.Prelude.{◌≡◌, ◌+◌, ◌≤◌, ◌++◌, length, codes};
ghost use Rattle.std.specs.Fmt.{decimal};
ghost use Rattle.relay_tool.specs.Endings.{note_of as note_of_ending, slot_text as text_of_slot, refused, cut, damaged, too_long, fault, no_trip};
ghost use Rattle.relay_tool.specs.Ends.{ending_of};

use crate::end::End;
use arrayvec::ArrayVec;
use room_io::Slot;

/// A note: at most 352 bytes, ended by a newline where it isn't empty.
pub type Note = ArrayVec<u8, 352>;

pub fn append(out: &mut Note, text: &[u8])
    requires { length out.old.items + length text.now ≤ 352 }
    ensures bytes { out.new.items ≡ out.old.items ++ text.now }
    ensures long { length out.new.items ≤ length out.old.items + length text.now }
{
    let _ = out.try_extend_from_slice(text);
}

pub fn put_number(out: &mut Note, number: u64)
    requires { length out.old.items + 20 ≤ 352 }
    ensures bytes { out.new.items ≡ out.old.items ++ decimal number }
    ensures long { length out.new.items ≤ length out.old.items + 20 }
{
    relay_num::put_decimal(out, number);
}

pub fn text(words: &[u8]) -> Note
    requires { length words.now ≤ 352 }
    ensures { result.items ≡ words.now }
{
    let mut note = ArrayVec::new();
    append(&mut note, words);
    note
}

fn refused(number: u8, key: &[u8]) -> Note
    requires { length key.now ≤ 64 }
    ensures { result.items ≡ note_of_ending (refused number key.now) }
{
    let mut note = text(b"settings refused ");
    put_number(&mut note, u64::from(number));
    append(&mut note, b" ");
    append(&mut note, key);
    append(&mut note, b"\n");
    note
}

fn cut(records: u64) -> Note
    ensures { result.items ≡ note_of_ending (cut records) }
{
    let mut note = text(b"capture cut after ");
    put_number(&mut note, records);
    append(&mut note, b" records\n");
    note
}

fn damaged(records: u64, size: u32) -> Note
    ensures { result.items ≡ note_of_ending (damaged records size) }
{
    let mut note = text(b"capture damaged after ");
    put_number(&mut note, records);
    append(&mut note, b" records length ");
    put_number(&mut note, u64::from(size));
    append(&mut note, b"\n");
    note
}

fn too_long(records: u64) -> Note
    ensures { result.items ≡ note_of_ending (too_long records) }
{
    let mut note = text(b"capture too long after ");
    put_number(&mut note, records);
    append(&mut note, b" records\n");
    note
}

fn no_trip(trips: u64) -> Note
    ensures { result.items ≡ note_of_ending (no_trip trips) }
{
    let mut note = text(b"no such trip, ");
    put_number(&mut note, trips);
    append(&mut note, b" trips\n");
    note
}

fn slot_text(slot: Slot) -> &'static [u8]
    ensures text { result.now ≡ text_of_slot slot }
    ensures long { length result.now ≤ 8 }
{
    match slot {
        Slot::Settings => b"settings",
        Slot::Capture => b"capture",
        Slot::Goose => b"goose",
        Slot::Log => b"log",
        Slot::Config => b"config",
        Slot::Data => b"data",
        Slot::Note => b"note",
        Slot::Answer => b"answer",
    }
}

fn fault(slot: Slot) -> Note
    ensures { result.items ≡ note_of_ending (fault slot) }
{
    let mut note = text(b"fault ");
    append(&mut note, slot_text(slot));
    append(&mut note, b"\n");
    note
}

/// The note.
pub fn note_of(end: &End) -> Note
    ensures { result.items ≡ note_of_ending (ending_of end.now) }
{
    match end {
        End::Done => ArrayVec::new(),
        End::Usage => text(
            b"usage: relay replay SETTINGS CAPTURE GOOSE LOG or check SETTINGS or drill SEED SECONDS or backup SETTINGS CAPTURE LOG CURVE PICKUP TMS or locate SETTINGS CAPTURE LOG or guard SETTINGS CAPTURE LOG FAIL_MS DEAD_MS RECLAIM_MS or record SETTINGS CAPTURE LINE K CONFIG DATA\n",
        ),
        End::Refused { number, key } => refused(*number, key.as_str().as_bytes()),
        End::NotCapture => text(b"not a capture\n"),
        End::Cut { records } => cut(*records),
        End::Damaged { records, size } => damaged(*records, *size),
        End::TooLong { records } => too_long(*records),
        End::Fault(slot) => fault(*slot),
        End::NoMemory => text(b"no memory\n"),
        End::NoTrip { trips } => no_trip(*trips),
        End::NoLine => text(b"no such line\n"),
    }
}
