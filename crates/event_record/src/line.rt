//! Log lines.
ghost use Rattle.std.specs.Prelude.{◌≡◌, ◌≤◌, ◌<◌, ◌+◌, ◌^◌, ◌++◌, length, decimal};
ghost use Rattle.event_record.specs.Printable.{IsPrintableAt, IsPrintable};
ghost use Rattle.event_record.specs.Line.{place_text, loop_text, reason_text, zone_text, words_text, at_text, line_text};

use crate::digits::put_number;
use crate::event::{Event, What};
use crate::time::{At, put_time};
use arrayvec::ArrayVec;
use relay_num::{put_bytes, put_decimal};
use sv_frame::Reason;

/// The log line of an event of the line with this name, with its newline.
#[tactic(auto, unfolding(crate::specs::Line::line_text))]
pub fn print(name: &[u8], event: &Event) -> ArrayVec<u8, 160>
    requires name { length name.now ≤ 16 }
    requires event { IsPrintable event.now }
    ensures { result.items ≡ line_text name.now event.now }
{
    let mut out = ArrayVec::new();
    match *event {
        Event::Malformed { frame, reason } => {
            put_counted(&mut out, b"frame ", frame);
            put_bytes(&mut out, b" malformed ");
            put_bytes(&mut out, reason_word(reason));
        }
        Event::Line { at, what } => {
            put_at(&mut out, name, at);
            put_words(&mut out, &what);
        }
    }
    out.push(b'\n');
    out
}

/// A log line that has begun: the name, the time and the number, each with one space behind it.
pub fn begin_line(name: &[u8], at: At) -> ArrayVec<u8, 160>
    requires name { length name.now ≤ 16 }
    requires nanos { at.nanos < 10 ^ 9 }
    ensures bytes { result.items ≡ place_text name.now at }
    ensures long { length result.items ≤ 69 }
{
    let mut out = ArrayVec::new();
    put_place(&mut out, name, &at);
    out
}

/// Appends the name, the time and the number, each with one space behind it. The bytes have to fit.
#[tactic(auto, unfolding(crate::specs::Line::place_text))]
pub fn put_place(out: &mut ArrayVec<u8, 160>, name: &[u8], at: &At)
    requires name { length name.now ≤ 16 }
    requires nanos { at.now.nanos < 10 ^ 9 }
    requires room { length out.old.items + length (place_text name.now at.now) ≤ 160 }
    ensures { out.new.items ≡ out.old.items ++ place_text name.now at.now }
{
    put_bytes(out, name);
    out.push(b' ');
    put_time(out, at.seconds, at.nanos);
    out.push(b' ');
    put_decimal(out, at.number);
    out.push(b' ');
}

/// Appends what stands before the words.
fn put_at(out: &mut ArrayVec<u8, 160>, name: &[u8], at: Option<At>)
    requires name { length name.now ≤ 16 }
    requires at { IsPrintableAt at }
    requires room { length out.old.items ≤ 20 }
    ensures bytes { out.new.items ≡ out.old.items ++ at_text name.now at }
    ensures long { length out.new.items ≤ length out.old.items + 69 }
{
    match at {
        Some(at) => put_place(out, name, &at),
        None => {
            put_bytes(out, name);
            put_bytes(out, b" - - ");
        }
    }
}

/// Appends what happened, in words, as the log has them.
fn put_words(out: &mut ArrayVec<u8, 160>, what: &What)
    requires { length out.old.items ≤ 90 }
    ensures bytes { out.new.items ≡ out.old.items ++ words_text what.now }
    ensures long { length out.new.items ≤ length out.old.items + 60 }
{
    match *what {
        What::First => put_bytes(out, b"first"),
        What::Jump { missing } => put_counted(out, b"jump ", u64::from(missing)),
        What::Ready => put_bytes(out, b"ready"),
        What::Lost => put_bytes(out, b"lost"),
        What::SwingOn => put_bytes(out, b"swing on"),
        What::SwingOff => put_bytes(out, b"swing off"),
        What::FuseOn => put_bytes(out, b"fuse on"),
        What::FuseOff => put_bytes(out, b"fuse off"),
        What::Entered { zone, lp } => put_zone(out, zone, lp, b" in"),
        What::Left { zone, lp } => put_zone(out, zone, lp, b" out"),
        What::Operate { zone, lp } => put_zone(out, zone, lp, b" operate"),
        What::Trip => put_bytes(out, b"trip"),
        What::Reset => put_bytes(out, b"reset"),
        What::ConfRev { got } => put_counted(out, b"confrev ", u64::from(got)),
        What::Length { got } => put_counted(out, b"length ", u64::from(got)),
        What::Wild { counter } => put_counted(out, b"wild ", u64::from(counter)),
        What::Repeat { counter } => put_counted(out, b"repeat ", u64::from(counter)),
        What::Late { counter, behind } => {
            put_counted(out, b"late ", u64::from(counter));
            put_counted(out, b" by ", u64::from(behind));
        }
    }
}

/// Appends a word and a number.
fn put_counted(out: &mut ArrayVec<u8, 160>, word: &[u8], value: u64)
    requires room { length out.old.items ≤ 130 }
    requires word { length word.now ≤ 8 }
    ensures bytes { out.new.items ≡ out.old.items ++ word.now ++ decimal value }
    ensures long { length out.new.items ≤ length out.old.items + length word.now + 20 }
{
    put_bytes(out, word);
    put_number(out, value);
}

/// Appends a zone, a loop and what they did.
fn put_zone(out: &mut ArrayVec<u8, 160>, zone: u8, lp: u8, did: &[u8])
    requires room { length out.old.items ≤ 90 }
    requires did { length did.now ≤ 8 }
    ensures bytes { out.new.items ≡ out.old.items ++ zone_text zone lp did.now }
    ensures long { length out.new.items ≤ length out.old.items + 36 }
{
    put_counted(out, b"zone ", u64::from(zone));
    out.push(b' ');
    put_bytes(out, loop_name(lp));
    put_bytes(out, did);
}

/// The name of a loop, as `AG`.
pub fn loop_name(lp: u8) -> &'static [u8]
    ensures text { result.now ≡ loop_text lp }
    ensures long { length result.now ≡ 2 }
{
    match lp {
        0 => b"AG",
        1 => b"BG",
        2 => b"CG",
        3 => b"AB",
        4 => b"BC",
        _ => b"CA",
    }
}

/// The word for why a frame isn't read.
fn reason_word(reason: Reason) -> &'static [u8]
    ensures text { result.now ≡ reason_text reason }
    ensures long { length result.now ≤ 6 }
{
    match reason {
        Reason::Header => b"header",
        Reason::Length => b"length",
        Reason::Long => b"long",
        Reason::Pdu => b"pdu",
        Reason::Count => b"count",
        Reason::Asdu => b"asdu",
    }
}
