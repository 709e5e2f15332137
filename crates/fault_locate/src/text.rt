//! The text of a located fault in the log.
ghost use Rattle.std.specs.Prelude.{◌≡◌, ◌≤◌, ◌<◌, ◌+◌, ◌^◌, ◌++◌, length, decimal};
ghost use Rattle.std.specs.Option.{ForSome};
ghost use Rattle.fault_locate.specs.Quotients.{IsLimited};
ghost use Rattle.fault_locate.specs.LocateTexts.{IsPrintableLocated, located_text, distance_text, whole_text};

use crate::located::Located;
use arrayvec::ArrayVec;
use event_record::{begin_line, loop_name};
use relay_num::{put_bytes, put_decimal};

/// The log line of a located fault of the line with this name, with its newline.
#[tactic(auto, unfolding(crate::specs::LocateTexts::located_text))]
pub fn print_located(name: &[u8], l: &Located) -> ArrayVec<u8, 160>
    requires name { length name.now ≤ 16 }
    requires located { IsPrintableLocated l.now }
    ensures { result.items ≡ located_text name.now l.now }
{
    let mut out = begin_line(name, l.at);
    put_bytes(&mut out, b"locate ");
    put_bytes(&mut out, loop_name(l.lp));
    out.push(b' ');
    put_distance(&mut out, l.distance);
    put_bytes(&mut out, b" takagi ");
    put_distance(&mut out, l.takagi);
    out.push(b'\n');
    out
}

/// Appends a distance, or `none`.
fn put_distance(out: &mut ArrayVec<u8, 160>, distance: Option<i64>)
    requires distance { ForSome distance IsLimited }
    requires room { length out.old.items + 8 ≤ 160 }
    ensures bytes { out.new.items ≡ out.old.items ++ distance_text distance }
    ensures long { length out.new.items ≤ length out.old.items + 8 }
{
    match distance {
        Some(thousandths) => put_whole(out, thousandths),
        None => put_bytes(out, b"none"),
    }
}

/// Appends a whole number of at most seven digits, with a minus where it is below 0.
fn put_whole(out: &mut ArrayVec<u8, 160>, z: i64)
    requires z { IsLimited z }
    requires room { length out.old.items + 8 ≤ 160 }
    ensures bytes { out.new.items ≡ out.old.items ++ whole_text z }
    ensures long { length out.new.items ≤ length out.old.items + 8 }
{
    if z < 0 {
        out.push(b'-');
    }
    put_seven(out, z.unsigned_abs());
}

/// Appends the decimal digits of a number of at most seven.
fn put_seven(out: &mut ArrayVec<u8, 160>, value: u64)
    requires value { value ≤ 1000000 }
    requires room { length out.old.items + 7 ≤ 160 }
    ensures bytes { out.new.items ≡ out.old.items ++ decimal value }
    ensures long { length out.new.items ≤ length out.old.items + 7 }
{
    put_decimal(out, value);
}
