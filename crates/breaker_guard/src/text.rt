//! The text of an event in the log.
ghost use Rattle.std.specs.Prelude.{◌≡◌, ◌≤◌, ◌<◌, ◌^◌, ◌++◌, length};
ghost use Rattle.breaker_guard.specs.GuardTexts.{IsPrintableGuard, guard_text, what_text};

use crate::event::{GuardEvent, GuardWhat};
use arrayvec::ArrayVec;
use event_record::begin_line;
use relay_num::put_bytes;

/// The log line of an event of the line with this name, with its newline.
#[tactic(auto, unfolding(crate::specs::GuardTexts::guard_text))]
pub fn print_guard(name: &[u8], e: &GuardEvent) -> ArrayVec<u8, 160>
    requires name { length name.now ≤ 16 }
    requires event { IsPrintableGuard e.now }
    ensures { result.items ≡ guard_text name.now e.now }
{
    let mut out = begin_line(name, e.at);
    put_bytes(&mut out, b"guard ");
    put_bytes(&mut out, word(e.what));
    out.push(b'\n');
    out
}

/// The word for what happened.
fn word(what: GuardWhat) -> &'static [u8]
    ensures text { result.now ≡ what_text what }
    ensures long { length result.now ≤ 7 }
{
    match what {
        GuardWhat::Final => b"final",
        GuardWhat::Fail => b"fail",
        GuardWhat::Reclose => b"reclose",
    }
}
