//! The text of an event in the log.
ghost use Rattle.std.specs.Prelude.{◌≡◌, ◌≤◌, ◌<◌, ◌^◌, ◌++◌, length};
ghost use Rattle.inverse_time.specs.BackupTexts.{IsPrintableEvent, backup_text, phase_text, what_text};

use crate::event::{BackupEvent, BackupWhat};
use arrayvec::ArrayVec;
use event_record::begin_line;
use relay_num::put_bytes;

/// The log line of an event of the line with this name, with its newline.
#[tactic(auto, unfolding(crate::specs::BackupTexts::backup_text))]
pub fn print_backup(name: &[u8], event: &BackupEvent) -> ArrayVec<u8, 160>
    requires name { length name.now ≤ 16 }
    requires event { IsPrintableEvent event.now }
    ensures { result.items ≡ backup_text name.now event.now }
{
    let mut out = begin_line(name, event.at);
    put_bytes(&mut out, b"backup ");
    put_bytes(&mut out, phase_name(event.phase));
    out.push(b' ');
    put_bytes(&mut out, word(event.what));
    out.push(b'\n');
    out
}

/// The name of a phase.
fn phase_name(phase: u8) -> &'static [u8]
    ensures text { result.now ≡ phase_text phase }
    ensures long { length result.now ≡ 1 }
{
    match phase {
        0 => b"A",
        1 => b"B",
        _ => b"C",
    }
}

/// The word for what happened.
fn word(what: BackupWhat) -> &'static [u8]
    ensures text { result.now ≡ what_text what }
    ensures long { length result.now ≤ 7 }
{
    match what {
        BackupWhat::Start => b"start",
        BackupWhat::Drop => b"drop",
        BackupWhat::Operate => b"operate",
    }
}
