//! Studies: what runs over the lines' sample sets in place of the relay, in the order of work of `replay`, with the
//! log as its one output.
ghost use Rattle.std.specs.Prelude.{◌≡◌, [], true, None, Some, Ok, IsTrue};
ghost use Rattle.room_io.specs.Room.{RoomState, IsUnused};
ghost use Rattle.room_io.specs.declared.room.Slot.{Slot};
ghost use Rattle.room_io.specs.declared.room.Slot.TheVariants.{Log};
ghost use Rattle.capture_feed.specs.Left.{IsFresh, limit_of};
ghost use Rattle.relay_settings.specs.Settings.{plain_settings};
ghost use Rattle.relay_settings.specs.declared.types.Settings.{Settings as SettingsRead};
ghost use Rattle.relay_tool.specs.Words.{Study as StudyAsked, are_short_study, study as asked_study};
ghost use Rattle.relay_tool.specs.Asking.{names_of_study, study_of, IsStudy};
ghost use Rattle.relay_tool.specs.Output.{study_items};
ghost use Rattle.relay_tool.specs.Run.{most_capture};
ghost use Rattle.relay_tool.specs.Accepting.{ReadsSettings};
ghost use Rattle.relay_tool.specs.Ends.{ending_by};
ghost use Rattle.relay_tool.specs.Running.{ending_of_stop};
ghost use Rattle.relay_tool.specs.Leaving.{Leaves};

use crate::bank::Bank;
use crate::end::End;
use crate::files::{MOST_CAPTURE, open_capture, open_output};
use crate::run::{Stopped, run};
use crate::settings::accept_settings;
use crate::study_bank::StudyBank;
use crate::words::{Study, StudyFiles};
use breaker_guard::{Guard, GuardTimes};
use capture_feed::Feed;
use fault_locate::Locator;
use inverse_time::{Backup, Dial};
use room_io::{Room, Slot};
use std::alloc::Global;
use std::marker::Brand;
use std::sync::ledger::Blank;

/// The whole study: the settings, all memory, the capture's header, the log, the records.
pub fn study<R: Room>(
    alloc: Global,
    study: Study,
    files: &StudyFiles<'_>,
    room: &mut R,
) -> Result<Stopped, End>
    requires unused { IsUnused (R.state room.old) }
    requires short { are_short_study (names_of_study files.now) ≡ true }
    requires numbers { IsStudy study }
    ensures { Leaves (Some (asked_study (study_of study) (names_of_study files.now))) (R.state room.old) (R.state room.new) (ending_by ending_of_stop result) }
{
    let settings = accept_settings(alloc, files.settings, room)?;
    let mut feed = Feed::new(alloc, MOST_CAPTURE)?;
    match study {
        Study::Backup { curve, pickup, tms } => {
            let dial = Dial { curve, pickup, tms };
            let mut bank = StudyBank::<Backup>::new(alloc, settings, dial)?;
            observe(&mut feed, &mut bank, files, room)
        }
        Study::Locate => {
            let mut bank = StudyBank::<Locator>::new(alloc, settings, ())?;
            observe(&mut feed, &mut bank, files, room)
        }
        Study::Guard {
            fail_ms,
            dead_ms,
            reclaim_ms,
        } => {
            let times = GuardTimes {
                fail_ms,
                dead_ms,
                reclaim_ms,
            };
            let mut bank = StudyBank::<Guard>::new(alloc, settings, times)?;
            observe(&mut feed, &mut bank, files, room)
        }
    }
}

/// Opens the capture and the log, and runs a bank over the records. The settings were read, and nothing else was done.
fn observe<R: Room, B: Bank>(
    feed: &mut Feed,
    bank: &mut B,
    files: &StudyFiles<'_>,
    room: &mut R,
) -> Result<Stopped, End>
    requires fresh { IsFresh feed.old }
    requires limit { limit_of feed.old ≡ most_capture }
    requires heard { B.heard bank.old ≡ 0 }
    requires outputs { (slot : Slot) → IsTrue (B.outputs slot) → slot ≡ Log }
    requires capture { (R.state room.old).capture.name ≡ None }
    requires log { (R.state room.old).log.name ≡ None }
    requires short { are_short_study (names_of_study files.now) ≡ true }
    ensures { (asked : StudyAsked) (settings : SettingsRead) (old : RoomState) →
        IsUnused old → ReadsSettings files.now.settings.now old (R.state room.old) (Ok settings) →
        B.stands bank.old (study_items asked (plain_settings settings)) [] →
        Leaves (Some (asked_study asked (names_of_study files.now))) old (R.state room.new) (ending_by ending_of_stop result) }
{
    open_capture(feed, files.capture, room)?;
    open_output(room, Slot::Log, files.log)?;
    let stopped = run::<R, B, Brand>(feed, bank, room, Blank::new(1))?;
    Ok(stopped)
}
