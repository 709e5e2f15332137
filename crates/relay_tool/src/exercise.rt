//! `drill SEED SECONDS`: a reproducible exercise of two lines, and what it counts.
ghost use Rattle.std.specs.Prelude.{◌≡◌, ◌+◌, ◌*◌, ◌<◌, ◌≤◌, ◌++◌, length, Some, List, []};
ghost use Rattle.std.specs.List.{All};
ghost use Rattle.room_io.specs.Room.{IsUnused};
ghost use Rattle.relay_settings.specs.Settings.{PlainSettings};
ghost use Rattle.station.specs.KeptStation.{StandsFor, frames_of, heard_of};
ghost use Rattle.drill.specs.PlanLeft.{frames_left};
ghost use Rattle.relay_tool.specs.Endings.{done};
ghost use Rattle.relay_tool.specs.Ends.{ending_by};
ghost use Rattle.relay_tool.specs.Words.{drill as drill_of};
ghost use Rattle.relay_tool.specs.Output.{heard};
ghost use Rattle.relay_tool.specs.Tallies.{summary, tally_of};
ghost use Rattle.relay_tool.specs.KeptTally.{Counts};
ghost use Rattle.relay_tool.specs.Leaving.{Leaves};

use crate::end::End;
use crate::note::{Note, append, put_number, text};
use crate::put::put;
use crate::tally::{Count, count_frame};
use arrayvec::ArrayVec;
use drill::{Plan, drill_settings};
use line_relay::Burst;
use relay_num::{Steps, open_steps};
use room_io::{Room, Slot};
use station::Station;
use std::alloc::Global;
use std::marker::Brand;
use std::sync::ledger::{Blank, Ledger};

/// Runs the plan's frames through a station of its two lines, and writes what that brings to standard output.
pub fn drill<R: Room>(alloc: Global, seed: u64, seconds: u32, room: &mut R) -> Result<(), End>
    requires unused { IsUnused (R.state room.old) }
    requires seconds { (1 ≤ seconds) × (seconds ≤ 600) }
    ensures { Leaves (Some (drill_of seed seconds)) (R.state room.old) (R.state room.new) (ending_by (λ u. done) result) }
{
    let settings = drill_settings(alloc)?;
    let mut station = Station::new(alloc, &settings)?;
    let mut plan = Plan::of(seed, seconds);
    let counted = run_plan::<Brand>(&mut plan, &mut station, Blank::new(1));
    let answer = summary_of(counted.0, &counted.1);
    put(room, Slot::Answer, answer.as_slice())?;
    Ok(())
}

/// Counts all frames of a plan, and what the station tells of them.
fn run_plan<L: Ledger>(plan: &mut Plan, station: &mut Station, blank: Blank) -> (u64, Count)
    requires name { blank.name ≡ L.name }
    requires parts { blank.parts ≡ L.parts }
    requires shares { 0 < blank.parts }
    requires frames { frames_of station.old ≡ 0 }
    requires heard { heard_of station.old ≡ 0 }
    requires few { length (frames_left plan.old) ≤ 2880000 }
    requires short { All (λ frame. length frame ≡ 205) (frames_left plan.old) }
    ensures frames { result.0 ≡ length (frames_left plan.old) }
    ensures counts { (settings : PlainSettings) → StandsFor settings [] station.old → Counts settings (heard [] (frames_left plan.old)) result.1 }
{
    let mut steps = open_steps::<L>(blank);
    let mut burst = Burst::new();
    let mut frame = ArrayVec::new();
    let mut frames: u64 = 0;
    let mut count = Count {
        events: 0,
        sends: 0,
        trips: 0,
    };
    'frames: while plan.frame(&mut frame) {
        frames += 1;
        count_frame(
            station,
            frame.as_slice(),
            &mut burst,
            &mut count,
            &mut steps,
        );
    }
    (frames, count)
}

fn summary_of(frames: u64, count: &Count) -> Note
    ensures { result.items ≡ summary (record { frames = frames; events = count.now.events; sends = count.now.sends; trips = count.now.trips }) }
{
    let mut answer = text(b"frames ");
    put_number(&mut answer, frames);
    append(&mut answer, b" events ");
    put_number(&mut answer, count.events);
    append(&mut answer, b" sends ");
    put_number(&mut answer, count.sends);
    append(&mut answer, b" trips ");
    put_number(&mut answer, count.trips);
    append(&mut answer, b"\n");
    answer
}
