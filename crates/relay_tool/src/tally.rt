//! What a drill counts of what its lines tell.
ghost use Rattle.std.specs.Prelude.{◌≡◌, ◌+◌, ◌*◌, ◌<◌, ◌≤◌, ◌^◌, ◌++◌, ◌∷◌, ℕ, List, length, reverse, min};
ghost use Rattle.std.specs.List.{count_by};
ghost use Rattle.sv_frame.specs.Asdu.{PlainAsdu, plain_asdu, plain_asdus};
ghost use Rattle.sv_frame.specs.Frame.{sv};
ghost use Rattle.relay_settings.specs.Settings.{PlainSettings};
ghost use Rattle.station.specs.KeptStation.{StandsFor, frames_of, heard_of};
ghost use Rattle.relay_tool.specs.Output.{sets_of};
ghost use Rattle.relay_tool.specs.Tallies.{is_trip as is_trip_event};
ghost use Rattle.relay_tool.specs.KeptTally.{Counts, IsFew};

use arrayvec::ArrayVec;
use event_record::{Event, What};
use line_relay::Burst;
use relay_num::Steps;
use station::Station;
use std::sync::ledger::Ledger;
use sv_frame::{Asdu, SvKind};

/// How many events the lines told, how many frames they sent, and how many trips are among the events.
#[derive(Clone, Copy, Debug, Drop)]
pub struct Count {
    pub events: u64,
    pub sends: u64,
    pub trips: u64,
}

/// Whether an event is a trip.
fn is_trip(event: &Event) -> bool
    ensures { result ≡ is_trip_event event.now }
{
    matches!(
        event,
        Event::Line {
            what: What::Trip,
            ..
        }
    )
}

/// How many trips are among these events.
fn trips_in(events: &[Event]) -> u64
    requires { length events.now ≤ 96 }
    ensures { result ≡ count_by is_trip_event events.now }
{
    let mut trips: u64 = 0;
    for event in events {
        if is_trip(event) {
            trips += 1;
        }
    }
    trips
}

/// Hands a sample set to the station, and counts what its owner tells.
fn count_set<L: Ledger>(
    station: &mut Station,
    a: &Asdu<'_>,
    burst: &mut Burst,
    count: &mut Count,
    steps: &mut Steps<L>,
)
    requires heard { heard_of station.old < 2 ^ 40 }
    requires few { IsFew (heard_of station.old) count.old }
    ensures few { IsFew (heard_of station.new) count.new }
    ensures heard { heard_of station.new ≡ heard_of station.old + 1 }
    ensures frames { frames_of station.new ≡ frames_of station.old }
    ensures stands { (settings : PlainSettings) (past : List PlainAsdu) → StandsFor settings past station.old →
        StandsFor settings (plain_asdu a.now ∷ past) station.new }
    ensures counts { (settings : PlainSettings) (past : List PlainAsdu) → StandsFor settings past station.old → Counts settings past count.old →
        Counts settings (plain_asdu a.now ∷ past) count.new }
{
    match station.hear_into(a, burst, steps) {
        Some(_) => {
            count.events += burst.events.len() as u64;
            count.trips += trips_in(burst.events.as_slice());
            if burst.send.is_some() {
                count.sends += 1;
            }
        }
        None => {}
    }
}

/// Counts what is told of each sample set of a frame, in their order.
fn count_sets<L: Ledger>(
    station: &mut Station,
    sets: &[Asdu<'_>],
    burst: &mut Burst,
    count: &mut Count,
    steps: &mut Steps<L>,
)
    requires heard { heard_of station.old + length sets.now ≤ 2 ^ 40 }
    requires few { IsFew (heard_of station.old) count.old }
    ensures few { IsFew (heard_of station.new) count.new }
    ensures heard { heard_of station.new ≤ heard_of station.old + length sets.now }
    ensures frames { frames_of station.new ≡ frames_of station.old }
    ensures stands { (settings : PlainSettings) (past : List PlainAsdu) → StandsFor settings past station.old →
        StandsFor settings (reverse (plain_asdus sets.now) ++ past) station.new }
    ensures counts { (settings : PlainSettings) (past : List PlainAsdu) → StandsFor settings past station.old → Counts settings past count.old →
        Counts settings (reverse (plain_asdus sets.now) ++ past) count.new }
{
    for set in sets {
        count_set(station, set, burst, count, steps);
    }
}

/// Counts what is told of a frame, which was captured whole.
pub fn count_frame<L: Ledger>(
    station: &mut Station,
    frame: &[u8],
    burst: &mut Burst,
    count: &mut Count,
    steps: &mut Steps<L>,
)
    requires short { length frame.now ≤ 2048 }
    requires frames { frames_of station.old < 2 ^ 36 }
    requires heard { heard_of station.old + 16 ≤ 2 ^ 40 }
    requires few { IsFew (heard_of station.old) count.old }
    ensures few { IsFew (heard_of station.new) count.new }
    ensures heard { heard_of station.new ≤ heard_of station.old + 16 }
    ensures frames { frames_of station.new ≡ frames_of station.old + 1 }
    ensures stands { (settings : PlainSettings) (past : List PlainAsdu) → StandsFor settings past station.old →
        StandsFor settings (reverse (sets_of (sv frame.now (length frame.now))) ++ past) station.new }
    ensures counts { (settings : PlainSettings) (past : List PlainAsdu) → StandsFor settings past station.old → Counts settings past count.old →
        Counts settings (reverse (sets_of (sv frame.now (length frame.now))) ++ past) count.new }
{
    let mut sets = ArrayVec::new();
    match station.frame_into(frame, frame.len() as u32, &mut sets, steps) {
        SvKind::Pdu => count_sets(station, sets.as_slice(), burst, count, steps),
        SvKind::Bad(_) => {}
        SvKind::Other => {}
    }
}
