//! What a line tells of a sample set.
ghost use Rattle.std.specs.Prelude.{ℕ, ◌≡◌, ◌≤◌, ◌<◌, ◌+◌, ◌++◌, [], ◌∷◌, IsTrue, ◌↔◌, false};
ghost use Rattle.std.specs.Option.{option_map};
ghost use Rattle.arrayvec.specs.ArrayVec.{array_vec_len};
ghost use Rattle.event_record.specs.Time.{time_of};
ghost use Rattle.line_relay.specs.Events.{arrival, edge, begins, told, loop_edges, zone_edges};
ghost use Rattle.line_relay.specs.Shown.{trip_edge, shown_changes};
ghost use Rattle.loop_impedance.specs.Masks.{has_bit};

use crate::front::Outcome;
use crate::loops::has_bit;
use crate::shown::Shown;
use arrayvec::ArrayVec;
use event_record::{At, Event, What, at_of};
use relay_settings::Common;
use sample_stream::Taken;
use trip_logic::TripState;

/// A fact of a loop in a zone.
#[derive(Clone, Copy)]
pub enum LoopFact {
    /// The loop is inside the zone: told as it goes in and as it goes out.
    Inside,
    /// The zone operates in the loop: told as that begins.
    Operates,
}

/// The moment of the last taken sample.
fn moment(common: &Common, last: Option<u64>) -> Option<At>
    requires { 1 < common.now.rate }
    ensures { result ≡ option_map (time_of common.now) last }
{
    match last {
        Some(number) => Some(at_of(common, number)),
        None => None,
    }
}

/// Tells this of the last taken sample. A time is formed only where something is told.
fn tell(events: &mut ArrayVec<Event, 96>, common: &Common, last: Option<u64>, what: What)
    requires rate { 1 < common.now.rate }
    requires room { array_vec_len events.old < 96 }
    ensures events { events.new.items ≡ events.old.items ++ told (option_map (time_of common.now) last) (what ∷ []) }
    ensures few { array_vec_len events.new ≤ array_vec_len events.old + 1 }
{
    let at = moment(common, last);
    events.push(Event::Line { at, what });
}

/// Tells how a sample set with this counter came.
pub fn push_arrival(
    events: &mut ArrayVec<Event, 96>,
    common: &Common,
    last: Option<u64>,
    counter: u16,
    outcome: Outcome,
)
    requires rate { 1 < common.now.rate }
    requires room { array_vec_len events.old < 96 }
    ensures events { events.new.items ≡ events.old.items ++ told (option_map (time_of common.now) last) (arrival counter outcome) }
    ensures few { array_vec_len events.new ≤ array_vec_len events.old + 1 }
{
    let what = match outcome {
        Outcome::ConfRev { got } => What::ConfRev { got },
        Outcome::Length { got } => What::Length { got },
        Outcome::Counter(Taken::First { .. }) => What::First,
        Outcome::Counter(Taken::Next { .. }) => return,
        Outcome::Counter(Taken::Jump { missing, .. }) => What::Jump { missing },
        Outcome::Counter(Taken::Repeat) => What::Repeat { counter },
        Outcome::Counter(Taken::Late { behind }) => What::Late { counter, behind },
        Outcome::Counter(Taken::Wild) => What::Wild { counter },
    };
    tell(events, common, last, what);
}

/// Tells each fact that isn't as it was told last, keeps what is told now, and answers whether a fact has changed. Mostly
/// none has, and nothing is written.
#[inline(always)]
pub fn note_changes(
    events: &mut ArrayVec<Event, 96>,
    common: &Common,
    last: Option<u64>,
    shown: &mut Shown,
    now: &Shown,
    trip: &TripState,
) -> bool
    requires rate { 1 < common.now.rate }
    requires room { array_vec_len events.old + 64 ≤ 96 }
    ensures events { events.new.items ≡ events.old.items ++ told (option_map (time_of common.now) last) (shown_changes shown.old now.now trip.now) }
    ensures shown { shown.new ≡ now.now }
    ensures changed { (result ≡ false) ↔ ((trip.now.rose ≡ false) × (trip.now.fell ≡ false) × (shown.old ≡ now.now)) }
{
    if is_as_before(shown, now, trip) {
        return false;
    }
    push_changes(events, common, last, shown, now, trip);
    *shown = *now;
    true
}

/// Tells each fact that isn't as it was.
fn push_changes(
    events: &mut ArrayVec<Event, 96>,
    common: &Common,
    last: Option<u64>,
    before: &Shown,
    now: &Shown,
    trip: &TripState,
)
    requires rate { 1 < common.now.rate }
    requires room { array_vec_len events.old + 64 ≤ 96 }
    ensures { events.new.items ≡ events.old.items ++ told (option_map (time_of common.now) last) (shown_changes before.now now.now trip.now) }
{
    push_edge(
        events,
        common,
        last,
        What::Ready,
        What::Lost,
        before.ready,
        now.ready,
    );
    push_edge(
        events,
        common,
        last,
        What::SwingOn,
        What::SwingOff,
        before.swing,
        now.swing,
    );
    push_edge(
        events,
        common,
        last,
        What::FuseOn,
        What::FuseOff,
        before.fuse,
        now.fuse,
    );
    push_zone_edges(
        events,
        common,
        last,
        LoopFact::Inside,
        &before.inside,
        &now.inside,
    );
    push_zone_edges(
        events,
        common,
        last,
        LoopFact::Operates,
        &before.operate,
        &now.operate,
    );
    push_trip(events, common, last, trip);
}

/// Whether no fact has changed.
fn is_as_before(before: &Shown, now: &Shown, trip: &TripState) -> bool
    ensures { IsTrue result ↔ ((trip.now.rose ≡ false) × (trip.now.fell ≡ false) × (before.now ≡ now.now)) }
{
    !trip.rose && !trip.fell && *before == *now
}

/// Tells that the trip begins or ends.
fn push_trip(events: &mut ArrayVec<Event, 96>, common: &Common, last: Option<u64>, trip: &TripState)
    requires rate { 1 < common.now.rate }
    requires room { array_vec_len events.old < 96 }
    ensures { events.new.items ≡ events.old.items ++ told (option_map (time_of common.now) last) (trip_edge trip.now) }
{
    if trip.rose {
        tell(events, common, last, What::Trip);
    } else if trip.fell {
        tell(events, common, last, What::Reset);
    }
}

/// Tells in which loops of which zones the fact isn't as it was.
fn push_zone_edges(
    events: &mut ArrayVec<Event, 96>,
    common: &Common,
    last: Option<u64>,
    fact: LoopFact,
    before: &[u8; 5],
    now: &[u8; 5],
)
    requires rate { 1 < common.now.rate }
    requires room { array_vec_len events.old + 30 ≤ 96 }
    ensures events { events.new.items ≡ events.old.items ++ told (option_map (time_of common.now) last) (zone_edges fact before.now now.now) }
    ensures few { array_vec_len events.new ≤ array_vec_len events.old + 30 }
{
    for place in 0..5 {
        let (was, is) = (before[place], now[place]);
        if was != is {
            push_loop_edges(events, common, last, fact, place as u8 + 1, was, is);
        }
    }
}

/// Tells in which loops of a zone the fact isn't as it was.
fn push_loop_edges(
    events: &mut ArrayVec<Event, 96>,
    common: &Common,
    last: Option<u64>,
    fact: LoopFact,
    zone: u8,
    before: u8,
    now: u8,
)
    requires rate { 1 < common.now.rate }
    requires room { array_vec_len events.old + 6 ≤ 96 }
    ensures events { events.new.items ≡ events.old.items ++ told (option_map (time_of common.now) last) (loop_edges fact zone before now) }
    ensures few { array_vec_len events.new ≤ array_vec_len events.old + 6 }
{
    for place in 0..6 {
        let (was, is) = (has_bit(before, place), has_bit(now, place));
        let lp = place as u8;
        match fact {
            LoopFact::Inside => {
                let entered = What::Entered { zone, lp };
                let left = What::Left { zone, lp };
                push_edge(events, common, last, entered, left, was, is);
            }
            LoopFact::Operates => {
                push_beginning(events, common, last, What::Operate { zone, lp }, was, is);
            }
        }
    }
}

/// Tells a fact that begins.
fn push_beginning(
    events: &mut ArrayVec<Event, 96>,
    common: &Common,
    last: Option<u64>,
    on: What,
    before: bool,
    now: bool,
)
    requires rate { 1 < common.now.rate }
    requires room { array_vec_len events.old < 96 }
    ensures events { events.new.items ≡ events.old.items ++ told (option_map (time_of common.now) last) (begins on before now) }
    ensures few { array_vec_len events.new ≤ array_vec_len events.old + 1 }
{
    if now && !before {
        tell(events, common, last, on);
    }
}

/// Tells a fact that begins or ends.
fn push_edge(
    events: &mut ArrayVec<Event, 96>,
    common: &Common,
    last: Option<u64>,
    on: What,
    off: What,
    before: bool,
    now: bool,
)
    requires rate { 1 < common.now.rate }
    requires room { array_vec_len events.old < 96 }
    ensures events { events.new.items ≡ events.old.items ++ told (option_map (time_of common.now) last) (edge on off before now) }
    ensures few { array_vec_len events.new ≤ array_vec_len events.old + 1 }
{
    if now && !before {
        tell(events, common, last, on);
    } else if before && !now {
        tell(events, common, last, off);
    }
}
