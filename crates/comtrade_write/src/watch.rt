//! The watch on one line for its trips.
ghost use Rattle.std.specs.Prelude.{◌≡◌, ◌≤◌, ◌<◌, ◌+◌, ◌^◌};
ghost use Rattle.std.specs.Option.{ForSome};
ghost use Rattle.comtrade_write.specs.Kept.{trip_after, trip_by};

use crate::covered::Recorded;
use crate::window::Window;
use event_record::{Event, What};
use line_relay::{Burst, Front, Line};
use relay_num::{NoMemory, Steps};
use relay_settings::{Common, LineSettings};
use std::alloc::Global;
use std::sync::ledger::Ledger;
use sv_frame::Asdu;

/// One line, its samples, and those of them that the record covers.
#[derive(Drop)]
pub(crate) struct Watch {
    /// Tells when a trip begins and ends.
    line: Line,
    /// Gives the samples.
    front: Front,
    /// What the line tells of the last sample set, filled anew at each.
    burst: Burst,
    window: Window,
}

impl Watch {
    ghost use Rattle.std.specs.Prelude.{ℕ, ◌≡◌, ◌≤◌, ◌<◌, ◌+◌, ◌^◌, IfOk, None, List, [], ◌∷◌, length, if◌then◌else◌};
    ghost use Rattle.std.specs.Option.{ForSome};
    ghost use Rattle.relay_settings.specs.declared.types.Common.{Common};
    ghost use Rattle.relay_settings.specs.Settings.{PlainLine, plain_line};
    ghost use Rattle.relay_settings.specs.Ranges.{IsCommon, IsLine};
    ghost use Rattle.sv_frame.specs.Asdu.{PlainAsdu, plain_asdu};
    ghost use Rattle.line_relay.specs.KeptLine.{last_of, name_of};
    ghost use Rattle.line_bank.specs.Owners.{owns};
    ghost use Rattle.comtrade_write.specs.KeptWatch.{StandsFor, front_last, trips_by};

    /// A watch that has heard nothing. `NoMemory` comes only where the allocator has no room for what the line
    /// keeps, or for the samples of a record.
    pub fn new(alloc: Global, common: &Common, s: &LineSettings, k: u32) -> Result<Watch, NoMemory>
        requires common { IsCommon common.now }
        requires settings { IsLine s.now }
        requires k { 1 ≤ k }
        ensures stands { IfOk result (λ watch. StandsFor common.now (plain_line s.now) k [] watch) }
        ensures no_line { IfOk result (λ watch. last_of watch.line ≡ None) }
        ensures no_front { IfOk result (λ watch. front_last watch ≡ None) }
        ensures no_trip { IfOk result (λ watch. trips_by watch ≡ 0) }
    {
        let line = Line::new(alloc, common, s)?;
        let front = Front::new(alloc, common, s)?;
        let window = Window::new(alloc, common.n, k)?;
        Ok(Watch {
            line,
            front,
            burst: Burst::new(),
            window,
        })
    }

    /// Hears the next sample set of any line, and takes it where it is the line's own, which its svID says. The last
    /// number has to be below 2^60.
    pub fn hear<L: Ledger>(&mut self, a: &Asdu<'_>, steps: &mut Steps<L>)
        requires line { ForSome (last_of self.old.line) (λ last. last < 2 ^ 60) }
        requires front { ForSome (front_last self.old) (λ last. last < 2 ^ 60) }
        requires trips { trips_by self.old < 2 ^ 60 }
        // By the line's own sample sets before: for each list of them that the watch stands for.
        ensures after { (common : Common) (settings : PlainLine) (k : ℕ) (asdus : List PlainAsdu) → StandsFor common settings k asdus self.old →
            StandsFor common settings k (if owns settings (plain_asdu a.now) then plain_asdu a.now ∷ asdus else asdus) self.new }
        ensures line { (most : ℕ) → ForSome (last_of self.old.line) (λ last. last ≤ most) → ForSome (last_of self.new.line) (λ last. last ≤ most + 4800) }
        ensures front { (most : ℕ) → ForSome (front_last self.old) (λ last. last ≤ most) → ForSome (front_last self.new) (λ last. last ≤ most + 4800) }
        ensures trips { trips_by self.new ≤ trips_by self.old + 1 }
        ensures cost { steps.new ≤ steps.old + 35 }
    {
        if !self.line.owns(a) {
            return;
        }
        self.take(a, steps);
    }

    /// Takes the next sample set of the line. The last number has to be below 2^60.
    fn take<L: Ledger>(&mut self, a: &Asdu<'_>, steps: &mut Steps<L>)
        requires line { ForSome (last_of self.old.line) (λ last. last < 2 ^ 60) }
        requires front { ForSome (front_last self.old) (λ last. last < 2 ^ 60) }
        requires trips { trips_by self.old < 2 ^ 60 }
        // By the sample sets before: for each list of them that the watch stands for.
        ensures after { (common : Common) (settings : PlainLine) (k : ℕ) (asdus : List PlainAsdu) → StandsFor common settings k asdus self.old →
            StandsFor common settings k (plain_asdu a.now ∷ asdus) self.new }
        ensures line { (most : ℕ) → ForSome (last_of self.old.line) (λ last. last ≤ most) → ForSome (last_of self.new.line) (λ last. last ≤ most + 4800) }
        ensures front { (most : ℕ) → ForSome (front_last self.old) (λ last. last ≤ most) → ForSome (front_last self.new) (λ last. last ≤ most + 4800) }
        ensures trips { trips_by self.new ≤ trips_by self.old + 1 }
        ensures cost { steps.new ≤ steps.old + 35 }
    {
        self.line.take_into(a, &mut self.burst, steps);
        let trip = trip_after(self.window.stands(), self.burst.events.as_slice());
        let step = self.front.take(a, steps);
        let Some(number) = step.outcome.number() else {
            return;
        };
        let Some(sample) = step.sample else {
            return;
        };
        self.window.take(Recorded {
            number,
            sample,
            trip,
        });
    }

    /// The line's name.
    pub fn name(&self) -> &[u8]
        ensures name { result.now ≡ name_of self.now.line }
        ensures short { length result.now ≤ 16 }
    {
        self.line.name()
    }

    /// The samples that the record covers.
    pub fn window(&self) -> &Window
        ensures { result.now ≡ self.now.window }
    {
        &self.window
    }
}

/// Whether the trip stands after these events, by whether it did before them.
fn trip_after(before: bool, events: &[Event]) -> bool
    ensures { result ≡ trip_after before events.now }
{
    events
        .iter()
        .fold(before, |stands, event| trip_by(stands, event))
}

/// Whether the trip stands after an event.
fn trip_by(stands: bool, event: &Event) -> bool
    ensures { result ≡ trip_by stands event.now }
{
    match *event {
        Event::Line {
            what: What::Trip,
            ..
        } => true,
        Event::Line {
            what: What::Reset,
            ..
        } => false,
        _ => stands,
    }
}
