//! The trip of a line: what raises it, how it seals in, and what ends it.
//!
//! An operation of a zone that trips raises the trip, and the trip then stands by itself. It ends at the first
//! sample at which no zone operates any more, its least time since the last operation is over, and the line
//! has been dead, with three currents below a threshold, for long enough. Times are in samples.
//! `specs/Seal.antt` says it over the whole past; here stand the number of the last operation, a bit and a
//! count. A gap in the numbers ends no trip. It stands on `sample_windows` for the windows over sample numbers
//! and the count of a run, and takes no memory.
//!
//! The laws over numbers, `specs/NumberedTrip.antt`, are `show_trips_by_number`; proofs cite `NumberedTripLemmas`:
//! `is_on_numbered` and `state_numbered` where of no samples no zone operates and the line isn't dead, and
//! `follows_numbered` where numbers rise and the line is dead at no sample that follows a gap.
#![tactic(auto)]

mod laws;
#[cfg(test)]
mod tests;

pub use laws::show_trips_by_number;
use sample_windows::run_after;

/// The trip after a take, and whether it has changed since the take before; before the first it is off.
#[derive(Clone, Copy, PartialEq, Eq, Debug)]
pub struct TripState {
    pub on: bool,
    pub rose: bool,
    pub fell: bool,
}

/// The seal-in of a trip.
#[derive(Drop)]
pub struct Trip {
    /// For how many samples a trip stands at least after its last operation.
    min: u32,
    /// For how many samples the line is dead before a trip ends.
    open_run: u32,
    /// The number of the last operation.
    last: Option<u64>,
    /// Whether the trip of the last operation has ended.
    ended: bool,
    /// For how many samples in a row the line has been dead, up to `open_run`.
    dead_run: u32,
}

impl Trip {
    ghost use Rattle.std.specs.Prelude.{ℕ, ◌≡◌, List, [], ◌∷◌};
    ghost use Rattle.trip_logic.specs.Takes.{TripTake, take_of, Follows, is_on, state_of};
    ghost use Rattle.trip_logic.specs.KeptTrip.{StandsFor};

    /// A trip that is off and has taken nothing. It stands for at least `min` samples after its last operation,
    /// and ends once the line has been dead for `open_run` samples, which is above 0 in every setting.
    pub fn new(min: u32, open_run: u32) -> Trip
        ensures { StandsFor min open_run [] result }
    {
        Trip {
            min,
            open_run,
            last: None,
            ended: false,
            dead_run: 0,
        }
    }

    /// Takes the sample `number`: whether a zone that trips operates at it, and whether the line is dead at it,
    /// which is that the sample is ready and its three currents are below the threshold. The run of dead samples
    /// is counted here.
    ///
    /// The answer is that of the rule in `specs/Seal.antt` wherever the numbers rise, and no take is dead whose
    /// number isn't one above that of the take before it: after a gap no sample is ready.
    pub fn take(&mut self, number: u64, operated: bool, dead: bool) -> TripState
        ensures state { (min open_run : ℕ) (takes : List TripTake) → StandsFor min open_run takes self.old →
            Follows (take_of number operated dead) takes →
            result ≡ state_of min open_run (take_of number operated dead ∷ takes) }
        ensures after { (min open_run : ℕ) (takes : List TripTake) → StandsFor min open_run takes self.old →
            Follows (take_of number operated dead) takes →
            StandsFor min open_run (take_of number operated dead ∷ takes) self.new }
    {
        let before = self.is_on();
        self.note(number, operated, dead);
        let on = self.is_on();
        TripState {
            on,
            rose: on && !before,
            fell: before && !on,
        }
    }

    fn is_on(&self) -> bool
        ensures { (min open_run : ℕ) (takes : List TripTake) → StandsFor min open_run takes self.now →
            result ≡ is_on min open_run takes }
    {
        self.last.is_some() && !self.ended
    }

    /// An operation begins the least time anew, and its own sample ends no trip. What ends the trip of the last
    /// operation ends those of all earlier ones, so no other number is kept.
    fn note(&mut self, number: u64, operated: bool, dead: bool)
        ensures { (min open_run : ℕ) (takes : List TripTake) → StandsFor min open_run takes self.old →
            Follows (take_of number operated dead) takes →
            StandsFor min open_run (take_of number operated dead ∷ takes) self.new }
    {
        self.dead_run = run_after(self.dead_run, self.open_run, dead);
        if operated {
            self.last = Some(number);
            self.ended = false;
        } else if let Some(last) = self.last {
            let is_due = number.saturating_sub(last) >= u64::from(self.min);
            let is_open = self.dead_run == self.open_run;
            self.ended |= is_due & is_open;
        }
    }
}
