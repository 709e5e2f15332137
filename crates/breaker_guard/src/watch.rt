//! The element of one line: it takes each sample's trip and current, and tells what happens.
use crate::event::GuardWhat;
use crate::waits::Waits;

/// Where the newest trip stands.
#[derive(Clone, Copy, PartialEq, Eq, Debug)]
pub enum Stage {
    /// There was none, or nothing more comes of it.
    Idle,
    /// It stands since the number `rise`; whether the breaker has failed to open, and whether the trip is final.
    Standing {
        rise: u64,
        failed: bool,
        is_final: bool,
    },
    /// It reset at this number, and waits to be reclosed.
    Waiting {
        reset: u64,
    },
}

/// What is kept of the trips.
#[derive(Drop)]
pub struct Watch {
    waits: Waits,
    stage: Stage,
    /// The number of the newest reclosing.
    closed: Option<u64>,
}

impl Watch {
    ghost use Rattle.std.specs.Prelude.{ℕ, ◌≡◌, ◌-◌, true, nat_le, List, [], ◌∷◌};
    ghost use Rattle.sample_windows.specs.Numbered.{Rises};
    ghost use Rattle.breaker_guard.specs.declared.waits.Waits.{Waits};
    ghost use Rattle.breaker_guard.specs.declared.watch.Stage.TheVariants.{Standing, Waiting};
    ghost use Rattle.breaker_guard.specs.GuardTakes.{GuardTake, take_of, number_of, trip_now};
    ghost use Rattle.breaker_guard.specs.TripSpans.{trips_of};
    ghost use Rattle.breaker_guard.specs.Guarding.{listed, told_at, AreWaits};
    ghost use Rattle.breaker_guard.specs.KeptWatch.{StandsFor, step_of, rise_step, end_step, stand_step, wait_step, is_failing, reclaims};

    /// An element that has taken no sample.
    pub fn new(waits: Waits) -> Watch
        ensures { StandsFor waits [] result }
    {
        Watch {
            waits,
            stage: Stage::Idle,
            closed: None,
        }
    }

    /// Whether the trip stood at the last sample.
    pub fn stands(&self) -> bool
        ensures { (waits : Waits) (takes : List GuardTake) → StandsFor waits takes self.now → result ≡ trip_now takes }
    {
        matches!(self.stage, Stage::Standing { .. })
    }

    /// Takes the sample `number`: whether the trip stands at it, and whether current flows. It answers what is told
    /// there; numbers rise.
    pub fn take(&mut self, number: u64, trip: bool, flowing: bool) -> Option<GuardWhat>
        // By the samples before: for each list of them that the element stands for.
        ensures told { (waits : Waits) (takes : List GuardTake) → StandsFor waits takes self.old → AreWaits waits →
            Rises number_of (take_of number trip flowing ∷ takes) →
            listed result ≡ told_at waits number (trips_of (take_of number trip flowing ∷ takes)) }
        ensures after { (waits : Waits) (takes : List GuardTake) → StandsFor waits takes self.old → AreWaits waits →
            Rises number_of (take_of number trip flowing ∷ takes) →
            StandsFor waits (take_of number trip flowing ∷ takes) self.new }
    {
        self.step(number, trip, flowing)
    }

    /// By what is kept.
    fn step(&mut self, number: u64, trip: bool, flowing: bool) -> Option<GuardWhat>
        ensures told { result ≡ (step_of self.old.waits (take_of number trip flowing) self.old.stage self.old.closed).told }
        ensures stage { self.new.stage ≡ (step_of self.old.waits (take_of number trip flowing) self.old.stage self.old.closed).stage }
        ensures closed { self.new.closed ≡ (step_of self.old.waits (take_of number trip flowing) self.old.stage self.old.closed).closed }
        ensures same_waits { self.new.waits ≡ self.old.waits }
    {
        match self.stage {
            Stage::Standing {
                rise,
                failed,
                is_final,
            } => {
                if trip {
                    self.stand(number, flowing, rise, failed, is_final)
                } else {
                    self.end(number, failed, is_final);
                    None
                }
            }
            Stage::Waiting { reset } if !trip => self.wait(number, reset),
            _ => { if trip { self.rise(number) } else { None } }
        }
    }

    /// A trip rises.
    fn rise(&mut self, number: u64) -> Option<GuardWhat>
        ensures told { result ≡ (rise_step self.old.waits number self.old.closed).told }
        ensures stage { self.new.stage ≡ (rise_step self.old.waits number self.old.closed).stage }
        ensures closed { self.new.closed ≡ self.old.closed }
        ensures same_waits { self.new.waits ≡ self.old.waits }
    {
        let is_final = self.reclaims(number);
        self.stage = Stage::Standing {
            rise: number,
            failed: false,
            is_final,
        };
        if is_final {
            Some(GuardWhat::Final)
        } else {
            None
        }
    }

    /// Whether the reclaim time of the newest reclosing still runs.
    fn reclaims(&self, number: u64) -> bool
        ensures { result ≡ reclaims self.now.waits.reclaim number self.now.closed }
    {
        match self.closed {
            Some(closed) => number.saturating_sub(closed) <= u64::from(self.waits.reclaim),
            None => false,
        }
    }

    /// A trip that rose at the number `rise` stands on.
    fn stand(
        &mut self,
        number: u64,
        flowing: bool,
        rise: u64,
        failed: bool,
        is_final: bool,
    ) -> Option<GuardWhat>
        requires { self.old.stage ≡ Standing rise failed is_final }
        ensures told { result ≡ (stand_step (is_failing self.old.waits (take_of number true flowing) rise failed) rise failed is_final self.old.closed).told }
        ensures stage { self.new.stage ≡ (stand_step (is_failing self.old.waits (take_of number true flowing) rise failed) rise failed is_final self.old.closed).stage }
        ensures closed { self.new.closed ≡ self.old.closed }
        ensures same_waits { self.new.waits ≡ self.old.waits }
    {
        let is_late = number.saturating_sub(rise) >= u64::from(self.waits.fail);
        if failed || !flowing || !is_late {
            return None;
        }
        self.stage = Stage::Standing {
            rise,
            failed: true,
            is_final,
        };
        Some(GuardWhat::Fail)
    }

    /// A trip resets.
    fn end(&mut self, number: u64, failed: bool, is_final: bool)
        ensures stage { self.new.stage ≡ (end_step number failed is_final self.old.closed).stage }
        ensures closed { self.new.closed ≡ self.old.closed }
        ensures same_waits { self.new.waits ≡ self.old.waits }
    {
        self.stage = if failed || is_final {
            Stage::Idle
        } else {
            Stage::Waiting { reset: number }
        };
    }

    /// No trip rises, and the last, which reset at this number, waits to be reclosed.
    fn wait(&mut self, number: u64, reset: u64) -> Option<GuardWhat>
        requires { self.old.stage ≡ Waiting reset }
        ensures told { result ≡ (wait_step (nat_le self.old.waits.dead (number - reset)) number reset self.old.closed).told }
        ensures stage { self.new.stage ≡ (wait_step (nat_le self.old.waits.dead (number - reset)) number reset self.old.closed).stage }
        ensures closed { self.new.closed ≡ (wait_step (nat_le self.old.waits.dead (number - reset)) number reset self.old.closed).closed }
        ensures same_waits { self.new.waits ≡ self.old.waits }
    {
        if number.saturating_sub(reset) < u64::from(self.waits.dead) {
            return None;
        }
        self.stage = Stage::Idle;
        self.closed = Some(number);
        Some(GuardWhat::Reclose)
    }
}
