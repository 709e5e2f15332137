//! The swing rule over the takes since the last `clear`.

use crate::blinders::SwingPlace;
use relay_settings::{SwingSettings, samples_of};
use sample_windows::run_after;

/// The swing rule over the takes since the last `clear`.
///
/// A swing is declared at a take where this one and those before it, as many as `pass_ms` lasts, all lie
/// between the blinders. It blocks from then on, for `max_ms` or until the impedance is outside, whichever
/// comes first; being declared again meanwhile does not prolong it.
#[derive(Drop)]
pub struct Swing {
    /// `pass_ms` and `max_ms` in samples.
    pass: u32,
    most: u32,
    /// For how many takes the place has been between, counted up to `pass`.
    between: u32,
    /// How many takes ago a swing was first declared since the place was last outside, counted up to `most`.
    age: Option<u32>,
}

impl Swing {
    ghost use Rattle.std.specs.Prelude.{ℕ, Bool, ◌≡◌, ◌⊎◌, ◌&&◌, nat_lt, ◌∷◌, List, []};
    ghost use Rattle.relay_settings.specs.declared.types.SwingSettings.{SwingSettings};
    ghost use Rattle.relay_settings.specs.Ranges.{IsSwing};
    ghost use Rattle.relay_settings.specs.Times.{samples};
    ghost use Rattle.swing_block.specs.Swinging.{SwingTake, take_of, was_declared, first_declared, is_swing};
    ghost use Rattle.swing_block.specs.KeptSwing.{StandsFor};

    /// A swing with these settings that has taken nothing. `rate` is 4800 or 4000 samples a second.
    pub fn new(s: &SwingSettings, rate: u32) -> Swing
        requires settings { IsSwing s.now }
        requires rate { (rate ≡ 4800) ⊎ (rate ≡ 4000) }
        ensures { StandsFor s.now rate [] result }
    {
        Swing {
            pass: samples_of(rate, s.pass_ms),
            most: samples_of(rate, s.max_ms),
            between: 0,
            age: None,
        }
    }

    /// Takes the next sample: where its impedance lies, and whether the line is unbalanced there. The answer
    /// is whether the swing blocks: a swing was declared in the unbroken takes within the outer blinder that
    /// end here, first less than `max_ms` ago, and the line isn't unbalanced. An unbalanced take answers false
    /// and ends nothing.
    pub fn take(&mut self, place: SwingPlace, unbalanced: bool) -> bool
        ensures swing { (s : SwingSettings) (rate : ℕ) (takes : List SwingTake) → StandsFor s rate takes self.old →
            result ≡ is_swing s rate (take_of place unbalanced ∷ takes) }
        ensures after { (s : SwingSettings) (rate : ℕ) (takes : List SwingTake) → StandsFor s rate takes self.old →
            StandsFor s rate (take_of place unbalanced ∷ takes) self.new }
    {
        self.note(place);
        let is_blocking = self.is_blocking();
        is_blocking & !unbalanced
    }

    /// Forgets all takes: the next one is the first. The settings stay.
    pub fn clear(&mut self)
        ensures { (s : SwingSettings) (rate : ℕ) (takes : List SwingTake) → StandsFor s rate takes self.old →
            StandsFor s rate [] self.new }
    {
        self.between = 0;
        self.age = None;
    }

    /// Whether a swing was first declared less than the longest time ago.
    fn is_blocking(&self) -> bool
        ensures { (s : SwingSettings) (rate : ℕ) (takes : List SwingTake) → StandsFor s rate takes self.now →
            result ≡ (was_declared (samples rate s.pass_ms) takes
            && nat_lt (first_declared (samples rate s.pass_ms) takes) (samples rate s.max_ms)) }
    {
        match self.age {
            Some(age) => age < self.most,
            None => false,
        }
    }

    /// Takes the place of the next sample.
    fn note(&mut self, place: SwingPlace)
        ensures { (s : SwingSettings) (rate : ℕ) (takes : List SwingTake) (unbalanced : Bool) →
            StandsFor s rate takes self.old → StandsFor s rate (take_of place unbalanced ∷ takes) self.new }
    {
        self.between = run_after(self.between, self.pass, place.is_between());
        if place.is_within() {
            match self.age {
                Some(age) => self.age = Some(run_after(age, self.most, true)),
                None => {
                    if self.between == self.pass {
                        self.age = Some(0);
                    }
                }
            }
        } else {
            self.age = None;
        }
    }
}
