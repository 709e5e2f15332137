//! The fuse rule over the takes since the last `clear`.

ghost use Rattle.std.specs.Prelude.{◌≡◌, ◌-◌, if◌then◌else◌};

use relay_settings::{FuseSettings, samples_of};

/// The fuse rule over the takes since the last `clear`.
///
/// A blown fuse of the voltage transformer makes negative sequence in the voltage and none in the current;
/// such a take is suspect. From the newest suspect take on the fuse counts as blown for `hold_ms`, but not
/// at a take at which the current has negative sequence, since there is a fault then.
#[derive(Drop)]
pub struct Fuse {
    /// `hold_ms` in samples.
    hold: u32,
    /// For how many takes from the newest on the suspicion lasts.
    left: u32,
}

impl Fuse {
    ghost use Rattle.std.specs.Prelude.{ℕ, ◌≡◌, ◌⊎◌, ◌∷◌, List, []};
    ghost use Rattle.relay_settings.specs.declared.types.FuseSettings.{FuseSettings};
    ghost use Rattle.relay_settings.specs.Ranges.{IsFuse};
    ghost use Rattle.supervise.specs.Fusing.{FuseTake, take_of, is_blown};
    ghost use Rattle.supervise.specs.KeptFuse.{StandsFor};

    /// A fuse with these settings that has taken nothing. `rate` is 4800 or 4000 samples a second.
    pub fn new(s: &FuseSettings, rate: u32) -> Fuse
        requires settings { IsFuse s.now }
        requires rate { (rate ≡ 4800) ⊎ (rate ≡ 4000) }
        ensures { StandsFor s.now rate [] result }
    {
        Fuse {
            hold: samples_of(rate, s.hold_ms),
            left: 0,
        }
    }

    /// Takes the next sample: `u2_high` where 3U2 is at least `u2_min`, `i2_low` where 3I2 is below `i2_max`.
    /// The answer is whether the fuse counts as blown: `i2_low`, and both were so at a take less than `hold_ms`
    /// ago, this one included. A take with high current answers false and ends nothing.
    pub fn take(&mut self, u2_high: bool, i2_low: bool) -> bool
        ensures blown { (s : FuseSettings) (rate : ℕ) (takes : List FuseTake) → StandsFor s rate takes self.old →
            result ≡ is_blown s rate (take_of u2_high i2_low ∷ takes) }
        ensures after { (s : FuseSettings) (rate : ℕ) (takes : List FuseTake) → StandsFor s rate takes self.old →
            StandsFor s rate (take_of u2_high i2_low ∷ takes) self.new }
    {
        self.left = left_after(self.left, self.hold, u2_high & i2_low);
        let is_held = self.left > 0;
        i2_low & is_held
    }

    /// Forgets all takes: the next one is the first. The settings stay.
    pub fn clear(&mut self)
        ensures { (s : FuseSettings) (rate : ℕ) (takes : List FuseTake) → StandsFor s rate takes self.old →
            StandsFor s rate [] self.new }
    {
        self.left = 0;
    }
}

/// For how many takes from one more on the suspicion lasts: `hold` of them from a suspect one.
fn left_after(left: u32, hold: u32, is_suspect: bool) -> u32
    ensures { result ≡ (if is_suspect then hold else left - 1) }
{
    if is_suspect {
        hold
    } else {
        left.saturating_sub(1)
    }
}
