//! Full-cycle Fourier sums of eight channels that slide along the samples.
//!
//! A `Slider` keeps, for each channel, the two sums over the samples of the last cycle, each value
//! times the table of `relay_num` at its sample's own number. A new sample adds its term and takes
//! away the term of the one that leaves; both stand at the same place of the cycle, so one step of
//! (new - old) times the table serves. Currents are in mA and voltages in units of 10 mV; the table's
//! scale is 16384, and a phasor is the sums divided by 2^19, rounded down.
//!
//! `specs/Sliding.antt` says what a slide does, and `specs/Window.antt` that the sums are those of the
//! window that a ring holds (`IsSliding`); `take_values` takes a sample into both and keeps it so. It stands on
//! `lanes` for the sums, on `sample_ring` for the ring, and on `relay_num` for the table and the steps.
#![tactic(auto)]

ghost use Rattle.std.specs.Prelude.{◌≡◌, ◌<◌, ◌≤◌, ◌+◌, ◌^◌, ◌⊎◌, ◌↔◌, min, IsSome, IsNone, IfSome, replicate, pos, length, ℕ, ℤ, neg_ℤ};
ghost use Rattle.std.specs.Option.{option_copied};
ghost use Rattle.std.specs.Int.RustNames.{unsigned_abs};
ghost use Rattle.relay_num.specs.Waves.{cosine, sine};
ghost use Rattle.relay_num.specs.Bounds.{AllBelow, sum_bound, value_bound};
ghost use Rattle.lanes.specs.Lanes.{sums, multiples};
ghost use Rattle.cycle_phasor.specs.Sliding.{values_left, slid, floored};

use lanes::{difference8, short_multiple8, sum8};
use relay_num::{Cx, PHASOR_BITS, floor_shift, wave};

#[cfg(test)]
mod tests;
mod window;

pub use window::take_values;

/// The sums of a window of samples in eight channels: the recursive form of the full-cycle Fourier
/// filter (Phadke and Thorp, Computer Relaying for Power Systems).
#[derive(Clone, Copy, Drop)]
pub struct Slider {
    /// The samples of a cycle, 80 or 96.
    pub n: u32,
    /// The samples in the window, at most `n`.
    pub count: u32,
    /// Each channel's sum of the values times the cosine.
    pub re: [i64; 8],
    /// Each channel's sum of the values times the negative sine.
    pub im: [i64; 8],
}

fn values_or_zeros(values: Option<&[i64; 8]>) -> [i64; 8]
    ensures { result ≡ values_left (option_copied values.entry) }
{
    match values {
        Some(values) => *values,
        None => [0; 8],
    }
}

#[inline(always)]
fn moved(totals: &[i64; 8], step: &[i64; 8], weight: i64) -> [i64; 8]
    requires step { AllBelow step.now (2 ^ 29) }
    requires weight { unsigned_abs weight ≤ 16384 }
    requires totals { AllBelow (sums totals.now (multiples step.now weight)) sum_bound }
    ensures { result ≡ sums totals.now (multiples step.now weight) }
{
    sum8(totals, &short_multiple8(step, weight))
}

/// The cosine and the sine at a place of the cycle. With the cycle's length written out it is asked once, and not at
/// each step of `wave`.
fn weights(n: u32, place: u32) -> (i64, i64)
    requires n { (n ≡ 80) ⊎ (n ≡ 96) }
    requires place { place < n }
    ensures cosine { result.0 ≡ cosine n place }
    ensures sine { result.1 ≡ sine n place }
    ensures size { (unsigned_abs result.0 ≤ 16384) × (unsigned_abs result.1 ≤ 16384) }
{
    if n == 96 {
        wave(96, place)
    } else {
        wave(80, place)
    }
}

impl Slider {
    /// An empty window for `n` samples a cycle, 80 or 96.
    pub fn new(n: u32) -> Slider
        requires { (n ≡ 80) ⊎ (n ≡ 96) }
        ensures n { result.n ≡ n }
        ensures count { result.count ≡ 0 }
        ensures re { result.re ≡ replicate 8 (pos 0) }
        ensures im { result.im ≡ replicate 8 (pos 0) }
    {
        Slider {
            n,
            count: 0,
            re: [0; 8],
            im: [0; 8],
        }
    }

    /// Takes the values `new` into the window, and `old`, those of the sample that was a cycle before,
    /// out of it. `old` is there exactly where the window is full. `place` is the new sample's number
    /// modulo `n`. All values are below 2^28 in size, and the new sums stay below 2^49.
    pub fn slide(&mut self, place: u32, new: &[i64; 8], old: Option<&[i64; 8]>)
        requires n { (self.old.n ≡ 80) ⊎ (self.old.n ≡ 96) }
        requires count { self.old.count ≤ self.old.n }
        requires place { place < self.old.n }
        requires full { IsSome old ↔ (self.old.count ≡ self.old.n) }
        requires new { AllBelow new.now value_bound }
        requires left { AllBelow (values_left (option_copied old)) value_bound }
        requires re { AllBelow (slid self.old.re (cosine self.old.n place) new.now (values_left (option_copied old))) sum_bound }
        requires im { AllBelow (slid self.old.im (neg_ℤ (sine self.old.n place)) new.now (values_left (option_copied old))) sum_bound }
        ensures n { self.new.n ≡ self.old.n }
        ensures count { self.new.count ≡ min (self.old.count + 1) self.old.n }
        ensures re { self.new.re ≡ slid self.old.re (cosine self.old.n place) new.now (values_left (option_copied old.entry)) }
        ensures im { self.new.im ≡ slid self.old.im (neg_ℤ (sine self.old.n place)) new.now (values_left (option_copied old.entry)) }
    {
        let step = difference8(new, &values_or_zeros(old));
        let (cosine, sine) = weights(self.n, place);
        self.re = moved(&self.re, &step, cosine);
        self.im = moved(&self.im, &step, -sine);
        if self.count < self.n {
            self.count += 1;
        }
    }

    /// The phasor of each channel. None comes exactly while the window is not full.
    pub fn phasors(&self) -> Option<[Cx; 8]>
        ensures none { IsNone result ↔ (self.now.count < self.now.n) }
        ensures some { IfSome result (λ phasors. phasors ≡ floored self.now.re self.now.im) }
        ensures lanes_re { length self.now.re ≡ 8 }
        ensures lanes_im { length self.now.im ≡ 8 }
    {
        if self.count < self.n {
            return None;
        }
        let mut phasors = [Cx { re: 0, im: 0 }; 8];
        for k in 0..8 {
            phasors[k] = Cx {
                re: floor_shift(self.re[k], PHASOR_BITS),
                im: floor_shift(self.im[k], PHASOR_BITS),
            };
        }
        Some(phasors)
    }

    /// Empties the window: the count and all sums are 0, and `n` stays.
    pub fn clear(&mut self)
        ensures n { self.new.n ≡ self.old.n }
        ensures count { self.new.count ≡ 0 }
        ensures re { self.new.re ≡ replicate 8 (pos 0) }
        ensures im { self.new.im ≡ replicate 8 (pos 0) }
    {
        self.count = 0;
        self.re = [0; 8];
        self.im = [0; 8];
    }
}
