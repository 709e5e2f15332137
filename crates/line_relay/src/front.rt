//! The front of a line: which sample sets are taken, which samples are good, and the phasors of a whole cycle of them.
ghost use Rattle.std.specs.Prelude.{◌≡◌, ◌^◌, true};
ghost use Rattle.std.specs.Option.{ForSome};
ghost use Rattle.relay_num.specs.Bounds.{AllBelow, is_cycle};
ghost use Rattle.cycle_phasor.specs.Sliding.{values_left};
ghost use Rattle.cycle_phasor.specs.Window.{IsSliding};
ghost use Rattle.relay_settings.specs.Ranges.{IsMimic};
ghost use Rattle.line_relay.specs.KeptSamples.{next_after};

use crate::filter::{filtered, keep};
use cycle_phasor::{Slider, take_values};
use relay_num::{Cx, NoMemory, Steps};
use relay_settings::{Common, LineSettings, Mimic};
use sample_ring::History;
use sample_stream::{Numberer, Sample, Taken, sample_of};
use std::alloc::Global;
use std::sync::ledger::Ledger;
use sv_frame::Asdu;

/// What becomes of a sample set of the line.
#[derive(Clone, Copy, PartialEq, Eq, Debug)]
pub enum Outcome {
    /// Not taken: it has another configuration revision than the line's.
    ConfRev { got: u32 },
    /// Not taken: its data set isn't 64 bytes.
    Length { got: u32 },
    /// What the numbering makes of its counter.
    Counter(Taken),
}

impl Outcome {
    ghost use Rattle.std.specs.Prelude.{◌≡◌};
    ghost use Rattle.line_relay.specs.Outcomes.{number_taken};

    /// The number that the sample gets, exactly where it is taken.
    pub fn number(self) -> Option<u64>
        ensures { result ≡ number_taken self }
    {
        match self {
            Outcome::Counter(taken) => taken.number(),
            Outcome::ConfRev { .. } | Outcome::Length { .. } => None,
        }
    }
}

/// What the front says of a sample set.
#[derive(Clone, Copy)]
pub struct Step {
    pub outcome: Outcome,
    /// The sample, exactly where the sample set is taken.
    pub sample: Option<Sample>,
    /// The phasors of IA, IB, IC, IN, UA, UB, UC and UN, exactly where the sample is ready.
    pub phasors: Option<[Cx; 8]>,
}

impl Step {
    ghost use Rattle.std.specs.Prelude.{◌≡◌};
    ghost use Rattle.line_relay.specs.Steps.{step_untaken};

    fn untaken(outcome: Outcome) -> Step
        ensures { result ≡ step_untaken outcome }
    {
        Step {
            outcome,
            sample: None,
            phasors: None,
        }
    }
}

/// The last number, and the sums over the last run of good samples.
#[derive(Drop)]
pub struct Front {
    numberer: Numberer,
    n: u32,
    conf_rev: u32,
    quality_mask: u32,
    synch_min: u8,
    mimic: Option<Mimic>,
    /// The values of the last sample, where it was good and a mimic filter needs them.
    before: Option<[i64; 8]>,
    /// The filtered values of the last good samples in a row, at most a cycle.
    ring: History<[i64; 8]>,
    /// Their sums.
    slider: Slider,
    ghost cycle: { is_cycle n ≡ true },
    ghost factors: { ForSome mimic IsMimic },
    ghost small: { AllBelow (values_left before) (2 ^ 28) },
    ghost sliding: { IsSliding n (next_after numberer.last) ring slider },
}

impl Front {
    ghost use Rattle.std.specs.Prelude.{ℕ, ◌≡◌, ◌<◌, ◌≤◌, ◌^◌, ◌+◌, IfOk, None, Some, List, [], ◌∷◌};
    ghost use Rattle.std.specs.List.{All};
    ghost use Rattle.std.specs.Option.{ForSome};
    ghost use Rattle.relay_num.specs.Numbers.{IsBelow};
    ghost use Rattle.relay_settings.specs.declared.types.Common.{Common};
    ghost use Rattle.relay_settings.specs.Settings.{PlainLine, plain_line};
    ghost use Rattle.relay_settings.specs.Ranges.{IsCommon, IsLine};
    ghost use Rattle.sv_frame.specs.Asdu.{PlainAsdu, plain_asdu};
    ghost use Rattle.line_relay.specs.Outcomes.{number_taken, taken_number};
    ghost use Rattle.line_relay.specs.Steps.{step_of};
    ghost use Rattle.line_relay.specs.Fronts.{StandsFor, last_of};

    /// A front that has taken nothing. `NoMemory` comes only where the allocator has no room for a cycle
    /// of samples; nothing is made then.
    pub fn new(alloc: Global, common: &Common, s: &LineSettings) -> Result<Front, NoMemory>
        requires common { IsCommon common.now }
        requires settings { IsLine s.now }
        ensures stands { IfOk result (λ front. StandsFor common.now (plain_line s.now) [] front) }
        ensures none { IfOk result (λ front. last_of front ≡ None) }
    {
        let ring = History::new(alloc, common.n as usize)?;
        Ok(Front {
            numberer: Numberer::new(common.rate),
            n: common.n,
            conf_rev: s.conf_rev,
            quality_mask: s.quality_mask,
            synch_min: s.synch_min,
            mimic: s.mimic,
            before: None,
            ring,
            slider: Slider::new(common.n),
        })
    }

    /// Takes the next sample set of the line, after all that came before, or says why it doesn't. The last
    /// number has to be below 2^60. The phasors are those of the last whole cycle of taken and good
    /// samples, formed anew. It takes no memory, and looks at the window at most once.
    #[inline(always)]
    pub fn take<L: Ledger>(&mut self, a: &Asdu<'_>, steps: &mut Steps<L>) -> Step
        requires { ForSome (last_of self.old) (λ last. last < 2 ^ 60) }
        ensures grows { (most : ℕ) → ForSome (last_of self.old) (λ last. last ≤ most) → ForSome (last_of self.new) (λ last. last ≤ most + 4800) }
        // By the sample sets before: for each list of them that the front stands for.
        ensures step { (common : Common) (settings : PlainLine) (asdus : List PlainAsdu) → StandsFor common settings asdus self.old →
            result ≡ step_of common settings (plain_asdu a.now) asdus }
        ensures after { (common : Common) (settings : PlainLine) (asdus : List PlainAsdu) → StandsFor common settings asdus self.old →
            StandsFor common settings (plain_asdu a.now ∷ asdus) self.new }
        ensures taken { ForSome (number_taken result.outcome) (λ number. last_of self.new ≡ Some number) }
        ensures small { ForSome result.phasors (λ phasors. All (λ p. IsBelow p (2 ^ 30 + 1)) phasors) }
        ensures cost { steps.new ≤ steps.old + 1 }
    {
        if a.conf_rev != self.conf_rev {
            return Step::untaken(Outcome::ConfRev { got: a.conf_rev });
        }
        let Some(channels) = a.channels() else {
            return Step::untaken(Outcome::Length {
                got: a.samples.len() as u32,
            });
        };
        let next = match self.numberer.last() {
            Some(last) => last + 1,
            None => 0,
        };
        let taken = self.numberer.take(a.counter);
        let Some(number) = taken.number() else {
            return Step::untaken(Outcome::Counter(taken));
        };
        let sample = sample_of(&channels, self.quality_mask, a.synch, self.synch_min);
        let values = filtered(self.mimic, self.before, number == next, &sample);
        keep(&mut self.before, self.mimic, &sample);
        take_values(
            &mut self.ring,
            &mut self.slider,
            next,
            number,
            values,
            steps,
        );
        Step {
            outcome: Outcome::Counter(taken),
            sample: Some(sample),
            phasors: self.slider.phasors(),
        }
    }

    /// The last number that was taken. `None` comes exactly where no sample was.
    pub fn last(&self) -> Option<u64>
        ensures field { result ≡ last_of self.now }
        ensures last { (common : Common) (settings : PlainLine) (asdus : List PlainAsdu) → StandsFor common settings asdus self.now →
            result ≡ taken_number common settings asdus }
    {
        self.numberer.last()
    }
}

#[cfg(test)]
mod tests {
    use super::*;
    use crate::tests::{common, settings};
    use std::test::Fail;

    // A second window, or any other memory of samples, would be a further field, and then this doesn't compile.
    #[test]
    fn fields_are_all(rt: HostRuntime) -> Result<(), Fail> {
        let front = Front::new(rt.alloc(), &common(), &settings(None))?;
        let Front {
            numberer,
            n,
            conf_rev,
            quality_mask,
            synch_min,
            mimic,
            before,
            ring,
            slider,
        } = &front;
        let _: &Numberer = numberer;
        let _: &u32 = n;
        let _: &u32 = conf_rev;
        let _: &u32 = quality_mask;
        let _: &u8 = synch_min;
        let _: &Option<Mimic> = mimic;
        let _: &Option<[i64; 8]> = before;
        let _: &History<[i64; 8]> = ring;
        let Slider { n, count, re, im } = slider;
        let _: &u32 = n;
        let _: &u32 = count;
        let _: &[i64; 8] = re;
        let _: &[i64; 8] = im;
        assert_eq!(rt; *count, 0);
        Ok(())
    }
}
