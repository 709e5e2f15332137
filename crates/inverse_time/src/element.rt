//! The element of one phase.
ghost use Rattle.std.specs.Prelude.{◌≡◌, ◌<◌, ◌^◌, false};

use crate::curve::{Dial, enough};
use crate::event::PhaseFacts;

/// What holds of the phase at the last taken sample, and the sum over the run of picked up samples that ends there.
#[derive(Drop)]
pub struct Element {
    facts: PhaseFacts,
    /// Nothing is added to it once the element is done.
    sum: u64,
    ghost few: { facts.done ≡ false → sum < 2 ^ 40 },
}

impl Element {
    ghost use Rattle.std.specs.Prelude.{ℕ, ◌≡◌, ◌≤◌, List, []};
    ghost use Rattle.std.specs.Option.{ForSome};
    ghost use Rattle.line_relay.specs.KeptGuards.{next_run};
    ghost use Rattle.inverse_time.specs.declared.curve.Dial.{Dial};
    ghost use Rattle.inverse_time.specs.InverseCurves.{IsDial};
    ghost use Rattle.inverse_time.specs.KeptElement.{StandsFor};

    /// An element that has added nothing.
    pub fn new() -> Element
        ensures { (dial : Dial) (rate : ℕ) → StandsFor dial rate [] result }
    {
        Element {
            facts: PhaseFacts {
                picked: false,
                done: false,
            },
            sum: 0,
        }
    }

    /// What holds of the phase.
    pub fn facts(&self) -> PhaseFacts
        ensures { result ≡ self.now.facts }
    {
        self.facts
    }

    /// Takes the next taken sample: what it adds, where the phase is picked up at it. A sample at which it isn't
    /// ends the run.
    pub fn take(&mut self, dial: Dial, rate: u32, added: Option<u64>)
        requires dial { IsDial dial }
        requires rate { rate ≤ 4800 }
        requires added { ForSome added (λ x. x ≤ 400000000) }
        ensures { (run : List ℕ) → StandsFor dial rate run self.old → StandsFor dial rate (next_run added run) self.new }
    {
        let Some(added) = added else {
            *self = Element::new();
            return;
        };
        if self.facts.done {
            return;
        }
        let sum = self.sum + added;
        let done = enough(dial, rate, sum);
        *self = Element {
            facts: PhaseFacts { picked: true, done },
            sum,
        };
    }
}
