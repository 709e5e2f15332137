//! The polarising voltage, which is remembered through a fault that takes the voltage away.
//!
//! At a fault close to the relay nothing is left to polarise from. So where the voltage in positive sequence is
//! low, that of a whole cycle before it became low polarises, which keeps its phase, for a limited time. A take
//! is one sample; its voltage is a phasor in counts of 10 mV. `specs/Polarising.antt` says it over the whole
//! list of takes, `specs/NumberedPolarising.antt` over sample numbers that may have gaps, for a memory that takes
//! each ready sample and is cleared at any other. It stands on `sample_ring` for the voltages of the last cycle, on `sample_windows` for the
//! count of a run, and on `relay_num` for complex numbers and counted steps.
//!
//! The law over numbers is `show_polarises_by_number`; proofs cite `NumberedLemmas.polarising_numbered`. Its
//! premises: none is ready of no samples, and the numbers rise.
#![tactic(auto)]

ghost use Rattle.std.specs.Prelude.{◌≡◌};

mod laws;
#[cfg(test)]
mod tests;

pub use laws::show_polarises_by_number;
use relay_num::{Cx, NoMemory, Steps};
use sample_ring::History;
use sample_windows::run_after;
use std::alloc::Global;
use std::sync::ledger::Ledger;

/// The voltages of the last cycle, and the one that polarises.
#[derive(Drop)]
pub struct MemoryVolt {
    /// The voltage of each of the newest takes, a cycle of them and one more; None for a low one.
    voltages: History<Option<Cx>>,
    /// For how many low takes in a row a remembered voltage polarises.
    hold: u32,
    /// How many takes in a row have been low, up to `hold`.
    run: u32,
    /// What polarised at the newest take: through a run of low takes one voltage stays frozen here.
    frozen: Option<Cx>,
}

impl MemoryVolt {
    ghost use Rattle.std.specs.Prelude.{ℕ, ◌≡◌, ◌≢◌, ◌+◌, List, [], ◌∷◌, None, IfOk};
    ghost use Rattle.std.specs.Option.{ForSome};
    ghost use Rattle.relay_num.specs.Numbers.{IsBelow};
    ghost use Rattle.memory_volt.specs.Polarising.{VoltTake, take_of, polarising};
    ghost use Rattle.memory_volt.specs.KeptMemory.{StandsFor, HoldsBelow};

    /// A memory that has taken nothing, for `n` samples a cycle (80 or 96). A remembered voltage polarises for
    /// `hold` samples. `NoMemory` comes where the allocator has no room for a cycle of voltages.
    pub fn new(alloc: Global, n: u32, hold: u32) -> Result<MemoryVolt, NoMemory>
        ensures stands { IfOk result (λ memory. StandsFor n hold [] memory) }
        ensures small { (bound : ℕ) → IfOk result (λ memory. HoldsBelow bound memory) }
    {
        let voltages = History::new(alloc, n as usize + 1)?;
        Ok(MemoryVolt {
            voltages,
            hold,
            run: 0,
            frozen: None,
        })
    }

    /// Takes a sample's voltage in positive sequence, and whether it is low, and answers the voltage that
    /// polarises at it, over the takes since the last `clear`: `plus` where it isn't low. Where it is, let m be
    /// the number of takes in a row that are low up to this one; then it is the voltage of `n + m` takes before,
    /// a whole cycle before the last take that wasn't low. None comes exactly where m is above `hold`, there is
    /// no take so far back, or that one was low as well. The answer is no greater than what was taken. One step.
    pub fn take<L: Ledger>(&mut self, plus: Cx, low: bool, steps: &mut Steps<L>) -> Option<Cx>
        ensures voltage { (n hold : ℕ) (takes : List VoltTake) → StandsFor n hold takes self.old →
            result ≡ polarising n hold (take_of plus low ∷ takes) }
        ensures after { (n hold : ℕ) (takes : List VoltTake) → StandsFor n hold takes self.old →
            StandsFor n hold (take_of plus low ∷ takes) self.new }
        ensures small { (bound : ℕ) → HoldsBelow bound self.old → IsBelow plus bound →
            ForSome result (λ v. IsBelow v bound) × HoldsBelow bound self.new }
        ensures cost { steps.new ≡ steps.old + 1 }
    {
        self.note(plus, low, steps);
        self.frozen
    }

    /// Forgets all takes. The settings stay.
    pub fn clear(&mut self)
        ensures after { (n hold : ℕ) (takes : List VoltTake) → StandsFor n hold takes self.old →
            StandsFor n hold [] self.new }
        ensures small { (bound : ℕ) → HoldsBelow bound self.new }
    {
        self.voltages.clear();
        self.run = 0;
        self.frozen = None;
    }

    /// A voltage that leaves the last cycle and one more is a whole cycle older than the one before this take.
    fn note<L: Ledger>(&mut self, plus: Cx, low: bool, steps: &mut Steps<L>)
        ensures after { (n hold : ℕ) (takes : List VoltTake) → StandsFor n hold takes self.old →
            StandsFor n hold (take_of plus low ∷ takes) self.new }
        ensures small { (bound : ℕ) → HoldsBelow bound self.old → IsBelow plus bound → HoldsBelow bound self.new }
        ensures cost { steps.new ≡ steps.old + 1 }
    {
        let voltage = (!low).then_some(plus);
        let cycle_before = self.voltages.push(voltage, steps).flatten();
        self.frozen = if low {
            self.remembered(cycle_before)
        } else {
            voltage
        };
        self.run = run_after(self.run, self.hold, low);
    }

    /// What polarises at one more low take: the voltage of a cycle before at the first of a run, then the same
    /// voltage, and none once it has been held for long enough.
    fn remembered(&self, cycle_before: Option<Cx>) -> Option<Cx>
        ensures over { self.now.run ≡ self.now.hold → result ≡ None }
        ensures fresh { self.now.run ≢ self.now.hold → self.now.run ≡ 0 → result ≡ cycle_before }
        ensures kept { self.now.run ≢ self.now.hold → self.now.run ≢ 0 → result ≡ self.now.frozen }
    {
        if self.run == self.hold {
            None
        } else if self.run == 0 {
            cycle_before
        } else {
            self.frozen
        }
    }
}
