//! The currents before a fault.
ghost use Rattle.std.specs.List.{All};
ghost use Rattle.fault_locate.specs.KeptCurrents.{AreCurrents};

use relay_num::{Cx, NoMemory, Steps};
use sample_ring::History;
use std::alloc::Global;
use std::sync::ledger::Ledger;

/// The phase currents at the last samples whose numbers follow one another, at most two cycles of them.
#[derive(Drop)]
pub struct Lookback {
    /// None at a sample that isn't ready.
    ring: History<Option<[Cx; 3]>>,
    ghost small: { All AreCurrents ring.items },
}

impl Lookback {
    ghost use Rattle.std.specs.Prelude.{ℕ, ◌≡◌, ◌+◌, ◌*◌, ◌<◌, if◌then◌else◌, List, [], IfOk, Option};
    ghost use Rattle.relay_num.specs.declared.Cx.{Cx};
    ghost use Rattle.fault_locate.specs.KeptCurrents.{AreCurrents};
    ghost use Rattle.fault_locate.specs.KeptLookback.{StandsFor, run_with, kept_before};

    /// One that has taken nothing, for `n` samples a cycle. `NoMemory` comes only where the allocator has no room
    /// for two cycles of currents.
    pub fn new(alloc: Global, n: u32) -> Result<Lookback, NoMemory>
        requires { 0 < n }
        ensures { IfOk result (λ lookback. StandsFor n [] lookback) }
    {
        let ring = History::new(alloc, 2 * n as usize)?;
        Ok(Lookback { ring })
    }

    /// Takes the currents at the next taken sample, where it is ready, and answers those at the sample two cycles
    /// before: None comes exactly where that one wasn't ready, or some number from it on was not taken. The sample
    /// follows where its number is the next. One step.
    pub fn take<L: Ledger>(
        &mut self,
        follows: bool,
        currents: Option<[Cx; 3]>,
        steps: &mut Steps<L>,
    ) -> Option<[Cx; 3]>
        requires { AreCurrents currents }
        // By the run before: for each that the lookback stands for.
        ensures before { (n : ℕ) (run : List (Option (List Cx))) → StandsFor n run self.old → 0 < n →
            result ≡ kept_before (2 * n) (run_with follows currents run) }
        ensures after { (n : ℕ) (run : List (Option (List Cx))) → StandsFor n run self.old → 0 < n →
            StandsFor n (run_with follows currents run) self.new }
        ensures small { AreCurrents result }
        ensures cost { steps.new ≡ steps.old + 1 }
    {
        self.begin_unless(follows);
        self.ring.push(currents, steps).flatten()
    }

    /// Begins a run anew, unless the next sample follows.
    fn begin_unless(&mut self, follows: bool)
        ensures { (n : ℕ) (run : List (Option (List Cx))) → StandsFor n run self.old →
            StandsFor n (if follows then run else []) self.new }
    {
        if !follows {
            self.ring.clear();
        }
    }
}
