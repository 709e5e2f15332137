//! What guards the zones: the polarising voltage with its memory, power swing, and fuse failure.
//!
//! Each takes the ready samples of an unbroken run, and is cleared at any other sample, here alone.
ghost use Rattle.std.specs.Prelude.{ℕ, ◌≡◌, ◌≤◌, ◌+◌, ◌⊎◌, ◌^◌, List, []};
ghost use Rattle.std.specs.Option.{ForSome, option_map};
ghost use Rattle.memory_volt.specs.Polarising.{VoltTake, take_of, polarising};
ghost use Rattle.memory_volt.specs.KeptMemory.{StandsFor as MemoryStandsFor, HoldsBelow};
ghost use Rattle.relay_num.specs.Numbers.{IsBelow};
ghost use Rattle.relay_settings.specs.Ranges.{IsLine, IsSwing, IsFuse};
ghost use Rattle.relay_settings.specs.declared.types.SwingSettings.{SwingSettings};
ghost use Rattle.relay_settings.specs.declared.types.FuseSettings.{FuseSettings};
ghost use Rattle.swing_block.specs.Swinging.{SwingTake, is_swing};
ghost use Rattle.swing_block.specs.KeptSwing.{StandsFor as StandsForSwing};
ghost use Rattle.supervise.specs.Fusing.{FuseTake, is_blown};
ghost use Rattle.supervise.specs.KeptFuse.{StandsFor as StandsForFuse};
ghost use Rattle.std.specs.List.{All};
ghost use Rattle.line_relay.specs.Measured.{measured};
ghost use Rattle.line_relay.specs.KeptGuards.{next_run, volt_take, swing_take, fuse_take, SwingStandsFor, FuseStandsFor, swings_by, blows_by};

use crate::measured::measure;
use memory_volt::MemoryVolt;
use relay_num::{Cx, Steps, at_least_rms};
use relay_settings::{FuseSettings, LineSettings, SwingSettings};
use std::sync::ledger::Ledger;
use supervise::Fuse;
use swing_block::{Swing, swing_place, unbalanced};

/// The power swing of a line that has a table for it.
pub fn new_swing(s: &LineSettings, rate: u32) -> Option<Swing>
    requires settings { IsLine s.now }
    requires rate { (rate ≡ 4800) ⊎ (rate ≡ 4000) }
    ensures { SwingStandsFor rate (λ s. []) s.now.swing result }
{
    match &s.swing {
        Some(swing) => Some(Swing::new(swing, rate)),
        None => None,
    }
}

/// The fuse rule of a line that has a table for it.
pub fn new_fuse(s: &LineSettings, rate: u32) -> Option<Fuse>
    requires settings { IsLine s.now }
    requires rate { (rate ≡ 4800) ⊎ (rate ≡ 4000) }
    ensures { FuseStandsFor rate (λ s. []) s.now.fuse result }
{
    match &s.fuse {
        Some(fuse) => Some(Fuse::new(fuse, rate)),
        None => None,
    }
}

/// The voltage that polarises at a sample: 3U1, or the remembered one where that is below `mem_u`. None
/// where the sample isn't ready.
pub fn polarise<L: Ledger>(
    memory: &mut MemoryVolt,
    n: u32,
    mem_u: u32,
    phasors: &Option<[Cx; 8]>,
    steps: &mut Steps<L>,
) -> Option<Cx>
    requires n { (n ≡ 80) ⊎ (n ≡ 96) }
    requires mem_u { mem_u ≤ 100000000 }
    requires phasors { ForSome phasors.now (All (λ p. IsBelow p (2 ^ 30 + 1))) }
    ensures voltage { (m hold : ℕ) (takes : List VoltTake) → MemoryStandsFor m hold takes memory.old →
        result ≡ polarising m hold (next_run (option_map (volt_take n mem_u) (option_map measured phasors.now)) takes) }
    ensures after { (m hold : ℕ) (takes : List VoltTake) → MemoryStandsFor m hold takes memory.old →
        MemoryStandsFor m hold (next_run (option_map (volt_take n mem_u) (option_map measured phasors.now)) takes) memory.new }
    ensures small { HoldsBelow (2 ^ 32) memory.old → ForSome result (λ p. IsBelow p (2 ^ 32)) × HoldsBelow (2 ^ 32) memory.new }
    ensures cost { steps.new ≤ steps.old + 1 }
{
    match phasors {
        Some(phasors) => {
            let m = measure(phasors);
            let is_low = !at_least_rms(m.voltage.plus, n, mem_u);
            memory.take(m.voltage.plus, is_low, steps)
        }
        None => {
            memory.clear();
            None
        }
    }
}

/// Whether a power swing blocks at a sample: never where the line has no table for it.
pub fn take_swing(
    swing: &mut Option<Swing>,
    settings: &Option<SwingSettings>,
    phasors: &Option<[Cx; 8]>,
) -> bool
    requires settings { ForSome settings.now IsSwing }
    requires phasors { ForSome phasors.now (All (λ p. IsBelow p (2 ^ 30 + 1))) }
    ensures blocks { (rate : ℕ) (takes : SwingSettings → List SwingTake) → SwingStandsFor rate takes settings.now swing.old →
        result ≡ swings_by rate settings.now (λ s. next_run (option_map (swing_take s) (option_map measured phasors.now)) (takes s)) }
    ensures after { (rate : ℕ) (takes : SwingSettings → List SwingTake) → SwingStandsFor rate takes settings.now swing.old →
        SwingStandsFor rate (λ s. next_run (option_map (swing_take s) (option_map measured phasors.now)) (takes s)) settings.now swing.new }
{
    match settings {
        Some(s) => match swing {
            Some(swing) => swing_after(swing, s, phasors),
            None => false,
        },
        None => false,
    }
}

fn swing_after(swing: &mut Swing, s: &SwingSettings, phasors: &Option<[Cx; 8]>) -> bool
    requires settings { IsSwing s.now }
    requires phasors { ForSome phasors.now (All (λ p. IsBelow p (2 ^ 30 + 1))) }
    ensures blocks { (rate : ℕ) (takes : List SwingTake) → StandsForSwing s.now rate takes swing.old →
        result ≡ is_swing s.now rate (next_run (option_map (swing_take s.now) (option_map measured phasors.now)) takes) }
    ensures after { (rate : ℕ) (takes : List SwingTake) → StandsForSwing s.now rate takes swing.old →
        StandsForSwing s.now rate (next_run (option_map (swing_take s.now) (option_map measured phasors.now)) takes) swing.new }
{
    match phasors {
        Some(phasors) => {
            let m = measure(phasors);
            let place = swing_place(s, m.voltage.plus, m.current.plus);
            let is_unbalanced = unbalanced(s, m.current.plus, m.current.minus);
            swing.take(place, is_unbalanced)
        }
        None => {
            swing.clear();
            false
        }
    }
}

/// Whether a fuse counts as blown at a sample: never where the line has no table for it.
pub fn take_fuse(
    fuse: &mut Option<Fuse>,
    n: u32,
    settings: &Option<FuseSettings>,
    phasors: &Option<[Cx; 8]>,
) -> bool
    requires n { (n ≡ 80) ⊎ (n ≡ 96) }
    requires settings { ForSome settings.now IsFuse }
    requires phasors { ForSome phasors.now (All (λ p. IsBelow p (2 ^ 30 + 1))) }
    ensures blows { (rate : ℕ) (takes : FuseSettings → List FuseTake) → FuseStandsFor rate takes settings.now fuse.old →
        result ≡ blows_by rate settings.now (λ s. next_run (option_map (fuse_take n s) (option_map measured phasors.now)) (takes s)) }
    ensures after { (rate : ℕ) (takes : FuseSettings → List FuseTake) → FuseStandsFor rate takes settings.now fuse.old →
        FuseStandsFor rate (λ s. next_run (option_map (fuse_take n s) (option_map measured phasors.now)) (takes s)) settings.now fuse.new }
{
    match settings {
        Some(s) => match fuse {
            Some(fuse) => fuse_after(fuse, n, s, phasors),
            None => false,
        },
        None => false,
    }
}

fn fuse_after(fuse: &mut Fuse, n: u32, s: &FuseSettings, phasors: &Option<[Cx; 8]>) -> bool
    requires n { (n ≡ 80) ⊎ (n ≡ 96) }
    requires settings { IsFuse s.now }
    requires phasors { ForSome phasors.now (All (λ p. IsBelow p (2 ^ 30 + 1))) }
    ensures blows { (rate : ℕ) (takes : List FuseTake) → StandsForFuse s.now rate takes fuse.old →
        result ≡ is_blown s.now rate (next_run (option_map (fuse_take n s.now) (option_map measured phasors.now)) takes) }
    ensures after { (rate : ℕ) (takes : List FuseTake) → StandsForFuse s.now rate takes fuse.old →
        StandsForFuse s.now rate (next_run (option_map (fuse_take n s.now) (option_map measured phasors.now)) takes) fuse.new }
{
    match phasors {
        Some(phasors) => {
            let m = measure(phasors);
            let has_voltage = at_least_rms(m.voltage.minus, n, s.u2_min);
            let has_current = at_least_rms(m.current.minus, n, s.i2_max);
            fuse.take(has_voltage, !has_current)
        }
        None => {
            fuse.clear();
            false
        }
    }
}
