//! The locator of one line.
ghost use Rattle.std.specs.Prelude.{◌≡◌, ◌<◌, ◌^◌, true};
ghost use Rattle.std.specs.List.{All};
ghost use Rattle.std.specs.Option.{ForSome, option_map};
ghost use Rattle.relay_num.specs.Bounds.{is_cycle, phasor_bound};
ghost use Rattle.relay_num.specs.Numbers.{IsBelow};
ghost use Rattle.relay_settings.specs.Settings.{plain_line};
ghost use Rattle.loop_impedance.specs.Loops.{ArePhasesBelow};
ghost use Rattle.line_relay.specs.Measured.{measured};
ghost use Rattle.fault_locate.specs.KeptCurrents.{AreCurrents};
ghost use Rattle.fault_locate.specs.KeptWaiting.{IsWaiting, IsModest};
ghost use Rattle.fault_locate.specs.NextSample.{follows_last};

use crate::located::Located;
use crate::lookback::Lookback;
use crate::measure::measure;
use crate::trips::has_trip;
use crate::waiting::{Waiting, take_due, trip_of};
use event_record::at_of;
use line_bank::{LineBank, LineElement};
use line_relay::{Burst, Front, Line};
use relay_num::{Cx, NoMemory, Steps};
use relay_settings::{Common, LineSettings};
use std::alloc::Global;
use std::sync::ledger::Ledger;
use sv_frame::Asdu;

/// One line with its events, its samples, the currents of the last two cycles, and the trip that waits.
#[derive(Drop)]
pub struct Locator {
    common: Common,
    settings: LineSettings,
    line: Line,
    front: Front,
    /// What the last sample set brought.
    burst: Burst,
    lookback: Lookback,
    waiting: Option<Waiting>,
    ghost rated: { 1 < common.rate },
    ghost cycle: { is_cycle common.n ≡ true },
    ghost modest: { IsModest (plain_line settings) },
    ghost small: { ForSome waiting IsWaiting },
}

/// The fault locators of all lines, each after the line's own sample sets so far.
pub type Locators = LineBank<Locator>;

impl LineElement for Locator {
    ghost use Rattle.std.specs.Prelude.{Option, ⊤};
    ghost use Rattle.std.specs.Option.{ForSome};
    ghost use Rattle.line_bank.specs.LastNumbers.{larger};
    ghost use Rattle.fault_locate.specs.declared.located.Located.{Located};
    ghost use Rattle.fault_locate.specs.Locating.{located};
    ghost use Rattle.fault_locate.specs.LocateTexts.{IsPrintableLocated};
    ghost use Rattle.fault_locate.specs.KeptLocator.{StandsFor, line_last, front_last};

    type Asked = ();

    type Told = Option<Located>;

    ghost IsAsked = { λ _. ⊤ };

    ghost Said = { Option Located };

    ghost said = { λ told. told };

    ghost IsPrintable = { λ told. ForSome told IsPrintableLocated };

    ghost stands = { λ common _ line asdus locator. StandsFor common line asdus locator };

    ghost tells = { λ common _ line asdus. located common line asdus };

    ghost last = { λ locator. larger (line_last locator) (front_last locator) };

    ghost most_steps = { 36 };

    /// `NoMemory` comes only where the allocator has no room for cycles of samples, of voltages and of currents.
    fn new(
        alloc: Global,
        common: &Common,
        s: &LineSettings,
        _asked: (),
    ) -> Result<Locator, NoMemory> {
        let line = Line::new(alloc, common, s)?;
        let front = Front::new(alloc, common, s)?;
        let lookback = Lookback::new(alloc, common.n)?;
        Ok(Locator {
            common: *common,
            settings: s.copy(),
            line,
            front,
            burst: Burst::new(),
            lookback,
            waiting: None,
        })
    }

    fn owns(&self, a: &Asdu<'_>) -> bool {
        self.settings.sv_id.as_slice() == a.sv_id
    }

    fn take<L: Ledger>(&mut self, a: &Asdu<'_>, steps: &mut Steps<L>) -> Option<Located> {
        let last = self.front.last();
        self.line.take_into(a, &mut self.burst, steps);
        let step = self.front.take(a, steps);
        let Some(number) = step.outcome.number() else {
            return None;
        };
        self.note(number, follows(last, number), &step.phasors, steps)
    }
}

impl Locator {
    ghost use Rattle.std.specs.Prelude.{◌≡◌, ◌<◌, ◌≤◌, ◌+◌, List, ◌∷◌};
    ghost use Rattle.std.specs.Option.{ForSome};
    ghost use Rattle.std.specs.List.{All};
    ghost use Rattle.relay_num.specs.Bounds.{phasor_bound};
    ghost use Rattle.relay_num.specs.Numbers.{IsBelow};
    ghost use Rattle.relay_settings.specs.Settings.{plain_line};
    ghost use Rattle.event_record.specs.Printable.{IsPrintable};
    ghost use Rattle.line_relay.specs.LineSamples.{Numbered};
    ghost use Rattle.fault_locate.specs.Locating.{located_at};
    ghost use Rattle.fault_locate.specs.LocateTexts.{IsPrintableLocated};
    ghost use Rattle.fault_locate.specs.NextSample.{IsNext};
    ghost use Rattle.fault_locate.specs.KeptLocator.{HoldsFor};

    /// Takes a sample, whose phasors these are where it is ready, and whose events the burst has; it follows where its
    /// number is the next.
    fn note<L: Ledger>(
        &mut self,
        number: u64,
        follows: bool,
        phasors: &Option<[Cx; 8]>,
        steps: &mut Steps<L>,
    ) -> Option<Located>
        requires phasors { ForSome phasors.now (All (λ p. IsBelow p phasor_bound)) }
        requires events { All IsPrintable self.old.burst.events.items }
        // For the samples of each past that the locator holds.
        ensures told { (s : Numbered) (past : List Numbered) →
            IsNext self.old.common (plain_line self.old.settings) s past number follows phasors.now self.old.burst.events.items →
            HoldsFor self.old.common (plain_line self.old.settings) past self.old.lookback self.old.waiting →
            result ≡ located_at self.old.common (plain_line self.old.settings) (s ∷ past) }
        ensures after { (s : Numbered) (past : List Numbered) →
            IsNext self.old.common (plain_line self.old.settings) s past number follows phasors.now self.old.burst.events.items →
            HoldsFor self.old.common (plain_line self.old.settings) past self.old.lookback self.old.waiting →
            HoldsFor self.old.common (plain_line self.old.settings) (s ∷ past) self.new.lookback self.new.waiting }
        ensures printable { ForSome result IsPrintableLocated }
        ensures same_common { self.new.common ≡ self.old.common }
        ensures same_settings { self.new.settings ≡ self.old.settings }
        ensures same_line { self.new.line ≡ self.old.line }
        ensures same_front { self.new.front ≡ self.old.front }
        ensures cost { steps.new ≡ steps.old + 1 }
    {
        let before = self.lookback.take(follows, currents_of(phasors), steps);
        let events = self.burst.events.as_slice();
        if has_trip(events) {
            let raised = trip_of(&self.settings, number, before, events);
            self.waiting = raised;
            return None;
        }
        let Some(trip) = take_due(&mut self.waiting, number, self.common.n) else {
            return None;
        };
        let at = at_of(&self.common, number);
        Some(measure(&self.settings, self.common.n, at, trip, phasors))
    }
}

/// Whether a number is the one behind the last.
fn follows(last: Option<u64>, number: u64) -> bool
    requires { ForSome last (λ n. n < 2 ^ 60) }
    ensures { result ≡ follows_last last number }
{
    match last {
        Some(last) => last + 1 == number,
        None => false,
    }
}

/// The phase currents, where the sample is ready.
fn currents_of(phasors: &Option<[Cx; 8]>) -> Option<[Cx; 3]>
    requires { ForSome phasors.now (All (λ p. IsBelow p phasor_bound)) }
    ensures value { result ≡ option_map (λ ps. (measured ps).currents) phasors.now }
    ensures small { AreCurrents result }
{
    match phasors {
        Some(phasors) => Some(phase_currents(phasors)),
        None => None,
    }
}

/// Of the phasors of IA, IB, IC, IN, UA, UB, UC and UN the first three.
#[tactic(auto, unfolding(line_relay::specs::Measured::measured))]
fn phase_currents(phasors: &[Cx; 8]) -> [Cx; 3]
    requires { All (λ p. IsBelow p phasor_bound) phasors.now }
    ensures value { result ≡ (measured phasors.now).currents }
    ensures small { ArePhasesBelow result phasor_bound }
{
    let [ia, ib, ic, ..] = *phasors;
    [ia, ib, ic]
}
