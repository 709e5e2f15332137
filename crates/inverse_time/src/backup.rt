//! The backup of one line.
ghost use Rattle.std.specs.Prelude.{ℕ, List, ◌≡◌, ◌≤◌, ◌<◌, ◌^◌, ◌+◌, ◌++◌, length, true};
ghost use Rattle.std.specs.List.{All};
ghost use Rattle.std.specs.Option.{ForSome, option_map};
ghost use Rattle.relay_num.specs.Bounds.{is_cycle};
ghost use Rattle.relay_num.specs.Numbers.{IsBelow};
ghost use Rattle.loop_impedance.specs.Loops.{item};
ghost use Rattle.line_relay.specs.KeptGuards.{next_run};
ghost use Rattle.inverse_time.specs.InverseCurves.{IsDial};
ghost use Rattle.inverse_time.specs.BackupEvents.{told_at, phase_changes};
ghost use Rattle.inverse_time.specs.BackupTexts.{IsPrintableEvent};
ghost use Rattle.inverse_time.specs.KeptElement.{excess_by, StandsFor as ElementStandsFor};

use crate::curve::{Dial, excess};
use crate::element::Element;
use crate::event::{BackupEvent, push_changes};
use crate::numbers::multiple;
use arrayvec::ArrayVec;
use event_record::{At, at_of};
use line_bank::{LineBank, LineElement};
use line_relay::Front;
use relay_num::{Cx, NoMemory, Steps, copy_of};
use relay_settings::{Common, LineSettings};
use std::alloc::Global;
use std::sync::ledger::Ledger;
use sv_frame::Asdu;

/// One line's samples, and the elements of its phases.
#[derive(Drop)]
pub struct Backup {
    sv_id: ArrayVec<u8, 129>,
    common: Common,
    dial: Dial,
    front: Front,
    a: Element,
    b: Element,
    c: Element,
    ghost rated: { 1 < common.rate },
    ghost slow: { common.rate ≤ 4800 },
    ghost cycle: { is_cycle common.n ≡ true },
    ghost set: { IsDial dial },
}

/// The inverse-time elements of all lines, each after the line's own sample sets so far.
pub type Backups = LineBank<Backup>;

impl LineElement for Backup {
    ghost use Rattle.std.specs.Prelude.{List};
    ghost use Rattle.std.specs.List.{All};
    ghost use Rattle.inverse_time.specs.declared.event.BackupEvent.{BackupEvent};
    ghost use Rattle.inverse_time.specs.InverseCurves.{IsDial};
    ghost use Rattle.inverse_time.specs.BackupEvents.{backup_events};
    ghost use Rattle.inverse_time.specs.BackupTexts.{IsPrintableEvent};
    ghost use Rattle.inverse_time.specs.KeptBackup.{StandsFor, last_of};

    type Asked = Dial;

    type Told = ArrayVec<BackupEvent, 6>;

    ghost IsAsked = { IsDial };

    ghost Said = { List BackupEvent };

    ghost said = { λ events. events.items };

    ghost IsPrintable = { λ events. All IsPrintableEvent events.items };

    ghost stands = { λ common dial line asdus backup. StandsFor common line dial asdus backup };

    ghost tells = { λ common dial line asdus. backup_events common line dial asdus };

    ghost last = { last_of };

    ghost most_steps = { 1 };

    /// `NoMemory` comes only where the allocator has no room for a cycle of samples.
    fn new(
        alloc: Global,
        common: &Common,
        s: &LineSettings,
        dial: Dial,
    ) -> Result<Backup, NoMemory> {
        let front = Front::new(alloc, common, s)?;
        Ok(Backup {
            sv_id: copy_of(s.sv_id.as_slice()),
            common: *common,
            dial,
            front,
            a: Element::new(),
            b: Element::new(),
            c: Element::new(),
        })
    }

    fn owns(&self, a: &Asdu<'_>) -> bool {
        self.sv_id.as_slice() == a.sv_id
    }

    fn take<L: Ledger>(&mut self, a: &Asdu<'_>, steps: &mut Steps<L>) -> ArrayVec<BackupEvent, 6> {
        let mut events = ArrayVec::new();
        let step = self.front.take(a, steps);
        let Some(number) = step.outcome.number() else {
            return events;
        };
        let at = at_of(&self.common, number);
        let phasors = &step.phasors;
        take_phase(
            &mut self.a,
            self.dial,
            &self.common,
            phasors,
            &at,
            0,
            &mut events,
        );
        take_phase(
            &mut self.b,
            self.dial,
            &self.common,
            phasors,
            &at,
            1,
            &mut events,
        );
        take_phase(
            &mut self.c,
            self.dial,
            &self.common,
            phasors,
            &at,
            2,
            &mut events,
        );
        events
    }
}

/// Takes a taken sample into the element of a phase, and appends what changed of it. There is room for two events.
fn take_phase(
    element: &mut Element,
    dial: Dial,
    common: &Common,
    phasors: &Option<[Cx; 8]>,
    at: &At,
    phase: u8,
    events: &mut ArrayVec<BackupEvent, 6>,
)
    requires dial { IsDial dial }
    requires rate { common.now.rate ≤ 4800 }
    requires n { is_cycle common.now.n ≡ true }
    requires phasors { ForSome phasors.now (λ ps. All (λ p. IsBelow p (2 ^ 30 + 1)) ps) }
    requires nanos { at.now.nanos < 10 ^ 9 }
    requires phase { phase < 3 }
    requires room { length events.old.items + 2 ≤ 6 }
    ensures after { (run : List ℕ) → ElementStandsFor dial common.now.rate run element.old →
        ElementStandsFor dial common.now.rate (next_run (excess_by dial common.now.n (option_map (item phase) phasors.now)) run) element.new }
    ensures events { events.new.items ≡ events.old.items ++ told_at at.now phase (phase_changes element.old.facts element.new.facts) }
    ensures long { length events.new.items ≤ length events.old.items + 2 }
    ensures printable { All IsPrintableEvent events.old.items → All IsPrintableEvent events.new.items }
{
    let before = element.facts();
    let added = excess_by(dial, common.n, current_of(phasors, phase));
    element.take(dial, common.rate, added);
    push_changes(events, at, phase, before, element.facts());
}

/// The current of a phase, where the sample is ready.
fn current_of(phasors: &Option<[Cx; 8]>, phase: u8) -> Option<Cx>
    requires phasors { ForSome phasors.now (λ ps. All (λ p. IsBelow p (2 ^ 30 + 1)) ps) }
    requires phase { phase < 3 }
    ensures value { result ≡ option_map (item phase) phasors.now }
    ensures small { ForSome result (λ p. IsBelow p (2 ^ 30 + 1)) }
{
    match phasors {
        Some(phasors) => Some(phasors[usize::from(phase)]),
        None => None,
    }
}

/// What a current adds where it picks up; none where the sample isn't ready.
fn excess_by(dial: Dial, n: u32, current: Option<Cx>) -> Option<u64>
    requires dial { IsDial dial }
    requires n { is_cycle n ≡ true }
    requires current { ForSome current (λ p. IsBelow p (2 ^ 30 + 1)) }
    ensures value { result ≡ excess_by dial n current }
    ensures most { ForSome result (λ x. x ≤ 400000000) }
{
    let Some(current) = current else {
        return None;
    };
    let square = multiple(current, n, dial.pickup);
    if square >= 1_000_000 {
        Some(excess(dial.curve, square))
    } else {
        None
    }
}
