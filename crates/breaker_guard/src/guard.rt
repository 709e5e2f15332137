//! The guard of one line.
ghost use Rattle.std.specs.Prelude.{◌≡◌, ◌≤◌, ◌<◌, ◌^◌, true};
ghost use Rattle.relay_num.specs.Bounds.{is_cycle};

use crate::current::is_flowing;
use crate::event::GuardEvent;
use crate::trip::trip_after;
use crate::waits::{GuardTimes, waits_of};
use crate::watch::Watch;
use arrayvec::ArrayVec;
use event_record::at_of;
use line_bank::{LineBank, LineElement};
use line_relay::{Burst, Front, Line};
use relay_num::{Cx, NoMemory, Steps, copy_of};
use relay_settings::{Common, LineSettings};
use std::alloc::Global;
use std::sync::ledger::Ledger;
use sv_frame::Asdu;

/// One line with its events, its phasors and what is kept of its trips.
#[derive(Drop)]
pub struct Guard {
    sv_id: ArrayVec<u8, 129>,
    common: Common,
    /// The threshold of an open breaker, in mA rms.
    open_i: u32,
    line: Line,
    front: Front,
    /// What the last sample set brought.
    burst: Burst,
    watch: Watch,
    ghost rated: { 1 < common.rate },
    ghost cycle: { is_cycle common.n ≡ true },
    ghost modest: { open_i ≤ 2 ^ 30 },
}

/// The breaker guards of all lines, each after the line's own sample sets so far.
pub type Guards = LineBank<Guard>;

impl LineElement for Guard {
    ghost use Rattle.std.specs.Prelude.{List};
    ghost use Rattle.std.specs.Option.{ForSome};
    ghost use Rattle.line_bank.specs.LastNumbers.{larger};
    ghost use Rattle.breaker_guard.specs.declared.event.GuardEvent.{GuardEvent};
    ghost use Rattle.breaker_guard.specs.Guarding.{listed, AreTimes};
    ghost use Rattle.breaker_guard.specs.GuardEvents.{guard_events};
    ghost use Rattle.breaker_guard.specs.GuardTexts.{IsPrintableGuard};
    ghost use Rattle.breaker_guard.specs.KeptGuard.{StandsFor, line_last, front_last};

    type Asked = GuardTimes;

    type Told = Option<GuardEvent>;

    ghost IsAsked = { AreTimes };

    ghost Said = { List GuardEvent };

    // One event, or none exactly where the definition has none.
    ghost said = { listed };

    ghost IsPrintable = { λ told. ForSome told IsPrintableGuard };

    ghost stands = { λ common times line asdus guard. StandsFor common line times asdus guard };

    ghost tells = { λ common times line asdus. guard_events common line times asdus };

    ghost last = { λ guard. larger (line_last guard) (front_last guard) };

    ghost most_steps = { 35 };

    /// `NoMemory` comes only where the allocator has no room for cycles of samples and of voltages.
    fn new(
        alloc: Global,
        common: &Common,
        s: &LineSettings,
        times: GuardTimes,
    ) -> Result<Guard, NoMemory> {
        let line = Line::new(alloc, common, s)?;
        let front = Front::new(alloc, common, s)?;
        Ok(Guard {
            sv_id: copy_of(s.sv_id.as_slice()),
            common: *common,
            open_i: s.open_i,
            line,
            front,
            burst: Burst::new(),
            watch: Watch::new(waits_of(common.rate, times)),
        })
    }

    fn owns(&self, a: &Asdu<'_>) -> bool {
        self.sv_id.as_slice() == a.sv_id
    }

    fn take<L: Ledger>(&mut self, a: &Asdu<'_>, steps: &mut Steps<L>) -> Option<GuardEvent> {
        self.line.take_into(a, &mut self.burst, steps);
        let step = self.front.take(a, steps);
        let Some(number) = step.outcome.number() else {
            return None;
        };
        let trip = trip_after(self.watch.stands(), self.burst.events.as_slice());
        let flowing = is_flowing(self.common.n, self.open_i, &step.phasors);
        let Some(what) = self.watch.take(number, trip, flowing) else {
            return None;
        };
        Some(GuardEvent {
            at: at_of(&self.common, number),
            what,
        })
    }
}
