//! One line of the relay.
ghost use Rattle.std.specs.Prelude.{◌≡◌, ◌<◌, ◌^◌, ◌+◌, true, All, List, ◌∷◌};
ghost use Rattle.relay_settings.specs.declared.types.Common.{Common};
ghost use Rattle.relay_settings.specs.Settings.{PlainGoose};
ghost use Rattle.goose_publish.specs.Publishing.{PointsTake, send_of};
ghost use Rattle.goose_publish.specs.Publishers.{StandsFor as PublisherStandsFor};
ghost use Rattle.std.specs.Option.{ForSome, option_map};
ghost use Rattle.relay_num.specs.Numbers.{IsBelow};
ghost use Rattle.line_relay.specs.Published.{shown_take, IsNextTake};
ghost use Rattle.relay_settings.specs.Ranges.{IsLine};
ghost use Rattle.relay_num.specs.Bounds.{is_cycle};
ghost use Rattle.memory_volt.specs.KeptMemory.{HoldsBelow};

use crate::burst::Burst;
use crate::decide::{is_dead, trips};
use crate::delays::{ground_delays, phase_delays};
use crate::events::{note_changes, push_arrival};
use crate::front::Front;
use crate::guards::{new_fuse, new_swing, polarise, take_fuse, take_swing};
use crate::inside::inside_masks;
use crate::quiet::greatest_part;
use crate::shown::{Shown, points_of};
use arrayvec::ArrayVec;
use event_record::{At, at_of};
use goose_publish::{FrameRoom, Publisher, Send};
use memory_volt::MemoryVolt;
use relay_num::{Cx, NoMemory, Steps};
use relay_settings::{Common, LineSettings, samples_of};
use std::alloc::Global;
use std::sync::ledger::Ledger;
use supervise::Fuse;
use sv_frame::Asdu;
use swing_block::Swing;
use trip_logic::Trip;
use zone_timers::Timers;

/// One line, after its own sample sets so far.
#[derive(Drop)]
pub struct Line {
    common: Common,
    settings: LineSettings,
    front: Front,
    memory: MemoryVolt,
    swing: Option<Swing>,
    fuse: Option<Fuse>,
    timers: Timers,
    trip: Trip,
    publisher: Publisher,
    shown: Shown,
    ghost rated: { 1 < common.rate },
    ghost cycle: { is_cycle common.n ≡ true },
    ghost ranges: { ∥ IsLine settings ∥₁ },
    ghost remembered: { HoldsBelow (2 ^ 32) memory },
}

impl Line {
    ghost use Rattle.std.specs.Prelude.{ℕ, ◌≡◌, ◌<◌, ◌≤◌, ◌^◌, ◌+◌, ◌++◌, length, IfOk, None, Some, List, [], ◌∷◌, Option};
    ghost use Rattle.std.specs.List.{All};
    ghost use Rattle.std.specs.Option.{ForSome, option_map};
    ghost use Rattle.std.specs.Str.{bytes_eq};
    ghost use Rattle.arrayvec.specs.ArrayVec.{array_vec_len};
    ghost use Rattle.relay_settings.specs.declared.types.Common.{Common};
    ghost use Rattle.relay_settings.specs.Settings.{PlainLine, plain_line};
    ghost use Rattle.relay_settings.specs.Ranges.{IsCommon, IsLine};
    ghost use Rattle.sv_frame.specs.Asdu.{PlainAsdu, plain_asdu};
    ghost use Rattle.event_record.specs.Printable.{IsPrintable};
    ghost use Rattle.event_record.specs.Time.{time_of};
    ghost use Rattle.goose_publish.specs.GooseFrame.{frame_bytes};
    ghost use Rattle.line_relay.specs.LineSamples.{Numbered};
    ghost use Rattle.line_relay.specs.Outcomes.{taken_number};
    ghost use Rattle.line_relay.specs.Events.{changes, told};
    ghost use Rattle.line_relay.specs.Facts.{facts_of};
    ghost use Rattle.line_relay.specs.Points.{send_at};
    ghost use Rattle.line_relay.specs.Bursts.{burst as burst_of, plain_burst};
    ghost use Rattle.relay_num.specs.Numbers.{IsBelow};
    ghost use Rattle.line_relay.specs.Measured.{measured};
    ghost use Rattle.line_relay.specs.KeptLine.{StandsFor, HoldsFor, kept_by, last_of, name_of};
    ghost use Rattle.line_relay.specs.Noted.{IsNext};

    /// A line that has heard nothing. `NoMemory` comes only where the allocator has no room for a cycle of
    /// samples and of voltages; nothing is made then.
    pub fn new(alloc: Global, common: &Common, s: &LineSettings) -> Result<Line, NoMemory>
        requires common { IsCommon common.now }
        requires settings { IsLine s.now }
        ensures { IfOk result (λ line. StandsFor common.now (plain_line s.now) [] line × (last_of line ≡ None)) }
    {
        let rate = common.rate;
        let front = Front::new(alloc, common, s)?;
        let memory = MemoryVolt::new(alloc, common.n, samples_of(rate, s.mem_ms))?;
        let zones = s.zones.as_slice();
        Ok(Line {
            common: *common,
            settings: s.copy(),
            front,
            memory,
            swing: new_swing(s, rate),
            fuse: new_fuse(s, rate),
            timers: Timers::new(&ground_delays(rate, zones), &phase_delays(rate, zones)),
            trip: Trip::new(samples_of(rate, s.trip_min_ms), samples_of(rate, s.open_ms)),
            publisher: Publisher::new(common, &s.goose),
            shown: Shown::new(),
        })
    }

    /// Takes the next sample set of the line, and answers what it brings. The last number has to be below
    /// 2^60. A sample set that isn't taken brings one event, and changes nothing else.
    pub fn take<L: Ledger>(&mut self, a: &Asdu<'_>, steps: &mut Steps<L>) -> Burst
        requires { ForSome (last_of self.old) (λ last. last < 2 ^ 60) }
        ensures grows { (most : ℕ) → ForSome (last_of self.old) (λ last. last ≤ most) → ForSome (last_of self.new) (λ last. last ≤ most + 4800) }
        // By the sample sets before: for each list of them that the line stands for.
        ensures burst { (common : Common) (settings : PlainLine) (asdus : List PlainAsdu) → StandsFor common settings asdus self.old →
            plain_burst result ≡ burst_of common settings (plain_asdu a.now ∷ asdus) }
        ensures after { (common : Common) (settings : PlainLine) (asdus : List PlainAsdu) → StandsFor common settings asdus self.old →
            StandsFor common settings (plain_asdu a.now ∷ asdus) self.new }
        ensures printable { All IsPrintable result.events.items }
        ensures name { name_of self.new ≡ name_of self.old }
        ensures cost { steps.new ≤ steps.old + 34 }
    {
        let mut burst = Burst::new();
        self.take_into(a, &mut burst, steps);
        burst
    }

    /// The same, with what it brings in place of what the burst held.
    #[inline(always)]
    pub fn take_into<L: Ledger>(&mut self, a: &Asdu<'_>, burst: &mut Burst, steps: &mut Steps<L>)
        requires { ForSome (last_of self.old) (λ last. last < 2 ^ 60) }
        ensures grows { (most : ℕ) → ForSome (last_of self.old) (λ last. last ≤ most) → ForSome (last_of self.new) (λ last. last ≤ most + 4800) }
        // By the sample sets before: for each list of them that the line stands for.
        ensures burst { (common : Common) (settings : PlainLine) (asdus : List PlainAsdu) → StandsFor common settings asdus self.old →
            plain_burst burst.new ≡ burst_of common settings (plain_asdu a.now ∷ asdus) }
        ensures after { (common : Common) (settings : PlainLine) (asdus : List PlainAsdu) → StandsFor common settings asdus self.old →
            StandsFor common settings (plain_asdu a.now ∷ asdus) self.new }
        ensures printable { All IsPrintable burst.new.events.items }
        ensures name { name_of self.new ≡ name_of self.old }
        ensures cost { steps.new ≤ steps.old + 34 }
    {
        burst.clear();
        let step = self.front.take(a, steps);
        let last = self.front.last();
        push_arrival(
            &mut burst.events,
            &self.common,
            last,
            a.counter,
            step.outcome,
        );
        let Some(number) = step.outcome.number() else {
            return;
        };
        // A copy of its own, so that the step needn't be kept whole.
        let phasors = step.phasors;
        self.note(number, &phasors, burst, steps);
    }

    /// Takes a sample, whose phasors these are where it is ready: the guards, the loops inside each zone,
    /// the delays, the trip, the events and the frame.
    fn note<L: Ledger>(
        &mut self,
        number: u64,
        phasors: &Option<[Cx; 8]>,
        burst: &mut Burst,
        steps: &mut Steps<L>,
    )
        requires number { number < 2 ^ 61 }
        requires phasors { ForSome phasors.now (All (λ p. IsBelow p (2 ^ 30 + 1))) }
        requires room { array_vec_len burst.old.events + 64 ≤ 96 }
        requires unsent { burst.old.send ≡ None }
        // For the samples of each past that the line holds.
        ensures after { (s : Numbered) (past : List Numbered) → IsNext self.old.common (plain_line self.old.settings) s past (kept_by self.old) number (option_map measured phasors.now) →
            HoldsFor self.old.common (plain_line self.old.settings) (s ∷ past) (kept_by self.new) }
        ensures events { (s : Numbered) (past : List Numbered) → IsNext self.old.common (plain_line self.old.settings) s past (kept_by self.old) number (option_map measured phasors.now) →
            burst.new.events.items ≡ burst.old.events.items ++ told (option_map (time_of self.old.common) (Some number))
            (changes (facts_of self.old.common (plain_line self.old.settings) past) (facts_of self.old.common (plain_line self.old.settings) (s ∷ past))) }
        ensures send { (s : Numbered) (past : List Numbered) → IsNext self.old.common (plain_line self.old.settings) s past (kept_by self.old) number (option_map measured phasors.now) →
            burst.new.send ≡ send_at self.old.common (plain_line self.old.settings) (s ∷ past) }
        ensures printable { All IsPrintable burst.old.events.items → All IsPrintable burst.new.events.items }
        ensures same_common { self.new.common ≡ self.old.common }
        ensures same_settings { self.new.settings ≡ self.old.settings }
        ensures same_front { self.new.front ≡ self.old.front }
        ensures cost { steps.new ≤ steps.old + 31 }
    {
        let n = self.common.n;
        let polarising = polarise(&mut self.memory, n, self.settings.mem_u, phasors, steps);
        let swing = take_swing(&mut self.swing, &self.settings.swing, phasors);
        let fuse = take_fuse(&mut self.fuse, n, &self.settings.fuse, phasors);
        let greatest = greatest_part(phasors);
        let inside = inside_masks(
            &self.settings,
            n,
            phasors,
            greatest,
            polarising,
            swing,
            fuse,
            steps,
        );
        let operate = self.timers.take(&inside);
        let operated = trips(self.settings.zones.as_slice(), &operate);
        let dead = is_dead(&self.settings, n, phasors, greatest);
        let trip = self.trip.take(number, operated, dead);
        let shown = Shown {
            ready: phasors.is_some(),
            swing,
            fuse,
            inside,
            operate,
        };
        let changed = note_changes(
            &mut burst.events,
            &self.common,
            Some(number),
            &mut self.shown,
            &shown,
            &trip,
        );
        publish(
            &mut self.publisher,
            number,
            &shown,
            trip.on,
            changed,
            &mut burst.send,
        );
    }

    /// Whether a sample set is the line's own, which its svID says.
    pub fn owns(&self, a: &Asdu<'_>) -> bool
        ensures { (common : Common) (settings : PlainLine) (asdus : List PlainAsdu) → StandsFor common settings asdus self.now →
            result ≡ bytes_eq settings.sv_id (plain_asdu a.now).sv_id }
    {
        self.settings.sv_id.as_slice() == a.sv_id
    }

    /// The last number that was taken.
    pub fn last(&self) -> Option<u64>
        ensures field { result ≡ last_of self.now }
        ensures last { (common : Common) (settings : PlainLine) (asdus : List PlainAsdu) → StandsFor common settings asdus self.now →
            result ≡ taken_number common settings asdus }
    {
        self.front.last()
    }

    /// The line's name in the log.
    pub fn name(&self) -> &[u8]
        ensures name { result.now ≡ name_of self.now }
        ensures short { length result.now ≤ 16 }
    {
        self.settings.name.as_slice()
    }

    /// The moment of the sample with this number.
    pub fn moment(&self, number: u64) -> At
        ensures { (common : Common) (settings : PlainLine) (asdus : List PlainAsdu) → StandsFor common settings asdus self.now →
            result ≡ time_of common number }
    {
        at_of(&self.common, number)
    }

    /// The bytes of a frame that the line sends (IEC 61850-8-1), from the destination to the end of the PDU.
    pub fn frame_bytes(&self, send: &Send) -> ArrayVec<u8, 1024>
        ensures bytes { (common : Common) (settings : PlainLine) (asdus : List PlainAsdu) → StandsFor common settings asdus self.now →
            result.items ≡ frame_bytes common settings.goose send.now }
        ensures long { length result.items ≤ 640 }
    {
        self.publisher.frame_bytes(send)
    }

    /// The same, in place of the frame that was made in the room before.
    pub fn frame_into(&self, send: &Send, room: &mut FrameRoom)
        ensures bytes { (common : Common) (settings : PlainLine) (asdus : List PlainAsdu) → StandsFor common settings asdus self.now →
            room.new.bytes.items ≡ frame_bytes common settings.goose send.now }
        ensures long { length room.new.bytes.items ≤ 640 }
    {
        self.publisher.frame_into(send, room);
    }
}

/// Puts the frame that is sent at this sample, if any, where none is. Mostly no fact has changed and no repetition is due:
/// then no points are formed, and nothing is taken or written.
fn publish(
    publisher: &mut Publisher,
    number: u64,
    shown: &Shown,
    trip: bool,
    changed: bool,
    send: &mut Option<Send>,
)
    requires number { number < 2 ^ 61 }
    requires unsent { send.old ≡ None }
    ensures send { (common : Common) (goose : PlainGoose) (takes : List PointsTake) →
        PublisherStandsFor common goose takes publisher.old → IsNextTake (shown_take number shown.now trip) changed takes →
        send.new ≡ send_of common (shown_take number shown.now trip) takes }
    ensures after { (common : Common) (goose : PlainGoose) (takes : List PointsTake) →
        PublisherStandsFor common goose takes publisher.old → IsNextTake (shown_take number shown.now trip) changed takes →
        PublisherStandsFor common goose (shown_take number shown.now trip ∷ takes) publisher.new }
{
    if !changed && publisher.is_idle(number) {
        return;
    }
    match publisher.take(number, &points_of(shown, trip)) {
        Some(sent) => *send = Some(sent),
        None => {}
    }
}

#[cfg(test)]
mod tests {
    use super::*;
    use crate::tests::{common, settings};
    use std::test::Fail;

    // Of a line's fields the front's ring alone keeps samples, and the memory voltages.
    #[test]
    fn fields_are_all(rt: HostRuntime) -> Result<(), Fail> {
        let line = Line::new(rt.alloc(), &common(), &settings(None))?;
        let Line {
            common,
            settings,
            front,
            memory,
            swing,
            fuse,
            timers,
            trip,
            publisher,
            shown,
        } = &line;
        let _: &Common = common;
        let _: &LineSettings = settings;
        let _: &Front = front;
        let _: &MemoryVolt = memory;
        let _: &Option<Swing> = swing;
        let _: &Option<Fuse> = fuse;
        let _: &Timers = timers;
        let _: &Trip = trip;
        let _: &Publisher = publisher;
        let Shown {
            ready,
            swing,
            fuse,
            inside,
            operate,
        } = shown;
        let _: &bool = ready;
        let _: &bool = swing;
        let _: &bool = fuse;
        let _: &[u8; 5] = inside;
        let _: &[u8; 5] = operate;
        assert_eq!(rt; *shown, Shown::new());
        Ok(())
    }
}
