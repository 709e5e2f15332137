//! The plan of a drill, which gives one frame after the other.
ghost use Rattle.std.specs.Prelude.{◌<◌};
ghost use Rattle.std.specs.Option.{ForSome};

use crate::frame::put_frame;
use crate::slot::{Kind, Line, Slot};
use arrayvec::ArrayVec;
use rand_core::SeedableRng;
use rand_core::utils::NextWord;
use rand_pcg::Lcg64Xsh32;

/// How many frames each line sends in a second, with two samples each.
const PAIRS: u16 = 2400;

/// The frames of a drill that are still to come.
#[derive(Drop)]
pub struct Plan {
    generator: Lcg64Xsh32,
    /// The seconds that haven't begun.
    seconds: u32,
    /// What this second is like for the first line.
    first: Kind,
    /// What it is like for the second line.
    second: Kind,
    /// The next pair of samples of this second.
    pair: u16,
    /// The second line's frame, where the first line's of this pair was the last one.
    waiting: Option<Slot>,
    ghost within: { ForSome waiting (λ slot. slot.counter < 4800) },
}

impl Plan {
    ghost use Rattle.std.specs.Prelude.{ℕ, ◌≡◌, ◌<◌, ◌≤◌, List, [], ◌∷◌, IsTrue, false, MatchOption};
    ghost use Rattle.drill.specs.PlannedFrames.{frames_of};
    ghost use Rattle.drill.specs.PlanLeft.{slots_left, frames_left};

    /// The plan of a number, of which no frame was given: all frames of so many seconds, from 1 to 600.
    pub fn of(seed: u64, seconds: u32) -> Plan
        requires { (1 ≤ seconds) × (seconds ≤ 600) }
        ensures { frames_left result ≡ frames_of seed seconds }
    {
        Plan {
            generator: Lcg64Xsh32::seed_from_u64(seed),
            seconds,
            first: Kind::Healthy,
            second: Kind::Healthy,
            pair: PAIRS,
            waiting: None,
        }
    }

    /// Puts the next frame in place of what `buf` holds. False comes exactly after the last frame, and `buf` is
    /// then empty.
    pub fn frame(&mut self, buf: &mut ArrayVec<u8, 1024>) -> bool
        ensures next { IsTrue result → frames_left self.old ≡ buf.new.items ∷ frames_left self.new }
        ensures end { result ≡ false → (frames_left self.old ≡ []) × (frames_left self.new ≡ []) × (buf.new.items ≡ []) }
    {
        buf.clear();
        while let Some(slot) = self.next_slot() {
            if !slot.is_left_out() {
                put_frame(buf, &slot);
                return true;
            }
        }
        false
    }

    /// The next place of the plan, whether or not its frame comes.
    fn next_slot(&mut self) -> Option<Slot>
        ensures { MatchOption result ((slots_left self.old ≡ []) × (slots_left self.new ≡ [])) (λ slot. (slots_left self.old ≡ slot ∷ slots_left self.new) × (slot.counter < 4800)) }
    {
        if let Some(slot) = self.waiting.take() {
            return Some(slot);
        }
        if self.pair >= PAIRS {
            if self.seconds == 0 {
                return None;
            }
            self.begin_second();
        }
        Some(self.begin_pair())
    }

    /// Draws what the next second is like.
    fn begin_second(&mut self)
        requires seconds { 0 < self.old.seconds }
        requires pair { PAIRS ≤ self.old.pair }
        ensures left { slots_left self.new ≡ slots_left self.old }
        ensures pair { self.new.pair ≡ 0 }
        ensures waiting { self.new.waiting ≡ self.old.waiting }
    {
        self.seconds -= 1;
        self.first = Kind::of(self.generator.next_word());
        self.second = Kind::of(self.generator.next_word());
        self.pair = 0;
    }

    /// The first line's place of the next pair of samples; the second line's waits.
    fn begin_pair(&mut self) -> Slot
        requires pair { self.old.pair < PAIRS }
        requires waiting { self.old.waiting ≡ None }
        ensures left { slots_left self.old ≡ result ∷ slots_left self.new }
        ensures counter { result.counter < 4800 }
    {
        let counter = 2 * self.pair;
        self.pair += 1;
        self.waiting = Some(Slot {
            line: Line::Second,
            kind: self.second,
            counter,
        });
        Slot {
            line: Line::First,
            kind: self.first,
            counter,
        }
    }
}
