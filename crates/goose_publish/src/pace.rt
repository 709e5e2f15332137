//! How far the offsets of the frames after a change have come.

ghost use Rattle.std.specs.Prelude.{◌≡◌, ◌<◌, ◌≤◌};
ghost use Rattle.relay_settings.specs.Times.{samples};

use relay_settings::Common;

/// The least offset that isn't passed yet, and the step that leads to it.
#[derive(Drop)]
pub struct Pace {
    rate: u32,
    heartbeat_ms: u32,
    step_ms: u32,
    next_ms: u64,
    /// The samples after the change at which that offset falls: most samples are only compared with it.
    due: u128,
    ghost fast: { 1000 ≤ rate },
    ghost heartbeat: { heartbeat_ms ≤ 60000 },
    ghost some: { 0 < step_ms },
    ghost short: { step_ms ≤ heartbeat_ms },
    ghost ahead: { 0 < next_ms },
    ghost due_is: { due ≡ samples rate next_ms },
}

impl Pace {
    ghost use Rattle.std.specs.Prelude.{ℕ, ◌≡◌, ◌<◌, ◌≤◌, ◌*◌, ◌-◌, ◌^◌, suc, nat_le, IsTrue};
    ghost use Rattle.relay_settings.specs.declared.types.Common.{Common};
    ghost use Rattle.relay_settings.specs.Times.{samples};
    ghost use Rattle.goose_publish.specs.Offsets.{offset_ms};
    ghost use Rattle.goose_publish.specs.Paces.{IsAt, Passed};

    /// At the offset 0.
    pub fn new(common: &Common) -> Pace
        requires rate { 1000 ≤ common.now.rate }
        requires some { 0 < common.now.heartbeat_ms }
        requires heartbeat { common.now.heartbeat_ms ≤ 60000 }
        ensures { IsAt common.now 0 result }
    {
        let step_ms = common.heartbeat_ms.min(4);
        Pace {
            rate: common.rate,
            heartbeat_ms: common.heartbeat_ms,
            step_ms,
            next_ms: u64::from(step_ms),
            due: samples_to(common.rate, u64::from(step_ms)),
        }
    }

    /// Goes back to the offset 0.
    pub fn restart(&mut self)
        ensures { (common : Common) (k : ℕ) → IsAt common k self.old → IsAt common 0 self.new }
    {
        self.step_ms = self.heartbeat_ms.min(4);
        self.next_ms = u64::from(self.step_ms);
        self.due = samples_to(self.rate, self.next_ms);
    }

    /// Three times the step from the last offset that is passed to the next.
    pub fn live_ms(&self) -> u32
        ensures exact { (common : Common) (k : ℕ) → IsAt common k self.now →
            result ≡ 3 * (offset_ms common (suc k) - offset_ms common k) }
        ensures short { result ≤ 180000 }
    {
        3 * self.step_ms
    }

    /// Passes each offset that falls at most `age` samples after the change, and answers whether there is one.
    pub fn pass(&mut self, age: u64) -> bool
        requires { age < 2 ^ 61 }
        ensures due { (common : Common) (k : ℕ) → IsAt common k self.old →
            result ≡ nat_le (samples common.rate (offset_ms common (suc k))) age }
        ensures after { (common : Common) (k : ℕ) → IsAt common k self.old →
            samples common.rate (offset_ms common k) ≤ age → Passed common age self.new }
        ensures later { IsTrue result → 0 < age }
    {
        let is_due = self.is_within(age);
        while self.is_within(age) {
            self.step_ms = self.heartbeat_ms.min(2 * self.step_ms);
            self.next_ms += u64::from(self.step_ms);
            self.due = samples_to(self.rate, self.next_ms);
        }
        is_due
    }

    /// Whether the next offset falls at most `age` samples after the change.
    pub fn is_within(&self, age: u64) -> bool
        requires { age < 2 ^ 61 }
        ensures { result ≡ nat_le (samples self.now.rate self.now.next_ms) age }
    {
        self.due <= u128::from(age)
    }
}

/// `ms` milliseconds in samples, rounded up.
fn samples_to(rate: u32, ms: u64) -> u128
    ensures { result ≡ samples rate ms }
{
    (u128::from(ms) * u128::from(rate) + 999) / 1000
}
