//! What is told of a phase.
ghost use Rattle.std.specs.Prelude.{◌≡◌, ◌≤◌, ◌<◌, ◌+◌, ◌^◌, ◌++◌, length};
ghost use Rattle.std.specs.List.{All};
ghost use Rattle.inverse_time.specs.BackupEvents.{told_at, phase_changes};
ghost use Rattle.inverse_time.specs.BackupTexts.{IsPrintableEvent};

use arrayvec::ArrayVec;
use event_record::At;

/// What happens to a phase.
#[derive(Clone, Copy, PartialEq, Eq, Debug)]
pub enum BackupWhat {
    /// Its current is at least the pickup.
    Start,
    /// It no longer is, or isn't known.
    Drop,
    /// It has lasted as long as the curve asks.
    Operate,
}

/// What happens to a phase at a sample.
#[derive(Clone, Copy, PartialEq, Eq, Debug)]
pub struct BackupEvent {
    pub at: At,
    /// 0, 1 and 2 for A, B and C.
    pub phase: u8,
    pub what: BackupWhat,
}

impl Default for BackupEvent {
    fn default() -> BackupEvent {
        BackupEvent {
            at: At {
                number: 0,
                seconds: 0,
                nanos: 0,
            },
            phase: 0,
            what: BackupWhat::Start,
        }
    }
}

/// What holds of a phase at a sample.
#[derive(Clone, Copy, PartialEq, Eq, Debug)]
pub struct PhaseFacts {
    /// The sample is ready, and the current at least the pickup.
    pub picked: bool,
    /// That has lasted as long as the curve asks.
    pub done: bool,
}

/// Appends what changed of a phase. There is room for two events.
pub fn push_changes(
    events: &mut ArrayVec<BackupEvent, 6>,
    at: &At,
    phase: u8,
    before: PhaseFacts,
    now: PhaseFacts,
)
    requires room { length events.old.items + 2 ≤ 6 }
    requires nanos { at.now.nanos < 10 ^ 9 }
    requires phase { phase < 3 }
    ensures events { events.new.items ≡ events.old.items ++ told_at at.now phase (phase_changes before now) }
    ensures long { length events.new.items ≤ length events.old.items + 2 }
    ensures printable { All IsPrintableEvent events.old.items → All IsPrintableEvent events.new.items }
{
    if before.picked != now.picked {
        let what = if now.picked {
            BackupWhat::Start
        } else {
            BackupWhat::Drop
        };
        events.push(BackupEvent {
            at: *at,
            phase,
            what,
        });
    }
    if now.done && !before.done {
        events.push(BackupEvent {
            at: *at,
            phase,
            what: BackupWhat::Operate,
        });
    }
}
