//! How a run ends.
ghost use Rattle.std.specs.Prelude.{◌≡◌};
ghost use Rattle.relay_tool.specs.Endings.{status_of as status_of_ending};
ghost use Rattle.relay_tool.specs.Ends.{ending_of};

use crate::files::CaptureStop;
use crate::put::Failed;
use crate::run::Stopped;
use crate::settings::SettingsStop;
use arrayvec::ArrayString;
use relay_num::NoMemory;
use room_io::Slot;

/// How a run ends. Counts are of whole records before the end.
#[derive(Clone, Copy, Debug, Drop)]
pub enum End {
    Done,
    Usage,
    Refused { number: u8, key: ArrayString<64> },
    NotCapture,
    Cut { records: u64 },
    Damaged { records: u64, size: u32 },
    TooLong { records: u64 },
    Fault(Slot),
    NoMemory,
    /// The capture was used to its end, and the line has so many trips: fewer than asked for.
    NoTrip { trips: u64 },
    /// No line of the settings has the name.
    NoLine,
}

impl From<NoMemory> for End {
    ghost use Rattle.relay_tool.specs.declared.end.End.TheVariants as ends;

    ghost from_gives = { λ _ end. end ≡ ends.NoMemory };

    fn from(_error: NoMemory) -> End {
        End::NoMemory
    }
}

impl From<Failed> for End {
    ghost use Rattle.relay_tool.specs.Endings.{fault};
    ghost use Rattle.relay_tool.specs.Ends.{ending_of};

    ghost from_gives = { λ failed end. ending_of end ≡ fault failed.slot };

    fn from(failed: Failed) -> End {
        End::Fault(failed.slot)
    }
}

impl From<SettingsStop> for End {
    ghost use Rattle.relay_tool.specs.Accepting.{settings_ending};
    ghost use Rattle.relay_tool.specs.Ends.{ending_of};

    ghost from_gives = { λ stop end. ending_of end ≡ settings_ending stop };

    fn from(stop: SettingsStop) -> End {
        match stop {
            SettingsStop::Fault => End::Fault(Slot::Settings),
            SettingsStop::Refused { number, key } => End::Refused { number, key },
            SettingsStop::NoMemory => End::NoMemory,
        }
    }
}

impl From<CaptureStop> for End {
    ghost use Rattle.relay_tool.specs.Opening.{capture_ending};
    ghost use Rattle.relay_tool.specs.Ends.{ending_of};

    ghost from_gives = { λ stop end. ending_of end ≡ capture_ending stop };

    fn from(stop: CaptureStop) -> End {
        match stop {
            CaptureStop::Fault => End::Fault(Slot::Capture),
            CaptureStop::NotCapture => End::NotCapture,
        }
    }
}

impl From<Stopped> for End {
    ghost use Rattle.relay_tool.specs.Running.{ending_of_stop};
    ghost use Rattle.relay_tool.specs.Ends.{ending_of};

    ghost from_gives = { λ stop end. ending_of end ≡ ending_of_stop stop };

    fn from(stop: Stopped) -> End {
        match stop {
            Stopped::Whole => End::Done,
            Stopped::Cut { records } => End::Cut { records },
            Stopped::Damaged { records, size } => End::Damaged { records, size },
            Stopped::TooLong { records } => End::TooLong { records },
        }
    }
}

/// The status of the program.
pub fn status_of(end: &End) -> u8
    ensures { result ≡ status_of_ending (ending_of end.now) }
{
    match end {
        End::Done => 0,
        End::Usage => 1,
        End::Refused { .. } => 2,
        End::NotCapture => 3,
        End::Cut { .. } => 4,
        End::Damaged { .. } => 5,
        End::Fault(_) => 6,
        End::NoMemory => 7,
        End::TooLong { .. } => 8,
        End::NoTrip { .. } => 9,
        End::NoLine => 10,
    }
}
