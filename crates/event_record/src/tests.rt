//! Lines and times worked by hand.
ghost use Rattle.std.specs.Prelude.{◌<◌, ◌≤◌, IsTrue};
ghost use Rattle.event_record.specs.Printable.{IsPrintableWhat, IsPrintableAt, IsPrintable};

use super::*;
use arrayvec::ArrayVec;
use relay_settings::Common;
use sv_frame::Reason;

/// 4800 samples a second and 50 Hz from this second on.
fn from_second(start: u32) -> Common
    ensures { 1 < result.rate }
{
    Common {
        rate: 4800,
        nominal: 50,
        n: 96,
        start,
        heartbeat_ms: 1000,
    }
}

/// Name, time and number of a sample.
fn place(start: u32, number: u64) -> ArrayVec<u8, 160> {
    begin_line(b"L1", at_of(&from_second(start), number))
}

#[test]
fn sample_has_its_civil_time(rt: HostRuntime) {
    let new_year = 1_704_067_200;
    let leap_day = 1_709_251_199;
    let rows: [(u32, u64, &str); 11] = [
        (new_year, 0, "L1 2024-01-01T00:00:00.000000000Z 0 "),
        (new_year, 95, "L1 2024-01-01T00:00:00.019791666Z 95 "),
        (new_year, 1525, "L1 2024-01-01T00:00:00.317708333Z 1525 "),
        (new_year, 3898, "L1 2024-01-01T00:00:00.812083333Z 3898 "),
        (new_year, 4847, "L1 2024-01-01T00:00:01.009791666Z 4847 "),
        (leap_day, 0, "L1 2024-02-29T23:59:59.000000000Z 0 "),
        (leap_day, 4800, "L1 2024-03-01T00:00:00.000000000Z 4800 "),
        (0, 1, "L1 1970-01-01T00:00:00.000208333Z 1 "),
        (4_102_444_799, 0, "L1 2099-12-31T23:59:59.000000000Z 0 "),
        (u32::MAX, 0, "L1 2106-02-07T06:28:15.000000000Z 0 "),
        (u32::MAX, 4800, "L1 1970-01-01T00:00:00.000000000Z 4800 "),
    ];
    for (start, number, text) in rows {
        assert_eq!(rt; place(start, number).as_slice(), text.as_bytes());
    }
}

#[test]
fn day_has_its_date(rt: HostRuntime) {
    let rows = [
        (0, 1970, 1, 1),
        (11_016, 2000, 2, 29),
        (19_782, 2024, 2, 29),
        (19_783, 2024, 3, 1),
        (49_710, 2106, 2, 7),
    ];
    for (days, year, month, day) in rows {
        assert_eq!(rt; civil_date(days), CivilDate { year, month, day });
    }
}

/// Whether the event has a text.
fn has_text(event: &Event) -> bool
    ensures { IsTrue result → IsPrintable event.now }
{
    match *event {
        Event::Malformed { .. } => true,
        Event::Line { at, what } => has_time(at) && has_loop(what),
    }
}

fn has_time(at: Option<At>) -> bool
    ensures { IsTrue result → IsPrintableAt at }
{
    match at {
        Some(at) => at.nanos < 1_000_000_000,
        None => true,
    }
}

fn has_loop(what: What) -> bool
    ensures { IsTrue result → IsPrintableWhat what }
{
    match what {
        What::Entered { zone, lp } => zone >= 1 && zone <= 5 && lp <= 5,
        What::Left { zone, lp } => zone >= 1 && zone <= 5 && lp <= 5,
        What::Operate { zone, lp } => zone >= 1 && zone <= 5 && lp <= 5,
        _ => true,
    }
}

#[test]
fn each_event_has_its_text(rt: HostRuntime) {
    let rows: [(What, &str); 22] = [
        (What::First, "L1 - - first\n"),
        (What::Jump { missing: 4734 }, "L1 - - jump 4734\n"),
        (What::Ready, "L1 - - ready\n"),
        (What::Lost, "L1 - - lost\n"),
        (What::SwingOn, "L1 - - swing on\n"),
        (What::SwingOff, "L1 - - swing off\n"),
        (What::FuseOn, "L1 - - fuse on\n"),
        (What::FuseOff, "L1 - - fuse off\n"),
        (What::Entered { zone: 1, lp: 0 }, "L1 - - zone 1 AG in\n"),
        (What::Entered { zone: 2, lp: 1 }, "L1 - - zone 2 BG in\n"),
        (What::Left { zone: 3, lp: 2 }, "L1 - - zone 3 CG out\n"),
        (What::Left { zone: 4, lp: 3 }, "L1 - - zone 4 AB out\n"),
        (
            What::Operate { zone: 5, lp: 4 },
            "L1 - - zone 5 BC operate\n",
        ),
        (
            What::Operate { zone: 1, lp: 5 },
            "L1 - - zone 1 CA operate\n",
        ),
        (What::Trip, "L1 - - trip\n"),
        (What::Reset, "L1 - - reset\n"),
        (What::ConfRev { got: 7 }, "L1 - - confrev 7\n"),
        (What::Length { got: 60 }, "L1 - - length 60\n"),
        (What::Wild { counter: 4800 }, "L1 - - wild 4800\n"),
        (What::Repeat { counter: 500 }, "L1 - - repeat 500\n"),
        (
            What::Late {
                counter: 436,
                behind: 64,
            },
            "L1 - - late 436 by 64\n",
        ),
        (
            What::ConfRev { got: u32::MAX },
            "L1 - - confrev 4294967295\n",
        ),
    ];
    for (what, text) in rows {
        let told = Event::Line { at: None, what };
        assert!(rt; has_text(&told));
        assert_eq!(rt; print(b"L1", &told).as_slice(), text.as_bytes());
    }
}

#[test]
fn line_is_whole(rt: HostRuntime) {
    let rows: [(Event, &str); 9] = [
        (
            Event::Line {
                at: Some(at_of(&from_second(1_704_067_200), 0)),
                what: What::First,
            },
            "L1 2024-01-01T00:00:00.000000000Z 0 first\n",
        ),
        (
            Event::Line {
                at: None,
                what: What::ConfRev { got: 7 },
            },
            "L1 - - confrev 7\n",
        ),
        (
            Event::Line {
                at: None,
                what: What::Length { got: 60 },
            },
            "L1 - - length 60\n",
        ),
        (
            Event::Malformed {
                frame: 1,
                reason: Reason::Header,
            },
            "frame 1 malformed header\n",
        ),
        (
            Event::Malformed {
                frame: 1,
                reason: Reason::Length,
            },
            "frame 1 malformed length\n",
        ),
        (
            Event::Malformed {
                frame: 1,
                reason: Reason::Long,
            },
            "frame 1 malformed long\n",
        ),
        (
            Event::Malformed {
                frame: 2,
                reason: Reason::Pdu,
            },
            "frame 2 malformed pdu\n",
        ),
        (
            Event::Malformed {
                frame: 3,
                reason: Reason::Count,
            },
            "frame 3 malformed count\n",
        ),
        (
            Event::Malformed {
                frame: 10,
                reason: Reason::Asdu,
            },
            "frame 10 malformed asdu\n",
        ),
    ];
    for (event, text) in rows {
        assert!(rt; has_text(&event));
        assert_eq!(rt; print(b"L1", &event).as_slice(), text.as_bytes());
    }
}
