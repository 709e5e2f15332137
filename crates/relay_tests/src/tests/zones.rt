//! Faults that the zone sees, the log that they give, and the GOOSE frames that tell of them.
ghost use Rattle.std.specs.Prelude.{◌≡◌, ◌<◌};

use super::captures::READY;
use super::runs::{DONE, Goose, Outcome, REPLAY, given, run, run_to};
use super::sent::{Sent, sent_of};
use room_io::Slot;
use row_inputs::{Form, GROUND_FAULT, PAIR, SINGLE, Signal, Span, ZONE, settings_of, signals_of};
use std::alloc::{AllocError, Global};
use std::process::Abort;
use std::test::Fail;

/// A mimic table that leaves each value as it is, but asks for the one before.
const SAME_VALUES: &str = "[line.mimic]
a = 1024
b = 0

[line.goose]";

/// The zone of a row.
#[derive(Clone, Copy)]
enum Zone {
    /// That of `row_inputs`, with this delay in milliseconds.
    Whole {
        delay_ms: u32,
    },
    /// With the delays of its parts, as far as it has them, which settings of version 2 know.
    Parts {
        ground: Option<u32>,
        phase: Option<u32>,
    },
}

const AT_ONCE: Zone = Zone::Whole { delay_ms: 0 };

const LATE: Zone = Zone::Whole { delay_ms: 400 };

/// Both parts alike are one zone.
const BOTH_AT_ONCE: Zone = Zone::Parts {
    ground: Some(0),
    phase: Some(0),
};

const LATE_PHASES: Zone = Zone::Parts {
    ground: Some(0),
    phase: Some(400),
};

const PHASES_ALONE: Zone = Zone::Parts {
    ground: None,
    phase: Some(0),
};

/// What stands before a zone's parts.
const ZONE_OF_PARTS: &str = "
[[line.zone]]
dir = \"forward\"
trip = true
swing_block = false
load_block = false
";

/// Frames with one stNum: it, the number of the sample at which the first of them is sent, how many there
/// are, and what they say of the trip, of the start and of the zones that operate.
pub type Run = (u64, u64, usize, bool, bool, u8);

/// The zone, whether a filter stands before it, and the spans of the signals.
struct Row {
    zone: Zone,
    has_mimic: bool,
    form: &'static Form,
    spans: &'static [Span],
    want: Want,
}

/// The log, the length of the GOOSE file and its frames.
#[derive(Clone, Copy)]
struct Want {
    log: &'static str,
    goose: usize,
    runs: &'static [Run],
}

/// All three phases at the line's beginning.
const CLOSE: [Span; 2] = [(0, 1464, Signal::Healthy), (1464, 1702, Signal::Close)];

/// The trip of `GROUND_FAULT`, and its end when it has stood long enough over a dead line.
const TRIPPED: Want = Want {
    log: "L1 2024-01-01T00:00:00.000000000Z 0 first
L1 2024-01-01T00:00:00.019791666Z 95 ready
L1 2024-01-01T00:00:00.317708333Z 1525 zone 1 AG in
L1 2024-01-01T00:00:00.317708333Z 1525 zone 1 AG operate
L1 2024-01-01T00:00:00.317708333Z 1525 trip
L1 2024-01-01T00:00:00.812083333Z 3898 zone 1 AG out
L1 2024-01-01T00:00:00.911875000Z 4377 reset
",
    goose: 3920,
    runs: &[
        (1, 0, 3, false, false, 0),
        (2, 95, 7, false, false, 0),
        (3, 1525, 7, true, true, 1),
        (4, 3898, 5, true, false, 0),
        (5, 4377, 5, false, false, 0),
    ],
};

static ROWS: [Row; 13] = [
    // A fault from 1464 to 3863, and the trip's end when it has stood long enough over a dead line.
    Row {
        zone: AT_ONCE,
        has_mimic: false,
        form: &PAIR,
        spans: &GROUND_FAULT,
        want: TRIPPED,
    },
    // The same by a filter that needs one sample more.
    Row {
        zone: AT_ONCE,
        has_mimic: true,
        form: &SINGLE,
        spans: &GROUND_FAULT,
        want: Want {
            log: "L1 2024-01-01T00:00:00.000000000Z 0 first
L1 2024-01-01T00:00:00.020000000Z 96 ready
L1 2024-01-01T00:00:00.317708333Z 1525 zone 1 AG in
L1 2024-01-01T00:00:00.317708333Z 1525 zone 1 AG operate
L1 2024-01-01T00:00:00.317708333Z 1525 trip
L1 2024-01-01T00:00:00.812083333Z 3898 zone 1 AG out
L1 2024-01-01T00:00:00.911875000Z 4377 reset
",
            goose: 3920,
            runs: &[
                (1, 0, 3, false, false, 0),
                (2, 96, 7, false, false, 0),
                (3, 1525, 7, true, true, 1),
                (4, 3898, 5, true, false, 0),
                (5, 4377, 5, false, false, 0),
            ],
        },
    },
    // A delay of 400 ms.
    Row {
        zone: LATE,
        has_mimic: false,
        form: &PAIR,
        spans: &[(0, 2100, Signal::Fault)],
        want: Want {
            log: "L1 2024-01-01T00:00:00.000000000Z 0 first
L1 2024-01-01T00:00:00.019791666Z 95 ready
L1 2024-01-01T00:00:00.019791666Z 95 zone 1 AG in
L1 2024-01-01T00:00:00.419791666Z 2015 zone 1 AG operate
L1 2024-01-01T00:00:00.419791666Z 2015 trip
",
            goose: 1899,
            runs: &[
                (1, 0, 3, false, false, 0),
                (2, 95, 7, false, true, 0),
                (3, 2015, 3, true, true, 1),
            ],
        },
    },
    // The delay begins anew behind three missing samples.
    Row {
        zone: LATE,
        has_mimic: false,
        form: &SINGLE,
        spans: &[(0, 1000, Signal::Fault), (1003, 3100, Signal::Fault)],
        want: Want {
            log: "L1 2024-01-01T00:00:00.000000000Z 0 first
L1 2024-01-01T00:00:00.019791666Z 95 ready
L1 2024-01-01T00:00:00.019791666Z 95 zone 1 AG in
L1 2024-01-01T00:00:00.208958333Z 1003 jump 3
L1 2024-01-01T00:00:00.208958333Z 1003 lost
L1 2024-01-01T00:00:00.208958333Z 1003 zone 1 AG out
L1 2024-01-01T00:00:00.228750000Z 1098 ready
L1 2024-01-01T00:00:00.228750000Z 1098 zone 1 AG in
L1 2024-01-01T00:00:00.628750000Z 3018 zone 1 AG operate
L1 2024-01-01T00:00:00.628750000Z 3018 trip
",
            goose: 3197,
            runs: &[
                (1, 0, 3, false, false, 0),
                (2, 95, 6, false, true, 0),
                (3, 1003, 3, false, false, 0),
                (4, 1098, 7, false, true, 0),
                (5, 3018, 3, true, true, 1),
            ],
        },
    },
    // Three samples are missing in the fault: all begins anew, but the trip stands.
    Row {
        zone: AT_ONCE,
        has_mimic: false,
        form: &SINGLE,
        spans: &[(0, 1000, Signal::Fault), (1003, 1200, Signal::Fault)],
        want: Want {
            log: "L1 2024-01-01T00:00:00.000000000Z 0 first
L1 2024-01-01T00:00:00.019791666Z 95 ready
L1 2024-01-01T00:00:00.019791666Z 95 zone 1 AG in
L1 2024-01-01T00:00:00.019791666Z 95 zone 1 AG operate
L1 2024-01-01T00:00:00.019791666Z 95 trip
L1 2024-01-01T00:00:00.208958333Z 1003 jump 3
L1 2024-01-01T00:00:00.208958333Z 1003 lost
L1 2024-01-01T00:00:00.208958333Z 1003 zone 1 AG out
L1 2024-01-01T00:00:00.228750000Z 1098 ready
L1 2024-01-01T00:00:00.228750000Z 1098 zone 1 AG in
L1 2024-01-01T00:00:00.228750000Z 1098 zone 1 AG operate
",
            goose: 2186,
            runs: &[
                (1, 0, 3, false, false, 0),
                (2, 95, 6, true, true, 1),
                (3, 1003, 3, true, false, 0),
                (4, 1098, 3, true, true, 1),
            ],
        },
    },
    // A sample of bad quality in the fault.
    Row {
        zone: AT_ONCE,
        has_mimic: false,
        form: &SINGLE,
        spans: &[
            (0, 200, Signal::Fault),
            (200, 201, Signal::BadQuality),
            (201, 300, Signal::Fault),
        ],
        want: Want {
            log: "L1 2024-01-01T00:00:00.000000000Z 0 first
L1 2024-01-01T00:00:00.019791666Z 95 ready
L1 2024-01-01T00:00:00.019791666Z 95 zone 1 AG in
L1 2024-01-01T00:00:00.019791666Z 95 zone 1 AG operate
L1 2024-01-01T00:00:00.019791666Z 95 trip
L1 2024-01-01T00:00:00.041666666Z 200 lost
L1 2024-01-01T00:00:00.041666666Z 200 zone 1 AG out
L1 2024-01-01T00:00:00.061666666Z 296 ready
L1 2024-01-01T00:00:00.061666666Z 296 zone 1 AG in
L1 2024-01-01T00:00:00.061666666Z 296 zone 1 AG operate
",
            goose: 1464,
            runs: &[
                (1, 0, 3, false, false, 0),
                (2, 95, 3, true, true, 1),
                (3, 200, 3, true, false, 0),
                (4, 296, 1, true, true, 1),
            ],
        },
    },
    // A fault over the end of the second.
    Row {
        zone: AT_ONCE,
        has_mimic: false,
        form: &PAIR,
        spans: &[(4752, 4800, Signal::Fault), (0, 100, Signal::Fault)],
        want: Want {
            log: "L1 2024-01-01T00:00:00.990000000Z 4752 first
L1 2024-01-01T00:00:01.009791666Z 4847 ready
L1 2024-01-01T00:00:01.009791666Z 4847 zone 1 AG in
L1 2024-01-01T00:00:01.009791666Z 4847 zone 1 AG operate
L1 2024-01-01T00:00:01.009791666Z 4847 trip
",
            goose: 744,
            runs: &[(1, 4752, 3, false, false, 0), (2, 4847, 2, true, true, 1)],
        },
    },
    // All three phases at the line's beginning: the voltage of before polarises, and no ground loop comes in.
    Row {
        zone: AT_ONCE,
        has_mimic: false,
        form: &PAIR,
        spans: &CLOSE,
        want: Want {
            log: "L1 2024-01-01T00:00:00.000000000Z 0 first
L1 2024-01-01T00:00:00.019791666Z 95 ready
L1 2024-01-01T00:00:00.316875000Z 1521 zone 1 BC in
L1 2024-01-01T00:00:00.316875000Z 1521 zone 1 BC operate
L1 2024-01-01T00:00:00.316875000Z 1521 trip
L1 2024-01-01T00:00:00.317083333Z 1522 zone 1 AB in
L1 2024-01-01T00:00:00.317083333Z 1522 zone 1 AB operate
L1 2024-01-01T00:00:00.317708333Z 1525 zone 1 CA in
L1 2024-01-01T00:00:00.317708333Z 1525 zone 1 CA operate
",
            goose: 2043,
            runs: &[
                (1, 0, 3, false, false, 0),
                (2, 95, 7, false, false, 0),
                (3, 1521, 4, true, true, 1),
            ],
        },
    },
    // Current without any voltage from the first sample on: nothing polarises.
    Row {
        zone: AT_ONCE,
        has_mimic: false,
        form: &PAIR,
        spans: &[(0, 1000, Signal::Dead)],
        want: Want {
            log: READY,
            goose: 1322,
            runs: &[(1, 0, 3, false, false, 0), (2, 95, 6, false, false, 0)],
        },
    },
    // The same value at each sample of a cycle has the phasor 0.
    Row {
        zone: AT_ONCE,
        has_mimic: false,
        form: &PAIR,
        spans: &[(0, 96, Signal::Greatest)],
        want: Want {
            log: READY,
            goose: 600,
            runs: &[(1, 0, 3, false, false, 0), (2, 95, 1, false, false, 0)],
        },
    },
    // Parts of their own: a delay of the phase part alone leaves ground loops as they are ..
    Row {
        zone: LATE_PHASES,
        has_mimic: false,
        form: &PAIR,
        spans: &GROUND_FAULT,
        want: TRIPPED,
    },
    // .. and holds the phase loops back.
    Row {
        zone: LATE_PHASES,
        has_mimic: false,
        form: &PAIR,
        spans: &CLOSE,
        want: Want {
            log: "L1 2024-01-01T00:00:00.000000000Z 0 first
L1 2024-01-01T00:00:00.019791666Z 95 ready
L1 2024-01-01T00:00:00.316875000Z 1521 zone 1 BC in
L1 2024-01-01T00:00:00.317083333Z 1522 zone 1 AB in
L1 2024-01-01T00:00:00.317708333Z 1525 zone 1 CA in
",
            goose: 2043,
            runs: &[
                (1, 0, 3, false, false, 0),
                (2, 95, 7, false, false, 0),
                (3, 1521, 4, false, true, 0),
            ],
        },
    },
    // Without a ground part no ground loop comes in.
    Row {
        zone: PHASES_ALONE,
        has_mimic: false,
        form: &PAIR,
        spans: &GROUND_FAULT,
        want: Want {
            log: READY,
            goose: 1612,
            runs: &[(1, 0, 3, false, false, 0), (2, 95, 8, false, false, 0)],
        },
    },
];

/// The logs of a gap before a cycle is whole, and of one in a fault.
const JUMP: &str = "L1 2024-01-01T00:00:00.000000000Z 0 first
L1 2024-01-01T00:00:00.145833333Z 700 jump 690
";

const GAP: &str = "L1 2024-01-01T00:00:00.000000000Z 0 first
L1 2024-01-01T00:00:00.019791666Z 95 ready
L1 2024-01-01T00:00:00.019791666Z 95 zone 1 AG in
L1 2024-01-01T00:00:00.019791666Z 95 zone 1 AG operate
L1 2024-01-01T00:00:00.019791666Z 95 trip
L1 2024-01-01T00:00:00.208958333Z 1003 jump 3
L1 2024-01-01T00:00:00.208958333Z 1003 lost
L1 2024-01-01T00:00:00.208958333Z 1003 zone 1 AG out
";

/// A part of a zone, if it has one.
fn part_of(alloc: Global, name: &str, delay_ms: Option<u32>) -> Result<String, AllocError> {
    match delay_ms {
        Some(delay_ms) => format!(in alloc;
            "\n[line.zone.{name}]\nshape = \"mho\"\nreach_r = 0\nreach_x = 12500\ndelay_ms = {delay_ms}\n"
        ),
        None => Ok(String::new(alloc)),
    }
}

/// The settings with the zone whole.
fn whole_text(alloc: Global, delay_ms: u32) -> Result<String, AllocError> {
    let delay = format!(in alloc; "delay_ms = {delay_ms}")?;
    settings_of(alloc, ZONE, &[("delay_ms = 0", delay.as_str())])
}

/// The settings of version 2 with the zone in parts.
fn parts_text(
    alloc: Global,
    ground: Option<u32>,
    phase: Option<u32>,
) -> Result<String, AllocError> {
    let mut zones = ZONE_OF_PARTS.to_string(alloc)?;
    zones.push_str(&part_of(alloc, "ground", ground)?)?;
    zones.push_str(&part_of(alloc, "phase", phase)?)?;
    settings_of(alloc, &zones, &[("version = 1", "version = 2")])
}

fn text_of(alloc: Global, zone: Zone, has_mimic: bool) -> Result<String, AllocError> {
    let text = match zone {
        Zone::Whole { delay_ms } => whole_text(alloc, delay_ms)?,
        Zone::Parts { ground, phase } => parts_text(alloc, ground, phase)?,
    };
    if has_mimic {
        text.replacen(alloc, "[line.goose]", SAME_VALUES, 1)
    } else {
        Ok(text)
    }
}

/// The nanoseconds of a sample within its second.
fn nanos_of(number: u64) -> u64 {
    let place = number % 4800;
    place.wrapping_mul(1_000_000_000) / 4800
}

/// Whether the frames are those of these runs.
pub fn expect_runs(rt: &impl Abort, sent: &[Sent], runs: &[Run]) {
    let mut place: usize = 0;
    for (state, number, frames, trip, start, zones) in runs {
        let first = sent.get(place).copied();
        assert_eq!(rt;
            first.map(|one| one.nanos),
            Some(nanos_of(*number)),
            "{number}"
        );
        for sequence in 0..*frames {
            let told = sent.get(place).map(|one| (
                one.state,
                one.sequence,
                one.trip,
                one.start,
                one.zones,
            ));
            let want = (*state, sequence as u64, *trip, *start, *zones);
            assert_eq!(rt; told, Some(want), "{number}");
            place = place.wrapping_add(1);
        }
    }
    assert_eq!(rt; sent.len(), place);
}

/// Replays the row's capture by this zone.
fn run_row(rt: &impl Abort, alloc: Global, row: &Row, zone: Zone) -> Result<(), Fail> {
    let settings = text_of(alloc, zone, row.has_mimic)?;
    let capture = signals_of(alloc, row.form, row.spans)?;
    let (log, goose) = (row.want.log, Goose::IsLong(row.want.goose));
    let want = Outcome { log, goose, ..DONE };
    let left = run_to(rt, alloc, &given(REPLAY, &settings, &capture), &want)?;
    let sent = sent_of(alloc, left.room.written(Slot::Goose))?;
    expect_runs(rt, &sent, row.want.runs);
    Ok(())
}

#[test]
fn faults_enter_the_zone_and_trip(rt: HostRuntime) -> Result<(), Fail> {
    for row in &ROWS {
        run_row(&rt, rt.alloc(), row, row.zone)?;
    }
    Ok(())
}

#[test]
fn both_parts_alike_are_one_zone(rt: HostRuntime) -> Result<(), Fail> {
    for row in &ROWS {
        if matches!(row.zone, Zone::Whole { delay_ms: 0 }) {
            run_row(&rt, rt.alloc(), row, BOTH_AT_ONCE)?;
        }
    }
    Ok(())
}

/// The newest frame of the zone's line over this capture, and the log.
fn newest(rt: &impl Abort, alloc: Global, spans: &[Span], log: &str) -> Result<Option<Sent>, Fail> {
    let settings = settings_of(alloc, ZONE, &[])?;
    let capture = signals_of(alloc, &SINGLE, spans)?;
    let left = run(alloc, &given(REPLAY, &settings, &capture))?;
    assert_eq!(rt; left.room.written(Slot::Log), log.as_bytes());
    let sent = sent_of(alloc, left.room.written(Slot::Goose))?;
    Ok(sent.last().copied())
}

/// Of the due times that a gap passed over one frame is sent. A trip that stands is good without a whole cycle.
#[test]
fn gaps_send_one_frame_and_leave_a_trip_good(rt: HostRuntime) -> Result<(), Fail> {
    let healthy = [(0, 10, Signal::Healthy), (700, 701, Signal::Healthy)];
    let frame = newest(&rt, rt.alloc(), &healthy, JUMP)?;
    let told = frame.map(|one| (one.nanos, one.state, one.sequence, one.live_ms));
    assert_eq!(rt; told, Some((145_833_333, 1, 1, 384)));
    let fault = [(0, 1000, Signal::Fault), (1003, 1004, Signal::Fault)];
    let frame = newest(&rt, rt.alloc(), &fault, GAP)?;
    let told = frame.map(|one| (one.nanos, one.state, one.trip, one.is_good));
    assert_eq!(rt; told, Some((208_958_333, 3, true, true)));
    Ok(())
}
