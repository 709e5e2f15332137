//! Studies: what runs over a capture in place of the relay, and words that ask for none.
use super::runs::{DONE, Inputs, Outcome, expect_no_calls, given, run_to};
use super::settings::USAGE;
use room_io::Slot;
use row_inputs::{GROUND_FAULT, SETTINGS, SINGLE, Signal, Span, ZONE, settings_of, signals_of};
use std::alloc::Global;
use std::process::Abort;
use std::test::Fail;

/// The current of a ground fault from the first sample on.
const FAULT: [Span; 1] = [(0, 2700, Signal::Fault)];

/// Words, the status, the note and the log over a capture of that fault.
type Row = (&'static str, u8, &'static str, &'static str);

static ROWS: [Row; 9] = [
    (
        "backup|s.toml|c.pcap|l|extremely|1000000|50",
        0,
        "",
        "L1 2024-01-01T00:00:00.019791666Z 95 backup A start
L1 2024-01-01T00:00:00.561041666Z 2693 backup A operate
",
    ),
    (
        "backup|s.toml|c.pcap|l|very|1000000|50",
        0,
        "",
        "L1 2024-01-01T00:00:00.019791666Z 95 backup A start
L1 2024-01-01T00:00:00.375625000Z 1803 backup A operate
",
    ),
    ("backup|s.toml|c.pcap|l|very|100000000|1500", 0, "", ""),
    (
        "backup|s.toml|none.pcap|l|very|1|25",
        6,
        "fault capture\n",
        "",
    ),
    (
        "backup|c.pcap|c.pcap|l|very|1|25",
        2,
        "settings refused 2 file\n",
        "",
    ),
    ("backup|s.toml|s.toml|l|very|1|25", 3, "not a capture\n", ""),
    ("locate|s.toml|c.pcap|l", 0, "", ""),
    ("locate|s.toml|none.pcap|l", 6, "fault capture\n", ""),
    ("guard|s.toml|c.pcap|l|10000|60000|600000", 0, "", ""),
];

/// Words that are no form.
static NO_FORMS: [&'static str; 21] = [
    "backup|s.toml|c.pcap|l|inverse|1|25",
    "backup|s.toml|c.pcap|l|Very|1|25",
    "backup|s.toml|c.pcap|l||1|25",
    "backup|s.toml|c.pcap|l|very|0|25",
    "backup|s.toml|c.pcap|l|very|100000001|25",
    "backup|s.toml|c.pcap|l|very|4294967297|25",
    "backup|s.toml|c.pcap|l|very|01|25",
    "backup|s.toml|c.pcap|l|very|+1|25",
    "backup|s.toml|c.pcap|l|very|1|24",
    "backup|s.toml|c.pcap|l|very|1|1501",
    "backup|s.toml|c.pcap|l|very|1|",
    "backup|s.toml|c.pcap|l|very|1",
    "backup|s.toml|c.pcap|g|l|very|1|25",
    "Backup|s.toml|c.pcap|l|very|1|25",
    "locate|s.toml|c.pcap",
    "locates|s.toml|c.pcap|l",
    "guard|s.toml|c.pcap|l|0|50|1000",
    "guard|s.toml|c.pcap|l|10001|50|1000",
    "guard|s.toml|c.pcap|l|150|60001|1000",
    "guard|s.toml|c.pcap|l|150|50|600001",
    "guard|s.toml|c.pcap|l|very|50|1000",
];

/// A call on another output than the log would fail and be counted.
fn run_row(rt: &impl Abort, alloc: Global, capture: &[u8], row: &Row) -> Result<(), Fail> {
    let (words, status, note, log) = *row;
    let fails = &[(Slot::Goose, 1), (Slot::Answer, 1)];
    let want = Outcome {
        status,
        note,
        log,
        ..DONE
    };
    let whole = given(words, SETTINGS, capture);
    let left = run_to(rt, alloc, &Inputs { fails, ..whole }, &want)?;
    expect_no_calls(rt, &left, &[Slot::Goose, Slot::Answer]);
    Ok(())
}

#[test]
fn a_study_writes_its_log_alone(rt: HostRuntime) -> Result<(), Fail> {
    let capture = signals_of(rt.alloc(), &SINGLE, &FAULT)?;
    for row in &ROWS {
        run_row(&rt, rt.alloc(), &capture, row)?;
    }
    Ok(())
}

#[test]
fn words_that_are_no_form_are_told_the_forms(rt: HostRuntime) -> Result<(), Fail> {
    let capture = signals_of(rt.alloc(), &SINGLE, &FAULT)?;
    for words in &NO_FORMS {
        run_row(&rt, rt.alloc(), &capture, &(*words, 1, USAGE, ""))?;
    }
    Ok(())
}

/// Lines of the settings and what stands for them, the signals and the log.
type Located<'a> = (&'a [(&'a str, &'a str)], &'a [Span], &'a str);

const WHOLE: [Span; 2] = [(0, 1464, Signal::Healthy), (1464, 1700, Signal::Fault)];

/// Without the numbers 1620 to 1622, a cycle behind the trip.
const LATE_CYCLE: [Span; 3] = [
    (0, 1464, Signal::Healthy),
    (1464, 1620, Signal::Fault),
    (1623, 1700, Signal::Fault),
];

/// Without the number 1400, in the two cycles before the trip.
const EARLY_GAP: [Span; 3] = [
    (0, 1400, Signal::Healthy),
    (1401, 1464, Signal::Healthy),
    (1464, 1700, Signal::Fault),
];

const STEADY: [Span; 1] = [(0, 2200, Signal::Fault)];

/// A ground fault that is gone for 35 samples, and then a three-phase fault.
const FLICKERING: [Span; 4] = [
    (0, 1464, Signal::Healthy),
    (1464, 1526, Signal::Fault),
    (1526, 1561, Signal::Healthy),
    (1561, 1800, Signal::Close),
];

const CLOSE: [Span; 2] = [(0, 1464, Signal::Healthy), (1464, 1702, Signal::Close)];

static LOCATED: [Located; 8] = [
    (
        &[],
        &WHOLE,
        "L1 2024-01-01T00:00:00.337708333Z 1621 locate AG 416 takagi 416\n",
    ),
    (
        &[],
        &LATE_CYCLE,
        "L1 2024-01-01T00:00:00.338125000Z 1623 locate AG none takagi none\n",
    ),
    (
        &[],
        &EARLY_GAP,
        "L1 2024-01-01T00:00:00.337708333Z 1621 locate AG 416 takagi none\n",
    ),
    // The trip comes in the first cycle.
    (
        &[],
        &STEADY,
        "L1 2024-01-01T00:00:00.039791666Z 191 locate AG 416 takagi none\n",
    ),
    // The current two cycles before the trip is that of the fault, since the zone waits for 400 ms.
    (
        &[("delay_ms = 0", "delay_ms = 400")],
        &STEADY,
        "L1 2024-01-01T00:00:00.439791666Z 2111 locate AG 416 takagi none\n",
    ),
    // 6.25 ohms are 6250 times the line's reactance.
    (
        &[("line_x = 15000", "line_x = 1")],
        &WHOLE,
        "L1 2024-01-01T00:00:00.337708333Z 1621 locate AG 1000000 takagi 1000000\n",
    ),
    // Trips at 1525, 1597 and 1618, each before a cycle is over behind the one before: only the last one is located.
    (
        &[
            ("trip_min_ms = 100", "trip_min_ms = 0"),
            ("open_i = 50000", "open_i = 100000000"),
            ("open_ms = 20", "open_ms = 1"),
        ],
        &FLICKERING,
        "L1 2024-01-01T00:00:00.357083333Z 1714 locate AB 0 takagi 0\n",
    ),
    // A three-phase fault at the line's beginning: BC is the first loop to operate.
    (
        &[],
        &CLOSE,
        "L1 2024-01-01T00:00:00.336875000Z 1617 locate BC 0 takagi 0\n",
    ),
];

#[test]
fn a_fault_is_located_a_cycle_behind_its_trip(rt: HostRuntime) -> Result<(), Fail> {
    let alloc = rt.alloc();
    for (changes, spans, log) in &LOCATED {
        let settings = settings_of(alloc, ZONE, changes)?;
        let capture = signals_of(alloc, &SINGLE, spans)?;
        let locate = given("locate|s.toml|c.pcap|l", &settings, &capture);
        run_to(&rt, alloc, &locate, &Outcome { log, ..DONE })?;
    }
    Ok(())
}

/// Words and the log over `GROUND_FAULT`.
static GUARDED: [(&'static str, &'static str); 3] = [
    (
        "guard|s.toml|c.pcap|l|150|300|1000",
        "L1 2024-01-01T00:00:00.467708333Z 2245 guard fail\n",
    ),
    (
        "guard|s.toml|c.pcap|l|600|50|1000",
        "L1 2024-01-01T00:00:00.961875000Z 4617 guard reclose\n",
    ),
    (
        "guard|s.toml|c.pcap|l|150|50|1000",
        "L1 2024-01-01T00:00:00.467708333Z 2245 guard fail\n",
    ),
];

#[test]
fn a_guard_tells_a_failure_or_recloses(rt: HostRuntime) -> Result<(), Fail> {
    let alloc = rt.alloc();
    let settings = settings_of(alloc, ZONE, &[])?;
    let capture = signals_of(alloc, &SINGLE, &GROUND_FAULT)?;
    for (words, log) in &GUARDED {
        let guard = given(words, &settings, &capture);
        run_to(&rt, alloc, &guard, &Outcome { log, ..DONE })?;
    }
    Ok(())
}
