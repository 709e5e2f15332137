//! The record of a line's trip: the pair of files, its words, and what stands after each failing call.
use super::runs::{DONE, Inputs, Left, Outcome, expect_no_calls, given, run, run_to};
use super::settings::USAGE;
use room_io::{MemRoom, Slot};
use row_inputs::{CONFIG, GROUND_FAULT, SINGLE, Signal, Span, ZONE, settings_of, signals_of};
use std::alloc::Global;
use std::process::Abort;
use std::test::Fail;

/// Room for each output, in bytes.
const SPACE: usize = 60_000;

/// The first of the lines of a text, so many.
fn front_of(text: &[u8], count: usize) -> &[u8] {
    let mut seen: usize = 0;
    for (at, byte) in text.iter().enumerate() {
        if seen == count {
            return text.get(..at).unwrap_or(&[]);
        }
        if *byte == b'\n' {
            seen = seen.wrapping_add(1);
        }
    }
    text
}

/// Whether a text goes on with this behind so many lines.
fn goes_on(text: &[u8], count: usize, line: &str) -> bool {
    let start = front_of(text, count).len();
    text.get(start..start.saturating_add(line.len())) == Some(line.as_bytes())
}

/// The record of the first trip of L1.
const RECORD: &str = "record|s.toml|c.pcap|L1|1|c|d";

/// Lines of the data, behind so many before them.
const LINES: [(usize, &str); 3] = [
    (0, "1,0,0,0,0,6159000,-7757500,1598000,1,0\r\n"),
    (
        192,
        "193,40000,-2700750,0,0,3079500,-7757500,1598000,1,1\r\n",
    ),
    (576, "577,120000,"),
];

#[test]
fn a_trip_is_recorded_as_a_pair_of_files(rt: HostRuntime) -> Result<(), Fail> {
    let alloc = rt.alloc();
    let settings = settings_of(alloc, ZONE, &[])?;
    let capture = signals_of(alloc, &SINGLE, &GROUND_FAULT)?;
    let whole = given(RECORD, &settings, &capture);
    let space = SPACE;
    let left = run_to(&rt, alloc, &Inputs { space, ..whole }, &DONE)?;
    assert_eq!(rt; left.room.written(Slot::Config), CONFIG.as_bytes());
    let values = left.room.written(Slot::Data);
    for (count, line) in LINES {
        assert!(rt; goes_on(values, count, line), "{count}");
    }
    assert_eq!(rt; front_of(values, 577).len(), values.len().wrapping_sub(1));
    assert_eq!(rt; values.last().copied(), Some(0x1a));
    Ok(())
}

/// Words, the status and the note. No output is opened.
type Row = (&'static str, u8, &'static str);

static ROWS: [Row; 16] = [
    (
        "record|s.toml|c.pcap|L1|2|c|d",
        9,
        "no such trip, 1 trips\n",
    ),
    (
        "record|s.toml|c.pcap|L1|1000000|c|d",
        9,
        "no such trip, 1 trips\n",
    ),
    ("record|s.toml|none.pcap|L9|1|c|d", 10, "no such line\n"),
    ("record|s.toml|none.pcap|L|1|c|d", 10, "no such line\n"),
    ("record|s.toml|none.pcap||1|c|d", 10, "no such line\n"),
    ("record|s.toml|none.pcap|L1|1|c|d", 6, "fault capture\n"),
    (
        "record|c.pcap|c.pcap|L9|1|c|d",
        2,
        "settings refused 2 file\n",
    ),
    ("record|s.toml|s.toml|L1|1|c|d", 3, "not a capture\n"),
    ("record|s.toml|c.pcap|L1|0|c|d", 1, USAGE),
    ("record|s.toml|c.pcap|L1|1000001|c|d", 1, USAGE),
    ("record|s.toml|c.pcap|L1|4294967297|c|d", 1, USAGE),
    ("record|s.toml|c.pcap|L1|01|c|d", 1, USAGE),
    ("record|s.toml|c.pcap|L1|+1|c|d", 1, USAGE),
    ("record|s.toml|c.pcap|L1|1|c", 1, USAGE),
    ("record|s.toml|c.pcap|L1|1|c|d|e", 1, USAGE),
    ("Record|s.toml|c.pcap|L1|1|c|d", 1, USAGE),
];

/// The trip comes at 95, as soon as a cycle is over.
const SHORT: [Span; 1] = [(0, 220, Signal::Fault)];

/// Every output but the note.
const OUTPUTS: [Slot; 5] = [
    Slot::Goose,
    Slot::Log,
    Slot::Config,
    Slot::Data,
    Slot::Answer,
];

/// A call on an output would fail and be counted.
fn run_row(
    rt: &impl Abort,
    alloc: Global,
    settings: &str,
    capture: &[u8],
    row: &Row,
) -> Result<(), Fail> {
    let (words, status, note) = *row;
    let fails = &[
        (Slot::Goose, 1),
        (Slot::Log, 1),
        (Slot::Config, 1),
        (Slot::Data, 1),
        (Slot::Answer, 1),
    ];
    let want = Outcome {
        status,
        note,
        ..DONE
    };
    let whole = given(words, settings, capture);
    let left = run_to(rt, alloc, &Inputs { fails, ..whole }, &want)?;
    expect_no_calls(rt, &left, &OUTPUTS);
    Ok(())
}

#[test]
fn without_the_trip_no_output_is_opened(rt: HostRuntime) -> Result<(), Fail> {
    let alloc = rt.alloc();
    let settings = settings_of(alloc, ZONE, &[])?;
    let capture = signals_of(alloc, &SINGLE, &SHORT)?;
    for row in &ROWS {
        run_row(&rt, alloc, &settings, &capture, row)?;
    }
    Ok(())
}

/// A slot, the note of its fault, and how many calls of it there are. Reads come in pieces of 3000 bytes; the record has
/// 220 lines of data.
type Case = (Slot, &'static str, u64);

static CASES: [Case; 8] = [
    (Slot::Settings, "fault settings\n", 3),
    (Slot::Capture, "fault capture\n", 12),
    (Slot::Config, "fault config\n", 18),
    (Slot::Data, "fault data\n", 221),
    // No call comes on these.
    (Slot::Goose, "", 0),
    (Slot::Log, "", 0),
    (Slot::Note, "", 0),
    (Slot::Answer, "", 0),
];

/// Runs `record` with this call failing, if there is such a call.
fn run_failing(
    alloc: Global,
    settings: &str,
    capture: &[u8],
    fails: &[(Slot, u64)],
) -> Result<Left, Fail> {
    let whole = given(RECORD, settings, capture);
    let (space, most) = (SPACE, 3000);
    run(
        alloc,
        &Inputs {
            space,
            most,
            fails,
            ..whole
        },
    )
}

/// How many lines of the configuration and of the data stand where this call fails. The first call of an output opens it, and
/// both are opened before a line is written.
fn standing(slot: Slot, call: u64) -> (usize, usize) {
    let written = call.saturating_sub(2) as usize;
    match slot {
        Slot::Config => (written, 0),
        Slot::Data if call > 1 => (17, written),
        _ => (0, 0),
    }
}

/// Whether both files hold so many lines of the run without a fault, and no more.
fn expect_lines(rt: &impl Abort, left: &Left, whole: &MemRoom, (config, values): (usize, usize)) {
    let told = left.told.as_str();
    assert_eq!(rt;
        left.room.written(Slot::Config),
        front_of(whole.written(Slot::Config), config),
        "{told}"
    );
    assert_eq!(rt;
        left.room.written(Slot::Data),
        front_of(whole.written(Slot::Data), values),
        "{told}"
    );
}

/// Runs `record` with each call of a slot failing in turn, and with one beyond.
fn run_case(
    rt: &impl Abort,
    alloc: Global,
    settings: &str,
    capture: &[u8],
    whole: &MemRoom,
    case: &Case,
) -> Result<(), Fail> {
    let (slot, note, calls) = *case;
    for before in 0..calls {
        let call = before.wrapping_add(1);
        let left = run_failing(alloc, settings, capture, &[(slot, call)])?;
        let told = left.told.as_str();
        assert_eq!(rt; (left.status, left.room.faults(slot)), (6, 1), "{told}");
        assert_eq!(rt; left.room.written(Slot::Note), note.as_bytes(), "{told}");
        expect_lines(rt, &left, whole, standing(slot, call));
    }
    let beyond = calls.wrapping_add(1);
    let left = run_failing(alloc, settings, capture, &[(slot, beyond)])?;
    let told = left.told.as_str();
    assert_eq!(rt; (left.status, left.room.faults(slot)), (0, 0), "{told}");
    expect_lines(rt, &left, whole, (usize::MAX, usize::MAX));
    Ok(())
}

#[test]
fn each_failing_call_ends_the_record(rt: HostRuntime) -> Result<(), Fail> {
    let alloc = rt.alloc();
    let settings = settings_of(alloc, ZONE, &[])?;
    let capture = signals_of(alloc, &SINGLE, &SHORT)?;
    let whole = run_failing(alloc, &settings, &capture, &[])?;
    let times = "4800,220\r\n01/01/2024,00:00:00.000000\r\n01/01/2024,00:00:00.019791\r\n";
    assert!(rt; goes_on(whole.room.written(Slot::Config), 12, times));
    for case in &CASES {
        run_case(&rt, alloc, &settings, &capture, &whole.room, case)?;
    }
    Ok(())
}
