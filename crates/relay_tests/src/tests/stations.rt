//! Two lines in one capture: what each tells is what it would tell alone.
use super::runs::{DONE, Outcome, REPLAY, given, run, run_to};
use super::sent::{part_of, sent_of};
use super::zones::{Run, expect_runs};
use drill::drill_text;
use room_io::{MemRoom, Slot};
use row_inputs::{
    LITTLE_MICROS, PAIR, SAMPLE_FRAME, SINGLE, Signal, Span, ZONE, data_of, head_of, put_record,
    put_set, settings_of, signals_of,
};
use std::alloc::{AllocError, Global};
use std::process::Abort;
use std::test::Fail;

/// The first line's ground fault; the second line stays healthy.
const SPANS: [Span; 2] = [(0, 1464, Signal::Healthy), (1464, 1700, Signal::Fault)];

/// What the first line tells, alone too.
const FIRST_LINE: &str = "L1 2024-01-01T00:00:00.000000000Z 0 first
L1 2024-01-01T00:00:00.019791666Z 95 ready
L1 2024-01-01T00:00:00.317708333Z 1525 zone 1 AG in
L1 2024-01-01T00:00:00.317708333Z 1525 zone 1 AG operate
L1 2024-01-01T00:00:00.317708333Z 1525 trip
";

const BOTH: &str = "L1 2024-01-01T00:00:00.000000000Z 0 first
L2 2024-01-01T00:00:00.000000000Z 0 first
L1 2024-01-01T00:00:00.019791666Z 95 ready
L2 2024-01-01T00:00:00.019791666Z 95 ready
L1 2024-01-01T00:00:00.317708333Z 1525 zone 1 AG in
L1 2024-01-01T00:00:00.317708333Z 1525 zone 1 AG operate
L1 2024-01-01T00:00:00.317708333Z 1525 trip
";

/// The same with a malformed frame before that of the samples 1000.
const WITH_MALFORMED: &str = "L1 2024-01-01T00:00:00.000000000Z 0 first
L2 2024-01-01T00:00:00.000000000Z 0 first
L1 2024-01-01T00:00:00.019791666Z 95 ready
L2 2024-01-01T00:00:00.019791666Z 95 ready
frame 1001 malformed count
L1 2024-01-01T00:00:00.317708333Z 1525 zone 1 AG in
L1 2024-01-01T00:00:00.317708333Z 1525 zone 1 AG operate
L1 2024-01-01T00:00:00.317708333Z 1525 trip
";

/// The frames of the first line, and those of the second.
const FAULTED: [Run; 3] = [
    (1, 0, 3, false, false, 0),
    (2, 95, 7, false, false, 0),
    (3, 1525, 4, true, true, 1),
];

const HEALTHY: [Run; 2] = [(1, 0, 3, false, false, 0), (2, 95, 7, false, false, 0)];

/// Where the last byte of the svID stands before the end of a sample set.
const LAST_OF_NAME: usize = 80;

/// Adds the record of a frame of the two units' sample sets with this counter, of MU01 and then of MU02, which is
/// healthy.
fn put_both(
    alloc: Global,
    capture: &mut Vec<u8>,
    signal: Signal,
    counter: u16,
) -> Result<(), AllocError> {
    let mut frame = head_of(alloc, &PAIR)?;
    for each in [signal, Signal::Healthy] {
        put_set(&mut frame, counter, &data_of(each, counter))?;
    }
    let at = frame.len().wrapping_sub(LAST_OF_NAME);
    if at < frame.len() {
        frame[at] = 0x32;
    }
    let captured = u32::try_from(frame.len()).unwrap_or(0);
    put_record(capture, false, &frame, captured)
}

/// A capture of frames of both lines' sample sets, with or without a malformed one before that of the samples 1000:
/// it says that it has two sample sets, and has one.
fn both_of(alloc: Global, has_malformed: bool) -> Result<Vec<u8>, AllocError> {
    let mut capture = Vec::new(alloc);
    capture.extend_from_slice(&LITTLE_MICROS)?;
    for (from, to, signal) in &SPANS {
        for counter in *from..*to {
            if has_malformed && counter == 1000 {
                let mut frame = SAMPLE_FRAME;
                frame[26] = 2;
                put_record(&mut capture, false, &frame, 116)?;
            }
            put_both(alloc, &mut capture, *signal, counter)?;
        }
    }
    Ok(capture)
}

/// The part of a GOOSE file with this control block reference, behind the file's header.
fn file_of(alloc: Global, room: &MemRoom, reference: &[u8]) -> Result<Vec<u8>, AllocError> {
    let mut file = Vec::new(alloc);
    file.extend_from_slice(&LITTLE_MICROS)?;
    let part = part_of(alloc, room.written(Slot::Goose), reference)?;
    file.extend_from_slice(&part)?;
    Ok(file)
}

/// Runs both lines: the log is this, the part of the first line is this, and the frames are those of both.
fn run_both(
    rt: &impl Abort,
    alloc: Global,
    capture: &[u8],
    log: &str,
    alone: &[u8],
) -> Result<(), Fail> {
    let left = run(alloc, &given(REPLAY, drill_text(), capture))?;
    assert_eq!(rt; left.status, 0);
    assert_eq!(rt; left.room.written(Slot::Log), log.as_bytes());
    let part = part_of(alloc, left.room.written(Slot::Goose), b"P1/LLN0$GO$G1")?;
    assert_eq!(rt; part.as_slice(), alone);
    let first = file_of(alloc, &left.room, b"P1/LLN0$GO$G1")?;
    expect_runs(rt, &sent_of(alloc, &first)?, &FAULTED);
    let second = file_of(alloc, &left.room, b"P1/LLN0$GO$G2")?;
    expect_runs(rt, &sent_of(alloc, &second)?, &HEALTHY);
    let records = left.room.written(Slot::Goose).len().wrapping_add(24);
    assert_eq!(rt; first.len().wrapping_add(second.len()), records);
    Ok(())
}

#[test]
fn a_line_beside_another_tells_what_it_tells_alone(rt: HostRuntime) -> Result<(), Fail> {
    let alloc = rt.alloc();
    let settings = settings_of(alloc, ZONE, &[])?;
    let capture = signals_of(alloc, &SINGLE, &SPANS)?;
    let alone = run(alloc, &given(REPLAY, &settings, &capture))?;
    assert_eq!(rt; alone.room.written(Slot::Log), FIRST_LINE.as_bytes());
    let part = part_of(alloc, alone.room.written(Slot::Goose), b"P1/LLN0$GO$G1")?;
    for (has_malformed, log) in [(false, BOTH), (true, WITH_MALFORMED)] {
        let capture = both_of(alloc, has_malformed)?;
        run_both(&rt, alloc, &capture, log, &part)?;
    }
    Ok(())
}

/// Two lines have no svID alike, so that a sample set has one owner at most.
#[test]
fn lines_share_no_sv_id(rt: HostRuntime) -> Result<(), Fail> {
    let alloc = rt.alloc();
    let accepted = Outcome {
        answer: "ok 2 lines 2 zones\n",
        ..DONE
    };
    let check = given("check|s.toml", drill_text(), &LITTLE_MICROS);
    run_to(&rt, alloc, &check, &accepted)?;
    let alike = drill_text().replacen(alloc, "MU02", "MU01", 1)?;
    let refused = Outcome {
        status: 2,
        note: "settings refused 9 line.2.sv_id\n",
        ..DONE
    };
    run_to(&rt, alloc, &given(REPLAY, &alike, &LITTLE_MICROS), &refused)?;
    Ok(())
}
