//! The sample frame alone, and what stands after each failing call.
use super::captures::{FIRST, ONE_FRAME, ONE_SAMPLE, READY};
use super::parts::{Part, capture_of};
use super::runs::{
    DONE, Goose, Inputs, Left, Outcome, REPLAY, expect, expect_no_calls, given, run, run_to,
};
use super::settings::USAGE;
use room_io::{MemRoom, Slot};
use row_inputs::{LITTLE_MICROS, SETTINGS, SINGLE, Signal, Span, ZONE, settings_of, signals_of};
use std::alloc::Global;
use std::process::Abort;
use std::test::Fail;

/// A body that always answers that memory ran out meets the contract; no such body passes this test.
#[test]
fn always_out_of_memory_is_no_answer_to_a_sample(rt: HostRuntime) -> Result<(), Fail> {
    let alloc = rt.alloc();
    let capture = capture_of(alloc, &LITTLE_MICROS, &[(0, 1, &SINGLE, &[], 116)])?;
    let left = run(alloc, &given(REPLAY, SETTINGS, &capture))?;
    assert_ne!(rt; left.status, 7);
    expect(&rt, &left, &ONE_SAMPLE);
    assert_eq!(rt; FIRST.len(), 42);
    Ok(())
}

/// A slot, the note of its fault, and how many of a run's writes stand when its first, second and so on call fails.
/// There is no further call. Reads come in pieces of 3000 bytes, and a record has 132 behind a header of 24.
type Case = (Slot, &'static str, &'static [usize]);

/// A run: its words, what it leaves without a fault, its writes in their one order, with their lengths, and what stands
/// of them after each failing call. On the slots without a case no call comes.
struct Job {
    words: &'static str,
    log: &'static str,
    goose: usize,
    writes: &'static [(Slot, usize)],
    cases: &'static [Case],
}

/// Over 200 healthy records: the header, the first sample's line and its frame, the frames due at 20 and 58, readiness
/// at 95, and the frames at 95, 115 and 153.
static REPLAYED: Job = Job {
    words: REPLAY,
    log: READY,
    goose: 888,
    writes: &[
        (Slot::Goose, 24),
        (Slot::Log, 42),
        (Slot::Goose, 144),
        (Slot::Goose, 144),
        (Slot::Goose, 144),
        (Slot::Log, 43),
        (Slot::Goose, 144),
        (Slot::Goose, 144),
        (Slot::Goose, 144),
    ],
    cases: &[
        (Slot::Settings, "fault settings\n", &[0, 0, 0]),
        (
            Slot::Capture,
            "fault capture\n",
            &[0, 0, 4, 4, 5, 5, 7, 8, 9, 9, 9],
        ),
        (Slot::Goose, "fault goose\n", &[0, 0, 2, 3, 4, 6, 7, 8]),
        (Slot::Log, "fault log\n", &[0, 1, 5]),
        (Slot::Note, "", &[]),
        (Slot::Answer, "", &[]),
        (Slot::Config, "", &[]),
        (Slot::Data, "", &[]),
    ],
};

/// The phase starts at 95, drops at 130 and starts at 225.
static BACKED: Job = Job {
    words: "backup|s.toml|c.pcap|l|very|1000000|50",
    log: "L1 2024-01-01T00:00:00.019791666Z 95 backup A start
L1 2024-01-01T00:00:00.027083333Z 130 backup A drop
L1 2024-01-01T00:00:00.046875000Z 225 backup A start
",
    goose: 0,
    writes: &[(Slot::Log, 52), (Slot::Log, 52), (Slot::Log, 53)],
    cases: &[
        (Slot::Settings, "fault settings\n", &[0, 0, 0]),
        (
            Slot::Capture,
            "fault capture\n",
            &[0, 0, 0, 0, 0, 0, 1, 2, 2, 2, 2, 3],
        ),
        (Slot::Log, "fault log\n", &[0, 0, 1, 2]),
        (Slot::Goose, "", &[]),
        (Slot::Note, "", &[]),
        (Slot::Answer, "", &[]),
        (Slot::Config, "", &[]),
        (Slot::Data, "", &[]),
    ],
};

/// The trip rises at 95, and the current flows on: the hundred and first record is whole with the fifth read.
static GUARDED: Job = Job {
    words: "guard|s.toml|c.pcap|l|1|50|1000",
    log: "L1 2024-01-01T00:00:00.020833333Z 100 guard fail\n",
    goose: 0,
    writes: &[(Slot::Log, 49)],
    cases: &[
        (Slot::Settings, "fault settings\n", &[0, 0, 0]),
        (Slot::Capture, "fault capture\n", &[0, 0, 0, 0, 0, 0, 1, 1]),
        (Slot::Log, "fault log\n", &[0, 0]),
        (Slot::Goose, "", &[]),
        (Slot::Note, "", &[]),
        (Slot::Answer, "", &[]),
        (Slot::Config, "", &[]),
        (Slot::Data, "", &[]),
    ],
};

/// How many bytes these writes are of an output.
fn long_at(writes: &[(Slot, usize)], output: Slot) -> usize {
    let mut bytes: usize = 0;
    for (slot, count) in writes {
        if *slot == output {
            bytes = bytes.wrapping_add(*count);
        }
    }
    bytes
}

/// Runs the job with these calls failing, if there are such calls.
fn run_failing(
    alloc: Global,
    job: &Job,
    inputs: (&str, &[u8]),
    fails: &[(Slot, u64)],
) -> Result<Left, Fail> {
    let whole = given(job.words, inputs.0, inputs.1);
    let most = 3000;
    run(
        alloc,
        &Inputs {
            most,
            fails,
            ..whole
        },
    )
}

/// Whether both files hold these writes of the run without a fault, and no more.
fn expect_front(rt: &impl Abort, left: &Left, whole: &MemRoom, writes: &[(Slot, usize)]) {
    let told = left.told.as_str();
    let goose = whole
        .written(Slot::Goose)
        .get(..long_at(writes, Slot::Goose));
    assert_eq!(rt; Some(left.room.written(Slot::Goose)), goose, "{told}");
    let log = whole.written(Slot::Log).get(..long_at(writes, Slot::Log));
    assert_eq!(rt; Some(left.room.written(Slot::Log)), log, "{told}");
}

/// Runs the job with each call of a slot failing in turn, and with one beyond.
fn run_case(
    rt: &impl Abort,
    alloc: Global,
    job: &Job,
    inputs: (&str, &[u8]),
    whole: &MemRoom,
    case: &Case,
) -> Result<(), Fail> {
    let (slot, note, standing) = *case;
    let mut call: u64 = 1;
    for writes in standing {
        let left = run_failing(alloc, job, inputs, &[(slot, call)])?;
        let told = left.told.as_str();
        assert_eq!(rt; (left.status, left.room.faults(slot)), (6, 1), "{told}");
        assert_eq!(rt; left.room.written(Slot::Note), note.as_bytes(), "{told}");
        expect_front(rt, &left, whole, job.writes.get(..*writes).unwrap_or(&[]));
        call = call.wrapping_add(1);
    }
    let left = run_failing(alloc, job, inputs, &[(slot, call)])?;
    let told = left.told.as_str();
    assert_eq!(rt; (left.status, left.room.faults(slot)), (0, 0), "{told}");
    expect_front(rt, &left, whole, job.writes);
    Ok(())
}

/// Runs the job without a fault, and with each call of each slot failing in turn.
fn run_job(rt: &impl Abort, alloc: Global, job: &Job, inputs: (&str, &[u8])) -> Result<(), Fail> {
    let whole = run_failing(alloc, job, inputs, &[])?;
    let (log, goose) = (job.log, Goose::IsLong(job.goose));
    expect(rt, &whole, &Outcome { log, goose, ..DONE });
    for case in job.cases {
        run_case(rt, alloc, job, inputs, &whole.room, case)?;
    }
    Ok(())
}

#[test]
fn each_failing_call_ends_the_run(rt: HostRuntime) -> Result<(), Fail> {
    let capture = capture_of(rt.alloc(), &LITTLE_MICROS, &[(0, 200, &SINGLE, &[], 116)])?;
    run_job(&rt, rt.alloc(), &REPLAYED, (SETTINGS, capture.as_slice()))
}

/// The fault, ten missing samples, and the fault again.
const BROKEN: [Span; 2] = [(0, 120, Signal::Fault), (130, 230, Signal::Fault)];

#[test]
fn each_failing_call_ends_the_backup(rt: HostRuntime) -> Result<(), Fail> {
    let capture = signals_of(rt.alloc(), &SINGLE, &BROKEN)?;
    run_job(&rt, rt.alloc(), &BACKED, (SETTINGS, capture.as_slice()))
}

#[test]
fn each_failing_call_ends_the_guard(rt: HostRuntime) -> Result<(), Fail> {
    let settings = settings_of(rt.alloc(), ZONE, &[])?;
    let capture = signals_of(rt.alloc(), &SINGLE, &[(0, 130, Signal::Fault)])?;
    let inputs = (settings.as_str(), capture.as_slice());
    run_job(&rt, rt.alloc(), &GUARDED, inputs)
}

/// Words, a call that is to fail, the status and the note. All runs stop before an output is opened.
type Early = (&'static str, (Slot, u64), u8, &'static str);

static EARLY: [Early; 5] = [
    (REPLAY, (Slot::Settings, 2), 6, "fault settings\n"),
    (
        "replay|none.toml|c.pcap|g|l",
        (Slot::Capture, 1),
        6,
        "fault settings\n",
    ),
    (
        "replay|s.toml|none.pcap|g|l",
        (Slot::Answer, 1),
        6,
        "fault capture\n",
    ),
    ("", (Slot::Settings, 1), 1, USAGE),
    ("", (Slot::Note, 1), 1, ""),
];

/// The first call on each output is to fail too: it would be counted, and it would be an opening.
#[test]
fn outputs_are_opened_behind_all_inputs(rt: HostRuntime) -> Result<(), Fail> {
    for (words, call, status, note) in &EARLY {
        let fails = &[*call, (Slot::Goose, 1), (Slot::Log, 1)];
        let status = *status;
        let want = Outcome {
            status,
            note,
            ..DONE
        };
        let whole = given(words, SETTINGS, &LITTLE_MICROS);
        let left = run_to(&rt, rt.alloc(), &Inputs { fails, ..whole }, &want)?;
        expect_no_calls(&rt, &left, &[Slot::Goose, Slot::Log]);
    }
    Ok(())
}

/// The samples 0 and 2.
static TWO: [Part; 2] = [(0, 1, &SINGLE, &[], 116), (2, 3, &SINGLE, &[], 116)];

/// The space of each output, the note, and how much of the GOOSE file and of the log stands: a write that
/// finds too little space fills it, and the log's line is written before the frame of its sample.
static SPACES: [(usize, &'static str, usize, usize); 2] = [
    (100, "fault goose\n", 100, 42),
    (40, "fault log\n", 24, 40),
];

#[test]
fn outputs_without_space_hold_what_fits(rt: HostRuntime) -> Result<(), Fail> {
    let capture = capture_of(rt.alloc(), &LITTLE_MICROS, &TWO)?;
    for (space, note, goose, log) in &SPACES {
        let space = *space;
        let want = Outcome {
            status: 6,
            note,
            answer: "",
            log: FIRST.get(..*log).unwrap_or(""),
            goose: Goose::Is(ONE_FRAME.get(..*goose).unwrap_or(&[])),
        };
        let whole = given(REPLAY, SETTINGS, &capture);
        run_to(&rt, rt.alloc(), &Inputs { space, ..whole }, &want)?;
    }
    Ok(())
}
