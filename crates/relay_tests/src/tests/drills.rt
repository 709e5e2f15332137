//! `drill`: the summary of an exercise of two lines, and words that ask for none.
use super::runs::{DONE, Inputs, Outcome, expect_no_calls, given, run_to};
use super::settings::USAGE;
use room_io::Slot;
use row_inputs::{LITTLE_MICROS, SETTINGS};
use std::alloc::Global;
use std::process::Abort;
use std::test::Fail;

/// Words, the status, the answer and the note. A plain program drew the words of the generator and made the frames, and
/// another replayed them. In each second a line is healthy, or a ground fault trips it, or two of its frames are
/// missing, or it has one bad sample.
type Row = (&'static str, u8, &'static str, &'static str);

static ROWS: [Row; 3] = [
    // Both lines are healthy.
    (
        "drill|0|1",
        0,
        "frames 4800 events 4 sends 22 trips 0\n",
        "",
    ),
    // The greatest seed: each line has a bad sample.
    (
        "drill|18446744073709551615|1",
        0,
        "frames 4800 events 8 sends 42 trips 0\n",
        "",
    ),
    // Missing frames and a bad sample, then missing frames and a fault, then a fault and missing frames.
    (
        "drill|7|3",
        0,
        "frames 14394 events 25 sends 100 trips 2\n",
        "",
    ),
];

/// Words that are no form.
static NO_FORMS: [&'static str; 11] = [
    "drill|18446744073709551616|1",
    "drill|7|0",
    "drill|7|601",
    "drill|7|4294967297",
    "drill|07|1",
    "drill|7|01",
    "drill|+7|1",
    "drill|-0|1",
    "drill|7|1 ",
    "drill||1",
    "drill|7a|1",
];

/// Every slot but the note and the answer.
const FILES: [Slot; 4] = [Slot::Settings, Slot::Capture, Slot::Goose, Slot::Log];

/// No input is opened, and no output but the answer: a call on one would fail and be counted.
fn run_row(rt: &impl Abort, alloc: Global, row: &Row) -> Result<(), Fail> {
    let (words, status, answer, note) = *row;
    let fails = &[
        (Slot::Settings, 1),
        (Slot::Capture, 1),
        (Slot::Goose, 1),
        (Slot::Log, 1),
    ];
    let want = Outcome {
        status,
        note,
        answer,
        ..DONE
    };
    let whole = given(words, SETTINGS, &LITTLE_MICROS);
    let left = run_to(rt, alloc, &Inputs { fails, ..whole }, &want)?;
    expect_no_calls(rt, &left, &FILES);
    Ok(())
}

#[test]
fn drills_tell_what_a_plain_program_counts(rt: HostRuntime) -> Result<(), Fail> {
    for row in &ROWS {
        run_row(&rt, rt.alloc(), row)?;
    }
    Ok(())
}

#[test]
fn words_that_are_no_form_are_told_the_forms(rt: HostRuntime) -> Result<(), Fail> {
    for words in &NO_FORMS {
        run_row(&rt, rt.alloc(), &(*words, 1, "", USAGE))?;
    }
    Ok(())
}

#[test]
fn a_drill_whose_answer_fails_leaves_none(rt: HostRuntime) -> Result<(), Fail> {
    let fails = &[(Slot::Answer, 1)];
    let want = Outcome {
        status: 6,
        note: "fault answer\n",
        ..DONE
    };
    let whole = given("drill|0|1", SETTINGS, &LITTLE_MICROS);
    run_to(&rt, rt.alloc(), &Inputs { fails, ..whole }, &want)?;
    Ok(())
}
