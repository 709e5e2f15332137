//! Settings that `check` accepts, and settings and words that are refused before an output is opened.
use super::runs::{DONE, Inputs, Outcome, REPLAY, given, run_to};
use room_io::Slot;
use row_inputs::{LITTLE_MICROS, SETTINGS, ZONE, settings_of};
use std::alloc::Global;
use std::process::Abort;
use std::test::Fail;

pub const USAGE: &str =
    "usage: relay replay SETTINGS CAPTURE GOOSE LOG or check SETTINGS or drill SEED SECONDS or backup SETTINGS CAPTURE LOG CURVE PICKUP TMS or locate SETTINGS CAPTURE LOG or guard SETTINGS CAPTURE LOG FAIL_MS DEAD_MS RECLAIM_MS or record SETTINGS CAPTURE LINE K CONFIG DATA\n";

const CHECK: &str = "check|s.toml";

/// A change that leaves a text as it is.
const SAME: (&str, &str) = ("", "");

const DELAYED: (&str, &str) = ("delay_ms = 0", "delay_ms = 400");

const NOTHING: (&str, &str) = (SETTINGS, "");

const REFUSED_RATE: &str = "settings refused 7 rate\n";

const NO_VERSION: &str = "settings refused 4 version\n";

/// The inner reach isn't within the outer one.
const SWING: &str = "[line.swing]
outer_r = 9000
outer_x = 9000
inner_r = 9000
inner_x = 8000
pass_ms = 40
max_ms = 2000
i2_share = 200

[line.goose]";

/// The words, the zones behind the settings, the first place of a text in these and what stands there instead, the
/// status, the answer and the note.
type Row = (
    &'static str,
    &'static str,
    (&'static str, &'static str),
    u8,
    &'static str,
    &'static str,
);

static ROWS: [Row; 13] = [
    (CHECK, "", SAME, 0, "ok 1 lines 0 zones\n", ""),
    (CHECK, ZONE, SAME, 0, "ok 1 lines 1 zones\n", ""),
    (CHECK, ZONE, DELAYED, 0, "ok 1 lines 1 zones\n", ""),
    (
        CHECK,
        "",
        ("", "colour = 1\n"),
        2,
        "",
        "settings refused 3 top\n",
    ),
    (
        CHECK,
        "",
        ("nominal = 50", "nominal = 16"),
        2,
        "",
        REFUSED_RATE,
    ),
    (
        CHECK,
        "",
        ("rate = 4800\nnominal = 50", "rate = 4000\nnominal = 60"),
        2,
        "",
        REFUSED_RATE,
    ),
    (
        CHECK,
        "",
        ("[line.goose]", SWING),
        2,
        "",
        "settings refused 11 line.1.swing.inner_r\n",
    ),
    (
        CHECK,
        "",
        ("version = 1", "version = 3"),
        2,
        "",
        "settings refused 6 version\n",
    ),
    (CHECK, "", NOTHING, 2, "", NO_VERSION),
    (REPLAY, "", NOTHING, 2, "", NO_VERSION),
    ("", "", SAME, 1, "", USAGE),
    ("check", "", SAME, 1, "", USAGE),
    ("check|none.toml", "", SAME, 6, "", "fault settings\n"),
];

fn run_row(rt: &impl Abort, alloc: Global, row: &Row) -> Result<(), Fail> {
    let (words, zones, change, status, answer, note) = *row;
    let settings = settings_of(alloc, zones, &[change])?;
    let want = Outcome {
        status,
        note,
        answer,
        ..DONE
    };
    run_to(rt, alloc, &given(words, &settings, &LITTLE_MICROS), &want)?;
    Ok(())
}

#[test]
fn settings_are_accepted_or_refused_by_number_and_key(rt: HostRuntime) -> Result<(), Fail> {
    for row in &ROWS {
        run_row(&rt, rt.alloc(), row)?;
    }
    Ok(())
}

/// The calls of `check`: three on the settings, of which the last finds their end, and one on the answer.
static CALLS: [((Slot, u64), &'static str); 4] = [
    ((Slot::Settings, 1), "fault settings\n"),
    ((Slot::Settings, 2), "fault settings\n"),
    ((Slot::Settings, 3), "fault settings\n"),
    ((Slot::Answer, 1), "fault answer\n"),
];

#[test]
fn each_failing_call_ends_the_check(rt: HostRuntime) -> Result<(), Fail> {
    for (call, note) in &CALLS {
        let status = 6;
        let want = Outcome {
            status,
            note,
            ..DONE
        };
        let fails = &[*call];
        let whole = given(CHECK, SETTINGS, &LITTLE_MICROS);
        run_to(&rt, rt.alloc(), &Inputs { fails, ..whole }, &want)?;
    }
    Ok(())
}
