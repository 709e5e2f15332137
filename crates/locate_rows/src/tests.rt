//! Rows of sample sets with the lines that they bring.
ghost use Rattle.std.specs.Prelude.{◌≡◌, ◌<◌};

use fault_locate::{Locators, print_located};
use relay_num::{Steps, open_steps};
use row_inputs::{ZONE, data_set, sample_set, settings_of, wave_value};
use settings_read::read_settings;
use std::alloc::{AllocError, Global};
use std::marker::Brand;
use std::sync::ledger::{Blank, Ledger};
use std::test::Fail;

/// Lines of the settings, and what stands for them.
type Changes = &'static [(&'static str, &'static str)];

/// 15 ohms of reactance, and a circle that looks forward.
const FORWARD: Changes = &[];

/// With some resistance beside the reactance.
const RESISTANCE: Changes = &[("line_r = 0", "line_r = 1500")];

/// The least reactance.
const LEAST: Changes = &[("line_x = 15000", "line_x = 1")];

/// What makes a quadrilateral of the zone that looks both ways.
const QUAD: (&str, &str) = (
    "shape = \"mho\"\ndir = \"forward\"\nreach_r = 0\n",
    "shape = \"quad\"\ndir = \"none\"\nreach_r = 20000\ntilt = 0\nslope = 0\nback_x = 12500\n",
);

const BOTH_WAYS: Changes = &[QUAD];

const LEAST_BOTH_WAYS: Changes = &[("line_x = 15000", "line_x = 1"), QUAD];

/// The counters from the first on to before the second: IA and UA, each as multiples of the sine and of the cosine
/// table, and the quality word of IA. UB and UC are sound.
type Span = (u16, u16, [i32; 4], u32);

/// What differs in the settings, the sample sets and the log.
struct Row {
    changes: Changes,
    spans: &'static [Span],
    log: &'static str,
}

const SOUND: [i32; 4] = [0, 0, 0, 500];

const FAULT: [i32; 4] = [250, 0, 0, 250];

/// The data set.
fn data_of(counter: u16, span: &Span) -> [u8; 64] {
    let (_, _, [ia_sine, ia_cosine, ua_sine, ua_cosine], quality) = *span;
    data_set(&[
        (wave_value(96, counter, 0, ia_sine, ia_cosine), quality),
        (0, 0),
        (0, 0),
        (0, 0),
        (wave_value(96, counter, 0, ua_sine, ua_cosine), 0),
        (wave_value(96, counter, 64, 0, 500), 0),
        (wave_value(96, counter, 32, 0, 500), 0),
        (0, 0),
    ])
}

/// Appends what the sample set with this counter brings.
fn hear_one<L: Ledger>(
    locators: &mut Locators,
    steps: &mut Steps<L>,
    counter: u16,
    span: &Span,
    log: &mut Vec<u8>,
) -> Result<(), AllocError> {
    if locators.heard() >= 1 << 40 {
        return Ok(());
    }
    let data = data_of(counter, span);
    let told = locators.hear(&sample_set(b"MU01", counter, &data), steps);
    if let Some((_, Some(located))) = told {
        log.extend_from_slice(print_located(b"L1", &located).as_slice())?;
    }
    Ok(())
}

/// What the locators tell of these sample sets.
fn log_of<L: Ledger>(alloc: Global, row: &Row, blank: Blank) -> Result<Vec<u8>, Fail>
    requires name { blank.name ≡ L.name }
    requires parts { blank.parts ≡ L.parts }
    requires shares { 0 < blank.parts }
{
    let settings = read_settings(alloc, settings_of(alloc, ZONE, row.changes)?.as_bytes())?;
    let mut steps = open_steps::<L>(blank);
    let mut locators = Locators::new(alloc, &settings, ())?;
    let mut log = Vec::new(alloc);
    for span in row.spans {
        for counter in span.0..span.1 {
            hear_one(&mut locators, &mut steps, counter, span, &mut log)?;
        }
    }
    Ok(log)
}

/// A fault at half of the zone's reach, from 1464 on.
const HALF: [Span; 2] = [(0, 1464, SOUND, 0), (1464, 1700, FAULT, 0)];

/// The same, and the sample set a cycle behind the trip is missing.
const ONE_MISSING: [Span; 3] = [
    (0, 1464, SOUND, 0),
    (1464, 1620, FAULT, 0),
    (1623, 1700, FAULT, 0),
];

/// Load before a fault over some resistance.
const LOADED: [Span; 2] = [
    (0, 1464, [0, 40, 0, 500], 0),
    (1464, 1700, [240, 90, 60, 250], 0),
];

/// A fault from the start, with no current before it.
const FROM_THE_START: [Span; 1] = [(0, 300, FAULT, 0)];

/// A sample set missing within the two cycles before the trip.
const MISSING_BEFORE: [Span; 3] = [
    (0, 1390, SOUND, 0),
    (1391, 1464, SOUND, 0),
    (1464, 1700, FAULT, 0),
];

/// A bad sample within the cycle behind the trip.
const ONE_BAD: [Span; 4] = [
    (0, 1464, SOUND, 0),
    (1464, 1600, FAULT, 0),
    (1600, 1601, FAULT, 1),
    (1601, 1800, FAULT, 0),
];

/// A fault behind the relay.
const BEHIND: [Span; 2] = [(0, 1464, SOUND, 0), (1464, 1700, [-250, 0, 0, 250], 0)];

static ROWS: [Row; 9] = [
    Row {
        changes: FORWARD,
        spans: &HALF,
        log: "L1 2024-01-01T00:00:00.337708333Z 1621 locate AG 416 takagi 416\n",
    },
    Row {
        changes: FORWARD,
        spans: &ONE_MISSING,
        log: "L1 2024-01-01T00:00:00.338125000Z 1623 locate AG none takagi none\n",
    },
    Row {
        changes: RESISTANCE,
        spans: &LOADED,
        log: "L1 2024-01-01T00:00:00.338541666Z 1625 locate AG 346 takagi 376\n",
    },
    Row {
        changes: FORWARD,
        spans: &FROM_THE_START,
        log: "L1 2024-01-01T00:00:00.039791666Z 191 locate AG 416 takagi none\n",
    },
    Row {
        changes: FORWARD,
        spans: &MISSING_BEFORE,
        log: "L1 2024-01-01T00:00:00.337708333Z 1621 locate AG 416 takagi none\n",
    },
    Row {
        changes: FORWARD,
        spans: &ONE_BAD,
        log: "L1 2024-01-01T00:00:00.337708333Z 1621 locate AG none takagi none\n",
    },
    Row {
        changes: LEAST,
        spans: &HALF,
        log: "L1 2024-01-01T00:00:00.337708333Z 1621 locate AG 1000000 takagi 1000000\n",
    },
    Row {
        changes: BOTH_WAYS,
        spans: &BEHIND,
        log: "L1 2024-01-01T00:00:00.337500000Z 1620 locate AG -417 takagi -417\n",
    },
    Row {
        changes: LEAST_BOTH_WAYS,
        spans: &BEHIND,
        log: "L1 2024-01-01T00:00:00.337500000Z 1620 locate AG -1000000 takagi -1000000\n",
    },
];

#[test]
fn faults_are_located(rt: HostRuntime) -> Result<(), Fail> {
    for row in &ROWS {
        let log = log_of::<Brand>(rt.alloc(), row, Blank::new(1))?;
        assert_eq!(rt; log.as_slice(), row.log.as_bytes());
    }
    Ok(())
}
