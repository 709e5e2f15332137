//! Rows of sample sets with the log lines that they bring.
ghost use Rattle.std.specs.Prelude.{◌≡◌, ◌<◌, ◌⊎◌};
ghost use Rattle.inverse_time.specs.InverseCurves.{IsDial, dial_of};

use inverse_time::{Backups, Curve, Dial, multiple, print_backup};
use relay_num::{Cx, Steps, open_steps};
use row_inputs::{LINES, ZONE, data_set, sample_set, settings_of, sixteen_lines, wave_value};
use settings_read::read_settings;
use std::alloc::{AllocError, Global};
use std::marker::Brand;
use std::process::Abort;
use std::sync::ledger::{Blank, Ledger};
use std::test::Fail;

/// The counters from the first on to before the second: the currents of A, B and C as multiples of the sine table,
/// and the quality word of IA.
type Span = (u16, u16, [i32; 3], u32);

/// The curve, the pickup in mA, the time multiplier in thousandths, the sample sets and the log.
struct Row {
    curve: Curve,
    pickup: u32,
    tms: u32,
    spans: &'static [Span],
    log: &'static str,
}

/// The data set of these multiples of a sine table with `n` places, with no voltage.
fn data_of(n: u32, counter: u16, scales: [i32; 3], quality: u32) -> [u8; 64]
    requires { (n ≡ 80) ⊎ (n ≡ 96) }
{
    let [a, b, c] = scales;
    let none = (0, 0);
    data_set(&[
        (wave_value(n, counter, 0, a, 0), quality),
        (wave_value(n, counter, 0, b, 0), 0),
        (wave_value(n, counter, 0, c, 0), 0),
        none,
        none,
        none,
        none,
        none,
    ])
}

/// Appends what the sample set of this svID with this counter brings to the line of this name.
fn hear_one<L: Ledger>(
    backups: &mut Backups,
    steps: &mut Steps<L>,
    (sv_id, name): (&[u8], &[u8]),
    counter: u16,
    data: &[u8; 64],
    log: &mut Vec<u8>,
) -> Result<(), AllocError> {
    if backups.heard() >= 1 << 40 || name.len() > 16 {
        return Ok(());
    }
    if let Some((_, events)) = backups.hear(&sample_set(sv_id, counter, data), steps) {
        for event in events.as_slice() {
            log.extend_from_slice(print_backup(name, event).as_slice())?;
        }
    }
    Ok(())
}

/// What the elements tell of these sample sets.
fn log_of<L: Ledger>(alloc: Global, row: &Row, blank: Blank) -> Result<Vec<u8>, Fail>
    requires dial { IsDial (dial_of row.now.curve row.now.pickup row.now.tms) }
    requires name { blank.name ≡ L.name }
    requires parts { blank.parts ≡ L.parts }
    requires shares { 0 < blank.parts }
{
    let settings = read_settings(alloc, settings_of(alloc, ZONE, &[])?.as_bytes())?;
    let mut steps = open_steps::<L>(blank);
    let dial = Dial {
        curve: row.curve,
        pickup: row.pickup,
        tms: row.tms,
    };
    let mut backups = Backups::new(alloc, &settings, dial)?;
    let mut log = Vec::new(alloc);
    for span in row.spans {
        for counter in span.0..span.1 {
            let data = data_of(96, counter, span.2, span.3);
            hear_one(
                &mut backups,
                &mut steps,
                (b"MU01", b"L1"),
                counter,
                &data,
                &mut log,
            )?;
        }
    }
    Ok(log)
}

#[test]
fn square_of_the_multiple(rt: HostRuntime) -> Result<(), Fail> {
    let p = Cx {
        re: 0,
        im: -6_143_991,
    };
    assert_eq!(rt; multiple(p, 96, 1_000_000), 8_388_583);
    Ok(())
}

/// Phase A at 2.9 times the pickup from the start.
const STEADY: [Span; 1] = [(0, 2700, [250, 0, 0], 0)];

/// A gap of 50 samples, no current from 1900 on, and the current again from 2100 on.
const BROKEN: [Span; 4] = [
    (0, 400, [250, 0, 0], 0),
    (450, 1900, [250, 0, 0], 0),
    (1900, 2100, [0, 0, 0], 0),
    (2100, 2300, [250, 0, 0], 0),
];

/// One sample of bad quality.
const ONE_BAD: [Span; 3] = [
    (0, 600, [250, 0, 0], 0),
    (600, 601, [250, 0, 0], 1),
    (601, 2100, [250, 0, 0], 0),
];

/// The three phases one after the other, the last the largest.
const THREE: [Span; 4] = [
    (0, 200, [0, 0, 0], 0),
    (200, 400, [250, 0, 0], 0),
    (400, 600, [250, 300, 0], 0),
    (600, 1300, [250, 300, 900], 0),
];

static ROWS: [Row; 7] = [
    Row {
        curve: Curve::Extremely,
        pickup: 1_000_000,
        tms: 50,
        spans: &STEADY,
        log: "L1 2024-01-01T00:00:00.019791666Z 95 backup A start
L1 2024-01-01T00:00:00.561041666Z 2693 backup A operate
",
    },
    Row {
        curve: Curve::Very,
        pickup: 1_000_000,
        tms: 50,
        spans: &STEADY,
        log: "L1 2024-01-01T00:00:00.019791666Z 95 backup A start
L1 2024-01-01T00:00:00.375625000Z 1803 backup A operate
",
    },
    Row {
        curve: Curve::Extremely,
        pickup: 1_000_000,
        tms: 25,
        spans: &BROKEN,
        log: "L1 2024-01-01T00:00:00.019791666Z 95 backup A start
L1 2024-01-01T00:00:00.093750000Z 450 backup A drop
L1 2024-01-01T00:00:00.113541666Z 545 backup A start
L1 2024-01-01T00:00:00.384166666Z 1844 backup A operate
L1 2024-01-01T00:00:00.411041666Z 1973 backup A drop
L1 2024-01-01T00:00:00.445416666Z 2138 backup A start
",
    },
    Row {
        curve: Curve::Extremely,
        pickup: 1_000_000,
        tms: 25,
        spans: &ONE_BAD,
        log: "L1 2024-01-01T00:00:00.019791666Z 95 backup A start
L1 2024-01-01T00:00:00.125000000Z 600 backup A drop
L1 2024-01-01T00:00:00.145000000Z 696 backup A start
L1 2024-01-01T00:00:00.415625000Z 1995 backup A operate
",
    },
    Row {
        curve: Curve::Very,
        pickup: 1_000_000,
        tms: 25,
        spans: &THREE,
        log: "L1 2024-01-01T00:00:00.045833333Z 220 backup A start
L1 2024-01-01T00:00:00.086250000Z 414 backup B start
L1 2024-01-01T00:00:00.125833333Z 604 backup C start
L1 2024-01-01T00:00:00.171250000Z 822 backup C operate
L1 2024-01-01T00:00:00.230833333Z 1108 backup B operate
L1 2024-01-01T00:00:00.231250000Z 1110 backup A operate
",
    },
    Row {
        curve: Curve::Extremely,
        pickup: 1,
        tms: 1500,
        spans: &STEADY,
        log: "L1 2024-01-01T00:00:00.019791666Z 95 backup A start
L1 2024-01-01T00:00:00.320416666Z 1538 backup A operate
",
    },
    Row {
        curve: Curve::Very,
        pickup: 100_000_000,
        tms: 1500,
        spans: &STEADY,
        log: "",
    },
];

#[test]
fn curves_reach_their_times(rt: HostRuntime) -> Result<(), Fail> {
    for row in &ROWS {
        assert!(rt; row.pickup >= 1 && row.pickup <= 100_000_000);
        assert!(rt; row.tms >= 25 && row.tms <= 1500);
        let log = log_of::<Brand>(rt.alloc(), row, Blank::new(1))?;
        assert_eq!(rt; log.as_slice(), row.log.as_bytes());
    }
    Ok(())
}

/// At 4000 samples a second, 80 a cycle: phase A at 2.9 times the pickup from the start.
fn log_at_4000<L: Ledger>(alloc: Global, curve: Curve, blank: Blank) -> Result<Vec<u8>, Fail>
    requires name { blank.name ≡ L.name }
    requires parts { blank.parts ≡ L.parts }
    requires shares { 0 < blank.parts }
{
    let text = settings_of(alloc, ZONE, &[("rate = 4800", "rate = 4000")])?;
    let settings = read_settings(alloc, text.as_bytes())?;
    let mut steps = open_steps::<L>(blank);
    let dial = Dial {
        curve,
        pickup: 1_000_000,
        tms: 25,
    };
    let mut backups = Backups::new(alloc, &settings, dial)?;
    let mut log = Vec::new(alloc);
    for counter in 0..1200_u16 {
        let data = data_of(80, counter, [250, 0, 0], 0);
        hear_one(
            &mut backups,
            &mut steps,
            (b"MU01", b"L1"),
            counter,
            &data,
            &mut log,
        )?;
    }
    Ok(log)
}

/// A curve, and the log at 4000 samples a second.
const AT_4000: [(Curve, &str); 2] = [
    (
        Curve::Very,
        "L1 2024-01-01T00:00:00.019750000Z 79 backup A start
L1 2024-01-01T00:00:00.197750000Z 791 backup A operate
",
    ),
    (
        Curve::Extremely,
        "L1 2024-01-01T00:00:00.019750000Z 79 backup A start
L1 2024-01-01T00:00:00.290250000Z 1161 backup A operate
",
    ),
];

#[test]
fn times_are_those_of_the_rate(rt: HostRuntime) -> Result<(), Fail> {
    for (curve, log) in &AT_4000 {
        let told = log_at_4000::<Brand>(rt.alloc(), *curve, Blank::new(1))?;
        assert_eq!(rt; told.as_slice(), log.as_bytes());
    }
    Ok(())
}

/// The lines' sample sets in turn: phase A of the first has 50 times the sine table, of the second 100, and so on.
fn sixteen_logs<L: Ledger>(alloc: Global, blank: Blank) -> Result<Vec<u8>, Fail>
    requires name { blank.name ≡ L.name }
    requires parts { blank.parts ≡ L.parts }
    requires shares { 0 < blank.parts }
{
    let text = sixteen_lines(alloc)?;
    let settings = read_settings(alloc, text.as_bytes())?;
    let mut steps = open_steps::<L>(blank);
    let dial = Dial {
        curve: Curve::Very,
        pickup: 1_000_000,
        tms: 25,
    };
    let mut backups = Backups::new(alloc, &settings, dial)?;
    let mut log = Vec::new(alloc);
    for counter in 0..700_u16 {
        let mut scale: i32 = 0;
        for (name, sv_id) in &LINES {
            scale = scale.wrapping_add(50);
            let data = data_of(96, counter, [scale, 0, 0], 0);
            hear_one(
                &mut backups,
                &mut steps,
                (sv_id.as_bytes(), name.as_bytes()),
                counter,
                &data,
                &mut log,
            )?;
        }
    }
    Ok(log)
}

/// The first line stays below the pickup, and the greater a current, the earlier its line operates.
const SIXTEEN_LOGS: &str = "L02 2024-01-01T00:00:00.019791666Z 95 backup A start
L03 2024-01-01T00:00:00.019791666Z 95 backup A start
L04 2024-01-01T00:00:00.019791666Z 95 backup A start
L05 2024-01-01T00:00:00.019791666Z 95 backup A start
L06 2024-01-01T00:00:00.019791666Z 95 backup A start
L07 2024-01-01T00:00:00.019791666Z 95 backup A start
L08 2024-01-01T00:00:00.019791666Z 95 backup A start
L09 2024-01-01T00:00:00.019791666Z 95 backup A start
L10 2024-01-01T00:00:00.019791666Z 95 backup A start
L11 2024-01-01T00:00:00.019791666Z 95 backup A start
L12 2024-01-01T00:00:00.019791666Z 95 backup A start
L13 2024-01-01T00:00:00.019791666Z 95 backup A start
L14 2024-01-01T00:00:00.019791666Z 95 backup A start
L15 2024-01-01T00:00:00.019791666Z 95 backup A start
L16 2024-01-01T00:00:00.019791666Z 95 backup A start
L16 2024-01-01T00:00:00.060416666Z 290 backup A operate
L15 2024-01-01T00:00:00.063541666Z 305 backup A operate
L14 2024-01-01T00:00:00.067083333Z 322 backup A operate
L13 2024-01-01T00:00:00.071458333Z 343 backup A operate
L12 2024-01-01T00:00:00.076458333Z 367 backup A operate
L11 2024-01-01T00:00:00.082500000Z 396 backup A operate
L10 2024-01-01T00:00:00.090208333Z 433 backup A operate
L09 2024-01-01T00:00:00.099791666Z 479 backup A operate
L08 2024-01-01T00:00:00.112500000Z 540 backup A operate
L07 2024-01-01T00:00:00.130208333Z 625 backup A operate
";

#[test]
fn sixteen_lines_have_elements_of_their_own(rt: HostRuntime) -> Result<(), Fail> {
    let log = sixteen_logs::<Brand>(rt.alloc(), Blank::new(1))?;
    assert_eq!(rt; log.as_slice(), SIXTEEN_LOGS.as_bytes());
    Ok(())
}
