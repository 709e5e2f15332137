//! Ground faults with the log lines that they bring.
ghost use Rattle.std.specs.Prelude.{◌≡◌, ◌<◌};
ghost use Rattle.breaker_guard.specs.Guarding.{AreTimes, times_of};

use breaker_guard::{GuardTimes, Guards, print_guard};
use relay_num::{Steps, open_steps};
use row_inputs::{
    GROUND_FAULT, LINES, Signal, Span, ZONE, data_of, sample_set, settings_of, sixteen_lines,
};
use settings_read::read_settings;
use std::alloc::{AllocError, Global};
use std::marker::Brand;
use std::process::Abort;
use std::sync::ledger::{Blank, Ledger};
use std::test::Fail;

/// The failure, the dead and the reclaim time in milliseconds, the sample sets and the log. A span is one of numbers,
/// which go on over the end of a second.
struct Row {
    fail_ms: u32,
    dead_ms: u32,
    reclaim_ms: u32,
    spans: &'static [Span],
    log: &'static str,
}

/// Appends what the sample set of this svID with this counter brings to the line of this name.
fn hear_one<L: Ledger>(
    guards: &mut Guards,
    steps: &mut Steps<L>,
    (sv_id, name): (&[u8], &[u8]),
    counter: u16,
    data: &[u8; 64],
    log: &mut Vec<u8>,
) -> Result<(), AllocError> {
    if guards.heard() >= 1 << 40 || name.len() > 16 {
        return Ok(());
    }
    if let Some((_, Some(event))) = guards.hear(&sample_set(sv_id, counter, data), steps) {
        log.extend_from_slice(print_guard(name, &event).as_slice())?;
    }
    Ok(())
}

/// What the guard tells of these sample sets.
fn log_of<L: Ledger>(alloc: Global, row: &Row, blank: Blank) -> Result<Vec<u8>, Fail>
    requires times { AreTimes (times_of row.now.fail_ms row.now.dead_ms row.now.reclaim_ms) }
    requires name { blank.name ≡ L.name }
    requires parts { blank.parts ≡ L.parts }
    requires shares { 0 < blank.parts }
{
    let settings = read_settings(alloc, settings_of(alloc, ZONE, &[])?.as_bytes())?;
    let mut steps = open_steps::<L>(blank);
    let times = GuardTimes {
        fail_ms: row.fail_ms,
        dead_ms: row.dead_ms,
        reclaim_ms: row.reclaim_ms,
    };
    let mut guards = Guards::new(alloc, &settings, times)?;
    let mut log = Vec::new(alloc);
    for span in row.spans {
        for number in span.0..span.1 {
            let counter = number % 4800;
            let data = data_of(span.2, counter);
            hear_one(
                &mut guards,
                &mut steps,
                (b"MU01", b"L1"),
                counter,
                &data,
                &mut log,
            )?;
        }
    }
    Ok(log)
}

/// The ground fault, with half a second's sample sets missing behind it.
const BROKEN: [Span; 4] = [
    (0, 1464, Signal::Healthy),
    (1464, 3864, Signal::Fault),
    (3864, 4500, Signal::Healthy),
    (5000, 5200, Signal::Healthy),
];

/// The same, and another whose trip rises at 5062.
const TWO_FAULTS: [Span; 5] = [
    (0, 1464, Signal::Healthy),
    (1464, 3864, Signal::Fault),
    (3864, 5000, Signal::Healthy),
    (5000, 5300, Signal::Fault),
    (5300, 6600, Signal::Healthy),
];

/// A fault that stands to the end, so that its trip has no reset.
const STANDING: [Span; 2] = [(0, 1464, Signal::Healthy), (1464, 3000, Signal::Fault)];

static ROWS: [Row; 8] = [
    Row {
        fail_ms: 150,
        dead_ms: 300,
        reclaim_ms: 1000,
        spans: &GROUND_FAULT,
        log: "L1 2024-01-01T00:00:00.467708333Z 2245 guard fail
",
    },
    Row {
        fail_ms: 600,
        dead_ms: 50,
        reclaim_ms: 1000,
        spans: &GROUND_FAULT,
        log: "L1 2024-01-01T00:00:00.961875000Z 4617 guard reclose
",
    },
    Row {
        fail_ms: 150,
        dead_ms: 50,
        reclaim_ms: 1000,
        spans: &GROUND_FAULT,
        log: "L1 2024-01-01T00:00:00.467708333Z 2245 guard fail
",
    },
    Row {
        fail_ms: 600,
        dead_ms: 50,
        reclaim_ms: 1000,
        spans: &BROKEN,
        log: "L1 2024-01-01T00:00:01.041666666Z 5000 guard reclose
",
    },
    Row {
        fail_ms: 600,
        dead_ms: 50,
        reclaim_ms: 1000,
        spans: &TWO_FAULTS,
        log: "L1 2024-01-01T00:00:00.961875000Z 4617 guard reclose
L1 2024-01-01T00:00:01.054583333Z 5062 guard final
",
    },
    Row {
        fail_ms: 600,
        dead_ms: 50,
        reclaim_ms: 80,
        spans: &TWO_FAULTS,
        log: "L1 2024-01-01T00:00:00.961875000Z 4617 guard reclose
L1 2024-01-01T00:00:01.260416666Z 6050 guard reclose
",
    },
    Row {
        fail_ms: 600,
        dead_ms: 150,
        reclaim_ms: 1000,
        spans: &TWO_FAULTS,
        log: "L1 2024-01-01T00:00:01.360416666Z 6530 guard reclose
",
    },
    Row {
        fail_ms: 600,
        dead_ms: 50,
        reclaim_ms: 1000,
        spans: &STANDING,
        log: "",
    },
];

#[test]
fn faults_give_their_lines(rt: HostRuntime) -> Result<(), Fail> {
    for row in &ROWS {
        assert!(rt; row.fail_ms >= 1 && row.fail_ms <= 10_000);
        assert!(rt; row.dead_ms >= 1 && row.dead_ms <= 60_000);
        assert!(rt; row.reclaim_ms >= 1 && row.reclaim_ms <= 600_000);
        let log = log_of::<Brand>(rt.alloc(), row, Blank::new(1))?;
        assert_eq!(rt; log.as_slice(), row.log.as_bytes());
    }
    Ok(())
}

/// The lines' sample sets in turn. The fault of the first line is there from 200 on to before 340, that of the second from
/// 200 on to before 400, and so on, so that the last ones stand longer than the failure time.
fn sixteen_logs<L: Ledger>(alloc: Global, blank: Blank) -> Result<Vec<u8>, Fail>
    requires name { blank.name ≡ L.name }
    requires parts { blank.parts ≡ L.parts }
    requires shares { 0 < blank.parts }
{
    let text = sixteen_lines(alloc)?;
    let settings = read_settings(alloc, text.as_bytes())?;
    let mut steps = open_steps::<L>(blank);
    let times = GuardTimes {
        fail_ms: 150,
        dead_ms: 20,
        reclaim_ms: 1000,
    };
    let mut guards = Guards::new(alloc, &settings, times)?;
    let mut log = Vec::new(alloc);
    for counter in 0..1500_u16 {
        let mut end: u16 = 280;
        for (name, sv_id) in &LINES {
            end = end.wrapping_add(60);
            let is_fault = counter >= 200 && counter < end;
            let signal = if is_fault {
                Signal::Fault
            } else {
                Signal::Healthy
            };
            let data = data_of(signal, counter);
            hear_one(
                &mut guards,
                &mut steps,
                (sv_id.as_bytes(), name.as_bytes()),
                counter,
                &data,
                &mut log,
            )?;
        }
    }
    Ok(log)
}

/// A line whose fault goes early recloses, the earlier the sooner; the others fail, all at one number.
const SIXTEEN_LOGS: &str = "L01 2024-01-01T00:00:00.196458333Z 943 guard reclose
L11 2024-01-01T00:00:00.204583333Z 982 guard fail
L12 2024-01-01T00:00:00.204583333Z 982 guard fail
L13 2024-01-01T00:00:00.204583333Z 982 guard fail
L14 2024-01-01T00:00:00.204583333Z 982 guard fail
L15 2024-01-01T00:00:00.204583333Z 982 guard fail
L16 2024-01-01T00:00:00.204583333Z 982 guard fail
L02 2024-01-01T00:00:00.208958333Z 1003 guard reclose
L03 2024-01-01T00:00:00.222916666Z 1070 guard reclose
L04 2024-01-01T00:00:00.235000000Z 1128 guard reclose
L05 2024-01-01T00:00:00.246458333Z 1183 guard reclose
L06 2024-01-01T00:00:00.258958333Z 1243 guard reclose
L07 2024-01-01T00:00:00.272916666Z 1310 guard reclose
L08 2024-01-01T00:00:00.285000000Z 1368 guard reclose
L09 2024-01-01T00:00:00.296458333Z 1423 guard reclose
L10 2024-01-01T00:00:00.308958333Z 1483 guard reclose
";

#[test]
fn sixteen_lines_have_guards_of_their_own(rt: HostRuntime) -> Result<(), Fail> {
    let log = sixteen_logs::<Brand>(rt.alloc(), Blank::new(1))?;
    assert_eq!(rt; log.as_slice(), SIXTEEN_LOGS.as_bytes());
    Ok(())
}
