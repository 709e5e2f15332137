//! Hand-made trips at a failure time of 10 samples, a dead time of 5 and a reclaim time of 20. The expected lines were
//! computed by a plain program over the whole list of samples.
use crate::event::GuardWhat;
use crate::waits::Waits;
use crate::watch::Watch;
use std::alloc::{AllocError, Global};
use std::test::Fail;

/// From the first number on to before the second: whether the trip stands, and whether current flows.
type Span = (u64, u64, bool, bool);

/// A case, its spans, and what is told, each with its number.
struct Row {
    name: &'static str,
    spans: &'static [Span],
    told: &'static [(u64, GuardWhat)],
}

static ROWS: [Row; 5] = [
    Row {
        name: "a second trip in the reclaim time is final",
        spans: &[
            (0, 10, false, false),
            (10, 15, true, true),
            (15, 40, false, false),
            (40, 45, true, false),
            (45, 60, false, false),
        ],
        told: &[(20, GuardWhat::Reclose), (40, GuardWhat::Final)],
    },
    Row {
        name: "a second trip behind the reclaim time is reclosed",
        spans: &[
            (0, 10, false, false),
            (10, 15, true, true),
            (15, 41, false, false),
            (41, 45, true, false),
            (45, 60, false, false),
        ],
        told: &[(20, GuardWhat::Reclose), (50, GuardWhat::Reclose)],
    },
    Row {
        name: "a failed trip is told once and not reclosed",
        spans: &[
            (0, 10, false, false),
            (10, 19, true, true),
            (19, 30, true, false),
            (30, 40, true, true),
            (40, 60, false, true),
        ],
        told: &[(30, GuardWhat::Fail)],
    },
    Row {
        name: "a trip that rises as the dead time ends takes the reclosing",
        spans: &[
            (0, 10, false, false),
            (10, 15, true, false),
            (15, 20, false, false),
            (20, 22, true, false),
            (22, 40, false, false),
        ],
        told: &[(27, GuardWhat::Reclose)],
    },
    Row {
        name: "reclosing behind missing numbers",
        spans: &[
            (0, 10, false, false),
            (10, 16, true, false),
            (16, 17, false, false),
            (33, 40, false, false),
            (40, 100, true, false),
        ],
        told: &[(33, GuardWhat::Reclose), (40, GuardWhat::Final)],
    },
];

/// What is told, each with its number.
fn told_over(alloc: Global, spans: &[Span]) -> Result<Vec<(u64, GuardWhat)>, AllocError> {
    let mut watch = Watch::new(Waits {
        fail: 10,
        dead: 5,
        reclaim: 20,
    });
    let mut told = Vec::new(alloc);
    for span in spans {
        for number in span.0..span.1 {
            if let Some(what) = watch.take(number, span.2, span.3) {
                told.push((number, what))?;
            }
        }
    }
    Ok(told)
}

#[test]
fn trips_are_told(rt: HostRuntime) -> Result<(), Fail> {
    for row in &ROWS {
        let told = told_over(rt.alloc(), row.spans)?;
        assert_eq!(rt; told.as_slice(), row.told, "{}", row.name);
    }
    Ok(())
}
