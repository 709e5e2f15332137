//! Captures in pcapng with the log that they give.

use super::captures::{GOOSE, ONE_SAMPLE};
use super::runs::{Goose, Outcome, run_in_pieces};
use row_inputs::{SAMPLE_FRAME, SETTINGS};
use std::alloc::{AllocError, Global};
use std::test::Fail;

/// The section header and the interface of a capture, its packet's head and its last four bytes.
type Blocks = (&'static [u8], &'static [u8], &'static [u8], &'static [u8]);

const SECTION: &[u8] =
    b"\x0a\x0d\x0d\x0a\x1c\0\0\0\x4d\x3c\x2b\x1a\x01\0\0\0\xff\xff\xff\xff\xff\xff\xff\xff\x1c\0\0\0";

const VERSION_2: &[u8] =
    b"\x0a\x0d\x0d\x0a\x1c\0\0\0\x4d\x3c\x2b\x1a\x02\0\0\0\xff\xff\xff\xff\xff\xff\xff\xff\x1c\0\0\0";

const ETHERNET: &[u8] = b"\x01\0\0\0\x14\0\0\0\x01\0\0\0\0\0\x04\0\x14\0\0\0";

const COOKED: &[u8] = b"\x01\0\0\0\x14\0\0\0\x71\0\0\0\0\0\x04\0\x14\0\0\0";

const ENHANCED: &[u8] = b"\x06\0\0\0\x94\0\0\0\0\0\0\0\0\0\0\0\0\0\0\0\x74\0\0\0\x74\0\0\0";

const ON_1: &[u8] = b"\x06\0\0\0\x94\0\0\0\x01\0\0\0\0\0\0\0\0\0\0\0\x74\0\0\0\x74\0\0\0";

const SIMPLE: &[u8] = b"\x03\0\0\0\x84\0\0\0\x74\0\0\0";

const DAMAGED: Outcome = Outcome {
    status: 5,
    note: "capture damaged after 0 records length 148\n",
    answer: "",
    log: "",
    goose: Goose::Is(&GOOSE),
};

/// Captures of one packet, how many last bytes are missing, and what comes of them.
static ROWS: [(Blocks, usize, Outcome<'static>); 7] = [
    ((SECTION, ETHERNET, ENHANCED, b"\x94\0\0\0"), 0, ONE_SAMPLE),
    ((SECTION, ETHERNET, SIMPLE, b"\x84\0\0\0"), 0, ONE_SAMPLE),
    (
        (SECTION, COOKED, ENHANCED, b"\x94\0\0\0"),
        0,
        Outcome {
            status: 0,
            note: "",
            answer: "",
            log: "",
            goose: Goose::Is(&GOOSE),
        },
    ),
    (
        (SECTION, ETHERNET, ENHANCED, b"\x94\0\0\0"),
        1,
        Outcome {
            status: 4,
            note: "capture cut after 0 records\n",
            answer: "",
            log: "",
            goose: Goose::Is(&GOOSE),
        },
    ),
    ((SECTION, ETHERNET, ENHANCED, b"\x90\0\0\0"), 0, DAMAGED),
    ((SECTION, ETHERNET, ON_1, b"\x94\0\0\0"), 0, DAMAGED),
    (
        (VERSION_2, ETHERNET, ENHANCED, b"\x94\0\0\0"),
        0,
        Outcome {
            status: 3,
            note: "not a capture\n",
            answer: "",
            log: "",
            goose: Goose::Is(&[]),
        },
    ),
];

fn capture_of(alloc: Global, blocks: &Blocks, missing: usize) -> Result<Vec<u8>, AllocError> {
    let (section, interface, head, last) = *blocks;
    let mut capture = Vec::new(alloc);
    capture.extend_from_slice(section)?;
    capture.extend_from_slice(interface)?;
    capture.extend_from_slice(head)?;
    capture.extend_from_slice(&SAMPLE_FRAME)?;
    capture.extend_from_slice(last)?;
    let whole = capture.len();
    capture.truncate(whole.saturating_sub(missing));
    Ok(capture)
}

#[test]
fn blocks_give_their_log(rt: HostRuntime) -> Result<(), Fail> {
    for (blocks, missing, want) in &ROWS {
        let capture = capture_of(rt.alloc(), blocks, *missing)?;
        run_in_pieces(&rt, rt.alloc(), SETTINGS, &capture, want)?;
    }
    Ok(())
}
