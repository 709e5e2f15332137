//! Captures with the log that they give, however reads and writes are cut.
use super::parts::{Part, capture_of};
use super::runs::{DONE, Goose, Outcome, run_in_pieces};
use row_inputs::{LITTLE_MICROS, PAIR, SETTINGS, SEVENTEEN, SINGLE, SIXTEEN, TAGGED, settings_of};
use std::test::Fail;

/// The other spellings of the magic number: nanoseconds too, and the highest byte first.
const LITTLE_NANOS: [u8; 24] = [
    0x4d, 0x3c, 0xb2, 0xa1, 2, 0, 4, 0, 0, 0, 0, 0, 0, 0, 0, 0, 0xff, 0xff, 0, 0, 1, 0, 0, 0,
];

const BIG_MICROS: [u8; 24] = [
    0xa1, 0xb2, 0xc3, 0xd4, 0, 2, 0, 4, 0, 0, 0, 0, 0, 0, 0, 0, 0, 0, 0xff, 0xff, 0, 0, 0, 1,
];

const BIG_NANOS: [u8; 24] = [
    0xa1, 0xb2, 0x3c, 0x4d, 0, 2, 0, 4, 0, 0, 0, 0, 0, 0, 0, 0, 0, 0, 0xff, 0xff, 0, 0, 0, 1,
];

/// What a GOOSE file without a frame holds: the header of a capture with nanoseconds.
pub const GOOSE: [u8; 24] = [
    0x4d, 0x3c, 0xb2, 0xa1, 2, 0, 4, 0, 0, 0, 0, 0, 0, 0, 0, 0, 0xff, 0xff, 0, 0, 1, 0, 0, 0,
];

/// What a GOOSE file with the frame of the first sample holds: nothing is known yet, and all qualities are
/// invalid.
pub const ONE_FRAME: [u8; 168] = [
    0x4d, 0x3c, 0xb2, 0xa1, 0x02, 0x00, 0x04, 0x00, 0x00, 0x00, 0x00, 0x00, 0x00, 0x00, 0x00, 0x00,
    0xff, 0xff, 0x00, 0x00, 0x01, 0x00, 0x00, 0x00, 0x80, 0x00, 0x92, 0x65, 0x00, 0x00, 0x00, 0x00,
    0x80, 0x00, 0x00, 0x00, 0x80, 0x00, 0x00, 0x00, 0x01, 0x0c, 0xcd, 0x01, 0x00, 0x01, 0x02, 0x00,
    0x00, 0x00, 0x00, 0x02, 0x81, 0x00, 0x80, 0x00, 0x88, 0xb8, 0x00, 0x01, 0x00, 0x6e, 0x00, 0x00,
    0x00, 0x00, 0x61, 0x64, 0x80, 0x0d, 0x50, 0x31, 0x2f, 0x4c, 0x4c, 0x4e, 0x30, 0x24, 0x47, 0x4f,
    0x24, 0x47, 0x31, 0x81, 0x01, 0x0c, 0x82, 0x0b, 0x50, 0x31, 0x2f, 0x4c, 0x4c, 0x4e, 0x30, 0x24,
    0x44, 0x53, 0x31, 0x83, 0x02, 0x47, 0x31, 0x84, 0x08, 0x65, 0x92, 0x00, 0x80, 0x00, 0x00, 0x00,
    0x0a, 0x85, 0x01, 0x01, 0x86, 0x01, 0x00, 0x87, 0x01, 0x00, 0x88, 0x01, 0x01, 0x89, 0x01, 0x00,
    0x8a, 0x01, 0x09, 0xab, 0x23, 0x83, 0x01, 0x00, 0x84, 0x03, 0x03, 0x40, 0x00, 0x83, 0x01, 0x00,
    0x84, 0x03, 0x03, 0x40, 0x00, 0x83, 0x01, 0x00, 0x84, 0x03, 0x03, 0x40, 0x00, 0x83, 0x01, 0x00,
    0x84, 0x03, 0x03, 0x40, 0x00, 0x86, 0x01, 0x00,
];

pub const FIRST: &str = "L1 2024-01-01T00:00:00.000000000Z 0 first\n";

/// The log of a whole cycle.
pub const READY: &str = "L1 2024-01-01T00:00:00.000000000Z 0 first
L1 2024-01-01T00:00:00.019791666Z 95 ready
";

/// The type of Internet traffic.
const OTHER: [(usize, u8); 2] = [(12, 0x08), (13, 0x00)];

/// The lengths of a sample set with 60 bytes of data, and of all around it.
const SHORT: [(usize, u8); 5] = [(17, 0x62), (23, 0x58), (28, 0x53), (30, 0x51), (51, 0x3c)];

/// Records, the length of the GOOSE file and the log that they give.
type Row = (&'static [Part], usize, &'static str);

static ROWS: [Row; 16] = [
    // One sample, none, and one cycle less a sample.
    (&[(0, 1, &SINGLE, &[], 116)], 168, FIRST),
    (&[], 24, ""),
    (&[(0, 95, &SINGLE, &[], 116)], 456, FIRST),
    // A whole cycle, in frames of one, of two and of sixteen sample sets.
    (&[(0, 96, &SINGLE, &[], 116)], 600, READY),
    (&[(0, 96, &PAIR, &[], 205)], 600, READY),
    (&[(0, 96, &SIXTEEN, &[], 1425)], 600, READY),
    // A current of 268435456 mA, which is no good sample.
    (
        &[
            (0, 200, &SINGLE, &[], 116),
            (200, 201, &SINGLE, &[(52, 0x10)], 116),
            (201, 300, &SINGLE, &[], 116),
        ],
        1464,
        "L1 2024-01-01T00:00:00.000000000Z 0 first
L1 2024-01-01T00:00:00.019791666Z 95 ready
L1 2024-01-01T00:00:00.041666666Z 200 lost
L1 2024-01-01T00:00:00.061666666Z 296 ready
",
    ),
    // A counter again, one that is late, one too late to be, and one out of range.
    (
        &[
            (0, 501, &SINGLE, &[], 116),
            (500, 501, &SINGLE, &[], 116),
            (436, 437, &SINGLE, &[], 116),
            (435, 436, &SINGLE, &[], 116),
            (4800, 4801, &SINGLE, &[], 116),
        ],
        1321,
        "L1 2024-01-01T00:00:00.000000000Z 0 first
L1 2024-01-01T00:00:00.019791666Z 95 ready
L1 2024-01-01T00:00:00.104166666Z 500 repeat 500
L1 2024-01-01T00:00:00.104166666Z 500 late 436 by 64
L1 2024-01-01T00:00:01.090625000Z 5235 jump 4734
L1 2024-01-01T00:00:01.090625000Z 5235 lost
L1 2024-01-01T00:00:01.090625000Z 5235 wild 4800
",
    ),
    // Every other sample is missing.
    (
        &[
            (0, 1, &SINGLE, &[], 116),
            (2, 3, &SINGLE, &[], 116),
            (4, 5, &SINGLE, &[], 116),
        ],
        168,
        "L1 2024-01-01T00:00:00.000000000Z 0 first
L1 2024-01-01T00:00:00.000416666Z 2 jump 1
L1 2024-01-01T00:00:00.000833333Z 4 jump 1
",
    ),
    // The counter begins anew with the next second.
    (
        &[(4752, 4800, &SINGLE, &[], 116), (0, 50, &SINGLE, &[], 116)],
        600,
        "L1 2024-01-01T00:00:00.990000000Z 4752 first
L1 2024-01-01T00:00:01.009791666Z 4847 ready
",
    ),
    // Another revision of the configuration, and 60 bytes of data.
    (
        &[(0, 1, &SINGLE, &[(46, 7)], 116)],
        24,
        "L1 - - confrev 7\n",
    ),
    (&[(0, 1, &SINGLE, &SHORT, 112)], 24, "L1 - - length 60\n"),
    // A frame with a tag and padding.
    (&[(0, 1, &TAGGED, &[], 130)], 168, FIRST),
    // Frames that fail, each in its layer.
    (
        &[
            (0, 1, &SINGLE, &[], 3000),
            (0, 1, &SINGLE, &[], 100),
            (0, 1, &SINGLE, &[], 20),
            (0, 1, &SINGLE, &[(23, 0x80)], 116),
            (0, 1, &SINGLE, &[(26, 0x02)], 116),
            (0, 1, &SEVENTEEN, &[], 1512),
            (0, 1, &SINGLE, &[(41, 0x82)], 116),
        ],
        24,
        "frame 1 malformed long
frame 2 malformed length
frame 3 malformed header
frame 4 malformed pdu
frame 5 malformed count
frame 6 malformed count
frame 7 malformed asdu
",
    ),
    // Other traffic, and a sample set that no line has, are silent.
    (
        &[
            (0, 1, &SINGLE, &OTHER, 60000),
            (0, 1, &SINGLE, &[(36, 0x32)], 116),
            (0, 1, &SINGLE, &[], 100),
        ],
        24,
        "frame 3 malformed length\n",
    ),
    // The longest record.
    (
        &[
            (0, 1, &SINGLE, &[], 116),
            (0, 1, &SINGLE, &OTHER, 262144),
            (1, 2, &SINGLE, &[], 116),
        ],
        168,
        FIRST,
    ),
];

pub const ONE_SAMPLE: Outcome = Outcome {
    status: 0,
    note: "",
    answer: "",
    log: FIRST,
    goose: Goose::Is(&ONE_FRAME),
};

#[test]
fn captures_give_their_log(rt: HostRuntime) -> Result<(), Fail> {
    let alloc = rt.alloc();
    for (parts, goose, log) in &ROWS {
        let capture = capture_of(alloc, &LITTLE_MICROS, parts)?;
        let goose = Goose::IsLong(*goose);
        let want = Outcome { log, goose, ..DONE };
        run_in_pieces(&rt, alloc, SETTINGS, &capture, &want)?;
    }
    Ok(())
}

/// The capture's header and records, how many of its last bytes it lacks, and what the run is to leave.
type Stop = (&'static [u8], &'static [Part], usize, Outcome<'static>);

static STOPS: [Stop; 7] = [
    // Each spelling of the header, in which the numbers of the records are spelled too.
    (&LITTLE_NANOS, &[(0, 1, &SINGLE, &[], 116)], 0, ONE_SAMPLE),
    (&BIG_MICROS, &[(0, 1, &SINGLE, &[], 116)], 0, ONE_SAMPLE),
    (&BIG_NANOS, &[(0, 1, &SINGLE, &[], 116)], 0, ONE_SAMPLE),
    // Less than a header.
    (
        &LITTLE_MICROS,
        &[],
        1,
        Outcome {
            status: 3,
            note: "not a capture\n",
            answer: "",
            log: "",
            goose: Goose::Is(&[]),
        },
    ),
    // The tenth record lacks its last byte.
    (
        &LITTLE_MICROS,
        &[(0, 10, &SINGLE, &[], 116)],
        1,
        Outcome {
            status: 4,
            note: "capture cut after 9 records\n",
            answer: "",
            log: FIRST,
            goose: Goose::Is(&ONE_FRAME),
        },
    ),
    // A record that is a byte too long.
    (
        &LITTLE_MICROS,
        &[(0, 1, &SINGLE, &[], 262145)],
        0,
        Outcome {
            status: 5,
            note: "capture damaged after 0 records length 262145\n",
            answer: "",
            log: "",
            goose: Goose::Is(&GOOSE),
        },
    ),
    (
        &LITTLE_MICROS,
        &[(0, 1, &SINGLE, &[], 116), (1, 2, &SINGLE, &[], 262145)],
        0,
        Outcome {
            status: 5,
            note: "capture damaged after 1 records length 262145\n",
            answer: "",
            log: FIRST,
            goose: Goose::Is(&ONE_FRAME),
        },
    ),
];

#[test]
fn captures_stop_as_they_are_spelled(rt: HostRuntime) -> Result<(), Fail> {
    let alloc = rt.alloc();
    for (header, parts, missing, want) in &STOPS {
        let mut capture = capture_of(alloc, header, parts)?;
        let whole = capture.len();
        capture.truncate(whole.saturating_sub(*missing));
        run_in_pieces(&rt, alloc, SETTINGS, &capture, want)?;
    }
    Ok(())
}

/// The rate and nominal frequency, and the log of 80 good samples.
static RATES: [(&'static str, &'static str); 2] = [
    (
        "rate = 4800\nnominal = 60\n",
        "L1 2024-01-01T00:00:00.000000000Z 0 first
L1 2024-01-01T00:00:00.016458333Z 79 ready
",
    ),
    (
        "rate = 4000\nnominal = 50\n",
        "L1 2024-01-01T00:00:00.000000000Z 0 first
L1 2024-01-01T00:00:00.019750000Z 79 ready
",
    ),
];

#[test]
fn a_cycle_has_eighty_samples_at_other_rates(rt: HostRuntime) -> Result<(), Fail> {
    let alloc = rt.alloc();
    let capture = capture_of(alloc, &LITTLE_MICROS, &[(0, 80, &SINGLE, &[], 116)])?;
    for (rates, log) in &RATES {
        let settings = settings_of(alloc, "", &[("rate = 4800\nnominal = 50\n", *rates)])?;
        let goose = Goose::IsLong(600);
        let want = Outcome { log, goose, ..DONE };
        run_in_pieces(&rt, alloc, &settings, &capture, &want)?;
    }
    Ok(())
}
