//! Captures in both byte orders, their records and blocks up to the end or the fault that stops them, however reads are
//! cut, and the bytes that are written of a capture.
ghost use Rattle.std.specs.Prelude.{◌^◌, ◌<◌, ◌≤◌};

mod blocks;

use crate::lending::lent_lengths;
use arrayvec::ArrayVec;
use capture_feed::{Feed, FeedStop, put_header, put_record};
use room_io::{MemRoom, Room, Slot};
use std::alloc::{AllocError, Global};
use std::process::Abort;
use std::test::Fail;

const LITTLE_NANOS: [u8; 4] = [0x4d, 0x3c, 0xb2, 0xa1];

const LITTLE_MICROS: [u8; 4] = [0xd4, 0xc3, 0xb2, 0xa1];

const BIG_NANOS: [u8; 4] = [0xa1, 0xb2, 0x3c, 0x4d];

const BIG_MICROS: [u8; 4] = [0xa1, 0xb2, 0xc3, 0xd4];

/// How many records came, the captured bytes of all, and the stop behind them.
type Came = (u64, u64, Option<FeedStop>);

/// A capture with records of these captured lengths.
fn capture_of(alloc: Global, magic: [u8; 4], lengths: &[u32]) -> Result<Vec<u8>, AllocError> {
    let is_big = magic[0] == 0xa1;
    let mut capture = Vec::new(alloc);
    capture.extend_from_slice(&magic)?;
    if is_big {
        capture.extend_from_slice(&[0, 2, 0, 4, 0, 0, 0, 0, 0, 0, 0, 0, 0, 0, 8, 0, 0, 0, 0, 1])?;
    } else {
        capture.extend_from_slice(&[2, 0, 4, 0, 0, 0, 0, 0, 0, 0, 0, 0, 0, 8, 0, 0, 1, 0, 0, 0])?;
    }
    for &length in lengths {
        let number = if is_big {
            length.to_be_bytes()
        } else {
            length.to_le_bytes()
        };
        capture.extend_from_slice(&[0; 8])?;
        capture.extend_from_slice(&number)?;
        capture.extend_from_slice(&number)?;
        for _ in 0..length {
            capture.push(7)?;
        }
    }
    Ok(capture)
}

/// Reads all records of a capture whose `failing`-th call fails, in pieces of `most` bytes.
fn records_of(
    alloc: Global,
    capture: &[u8],
    limit: u64,
    most: usize,
    failing: u64,
) -> Result<Came, Fail>
    requires limit { (24 ≤ limit) × (limit ≤ 2 ^ 40) }
    requires most { 0 < most }
{
    let mut room = MemRoom::new(alloc, 0)?;
    room.put("a.pcap", capture)?;
    room.pieces(most);
    room.fail(Slot::Capture, failing)?;
    room.open_in(Slot::Capture, "a.pcap")?;
    let mut feed = Feed::new(alloc, limit)?;
    if let Err(stop) = feed.begin(&mut room) {
        return Ok((0, 0, Some(stop)));
    }
    let mut count: u64 = 0;
    let mut captured: u64 = 0;
    'records: loop {
        match feed.next(&mut room) {
            Ok(got) => match got {
                Some(rec) => {
                    count = count.wrapping_add(1);
                    captured = captured.wrapping_add(u64::from(rec.captured));
                }
                None => return Ok((count, captured, None)),
            },
            Err(stop) => return Ok((count, captured, Some(stop))),
        }
    }
}

/// However reads are cut, this comes of a capture.
fn comes(rt: &impl Abort, alloc: Global, capture: &[u8], limit: u64, want: Came) -> Result<(), Fail>
    requires { (24 ≤ limit) × (limit ≤ 2 ^ 40) }
{
    assert_eq!(rt; records_of(alloc, capture, limit, 1, 0)?, want);
    assert_eq!(rt; records_of(alloc, capture, limit, 7, 0)?, want);
    assert_eq!(rt; records_of(alloc, capture, limit, 65537, 0)?, want);
    Ok(())
}

#[test]
fn captures_stop_as_they_should(rt: HostRuntime) -> Result<(), Fail> {
    let most = 1 << 40;
    for magic in [LITTLE_NANOS, LITTLE_MICROS, BIG_NANOS, BIG_MICROS] {
        let capture = capture_of(rt.alloc(), magic, &[116])?;
        comes(&rt, rt.alloc(), &capture, most, (1, 116, None))?;
    }
    let mut header = capture_of(rt.alloc(), LITTLE_NANOS, &[])?;
    comes(&rt, rt.alloc(), &header, most, (0, 0, None))?;
    let _last = header.pop();
    comes(
        &rt,
        rt.alloc(),
        &header,
        most,
        (0, 0, Some(FeedStop::NotCapture)),
    )?;
    let two = capture_of(rt.alloc(), LITTLE_NANOS, &[116, 116])?;
    comes(
        &rt,
        rt.alloc(),
        &two,
        100,
        (1, 116, Some(FeedStop::TooLong)),
    )?;
    let long = capture_of(rt.alloc(), LITTLE_NANOS, &[116, 262_144, 116])?;
    comes(&rt, rt.alloc(), &long, most, (3, 262_376, None))?;
    let damaged = capture_of(rt.alloc(), LITTLE_NANOS, &[262_145])?;
    let stop = FeedStop::Damaged { length: 262_145 };
    comes(&rt, rt.alloc(), &damaged, most, (0, 0, Some(stop)))?;
    let mut ten = capture_of(rt.alloc(), LITTLE_NANOS, &[116; 10])?;
    let _last = ten.pop();
    comes(&rt, rt.alloc(), &ten, most, (9, 1044, Some(FeedStop::Cut)))?;
    Ok(())
}

#[test]
fn a_fault_comes_behind_the_whole_records(rt: HostRuntime) -> Result<(), Fail> {
    let two = capture_of(rt.alloc(), LITTLE_NANOS, &[116, 116])?;
    let fault = Some(FeedStop::Fault);
    for (failing, want) in [
        (2, (0, 0, fault)),
        (3, (2, 232, fault)),
        (4, (2, 232, None)),
    ] {
        assert_eq!(rt;
            records_of(rt.alloc(), &two, 1000, 4096, failing)?,
            want,
            "{failing}"
        );
    }
    Ok(())
}

#[test]
fn at_most_2048_bytes_are_lent(rt: HostRuntime) -> Result<(), Fail> {
    let mut room = MemRoom::new(rt.alloc(), 0)?;
    room.put("a.pcap", &capture_of(rt.alloc(), LITTLE_NANOS, &[3000, 5])?)?;
    room.open_in(Slot::Capture, "a.pcap")?;
    let mut feed = Feed::new(rt.alloc(), 10_000)?;
    feed.begin(&mut room)?;
    assert!(rt; feed.live());
    assert_eq!(rt; lent_lengths(&mut feed, &mut room), Some((2048, 5)));
    assert_eq!(rt; feed.taken(), 24 + 3016 + 21);
    Ok(())
}

/// A section header of version 1, lowest byte first.
const SECTION: &[u8] =
    b"\x0a\x0d\x0d\x0a\x1c\0\0\0\x4d\x3c\x2b\x1a\x01\0\0\0\xff\xff\xff\xff\xff\xff\xff\xff\x1c\0\0\0";

/// The same, highest byte first.
const BIG_SECTION: &[u8] =
    b"\x0a\x0d\x0d\x0a\0\0\0\x1c\x1a\x2b\x3c\x4d\0\x01\0\0\xff\xff\xff\xff\xff\xff\xff\xff\0\0\0\x1c";

/// An Ethernet interface with a snap length of 262,144, and one whose snap length is 3.
const ETHERNET: &[u8] = b"\x01\0\0\0\x14\0\0\0\x01\0\0\0\0\0\x04\0\x14\0\0\0";

const SHORT_ETHERNET: &[u8] = b"\x01\0\0\0\x14\0\0\0\x01\0\0\0\x03\0\0\0\x14\0\0\0";

const BIG_ETHERNET: &[u8] = b"\0\0\0\x01\0\0\0\x14\0\x01\0\0\0\x04\0\0\0\0\0\x14";

/// An interface of link type 0x71 without a snap length.
const COOKED: &[u8] = b"\x01\0\0\0\x14\0\0\0\x71\0\0\0\0\0\0\0\x14\0\0\0";

/// A packet of 5 bytes on interface 0, and behind it 3 bytes of padding.
const PACKET: &[u8] =
    b"\x06\0\0\0\x28\0\0\0\0\0\0\0\0\0\0\0\0\0\0\0\x05\0\0\0\x05\0\0\0abcde\0\0\0\x28\0\0\0";

const BIG_PACKET: &[u8] =
    b"\0\0\0\x06\0\0\0\x28\0\0\0\0\0\0\0\0\0\0\0\0\0\0\0\x05\0\0\0\x05abcde\0\0\0\0\0\0\x28";

/// The same with an end of options, with interface 1, and with a last length of 36.
const PACKET_WITH_OPTION: &[u8] =
    b"\x06\0\0\0\x2c\0\0\0\0\0\0\0\0\0\0\0\0\0\0\0\x05\0\0\0\x05\0\0\0abcde\0\0\0\0\0\0\0\x2c\0\0\0";

const PACKET_ON_1: &[u8] =
    b"\x06\0\0\0\x28\0\0\0\x01\0\0\0\0\0\0\0\0\0\0\0\x05\0\0\0\x05\0\0\0abcde\0\0\0\x28\0\0\0";

const PACKET_ENDING_36: &[u8] =
    b"\x06\0\0\0\x28\0\0\0\0\0\0\0\0\0\0\0\0\0\0\0\x05\0\0\0\x05\0\0\0abcde\0\0\0\x24\0\0\0";

/// A packet of 9 bytes in a block with room for 8.
const PACKET_TOO_LONG: &[u8] =
    b"\x06\0\0\0\x28\0\0\0\0\0\0\0\0\0\0\0\0\0\0\0\x09\0\0\0\x09\0\0\0abcdefgh\x28\0\0\0";

/// A simple packet of 5 bytes, and one of 5 bytes of which 3 are captured.
const SIMPLE: &[u8] = b"\x03\0\0\0\x18\0\0\0\x05\0\0\0abcde\0\0\0\x18\0\0\0";

const SHORT_SIMPLE: &[u8] = b"\x03\0\0\0\x14\0\0\0\x05\0\0\0abc\0\x14\0\0\0";

/// The obsolete packet block, and a block of type 0xbad without contents.
const OBSOLETE: &[u8] = b"\x02\0\0\0\x0c\0\0\0\x0c\0\0\0";

const CUSTOM: &[u8] = b"\xad\x0b\0\0\x0c\0\0\0\x0c\0\0\0";

/// The blocks one behind the other.
fn joined(alloc: Global, blocks: &[&[u8]]) -> Result<Vec<u8>, AllocError> {
    let mut capture = Vec::new(alloc);
    for block in blocks {
        capture.extend_from_slice(block)?;
    }
    Ok(capture)
}

/// The blocks of a capture.
type BlockList = &'static [&'static [u8]];

/// Blocks up to a whole end, how many records they hold, and the captured bytes of all.
static WHOLE: [(BlockList, u64, u64); 7] = [
    (&[SECTION, ETHERNET, PACKET], 1, 5),
    (&[SECTION, ETHERNET, SIMPLE, PACKET_WITH_OPTION], 2, 10),
    (&[SECTION, COOKED, PACKET, SIMPLE], 0, 0),
    (&[SECTION, COOKED, ETHERNET, PACKET, PACKET_ON_1], 1, 5),
    (&[SECTION, SHORT_ETHERNET, SHORT_SIMPLE, PACKET], 2, 8),
    (&[SECTION, OBSOLETE, CUSTOM, ETHERNET, CUSTOM, PACKET], 1, 5),
    (
        &[
            SECTION,
            ETHERNET,
            PACKET,
            BIG_SECTION,
            BIG_ETHERNET,
            BIG_PACKET,
        ],
        2,
        10,
    ),
];

#[test]
fn blocks_are_taken_up_to_the_end(rt: HostRuntime) -> Result<(), Fail> {
    for (blocks, count, captured) in &WHOLE {
        let capture = joined(rt.alloc(), blocks)?;
        comes(
            &rt,
            rt.alloc(),
            &capture,
            1 << 40,
            (*count, *captured, None),
        )?;
    }
    Ok(())
}

/// Blocks up to a damaged one, how many records stand before it, the captured bytes of all, and the
/// damaged block's total length.
static DAMAGED: [(BlockList, u64, u64, u32); 10] = [
    (
        &[BIG_SECTION, BIG_ETHERNET, BIG_PACKET, SECTION, PACKET],
        1,
        5,
        40,
    ),
    (
        &[SECTION, ETHERNET, PACKET, b"\x0a\x0d\x0d\x0a\x1c\0\0\0aaaa"],
        1,
        5,
        28,
    ),
    (&[SECTION, ETHERNET, PACKET_ON_1], 0, 0, 40),
    (&[SECTION, ETHERNET, PACKET, PACKET_ENDING_36], 1, 5, 40),
    (&[SECTION, ETHERNET, PACKET_TOO_LONG], 0, 0, 40),
    (&[SECTION, SIMPLE], 0, 0, 24),
    (
        &[SECTION, SHORT_ETHERNET, SHORT_SIMPLE, SECTION, PACKET],
        1,
        3,
        40,
    ),
    (&[SECTION, b"\xad\x0b\0\0\x0e\0\0\0"], 0, 0, 14),
    (&[SECTION, b"\xad\x0b\0\0\x08\0\0\0"], 0, 0, 8),
    (&[SECTION, b"\xad\x0b\0\0\x04\0\0\x01"], 0, 0, 16_777_220),
];

#[test]
fn a_damaged_block_tells_its_length(rt: HostRuntime) -> Result<(), Fail> {
    for (blocks, count, captured, length) in &DAMAGED {
        let capture = joined(rt.alloc(), blocks)?;
        let stop = FeedStop::Damaged { length: *length };
        comes(
            &rt,
            rt.alloc(),
            &capture,
            1 << 40,
            (*count, *captured, Some(stop)),
        )?;
    }
    Ok(())
}

/// A section header of version 2.
const VERSION_2: &[u8] =
    b"\x0a\x0d\x0d\x0a\x1c\0\0\0\x4d\x3c\x2b\x1a\x02\0\0\0\xff\xff\xff\xff\xff\xff\xff\xff\x1c\0\0\0";

/// Blocks without a record, and how they stop.
static CUT: [(BlockList, FeedStop); 3] = [
    (&[SECTION, b"\xad\x0b\0\0\x0c\0\0"], FeedStop::Cut),
    (
        &[SECTION, ETHERNET, b"\x06\0\0\0\x28\0\0\0\x01\0\0"],
        FeedStop::Cut,
    ),
    (&[VERSION_2], FeedStop::NotCapture),
];

#[test]
fn a_block_is_cut_or_of_another_version(rt: HostRuntime) -> Result<(), Fail> {
    for (blocks, stop) in &CUT {
        let capture = joined(rt.alloc(), blocks)?;
        comes(&rt, rt.alloc(), &capture, 1 << 40, (0, 0, Some(*stop)))?;
    }
    Ok(())
}

#[test]
fn a_capture_is_written(rt: HostRuntime) {
    let mut out: ArrayVec<u8, 1064> = ArrayVec::new();
    put_header(&mut out);
    assert_eq!(rt;
        out.as_slice(),
        b"\x4d\x3c\xb2\xa1\x02\x00\x04\x00\x00\x00\x00\x00\x00\x00\x00\x00\xff\xff\x00\x00\x01\x00\x00\x00".as_slice()
    );
    out.clear();
    put_record(&mut out, 0x6592_0080, 0, &[9; 128]);
    assert_eq!(rt; out.len(), 144);
    assert_eq!(rt;
        out.as_slice().get(..17),
        Some(b"\x80\x00\x92\x65\x00\x00\x00\x00\x80\x00\x00\x00\x80\x00\x00\x00\x09".as_slice())
    );
}
