//! Captures in pcapng at their bounds, and with reads that fail.
ghost use Rattle.std.specs.Prelude.{◌^◌, ◌≤◌};

use super::{
    BIG_SECTION, COOKED, CUSTOM, Came, ETHERNET, PACKET, SECTION, SHORT_ETHERNET, SHORT_SIMPLE,
    SIMPLE, comes, joined, records_of,
};
use capture_feed::FeedStop;
use std::alloc::{AllocError, Global};
use std::test::Fail;

const MOST: u64 = 1 << 40;

/// An Ethernet interface whose snap length is 0, and one with an option and an end of options.
const UNLIMITED: &[u8] = b"\x01\0\0\0\x14\0\0\0\x01\0\0\0\0\0\0\0\x14\0\0\0";

const ETHERNET_WITH_OPTION: &[u8] =
    b"\x01\0\0\0\x20\0\0\0\x01\0\0\0\0\0\x04\0\x09\0\x01\0\x09\0\0\0\0\0\0\0\x20\0\0\0";

/// A packet of 5 bytes with a comment and an end of options, and one on interface 255.
const PACKET_WITH_COMMENT: &[u8] =
    b"\x06\0\0\0\x34\0\0\0\0\0\0\0\0\0\0\0\0\0\0\0\x05\0\0\0\x05\0\0\0abcde\0\0\0\x01\0\x03\0xyz\0\0\0\0\0\x34\0\0\0";

const PACKET_ON_255: &[u8] =
    b"\x06\0\0\0\x28\0\0\0\xff\0\0\0\0\0\0\0\0\0\0\0\x05\0\0\0\x05\0\0\0abcde\0\0\0\x28\0\0\0";

/// A simple packet of 9 bytes in a block with room for 8.
const SIMPLE_TOO_LONG: &[u8] = b"\x03\0\0\0\x18\0\0\0\x09\0\0\0abcdefgh\x18\0\0\0";

fn damaged(length: u32) -> Option<FeedStop> {
    Some(FeedStop::Damaged { length })
}

/// A block with these first bytes, that many bytes behind them, and its total length.
type Block = (&'static [u8], usize, &'static [u8]);

/// Appends a block, with sevens behind its first bytes.
fn put_block(capture: &mut Vec<u8>, block: &Block) -> Result<(), AllocError> {
    let (head, count, last) = *block;
    capture.extend_from_slice(head)?;
    for _ in 0..count {
        capture.push(7)?;
    }
    capture.extend_from_slice(last)
}

/// What is longer than it can be written out, behind a section and an Ethernet interface.
fn with_block(alloc: Global, block: &Block) -> Result<Vec<u8>, AllocError> {
    let mut capture = joined(alloc, &[SECTION, UNLIMITED])?;
    put_block(&mut capture, block)?;
    Ok(capture)
}

#[test]
fn options_and_snap_lengths(rt: HostRuntime) -> Result<(), Fail> {
    let rows: [(&[&[u8]], Came); 5] = [
        (&[SECTION, UNLIMITED, SIMPLE, PACKET], (2, 10, None)),
        (
            &[SECTION, ETHERNET_WITH_OPTION, PACKET_WITH_COMMENT, SIMPLE],
            (2, 10, None),
        ),
        (&[SECTION, ETHERNET, SIMPLE_TOO_LONG], (0, 0, damaged(24))),
        (
            &[BIG_SECTION, b"\x0a\x0d\x0d\x0a\0\0\0\x1c\x1a\x2b\x3c\x4e"],
            (0, 0, damaged(28)),
        ),
        (
            &[SECTION, b"\x0a\x0d\x0d\x0a\0\0\0\x1c\x1a\x2b\x3c\x4e"],
            (0, 0, damaged(0x1c00_0000)),
        ),
    ];
    for (blocks, want) in rows {
        let capture = joined(rt.alloc(), blocks)?;
        comes(&rt, rt.alloc(), &capture, MOST, want)?;
    }
    Ok(())
}

#[test]
fn a_section_has_256_interfaces_at_most(rt: HostRuntime) -> Result<(), Fail> {
    let mut capture = joined(rt.alloc(), &[SECTION])?;
    for _ in 0..255 {
        capture.extend_from_slice(COOKED)?;
    }
    capture.extend_from_slice(ETHERNET)?;
    capture.extend_from_slice(PACKET_ON_255)?;
    comes(&rt, rt.alloc(), &capture, MOST, (1, 5, None))?;
    capture.extend_from_slice(ETHERNET)?;
    comes(&rt, rt.alloc(), &capture, MOST, (1, 5, damaged(20)))?;
    Ok(())
}

/// Packets of 262,144 and of 262,145 bytes, the latter with padding; each kind.
const LONGEST: Block = (
    b"\x06\0\0\0\x20\0\x04\0\0\0\0\0\0\0\0\0\0\0\0\0\0\0\x04\0\0\0\x04\0",
    262_144,
    b"\x20\0\x04\0",
);

const TOO_LONG: Block = (
    b"\x06\0\0\0\x24\0\x04\0\0\0\0\0\0\0\0\0\0\0\0\0\x01\0\x04\0\x01\0\x04\0",
    262_148,
    b"\x24\0\x04\0",
);

const LONGEST_SIMPLE: Block = (
    b"\x03\0\0\0\x10\0\x04\0\0\0\x04\0",
    262_144,
    b"\x10\0\x04\0",
);

const TOO_LONG_SIMPLE: Block = (
    b"\x03\0\0\0\x14\0\x04\0\x01\0\x04\0",
    262_148,
    b"\x14\0\x04\0",
);

#[test]
fn a_packet_has_262144_bytes_at_most(rt: HostRuntime) -> Result<(), Fail> {
    let rows: [(Block, Came); 4] = [
        (LONGEST, (1, 262_144, None)),
        (TOO_LONG, (0, 0, damaged(262_180))),
        (LONGEST_SIMPLE, (1, 262_144, None)),
        (TOO_LONG_SIMPLE, (0, 0, damaged(262_164))),
    ];
    for (block, want) in rows {
        let capture = with_block(rt.alloc(), &block)?;
        comes(&rt, rt.alloc(), &capture, MOST, want)?;
    }
    Ok(())
}

/// A block of another type, a MiB long, and one that is longer than what is held of a block at once.
const MEBIBYTE: Block = (b"\xad\x0b\0\0\0\0\x10\0", 1_048_564, b"\0\0\x10\0");

const LONG: Block = (b"\xad\x0b\0\0\x0c\x10\0\0", 4096, b"\x0c\x10\0\0");

#[test]
fn a_block_of_a_mebibyte_is_passed_over(rt: HostRuntime) -> Result<(), Fail> {
    let mut capture = joined(rt.alloc(), &[SECTION, ETHERNET, PACKET])?;
    put_block(&mut capture, &MEBIBYTE)?;
    capture.extend_from_slice(PACKET)?;
    comes(&rt, rt.alloc(), &capture, MOST, (2, 10, None))?;
    Ok(())
}

#[test]
fn blocks_begin_below_the_limit(rt: HostRuntime) -> Result<(), Fail> {
    // The blocks begin at 0, 28, 48 and 88, and the last one ends at 128.
    let capture = joined(rt.alloc(), &[SECTION, ETHERNET, PACKET, PACKET])?;
    let too_long = Some(FeedStop::TooLong);
    comes(&rt, rt.alloc(), &capture, 24, (0, 0, too_long))?;
    comes(&rt, rt.alloc(), &capture, 48, (0, 0, too_long))?;
    comes(&rt, rt.alloc(), &capture, 49, (1, 5, too_long))?;
    comes(&rt, rt.alloc(), &capture, 88, (1, 5, too_long))?;
    comes(&rt, rt.alloc(), &capture, 89, (2, 10, too_long))?;
    comes(&rt, rt.alloc(), &capture, 128, (2, 10, too_long))?;
    comes(&rt, rt.alloc(), &capture, 129, (2, 10, None))?;
    Ok(())
}

#[test]
fn a_fault_comes_behind_the_whole_packets(rt: HostRuntime) -> Result<(), Fail> {
    let alloc = rt.alloc();
    // With a byte a read, n - 1 bytes stand before the n-th read. The packets end at 68 and 120.
    let capture = joined(
        alloc,
        &[SECTION, SHORT_ETHERNET, SHORT_SIMPLE, CUSTOM, PACKET],
    )?;
    let fault = Some(FeedStop::Fault);
    for read in 1..=121u64 {
        let want = match read {
            1..=68 => (0, 0, fault),
            69..=120 => (1, 3, fault),
            _ => (2, 8, fault),
        };
        // The first call opens the capture.
        assert_eq!(rt;
            records_of(alloc, &capture, MOST, 1, read + 1)?,
            want,
            "{read}"
        );
    }
    assert_eq!(rt; records_of(alloc, &capture, MOST, 1, 123)?, (2, 8, None));
    Ok(())
}

#[test]
fn a_fault_comes_within_a_long_block(rt: HostRuntime) -> Result<(), Fail> {
    let alloc = rt.alloc();
    // The long block ends at 4176, and the packet behind it at 4216.
    let mut capture = joined(alloc, &[SECTION, SHORT_ETHERNET, SHORT_SIMPLE])?;
    put_block(&mut capture, &LONG)?;
    capture.extend_from_slice(PACKET)?;
    for read in 4160..=4216u64 {
        let came = records_of(alloc, &capture, MOST, 1, read + 1)?;
        assert_eq!(rt; came, (1, 3, Some(FeedStop::Fault)), "{read}");
    }
    assert_eq!(rt; records_of(alloc, &capture, MOST, 1, 4219)?, (2, 8, None));
    Ok(())
}
