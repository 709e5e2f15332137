//! Captures as the relay writes them.
ghost use Rattle.std.specs.Prelude.{◌≡◌, ◌+◌, ◌≤◌, ◌++◌, length};
ghost use Rattle.arrayvec.specs.ArrayVec.{array_vec_len};
ghost use Rattle.byteorder.specs.Endian.{little_bytes};
ghost use Rattle.capture_feed.specs.Written.{header_bytes, record_bytes, WrittenReadsBack};

use arrayvec::ArrayVec;

/// The magic number of nanoseconds with the lowest byte first, version 2.4, no time zone and no
/// accuracy, a snap length of 65535, and the link type of Ethernet.
static HEADER_BYTES: [u8; 24] = [
    0x4d, 0x3c, 0xb2, 0xa1, 2, 0, 4, 0, 0, 0, 0, 0, 0, 0, 0, 0, 0xff, 0xff, 0, 0, 1, 0, 0, 0,
];

/// Appends the header of a written capture: pcap version 2.4, lowest byte first, nanoseconds,
/// Ethernet.
///
/// The 24 bytes must fit.
pub fn put_header(out: &mut ArrayVec<u8, 1064>)
    requires { array_vec_len out.old + 24 ≤ 1064 }
    ensures { out.new.items ≡ out.old.items ++ header_bytes }
{
    let _ = out.try_extend_from_slice(&HEADER_BYTES);
}

/// Appends a number as four bytes, the lowest first.
fn put_number(out: &mut ArrayVec<u8, 1064>, number: u32)
    requires { array_vec_len out.old + 4 ≤ 1064 }
    ensures items { out.new.items ≡ out.old.items ++ little_bytes 4 number }
    ensures length { array_vec_len out.new ≡ array_vec_len out.old + 4 }
{
    let _ = out.try_extend_from_slice(&number.to_le_bytes());
}

/// Appends one record of a written capture: the time in seconds since 1970 and nanoseconds, the
/// frame's length as captured and as original length, each as four bytes with the lowest first, and
/// the frame.
///
/// The 16 bytes and the frame must fit.
pub fn put_record(out: &mut ArrayVec<u8, 1064>, seconds: u32, nanos: u32, frame: &[u8])
    requires { array_vec_len out.old + (16 + length frame.now) ≤ 1064 }
    ensures { out.new.items ≡ out.old.items ++ record_bytes seconds nanos frame.now }
{
    let length = frame.len() as u32;
    put_number(out, seconds);
    put_number(out, nanos);
    put_number(out, length);
    put_number(out, length);
    let _ = out.try_extend_from_slice(frame);
}

/// Shows that a written capture is read back: the records of a header and of frames of at most
/// 262,144 bytes each are those frames, and the capture is whole.
pub fn show_written_reads_back()
    ensures { WrittenReadsBack }
{}
