//! Pcap files: the header, and one record after another.
ghost use Rattle.std.specs.Prelude.{◌≡◌, ◌≢◌, ℕ, ◌+◌, ◌≤◌, ◌<◌, length, IfOk, IfSome, IfErr};
ghost use Rattle.room_io.specs.Room.{IsReadyIn};
ghost use Rattle.room_io.specs.declared.room.Slot.TheVariants.{Capture};
ghost use Rattle.capture_feed.specs.Pcap.{captured, pcap_order};
ghost use Rattle.capture_feed.specs.declared.cursor.Cursor.TheVariants.{Pcap};
ghost use Rattle.capture_feed.specs.Reads.{OnlyReads};
ghost use Rattle.capture_feed.specs.Pieces.{left_by, IsSound, Asks};

use crate::block::Block;
use crate::numbers::u32_at;
use crate::piece::{Piece, Place};
use crate::stop::FeedStop;
use room_io::Room;

/// The length of a file's header.
pub const HEADER: usize = 24;

/// The length of a record header.
const RECORD_HEAD: usize = 16;

/// The greatest captured length that a record may tell, which is libpcap's own limit.
pub const MOST_CAPTURED: u32 = 262_144;

/// The most captured bytes of a record that are lent.
pub const MOST_LENT: u32 = 2048;

/// Whether the numbers behind this header have the highest byte first, by its magic number; `None`
/// where it is no header of version 2.4 and Ethernet.
pub fn order_of(header: &[u8]) -> Option<bool>
    requires { 24 ≤ length header.now }
    ensures { result ≡ pcap_order header.now }
{
    if (header[..4] == [0xa1, 0xb2, 0xc3, 0xd4] || header[..4] == [0xa1, 0xb2, 0x3c, 0x4d])
        && (header[4..8] == [0, 2, 0, 4] && header[22..24] == [0, 1])
    {
        return Some(true);
    }
    if (header[..4] == [0xd4, 0xc3, 0xb2, 0xa1] || header[..4] == [0x4d, 0x3c, 0xb2, 0xa1])
        && (header[4..8] == [2, 0, 4, 0] && header[20..22] == [1, 0])
    {
        return Some(false);
    }
    None
}

/// The captured length in the record header at the front.
fn captured_at(rest: &[u8], is_big: bool) -> u32
    requires { 12 ≤ length rest.now }
    ensures { result ≡ captured is_big rest.now }
{
    u32_at(rest, 8, is_big)
}

/// Takes the next record off what is left; `None` at the whole end.
///
/// `Cut`: the input ended within a record. `Damaged`: the captured length is above 262,144.
/// `Fault`: a read failed, and the bytes read so far hold no further whole record.
pub fn next_record<R: Room>(
    block: &mut Block,
    is_big: bool,
    room: &mut R,
) -> Result<Option<Piece>, FeedStop>
    requires ready { IsReadyIn Capture (R.state room.old) }
    ensures reads { OnlyReads (R.state room.old) (R.state room.new) }
    ensures sound { IfOk result (λ got. IfSome got (λ piece. IsSound block.new piece)) }
    ensures kinds { IfErr result (λ stop. stop ≢ FeedStop.TooLong) }
    ensures asks { (limit taken : ℕ) → taken < limit → Asks (left_by (Pcap is_big) block.old limit taken)
        (λ size. left_by (Pcap is_big) block.new limit (taken + size))
        block.new (R.state room.old) (R.state room.new) result }
{
    match block.fill(room, RECORD_HEAD) {
        Ok(()) => {}
        Err(_) => return Err(FeedStop::Fault),
    }
    if block.held() == 0 {
        return Ok(None);
    }
    if block.held() < RECORD_HEAD {
        return Err(FeedStop::Cut);
    }
    let captured = captured_at(block.rest(), is_big);
    if captured > MOST_CAPTURED {
        return Err(FeedStop::Damaged { length: captured });
    }
    let kept = captured.min(MOST_LENT) as usize;
    match block.fill(room, RECORD_HEAD + kept) {
        Ok(()) => {}
        Err(_) => return Err(FeedStop::Fault),
    }
    if block.held() < RECORD_HEAD + kept {
        return Err(FeedStop::Cut);
    }
    let at = block.at + RECORD_HEAD;
    let size = RECORD_HEAD as u64 + captured as u64;
    match block.skip(room, size) {
        Ok(true) => Ok(Some(Piece {
            size,
            packet: Some(Place { at, captured }),
        })),
        Ok(false) => Err(FeedStop::Cut),
        Err(_) => Err(FeedStop::Fault),
    }
}
