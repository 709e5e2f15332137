//! Pcapng files: one block after another.
ghost use Rattle.std.specs.Prelude.{◌≡◌, ◌≢◌, ℕ, ◌+◌, ◌^◌, ◌<◌, ◌≤◌, length, IfOk, IfSome, IfErr};
ghost use Rattle.room_io.specs.Room.{IsReadyIn};
ghost use Rattle.room_io.specs.declared.room.Slot.TheVariants.{Capture};
ghost use Rattle.capture_feed.specs.Reads.{OnlyReads};
ghost use Rattle.capture_feed.specs.Pieces.{left_by, place_at, IsNear, IsSound, Asks};
ghost use Rattle.capture_feed.specs.Pcapng.{is_pcapng_header};
ghost use Rattle.capture_feed.specs.declared.cursor.Cursor.TheVariants.{Pcapng};

use crate::block::Block;
use crate::content::{Content, has_head, is_begun, is_section_header};
use crate::numbers::{u16_at, u32_at};
use crate::piece::{Piece, Place};
use crate::section::Section;
use crate::stop::FeedStop;
use room_io::Room;

/// The least total length of a block.
const LEAST_TOTAL: usize = 12;

/// How many bytes of a block are held at once, at most.
const MOST_HELD: u32 = 4096;

/// Whether these bytes begin a pcapng file: a section header of version 1.
pub fn is_header(bytes: &[u8]) -> bool
    requires { 24 ≤ length bytes.now }
    ensures { result ≡ is_pcapng_header bytes.now }
{
    if !is_section_header(bytes) {
        return false;
    }
    if bytes[8..12] == [0x1a, 0x2b, 0x3c, 0x4d] {
        return u16_at(bytes, 12, true) == 1;
    }
    if bytes[8..12] == [0x4d, 0x3c, 0x2b, 0x1a] {
        return u16_at(bytes, 12, false) == 1;
    }
    false
}

/// Where the packet of a block that begins here stands.
fn place_of(content: &Content, at: usize) -> Option<Place>
    requires at { at + 28 < 2 ^ 64 }
    requires near { IsNear content.now }
    ensures { result ≡ place_at content.now at }
{
    match content {
        Content::Packet { from, captured } => Some(Place {
            at: at + *from as usize,
            captured: *captured,
        }),
        _ => None,
    }
}

/// Takes the next block off what is left; `None` at the whole end.
///
/// `Cut`: the input ended within a block. `Damaged`: the block with this total length isn't sound.
/// `Fault`: a read failed, and the bytes read so far hold no further whole block.
pub fn next_block<R: Room>(
    block: &mut Block,
    section: &mut Section,
    room: &mut R,
) -> Result<Option<Piece>, FeedStop>
    requires ready { IsReadyIn Capture (R.state room.old) }
    ensures reads { OnlyReads (R.state room.old) (R.state room.new) }
    ensures sound { IfOk result (λ got. IfSome got (λ piece. IsSound block.new piece)) }
    ensures kinds { IfErr result (λ stop. stop ≢ FeedStop.TooLong) }
    ensures asks { (limit taken : ℕ) → taken < limit → Asks (left_by (Pcapng section.old) block.old limit taken)
        (λ size. left_by (Pcapng section.new) block.new limit (taken + size))
        block.new (R.state room.old) (R.state room.new) result }
{
    match block.fill(room, LEAST_TOTAL) {
        Ok(()) => {}
        Err(_) => return Err(FeedStop::Fault),
    }
    if block.held() == 0 {
        return Ok(None);
    }
    if !has_head(block.rest()) {
        return Err(FeedStop::Cut);
    }
    let is_known = section.enter(block.rest());
    let total = u32_at(block.rest(), 4, section.is_big);
    if !is_begun(is_known, total) {
        return Err(FeedStop::Damaged { length: total });
    }
    let most = total.min(MOST_HELD) as usize;
    match block.fill(room, most) {
        Ok(()) => {}
        Err(_) => return Err(FeedStop::Fault),
    }
    if block.held() < most {
        return Err(FeedStop::Cut);
    }
    let said = section.content(block.rest(), total);
    let at = block.at;
    match block.skip(room, u64::from(total) - 4) {
        Ok(true) => {}
        Ok(false) => return Err(FeedStop::Cut),
        Err(_) => return Err(FeedStop::Fault),
    }
    let last = match block.take_four(room) {
        Ok(Some(last)) => last,
        Ok(None) => return Err(FeedStop::Cut),
        Err(_) => return Err(FeedStop::Fault),
    };
    match said {
        Some(content) if u32_at(&last, 0, section.is_big) == total => {
            section.go_on(content);
            Ok(Some(Piece {
                size: u64::from(total),
                packet: place_of(&content, at),
            }))
        }
        _ => Err(FeedStop::Damaged { length: total }),
    }
}
