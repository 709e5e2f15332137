//! What a sound block of a pcapng file says.
ghost use Rattle.std.specs.Prelude.{◌≡◌, ◌&&◌, ℕ, ◌≤◌, length, IfSome};
ghost use Rattle.capture_feed.specs.Pcapng.{is_section_header, has_head, is_good, captured_by, packet_on};
ghost use Rattle.capture_feed.specs.Sections.{IsWithin};

use crate::pcap::MOST_CAPTURED;

/// The link type of Ethernet.
const ETHERNET: u16 = 1;

/// The greatest total length of a block.
const MOST_TOTAL: u32 = 16_777_216;

/// What an interface description block tells of an interface.
#[derive(Clone, Copy)]
pub struct Interface {
    pub link_type: u16,
    pub snap_length: u32,
}

/// What a sound block says.
#[derive(Clone, Copy)]
pub enum Content {
    /// One more interface of the section.
    Description(Interface),
    /// A packet of an Ethernet interface: how far behind the block's first byte its captured bytes
    /// begin, and how many there are.
    Packet { from: u32, captured: u32 },
    /// Anything else, which is passed over.
    Passed,
}

/// Whether the block at the front has the type of a section header, which reads the same in both
/// byte orders.
pub fn is_section_header(rest: &[u8]) -> bool
    requires { 4 ≤ length rest.now }
    ensures { result ≡ is_section_header rest.now }
{
    rest[..4] == [0x0a, 0x0d, 0x0d, 0x0a]
}

/// Whether the block's first bytes are there, up to its total length, or in a section header up to
/// its byte-order magic.
pub fn has_head(rest: &[u8]) -> bool
    ensures { result ≡ has_head rest.now }
{
    rest.len() >= 8 && (rest.len() >= 12 || !is_section_header(rest))
}

/// Whether a block may have this total length.
fn is_good(total: u32) -> bool
    ensures { result ≡ is_good total }
{
    total % 4 == 0 && (total >= 12 && total <= MOST_TOTAL)
}

/// Whether a block with these first bytes may be sound: its byte order is known, and its total length
/// is good.
pub fn is_begun(is_known: bool, total: u32) -> bool
    ensures { result ≡ (is_known && is_good total) }
{
    is_known && is_good(total)
}

/// How much of a packet is captured by an interface of this snap length, of which 0 is none.
pub fn captured_up_to(snap_length: u32, original: u32) -> u32
    ensures { result ≡ captured_by snap_length original }
{
    if snap_length == 0 {
        original
    } else {
        snap_length.min(original)
    }
}

/// What a packet of this interface says, whose captured bytes begin so far behind the block's first:
/// they and the total length behind them are within the block, rounded up to a multiple of 4.
pub fn packet_on(interface: Interface, from: u32, captured: u32, total: u32) -> Option<Content>
    requires { (12 ≤ from) × (from ≤ 28) }
    ensures content { result ≡ packet_on interface from captured total }
    ensures within { (count : ℕ) → IfSome result (λ content. IsWithin total count content) }
{
    if captured > MOST_CAPTURED || (from + 4 + captured + 3) / 4 * 4 > total {
        return None;
    }
    if interface.link_type == ETHERNET {
        return Some(Content::Packet { from, captured });
    }
    Some(Content::Passed)
}
