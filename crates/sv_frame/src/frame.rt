//! The frame: what stands in front of the APDU, and the layers one after the other.
ghost use Rattle.std.specs.Prelude.{◌≡◌, ◌+◌, ◌<◌, ◌≤◌, length, min, IfSome, IfOk};
ghost use Rattle.std.specs.Option.{option_map};
ghost use Rattle.byteorder.specs.Endian.{big_number};
ghost use Rattle.sv_frame.specs.Frame.{begins, untagged, payload_of, apdu_of, asdus_in};
ghost use Rattle.sv_frame.specs.Sequence.{asdus_in_parts};
ghost use Rattle.sv_frame.specs.Views.{plain_parts, asdus_by};
ghost use Rattle.sv_frame.specs.Answer.{seen};

use crate::lent::{AsduSequence, Parts};
use crate::pdu::pdu_of;
use crate::{Reason, tags};
use byteorder::{BigEndian, ByteOrder};
use relay_num::Steps;
use std::sync::ledger::Ledger;

/// Whether an EtherType of this kind stands at the front.
fn begins(bytes: &[u8], kind: u16) -> bool
    ensures { result ≡ begins kind bytes.now }
{
    if bytes.len() < 2 {
        return false;
    }
    BigEndian::read_u16(bytes) == kind
}

/// What stands behind a tag of a virtual network, if there is one.
fn untagged(bytes: &[u8]) -> &[u8]
    ensures exact { result.now ≡ untagged bytes.now }
    ensures size { length result.now ≤ length bytes.now }
{
    if !begins(bytes, tags::VIRTUAL_NETWORK) {
        return bytes;
    }
    if bytes.len() < 4 {
        return &[];
    }
    &bytes[4..]
}

/// The bytes behind the EtherType of sampled values.
pub(crate) fn payload_of(frame: &[u8]) -> Option<&[u8]>
    ensures exact { option_map (λ x. x.now) result ≡ payload_of frame.now }
    ensures size { IfSome result (λ x. length x.now ≤ length frame.now) }
{
    if frame.len() < 12 {
        return None;
    }
    let typed = untagged(&frame[12..]);
    if !begins(typed, tags::SAMPLED_VALUES) {
        return None;
    }
    Some(&typed[2..])
}

/// The APDU behind the four words APPID, Length and two reserved ones. `before` bytes of the frame
/// stand before the payload.
fn apdu_of<'a>(before: usize, payload: &'a [u8], captured: u32) -> Result<&'a [u8], Reason>
    requires { before + length payload.now ≡ min captured 2048 }
    ensures exact { seen (λ x. x.now) result ≡ apdu_of before captured payload.now }
    ensures small { IfOk result (λ x. length x.now ≤ 2048) }
{
    if payload.len() < 8 {
        return Err(Reason::Header);
    }
    let counted = BigEndian::read_u16(&payload[2..]) as usize;
    if counted < 8 || before + counted > captured as usize {
        return Err(Reason::Length);
    }
    if captured > 2048 {
        return Err(Reason::Long);
    }
    Ok(&payload[8..counted])
}

/// The number that these bytes are in the order of the net. One byte is the usual case.
fn number_of(bytes: &[u8]) -> u64
    requires { (0 < length bytes.now) × (length bytes.now ≤ 4) }
    ensures { result ≡ big_number (length bytes.now) bytes.now }
{
    if let [byte] = bytes {
        return *byte as u64;
    }
    BigEndian::read_uint(bytes, bytes.len())
}

/// The bytes of as many ASDUs as the count says, from one to sixteen.
fn sequence_of<'a>(parts: Parts<'a>) -> Result<AsduSequence<'a>, Reason>
    requires size { (0 < length parts.count.now) × (length parts.count.now ≤ 4) }
    ensures exact { asdus_by result ≡ asdus_in_parts (plain_parts parts.entry) }
{
    let count = number_of(parts.count);
    if count == 0 || count > 16 {
        return Err(Reason::Count);
    }
    Ok(AsduSequence {
        count: count as usize,
        bytes: parts.sequence,
    })
}

/// The bytes of the ASDUs, or the first layer in front of them that fails.
#[tactic(auto, unfolding(crate::specs::Frame::asdus_in))]
pub(crate) fn sequence_in<'a, L: Ledger>(
    before: usize,
    payload: &'a [u8],
    captured: u32,
    steps: &mut Steps<L>,
) -> Result<AsduSequence<'a>, Reason>
    requires size { before + length payload.now ≡ min captured 2048 }
    ensures exact { asdus_by result ≡ asdus_in before captured payload.now }
    ensures cost { steps.new ≤ steps.old + 4 }
{
    let apdu = apdu_of(before, payload, captured)?;
    let Some(parts) = pdu_of(apdu, steps) else {
        return Err(Reason::Pdu);
    };
    sequence_of(parts)
}
