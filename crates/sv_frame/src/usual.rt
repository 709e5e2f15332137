//! The usual form of a frame's parts, in which each length has one byte: of a PDU a count of one byte and the sequence,
//! of an ASDU the five required fields, and no other.
ghost use Rattle.std.specs.Prelude.{◌≡◌, ◌≢◌, ◌%◌, ◌<◌, ◌≤◌, ◌+◌, true, length, drop, slice_range, IfSome, Some};
ghost use Rattle.ber_fields.specs.Element.{element, element_at};
ghost use Rattle.sv_frame.specs.Asdu.{plain_asdu, asdu_of};
ghost use Rattle.sv_frame.specs.Pdu.{pdu_of};
ghost use Rattle.sv_frame.specs.Views.{plain_parts};

use crate::lent::{Asdu, Parts};
use crate::tags;
use ber_fields::BerHead;
use byteorder::{BigEndian, ByteOrder};

/// The head at the byte `at`, where it has this tag and a length of one byte.
#[inline(always)]
fn field_at(text: &[u8], at: usize, tag: u8) -> Option<BerHead>
    requires at { at ≤ length text.now }
    requires tag { tag % 32 ≢ 31 }
    ensures exact { IfSome result (λ h. element_at (drop at text.now) ≡ Some (element tag (slice_range text.now h.start h.end), drop h.end text.now)) }
    ensures within { IfSome result (λ h. (at < h.start) × (h.start ≤ h.end) × (h.end ≤ length text.now)) }
{
    let [found, first, contents @ ..] = &text[at..] else {
        return None;
    };
    let length = *first as usize;
    if *found != tag || length >= 128 || length > contents.len() {
        return None;
    }
    let start = at + 2;
    Some(BerHead {
        tag,
        start,
        end: start + length,
    })
}

/// Whether the field at the byte `at` has this tag and this many bytes, which are there.
#[inline(always)]
fn is_field(text: &[u8], at: usize, tag: u8, size: u8) -> bool
    requires inside { at + 2 + size ≤ length text.now }
    requires tag { tag % 32 ≢ 31 }
    requires size { size < 128 }
    requires small { length text.now ≤ 2048 }
    ensures { result ≡ true → element_at (drop at text.now) ≡ Some (element tag (slice_range text.now (at + 2) (at + 2 + size)), drop (at + 2 + size) text.now) }
{
    if text[at] != tag || text[at + 1] != size {
        return false;
    }
    true
}

/// The ASDU that the bytes are, where it has the usual form.
#[inline(always)]
pub(crate) fn usual_asdu<'a>(text: &'a [u8]) -> Option<Asdu<'a>>
    requires { length text.now ≤ 2048 }
    ensures { IfSome result (λ asdu. asdu_of text.now ≡ Some (plain_asdu asdu)) }
{
    let name = field_at(text, 0, tags::SV_ID)?;
    let at = name.end;
    if text.len() - at < 13 {
        return None;
    }
    if !is_field(text, at, tags::COUNTER, 2)
        || !is_field(text, at + 4, tags::CONF_REV, 4)
        || !is_field(text, at + 10, tags::SYNCH, 1)
    {
        return None;
    }
    let samples = field_at(text, at + 13, tags::SAMPLES)?;
    if samples.end != text.len() {
        return None;
    }
    let clock = &text[at + 12..at + 13];
    Some(Asdu {
        sv_id: &text[name.start..at],
        samples: &text[samples.start..samples.end],
        conf_rev: BigEndian::read_u32(&text[at + 6..at + 10]),
        counter: BigEndian::read_u16(&text[at + 2..at + 4]),
        synch: clock[0],
    })
}

/// The parts of the PDU that fills the APDU, where it has the usual form.
#[inline(always)]
pub(crate) fn usual_pdu<'a>(apdu: &'a [u8]) -> Option<Parts<'a>>
    requires { length apdu.now ≤ 2048 }
    ensures exact { IfSome result (λ parts. pdu_of apdu.now ≡ Some (plain_parts parts)) }
    ensures size { IfSome result (λ parts. length parts.count.now ≡ 1) }
{
    let outer = field_at(apdu, 0, tags::SAV_PDU)?;
    if outer.end != apdu.len() {
        return None;
    }
    let inner = &apdu[outer.start..outer.end];
    if inner.len() < 3 || !is_field(inner, 0, tags::ASDU_COUNT, 1) {
        return None;
    }
    let sequence = field_at(inner, 3, tags::ASDU_SEQUENCE)?;
    if sequence.end != inner.len() {
        return None;
    }
    Some(Parts {
        count: &inner[2..3],
        sequence: &inner[sequence.start..sequence.end],
    })
}
