//! The APDU: how many ASDUs there are, and the bytes that hold them.
ghost use Rattle.std.specs.Prelude.{◌≡◌, ◌+◌, ◌<◌, ◌≤◌, length, IfSome};
ghost use Rattle.std.specs.Option.{option_map};
ghost use Rattle.ber_fields.specs.Heads.{element_of};
ghost use Rattle.sv_frame.specs.Pdu.{counted, pdu_of};
ghost use Rattle.sv_frame.specs.Enclosed.{only_in, parts_in};
ghost use Rattle.sv_frame.specs.Views.{plain_parts};

use crate::lent::Parts;
use crate::tags;
use crate::usual::usual_pdu;
use ber_fields::{BerHead, head};
use relay_num::Steps;
use std::sync::ledger::Ledger;

/// The parts, where the tags are those of a count and a sequence, and the count has one to four bytes.
fn counted<'a>(bytes: &'a [u8], number: BerHead, sequence: BerHead) -> Option<Parts<'a>>
    requires small { length bytes.now ≤ 2048 }
    requires number { (number.start ≤ number.end) × (number.end ≤ length bytes.now) }
    requires sequence { (sequence.start ≤ sequence.end) × (sequence.end ≤ length bytes.now) }
    ensures exact { option_map plain_parts result ≡ counted (element_of bytes.now number) (element_of bytes.now sequence) }
    ensures size { IfSome result (λ parts. (0 < length parts.count.now) × (length parts.count.now ≤ 4)) }
{
    let count = &bytes[number.start..number.end];
    if number.tag != tags::ASDU_COUNT
        || count.is_empty()
        || count.len() > 4
        || sequence.tag != tags::ASDU_SEQUENCE
    {
        return None;
    }
    Some(Parts {
        count,
        sequence: &bytes[sequence.start..sequence.end],
    })
}

/// The parts that the bytes are: a count, maybe a security field, and a sequence.
fn parts_in<'a, L: Ledger>(bytes: &'a [u8], steps: &mut Steps<L>) -> Option<Parts<'a>>
    requires { length bytes.now ≤ 2048 }
    ensures exact { option_map plain_parts result ≡ parts_in bytes.now }
    ensures size { IfSome result (λ parts. (0 < length parts.count.now) × (length parts.count.now ≤ 4)) }
    ensures cost { steps.new ≤ steps.old + 3 }
{
    let Ok(number) = head(bytes, 0, steps) else {
        return None;
    };
    let Ok(second) = head(bytes, number.end, steps) else {
        return None;
    };
    if second.end == bytes.len() {
        return counted(bytes, number, second);
    }
    let Ok(third) = head(bytes, second.end, steps) else {
        return None;
    };
    if second.tag != tags::SECURITY || third.end < bytes.len() {
        return None;
    }
    counted(bytes, number, third)
}

/// The contents of the one element that fills the bytes, where it has this tag.
fn only_in<'a, L: Ledger>(tag: u8, bytes: &'a [u8], steps: &mut Steps<L>) -> Option<&'a [u8]>
    requires { length bytes.now ≤ 2048 }
    ensures exact { option_map (λ x. x.now) result ≡ only_in tag bytes.now }
    ensures small { IfSome result (λ x. length x.now ≤ 2048) }
    ensures cost { steps.new ≤ steps.old + 1 }
{
    let Ok(field) = head(bytes, 0, steps) else {
        return None;
    };
    if field.tag != tag || field.end < bytes.len() {
        return None;
    }
    Some(&bytes[field.start..field.end])
}

/// The parts of the PDU that fills the APDU.
#[tactic(auto, unfolding(crate::specs::Pdu::pdu_of))]
pub(crate) fn pdu_of<'a, L: Ledger>(apdu: &'a [u8], steps: &mut Steps<L>) -> Option<Parts<'a>>
    requires { length apdu.now ≤ 2048 }
    ensures exact { option_map plain_parts result ≡ pdu_of apdu.now }
    ensures size { IfSome result (λ parts. (0 < length parts.count.now) × (length parts.count.now ≤ 4)) }
    ensures cost { steps.new ≤ steps.old + 4 }
{
    if let Some(parts) = usual_pdu(apdu) {
        return Some(parts);
    }
    let inner = only_in(tags::SAV_PDU, apdu, steps)?;
    parts_in(inner, steps)
}
