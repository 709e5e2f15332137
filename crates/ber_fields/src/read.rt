//! Elements as they are read.
ghost use Rattle.std.specs.Prelude.{◌≡◌, ◌+◌, ◌<◌, ◌≤◌, length, drop, IfOk, IfErr, ℕ, List};
ghost use Rattle.ber_fields.specs.Element.{Element, Fronts, element_at, length_at};
ghost use Rattle.ber_fields.specs.Heads.{element_of, Gives};

use byteorder::{BigEndian, ByteOrder};
use relay_num::Steps;
use std::sync::ledger::Ledger;

/// Where an element lies in its bytes: its tag, and its contents from the byte `start` up to, and without, `end`.
#[derive(Clone, Copy, Debug, Default, PartialEq, Eq)]
pub struct BerHead {
    pub tag: u8,
    pub start: usize,
    pub end: usize,
}

/// No element stands there whole.
#[derive(Clone, Copy, Debug, PartialEq, Eq)]
pub struct BadHead;

/// How many bytes at the front spell a length, and the length.
fn length_of(bytes: &[u8]) -> Option<(usize, usize)>
    ensures exact { result ≡ length_at bytes.now }
{
    let [first, digits @ ..] = bytes else {
        return None;
    };
    let first = *first as usize;
    if first < 128 {
        return Some((1, first));
    }
    if first == 128 || first > 132 || first - 128 > digits.len() {
        return None;
    }
    let number = BigEndian::read_uint(digits, first - 128);
    Some((first - 127, number as usize))
}

/// The head of the element that begins at the byte `at`, by the reading alone.
#[tactic(auto, unfolding(crate::specs::Element::element_at))]
fn head_at<L: Ledger>(bytes: &[u8], at: usize, steps: &mut Steps<L>) -> Result<BerHead, BadHead>
    requires { at ≤ length bytes.now }
    ensures exact { Gives (λ h. (element_of bytes.now h, drop h.end bytes.now)) result (element_at (drop at bytes.now)) }
    ensures within { IfOk result (λ h. (at < h.start) × (h.start ≤ h.end) × (h.end ≤ length bytes.now)) }
    ensures cost { steps.new ≡ steps.old + 1 }
{
    steps.tick();
    let [tag, rest @ ..] = &bytes[at..] else {
        return Err(BadHead);
    };
    if *tag % 32 == 31 {
        return Err(BadHead);
    }
    let Some((spelled, length)) = length_of(rest) else {
        return Err(BadHead);
    };
    if length > rest.len() - spelled {
        return Err(BadHead);
    }
    let start = at + 1 + spelled;
    Ok(BerHead {
        tag: *tag,
        start,
        end: start + length,
    })
}

/// The head of the element that begins at the byte `at`, in one step.
///
/// `BadHead` comes exactly where no element begins there: the bytes end first, the tag's five low
/// bits are all set (a tag of several bytes), the length has the indefinite form or more than four
/// bytes behind its first, or the contents would pass the end of the bytes.
pub fn head<L: Ledger>(bytes: &[u8], at: usize, steps: &mut Steps<L>) -> Result<BerHead, BadHead>
    requires { at ≤ length bytes.now }
    ensures exact { Gives (λ h. (element_of bytes.now h, drop h.end bytes.now)) result (element_at (drop at bytes.now)) }
    ensures within { IfOk result (λ h. (at < h.start) × (h.start ≤ h.end) × (h.end ≤ length bytes.now)) }
    // What it finds is an element of the grammar, and where it finds none there is none.
    ensures found { IfOk result (λ h. Fronts (drop at bytes.now) (element_of bytes.now h) (drop h.end bytes.now)) }
    ensures none { IfErr result (λ _. (e : Element) (rest : List ℕ) → Fronts (drop at bytes.now) e rest → ⊥) }
    ensures cost { steps.new ≡ steps.old + 1 }
{
    head_at(bytes, at, steps)
}
