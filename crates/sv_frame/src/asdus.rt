//! ASDUs out of the bytes that hold them, each byte looked at once.
ghost use Rattle.sv_frame.specs.Frame.{answer};
ghost use Rattle.sv_frame.specs.Answer.{sequence_view};
ghost use Rattle.std.specs.Prelude.{◌≡◌, ◌+◌, ◌*◌, ◌≤◌, length, [], ◌∷◌, OnOk};
ghost use Rattle.std.specs.Option.{option_map};
ghost use Rattle.sv_frame.specs.Answer.{seen};
ghost use Rattle.sv_frame.specs.Asdu.{plain_asdu, plain_asdus, asdu_of};
ghost use Rattle.sv_frame.specs.Sequence.{asdus_in_sequence};

use crate::fields::Fields;
use crate::lent::{Asdu, AsduSequence};
use crate::usual::usual_asdu;
use crate::{Reason, tags};
use arrayvec::ArrayVec;
use ber_fields::head;
use relay_num::Steps;
use std::sync::ledger::Ledger;

/// The ASDU whose fields, sixteen at most, fill the bytes, head by head.
#[inline(never)]
fn gathered_asdu<'a, L: Ledger>(text: &'a [u8], steps: &mut Steps<L>) -> Option<Asdu<'a>>
    requires { length text.now ≤ 2048 }
    ensures exact { option_map plain_asdu result ≡ asdu_of text.now }
    ensures cost { steps.new ≤ steps.old + 16 }
{
    let mut fields = Fields::none();
    let mut at = 0;
    let mut left: usize = 16;
    while at < text.len() {
        if left == 0 {
            return None;
        }
        let Ok(field) = head(text, at, steps) else {
            return None;
        };
        if !fields.add(field.tag, &text[field.start..field.end]) {
            return None;
        }
        at = field.end;
        left -= 1;
    }
    fields.asdu()
}

/// The sample sets of a sequence of exactly `count` elements of ASDUs, or the layer that fails. What
/// `found` holds after an `Err` isn't to be used.
fn asdus_of<'a, L: Ledger>(
    count: usize,
    bytes: &'a [u8],
    steps: &mut Steps<L>,
    found: &mut ArrayVec<Asdu<'a>, 16>,
) -> Result<(), Reason>
    requires count { count ≤ 16 }
    requires small { length bytes.now ≤ 2048 }
    requires empty { found.old.items ≡ [] }
    ensures exact { seen (λ _. plain_asdus found.new.items) result ≡ asdus_in_sequence count bytes.now }
    ensures cost { steps.new ≤ steps.old + 17 * count }
    ensures count { OnOk result (length found.new.items ≡ count) }
{
    let mut at = 0;
    let mut whole = true;
    let mut left = count;
    while left > 0 {
        let Ok(text) = head(bytes, at, steps) else {
            return Err(Reason::Count);
        };
        if text.tag != tags::ASDU {
            return Err(Reason::Count);
        }
        at = text.end;
        left -= 1;
        let fields = &bytes[text.start..text.end];
        match usual_asdu(fields) {
            Some(asdu) => found.push(asdu),
            None => match gathered_asdu(fields, steps) {
                Some(asdu) => found.push(asdu),
                // The count comes first, so the elements behind are still counted.
                None => whole = false,
            },
        }
    }
    if at < bytes.len() {
        return Err(Reason::Count);
    }
    if whole { Ok(()) } else { Err(Reason::Asdu) }
}

impl<'a> AsduSequence<'a> {
    /// The sample set of a sequence of one, without a list for it, or the layer that fails.
    #[inline(always)]
    pub fn only<L: Ledger>(&self, steps: &mut Steps<L>) -> Result<Asdu<'a>, Reason>
        requires one { self.now.count ≡ 1 }
        ensures exact { answer (seen (λ asdu. plain_asdu asdu ∷ []) result) ≡ sequence_view self.now }
        ensures cost { steps.new ≤ steps.old + 17 }
    {
        let Ok(text) = head(self.bytes, 0, steps) else {
            return Err(Reason::Count);
        };
        if text.tag != tags::ASDU {
            return Err(Reason::Count);
        }
        if text.end < self.bytes.len() {
            return Err(Reason::Count);
        }
        let fields = &self.bytes[text.start..text.end];
        match usual_asdu(fields) {
            Some(asdu) => Ok(asdu),
            None => match gathered_asdu(fields, steps) {
                Some(asdu) => Ok(asdu),
                None => Err(Reason::Asdu),
            },
        }
    }

    /// Puts the sample sets into `found`, which is empty, or answers the layer that fails. What `found` holds after an
    /// `Err` isn't to be used.
    pub fn put_into<L: Ledger>(
        &self,
        steps: &mut Steps<L>,
        found: &mut ArrayVec<Asdu<'a>, 16>,
    ) -> Result<(), Reason>
        requires empty { found.old.items ≡ [] }
        ensures exact { answer (seen (λ _. plain_asdus found.new.items) result) ≡ sequence_view self.now }
        ensures cost { steps.new ≤ steps.old + 17 * self.now.count }
        ensures count { OnOk result (length found.new.items ≡ self.now.count) }
    {
        asdus_of(self.count, self.bytes, steps, found)
    }
}
