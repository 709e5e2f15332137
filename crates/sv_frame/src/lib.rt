//! Frames of sampled values (IEC 61850-9-2), read from the bytes that were captured.
//!
//! `read` answers other traffic, the first layer that fails, or the sample sets (ASDUs) of the frame,
//! whose slices are lent from it: nothing is copied, and nothing here takes memory. The layers are
//! the four words in front of the APDU, its PDU, the count of its ASDUs, and the ASDUs themselves.
//!
//! `sv` of `specs/Frame.antt` is the definition, over whole lists of bytes and of BER elements;
//! `specs/Grammar.antt` says the same as a grammar, and the laws `show_grammar` and `show_kind` tie the
//! two. The head of each element is read once, in one counted step; only an ASDU is first compared with the usual
//! form, the five required fields and no other, which costs no step. It stands on `ber_fields`.
#![tactic(auto)]

ghost use Rattle.std.specs.Prelude.{◌≡◌, ◌+◌, ◌≤◌, length, min, []};
ghost use Rattle.sv_frame.specs.Frame.{sv};
ghost use Rattle.sv_frame.specs.Answer.{sv_view, kind_view, opened_view, most_heads, most_heads_of};

mod asdus;
mod channel;
mod fields;
mod frame;
mod laws;
mod lent;
mod pdu;
mod tags;
mod usual;

use arrayvec::ArrayVec;
pub use channel::Channel;
use frame::{payload_of, sequence_in};
pub use laws::{show_grammar, show_kind};
pub use lent::{Asdu, AsduSequence};
use relay_num::Steps;
use std::sync::ledger::Ledger;

/// The first layer of a frame that fails.
#[derive(Clone, Copy, Debug, PartialEq, Eq)]
pub enum Reason {
    /// Fewer than eight bytes follow the EtherType.
    Header,
    /// The length in front of the APDU is below 8, or counts more bytes than were captured.
    Length,
    /// More than 2048 bytes were captured.
    Long,
    /// The APDU isn't one element of a PDU that fills it, with a count, maybe a security field, and a sequence.
    Pdu,
    /// The count isn't from 1 to 16, or the sequence doesn't hold exactly that many ASDUs.
    Count,
    /// An ASDU isn't at most sixteen fields that fill it, or these aren't those of an ASDU.
    Asdu,
}

/// What a captured frame is.
#[derive(Debug, Drop)]
pub enum SvRead<'a> {
    /// Other traffic: there is no EtherType of sampled values, behind at most one tag of a virtual network.
    Other,
    /// A frame of sampled values whose first failing layer is this one.
    Bad(Reason),
    /// The sample sets of the frame, in its order: one to sixteen.
    Pdu(ArrayVec<Asdu<'a>, 16>),
}

/// What a captured frame is, whose sample sets stand elsewhere.
#[derive(Clone, Copy, Debug, PartialEq, Eq)]
pub enum SvKind {
    /// Other traffic.
    Other,
    /// A frame of sampled values whose first failing layer is this one.
    Bad(Reason),
    /// A frame of sampled values that is read.
    Pdu,
}

/// What a captured frame is, down to the bytes that hold its sample sets.
#[derive(Clone, Copy, Debug)]
pub enum Opened<'a> {
    /// Other traffic.
    Other,
    /// A frame of sampled values of which a layer in front of the ASDUs fails: the first is this one.
    Bad(Reason),
    /// A frame of sampled values whose ASDUs, which aren't read yet, are in these bytes.
    Asdus(AsduSequence<'a>),
}

/// Opens a captured frame: its layers in front of the ASDUs are read, and what these say is still to come. So a frame
/// of one sample set needs no list (`AsduSequence::only`). The conditions are those of `read`.
#[tactic(auto, unfolding(crate::specs::Frame::sv))]
pub fn open<'a, L: Ledger>(frame: &'a [u8], captured: u32, steps: &mut Steps<L>) -> Opened<'a>
    requires lent { length frame.now ≡ min captured 2048 }
    ensures exact { opened_view result ≡ sv frame.now captured }
    ensures cost { steps.new ≤ steps.old + 4 }
{
    let Some(payload) = payload_of(frame) else {
        return Opened::Other;
    };
    let before = frame.len() - payload.len();
    match sequence_in(before, payload, captured, steps) {
        Ok(asdus) => Opened::Asdus(asdus),
        Err(reason) => Opened::Bad(reason),
    }
}

/// The same as `read`, with the sample sets put into `found`, which is empty. Where the frame isn't read, what `found`
/// then holds isn't to be used. The list is made once by the caller, and not moved.
pub fn read_into<'a, L: Ledger>(
    frame: &'a [u8],
    captured: u32,
    steps: &mut Steps<L>,
    found: &mut ArrayVec<Asdu<'a>, 16>,
) -> SvKind
    requires lent { length frame.now ≡ min captured 2048 }
    requires empty { found.old.items ≡ [] }
    ensures exact { kind_view result found.new.items ≡ sv frame.now captured }
    ensures cost { steps.new ≤ steps.old + most_heads_of result found.new.items }
{
    match open(frame, captured, steps) {
        Opened::Other => SvKind::Other,
        Opened::Bad(reason) => SvKind::Bad(reason),
        Opened::Asdus(asdus) => match asdus.put_into(steps, found) {
            Ok(()) => SvKind::Pdu,
            Err(reason) => SvKind::Bad(reason),
        },
    }
}

/// What a captured frame says. `captured` bytes of it were captured, and `frame` is these, or the
/// first 2048 where there are more.
///
/// Each answer comes exactly where its variant, or that of `Reason`, says. At most `4 + 17 * a` heads
/// are read for `a` sample sets, and at most `4 + 17 * 16` for any other answer.
pub fn read<'a, L: Ledger>(frame: &'a [u8], captured: u32, steps: &mut Steps<L>) -> SvRead<'a>
    requires { length frame.now ≡ min captured 2048 }
    ensures exact { sv_view result ≡ sv frame.now captured }
    ensures cost { steps.new ≤ steps.old + most_heads result }
{
    let mut found = ArrayVec::new();
    match read_into(frame, captured, steps, &mut found) {
        SvKind::Other => SvRead::Other,
        SvKind::Bad(reason) => SvRead::Bad(reason),
        SvKind::Pdu => SvRead::Pdu(found),
    }
}
