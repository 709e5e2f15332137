//! Laws of the definitions: the reading of a frame is that of the grammar.
ghost use Rattle.std.specs.Prelude.{◌≡◌, ◌↔◌, ◌<◌, ℕ, List, Some, slice_index};
ghost use Rattle.sv_frame.specs.declared.Reason.TheVariants as reasons;
ghost use Rattle.sv_frame.specs.Asdu.{PlainAsdu};
ghost use Rattle.sv_frame.specs.Frame.{payload_of, sv, bad, pdu};
ghost use Rattle.sv_frame.specs.Grammar.{IsKind, IsReading, NoPdu, NoSequence, NoAsdus};

/// Law: a frame says its ASDUs exactly where the grammar has a reading of it, it has one reading at
/// most, and a reason of the APDU names the first layer that has none.
pub fn show_grammar()
    ensures reading { (frame : List ℕ) (captured : ℕ) (samples : List PlainAsdu) → (sv frame captured ≡ pdu samples) ↔ IsReading frame captured samples }
    ensures one { (frame : List ℕ) (captured : ℕ) (xs ys : List PlainAsdu) → IsReading frame captured xs → IsReading frame captured ys → xs ≡ ys }
    ensures no_pdu { (frame : List ℕ) (captured : ℕ) → (sv frame captured ≡ bad reasons.Pdu) ↔ NoPdu frame captured }
    ensures no_sequence { (frame : List ℕ) (captured : ℕ) → (sv frame captured ≡ bad reasons.Count) ↔ NoSequence frame captured }
    ensures no_asdus { (frame : List ℕ) (captured : ℕ) → (sv frame captured ≡ bad reasons.Asdu) ↔ NoAsdus frame captured }
{}

/// Law: a frame of bytes has a payload exactly where the grammar says so.
pub fn show_kind()
    ensures { (frame payload : List ℕ) → ((i : ℕ) → slice_index frame i < 256) → (payload_of frame ≡ Some payload) ↔ IsKind frame payload }
{}
