//! Whose a sample set is, and a bank of lines: what it has heard, and what it tells, whatever its lines hold.
//!
//! A bank has an element for each line of the settings and hands a sample set to the one line that has its svID
//! (IEC 61850-9-2). `specs/Owners` says whose a sample set is, and `specs/Banks` what a bank holds and tells after
//! the sample sets that it heard, by what its elements hold after their own (`stands`) and tell of the newest of
//! them (`tells`). The laws in `proofs/BankLaws` are the steps that the proof of a bank's `hear` takes.
//!
//! `LineBank` is the bank over any `LineElement`, and `specs/KeptBank` says what it holds; it takes memory only in
//! `LineBank::new`. A study gives the element of one line, and has the bank of all lines.
#![tactic(auto)]

ghost use Rattle.line_bank.specs.Owners.{HaveOneOwner};

mod bank;
mod element;

pub use bank::LineBank;
pub use element::LineElement;

/// Law: of lines whose svIDs differ, one at most owns a sample set.
pub fn show_one_owner()
    ensures { HaveOneOwner }
{}
