//! The bank of all lines.
ghost use Rattle.line_bank.specs.Banks.{AreSmall};

use crate::element::LineElement;
use relay_num::{NoMemory, Steps};
use relay_settings::Settings;
use std::alloc::Global;
use std::sync::ledger::Ledger;
use sv_frame::Asdu;

/// The elements of all lines, each after the line's own sample sets so far.
#[derive(Drop)]
pub struct LineBank<E: LineElement> {
    lines: Vec<E>,
    heard: u64,
    // A sample set brings a line's number on by less than a second's samples.
    ghost near: { AreSmall E.last lines.items heard },
}

impl<E: LineElement> LineBank<E> {
    ghost use Rattle.std.specs.Prelude.{ℕ, ◌≡◌, ◌≢◌, ◌<◌, ◌≤◌, ◌^◌, ◌+◌, List, [], ◌∷◌, length, Some, None, IfOk, IfSome, IfNone, slice_index_or, true, false};
    ghost use Rattle.std.specs.List.{All};
    ghost use Rattle.relay_settings.specs.Settings.{PlainSettings, PlainLine, plain_settings};
    ghost use Rattle.relay_settings.specs.Ranges.{InRange};
    ghost use Rattle.sv_frame.specs.Asdu.{PlainAsdu, plain_asdu};
    ghost use Rattle.line_bank.specs.Owners.{owns, owner};
    ghost use Rattle.line_bank.specs.Banks.{IsTold};
    ghost use Rattle.line_bank.specs.KeptBank.{StandsFor, lines_of, heard_of};

    /// The elements of the lines of these settings, set to what is asked. `NoMemory` comes only where the allocator
    /// has no room for the lines, or for what a line's element keeps; nothing is made then.
    pub fn new(alloc: Global, s: &Settings, asked: E::Asked) -> Result<LineBank<E>, NoMemory>
        requires settings { InRange s.now }
        requires asked { E.IsAsked asked }
        ensures stands { IfOk result (λ bank. StandsFor (plain_settings s.now) asked [] bank) }
        ensures none { IfOk result (λ bank. heard_of bank ≡ 0) }
        ensures count { IfOk result (λ bank. length (lines_of bank) ≡ length s.now.lines.items) }
    {
        let mut lines = Vec::new(alloc);
        for settings in &s.lines {
            let line = E::new(alloc, &s.common, settings, asked)?;
            match lines.push(line) {
                Ok(()) => {}
                Err(_) => return Err(NoMemory),
            }
        }
        Ok(LineBank { lines, heard: 0 })
    }

    /// Hands a sample set to the line that owns it, and answers that line's place and what it tells. None comes
    /// exactly where no line has its svID. It is counted; fewer than 2^40 were before. No other line changes, and it
    /// takes no memory.
    pub fn hear<L: Ledger>(
        &mut self,
        a: &Asdu<'_>,
        steps: &mut Steps<L>,
    ) -> Option<(usize, E::Told)>
        requires few { heard_of self.old < 2 ^ 40 }
        // By the sample sets before: for each list of them that the bank stands for.
        ensures told { (settings : PlainSettings) (asked : E.Asked) (past : List PlainAsdu) → StandsFor settings asked past self.old →
            IfSome result (λ told. IsTold (E.tells settings.common asked) settings.lines (plain_asdu a.now ∷ past) told.0 (E.said told.1)) }
        ensures none { (settings : PlainSettings) (asked : E.Asked) (past : List PlainAsdu) → StandsFor settings asked past self.old →
            IfNone result (owner (plain_asdu a.now) settings.lines ≡ None) }
        ensures after { (settings : PlainSettings) (asked : E.Asked) (past : List PlainAsdu) → StandsFor settings asked past self.old →
            StandsFor settings asked (plain_asdu a.now ∷ past) self.new }
        ensures within { IfSome result (λ told. told.0 < length (lines_of self.new)) }
        ensures same_count { length (lines_of self.new) ≡ length (lines_of self.old) }
        ensures printable { IfSome result (λ told. E.IsPrintable told.1) }
        ensures others { (place : ℕ) (d : E) → IfSome result (λ told. place ≢ told.0) →
            slice_index_or (lines_of self.new) place d ≡ slice_index_or (lines_of self.old) place d }
        ensures counted { heard_of self.new ≡ heard_of self.old + 1 }
        ensures cost { steps.new ≤ steps.old + E.most_steps }
    {
        let owner = self.place_of(a);
        self.heard += 1;
        let place = owner?;
        let line = &mut self.lines[place];
        let told = line.take(a, steps);
        Some((place, told))
    }

    /// The place of the line that owns a sample set.
    fn place_of(&self, a: &Asdu<'_>) -> Option<usize>
        ensures within { IfSome result (λ place. place < length (lines_of self.now)) }
        ensures mine { (settings : PlainSettings) (asked : E.Asked) (past : List PlainAsdu) → StandsFor settings asked past self.now →
            IfSome result (λ place. (d : PlainLine) → owns (slice_index_or settings.lines place d) (plain_asdu a.now) ≡ true) }
        ensures none { (settings : PlainSettings) (asked : E.Asked) (past : List PlainAsdu) → StandsFor settings asked past self.now →
            IfNone result (All (λ line. owns line (plain_asdu a.now) ≡ false) settings.lines) }
    {
        for (place, line) in self.lines.iter().enumerate() {
            if line.owns(a) {
                return Some(place);
            }
        }
        None
    }

    /// How many sample sets were heard.
    pub fn heard(&self) -> u64
        ensures { result ≡ heard_of self.now }
    {
        self.heard
    }
}
