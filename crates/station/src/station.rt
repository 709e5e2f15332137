//! A station.
ghost use Rattle.line_bank.specs.Banks.{AreSmall};
ghost use Rattle.line_relay.specs.KeptLine.{last_of};

use crate::heard::Heard;
use arrayvec::ArrayVec;
use event_record::Event;
use line_relay::{Burst, Line};
use relay_num::{NoMemory, Steps};
use relay_settings::Settings;
use std::alloc::Global;
use std::sync::ledger::Ledger;
use sv_frame::{Asdu, SvKind, read_into};

/// The lines of a relay, each after its own sample sets so far.
#[derive(Drop)]
pub struct Station {
    lines: Vec<Line>,
    frames: u64,
    heard: u64,
    /// The place of the line that owned the last sample set that had an owner.
    owner: usize,
    // A sample set brings a line's number on by less than a second's samples.
    ghost near: { AreSmall last_of lines.items heard },
}

impl Station {
    ghost use Rattle.std.specs.Prelude.{ℕ, ◌≡◌, ◌≢◌, ◌<◌, ◌≤◌, ◌^◌, ◌+◌, List, [], ◌∷◌, length, min, Some, None, Option, IfOk, IfSome, IfNone, slice_index_or, true, false};
    ghost use Rattle.std.specs.List.{All};
    ghost use Rattle.relay_settings.specs.Settings.{PlainLine, PlainSettings, plain_settings};
    ghost use Rattle.relay_settings.specs.Ranges.{InRange};
    ghost use Rattle.sv_frame.specs.Asdu.{PlainAsdu, plain_asdu};
    ghost use Rattle.sv_frame.specs.Frame.{sv};
    ghost use Rattle.sv_frame.specs.Answer.{kind_view, most_heads_of};
    ghost use Rattle.event_record.specs.Printable.{IsPrintable};
    ghost use Rattle.line_relay.specs.Bursts.{plain_burst};
    ghost use Rattle.line_relay.specs.declared.line.Line.{Line};
    ghost use Rattle.line_bank.specs.Owners.{owner, owns};
    ghost use Rattle.station.specs.Frames.{heard_as, heard_view, most_heads};
    ghost use Rattle.station.specs.KeptStation.{StandsFor, IsTold, lines_of, frames_of, heard_of};

    /// The lines of these settings, which have heard nothing. `NoMemory` comes only where the allocator has no
    /// room for the lines, or for a line's cycle of samples and of voltages; nothing is made then.
    pub fn new(alloc: Global, s: &Settings) -> Result<Station, NoMemory>
        requires { InRange s.now }
        ensures { IfOk result (λ station. StandsFor (plain_settings s.now) [] station × (frames_of station ≡ 0) × (heard_of station ≡ 0)) }
    {
        let mut lines = Vec::new(alloc);
        for settings in &s.lines {
            let line = Line::new(alloc, &s.common, settings)?;
            match lines.push(line) {
                Ok(()) => {}
                Err(_) => return Err(NoMemory),
            }
        }
        Ok(Station {
            lines,
            frames: 0,
            heard: 0,
            owner: 0,
        })
    }

    /// What a captured frame is, of which `captured` bytes were captured and `frame` is these, or the first 2048
    /// where there are more. It is counted, and changes no line; fewer than 2^36 were before. The event of a
    /// malformed frame has its number, from 1.
    pub fn frame<'a, L: Ledger>(
        &mut self,
        frame: &'a [u8],
        captured: u32,
        steps: &mut Steps<L>,
    ) -> Heard<'a>
        requires lent { length frame.now ≡ min captured 2048 }
        requires few { frames_of self.old < 2 ^ 36 }
        ensures exact { heard_view result ≡ heard_as (frames_of self.new) (sv frame.now captured) }
        ensures counted { frames_of self.new ≡ frames_of self.old + 1 }
        ensures same_heard { heard_of self.new ≡ heard_of self.old }
        ensures same_lines { lines_of self.new ≡ lines_of self.old }
        ensures cost { steps.new ≤ steps.old + most_heads result }
    {
        let mut sets = ArrayVec::new();
        match self.frame_into(frame, captured, &mut sets, steps) {
            SvKind::Other => Heard::Other,
            SvKind::Bad(reason) => Heard::Malformed(Event::Malformed {
                frame: self.frames,
                reason,
            }),
            SvKind::Pdu => Heard::Pdu(sets),
        }
    }

    /// The same, with the sample sets put into `sets`, which is empty. Where the frame isn't read, what `sets` then
    /// holds isn't to be used.
    pub fn frame_into<'a, L: Ledger>(
        &mut self,
        frame: &'a [u8],
        captured: u32,
        sets: &mut ArrayVec<Asdu<'a>, 16>,
        steps: &mut Steps<L>,
    ) -> SvKind
        requires lent { length frame.now ≡ min captured 2048 }
        requires few { frames_of self.old < 2 ^ 36 }
        requires empty { sets.old.items ≡ [] }
        ensures exact { kind_view result sets.new.items ≡ sv frame.now captured }
        ensures counted { frames_of self.new ≡ frames_of self.old + 1 }
        ensures same_heard { heard_of self.new ≡ heard_of self.old }
        ensures same_lines { lines_of self.new ≡ lines_of self.old }
        ensures cost { steps.new ≤ steps.old + most_heads_of result sets.new.items }
    {
        self.frames += 1;
        read_into(frame, captured, steps, sets)
    }

    /// Hands a sample set to the line that owns it, and answers that line's place and what it brings. None comes
    /// exactly where no line has its svID. It is counted; fewer than 2^40 were before. No other line changes.
    pub fn hear<L: Ledger>(&mut self, a: &Asdu<'_>, steps: &mut Steps<L>) -> Option<(usize, Burst)>
        requires few { heard_of self.old < 2 ^ 40 }
        // By the sample sets before: for each list of them that the station stands for.
        ensures told { (settings : PlainSettings) (past : List PlainAsdu) → StandsFor settings past self.old →
            IfSome result (λ told. IsTold settings (plain_asdu a.now ∷ past) told.0 (plain_burst told.1)) }
        ensures none { (settings : PlainSettings) (past : List PlainAsdu) → StandsFor settings past self.old →
            IfNone result (owner (plain_asdu a.now) settings.lines ≡ None) }
        ensures after { (settings : PlainSettings) (past : List PlainAsdu) → StandsFor settings past self.old →
            StandsFor settings (plain_asdu a.now ∷ past) self.new }
        ensures printable { IfSome result (λ told. All IsPrintable told.1.events.items) }
        ensures others { (place : ℕ) (d : Line) → IfSome result (λ told. place ≢ told.0) →
            slice_index_or (lines_of self.new) place d ≡ slice_index_or (lines_of self.old) place d }
        ensures counted { heard_of self.new ≡ heard_of self.old + 1 }
        ensures same_frames { frames_of self.new ≡ frames_of self.old }
        ensures cost { steps.new ≤ steps.old + 34 }
    {
        let mut burst = Burst::new();
        match self.hear_into(a, &mut burst, steps) {
            Some(place) => Some((place, burst)),
            None => None,
        }
    }

    /// The same, with what the owner brings in place of what the burst held.
    pub fn hear_into<L: Ledger>(
        &mut self,
        a: &Asdu<'_>,
        burst: &mut Burst,
        steps: &mut Steps<L>,
    ) -> Option<usize>
        requires few { heard_of self.old < 2 ^ 40 }
        // By the sample sets before: for each list of them that the station stands for.
        ensures told { (settings : PlainSettings) (past : List PlainAsdu) → StandsFor settings past self.old →
            IfSome result (λ place. IsTold settings (plain_asdu a.now ∷ past) place (plain_burst burst.new)) }
        ensures none { (settings : PlainSettings) (past : List PlainAsdu) → StandsFor settings past self.old →
            IfNone result (owner (plain_asdu a.now) settings.lines ≡ None) }
        ensures after { (settings : PlainSettings) (past : List PlainAsdu) → StandsFor settings past self.old →
            StandsFor settings (plain_asdu a.now ∷ past) self.new }
        ensures within { IfSome result (λ place. place < length (lines_of self.new)) }
        ensures printable { IfSome result (λ place. All IsPrintable burst.new.events.items) }
        ensures others { (place : ℕ) (d : Line) → IfSome result (λ told. place ≢ told) →
            slice_index_or (lines_of self.new) place d ≡ slice_index_or (lines_of self.old) place d }
        ensures counted { heard_of self.new ≡ heard_of self.old + 1 }
        ensures same_frames { frames_of self.new ≡ frames_of self.old }
        ensures cost { steps.new ≤ steps.old + 34 }
    {
        let owner = self.place_of(a);
        self.heard += 1;
        let place = owner?;
        self.owner = place;
        let line = &mut self.lines[place];
        line.take_into(a, burst, steps);
        Some(place)
    }

    /// The place of the line that owns a sample set. Those of a frame mostly have one owner, so the last one is asked first.
    fn place_of(&self, a: &Asdu<'_>) -> Option<usize>
        ensures within { IfSome result (λ place. place < length (lines_of self.now)) }
        ensures mine { (settings : PlainSettings) (past : List PlainAsdu) → StandsFor settings past self.now →
            IfSome result (λ place. (d : PlainLine) → owns (slice_index_or settings.lines place d) (plain_asdu a.now) ≡ true) }
        ensures none { (settings : PlainSettings) (past : List PlainAsdu) → StandsFor settings past self.now →
            IfNone result (All (λ line. owns line (plain_asdu a.now) ≡ false) settings.lines) }
    {
        if self.owns_at(self.owner, a) {
            Some(self.owner)
        } else {
            self.search(a)
        }
    }

    /// Whether a line stands at this place and owns the sample set.
    fn owns_at(&self, place: usize, a: &Asdu<'_>) -> bool
        ensures within { result ≡ true → place < length (lines_of self.now) }
        ensures mine { (settings : PlainSettings) (past : List PlainAsdu) → StandsFor settings past self.now →
            result ≡ true → (d : PlainLine) → owns (slice_index_or settings.lines place d) (plain_asdu a.now) ≡ true }
    {
        if place < self.lines.len() {
            self.line(place).owns(a)
        } else {
            false
        }
    }

    /// The place of the first line that owns a sample set.
    fn search(&self, a: &Asdu<'_>) -> Option<usize>
        ensures within { IfSome result (λ place. place < length (lines_of self.now)) }
        ensures mine { (settings : PlainSettings) (past : List PlainAsdu) → StandsFor settings past self.now →
            IfSome result (λ place. (d : PlainLine) → owns (slice_index_or settings.lines place d) (plain_asdu a.now) ≡ true) }
        ensures none { (settings : PlainSettings) (past : List PlainAsdu) → StandsFor settings past self.now →
            IfNone result (All (λ line. owns line (plain_asdu a.now) ≡ false) settings.lines) }
    {
        for (place, line) in self.lines.iter().enumerate() {
            if line.owns(a) {
                return Some(place);
            }
        }
        None
    }

    /// How many frames were counted.
    pub fn frames(&self) -> u64
        ensures { result ≡ frames_of self.now }
    {
        self.frames
    }

    /// How many sample sets were heard.
    pub fn heard(&self) -> u64
        ensures { result ≡ heard_of self.now }
    {
        self.heard
    }

    /// The line at a place, in the order of the settings.
    pub fn line(&self, place: usize) -> &Line
        requires { place < length (lines_of self.now) }
        ensures { (d : Line) → result.now ≡ slice_index_or (lines_of self.now) place d }
    {
        &self.lines[place]
    }
}
