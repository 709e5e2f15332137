//! The recorder of one trip of one line.
ghost use Rattle.std.specs.Prelude.{◌≡◌, ◌≤◌, ◌<◌, ◌*◌};
ghost use Rattle.std.specs.Option.{ForSome};
ghost use Rattle.line_relay.specs.KeptLine.{last_of};
ghost use Rattle.comtrade_write.specs.KeptWatch.{front_last, trips_by};

use crate::config::config_text;
use crate::data::data_text;
use crate::watch::Watch;
use arrayvec::ArrayVec;
use relay_num::{NoMemory, Steps};
use relay_settings::{Common, Settings};
use std::alloc::Global;
use std::sync::ledger::Ledger;
use sv_frame::Asdu;

/// Hears sample sets, and holds the record of the k-th trip of one line as far as it has come.
#[derive(Drop)]
pub struct Recorder {
    common: Common,
    watch: Watch,
    heard: u64,
    ghost rated: { 1 < common.rate },
    ghost slow: { common.rate ≤ 4800 },
    ghost nominal: { common.nominal ≤ 60 },
    // A sample set brings a line's number on by less than a second's samples, and a trip at most.
    ghost line_near: { ForSome (last_of watch.line) (λ last. last ≤ 4800 * heard) },
    ghost front_near: { ForSome (front_last watch) (λ last. last ≤ 4800 * heard) },
    ghost few: { trips_by watch ≤ heard },
}

impl Recorder {
    ghost use Rattle.std.specs.Prelude.{ℕ, ◌≡◌, ◌≤◌, ◌<◌, ◌+◌, ◌-◌, ◌^◌, ◌↔◌, IfOk, Some, List, [], ◌∷◌, length, slice_index_or, slice_get};
    ghost use Rattle.relay_settings.specs.declared.types.Common.{Common};
    ghost use Rattle.relay_settings.specs.Settings.{PlainLine, plain_lines};
    ghost use Rattle.relay_settings.specs.Ranges.{InRange, IsCount};
    ghost use Rattle.sv_frame.specs.Asdu.{PlainAsdu, plain_asdu};
    ghost use Rattle.line_bank.specs.Owners.{own};
    ghost use Rattle.comtrade_write.specs.Recordings.{trips_of, trips_told, covered_of, config_of, data_of};
    ghost use Rattle.comtrade_write.specs.KeptRecorder.{StandsFor, heard_of, count_of};

    /// A recorder of the k-th trip of the line at this place of the settings, which has heard nothing. `line` is
    /// below the number of lines, and `k` from 1 to 1000000. `NoMemory` comes only where the allocator has no room
    /// for what the line keeps, or for the samples of a record, six cycles and one; nothing is made then.
    pub fn new(alloc: Global, s: &Settings, line: usize, k: u32) -> Result<Recorder, NoMemory>
        requires settings { InRange s.now }
        requires line { line < length s.now.lines.items }
        requires k { IsCount 1 1000000 k }
        ensures stands { IfOk result (λ recorder. (d : PlainLine) →
            StandsFor s.now.common (slice_index_or (plain_lines s.now.lines.items) line d) k [] recorder) }
        ensures none { IfOk result (λ recorder. heard_of recorder ≡ 0) }
    {
        let watch = Watch::new(alloc, &s.common, &s.lines[line], k)?;
        Ok(Recorder {
            common: s.common,
            watch,
            heard: 0,
        })
    }

    /// Hears the next sample set of any line. It is counted; fewer than 2^40 were before. One of another svID
    /// changes no sample. It takes no memory.
    pub fn hear<L: Ledger>(&mut self, a: &Asdu<'_>, steps: &mut Steps<L>)
        requires few { heard_of self.old < 2 ^ 40 }
        // By the sample sets before: for each list of them that the recorder stands for.
        ensures after { (common : Common) (settings : PlainLine) (k : ℕ) (past : List PlainAsdu) → StandsFor common settings k past self.old →
            StandsFor common settings k (plain_asdu a.now ∷ past) self.new }
        ensures counted { heard_of self.new ≡ heard_of self.old + 1 }
        ensures cost { steps.new ≤ steps.old + 35 }
    {
        self.watch.hear(a, steps);
        self.heard += 1;
    }

    /// How many sample sets were heard.
    pub fn heard(&self) -> u64
        ensures { result ≡ heard_of self.now }
    {
        self.heard
    }

    /// How many trips of the line have begun, over the sample sets heard so far.
    pub fn trips(&self) -> u64
        ensures begun { (common : Common) (settings : PlainLine) (k : ℕ) (past : List PlainAsdu) → StandsFor common settings k past self.now →
            result ≡ trips_of common settings past }
        // As many as the `trip` events that the line tells.
        ensures told { (common : Common) (settings : PlainLine) (k : ℕ) (past : List PlainAsdu) → StandsFor common settings k past self.now →
            result ≡ trips_told common settings (own settings past) }
    {
        self.watch.window().trips()
    }

    /// How many samples the record covers so far: 0 exactly where there were fewer than k trips.
    pub fn count(&self) -> usize
        ensures field { result ≡ count_of self.now }
        ensures count { (common : Common) (settings : PlainLine) (k : ℕ) (past : List PlainAsdu) → StandsFor common settings k past self.now →
            result ≡ length (covered_of common settings k past) }
        ensures none { (common : Common) (settings : PlainLine) (k : ℕ) (past : List PlainAsdu) → StandsFor common settings k past self.now →
            (result ≡ 0) ↔ (trips_of common settings past < k) }
        ensures few { result ≤ 577 }
    {
        self.watch.window().count()
    }

    /// The i-th line of the record's configuration, `i` from 1 to 17, over the sample sets heard so far, with its
    /// end. The record covers some samples.
    pub fn config_line(&self, i: usize) -> ArrayVec<u8, 160>
        requires count { 0 < count_of self.now }
        requires i { IsCount 1 17 i }
        ensures { (common : Common) (settings : PlainLine) (k : ℕ) (past : List PlainAsdu) → StandsFor common settings k past self.now →
            slice_get (config_of common settings k past) (i - 1) ≡ Some result.items }
    {
        let Some(span) = self.watch.window().span() else {
            unreachable!();
        };
        config_text(self.watch.name(), &self.common, &span, i)
    }

    /// The i-th line of the record's data, `i` from 1 to the number of covered samples, over the sample sets heard so
    /// far, with its end. The record covers some samples.
    pub fn data_line(&self, i: usize) -> ArrayVec<u8, 160>
        requires count { 0 < count_of self.now }
        requires i { IsCount 1 (count_of self.now) i }
        ensures { (common : Common) (settings : PlainLine) (k : ℕ) (past : List PlainAsdu) → StandsFor common settings k past self.now →
            slice_get (data_of common settings k past) (i - 1) ≡ Some result.items }
    {
        let window = self.watch.window();
        let Some(span) = window.span() else {
            unreachable!();
        };
        let Some(recorded) = window.get(i - 1) else {
            unreachable!();
        };
        data_text(self.common.rate, span.first, i, recorded, i == span.count)
    }
}
