//! A pair of texts.
ghost use Rattle.std.specs.Prelude.{◌≡◌, ℕ, List, IfOk, IsErrOf, MatchResult, IsTrue, ◌↔◌};
ghost use Rattle.comtrade_read.specs.Pairs.{IsPair};
ghost use Rattle.comtrade_read.specs.Rows.{BeginsAtZero};

use crate::config::read_config;
use crate::data::{PairSample, read_data};
use std::alloc::Global;

/// What a pair of texts says: samples a second, and the samples in order.
#[derive(Drop)]
pub struct Pair {
    pub rate: u32,
    pub samples: Vec<PairSample>,
}

/// Why a pair isn't read.
#[derive(Clone, Copy, Debug, PartialEq, Eq)]
pub enum PairError {
    /// The allocator had no room for the samples.
    NoMemory,
    /// The texts are no pair by the grammar.
    Refused,
}

/// Reads a record from its two whole texts: the configuration of 17 lines, and the data with a line a sample, at most
/// 577, and the end of the file. `Refused` comes exactly where the texts are no pair by the grammar, and `NoMemory` where
/// the allocator has no room for the samples.
pub fn read_pair(alloc: Global, config_text: &[u8], data_text: &[u8]) -> Result<Pair, PairError>
    // What is read is what the texts say.
    ensures sound { IfOk result (λ p. IsPair config_text.now data_text.now p.rate p.samples.items) }
    // Texts that say something are read as that, unless memory runs out.
    ensures complete { (rate : ℕ) (samples : List PairSample) → IsPair config_text.now data_text.now rate samples →
        MatchResult result (λ p. (p.rate ≡ rate) × (p.samples.items ≡ samples)) (λ e. e ≡ PairError.NoMemory) }
    // Texts that are refused say nothing.
    ensures refused { IsErrOf result PairError.Refused → (rate : ℕ) (samples : List PairSample) → IsPair config_text.now data_text.now rate samples → ⊥ }
{
    let Some(said) = read_config(config_text) else {
        return Err(PairError::Refused);
    };
    let samples = read_data(alloc, data_text, said.count)?;
    if begins_at_zero(samples.as_slice()) {
        Ok(Pair {
            rate: said.rate,
            samples,
        })
    } else {
        Err(PairError::Refused)
    }
}

/// Whether there is a first sample, at time 0.
fn begins_at_zero(samples: &[PairSample]) -> bool
    ensures { IsTrue result ↔ BeginsAtZero samples.now }
{
    match samples {
        [first, ..] => first.micros == 0,
        [] => false,
    }
}
