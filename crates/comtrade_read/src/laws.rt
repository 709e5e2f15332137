//! Laws of the grammar.
ghost use Rattle.std.specs.Prelude.{◌≡◌, ℕ, List};
ghost use Rattle.comtrade_read.specs.declared.data.PairSample.{PairSample};
ghost use Rattle.comtrade_read.specs.Pairs.{IsPair};

/// Law: two texts are a pair in one way at most, with one rate and one list of samples.
pub fn show_one_meaning()
    ensures { (config_bytes data_bytes : List ℕ) (rate other : ℕ) (samples others : List PairSample) →
        IsPair config_bytes data_bytes rate samples → IsPair config_bytes data_bytes other others → (rate ≡ other) × (samples ≡ others) }
{}
