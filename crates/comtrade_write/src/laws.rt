//! Laws of the definitions.
ghost use Rattle.std.specs.Prelude.{ℕ, List, ◌<◌, length};
ghost use Rattle.std.specs.List.{concat};
ghost use Rattle.relay_settings.specs.declared.types.Common.{Common};
ghost use Rattle.relay_settings.specs.Settings.{PlainLine};
ghost use Rattle.relay_settings.specs.Ranges.{IsCommon, IsText};
ghost use Rattle.sv_frame.specs.Asdu.{PlainAsdu};
ghost use Rattle.comtrade_read.specs.Pairs.{IsPair};
ghost use Rattle.comtrade_write.specs.Recordings.{covered_of, config_of, data_of};
ghost use Rattle.comtrade_write.specs.Said.{all_said};

/// Law: what is written of a trip, line by line, is a pair of texts, and says the rate and the covered samples. The
/// rate, the frequency and the name are in the ranges of accepted settings, and the record covers some samples.
pub fn show_record_is_a_pair()
    ensures { (common : Common) (settings : PlainLine) (k : ℕ) (past : List PlainAsdu) →
        IsCommon common → IsText 0x21 16 settings.name → 0 < length (covered_of common settings k past) →
        IsPair (concat (config_of common settings k past)) (concat (data_of common settings k past))
        common.rate (all_said common.rate (covered_of common settings k past)) }
{}
