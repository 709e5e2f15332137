//! The tables of a line that may be missing: `mimic`, `swing`, `fuse` and `load`.
ghost use Rattle.std.specs.Prelude.{◌≡◌};
ghost use Rattle.relay_settings.specs.Ranges.{IsMimic, IsSwing, IsFuse, IsLoad};
ghost use Rattle.settings_read.specs.View.{seen, plain_place};
ghost use Rattle.settings_read.specs.Walk.{only};
ghost use Rattle.settings_read.specs.MimicTable.{mimic_at};
ghost use Rattle.settings_read.specs.SwingTable.{swing_keys, swing_at};
ghost use Rattle.settings_read.specs.FuseTable.{fuse_at};
ghost use Rattle.settings_read.specs.LoadTable.{load_at};

use crate::keys::only;
use crate::optional::FromTable;
use crate::place::{Place, Refusal};
use crate::value::{required_count, required_whole};
use relay_settings::{FuseSettings, LoadSettings, Mimic, SwingSettings};

impl FromTable for Mimic {
    ghost walk = { mimic_at };

    ghost IsInRange = { IsMimic };

    #[tactic(auto, unfolding(crate::specs::MimicTable::mimic_at))]
    fn from_table(here: &Place) -> Result<Mimic, Refusal> {
        only(here, &["a", "b"])?;
        let a = required_whole(here, "a", 0, 65536)?;
        let b = required_whole(here, "b", 0, 65536)?;
        Ok(Mimic { a, b })
    }
}

fn only_swing_keys(here: &Place) -> Result<(), Refusal>
    ensures { seen (λ _. tt) result ≡ only (plain_place here.now) swing_keys }
{
    only(
        here,
        &[
            "outer_r", "outer_x", "inner_r", "inner_x", "pass_ms", "max_ms", "i2_share",
        ],
    )
}

impl FromTable for SwingSettings {
    ghost walk = { swing_at };

    ghost IsInRange = { IsSwing };

    #[tactic(auto, unfolding(crate::specs::SwingTable::swing_at))]
    fn from_table(here: &Place) -> Result<SwingSettings, Refusal> {
        only_swing_keys(here)?;
        let outer_r = required_whole(here, "outer_r", 1, 1_000_000)?;
        let outer_x = required_whole(here, "outer_x", 1, 1_000_000)?;
        let inner_r = required_whole(here, "inner_r", 1, 1_000_000)?;
        let inner_x = required_whole(here, "inner_x", 1, 1_000_000)?;
        let pass_ms = required_count(here, "pass_ms", 1, 10_000)?;
        let max_ms = required_count(here, "max_ms", 1, 60_000)?;
        let i2_share = required_count(here, "i2_share", 0, 1000)?;
        if outer_r <= inner_r {
            return Err(here.refuse(11, "inner_r"));
        }
        if outer_x <= inner_x {
            return Err(here.refuse(11, "inner_x"));
        }
        Ok(SwingSettings {
            outer_r,
            outer_x,
            inner_r,
            inner_x,
            pass_ms,
            max_ms,
            i2_share,
        })
    }
}

impl FromTable for FuseSettings {
    ghost walk = { fuse_at };

    ghost IsInRange = { IsFuse };

    #[tactic(auto, unfolding(crate::specs::FuseTable::fuse_at))]
    fn from_table(here: &Place) -> Result<FuseSettings, Refusal> {
        only(here, &["u2_min", "i2_max", "hold_ms"])?;
        let u2_min = required_count(here, "u2_min", 1, 100_000_000)?;
        let i2_max = required_count(here, "i2_max", 1, 100_000_000)?;
        let hold_ms = required_count(here, "hold_ms", 1, 60_000)?;
        Ok(FuseSettings {
            u2_min,
            i2_max,
            hold_ms,
        })
    }
}

impl FromTable for LoadSettings {
    ghost walk = { load_at };

    ghost IsInRange = { IsLoad };

    #[tactic(auto, unfolding(crate::specs::LoadTable::load_at))]
    fn from_table(here: &Place) -> Result<LoadSettings, Refusal> {
        only(here, &["r", "slope"])?;
        let r = required_whole(here, "r", 1, 1_000_000)?;
        let slope = required_whole(here, "slope", 0, 10_000)?;
        Ok(LoadSettings { r, slope })
    }
}
