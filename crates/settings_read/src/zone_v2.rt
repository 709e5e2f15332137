//! The table of a zone in version 2: a part for the ground loops, a part for the phase loops, or both.
ghost use Rattle.std.specs.Prelude.{◌≡◌, ◌≤◌, ◌||◌, is_some, length, codes, if◌then◌else◌, IfOk, IfSome, IsTrue};
ghost use Rattle.relay_settings.specs.Ranges.{IsZone, IsZonePart};
ghost use Rattle.settings_read.specs.View.{seen, plain_place};
ghost use Rattle.settings_read.specs.Walk.{path, found, holds, only, optional_table};
ghost use Rattle.settings_read.specs.ZoneTableV2.{mho_part_keys, quad_part_keys, part_at, zone_keys, zone_v2_at};

use crate::keys::only;
use crate::optional::{FromTable, optional_table};
use crate::place::{Place, Refusal};
use crate::shape::{dir_at, is_quad_at, shape_at};
use crate::value::{required_boolean, required_count};
use relay_settings::{ZonePart, ZoneSettings};

fn only_part_keys(here: &Place, is_quad: bool) -> Result<(), Refusal>
    ensures { seen (λ _. tt) result ≡ only (plain_place here.now) (if is_quad then quad_part_keys else mho_part_keys) }
{
    if is_quad {
        only(
            here,
            &[
                "shape", "reach_r", "reach_x", "tilt", "slope", "back_x", "delay_ms",
            ],
        )
    } else {
        only(here, &["shape", "reach_r", "reach_x", "delay_ms"])
    }
}

impl FromTable for ZonePart {
    ghost walk = { part_at };

    ghost IsInRange = { IsZonePart };

    #[tactic(auto, unfolding(crate::specs::ZoneTableV2::part_at))]
    fn from_table(here: &Place) -> Result<ZonePart, Refusal> {
        let is_quad = is_quad_at(here)?;
        only_part_keys(here, is_quad)?;
        let shape = shape_at(here, is_quad)?;
        let delay_ms = required_count(here, "delay_ms", 0, 60_000)?;
        Ok(ZonePart { shape, delay_ms })
    }
}

/// A part is there.
fn some_part(here: &Place) -> Result<(), Refusal>
    ensures value { seen (λ _. tt) result ≡ holds (is_some (found (plain_place here.now) (codes "ground")) || is_some (found (plain_place here.now) (codes "phase"))) 4 (path (plain_place here.now) (codes "ground")) }
    ensures there { IfOk result (λ _. IsTrue (is_some (found (plain_place here.now) (codes "ground")) || is_some (found (plain_place here.now) (codes "phase")))) }
{
    if here.get("ground").is_some() || here.get("phase").is_some() {
        Ok(())
    } else {
        Err(here.refuse(4, "ground"))
    }
}

fn only_zone_keys(here: &Place) -> Result<(), Refusal>
    ensures { seen (λ _. tt) result ≡ only (plain_place here.now) zone_keys }
{
    only(
        here,
        &[
            "dir",
            "trip",
            "swing_block",
            "load_block",
            "ground",
            "phase",
        ],
    )
}

/// The zone of a table in version 2.
#[tactic(auto, unfolding(crate::specs::ZoneTableV2::zone_v2_at))]
pub(crate) fn zone_v2_at(here: &Place) -> Result<ZoneSettings, Refusal>
    requires { length here.now.prefix.bytes ≤ 20 }
    ensures value { seen (λ z. z) result ≡ zone_v2_at (plain_place here.now) }
    ensures ranges { IfOk result IsZone }
{
    only_zone_keys(here)?;
    let dir = dir_at(here)?;
    let trip = required_boolean(here, "trip")?;
    let swing_block = required_boolean(here, "swing_block")?;
    let load_block = required_boolean(here, "load_block")?;
    some_part(here)?;
    let ground = optional_table(here, "ground")?;
    let phase = optional_table(here, "phase")?;
    Ok(ZoneSettings {
        ground,
        phase,
        dir,
        trip,
        swing_block,
        load_block,
    })
}
