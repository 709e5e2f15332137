//! The table of a zone in version 1: one shape, its reaches and its delay, for all loops.
ghost use Rattle.std.specs.Prelude.{◌≡◌, codes, if◌then◌else◌, IfOk};
ghost use Rattle.relay_settings.specs.Ranges.{IsZone};
ghost use Rattle.settings_read.specs.View.{seen, plain_place};
ghost use Rattle.settings_read.specs.Walk.{only};
ghost use Rattle.settings_read.specs.ZoneTableV1.{mho_zone_keys, quad_zone_keys, zone_v1_at};

use crate::keys::only;
use crate::place::{Place, Refusal};
use crate::shape::{dir_at, is_quad_at, shape_at};
use crate::value::{required_boolean, required_count};
use relay_settings::{ZonePart, ZoneSettings};

fn only_keys_v1(here: &Place, is_quad: bool) -> Result<(), Refusal>
    ensures { seen (λ _. tt) result ≡ only (plain_place here.now) (if is_quad then quad_zone_keys else mho_zone_keys) }
{
    if is_quad {
        only(
            here,
            &[
                "shape",
                "dir",
                "reach_r",
                "reach_x",
                "tilt",
                "slope",
                "back_x",
                "delay_ms",
                "trip",
                "swing_block",
                "load_block",
            ],
        )
    } else {
        only(
            here,
            &[
                "shape",
                "dir",
                "reach_r",
                "reach_x",
                "delay_ms",
                "trip",
                "swing_block",
                "load_block",
            ],
        )
    }
}

/// The zone of a table in version 1. Its two parts are equal.
#[tactic(auto, unfolding(crate::specs::ZoneTableV1::zone_v1_at))]
pub(crate) fn zone_v1_at(here: &Place) -> Result<ZoneSettings, Refusal>
    ensures value { seen (λ z. z) result ≡ zone_v1_at (plain_place here.now) }
    ensures ranges { IfOk result IsZone }
{
    let is_quad = is_quad_at(here)?;
    only_keys_v1(here, is_quad)?;
    let dir = dir_at(here)?;
    let shape = shape_at(here, is_quad)?;
    let delay_ms = required_count(here, "delay_ms", 0, 60_000)?;
    let trip = required_boolean(here, "trip")?;
    let swing_block = required_boolean(here, "swing_block")?;
    let load_block = required_boolean(here, "load_block")?;
    let part = ZonePart { shape, delay_ms };
    Ok(ZoneSettings {
        ground: Some(part),
        phase: Some(part),
        dir,
        trip,
        swing_block,
        load_block,
    })
}
