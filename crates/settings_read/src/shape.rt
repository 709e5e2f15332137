//! The words and the reaches of a zone, which both versions of the settings have.
ghost use Rattle.std.specs.Prelude.{◌≡◌, codes, IfOk};
ghost use Rattle.relay_settings.specs.Ranges.{IsReach, IsQuad, IsShape};
ghost use Rattle.settings_read.specs.View.{seen, plain_place};
ghost use Rattle.settings_read.specs.Walk.{word};
ghost use Rattle.settings_read.specs.ZoneKeys.{quad_of_word, dir_of_word, mho_at, quad_at, shape_at};

use crate::place::{Place, Refusal};
use crate::value::{required_text, required_whole};
use relay_num::Cx;
use relay_settings::{Dir, QuadSettings, Shape};

/// Whether the shape is a quadrilateral.
#[tactic(auto, unfolding(crate::specs::Walk::word))]
pub(crate) fn is_quad_at(here: &Place) -> Result<bool, Refusal>
    ensures { seen (λ b. b) result ≡ word 8 quad_of_word (plain_place here.now) (codes "shape") }
{
    let word = required_text::<8>(here, "shape", 0x21)?;
    if word.as_slice() == b"mho".as_slice() {
        Ok(false)
    } else if word.as_slice() == b"quad".as_slice() {
        Ok(true)
    } else {
        Err(here.refuse(6, "shape"))
    }
}

/// The direction that the zone asks.
#[tactic(auto, unfolding(crate::specs::Walk::word))]
pub(crate) fn dir_at(here: &Place) -> Result<Dir, Refusal>
    ensures { seen (λ d. d) result ≡ word 8 dir_of_word (plain_place here.now) (codes "dir") }
{
    let word = required_text::<8>(here, "dir", 0x21)?;
    if word.as_slice() == b"forward".as_slice() {
        Ok(Dir::Forward)
    } else if word.as_slice() == b"reverse".as_slice() {
        Ok(Dir::Reverse)
    } else if word.as_slice() == b"none".as_slice() {
        Ok(Dir::Unasked)
    } else {
        Err(here.refuse(6, "dir"))
    }
}

#[tactic(auto, unfolding(crate::specs::ZoneKeys::mho_at))]
fn mho_at(here: &Place) -> Result<Cx, Refusal>
    ensures value { seen (λ z. z) result ≡ mho_at (plain_place here.now) }
    ensures ranges { IfOk result IsReach }
{
    let reach_r = required_whole(here, "reach_r", 0, 1_000_000)?;
    let reach_x = required_whole(here, "reach_x", 1, 1_000_000)?;
    Ok(Cx {
        re: reach_r,
        im: reach_x,
    })
}

#[tactic(auto, unfolding(crate::specs::ZoneKeys::quad_at))]
fn quad_at(here: &Place) -> Result<QuadSettings, Refusal>
    ensures value { seen (λ q. q) result ≡ quad_at (plain_place here.now) }
    ensures ranges { IfOk result IsQuad }
{
    let reach_r = required_whole(here, "reach_r", 1, 1_000_000)?;
    let reach_x = required_whole(here, "reach_x", 1, 1_000_000)?;
    let tilt = required_whole(here, "tilt", -500, 500)?;
    let slope = required_whole(here, "slope", 0, 1000)?;
    let back_x = required_whole(here, "back_x", 0, 1_000_000)?;
    Ok(QuadSettings {
        reach_r,
        reach_x,
        tilt,
        slope,
        back_x,
    })
}

/// The reach of a mho, or the reaches of a quadrilateral.
#[tactic(auto, unfolding(crate::specs::ZoneKeys::shape_at))]
pub(crate) fn shape_at(here: &Place, is_quad: bool) -> Result<Shape, Refusal>
    ensures value { seen (λ s. s) result ≡ shape_at (plain_place here.now) is_quad }
    ensures ranges { IfOk result IsShape }
{
    if is_quad {
        let q = quad_at(here)?;
        Ok(Shape::Quad(q))
    } else {
        let reach = mho_at(here)?;
        Ok(Shape::Mho(reach))
    }
}
