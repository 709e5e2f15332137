//! The top table of the file: its version, what all lines share, and the lines.
ghost use Rattle.std.specs.Prelude.{◌≡◌, ◌≤◌, length, codes, IfOk, IfErr, IfSome};
ghost use Rattle.relay_settings.specs.Settings.{plain_settings};
ghost use Rattle.relay_settings.specs.Ranges.{IsCycle, IsCommon, InRange};
ghost use Rattle.settings_read.specs.View.{seen, plain_place, Gives, IsShort};
ghost use Rattle.settings_read.specs.Start.{second_of_text};
ghost use Rattle.settings_read.specs.Walk.{only, word};
ghost use Rattle.settings_read.specs.TopTable.{top_keys, version_at, cycle_of, common_at, settings_at};

use crate::error::SettingsError;
use crate::keys::only;
use crate::lines::lines_of;
use crate::place::{Place, Refusal};
use crate::start::second_of_text;
use crate::value::{required_count, required_text};
use crate::version::Version;
use relay_settings::{Common, Settings};
use std::alloc::Global;

#[tactic(auto, unfolding(crate::specs::Walk::word))]
fn start_at(top: &Place) -> Result<u32, Refusal>
    ensures value { seen (λ n. n) result ≡ word 20 second_of_text (plain_place top.now) (codes "start") }
    ensures range { IfOk result (λ n. n ≤ 4102444799) }
{
    let text = required_text::<20>(top, "start", 0x21)?;
    match second_of_text(text.as_slice()) {
        Some(second) => Ok(second),
        None => Err(top.refuse(6, "start")),
    }
}

#[tactic(auto, unfolding(crate::specs::TopTable::version_at))]
fn version_at(top: &Place) -> Result<Version, Refusal>
    ensures { seen (λ v. v) result ≡ version_at (plain_place top.now) }
{
    let version = required_count(top, "version", 1, 2)?;
    if version == 1 {
        Ok(Version::One)
    } else {
        Ok(Version::Two)
    }
}

fn cycle_of(rate: u32, nominal: u32) -> Option<u32>
    ensures value { result ≡ cycle_of rate nominal }
    ensures range { IfSome result (IsCycle rate nominal) }
{
    match (rate, nominal) {
        (4800, 50) => Some(96),
        (4800, 60) => Some(80),
        (4000, 50) => Some(80),
        _ => None,
    }
}

#[tactic(auto, unfolding(crate::specs::TopTable::common_at))]
fn common_at(top: &Place) -> Result<Common, Refusal>
    ensures value { seen (λ c. c) result ≡ common_at (plain_place top.now) }
    ensures ranges { IfOk result IsCommon }
{
    let start = start_at(top)?;
    let rate = required_count(top, "rate", 1, 65535)?;
    let nominal = required_count(top, "nominal", 1, 1000)?;
    let heartbeat_ms = required_count(top, "heartbeat_ms", 100, 60000)?;
    match cycle_of(rate, nominal) {
        Some(n) => Ok(Common {
            rate,
            nominal,
            n,
            start,
            heartbeat_ms,
        }),
        None => Err(top.refuse(7, "rate")),
    }
}

fn only_top_keys(top: &Place) -> Result<(), Refusal>
    ensures { seen (λ _. tt) result ≡ only (plain_place top.now) top_keys }
{
    only(
        top,
        &[
            "version",
            "start",
            "rate",
            "nominal",
            "heartbeat_ms",
            "line",
        ],
    )
}

/// The settings of the top table.
#[tactic(auto, unfolding(crate::specs::TopTable::settings_at))]
pub(crate) fn settings_at(alloc: Global, top: &Place) -> Result<Settings, SettingsError>
    requires { length top.now.prefix.bytes ≤ 4 }
    ensures exact { Gives plain_settings result (settings_at (plain_place top.now)) }
    ensures ranges { IfOk result InRange }
    ensures key_short { IfErr result IsShort }
{
    only_top_keys(top)?;
    let version = version_at(top)?;
    let common = common_at(top)?;
    let lines = lines_of(alloc, version, top)?;
    Ok(Settings { common, lines })
}
