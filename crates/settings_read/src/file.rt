//! The whole file, from its bytes to the settings.
ghost use Rattle.std.specs.Prelude.{◌≡◌, ◌≤◌, length, codes, IfOk, IfErr, ◌↔◌};
ghost use Rattle.toml.specs.View.{table_view};
ghost use Rattle.relay_settings.specs.Settings.{plain_settings, PlainSettings};
ghost use Rattle.relay_settings.specs.Ranges.{InRange};
ghost use Rattle.settings_read.specs.View.{plain_place, Gives, Fails, IsShort};
ghost use Rattle.settings_read.specs.Walk.{Answer, refused};
ghost use Rattle.settings_read.specs.Accepted.{accepted, top_of};

use crate::error::SettingsError;
use crate::place::Place;
use crate::top::settings_at;
use arrayvec::ArrayString;
use relay_settings::Settings;
use std::alloc::Global;
use toml::Table;

/// The most bytes of a settings file.
const MOST_BYTES: usize = 1_048_576;

fn top_of(table: &Table) -> Place<'_>
    ensures value { plain_place result ≡ top_of (table_view table.now) }
    ensures short { length result.prefix.bytes ≤ 4 }
{
    let mut name = ArrayString::new();
    name.push_str("top");
    Place {
        name,
        prefix: ArrayString::new(),
        table,
    }
}

fn file(number: u8) -> SettingsError
    requires low { 1 ≤ number }
    requires high { number ≤ 12 }
    ensures exact { (answer : Answer PlainSettings) → Fails result answer ↔ (Err (refused number (codes "file")) ≡ answer) }
    ensures key_short { IsShort result }
{
    let mut key = ArrayString::new();
    key.push_str("file");
    SettingsError::Refused { number, key }
}

/// The settings that the bytes of a settings file spell, or the first refusal of the walk over them.
///
/// `NoMemory` comes where an allocation fails, and only there. Otherwise the answer is the one of
/// `accepted`: Ok for every file that the walk passes, with every value in its range, and else
/// `Refused` with the number and the path of the first key that it refuses.
#[tactic(auto, unfolding(crate::specs::Accepted::accepted))]
pub fn read_settings(alloc: Global, bytes: &[u8]) -> Result<Settings, SettingsError>
    ensures exact { Gives plain_settings result (accepted bytes.now) }
    ensures ranges { IfOk result InRange }
    ensures key_short { IfErr result IsShort }
{
    if bytes.len() > MOST_BYTES {
        return Err(file(1));
    }
    let table = match std::str::from_utf8(bytes) {
        Err(_) => return Err(file(2)),
        Ok(text) => match toml::table_from_str(alloc, text) {
            Ok(table) => table,
            Err(e) if e.is_memory() => return Err(SettingsError::NoMemory),
            Err(_) => return Err(file(2)),
        },
    };
    settings_at(alloc, &top_of(&table))
}
