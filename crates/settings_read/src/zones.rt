//! The zones of a line.
ghost use Rattle.std.specs.Prelude.{◌≡◌, ◌≤◌, ◌<◌, [], is_some, length, IfOk};
ghost use Rattle.std.specs.List.{All, list_all};
ghost use Rattle.toml.specs.Data.{as_table};
ghost use Rattle.toml.specs.View.{view, items_view};
ghost use Rattle.relay_settings.specs.Ranges.{IsZone};
ghost use Rattle.settings_read.specs.View.{seen, plain_place};
ghost use Rattle.settings_read.specs.Walk.{each};
ghost use Rattle.settings_read.specs.ZoneList.{zone_at, zone_after, zones_of, zones_at};

use crate::place::{Place, Refusal};
use crate::version::Version;
use crate::zone_v1::zone_v1_at;
use crate::zone_v2::zone_v2_at;
use arrayvec::ArrayVec;
use relay_settings::{MOST_ZONES, ZoneSettings};
use toml::Value;

fn zone_at(version: Version, here: &Place) -> Result<ZoneSettings, Refusal>
    requires { length here.now.prefix.bytes ≤ 20 }
    ensures value { seen (λ z. z) result ≡ zone_at version (plain_place here.now) }
    ensures ranges { IfOk result IsZone }
{
    match version {
        Version::One => zone_v1_at(here),
        Version::Two => zone_v2_at(here),
    }
}

/// Each item of a list is a table.
pub(crate) fn are_tables(items: &[Value]) -> bool
    ensures { result ≡ list_all (λ v. is_some (as_table (view v))) items.now }
{
    items.iter().all(Value::is_table)
}

#[tactic(auto, unfolding(crate::specs::ZoneList::zone_after))]
fn zone_after(
    version: Version,
    line: &Place,
    done: &[ZoneSettings],
    item: &Value,
) -> Result<ZoneSettings, Refusal>
    requires room { length line.now.prefix.bytes ≤ 12 }
    requires few { length done.now < 5 }
    ensures value { seen (λ z. z) result ≡ zone_after version (plain_place line.now) done.now (view item.now) }
    ensures ranges { IfOk result IsZone }
{
    match item.as_table() {
        None => Err(line.refuse(5, "zone")),
        Some(table) => zone_at(version, &line.numbered("zone", done.len() as u8 + 1, table)),
    }
}

fn zones_from(
    version: Version,
    line: &Place,
    items: &[Value],
) -> Result<ArrayVec<ZoneSettings, 5>, Refusal>
    requires room { length line.now.prefix.bytes ≤ 12 }
    requires few { length items.now ≤ 5 }
    ensures value { seen (λ z. z.items) result ≡ each (zone_after version (plain_place line.now)) [] (items_view items.now) }
    ensures ranges { IfOk result (λ z. All IsZone z.items) }
{
    let mut zones = ArrayVec::new();
    for item in items {
        let zone = zone_after(version, line, zones.as_slice(), item)?;
        zones.push(zone);
    }
    Ok(zones)
}

#[tactic(auto, unfolding(crate::specs::ZoneList::zones_of), using(crate::proofs::Items::on_items))]
fn zones_of(
    version: Version,
    line: &Place,
    value: &Value,
) -> Result<ArrayVec<ZoneSettings, 5>, Refusal>
    requires { length line.now.prefix.bytes ≤ 12 }
    ensures value { seen (λ z. z.items) result ≡ zones_of version (plain_place line.now) (view value.now) }
    ensures ranges { IfOk result (λ z. All IsZone z.items) }
{
    match value.as_array() {
        None => Err(line.refuse(5, "zone")),
        Some(items) => {
            if !are_tables(items.as_slice()) {
                return Err(line.refuse(5, "zone"));
            }
            if items.len() > MOST_ZONES {
                return Err(line.refuse(10, "zone"));
            }
            zones_from(version, line, items.as_slice())
        }
    }
}

/// The zones of a line.
#[tactic(auto, unfolding(crate::specs::ZoneList::zones_at))]
pub(crate) fn zones_at(version: Version, line: &Place) -> Result<ArrayVec<ZoneSettings, 5>, Refusal>
    requires { length line.now.prefix.bytes ≤ 12 }
    ensures value { seen (λ z. z.items) result ≡ zones_at version (plain_place line.now) }
    ensures ranges { IfOk result (λ z. All IsZone z.items) }
{
    match line.get("zone") {
        None => Ok(ArrayVec::new()),
        Some(value) => zones_of(version, line, value),
    }
}
