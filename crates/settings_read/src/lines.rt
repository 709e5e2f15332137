//! The lines of a file, whose texts differ.
ghost use Rattle.std.specs.Prelude.{◌≡◌, ◌≤◌, ◌<◌, [], length, IfOk, IfErr};
ghost use Rattle.std.specs.Str.{bytes_eq};
ghost use Rattle.std.specs.List.{list_any};
ghost use Rattle.toml.specs.View.{view, items_view};
ghost use Rattle.relay_settings.specs.Settings.{plain_line, plain_lines};
ghost use Rattle.relay_settings.specs.Ranges.{IsLine};
ghost use Rattle.settings_read.specs.View.{seen, plain_place, Gives, IsShort};
ghost use Rattle.settings_read.specs.Parts.{IsNew, AreLines};
ghost use Rattle.settings_read.specs.Walk.{each};
ghost use Rattle.settings_read.specs.LineList.{new_line_at, line_after, lines_of};

use crate::error::SettingsError;
use crate::line::line_at;
use crate::place::{Place, Refusal};
use crate::version::Version;
use crate::zones::are_tables;
use relay_settings::{LineSettings, MOST_LINES};
use std::alloc::Global;
use toml::Value;

fn has_name(done: &[LineSettings], name: &[u8]) -> bool
    ensures { result ≡ list_any (λ l. bytes_eq l.name.items name.now) done.now }
{
    done.iter().any(|l| l.name.as_slice() == name)
}

fn has_sv_id(done: &[LineSettings], sv_id: &[u8]) -> bool
    ensures { result ≡ list_any (λ l. bytes_eq l.sv_id.items sv_id.now) done.now }
{
    done.iter().any(|l| l.sv_id.as_slice() == sv_id)
}

fn has_gocb_ref(done: &[LineSettings], gocb_ref: &[u8]) -> bool
    ensures { result ≡ list_any (λ l. bytes_eq l.goose.gocb_ref.items gocb_ref.now) done.now }
{
    done.iter().any(|l| l.goose.gocb_ref.as_slice() == gocb_ref)
}

#[tactic(auto, unfolding(crate::specs::LineList::new_line_at))]
fn new_line_at(
    version: Version,
    here: &Place,
    done: &[LineSettings],
) -> Result<LineSettings, Refusal>
    requires { length here.now.prefix.bytes ≤ 12 }
    ensures value { seen plain_line result ≡ new_line_at version (plain_place here.now) (plain_lines done.now) }
    ensures ranges { IfOk result IsLine }
    ensures new { IfOk result (IsNew done.now) }
{
    let line = line_at(version, here)?;
    if has_name(done, line.name.as_slice()) {
        return Err(here.refuse(9, "name"));
    }
    if has_sv_id(done, line.sv_id.as_slice()) {
        return Err(here.refuse(9, "sv_id"));
    }
    if has_gocb_ref(done, line.goose.gocb_ref.as_slice()) {
        return Err(here.refuse(9, "goose.gocb_ref"));
    }
    Ok(line)
}

#[tactic(auto, unfolding(crate::specs::LineList::line_after))]
fn line_after(
    version: Version,
    top: &Place,
    done: &[LineSettings],
    item: &Value,
) -> Result<LineSettings, Refusal>
    requires room { length top.now.prefix.bytes ≤ 4 }
    requires few { length done.now < 16 }
    ensures value { seen plain_line result ≡ line_after version (plain_place top.now) (plain_lines done.now) (view item.now) }
    ensures ranges { IfOk result IsLine }
    ensures new { IfOk result (IsNew done.now) }
{
    match item.as_table() {
        None => Err(top.refuse(5, "line")),
        Some(table) => new_line_at(
            version,
            &top.numbered("line", done.len() as u8 + 1, table),
            done,
        ),
    }
}

fn lines_from(
    alloc: Global,
    version: Version,
    top: &Place,
    items: &[Value],
) -> Result<Vec<LineSettings>, SettingsError>
    requires room { length top.now.prefix.bytes ≤ 4 }
    requires few { length items.now ≤ 16 }
    ensures exact { Gives (λ v. plain_lines v.items) result (each (line_after version (plain_place top.now)) [] (items_view items.now)) }
    ensures ranges { IfOk result (λ v. AreLines v.items × (length v.items ≡ length items.now)) }
    ensures key_short { IfErr result IsShort }
{
    let mut lines = Vec::new(alloc);
    for item in items {
        let line = line_after(version, top, lines.as_slice(), item)?;
        lines.push(line)?;
    }
    Ok(lines)
}

/// The lines of the file.
#[tactic(auto, unfolding(crate::specs::LineList::lines_of), using(crate::proofs::Items::on_items))]
pub(crate) fn lines_of(
    alloc: Global,
    version: Version,
    top: &Place,
) -> Result<Vec<LineSettings>, SettingsError>
    requires { length top.now.prefix.bytes ≤ 4 }
    ensures exact { Gives (λ v. plain_lines v.items) result (lines_of version (plain_place top.now)) }
    ensures ranges { IfOk result (λ v. AreLines v.items × (1 ≤ length v.items) × (length v.items ≤ 16)) }
    ensures key_short { IfErr result IsShort }
{
    let items = match top.get("line") {
        None => return Err(SettingsError::from(top.refuse(8, "line"))),
        Some(value) => match value.as_array() {
            None => return Err(SettingsError::from(top.refuse(5, "line"))),
            Some(items) => items,
        },
    };
    if items.len() < 1 || MOST_LINES < items.len() {
        return Err(SettingsError::from(top.refuse(8, "line")));
    }
    if !are_tables(items.as_slice()) {
        return Err(SettingsError::from(top.refuse(5, "line")));
    }
    lines_from(alloc, version, top, items.as_slice())
}
