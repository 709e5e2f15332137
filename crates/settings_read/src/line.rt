//! One line.
ghost use Rattle.std.specs.Prelude.{◌≡◌, ◌≤◌, length, codes, false, IfOk};
ghost use Rattle.std.specs.Str.{bytes_eq};
ghost use Rattle.relay_settings.specs.Settings.{plain_line};
ghost use Rattle.relay_settings.specs.Ranges.{IsText, IsLine};
ghost use Rattle.settings_read.specs.View.{seen, plain_place};
ghost use Rattle.settings_read.specs.Parts.{IsStream, IsImpedanceRead, IsLimitsRead, IsGuards};
ghost use Rattle.settings_read.specs.Walk.{only, word};
ghost use Rattle.settings_read.specs.LineTable.{name_of_word, line_keys, stream_at, impedance_at, limits_at, guards_at, line_at};

use crate::goose::goose_of;
use crate::keys::only;
use crate::optional::optional_table;
use crate::place::{Place, Refusal};
use crate::value::{optional_count, required_count, required_text, required_whole};
use crate::version::Version;
use crate::zones::zones_at;
use arrayvec::ArrayVec;
use relay_settings::{FuseSettings, LineSettings, LoadSettings, Mimic, SwingSettings};

/// How the line's samples are taken.
#[derive(Clone, Copy)]
struct Stream {
    conf_rev: u32,
    quality_mask: u32,
    synch_min: u8,
}

/// The line's impedance.
#[derive(Clone, Copy)]
struct Impedance {
    line_r: i64,
    line_x: i64,
    k0_re: i64,
    k0_im: i64,
}

/// The line's levels and times.
#[derive(Clone, Copy)]
struct Limits {
    i_min: u32,
    i0_min: u32,
    dir_i2: u32,
    mem_u: u32,
    mem_ms: u32,
    trip_min_ms: u32,
    open_i: u32,
    open_ms: u32,
}

/// The tables of the line that may be missing.
#[derive(Clone, Copy)]
struct Guards {
    mimic: Option<Mimic>,
    swing: Option<SwingSettings>,
    fuse: Option<FuseSettings>,
    load: Option<LoadSettings>,
}

fn only_line_keys(here: &Place) -> Result<(), Refusal>
    ensures { seen (λ _. tt) result ≡ only (plain_place here.now) line_keys }
{
    only(
        here,
        &[
            "name",
            "sv_id",
            "conf_rev",
            "quality_mask",
            "synch_min",
            "line_r",
            "line_x",
            "k0_re",
            "k0_im",
            "i_min",
            "i0_min",
            "dir_i2",
            "mem_u",
            "mem_ms",
            "trip_min_ms",
            "open_i",
            "open_ms",
            "mimic",
            "swing",
            "fuse",
            "load",
            "goose",
            "zone",
        ],
    )
}

#[tactic(auto, unfolding(crate::specs::Walk::word))]
fn name_at(here: &Place) -> Result<ArrayVec<u8, 16>, Refusal>
    ensures value { seen (λ n. n.items) result ≡ word 16 name_of_word (plain_place here.now) (codes "name") }
    ensures range { IfOk result (λ n. IsText 0x21 16 n.items) }
    ensures not_frame { IfOk result (λ n. bytes_eq n.items (codes "frame") ≡ false) }
{
    let name = required_text::<16>(here, "name", 0x21)?;
    if name.as_slice() == b"frame".as_slice() {
        return Err(here.refuse(6, "name"));
    }
    Ok(name)
}

#[tactic(auto, unfolding(crate::specs::LineTable::stream_at))]
fn stream_at(here: &Place) -> Result<Stream, Refusal>
    ensures value { seen (λ s. s) result ≡ stream_at (plain_place here.now) }
    ensures ranges { IfOk result IsStream }
{
    let conf_rev = required_count(here, "conf_rev", 0, 4_294_967_295)?;
    let quality_mask = optional_count(here, "quality_mask", 3, 0, 4_294_967_295)?;
    let synch_min = optional_count(here, "synch_min", 0, 0, 2)?;
    Ok(Stream {
        conf_rev,
        quality_mask,
        synch_min: synch_min as u8,
    })
}

#[tactic(auto, unfolding(crate::specs::LineTable::impedance_at))]
fn impedance_at(here: &Place) -> Result<Impedance, Refusal>
    ensures value { seen (λ z. z) result ≡ impedance_at (plain_place here.now) }
    ensures ranges { IfOk result IsImpedanceRead }
{
    let line_r = required_whole(here, "line_r", 0, 1_000_000)?;
    let line_x = required_whole(here, "line_x", 1, 1_000_000)?;
    let k0_re = required_whole(here, "k0_re", -4000, 4000)?;
    let k0_im = required_whole(here, "k0_im", -4000, 4000)?;
    Ok(Impedance {
        line_r,
        line_x,
        k0_re,
        k0_im,
    })
}

#[tactic(auto, unfolding(crate::specs::LineTable::limits_at))]
fn limits_at(here: &Place) -> Result<Limits, Refusal>
    ensures value { seen (λ l. l) result ≡ limits_at (plain_place here.now) }
    ensures ranges { IfOk result IsLimitsRead }
{
    let i_min = required_count(here, "i_min", 1, 100_000_000)?;
    let i0_min = required_count(here, "i0_min", 1, 100_000_000)?;
    let dir_i2 = required_count(here, "dir_i2", 1, 100_000_000)?;
    let mem_u = required_count(here, "mem_u", 1, 100_000_000)?;
    let mem_ms = required_count(here, "mem_ms", 0, 5000)?;
    let trip_min_ms = required_count(here, "trip_min_ms", 0, 10_000)?;
    let open_i = required_count(here, "open_i", 1, 100_000_000)?;
    let open_ms = required_count(here, "open_ms", 1, 10_000)?;
    Ok(Limits {
        i_min,
        i0_min,
        dir_i2,
        mem_u,
        mem_ms,
        trip_min_ms,
        open_i,
        open_ms,
    })
}

#[tactic(auto, unfolding(crate::specs::LineTable::guards_at))]
fn guards_at(here: &Place) -> Result<Guards, Refusal>
    requires { length here.now.prefix.bytes ≤ 12 }
    ensures value { seen (λ g. g) result ≡ guards_at (plain_place here.now) }
    ensures ranges { IfOk result IsGuards }
{
    let mimic = optional_table(here, "mimic")?;
    let swing = optional_table(here, "swing")?;
    let fuse = optional_table(here, "fuse")?;
    let load = optional_table(here, "load")?;
    Ok(Guards {
        mimic,
        swing,
        fuse,
        load,
    })
}

/// The line of a table.
#[tactic(auto, unfolding(crate::specs::LineTable::line_at))]
pub(crate) fn line_at(version: Version, here: &Place) -> Result<LineSettings, Refusal>
    requires { length here.now.prefix.bytes ≤ 12 }
    ensures value { seen plain_line result ≡ line_at version (plain_place here.now) }
    ensures ranges { IfOk result IsLine }
{
    only_line_keys(here)?;
    let name = name_at(here)?;
    let sv_id = required_text::<129>(here, "sv_id", 0x20)?;
    let stream = stream_at(here)?;
    let impedance = impedance_at(here)?;
    let limits = limits_at(here)?;
    let guards = guards_at(here)?;
    let goose = goose_of(here)?;
    let zones = zones_at(version, here)?;
    Ok(LineSettings {
        name,
        sv_id,
        conf_rev: stream.conf_rev,
        quality_mask: stream.quality_mask,
        synch_min: stream.synch_min,
        line_r: impedance.line_r,
        line_x: impedance.line_x,
        k0_re: impedance.k0_re,
        k0_im: impedance.k0_im,
        i_min: limits.i_min,
        i0_min: limits.i0_min,
        dir_i2: limits.dir_i2,
        mem_u: limits.mem_u,
        mem_ms: limits.mem_ms,
        trip_min_ms: limits.trip_min_ms,
        open_i: limits.open_i,
        open_ms: limits.open_ms,
        mimic: guards.mimic,
        swing: guards.swing,
        fuse: guards.fuse,
        load: guards.load,
        goose,
        zones,
    })
}
