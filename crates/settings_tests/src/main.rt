//! The settings reader on a table of texts.
//!
//! Each line of `rows.txt` is an answer that is owed, a base text and an edit of it: `OWED | BASE |
//! OLD | NEW`, where `\n` stands for a line's end. The program prints each line with the answer that
//! the edited text gets in the place of the owed one, so `stdout` is `rows.txt` itself, followed by
//! three texts that no edit makes, and by the zones of three texts, with all that they say. Owed is
//! `ok L lines Z zones`, or the number and key of a refusal. Last come all fields of a drill's
//! settings, as they are read from its text and as it makes them.
#![tactic(auto)]

use drill::{drill_settings, drill_text};
use relay_settings::{Dir, GooseSettings, LineSettings, Settings, Shape, ZonePart, ZoneSettings};
use settings_read::{SettingsError, read_settings};
use std::alloc::{AllocError, Global};
use std::{fs, io};

fn accepted(alloc: Global, settings: Settings) -> Result<String, AllocError> {
    let lines = settings.lines.len();
    let zones = settings
        .lines
        .iter()
        .fold(0usize, |n, line| n.saturating_add(line.zones.len()));
    format!(in alloc; "ok {lines} lines {zones} zones")
}

fn refused(alloc: Global, e: &SettingsError) -> Result<String, AllocError> {
    match e {
        SettingsError::NoMemory => format!(in alloc; "no memory"),
        SettingsError::Refused { number, key } => format!(in alloc; "{number} {key}"),
    }
}

/// What the reader answers for these bytes.
fn answer(alloc: Global, bytes: &[u8]) -> Result<String, AllocError> {
    match read_settings(alloc, bytes) {
        Ok(settings) => accepted(alloc, settings),
        Err(e) => refused(alloc, &e),
    }
}

/// The base text with the first place of `old` as `new`.
fn edited(alloc: Global, base: &str, old: &str, new: &str) -> Result<String, AllocError> {
    let old = old.replace(alloc, "\\n", "\n")?;
    let new = new.replace(alloc, "\\n", "\n")?;
    base.replacen(alloc, old.as_str(), new.as_str(), 1)
}

/// The text with a comment that makes it `length` bytes long.
fn padded(alloc: Global, base: &str, length: usize) -> Result<String, AllocError> {
    let mut text = String::from_str(alloc, base)?;
    text.push('#')?;
    for _ in 0..length {
        if text.len() < length {
            text.push(' ')?;
        }
    }
    Ok(text)
}

/// A part of a zone: its shape with the reaches, and its delay.
fn part_text(alloc: Global, part: &Option<ZonePart>) -> Result<String, AllocError> {
    let Some(part) = part else {
        return format!(in alloc; "none");
    };
    let delay = part.delay_ms;
    match &part.shape {
        Shape::Mho(reach) => {
            let (r, x) = (reach.re, reach.im);
            format!(in alloc; "mho {r} {x}, {delay} ms")
        }
        Shape::Quad(q) => {
            let (r, x) = (q.reach_r, q.reach_x);
            let (tilt, slope, back) = (q.tilt, q.slope, q.back_x);
            format!(in alloc; "quad {r} {x} {tilt} {slope} {back}, {delay} ms")
        }
    }
}

/// A zone: its direction, `trip`, `swing_block` and `load_block`, and its two parts.
fn zone_text(alloc: Global, zone: &ZoneSettings) -> Result<String, AllocError> {
    let dir = match zone.dir {
        Dir::Forward => "forward",
        Dir::Reverse => "reverse",
        Dir::Unasked => "none",
    };
    let (trip, swing, load) = (zone.trip, zone.swing_block, zone.load_block);
    let ground = part_text(alloc, &zone.ground)?;
    let phase = part_text(alloc, &zone.phase)?;
    format!(in alloc; "{dir} {trip} {swing} {load} | {ground} | {phase}")
}

/// Prints the zones of the text's lines.
fn zones(rt: &HostRuntime, name: &str) -> io::Result<()> {
    let alloc = rt.alloc();
    let path = format!(in alloc; "{name}.toml")?;
    let bytes = fs::read(rt, path.as_str())?;
    let Ok(settings) = read_settings(alloc, bytes.as_slice()) else {
        return println!(rt; "{name} | refused");
    };
    for line in settings.lines.as_slice() {
        for zone in line.zones.as_slice() {
            let text = zone_text(alloc, zone)?;
            println!(rt; "{name} | {text}")?;
        }
    }
    Ok(())
}

fn text_of(bytes: &[u8]) -> &str {
    std::str::from_utf8(bytes).unwrap_or("?")
}

/// The line's keys in their order, and whether it has each of the four tables that may be missing.
fn line_text(alloc: Global, line: &LineSettings) -> Result<String, AllocError> {
    let name = text_of(line.name.as_slice());
    let sv_id = text_of(line.sv_id.as_slice());
    let (conf_rev, mask, synch) = (line.conf_rev, line.quality_mask, line.synch_min);
    let (r, x, k0_re, k0_im) = (line.line_r, line.line_x, line.k0_re, line.k0_im);
    let (i_min, i0_min, dir_i2) = (line.i_min, line.i0_min, line.dir_i2);
    let (mem_u, mem_ms, trip_min_ms) = (line.mem_u, line.mem_ms, line.trip_min_ms);
    let (open_i, open_ms) = (line.open_i, line.open_ms);
    let (mimic, swing) = (line.mimic.is_some(), line.swing.is_some());
    let (fuse, load) = (line.fuse.is_some(), line.load.is_some());
    let identity = format!(in alloc; "{name} {sv_id} {conf_rev} {mask} {synch}")?;
    let impedance = format!(in alloc; "{r} {x} {k0_re} {k0_im}")?;
    let currents = format!(in alloc; "{i_min} {i0_min} {dir_i2} {mem_u} {mem_ms}")?;
    let times = format!(in alloc; "{trip_min_ms} {open_i} {open_ms}")?;
    format!(in alloc;
        "{identity} | {impedance} | {currents} {times} | {mimic} {swing} {fuse} {load}"
    )
}

/// What a line publishes: the addresses as numbers, and the other keys in their order.
fn goose_text(alloc: Global, goose: &GooseSettings) -> Result<String, AllocError> {
    let [d0, d1, d2, d3, d4, d5] = goose.dst;
    let [s0, s1, s2, s3, s4, s5] = goose.src;
    let (appid, priority, id) = (goose.appid, goose.vlan_priority, goose.vlan_id);
    let gocb_ref = text_of(goose.gocb_ref.as_slice());
    let dat_set = text_of(goose.dat_set.as_slice());
    let go_id = text_of(goose.go_id.as_slice());
    let conf_rev = goose.conf_rev;
    let addresses = format!(in alloc;
        "{d0} {d1} {d2} {d3} {d4} {d5} {s0} {s1} {s2} {s3} {s4} {s5}"
    )?;
    format!(in alloc;
        "{addresses} | {appid} {priority} {id} {gocb_ref} {dat_set} {go_id} {conf_rev}"
    )
}

/// Prints all fields of settings whose lines have one zone each.
fn fields(rt: &HostRuntime, name: &str, settings: &Settings) -> io::Result<()> {
    let alloc = rt.alloc();
    let common = &settings.common;
    let (rate, nominal, n) = (common.rate, common.nominal, common.n);
    let (start, heartbeat_ms) = (common.start, common.heartbeat_ms);
    println!(rt; "{name} | {rate} {nominal} {n} {start} {heartbeat_ms}")?;
    for line in settings.lines.as_slice() {
        let keys = line_text(alloc, line)?;
        let goose = goose_text(alloc, &line.goose)?;
        println!(rt; "{name} | {keys}")?;
        println!(rt; "{name} | {goose}")?;
        if let [zone] = line.zones.as_slice() {
            let text = zone_text(alloc, zone)?;
            println!(rt; "{name} | {text}")?;
        }
    }
    Ok(())
}

/// Prints a drill's settings, as they are read from its text and as it makes them.
fn drills(rt: &HostRuntime) -> io::Result<()> {
    let alloc = rt.alloc();
    match read_settings(alloc, drill_text().as_bytes()) {
        Ok(settings) => fields(rt, "drill", &settings)?,
        Err(_) => println!(rt; "drill | refused")?,
    }
    match drill_settings(alloc) {
        Ok(settings) => fields(rt, "drill", &settings),
        Err(_) => println!(rt; "drill | no memory"),
    }
}

fn row(rt: &HostRuntime, line: &str) -> io::Result<()> {
    let alloc = rt.alloc();
    let (_, row) = line.split_once(" | ").unwrap_or(("", line));
    let (name, edit) = row.split_once(" | ").unwrap_or((row, ""));
    let (old, new) = edit.split_once(" | ").unwrap_or((edit, ""));
    let path = format!(in alloc; "{name}.toml")?;
    let base = fs::read_to_string(rt, path.as_str())?;
    let text = edited(alloc, base.as_str(), old, new)?;
    let answer = answer(alloc, text.as_bytes())?;
    println!(rt; "{answer} | {row}")
}

fn main(rt: HostRuntime) -> io::Result<()> {
    let alloc = rt.alloc();
    let rows = fs::read_to_string(&rt, "rows.txt")?;
    for line in rows.as_str().lines() {
        row(&rt, line)?;
    }
    let base = fs::read_to_string(&rt, "s1.toml")?;
    let most = padded(alloc, base.as_str(), 1_048_576)?;
    let answer_most = answer(alloc, most.as_bytes())?;
    println!(rt; "{answer_most} | s1 | 1048576 bytes")?;
    let long = padded(alloc, base.as_str(), 1_048_577)?;
    let answer_long = answer(alloc, long.as_bytes())?;
    println!(rt; "{answer_long} | s1 | 1048577 bytes")?;
    let bytes = fs::read(&rt, "not_utf8.toml")?;
    let answer_bytes = answer(alloc, bytes.as_slice())?;
    println!(rt; "{answer_bytes} | not_utf8")?;
    for name in ["full", "s3", "parts"] {
        zones(&rt, name)?;
    }
    drills(&rt)
}
