//! The settings of the two lines, as values.
ghost use Rattle.std.specs.Prelude.{◌≡◌, IfOk, length};
ghost use Rattle.relay_settings.specs.Ranges.{InRange, IsLine, IsZone, IsGoose};
ghost use Rattle.relay_settings.specs.Settings.{plain_settings, plain_line, plain_goose};
ghost use Rattle.drill.specs.DrillSettings.{drill_common, drill_zone, drill_goose, name_of, drill_line, drill_settings};

use crate::slot::Line;
use arrayvec::ArrayVec;
use relay_num::{Cx, NoMemory, copy_of};
use relay_settings::{
    Common, Dir, GooseSettings, LineSettings, Settings, Shape, ZonePart, ZoneSettings,
};
use std::alloc::Global;

/// 2024-01-01T00:00:00Z in seconds since 1970.
const START: u32 = 1_704_067_200;

fn common() -> Common
    ensures { result ≡ drill_common }
{
    Common {
        rate: 4800,
        nominal: 50,
        n: 96,
        start: START,
        heartbeat_ms: 1000,
    }
}

/// A forward circle of 12500 milliohms of reactance, for all loops, that trips without delay.
fn zone() -> ZoneSettings
    ensures value { result ≡ drill_zone }
    ensures ranges { IsZone result }
{
    let part = ZonePart {
        shape: Shape::Mho(Cx { re: 0, im: 12_500 }),
        delay_ms: 0,
    };
    ZoneSettings {
        ground: Some(part),
        phase: Some(part),
        dir: Dir::Forward,
        trip: true,
        swing_block: false,
        load_block: false,
    }
}

/// What the line publishes: its own destination, APPID and control block.
#[tactic(auto, unfolding(crate::specs::DrillSettings::drill_goose))]
fn goose(line: Line) -> GooseSettings
    ensures value { plain_goose result ≡ drill_goose line }
    ensures ranges { IsGoose result }
{
    let (number, gocb_ref) = match line {
        Line::First => (1, b"P1/LLN0$GO$G1"),
        Line::Second => (2, b"P1/LLN0$GO$G2"),
    };
    GooseSettings {
        dst: [0x01, 0x0C, 0xCD, 0x01, 0x00, number],
        src: [0x02, 0x00, 0x00, 0x00, 0x00, 0x02],
        appid: u16::from(number),
        vlan_priority: 4,
        vlan_id: 0,
        gocb_ref: copy_of(gocb_ref),
        dat_set: copy_of(b"P1/LLN0$DS1"),
        go_id: copy_of(b"G1"),
        conf_rev: 1,
    }
}

/// The line's name in the event log.
#[tactic(auto, unfolding(crate::specs::DrillSettings::name_of))]
fn name(line: Line) -> &'static [u8]
    ensures value { result.now ≡ name_of line }
    ensures two { length result.now ≡ 2 }
{
    match line {
        Line::First => b"L1",
        Line::Second => b"L2",
    }
}

/// The line: its name, its svID, and what both lines have alike.
#[tactic(auto, unfolding(crate::specs::DrillSettings::drill_line))]
fn line(line: Line) -> LineSettings
    ensures value { plain_line result ≡ drill_line line }
    ensures ranges { IsLine result }
{
    let mut zones = ArrayVec::new();
    zones.push(zone());
    LineSettings {
        name: copy_of(name(line)),
        sv_id: copy_of(line.sv_id()),
        conf_rev: 1,
        quality_mask: 3,
        synch_min: 0,
        line_r: 0,
        line_x: 15_000,
        k0_re: 600,
        k0_im: 0,
        i_min: 200_000,
        i0_min: 100_000,
        dir_i2: 100_000,
        mem_u: 1_000_000,
        mem_ms: 200,
        trip_min_ms: 100,
        open_i: 50_000,
        open_ms: 20,
        mimic: None,
        swing: None,
        fuse: None,
        load: None,
        goose: goose(line),
        zones,
    }
}

/// The settings of the drill's two lines: what `drill_text` says, each missing key with its default. They are in their
/// ranges. `NoMemory` comes where an allocation fails, and only there.
#[tactic(auto, unfolding(crate::specs::DrillSettings::drill_settings))]
pub fn drill_settings(alloc: Global) -> Result<Settings, NoMemory>
    ensures value { IfOk result (λ s. plain_settings s ≡ drill_settings) }
    ensures ranges { IfOk result InRange }
{
    let mut lines = Vec::new(alloc);
    lines.push(line(Line::First)).map_err(|_| NoMemory)?;
    lines.push(line(Line::Second)).map_err(|_| NoMemory)?;
    Ok(Settings {
        common: common(),
        lines,
    })
}
