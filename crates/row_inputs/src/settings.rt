//! Settings texts.
use std::alloc::{AllocError, Global};

/// The line L1, without zones.
pub const SETTINGS: &str = "version = 1
start = \"2024-01-01T00:00:00Z\"
rate = 4800
nominal = 50
heartbeat_ms = 1000

[[line]]
name = \"L1\"
sv_id = \"MU01\"
conf_rev = 1
line_r = 0
line_x = 15000
k0_re = 600
k0_im = 0
i_min = 200000
i0_min = 100000
dir_i2 = 100000
mem_u = 1000000
mem_ms = 200
trip_min_ms = 100
open_i = 50000
open_ms = 20

[line.goose]
dst = \"01-0C-CD-01-00-01\"
src = \"02-00-00-00-00-02\"
appid = 1
gocb_ref = \"P1/LLN0$GO$G1\"
dat_set = \"P1/LLN0$DS1\"
go_id = \"G1\"
conf_rev = 1
";

/// A zone of the line, to stand behind its settings: a circle that looks forward and trips at once.
pub const ZONE: &str = "
[[line.zone]]
shape = \"mho\"
dir = \"forward\"
reach_r = 0
reach_x = 12500
delay_ms = 0
trip = true
swing_block = false
load_block = false
";

/// The name and the svID of each of sixteen lines, in the order of `sixteen_lines`.
pub const LINES: [(&str, &str); 16] = [
    ("L01", "MU01"),
    ("L02", "MU02"),
    ("L03", "MU03"),
    ("L04", "MU04"),
    ("L05", "MU05"),
    ("L06", "MU06"),
    ("L07", "MU07"),
    ("L08", "MU08"),
    ("L09", "MU09"),
    ("L10", "MU10"),
    ("L11", "MU11"),
    ("L12", "MU12"),
    ("L13", "MU13"),
    ("L14", "MU14"),
    ("L15", "MU15"),
    ("L16", "MU16"),
];

/// A text after these changes in turn: the first place of the first of each pair as the second.
pub fn changed(alloc: Global, text: &str, changes: &[(&str, &str)]) -> Result<String, AllocError> {
    let mut text = text.to_string(alloc)?;
    for (old, new) in changes {
        text = text.replacen(alloc, old, new, 1)?;
    }
    Ok(text)
}

/// The settings of the line with these zones, after these changes.
pub fn settings_of(
    alloc: Global,
    zones: &str,
    changes: &[(&str, &str)],
) -> Result<String, AllocError> {
    let mut text = SETTINGS.to_string(alloc)?;
    text.push_str(zones)?;
    changed(alloc, &text, changes)
}

/// The settings of sixteen lines with the zone, each with a control block reference of its own.
pub fn sixteen_lines(alloc: Global) -> Result<String, AllocError> {
    let (top, line) = SETTINGS.split_once("[[line]]").unwrap_or(("", ""));
    let mut text = top.to_string(alloc)?;
    for (name, sv_id) in &LINES {
        text.push_str("[[line]]")?;
        let own = [("L1", *name), ("MU01", *sv_id), ("$G1", *sv_id)];
        text.push_str(&changed(alloc, line, &own)?)?;
        text.push_str(ZONE)?;
    }
    Ok(text)
}
