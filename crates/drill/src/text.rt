//! The settings of the two lines, as text.
ghost use Rattle.std.specs.Prelude.{◌≡◌};
ghost use Rattle.drill.specs.DrillText.{drill_text};

/// A settings file of lines that differ in their number alone, by these numbers.
macro_rules! text_of_lines {
    ($($number:literal)+) => {
        concat!(
            r#"version = 1
start = "2024-01-01T00:00:00Z"
rate = 4800
nominal = 50
heartbeat_ms = 1000
"#,
            $(
                r#"
[[line]]
name = "L"#,
                $number,
                r#""
sv_id = "MU0"#,
                $number,
                r#""
conf_rev = 1
line_r = 0
line_x = 15000
k0_re = 600
k0_im = 0
i_min = 200000
i0_min = 100000
dir_i2 = 100000
mem_u = 1000000
mem_ms = 200
trip_min_ms = 100
open_i = 50000
open_ms = 20

[line.goose]
dst = "01-0C-CD-01-00-0"#,
                $number,
                r#""
src = "02-00-00-00-00-02"
appid = "#,
                $number,
                r#"
gocb_ref = "P1/LLN0$GO$G"#,
                $number,
                r#""
dat_set = "P1/LLN0$DS1"
go_id = "G1"
conf_rev = 1

[[line.zone]]
shape = "mho"
dir = "forward"
reach_r = 0
reach_x = 12500
delay_ms = 0
trip = true
swing_block = false
load_block = false
"#,
            )+
        )
    };
}

/// The text of a settings file with the drill's two lines: what `drill_settings` says, where a missing key has its
/// default.
#[tactic(auto, unfolding(crate::specs::DrillText::drill_text, crate::specs::DrillText::line_text, crate::specs::DrillSettings::name_of, crate::specs::Slots::sv_id_of))]
pub fn drill_text() -> &'static str
    ensures { result.now ≡ drill_text }
{
    text_of_lines!(1 2)
}
