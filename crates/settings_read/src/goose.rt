//! The table `goose` of a line.
ghost use Rattle.std.specs.Prelude.{◌≡◌, ◌≤◌, length, codes, IfOk};
ghost use Rattle.relay_settings.specs.Ranges.{IsGoose};
ghost use Rattle.relay_settings.specs.Settings.{plain_goose};
ghost use Rattle.settings_read.specs.View.{seen, plain_place};
ghost use Rattle.settings_read.specs.Octets.{octets_of_word};
ghost use Rattle.settings_read.specs.Walk.{only, word, required_table};
ghost use Rattle.settings_read.specs.GooseTable.{goose_keys, goose_at};

use crate::keys::only;
use crate::octets::octets_of_word;
use crate::place::{Place, Refusal};
use crate::value::{optional_count, required_count, required_text};
use relay_settings::GooseSettings;

fn only_goose_keys(here: &Place) -> Result<(), Refusal>
    ensures { seen (λ _. tt) result ≡ only (plain_place here.now) goose_keys }
{
    only(
        here,
        &[
            "dst",
            "src",
            "appid",
            "vlan_priority",
            "vlan_id",
            "gocb_ref",
            "dat_set",
            "go_id",
            "conf_rev",
        ],
    )
}

#[tactic(auto, unfolding(crate::specs::Walk::word))]
fn octets_at(here: &Place, key: &str) -> Result<[u8; 6], Refusal>
    requires { length key.now ≤ 32 }
    ensures { seen (λ o. o) result ≡ word 17 octets_of_word (plain_place here.now) key.now }
{
    let text = required_text::<17>(here, key, 0x21)?;
    match octets_of_word(text.as_slice()) {
        Some(octets) => Ok(octets),
        None => Err(here.refuse(6, key)),
    }
}

#[tactic(auto, unfolding(crate::specs::GooseTable::goose_at))]
fn goose_at(here: &Place) -> Result<GooseSettings, Refusal>
    ensures value { seen plain_goose result ≡ goose_at (plain_place here.now) }
    ensures ranges { IfOk result IsGoose }
{
    only_goose_keys(here)?;
    let dst = octets_at(here, "dst")?;
    let src = octets_at(here, "src")?;
    let appid = required_count(here, "appid", 0, 65535)?;
    let vlan_priority = optional_count(here, "vlan_priority", 4, 0, 7)?;
    let vlan_id = optional_count(here, "vlan_id", 0, 0, 4095)?;
    let gocb_ref = required_text::<129>(here, "gocb_ref", 0x20)?;
    let dat_set = required_text::<129>(here, "dat_set", 0x20)?;
    let go_id = required_text::<129>(here, "go_id", 0x20)?;
    let conf_rev = required_count(here, "conf_rev", 0, 4_294_967_295)?;
    Ok(GooseSettings {
        dst,
        src,
        appid: appid as u16,
        vlan_priority: vlan_priority as u8,
        vlan_id: vlan_id as u16,
        gocb_ref,
        dat_set,
        go_id,
        conf_rev,
    })
}

/// The table `goose` of a line, which must be there.
#[tactic(auto, unfolding(crate::specs::Walk::required_table))]
pub(crate) fn goose_of(here: &Place) -> Result<GooseSettings, Refusal>
    requires { length here.now.prefix.bytes ≤ 16 }
    ensures value { seen plain_goose result ≡ required_table goose_at (plain_place here.now) (codes "goose") }
    ensures ranges { IfOk result IsGoose }
{
    match here.get("goose") {
        None => Err(here.refuse(4, "goose")),
        Some(value) => match value.as_table() {
            None => Err(here.refuse(5, "goose")),
            Some(table) => goose_at(&here.below("goose", table)),
        },
    }
}
