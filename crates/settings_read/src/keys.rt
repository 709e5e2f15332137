//! The known keys of a table.
ghost use Rattle.std.specs.Prelude.{◌≡◌, map, string_bytes};
ghost use Rattle.std.specs.Str.{bytes_eq};
ghost use Rattle.std.specs.List.{list_any, list_all};
ghost use Rattle.std.specs.Map.{keys_of};
ghost use Rattle.settings_read.specs.View.{seen, plain_place};
ghost use Rattle.settings_read.specs.Walk.{only};

use crate::place::{Place, Refusal};
use toml::Table;

fn is_among(key: &str, keys: &[&str]) -> bool
    ensures { result ≡ list_any (λ k. bytes_eq key.now k.now) keys.now }
{
    keys.iter().any(|known| key == *known)
}

fn are_among(table: &Table, keys: &[&str]) -> bool
    ensures { result ≡ list_all (λ key. list_any (λ k. bytes_eq (string_bytes key) k.now) keys.now) (keys_of table.now.entries) }
{
    table.keys().all(|key| is_among(key.as_str(), keys))
}

/// No key of the table is unknown.
#[tactic(auto, unfolding(crate::specs::Walk::only))]
pub(crate) fn only(here: &Place, keys: &[&str]) -> Result<(), Refusal>
    ensures { seen (λ _. tt) result ≡ only (plain_place here.now) (map (λ k. k.now) keys.now) }
{
    if are_among(here.table, keys) {
        Ok(())
    } else {
        Err(Refusal {
            number: 3,
            key: here.name,
        })
    }
}
