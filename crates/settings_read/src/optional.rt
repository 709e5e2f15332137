//! A table that may be missing, read as a value of a type.
ghost use Rattle.std.specs.Prelude.{◌≡◌, ◌≤◌, length, is_some, IfOk, IfSome};
ghost use Rattle.settings_read.specs.View.{seen, plain_place};
ghost use Rattle.settings_read.specs.Walk.{Answer, Place, found, optional_table};

use crate::place::{Place, Refusal};

/// What a table of the file is read as.
pub(crate) trait FromTable: Sized {
    // The walk over such a table.
    ghost walk: { Place → Answer Self };

    // What is so of each value that the walk gives.
    ghost IsInRange: { Self → Type 0 };

    /// The value of the table, or the first refusal that the walk meets.
    fn from_table(here: &Place) -> Result<Self, Refusal>
        ensures value { seen (λ x. x) result ≡ walk (plain_place here.now) }
        ensures ranges { IfOk result IsInRange };
}

/// The value of the table at a key, or None where the key is missing. The key has 8 bytes at most, and the path in front
/// of it 20. Refusal 5: what stands there is no table.
#[tactic(auto, unfolding(crate::specs::Walk::optional_table))]
pub(crate) fn optional_table<T: FromTable>(here: &Place, key: &str) -> Result<Option<T>, Refusal>
    requires key { length key.now ≤ 8 }
    requires room { length here.now.prefix.bytes ≤ 20 }
    ensures value { seen (λ x. x) result ≡ optional_table T.walk (plain_place here.now) key.now }
    ensures ranges { IfOk result (λ x. IfSome x T.IsInRange) }
    ensures there { IfOk result (λ x. is_some x ≡ is_some (found (plain_place here.now) key.now)) }
{
    match here.get(key) {
        None => Ok(None),
        Some(value) => match value.as_table() {
            None => Err(here.refuse(5, key)),
            Some(table) => {
                let value = T::from_table(&here.below(key, table))?;
                Ok(Some(value))
            }
        },
    }
}
