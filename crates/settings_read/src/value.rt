//! The kinds of values, each with its test.
ghost use Rattle.std.specs.Prelude.{◌≡◌, ◌≤◌, length, nat_le, ◌&&◌, IfOk};
ghost use Rattle.std.specs.List.{list_all};
ghost use Rattle.toml.specs.View.{view};
ghost use Rattle.relay_settings.specs.Ranges.{IsCount, IsWhole, IsText};
ghost use Rattle.settings_read.specs.View.{seen, plain_place};
ghost use Rattle.settings_read.specs.Walk.{path, found, there, whole, count, boolean, text, required, optional};

use crate::place::{Place, Refusal};
use arrayvec::ArrayVec;
use toml::Value;

#[tactic(auto, unfolding(crate::specs::Walk::whole))]
fn whole(here: &Place, key: &str, value: &Value, low: i64, high: i64) -> Result<i64, Refusal>
    requires { length key.now ≤ 32 }
    ensures value { seen (λ z. z) result ≡ whole low high (path (plain_place here.now) key.now) (view value.now) }
    ensures range { IfOk result (IsWhole low high) }
{
    match value.as_integer() {
        Some(z) if low <= z && z <= high => Ok(z),
        Some(_) => Err(here.refuse(6, key)),
        None => Err(here.refuse(5, key)),
    }
}

#[tactic(auto, unfolding(crate::specs::Walk::count, crate::specs::Walk::whole))]
fn count(here: &Place, key: &str, value: &Value, low: u32, high: u32) -> Result<u32, Refusal>
    requires { length key.now ≤ 32 }
    ensures value { seen (λ n. n) result ≡ count low high (path (plain_place here.now) key.now) (view value.now) }
    ensures range { IfOk result (IsCount low high) }
{
    match value.as_integer() {
        Some(z) if i64::from(low) <= z && z <= i64::from(high) => Ok(z as u32),
        Some(_) => Err(here.refuse(6, key)),
        None => Err(here.refuse(5, key)),
    }
}

#[tactic(auto, unfolding(crate::specs::Walk::boolean))]
fn boolean(here: &Place, key: &str, value: &Value) -> Result<bool, Refusal>
    requires { length key.now ≤ 32 }
    ensures { seen (λ b. b) result ≡ boolean (path (plain_place here.now) key.now) (view value.now) }
{
    match value.as_bool() {
        Some(b) => Ok(b),
        None => Err(here.refuse(5, key)),
    }
}

fn are_between(bytes: &[u8], low: u8) -> bool
    ensures { result ≡ list_all (λ b. nat_le low b && nat_le b 126) bytes.now }
{
    bytes.iter().all(|b| low <= *b && *b <= 126)
}

fn is_text(bytes: &[u8], low: u8, most: usize) -> bool
    ensures { result ≡ ((nat_le 1 (length bytes.now) && nat_le (length bytes.now) most) && list_all (λ b. nat_le low b && nat_le b 126) bytes.now) }
{
    let inside = are_between(bytes, low);
    1 <= bytes.len() && bytes.len() <= most && inside
}

#[tactic(auto, unfolding(crate::specs::Walk::text))]
fn text<const MOST: usize>(
    here: &Place,
    key: &str,
    value: &Value,
    low: u8,
) -> Result<ArrayVec<u8, MOST>, Refusal>
    requires { length key.now ≤ 32 }
    ensures value { seen (λ t. t.items) result ≡ text low MOST (path (plain_place here.now) key.now) (view value.now) }
    ensures range { IfOk result (λ t. IsText low MOST t.items) }
{
    match value.as_str() {
        Some(s) => {
            let mut copy = ArrayVec::new();
            if is_text(s.as_bytes(), low, MOST)
                && copy.try_extend_from_slice(s.as_bytes()).is_ok()
            {
                Ok(copy)
            } else {
                Err(here.refuse(12, key))
            }
        }
        None => Err(here.refuse(5, key)),
    }
}

fn present<'a>(here: &'a Place, key: &str) -> Result<&'a Value, Refusal>
    requires { length key.now ≤ 32 }
    ensures { seen (λ v. view v.now) result ≡ there (found (plain_place here.now) key.now) 4 (path (plain_place here.now) key.now) }
{
    match here.get(key) {
        Some(value) => Ok(value),
        None => Err(here.refuse(4, key)),
    }
}

/// A whole number from `low` to `high`.
#[tactic(auto, unfolding(crate::specs::Walk::required))]
pub(crate) fn required_whole(here: &Place, key: &str, low: i64, high: i64) -> Result<i64, Refusal>
    requires { length key.now ≤ 32 }
    ensures value { seen (λ z. z) result ≡ required (whole low high) (plain_place here.now) key.now }
    ensures range { IfOk result (IsWhole low high) }
{
    let value = present(here, key)?;
    whole(here, key, value, low, high)
}

/// A whole number without a sign.
#[tactic(auto, unfolding(crate::specs::Walk::required))]
pub(crate) fn required_count(here: &Place, key: &str, low: u32, high: u32) -> Result<u32, Refusal>
    requires { length key.now ≤ 32 }
    ensures value { seen (λ n. n) result ≡ required (count low high) (plain_place here.now) key.now }
    ensures range { IfOk result (IsCount low high) }
{
    let value = present(here, key)?;
    count(here, key, value, low, high)
}

/// The same where the key may be missing.
#[tactic(auto, unfolding(crate::specs::Walk::optional))]
pub(crate) fn optional_count(
    here: &Place,
    key: &str,
    default: u32,
    low: u32,
    high: u32,
) -> Result<u32, Refusal>
    requires key { length key.now ≤ 32 }
    requires low { low ≤ default }
    requires high { default ≤ high }
    ensures value { seen (λ n. n) result ≡ optional (count low high) default (plain_place here.now) key.now }
    ensures range { IfOk result (IsCount low high) }
{
    match here.get(key) {
        Some(value) => count(here, key, value, low, high),
        None => Ok(default),
    }
}

#[tactic(auto, unfolding(crate::specs::Walk::required))]
pub(crate) fn required_boolean(here: &Place, key: &str) -> Result<bool, Refusal>
    requires { length key.now ≤ 32 }
    ensures { seen (λ b. b) result ≡ required boolean (plain_place here.now) key.now }
{
    let value = present(here, key)?;
    boolean(here, key, value)
}

/// A text of 1 to `MOST` bytes, each from `low` to 0x7E.
#[tactic(auto, unfolding(crate::specs::Walk::required))]
pub(crate) fn required_text<const MOST: usize>(
    here: &Place,
    key: &str,
    low: u8,
) -> Result<ArrayVec<u8, MOST>, Refusal>
    requires { length key.now ≤ 32 }
    ensures value { seen (λ t. t.items) result ≡ required (text low MOST) (plain_place here.now) key.now }
    ensures range { IfOk result (λ t. IsText low MOST t.items) }
{
    let value = present(here, key)?;
    text(here, key, value, low)
}
