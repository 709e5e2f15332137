//! Numbers in decimal digits.
ghost use Rattle.std.specs.Prelude.{◌≡◌, ℕ, ℤ, pos, ◌⊎◌, List, ◌∷◌, ◌++◌, ◌<◌, ◌≤◌, ◌^◌, Some, length, IfSome, IfNone, IsSomeAnd, decimal};
ghost use Rattle.std.specs.Fmt.{signed_decimal};
ghost use Rattle.std.specs.Str.Parse.{AllDigits, digits_value};
ghost use Rattle.jiff_core.specs.Calendar.{IsWithin};
ghost use Rattle.comtrade_read.specs.Numbers.{fixed};

use crate::field::{after, field};

/// No number of a pair has more digits.
const MOST_DIGITS: usize = 9;

/// No number of several digits begins with it.
const NEEDLESS: u8 = b'0';

/// A value with `-` before it is at least so far from 0.
const LEAST_BELOW: u64 = 1;

/// No value of a channel is further from 0.
const MOST_VALUE: u64 = 268_435_455;

/// The number that at most nine digits write.
pub(crate) fn digits(bytes: &[u8]) -> Option<u64>
    ensures sound { IfSome result (λ n. AllDigits 10 bytes.now × (length bytes.now ≤ 9) × (n ≡ digits_value 10 bytes.now)) }
    ensures complete { AllDigits 10 bytes.now → length bytes.now ≤ 9 → result ≡ Some (digits_value 10 bytes.now) }
{
    if bytes.len() > MOST_DIGITS {
        return None;
    }
    let mut value = 0;
    for byte in bytes {
        if !byte.is_ascii_digit() {
            return None;
        }
        value = value * 10 + u64::from(*byte - b'0');
    }
    Some(value)
}

/// The number below 10^9 that a field writes, without a needless leading zero.
pub(crate) fn number_of(bytes: &[u8]) -> Option<u64>
    ensures sound { IfSome result (λ n. (bytes.now ≡ decimal n) × (n < 10 ^ 9)) }
    ensures complete { (n : ℕ) → n < 10 ^ 9 → bytes.now ≡ decimal n → result ≡ Some n }
{
    if bytes.is_empty() {
        return None;
    }
    if bytes[0] == NEEDLESS && bytes.len() > 1 {
        return None;
    }
    digits(bytes)
}

/// The value of a channel that a field writes, with one `-` before its digits exactly where it is below 0.
fn value_of(bytes: &[u8]) -> Option<i64>
    ensures sound { IfSome result (λ z. (bytes.now ≡ signed_decimal z) × IsWithin 268435455 z) }
    ensures complete { (z : ℤ) → IsWithin 268435455 z → bytes.now ≡ signed_decimal z → result ≡ Some z }
{
    let Some(behind) = after(bytes, b"-") else {
        let number = size_of(bytes)?;
        return Some(number as i64);
    };
    let size = size_of(behind)?;
    if size < LEAST_BELOW {
        return None;
    }
    Some(-(size as i64))
}

/// The number up to 268435455 that a field writes.
fn size_of(bytes: &[u8]) -> Option<u64>
    ensures sound { IfSome result (λ n. (bytes.now ≡ decimal n) × (n ≤ 268435455)) }
    ensures complete { (n : ℕ) → n ≤ 268435455 → bytes.now ≡ decimal n → result ≡ Some n }
{
    let number = number_of(bytes)?;
    if number > MOST_VALUE {
        None
    } else {
        Some(number)
    }
}

/// The number before the next `end`, and the bytes behind it. `end` is below the digits.
pub(crate) fn read_number<'a>(text: &'a [u8], end: u8) -> Option<(u64, &'a [u8])>
    requires { end < 45 }
    ensures sound { IfSome result (λ r. (text.now ≡ decimal r.0 ++ end ∷ r.1.now) × (r.0 < 10 ^ 9)) }
    ensures complete { (n : ℕ) (rest : List ℕ) → n < 10 ^ 9 → text.now ≡ decimal n ++ end ∷ rest →
        IsSomeAnd result (λ r. (r.0 ≡ n) × (r.1.now ≡ rest)) }
{
    let (bytes, rest) = field(text, end)?;
    let number = number_of(bytes)?;
    Some((number, rest))
}

/// The value before the next comma, and the bytes behind it.
pub(crate) fn read_value<'a>(text: &'a [u8]) -> Option<(i64, &'a [u8])>
    ensures sound { IfSome result (λ r. (text.now ≡ signed_decimal r.0 ++ 44 ∷ r.1.now) × IsWithin 268435455 r.0) }
    ensures complete { (z : ℤ) (rest : List ℕ) → IsWithin 268435455 z → text.now ≡ signed_decimal z ++ 44 ∷ rest →
        IsSomeAnd result (λ r. (r.0 ≡ z) × (r.1.now ≡ rest)) }
{
    let (bytes, rest) = field(text, b',')?;
    let value = value_of(bytes)?;
    Some((value, rest))
}

/// The number that just so many digits write, up to the byte `end` behind them, and the bytes behind it.
pub(crate) fn read_fixed<'a>(text: &'a [u8], width: usize, end: u8) -> Option<(u64, &'a [u8])>
    requires end { (end < 48) ⊎ (57 < end) }
    requires width { width ≤ 9 }
    ensures sound { IfSome result (λ r. (text.now ≡ fixed width r.0 ++ end ∷ r.1.now) × (r.0 < 10 ^ width)) }
    ensures complete { (n : ℕ) (rest : List ℕ) → n < 10 ^ width → text.now ≡ fixed width n ++ end ∷ rest →
        IsSomeAnd result (λ r. (r.0 ≡ n) × (r.1.now ≡ rest)) }
{
    let (bytes, rest) = field(text, end)?;
    if bytes.len() != width {
        return None;
    }
    let number = digits(bytes)?;
    Some((number, rest))
}
