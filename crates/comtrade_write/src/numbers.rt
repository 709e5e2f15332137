//! Numbers at the end of a line.
ghost use Rattle.std.specs.Prelude.{◌≡◌, ◌≤◌, ◌<◌, ◌+◌, ◌^◌, ◌++◌, length, decimal};
ghost use Rattle.std.specs.Fmt.{signed_decimal};

use arrayvec::ArrayVec;
use relay_num::put_decimal;

/// Appends the decimal digits of a value below 10^9, for a caller that keeps room for any such value.
pub(crate) fn put_number(out: &mut ArrayVec<u8, 160>, value: u64)
    requires value { value < 10 ^ 9 }
    requires room { length out.old.items + 9 ≤ 160 }
    ensures bytes { out.new.items ≡ out.old.items ++ decimal value }
    ensures long { length out.new.items ≤ length out.old.items + 9 }
{
    put_decimal(out, value);
}

/// Appends the decimal digits of a value, with one `-` before them exactly where it is below 0.
pub(crate) fn put_signed(out: &mut ArrayVec<u8, 160>, value: i64)
    requires { length out.old.items + 20 ≤ 160 }
    ensures bytes { out.new.items ≡ out.old.items ++ signed_decimal value }
    ensures long { length out.new.items ≤ length out.old.items + 20 }
{
    if value < 0 {
        out.push(b'-');
    }
    put_decimal(out, value.unsigned_abs());
}
