//! Digits at the end of a log line.
ghost use Rattle.std.specs.Prelude.{◌≡◌, ◌≤◌, ◌+◌, ◌++◌, length, decimal};
ghost use Rattle.event_record.specs.Time.{fixed};

use arrayvec::ArrayVec;
use relay_num::put_decimal;

/// Appends the decimal digits of a value, for a caller that keeps room for any.
pub(crate) fn put_number(out: &mut ArrayVec<u8, 160>, value: u64)
    requires { length out.old.items + 20 ≤ 160 }
    ensures bytes { out.new.items ≡ out.old.items ++ decimal value }
    ensures long { length out.new.items ≤ length out.old.items + 20 }
{
    put_decimal(out, value);
}

/// Appends the last `width` decimal digits of a value, with zeros in front. The digits have to fit.
pub fn put_fixed(out: &mut ArrayVec<u8, 160>, width: usize, value: u32)
    requires { length out.old.items + width ≤ 160 }
    ensures bytes { out.new.items ≡ out.old.items ++ fixed width value }
    ensures long { length out.new.items ≡ length out.old.items + width }
{
    if width > 0 {
        put_fixed(out, width - 1, value / 10);
        out.push(b'0' + (value % 10) as u8);
    }
}
