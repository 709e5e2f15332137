//! Decimal digits.
ghost use Rattle.std.specs.Prelude.{◌≡◌, ◌+◌, ◌≤◌, ◌++◌, length};
ghost use Rattle.std.specs.Fmt.{decimal};
ghost use Rattle.arrayvec.specs.ArrayVec.{array_vec_len};

use arrayvec::ArrayVec;

/// Appends the decimal digits of `value` in ASCII, without a needless leading zero, and changes nothing
/// before them. `out` has room for them; at most 20 are written.
pub fn put_decimal<const CAP: usize>(out: &mut ArrayVec<u8, CAP>, value: u64)
    requires { array_vec_len out.old + length (decimal value) ≤ CAP }
    ensures { out.new.items ≡ out.old.items ++ decimal value }
{
    let mut digits: ArrayVec<u8, 20> = ArrayVec::new();
    append_digits(&mut digits, value);
    let _ = out.try_extend_from_slice(digits.as_slice());
}

fn append_digits(out: &mut ArrayVec<u8, 20>, value: u64)
    requires { array_vec_len out.old + length (decimal value) ≤ 20 }
    ensures { out.new.items ≡ out.old.items ++ decimal value }
{
    if value < 10 {
        out.push(b'0' + value as u8);
    } else {
        append_digits(out, value / 10);
        out.push(b'0' + (value % 10) as u8);
    }
}
