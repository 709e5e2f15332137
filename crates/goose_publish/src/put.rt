//! Elements at the end of what is written, for callers that keep room for the longest.
ghost use Rattle.std.specs.Prelude.{◌≡◌, ◌+◌, ◌<◌, ◌≤◌, ◌++◌, length};
ghost use Rattle.byteorder.specs.Endian.{big_bytes};
ghost use Rattle.ber_fields.specs.Written.{field, head_text, shortest, truth};
ghost use Rattle.goose_publish.specs.GooseFrame.{quality_field};

use crate::tags;
use arrayvec::ArrayVec;
use ber_fields::{put_bits, put_bool, put_head, put_text, put_unsigned};
use relay_num::put_bytes;

/// Two bytes, the highest first.
pub fn word(out: &mut ArrayVec<u8, 1024>, word: u16)
    requires { length out.old.items + 2 ≤ 1024 }
    ensures bytes { out.new.items ≡ out.old.items ++ big_bytes 2 word }
    ensures long { length out.new.items ≡ length out.old.items + 2 }
{
    put_bytes(out, &word.to_be_bytes());
}

/// A tag and a length in bytes.
pub fn head(out: &mut ArrayVec<u8, 1024>, tag: u8, size: usize)
    requires size { size < 65536 }
    requires room { length out.old.items + 4 ≤ 1024 }
    ensures bytes { out.new.items ≡ out.old.items ++ head_text tag size }
    ensures long { length out.new.items ≤ length out.old.items + 4 }
{
    put_head(out, tag, size);
}

/// A text of at most 129 bytes.
pub fn text(out: &mut ArrayVec<u8, 1024>, tag: u8, text: &[u8])
    requires text { length text.now ≤ 129 }
    requires room { length out.old.items + length text.now + 4 ≤ 1024 }
    ensures bytes { out.new.items ≡ out.old.items ++ field tag text.now }
    ensures long { length out.new.items ≤ length out.old.items + length text.now + 4 }
{
    put_text(out, tag, text);
}

/// A number in its shortest two's complement.
pub fn number(out: &mut ArrayVec<u8, 1024>, tag: u8, value: u32)
    requires { length out.old.items + 9 ≤ 1024 }
    ensures bytes { out.new.items ≡ out.old.items ++ field tag (shortest value) }
    ensures long { length out.new.items ≤ length out.old.items + 9 }
{
    put_unsigned(out, tag, value);
}

/// A truth value.
pub fn boolean(out: &mut ArrayVec<u8, 1024>, tag: u8, value: bool)
    requires { length out.old.items + 3 ≤ 1024 }
    ensures bytes { out.new.items ≡ out.old.items ++ field tag (truth value) }
    ensures long { length out.new.items ≡ length out.old.items + 3 }
{
    put_bool(out, tag, value);
}

/// The quality of a value, which is good or invalid (IEC 61850-7-3, with its 13 bits).
pub fn quality(out: &mut ArrayVec<u8, 1024>, is_good: bool)
    requires { length out.old.items + 5 ≤ 1024 }
    ensures bytes { out.new.items ≡ out.old.items ++ quality_field is_good }
    ensures long { length out.new.items ≡ length out.old.items + 5 }
{
    put_bits(
        out,
        tags::BIT_STRING,
        3,
        &[if is_good { 0 } else { 0x40 }, 0],
    );
}
