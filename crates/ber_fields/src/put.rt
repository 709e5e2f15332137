//! Elements as they are written: each call appends to what was written before.
ghost use Rattle.std.specs.Prelude.{◌≡◌, ◌<◌, ◌≤◌, ◌++◌, ◌∷◌, length};
ghost use Rattle.ber_fields.specs.Written.{Fits, head_text, field, signed_size, shortest, truth};

use arrayvec::ArrayVec;
use relay_num::put_bytes;

/// Appends the tag and the length, in the shortest definite form. The length is at most 65535, and
/// the two to four bytes must fit.
pub fn put_head(out: &mut ArrayVec<u8, 1024>, tag: u8, length: usize)
    requires short { length < 65536 }
    requires room { Fits out.old.items (head_text tag length) }
    ensures { out.new.items ≡ out.old.items ++ head_text tag length }
{
    if length < 128 {
        put_bytes(out, &[tag, length as u8]);
    } else if length < 256 {
        put_bytes(out, &[tag, 0x81, length as u8]);
    } else {
        put_bytes(
            out,
            &[tag, 0x82, (length / 256) as u8, (length % 256) as u8],
        );
    }
}

/// Appends an element. It must fit.
fn put_field(out: &mut ArrayVec<u8, 1024>, tag: u8, contents: &[u8])
    requires length { length contents.now < 65536 }
    requires room { Fits out.old.items (field tag contents.now) }
    ensures { out.new.items ≡ out.old.items ++ field tag contents.now }
{
    put_head(out, tag, contents.len());
    put_bytes(out, contents);
}

/// How many bytes the shortest two's complement of a number has, from one to five.
fn signed_size(value: u32) -> usize
    ensures { result ≡ signed_size value }
{
    if value < 1 << 7 {
        1
    } else if value < 1 << 15 {
        2
    } else if value < 1 << 23 {
        3
    } else if value < 1 << 31 {
        4
    } else {
        5
    }
}

/// Appends the number in its shortest two's complement: one to five bytes, a leading 0 where the
/// sign bit would be set. They must fit.
pub fn put_unsigned(out: &mut ArrayVec<u8, 1024>, tag: u8, value: u32)
    requires { Fits out.old.items (field tag (shortest value)) }
    ensures { out.new.items ≡ out.old.items ++ field tag (shortest value) }
{
    let bytes = u64::from(value).to_be_bytes();
    put_field(out, tag, &bytes[8 - signed_size(value)..]);
}

/// Appends the text, which has at most 129 bytes (the visible strings of IEC 61850-8-1). It must fit.
pub fn put_text(out: &mut ArrayVec<u8, 1024>, tag: u8, text: &[u8])
    requires length { length text.now ≤ 129 }
    requires room { Fits out.old.items (field tag text.now) }
    ensures { out.new.items ≡ out.old.items ++ field tag text.now }
{
    put_field(out, tag, text);
}

/// Appends a truth value: one byte, 1 for true and 0 for false. It must fit.
pub fn put_bool(out: &mut ArrayVec<u8, 1024>, tag: u8, value: bool)
    requires { Fits out.old.items (field tag (truth value)) }
    ensures { out.new.items ≡ out.old.items ++ field tag (truth value) }
{
    put_field(out, tag, &[u8::from(value)]);
}

/// Appends a bit string of one to sixteen bytes, behind the count of the bits of its last byte that
/// aren't used. It must fit.
pub fn put_bits(out: &mut ArrayVec<u8, 1024>, tag: u8, unused: u8, bits: &[u8])
    requires unused { unused < 8 }
    requires bits { (0 < length bits.now) × (length bits.now ≤ 16) }
    requires room { Fits out.old.items (field tag (unused ∷ bits.now)) }
    ensures { out.new.items ≡ out.old.items ++ field tag (unused ∷ bits.now) }
{
    put_head(out, tag, 1 + bits.len());
    put_bytes(out, &[unused]);
    put_bytes(out, bits);
}
