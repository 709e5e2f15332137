//! Bytes at the end of a bounded list, and texts as bounded lists.
ghost use Rattle.std.specs.Prelude.{◌≡◌, ◌+◌, ◌≤◌, ◌++◌, length};

use arrayvec::ArrayVec;

/// Appends the bytes, and changes nothing before them. `out` has room for them.
pub fn put_bytes<const CAP: usize>(out: &mut ArrayVec<u8, CAP>, bytes: &[u8])
    requires { length out.old.items + length bytes.now ≤ CAP }
    ensures bytes { out.new.items ≡ out.old.items ++ bytes.now }
    ensures long { length out.new.items ≡ length out.old.items + length bytes.now }
{
    let _ = out.try_extend_from_slice(bytes);
}

/// The text as a bounded list, for whose length there is room.
pub fn copy_of<const CAP: usize>(text: &[u8]) -> ArrayVec<u8, CAP>
    requires { length text.now ≤ CAP }
    ensures { result.items ≡ text.now }
{
    let mut copy = ArrayVec::new();
    let _ = copy.try_extend_from_slice(text);
    copy
}
