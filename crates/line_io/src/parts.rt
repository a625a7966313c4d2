//! Bytes that are appended in several parts, or go from the front. What they say is for the crates above.

ghost use Rattle.std.specs.Prelude.{◌≡◌, ◌≤◌, ◌+◌, ◌++◌, length, drop, flat_map, OnOk, OnErr, vec_len, vec_capacity};

use std::alloc::AllocError;

/// Appends bytes for which there is room. It asks for no memory.
pub fn put(bytes: &[u8], out: &mut Vec<u8>)
    requires { vec_len out.old + length bytes.now ≤ vec_capacity out.old }
    // They stand behind what was there, and `out` keeps its room or has more.
    ensures items { out.new.items ≡ out.old.items ++ bytes.now }
    ensures len { vec_len out.new ≡ vec_len out.old + length bytes.now }
    ensures room { vec_capacity out.old ≤ vec_capacity out.new }
{
    let _ = out.extend_from_slice(bytes);
}

/// Appends the parts in their order, all of them or none.
///
/// Errors: `AllocError` where memory was refused; `out` is then as it was.
pub fn append_parts(parts: &[&[u8]], out: &mut Vec<u8>) -> Result<(), AllocError>
    // After Ok the parts stand behind what was there, in their order; after an error `out` has the bytes that it had.
    ensures ok { OnOk result (out.new.items
        ≡ out.old.items ++ flat_map (λ part. part.now) parts.now) }
    ensures err { OnErr result (out.new.items ≡ out.old.items) }
    // `out` keeps its room or has more.
    ensures room { vec_capacity out.old ≤ vec_capacity out.new }
{
    let before = out.len();
    for part in parts {
        let Ok(()) = out.extend_from_slice(part) else {
            out.truncate(before);
            return Err(AllocError);
        };
    }
    Ok(())
}

/// Takes so many bytes from the front, and moves the others up. The room stays.
pub fn drop_front(bytes: &mut Vec<u8>, count: usize)
    requires { count ≤ vec_len bytes.old }
    ensures { bytes.new.items ≡ drop count bytes.old.items }
{
    let left = bytes.len() - count;
    bytes.copy_within(count.., 0);
    bytes.truncate(left);
}
