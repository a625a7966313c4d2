//! What stands between words, and a word with its number. Which words are written is told where they are.
//! What is put goes to any outlet, in room that is held there; what is written asks for memory.

ghost use Rattle.std.specs.Prelude.{◌≡◌, ◌++◌, ◌+◌, ◌≤◌, decimal, [], flat_map, length, OnOk, OnErr, vec_capacity};
ghost use Rattle.imap_answers.specs.inner.Joined.{lead};

use itoa::Buffer;
use line_io::{Outlet, append_parts};
use std::alloc::AllocError;

/// Puts parts in their order, in room that is held.
pub(crate) fn put_parts<O: Outlet>(parts: &[&[u8]], out: &mut O)
    requires fits { length (flat_map (λ part. part.now) parts.now) ≤ O.room out.old }
    ensures said { O.said out.new ≡ O.said out.old ++ flat_map (λ part. part.now) parts.now }
    ensures lot { O.lot out.new ≡ O.lot out.old }
    ensures room { O.room out.old
        ≤ O.room out.new + length (flat_map (λ part. part.now) parts.now) }
{
    for part in parts {
        out.put(part);
    }
}

/// Puts a word and a number, in room that is held.
pub(crate) fn put_number<O: Outlet>(word: &[u8], number: u128, out: &mut O)
    requires fits { length (word.now ++ decimal number) ≤ O.room out.old }
    ensures said { O.said out.new ≡ O.said out.old ++ (word.now ++ decimal number) }
    ensures lot { O.lot out.new ≡ O.lot out.old }
    ensures room { O.room out.old ≤ O.room out.new + length (word.now ++ decimal number) }
{
    let mut digits = Buffer::new();
    out.put(word);
    out.put(digits.format(number).as_bytes());
}

/// Puts a space, unless what follows is the first, in room that is held.
pub(crate) fn put_space<O: Outlet>(first: bool, out: &mut O)
    requires fits { length (lead first []) ≤ O.room out.old }
    ensures said { O.said out.new ≡ O.said out.old ++ lead first [] }
    ensures lot { O.lot out.new ≡ O.lot out.old }
    ensures room { O.room out.old ≤ O.room out.new + length (lead first []) }
{
    if !first {
        out.put(b" ");
    }
}

// Writes what stands between two texts, and them, in room that was reserved.
pub(crate) fn put_between<O: Outlet>(before: &[u8], text: &[u8], behind: &[u8], out: &mut O)
    requires { length before.now + length text.now + length behind.now ≤ O.room out.old }
    ensures items { O.said out.new ≡ O.said out.old ++ (before.now ++ text.now ++ behind.now) }
    ensures room { O.room out.old
        ≤ O.room out.new + (length before.now + length text.now + length behind.now) }
    ensures lot { O.lot out.new ≡ O.lot out.old }
{
    out.put(before);
    out.put(text);
    out.put(behind);
}

/// Appends a word and a number.
pub(crate) fn write_number(word: &[u8], number: u128, out: &mut Vec<u8>) -> Result<(), AllocError>
    ensures ok { OnOk result (out.new.items ≡ out.old.items ++ (word.now ++ decimal number)) }
    ensures err { OnErr result (out.new.items ≡ out.old.items) }
    ensures room { vec_capacity out.old ≤ vec_capacity out.new }
{
    let mut digits = Buffer::new();
    append_parts(&[word, digits.format(number).as_bytes()], out)
}

/// Appends a space, unless what follows is the first.
pub(crate) fn write_space(first: bool, out: &mut Vec<u8>) -> Result<(), AllocError>
    ensures ok { OnOk result (out.new.items ≡ out.old.items ++ lead first []) }
    ensures err { OnErr result (out.new.items ≡ out.old.items) }
    ensures room { vec_capacity out.old ≤ vec_capacity out.new }
{
    if first {
        return Ok(());
    }
    append_parts(&[b" ".as_slice()], out)
}
