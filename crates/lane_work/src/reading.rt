//! One read of a stream, tried again where it was interrupted, and the buffers of a connection, of which one grows with what comes. What becomes of
//! the bytes is for the modules beside this one.

ghost use Rattle.std.specs.Prelude.{◌≡◌, ◌<◌, ◌≤◌, ◌*◌, IfOk, OnErr, length, max, min, take, vec_capacity};
ghost use Rattle.std.specs.Io.KnownBytes.{Consumes, IsAtEnd, Keeps};

use std::io::{ErrorKind, Read};
use std::sync::Wait;

/// The most bytes that are read at once.
const MOST: usize = 131_072;

/// Room that a worker uses for each connection anew.
#[derive(Drop)]
pub struct Buffers {
    /// For what comes; not empty. It grows where much comes at once (`converse`).
    pub input: Vec<u8>,
    /// For what is said.
    pub output: Vec<u8>,
}

// A reader failed, and not because it was interrupted.
#[derive(Clone, Copy, Debug, PartialEq, Eq)]
pub(crate) struct ReadFault;

// Reads once, to the front of the buffer, and answers how many bytes came: 0 at the stream's end.
pub(crate) fn read_piece<R: Wait, I: Read>(
    rt: &R,
    input: &mut I,
    buffer: &mut Vec<u8>,
) -> Result<usize, ReadFault>
    requires { 0 < length buffer.old.items }
    ensures len { length buffer.new.items ≡ length buffer.old.items }
    ensures bound { IfOk result (λ n. n ≤ length buffer.new.items) }
    ensures came { IfOk result (λ n.
        Consumes (I.remaining input.old) (I.remaining input.new) (take n buffer.new.items)) }
    ensures end { IfOk result (λ n. n ≡ 0 → IsAtEnd (I.remaining input.new)) }
    ensures none { OnErr result (Keeps (I.remaining input.old) (I.remaining input.new)) }
{
    for _ in rt.forever() {
        match input.read(buffer.as_mut_slice()) {
            Ok(count) => return Ok(count),
            Err(e) => {
                if e.kind() != ErrorKind::Interrupted {
                    return Err(ReadFault);
                }
            }
        }
    }
    unreachable!()
}

// Makes the buffer twice as long, up to `MOST`, where a read of so many bytes filled it: so a connection over which little comes costs little. Where memory is refused it stays
// as it is; where there is room it isn't.
pub(crate) fn widen(count: usize, buffer: &mut Vec<u8>)
    ensures longer { length buffer.old.items ≤ length buffer.new.items }
    ensures most { length buffer.new.items ≤ max (length buffer.old.items) 131_072 }
    ensures few { count < length buffer.old.items → buffer.new ≡ buffer.old }
    ensures grows { length buffer.old.items ≤ count → length buffer.old.items < 131_072
        → min (2 * length buffer.old.items) 131_072 ≤ vec_capacity buffer.old
        → length buffer.new.items ≡ min (2 * length buffer.old.items) 131_072 }
{
    let len = buffer.len();
    if count < len || MOST <= len {
        return;
    }
    let wide = if MOST - len < len { MOST } else { 2 * len };
    let _ = buffer.resize(wide, 0);
}
