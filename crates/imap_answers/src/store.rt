//! The answer that tells of a message whose flags a client has changed (RFC 9051, 6.4.6 and 7.5.2).
//! Whose flags are changed, and whether that is told, is the session's matter.

ghost use Rattle.std.specs.Prelude.{◌≡◌, ◌++◌, ◌≤◌, [], codes, decimal, if◌then◌else◌, OnOk, OnErr, vec_capacity};
ghost use Rattle.std.specs.Io.{StartsWith};
ghost use Rattle.imap_answers.specs.Answers.{flags_answer};

use crate::flags::write_flags;
use change_ring::Flags;
use itoa::Buffer;
use line_io::append_parts;
use std::alloc::AllocError;

/// Appends a UID and what separates it, where it is told, or nothing where memory is refused.
fn put_uid(by_uid: bool, uid: u32, out: &mut Vec<u8>) -> Result<(), AllocError>
    ensures ok { OnOk result (out.new.items
        ≡ out.old.items ++ (if by_uid then codes "UID " ++ decimal uid ++ codes " " else [])) }
    ensures err { OnErr result (out.new.items ≡ out.old.items) }
    ensures room { vec_capacity out.old ≤ vec_capacity out.new }
{
    if !by_uid {
        return Ok(());
    }
    let mut digits = Buffer::new();
    append_parts(
        &[
            b"UID ".as_slice(),
            digits.format(uid).as_bytes(),
            b" ".as_slice(),
        ],
        out,
    )
}

/// Appends the answer to a STORE, or a part of it.
fn put_stored(
    position: usize,
    by_uid: bool,
    uid: u32,
    flags: Flags,
    out: &mut Vec<u8>,
) -> Result<(), AllocError>
    ensures ok { OnOk result (out.new.items
        ≡ out.old.items ++ flags_answer by_uid position uid flags) }
    ensures err { OnErr result (StartsWith out.new.items out.old.items) }
    ensures room { vec_capacity out.old ≤ vec_capacity out.new }
{
    let mut digits = Buffer::new();
    let number = digits.format(position).as_bytes();
    append_parts(&[b"* ".as_slice(), number, b" FETCH (".as_slice()], out)?;
    put_uid(by_uid, uid, out)?;
    write_flags(flags, out)?;
    append_parts(&[b")\r\n".as_slice()], out)
}

/// Appends the answer to a STORE for the message at this position: its flags as they are then, and before
/// them its UID under UID STORE (RFC 9051, 7.5.2).
///
/// Errors: `AllocError` where memory is refused; then `out` is as it was.
pub fn write_stored(
    position: usize,
    by_uid: bool,
    uid: u32,
    flags: Flags,
    out: &mut Vec<u8>,
) -> Result<(), AllocError>
    // The answer is `flags_answer`, byte by byte. An error writes nothing, and the room of `out` never becomes less.
    ensures ok { OnOk result (out.new.items
        ≡ out.old.items ++ flags_answer by_uid position uid flags) }
    ensures err { OnErr result (out.new.items ≡ out.old.items) }
    ensures room { vec_capacity out.old ≤ vec_capacity out.new }
{
    let before = out.len();
    let Ok(()) = put_stored(position, by_uid, uid, flags, out) else {
        out.truncate(before);
        return Err(AllocError);
    };
    Ok(())
}
