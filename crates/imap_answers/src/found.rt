//! The answers to a SEARCH (RFC 3501, 7.2.5; RFC 9051, 7.3.4), with the bytes that specs/Answers.antt gives.
//! Which messages are found is the session's matter.

ghost use Rattle.std.specs.Prelude.{◌≡◌, ◌++◌, ◌≤◌, OnOk, OnErr, vec_capacity};
ghost use Rattle.std.specs.Io.{StartsWith};
ghost use Rattle.imap_answers.specs.Answers.{search_answer, spaced_numbers, found_answer};

use crate::extended::put_extended;
use crate::words::write_number;
use imap_grammar::SearchReturns;
use line_io::append_parts;
use std::alloc::AllocError;

/// Appends each number behind a space, or some of them.
fn put_numbers(numbers: &[usize], out: &mut Vec<u8>) -> Result<(), AllocError>
    ensures ok { OnOk result (out.new.items ≡ out.old.items ++ spaced_numbers numbers.now) }
    ensures err { OnErr result (StartsWith out.new.items out.old.items) }
    ensures room { vec_capacity out.old ≤ vec_capacity out.new }
{
    for number in numbers {
        write_number(b" ", *number as u128, out)?;
    }
    Ok(())
}

/// Appends the numbers of all that were found, or a part of it.
fn put_found(numbers: &[usize], out: &mut Vec<u8>) -> Result<(), AllocError>
    ensures ok { OnOk result (out.new.items ≡ out.old.items ++ search_answer numbers.now) }
    ensures err { OnErr result (StartsWith out.new.items out.old.items) }
    ensures room { vec_capacity out.old ≤ vec_capacity out.new }
{
    append_parts(&[b"* SEARCH".as_slice()], out)?;
    put_numbers(numbers, out)?;
    append_parts(&[b"\r\n".as_slice()], out)
}

/// Appends the answer to a SEARCH, or a part of it.
fn put_answer(
    tag: &[u8],
    by_uid: bool,
    returns: Option<SearchReturns>,
    numbers: &[usize],
    out: &mut Vec<u8>,
) -> Result<(), AllocError>
    ensures ok { OnOk result (out.new.items
        ≡ out.old.items ++ found_answer tag.now by_uid returns numbers.now) }
    ensures err { OnErr result (StartsWith out.new.items out.old.items) }
    ensures room { vec_capacity out.old ≤ vec_capacity out.new }
{
    match returns {
        None => put_found(numbers, out),
        Some(returns) => put_extended(tag, by_uid, returns, numbers, out),
    }
}

/// Appends the answer to a SEARCH or UID SEARCH under this tag. Without RETURN these are the numbers of the messages that were found, in this order
/// (RFC 3501, 7.2.5); with it what its client asked to be told of them (RFC 9051, 7.3.4).
///
/// Errors: `AllocError` where memory is refused; then `out` is as it was.
pub fn write_found(
    tag: &[u8],
    by_uid: bool,
    returns: Option<SearchReturns>,
    numbers: &[usize],
    out: &mut Vec<u8>,
) -> Result<(), AllocError>
    // The answer is `found_answer`, byte by byte. An error writes nothing, and the room of `out` never becomes less.
    ensures ok { OnOk result (out.new.items
        ≡ out.old.items ++ found_answer tag.now by_uid returns numbers.now) }
    ensures err { OnErr result (out.new.items ≡ out.old.items) }
    ensures room { vec_capacity out.old ≤ vec_capacity out.new }
{
    let before = out.len();
    let Ok(()) = put_answer(tag, by_uid, returns, numbers, out) else {
        out.truncate(before);
        return Err(AllocError);
    };
    Ok(())
}
