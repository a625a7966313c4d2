//! The answer that tells a mailbox's numbers (RFC 9051, 7.3.4), with the bytes that specs/Answers.antt gives.
//! What the numbers are is the mailbox's matter.

ghost use Rattle.std.specs.Prelude.{◌≡◌, ◌++◌, ◌≤◌, map, OnOk, OnErr, vec_capacity};
ghost use Rattle.std.specs.Io.{StartsWith};
ghost use Rattle.change_ring.specs.Words.{spaced};
ghost use Rattle.imap_grammar.specs.Grammar.{status_word};
ghost use Rattle.imap_answers.specs.Answers.{status_number, status_text, status_answer};
ghost use Rattle.imap_answers.specs.inner.Joined.{lead};

use crate::words::write_space;
use imap_grammar::{StatusItem, StatusItems};
use itoa::Buffer;
use line_io::append_parts;
use mailbox::Status;
use std::alloc::AllocError;

fn status_word(item: StatusItem) -> &'static [u8]
    ensures { result.now ≡ status_word item }
{
    match item {
        StatusItem::Messages => b"MESSAGES",
        StatusItem::UidNext => b"UIDNEXT",
        StatusItem::UidValidity => b"UIDVALIDITY",
        StatusItem::Unseen => b"UNSEEN",
        StatusItem::Deleted => b"DELETED",
        StatusItem::Size => b"SIZE",
        StatusItem::Recent => b"RECENT",
    }
}

fn status_number(status: &Status, item: StatusItem) -> u128
    ensures { result ≡ status_number status.now item }
{
    match item {
        StatusItem::Messages => status.messages as u128,
        StatusItem::UidNext => u128::from(status.uidnext),
        StatusItem::UidValidity => u128::from(status.uidvalidity),
        StatusItem::Unseen => status.unseen as u128,
        StatusItem::Deleted => status.deleted as u128,
        StatusItem::Size => status.size,
        StatusItem::Recent => 0,
    }
}

/// Appends a word, a space and a number, or nothing where memory is refused.
fn write_status_item(status: &Status, item: StatusItem, out: &mut Vec<u8>) -> Result<(), AllocError>
    ensures ok { OnOk result (out.new.items ≡ out.old.items ++ status_text status.now item) }
    ensures err { OnErr result (out.new.items ≡ out.old.items) }
    ensures room { vec_capacity out.old ≤ vec_capacity out.new }
{
    let mut digits = Buffer::new();
    let number = digits.format(status_number(status, item)).as_bytes();
    append_parts(&[status_word(item), b" ".as_slice(), number], out)
}

/// Appends an item behind others, or a part of it.
fn put_status_item(
    first: bool,
    status: &Status,
    item: StatusItem,
    out: &mut Vec<u8>,
) -> Result<(), AllocError>
    ensures ok { OnOk result (out.new.items
        ≡ out.old.items ++ lead first (status_text status.now item)) }
    ensures err { OnErr result (StartsWith out.new.items out.old.items) }
    ensures room { vec_capacity out.old ≤ vec_capacity out.new }
{
    write_space(first, out)?;
    write_status_item(status, item, out)?;
    Ok(())
}

/// Appends items, or a part of them.
#[tactic(auto, using(crate::proofs::JoinedLaws::spaced_joined))]
fn put_status_items(
    items: &StatusItems<'_>,
    status: &Status,
    out: &mut Vec<u8>,
) -> Result<(), AllocError>
    ensures ok { OnOk result (out.new.items
        ≡ out.old.items ++ spaced (map (status_text status.now) items.now)) }
    ensures err { OnErr result (StartsWith out.new.items out.old.items) }
    ensures room { vec_capacity out.old ≤ vec_capacity out.new }
{
    let mut bare = true;
    let mut next = items.split_first();
    while let Some((item, others)) = next {
        put_status_item(bare, status, item, out)?;
        bare = false;
        next = others.split_first();
    }
    Ok(())
}

/// Appends the answer to a STATUS, or a part of it.
fn put_status(
    name: &[u8],
    items: &StatusItems<'_>,
    status: &Status,
    out: &mut Vec<u8>,
) -> Result<(), AllocError>
    ensures ok { OnOk result (out.new.items
        ≡ out.old.items ++ status_answer name.now items.now status.now) }
    ensures err { OnErr result (StartsWith out.new.items out.old.items) }
    ensures room { vec_capacity out.old ≤ vec_capacity out.new }
{
    append_parts(&[b"* STATUS ".as_slice(), name, b" (".as_slice()], out)?;
    put_status_items(items, status, out)?;
    append_parts(&[b")\r\n".as_slice()], out)
}

/// Appends the answer to a STATUS of the mailbox of this name: the items in the order asked, each with
/// its number (RFC 9051, 7.3.4).
///
/// Errors: `AllocError` where memory is refused; then `out` is as it was.
pub fn write_status(
    name: &[u8],
    items: &StatusItems<'_>,
    status: &Status,
    out: &mut Vec<u8>,
) -> Result<(), AllocError>
    // The answer is `status_answer`, byte by byte. An error writes nothing, and the room of `out` never becomes less.
    ensures ok { OnOk result (out.new.items
        ≡ out.old.items ++ status_answer name.now items.now status.now) }
    ensures err { OnErr result (out.new.items ≡ out.old.items) }
    ensures room { vec_capacity out.old ≤ vec_capacity out.new }
{
    let before = out.len();
    let Ok(()) = put_status(name, items, status, out) else {
        out.truncate(before);
        return Err(AllocError);
    };
    Ok(())
}
