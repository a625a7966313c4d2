//! The answer that tells of a message (RFC 9051, 7.5.2), with the bytes that specs/Answers.antt gives: room for it is held first, and it is put
//! into that room, so that none of it stands there in part. Who is answered what and when is told above.

ghost use Rattle.std.specs.Prelude.{◌≡◌, ◌++◌, ◌+◌, ◌<◌, ◌≤◌, ◌^◌, ◌⊎◌, true, map, length, OnOk, OnErr, ◌&&◌};
ghost use Rattle.std.specs.List.{list_any};
ghost use Rattle.change_ring.specs.Words.{spaced};
ghost use Rattle.imap_answers.specs.Answers.{item_text, uid_first, flags_last, answered, is_uid, is_flags, row_answer};
ghost use Rattle.imap_answers.specs.Room.{row_most};
ghost use Rattle.imap_answers.specs.inner.Joined.{lead, joined, is_none};

use crate::date::put_date;
use crate::flags::put_flags;
use crate::room::row_room;
use crate::sections::{put_body, put_rfc822};
use crate::words::{put_number, put_parts, put_space};
use imap_grammar::FetchItem;
use itoa::Buffer;
use line_io::Outlet;
use mailbox::Row;
use std::alloc::AllocError;

/// Puts an item of FETCH, in room that is held.
fn put_item<O: Outlet>(row: &Row, item: &FetchItem<'_>, out: &mut O)
    requires fits { length (item_text row.now item.now) ≤ O.room out.old }
    ensures said { O.said out.new ≡ O.said out.old ++ item_text row.now item.now }
    ensures lot { O.lot out.new ≡ O.lot out.old }
    ensures room { O.room out.old ≤ O.room out.new + length (item_text row.now item.now) }
{
    match item {
        FetchItem::Uid => put_number(b"UID ", u128::from(row.uid), out),
        FetchItem::Flags => put_flags(row.flags, out),
        FetchItem::Size => put_number(b"RFC822.SIZE ", row.text.as_slice().len() as u128, out),
        FetchItem::InternalDate => put_date(&row.text, out),
        FetchItem::Rfc822 { section } => put_rfc822(*section, row.text.as_slice(), out),
        FetchItem::Body {
            peek: _,
            part,
            partial,
        } => put_body(part, *partial, row.text.as_slice(), out),
    }
}

/// Puts an item behind others, in room that is held.
fn put_next<O: Outlet>(first: bool, row: &Row, item: &FetchItem<'_>, out: &mut O)
    requires fits { length (lead first (item_text row.now item.now)) ≤ O.room out.old }
    ensures said { O.said out.new ≡ O.said out.old ++ lead first (item_text row.now item.now) }
    ensures lot { O.lot out.new ≡ O.lot out.old }
    ensures room { O.room out.old
        ≤ O.room out.new + length (lead first (item_text row.now item.now)) }
{
    put_space(first, out);
    put_item(row, item, out);
}

/// Puts items, in room that is held. Says whether nothing stands there still.
fn put_items<O: Outlet>(first: bool, row: &Row, items: &[FetchItem<'_>], out: &mut O) -> bool
    requires fits { length (joined first (map (item_text row.now) items.now)) ≤ O.room out.old }
    ensures said { O.said out.new
        ≡ O.said out.old ++ joined first (map (item_text row.now) items.now) }
    ensures first { result ≡ (first && is_none items.now) }
    ensures lot { O.lot out.new ≡ O.lot out.old }
    ensures room { O.room out.old
        ≤ O.room out.new + length (joined first (map (item_text row.now) items.now)) }
{
    let mut bare = first;
    for item in items {
        put_next(bare, row, item, out);
        bare = false;
    }
    bare
}

fn has_uid(items: &[FetchItem<'_>]) -> bool
    ensures { result ≡ list_any is_uid items.now }
{
    items.iter().any(|item| matches!(item, FetchItem::Uid))
}

fn has_flags(items: &[FetchItem<'_>]) -> bool
    ensures { result ≡ list_any is_flags items.now }
{
    items.iter().any(|item| matches!(item, FetchItem::Flags))
}

/// Puts the UID where that is answered unasked, in room that is held. Says whether it isn't.
fn put_uid<O: Outlet>(by_uid: bool, row: &Row, items: &[FetchItem<'_>], out: &mut O) -> bool
    requires fits { length (joined true (map (item_text row.now) (uid_first by_uid items.now)))
        ≤ O.room out.old }
    ensures said { O.said out.new ≡ O.said out.old
        ++ joined true (map (item_text row.now) (uid_first by_uid items.now)) }
    ensures first { result ≡ is_none (uid_first by_uid items.now) }
    ensures lot { O.lot out.new ≡ O.lot out.old }
    ensures room { O.room out.old ≤ O.room out.new
        + length (joined true (map (item_text row.now) (uid_first by_uid items.now))) }
{
    if by_uid && !has_uid(items) {
        put_item(row, &FetchItem::Uid, out);
        return false;
    }
    true
}

/// Puts the flags where they are answered unasked, in room that is held.
fn put_seen<O: Outlet>(first: bool, row: &Row, items: &[FetchItem<'_>], out: &mut O)
    requires fits { length (joined first
        (map (item_text row.now) (flags_last row.now.newly_seen items.now))) ≤ O.room out.old }
    ensures said { O.said out.new ≡ O.said out.old
        ++ joined first (map (item_text row.now) (flags_last row.now.newly_seen items.now)) }
    ensures lot { O.lot out.new ≡ O.lot out.old }
    ensures room { O.room out.old ≤ O.room out.new + length (joined first
        (map (item_text row.now) (flags_last row.now.newly_seen items.now))) }
{
    if row.newly_seen && !has_flags(items) {
        put_next(first, row, &FetchItem::Flags, out);
    }
}

/// Puts what stands between the parentheses of a FETCH, in room that is held.
fn put_answered<O: Outlet>(by_uid: bool, row: &Row, items: &[FetchItem<'_>], out: &mut O)
    requires fits { length
        (spaced (map (item_text row.now) (answered by_uid row.now.newly_seen items.now)))
        ≤ O.room out.old }
    ensures said { O.said out.new ≡ O.said out.old
        ++ spaced (map (item_text row.now) (answered by_uid row.now.newly_seen items.now)) }
    ensures lot { O.lot out.new ≡ O.lot out.old }
    ensures room { O.room out.old ≤ O.room out.new + length
        (spaced (map (item_text row.now) (answered by_uid row.now.newly_seen items.now))) }
{
    let bare = put_uid(by_uid, row, items, out);
    let bare = put_items(bare, row, items, out);
    put_seen(bare, row, items, out);
}

/// Puts the answer to a FETCH, in room that is held.
fn put_row<O: Outlet>(
    position: usize,
    by_uid: bool,
    items: &[FetchItem<'_>],
    row: &Row,
    out: &mut O,
)
    requires fits { length (row_answer position by_uid items.now row.now) ≤ O.room out.old }
    ensures said { O.said out.new
        ≡ O.said out.old ++ row_answer position by_uid items.now row.now }
    ensures lot { O.lot out.new ≡ O.lot out.old }
    ensures room { O.room out.old
        ≤ O.room out.new + length (row_answer position by_uid items.now row.now) }
{
    let mut digits = Buffer::new();
    let number = digits.format(position).as_bytes();
    put_parts(&[b"* ".as_slice(), number, b" FETCH (".as_slice()], out);
    put_answered(by_uid, row, items, out);
    out.put(b")\r\n");
}

/// Says the answer to a FETCH for the message at this position: the items in the order asked, before them
/// UID under UID FETCH where it wasn't asked, behind them FLAGS where \Seen is newly set and they
/// weren't asked (RFC 9051, 7.5.2). A text goes to `out` from where it lies, with no copy between. Room for `spare` bytes more is there behind it.
///
/// Errors: `AllocError` where memory is refused for [`row_room`] bytes and `spare` more, or where these are no `usize`. Nothing is said then, and `out`
/// has the room that it had, or more.
pub fn write_row<O: Outlet>(
    position: usize,
    by_uid: bool,
    items: &[FetchItem<'_>],
    row: &Row,
    spare: usize,
    out: &mut O,
) -> Result<(), AllocError>
    // The answer is `row_answer`, byte by byte, with room for `spare` bytes behind it.
    ensures ok { OnOk result (O.said out.new
        ≡ O.said out.old ++ row_answer position by_uid items.now row.now) }
    ensures spare { OnOk result (spare ≤ O.room out.new) }
    // An error says nothing, and takes no room.
    ensures err { OnErr result (O.said out.new ≡ O.said out.old) }
    ensures room { OnErr result (O.room out.old ≤ O.room out.new) }
    // There is one only where the room was less than what is asked for, or this is no `usize`.
    ensures full { OnErr result ((O.room out.old < row_most items.now row.now + spare)
        ⊎ (2 ^ 64 ≤ row_most items.now row.now + spare)) }
    ensures lot { O.lot out.new ≡ O.lot out.old }
{
    let Some(most) = row_room(items, row) else {
        return Err(AllocError);
    };
    let Some(count) = most.checked_add(spare) else {
        return Err(AllocError);
    };
    out.hold(count)?;
    put_row(position, by_uid, items, row, out);
    Ok(())
}
