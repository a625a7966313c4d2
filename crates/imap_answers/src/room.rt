//! How much room the answer to a FETCH wants at most, told without writing it. A text isn't gone through for that, but for where its header ends.
//! What the answer says is told in `fetch`.

ghost use Rattle.std.specs.Prelude.{◌≡◌, ◌+◌, ◌<◌, ◌≤◌, ◌^◌, ◌++◌, Bool, ℕ, codes, decimal, length, map, min, IfSome, MatchOption};
ghost use Rattle.std.specs.List.{sum};
ghost use Rattle.imap_answers.specs.Answers.{item_text, row_answer, origin_text, body_text, rfc822_text};
ghost use Rattle.imap_answers.specs.Room.{section_most, part_most, names_most, span_most, item_most, row_most};

use crate::sections::header_len;
use imap_grammar::{BodyPart, FetchItem, Section, Span};
use mailbox::Row;

/// Room for an item and the space before it, beside what it tells of a text: BODY with the words of HEADER.FIELDS.NOT and two numbers of 20 digits has 74 bytes.
const ITEM_ROOM: usize = 80;

/// Room for what stands around the items, with the UID and the flags where they weren't asked: 98 bytes.
const ROW_ROOM: usize = 100;

fn section_room(which: Section, text: &[u8]) -> usize
    ensures value { result ≡ section_most which text.now }
    ensures fits { section_most which text.now < 2 ^ 64 }
{
    match which {
        Section::Whole => text.len(),
        Section::Header => header_len(text),
        Section::Text => text.len(),
    }
}

fn part_room(which: &BodyPart<'_>, text: &[u8]) -> usize
    ensures value { result ≡ part_most which.now text.now }
    ensures fits { part_most which.now text.now < 2 ^ 64 }
{
    match which {
        BodyPart::Section(section) => section_room(*section, text),
        BodyPart::Fields { .. } => section_room(Section::Header, text),
    }
}

fn names_room(which: &BodyPart<'_>) -> usize
    ensures value { result ≡ names_most which.now }
{
    match which {
        BodyPart::Section(_) => 0,
        BodyPart::Fields { names, .. } => names.spelled().len(),
    }
}

/// Room for an item that tells a number, which has 20 digits at most.
#[tactic(auto, using(crate::proofs::OpeningParts::twenty_digits))]
fn number_room(number: u64) -> usize
    ensures value { result ≡ 80 }
    ensures digits { length (decimal number) ≤ 20 }
{
    let _ = number;
    ITEM_ROOM
}

/// How many of so many bytes lie from this one on, and before this many: none more than are asked for.
#[tactic(auto, using(crate::proofs::RowLengths::origin_within))]
fn count_within(origin: u64, count: u64, most: usize) -> usize
    ensures value { result ≡ min count most }
    ensures origin { length (codes "<" ++ decimal origin ++ codes ">") ≤ 22 }
{
    let _ = origin;
    most.min(count as usize)
}

fn span_room(partial: Option<Span>, most: usize) -> usize
    ensures value { result ≡ span_most partial most }
    ensures origin { length (origin_text partial) ≤ 22 }
{
    match partial {
        None => most,
        Some(span) => count_within(span.origin, span.count, most),
    }
}

#[tactic(auto, using(crate::proofs::RowLengths::body_within))]
fn body_room(which: &BodyPart<'_>, partial: Option<Span>, text: &[u8]) -> Option<usize>
    ensures value { MatchOption result
        (2 ^ 64 ≤ span_most partial (part_most which.now text.now) + names_most which.now + 80)
        (λ most. most ≡ span_most partial (part_most which.now text.now) + names_most which.now + 80) }
    ensures bound { IfSome result (λ most. length (body_text which.now partial text.now) + 1 ≤ most) }
{
    let bytes = span_room(partial, part_room(which, text));
    let words = bytes.checked_add(names_room(which))?;
    let most = words.checked_add(ITEM_ROOM)?;
    Some(most)
}

#[tactic(auto, using(crate::proofs::RowLengths::rfc822_within))]
fn rfc822_room(which: Section, text: &[u8]) -> Option<usize>
    ensures value { MatchOption result (2 ^ 64 ≤ section_most which text.now + 80)
        (λ most. most ≡ section_most which text.now + 80) }
    ensures bound { IfSome result (λ most. length (rfc822_text which text.now) + 1 ≤ most) }
{
    let bytes = section_room(which, text);
    let most = bytes.checked_add(ITEM_ROOM)?;
    Some(most)
}

fn item_room(row: &Row, item: &FetchItem<'_>) -> Option<usize>
    ensures value { MatchOption result (2 ^ 64 ≤ item_most row.now item.now)
        (λ most. most ≡ item_most row.now item.now) }
    ensures bound { IfSome result (λ most. length (item_text row.now item.now) + 1 ≤ most) }
{
    match item {
        FetchItem::Uid => Some(number_room(u64::from(row.uid))),
        FetchItem::Flags => Some(ITEM_ROOM),
        FetchItem::Size => Some(number_room(row.text.as_slice().len() as u64)),
        FetchItem::InternalDate => Some(ITEM_ROOM),
        FetchItem::Rfc822 { section } => rfc822_room(*section, row.text.as_slice()),
        FetchItem::Body {
            peek: _,
            part,
            partial,
        } => body_room(part, *partial, row.text.as_slice()),
    }
}

/// A UID is below 2^32.
fn uid_fits(uid: u32)
    ensures { uid < 2 ^ 32 }
{
    let _ = uid;
}

fn items_room(items: &[FetchItem<'_>], row: &Row) -> Option<usize>
    ensures value { MatchOption result (2 ^ 64 ≤ sum (map (item_most row.now) items.now))
        (λ most. most ≡ sum (map (item_most row.now) items.now)) }
    ensures bound { IfSome result (λ most.
        sum (map (λ item. length (item_text row.now item) + 1) items.now) ≤ most) }
{
    let mut most: usize = 0;
    for item in items {
        let more = item_room(row, item)?;
        most = most.checked_add(more)?;
    }
    Some(most)
}

/// How many bytes the answer to a FETCH of these items has at most, whatever the message's position, or None where that is no `usize`. It reads of the text
/// only where its header ends, and that only where an item asks for a header.
#[tactic(auto, using(crate::proofs::RowLengths::row_within))]
pub fn row_room(items: &[FetchItem<'_>], row: &Row) -> Option<usize>
    // It is `row_most`, where that is a `usize`.
    ensures value { MatchOption result (2 ^ 64 ≤ row_most items.now row.now)
        (λ most. most ≡ row_most items.now row.now) }
    // No answer for this message is longer.
    ensures bound { IfSome result (λ most. (position : ℕ) (by_uid : Bool) → position < 2 ^ 64 →
        length (row_answer position by_uid items.now row.now) ≤ most) }
{
    uid_fits(row.uid);
    let inner = items_room(items, row)?;
    let most = inner.checked_add(ROW_ROOM)?;
    Some(most)
}
