//! What FETCH and STATUS ask for (RFC 9051, 6.4.5 and 6.3.11): the items, and how their words are read.
//! How they are answered is told in `imap_answers`.

ghost use Rattle.std.specs.Prelude.{◌≡◌, ◌++◌, ◌∷◌, [], IfOk, MatchOption, OnOk, codes, is_some, not, option_to_list};
ghost use Rattle.std.specs.List.{list_all, list_any, slice_split};
ghost use Rattle.std.specs.Option.{option_copied};
ghost use Rattle.envelope.specs.Bytes.{is_space};
ghost use Rattle.imap_grammar.specs.Brackets.{item_words};
ghost use Rattle.envelope.specs.Reading.{past_keyword, words};
ghost use Rattle.imap_grammar.specs.Items.{section_of, quoted_name, is_field_name, name_said, fields_of, part_of, span_between, span_of, partial_of, body_of, body_or_peek, fetch_item_of, fetch_items_of, is_header, is_compatible, marks_seen, is_recent, status_item_of, status_items_of};
ghost use Rattle.imap_grammar.specs.declared.items.FetchItem.TheVariants as fetch;

use crate::bytes::Class;
use crate::cut::cut_at;
use crate::item_words::next_item_word;
use crate::number::number_up_to;
use crate::words::{count_words, is_word_of, next_word};
use envelope::{past_byte, past_keyword};
use std::alloc::{AllocError, Global};
use std::marker::Model;

/// A part of a message's text.
#[derive(Clone, Copy, Debug, PartialEq, Eq)]
pub enum Section {
    /// All of it.
    Whole,
    /// Up to and with the first empty line.
    Header,
    /// What follows that.
    Text,
}

/// The names of header fields, as they stand in a line, in quotes or without (RFC 9051, 9: header-fld-name): in contracts the list of them.
#[derive(Drop)]
pub struct FieldNames<'a> {
    spelled: &'a [u8],
}

impl<'a> Model for FieldNames<'a> {
    ghost use Rattle.std.specs.Prelude.{List, ℕ};
    ghost use Rattle.std.specs.List.{slice_split};
    ghost use Rattle.envelope.specs.Bytes.{is_space};

    ghost Value = { List (List ℕ) };

    ghost view = { λ s. slice_split is_space s.spelled.now };
}

/// What is asked of a message's text.
#[derive(Drop)]
pub enum BodyPart<'a> {
    /// A section of it.
    Section(Section),
    /// Fields of its header (RFC 9051, 6.4.5: HEADER.FIELDS).
    Fields {
        /// Those of other names than these (HEADER.FIELDS.NOT).
        others: bool,
        /// The names, one at least.
        names: FieldNames<'a>,
    },
}

/// So many bytes from this one on: `origin` counts from 0, `count` is 1 at least, and both are below 2^63.
#[derive(Clone, Copy, Debug, PartialEq, Eq)]
pub struct Span {
    /// So many bytes of the part stand before it: from 0 to 2^63 - 1.
    pub origin: u64,
    /// So many bytes at most, since the part may end before them: from 1 to 2^63 - 1.
    pub count: u64,
}

/// What FETCH asks of a message.
#[derive(Drop)]
pub enum FetchItem<'a> {
    Uid,
    Flags,
    Size,
    /// When it came: not of the standard profile.
    InternalDate,
    /// What RFC 3501, 6.4.5 calls RFC822, RFC822.HEADER and RFC822.TEXT: not of the standard profile.
    Rfc822 {
        /// Which part of the text.
        section: Section,
    },
    Body {
        /// \Seen isn't set.
        peek: bool,
        /// Which part of the text.
        part: BodyPart<'a>,
        /// Which bytes of that, or None for all of them.
        partial: Option<Span>,
    },
}

/// What STATUS asks of a mailbox.
#[derive(Clone, Copy, Debug, PartialEq, Eq)]
pub enum StatusItem {
    Messages,
    UidNext,
    UidValidity,
    Unseen,
    Deleted,
    Size,
    /// Messages that no session was told of before: none (RFC 3501, 6.3.10).
    Recent,
}

/// The items of a FETCH, as they stand in a line: in contracts the list of them.
#[derive(Drop)]
pub struct FetchItems<'a> {
    spelled: &'a [u8],
}

impl<'a> Model for FetchItems<'a> {
    ghost use Rattle.std.specs.Prelude.{List};
    ghost use Rattle.imap_grammar.specs.declared.items.FetchItem.{FetchItem};
    ghost use Rattle.imap_grammar.specs.Items.{fetch_items_of};

    ghost Value = { List FetchItem };

    ghost view = { λ s. fetch_items_of s.spelled.now };
}

/// The items of a STATUS, as they stand in a line: in contracts the list of them.
#[derive(Drop)]
pub struct StatusItems<'a> {
    spelled: &'a [u8],
}

impl<'a> Model for StatusItems<'a> {
    ghost use Rattle.std.specs.Prelude.{List};
    ghost use Rattle.imap_grammar.specs.declared.items.StatusItem.{StatusItem};
    ghost use Rattle.imap_grammar.specs.Items.{status_items_of};

    ghost Value = { List StatusItem };

    ghost view = { λ s. status_items_of s.spelled.now };
}

/// The part that a section's word names.
fn section_of(text: &[u8]) -> Option<Section>
    ensures { result ≡ section_of text.now }
{
    if text.is_empty() {
        Some(Section::Whole)
    } else if text.eq_ignore_ascii_case(b"HEADER") {
        Some(Section::Header)
    } else if text.eq_ignore_ascii_case(b"TEXT") {
        Some(Section::Text)
    } else {
        None
    }
}

/// The name that stands between quotes.
fn quoted_name(word: &[u8]) -> Option<&[u8]>
    ensures { option_copied result ≡ quoted_name word.now }
{
    let inner = past_byte(b'"', word)?;
    let (name, rest) = cut_at(b'"', inner)?;
    if rest.is_empty() && is_word_of(Class::Field, name) {
        Some(name)
    } else {
        None
    }
}

// Whether this is the name of a field, in quotes or without.
fn is_field_name(word: &[u8]) -> bool
    ensures { result ≡ is_field_name word.now }
{
    is_word_of(Class::Field, word) || quoted_name(word).is_some()
}

/// The name of a header field that a word of `FieldNames` says: without its quotes, where it has them.
pub fn field_name(word: &[u8]) -> &[u8]
    ensures { result.now ≡ name_said word.now }
{
    match quoted_name(word) {
        Some(name) => name,
        None => word,
    }
}

// Whether each of these is the name of a field, with a space between two of them.
fn are_field_names(text: &[u8]) -> bool
    ensures { result ≡ list_all is_field_name (slice_split is_space text.now) }
{
    text.split(|b| *b == b' ').all(|word| is_field_name(word))
}

/// The fields that names say, from behind the parenthesis that opens.
fn fields_of(others: bool, text: &[u8]) -> Option<BodyPart<'_>>
    ensures { result ≡ fields_of others text.now }
{
    let (spelled, rest) = cut_at(b')', text)?;
    if rest.is_empty() && are_field_names(spelled) {
        Some(BodyPart::Fields {
            others,
            names: FieldNames { spelled },
        })
    } else {
        None
    }
}

/// What stands between the brackets.
fn part_of(text: &[u8]) -> Option<BodyPart<'_>>
    ensures { result ≡ part_of text.now }
{
    match past_keyword(b"HEADER.FIELDS (", text) {
        Some(rest) => fields_of(false, rest),
        None => match past_keyword(b"HEADER.FIELDS.NOT (", text) {
            Some(rest) => fields_of(true, rest),
            None => {
                let section = section_of(text)?;
                Some(BodyPart::Section(section))
            }
        },
    }
}

/// The greatest number that a span may have (RFC 9051, 9: number64).
const GREATEST_NUMBER64: u64 = 9_223_372_036_854_775_807;

/// A span of these two numbers.
fn span_between(origin: &[u8], count: &[u8]) -> Option<Span>
    ensures { result ≡ span_between (origin.now, count.now) }
{
    let origin = number_up_to(GREATEST_NUMBER64, origin)?;
    let count = number_up_to(GREATEST_NUMBER64, count)?;
    if count == 0 {
        None
    } else {
        Some(Span { origin, count })
    }
}

/// The span that `<origin.count>` says.
fn span_of(text: &[u8]) -> Option<Span>
    ensures { result ≡ span_of text.now }
{
    let inner = past_byte(b'<', text)?;
    let (numbers, rest) = cut_at(b'>', inner)?;
    let (origin, count) = cut_at(b'.', numbers)?;
    if rest.is_empty() {
        span_between(origin, count)
    } else {
        None
    }
}

/// A span, or none where nothing stands.
fn partial_of(text: &[u8]) -> Option<Option<Span>>
    ensures { result ≡ partial_of text.now }
{
    if text.is_empty() {
        return Some(None);
    }
    let span = span_of(text)?;
    Some(Some(span))
}

/// What stands behind `BODY[` or `BODY.PEEK[`.
fn body_of(peek: bool, text: &[u8]) -> Option<FetchItem<'_>>
    ensures { result ≡ body_of peek text.now }
{
    let (part, rest) = cut_at(b']', text)?;
    let part = part_of(part)?;
    let partial = partial_of(rest)?;
    Some(FetchItem::Body {
        peek,
        part,
        partial,
    })
}

/// The item that begins with BODY or BODY.PEEK.
fn body_or_peek(word: &[u8]) -> Option<FetchItem<'_>>
    ensures { result ≡ body_or_peek (past_keyword (codes "BODY[") word.now)
        (past_keyword (codes "BODY.PEEK[") word.now) }
{
    match past_keyword(b"BODY[", word) {
        Some(rest) => body_of(false, rest),
        None => match past_keyword(b"BODY.PEEK[", word) {
            Some(rest) => body_of(true, rest),
            None => None,
        },
    }
}

fn rfc822<'a>(section: Section) -> FetchItem<'a>
    ensures { result ≡ fetch.Rfc822 section }
{
    FetchItem::Rfc822 { section }
}

/// The item of FETCH that a word is.
fn fetch_item(word: &[u8]) -> Option<FetchItem<'_>>
    ensures { result ≡ fetch_item_of word.now }
{
    if word.eq_ignore_ascii_case(b"UID") {
        return Some(FetchItem::Uid);
    }
    if word.eq_ignore_ascii_case(b"FLAGS") {
        return Some(FetchItem::Flags);
    }
    if word.eq_ignore_ascii_case(b"RFC822.SIZE") {
        return Some(FetchItem::Size);
    }
    if word.eq_ignore_ascii_case(b"INTERNALDATE") {
        return Some(FetchItem::InternalDate);
    }
    if word.eq_ignore_ascii_case(b"RFC822") {
        return Some(rfc822(Section::Whole));
    }
    if word.eq_ignore_ascii_case(b"RFC822.HEADER") {
        return Some(rfc822(Section::Header));
    }
    if word.eq_ignore_ascii_case(b"RFC822.TEXT") {
        return Some(rfc822(Section::Text));
    }
    body_or_peek(word)
}

/// The item of STATUS that a word is.
fn status_item(word: &[u8]) -> Option<StatusItem>
    ensures { result ≡ status_item_of word.now }
{
    if word.eq_ignore_ascii_case(b"MESSAGES") {
        Some(StatusItem::Messages)
    } else if word.eq_ignore_ascii_case(b"UIDNEXT") {
        Some(StatusItem::UidNext)
    } else if word.eq_ignore_ascii_case(b"UIDVALIDITY") {
        Some(StatusItem::UidValidity)
    } else if word.eq_ignore_ascii_case(b"UNSEEN") {
        Some(StatusItem::Unseen)
    } else if word.eq_ignore_ascii_case(b"DELETED") {
        Some(StatusItem::Deleted)
    } else if word.eq_ignore_ascii_case(b"SIZE") {
        Some(StatusItem::Size)
    } else if word.eq_ignore_ascii_case(b"RECENT") {
        Some(StatusItem::Recent)
    } else {
        None
    }
}

fn is_no_item(word: &[u8]) -> bool
    ensures { result ≡ not (is_some (fetch_item_of word.now)) }
{
    fetch_item(word).is_none()
}

fn all_fetch_items(text: &[u8]) -> bool
    ensures { result ≡ list_all (λ word. is_some (fetch_item_of word)) (item_words text.now) }
{
    let mut rest = text;
    while let Some((word, others)) = next_item_word(rest) {
        if is_no_item(word) {
            return false;
        }
        rest = others;
    }
    true
}

fn all_status_items(text: &[u8]) -> bool
    ensures { result ≡ list_all (λ word. is_some (status_item_of word)) (words text.now) }
{
    text.split(|b| *b == b' ')
        .filter(|word| !word.is_empty())
        .all(|word| status_item(word).is_some())
}

// Notes the item that a word is.
fn push_item<'a>(word: &'a [u8], items: &mut Vec<FetchItem<'a>>) -> Result<(), AllocError>
    ensures { OnOk result (items.new.items
        ≡ items.old.items ++ option_to_list (fetch_item_of word.now)) }
{
    if let Some(item) = fetch_item(word) {
        items.push(item)?;
    }
    Ok(())
}

// The items that the words of a text are.
#[tactic(auto, using(crate::proofs::ItemSteps::items_end))]
fn items_in(alloc: Global, text: &[u8]) -> Result<Vec<FetchItem<'_>>, AllocError>
    ensures { IfOk result (λ items. items.items ≡ fetch_items_of text.now) }
{
    let mut items = Vec::new(alloc);
    let mut rest = text;
    while let Some((word, others)) = next_item_word(rest) {
        push_item(word, &mut items)?;
        rest = others;
    }
    Ok(items)
}

fn is_header(section: Section) -> bool
    ensures { result ≡ is_header section }
{
    matches!(section, Section::Header)
}

fn marks_seen(item: &FetchItem<'_>) -> bool
    ensures { result ≡ marks_seen item.now }
{
    match item {
        FetchItem::Body { peek, .. } => !*peek,
        FetchItem::Rfc822 { section } => !is_header(*section),
        _ => false,
    }
}

fn word_marks_seen(word: &[u8]) -> bool
    ensures { result ≡ list_any marks_seen (option_to_list (fetch_item_of word.now)) }
{
    match fetch_item(word) {
        Some(item) => marks_seen(&item),
        None => false,
    }
}

fn items_mark_seen(text: &[u8]) -> bool
    ensures { result ≡ list_any marks_seen (fetch_items_of text.now) }
{
    let mut rest = text;
    while let Some((word, others)) = next_item_word(rest) {
        if word_marks_seen(word) {
            return true;
        }
        rest = others;
    }
    false
}

fn is_compatible(item: &FetchItem<'_>) -> bool
    ensures { result ≡ is_compatible item.now }
{
    match item {
        FetchItem::InternalDate | FetchItem::Rfc822 { .. } => true,
        FetchItem::Body { part, .. } => matches!(part, BodyPart::Fields { .. }),
        _ => false,
    }
}

fn word_is_compatible(word: &[u8]) -> bool
    ensures { result ≡ list_any is_compatible (option_to_list (fetch_item_of word.now)) }
{
    match fetch_item(word) {
        Some(item) => is_compatible(&item),
        None => false,
    }
}

fn items_have_compatible(text: &[u8]) -> bool
    ensures { result ≡ list_any is_compatible (fetch_items_of text.now) }
{
    let mut rest = text;
    while let Some((word, others)) = next_item_word(rest) {
        if word_is_compatible(word) {
            return true;
        }
        rest = others;
    }
    false
}

fn word_is_recent(word: &[u8]) -> bool
    ensures { result ≡ list_any is_recent (option_to_list (status_item_of word.now)) }
{
    match status_item(word) {
        Some(StatusItem::Recent) => true,
        _ => false,
    }
}

fn items_have_recent(text: &[u8]) -> bool
    ensures { result ≡ list_any is_recent (status_items_of text.now) }
{
    let mut rest = text;
    while let Some((word, others)) = next_word(rest) {
        if word_is_recent(word) {
            return true;
        }
        rest = others;
    }
    false
}

// The first item that the words of a text are, and what stands behind its word.
fn first_status_item(text: &[u8]) -> Option<(StatusItem, &[u8])>
    ensures { MatchOption result (status_items_of text.now ≡ []) (λ found. status_items_of text.now
        ≡ found.0 ∷ status_items_of found.1.now) }
{
    let mut rest = text;
    while let Some((word, others)) = next_word(rest) {
        if let Some(item) = status_item(word) {
            return Some((item, others));
        }
        rest = others;
    }
    None
}

impl<'a> FieldNames<'a> {
    ghost use Rattle.std.specs.Prelude.{◌≡◌};
    ghost use Rattle.std.specs.List.{slice_split};
    ghost use Rattle.change_ring.specs.Words.{spaced};
    ghost use Rattle.envelope.specs.Bytes.{is_space};

    /// The names as they were spelled, with a space between two of them.
    #[tactic(auto, using(crate::proofs::Spelling::spelled_again))]
    pub fn spelled(&self) -> &[u8]
        ensures text { result.now ≡ spaced self.now }
        ensures parts { slice_split is_space result.now ≡ self.now }
    {
        self.spelled
    }
}

impl<'a> FetchItems<'a> {
    ghost use Rattle.std.specs.Prelude.{◌≡◌, IfOk};
    ghost use Rattle.std.specs.List.{list_any};
    ghost use Rattle.imap_grammar.specs.Items.{is_compatible, marks_seen};
    ghost use Rattle.imap_grammar.specs.Reading.{fetch_items_in, fetch_word_in};

    /// Whether the read that answers these sets \Seen: a BODY without PEEK is among them (RFC 9051, 6.4.5), or RFC822 or
    /// RFC822.TEXT (RFC 3501, 6.4.5).
    pub fn mark_seen(&self) -> bool
        ensures { result ≡ list_any marks_seen self.now }
    {
        items_mark_seen(self.spelled)
    }

    /// Whether one is among them that the standard profile doesn't have.
    pub fn have_compatible(&self) -> bool
        ensures { result ≡ list_any is_compatible self.now }
    {
        items_have_compatible(self.spelled)
    }

    /// The items, in the order in which they were asked. An error where memory is refused.
    pub fn list(&self, alloc: Global) -> Result<Vec<FetchItem<'a>>, AllocError>
        ensures { IfOk result (λ items. items.items ≡ self.now) }
    {
        items_in(alloc, self.spelled)
    }

    /// The items that the words of a text say, one at least.
    pub(crate) fn of(text: &'a [u8]) -> Option<FetchItems<'a>>
        ensures { result ≡ fetch_items_in text.now }
    {
        if all_fetch_items(text) && next_item_word(text).is_some() {
            Some(FetchItems { spelled: text })
        } else {
            None
        }
    }

    /// The item that a word says, or those that FAST stands for.
    pub(crate) fn of_word(word: &'a [u8]) -> Option<FetchItems<'a>>
        ensures { result ≡ fetch_word_in word.now }
    {
        if word.eq_ignore_ascii_case(b"FAST") {
            return Some(FetchItems {
                spelled: b"FLAGS INTERNALDATE RFC822.SIZE",
            });
        }
        FetchItems::of(word)
    }
}

impl<'a> StatusItems<'a> {
    ghost use Rattle.std.specs.Prelude.{◌≡◌, ◌∷◌, [], MatchOption};
    ghost use Rattle.std.specs.List.{list_any};
    ghost use Rattle.imap_grammar.specs.Items.{is_recent};
    ghost use Rattle.imap_grammar.specs.Reading.{status_items_in};

    /// Whether RECENT is among them, which the standard profile doesn't have.
    pub fn have_recent(&self) -> bool
        ensures { result ≡ list_any is_recent self.now }
    {
        items_have_recent(self.spelled)
    }

    /// The first item in the order in which they were asked, and those behind it. It takes no memory.
    pub fn split_first(&self) -> Option<(StatusItem, StatusItems<'a>)>
        ensures { MatchOption result (self.now ≡ []) (λ found. self.now ≡ found.0 ∷ found.1) }
    {
        let (item, others) = first_status_item(self.spelled)?;
        Some((item, StatusItems { spelled: others }))
    }

    /// The items that the words of a text say, one at least.
    pub(crate) fn of(text: &'a [u8]) -> Option<StatusItems<'a>>
        ensures { result ≡ status_items_in text.now }
    {
        if all_status_items(text) && count_words(text) != 0 {
            Some(StatusItems { spelled: text })
        } else {
            None
        }
    }
}
