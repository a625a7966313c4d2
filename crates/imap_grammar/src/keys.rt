//! The keys of a search (RFC 9051, 6.4.4), and of which messages they are so. They stay as they stand in the line and
//! are asked of one message after another straight from the text, so they take no memory.

ghost use Rattle.std.specs.Prelude.{◌≡◌, ℕ, List, Bool, is_some, length, suc};
ghost use Rattle.std.specs.Option.{option_copied, option_map};
ghost use Rattle.imap_grammar.specs.Keys.{has_flag};
ghost use Rattle.imap_grammar.specs.SearchReading.{group_at, key_at, key_of, key_word_at, key_word_of, keys_at, keys_in, next_start, not_at, or_at, others_at, single_at, worded_at};
ghost use Rattle.imap_grammar.specs.inner.Asking.{so, single_and_rest, so_and_rest, all_and_rest};

use crate::bytes::{is_blank, past_gap};
use crate::containing::{body, contains, in_field};
use crate::dates::{day_received, is_before, is_same_day};
use crate::key_words::{KeyWord, SingleKey, SystemFlag, key_word, key_word_at, single_at};
use crate::letters::Folds;
use crate::view::Named;
use change_ring::Flags;
use delivery_token::Text;
use envelope::past_byte;
use mail_date::Stamp;
use std::marker::Model;

/// A message of which keys are asked, and the last one of its view.
#[derive(Clone, Copy)]
pub(crate) struct Asked<'t> {
    pub(crate) last: Named,
    pub(crate) message: Named,
    pub(crate) flags: Flags,
    // The date that came with it, where one did.
    pub(crate) date: Option<Stamp>,
    pub(crate) text: &'t [u8],
}

fn has_flag(flag: SystemFlag, flags: Flags) -> bool
    ensures { result ≡ has_flag flag flags }
{
    match flag {
        SystemFlag::Answered => flags.answered,
        SystemFlag::Deleted => flags.deleted,
        SystemFlag::Draft => flags.draft,
        SystemFlag::Flagged => flags.flagged,
        SystemFlag::Seen => flags.seen,
    }
}

fn is_so(key: &SingleKey<'_>, asked: Asked<'_>) -> bool
    ensures { result ≡ so asked.entry (key_of key.now) }
{
    match key {
        SingleKey::Always => true,
        SingleKey::Never => false,
        SingleKey::Has(flag) => has_flag(*flag, asked.flags),
        SingleKey::Lacks(flag) => !has_flag(*flag, asked.flags),
        SingleKey::Larger(n) => *n < asked.text.len() as u64,
        SingleKey::Smaller(n) => (asked.text.len() as u64) < *n,
        SingleKey::Before(day) => is_before(day_received(asked.date, asked.text), *day),
        SingleKey::On(day) => is_same_day(day_received(asked.date, asked.text), *day),
        SingleKey::Since(day) => !is_before(day_received(asked.date, asked.text), *day),
        SingleKey::InField(name, words) => in_field(name, words, asked.text),
        SingleKey::InBody(words) => contains(Folds::Kept, words, body(asked.text)),
        SingleKey::InText(words) => contains(Folds::Kept, words, asked.text),
        SingleKey::Positions(set) => set.names(asked.last.position, asked.message.position),
        SingleKey::Uids(set) => set.names(asked.last.uid as usize, asked.message.uid as usize),
    }
}

// Where one key more begins.
fn next_start(bytes: &[u8]) -> Option<&[u8]>
    ensures { option_copied result ≡ next_start bytes.now }
{
    if is_blank(bytes) {
        None
    } else {
        past_gap(bytes)
    }
}

fn single_so<'a>(
    found: Option<KeyWord>,
    text: &'a [u8],
    rest: &'a [u8],
    asked: Asked<'_>,
) -> Option<(bool, &'a [u8])>
    ensures { option_map (λ x. (x.0, x.1.now)) result
        ≡ option_map (single_and_rest asked.entry) (single_at found (text.now, rest.now)) }
{
    let (key, rest) = single_at(found, text, rest)?;
    Some((is_so(&key, asked), rest))
}

// What stands behind NOT.
#[cycle(keys)]
fn not_at<'a>(levels: u8, bytes: &'a [u8], asked: Asked<'_>) -> Option<(bool, &'a [u8])>
    ensures { option_map (λ x. (x.0, x.1.now)) result
        ≡ option_map (so_and_rest asked.entry) (not_at (key_at levels) bytes.now) }
{
    let start = past_gap(bytes)?;
    let (inner, rest) = key_at(levels, start, asked)?;
    Some((!inner, rest))
}

// What stands behind OR.
#[cycle(keys)]
fn or_at<'a>(levels: u8, bytes: &'a [u8], asked: Asked<'_>) -> Option<(bool, &'a [u8])>
    ensures { option_map (λ x. (x.0, x.1.now)) result
        ≡ option_map (so_and_rest asked.entry) (or_at (key_at levels) bytes.now) }
{
    let start = past_gap(bytes)?;
    let (one, rest) = key_at(levels, start, asked)?;
    let next = past_gap(rest)?;
    let (other, rest) = key_at(levels, next, asked)?;
    Some((one || other, rest))
}

// Further keys behind one, which is so or isn't.
#[cycle(keys)]
fn others_at<'a>(
    levels: u8,
    first: bool,
    bytes: &'a [u8],
    asked: Asked<'_>,
) -> Option<(bool, &'a [u8])>
    ensures { option_map (λ x. (x.0, x.1.now)) result
        ≡ option_map (all_and_rest asked.entry first)
        (others_at (key_at levels) (suc (length bytes.now)) bytes.now) }
{
    let mut all = first;
    let mut rest = bytes;
    while let Some(start) = next_start(rest) {
        let (one, others) = key_at(levels, start, asked)?;
        all &= one;
        rest = others;
    }
    Some((all, rest))
}

// Keys one after the other.
#[cycle(keys)]
fn keys_at<'a>(levels: u8, bytes: &'a [u8], asked: Asked<'_>) -> Option<(bool, &'a [u8])>
    ensures { option_map (λ x. (x.0, x.1.now)) result
        ≡ option_map (so_and_rest asked.entry) (keys_at (key_at levels) bytes.now) }
{
    let (first, rest) = key_at(levels, bytes, asked)?;
    others_at(levels, first, rest, asked)
}

// Keys from behind the parenthesis that opens, and what follows the one that closes.
#[cycle(keys)]
fn group_at<'a>(levels: u8, bytes: &'a [u8], asked: Asked<'_>) -> Option<(bool, &'a [u8])>
    ensures { option_map (λ x. (x.0, x.1.now)) result
        ≡ option_map (so_and_rest asked.entry) (group_at (key_at levels) bytes.now) }
{
    let (inner, rest) = keys_at(levels, bytes, asked)?;
    let rest = past_byte(b')', rest)?;
    Some((inner, rest))
}

// The key that begins with a word.
#[cycle(keys)]
fn worded_at<'a>(levels: u8, bytes: &'a [u8], asked: Asked<'_>) -> Option<(bool, &'a [u8])>
    ensures { option_map (λ x. (x.0, x.1.now)) result
        ≡ option_map (so_and_rest asked.entry)
        (worded_at (key_at levels) (key_word_of (key_word_at bytes.now).0) (key_word_at bytes.now)) }
{
    let (text, rest) = key_word_at(bytes);
    match key_word(text) {
        Some(KeyWord::Not) => not_at(levels, rest, asked),
        Some(KeyWord::Or) => or_at(levels, rest, asked),
        found => single_so(found, text, rest, asked),
    }
}

// Whether the key at the front is so, and what follows it: fewer than so many levels deep.
#[cycle(keys)]
fn key_at<'a>(levels: u8, bytes: &'a [u8], asked: Asked<'_>) -> Option<(bool, &'a [u8])>
    ensures { option_map (λ x. (x.0, x.1.now)) result
        ≡ option_map (so_and_rest asked.entry) (key_at levels bytes.now) }
{
    if levels == 0 {
        return None;
    }
    match past_byte(b'(', bytes) {
        Some(start) => group_at(levels - 1, start, asked),
        None => worded_at(levels - 1, bytes, asked),
    }
}

/// How many levels there are: as many as NOT, OR and parentheses may stand around one another, and the innermost keys.
const LEVELS: u8 = 33;

// Whether the keys of a text are so, where it is such keys.
fn keys_so(text: &[u8], asked: Asked<'_>) -> Option<bool>
    ensures { result ≡ option_map (so asked.entry) (keys_in text.now) }
{
    let (all, rest) = keys_at(LEVELS, text, asked)?;
    if is_blank(rest) { Some(all) } else { None }
}

// Whether a text is keys: they are asked of some message, whichever.
fn are_keys(text: &[u8]) -> bool
    ensures { result ≡ is_some (keys_in text.now) }
{
    let some = Named {
        position: 1,
        uid: 1,
    };
    let asked = Asked {
        last: some,
        message: some,
        flags: Flags {
            answered: false,
            flagged: false,
            deleted: false,
            seen: false,
            draft: false,
        },
        date: None,
        text: &[],
    };
    keys_so(text, asked).is_some()
}

/// The keys of a search, as they stand in a line: in contracts the one key that they say together. NOT, OR and parentheses stand around one
/// another at most 32 levels deep, so that whoever sends them can't use up the stack.
#[derive(Drop)]
pub struct SearchKeys<'a> {
    spelled: &'a [u8],
}

impl<'a> Model for SearchKeys<'a> {
    ghost use Rattle.imap_grammar.specs.Keys.{Key};
    ghost use Rattle.imap_grammar.specs.inner.KeyCode.{key_code};
    ghost use Rattle.imap_grammar.specs.inner.KeysSaid.{key_said};

    ghost Value = { Key };

    ghost coded = { key_code };

    ghost view = { λ k. key_said k.spelled.now };
}

impl<'a> SearchKeys<'a> {
    ghost use Rattle.std.specs.Prelude.{◌≡◌};
    ghost use Rattle.imap_grammar.specs.Keys.{matches};
    ghost use Rattle.imap_grammar.specs.SearchReading.{keys_in};

    /// The keys that a text is.
    pub(crate) fn of(text: &'a [u8]) -> Option<SearchKeys<'a>>
        ensures { result ≡ keys_in text.now }
    {
        if are_keys(text) {
            Some(SearchKeys { spelled: text })
        } else {
            None
        }
    }

    /// Whether the keys are so of a message with these flags and this text, where `last` is the last message of the view.
    /// It takes no memory, and the time that it takes to read the keys. Each BEFORE, ON and SINCE among them reads the date of the message anew, and each
    /// key that asks for words the message's fields or its text: at worst as many steps as the words and the text have bytes, multiplied.
    pub fn matches(&self, last: Named, message: Named, flags: Flags, text: &Text) -> bool
        ensures { result ≡ matches self.now last message flags text.now }
    {
        let asked = Asked {
            last,
            message,
            flags,
            date: text.given_date(),
            text: text.as_slice(),
        };
        match keys_so(self.spelled, asked) {
            Some(so) => so,
            None => false,
        }
    }
}
