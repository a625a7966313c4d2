//! The words of a search's keys (RFC 9051, 6.4.4), and the keys that have no other key in them.
//! What each answers is its namesake in specs/SearchReading.antt. Keys around others are read in `keys`.

ghost use Rattle.std.specs.Prelude.{◌≡◌};
ghost use Rattle.std.specs.Option.{option_map};
ghost use Rattle.imap_grammar.specs.Keys.{field_name};
ghost use Rattle.imap_grammar.specs.SearchReading.{argument_at, argument_key, flag_words, header_at, key_behind, key_word_at, key_word_of, other_words, single_at, single_or, string_behind, text_words, word_among, word_key, words_at};
ghost use Rattle.imap_grammar.specs.declared.key_words.SingleKey.TheVariants as single;

use crate::bytes::{Class, past_gap, run_len};
use crate::dates::{Day, date_in};
use crate::name::Name;
use crate::number::number_up_to;
use crate::set::SeqSet;
use crate::strings::string_at;
use crate::words::is_word_of;

/// The flags that a search may ask for (RFC 9051, 2.3.2).
#[derive(Clone, Copy, Debug, PartialEq, Eq)]
pub enum SystemFlag {
    Answered,
    Deleted,
    Draft,
    Flagged,
    Seen,
}

/// The header fields that have a key of their own.
#[derive(Clone, Copy)]
pub(crate) enum HeaderField {
    Subject,
    From,
    To,
    Cc,
    Bcc,
}

/// The words with which keys begin, and those with which a charset does and what is to be returned.
#[derive(Clone, Copy)]
pub(crate) enum KeyWord {
    All,
    Old,
    New,
    Recent,
    Has(SystemFlag),
    Lacks(SystemFlag),
    Keyword,
    Unkeyword,
    Larger,
    Smaller,
    Before,
    On,
    Since,
    Header,
    Field(HeaderField),
    Body,
    Text,
    Uid,
    Not,
    Or,
    Charset,
    Return,
}

/// A key that has no other key in it.
#[derive(Drop)]
pub(crate) enum SingleKey<'a> {
    Always,
    Never,
    Has(SystemFlag),
    Lacks(SystemFlag),
    Larger(u64),
    Smaller(u64),
    Before(Day),
    On(Day),
    Since(Day),
    InField(Name<'a>, Name<'a>),
    InBody(Name<'a>),
    InText(Name<'a>),
    Positions(SeqSet<'a>),
    Uids(SeqSet<'a>),
}

fn flag_word(word: &[u8]) -> Option<KeyWord>
    ensures { result ≡ word_among flag_words word.now }
{
    if word.eq_ignore_ascii_case(b"ANSWERED") {
        Some(KeyWord::Has(SystemFlag::Answered))
    } else if word.eq_ignore_ascii_case(b"DELETED") {
        Some(KeyWord::Has(SystemFlag::Deleted))
    } else if word.eq_ignore_ascii_case(b"DRAFT") {
        Some(KeyWord::Has(SystemFlag::Draft))
    } else if word.eq_ignore_ascii_case(b"FLAGGED") {
        Some(KeyWord::Has(SystemFlag::Flagged))
    } else if word.eq_ignore_ascii_case(b"SEEN") {
        Some(KeyWord::Has(SystemFlag::Seen))
    } else if word.eq_ignore_ascii_case(b"UNANSWERED") {
        Some(KeyWord::Lacks(SystemFlag::Answered))
    } else if word.eq_ignore_ascii_case(b"UNDELETED") {
        Some(KeyWord::Lacks(SystemFlag::Deleted))
    } else if word.eq_ignore_ascii_case(b"UNDRAFT") {
        Some(KeyWord::Lacks(SystemFlag::Draft))
    } else if word.eq_ignore_ascii_case(b"UNFLAGGED") {
        Some(KeyWord::Lacks(SystemFlag::Flagged))
    } else if word.eq_ignore_ascii_case(b"UNSEEN") {
        Some(KeyWord::Lacks(SystemFlag::Seen))
    } else {
        None
    }
}

fn other_word(word: &[u8]) -> Option<KeyWord>
    ensures { result ≡ word_among other_words word.now }
{
    if word.eq_ignore_ascii_case(b"ALL") {
        Some(KeyWord::All)
    } else if word.eq_ignore_ascii_case(b"OLD") {
        Some(KeyWord::Old)
    } else if word.eq_ignore_ascii_case(b"NEW") {
        Some(KeyWord::New)
    } else if word.eq_ignore_ascii_case(b"RECENT") {
        Some(KeyWord::Recent)
    } else if word.eq_ignore_ascii_case(b"KEYWORD") {
        Some(KeyWord::Keyword)
    } else if word.eq_ignore_ascii_case(b"UNKEYWORD") {
        Some(KeyWord::Unkeyword)
    } else if word.eq_ignore_ascii_case(b"LARGER") {
        Some(KeyWord::Larger)
    } else if word.eq_ignore_ascii_case(b"SMALLER") {
        Some(KeyWord::Smaller)
    } else if word.eq_ignore_ascii_case(b"BEFORE") {
        Some(KeyWord::Before)
    } else if word.eq_ignore_ascii_case(b"ON") {
        Some(KeyWord::On)
    } else if word.eq_ignore_ascii_case(b"SINCE") {
        Some(KeyWord::Since)
    } else if word.eq_ignore_ascii_case(b"UID") {
        Some(KeyWord::Uid)
    } else if word.eq_ignore_ascii_case(b"NOT") {
        Some(KeyWord::Not)
    } else if word.eq_ignore_ascii_case(b"OR") {
        Some(KeyWord::Or)
    } else if word.eq_ignore_ascii_case(b"CHARSET") {
        Some(KeyWord::Charset)
    } else if word.eq_ignore_ascii_case(b"RETURN") {
        Some(KeyWord::Return)
    } else {
        None
    }
}

fn text_word(word: &[u8]) -> Option<KeyWord>
    ensures { result ≡ word_among text_words word.now }
{
    if word.eq_ignore_ascii_case(b"HEADER") {
        Some(KeyWord::Header)
    } else if word.eq_ignore_ascii_case(b"SUBJECT") {
        Some(KeyWord::Field(HeaderField::Subject))
    } else if word.eq_ignore_ascii_case(b"FROM") {
        Some(KeyWord::Field(HeaderField::From))
    } else if word.eq_ignore_ascii_case(b"TO") {
        Some(KeyWord::Field(HeaderField::To))
    } else if word.eq_ignore_ascii_case(b"CC") {
        Some(KeyWord::Field(HeaderField::Cc))
    } else if word.eq_ignore_ascii_case(b"BCC") {
        Some(KeyWord::Field(HeaderField::Bcc))
    } else if word.eq_ignore_ascii_case(b"BODY") {
        Some(KeyWord::Body)
    } else if word.eq_ignore_ascii_case(b"TEXT") {
        Some(KeyWord::Text)
    } else {
        None
    }
}

/// The word that this is, in upper or lower case.
pub(crate) fn key_word(word: &[u8]) -> Option<KeyWord>
    ensures { result ≡ key_word_of word.now }
{
    if let Some(found) = flag_word(word) {
        return Some(found);
    }
    match other_word(word) {
        Some(found) => Some(found),
        None => text_word(word),
    }
}

/// The bytes up to the first space or parenthesis, and the rest.
pub(crate) fn key_word_at(bytes: &[u8]) -> (&[u8], &[u8])
    ensures word { result.0.now ≡ (key_word_at bytes.now).0 }
    ensures rest { result.1.now ≡ (key_word_at bytes.now).1 }
{
    bytes.split_at(run_len(Class::Key, bytes))
}

/// The key that the word is by itself.
fn word_key<'a>(word: KeyWord) -> Option<SingleKey<'a>>
    ensures { result ≡ word_key word }
{
    match word {
        KeyWord::All | KeyWord::Old => Some(SingleKey::Always),
        KeyWord::New | KeyWord::Recent => Some(SingleKey::Never),
        KeyWord::Has(flag) => Some(SingleKey::Has(flag)),
        KeyWord::Lacks(flag) => Some(SingleKey::Lacks(flag)),
        _ => None,
    }
}

/// The greatest number that a key may have (RFC 9051, 9: number64).
const GREATEST_NUMBER64: u64 = 9_223_372_036_854_775_807;

/// The key that the word is with another behind it.
fn argument_key(word: KeyWord, text: &[u8]) -> Option<SingleKey<'_>>
    ensures { result ≡ argument_key word text.now }
{
    match word {
        KeyWord::Keyword if is_word_of(Class::Atom, text) => Some(SingleKey::Never),
        KeyWord::Unkeyword if is_word_of(Class::Atom, text) => Some(SingleKey::Always),
        KeyWord::Larger => Some(SingleKey::Larger(number_up_to(GREATEST_NUMBER64, text)?)),
        KeyWord::Smaller => Some(SingleKey::Smaller(number_up_to(GREATEST_NUMBER64, text)?)),
        KeyWord::Before => Some(SingleKey::Before(date_in(text)?)),
        KeyWord::On => Some(SingleKey::On(date_in(text)?)),
        KeyWord::Since => Some(SingleKey::Since(date_in(text)?)),
        KeyWord::Uid => Some(SingleKey::Uids(SeqSet::of(text)?)),
        _ => None,
    }
}

/// The key that the word is with what stands behind it and a gap, and what follows that.
fn argument_at(word: KeyWord, bytes: &[u8]) -> Option<(SingleKey<'_>, &[u8])>
    ensures { option_map (λ x. (x.0, x.1.now)) result ≡ argument_at word bytes.now }
{
    let start = past_gap(bytes)?;
    let (text, rest) = key_word_at(start);
    let key = argument_key(word, text)?;
    Some((key, rest))
}

/// The string behind a gap, and what follows it.
fn string_behind(bytes: &[u8]) -> Option<(Name<'_>, &[u8])>
    ensures { option_map (λ x. (x.0, x.1.now)) result ≡ string_behind bytes.now }
{
    let start = past_gap(bytes)?;
    string_at(Class::Atom, start)
}

fn field_name(field: HeaderField) -> Name<'static>
    ensures { result ≡ field_name field }
{
    match field {
        HeaderField::Subject => Name::of(b"Subject"),
        HeaderField::From => Name::of(b"From"),
        HeaderField::To => Name::of(b"To"),
        HeaderField::Cc => Name::of(b"Cc"),
        HeaderField::Bcc => Name::of(b"Bcc"),
    }
}

fn field_at(field: HeaderField, bytes: &[u8]) -> Option<(SingleKey<'_>, &[u8])>
    ensures { option_map (λ x. (x.0, x.1.now)) result
        ≡ words_at (single.InField (field_name field)) bytes.now }
{
    let (words, rest) = string_behind(bytes)?;
    Some((SingleKey::InField(field_name(field), words), rest))
}

fn header_at(bytes: &[u8]) -> Option<(SingleKey<'_>, &[u8])>
    ensures { option_map (λ x. (x.0, x.1.now)) result ≡ header_at bytes.now }
{
    let (name, rest) = string_behind(bytes)?;
    let (words, rest) = string_behind(rest)?;
    Some((SingleKey::InField(name, words), rest))
}

fn body_at(bytes: &[u8]) -> Option<(SingleKey<'_>, &[u8])>
    ensures { option_map (λ x. (x.0, x.1.now)) result ≡ words_at single.InBody bytes.now }
{
    let (words, rest) = string_behind(bytes)?;
    Some((SingleKey::InBody(words), rest))
}

fn text_at(bytes: &[u8]) -> Option<(SingleKey<'_>, &[u8])>
    ensures { option_map (λ x. (x.0, x.1.now)) result ≡ words_at single.InText bytes.now }
{
    let (words, rest) = string_behind(bytes)?;
    Some((SingleKey::InText(words), rest))
}

/// The key that the word is with what stands behind it, and what follows that.
fn key_behind(word: KeyWord, bytes: &[u8]) -> Option<(SingleKey<'_>, &[u8])>
    ensures { option_map (λ x. (x.0, x.1.now)) result ≡ key_behind word bytes.now }
{
    match word {
        KeyWord::Header => header_at(bytes),
        KeyWord::Field(field) => field_at(field, bytes),
        KeyWord::Body => body_at(bytes),
        KeyWord::Text => text_at(bytes),
        _ => argument_at(word, bytes),
    }
}

fn single_or(word: KeyWord, rest: &[u8]) -> Option<(SingleKey<'_>, &[u8])>
    ensures { option_map (λ x. (x.0, x.1.now)) result ≡ single_or (word_key word) word rest.now }
{
    match word_key(word) {
        Some(key) => Some((key, rest)),
        None => key_behind(word, rest),
    }
}

/// The key that begins with this text, which is that word, or else a set; and what follows it.
pub(crate) fn single_at<'a>(
    found: Option<KeyWord>,
    text: &'a [u8],
    rest: &'a [u8],
) -> Option<(SingleKey<'a>, &'a [u8])>
    ensures { option_map (λ x. (x.0, x.1.now)) result ≡ single_at found (text.now, rest.now) }
{
    match found {
        Some(word) => single_or(word, rest),
        None => {
            let set = SeqSet::of(text)?;
            Some((SingleKey::Positions(set), rest))
        }
    }
}
