//! What follows the verb, read from left to right. What each function answers is its namesake in
//! specs/Reading.antt; that file is tied to the grammar by `read_line`.

ghost use Rattle.std.specs.Prelude.{◌≡◌, ◌≤◌, length, take, false, true, IfSome};
ghost use Rattle.std.specs.List.{list_all};
ghost use Rattle.std.specs.Option.{option_copied, option_map};
ghost use Rattle.envelope.specs.Reading.{first_is, some_len};
ghost use Rattle.imap_grammar.specs.Grammar.{is_known_charset};
ghost use Rattle.imap_grammar.specs.Reading.{is_of, in_parentheses, items_in_parentheses, fetch_items_at, flags_at, operation_of, change_with, name_alone, pair_at, status_at, fetch_at, store_at, copy_at, set_alone, if_end, parens_at, flag_list_at, given_flags_at, quoted_date_at, given_date_at, literal_end, literal_at, append_at, charset_named, charset_at, search_at, word_if, initial_at, authenticate_at, enable_at, past_string, past_value, past_field, past_all_fields, past_list, past_parameters, id_at};
ghost use Rattle.imap_grammar.specs.Bytes.{is_atom, is_pattern, is_digit};
ghost use Rattle.imap_grammar.specs.declared.command.Command.TheVariants as say;

use crate::bytes::{Class, is_blank, is_tight, past_gap, run_len, word_at};
use crate::command::{
    Append, Authenticate, Command, CopyMessages, Fetch, Literal, Search, Store, Word,
};
use crate::cut::cut_at;
use crate::item_words::{item_word_at, outside_len};
use crate::items::{FetchItems, StatusItems};
use crate::key_words::{KeyWord, key_word, key_word_at};
use crate::keys::SearchKeys;
use crate::name::Name;
use crate::number::capped_number;
use crate::returns::returns_at;
use crate::set::SeqSet;
use crate::strings::{quoted_len, string_at};
use crate::words::{are_atoms, flags_in, is_word_of};
use change_ring::{FlagOp, Flags};
use envelope::{past_byte, past_keyword};
use mail_date::{Stamp, read_internal_date};

/// What stands in parentheses, if nothing but spaces comes after them.
fn in_parentheses(bytes: &[u8]) -> Option<&[u8]>
    ensures { option_copied result ≡ in_parentheses bytes.now }
{
    let start = past_byte(b'(', bytes)?;
    let (inner, rest) = cut_at(b')', start)?;
    if is_blank(rest) && is_tight(inner) {
        Some(inner)
    } else {
        None
    }
}

/// The same of items, in which there may be parentheses between brackets.
fn items_in_parentheses(bytes: &[u8]) -> Option<&[u8]>
    ensures { option_copied result ≡ items_in_parentheses bytes.now }
{
    let start = past_byte(b'(', bytes)?;
    let (inner, end) = start.split_at(outside_len(b')', start));
    let rest = past_byte(b')', end)?;
    if is_blank(rest) && is_tight(inner) {
        Some(inner)
    } else {
        None
    }
}

fn begins_list(bytes: &[u8]) -> bool
    ensures { result ≡ first_is 40 bytes.now }
{
    matches!(bytes, [b'(', ..])
}

/// The items of a FETCH.
fn fetch_items_at(bytes: &[u8]) -> Option<FetchItems<'_>>
    ensures { result ≡ fetch_items_at bytes.now }
{
    if begins_list(bytes) {
        let inner = items_in_parentheses(bytes)?;
        return FetchItems::of(inner);
    }
    let (word, rest) = item_word_at(bytes);
    if is_blank(rest) {
        FetchItems::of_word(word)
    } else {
        None
    }
}

/// The flags of a STORE.
fn flags_at(bytes: &[u8]) -> Option<Flags>
    ensures { result ≡ flags_at bytes.now }
{
    if begins_list(bytes) {
        let inner = in_parentheses(bytes)?;
        return flags_in(inner);
    }
    if is_blank(bytes) {
        None
    } else {
        flags_in(bytes)
    }
}

/// What a STORE does with its flags.
#[derive(Clone, Copy)]
pub enum Operation {
    Set,
    Insert,
    Remove,
}

/// The operation that a word says, and whether nothing is answered.
fn operation_of(word: &[u8]) -> Option<(Operation, bool)>
    ensures { result ≡ operation_of word.now }
{
    if word.eq_ignore_ascii_case(b"FLAGS") {
        Some((Operation::Set, false))
    } else if word.eq_ignore_ascii_case(b"+FLAGS") {
        Some((Operation::Insert, false))
    } else if word.eq_ignore_ascii_case(b"-FLAGS") {
        Some((Operation::Remove, false))
    } else if word.eq_ignore_ascii_case(b"FLAGS.SILENT") {
        Some((Operation::Set, true))
    } else if word.eq_ignore_ascii_case(b"+FLAGS.SILENT") {
        Some((Operation::Insert, true))
    } else if word.eq_ignore_ascii_case(b"-FLAGS.SILENT") {
        Some((Operation::Remove, true))
    } else {
        None
    }
}

fn change_with(operation: Operation, flags: Flags) -> FlagOp
    ensures { result ≡ change_with operation flags }
{
    match operation {
        Operation::Set => FlagOp::Set(flags),
        Operation::Insert => FlagOp::Insert(flags),
        Operation::Remove => FlagOp::Remove(flags),
    }
}

/// The command, if nothing but spaces is left.
pub fn if_end<'a>(command: Command<'a>, rest: &[u8]) -> Option<Command<'a>>
    ensures { result ≡ if_end command.entry rest.now }
{
    if is_blank(rest) { Some(command) } else { None }
}

/// What follows SELECT.
pub fn select(bytes: &[u8]) -> Option<Command<'_>>
    ensures { result ≡ name_alone say.Select bytes.now }
{
    let start = past_gap(bytes)?;
    let (name, rest) = string_at(Class::Atom, start)?;
    if_end(Command::Select(name), rest)
}

/// What follows EXAMINE.
pub fn examine(bytes: &[u8]) -> Option<Command<'_>>
    ensures { result ≡ name_alone say.Examine bytes.now }
{
    let start = past_gap(bytes)?;
    let (name, rest) = string_at(Class::Atom, start)?;
    if_end(Command::Examine(name), rest)
}

/// What follows LIST.
pub fn list(bytes: &[u8]) -> Option<Command<'_>>
    ensures { result ≡ pair_at is_pattern say.List bytes.now }
{
    let start = past_gap(bytes)?;
    let (reference, rest) = string_at(Class::Atom, start)?;
    let next = past_gap(rest)?;
    let (pattern, rest) = string_at(Class::Pattern, next)?;
    if_end(Command::List { reference, pattern }, rest)
}

/// What follows LOGIN.
pub fn login(bytes: &[u8]) -> Option<Command<'_>>
    ensures { result ≡ pair_at is_atom say.Login bytes.now }
{
    let start = past_gap(bytes)?;
    let (user, rest) = string_at(Class::Atom, start)?;
    let next = past_gap(rest)?;
    let (password, rest) = string_at(Class::Atom, next)?;
    if_end(Command::Login { user, password }, rest)
}

/// What follows LSUB.
pub fn lsub(bytes: &[u8]) -> Option<Command<'_>>
    ensures { result ≡ pair_at is_pattern say.Lsub bytes.now }
{
    let start = past_gap(bytes)?;
    let (reference, rest) = string_at(Class::Atom, start)?;
    let next = past_gap(rest)?;
    let (pattern, rest) = string_at(Class::Pattern, next)?;
    if_end(Command::Lsub { reference, pattern }, rest)
}

/// What follows SUBSCRIBE.
pub fn subscribe(bytes: &[u8]) -> Option<Command<'_>>
    ensures { result ≡ name_alone say.Subscribe bytes.now }
{
    let start = past_gap(bytes)?;
    let (name, rest) = string_at(Class::Atom, start)?;
    if_end(Command::Subscribe(name), rest)
}

/// What follows UNSUBSCRIBE.
pub fn unsubscribe(bytes: &[u8]) -> Option<Command<'_>>
    ensures { result ≡ name_alone say.Unsubscribe bytes.now }
{
    let start = past_gap(bytes)?;
    let (name, rest) = string_at(Class::Atom, start)?;
    if_end(Command::Unsubscribe(name), rest)
}

/// What follows STATUS.
pub fn status(bytes: &[u8]) -> Option<Command<'_>>
    ensures { result ≡ status_at bytes.now }
{
    let start = past_gap(bytes)?;
    let (name, rest) = string_at(Class::Atom, start)?;
    let rest = past_gap(rest)?;
    let inner = in_parentheses(rest)?;
    let items = StatusItems::of(inner)?;
    Some(Command::Status { name, items })
}

/// What follows FETCH or UID FETCH.
pub fn fetch(by_uid: bool, bytes: &[u8]) -> Option<Command<'_>>
    ensures { result ≡ fetch_at by_uid bytes.now }
{
    let start = past_gap(bytes)?;
    let (word, rest) = word_at(start);
    let set = SeqSet::of(word)?;
    let rest = past_gap(rest)?;
    let items = fetch_items_at(rest)?;
    Some(Command::Fetch(Fetch { by_uid, set, items }))
}

/// What follows STORE or UID STORE.
pub fn store(by_uid: bool, bytes: &[u8]) -> Option<Command<'_>>
    ensures { result ≡ store_at by_uid bytes.now }
{
    let start = past_gap(bytes)?;
    let (word, rest) = word_at(start);
    let set = SeqSet::of(word)?;
    let rest = past_gap(rest)?;
    let (word, rest) = word_at(rest);
    let (operation, silent) = operation_of(word)?;
    let last = past_gap(rest)?;
    let flags = flags_at(last)?;
    Some(Command::Store(Store {
        by_uid,
        set,
        silent,
        change: change_with(operation, flags),
    }))
}

/// What follows COPY or MOVE, or one of them behind UID.
pub fn copy(by_uid: bool, moves: bool, bytes: &[u8]) -> Option<Command<'_>>
    ensures { result ≡ copy_at by_uid moves bytes.now }
{
    let start = past_gap(bytes)?;
    let (word, rest) = word_at(start);
    let set = SeqSet::of(word)?;
    let rest = past_gap(rest)?;
    let (name, rest) = string_at(Class::Atom, rest)?;
    if_end(
        Command::Copy(CopyMessages {
            by_uid,
            moves,
            set,
            name,
        }),
        rest,
    )
}

/// What follows UID EXPUNGE.
pub fn uid_expunge(bytes: &[u8]) -> Option<Command<'_>>
    ensures { result ≡ set_alone bytes.now }
{
    let start = past_gap(bytes)?;
    let (word, rest) = word_at(start);
    let set = SeqSet::of(word)?;
    if_end(Command::UidExpunge(set), rest)
}

/// What stands in parentheses at the front, and what follows them.
pub(crate) fn parens_at(bytes: &[u8]) -> Option<(&[u8], &[u8])>
    ensures { option_map (λ x. (x.0.now, x.1.now)) result ≡ parens_at bytes.now }
{
    let start = past_byte(b'(', bytes)?;
    let (inner, rest) = cut_at(b')', start)?;
    if is_tight(inner) {
        Some((inner, rest))
    } else {
        None
    }
}

/// A list of flags at the front, and what follows it and a gap.
fn flag_list_at(bytes: &[u8]) -> Option<(Flags, &[u8])>
    ensures { option_map (λ x. (x.0, x.1.now)) result ≡ flag_list_at bytes.now }
{
    let (inner, rest) = parens_at(bytes)?;
    let flags = flags_in(inner)?;
    let rest = past_gap(rest)?;
    Some((flags, rest))
}

/// The flags of a new message, which may be left out, and what follows them.
fn given_flags_at(bytes: &[u8]) -> Option<(Flags, &[u8])>
    ensures { option_map (λ x. (x.0, x.1.now)) result ≡ given_flags_at bytes.now }
{
    if begins_list(bytes) {
        return flag_list_at(bytes);
    }
    let none = Flags {
        answered: false,
        flagged: false,
        deleted: false,
        seen: false,
        draft: false,
    };
    Some((none, bytes))
}

/// What follows a quoted string and a gap.
/// A quoted string that may be a date, and what follows it and a gap.
fn quoted_date_at(bytes: &[u8]) -> Option<(Option<Stamp>, &[u8])>
    ensures { option_map (λ x. (x.0, x.1.now)) result ≡ quoted_date_at bytes.now }
{
    let start = bytes.get(1..)?;
    let len = quoted_len(start)?;
    let rest = past_gap(&start[len..])?;
    Some((read_internal_date(&start[..len - 1]), rest))
}

fn begins_quoted(bytes: &[u8]) -> bool
    ensures { result ≡ first_is 34 bytes.now }
{
    matches!(bytes, [b'"', ..])
}

/// The date and time of a new message, which may be left out, and what follows it.
fn given_date_at(bytes: &[u8]) -> Option<(Option<Stamp>, &[u8])>
    ensures { option_map (λ x. (x.0, x.1.now)) result ≡ given_date_at bytes.now }
{
    if begins_quoted(bytes) {
        quoted_date_at(bytes)
    } else {
        Some((None, bytes))
    }
}

/// The end of a literal's size: whether the client waits to be asked, and what follows it.
fn literal_end(bytes: &[u8]) -> Option<(bool, &[u8])>
    ensures { option_map (λ x. (x.0, x.1.now)) result ≡ literal_end bytes.now }
{
    match bytes {
        [b'+', rest @ ..] => {
            let rest = past_byte(b'}', rest)?;
            Some((false, rest))
        }
        _ => {
            let rest = past_byte(b'}', bytes)?;
            Some((true, rest))
        }
    }
}

/// How many digits stand at the front, where there is one.
#[tactic(auto, using(crate::proofs::AppendLaw::taken_digits))]
fn digits_len(bytes: &[u8]) -> Option<usize>
    ensures value { result ≡ some_len is_digit bytes.now }
    ensures bound { IfSome result (λ n. n ≤ length bytes.now) }
    ensures digits { IfSome result (λ n. list_all is_digit (take n bytes.now) ≡ true) }
{
    let n = run_len(Class::Digit, bytes);
    if n == 0 { None } else { Some(n) }
}

/// The literal that is to come, and what follows its size.
pub(crate) fn literal_at(bytes: &[u8]) -> Option<(Literal, &[u8])>
    ensures { option_map (λ x. (x.0, x.1.now)) result ≡ literal_at bytes.now }
{
    let start = past_byte(b'{', bytes)?;
    let (digits, rest) = start.split_at(digits_len(start)?);
    let (waits, rest) = literal_end(rest)?;
    let literal = Literal {
        size: capped_number(digits),
        waits,
    };
    Some((literal, rest))
}

/// What follows APPEND.
pub fn append(bytes: &[u8]) -> Option<Command<'_>>
    ensures { result ≡ append_at bytes.now }
{
    let start = past_gap(bytes)?;
    let (name, rest) = string_at(Class::Atom, start)?;
    let rest = past_gap(rest)?;
    let (flags, rest) = given_flags_at(rest)?;
    let (date, rest) = given_date_at(rest)?;
    let (literal, rest) = literal_at(rest)?;
    if_end(
        Command::Append(Append {
            name,
            flags,
            date,
            literal,
        }),
        rest,
    )
}

/// Whether keys are read here in the charset of this name.
fn is_known_charset(name: &Name<'_>) -> bool
    ensures { result ≡ is_known_charset name.now }
{
    name.is_word(b"US-ASCII") || name.is_word(b"UTF-8")
}

/// Whether the charset behind CHARSET is known, and what follows it and a gap.
fn charset_named(bytes: &[u8]) -> Option<(bool, &[u8])>
    ensures { option_map (λ x. (x.0, x.1.now)) result ≡ charset_named bytes.now }
{
    let start = past_gap(bytes)?;
    let (name, rest) = string_at(Class::Atom, start)?;
    let rest = past_gap(rest)?;
    Some((is_known_charset(&name), rest))
}

/// Whether the charset of a search is known, which may be left out, and what follows it.
fn charset_at(bytes: &[u8]) -> Option<(bool, &[u8])>
    ensures { option_map (λ x. (x.0, x.1.now)) result ≡ charset_at bytes.now }
{
    let (word, rest) = key_word_at(bytes);
    match key_word(word) {
        Some(KeyWord::Charset) => charset_named(rest),
        _ => Some((true, bytes)),
    }
}

/// What follows SEARCH or UID SEARCH.
pub fn search(by_uid: bool, bytes: &[u8]) -> Option<Command<'_>>
    ensures { result ≡ search_at by_uid bytes.now }
{
    let start = past_gap(bytes)?;
    let (returns, rest) = returns_at(start)?;
    let (known_charset, rest) = charset_at(rest)?;
    let keys = SearchKeys::of(rest)?;
    Some(Command::Search(Search {
        by_uid,
        returns,
        known_charset,
        keys,
    }))
}

/// The word, if all its bytes are of this class.
fn word_if(class: Class, word: &[u8]) -> Option<Word<'_>>
    ensures { result ≡ word_if (is_of class) word.now }
{
    if is_word_of(class, word) {
        Some(Word::of(word))
    } else {
        None
    }
}

/// What a client responds before it is asked, which may be nothing.
fn initial_at(bytes: &[u8]) -> Option<Option<Word<'_>>>
    ensures { result ≡ initial_at bytes.now }
{
    if is_blank(bytes) {
        return Some(None);
    }
    let start = past_gap(bytes)?;
    let (word, rest) = word_at(start);
    let response = word_if(Class::Base64, word)?;
    if is_blank(rest) {
        Some(Some(response))
    } else {
        None
    }
}

/// What follows AUTHENTICATE.
pub fn authenticate(bytes: &[u8]) -> Option<Command<'_>>
    ensures { result ≡ authenticate_at bytes.now }
{
    let start = past_gap(bytes)?;
    let (word, rest) = word_at(start);
    let mechanism = word_if(Class::Atom, word)?;
    let initial = initial_at(rest)?;
    Some(Command::Authenticate(Authenticate { mechanism, initial }))
}

/// What follows ENABLE.
pub fn enable(bytes: &[u8]) -> Option<Command<'_>>
    ensures { result ≡ enable_at bytes.now }
{
    let start = past_gap(bytes)?;
    if are_atoms(start) {
        Some(Command::Enable)
    } else {
        None
    }
}

/// What follows a quoted string.
fn past_string(bytes: &[u8]) -> Option<&[u8]>
    ensures { option_copied result ≡ past_string bytes.now }
{
    if !begins_quoted(bytes) {
        return None;
    }
    let (_said, rest) = string_at(Class::Atom, bytes)?;
    Some(rest)
}

/// What follows a quoted string or NIL.
fn past_value(bytes: &[u8]) -> Option<&[u8]>
    ensures { option_copied result ≡ past_value bytes.now }
{
    if begins_quoted(bytes) {
        past_string(bytes)
    } else {
        past_keyword(b"NIL", bytes)
    }
}

/// What follows a field of an ID, and what is said in it.
fn past_field(bytes: &[u8]) -> Option<&[u8]>
    ensures { option_copied result ≡ past_field bytes.now }
{
    let rest = past_string(bytes)?;
    let start = past_gap(rest)?;
    past_value(start)
}

/// What follows one field of an ID and all others.
#[tactic(auto, using(crate::proofs::FieldSteps::field_smaller))]
fn past_all_fields(bytes: &[u8]) -> Option<&[u8]>
    ensures { option_copied result ≡ past_all_fields bytes.now }
{
    let mut rest = past_field(bytes)?;
    while let Some(start) = past_gap(rest) {
        rest = past_field(start)?;
    }
    Some(rest)
}

/// What follows the fields of an ID and the parenthesis that closes, from behind the one that opens.
fn past_list(bytes: &[u8]) -> Option<&[u8]>
    ensures { option_copied result ≡ past_list bytes.now }
{
    match bytes {
        [b')', rest @ ..] => Some(rest),
        _ => {
            let rest = past_all_fields(bytes)?;
            past_byte(b')', rest)
        }
    }
}

/// What follows the parameters of an ID.
fn past_parameters(bytes: &[u8]) -> Option<&[u8]>
    ensures { option_copied result ≡ past_parameters bytes.now }
{
    match bytes {
        [b'(', start @ ..] => past_list(start),
        _ => past_keyword(b"NIL", bytes),
    }
}

/// What follows ID.
pub fn id(bytes: &[u8]) -> Option<Command<'_>>
    ensures { result ≡ id_at bytes.now }
{
    let start = past_gap(bytes)?;
    let rest = past_parameters(start)?;
    if_end(Command::Id, rest)
}
