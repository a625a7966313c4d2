//! The words of a text, cut at its spaces, and the flags among them (RFC 9051, 2.3.2).
//! Where a list of words may stand is told in `arguments`.

ghost use Rattle.std.specs.Prelude.{◌≡◌, ◌<◌, ◌∷◌, [], IfSome, IfNone, length};
ghost use Rattle.std.specs.List.{list_all};
ghost use Rattle.envelope.specs.Reading.{words};
ghost use Rattle.imap_grammar.specs.Items.{is_word_of, is_flag, has_word};
ghost use Rattle.imap_grammar.specs.Bytes.{is_atom};
ghost use Rattle.imap_grammar.specs.Reading.{is_of, are_atoms, flags_in};

use crate::bytes::{Class, run_len, word_at};
use change_ring::Flags;
use envelope::{after_spaces, past_byte};

/// How many words there are.
pub fn count_words(text: &[u8]) -> usize
    ensures { result ≡ length (words text.now) }
{
    text.split(|b| *b == b' ')
        .filter(|word| !word.is_empty())
        .count()
}

/// The first word, and what follows it.
#[tactic(auto, using(crate::proofs::WordLaws::no_word, crate::proofs::WordLaws::one_word, crate::proofs::WordLaws::rest_shorter))]
pub fn next_word(text: &[u8]) -> Option<(&[u8], &[u8])>
    // The first of the text's words, and what follows, which has the others and is shorter; None where there is no word.
    ensures first { IfSome result (λ x. words text.now ≡ x.0.now ∷ words x.1.now) }
    ensures shorter { IfSome result (λ x. length x.1.now < length text.now) }
    ensures none { IfNone result (words text.now ≡ []) }
{
    let start = after_spaces(text);
    if start.is_empty() {
        return None;
    }
    Some(word_at(start))
}

/// Whether all bytes are of the class, and there is one.
#[tactic(auto, using(crate::proofs::Classes::all_is))]
pub fn is_word_of(class: Class, word: &[u8]) -> bool
    ensures { result ≡ is_word_of (is_of class) word.now }
{
    !word.is_empty() && run_len(class, word) == word.len()
}

fn each_is_atom(text: &[u8]) -> bool
    ensures { result ≡ list_all (is_word_of is_atom) (words text.now) }
{
    text.split(|b| *b == b' ')
        .filter(|word| !word.is_empty())
        .all(|word| is_word_of(Class::Atom, word))
}

/// Whether all words are atoms, and there is one.
pub fn are_atoms(text: &[u8]) -> bool
    ensures { result ≡ are_atoms text.now }
{
    each_is_atom(text) && count_words(text) != 0
}

fn is_flag(word: &[u8]) -> bool
    ensures { result ≡ is_flag word.now }
{
    match past_byte(b'\\', word) {
        Some(rest) => is_word_of(Class::Atom, rest),
        None => is_word_of(Class::Atom, word),
    }
}

fn are_flags(text: &[u8]) -> bool
    ensures { result ≡ list_all is_flag (words text.now) }
{
    text.split(|b| *b == b' ')
        .filter(|word| !word.is_empty())
        .all(|word| is_flag(word))
}

/// Whether this is one of the words, in upper or lower case.
pub fn has_word(word: &[u8], text: &[u8]) -> bool
    ensures { result ≡ has_word word.now (words text.now) }
{
    text.split(|b| *b == b' ')
        .filter(|other| !other.is_empty())
        .any(|other| word.eq_ignore_ascii_case(other))
}

/// The flags among these words, if all are flags. Others than the five are ignored.
pub fn flags_in(text: &[u8]) -> Option<Flags>
    ensures { result ≡ flags_in text.now }
{
    if !are_flags(text) {
        return None;
    }
    Some(Flags {
        answered: has_word(b"\\Answered", text),
        flagged: has_word(b"\\Flagged", text),
        deleted: has_word(b"\\Deleted", text),
        seen: has_word(b"\\Seen", text),
        draft: has_word(b"\\Draft", text),
    })
}
