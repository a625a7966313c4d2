//! What a search is to return (RFC 9051, 6.4.4: search-return-opts), which its line may say before a charset and its keys.
//! What each answers is its namesake in specs/Reading.antt.

ghost use Rattle.std.specs.Prelude.{◌≡◌};
ghost use Rattle.std.specs.List.{list_all};
ghost use Rattle.std.specs.Option.{option_map};
ghost use Rattle.envelope.specs.Reading.{words};
ghost use Rattle.imap_grammar.specs.Reading.{returns_at, returns_in, returns_named};
ghost use Rattle.imap_grammar.specs.Returns.{asks_for_all, is_return};

use crate::arguments::parens_at;
use crate::bytes::past_gap;
use crate::command::SearchReturns;
use crate::key_words::{KeyWord, key_word, key_word_at};
use crate::words::{count_words, has_word};

/// Whether a word asks for something.
fn is_return(word: &[u8]) -> bool
    ensures { result ≡ is_return word.now }
{
    word.eq_ignore_ascii_case(b"MIN")
        || word.eq_ignore_ascii_case(b"MAX")
        || word.eq_ignore_ascii_case(b"COUNT")
        || word.eq_ignore_ascii_case(b"ALL")
}

fn are_returns(text: &[u8]) -> bool
    ensures { result ≡ list_all is_return (words text.now) }
{
    text.split(|b| *b == b' ')
        .filter(|word| !word.is_empty())
        .all(|word| is_return(word))
}

/// Whether all are asked for: by ALL, or where there is no word.
fn asks_for_all(text: &[u8]) -> bool
    ensures { result ≡ asks_for_all (words text.now) }
{
    has_word(b"ALL", text) || count_words(text) == 0
}

/// What these words ask for, if all ask for something.
fn returns_in(text: &[u8]) -> Option<SearchReturns>
    ensures { result ≡ returns_in text.now }
{
    if !are_returns(text) {
        return None;
    }
    Some(SearchReturns {
        min: has_word(b"MIN", text),
        max: has_word(b"MAX", text),
        count: has_word(b"COUNT", text),
        all: asks_for_all(text),
    })
}

/// What is asked for in parentheses behind RETURN, and what follows it and a gap.
fn returns_named(bytes: &[u8]) -> Option<(Option<SearchReturns>, &[u8])>
    ensures { option_map (λ x. (x.0, x.1.now)) result ≡ returns_named bytes.now }
{
    let start = past_gap(bytes)?;
    let (inner, rest) = parens_at(start)?;
    let returns = returns_in(inner)?;
    let rest = past_gap(rest)?;
    Some((Some(returns), rest))
}

/// What a search is to return, which may be left out, and what follows it.
pub fn returns_at(bytes: &[u8]) -> Option<(Option<SearchReturns>, &[u8])>
    ensures { option_map (λ x. (x.0, x.1.now)) result ≡ returns_at bytes.now }
{
    let (word, rest) = key_word_at(bytes);
    match key_word(word) {
        Some(KeyWord::Return) => returns_named(rest),
        _ => Some((None, bytes)),
    }
}
