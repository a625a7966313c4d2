//! Names of mailboxes, patterns of names, and words that are searched, as they stand in a line and as what they say.
//! Whether a mailbox has that name is told above, and where words are looked for in `containing`.

ghost use Rattle.std.specs.Prelude.{◌≡◌, IfOk, false};
ghost use Rattle.std.specs.Option.{option_copied, option_map};
ghost use Rattle.std.specs.Str.{bytes_eq, str_eq_ignore_ascii_case as is_same};
ghost use Rattle.mail_date.specs.Fields.{past_word};
ghost use Rattle.imap_grammar.specs.inner.Searching.{searched, first_letter};
ghost use Rattle.envelope.specs.Names.{value_of, unquoted};

use crate::letters::{Folds, past_letter, past_letter_of};
use envelope::past_byte;
use std::alloc::{AllocError, Global};
use std::marker::Model;

/// What stands in a quoted string, from behind its first quote.
#[tactic(auto, using(crate::proofs::Steps::unquoted_step))]
fn unquoted(alloc: Global, text: &[u8]) -> Result<Vec<u8>, AllocError>
    ensures { IfOk result (λ v. v.items ≡ unquoted false text.now) }
{
    let mut value = Vec::new(alloc);
    let mut escaped = false;
    for b in text {
        if !escaped && *b == b'"' {
            return Ok(value);
        }
        if !escaped && *b == b'\\' {
            escaped = true;
        } else {
            value.push(*b)?;
            escaped = false;
        }
    }
    Ok(value)
}

// Whether what stands in a quoted string, from behind its first quote, says these bytes.
#[tactic(auto, using(crate::proofs::Steps::unquoted_step, crate::proofs::Steps::same_step))]
fn is_unquoted(text: &[u8], bytes: &[u8]) -> bool
    ensures { result ≡ bytes_eq (unquoted false text.now) bytes.now }
{
    let mut rest = bytes;
    let mut escaped = false;
    for b in text {
        if !escaped && *b == b'"' {
            return rest.is_empty();
        }
        if !escaped && *b == b'\\' {
            escaped = true;
        } else {
            let Some(others) = past_byte(*b, rest) else {
                return false;
            };
            rest = others;
            escaped = false;
        }
    }
    rest.is_empty()
}

// Whether what stands in a quoted string, from behind its first quote, says these bytes in upper or lower case.
#[tactic(auto, using(crate::proofs::Steps::unquoted_step, crate::proofs::Steps::letter_step))]
fn is_unquoted_word(text: &[u8], word: &[u8]) -> bool
    ensures { result ≡ is_same (unquoted false text.now) word.now }
{
    let mut rest = word;
    let mut escaped = false;
    for b in text {
        if !escaped && *b == b'"' {
            return rest.is_empty();
        }
        if !escaped && *b == b'\\' {
            escaped = true;
        } else {
            let Some(others) = past_letter(*b, rest) else {
                return false;
            };
            rest = others;
            escaped = false;
        }
    }
    rest.is_empty()
}

// What follows these words in a text that begins with them, in upper or lower case.
#[tactic(auto, using(crate::proofs::Searching::past_step, crate::proofs::Searching::word_step))]
fn past_plain<'t>(folds: Folds, words: &[u8], text: &'t [u8]) -> Option<&'t [u8]>
    ensures { option_map (searched folds) (option_copied result)
        ≡ past_word words.now (searched folds text.now) }
{
    let mut rest = text;
    for b in words {
        rest = past_letter_of(folds, *b, rest)?;
    }
    Some(rest)
}

// The same of what stands in a quoted string, from behind its first quote.
#[tactic(auto, using(crate::proofs::Steps::unquoted_step, crate::proofs::Searching::past_step))]
fn past_unquoted<'t>(folds: Folds, spelled: &[u8], text: &'t [u8]) -> Option<&'t [u8]>
    ensures { option_map (searched folds) (option_copied result)
        ≡ past_word (unquoted false spelled.now) (searched folds text.now) }
{
    let mut rest = text;
    let mut escaped = false;
    for b in spelled {
        if !escaped && *b == b'"' {
            return Some(rest);
        }
        if !escaped && *b == b'\\' {
            escaped = true;
        } else {
            rest = past_letter_of(folds, *b, rest)?;
            escaped = false;
        }
    }
    Some(rest)
}

// The first byte that stands in a quoted string, from behind its first quote, in lower case.
fn first_unquoted(spelled: &[u8]) -> Option<u8>
    ensures { result ≡ first_letter (unquoted false spelled.now) }
{
    match spelled {
        [b'"', ..] | [b'\\'] | [] => None,
        [b'\\', b, ..] | [b, ..] => Some(b.to_ascii_lowercase()),
    }
}

/// A name or a pattern, as it stands in a line, plain or within quotes: in contracts the bytes that it says.
#[derive(Drop)]
pub struct Name<'a> {
    spelled: &'a [u8],
}

impl<'a> Model for Name<'a> {
    ghost use Rattle.std.specs.Prelude.{List, ℕ};
    ghost use Rattle.envelope.specs.Names.{value_of};

    ghost Value = { List ℕ };

    ghost view = { λ n. value_of n.spelled.now };
}

impl<'a> Name<'a> {
    ghost use Rattle.std.specs.Prelude.{◌≡◌, IfOk};
    ghost use Rattle.std.specs.Option.{option_copied, option_map};
    ghost use Rattle.std.specs.Str.{bytes_eq, str_eq_ignore_ascii_case as is_same};
    ghost use Rattle.mail_date.specs.Fields.{past_word};
    ghost use Rattle.imap_grammar.specs.inner.Searching.{searched, first_letter};

    /// The name that is spelled so.
    pub(crate) fn of(spelled: &'a [u8]) -> Name<'a>
        ensures { result ≡ value_of spelled.now }
    {
        Name { spelled }
    }

    /// Whether the name says just these bytes. It takes no memory.
    pub fn is(&self, bytes: &[u8]) -> bool
        ensures { result ≡ bytes_eq self.now bytes.now }
    {
        match self.spelled {
            [b'"', rest @ ..] => is_unquoted(rest, bytes),
            _ => self.spelled == bytes,
        }
    }

    /// Whether the name says these bytes in upper or lower case. It takes no memory.
    pub(crate) fn is_word(&self, word: &[u8]) -> bool
        ensures { result ≡ is_same self.now word.now }
    {
        match self.spelled {
            [b'"', rest @ ..] => is_unquoted_word(rest, word),
            _ => self.spelled.eq_ignore_ascii_case(word),
        }
    }

    /// The first byte that it says, in lower case, or None where it says none.
    pub(crate) fn first_letter(&self) -> Option<u8>
        ensures { result ≡ first_letter self.now }
    {
        match self.spelled {
            [b'"', rest @ ..] => first_unquoted(rest),
            [b, ..] => Some(b.to_ascii_lowercase()),
            [] => None,
        }
    }

    /// What follows the bytes that it says in a text that begins with them, in upper or lower case. It takes no memory.
    pub(crate) fn past<'t>(&self, folds: Folds, text: &'t [u8]) -> Option<&'t [u8]>
        ensures { option_map (searched folds) (option_copied result)
            ≡ past_word self.now (searched folds text.now) }
    {
        match self.spelled {
            [b'"', rest @ ..] => past_unquoted(folds, rest, text),
            _ => past_plain(folds, self.spelled, text),
        }
    }

    /// The bytes that the name says: those of a quoted string without its quotes and backslashes.
    ///
    /// Errors: `AllocError` where memory is refused.
    pub fn to_bytes(&self, alloc: Global) -> Result<Vec<u8>, AllocError>
        ensures { IfOk result (λ v. v.items ≡ self.now) }
    {
        match self.spelled {
            [b'"', rest @ ..] => unquoted(alloc, rest),
            _ => Vec::from_slice(alloc, self.spelled),
        }
    }
}
