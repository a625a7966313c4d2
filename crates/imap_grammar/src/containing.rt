//! Words that stand somewhere in a message (RFC 9051, 6.4.4: BODY, HEADER and TEXT).
//! What each answers is its namesake in specs/Contains.antt. How the words are spelled in a line is for `name`, and how fields begin and end for `mail_date`.
//!
//! Each position of a text is tried in turn, so words of w bytes in a text of n bytes take w * n steps at worst. A position whose byte isn't the
//! words' first, in upper or lower case, takes one step.

ghost use Rattle.std.specs.Prelude.{◌≡◌, true};
ghost use Rattle.std.specs.Option.{option_copied};
ghost use Rattle.mail_date.specs.Fields.{past_name};
ghost use Rattle.imap_grammar.specs.Contains.{begins, contains, body, body_has, in_field, past_line};
ghost use Rattle.imap_grammar.specs.inner.Searching.{searched};

use crate::letters::Folds;
use crate::name::Name;
use mail_date::{ends_field, field_len, is_empty_line, past_colon};

// Whether a text begins with these words.
fn begins(folds: Folds, words: &Name<'_>, text: &[u8]) -> bool
    ensures { result ≡ begins words.now (searched folds text.now) }
{
    words.past(folds, text).is_some()
}

/// Whether words stand somewhere in a text, in upper or lower case. It takes no memory.
#[tactic(auto, using(crate::proofs::Searching::contains_step, crate::proofs::Searching::contains_none, crate::proofs::Searching::contains_end))]
pub(crate) fn contains(folds: Folds, words: &Name<'_>, text: &[u8]) -> bool
    ensures { result ≡ contains words.now (searched folds text.now) }
{
    let Some(first) = words.first_letter() else {
        return true;
    };
    for (i, b) in text.iter().enumerate() {
        if b.to_ascii_lowercase() == first && begins(folds, words, &text[i..]) {
            return true;
        }
    }
    false
}

// What follows this name and its colon.
fn past_name<'t>(name: &Name<'_>, text: &'t [u8]) -> Option<&'t [u8]>
    ensures { option_copied result ≡ past_name name.now text.now }
{
    let rest = name.past(Folds::Kept, text)?;
    past_colon(rest)
}

// Whether the field that begins a text has this name, and these words in its body.
fn field_has(name: &Name<'_>, words: &Name<'_>, text: &[u8]) -> bool
    ensures { result ≡ body_has words.now (past_name name.now text.now) }
{
    let Some(body) = past_name(name, text) else {
        return false;
    };
    contains(Folds::Dropped, words, &body[..field_len(body)])
}

/// Whether a field of this name before the first empty line has these words in its body, where folds are no part of it. It takes no memory.
#[tactic(auto, using(crate::proofs::Searching::field_step))]
pub(crate) fn in_field(name: &Name<'_>, words: &Name<'_>, text: &[u8]) -> bool
    ensures { result ≡ in_field name.now words.now text.now }
{
    let mut starts = true;
    for (i, b) in text.iter().enumerate() {
        if starts {
            if is_empty_line(&text[i..]) {
                return false;
            }
            if field_has(name, words, &text[i..]) {
                return true;
            }
        }
        starts = ends_field(*b, &text[i + 1..]);
    }
    false
}

// What follows an empty line.
fn past_line(text: &[u8]) -> &[u8]
    ensures { result.now ≡ past_line text.now }
{
    match text {
        [b'\n', rest @ ..] | [_, _, rest @ ..] => rest,
        _ => &text[text.len()..],
    }
}

/// What stands behind the first empty line, and nothing where there is none.
#[tactic(auto, using(crate::proofs::Searching::body_step))]
pub(crate) fn body(text: &[u8]) -> &[u8]
    ensures { result.now ≡ body text.now }
{
    let mut starts = true;
    for (i, b) in text.iter().enumerate() {
        if starts && is_empty_line(&text[i..]) {
            return past_line(&text[i..]);
        }
        starts = *b == b'\n';
    }
    &text[text.len()..]
}
