//! Classes of bytes, and parts at the front of a text that are told by their bytes alone.
//! What each answers is its namesake in specs/Reading.antt.

ghost use Rattle.std.specs.Prelude.{◌≡◌, ◌≤◌, length};
ghost use Rattle.std.specs.List.{prefix_len};
ghost use Rattle.std.specs.Option.{option_copied};
ghost use Rattle.imap_grammar.specs.Reading.{is_of, word_at, is_tight};
ghost use Rattle.imap_grammar.specs.Front.{past_gap, is_blank};

use envelope::after_spaces;

/// Classes of bytes (RFC 9051, 9).
#[derive(Clone, Copy)]
pub enum Class {
    NotSpace,
    Tag,
    Atom,
    Pattern,
    Digit,
    Field,
    Key,
    Base64,
}

/// Whether a byte is of the class.
pub fn is_of(class: Class, b: u8) -> bool
    ensures { result ≡ is_of class b }
{
    let graphic = matches!(b, b'!'..=b'~');
    match class {
        Class::NotSpace => b != b' ',
        Class::Tag => {
            graphic && !matches!(b, b'(' | b')' | b'{' | b'%' | b'*' | b'"' | b'\\' | b'+')
        }
        Class::Atom => graphic && !matches!(b, b'(' | b')' | b'{' | b'%' | b'*' | b'"' | b'\\'),
        Class::Pattern => graphic && !matches!(b, b'(' | b')' | b'{' | b'"' | b'\\'),
        Class::Digit => matches!(b, b'0'..=b'9'),
        Class::Field => {
            graphic && !matches!(b, b'(' | b')' | b'{' | b'%' | b'*' | b'"' | b'\\' | b']')
        }
        Class::Key => !matches!(b, b' ' | b'(' | b')'),
        Class::Base64 => matches!(b, b'0'..=b'9' | b'A'..=b'Z' | b'a'..=b'z' | b'+' | b'/' | b'='),
    }
}

/// How many bytes at the front are of the class.
#[tactic(auto, using(envelope::proofs::Steps::prefix_step))]
pub fn run_len(class: Class, bytes: &[u8]) -> usize
    ensures value { result ≡ prefix_len (is_of class) bytes.now }
    ensures bound { result ≤ length bytes.now }
{
    for (i, b) in bytes.iter().enumerate() {
        if !is_of(class, *b) {
            return i;
        }
    }
    bytes.len()
}

/// What follows the spaces at the front, one at least.
pub fn past_gap(bytes: &[u8]) -> Option<&[u8]>
    ensures { option_copied result ≡ past_gap bytes.now }
{
    match bytes {
        [b' ', ..] => Some(after_spaces(bytes)),
        _ => None,
    }
}

/// The bytes up to the first space, and the rest.
pub fn word_at(bytes: &[u8]) -> (&[u8], &[u8])
    ensures word { result.0.now ≡ (word_at bytes.now).0 }
    ensures rest { result.1.now ≡ (word_at bytes.now).1 }
{
    bytes.split_at(run_len(Class::NotSpace, bytes))
}

/// Whether there is nothing but spaces.
pub fn is_blank(bytes: &[u8]) -> bool
    ensures { result ≡ is_blank bytes.now }
{
    bytes.iter().all(|b| *b == b' ')
}

/// Whether no space stands first or last.
pub fn is_tight(text: &[u8]) -> bool
    ensures { result ≡ is_tight text.now }
{
    text.is_empty() || (text[0] != b' ' && text[text.len() - 1] != b' ')
}
