//! Strings at the front of a text: an atom, or what stands within quotes (RFC 9051, 9: astring).
//! What each answers is its namesake in specs/Strings.antt.

ghost use Rattle.std.specs.Prelude.{◌≡◌, ◌≤◌, length, false, IfSome};
ghost use Rattle.std.specs.Option.{option_map};
ghost use Rattle.imap_grammar.specs.Bytes.{is_special, is_quotable};
ghost use Rattle.imap_grammar.specs.Reading.{is_of};
ghost use Rattle.imap_grammar.specs.Strings.{quoted_len, string_len, string_at};

use crate::bytes::{Class, run_len};
use crate::name::Name;

pub(crate) fn is_special(b: u8) -> bool
    ensures { result ≡ is_special b }
{
    b == b'"' || b == b'\\'
}

fn is_quotable(b: u8) -> bool
    ensures { result ≡ is_quotable b }
{
    32 <= b && b != 127 && !is_special(b)
}

/// How many bytes a quoted string has from behind its first quote on.
#[tactic(auto, using(crate::proofs::Steps::quoted_step))]
pub(crate) fn quoted_len(bytes: &[u8]) -> Option<usize>
    ensures value { result ≡ quoted_len false bytes.now }
    ensures bound { IfSome result (λ n. n ≤ length bytes.now) }
    ensures some { IfSome result (λ n. 1 ≤ n) }
{
    let mut escaped = false;
    for (i, b) in bytes.iter().enumerate() {
        if escaped {
            if !is_special(*b) {
                return None;
            }
            escaped = false;
        } else {
            if *b == b'"' {
                return Some(i + 1);
            }
            if *b != b'\\' && !is_quotable(*b) {
                return None;
            }
            escaped = *b == b'\\';
        }
    }
    None
}

/// How many bytes a name or a pattern has.
fn string_len(class: Class, bytes: &[u8]) -> Option<usize>
    ensures value { result ≡ string_len (is_of class) bytes.now }
    ensures bound { IfSome result (λ n. n ≤ length bytes.now) }
{
    match bytes {
        [b'"', rest @ ..] => {
            let n = quoted_len(rest)?;
            Some(n + 1)
        }
        _ => {
            let n = run_len(class, bytes);
            if n == 0 { None } else { Some(n) }
        }
    }
}

/// A name or a pattern, and what follows it.
pub(crate) fn string_at(class: Class, bytes: &[u8]) -> Option<(Name<'_>, &[u8])>
    ensures { option_map (λ x. (x.0, x.1.now)) result ≡ string_at (is_of class) bytes.now }
{
    let (spelled, rest) = bytes.split_at(string_len(class, bytes)?);
    Some((Name::of(spelled), rest))
}
