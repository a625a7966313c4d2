//! The response of AUTHENTICATE PLAIN (RFC 4616): whose it is. The password in it isn't looked at.
//! The definition is specs/Plain.antt.

ghost use Rattle.std.specs.Prelude.{◌≡◌, ◌<◌, ◌≤◌, length, is_some, take, Some, None, IfSome};
ghost use Rattle.std.specs.Option.{option_map};
ghost use Rattle.imap_session.specs.Plain.{decoded, most_decoded, is_from, is_plain, is_response_of, plain_in, plain_of};

use base64::engine::general_purpose::STANDARD;
use imap_grammar::{Authenticate, Word, cut_at};

/// A response has at most so many bytes once it is decoded.
const MOST_DECODED: usize = 1_026;

/// Whether it is the mechanism PLAIN.
pub(crate) fn is_plain(mechanism: &[u8]) -> bool
    ensures { result ≡ is_plain mechanism.now }
{
    mechanism.eq_ignore_ascii_case(b"PLAIN")
}

// Whether a message is this user's; None where it isn't one of PLAIN.
fn message_is_from(user: &[u8], message: &[u8]) -> Option<bool>
    ensures { result ≡ option_map (λ plain. is_from user.now (Some plain)) (plain_of message.now) }
{
    let (acts_for, rest) = cut_at(0, message)?;
    let (name, _) = cut_at(0, rest)?;
    Some(name == user && (acts_for.is_empty() || acts_for == user))
}

// Where a response is decoded.
fn room() -> [u8; MOST_DECODED] {
    [0; MOST_DECODED]
}

// The bytes that a text is in base64.
fn decoded<'b>(text: &[u8], room: &'b mut [u8]) -> Option<&'b [u8]>
    requires room { length room.old ≡ most_decoded }
    ensures { option_map (λ b. b.now) result ≡ decoded text.now }
{
    let Ok(n) = STANDARD.decode_slice(text, room) else {
        return None;
    };
    Some(&room[..n])
}

// Whether a response is this user's; None where there is none, or it isn't one of PLAIN.
fn is_from(user: &[u8], initial: &Option<Word<'_>>) -> Option<bool>
    ensures { result ≡ option_map (λ plain. is_from user.now (Some plain)) (plain_in initial.now) }
{
    match initial {
        None => None,
        Some(text) => {
            let mut room = room();
            let message = decoded(text.as_bytes(), &mut room)?;
            message_is_from(user, message)
        }
    }
}

/// Whether a client authenticates as this user.
pub(crate) fn is_response_of(user: &[u8], asked: &Authenticate<'_>) -> bool
    ensures { result ≡ is_response_of user.now asked.now }
{
    is_plain(asked.mechanism.as_bytes()) && matches!(is_from(user, &asked.initial), Some(true))
}

/// Whether there is a response, and it is one of PLAIN.
pub(crate) fn has_response(asked: &Authenticate<'_>) -> bool
    ensures { result ≡ is_some (plain_in asked.now.initial) }
{
    is_from(b"", &asked.initial).is_some()
}
