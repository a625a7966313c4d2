//! Where a message's date stands: behind the last semicolon of the first field named Received, which is the last
//! that was written (RFC 5322, section 3.6.7). How a date is spelled is for `parts`; nothing is written here.

ghost use Rattle.std.specs.Prelude.{◌≡◌, ◌≤◌, ◌<◌, ◌+◌, length, IfSome, is_some, true, None, codes};
ghost use Rattle.std.specs.Option.{option_copied};
ghost use Rattle.mail_date.specs.Fields.{ends_field, field_len, is_empty_line, past_word, past_colon, past_name, received_body, last_semicolon, date_part, received_date, no_date, message_date, date_or};
ghost use Rattle.mail_date.specs.Reading.{outside};
ghost use Rattle.mail_date.specs.Bytes.{is_blank};
ghost use Rattle.mail_date.specs.Dates.{is_date};
ghost use Rattle.std.specs.List.{prefix_len};

use crate::front::{is_blank, past_byte};
use crate::parts::read_date_time;
use crate::place::{behind, is_outside, outside};
use crate::stamp::{Stamp, Zone, is_date};

/// Whether this byte, before these, is the LF that ends a field: no space or tab behind it folds the line (RFC 5322, section 2.2.3).
pub fn ends_field(b: u8, rest: &[u8]) -> bool
    ensures { result ≡ ends_field b rest.now }
{
    b == b'\n' && !matches!(rest, [b' ' | b'\t', ..])
}

/// How many bytes a field has before the LF that ends it, from wherever in the field the text begins.
#[tactic(auto, using(crate::proofs::Steps::field_step))]
pub fn field_len(bytes: &[u8]) -> usize
    ensures value { result ≡ field_len bytes.now }
    ensures bound { result ≤ length bytes.now }
{
    for (i, b) in bytes.iter().enumerate() {
        if ends_field(*b, &bytes[i + 1..]) {
            return i;
        }
    }
    bytes.len()
}

/// Whether a text begins with an empty line, by CRLF or LF. Such a line ends a header (RFC 5322, section 2.1).
pub fn is_empty_line(bytes: &[u8]) -> bool
    ensures { result ≡ is_empty_line bytes.now }
{
    matches!(bytes, [b'\n', ..] | [b'\r', b'\n', ..])
}

#[tactic(auto, using(crate::proofs::Steps::prefix_step))]
fn blanks_len(bytes: &[u8]) -> usize
    ensures value { result ≡ prefix_len is_blank bytes.now }
    ensures bound { result ≤ length bytes.now }
{
    for (i, b) in bytes.iter().enumerate() {
        if !is_blank(*b) {
            return i;
        }
    }
    bytes.len()
}

/// What follows this word, in upper or lower case.
#[tactic(auto, using(crate::proofs::Steps::shorter_differs))]
fn past_word<'a>(word: &[u8], bytes: &'a [u8]) -> Option<&'a [u8]>
    ensures value { option_copied result ≡ past_word word.now bytes.now }
{
    if bytes.len() < word.len() {
        return None;
    }
    let (front, rest) = bytes.split_at(word.len());
    if front.eq_ignore_ascii_case(word) {
        Some(rest)
    } else {
        None
    }
}

/// What follows a colon, with spaces and tabs before it or none (RFC 5322, section 4.5.3).
pub fn past_colon(bytes: &[u8]) -> Option<&[u8]>
    ensures value { option_copied result ≡ past_colon bytes.now }
{
    past_byte(b':', &bytes[blanks_len(bytes)..])
}

/// What follows this name and its colon.
fn past_name<'a>(name: &[u8], bytes: &'a [u8]) -> Option<&'a [u8]>
    ensures value { option_copied result ≡ past_name name.now bytes.now }
{
    let rest = past_word(name, bytes)?;
    past_colon(rest)
}

/// Whether a field of this name begins a text: the name in upper or lower case, spaces and tabs or none, and a colon (RFC 5322, section 4.5.3).
pub fn begins_field(name: &[u8], text: &[u8]) -> bool
    ensures { result ≡ is_some (past_name name.now text.now) }
{
    past_name(name, text).is_some()
}

/// The body of the first Received field.
#[tactic(auto, using(crate::proofs::Steps::body_step))]
fn received_body(text: &[u8]) -> Option<&[u8]>
    ensures value { option_copied result ≡ received_body true text.now }
{
    let mut starts = true;
    for (i, b) in text.iter().enumerate() {
        let here = &text[i..];
        if starts {
            if is_empty_line(here) {
                return None;
            }
            if let Some(body) = past_name(b"Received", here) {
                return Some(&body[..field_len(body)]);
            }
        }
        starts = ends_field(*b, &text[i + 1..]);
    }
    None
}

/// How many bytes stand before what follows the last semicolon outside quoted strings and comments.
#[tactic(auto, using(crate::proofs::Steps::semicolon_step))]
fn last_semicolon(body: &[u8]) -> Option<usize>
    ensures value { result ≡ last_semicolon outside 0 None body.now }
    ensures bound { IfSome result (λ n. n ≤ length body.now) }
{
    let mut place = outside();
    let mut found = None;
    for (i, b) in body.iter().enumerate() {
        if is_outside(place) && *b == b';' {
            found = Some(i + 1);
        }
        place = behind(place, *b);
    }
    found
}

fn date_part(body: &[u8]) -> Option<&[u8]>
    ensures value { option_copied result ≡ date_part body.now }
{
    let n = last_semicolon(body)?;
    Some(&body[n..])
}

/// The date that the first Received field of a header says behind its last semicolon. `None` where there is no such
/// field, or no date of the calendar and the clock in it; then no later field is tried.
#[tactic(auto, unfolding(crate::specs::Fields::received_date))]
fn received_date(text: &[u8]) -> Option<Stamp>
    ensures value { result ≡ received_date text.now }
    ensures date { IfSome result (λ s. is_date s ≡ true) }
{
    let body = received_body(text)?;
    let part = date_part(body)?;
    read_date_time(part)
}

/// 01-Jan-1970 00:00:00 +0000.
fn no_date() -> Stamp
    ensures { result ≡ no_date }
{
    let zone = Zone {
        is_west: false,
        hours: 0,
        minutes: 0,
    };
    Stamp {
        year: 1970,
        month: 1,
        day: 1,
        hour: 0,
        minute: 0,
        second: 0,
        zone,
    }
}

/// The date of a message, which IMAP tells as INTERNALDATE: what the first Received field of its header says behind
/// its last semicolon (RFC 5322, sections 3.3 and 3.6.7), with the zone in which it stands there. Where there is no
/// such field, or no date of the calendar and the clock in it, it is 01-Jan-1970 00:00:00 +0000. No clock is asked:
/// a text has one date for ever. The answer can always be written.
#[tactic(auto, unfolding(crate::specs::Fields::message_date))]
pub fn message_date(text: &[u8]) -> Stamp
    ensures value { result ≡ message_date text.now }
    ensures date { is_date result ≡ true }
{
    match received_date(text) {
        Some(stamp) => stamp,
        None => no_date(),
    }
}

/// The date of a message that came with this date, or with none (RFC 9051, section 2.3.3): the one that it came with, where the calendar and the
/// clock have it, or else `message_date`, for which alone the text is read. The answer can always be written.
pub fn received(given: Option<Stamp>, text: &[u8]) -> Stamp
    ensures value { result ≡ date_or given text.now }
    ensures date { is_date result ≡ true }
{
    let Some(date) = given else {
        return message_date(text);
    };
    if is_date(&date) {
        date
    } else {
        message_date(text)
    }
}
