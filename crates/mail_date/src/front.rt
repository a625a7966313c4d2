//! What stands at the front of a text: each function takes one mark, number, word or zone, and answers the bytes
//! after it. What each answers is its namesake in specs/Reading.antt. What makes a date of them is for `parts`.

ghost use Rattle.std.specs.Prelude.{◌≡◌, ◌≤◌, ◌<◌, ◌+◌, length, IfSome};
ghost use Rattle.std.specs.List.{prefix_len};
ghost use Rattle.std.specs.Option.{option_copied, option_map};
ghost use Rattle.mail_date.specs.Bytes.{is_digit, is_letter, is_blank, is_white};
ghost use Rattle.mail_date.specs.Dates.{month_of, zone_of, offset};
ghost use Rattle.mail_date.specs.Reading.{outside, blank_len, past_byte, past_blank, past_gap, past_mark, one_at, two_at, word_at, month_at, day_at, year_at, signed_at, offset_at, named_at, zone_at};

use crate::place::{behind, outside};
use crate::stamp::Zone;

pub(crate) fn is_blank(b: u8) -> bool
    ensures { result ≡ is_blank b }
{
    b == b' ' || b == b'\t'
}

fn is_white(b: u8) -> bool
    ensures { result ≡ is_white b }
{
    is_blank(b) || b == b'\r' || b == b'\n'
}

fn is_letter(b: u8) -> bool
    ensures { result ≡ is_letter b }
{
    matches!(b, b'A'..=b'Z' | b'a'..=b'z')
}

/// How many bytes of white space and comments are at the front; `None` where a comment doesn't end.
#[tactic(auto, using(crate::proofs::Steps::blank_step))]
fn blank_len(bytes: &[u8]) -> Option<usize>
    ensures value { result ≡ blank_len outside bytes.now }
    ensures bound { IfSome result (λ n. n ≤ length bytes.now) }
{
    let mut place = outside();
    for (i, b) in bytes.iter().enumerate() {
        if place.depth == 0 && !is_white(*b) && *b != b'(' {
            return Some(i);
        }
        place = behind(place, *b);
    }
    if place.depth == 0 {
        Some(bytes.len())
    } else {
        None
    }
}

/// What follows this byte.
pub(crate) fn past_byte(b: u8, bytes: &[u8]) -> Option<&[u8]>
    ensures value { option_copied result ≡ past_byte b bytes.now }
    ensures bound { IfSome result (λ rest. length rest.now < length bytes.now) }
{
    match bytes {
        [first, rest @ ..] if *first == b => Some(rest),
        _ => None,
    }
}

/// What follows white space and comments, if there are any.
pub(crate) fn past_blank(bytes: &[u8]) -> Option<&[u8]>
    ensures value { option_copied result ≡ past_blank bytes.now }
{
    let n = blank_len(bytes)?;
    Some(&bytes[n..])
}

/// What follows white space and comments that must be there.
pub(crate) fn past_gap(bytes: &[u8]) -> Option<&[u8]>
    ensures value { option_copied result ≡ past_gap bytes.now }
{
    let n = blank_len(bytes)?;
    if n == 0 { None } else { Some(&bytes[n..]) }
}

/// What follows this byte, and what is blank before and behind it.
pub(crate) fn past_mark(b: u8, bytes: &[u8]) -> Option<&[u8]>
    ensures value { option_copied result ≡ past_mark b bytes.now }
{
    let start = past_blank(bytes)?;
    let rest = past_byte(b, start)?;
    past_blank(rest)
}

/// The number that one digit says, and what follows it.
pub(crate) fn one_at(bytes: &[u8]) -> Option<(u8, &[u8])>
    ensures value { option_map (λ x. (x.0, x.1.now)) result ≡ one_at bytes.now }
    ensures bound { IfSome result (λ x. x.0 ≤ 9) }
{
    match bytes {
        [a, rest @ ..] if b'0' <= *a && *a <= b'9' => Some((*a - b'0', rest)),
        _ => None,
    }
}

/// The number that two digits say, and what follows them.
pub fn two_at(bytes: &[u8]) -> Option<(u8, &[u8])>
    ensures value { option_map (λ x. (x.0, x.1.now)) result ≡ two_at bytes.now }
    ensures bound { IfSome result (λ x. x.0 ≤ 99) }
{
    let (a, rest) = one_at(bytes)?;
    let (b, rest) = one_at(rest)?;
    Some((a * 10 + b, rest))
}

/// How many letters are at the front.
#[tactic(auto, using(crate::proofs::Steps::prefix_step))]
fn letters_len(bytes: &[u8]) -> usize
    ensures value { result ≡ prefix_len is_letter bytes.now }
    ensures bound { result ≤ length bytes.now }
{
    for (i, b) in bytes.iter().enumerate() {
        if !is_letter(*b) {
            return i;
        }
    }
    bytes.len()
}

/// The letters at the front, and what follows them.
pub(crate) fn word_at(bytes: &[u8]) -> (&[u8], &[u8])
    ensures value { (result.0.now, result.1.now) ≡ word_at bytes.now }
{
    bytes.split_at(letters_len(bytes))
}

/// 1 for Jan, in upper or lower case.
fn month_of(word: &[u8]) -> Option<u8>
    ensures { result ≡ month_of word.now }
{
    if word.eq_ignore_ascii_case(b"Jan") {
        Some(1)
    } else if word.eq_ignore_ascii_case(b"Feb") {
        Some(2)
    } else if word.eq_ignore_ascii_case(b"Mar") {
        Some(3)
    } else if word.eq_ignore_ascii_case(b"Apr") {
        Some(4)
    } else if word.eq_ignore_ascii_case(b"May") {
        Some(5)
    } else if word.eq_ignore_ascii_case(b"Jun") {
        Some(6)
    } else if word.eq_ignore_ascii_case(b"Jul") {
        Some(7)
    } else if word.eq_ignore_ascii_case(b"Aug") {
        Some(8)
    } else if word.eq_ignore_ascii_case(b"Sep") {
        Some(9)
    } else if word.eq_ignore_ascii_case(b"Oct") {
        Some(10)
    } else if word.eq_ignore_ascii_case(b"Nov") {
        Some(11)
    } else if word.eq_ignore_ascii_case(b"Dec") {
        Some(12)
    } else {
        None
    }
}

/// The month of a name, and what follows it.
pub fn month_at(bytes: &[u8]) -> Option<(u8, &[u8])>
    ensures value { option_map (λ x. (x.0, x.1.now)) result ≡ month_at bytes.now }
{
    let (word, rest) = word_at(bytes);
    let n = month_of(word)?;
    Some((n, rest))
}

/// A day in one digit or two, and what follows it.
pub fn day_at(bytes: &[u8]) -> Option<(u8, &[u8])>
    ensures value { option_map (λ x. (x.0, x.1.now)) result ≡ day_at bytes.now }
{
    let (a, rest) = one_at(bytes)?;
    match one_at(rest) {
        Some((b, rest)) => Some((a * 10 + b, rest)),
        None => Some((a, rest)),
    }
}

/// A year in two to four digits, and what follows it.
pub(crate) fn year_at(bytes: &[u8]) -> Option<(u16, &[u8])>
    ensures value { option_map (λ x. (x.0, x.1.now)) result ≡ year_at bytes.now }
{
    let (two, rest) = two_at(bytes)?;
    let two = u16::from(two);
    let Some((c, rest)) = one_at(rest) else {
        let year = if two < 50 { 2000 + two } else { 1900 + two };
        return Some((year, rest));
    };
    let three = two * 10 + u16::from(c);
    let Some((d, rest)) = one_at(rest) else {
        return Some((1900 + three, rest));
    };
    let four = three * 10 + u16::from(d);
    if 1900 <= four {
        Some((four, rest))
    } else {
        None
    }
}

fn offset_at(is_west: bool, bytes: &[u8]) -> Option<(Zone, &[u8])>
    ensures value { option_map (λ x. (x.0, x.1.now)) result ≡ offset_at is_west bytes.now }
{
    let (hours, rest) = two_at(bytes)?;
    let (minutes, rest) = two_at(rest)?;
    Some((
        Zone {
            is_west,
            hours,
            minutes,
        },
        rest,
    ))
}

/// A sign and four digits, and what follows them.
pub(crate) fn signed_at(bytes: &[u8]) -> Option<(Zone, &[u8])>
    ensures value { option_map (λ x. (x.0, x.1.now)) result ≡ signed_at bytes.now }
{
    match bytes {
        [b'+', rest @ ..] => offset_at(false, rest),
        [b'-', rest @ ..] => offset_at(true, rest),
        _ => None,
    }
}

fn offset(is_west: bool, hours: u8) -> Zone
    ensures { result ≡ offset is_west hours 0 }
{
    Zone {
        is_west,
        hours,
        minutes: 0,
    }
}

/// The zone that a name says; names that aren't known say nothing of a zone.
fn zone_of(word: &[u8]) -> Option<Zone>
    ensures { result ≡ zone_of word.now }
{
    if word.eq_ignore_ascii_case(b"UT") || word.eq_ignore_ascii_case(b"GMT") {
        Some(offset(false, 0))
    } else if word.eq_ignore_ascii_case(b"EDT") {
        Some(offset(true, 4))
    } else if word.eq_ignore_ascii_case(b"EST") || word.eq_ignore_ascii_case(b"CDT") {
        Some(offset(true, 5))
    } else if word.eq_ignore_ascii_case(b"CST") || word.eq_ignore_ascii_case(b"MDT") {
        Some(offset(true, 6))
    } else if word.eq_ignore_ascii_case(b"MST") || word.eq_ignore_ascii_case(b"PDT") {
        Some(offset(true, 7))
    } else if word.eq_ignore_ascii_case(b"PST") {
        Some(offset(true, 8))
    } else if word.eq_ignore_ascii_case(b"J") || word.is_empty() {
        None
    } else {
        Some(offset(true, 0))
    }
}

fn named_at(bytes: &[u8]) -> Option<(Zone, &[u8])>
    ensures value { option_map (λ x. (x.0, x.1.now)) result ≡ named_at bytes.now }
{
    let (word, rest) = word_at(bytes);
    let zone = zone_of(word)?;
    Some((zone, rest))
}

/// A zone, and what follows it.
pub(crate) fn zone_at(bytes: &[u8]) -> Option<(Zone, &[u8])>
    ensures value { option_map (λ x. (x.0, x.1.now)) result ≡ zone_at bytes.now }
{
    match bytes {
        [b'+' | b'-', ..] => signed_at(bytes),
        _ => named_at(bytes),
    }
}
