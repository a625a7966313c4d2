//! A date and its parts (RFC 5322, sections 3.3 and 4.3), read from left to right.
//! What each answers is its namesake in specs/Reading.antt. No field of a header is known here.

ghost use Rattle.std.specs.Prelude.{◌≡◌, true, IfSome};
ghost use Rattle.std.specs.Option.{option_copied, option_map};
ghost use Rattle.mail_date.specs.Dates.{is_among, day_names, is_date};
ghost use Rattle.mail_date.specs.Reading.{past_day_name, behind_colon, second_at, date_at, time_at, checked, if_ended, date_time};

use crate::front::{
    day_at, month_at, past_blank, past_byte, past_gap, past_mark, two_at, word_at, year_at, zone_at,
};
use crate::stamp::{Stamp, Zone, is_date};

fn is_day_name(word: &[u8]) -> bool
    ensures { result ≡ is_among day_names word.now }
{
    word.eq_ignore_ascii_case(b"Mon")
        || word.eq_ignore_ascii_case(b"Tue")
        || word.eq_ignore_ascii_case(b"Wed")
        || word.eq_ignore_ascii_case(b"Thu")
        || word.eq_ignore_ascii_case(b"Fri")
        || word.eq_ignore_ascii_case(b"Sat")
        || word.eq_ignore_ascii_case(b"Sun")
}

/// What follows the name of a day and its comma, if a name is there.
fn past_day_name(bytes: &[u8]) -> Option<&[u8]>
    ensures value { option_copied result ≡ past_day_name bytes.now }
{
    let (word, rest) = word_at(bytes);
    if word.is_empty() {
        return Some(bytes);
    }
    if is_day_name(word) {
        past_mark(b',', rest)
    } else {
        None
    }
}

/// A second behind its colon, and what follows, blanks left out.
fn behind_colon(bytes: &[u8]) -> Option<(u8, &[u8])>
    ensures value { option_map (λ x. (x.0, x.1.now)) result ≡ behind_colon bytes.now }
{
    let digits = past_blank(bytes)?;
    let (second, rest) = two_at(digits)?;
    let rest = past_blank(rest)?;
    Some((second, rest))
}

/// A second behind its colon, or 0 where no colon is; and what follows, blanks left out.
fn second_at(bytes: &[u8]) -> Option<(u8, &[u8])>
    ensures value { option_map (λ x. (x.0, x.1.now)) result ≡ second_at bytes.now }
{
    let start = past_blank(bytes)?;
    match past_byte(b':', start) {
        Some(rest) => behind_colon(rest),
        None => Some((0, start)),
    }
}

/// Year, month and day, and what follows them.
fn date_at(bytes: &[u8]) -> Option<((u16, u8, u8), &[u8])>
    ensures value { option_map (λ x. ((x.0.0, x.0.1, x.0.2), x.1.now)) result ≡ date_at bytes.now }
{
    let (day, rest) = day_at(bytes)?;
    let rest = past_blank(rest)?;
    let (month, rest) = month_at(rest)?;
    let rest = past_blank(rest)?;
    let (year, rest) = year_at(rest)?;
    let rest = past_gap(rest)?;
    Some(((year, month, day), rest))
}

/// Hour, minute and second, and what follows them.
fn time_at(bytes: &[u8]) -> Option<((u8, u8, u8), &[u8])>
    ensures value { option_map (λ x. ((x.0.0, x.0.1, x.0.2), x.1.now)) result ≡ time_at bytes.now }
{
    let (hour, rest) = two_at(bytes)?;
    let rest = past_mark(b':', rest)?;
    let (minute, rest) = two_at(rest)?;
    let (second, rest) = second_at(rest)?;
    Some(((hour, minute, second), rest))
}

/// The date, if the calendar and the clock have it.
fn checked(stamp: Stamp) -> Option<Stamp>
    ensures value { result ≡ checked stamp }
    ensures date { IfSome result (λ s. is_date s ≡ true) }
{
    if is_date(&stamp) { Some(stamp) } else { None }
}

/// The date, if nothing follows.
fn if_ended(rest: &[u8], stamp: Stamp) -> Option<Stamp>
    ensures value { result ≡ if_ended rest.now stamp }
    ensures date { IfSome result (λ s. is_date s ≡ true) }
{
    if rest.is_empty() {
        checked(stamp)
    } else {
        None
    }
}

/// The date that a text says, and nothing else but white space and comments.
#[tactic(auto, unfolding(crate::specs::Reading::date_time))]
pub(crate) fn read_date_time(text: &[u8]) -> Option<Stamp>
    // It is what the written grammar says of the text (the laws of this crate), and a date that can be written.
    ensures value { result ≡ date_time text.now }
    ensures date { IfSome result (λ s. is_date s ≡ true) }
{
    let rest = past_blank(text)?;
    let rest = past_day_name(rest)?;
    let ((year, month, day), rest) = date_at(rest)?;
    let ((hour, minute, second), rest) = time_at(rest)?;
    let (zone, rest) = zone_at(rest)?;
    let rest = past_blank(rest)?;
    let stamp = Stamp {
        year,
        month,
        day,
        hour,
        minute,
        second,
        zone,
    };
    if_ended(rest, stamp)
}
