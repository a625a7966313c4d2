//! A date as IMAP's clients give it between quotes (RFC 9051, 9: date-time), read from left to right.
//! What each answers is its namesake in specs/InternalBack.antt. The quotes themselves are for the crates above.

ghost use Rattle.std.specs.Prelude.{◌≡◌};
ghost use Rattle.std.specs.Option.{option_map};
ghost use Rattle.mail_date.specs.InternalBack.{four_at, fixed_day_at, fixed_date_at, fixed_time_at, internal_date};

use crate::front::{month_at, one_at, past_byte, signed_at, two_at};
use crate::stamp::{Stamp, if_date};

/// The number that four digits say, and what follows them.
fn four_at(bytes: &[u8]) -> Option<(u16, &[u8])>
    ensures value { option_map (λ x. (x.0, x.1.now)) result ≡ four_at bytes.now }
{
    let (high, rest) = two_at(bytes)?;
    let (low, rest) = two_at(rest)?;
    Some((u16::from(high) * 100 + u16::from(low), rest))
}

/// A day in two digits, or in one behind a space, and what follows it.
fn fixed_day_at(bytes: &[u8]) -> Option<(u8, &[u8])>
    ensures value { option_map (λ x. (x.0, x.1.now)) result ≡ fixed_day_at bytes.now }
{
    match bytes {
        [b' ', rest @ ..] => one_at(rest),
        _ => two_at(bytes),
    }
}

/// Year, month and day, and what follows them.
fn fixed_date_at(bytes: &[u8]) -> Option<((u16, u8, u8), &[u8])>
    ensures value { option_map (λ x. ((x.0.0, x.0.1, x.0.2), x.1.now)) result
        ≡ fixed_date_at bytes.now }
{
    let (day, rest) = fixed_day_at(bytes)?;
    let rest = past_byte(b'-', rest)?;
    let (month, rest) = month_at(rest)?;
    let rest = past_byte(b'-', rest)?;
    let (year, rest) = four_at(rest)?;
    Some(((year, month, day), rest))
}

/// Hour, minute and second, and what follows them.
fn fixed_time_at(bytes: &[u8]) -> Option<((u8, u8, u8), &[u8])>
    ensures value { option_map (λ x. ((x.0.0, x.0.1, x.0.2), x.1.now)) result
        ≡ fixed_time_at bytes.now }
{
    let (hour, rest) = two_at(bytes)?;
    let rest = past_byte(b':', rest)?;
    let (minute, rest) = two_at(rest)?;
    let rest = past_byte(b':', rest)?;
    let (second, rest) = two_at(rest)?;
    Some(((hour, minute, second), rest))
}

/// The date and time that an APPEND gives, without its quotes (RFC 9051, 9: date-time): `17-Jul-1996 02:44:25 -0700`, and with a day of one digit
/// behind a space, ` 7-Feb-1994 21:52:25 -0800`. None for any other text, and for a day that the calendar, or a time that the clock hasn't.
#[tactic(auto, unfolding(crate::specs::InternalBack::internal_date))]
pub fn read_internal_date(text: &[u8]) -> Option<Stamp>
    ensures { result ≡ internal_date text.now }
{
    let ((year, month, day), rest) = fixed_date_at(text)?;
    let rest = past_byte(b' ', rest)?;
    let ((hour, minute, second), rest) = fixed_time_at(rest)?;
    let rest = past_byte(b' ', rest)?;
    let (zone, rest) = signed_at(rest)?;
    if !rest.is_empty() {
        return None;
    }
    if_date(Stamp {
        year,
        month,
        day,
        hour,
        minute,
        second,
        zone,
    })
}
