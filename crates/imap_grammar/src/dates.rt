//! Days, as a search names them (RFC 9051, 9: date), and on which day a message was received.
//! What each answers is its namesake in specs. Where a message says its date is for `mail_date`.

ghost use Rattle.std.specs.Prelude.{◌≡◌};
ghost use Rattle.std.specs.Option.{option_map};
ghost use Rattle.mail_date.specs.Fields.{date_or};
ghost use Rattle.mail_date.specs.InternalBack.{four_at};
ghost use Rattle.imap_grammar.specs.Keys.{day_of, is_before, is_same_day};
ghost use Rattle.imap_grammar.specs.SearchReading.{date_at, date_in, if_date, quoted_date};

use envelope::past_byte;
use mail_date::{Stamp, day_at, month_at, received, two_at};

/// A day of a month of a year. Which months and days there are is for whoever makes one.
#[derive(Clone, Copy, Debug, PartialEq, Eq)]
pub struct Day {
    pub year: u16,
    /// 1 is January.
    pub month: u8,
    pub day: u8,
}

/// The day on which a message came, in the zone that its date has: of the date that came with it, or else of the one that its header says.
pub(crate) fn day_received(given: Option<Stamp>, text: &[u8]) -> Day
    ensures { result ≡ day_of (date_or given text.now) }
{
    let date = received(given, text);
    Day {
        year: date.year,
        month: date.month,
        day: date.day,
    }
}

pub(crate) fn is_same_day(a: Day, b: Day) -> bool
    ensures { result ≡ is_same_day a b }
{
    a.year == b.year && a.month == b.month && a.day == b.day
}

pub(crate) fn is_before(a: Day, b: Day) -> bool
    ensures { result ≡ is_before a b }
{
    a.year < b.year
        || (a.year == b.year && (a.month < b.month || (a.month == b.month && a.day < b.day)))
}

// A year by four digits.
fn year_at(bytes: &[u8]) -> Option<(u16, &[u8])>
    ensures { option_map (λ x. (x.0, x.1.now)) result ≡ four_at bytes.now }
{
    let (century, rest) = two_at(bytes)?;
    let (year, rest) = two_at(rest)?;
    Some((u16::from(century) * 100 + u16::from(year), rest))
}

fn date_at(bytes: &[u8]) -> Option<(Day, &[u8])>
    ensures { option_map (λ x. (x.0, x.1.now)) result ≡ date_at bytes.now }
{
    let (day, rest) = day_at(bytes)?;
    let rest = past_byte(b'-', rest)?;
    let (month, rest) = month_at(rest)?;
    let rest = past_byte(b'-', rest)?;
    let (year, rest) = year_at(rest)?;
    Some((Day { year, month, day }, rest))
}

// The day, if months have it and nothing follows.
fn if_date(day: Day, rest: &[u8]) -> Option<Day>
    ensures { result ≡ if_date (day, rest.now) }
{
    if 1 <= day.day && day.day <= 31 && rest.is_empty() {
        Some(day)
    } else {
        None
    }
}

// The day, from behind the quote that opens.
fn quoted_date(bytes: &[u8]) -> Option<Day>
    ensures { result ≡ quoted_date bytes.now }
{
    let (day, rest) = date_at(bytes)?;
    let rest = past_byte(b'"', rest)?;
    if_date(day, rest)
}

/// The day that a text says, between quotes or not.
#[tactic(auto, unfolding(crate::specs::SearchReading::date_in))]
pub(crate) fn date_in(text: &[u8]) -> Option<Day>
    ensures { result ≡ date_in text.now }
{
    match past_byte(b'"', text) {
        Some(start) => quoted_date(start),
        None => {
            let (day, rest) = date_at(text)?;
            if_date(day, rest)
        }
    }
}
