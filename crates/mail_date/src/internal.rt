//! A date as IMAP writes it between quotes (RFC 9051, date-time).
//! The quotes themselves, and what stands around them, are for the crates above. Nothing is read here.

ghost use Rattle.std.specs.Prelude.{◌≡◌, ◌≤◌, ◌<◌, ◌∷◌, ◌++◌, if◌then◌else◌, true, length};
ghost use Rattle.mail_date.specs.Dates.{month_names, is_date};
ghost use Rattle.mail_date.specs.Internal.{digit, two_digits, four_digits, date_text, time_text, internal_text, name_at};

use crate::stamp::Stamp;

fn digit(n: u8) -> u8
    requires { n < 10 }
    ensures { result ≡ digit n }
{
    b'0' + n
}

fn two_digits(n: u8) -> [u8; 2]
    requires { n ≤ 99 }
    ensures { result ≡ two_digits n }
{
    [digit(n / 10), digit(n % 10)]
}

fn name_of(month: u8) -> [u8; 3]
    requires low { 1 ≤ month }
    requires high { month ≤ 12 }
    ensures { result ≡ name_at month month_names }
{
    match month {
        1 => *b"Jan",
        2 => *b"Feb",
        3 => *b"Mar",
        4 => *b"Apr",
        5 => *b"May",
        6 => *b"Jun",
        7 => *b"Jul",
        8 => *b"Aug",
        9 => *b"Sep",
        10 => *b"Oct",
        11 => *b"Nov",
        _ => *b"Dec",
    }
}

fn four_digits(n: u16) -> [u8; 4]
    requires { n ≤ 9999 }
    ensures { result ≡ four_digits n }
{
    let high = (n / 100) as u8;
    let low = (n % 100) as u8;
    [
        digit(high / 10),
        digit(high % 10),
        digit(low / 10),
        digit(low % 10),
    ]
}

fn sign(is_west: bool) -> u8
    ensures { result ≡ (if is_west then 45 else 43) }
{
    if is_west { b'-' } else { b'+' }
}

fn date_bytes(stamp: &Stamp) -> [u8; 11]
    requires date { is_date stamp.now ≡ true }
    ensures value { result ≡ date_text stamp.now }
    ensures len { length result ≡ 11 }
{
    let day = two_digits(stamp.day);
    let month = name_of(stamp.month);
    let year = four_digits(stamp.year);
    [
        day[0], day[1], b'-', month[0], month[1], month[2], b'-', year[0], year[1], year[2],
        year[3],
    ]
}

fn time_bytes(stamp: &Stamp) -> [u8; 8]
    requires date { is_date stamp.now ≡ true }
    ensures { result ≡ time_text stamp.now }
{
    let hour = two_digits(stamp.hour);
    let minute = two_digits(stamp.minute);
    let second = two_digits(stamp.second);
    [
        hour[0], hour[1], b':', minute[0], minute[1], b':', second[0], second[1],
    ]
}

fn zone_bytes(stamp: &Stamp) -> [u8; 5]
    requires date { is_date stamp.now ≡ true }
    ensures { result ≡ (if stamp.now.zone.is_west then 45 else 43)
        ∷ two_digits stamp.now.zone.hours ++ two_digits stamp.now.zone.minutes }
{
    let hours = two_digits(stamp.zone.hours);
    let minutes = two_digits(stamp.zone.minutes);
    [
        sign(stamp.zone.is_west),
        hours[0],
        hours[1],
        minutes[0],
        minutes[1],
    ]
}

/// A date as IMAP writes it, without its quotes: `07-Feb-1994 21:52:25 -0800` (RFC 9051, date-time). Day, hour, minute and second have two digits
/// always, the year four, and an unknown zone is `-0000`.
pub fn internal_date(stamp: &Stamp) -> [u8; 26]
    requires date { is_date stamp.now ≡ true }
    ensures { result ≡ internal_text stamp.now }
{
    let [d0, d1, d2, d3, d4, d5, d6, d7, d8, d9, d10] = date_bytes(stamp);
    let [t0, t1, t2, t3, t4, t5, t6, t7] = time_bytes(stamp);
    let [z0, z1, z2, z3, z4] = zone_bytes(stamp);
    [
        d0, d1, d2, d3, d4, d5, d6, d7, d8, d9, d10, b' ', t0, t1, t2, t3, t4, t5, t6, t7, b' ',
        z0, z1, z2, z3, z4,
    ]
}
