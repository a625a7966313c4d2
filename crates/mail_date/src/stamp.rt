//! What a date is, as plain data, and which dates the calendar and the clock have.
//! No text is read or written here.

ghost use Rattle.std.specs.Prelude.{◌≡◌, ◌≤◌, true, Some, None, if◌then◌else◌};
ghost use Rattle.mail_date.specs.Dates.{is_leap, days_of, is_date};

/// How far a clock was from UTC (RFC 5322, section 3.3). West of it by nothing, which is written -0000, says that
/// this isn't known; east of it by nothing, +0000, is UTC.
#[derive(Clone, Copy, Debug, PartialEq, Eq)]
pub struct Zone {
    /// Behind UTC, which is written `-`.
    pub is_west: bool,
    /// 0 to 99: two digits can say no more.
    pub hours: u8,
    /// 0 to 59.
    pub minutes: u8,
}

/// A day and its time of day, as whoever wrote them had them: they are not turned into another zone. What
/// `message_date` answers is a date of the calendar and the clock (`is_date` of specs/Dates.antt), and only such a
/// date may be written.
#[derive(Clone, Copy, Debug, PartialEq, Eq)]
pub struct Stamp {
    /// 0 to 9999.
    pub year: u16,
    /// 1 to 12: 1 is January.
    pub month: u8,
    /// 1 to as many days as the month has in this year.
    pub day: u8,
    /// 0 to 23.
    pub hour: u8,
    /// 0 to 59.
    pub minute: u8,
    /// 0 to 59: a leap second is no date here.
    pub second: u8,
    pub zone: Zone,
}

fn is_leap(year: u16) -> bool
    ensures { result ≡ is_leap year }
{
    year % 4 == 0 && (year % 100 != 0 || year % 400 == 0)
}

fn days_of(year: u16, month: u8) -> u8
    ensures { result ≡ days_of year month }
{
    if month == 2 {
        if is_leap(year) { 29 } else { 28 }
    } else if month == 4 || month == 6 || month == 9 || month == 11 {
        30
    } else {
        31
    }
}

/// Whether the calendar has the day and a clock the time; the year has four digits at most, and the zone
/// is within 99 hours and 59 minutes.
pub(crate) fn is_date(stamp: &Stamp) -> bool
    ensures { result ≡ is_date stamp.now }
{
    stamp.year <= 9999
        && 1 <= stamp.month
        && stamp.month <= 12
        && 1 <= stamp.day
        && stamp.day <= days_of(stamp.year, stamp.month)
        && stamp.hour <= 23
        && stamp.minute <= 59
        && stamp.second <= 59
        && stamp.zone.hours <= 99
        && stamp.zone.minutes <= 59
}

/// The date, where the calendar and the clock have it.
pub(crate) fn if_date(stamp: Stamp) -> Option<Stamp>
    ensures { result ≡ (if is_date stamp then Some stamp else None) }
{
    if is_date(&stamp) { Some(stamp) } else { None }
}
