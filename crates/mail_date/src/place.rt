//! Whether a byte stands in a quoted string or in a comment (RFC 5322, sections 3.2.1, 3.2.2 and 3.2.4).
//! One step for one byte; whoever reads a text has the loop.

ghost use Rattle.std.specs.Prelude.{◌≡◌, ◌≤◌, ◌<◌, ◌+◌};
ghost use Rattle.mail_date.specs.Reading.{outside, is_outside, behind};

/// Where a byte stands: what is open before it.
#[derive(Clone, Copy)]
pub struct Place {
    /// In a quoted string.
    pub is_quoted: bool,
    /// Behind a backslash that quotes it.
    pub is_escaped: bool,
    /// In so many comments, one within the other.
    pub depth: usize,
}

/// Where nothing is open.
pub(crate) fn outside() -> Place
    ensures { result ≡ outside }
{
    Place {
        is_quoted: false,
        is_escaped: false,
        depth: 0,
    }
}

pub(crate) fn is_outside(place: Place) -> bool
    ensures { result ≡ is_outside place }
{
    !place.is_quoted && place.depth == 0
}

/// Where the next byte stands, behind this one.
pub(crate) fn behind(place: Place, b: u8) -> Place
    requires { place.depth < 0xffff_ffff_ffff_ffff }
    ensures value { result ≡ behind place b }
    ensures bound { result.depth ≤ place.depth + 1 }
{
    if place.is_escaped {
        Place {
            is_escaped: false,
            ..place
        }
    } else if b == b'\\' {
        Place {
            is_escaped: !is_outside(place),
            ..place
        }
    } else if place.is_quoted {
        Place {
            is_quoted: b != b'"',
            ..place
        }
    } else if b == b'(' {
        Place {
            depth: place.depth + 1,
            ..place
        }
    } else if b == b')' {
        Place {
            depth: place.depth.saturating_sub(1),
            ..place
        }
    } else {
        Place {
            is_quoted: place.depth == 0 && b == b'"',
            ..place
        }
    }
}
