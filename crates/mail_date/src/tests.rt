//! Each public call where all goes well, and messages that say no date. The dates are those of RFC 5322 and RFC 3501.

use crate::{
    Stamp, Zone, day_at, internal_date, message_date, month_at, read_internal_date, two_at,
};

// The example of APPEND (RFC 3501, section 6.3.11), as Postfix would have stamped it.
const STAMPED: &[u8] =
    b"Return-Path: <foobar@Blurdybloop.example>\r\nReceived: from mail.blurdybloop.example (mail.blurdybloop.example [192.0.2.7])\r\n\tby owatagu.example (Postfix) with ESMTP id 4XyZ1b2c3dz1\r\n\tfor <mooch@owatagu.example>; Mon,  7 Feb 1994 21:52:25 -0800 (PST)\r\nReceived: by localhost; Mon, 7 Feb 1994 21:50:00 -0800\r\nSubject: afternoon meeting\r\n\r\nHello Joe\r\n";

// Its date.
const AFTERNOON: Stamp = Stamp {
    year: 1994,
    month: 2,
    day: 7,
    hour: 21,
    minute: 52,
    second: 25,
    zone: Zone {
        is_west: true,
        hours: 8,
        minutes: 0,
    },
};

#[test]
fn a_relay_has_dated_its_message(rt: HostRuntime) {
    assert_eq!(rt; message_date(STAMPED), AFTERNOON);
}

#[test]
fn a_date_is_written_as_imap_has_it(rt: HostRuntime) {
    assert_eq!(rt;
        internal_date(&message_date(STAMPED)),
        *b"07-Feb-1994 21:52:25 -0800"
    );
}

#[test]
fn a_message_without_a_date_has_the_first_day(rt: HostRuntime) {
    let none = message_date(b"Date: Mon, 7 Feb 1994 21:52:25 -0800\r\n\r\nHello\r\n");
    assert_eq!(rt; internal_date(&none), *b"01-Jan-1970 00:00:00 +0000");
    let bad = message_date(b"Received: by x; 30 Feb 1994 21:52:25 -0800\r\n\r\n");
    assert_eq!(rt; internal_date(&bad), *b"01-Jan-1970 00:00:00 +0000");
}

#[test]
fn parts_of_a_date_are_read(rt: HostRuntime) {
    assert_eq!(rt; day_at(b"7-Feb-1994"), Some((7, b"-Feb-1994".as_slice())));
    assert_eq!(rt; month_at(b"feb-1994"), Some((2, b"-1994".as_slice())));
    assert_eq!(rt; two_at(b"1994"), Some((19, b"94".as_slice())));
}

fn given(text: &[u8]) -> Option<Stamp> {
    read_internal_date(text)
}

// The second is the example of FETCH (RFC 9051, section 8).
#[test]
fn a_date_that_a_client_gives_is_read(rt: HostRuntime) {
    let fetched = Stamp {
        year: 1996,
        month: 7,
        day: 17,
        hour: 2,
        minute: 44,
        second: 25,
        zone: Zone {
            is_west: true,
            hours: 7,
            minutes: 0,
        },
    };
    assert_eq!(rt; given(b" 7-Feb-1994 21:52:25 -0800"), Some(AFTERNOON));
    assert_eq!(rt; given(b"07-Feb-1994 21:52:25 -0800"), Some(AFTERNOON));
    assert_eq!(rt; given(b"17-Jul-1996 02:44:25 -0700"), Some(fetched));
    assert_eq!(rt; given(b"7-Feb-1994 21:52:25 -0800"), None);
    assert_eq!(rt; given(b"30-Feb-1994 21:52:25 -0800"), None);
    assert_eq!(rt; given(b"17-Jul-1996 02:44:25 -0700 "), None);
    assert_eq!(rt;
        read_internal_date(b" 7-Feb-1994 21:52:25 -0800"),
        read_internal_date(b"07-Feb-1994 21:52:25 -0800")
    );
}
