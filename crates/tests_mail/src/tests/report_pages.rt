//! What is asked, and what is answered, byte by byte. What is expected was worked out by hand, from RFC 9110, RFC 9112 and the page of
//! Prometheus' text format.

use crate::tests::sending::Failing;
use server_report::{
    Answer, Connection, Counts, Front, Heard, MailboxFigures, MailboxRow, PeerState, ReadFault,
    Refused, Reply, Session, Snapshot, Unsent, hear, read_request, tell, write_answer,
    write_metrics, write_page,
};
use std::alloc::{AllocError, Global};
use std::io;
use std::io::{Error, ErrorKind, Read};

const COUNTS: Counts = Counts {
    messages: 3,
    stored: 4,
    refused: Refused {
        mailbox_full: 1,
        shard_full: 0,
        shard_closed: 2,
        uids_spent: 0,
        no_memory: 5,
    },
    connections: 7,
    sessions: 8,
    lost: 9,
};

const CONNECTIONS: &[Connection] = &[
    Connection {
        number: 12,
        state: PeerState::Talking,
    },
    Connection {
        number: 13,
        state: PeerState::Leaving,
    },
];

const SESSIONS: &[Session<'static>] = &[Session {
    user: b"a<b",
    number: 1,
    state: PeerState::Idling,
}];

const MAILBOXES: &[MailboxRow<'static>] = &[
    MailboxRow {
        user: b"alice",
        folder: None,
        figures: MailboxFigures {
            messages: 2,
            unseen: 1,
            bytes: 2_180,
            uid_next: 8,
        },
    },
    MailboxRow {
        user: b"o'hara",
        folder: Some(b"R&D \"x\\y\""),
        figures: MailboxFigures {
            messages: 0,
            unseen: 0,
            bytes: 340_282_366_920_938_463_463_374_607_431_768_211_455,
            uid_next: 4_294_967_295,
        },
    },
];

fn full() -> Snapshot<'static> {
    Snapshot {
        counts: COUNTS,
        connections: CONNECTIONS,
        sessions: SESSIONS,
        mailboxes: MAILBOXES,
    }
}

fn empty() -> Snapshot<'static> {
    Snapshot {
        counts: COUNTS,
        connections: &[],
        sessions: &[],
        mailboxes: &[],
    }
}

const fn with_body(answer: Answer) -> Reply {
    Reply {
        answer,
        has_body: true,
    }
}

const fn without_body(answer: Answer) -> Reply {
    Reply {
        answer,
        has_body: false,
    }
}

#[test]
fn each_request_is_answered_as_its_method_and_path_say(rt: HostRuntime) {
    let cases = [
        (
            b"GET / HTTP/1.1\r\nHost: localhost\r\n\r\n".as_slice(),
            Front::Whole(with_body(Answer::Page)),
        ),
        (
            b"HEAD / HTTP/1.0\r\n\r\n".as_slice(),
            Front::Whole(without_body(Answer::Page)),
        ),
        (
            b"GET /metrics HTTP/1.0\r\n\r\nmore".as_slice(),
            Front::Whole(with_body(Answer::Metrics)),
        ),
        (
            b"GET /metrics?name[]=x HTTP/1.0\r\n\r\n".as_slice(),
            Front::Whole(with_body(Answer::Metrics)),
        ),
        (
            b"HEAD /metrics HTTP/1.0\r\n\r\n".as_slice(),
            Front::Whole(without_body(Answer::Metrics)),
        ),
        (
            b"GET /? HTTP/1.0\n\n".as_slice(),
            Front::Whole(with_body(Answer::Page)),
        ),
        (
            b"GET /metrics/ HTTP/1.0\r\n\r\n".as_slice(),
            Front::Whole(with_body(Answer::Unknown)),
        ),
        (b"GET //  HTTP/1.0\r\n\r\n".as_slice(), Front::Never),
        (
            b"HEAD /x HTTP/1.0\r\n\r\n".as_slice(),
            Front::Whole(without_body(Answer::Unknown)),
        ),
        (
            b"POST /x HTTP/1.0\r\n\r\n".as_slice(),
            Front::Whole(with_body(Answer::Unknown)),
        ),
        (
            b"POST / HTTP/1.0\r\n\r\n".as_slice(),
            Front::Whole(with_body(Answer::ReadOnly)),
        ),
        (
            b"get / HTTP/1.0\r\n\r\n".as_slice(),
            Front::Whole(with_body(Answer::ReadOnly)),
        ),
        (
            b"OPTIONS * HTTP/1.0\r\n\r\n".as_slice(),
            Front::Whole(with_body(Answer::Unknown)),
        ),
        (
            b"GET / HTTP/1.1\r\nHost: x\r\n".as_slice(),
            Front::Unfinished,
        ),
        (b"".as_slice(), Front::Unfinished),
        (b"GET / HTTP/2.0\r\n\r\n".as_slice(), Front::Never),
        (b"\x16\x03\x01".as_slice(), Front::Never),
    ];
    for (bytes, want) in cases {
        assert_eq!(rt; read_request(bytes), want);
    }
}

// RFC 9112, 3.2: a request of HTTP/1.1 without a Host is answered 400, and so is any with two. RFC 9110, 15.5.20: one that is meant for another
// machine is answered 421. A host is told in either case, with a port or without (RFC 9110, 4.2.3 and 7.2).
#[test]
fn each_request_is_answered_as_its_host_says(rt: HostRuntime) {
    let cases = [
        (
            b"GET / HTTP/1.1\r\nHost: 127.0.0.1:9090\r\n\r\n".as_slice(),
            with_body(Answer::Page),
        ),
        (
            b"GET /metrics HTTP/1.1\r\nAccept: */*\r\nhOST:LocalHost:1\r\n\r\n".as_slice(),
            with_body(Answer::Metrics),
        ),
        (
            b"POST /x HTTP/1.1\r\nHost:\t127.0.0.1 \r\n\r\n".as_slice(),
            with_body(Answer::Unknown),
        ),
        (
            b"GET / HTTP/1.1\r\n\r\n".as_slice(),
            with_body(Answer::Unreadable),
        ),
        (
            b"HEAD / HTTP/1.1\r\nHosts: localhost\r\n\r\n".as_slice(),
            without_body(Answer::Unreadable),
        ),
        (
            b"GET / HTTP/1.1\r\nHost: localhost\r\nHost: localhost\r\n\r\n".as_slice(),
            with_body(Answer::Unreadable),
        ),
        (
            b"GET / HTTP/1.0\r\nHost: localhost\r\nHost: a.example\r\n\r\n".as_slice(),
            with_body(Answer::Unreadable),
        ),
        (
            b"GET / HTTP/1.1\r\nHost: rebound.example:9090\r\n\r\n".as_slice(),
            with_body(Answer::Misdirected),
        ),
        (
            b"HEAD /metrics HTTP/1.0\r\nHost: rebound.example\r\n\r\n".as_slice(),
            without_body(Answer::Misdirected),
        ),
        (
            b"GET / HTTP/1.1\r\nHost: localhost.example\r\n\r\n".as_slice(),
            with_body(Answer::Misdirected),
        ),
        (
            b"GET / HTTP/1.1\r\nHost:\r\n\r\n".as_slice(),
            with_body(Answer::Misdirected),
        ),
    ];
    for (bytes, want) in cases {
        assert_eq!(rt; read_request(bytes), Front::Whole(want));
    }
}

#[test]
fn a_head_may_have_64_fields(rt: HostRuntime) -> Result<(), AllocError> {
    for (count, want) in [
        (64, Front::Whole(with_body(Answer::Page))),
        (65, Front::Crowded),
    ] {
        let mut bytes = Vec::new(rt.alloc());
        bytes.extend_from_slice(b"GET / HTTP/1.0\r\n")?;
        for _ in 0..count {
            bytes.extend_from_slice(b"A: b\r\n")?;
        }
        bytes.extend_from_slice(b"\r\n")?;
        assert_eq!(rt; read_request(&bytes), want);
    }
    Ok(())
}

// A peer that says so many bytes at a time, and is interrupted before each.
#[derive(Drop)]
struct Dripping<'b> {
    left: &'b [u8],
    step: usize,
    interrupted: bool,
}

impl Read for Dripping<'_> {
    fn read(&mut self, buf: &mut [u8]) -> io::Result<usize> {
        self.interrupted = !self.interrupted;
        if self.interrupted {
            return Err(Error::from(ErrorKind::Interrupted));
        }
        let count = self.step.min(self.left.len());
        let (mut piece, _) = self.left.split_at(count);
        let read = piece.read(buf)?;
        self.left = self.left.get(read..).unwrap_or(&[]);
        Ok(read)
    }
}

// A peer whose stream fails.
#[derive(Drop)]
struct Torn;

impl Read for Torn {
    fn read(&mut self, _buf: &mut [u8]) -> io::Result<usize> {
        Err(Error::from(ErrorKind::ConnectionReset))
    }
}

const ASKED: &[u8] = b"GET /metrics HTTP/1.1\r\nHost: 127.0.0.1:9090\r\nAccept: */*\r\n\r\n";

#[test]
fn a_head_is_heard_in_whatever_pieces_it_comes(rt: HostRuntime) {
    let mut buffer = [0; 96];
    for step in [8, 9, 30, 59, 60, 96] {
        let mut input = Dripping {
            left: ASKED,
            step,
            interrupted: false,
        };
        let heard = Heard {
            came: 60,
            reply: with_body(Answer::Metrics),
        };
        assert_eq!(rt; hear(&mut input, &mut buffer), Ok(heard));
    }
}

#[test]
fn what_is_no_head_is_told_as_such(rt: HostRuntime) {
    let mut buffer = [0; 96];
    let long = [b'a'; 200];
    for (bytes, step, came, answer) in [
        // The stream ends before the head does.
        (b"".as_slice(), 10, 0, Answer::Unreadable),
        (
            b"GET / HTTP/1.1\r\nHost: x\r\n".as_slice(),
            10,
            25,
            Answer::Unreadable,
        ),
        // It can't become one.
        (
            b"GET / HTTP/3.1\r\n".as_slice(),
            100,
            16,
            Answer::Unreadable,
        ),
        // It is longer than there is room, or comes byte by byte.
        (long.as_slice(), 50, 96, Answer::TooLong),
        (long.as_slice(), 1, 8, Answer::TooSlow),
        (ASKED, 7, 56, Answer::TooSlow),
    ] {
        let mut input = Dripping {
            left: bytes,
            step,
            interrupted: false,
        };
        let heard = Heard {
            came,
            reply: with_body(answer),
        };
        assert_eq!(rt; hear(&mut input, &mut buffer), Ok(heard));
    }
    assert_eq!(rt; hear(&mut Torn, &mut buffer), Err(ReadFault));
}

// What is answered where nothing is told of the server, as one text.
fn answered(alloc: Global, reply: Reply) -> Result<Vec<u8>, AllocError> {
    write_answer(alloc, reply, &empty())
}

#[test]
fn each_refusal_has_its_bytes(rt: HostRuntime) -> Result<(), AllocError> {
    let cases = [
        (
            with_body(Answer::Unreadable),
            b"HTTP/1.1 400 Bad Request\r\nConnection: close\r\nCache-Control: no-store\r\nContent-Type: text/plain; charset=utf-8\r\nContent-Length: 16\r\n\r\n400 Bad Request\n".as_slice(),
        ),
        (
            with_body(Answer::Misdirected),
            b"HTTP/1.1 421 Misdirected Request\r\nConnection: close\r\nCache-Control: no-store\r\nContent-Type: text/plain; charset=utf-8\r\nContent-Length: 24\r\n\r\n421 Misdirected Request\n".as_slice(),
        ),
        (
            without_body(Answer::Unknown),
            b"HTTP/1.1 404 Not Found\r\nConnection: close\r\nCache-Control: no-store\r\nContent-Type: text/plain; charset=utf-8\r\nContent-Length: 14\r\n\r\n".as_slice(),
        ),
        (
            with_body(Answer::ReadOnly),
            b"HTTP/1.1 405 Method Not Allowed\r\nConnection: close\r\nCache-Control: no-store\r\nAllow: GET, HEAD\r\nContent-Type: text/plain; charset=utf-8\r\nContent-Length: 23\r\n\r\n405 Method Not Allowed\n".as_slice(),
        ),
        (
            with_body(Answer::TooSlow),
            b"HTTP/1.1 408 Request Timeout\r\nConnection: close\r\nCache-Control: no-store\r\nContent-Type: text/plain; charset=utf-8\r\nContent-Length: 20\r\n\r\n408 Request Timeout\n".as_slice(),
        ),
        (
            with_body(Answer::TooLong),
            b"HTTP/1.1 431 Request Header Fields Too Large\r\nConnection: close\r\nCache-Control: no-store\r\nContent-Type: text/plain; charset=utf-8\r\nContent-Length: 36\r\n\r\n431 Request Header Fields Too Large\n".as_slice(),
        ),
        (
            with_body(Answer::NoMemory),
            b"HTTP/1.1 503 Service Unavailable\r\nConnection: close\r\nCache-Control: no-store\r\nContent-Type: text/plain; charset=utf-8\r\nContent-Length: 24\r\n\r\n503 Service Unavailable\n".as_slice(),
        ),
    ];
    for (reply, want) in cases {
        let text = answered(rt.alloc(), reply)?;
        assert_eq!(rt; text.as_slice(), want);
    }
    Ok(())
}

// Line by line.
const METRICS: &[&[u8]] = &[
    b"# HELP post_house_messages_total Messages that were submitted.\n",
    b"# TYPE post_house_messages_total counter\n",
    b"post_house_messages_total 3\n",
    b"# HELP post_house_copies_stored_total Copies that were stored.\n",
    b"# TYPE post_house_copies_stored_total counter\n",
    b"post_house_copies_stored_total 4\n",
    b"# HELP post_house_copies_refused_total Copies that were refused, by the reason.\n",
    b"# TYPE post_house_copies_refused_total counter\n",
    b"post_house_copies_refused_total{reason=\"mailbox full\"} 1\n",
    b"post_house_copies_refused_total{reason=\"shard full\"} 0\n",
    b"post_house_copies_refused_total{reason=\"shard closed\"} 2\n",
    b"post_house_copies_refused_total{reason=\"UIDs spent\"} 0\n",
    b"post_house_copies_refused_total{reason=\"no memory\"} 5\n",
    b"# HELP post_house_connections_total Connections that were accepted where mail comes.\n",
    b"# TYPE post_house_connections_total counter\n",
    b"post_house_connections_total 7\n",
    b"# HELP post_house_sessions_total Sessions that were begun.\n",
    b"# TYPE post_house_sessions_total counter\n",
    b"post_house_sessions_total 8\n",
    b"# HELP post_house_log_lines_lost_total Lines of the log that were not written.\n",
    b"# TYPE post_house_log_lines_lost_total counter\n",
    b"post_house_log_lines_lost_total 9\n",
    b"# HELP post_house_open_connections Connections that are open where mail comes.\n",
    b"# TYPE post_house_open_connections gauge\n",
    b"post_house_open_connections 2\n",
    b"# HELP post_house_open_sessions Sessions that are open.\n",
    b"# TYPE post_house_open_sessions gauge\n",
    b"post_house_open_sessions 1\n",
    b"# HELP post_house_mailbox_messages Messages in the mailbox.\n",
    b"# TYPE post_house_mailbox_messages gauge\n",
    b"post_house_mailbox_messages{mailbox=\"alice\"} 2\n",
    b"post_house_mailbox_messages{mailbox=\"o'hara/R&D \\\"x\\\\y\\\"\"} 0\n",
    b"# HELP post_house_mailbox_unseen Messages in the mailbox that are not seen.\n",
    b"# TYPE post_house_mailbox_unseen gauge\n",
    b"post_house_mailbox_unseen{mailbox=\"alice\"} 1\n",
    b"post_house_mailbox_unseen{mailbox=\"o'hara/R&D \\\"x\\\\y\\\"\"} 0\n",
    b"# HELP post_house_mailbox_bytes Bytes of all messages in the mailbox.\n",
    b"# TYPE post_house_mailbox_bytes gauge\n",
    b"post_house_mailbox_bytes{mailbox=\"alice\"} 2180\n",
    b"post_house_mailbox_bytes{mailbox=\"o'hara/R&D \\\"x\\\\y\\\"\"} 340282366920938463463374607431768211455\n",
    b"# HELP post_house_mailbox_uid_next UID of the next message of the mailbox.\n",
    b"# TYPE post_house_mailbox_uid_next gauge\n",
    b"post_house_mailbox_uid_next{mailbox=\"alice\"} 8\n",
    b"post_house_mailbox_uid_next{mailbox=\"o'hara/R&D \\\"x\\\\y\\\"\"} 4294967295\n",
];

// Line by line.
const TABLES: &[&[u8]] = &[
    b"<body>\n",
    b"<h1>What post_house is doing now</h1>\n",
    b"<table>\n",
    b"<caption>Mailboxes</caption>\n",
    b"<tr><th scope=\"col\">Mailbox</th><th scope=\"col\">Messages</th><th scope=\"col\">Unseen</th><th scope=\"col\">Bytes</th><th scope=\"col\">Next UID</th></tr>\n",
    b"<tr><th scope=\"row\">alice</th><td>2</td><td>1</td><td>2180</td><td>8</td></tr>\n",
    b"<tr><th scope=\"row\">o&#39;hara/R&amp;D &quot;x\\y&quot;</th><td>0</td><td>0</td><td>340282366920938463463374607431768211455</td><td>4294967295</td></tr>\n",
    b"</table>\n",
    b"<table>\n",
    b"<caption>Connections</caption>\n",
    b"<tr><th scope=\"col\">Number</th><th scope=\"col\">State</th></tr>\n",
    b"<tr><th scope=\"row\">12</th><td>talking</td></tr>\n",
    b"<tr><th scope=\"row\">13</th><td>leaving</td></tr>\n",
    b"</table>\n",
    b"<table>\n",
    b"<caption>Sessions</caption>\n",
    b"<tr><th scope=\"col\">User</th><th scope=\"col\">Number</th><th scope=\"col\">State</th></tr>\n",
    b"<tr><th scope=\"row\">a&lt;b</th><td>1</td><td>idling</td></tr>\n",
    b"</table>\n",
    b"<table>\n",
    b"<caption>Since the start</caption>\n",
    b"<tr><th scope=\"col\">What</th><th scope=\"col\">How many</th></tr>\n",
    b"<tr><th scope=\"row\">Messages</th><td>3</td></tr>\n",
    b"<tr><th scope=\"row\">Copies stored</th><td>4</td></tr>\n",
    b"<tr><th scope=\"row\">Copies refused: mailbox full</th><td>1</td></tr>\n",
    b"<tr><th scope=\"row\">Copies refused: shard full</th><td>0</td></tr>\n",
    b"<tr><th scope=\"row\">Copies refused: shard closed</th><td>2</td></tr>\n",
    b"<tr><th scope=\"row\">Copies refused: UIDs spent</th><td>0</td></tr>\n",
    b"<tr><th scope=\"row\">Copies refused: no memory</th><td>5</td></tr>\n",
    b"<tr><th scope=\"row\">Connections</th><td>7</td></tr>\n",
    b"<tr><th scope=\"row\">Sessions</th><td>8</td></tr>\n",
    b"<tr><th scope=\"row\">Lines of the log lost</th><td>9</td></tr>\n",
    b"</table>\n",
    b"</body>\n",
    b"</html>\n",
];

// The lines as one text.
fn joined(alloc: Global, lines: &[&[u8]]) -> Result<Vec<u8>, AllocError> {
    let mut text = Vec::new(alloc);
    for line in lines {
        text.extend_from_slice(line)?;
    }
    Ok(text)
}

#[test]
fn a_monitor_reads_each_figure(rt: HostRuntime) -> Result<(), AllocError> {
    let mut text = Vec::new(rt.alloc());
    write_metrics(&full(), &mut text)?;
    assert_eq!(rt; text.as_slice(), joined(rt.alloc(), METRICS)?.as_slice());
    Ok(())
}

#[test]
fn a_person_reads_each_figure(rt: HostRuntime) -> Result<(), AllocError> {
    let mut text = Vec::new(rt.alloc());
    write_page(&full(), &mut text)?;
    assert!(rt;
        text.as_slice().starts_with(
            b"<!DOCTYPE html>\n<html lang=\"en\">\n<head>\n<meta charset=\"utf-8\">\n"
        )
    );
    assert!(rt;
        text.as_slice()
            .ends_with(joined(rt.alloc(), TABLES)?.as_slice())
    );
    Ok(())
}

// The head of the figures, whose body has so many bytes.
const METRICS_HEAD: &[u8] =
    b"HTTP/1.1 200 OK\r\nConnection: close\r\nCache-Control: no-store\r\nContent-Type: text/plain; version=0.0.4; charset=utf-8\r\nContent-Length: 2310\r\n\r\n";

#[test]
fn an_answer_is_its_head_and_its_body(rt: HostRuntime) -> Result<(), AllocError> {
    let mut want = Vec::new(rt.alloc());
    want.extend_from_slice(METRICS_HEAD)?;
    let head = write_answer(rt.alloc(), without_body(Answer::Metrics), &full())?;
    assert_eq!(rt; head.as_slice(), want.as_slice());
    want.extend_from_slice(joined(rt.alloc(), METRICS)?.as_slice())?;
    let whole = write_answer(rt.alloc(), with_body(Answer::Metrics), &full())?;
    assert_eq!(rt; whole.as_slice(), want.as_slice());
    Ok(())
}

#[test]
fn what_went_out_is_told(rt: HostRuntime) -> Result<(), AllocError> {
    let reply = without_body(Answer::Unknown);
    let whole = answered(rt.alloc(), reply)?;
    for (step, calls, want) in [
        (1_000, 1, Ok(reply)),
        (10, 14, Ok(reply)),
        (
            10,
            13,
            Err(Unsent {
                told: reply,
                sent: 130,
            }),
        ),
        (
            1,
            0,
            Err(Unsent {
                told: reply,
                sent: 0,
            }),
        ),
    ] {
        let mut sink = Failing {
            bytes: Vec::new(rt.alloc()),
            step,
            calls,
            has_failed: false,
        };
        assert_eq!(rt; tell(rt.alloc(), reply, &empty(), &mut sink), want);
        assert!(rt; whole.as_slice().starts_with(sink.bytes.as_slice()));
    }
    Ok(())
}
