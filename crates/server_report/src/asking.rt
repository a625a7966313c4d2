//! What is asked for: the head of a request, read as far as it has come, and what it is answered (RFC 9110, RFC 9112). How the answer is spelled
//! stands in `http`.

ghost use Rattle.std.specs.Prelude.{◌≡◌, ◌<◌, ◌≤◌, ◌==◌, ℕ, List, IfSome, count_by, length, map, position};
ghost use Rattle.std.specs.List.{list_any};
ghost use Rattle.httparse.specs.Grammar.{ReadsRequest, RequestHead};
ghost use Rattle.httparse.specs.Spans.{header_bytes, span_bytes};
ghost use Rattle.server_report.specs.declared.asking.Front.TheVariants.{Whole};
ghost use Rattle.server_report.specs.Asking.{Tells, answer_among, answer_for, answer_to, is_foreign, is_host, is_ours, is_reading, most_fields, path_of, reply_of, reply_to, up_to, what_is_at};

use httparse::spans::{EMPTY_HEADER_SPAN, HeaderSpan, RequestSpans, Span, parse_request};
use httparse::{Error, Status};

/// So many fields the head of a request may have.
pub const MOST_FIELDS: usize = 64;

/// What a request is answered.
#[derive(Clone, Copy, Debug, PartialEq, Eq, Drop)]
pub enum Answer {
    /// The page for people.
    Page,
    /// The figures for a monitor.
    Metrics,
    /// What came is no request.
    Unreadable,
    /// It is meant for another machine.
    Misdirected,
    /// Nothing is there.
    Unknown,
    /// It can only be read.
    ReadOnly,
    /// The request came in too many pieces.
    TooSlow,
    /// Its head is too long, or has too many fields.
    TooLong,
    /// Memory was refused.
    NoMemory,
}

/// An answer, and whether its body is sent.
#[derive(Clone, Copy, Debug, PartialEq, Eq, Drop)]
pub struct Reply {
    /// What is answered.
    pub answer: Answer,
    /// Whether the body follows the head: not where the head alone was asked for (RFC 9110, 9.3.2).
    pub has_body: bool,
}

/// What bytes are as the front of a request.
#[derive(Clone, Copy, Debug, PartialEq, Eq, Drop)]
pub enum Front {
    /// A whole head is there, which is answered so.
    Whole(Reply),
    /// No whole head is there yet.
    Unfinished,
    /// They never begin with a head, whatever follows.
    Never,
    /// A head is there, as far as it has come, with more than `MOST_FIELDS` fields.
    Crowded,
}

// Where the first such byte stands.
fn position_of(byte: u8, bytes: &[u8]) -> Option<usize>
    ensures value { result ≡ position (λ b. b == byte) bytes.now }
    ensures bound { IfSome result (λ at. at < length bytes.now) }
{
    bytes.iter().position(|b| *b == byte)
}

// What stands before the first such byte, or all.
fn before(byte: u8, bytes: &[u8]) -> &[u8]
    ensures { result.now ≡ up_to (position (λ b. b == byte) bytes.now) bytes.now }
{
    match position_of(byte, bytes) {
        Some(at) => &bytes[..at],
        None => bytes,
    }
}

// The path of a target: what stands before its query.
fn path_of(target: &[u8]) -> &[u8]
    ensures { result.now ≡ path_of target.now }
{
    before(b'?', target)
}

// What stands at a path.
fn what_is_at(path: &[u8]) -> Answer
    ensures { result ≡ what_is_at path.now }
{
    if path == b"/".as_slice() {
        return Answer::Page;
    }
    if path == b"/metrics".as_slice() {
        return Answer::Metrics;
    }
    Answer::Unknown
}

// Whether a method reads.
fn is_reading(method: &[u8]) -> bool
    ensures { result ≡ is_reading method.now }
{
    method == b"GET".as_slice() || method == b"HEAD".as_slice()
}

// What a method is answered at what is there.
fn answer_to(method: &[u8], what: Answer) -> Answer
    ensures { result ≡ answer_to method.now what }
{
    if what == Answer::Unknown || is_reading(method) {
        return what;
    }
    Answer::ReadOnly
}

// The bytes that a span covers, as far as they came.
fn covered(came: &[u8], span: Span) -> &[u8]
    ensures { result.now ≡ span_bytes came.now span }
{
    let front = &came[..span.end.min(came.len())];
    &front[span.start.min(front.len())..]
}

// Whether a host is a name of this machine.
fn is_ours(host: &[u8]) -> bool
    ensures { result ≡ is_ours host.now }
{
    let name = before(b':', host);
    name.eq_ignore_ascii_case(b"localhost") || name.eq_ignore_ascii_case(b"127.0.0.1")
}

// Whether a field says whom the request is meant for.
fn is_host(came: &[u8], field: HeaderSpan) -> bool
    ensures { result ≡ is_host (header_bytes came.now field) }
{
    covered(came, field.name).eq_ignore_ascii_case(b"Host")
}

// Whether a field says that the request is meant for another machine.
fn is_foreign(came: &[u8], field: HeaderSpan) -> bool
    ensures { result ≡ is_foreign (header_bytes came.now field) }
{
    is_host(came, field) && !is_ours(covered(came, field.value))
}

// How many fields say whom the request is meant for.
fn count_hosts(came: &[u8], fields: &[HeaderSpan]) -> usize
    ensures { result ≡ count_by (λ field. is_host (header_bytes came.now field)) fields.now }
{
    fields.iter().filter(|field| is_host(came, **field)).count()
}

// Whether one of these fields says that the request is meant for another machine.
fn has_foreign(came: &[u8], fields: &[HeaderSpan]) -> bool
    ensures { result ≡ list_any (λ field. is_foreign (header_bytes came.now field)) fields.now }
{
    fields.iter().any(|field| is_foreign(came, *field))
}

// What is answered in place of an answer, with so many fields Host, of which one is foreign or none.
#[tactic(auto, unfolding(crate::specs::Asking::answer_for))]
fn answer_for(minor: u8, hosts: usize, foreign: bool, answer: Answer) -> Answer
    ensures { result ≡ answer_for minor hosts foreign answer }
{
    match hosts {
        0 if minor == 0 => answer,
        1 if foreign => Answer::Misdirected,
        1 => answer,
        _ => Answer::Unreadable,
    }
}

// The same, by the fields themselves.
fn answer_among(came: &[u8], minor: u8, fields: &[HeaderSpan], answer: Answer) -> Answer
    ensures { result ≡ answer_among minor (map (header_bytes came.now) fields.now) answer }
{
    let hosts = count_hosts(came, fields);
    answer_for(minor, hosts, has_foreign(came, fields), answer)
}

// What a request is answered: a GET or a HEAD of `/` the page, one of `/metrics` the figures. Another path is unknown, and another method isn't
// allowed at these. A query says nothing.
fn reply_to(came: &[u8], head: RequestSpans, fields: &[HeaderSpan]) -> Reply
    ensures { result ≡ reply_of (span_bytes came.now head.method) (span_bytes came.now head.path)
        head.version (map (header_bytes came.now) fields.now) }
{
    let method = covered(came, head.method);
    let answer = answer_to(method, what_is_at(path_of(covered(came, head.path))));
    Reply {
        answer: answer_among(came, head.version, fields, answer),
        has_body: method != b"HEAD".as_slice(),
    }
}

/// What these bytes are as the front of a request, and what they are answered if it is whole.
///
/// A GET or a HEAD of `/` is answered with the page, one of `/metrics` with the figures. Another path is unknown, and another method isn't allowed
/// at these. A query says nothing. A request of HTTP/1.1 has to have one field Host, and no request may have two. The host has to be `localhost` or
/// `127.0.0.1`, with any port or none: a page elsewhere, whose name leads to this machine, can't read what is told here.
pub fn read_request(came: &[u8]) -> Front
    // What is answered of the bytes is so, by the grammar of HTTP.
    ensures tells { Tells came.now result }
    // Where they begin with a head of so many fields at most, that one is answered.
    ensures found { (head : RequestHead) (rest : List ℕ) → ReadsRequest came.now head rest
        → length head.fields ≤ most_fields → result ≡ Whole (reply_to head) }
{
    let mut fields = [EMPTY_HEADER_SPAN; MOST_FIELDS];
    match parse_request(came, &mut fields) {
        Ok(Status::Complete(head)) => {
            Front::Whole(reply_to(came, head, &fields[..head.headers]))
        }
        Ok(Status::Partial) => Front::Unfinished,
        Err(Error::TooManyHeaders) => Front::Crowded,
        Err(_) => Front::Never,
    }
}
