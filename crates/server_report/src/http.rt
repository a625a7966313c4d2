//! How an answer is spelled: its head, which tells the length of its body, and the body behind it, where that is sent (RFC 9112). Which answer it
//! is stands in `asking`, and who sends it in `status`.

ghost use Rattle.std.specs.Prelude.{◌≡◌, ◌++◌, true, false, IfOk, OnOk, OnErr};
ghost use Rattle.server_report.specs.declared.asking.Answer.TheVariants.{NoMemory};
ghost use Rattle.server_report.specs.Http.{allow_line, answer_text, body_lines, body_text, head_text, media_type, short_body, status_lines, status_words, with_body};

use crate::asking::{Answer, Reply};
use crate::figures::Snapshot;
use crate::metrics::write_metrics;
use crate::page::write_page;
use itoa::Buffer;
use line_io::append_parts;
use std::alloc::{AllocError, Global};

// What is answered where memory is refused, which needs none: the head, and its body.
const NO_MEMORY: &[u8] =
    b"HTTP/1.1 503 Service Unavailable\r\nConnection: close\r\nCache-Control: no-store\r\nContent-Type: text/plain; charset=utf-8\r\nContent-Length: 24\r\n\r\n503 Service Unavailable\n";

// The head alone.
const NO_MEMORY_HEAD: &[u8] =
    b"HTTP/1.1 503 Service Unavailable\r\nConnection: close\r\nCache-Control: no-store\r\nContent-Type: text/plain; charset=utf-8\r\nContent-Length: 24\r\n\r\n";

#[tactic(auto, unfolding(crate::specs::Http::status_words))]
fn status_words(answer: Answer) -> &'static [u8]
    ensures { result.now ≡ status_words answer }
{
    match answer {
        Answer::Page => b"200 OK",
        Answer::Metrics => b"200 OK",
        Answer::Unreadable => b"400 Bad Request",
        Answer::Misdirected => b"421 Misdirected Request",
        Answer::Unknown => b"404 Not Found",
        Answer::ReadOnly => b"405 Method Not Allowed",
        Answer::TooSlow => b"408 Request Timeout",
        Answer::TooLong => b"431 Request Header Fields Too Large",
        Answer::NoMemory => b"503 Service Unavailable",
    }
}

#[tactic(auto, unfolding(crate::specs::Http::media_type))]
fn media_type(answer: Answer) -> &'static [u8]
    ensures { result.now ≡ media_type answer }
{
    match answer {
        Answer::Page => b"text/html; charset=utf-8",
        Answer::Metrics => b"text/plain; version=0.0.4; charset=utf-8",
        Answer::Unreadable => b"text/plain; charset=utf-8",
        Answer::Misdirected => b"text/plain; charset=utf-8",
        Answer::Unknown => b"text/plain; charset=utf-8",
        Answer::ReadOnly => b"text/plain; charset=utf-8",
        Answer::TooSlow => b"text/plain; charset=utf-8",
        Answer::TooLong => b"text/plain; charset=utf-8",
        Answer::NoMemory => b"text/plain; charset=utf-8",
    }
}

#[tactic(auto, unfolding(crate::specs::Http::allow_line))]
fn allow_line(answer: Answer) -> &'static [u8]
    ensures { result.now ≡ allow_line answer }
{
    match answer {
        Answer::ReadOnly => b"Allow: GET, HEAD\r\n",
        Answer::Page => b"",
        Answer::Metrics => b"",
        Answer::Unreadable => b"",
        Answer::Misdirected => b"",
        Answer::Unknown => b"",
        Answer::TooSlow => b"",
        Answer::TooLong => b"",
        Answer::NoMemory => b"",
    }
}

// Appends the status, and what holds of each answer, or nothing.
#[tactic(auto, unfolding(crate::specs::Http::status_lines))]
fn append_status_lines(answer: Answer, out: &mut Vec<u8>) -> Result<(), AllocError>
    ensures { OnOk result (out.new.items ≡ out.old.items ++ status_lines answer) }
{
    append_parts(
        &[
            b"HTTP/1.1 ".as_slice(),
            status_words(answer),
            b"\r\nConnection: close\r\nCache-Control: no-store\r\n".as_slice(),
            allow_line(answer),
        ],
        out,
    )
}

// Appends what the body is, and how long, or nothing.
#[tactic(auto, unfolding(crate::specs::Http::body_lines))]
fn append_body_lines(answer: Answer, size: usize, out: &mut Vec<u8>) -> Result<(), AllocError>
    ensures { OnOk result (out.new.items ≡ out.old.items ++ body_lines answer size) }
{
    let mut digits = Buffer::new();
    let size = digits.format(size).as_bytes();
    append_parts(
        &[
            b"Content-Type: ".as_slice(),
            media_type(answer),
            b"\r\nContent-Length: ".as_slice(),
            size,
            b"\r\n\r\n".as_slice(),
        ],
        out,
    )
}

// Appends the head of an answer whose body has so many bytes, or a part of it.
#[tactic(auto, unfolding(crate::specs::Http::head_text))]
fn append_head(answer: Answer, size: usize, out: &mut Vec<u8>) -> Result<(), AllocError>
    ensures { OnOk result (out.new.items ≡ out.old.items ++ head_text answer size) }
{
    append_status_lines(answer, out)?;
    append_body_lines(answer, size, out)?;
    Ok(())
}

// Appends the body of an answer, or nothing.
#[tactic(auto, unfolding(crate::specs::Http::status_words))]
fn write_body(answer: Answer, snapshot: &Snapshot<'_>, out: &mut Vec<u8>) -> Result<(), AllocError>
    ensures ok { OnOk result (out.new.items ≡ out.old.items ++ body_text snapshot.now answer) }
    ensures err { OnErr result (out.new.items ≡ out.old.items) }
{
    match answer {
        Answer::Page => write_page(snapshot, out),
        Answer::Metrics => write_metrics(snapshot, out),
        Answer::Unreadable => append_parts(&[b"400 Bad Request\n".as_slice()], out),
        Answer::Misdirected => append_parts(&[b"421 Misdirected Request\n".as_slice()], out),
        Answer::Unknown => append_parts(&[b"404 Not Found\n".as_slice()], out),
        Answer::ReadOnly => append_parts(&[b"405 Method Not Allowed\n".as_slice()], out),
        Answer::TooSlow => append_parts(&[b"408 Request Timeout\n".as_slice()], out),
        Answer::TooLong => append_parts(
            &[b"431 Request Header Fields Too Large\n".as_slice()],
            out,
        ),
        Answer::NoMemory => append_parts(&[b"503 Service Unavailable\n".as_slice()], out),
    }
}

/// The whole answer: the head, and the body where it is sent.
///
/// Errors: `AllocError` where memory is refused.
pub fn write_answer(
    alloc: Global,
    reply: Reply,
    snapshot: &Snapshot<'_>,
) -> Result<Vec<u8>, AllocError>
    // The answer is `answer_text`, byte by byte.
    ensures { IfOk result (λ text. text.items ≡ answer_text snapshot.now reply) }
{
    let mut body = Vec::new(alloc);
    write_body(reply.answer, snapshot, &mut body)?;
    let mut text = Vec::new(alloc);
    append_head(reply.answer, body.len(), &mut text)?;
    if reply.has_body {
        text.extend_from_slice(&body)?;
    }
    Ok(text)
}

// The whole of what is answered where memory is refused.
fn no_memory_whole() -> &'static [u8]
    ensures { result.now
        ≡ with_body (record { answer = NoMemory; has_body = true }) (short_body NoMemory) }
{
    NO_MEMORY
}

// Its head alone.
fn no_memory_head() -> &'static [u8]
    ensures { result.now
        ≡ with_body (record { answer = NoMemory; has_body = false }) (short_body NoMemory) }
{
    NO_MEMORY_HEAD
}

/// What is answered where memory is refused. It takes none.
pub(crate) fn no_memory(has_body: bool) -> &'static [u8]
    ensures { result.now
        ≡ with_body (record { answer = NoMemory; has_body = has_body }) (short_body NoMemory) }
{
    if has_body {
        return no_memory_whole();
    }
    no_memory_head()
}
