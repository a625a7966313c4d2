//! A part of a message's text as FETCH prints it (RFC 9051, 6.4.5 and 7.5.2): all of it, its header, what follows that, or some bytes of one of
//! these. Which part is asked for stands in the command.

ghost use Rattle.std.specs.Prelude.{◌≡◌, ◌++◌, ◌+◌, ◌≤◌, List, ℕ, false, true, length, take, drop, codes, decimal, if◌then◌else◌};
ghost use Rattle.imap_grammar.specs.Grammar.{rfc822_word, section_word};
ghost use Rattle.imap_answers.specs.Answers.{header, section, is_crlf, literal, body_text, header_fields, fields_from, takes_field, part, part_bytes, part_word, origin_text, rfc822_text};

use crate::fields::{fields_len, put_fields};
use crate::words::put_parts;
use imap_grammar::{BodyPart, FieldNames, Section, Span};
use itoa::Buffer;
use line_io::Outlet;

pub(crate) fn is_crlf(bytes: &[u8]) -> bool
    ensures { result ≡ is_crlf bytes.now }
{
    matches!(bytes, [b'\r', b'\n', ..])
}

/// How many bytes a text has up to and with its first empty line, or all of them where there is none.
#[tactic(auto, using(crate::proofs::Headers::crlf_within, crate::proofs::Headers::header_over, crate::proofs::Headers::header_next, crate::proofs::Headers::header_found))]
pub(crate) fn header_len(text: &[u8]) -> usize
    ensures front { take result text.now ≡ header text.now }
    ensures bound { result ≤ length text.now }
{
    let mut at = 0;
    let mut fresh = true;
    while at < text.len() {
        if is_crlf(&text[at..]) {
            if fresh {
                return at + 2;
            }
            at += 2;
            fresh = true;
        } else {
            at += 1;
            fresh = false;
        }
    }
    text.len()
}

/// The part of a text that a section is.
#[tactic(auto, using(crate::proofs::Headers::header_rest))]
fn section_of(which: Section, text: &[u8]) -> &[u8]
    ensures { result.now ≡ section which text.now }
{
    match which {
        Section::Whole => text,
        Section::Header => &text[..header_len(text)],
        Section::Text => &text[header_len(text)..],
    }
}

/// So many bytes from this one on, or as many as there are.
pub(crate) fn span_in(span: Span, bytes: &[u8]) -> &[u8]
    ensures { result.now ≡ take span.count (drop span.origin bytes.now) }
{
    let origin = bytes.len().min(span.origin as usize);
    let rest = &bytes[origin..];
    &rest[..rest.len().min(span.count as usize)]
}

fn section_word(section: Section) -> &'static [u8]
    ensures { result.now ≡ section_word section }
{
    match section {
        Section::Whole => b"",
        Section::Header => b"HEADER",
        Section::Text => b"TEXT",
    }
}

fn rfc822_word(section: Section) -> &'static [u8]
    ensures { result.now ≡ rfc822_word section }
{
    match section {
        Section::Whole => b"RFC822",
        Section::Header => b"RFC822.HEADER",
        Section::Text => b"RFC822.TEXT",
    }
}

/// Puts how many bytes a literal has, behind a space, in room that is held.
fn put_count<O: Outlet>(count: usize, out: &mut O)
    requires fits { length (codes " {" ++ decimal count ++ codes "}\r\n") ≤ O.room out.old }
    ensures said { O.said out.new
        ≡ O.said out.old ++ (codes " {" ++ decimal count ++ codes "}\r\n") }
    ensures lot { O.lot out.new ≡ O.lot out.old }
    ensures room { O.room out.old
        ≤ O.room out.new + length (codes " {" ++ decimal count ++ codes "}\r\n") }
{
    let mut digits = Buffer::new();
    let count = digits.format(count).as_bytes();
    put_parts(&[b" {".as_slice(), count, b"}\r\n".as_slice()], out);
}

/// Puts bytes as a literal behind a space, in room that is held.
fn put_literal<O: Outlet>(bytes: &[u8], out: &mut O)
    requires fits { length (codes " " ++ literal bytes.now) ≤ O.room out.old }
    ensures said { O.said out.new ≡ O.said out.old ++ (codes " " ++ literal bytes.now) }
    ensures lot { O.lot out.new ≡ O.lot out.old }
    ensures room { O.room out.old ≤ O.room out.new + length (codes " " ++ literal bytes.now) }
{
    put_count(bytes.len(), out);
    out.put(bytes);
}

/// Puts a part of a text as RFC 3501 has it, in room that is held.
pub(crate) fn put_rfc822<O: Outlet>(which: Section, text: &[u8], out: &mut O)
    requires fits { length (rfc822_text which text.now) ≤ O.room out.old }
    ensures said { O.said out.new ≡ O.said out.old ++ rfc822_text which text.now }
    ensures lot { O.lot out.new ≡ O.lot out.old }
    ensures room { O.room out.old ≤ O.room out.new + length (rfc822_text which text.now) }
{
    out.put(rfc822_word(which));
    put_literal(section_of(which, text), out);
}

/// The words of a part as FETCH says it: what stands before the names of fields, these, and what stands behind them.
#[derive(Drop)]
struct PartWords<'a> {
    front: &'a [u8],
    names: &'a [u8],
    close: &'a [u8],
}

fn part_words<'a>(part: &'a BodyPart<'_>) -> PartWords<'a>
    ensures { (result.front.now ++ result.names.now ++ result.close.now) ≡ part_word part.now }
{
    match part {
        BodyPart::Section(which) => PartWords {
            front: section_word(*which),
            names: b"",
            close: b"",
        },
        BodyPart::Fields { others, names } => PartWords {
            front: fields_word(*others),
            names: names.spelled(),
            close: b")",
        },
    }
}

fn fields_word(others: bool) -> &'static [u8]
    ensures { result.now
        ≡ (if others then codes "HEADER.FIELDS.NOT (" else codes "HEADER.FIELDS (") }
{
    if others {
        b"HEADER.FIELDS.NOT ("
    } else {
        b"HEADER.FIELDS ("
    }
}

/// Puts what stands before a part's bytes, but for how many they are, in room that is held.
fn put_front<O: Outlet>(words: &PartWords<'_>, partial: Option<Span>, out: &mut O)
    requires fits { length (codes "BODY["
        ++ (words.now.front.now ++ words.now.names.now ++ words.now.close.now) ++ codes "]"
        ++ origin_text partial) ≤ O.room out.old }
    ensures said { O.said out.new ≡ O.said out.old ++ (codes "BODY["
        ++ (words.now.front.now ++ words.now.names.now ++ words.now.close.now) ++ codes "]"
        ++ origin_text partial) }
    ensures lot { O.lot out.new ≡ O.lot out.old }
    ensures room { O.room out.old ≤ O.room out.new + length (codes "BODY["
        ++ (words.now.front.now ++ words.now.names.now ++ words.now.close.now) ++ codes "]"
        ++ origin_text partial) }
{
    put_parts(
        &[
            b"BODY[".as_slice(),
            words.front,
            words.names,
            words.close,
            b"]".as_slice(),
        ],
        out,
    );
    if let Some(span) = partial {
        put_origin(span.origin, out);
    }
}

/// Puts from which byte on a part is told, in room that is held.
fn put_origin<O: Outlet>(origin: u64, out: &mut O)
    requires fits { length (codes "<" ++ decimal origin ++ codes ">") ≤ O.room out.old }
    ensures said { O.said out.new
        ≡ O.said out.old ++ (codes "<" ++ decimal origin ++ codes ">") }
    ensures lot { O.lot out.new ≡ O.lot out.old }
    ensures room { O.room out.old
        ≤ O.room out.new + length (codes "<" ++ decimal origin ++ codes ">") }
{
    let mut digits = Buffer::new();
    let origin = digits.format(origin).as_bytes();
    put_parts(&[b"<".as_slice(), origin, b">".as_slice()], out);
}

/// Which of these bytes are asked for.
fn part_of(partial: Option<Span>, bytes: &[u8]) -> &[u8]
    ensures { result.now ≡ part partial bytes.now }
{
    match partial {
        None => bytes,
        Some(span) => span_in(span, bytes),
    }
}

/// Puts these bytes of a part as FETCH prints them, in room that is held.
fn put_part<O: Outlet>(which: &BodyPart<'_>, partial: Option<Span>, bytes: &[u8], out: &mut O)
    requires fits { length (codes "BODY[" ++ part_word which.now ++ codes "]"
        ++ origin_text partial ++ codes " " ++ literal bytes.now) ≤ O.room out.old }
    ensures said { O.said out.new ≡ O.said out.old
        ++ (codes "BODY[" ++ part_word which.now ++ codes "]" ++ origin_text partial ++ codes " "
        ++ literal bytes.now) }
    ensures lot { O.lot out.new ≡ O.lot out.old }
    ensures room { O.room out.old ≤ O.room out.new + length (codes "BODY[" ++ part_word which.now
        ++ codes "]" ++ origin_text partial ++ codes " " ++ literal bytes.now) }
{
    put_front(&part_words(which), partial, out);
    put_literal(bytes, out);
}

/// Which of so many bytes are asked for: its count is how many these are.
#[tactic(auto, using(crate::proofs::Spans::part_in_span, crate::proofs::Spans::part_len))]
fn span_of(partial: Option<Span>, len: usize) -> Span
    ensures part { (bytes : List ℕ) → length bytes ≡ len →
        take result.count (drop result.origin bytes) ≡ part partial bytes }
    ensures count { (bytes : List ℕ) → length bytes ≡ len →
        length (part partial bytes) ≡ result.count }
{
    match partial {
        None => Span {
            origin: 0,
            count: len as u64,
        },
        Some(span) => Span {
            origin: span.origin,
            count: span.count.min((len as u64).saturating_sub(span.origin)),
        },
    }
}

/// Puts fields of a header as a literal behind a space, in room that is held. They are gone over twice: how many bytes they have is told before them.
fn put_fields_literal<O: Outlet>(
    others: bool,
    names: &FieldNames<'_>,
    partial: Option<Span>,
    header: &[u8],
    out: &mut O,
)
    requires fits { length (codes " " ++ literal (part partial
        (fields_from (takes_field others names.now) true false false header.now)))
        ≤ O.room out.old }
    ensures said { O.said out.new ≡ O.said out.old ++ (codes " " ++ literal (part partial
        (fields_from (takes_field others names.now) true false false header.now))) }
    ensures lot { O.lot out.new ≡ O.lot out.old }
    ensures room { O.room out.old ≤ O.room out.new + length (codes " " ++ literal (part partial
        (fields_from (takes_field others names.now) true false false header.now))) }
{
    let span = span_of(partial, fields_len(others, names, header));
    put_count(span.count as usize, out);
    put_fields(others, names, span, header, out);
}

/// Puts fields of a text's header as FETCH prints them, in room that is held.
fn put_header_fields<O: Outlet>(
    which: &BodyPart<'_>,
    others: bool,
    names: &FieldNames<'_>,
    partial: Option<Span>,
    text: &[u8],
    out: &mut O,
)
    requires fits { length (codes "BODY[" ++ part_word which.now ++ codes "]"
        ++ origin_text partial ++ codes " "
        ++ literal (part partial (header_fields others names.now text.now))) ≤ O.room out.old }
    ensures said { O.said out.new ≡ O.said out.old
        ++ (codes "BODY[" ++ part_word which.now ++ codes "]" ++ origin_text partial ++ codes " "
        ++ literal (part partial (header_fields others names.now text.now))) }
    ensures lot { O.lot out.new ≡ O.lot out.old }
    ensures room { O.room out.old ≤ O.room out.new + length (codes "BODY[" ++ part_word which.now
        ++ codes "]" ++ origin_text partial ++ codes " "
        ++ literal (part partial (header_fields others names.now text.now))) }
{
    put_front(&part_words(which), partial, out);
    put_fields_literal(
        others,
        names,
        partial,
        section_of(Section::Header, text),
        out,
    );
}

/// Puts a part of a text as FETCH prints it, in room that is held.
pub(crate) fn put_body<O: Outlet>(
    which: &BodyPart<'_>,
    partial: Option<Span>,
    text: &[u8],
    out: &mut O,
)
    requires fits { length (body_text which.now partial text.now) ≤ O.room out.old }
    ensures said { O.said out.new ≡ O.said out.old ++ body_text which.now partial text.now }
    ensures lot { O.lot out.new ≡ O.lot out.old }
    ensures room { O.room out.old
        ≤ O.room out.new + length (body_text which.now partial text.now) }
{
    match which {
        BodyPart::Section(section) => {
            put_part(
                which,
                partial,
                part_of(partial, section_of(*section, text)),
                out,
            )
        }
        BodyPart::Fields { others, names } => {
            put_header_fields(which, *others, names, partial, text, out)
        }
    }
}
