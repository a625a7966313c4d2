//! Names that no mailbox of a house has: with a quote or a backslash, or with a slash in them. What is expected is what RFC 9051 says of them.

use imap_answers::{Listing, patterns_match_what_they_stand_for, write_list};
use imap_grammar::{Command, Name, read_line};
use std::alloc::{AllocError, Global};

// The name that a SELECT says.
fn name_of(line: &[u8]) -> Option<Name<'_>> {
    let Ok((_tag, command)) = read_line(line) else {
        return None;
    };
    match command {
        Command::Select(name) => Some(name),
        _ => None,
    }
}

// Whether a SELECT says this name.
fn is_named(alloc: Global, line: &[u8], wanted: &[u8]) -> bool {
    let Some(name) = name_of(line) else {
        return false;
    };
    match name.to_bytes(alloc) {
        Ok(bytes) => bytes.as_slice() == wanted,
        Err(_) => false,
    }
}

#[test]
fn names_say_their_bytes(rt: HostRuntime) {
    assert!(rt; is_named(rt.alloc(), b"a1 SELECT Work", b"Work"));
    assert!(rt; is_named(rt.alloc(), b"T.2 SELECT \"a \\\"b\\\\\" ", b"a \"b\\"));
}

// The reference and the pattern of a LIST line.
fn list_of(line: &[u8]) -> Option<(Name<'_>, Name<'_>)> {
    let Ok((_tag, command)) = read_line(line) else {
        return None;
    };
    match command {
        Command::List { reference, pattern } => Some((reference, pattern)),
        _ => None,
    }
}

// The answer to a LIST line about these names.
fn listed(alloc: Global, line: &[u8], names: &[&[u8]]) -> Result<Vec<u8>, AllocError> {
    let Some((reference, pattern)) = list_of(line) else {
        return Err(AllocError);
    };
    let mut out = Vec::new(alloc);
    write_list(alloc, Listing::All, &reference, &pattern, names, &mut out)?;
    Ok(out)
}

// A user's names.
const NAMES: &[&[u8]] = &[b"INBOX", b"Work", b"Work/old"];

// Whether a LIST line about them is answered so.
fn is_listed(alloc: Global, line: &[u8], wanted: &[u8]) -> bool {
    match listed(alloc, line, NAMES) {
        Ok(text) => text.as_slice() == wanted,
        Err(_) => false,
    }
}

#[test]
fn names_are_listed(rt: HostRuntime) {
    patterns_match_what_they_stand_for();
    assert!(rt;
        is_listed(
            rt.alloc(),
            b"a LIST \"\" %",
            b"* LIST () \"/\" INBOX\r\n* LIST () \"/\" Work\r\n"
        )
    );
    assert!(rt;
        is_listed(
            rt.alloc(),
            b"a LIST Work *",
            b"* LIST () \"/\" Work\r\n* LIST () \"/\" Work/old\r\n"
        )
    );
    assert!(rt;
        is_listed(
            rt.alloc(),
            b"a LIST \"\" W*/%d",
            b"* LIST () \"/\" Work/old\r\n"
        )
    );
}
