//! Lines of a command that aren't whole yet: which part of one is still to come, and how that is put in its place.
//! What is said of them is told in specs/Commands.antt; how lines are spelled in `imap_grammar`.

ghost use Rattle.std.specs.Prelude.{◌≡◌, ◌<◌, ◌≤◌, ◌++◌, codes, length, nat_lt, true, false, None, Some, IfSome, IfNone, IfOk, OnErr};
ghost use Rattle.std.specs.Option.{option_copied};
ghost use Rattle.std.specs.Vec.{vec_capacity};
ghost use Rattle.imap_grammar.specs.Literals.{announced, quoted};
ghost use Rattle.imap_session.specs.Commands.{awaiting_argument, comes_unasked, fault_tag, literal_in, most_line, response_in, wants_response};

use crate::plain::is_plain;
use crate::standing::Profile;
use imap_grammar::{Command, ImapFault, Literal, announced, put_quoted, quoted_len};
use std::alloc::{AllocError, Global};

/// The most bytes of a command's line with its literals in it.
pub(crate) const MOST_LINE: usize = 8_190;

// The tag of a line that is no command.
fn fault_tag<'a, 'b>(fault: &'b ImapFault<'a>) -> Option<&'b [u8]>
    ensures { option_copied result ≡ fault_tag fault.now }
{
    match fault {
        ImapFault::NoTag => None,
        ImapFault::Unknown(tag) => Some(tag.as_bytes()),
        ImapFault::LeftOut(tag) => Some(tag.as_bytes()),
        ImapFault::Arguments(tag, _) => Some(tag.as_bytes()),
    }
}

/// A line that announces a literal at its end, which is an argument of it.
#[derive(Clone, Copy)]
pub(crate) struct DueArgument<'a> {
    pub(crate) tag: &'a [u8],
    // What stands before `{`.
    pub(crate) before: &'a [u8],
    pub(crate) literal: Literal,
}

/// Whether a line that is no command as it stands announces a literal.
pub(crate) fn argument_due<'a>(
    profile: Profile,
    line: &'a [u8],
    fault: &'a ImapFault<'_>,
) -> Option<DueArgument<'a>>
    ensures some { IfSome result (λ found. literal_in profile line.now fault.now
        ≡ Some (found.tag.now, awaiting_argument found.before.now found.literal)) }
    ensures tag { IfSome result (λ found. fault_tag fault.now ≡ Some found.tag.now) }
    ensures none { IfNone result (literal_in profile line.now fault.now ≡ None) }
{
    match profile {
        Profile::Standard => None,
        Profile::Compatible => {
            let tag = fault_tag(fault)?;
            let (end, literal) = announced(line)?;
            Some(DueArgument {
                tag,
                before: &line[..end],
                literal,
            })
        }
    }
}

/// Whether it is AUTHENTICATE without a response, of a client that is to log in.
pub(crate) fn wants_response(login: Option<&[u8]>, command: &Command<'_>) -> bool
    ensures { result ≡ wants_response (option_copied login.entry) command.now }
{
    match (login, command) {
        (Some(_), Command::Authenticate(asked)) => is_plain(asked.mechanism.as_bytes())
            && asked.initial.is_none(),
        _ => false,
    }
}

/// Whether a line announces a literal that comes without being asked for.
pub(crate) fn comes_unasked(line: &[u8]) -> bool
    ensures { result ≡ comes_unasked (announced line.now) }
{
    match announced(line) {
        None => false,
        Some((_, literal)) => !literal.waits,
    }
}

/// The front of a line, with room for as much as a line may have.
pub(crate) fn keep_line(alloc: Global, front: &[u8]) -> Result<Vec<u8>, AllocError>
    ensures same { IfOk result (λ line. line.items ≡ front.now) }
    ensures room { IfOk result (λ line. most_line ≤ vec_capacity line) }
{
    let mut line = Vec::with_capacity(alloc, front.len().max(MOST_LINE))?;
    let _ = line.extend_from_slice(front);
    Ok(line)
}

/// The line with a literal's text in its place, as the quoted string that says it, and the rest behind that; None where that is too long.
pub(crate) fn with_argument(before: Vec<u8>, text: &[u8], rest: &[u8]) -> Option<Vec<u8>>
    requires room { most_line ≤ vec_capacity before }
    ensures joined { IfSome result (λ line.
        line.items ≡ before.items ++ quoted text.now ++ rest.now) }
    ensures fits { IfSome result (λ line. length line.items ≤ most_line) }
    ensures too_long { IfNone result
        (most_line < length (before.items ++ quoted text.now ++ rest.now)) }
{
    let quoted = quoted_len(text);
    if quoted > MOST_LINE as u128 {
        return None;
    }
    if before.len() as u128 + quoted + rest.len() as u128 > MOST_LINE as u128 {
        return None;
    }
    let mut line = before;
    put_quoted(text, &mut line);
    let _ = line.extend_from_slice(rest);
    Some(line)
}

/// The line with a response behind it; None where that is too long.
pub(crate) fn with_response(before: Vec<u8>, response: &[u8]) -> Option<Vec<u8>>
    requires room { most_line ≤ vec_capacity before }
    ensures joined { IfSome result (λ line.
        line.items ≡ before.items ++ codes " " ++ response_in response.now) }
    ensures fits { IfSome result (λ line. length line.items ≤ most_line) }
    ensures too_long { IfNone result
        (most_line < length (before.items ++ codes " " ++ response_in response.now)) }
{
    let mut line = before;
    let response = if response.is_empty() { b"=" } else { response };
    if line.push(b' ').is_err() || line.extend_from_slice(response).is_err() {
        return None;
    }
    if line.len() > MOST_LINE {
        None
    } else {
        Some(line)
    }
}
