//! A whole line, read from left to right: its tag, its verb, and which arguments that takes.
//! Which lines the grammar has is told in specs/Grammar.antt, not here.

ghost use Rattle.std.specs.Prelude.{◌≡◌, ◌↔◌, true, List, ℕ, Result};
ghost use Rattle.std.specs.Option.{option_map};
ghost use Rattle.imap_grammar.specs.Grammar.{DoneLine, Reads};
ghost use Rattle.imap_grammar.specs.declared.command.Command.{Command};
ghost use Rattle.imap_grammar.specs.declared.command.ImapFault.{ImapFault};
ghost use Rattle.imap_grammar.specs.Reading.{verb_alone, alone_at, second_at, verb_at, command_at, read, is_done};

use crate::arguments::{
    append, authenticate, copy, enable, examine, fetch, id, if_end, list, login, lsub, search,
    select, status, store, subscribe, uid_expunge, unsubscribe,
};
use crate::bytes::{Class, is_blank, word_at};
use crate::command::{
    Command, ImapFault, Tag, Verb, alone, behind_uid, is_left_out, left_out, offered,
};
use crate::words::is_word_of;
use envelope::after_spaces;

fn verb_alone(word: &[u8]) -> Option<Verb>
    ensures { result ≡ verb_alone word.now }
{
    match offered(word) {
        Some(verb) => Some(verb),
        None => left_out(word),
    }
}

/// A verb of one word, and what follows it.
fn alone_at(bytes: &[u8]) -> Option<(Verb, &[u8])>
    ensures { option_map (λ x. (x.0, x.1.now)) result ≡ alone_at bytes.now }
{
    let (word, rest) = word_at(bytes);
    let verb = verb_alone(word)?;
    Some((verb, rest))
}

/// The second word of a verb, and what follows it.
fn second_at(bytes: &[u8]) -> Option<(Verb, &[u8])>
    ensures { option_map (λ x. (x.0, x.1.now)) result ≡ second_at bytes.now }
{
    let (word, rest) = word_at(bytes);
    let verb = behind_uid(word)?;
    Some((verb, rest))
}

/// The verb at the front, and what follows it.
fn verb_at(bytes: &[u8]) -> Option<(Verb, &[u8])>
    ensures { option_map (λ x. (x.0, x.1.now)) result ≡ verb_at bytes.now }
{
    let (word, rest) = word_at(bytes);
    if word.eq_ignore_ascii_case(b"UID") {
        second_at(after_spaces(rest))
    } else {
        alone_at(bytes)
    }
}

/// The command of a verb and what stands behind it.
#[tactic(auto, using(crate::proofs::AloneLaw::said_alone))]
fn command_at(verb: Verb, rest: &[u8]) -> Option<Command<'_>>
    ensures { result ≡ command_at verb rest.now }
{
    match verb {
        Verb::Login => login(rest),
        Verb::Authenticate => authenticate(rest),
        Verb::StartTls => Some(Command::StartTls),
        Verb::Select => select(rest),
        Verb::Examine => examine(rest),
        Verb::List => list(rest),
        Verb::Status => status(rest),
        Verb::Fetch => fetch(false, rest),
        Verb::Store => store(false, rest),
        Verb::UidFetch => fetch(true, rest),
        Verb::UidStore => store(true, rest),
        Verb::UidExpunge => uid_expunge(rest),
        Verb::Copy => copy(false, false, rest),
        Verb::UidCopy => copy(true, false, rest),
        Verb::Move => copy(false, true, rest),
        Verb::UidMove => copy(true, true, rest),
        Verb::Append => append(rest),
        Verb::Lsub => lsub(rest),
        Verb::Subscribe => subscribe(rest),
        Verb::Unsubscribe => unsubscribe(rest),
        Verb::Search => search(false, rest),
        Verb::UidSearch => search(true, rest),
        Verb::Enable => enable(rest),
        Verb::Id => id(rest),
        _ => if_end(alone(verb)?, rest),
    }
}

#[tactic(auto, unfolding(crate::specs::Reading::read))]
fn reading(line: &[u8]) -> Result<(Tag<'_>, Command<'_>), ImapFault<'_>>
    ensures { result ≡ read line.now }
{
    let (tag, rest) = word_at(line);
    if !is_word_of(Class::Tag, tag) {
        return Err(ImapFault::NoTag);
    }
    let Some((verb, rest)) = verb_at(after_spaces(rest)) else {
        return Err(ImapFault::Unknown(Tag::of(tag)));
    };
    if is_left_out(verb) {
        return Err(ImapFault::LeftOut(Tag::of(tag)));
    }
    match command_at(verb, rest) {
        Some(command) => Ok((Tag::of(tag), command)),
        None => Err(ImapFault::Arguments(Tag::of(tag), verb)),
    }
}

/// The tag and the command of a line without its CRLF, or the first fault that it has (RFC 9051, 6
/// and 9). The line may have any bytes and any length. Spaces at its end are dropped. Takes no memory.
///
/// Errors, in this order: `NoTag` where the first word isn't made of a tag's bytes; `Unknown` where no
/// verb follows it; `LeftOut` for a verb that isn't offered, whatever follows; `Arguments` of that verb.
pub fn read_line(line: &[u8]) -> Result<(Tag<'_>, Command<'_>), ImapFault<'_>>
    // It is what the grammar says of the line.
    ensures found { Reads line.now result }
    // The grammar says nothing else of it.
    ensures only { (r : Result (List ℕ × Command) ImapFault) → Reads line.now r → r ≡ result }
    // The same, as a function of the line.
    ensures exact { result ≡ read line.now }
{
    reading(line)
}

fn reading_done(line: &[u8]) -> bool
    ensures { result ≡ is_done line.now }
{
    let (word, rest) = word_at(line);
    word.eq_ignore_ascii_case(b"DONE") && is_blank(rest)
}

/// Whether a line without its CRLF is DONE, which ends an IDLE (RFC 2177, 3): in upper or lower case, with spaces at its end or none.
pub fn is_done(line: &[u8]) -> bool
    // It is what the grammar says of the line.
    ensures spelled { (result ≡ true) ↔ DoneLine line.now }
    // The same, as a function of the line.
    ensures exact { result ≡ is_done line.now }
{
    reading_done(line)
}
