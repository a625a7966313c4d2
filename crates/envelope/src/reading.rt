//! Reading a line from left to right: each function takes its part from the front of the bytes.
//! What each answers is its namesake in specs/Reading.antt; that file is tied to the grammar by `read_command`.

ghost use Rattle.std.specs.Prelude.{◌≡◌, ◌≤◌, ◌<◌, length, false, IfSome, ◌||◌, not, nat_lt, Result};
ghost use Rattle.std.specs.List.{prefix_len, list_all};
ghost use Rattle.std.specs.Option.{option_copied, option_map};
ghost use Rattle.envelope.specs.Bytes.{is_text};
ghost use Rattle.envelope.specs.Values.{address, reverse_path, forward_path, To, said, understood, Command};
ghost use Rattle.envelope.specs.Grammar.{is_body, has_long_part, Reads};
ghost use Rattle.envelope.specs.Reading.{past_comma, past_all_hops, past_route, address_at, path_at, reverse_at, past_keyword, forward_at, after_spaces, is_tail, words, verb_of, of_form, form_of, alone, read, is_of, some_len, quoted_len, local_len, literal_len, domain_len, past_byte, past_domain};
ghost use Rattle.envelope.specs.declared.command.CommandFault.{CommandFault};
ghost use Rattle.envelope.specs.declared.command.Verb.TheVariants as verbs;

use crate::command::{CommandFault, ForwardPath, LmtpCommand, Mailbox, ReversePath, Verb};

/// Classes of bytes.
#[derive(Clone, Copy)]
pub enum Class {
    Space,
    NotSpace,
    NotSlash,
    Text,
    Graphic,
    Atom,
    Name,
    Literal,
}

/// Whether a byte is of this class.
pub fn is_of(class: Class, b: u8) -> bool
    ensures { result ≡ is_of class b }
{
    match class {
        Class::Space => b == b' ',
        Class::NotSpace => b != b' ',
        Class::NotSlash => b != b'/',
        Class::Text => matches!(b, b' '..=b'~'),
        Class::Graphic => matches!(b, b'!'..=b'~'),
        Class::Atom => {
            matches!(b, b'!'..=b'~')
                && !matches!(
                    b,
                    b'<' | b'>'
                        | b'('
                        | b')'
                        | b'['
                        | b']'
                        | b'\\'
                        | b','
                        | b':'
                        | b';'
                        | b'@'
                        | b'"'
                )
        }
        Class::Name => { matches!(b, b'0'..=b'9' | b'A'..=b'Z' | b'a'..=b'z' | b'-' | b'_' | b'.') }
        Class::Literal => matches!(b, b'!'..=b'~') && !matches!(b, b'[' | b']' | b'\\'),
    }
}

/// How many bytes at the front are of the class.
#[tactic(auto, using(crate::proofs::Steps::prefix_step))]
pub fn run_len(class: Class, bytes: &[u8]) -> usize
    ensures value { result ≡ prefix_len (is_of class) bytes.now }
    ensures bound { result ≤ length bytes.now }
{
    for (i, b) in bytes.iter().enumerate() {
        if !is_of(class, *b) {
            return i;
        }
    }
    bytes.len()
}

fn some_len(class: Class, bytes: &[u8]) -> Option<usize>
    ensures value { result ≡ some_len (is_of class) bytes.now }
    ensures bound { IfSome result (λ n. n ≤ length bytes.now) }
{
    let n = run_len(class, bytes);
    if n == 0 { None } else { Some(n) }
}

/// How many bytes a quoted string has from behind its first quote on.
#[tactic(auto, using(crate::proofs::Steps::quoted_step))]
fn quoted_len(bytes: &[u8]) -> Option<usize>
    ensures value { result ≡ quoted_len false bytes.now }
    ensures bound { IfSome result (λ n. n ≤ length bytes.now) }
{
    let mut escaped = false;
    for (i, b) in bytes.iter().enumerate() {
        if !escaped && *b == b'"' {
            return Some(i + 1);
        }
        if !is_of(Class::Text, *b) {
            return None;
        }
        escaped = !escaped && *b == b'\\';
    }
    None
}

fn local_len(bytes: &[u8]) -> Option<usize>
    ensures value { result ≡ local_len bytes.now }
    ensures bound { IfSome result (λ n. n ≤ length bytes.now) }
{
    match bytes {
        [b'"', rest @ ..] => {
            let n = quoted_len(rest)?;
            Some(n + 1)
        }
        _ => some_len(Class::Atom, bytes),
    }
}

fn literal_len(bytes: &[u8]) -> Option<usize>
    ensures value { result ≡ literal_len bytes.now }
    ensures bound { IfSome result (λ n. n ≤ length bytes.now) }
{
    let n = some_len(Class::Literal, bytes)?;
    match &bytes[n..] {
        [b']', ..] => Some(n + 1),
        _ => None,
    }
}

fn domain_len(bytes: &[u8]) -> Option<usize>
    ensures value { result ≡ domain_len bytes.now }
    ensures bound { IfSome result (λ n. n ≤ length bytes.now) }
{
    match bytes {
        [b'[', rest @ ..] => {
            let n = literal_len(rest)?;
            Some(n + 1)
        }
        _ => some_len(Class::Name, bytes),
    }
}

/// What follows this byte at the front; `None` where the text doesn't begin with it.
pub fn past_byte(b: u8, bytes: &[u8]) -> Option<&[u8]>
    // What follows, exactly, and it is shorter.
    ensures value { option_copied result ≡ past_byte b bytes.now }
    ensures bound { IfSome result (λ rest. length rest.now < length bytes.now) }
{
    match bytes {
        [first, rest @ ..] if *first == b => Some(rest),
        _ => None,
    }
}

fn past_domain(bytes: &[u8]) -> Option<&[u8]>
    ensures value { option_copied result ≡ past_domain bytes.now }
    ensures bound { IfSome result (λ rest. length rest.now ≤ length bytes.now) }
{
    let n = domain_len(bytes)?;
    Some(&bytes[n..])
}

fn past_comma(bytes: &[u8]) -> Option<&[u8]>
    ensures value { option_copied result ≡ past_comma bytes.now }
    ensures bound { IfSome result (λ rest. length rest.now < length bytes.now) }
{
    let rest = past_byte(b',', bytes)?;
    past_byte(b'@', rest)
}

/// Past the domains of a route after its first.
#[tactic(auto, using(crate::proofs::Hops::no_hop, crate::proofs::Hops::bad_hop, crate::proofs::Hops::one_hop))]
fn past_hops(bytes: &[u8]) -> Option<&[u8]>
    ensures value { option_copied result ≡ past_all_hops bytes.now }
    ensures bound { IfSome result (λ rest. length rest.now ≤ length bytes.now) }
{
    let mut rest = bytes;
    while let Some(start) = past_comma(rest) {
        rest = past_domain(start)?;
    }
    Some(rest)
}

fn past_route(bytes: &[u8]) -> Option<&[u8]>
    ensures value { option_copied result ≡ past_route bytes.now }
    ensures bound { IfSome result (λ rest. length rest.now ≤ length bytes.now) }
{
    match bytes {
        [b'@', rest @ ..] => {
            let rest = past_domain(rest)?;
            let rest = past_hops(rest)?;
            past_byte(b':', rest)
        }
        _ => Some(bytes),
    }
}

fn address_at(bytes: &[u8]) -> Option<(Mailbox<'_>, &[u8])>
    ensures value { option_map (λ x. (address x.0, x.1.now)) result ≡ address_at bytes.now }
    ensures bound { IfSome result (λ x. length x.1.now ≤ length bytes.now) }
{
    let (local, rest) = bytes.split_at(local_len(bytes)?);
    let rest = past_byte(b'@', rest)?;
    let (domain, rest) = rest.split_at(domain_len(rest)?);
    Some((Mailbox { local, domain }, rest))
}

fn path_at(bytes: &[u8]) -> Option<(Mailbox<'_>, &[u8])>
    ensures value { option_map (λ x. (address x.0, x.1.now)) result ≡ path_at bytes.now }
    ensures bound { IfSome result (λ x. length x.1.now ≤ length bytes.now) }
{
    let inner = past_byte(b'<', bytes)?;
    let start = past_route(inner)?;
    let (mailbox, rest) = address_at(start)?;
    let rest = past_byte(b'>', rest)?;
    Some((mailbox, rest))
}

fn reverse_at(bytes: &[u8]) -> Option<(ReversePath<'_>, &[u8])>
    ensures value { option_map (λ x. (reverse_path x.0, x.1.now)) result ≡ reverse_at bytes.now }
    ensures bound { IfSome result (λ x. length x.1.now ≤ length bytes.now) }
{
    match bytes {
        [b'<', b'>', rest @ ..] => Some((ReversePath::Null, rest)),
        _ => {
            let (mailbox, rest) = path_at(bytes)?;
            Some((ReversePath::Sender(mailbox), rest))
        }
    }
}

/// What follows this word at the front, in upper or lower case; `None` where the text doesn't begin with it.
#[tactic(auto, using(crate::proofs::Case::shorter_differs))]
pub fn past_keyword<'a>(keyword: &[u8], bytes: &'a [u8]) -> Option<&'a [u8]>
    // What follows, exactly, and it is no longer.
    ensures value { option_copied result ≡ past_keyword keyword.now bytes.now }
    ensures bound { IfSome result (λ rest. length rest.now ≤ length bytes.now) }
{
    if bytes.len() < keyword.len() {
        return None;
    }
    let (front, rest) = bytes.split_at(keyword.len());
    if front.eq_ignore_ascii_case(keyword) {
        Some(rest)
    } else {
        None
    }
}

#[tactic(auto, unfolding(crate::specs::Reading::forward_at))]
fn forward_at(bytes: &[u8]) -> Option<(ForwardPath<'_>, &[u8])>
    ensures value { option_map (λ x. (forward_path x.0, x.1.now)) result ≡ forward_at bytes.now }
    ensures bound { IfSome result (λ x. length x.1.now ≤ length bytes.now) }
{
    match past_keyword(b"<postmaster>", bytes) {
        Some(rest) => Some((ForwardPath::Postmaster, rest)),
        None => {
            let (mailbox, rest) = path_at(bytes)?;
            Some((ForwardPath::Recipient(mailbox), rest))
        }
    }
}

/// What follows the spaces at the front, if there are any.
pub fn after_spaces(bytes: &[u8]) -> &[u8]
    // What follows, exactly.
    ensures value { result.now ≡ after_spaces bytes.now }
{
    &bytes[run_len(Class::Space, bytes)..]
}

fn is_text(bytes: &[u8]) -> bool
    ensures { result ≡ list_all is_text bytes.now }
{
    bytes.iter().all(|b| is_of(Class::Text, *b))
}

fn is_tail(bytes: &[u8]) -> bool
    ensures { result ≡ is_tail bytes.now }
{
    match bytes {
        [] | [b' ', ..] => is_text(bytes),
        _ => false,
    }
}

fn count_words(bytes: &[u8]) -> usize
    ensures { result ≡ length (words bytes.now) }
{
    bytes
        .split(|b| *b == b' ')
        .filter(|word| !word.is_empty())
        .count()
}

fn is_body(word: &[u8]) -> bool
    ensures { result ≡ is_body word.now }
{
    word.eq_ignore_ascii_case(b"BODY=7BIT") || word.eq_ignore_ascii_case(b"BODY=8BITMIME")
}

fn are_bodies(bytes: &[u8]) -> bool
    ensures { result ≡ list_all is_body (words bytes.now) }
{
    bytes
        .split(|b| *b == b' ')
        .filter(|word| !word.is_empty())
        .all(|word| is_body(word))
}

/// The verb that a word is, in upper or lower case.
fn verb_of(word: &[u8]) -> Option<Verb>
    ensures { result ≡ verb_of word.now }
{
    if word.eq_ignore_ascii_case(b"LHLO") {
        Some(Verb::Lhlo)
    } else if word.eq_ignore_ascii_case(b"MAIL") {
        Some(Verb::Mail)
    } else if word.eq_ignore_ascii_case(b"RCPT") {
        Some(Verb::Rcpt)
    } else if word.eq_ignore_ascii_case(b"DATA") {
        Some(Verb::Data)
    } else if word.eq_ignore_ascii_case(b"RSET") {
        Some(Verb::Rset)
    } else if word.eq_ignore_ascii_case(b"QUIT") {
        Some(Verb::Quit)
    } else if word.eq_ignore_ascii_case(b"NOOP") {
        Some(Verb::Noop)
    } else if word.eq_ignore_ascii_case(b"VRFY") {
        Some(Verb::Vrfy)
    } else if word.eq_ignore_ascii_case(b"EXPN") {
        Some(Verb::Expn)
    } else if word.eq_ignore_ascii_case(b"HELP") {
        Some(Verb::Help)
    } else {
        None
    }
}

/// The most bytes of a path, its angle brackets among them (RFC 5321, 4.5.3.1.3).
const MOST_PATH: usize = 256;

/// The most bytes of a local part (RFC 5321, 4.5.3.1.1).
const MOST_LOCAL: usize = 64;

/// The most bytes of a domain (RFC 5321, 4.5.3.1.2).
const MOST_DOMAIN: usize = 255;

fn is_too_long(spelled: usize, mailbox: &Mailbox<'_>) -> bool
    ensures { result ≡ (nat_lt 256 spelled || has_long_part (To (address mailbox.now))) }
{
    spelled > MOST_PATH || mailbox.local.len() > MOST_LOCAL || mailbox.domain.len() > MOST_DOMAIN
}

const BAD: CommandFault = CommandFault::Syntax { lhlo: false };

fn reverse_fits(spelled: usize, path: &ReversePath<'_>) -> bool
    ensures { result ≡ not (nat_lt 256 spelled || has_long_part (reverse_path path.now)) }
{
    match path {
        ReversePath::Null => spelled <= MOST_PATH,
        ReversePath::Sender(mailbox) => !is_too_long(spelled, mailbox),
    }
}

fn forward_fits(spelled: usize, path: &ForwardPath<'_>) -> bool
    ensures { result ≡ not (nat_lt 256 spelled || has_long_part (forward_path path.now)) }
{
    match path {
        ForwardPath::Postmaster => spelled <= MOST_PATH,
        ForwardPath::Recipient(mailbox) => !is_too_long(spelled, mailbox),
    }
}

/// What follows MAIL.
fn mail(rest: &[u8]) -> Result<LmtpCommand<'_>, CommandFault>
    ensures { understood result ≡ of_form verbs.Mail (form_of verbs.Mail rest.now) }
{
    let Some(rest) = past_keyword(b"FROM:", after_spaces(rest)) else {
        return Err(BAD);
    };
    let start = after_spaces(rest);
    let Some((path, tail)) = reverse_at(start) else {
        return Err(BAD);
    };
    if !is_tail(tail) {
        return Err(BAD);
    }
    if !reverse_fits(start.len() - tail.len(), &path) {
        return Err(CommandFault::PathTooLong);
    }
    if !are_bodies(tail) {
        return Err(CommandFault::Parameter);
    }
    Ok(LmtpCommand::Mail(path))
}

/// What follows RCPT.
fn rcpt(rest: &[u8]) -> Result<LmtpCommand<'_>, CommandFault>
    ensures { understood result ≡ of_form verbs.Rcpt (form_of verbs.Rcpt rest.now) }
{
    let Some(rest) = past_keyword(b"TO:", after_spaces(rest)) else {
        return Err(BAD);
    };
    let start = after_spaces(rest);
    let Some((path, tail)) = forward_at(start) else {
        return Err(BAD);
    };
    if !is_tail(tail) {
        return Err(BAD);
    }
    if !forward_fits(start.len() - tail.len(), &path) {
        return Err(CommandFault::PathTooLong);
    }
    if count_words(tail) != 0 {
        return Err(CommandFault::Parameter);
    }
    Ok(LmtpCommand::Rcpt(path))
}

/// A line whose verb stands with nothing behind it but spaces.
fn alone<'a>(command: LmtpCommand<'a>, rest: &[u8]) -> Result<LmtpCommand<'a>, CommandFault>
    ensures { understood result ≡ of_form verbs.Data (alone (said command.entry) rest.now) }
{
    if count_words(rest) == 0 {
        Ok(command)
    } else {
        Err(BAD)
    }
}

/// The command of a verb and what stands behind it.
fn command_of(verb: Verb, rest: &[u8]) -> Result<LmtpCommand<'_>, CommandFault>
    ensures { understood result ≡ of_form verb (form_of verb rest.now) }
{
    match verb {
        Verb::Lhlo => {
            if is_text(rest) && count_words(rest) == 1 {
                Ok(LmtpCommand::Lhlo)
            } else {
                Err(CommandFault::Syntax { lhlo: true })
            }
        }
        Verb::Mail => mail(rest),
        Verb::Rcpt => rcpt(rest),
        Verb::Data => alone(LmtpCommand::Data, rest),
        Verb::Rset => alone(LmtpCommand::Rset, rest),
        Verb::Quit => alone(LmtpCommand::Quit, rest),
        Verb::Noop => {
            if is_text(rest) {
                Ok(LmtpCommand::Noop)
            } else {
                Err(BAD)
            }
        }
        Verb::Vrfy => {
            if is_text(rest) && count_words(rest) != 0 {
                Ok(LmtpCommand::Vrfy)
            } else {
                Err(BAD)
            }
        }
        Verb::Expn => Ok(LmtpCommand::Expn),
        Verb::Help => Ok(LmtpCommand::Help),
    }
}

#[tactic(auto, unfolding(crate::specs::Reading::read))]
fn reading(line: &[u8]) -> Result<LmtpCommand<'_>, CommandFault>
    ensures { understood result ≡ read line.now }
{
    let (word, rest) = line.split_at(run_len(Class::NotSpace, line));
    match verb_of(word) {
        Some(verb) => command_of(verb, rest),
        None => Err(CommandFault::Unknown),
    }
}

/// The command of a line without its CRLF, or the first fault that it has (RFC 2033, section 4;
/// RFC 5321, section 4.1.1). The line may have any bytes and any length.
///
/// Errors, in this order: `Unknown`, `Syntax`, `PathTooLong`, `Parameter`.
pub fn read_command(line: &[u8]) -> Result<LmtpCommand<'_>, CommandFault>
    // It is what the grammar says of the line.
    ensures found { Reads line.now (understood result) }
    // The grammar says nothing else of it.
    ensures only { (r : Result Command CommandFault) → Reads line.now r → r ≡ understood result }
    // The same, as a function of the line.
    ensures exact { understood result ≡ read line.now }
{
    reading(line)
}
