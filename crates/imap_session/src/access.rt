//! What a session doesn't do for its client: what its profile doesn't have, and what is for a client that has logged in.
//! What is said in place of it is told in specs/Commands.antt; nothing is carried out here.

ghost use Rattle.std.specs.Prelude.{◌≡◌};
ghost use Rattle.std.specs.Option.{option_copied};
ghost use Rattle.imap_session.specs.Commands.{arguments_text, asks_compatible, barred_at, before_login, logs_in_as, refused_login, standard_lacks, unoffered, unoffered_verb, without_login};

use crate::plain::{has_response, is_plain, is_response_of};
use crate::standing::Profile;
use crate::texts::ResponseText;
use crate::user::UserName;
use imap_grammar::{Authenticate, Command, Verb};

// What is said of a verb that the standard profile doesn't have.
fn standard_lacks(verb: Verb) -> Option<ResponseText>
    ensures { result ≡ standard_lacks verb }
{
    match verb {
        Verb::Login | Verb::Authenticate => Some(ResponseText::WrongState),
        Verb::Enable => Some(ResponseText::NotOffered),
        Verb::Id => Some(ResponseText::UnknownCommand),
        Verb::Check | Verb::Lsub => Some(ResponseText::UnknownCommand),
        Verb::Subscribe | Verb::Unsubscribe => Some(ResponseText::NotOffered),
        Verb::Search | Verb::UidSearch => Some(ResponseText::NotOffered),
        Verb::Copy | Verb::UidCopy | Verb::Move | Verb::UidMove => Some(ResponseText::NotOffered),
        _ => None,
    }
}

fn unoffered_verb(profile: Profile, verb: Verb) -> Option<ResponseText>
    ensures { result ≡ unoffered_verb profile verb }
{
    match profile {
        Profile::Standard => standard_lacks(verb),
        Profile::Compatible => None,
    }
}

/// What is said where what follows this verb isn't right for it.
pub(crate) fn arguments_text(profile: Profile, verb: Verb) -> ResponseText
    ensures { result ≡ arguments_text profile verb }
{
    match unoffered_verb(profile, verb) {
        Some(text) => text,
        None => ResponseText::InvalidArguments,
    }
}

// Whether it asks for something of a message or a mailbox that the standard profile doesn't have.
fn asks_compatible(command: &Command<'_>) -> bool
    ensures { result ≡ asks_compatible command.now }
{
    match command {
        Command::Status { items, .. } => items.have_recent(),
        Command::Fetch(fetch) => fetch.items.have_compatible(),
        _ => false,
    }
}

fn unoffered(profile: Profile, command: &Command<'_>) -> Option<ResponseText>
    ensures { result ≡ unoffered profile command.now }
{
    match profile {
        Profile::Standard => {
            if asks_compatible(command) {
                Some(ResponseText::InvalidArguments)
            } else {
                standard_lacks(command.verb())
            }
        }
        Profile::Compatible => None,
    }
}

// What is said before the client has logged in, unless the command is for such a client too.
fn before_login(verb: Verb) -> Option<ResponseText>
    ensures { result ≡ before_login verb }
{
    match verb {
        Verb::Capability | Verb::Noop | Verb::Logout | Verb::Id => None,
        Verb::Login => Some(ResponseText::LoginFailed),
        Verb::StartTls => Some(ResponseText::NotOffered),
        _ => Some(ResponseText::WrongState),
    }
}

// The same of AUTHENTICATE.
fn refused_login(asked: &Authenticate<'_>) -> ResponseText
    ensures { result ≡ refused_login asked.now }
{
    if !is_plain(asked.mechanism.as_bytes()) {
        return ResponseText::NotOffered;
    }
    if has_response(asked) {
        ResponseText::LoginFailed
    } else {
        ResponseText::InvalidArguments
    }
}

fn without_login(command: &Command<'_>) -> Option<ResponseText>
    ensures { result ≡ without_login command.now }
{
    match command {
        Command::Authenticate(asked) => Some(refused_login(asked)),
        _ => before_login(command.verb()),
    }
}

/// What is said in place of carrying a command out, where it isn't.
pub(crate) fn barred_at(
    login: Option<&[u8]>,
    profile: Profile,
    command: &Command<'_>,
) -> Option<ResponseText>
    ensures { result ≡ barred_at (option_copied login.entry) profile command.now }
{
    match login {
        None => unoffered(profile, command),
        Some(_) => without_login(command),
    }
}

/// Whether the client logs in, as the user as whom it is to.
pub(crate) fn logs_in_as(login: Option<&[u8]>, command: &Command<'_>) -> bool
    ensures { result ≡ logs_in_as (option_copied login.entry) command.now }
{
    let Some(user) = login else {
        return false;
    };
    match command {
        Command::Login { user: name, .. } => name.is(user),
        Command::Authenticate(asked) => is_response_of(user, asked),
        _ => false,
    }
}
