//! One command, carried out: the part that fits it, in the state that it wants, and what its last line says.
//! What each part does is told in the modules of the commands.

ghost use Rattle.std.specs.Prelude.{◌≡◌, ◌+◌, ◌≤◌, ◌++◌, ◌||◌, length, true, false, List, ℕ, Option, None, IfSome, IfNone};
ghost use Rattle.imap_grammar.specs.declared.command.Command.TheVariants as commands;
ghost use Rattle.imap_session.specs.Commands.{completed, fault_text, on_idle_line, showing};
ghost use Rattle.imap_session.specs.Exchange.{Mailing};
ghost use Rattle.imap_session.specs.inner.Store.{Does, Moves, after_command, behind_first_line, ending, first_line, is_copy, is_idle, is_open, last};

use crate::access::arguments_text;
use crate::count::{count_mailbox, list_folders, list_subscribed, subscribe};
use crate::expunge::show_pending;
use crate::response::{LAST, Response};
use crate::say::{put_bye, put_of_server, put_tagged, put_untagged};
use crate::select::select_mailbox;
use crate::selected::{close, expunge, fetch, search_selected, store_flags, uid_expunge, unselect};
use crate::standing::{After, Folder, Profile, Selected};
use crate::store::Store;
use crate::texts::{ResponseText, ServerText};
use imap_grammar::{Append, Command, CopyMessages, ImapFault, Verb, is_done};
use line_io::Outlet;
use mailbox::MailFault;
use std::alloc::Global;

/// Room for the line that CAPABILITY, NAMESPACE, ID, ENABLE or LOGOUT writes before its last one, or by which SELECT or EXAMINE tells that a mailbox was left.
pub(crate) const FIRST: usize = 117;

// Writes what is said of a line that is no command, in room that was reserved.
pub(crate) fn put_fault<O: Outlet>(profile: Profile, fault: &ImapFault<'_>, out: &mut O)
    requires fits { length (fault_text profile fault.now) ≤ O.room out.old }
    ensures text { O.said out.new ≡ O.said out.old ++ fault_text profile fault.now }
    ensures lot { O.lot out.new ≡ O.lot out.old }
{
    match fault {
        ImapFault::NoTag => {
            put_untagged(ResponseText::MissingTag, out);
        }
        ImapFault::Unknown(tag) => put_tagged(tag.as_bytes(), ResponseText::UnknownCommand, out),
        ImapFault::LeftOut(tag) => put_tagged(tag.as_bytes(), ResponseText::NotOffered, out),
        ImapFault::Arguments(tag, verb) => {
            put_tagged(tag.as_bytes(), arguments_text(profile, *verb), out)
        }
    }
}

/// What a client may send after a command that was done.
pub(crate) fn after_command(command: &Command<'_>) -> After
    ensures { result ≡ after_command command.now }
{
    match command {
        Command::Logout => After::Bye,
        _ => After::Go,
    }
}

/// Whether it is IDLE.
pub(crate) fn is_idle(command: &Command<'_>) -> bool
    ensures { result ≡ is_idle command.now }
{
    matches!(command, Command::Idle)
}

/// The message that is to be appended, where it is APPEND.
pub(crate) fn append_of<'a, 'b>(said: &'b Command<'a>) -> Option<&'b Append<'a>>
    ensures some { IfSome result (λ a. said.now ≡ commands.Append a.now) }
    ensures none { IfNone result (is_open said.now ≡ (is_idle said.now || is_copy said.now)) }
{
    match said {
        Command::Append(append) => Some(append),
        _ => None,
    }
}

/// What is to be copied, where it is COPY or MOVE.
pub(crate) fn copy_of<'a, 'b>(said: &'b Command<'a>) -> Option<&'b CopyMessages<'a>>
    ensures some { IfSome result (λ c. said.now ≡ commands.Copy c.now) }
    ensures none { IfNone result (is_copy said.now ≡ false) }
{
    match said {
        Command::Copy(copy) => Some(copy),
        _ => None,
    }
}

/// Answers a line of a session that idles but for the last line, and answers what that says: DONE shows what is pending, where a mailbox is
/// selected, and any other line is refused.
pub(crate) fn end_idle<S: Store, O: Outlet>(
    line: &[u8],
    selected: Option<Selected>,
    store: &mut S,
    response: &mut Response<'_, O>,
) -> Result<ResponseText, MailFault>
    ensures { Does S.step (on_idle_line selected line.now) last store.old store.new response.old
        response.new result }
{
    if !is_done(line) {
        return Ok(ResponseText::ExpectedDone);
    }
    show_pending(selected, store, response)?;
    Ok(ResponseText::Completed(Verb::Idle))
}

// CHECK: the same as NOOP (RFC 3501, 6.4.1).
fn check<S: Store, O: Outlet>(
    selected: Option<Selected>,
    store: &mut S,
    response: &mut Response<'_, O>,
) -> Result<ResponseText, MailFault>
    ensures { Does S.step (showing selected (completed commands.Check)) last store.old store.new
        response.old response.new result }
{
    show_pending(selected, store, response)?;
    Ok(ResponseText::Completed(Verb::Check))
}

// NOOP: what is pending is shown, where a mailbox is selected.
fn note_nothing<S: Store, O: Outlet>(
    selected: Option<Selected>,
    store: &mut S,
    response: &mut Response<'_, O>,
) -> Result<ResponseText, MailFault>
    ensures { Does S.step (showing selected (completed commands.Noop)) last store.old store.new
        response.old response.new result }
{
    show_pending(selected, store, response)?;
    Ok(ResponseText::Completed(Verb::Noop))
}

/// Writes what a command says of the server before all else, in room that was reserved, and answers how many bytes that is. Most say nothing.
pub(crate) fn put_first_line<O: Outlet>(
    profile: Profile,
    command: &Command<'_>,
    out: &mut O,
) -> usize
    requires fits { FIRST ≤ O.room out.old }
    ensures line { O.said out.new ≡ O.said out.old ++ first_line profile command.now }
    ensures length { result ≡ length (first_line profile command.now) }
    ensures short { result ≤ FIRST }
    ensures room { O.room out.old ≤ O.room out.new + result }
    ensures lot { O.lot out.new ≡ O.lot out.old }
{
    match command {
        Command::Capability => put_of_server(ServerText::Capabilities(profile), out),
        Command::Namespace => put_of_server(ServerText::Namespaces, out),
        Command::Id => put_of_server(ServerText::Identity, out),
        Command::Enable => put_of_server(ServerText::NoneEnabled, out),
        Command::Logout => put_bye(ResponseText::LoggingOut, out),
        _ => 0,
    }
}

// Carries out a command other than IDLE, APPEND, COPY and MOVE but for its first line and its last, and answers what that says.
// Its frame stands apart: the stack of a thread that waits for its client is as deep as what it once answered.
#[inline(never)]
pub(crate) fn carry_out<S: Store, O: Outlet>(
    alloc: Global,
    profile: Profile,
    folders: &[Folder],
    command: &Command<'_>,
    selected: &mut Option<Selected>,
    store: &mut S,
    response: &mut Response<'_, O>,
) -> Result<ResponseText, MailFault>
    requires other { is_open command.now ≡ false }
    requires long { length response.old.tag + (LAST + FIRST)
        ≤ response.old.held + length (first_line profile command.now) }
    ensures { (login : Option (List ℕ)) (mailing : Mailing) → Moves S.step selected.old selected.new
        (behind_first_line response.old.tag (record {
          folders = folders.now;
          profile = profile;
          login = login;
          selected = selected.old;
          idling = None;
          ended = false;
          mailing = mailing;
        }) command.now)
        (ending (after_command command.now)) store.old store.new response.old response.new result }
{
    match command {
        Command::Capability => Ok(ResponseText::Completed(Verb::Capability)),
        Command::Namespace => Ok(ResponseText::Completed(Verb::Namespace)),
        Command::Id => Ok(ResponseText::Completed(Verb::Id)),
        Command::Enable => Ok(ResponseText::Completed(Verb::Enable)),
        Command::Noop => note_nothing(*selected, store, response),
        Command::Check => check(*selected, store, response),
        Command::Logout => Ok(ResponseText::Completed(Verb::Logout)),
        Command::Idle => unreachable!(),
        Command::Append(_) => unreachable!(),
        Command::Copy(_) => unreachable!(),
        Command::Login { .. } => Ok(ResponseText::WrongState),
        Command::Authenticate(_) => Ok(ResponseText::WrongState),
        Command::StartTls => Ok(ResponseText::WrongState),
        Command::Select(name) => {
            select_mailbox(profile, folders, false, name, selected, store, response)
        }
        Command::Examine(name) => {
            select_mailbox(profile, folders, true, name, selected, store, response)
        }
        Command::List { reference, pattern } => list_folders(
            alloc, folders, reference, pattern, *selected, store, response,
        ),
        Command::Lsub { reference, pattern } => list_subscribed(
            alloc, folders, reference, pattern, *selected, store, response,
        ),
        Command::Subscribe(name) => subscribe(alloc, folders, name, Verb::Subscribe),
        Command::Unsubscribe(name) => subscribe(alloc, folders, name, Verb::Unsubscribe),
        Command::Status { name, items } => {
            count_mailbox(alloc, folders, name, items, *selected, store, response)
        }
        Command::Close => close(selected, store),
        Command::Unselect => unselect(selected, store),
        Command::Expunge => expunge(*selected, store, response),
        Command::UidExpunge(set) => uid_expunge(alloc, set, *selected, store, response),
        Command::Fetch(command) => fetch(alloc, command, *selected, store, response),
        Command::Search(command) => search_selected(alloc, command, *selected, store, response),
        Command::Store(command) => store_flags(alloc, command, *selected, store, response),
    }
}
