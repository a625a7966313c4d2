//! The commands of the selected state (RFC 9051, 6.4). In another state each is refused, and what would change the mailbox is refused
//! where EXAMINE selected it, before anything else is looked at.

ghost use Rattle.std.specs.Prelude.{◌≡◌, not, ◌&&◌, false, None, IfSome, IfNone};
ghost use Rattle.std.specs.List.{list_any};
ghost use Rattle.imap_grammar.specs.Items.{marks_seen};
ghost use Rattle.imap_grammar.specs.declared.command.Command.TheVariants as commands;
ghost use Rattle.imap_session.specs.Exchange.{Exchange, Expunge, Feed, Leave};
ghost use Rattle.imap_session.specs.Commands.{completed, expunge_set, fetch_messages, if_writable, on_found, says, search_known, store_messages, unlimited, wrong_state};
ghost use Rattle.imap_session.specs.Response.{Response as ResponseSpec};
ghost use Rattle.imap_session.specs.Texts.{response_text};
ghost use Rattle.imap_session.specs.inner.Store.{Does, Moves, last};

use crate::expunge::{expunge_all, expunge_set};
use crate::fetch::fetch_messages;
use crate::response::Response;
use crate::search::search_messages;
use crate::select::leave_mailbox;
use crate::set_flags::store_messages;
use crate::standing::Selected;
use crate::store::Store;
use crate::texts::ResponseText;
use imap_grammar::{Fetch, Search, SeqSet, Store as StoreCommand, Verb};
use line_io::Outlet;
use mailbox::MailFault;
use std::alloc::Global;

// Whether a FETCH sets \Seen: where its items do, and the mailbox may be changed.
fn sets_seen(command: &Fetch<'_>, mailbox: Selected) -> bool
    ensures { result ≡ (list_any marks_seen command.now.items && not mailbox.read_only) }
{
    command.items.mark_seen() && !mailbox.read_only
}

// Why a command that changes the mailbox is refused, where it is: what its last line says.
fn refusal(selected: Option<Selected>) -> Option<ResponseText>
    ensures refused { IfSome result (λ text. (x : Exchange)
        → on_found (if_writable x) wrong_state selected ≡ says (response_text text)) }
    ensures taken { IfNone result ((x : Exchange)
        → on_found (if_writable x) wrong_state selected ≡ x) }
{
    match selected {
        None => Some(ResponseText::WrongState),
        Some(mailbox) => {
            if mailbox.read_only {
                Some(ResponseText::ReadOnly)
            } else {
                None
            }
        }
    }
}

// FETCH and UID FETCH. They set no \Seen where EXAMINE selected the mailbox.
pub(crate) fn fetch<S: Store, O: Outlet>(
    alloc: Global,
    command: &Fetch<'_>,
    selected: Option<Selected>,
    store: &mut S,
    response: &mut Response<'_, O>,
) -> Result<ResponseText, MailFault>
    ensures { Does S.step
        (on_found (fetch_messages command.now) wrong_state selected) last store.old store.new
        response.old response.new result }
{
    match selected {
        None => Ok(ResponseText::WrongState),
        Some(mailbox) => {
            let mark_seen = sets_seen(command, mailbox);
            fetch_messages(alloc, command, mark_seen, store, response)
        }
    }
}

// SEARCH and UID SEARCH.
pub(crate) fn search_selected<S: Store, O: Outlet>(
    alloc: Global,
    command: &Search<'_>,
    selected: Option<Selected>,
    store: &mut S,
    response: &mut Response<'_, O>,
) -> Result<ResponseText, MailFault>
    ensures { Does S.step
        (on_found (search_known response.old.tag command.now) wrong_state selected) last store.old store.new
        response.old response.new result }
{
    match selected {
        None => Ok(ResponseText::WrongState),
        Some(_) => {
            if command.known_charset {
                search_messages(alloc, command, store, response)
            } else {
                Ok(ResponseText::BadCharset)
            }
        }
    }
}

// STORE and UID STORE.
pub(crate) fn store_flags<S: Store, O: Outlet>(
    alloc: Global,
    command: &StoreCommand<'_>,
    selected: Option<Selected>,
    store: &mut S,
    response: &mut Response<'_, O>,
) -> Result<ResponseText, MailFault>
    ensures { Does S.step (on_found (if_writable
        (store_messages command.now)) wrong_state selected) last store.old store.new response.old
        response.new result }
{
    match refusal(selected) {
        Some(text) => Ok(text),
        None => store_messages(alloc, command, store, response),
    }
}

// EXPUNGE.
pub(crate) fn expunge<S: Store, O: Outlet>(
    selected: Option<Selected>,
    store: &mut S,
    response: &mut Response<'_, O>,
) -> Result<ResponseText, MailFault>
    ensures { Does S.step (on_found (if_writable
        (Expunge None (Feed unlimited (completed commands.Expunge)))) wrong_state selected)
        last store.old store.new response.old response.new result }
{
    match refusal(selected) {
        Some(text) => Ok(text),
        None => expunge_all(store, response),
    }
}

// UID EXPUNGE.
pub(crate) fn uid_expunge<S: Store, O: Outlet>(
    alloc: Global,
    set: &SeqSet<'_>,
    selected: Option<Selected>,
    store: &mut S,
    response: &mut Response<'_, O>,
) -> Result<ResponseText, MailFault>
    ensures { Does S.step (on_found (if_writable
        (expunge_set set.now)) wrong_state selected) last store.old store.new response.old
        response.new result }
{
    match refusal(selected) {
        Some(text) => Ok(text),
        None => expunge_set(alloc, set, store, response),
    }
}

// CLOSE. It removes what has \Deleted, unless EXAMINE selected the mailbox.
pub(crate) fn close<S: Store>(
    selected: &mut Option<Selected>,
    store: &mut S,
) -> Result<ResponseText, MailFault>
    ensures { (response : ResponseSpec) → Moves S.step selected.old selected.new
        (on_found (λ mailbox. Leave (not mailbox.read_only) (completed commands.Close)) wrong_state
        selected.old)
        last store.old store.new response response result }
{
    let Some(mailbox) = *selected else {
        return Ok(ResponseText::WrongState);
    };
    leave_mailbox(!mailbox.read_only, selected, store)?;
    Ok(ResponseText::Completed(Verb::Close))
}

// UNSELECT.
pub(crate) fn unselect<S: Store>(
    selected: &mut Option<Selected>,
    store: &mut S,
) -> Result<ResponseText, MailFault>
    ensures { (response : ResponseSpec) → Moves S.step selected.old selected.new
        (on_found (λ mailbox. Leave false (completed commands.Unselect)) wrong_state selected.old)
        last store.old store.new response response result }
{
    let Some(_) = *selected else {
        return Ok(ResponseText::WrongState);
    };
    leave_mailbox(false, selected, store)?;
    Ok(ResponseText::Completed(Verb::Unselect))
}
