//! FETCH and UID FETCH (RFC 9051, 6.4.5 and 6.4.9).

ghost use Rattle.std.specs.Prelude.{◌≡◌, Bool, false, List, ℕ, map, OnOk, OnErr, IfErr, if◌then◌else◌};
ghost use Rattle.imap_answers.specs.Answers.{row_answer};
ghost use Rattle.imap_grammar.specs.Sets.{named_at};
ghost use Rattle.imap_session.specs.Exchange.{Exchange, Read, Write};
ghost use Rattle.imap_session.specs.Commands.{on_found, fetched, fetching, messages_done, on_set, wanting};
ghost use Rattle.imap_session.specs.inner.Response.{adding};
ghost use Rattle.imap_session.specs.inner.Store.{Does, last};
ghost use Rattle.imap_grammar.specs.declared.command.Command.TheVariants as commands;

use crate::response::Response;
use crate::store::Store;
use crate::texts::ResponseText;
use imap_answers::write_row;
use imap_grammar::{Fetch, FetchItem, Named, Verb};
use line_io::Outlet;
use mailbox::{MailFault, Row};
use std::alloc::Global;

// Writes the answer for the message at this position.
fn write_fetched<O: Outlet>(
    by_uid: bool,
    items: &[FetchItem<'_>],
    position: usize,
    row: &Row,
    response: &mut Response<'_, O>,
) -> Result<(), MailFault>
    ensures text { OnOk result (response.new
        ≡ adding (row_answer position by_uid items.now row.now) response.old) }
    ensures err { OnErr result (response.new ≡ response.old) }
    ensures fault { IfErr result (λ f. f ≡ MailFault.NoMemory) }
{
    write_row(
        position,
        by_uid,
        items,
        row,
        response.held,
        &mut response.out,
    )?;
    Ok(())
}

// Answers for one message, and says whether it is there.
fn fetch_one<S: Store, O: Outlet>(
    fetch: &Fetch<'_>,
    items: &[FetchItem<'_>],
    mark_seen: bool,
    message: Named,
    store: &mut S,
    response: &mut Response<'_, O>,
) -> Result<bool, MailFault>
    requires items { items.now ≡ fetch.now.items }
    ensures { (view : List ℕ) (uid : ℕ) → message ≡ named_at view uid → (x y : Exchange)
        → Does S.step
        (Read uid mark_seen (on_found (λ row. Write (fetched fetch.now view uid row) x) y))
        (λ here. if here then x else y) store.old store.new response.old response.new result }
{
    let Some(row) = store.read(message.uid, mark_seen)? else {
        return Ok(false);
    };
    write_fetched(fetch.by_uid, items, message.position, &row, response)?;
    Ok(true)
}

// Answers for these messages, and says whether one of them is gone.
fn fetch_all<S: Store, O: Outlet>(
    fetch: &Fetch<'_>,
    items: &[FetchItem<'_>],
    mark_seen: bool,
    messages: &[Named],
    store: &mut S,
    response: &mut Response<'_, O>,
) -> Result<bool, MailFault>
    requires items { items.now ≡ fetch.now.items }
    ensures { (view uids : List ℕ) → messages.now ≡ map (named_at view) uids
        → (done : Bool → Exchange) → Does S.step
        (fetching fetch.now mark_seen view done uids false) done store.old store.new response.old
        response.new result }
{
    let mut gone = false;
    for message in messages {
        let here = fetch_one(fetch, items, mark_seen, *message, store, response)?;
        if !here {
            gone = true;
        }
    }
    Ok(gone)
}

// After the last message: only UID FETCH shows changes. Answers what the last line says.
fn finish_fetch<S: Store, O: Outlet>(
    fetch: &Fetch<'_>,
    gone: bool,
    store: &mut S,
    response: &mut Response<'_, O>,
) -> Result<ResponseText, MailFault>
    ensures { Does S.step
        (messages_done (commands.Fetch fetch.now) fetch.now.by_uid gone) last store.old store.new
        response.old response.new result }
{
    if fetch.by_uid {
        response.show(usize::MAX, store)?;
        Ok(ResponseText::Completed(Verb::UidFetch))
    } else if gone {
        Ok(ResponseText::MessagesGone)
    } else {
        Ok(ResponseText::Completed(Verb::Fetch))
    }
}

// A FETCH in the selected mailbox. Answers what the last line says.
pub(crate) fn fetch_messages<S: Store, O: Outlet>(
    alloc: Global,
    fetch: &Fetch<'_>,
    mark_seen: bool,
    store: &mut S,
    response: &mut Response<'_, O>,
) -> Result<ResponseText, MailFault>
    ensures { Does S.step
        (wanting (on_set fetch.now.by_uid fetch.now.set (λ view uids.
        fetching fetch.now mark_seen view
        (messages_done (commands.Fetch fetch.now) fetch.now.by_uid) uids false)))
        last store.old store.new response.old response.new result }
{
    let items = fetch.items.list(alloc)?;
    let items = items.as_slice();
    let Some(messages) = store.choose(alloc, &fetch.set, fetch.by_uid)? else {
        return Ok(ResponseText::SequenceTooHigh);
    };
    let gone = fetch_all(
        fetch,
        items,
        mark_seen,
        messages.as_slice(),
        store,
        response,
    )?;
    finish_fetch(fetch, gone, store, response)
}
