//! SEARCH and UID SEARCH (RFC 9051, 6.4.4 and 6.4.9): each message of the view is read, and the numbers of those that the keys are so of are told on one line.
//! What keys there are, and what each says of a message, is told in `imap_grammar`.

ghost use Rattle.std.specs.Prelude.{◌≡◌, ◌+◌, ◌<◌, ◌≤◌, ◌++◌, List, ℕ, [], map, false, vec_capacity, vec_len, OnOk, OnErr, IfErr, option_to_list};
ghost use Rattle.imap_answers.specs.Answers.{found_answer};
ghost use Rattle.imap_grammar.specs.Sets.{last_uid, named_at};
ghost use Rattle.imap_session.specs.Exchange.{Exchange, Read};
ghost use Rattle.imap_session.specs.Commands.{found_in, messages_done, on_found, search_messages, searching, wanting};
ghost use Rattle.imap_session.specs.Response.{Response as ResponseSpec};
ghost use Rattle.imap_session.specs.inner.Response.{adding};
ghost use Rattle.imap_session.specs.inner.Store.{Does, last};
ghost use Rattle.imap_grammar.specs.declared.command.Command.TheVariants as commands;

use crate::response::Response;
use crate::store::Store;
use crate::texts::ResponseText;
use imap_answers::write_found;
use imap_grammar::{Named, Search, SeqSet, Verb};
use line_io::Outlet;
use mailbox::{MailFault, Row};
use std::alloc::Global;

// The number of a message that was read, where the keys are so of it.
fn found_in(search: &Search<'_>, last: Named, message: Named, row: &Row) -> Option<usize>
    ensures { option_to_list result ≡ found_in search.now last message row.now }
{
    if !search.keys.matches(last, message, row.flags, &row.text) {
        None
    } else if search.by_uid {
        Some(message.uid as usize)
    } else {
        Some(message.position)
    }
}

// Keeps a number, where there is one, in room that was reserved.
fn keep(number: Option<usize>, found: &mut Vec<usize>)
    requires room { vec_len found.old < vec_capacity found.old }
    ensures items { found.new.items ≡ found.old.items ++ option_to_list number }
    ensures len { vec_len found.new ≤ vec_len found.old + 1 }
    ensures capacity { vec_capacity found.new ≡ vec_capacity found.old }
{
    if let Some(number) = number {
        found.push_reserved(number);
    }
}

// Reads one message, and answers its number where it is found. Of one that is gone there is none.
fn search_one<S: Store>(
    search: &Search<'_>,
    last: Named,
    message: Named,
    store: &mut S,
) -> Result<Option<usize>, MailFault>
    ensures { (response : ResponseSpec) (view : List ℕ) (uid : ℕ) → message ≡ named_at view uid
        → (next : List ℕ → Exchange) (gone : Exchange) → gone ≡ next [] → Does S.step
        (Read uid false (on_found (λ row. next (found_in search.now last (named_at view uid) row)) gone))
        (λ found. next (option_to_list found)) store.old store.new response response result }
{
    let Some(row) = store.read(message.uid, false)? else {
        return Ok(None);
    };
    Ok(found_in(search, last, message, &row))
}

// Reads these messages and answers the numbers of those that are found.
fn search_all<S: Store>(
    alloc: Global,
    search: &Search<'_>,
    last: Named,
    messages: &[Named],
    store: &mut S,
) -> Result<Vec<usize>, MailFault>
    ensures { (response : ResponseSpec) (view uids : List ℕ)
        → messages.now ≡ map (named_at view) uids
        → (done : List ℕ → Exchange) → Does S.step
        (wanting (searching search.now last view done uids []))
        (λ found. done found.items) store.old store.new response response result }
{
    let mut found = Vec::with_capacity(alloc, messages.len())?;
    for message in messages {
        let number = search_one(search, last, *message, store)?;
        keep(number, &mut found);
    }
    Ok(found)
}

// Reads the messages of a view and answers the numbers of those that are found.
fn search_view<S: Store>(
    alloc: Global,
    search: &Search<'_>,
    messages: &[Named],
    store: &mut S,
) -> Result<Vec<usize>, MailFault>
    ensures { (response : ResponseSpec) (view uids : List ℕ)
        → messages.now ≡ map (named_at view) uids
        → (done : List ℕ → Exchange) → Does S.step
        (wanting (searching search.now (named_at view (last_uid uids)) view done uids []))
        (λ found. done found.items) store.old store.new response response result }
{
    let Some(last) = messages.last() else {
        return Ok(Vec::new(alloc));
    };
    search_all(alloc, search, *last, messages, store)
}

// Writes which messages were found, as the search asks for it.
fn write_numbers<O: Outlet>(
    search: &Search<'_>,
    numbers: &[usize],
    response: &mut Response<'_, O>,
) -> Result<(), MailFault>
    ensures text { OnOk result (response.new ≡ adding
        (found_answer response.old.tag search.now.by_uid search.now.returns numbers.now)
        response.old) }
    ensures err { OnErr result (response.new ≡ response.old) }
    ensures fault { IfErr result (λ f. f ≡ MailFault.NoMemory) }
{
    let mut line = Vec::new(response.out.alloc());
    write_found(
        response.tag,
        search.by_uid,
        search.returns,
        numbers,
        &mut line,
    )?;
    response.write(&line)
}

// After the line: only UID SEARCH shows changes. Answers what the last line says.
fn finish_search<S: Store, O: Outlet>(
    search: &Search<'_>,
    store: &mut S,
    response: &mut Response<'_, O>,
) -> Result<ResponseText, MailFault>
    ensures { Does S.step
        (messages_done (commands.Search search.now) search.now.by_uid false) last store.old store.new
        response.old response.new result }
{
    if search.by_uid {
        response.show(usize::MAX, store)?;
        Ok(ResponseText::Completed(Verb::UidSearch))
    } else {
        Ok(ResponseText::Completed(Verb::Search))
    }
}

// A SEARCH in the selected mailbox. Answers what the last line says.
pub(crate) fn search_messages<S: Store, O: Outlet>(
    alloc: Global,
    search: &Search<'_>,
    store: &mut S,
    response: &mut Response<'_, O>,
) -> Result<ResponseText, MailFault>
    ensures { Does S.step (search_messages response.old.tag search.now) last store.old store.new
        response.old response.new result }
{
    let Some(messages) = store.choose(alloc, &SeqSet::all(), true)? else {
        return Ok(ResponseText::SequenceTooHigh);
    };
    let found = search_view(alloc, search, messages.as_slice(), store)?;
    write_numbers(search, found.as_slice(), response)?;
    finish_search(search, store, response)
}
