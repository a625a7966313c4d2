//! STORE and UID STORE (RFC 9051, 6.4.6 and 6.4.9).

ghost use Rattle.std.specs.Prelude.{◌≡◌, Bool, false, List, [], ℕ, map, OnOk, OnErr, IfErr, if◌then◌else◌};
ghost use Rattle.imap_grammar.specs.declared.command.Command.TheVariants as commands;
ghost use Rattle.imap_grammar.specs.Sets.{named_at};
ghost use Rattle.imap_session.specs.Exchange.{Exchange, Alter};
ghost use Rattle.imap_session.specs.Commands.{on_found, on_set, stored, storing, messages_done};
ghost use Rattle.imap_answers.specs.Answers.{flags_answer};
ghost use Rattle.imap_session.specs.inner.Response.{adding};
ghost use Rattle.imap_session.specs.inner.Store.{Does, last};

use crate::response::Response;
use crate::store::Store;
use crate::texts::ResponseText;
use change_ring::Flags;
use imap_answers::write_stored;
use imap_grammar::{Named, Store as StoreCommand, Verb};
use line_io::Outlet;
use mailbox::MailFault;
use std::alloc::Global;

// Writes the answer for a message, unless the client asked for silence.
fn write_changed<O: Outlet>(
    command: &StoreCommand<'_>,
    message: Named,
    flags: Flags,
    response: &mut Response<'_, O>,
) -> Result<(), MailFault>
    ensures text { OnOk result (response.new ≡ adding
        (if command.now.silent then [] else flags_answer command.now.by_uid message.position
        message.uid flags) response.old) }
    ensures err { OnErr result (response.new ≡ response.old) }
    ensures fault { IfErr result (λ f. f ≡ MailFault.NoMemory) }
    ensures told { OnErr result (command.now.silent ≡ false) }
{
    if command.silent {
        return Ok(());
    }
    let mut line = Vec::new(response.out.alloc());
    let Named { position, uid } = message;
    if write_stored(position, command.by_uid, uid, flags, &mut line).is_err() {
        return Err(MailFault::NoMemory);
    }
    response.write(&line)
}

// Changes the flags of one message, and says whether it is there.
fn store_one<S: Store, O: Outlet>(
    command: &StoreCommand<'_>,
    message: Named,
    store: &mut S,
    response: &mut Response<'_, O>,
) -> Result<bool, MailFault>
    ensures { (view : List ℕ) (uid : ℕ) → message ≡ named_at view uid → (x y : Exchange)
        → Does S.step
        (Alter uid command.now.change (on_found (λ flags. stored command.now view uid flags x) y))
        (λ here. if here then x else y) store.old store.new response.old response.new result }
{
    let Some(flags) = store.store(message.uid, command.change)? else {
        return Ok(false);
    };
    write_changed(command, message, flags, response)?;
    Ok(true)
}

// Changes the flags of these messages, and says whether one of them is gone.
fn store_all<S: Store, O: Outlet>(
    command: &StoreCommand<'_>,
    messages: &[Named],
    store: &mut S,
    response: &mut Response<'_, O>,
) -> Result<bool, MailFault>
    ensures { (view uids : List ℕ) → messages.now ≡ map (named_at view) uids
        → (done : Bool → Exchange) → Does S.step
        (storing command.now view done uids false) done store.old store.new response.old
        response.new result }
{
    let mut gone = false;
    for message in messages {
        let here = store_one(command, *message, store, response)?;
        if !here {
            gone = true;
        }
    }
    Ok(gone)
}

// After the last message: only UID STORE shows changes. Answers what the last line says.
fn finish_store<S: Store, O: Outlet>(
    command: &StoreCommand<'_>,
    gone: bool,
    store: &mut S,
    response: &mut Response<'_, O>,
) -> Result<ResponseText, MailFault>
    ensures { Does S.step
        (messages_done (commands.Store command.now) command.now.by_uid gone) last store.old
        store.new response.old response.new result }
{
    if command.by_uid {
        response.show(usize::MAX, store)?;
        Ok(ResponseText::Completed(Verb::UidStore))
    } else if gone {
        Ok(ResponseText::MessagesGone)
    } else {
        Ok(ResponseText::Completed(Verb::Store))
    }
}

// A STORE in the selected mailbox. Answers what the last line says.
pub(crate) fn store_messages<S: Store, O: Outlet>(
    alloc: Global,
    command: &StoreCommand<'_>,
    store: &mut S,
    response: &mut Response<'_, O>,
) -> Result<ResponseText, MailFault>
    ensures { Does S.step
        (on_set command.now.by_uid command.now.set (λ view uids. storing command.now view
        (messages_done (commands.Store command.now) command.now.by_uid) uids false))
        last store.old store.new response.old response.new result }
{
    let Some(messages) = store.choose(alloc, &command.set, command.by_uid)? else {
        return Ok(ResponseText::SequenceTooHigh);
    };
    let gone = store_all(command, messages.as_slice(), store, response)?;
    finish_store(command, gone, store, response)
}
