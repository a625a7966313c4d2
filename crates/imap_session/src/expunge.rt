//! EXPUNGE and UID EXPUNGE (RFC 9051, 6.4.3 and 6.4.9), and what is pending, shown where a mailbox is selected.

ghost use Rattle.std.specs.Prelude.{◌≡◌, ◌<◌, None, IfOk, OnErr, length, map};
ghost use Rattle.std.specs.Option.{option_copied};
ghost use Rattle.imap_grammar.specs.declared.command.Command.TheVariants as commands;
ghost use Rattle.imap_session.specs.Exchange.{Exchange, Expunge, Feed};
ghost use Rattle.imap_session.specs.Commands.{completed, expunge_set, showing, unlimited};
ghost use Rattle.imap_session.specs.inner.Store.{Does, last};

use crate::response::Response;
use crate::standing::Selected;
use crate::store::Store;
use crate::texts::ResponseText;
use imap_grammar::{Named, SeqSet, Verb};
use line_io::Outlet;
use mailbox::MailFault;
use std::alloc::{AllocError, Global};

// Shows what is pending, where a mailbox is selected.
pub(crate) fn show_pending<S: Store, O: Outlet>(
    selected: Option<Selected>,
    store: &mut S,
    response: &mut Response<'_, O>,
) -> Result<(), MailFault>
    ensures done { (x : Exchange)
        → Does S.step (showing selected x) (λ _.
        x) store.old store.new response.old response.new result }
    ensures held { (response.new.tag ≡ response.old.tag) × (response.new.held ≡ response.old.held) }
{
    let Some(_) = selected else {
        return Ok(());
    };
    response.show(usize::MAX, store)?;
    Ok(())
}

// Shows what is pending, removes messages, and shows that.
pub(crate) fn remove_and_show<S: Store, O: Outlet>(
    uids: Option<&[u32]>,
    store: &mut S,
    response: &mut Response<'_, O>,
) -> Result<(), MailFault>
    ensures { (x : Exchange)
        → Does S.step (Expunge (option_copied uids.entry) (Feed unlimited x)) (λ _.
        x) store.old store.new response.old response.new result }
{
    response.purge(uids, store)?;
    response.show(usize::MAX, store)?;
    Ok(())
}

// EXPUNGE in the selected mailbox. Answers what the last line says.
pub(crate) fn expunge_all<S: Store, O: Outlet>(
    store: &mut S,
    response: &mut Response<'_, O>,
) -> Result<ResponseText, MailFault>
    ensures { Does S.step (Expunge None (Feed unlimited
        (completed commands.Expunge))) last store.old store.new response.old response.new result }
{
    remove_and_show(None, store, response)?;
    Ok(ResponseText::Completed(Verb::Expunge))
}

// The UIDs of these messages. No memory is wanted where there is none.
fn uids_of(alloc: Global, messages: &[Named]) -> Result<Vec<u32>, AllocError>
    ensures uids { IfOk result (λ uids. uids.items ≡ map (λ message. message.uid) messages.now) }
    ensures memory { OnErr result (0 < length messages.now) }
{
    if messages.is_empty() {
        return Ok(Vec::new(alloc));
    }
    messages.iter().map(|message| message.uid).collect(alloc)
}

// UID EXPUNGE in the selected mailbox: the set is looked up first. Answers what the last line says.
pub(crate) fn expunge_set<S: Store, O: Outlet>(
    alloc: Global,
    set: &SeqSet<'_>,
    store: &mut S,
    response: &mut Response<'_, O>,
) -> Result<ResponseText, MailFault>
    ensures { Does S.step (expunge_set set.now) last store.old store.new response.old response.new
        result }
{
    let Some(messages) = store.choose(alloc, set, true)? else {
        return Ok(ResponseText::SequenceTooHigh);
    };
    let uids = uids_of(alloc, messages.as_slice())?;
    remove_and_show(Some(uids.as_slice()), store, response)?;
    Ok(ResponseText::Completed(Verb::UidExpunge))
}
