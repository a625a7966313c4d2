//! STATUS (RFC 9051, 6.3.11), LIST (6.3.9) and LSUB (RFC 3501, 6.3.9): mailboxes counted, and named. They show what is pending behind their answer.

ghost use Rattle.std.specs.Prelude.{◌≡◌, false, map, OnOk, OnErr, IfOk, IfErr};
ghost use Rattle.imap_answers.specs.Answers.{list_answer, status_answer};
ghost use Rattle.imap_grammar.specs.Verbs.{verb_of};
ghost use Rattle.imap_grammar.specs.declared.command.Command.{Command as CommandSpec};
ghost use Rattle.imap_grammar.specs.declared.command.Command.TheVariants as commands;
ghost use Rattle.imap_session.specs.Exchange.{Exchange, Count, Folder as FolderSpec, Write};
ghost use Rattle.imap_session.specs.Commands.{completed, counting, on_folder, showing, subscribing, wanting};
ghost use Rattle.imap_session.specs.inner.Response.{adding};
ghost use Rattle.imap_session.specs.inner.Store.{Does, last};

use crate::expunge::show_pending;
use crate::folders::find_folder;
use crate::response::Response;
use crate::standing::{Folder, Selected};
use crate::store::Store;
use crate::texts::ResponseText;
use imap_answers::{Listing, write_list, write_status};
use imap_grammar::{Name, StatusItems, Verb};
use line_io::Outlet;
use mailbox::{MailFault, Status};
use std::alloc::{AllocError, Global};

// Writes the answer for a mailbox that was counted.
fn write_counted<O: Outlet>(
    name: &[u8],
    items: &StatusItems<'_>,
    status: &Status,
    response: &mut Response<'_, O>,
) -> Result<(), MailFault>
    ensures text { OnOk result (response.new
        ≡ adding (status_answer name.now items.now status.now) response.old) }
    ensures err { OnErr result (response.new ≡ response.old) }
    ensures fault { IfErr result (λ f. f ≡ MailFault.NoMemory) }
{
    let mut line = Vec::new(response.out.alloc());
    write_status(name, items, status, &mut line)?;
    response.write(&line)
}

// Counts a folder's mailbox, tells of it, and shows what is pending.
fn count_folder<S: Store, O: Outlet>(
    folder: &Folder,
    items: &StatusItems<'_>,
    selected: Option<Selected>,
    store: &mut S,
    response: &mut Response<'_, O>,
) -> Result<(), MailFault>
    ensures { (x : Exchange) → Does S.step
        (Count folder.now.mailbox (λ status.
        Write (status_answer folder.now.name items.now status) (showing selected x)))
        (λ _. x) store.old store.new response.old response.new result }
{
    let status = store.status(folder.mailbox())?;
    write_counted(folder.name(), items, &status, response)?;
    show_pending(selected, store, response)
}

// STATUS of the first folder of a name. Answers what the last line says.
fn count_named<S: Store, O: Outlet>(
    folders: &[Folder],
    name: &[u8],
    items: &StatusItems<'_>,
    selected: Option<Selected>,
    store: &mut S,
    response: &mut Response<'_, O>,
) -> Result<ResponseText, MailFault>
    ensures { Does S.step
        (on_folder name.now folders.now
        (counting selected name.now items.now))
        last store.old store.new response.old response.new result }
{
    let Some(folder) = find_folder(name, folders) else {
        return Ok(ResponseText::NoSuchMailbox);
    };
    count_folder(folder, items, selected, store, response)?;
    Ok(ResponseText::Completed(Verb::Status))
}

// STATUS: tells the numbers of the mailbox of this name. Answers what the last line says.
pub(crate) fn count_mailbox<S: Store, O: Outlet>(
    alloc: Global,
    folders: &[Folder],
    name: &Name<'_>,
    items: &StatusItems<'_>,
    selected: Option<Selected>,
    store: &mut S,
    response: &mut Response<'_, O>,
) -> Result<ResponseText, MailFault>
    ensures { Does S.step
        (wanting (on_folder name.now folders.now
        (counting selected name.now items.now)))
        last store.old store.new response.old response.new result }
{
    let name = name.to_bytes(alloc)?;
    count_named(folders, name.as_slice(), items, selected, store, response)
}

// The names of folders, in their order.
fn names_of<'a>(alloc: Global, folders: &'a [Folder]) -> Result<Vec<&'a [u8]>, AllocError>
    ensures { IfOk result (λ names. map (λ name. name.now) names.items
        ≡ map (λ (folder : FolderSpec). folder.name) folders.now) }
{
    let mut names = Vec::with_capacity(alloc, folders.len())?;
    for folder in folders {
        let Ok(()) = names.push(folder.name()) else {
            return Err(AllocError);
        };
    }
    Ok(names)
}

// Writes the answer to LIST or LSUB.
fn write_names<O: Outlet>(
    alloc: Global,
    listing: Listing,
    folders: &[Folder],
    reference: &Name<'_>,
    pattern: &Name<'_>,
    response: &mut Response<'_, O>,
) -> Result<(), MailFault>
    ensures text { OnOk result (response.new ≡ adding
        (list_answer listing reference.now pattern.now
        (map (λ (folder : FolderSpec). folder.name) folders.now)) response.old) }
    ensures err { OnErr result (response.new ≡ response.old) }
    ensures fault { IfErr result (λ f. f ≡ MailFault.NoMemory) }
{
    let names = names_of(alloc, folders)?;
    let names = names.as_slice();
    let mut lines = Vec::new(alloc);
    write_list(alloc, listing, reference, pattern, names, &mut lines)?;
    response.write(&lines)
}

// LIST: tells the names that the pattern behind the reference stands for. Answers what the last line says.
pub(crate) fn list_folders<S: Store, O: Outlet>(
    alloc: Global,
    folders: &[Folder],
    reference: &Name<'_>,
    pattern: &Name<'_>,
    selected: Option<Selected>,
    store: &mut S,
    response: &mut Response<'_, O>,
) -> Result<ResponseText, MailFault>
    ensures { Does S.step
        (Write (list_answer Listing.All reference.now pattern.now
        (map (λ (folder : FolderSpec). folder.name) folders.now))
        (showing selected (completed (commands.List reference.now pattern.now))))
        last store.old store.new response.old response.new result }
{
    write_names(alloc, Listing::All, folders, reference, pattern, response)?;
    show_pending(selected, store, response)?;
    Ok(ResponseText::Completed(Verb::List))
}

// LSUB: the same, since a client is subscribed to each mailbox that there is (RFC 3501, 6.3.9).
pub(crate) fn list_subscribed<S: Store, O: Outlet>(
    alloc: Global,
    folders: &[Folder],
    reference: &Name<'_>,
    pattern: &Name<'_>,
    selected: Option<Selected>,
    store: &mut S,
    response: &mut Response<'_, O>,
) -> Result<ResponseText, MailFault>
    ensures { Does S.step
        (Write (list_answer Listing.Subscribed reference.now pattern.now
        (map (λ (folder : FolderSpec). folder.name) folders.now))
        (showing selected (completed (commands.Lsub reference.now pattern.now))))
        last store.old store.new response.old response.new result }
{
    write_names(
        alloc,
        Listing::Subscribed,
        folders,
        reference,
        pattern,
        response,
    )?;
    show_pending(selected, store, response)?;
    Ok(ResponseText::Completed(Verb::Lsub))
}

// What is said of a name that is subscribed to, or isn't any more.
fn subscribed_text(folders: &[Folder], name: &[u8], verb: Verb) -> ResponseText
    ensures { (command : CommandSpec) → verb_of command ≡ verb
        → last result ≡ subscribing folders.now name.now command }
{
    match find_folder(name, folders) {
        None => ResponseText::NoSuchMailbox,
        Some(_) => ResponseText::Completed(verb),
    }
}

// SUBSCRIBE and UNSUBSCRIBE: whether there is a mailbox of this name, and nothing else, as each client is subscribed to all of them (RFC 9051,
// 6.3.7 and 6.3.8). Answers what the last line says.
pub(crate) fn subscribe(
    alloc: Global,
    folders: &[Folder],
    name: &Name<'_>,
    verb: Verb,
) -> Result<ResponseText, MailFault>
    ensures ok { IfOk result (λ text. (command : CommandSpec) → verb_of command ≡ verb
        → last text ≡ subscribing folders.now name.now command) }
    ensures err { IfErr result (λ f. f ≡ MailFault.NoMemory) }
{
    let name = name.to_bytes(alloc)?;
    Ok(subscribed_text(folders, name.as_slice(), verb))
}
