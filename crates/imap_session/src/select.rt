//! SELECT and EXAMINE (RFC 9051, 6.3.2 and 6.3.3), CLOSE and UNSELECT (6.4.1 and 6.4.2): mailboxes entered and left.

ghost use Rattle.std.specs.Prelude.{◌≡◌, ◌+◌, ◌≤◌, false, length, OnOk, OnErr, None, Some, if◌then◌else◌};
ghost use Rattle.mailbox.specs.declared.clients.Opening.{Opening as OpeningSpec};
ghost use Rattle.imap_session.specs.Exchange.{Exchange, Enter, Leave};
ghost use Rattle.imap_session.specs.Commands.{closing, entered_text, entering, on_folder, selecting, wanting};
ghost use Rattle.imap_session.specs.Response.{Response as ResponseSpec};
ghost use Rattle.imap_session.specs.inner.Response.{Adds};
ghost use Rattle.imap_session.specs.inner.Store.{Moves, last, recent_line};

use crate::folders::find_folder;
use crate::response::{LAST, RECENT, Response};
use crate::standing::{Folder, Profile, Selected};
use crate::store::Store;
use crate::texts::ResponseText;
use crate::turn::FIRST;
use imap_grammar::Name;
use line_io::Outlet;
use mailbox::{MailFault, Opening};

// Leaves the mailbox that was selected, if one was, and tells that in room that is held.
fn leave_previous<S: Store, O: Outlet>(
    selected: &mut Option<Selected>,
    store: &mut S,
    response: &mut Response<'_, O>,
) -> Result<(), MailFault>
    requires long { length response.old.tag + (LAST + FIRST) ≤ response.old.held }
    ensures done { (x : Exchange)
        → Moves S.step selected.old selected.new (closing selected.old x) (λ _.
        x) store.old store.new response.old response.new result }
    ensures none { OnOk result (selected.new ≡ None) }
{
    if selected.is_none() {
        return Ok(());
    }
    store.leave(false)?;
    *selected = None;
    response.put_untagged(ResponseText::PreviousClosed);
    Ok(())
}

// Enters a mailbox, which is selected from then on.
fn enter_mailbox<S: Store>(
    wanted: Selected,
    selected: &mut Option<Selected>,
    store: &mut S,
) -> Result<Opening, MailFault>
    ensures done { (next : OpeningSpec → Exchange) (response : ResponseSpec) →
        Moves S.step selected.old selected.new (Enter wanted next) next store.old store.new response
        response result }
    ensures entered { OnOk result (selected.new ≡ Some wanted) }
{
    let opening = store.enter(wanted.mailbox)?;
    *selected = Some(wanted);
    Ok(opening)
}

// Leaves the selected mailbox, which none is from then on.
pub(crate) fn leave_mailbox<S: Store>(
    remove: bool,
    selected: &mut Option<Selected>,
    store: &mut S,
) -> Result<(), MailFault>
    ensures done { (x : Exchange) (response : ResponseSpec)
        → Moves S.step selected.old selected.new (Leave remove x) (λ _.
        x) store.old store.new response response result }
    ensures none { OnOk result (selected.new ≡ None) }
    ensures err { OnErr result (selected.new ≡ selected.old) }
{
    store.leave(remove)?;
    *selected = None;
    Ok(())
}

// What the last line says after a mailbox was entered.
fn entered_text(read_only: bool) -> ResponseText
    ensures { result ≡ entered_text read_only }
{
    if read_only {
        ResponseText::ExamineCompleted
    } else {
        ResponseText::SelectCompleted
    }
}

// Tells a client of IMAP4rev1 that no messages are recent, in room that is held.
fn tell_recent<O: Outlet>(profile: Profile, response: &mut Response<'_, O>)
    requires fits { length response.old.tag + (LAST + RECENT) ≤ response.old.held }
    ensures { Adds (recent_line profile) response.old response.new }
{
    match profile {
        Profile::Standard => {}
        Profile::Compatible => response.put_untagged(ResponseText::NoneRecent),
    }
}

// Enters a folder's mailbox and tells of it: memory is wanted before that. Answers what the last line says.
fn enter_folder<S: Store, O: Outlet>(
    profile: Profile,
    folder: &Folder,
    read_only: bool,
    selected: &mut Option<Selected>,
    store: &mut S,
    response: &mut Response<'_, O>,
) -> Result<ResponseText, MailFault>
    ensures { Moves S.step selected.old selected.new
        (wanting (entering profile read_only folder.now)) last store.old store.new response.old response.new
        result }
{
    let name = folder.name();
    response.hold_opening(name)?;
    let wanted = Selected {
        mailbox: folder.mailbox(),
        read_only,
    };
    let opening = enter_mailbox(wanted, selected, store)?;
    response.put_opening(read_only, name, &opening);
    tell_recent(profile, response);
    Ok(entered_text(read_only))
}

// Enters the first folder of this name. Answers what the last line says.
fn enter_named<S: Store, O: Outlet>(
    profile: Profile,
    folders: &[Folder],
    read_only: bool,
    name: &[u8],
    selected: &mut Option<Selected>,
    store: &mut S,
    response: &mut Response<'_, O>,
) -> Result<ResponseText, MailFault>
    ensures { Moves S.step selected.old selected.new
        (wanting (on_folder name.now folders.now (entering profile read_only))) last store.old store.new
        response.old response.new result }
{
    match find_folder(name, folders) {
        None => Ok(ResponseText::NoSuchMailbox),
        Some(folder) => enter_folder(profile, folder, read_only, selected, store, response),
    }
}

// SELECT and EXAMINE: leaves the mailbox that was selected, then enters the one of this name. Answers what the last line says. Where it isn't entered
// none is selected, also where memory is refused.
pub(crate) fn select_mailbox<S: Store, O: Outlet>(
    profile: Profile,
    folders: &[Folder],
    read_only: bool,
    name: &Name<'_>,
    selected: &mut Option<Selected>,
    store: &mut S,
    response: &mut Response<'_, O>,
) -> Result<ResponseText, MailFault>
    requires long { length response.old.tag + (LAST + FIRST) ≤ response.old.held }
    ensures { Moves S.step selected.old selected.new
        (selecting profile folders.now selected.old read_only name.now) last store.old store.new response.old response.new result }
{
    leave_previous(selected, store, response)?;
    let name = name.to_bytes(response.out.alloc())?;
    let name = name.as_slice();
    enter_named(profile, folders, read_only, name, selected, store, response)
}
