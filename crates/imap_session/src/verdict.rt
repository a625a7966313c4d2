//! What is answered once the verdict is there on a message that was appended (RFC 9051, 6.3.12): under which UID it was stored (RFC 4315, 3), or why it wasn't.
//! How a message comes so far is told in `mailing`; which verdict there is, whoever holds the session knows. What is done of messages that are copied stands in `copied`.

ghost use Rattle.std.specs.Prelude.{◌≡◌, ◌⊎◌, ◌+◌, ◌≤◌, ◌++◌, length};
ghost use Rattle.delivery_token.specs.declared.Verdict.TheVariants.{Stored};
ghost use Rattle.imap_session.specs.Exchange.{Client, Mailing, Standing, tagged};
ghost use Rattle.imap_session.specs.Commands.{appended_words, on_verdict, refused_text, told_appended, with_validity};
ghost use Rattle.imap_session.specs.inner.Store.{Plays};

use crate::expunge::show_pending;
use crate::response::{LAST, Response};
use crate::standing::{After, Selected};
use crate::store::Store;
use crate::texts::ResponseText;
use delivery_token::{Refusal, Verdict};
use line_io::Outlet;

/// Room for the line that tells that copies of messages were stored which are moved, beside the sets of their UIDs.
pub(crate) const MOVED: usize = 56;

/// Room for all that is said of a message that was stored in room that is held, beside its tag: for `MOVED` and the last line, or for a longer last one.
pub(crate) const STORED: usize = LAST + MOVED;

// What the last line says where the message was refused.
pub(crate) fn refused_text(why: Refusal) -> ResponseText
    ensures { result ≡ refused_text why }
{
    match why {
        Refusal::Full => ResponseText::ShardFull,
        Refusal::MailboxFull => ResponseText::MailboxFull,
        Refusal::NoMemory => ResponseText::OutOfMemory,
        Refusal::UidSpent => ResponseText::NoUidLeft,
        Refusal::Shut => ResponseText::ShardClosed,
    }
}

// Ends a response with the line that tells where an appended message was stored.
#[tactic(auto, using(crate::proofs::Verdicts::ten_digits))]
fn end_appended<O: Outlet>(response: Response<'_, O>, uidvalidity: u32, uid: u32, out: &mut O)
    requires long { length response.tag + STORED ≤ response.held }
    ensures text { O.said out.new ≡ response.entry.text
        ++ tagged response.entry.tag (appended_words uidvalidity uid) }
    ensures lot { O.lot out.new ≡ response.entry.lot }
{
    let mut validity = itoa::Buffer::new();
    let mut number = itoa::Buffer::new();
    let tag = response.release(out);
    out.put(tag);
    out.put(b" OK [APPENDUID ");
    out.put(validity.format(uidvalidity).as_bytes());
    out.put(b" ");
    out.put(number.format(uid).as_bytes());
    out.put(b"] APPEND completed\r\n");
}

// Shows what is pending in the selected mailbox, and tells that an appended message has this UID in a mailbox of this UIDVALIDITY.
fn tell_uid<S: Store, O: Outlet>(
    uidvalidity: u32,
    uid: u32,
    selected: Option<Selected>,
    store: &mut S,
    mut response: Response<'_, O>,
    out: &mut O,
) -> After
    requires long { length response.tag + STORED ≤ response.held }
    ensures plays { (now : Standing) → Plays S.step response.entry.tag now now
        (told_appended selected uid uidvalidity) store.old store.new response.entry.text
        (O.said out.new) result }
    ensures only { (result ≡ After.Go) ⊎ (result ≡ After.Bye) }
    ensures lot { O.lot out.new ≡ response.entry.lot }
{
    match show_pending(selected, store, &mut response) {
        Ok(()) => {
            end_appended(response, uidvalidity, uid, out);
            After::Go
        }
        Err(fault) => response.conclude(After::Go, Err(fault), out),
    }
}

// Tells that an appended message has this UID in this mailbox, which is counted for its UIDVALIDITY.
fn tell_stored<S: Store, O: Outlet>(
    mailbox: u8,
    uid: u32,
    selected: Option<Selected>,
    store: &mut S,
    response: Response<'_, O>,
    out: &mut O,
) -> After
    requires long { length response.tag + STORED ≤ response.held }
    ensures plays { (now : Standing) → Plays S.step response.entry.tag now now
        (with_validity mailbox (told_appended selected uid)) store.old store.new response.entry.text
        (O.said out.new) result }
    ensures only { (result ≡ After.Go) ⊎ (result ≡ After.Bye) }
    ensures lot { O.lot out.new ≡ response.entry.lot }
{
    match store.status(mailbox) {
        Ok(status) => tell_uid(status.uidvalidity, uid, selected, store, response, out),
        Err(fault) => response.conclude(After::Go, Err(fault), out),
    }
}

// Answers the verdict on an appended message that was for this mailbox.
pub(crate) fn tell_verdict<S: Store, O: Outlet>(
    mailbox: u8,
    verdict: Verdict,
    selected: Option<Selected>,
    store: &mut S,
    response: Response<'_, O>,
    out: &mut O,
) -> After
    requires long { length response.tag + STORED ≤ response.held }
    ensures plays { (mailing : Mailing) (now : Standing) → Plays S.step response.entry.tag now now
        (on_verdict mailing selected Client mailbox verdict) store.old store.new response.entry.text
        (O.said out.new) result }
    ensures only { (result ≡ After.Go) ⊎ (result ≡ After.Bye) }
    ensures lot { O.lot out.new ≡ response.entry.lot }
{
    match verdict {
        Verdict::Refused(why) => response.conclude(After::Go, Ok(refused_text(why)), out),
        Verdict::Stored { uid } => tell_stored(mailbox, uid, selected, store, response, out),
    }
}
