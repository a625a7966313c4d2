//! What is done once there is a verdict on the copy of a message (RFC 9051, 6.4.7 and 6.4.8; RFC 6851): the next message of the batch is submitted; or all copies stand, and
//! that is told, and messages that are moved are removed; or one was refused, and those that were stored are removed again. How messages come so far is told
//! in `copying`.

ghost use Rattle.std.specs.Prelude.{◌≡◌, ◌≤◌, ◌+◌, ◌*◌, ◌++◌, ◌⊎◌, ℕ, List, length, true, false, vec_capacity};
ghost use Rattle.imap_session.specs.Exchange.{Standing, tagged};
ghost use Rattle.imap_session.specs.Commands.{copied_words, copy_code, move_done, says, showing, taking_back, told_copied, with_validity};
ghost use Rattle.imap_session.specs.Response.{Response as ResponseSpec};
ghost use Rattle.imap_session.specs.Texts.{response_text};
ghost use Rattle.imap_session.specs.inner.Copies.{removing};
ghost use Rattle.imap_session.specs.inner.Seen.{batch_of};
ghost use Rattle.imap_session.specs.inner.Store.{Does, Plays, last};

use crate::batch::{Batch, ROOM_IN_SETS};
use crate::expunge::show_pending;
use crate::response::Response;
use crate::session::Session;
use crate::standing::{After, Selected};
use crate::store::Store;
use crate::tag::Tag;
use crate::texts::ResponseText;
use crate::verdict::{MOVED, STORED, refused_text};
use delivery_token::Verdict;
use imap_answers::put_uid_set;
use imap_grammar::copy_verb;
use line_io::Outlet;
use mailbox::MailFault;

// Writes under which UIDs the copies of messages are, in room that was reserved.
#[tactic(auto, using(crate::proofs::Verdicts::ten_digits))]
fn put_copy_code<O: Outlet>(uidvalidity: u32, batch: &Batch, out: &mut O)
    requires as_many { length batch.now.copies.items ≡ length batch.now.uids.items }
    requires fits { 26 + 22 * length batch.now.uids.items ≤ O.room out.old }
    ensures text { O.said out.new ≡ O.said out.old ++ copy_code uidvalidity (batch_of batch.now) }
    ensures room { O.room out.old ≤ O.room out.new + (26 + 22 * length batch.now.uids.items) }
    ensures lot { O.lot out.new ≡ O.lot out.old }
{
    let mut validity = itoa::Buffer::new();
    out.put(b"OK [COPYUID ");
    out.put(validity.format(uidvalidity).as_bytes());
    out.put(b" ");
    put_uid_set(batch.uids.as_slice(), out);
    out.put(b" ");
    put_uid_set(batch.copies.as_slice(), out);
    out.put(b"] ");
}

// Ends a response with the line that tells where the copies of messages were stored.
fn end_copied<O: Outlet>(response: Response<'_, O>, uidvalidity: u32, batch: &Batch, out: &mut O)
    requires as_many { length batch.now.copies.items ≡ length batch.now.uids.items }
    requires long { length response.tag + (STORED + 22 * length batch.now.uids.items)
        ≤ response.held }
    ensures text { O.said out.new ≡ response.entry.text
        ++ tagged response.entry.tag (copied_words uidvalidity (batch_of batch.now)) }
    ensures lot { O.lot out.new ≡ response.entry.lot }
{
    let tag = response.release(out);
    out.put(tag);
    out.put(b" ");
    put_copy_code(uidvalidity, batch, out);
    out.put(b"COPY completed\r\n");
}

// Shows what is pending in the selected mailbox, and tells where the copies of messages are.
fn tell_copied<S: Store, O: Outlet>(
    batch: &Batch,
    uidvalidity: u32,
    selected: Option<Selected>,
    store: &mut S,
    mut response: Response<'_, O>,
    out: &mut O,
) -> After
    requires as_many { length batch.now.copies.items ≡ length batch.now.uids.items }
    requires long { length response.tag + (STORED + 22 * length batch.now.uids.items)
        ≤ response.held }
    ensures plays { (now : Standing) → Plays S.step response.entry.tag now now
        (showing selected (says (copied_words uidvalidity (batch_of batch.now)))) store.old store.new
        response.entry.text (O.said out.new) result }
    ensures only { (result ≡ After.Go) ⊎ (result ≡ After.Bye) }
    ensures lot { O.lot out.new ≡ response.entry.lot }
{
    match show_pending(selected, store, &mut response) {
        Ok(()) => {
            end_copied(response, uidvalidity, batch, out);
            After::Go
        }
        Err(fault) => response.conclude(After::Go, Err(fault), out),
    }
}

impl<'a, O: Outlet> Response<'a, O> {
    ghost use Rattle.std.specs.Prelude.{◌≡◌, ◌+◌, ◌*◌, ◌≤◌, length};
    ghost use Rattle.imap_session.specs.Commands.{moved_words};
    ghost use Rattle.imap_session.specs.Exchange.{untagged};
    ghost use Rattle.imap_session.specs.inner.Response.{Adds};
    ghost use Rattle.imap_session.specs.inner.Seen.{batch_of};

    // Writes where the copies of messages are that are moved, in the room that is held for it.
    fn put_moved(&mut self, uidvalidity: u32, batch: &Batch)
        requires as_many { length batch.now.copies.items ≡ length batch.now.uids.items }
        requires fits { length self.old.tag + (STORED + 22 * length batch.now.uids.items)
            ≤ self.old.held }
        ensures { Adds (untagged (moved_words uidvalidity (batch_of batch.now))) self.old self.new }
    {
        self.out.put(b"* ");
        put_copy_code(uidvalidity, batch, &mut self.out);
        self.out.put(b"Moved\r\n");
        self.held -= MOVED + ROOM_IN_SETS * batch.uids.len();
    }
}

// Removes the messages that are moved, and answers what the last line says of that.
fn remove_moved<S: Store, O: Outlet>(
    batch: &Batch,
    selected: Option<Selected>,
    store: &mut S,
    response: &mut Response<'_, O>,
) -> Result<ResponseText, MailFault>
    ensures { Does S.step (removing selected (batch_of batch.now)) last store.old store.new
        response.old response.new result }
{
    let done = ResponseText::Completed(copy_verb(batch.by_uid, true));
    let Some(selected) = selected else {
        return Ok(done);
    };
    store.discard(selected.mailbox, batch.uids.as_slice())?;
    response.show(usize::MAX, store)?;
    Ok(done)
}

// Tells where the copies of messages are that are moved, and removes those.
fn tell_moved<S: Store, O: Outlet>(
    batch: &Batch,
    uidvalidity: u32,
    selected: Option<Selected>,
    store: &mut S,
    mut response: Response<'_, O>,
    out: &mut O,
) -> After
    requires as_many { length batch.now.copies.items ≡ length batch.now.uids.items }
    requires moves { batch.now.moves ≡ true }
    requires long { length response.tag + (STORED + 22 * length batch.now.uids.items)
        ≤ response.held }
    ensures plays { (now : Standing) → Plays S.step response.entry.tag now now
        (told_copied selected (batch_of batch.now) uidvalidity) store.old store.new
        response.entry.text (O.said out.new) result }
    ensures only { (result ≡ After.Go) ⊎ (result ≡ After.Bye) }
    ensures lot { O.lot out.new ≡ response.entry.lot }
{
    response.put_moved(uidvalidity, batch);
    let done = remove_moved(batch, selected, store, &mut response);
    response.conclude(After::Go, done, out)
}

// Tells that all copies stand, in a mailbox of this UIDVALIDITY.
fn tell_batch<S: Store, O: Outlet>(
    batch: &Batch,
    uidvalidity: u32,
    selected: Option<Selected>,
    store: &mut S,
    response: Response<'_, O>,
    out: &mut O,
) -> After
    requires as_many { length batch.now.copies.items ≡ length batch.now.uids.items }
    requires long { length response.tag + (STORED + 22 * length batch.now.uids.items)
        ≤ response.held }
    ensures plays { (now : Standing) → Plays S.step response.entry.tag now now
        (told_copied selected (batch_of batch.now) uidvalidity) store.old store.new
        response.entry.text (O.said out.new) result }
    ensures only { (result ≡ After.Go) ⊎ (result ≡ After.Bye) }
    ensures lot { O.lot out.new ≡ response.entry.lot }
{
    if batch.moves {
        tell_moved(batch, uidvalidity, selected, store, response, out)
    } else {
        tell_copied(batch, uidvalidity, selected, store, response, out)
    }
}

// Tells that all copies stand in this mailbox, which is counted for its UIDVALIDITY.
fn tell_all<S: Store, O: Outlet>(
    batch: &Batch,
    mailbox: u8,
    selected: Option<Selected>,
    store: &mut S,
    response: Response<'_, O>,
    out: &mut O,
) -> After
    requires as_many { length batch.now.copies.items ≡ length batch.now.uids.items }
    requires long { length response.tag + (STORED + 22 * length batch.now.uids.items)
        ≤ response.held }
    ensures plays { (now : Standing) → Plays S.step response.entry.tag now now
        (with_validity mailbox (told_copied selected (batch_of batch.now))) store.old store.new
        response.entry.text (O.said out.new) result }
    ensures only { (result ≡ After.Go) ⊎ (result ≡ After.Bye) }
    ensures lot { O.lot out.new ≡ response.entry.lot }
{
    match store.status(mailbox) {
        Ok(status) => tell_batch(batch, status.uidvalidity, selected, store, response, out),
        Err(fault) => response.conclude(After::Go, Err(fault), out),
    }
}

// Removes the copies again that were stored, and answers what the last line says.
fn take_back<S: Store>(
    mailbox: u8,
    copies: &[u32],
    text: ResponseText,
    store: &mut S,
) -> Result<ResponseText, MailFault>
    ensures { (response : ResponseSpec) → Does S.step
        (taking_back mailbox copies.now (says (response_text text))) last store.old store.new
        response response result }
{
    if !copies.is_empty() {
        store.discard(mailbox, copies)?;
    }
    Ok(text)
}

impl Session {
    ghost use Rattle.std.specs.Prelude.{◌≡◌, ◌≤◌, ◌+◌, ◌*◌, ℕ, List, None, false, length, vec_capacity};
    ghost use Rattle.imap_session.specs.Commands.{copy_stored, most_in_batch, on_verdict, taking_back, told_copied, with_validity, says};
    ghost use Rattle.imap_session.specs.Exchange.{Copied, closed, may_send, played};
    ghost use Rattle.imap_session.specs.Texts.{response_text};
    ghost use Rattle.imap_session.specs.inner.Lines.{Had};
    ghost use Rattle.imap_session.specs.inner.Seen.{IsUnderWay, batch_of};
    ghost use Rattle.imap_session.specs.inner.Store.{Plays};

    // Gives up the copying: what was stored is removed again, and the last line says this.
    fn give_up_copies<S: Store, O: Outlet>(
        &mut self,
        tag: &[u8],
        mailbox: u8,
        copies: &[u32],
        text: ResponseText,
        store: &mut S,
        out: &mut O,
    ) -> After
        requires going { self.old.ended ≡ false }
        requires awake { self.old.idling ≡ None }
        requires alone { self.old.mailing.begun ≡ None }
        requires unsent { self.old.mailing.sent ≡ None }
        requires fits { length tag.now + STORED ≤ O.room out.old }
        ensures plays { Plays S.step tag.now self.old self.old
            (taking_back mailbox copies.now (says (response_text text))) store.old store.new
            (O.said out.old) (O.said out.new) result }
        ensures standing { self.new ≡ (closed self.old result).standing }
        ensures mailing { self.new.mailing ≡ self.old.mailing }
        ensures sends { result ≡ may_send self.new }
        ensures lot { O.lot out.new ≡ O.lot out.old }
    {
        let response = Response::new(tag, STORED, out);
        let done = take_back(mailbox, copies, text, store);
        let after = response.conclude(After::Go, done, out);
        self.ended = matches!(after, After::Bye);
        after
    }

    // Ends the copying: all copies stand.
    fn end_copies<S: Store, O: Outlet>(
        &mut self,
        tag: &[u8],
        mailbox: u8,
        batch: &Batch,
        store: &mut S,
        out: &mut O,
    ) -> After
        requires going { self.old.ended ≡ false }
        requires awake { self.old.idling ≡ None }
        requires alone { self.old.mailing.begun ≡ None }
        requires unsent { self.old.mailing.sent ≡ None }
        requires as_many { length batch.now.copies.items ≡ length batch.now.uids.items }
        requires few { length batch.now.uids.items ≤ most_in_batch }
        requires fits { length tag.now
            + (STORED + 22 * length batch.now.uids.items) ≤ O.room out.old }
        ensures plays { Plays S.step tag.now self.old self.old
            (with_validity mailbox (told_copied self.old.selected (batch_of batch.now))) store.old
            store.new (O.said out.old) (O.said out.new) result }
        ensures standing { self.new ≡ (closed self.old result).standing }
        ensures mailing { self.new.mailing ≡ self.old.mailing }
        ensures sends { result ≡ may_send self.new }
        ensures lot { O.lot out.new ≡ O.lot out.old }
    {
        let room = STORED + ROOM_IN_SETS * batch.uids.len();
        let response = Response::new(tag, room, out);
        let after = tell_all(batch, mailbox, self.selected(), store, response, out);
        self.ended = matches!(after, After::Bye);
        after
    }

    // Goes on with the next message of a batch, or ends the copying.
    fn go_on<S: Store, O: Outlet>(
        &mut self,
        mailbox: u8,
        tag: Tag,
        batch: Batch,
        store: &mut S,
        out: &mut O,
    ) -> After
        requires going { self.old.ended ≡ false }
        requires awake { self.old.idling ≡ None }
        requires alone { self.old.mailing.begun ≡ None }
        requires unsent { self.old.mailing.sent ≡ None }
        requires all { length batch.copies.items + length batch.left.items
            ≡ length batch.uids.items }
        requires room { length batch.uids.items ≤ vec_capacity batch.copies }
        requires few { length batch.uids.items ≤ most_in_batch }
        requires fits { length tag
            + (STORED + 22 * length batch.uids.items) ≤ O.room out.old }
        ensures had { Had (played tag self.old
            (copy_stored self.old.mailing self.old.selected (batch_of batch) mailbox)) S.step
            store.old store.new (O.said out.old) (O.said out.new) result self.new }
        ensures folders { self.new.folders ≡ self.old.folders }
        ensures alone { self.new.mailing.begun ≡ None }
        ensures sends { result ≡ may_send self.new }
        ensures lot { O.lot out.new ≡ O.lot out.old }
    {
        match self.submit_next(mailbox, tag, batch) {
            Ok(()) => After::Submit,
            Err(unsent) => {
                let tag = unsent.tag.as_slice();
                let copies = unsent.batch.copies.as_slice();
                if unsent.spent {
                    self.give_up_copies(
                        tag,
                        mailbox,
                        copies,
                        ResponseText::MailboxSpent,
                        store,
                        out,
                    )
                } else {
                    self.end_copies(tag, mailbox, &unsent.batch, store, out)
                }
            }
        }
    }

    // Hears the verdict on a copy.
    pub(crate) fn hear_copy<S: Store, O: Outlet>(
        &mut self,
        mailbox: u8,
        tag: Tag,
        batch: Batch,
        verdict: Verdict,
        store: &mut S,
        out: &mut O,
    ) -> After
        requires going { self.old.ended ≡ false }
        requires awake { self.old.idling ≡ None }
        requires alone { self.old.mailing.begun ≡ None }
        requires unsent { self.old.mailing.sent ≡ None }
        requires under_way { IsUnderWay batch }
        requires fits { length tag
            + (STORED + 22 * length batch.uids.items) ≤ O.room out.old }
        ensures had { Had (played tag self.old
            (on_verdict self.old.mailing self.old.selected (Copied (batch_of batch)) mailbox verdict))
            S.step store.old store.new (O.said out.old) (O.said out.new) result self.new }
        ensures folders { self.new.folders ≡ self.old.folders }
        ensures alone { self.new.mailing.begun ≡ None }
        ensures sends { result ≡ may_send self.new }
        ensures lot { O.lot out.new ≡ O.lot out.old }
    {
        match verdict {
            Verdict::Refused(why) => {
                let copies = batch.copies.as_slice();
                let text = refused_text(why);
                self.give_up_copies(tag.as_slice(), mailbox, copies, text, store, out)
            }
            Verdict::Stored { uid } => {
                let mut batch = batch;
                batch.copies.push_reserved(uid);
                self.go_on(mailbox, tag, batch, store, out)
            }
        }
    }
}
