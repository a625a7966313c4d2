//! COPY and MOVE, and their forms by UID (RFC 9051, 6.4.7 to 6.4.9): the messages that they name are read, and then the first is submitted as a copy of its
//! own, which shares its text. What is done once a verdict is there stands in `copied`.

ghost use Rattle.std.specs.Prelude.{◌≡◌, ◌<◌, ◌≤◌, ◌+◌, ◌++◌, ℕ, List, [], ◌∷◌, false, true, map, length, vec_capacity, vec_len, IfErr, IfOk, IfSome, IfNone, OnOk, nat_lt, option_to_list, if◌then◌else◌};
ghost use Rattle.imap_grammar.specs.Sets.{named_at};
ghost use Rattle.mailbox.specs.declared.clients.Row.{Row as RowSpec};
ghost use Rattle.imap_session.specs.Exchange.{Exchange, Mailing as MailingSpec, Read, Standing};
ghost use Rattle.imap_grammar.specs.declared.command.Command.TheVariants as commands;
ghost use Rattle.imap_session.specs.Commands.{completed, copy_messages, copy_to, empty_batch, gathering, is_over, most_copied, most_in_batch, nowhere, number_named, on_found, over, says, wanting, wrong_state};
ghost use Rattle.imap_session.specs.Response.{Response as ResponseSpec};
ghost use Rattle.imap_session.specs.Texts.{response_text};
ghost use Rattle.imap_session.specs.declared.texts.ResponseText.TheVariants as texts;
ghost use Rattle.imap_session.specs.inner.Copies.{IsFound, batch_with, found_next, gathered, picked, unsent_next};
ghost use Rattle.imap_session.specs.inner.Store.{Does};

use crate::batch::{Batch, MOST_IN_BATCH};
use crate::response::Response;
use crate::session::Session;
use crate::standing::{After, Selected};
use crate::store::Store;
use crate::tag::Tag;
use crate::texts::ResponseText;
use imap_grammar::{CopyMessages, Named, copy_verb};
use line_io::Outlet;
use mailbox::{MailFault, Row};
use std::alloc::Global;

/// A message that came by mail has at most so many bytes more than were sent: the line of its return path.
const MOST_RETURN_PATH: u64 = 337;

/// What a COPY or MOVE comes to.
#[derive(Drop)]
pub(crate) enum Found {
    /// Nothing is copied, and the last line says this.
    Said(ResponseText),
    /// These messages go to the mailbox of this number, under this tag.
    Messages { mailbox: u8, tag: Tag, batch: Batch },
}

// Why nothing is looked at, where that is so.
fn refusal(copy: &CopyMessages<'_>, selected: Option<Selected>) -> Option<ResponseText>
    ensures refused { IfSome result (λ text. (now : Standing)
        → on_found (copy_messages now copy.now) wrong_state selected
        ≡ says (response_text text)) }
    ensures taken { IfNone result ((now : Standing)
        → on_found (copy_messages now copy.now) wrong_state selected
        ≡ wanting (on_found (copy_to now.mailing copy.now) nowhere
        (number_named copy.now.name now.folders))) }
{
    match selected {
        None => Some(ResponseText::WrongState),
        Some(mailbox) => {
            if copy.moves && mailbox.read_only {
                Some(ResponseText::ReadOnly)
            } else {
                None
            }
        }
    }
}

// Why a message of so many bytes isn't copied by a session that takes messages of at most so many.
fn refused_size(most: Option<u32>, size: usize) -> Option<ResponseText>
    ensures refused { IfSome result (λ text. (is_over (most_copied most) size ≡ true)
        × (over (most_copied most) ≡ says (response_text text))) }
    ensures taken { IfNone result (is_over (most_copied most) size ≡ false) }
{
    match most {
        None => Some(ResponseText::NotOffered),
        Some(most) => {
            if size as u64 > u64::from(most) + MOST_RETURN_PATH {
                Some(ResponseText::MessageTooBig)
            } else {
                None
            }
        }
    }
}

// What becomes of a message that is gone: one that was named by its UID is passed over.
fn gone(copy: &CopyMessages<'_>) -> Result<Option<Row>, ResponseText>
    ensures { (taken : RowSpec → Exchange) (passed : Exchange)
        → (if copy.now.by_uid then passed else says (response_text texts.MessagesGone))
        ≡ picked taken passed result }
{
    if copy.by_uid {
        Ok(None)
    } else {
        Err(ResponseText::MessagesGone)
    }
}

// What becomes of a message that is there.
fn there(most: Option<u32>, row: Row) -> Result<Option<Row>, ResponseText>
    ensures { (taken : RowSpec → Exchange) (passed : Exchange)
        → (if is_over (most_copied most) (length row.text.bytes) then over (most_copied most)
        else taken row)
        ≡ picked taken passed result }
{
    match refused_size(most, row.text.as_slice().len()) {
        Some(text) => Err(text),
        None => Ok(Some(row)),
    }
}

// Reads a message. None where it is passed over, and a text where nothing is copied for its sake.
fn read_one<S: Store>(
    copy: &CopyMessages<'_>,
    most: Option<u32>,
    uid: u32,
    store: &mut S,
) -> Result<Result<Option<Row>, ResponseText>, MailFault>
    ensures { (response : ResponseSpec) (named : ℕ) → uid ≡ named → (mailing : MailingSpec)
        → mailing.most ≡ most → (taken : RowSpec → Exchange) (passed : Exchange) → Does S.step
        (Read named false (on_found
        (λ row. if is_over (most_copied mailing.most) (length row.text.bytes)
        then over (most_copied mailing.most) else taken row)
        (if copy.now.by_uid then passed else says (response_text texts.MessagesGone))))
        (picked taken passed) store.old store.new response response result }
{
    match store.read(uid, false)? {
        None => Ok(gone(copy)),
        Some(row) => Ok(there(most, row)),
    }
}

// Keeps a message that was read, with its UID, in room that was reserved.
fn keep(uid: u32, row: Option<Row>, uids: &mut Vec<u32>, left: &mut Vec<Row>)
    requires uid_room { vec_len uids.old < vec_capacity uids.old }
    requires row_room { vec_len left.old < vec_capacity left.old }
    ensures uids { (named : ℕ) → uid ≡ named
        → uids.new.items ≡ uids.old.items ++ map (λ _. named) (option_to_list row) }
    ensures left { left.new.items ≡ left.old.items ++ option_to_list row }
    ensures uid_len { vec_len uids.new ≤ vec_len uids.old + 1 }
    ensures row_len { vec_len left.new ≤ vec_len left.old + 1 }
    ensures as_many { vec_len uids.old ≡ vec_len left.old → vec_len uids.new ≡ vec_len left.new }
    ensures uid_capacity { vec_capacity uids.new ≡ vec_capacity uids.old }
    ensures row_capacity { vec_capacity left.new ≡ vec_capacity left.old }
{
    if let Some(row) = row {
        uids.push_reserved(uid);
        left.push_reserved(row);
    }
}

// Reads these messages, and keeps those that are there, in room that was reserved; or answers what the last line says where none is copied.
fn gather<S: Store>(
    copy: &CopyMessages<'_>,
    most: Option<u32>,
    messages: &[Named],
    uids: &mut Vec<u32>,
    left: &mut Vec<Row>,
    store: &mut S,
) -> Result<Result<(), ResponseText>, MailFault>
    requires none { (uids.old.items ≡ []) × (left.old.items ≡ []) }
    requires empty { (vec_len uids.old ≡ 0) × (vec_len left.old ≡ 0) }
    requires uid_room { length messages.now ≤ vec_capacity uids.old }
    requires row_room { length messages.now ≤ vec_capacity left.old }
    ensures does { (response : ResponseSpec) (view named : List ℕ)
        → messages.now ≡ map (named_at view) named → (mailing : MailingSpec) → mailing.most ≡ most
        → (mailbox : ℕ) → Does S.step
        (gathering mailing copy.now mailbox named (empty_batch copy.now))
        (gathered mailing copy.now mailbox uids.new.items left.new.items) store.old store.new
        response response result }
    ensures as_many { vec_len uids.new ≡ vec_len left.new }
    ensures few { vec_len uids.new ≤ length messages.now }
{
    for message in messages {
        match read_one(copy, most, message.uid, store)? {
            Err(text) => return Ok(Err(text)),
            Ok(row) => keep(message.uid, row, uids, left),
        }
    }
    Ok(Ok(()))
}

// Reads these messages, and answers what goes to this mailbox under this tag. Memory for all that is known of them is asked for first.
fn gather_batch<S: Store>(
    alloc: Global,
    copy: &CopyMessages<'_>,
    most: Option<u32>,
    tag: &[u8],
    mailbox: u8,
    messages: &[Named],
    store: &mut S,
) -> Result<Found, MailFault>
    requires few { length messages.now ≤ most_in_batch }
    ensures does { (response : ResponseSpec) (view named : List ℕ)
        → messages.now ≡ map (named_at view) named → (mailing : MailingSpec) → mailing.most ≡ most
        → Does S.step
        (wanting (gathering mailing copy.now mailbox named (empty_batch copy.now)))
        (found_next mailing copy.now) store.old store.new response response result }
    ensures found { IfOk result (IsFound tag.now) }
{
    let tag = Tag::new(alloc, tag)?;
    let mut uids = Vec::with_capacity(alloc, messages.len())?;
    let mut left = Vec::with_capacity(alloc, messages.len())?;
    let copies = Vec::with_capacity(alloc, messages.len())?;
    if let Err(text) = gather(copy, most, messages, &mut uids, &mut left, store)? {
        return Ok(Found::Said(text));
    }
    left.reverse();
    let batch = Batch {
        by_uid: copy.by_uid,
        moves: copy.moves,
        uids,
        left,
        copies,
    };
    Ok(Found::Messages {
        mailbox,
        tag,
        batch,
    })
}

// Whether one command may not copy as many.
fn are_too_many(messages: &[Named]) -> bool
    ensures { result ≡ nat_lt most_in_batch (length messages.now) }
{
    MOST_IN_BATCH < messages.len()
}

// Finds the messages that are named and reads them. They go to this mailbox, under this tag.
fn find_messages<S: Store>(
    alloc: Global,
    copy: &CopyMessages<'_>,
    most: Option<u32>,
    tag: &[u8],
    mailbox: u8,
    store: &mut S,
) -> Result<Found, MailFault>
    ensures does { (response : ResponseSpec) (mailing : MailingSpec) → mailing.most ≡ most
        → Does S.step
        (copy_to mailing copy.now mailbox) (found_next mailing copy.now) store.old store.new response
        response result }
    ensures found { IfOk result (IsFound tag.now) }
{
    let Some(messages) = store.choose(alloc, &copy.set, copy.by_uid)? else {
        return Ok(Found::Said(ResponseText::SequenceTooHigh));
    };
    if are_too_many(messages.as_slice()) {
        return Ok(Found::Said(ResponseText::TooManyMessages));
    }
    gather_batch(alloc, copy, most, tag, mailbox, messages.as_slice(), store)
}

// What the last line says where no message goes: no number is left for one, or there is none.
fn unsent_text(copy: &CopyMessages<'_>, spent: bool) -> ResponseText
    ensures { (mailbox : ℕ) → unsent_next spent mailbox [] (completed (commands.Copy copy.now))
        ≡ says (response_text result) }
{
    if spent {
        ResponseText::MailboxSpent
    } else {
        ResponseText::Completed(copy_verb(copy.by_uid, copy.moves))
    }
}

impl Session {
    ghost use Rattle.std.specs.Prelude.{◌≡◌, ◌++◌, IfOk, false, None};
    ghost use Rattle.imap_session.specs.Exchange.{closed, may_send, played, refusal_after, refusal_text};
    ghost use Rattle.imap_session.specs.Commands.{completed, copy_messages, on_command, on_found, submitting, wrong_state};
    ghost use Rattle.imap_session.specs.Response.{Response as ResponseSpec};
    ghost use Rattle.imap_session.specs.inner.Appends.{Leads};
    ghost use Rattle.imap_session.specs.inner.Copies.{IsFound, IsGathered, found_next};
    ghost use Rattle.imap_session.specs.inner.Lines.{Had};
    ghost use Rattle.imap_session.specs.inner.Seen.{batch_of};
    ghost use Rattle.imap_session.specs.inner.Store.{Does};

    // What a COPY or MOVE comes to.
    fn find_copies<S: Store>(
        &self,
        alloc: Global,
        copy: &CopyMessages<'_>,
        tag: &[u8],
        store: &mut S,
    ) -> Result<Found, MailFault>
        ensures does { (response : ResponseSpec) → Does S.step
            (on_found (copy_messages self.now copy.now) wrong_state self.now.selected)
            (found_next self.now.mailing copy.now) store.old store.new response response result }
        ensures found { IfOk result (IsFound tag.now) }
    {
        if let Some(text) = refusal(copy, self.selected()) {
            return Ok(Found::Said(text));
        }
        let Some(mailbox) = self.number_of(alloc, &copy.name)? else {
            return Ok(Found::Said(ResponseText::TryCreate));
        };
        find_messages(alloc, copy, self.mailing.most, tag, mailbox, store)
    }

    // Submits the first message of a batch, or says why none goes.
    fn submit_first<O: Outlet>(
        &mut self,
        copy: &CopyMessages<'_>,
        mailbox: u8,
        tag: Tag,
        batch: Batch,
        response: Response<'_, O>,
        out: &mut O,
    ) -> After
        requires going { self.old.ended ≡ false }
        requires awake { self.old.idling ≡ None }
        requires alone { self.old.mailing.begun ≡ None }
        requires unsent { self.old.mailing.sent ≡ None }
        requires tag { tag ≡ response.tag }
        requires gathered { IsGathered batch }
        ensures leads { Leads response.entry.tag self.old
            (submitting self.old.mailing (batch_of batch) mailbox
            (completed (commands.Copy copy.now))) response.entry.text (O.said out.new) result self.new }
        ensures folders { self.new.folders ≡ self.old.folders }
        ensures sends { result ≡ may_send self.new }
        ensures lot { O.lot out.new ≡ response.entry.lot }
    {
        match self.submit_next(mailbox, tag, batch) {
            Ok(()) => {
                response.release(out);
                After::Submit
            }
            Err(unsent) => {
                response.end(unsent_text(copy, unsent.spent), out);
                After::Go
            }
        }
    }

    // Says that a fault stopped a COPY or MOVE, which may end the session.
    fn stop_copy<O: Outlet>(
        &mut self,
        fault: MailFault,
        response: Response<'_, O>,
        out: &mut O,
    ) -> After
        requires going { self.old.ended ≡ false }
        requires awake { self.old.idling ≡ None }
        requires alone { self.old.mailing.begun ≡ None }
        requires unsent { self.old.mailing.sent ≡ None }
        ensures text { O.said out.new
            ≡ response.entry.text ++ refusal_text response.entry.tag fault }
        ensures after { result ≡ refusal_after fault }
        ensures standing { self.new ≡ (closed self.old result).standing }
        ensures sends { result ≡ may_send self.new }
        ensures lot { O.lot out.new ≡ response.entry.lot }
    {
        let after = response.conclude(After::Go, Err(fault), out);
        self.ended = matches!(after, After::Bye);
        after
    }

    // Takes the line of a COPY or MOVE.
    // Its frame stands apart: the stack of a thread that waits for its client is as deep as what it once answered.
    #[inline(never)]
    pub(crate) fn begin_copy<S: Store, O: Outlet>(
        &mut self,
        alloc: Global,
        copy: &CopyMessages<'_>,
        store: &mut S,
        response: Response<'_, O>,
        out: &mut O,
    ) -> After
        requires going { self.old.ended ≡ false }
        requires awake { self.old.idling ≡ None }
        requires alone { self.old.mailing.begun ≡ None }
        requires unsent { self.old.mailing.sent ≡ None }
        ensures had { Had
            (played response.entry.tag self.old (on_command response.entry.tag self.old (commands.Copy copy.now))) S.step
            store.old store.new response.entry.text (O.said out.new) result self.new }
        ensures folders { self.new.folders ≡ self.old.folders }
        ensures sends { result ≡ may_send self.new }
        ensures lot { O.lot out.new ≡ response.entry.lot }
    {
        match self.find_copies(alloc, copy, response.tag, store) {
            Ok(
                Found::Messages {
                    mailbox,
                    tag,
                    batch,
                },
            ) => self.submit_first(copy, mailbox, tag, batch, response, out),
            Ok(Found::Said(text)) => {
                response.end(text, out);
                After::Go
            }
            Err(fault) => self.stop_copy(fault, response, out),
        }
    }
}
