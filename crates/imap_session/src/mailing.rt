//! A literal that a client sends, whose bytes come; and a message that it appends by one: what is said of it when all are there, and its way to the mailbox.
//! What is said where is told in specs/Commands.antt; no mailbox is asked here.

ghost use Rattle.std.specs.Prelude.{◌≡◌, ◌^◌, ◌<◌, ◌≤◌, ◌==◌, Bool, [], length, min, IfErr, IfOk, IfSome, None, Some, true, false};
ghost use Rattle.std.specs.Vec.{vec_capacity};
ghost use Rattle.std.specs.List.{list_any};
ghost use Rattle.std.specs.Option.{option_map};
ghost use Rattle.imap_session.specs.Commands.{date_for, flags_for, is_over, long_rest_text, mailbox_for, on_rest, over, says, taking, wanting};
ghost use Rattle.imap_session.specs.Exchange.{Client, PendingLiteral as PendingSpec, Mailing as MailingSpec, ForVerdict, Wait};
ghost use Rattle.imap_session.specs.Store.{IsBeyondRoom, most_first_room};
ghost use Rattle.imap_session.specs.Texts.{response_text};
ghost use Rattle.imap_session.specs.inner.Seen.{HasFirstRoom, pending_of};

use crate::batch::Origin;
use crate::response::LAST;
use crate::standing::Append;
use crate::tag::Tag;
use crate::texts::ResponseText;
use crate::turn::FIRST;
use crate::unfinished::MOST_LINE;
use budget::Budget;
use change_ring::{Flags, NO_FLAGS};
use mail_date::Stamp;
use std::alloc::{AllocError, Global};
use std::marker::Model;

/// The greatest number of a message, which none has.
pub(crate) const LAST_NUMBER: u32 = 4_294_967_295;

/// So much room a literal's text begins with, or less where it is shorter.
const FIRST_ROOM: usize = 4_096;

/// What a client sends behind a line, and for what.
#[derive(Drop)]
pub(crate) enum Purpose {
    /// A message that is appended: the mailbox that was named, where there is one, and the flags and the date that it is to have.
    Message {
        mailbox: Option<u8>,
        flags: Flags,
        date: Option<Stamp>,
    },
    /// An argument of the line that began so, kept in room for a whole line.
    Argument(Vec<u8>),
    /// The response that AUTHENTICATE of this line asks for, kept in room for a whole line. It has no bytes, but the rest of the line behind them.
    Response(Vec<u8>),
}

impl Purpose {
    ghost use Rattle.std.specs.Prelude.{◌≡◌};
    ghost use Rattle.imap_session.specs.Commands.{date_for, flags_for, mailbox_for};
    ghost use Rattle.imap_session.specs.Store.{room_rest};
    ghost use Rattle.imap_session.specs.inner.Lines.{is_message};
    ghost use Rattle.imap_session.specs.inner.Seen.{purpose_of};

    /// Whether it is a message.
    pub(crate) fn is_message(&self) -> bool
        ensures { result ≡ is_message (purpose_of self.now) }
    {
        matches!(self, Purpose::Message { .. })
    }

    /// How much room the answer to the rest of the line reserves, beside the tag.
    pub(crate) fn room(&self) -> usize
        ensures { result ≡ room_rest (purpose_of self.now) }
    {
        match self {
            Purpose::Message { .. } => LAST,
            Purpose::Argument(_) | Purpose::Response(_) => MOST_LINE + LAST + FIRST,
        }
    }

    // Of a message the number of the mailbox that was named.
    pub(crate) fn mailbox(&self) -> Option<u8>
        ensures { result ≡ mailbox_for (purpose_of self.now) }
    {
        match self {
            Purpose::Message { mailbox, .. } => *mailbox,
            Purpose::Argument(_) | Purpose::Response(_) => None,
        }
    }

    // Of a message the date that came with it, where one did.
    pub(crate) fn date(&self) -> Option<Stamp>
        ensures { result ≡ date_for (purpose_of self.now) }
    {
        match self {
            Purpose::Message { date, .. } => *date,
            Purpose::Argument(_) | Purpose::Response(_) => None,
        }
    }

    // Of a message the flags that it is to have.
    pub(crate) fn flags(&self) -> Flags
        ensures { result ≡ flags_for (purpose_of self.now) }
    {
        match self {
            Purpose::Message { flags, .. } => *flags,
            Purpose::Argument(_) | Purpose::Response(_) => NO_FLAGS,
        }
    }
}

/// A literal whose bytes come.
#[derive(Drop)]
pub(crate) struct PendingLiteral {
    pub(crate) tag: Tag,
    pub(crate) purpose: Purpose,
    pub(crate) size: usize,
    pub(crate) due: usize,
    // None where memory was refused.
    pub(crate) text: Option<Vec<u8>>,
}

/// A message that waits for the verdict on its copy.
#[derive(Drop)]
pub(crate) struct Sent {
    pub(crate) tag: Tag,
    pub(crate) append: Append,
    pub(crate) origin: Origin,
}

/// What a session knows of the literal that its client sends, and of the messages that it appends.
#[derive(Drop)]
pub(crate) struct Mailing {
    // The most bytes of a message. None: no message is taken.
    pub(crate) most: Option<u32>,
    // The number of the next that is submitted.
    pub(crate) number: u32,
    pub(crate) begun: Option<PendingLiteral>,
    pub(crate) sent: Option<Sent>,
    // What their texts are charged to.
    pub(crate) budget: Budget,
}

impl Model for Mailing {
    ghost use Rattle.std.specs.Prelude.{IfSome};
    ghost use Rattle.std.specs.Option.{option_map};
    ghost use Rattle.imap_session.specs.Exchange.{Mailing as Known};
    ghost use Rattle.imap_session.specs.inner.Seen.{HasFirstRoom, IsRoomy, pending_of, sent_of};

    ghost Value = { Known };

    ghost view = { λ m. record { most = m.most; number = m.number; begun = option_map pending_of m.begun; sent = option_map sent_of m.sent } };

    // Room for the first bytes of a literal is made before it is awaited, and for the UIDs of copies before the first goes.
    ghost invariant = { λ m. IfSome m.begun HasFirstRoom × IfSome m.sent (λ s. IsRoomy s.origin) };
}

impl Mailing {
    ghost use Rattle.std.specs.Prelude.{◌<◌};
    ghost use Rattle.imap_session.specs.Store.{to_follow};

    // Behind the message that was submitted fewer follow than one command may copy.
    pub(crate) fn few_follow(&self)
        ensures { to_follow self.now.sent < 32768 }
    {
        let _sent = &self.sent;
    }
}

impl PendingLiteral {
    // Keeps bytes that came, or drops all where memory is refused. For the first bytes it isn't asked.
    pub(crate) fn keep(&mut self, bytes: &[u8])
        requires fits { length bytes.now ≤ self.old.due }
        requires first { HasFirstRoom self.old }
        ensures taken { (kept : Bool)
            × (pending_of self.new ≡ taking kept bytes.now (pending_of self.old)) ×
            (kept ≡ false → IsBeyondRoom (Some (pending_of self.old)) bytes.now) }
        ensures room { HasFirstRoom self.new }
    {
        self.due -= bytes.len();
        let Some(mut text) = self.text.take() else {
            return;
        };
        if text.extend_from_slice(bytes).is_ok() {
            self.text = Some(text);
        }
    }
}

// A literal's text, before its bytes come, with room for the first of them. A client may announce more than it sends, so room for more is asked
// only as they come.
pub(crate) fn begin_text(alloc: Global, size: usize) -> Result<Vec<u8>, AllocError>
    ensures empty { IfOk result (λ text. text.items ≡ []) }
    ensures room { IfOk result (λ text. min size most_first_room ≤ vec_capacity text) }
{
    Vec::with_capacity(alloc, size.min(FIRST_ROOM))
}

// Gives back the room that a text has over, which may be kept for long, unless it is little. Where that is refused, the room stays.
fn trim(text: &mut Vec<u8>)
    ensures { text.new.items ≡ text.old.items }
{
    let spare = text.capacity() - text.len();
    if spare > text.len() / 8 {
        text.shrink_to_fit();
    }
}

fn has_nul(text: &[u8]) -> bool
    ensures { result ≡ list_any (λ b. b == 0) text.now }
{
    text.contains(&0)
}

// What is said where a message of this size isn't taken.
pub(crate) fn refused_size(most: Option<u32>, size: u64) -> Option<ResponseText>
    ensures taken { result ≡ None → is_over most size ≡ false }
    ensures fits { result ≡ None → size < 2 ^ 32 }
    ensures refused { IfSome result (λ text. (is_over most size ≡ true)
        × (over most ≡ says (response_text text))) }
{
    let Some(most) = most else {
        return Some(ResponseText::NotOffered);
    };
    if size > most as u64 {
        return Some(ResponseText::MessageTooBig);
    }
    None
}

/// What is said behind a literal where the rest of the line is too long.
pub(crate) fn long_rest_text(begun: &PendingLiteral) -> ResponseText
    ensures { result ≡ long_rest_text (pending_of begun.now).text }
{
    match &begun.text {
        None => ResponseText::OutOfMemory,
        Some(_) => ResponseText::InvalidArguments,
    }
}

// The message whose bytes are all there, or what is said of it.
pub(crate) fn judge(
    text: Option<Vec<u8>>,
    mailbox: Option<u8>,
    size: usize,
    most: Option<u32>,
    number: u32,
    empty: bool,
) -> Result<(u8, Vec<u8>), ResponseText>
    ensures says { IfErr result (λ told. (mailing : MailingSpec) (a : PendingSpec)
        → mailing.most ≡ most → mailing.number ≡ number →
        mailbox_for a.purpose ≡ mailbox → a.size ≡ size → a.text ≡ option_map (λ t. t.items) text →
        on_rest mailing a empty ≡ says (response_text told)) }
    ensures ready { IfOk result (λ made. (mailing : MailingSpec) (a : PendingSpec)
        → mailing.most ≡ most → mailing.number ≡ number →
        mailbox_for a.purpose ≡ mailbox → a.size ≡ size → a.text ≡ option_map (λ t. t.items) text →
        on_rest mailing a empty ≡ wanting (Wait [] (ForVerdict Client made.0 (flags_for a.purpose)
        (record { bytes = made.1.items; date = date_for a.purpose })))) }
    ensures numbered { IfOk result (λ made. number < 4294967295) }
{
    let Some(mut text) = text else {
        return Err(ResponseText::OutOfMemory);
    };
    if !empty {
        return Err(ResponseText::InvalidArguments);
    }
    let Some(mailbox) = mailbox else {
        return Err(ResponseText::TryCreate);
    };
    if let Some(text) = refused_size(most, size as u64) {
        return Err(text);
    }
    if has_nul(&text) {
        return Err(ResponseText::NulByte);
    }
    if number >= LAST_NUMBER {
        return Err(ResponseText::MailboxSpent);
    }
    trim(&mut text);
    Ok((mailbox, text))
}
