//! The line of an APPEND, and the literal that it announces: whether that is asked for, what becomes of it where memory is refused, and how the message
//! is submitted once it is there. What is said where is told in specs/Commands.antt.

use crate::batch::Origin;
use crate::folders::find_folder;
use crate::mailing::{PendingLiteral, Purpose, Sent, begin_text, judge, refused_size};
use crate::response::{LAST, Response, put_last};
use crate::say::{put_bye, put_continuing, put_tagged};
use crate::session::Session;
use crate::standing::{After, Append};
use crate::tag::Tag;
use crate::texts::ResponseText;
use delivery_token::Text;
use imap_grammar::{Append as AppendCommand, Name};
use line_io::Outlet;
use std::alloc::{AllocError, Global};

/// A literal that the client sends without being asked has at most so many bytes.
pub(crate) const MOST_UNASKED: u64 = 4_096;

impl Session {
    ghost use Rattle.std.specs.Prelude.{◌≡◌, ◌^◌, ◌<◌, ◌≤◌, min, true, false, [], length, ◌==◌, ◌+◌, ◌++◌, ℕ, List, None, Some, IfErr, IfOk, IfSome, OnErr, OnOk};
    ghost use Rattle.std.specs.Option.{option_map};
    ghost use Rattle.std.specs.Vec.{vec_capacity};
    ghost use Rattle.imap_session.specs.Exchange.{may_send, tagged};
    ghost use Rattle.imap_session.specs.Commands.{appending, asking, coming, number_named, on_rest, wanting};
    ghost use Rattle.imap_session.specs.Store.{most_first_room};
    ghost use Rattle.imap_session.specs.inner.Appends.{Leads};
    ghost use Rattle.imap_session.specs.Texts.{response_text};
    ghost use Rattle.imap_session.specs.inner.Seen.{HasLineRoom, pending_of, purpose_of};

    // Waits for the bytes of a literal.
    pub(crate) fn begin_literal(
        &mut self,
        tag: Tag,
        purpose: Purpose,
        size: usize,
        text: Option<Vec<u8>>,
    ) -> After
        requires going { self.old.ended ≡ false }
        requires unsent { self.old.mailing.sent ≡ None }
        requires room { IfSome text (λ t. (min size most_first_room ≤ vec_capacity t)
            × HasLineRoom purpose) }
        ensures begun { self.new ≡ record self.old {
          mailing = record self.old.mailing {
            begun = Some (record {
              tag = tag;
              purpose = purpose_of purpose;
              size = size;
              due = size;
              text = option_map (λ t. t.items) text;
            });
          };
        } }
        ensures waits { result ≡ After.Literal size }
        ensures sends { result ≡ may_send self.new }
    {
        self.mailing.begun = Some(PendingLiteral {
            tag,
            purpose,
            size,
            due: size,
            text,
        });
        After::Literal(size)
    }

    // Asks for a literal, and waits for its bytes. Where memory for the tag or the text is refused, that is told.
    fn await_literal<O: Outlet>(
        &mut self,
        alloc: Global,
        mailbox: u8,
        append: &AppendCommand<'_>,
        response: Response<'_, O>,
        out: &mut O,
    ) -> After
        requires going { self.old.ended ≡ false }
        requires awake { self.old.idling ≡ None }
        requires alone { self.old.mailing.begun ≡ None }
        requires unsent { self.old.mailing.sent ≡ None }
        requires size { append.now.literal.size < 2 ^ 32 }
        ensures leads { Leads response.entry.tag self.old
            (wanting (asking mailbox append.now.flags append.now.date append.now.literal.size))
            response.entry.text (O.said out.new) result self.new }
        ensures folders { self.new.folders ≡ self.old.folders }
        ensures sends { result ≡ may_send self.new }
        ensures lot { O.lot out.new ≡ response.entry.lot }
    {
        let size = append.literal.size as usize;
        let tag = response.release(out);
        let Ok(own_tag) = Tag::new(alloc, tag) else {
            put_tagged(tag, ResponseText::OutOfMemory, out);
            return After::Go;
        };
        let Ok(text) = begin_text(alloc, size) else {
            put_tagged(tag, ResponseText::OutOfMemory, out);
            return After::Go;
        };
        put_continuing(ResponseText::Ready, out);
        let purpose = Purpose::Message {
            mailbox: Some(mailbox),
            flags: append.flags,
            date: append.date,
        };
        self.begin_literal(own_tag, purpose, size, Some(text))
    }

    // The number of the mailbox of this name, where there is one.
    pub(crate) fn number_of(&self, alloc: Global, name: &Name<'_>) -> Result<Option<u8>, AllocError>
        ensures { IfOk result (λ number. number ≡ number_named name.now self.now.folders) }
    {
        let name = name.to_bytes(alloc)?;
        match find_folder(&name, &self.folders) {
            None => Ok(None),
            Some(folder) => Ok(Some(folder.mailbox())),
        }
    }

    // Takes the line of an APPEND whose client waits to be asked for the literal.
    fn ask_for_literal<O: Outlet>(
        &mut self,
        alloc: Global,
        append: &AppendCommand<'_>,
        response: Response<'_, O>,
        out: &mut O,
    ) -> After
        requires going { self.old.ended ≡ false }
        requires awake { self.old.idling ≡ None }
        requires alone { self.old.mailing.begun ≡ None }
        requires unsent { self.old.mailing.sent ≡ None }
        requires waits { append.now.literal.waits ≡ true }
        ensures leads { Leads response.entry.tag self.old
            (appending self.old.mailing.most self.old.folders append.now) response.entry.text
            (O.said out.new) result self.new }
        ensures folders { self.new.folders ≡ self.old.folders }
        ensures sends { result ≡ may_send self.new }
        ensures lot { O.lot out.new ≡ response.entry.lot }
    {
        let Ok(mailbox) = self.number_of(alloc, &append.name) else {
            response.end(ResponseText::OutOfMemory, out);
            return After::Go;
        };
        let Some(number) = mailbox else {
            response.end(ResponseText::TryCreate, out);
            return After::Go;
        };
        if let Some(text) = refused_size(self.mailing.most, append.literal.size) {
            response.end(text, out);
            return After::Go;
        }
        self.await_literal(alloc, number, append, response, out)
    }

    // The mailbox that an APPEND names, where there is one, and room for its text.
    fn prepare(
        &self,
        alloc: Global,
        append: &AppendCommand<'_>,
        size: usize,
    ) -> Result<(Option<u8>, Vec<u8>), AllocError>
        ensures number { IfOk result (λ made.
            made.0 ≡ number_named append.now.name self.now.folders) }
        ensures empty { IfOk result (λ made. made.1.items ≡ []) }
        ensures room { IfOk result (λ made. min size most_first_room ≤ vec_capacity made.1) }
    {
        let mailbox = self.number_of(alloc, &append.name)?;
        let text = begin_text(alloc, size)?;
        Ok((mailbox, text))
    }

    // Takes the line of an APPEND whose client sends the literal without being asked. Its bytes come whatever is refused, and are no commands: where
    // memory for the name or the text is, they are dropped, and that is told behind them. Without a tag that can't be told, and the session ends.
    fn expect_literal<O: Outlet>(
        &mut self,
        alloc: Global,
        append: &AppendCommand<'_>,
        response: Response<'_, O>,
        out: &mut O,
    ) -> After
        requires going { self.old.ended ≡ false }
        requires awake { self.old.idling ≡ None }
        requires alone { self.old.mailing.begun ≡ None }
        requires unsent { self.old.mailing.sent ≡ None }
        requires size { append.now.literal.size < 2 ^ 32 }
        ensures leads { Leads response.entry.tag self.old
            (coming (number_named append.now.name self.old.folders) append.now.flags
            append.now.date append.now.literal.size)
            response.entry.text (O.said out.new) result self.new }
        ensures folders { self.new.folders ≡ self.old.folders }
        ensures sends { result ≡ may_send self.new }
        ensures lot { O.lot out.new ≡ response.entry.lot }
    {
        let size = append.literal.size as usize;
        let prepared = self.prepare(alloc, append, size);
        let tag = response.release(out);
        let Ok(tag) = Tag::new(alloc, tag) else {
            put_bye(ResponseText::ByeOutOfMemory, out);
            self.ended = true;
            return After::Bye;
        };
        let flags = append.flags;
        let date = append.date;
        match prepared {
            Ok((mailbox, text)) => {
                let purpose = Purpose::Message {
                    mailbox,
                    flags,
                    date,
                };
                return self.begin_literal(tag, purpose, size, Some(text));
            }
            Err(_) => {
                let purpose = Purpose::Message {
                    mailbox: None,
                    flags,
                    date,
                };
                return self.begin_literal(tag, purpose, size, None);
            }
        }
    }

    // Takes the line of an APPEND.
    // Its frame stands apart: the stack of a thread that waits for its client is as deep as what it once answered.
    #[inline(never)]
    pub(crate) fn begin_append<O: Outlet>(
        &mut self,
        alloc: Global,
        append: &AppendCommand<'_>,
        response: Response<'_, O>,
        out: &mut O,
    ) -> After
        requires going { self.old.ended ≡ false }
        requires awake { self.old.idling ≡ None }
        requires alone { self.old.mailing.begun ≡ None }
        requires unsent { self.old.mailing.sent ≡ None }
        ensures leads { Leads response.entry.tag self.old
            (appending self.old.mailing.most self.old.folders append.now) response.entry.text
            (O.said out.new) result self.new }
        ensures folders { self.new.folders ≡ self.old.folders }
        ensures sends { result ≡ may_send self.new }
        ensures lot { O.lot out.new ≡ response.entry.lot }
    {
        if append.literal.waits {
            return self.ask_for_literal(alloc, append, response, out);
        }
        if append.literal.size > MOST_UNASKED {
            response.release(out);
            put_bye(ResponseText::LiteralTooBig, out);
            self.ended = true;
            return After::Bye;
        }
        self.expect_literal(alloc, append, response, out)
    }

    // Answers the rest of a line behind the literal of a message.
    pub(crate) fn message_line<O: Outlet>(
        &mut self,
        begun: PendingLiteral,
        rest: &[u8],
        out: &mut O,
    ) -> After
        requires going { self.old.ended ≡ false }
        requires awake { self.old.idling ≡ None }
        requires alone { self.old.mailing.begun ≡ None }
        requires unsent { self.old.mailing.sent ≡ None }
        requires fits { length begun.tag + LAST ≤ O.room out.old }
        ensures leads { Leads begun.tag self.old
            (on_rest self.old.mailing (pending_of begun) (length rest.now == 0)) (O.said out.old)
            (O.said out.new) result self.new }
        ensures folders { self.new.folders ≡ self.old.folders }
        ensures sends { result ≡ may_send self.new }
        ensures lot { O.lot out.new ≡ O.lot out.old }
    {
        match self.submit(begun, rest.is_empty()) {
            Ok(()) => After::Submit,
            Err((tag, text)) => {
                put_last(tag.as_slice(), text, out);
                After::Go
            }
        }
    }

    // Submits a message whose bytes are all there, or gives its tag back with what the last line says.
    fn submit(&mut self, begun: PendingLiteral, ends: bool) -> Result<(), (Tag, ResponseText)>
        requires going { self.old.ended ≡ false }
        requires awake { self.old.idling ≡ None }
        requires alone { self.old.mailing.begun ≡ None }
        requires unsent { self.old.mailing.sent ≡ None }
        ensures sent { OnOk result ((before : List ℕ)
            → Leads begun.tag self.old (on_rest self.old.mailing (pending_of begun) ends) before
            before
            After.Submit self.new) }
        ensures refused { IfErr result (λ told. (before : List ℕ)
            → Leads begun.tag self.old (on_rest self.old.mailing (pending_of begun) ends)
            before (before ++ tagged told.0 (response_text told.1)) After.Go self.new) }
        ensures tag { IfErr result (λ told. told.0 ≡ begun.tag) }
        ensures folders { self.new.folders ≡ self.old.folders }
        ensures waits { OnOk result (may_send self.new ≡ After.Submit) }
        ensures goes { OnErr result (may_send self.new ≡ After.Go) }
    {
        let PendingLiteral {
            tag,
            purpose,
            size,
            due: _,
            text,
        } = begun;
        let mailbox = purpose.mailbox();
        let flags = purpose.flags();
        let date = purpose.date();
        let most = self.mailing.most;
        let message = self.mailing.number;
        match judge(text, mailbox, size, most, message, ends) {
            Err(text) => Err((tag, text)),
            Ok((mailbox, text)) => {
                let Ok(text) = Text::charged(&self.mailing.budget, text, date) else {
                    return Err((tag, ResponseText::OutOfMemory));
                };
                self.mailing.number = message + 1;
                self.mailing.sent = Some(Sent {
                    tag,
                    append: Append {
                        message,
                        mailbox,
                        text,
                        flags,
                    },
                    origin: Origin::Client,
                });
                Ok(())
            }
        }
    }
}
