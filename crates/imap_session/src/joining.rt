//! Lines of a command that go on behind a literal or a challenge: what becomes of the session while a part of one is awaited, and once it is there.
//! What is said where is told in specs/Commands.antt; how a part is put in its place in `unfinished`, and messages that a client appends in `appending`.

use crate::appending::MOST_UNASKED;
use crate::mailing::{PendingLiteral, Purpose, begin_text};
use crate::response::{LAST, put_last};
use crate::say::{put_bye, put_challenge, put_continuing};
use crate::session::Session;
use crate::standing::After;
use crate::store::Store;
use crate::tag::Tag;
use crate::texts::ResponseText;
use crate::turn::FIRST;
use crate::unfinished::{
    DueArgument, MOST_LINE, comes_unasked, keep_line, with_argument, with_response,
};
use line_io::Outlet;
use std::alloc::{AllocError, Global};

impl Session {
    ghost use Rattle.std.specs.Prelude.{◌≡◌, ◌≤◌, ◌+◌, ℕ, List, min, length, IfOk, IfSome, None, false, true, []};
    ghost use Rattle.std.specs.Vec.{vec_capacity};
    ghost use Rattle.imap_session.specs.Exchange.{may_send};
    ghost use Rattle.imap_session.specs.Commands.{awaiting_argument, awaiting_response, given_up, most_line};
    ghost use Rattle.imap_session.specs.Texts.{response_text};
    ghost use Rattle.imap_session.specs.Store.{most_first_room};
    ghost use Rattle.imap_session.specs.inner.Appends.{Leads};
    ghost use Rattle.imap_session.specs.inner.Lines.{AnswersJoined, Had, IsJoined, is_message, on_rest_part};
    ghost use Rattle.imap_session.specs.inner.Seen.{HasFirstRoom, pending_of, purpose_of};

    // What a literal that is an argument is kept in: the front of its line, and room for its text.
    fn begin_argument(
        alloc: Global,
        before: &[u8],
        size: usize,
    ) -> Result<(Vec<u8>, Vec<u8>), AllocError>
        ensures line { IfOk result (λ kept. kept.0.items ≡ before.now) }
        ensures line_room { IfOk result (λ kept. most_line ≤ vec_capacity kept.0) }
        ensures empty { IfOk result (λ kept. kept.1.items ≡ []) }
        ensures room { IfOk result (λ kept. min size most_first_room ≤ vec_capacity kept.1) }
    {
        let line = keep_line(alloc, before)?;
        let text = begin_text(alloc, size)?;
        Ok((line, text))
    }

    // Asks for a literal that is an argument, and waits for its bytes. Where memory for what it is kept in is refused, that is told.
    fn ask_for_argument<O: Outlet>(
        &mut self,
        alloc: Global,
        found: DueArgument<'_>,
        out: &mut O,
    ) -> After
        requires going { self.old.ended ≡ false }
        requires awake { self.old.idling ≡ None }
        requires alone { self.old.mailing.begun ≡ None }
        requires unsent { self.old.mailing.sent ≡ None }
        requires waits { found.literal.waits ≡ true }
        requires fits { length found.tag.now + LAST ≤ O.room out.old }
        ensures leads { Leads found.entry.tag.now self.old
            (awaiting_argument found.entry.before.now found.entry.literal)
            (O.said out.old) (O.said out.new) result self.new }
        ensures folders { self.new.folders ≡ self.old.folders }
        ensures sends { result ≡ may_send self.new }
        ensures lot { O.lot out.new ≡ O.lot out.old }
    {
        let DueArgument {
            tag,
            before,
            literal,
        } = found;
        if before.len() as u128 + literal.size as u128 > MOST_LINE as u128 {
            put_last(tag, ResponseText::LineTooLong, out);
            return After::Go;
        }
        let size = literal.size as usize;
        let Ok(own_tag) = Tag::new(alloc, tag) else {
            put_last(tag, ResponseText::OutOfMemory, out);
            return After::Go;
        };
        let Ok((line, text)) = Session::begin_argument(alloc, before, size) else {
            put_last(tag, ResponseText::OutOfMemory, out);
            return After::Go;
        };
        put_continuing(ResponseText::Ready, out);
        self.begin_literal(own_tag, Purpose::Argument(line), size, Some(text))
    }

    // Waits for a literal that is an argument and comes without being asked for. Its bytes are no commands, whatever is refused: where memory for what it
    // is kept in is, they are dropped, and that is told behind them. Without a tag that can't be told, and the session ends.
    fn expect_argument<O: Outlet>(
        &mut self,
        alloc: Global,
        found: DueArgument<'_>,
        out: &mut O,
    ) -> After
        requires going { self.old.ended ≡ false }
        requires awake { self.old.idling ≡ None }
        requires alone { self.old.mailing.begun ≡ None }
        requires unsent { self.old.mailing.sent ≡ None }
        requires comes { found.literal.waits ≡ false }
        requires size { found.literal.size ≤ 4096 }
        requires fits { length found.tag.now + LAST ≤ O.room out.old }
        ensures leads { Leads found.entry.tag.now self.old
            (awaiting_argument found.entry.before.now found.entry.literal)
            (O.said out.old) (O.said out.new) result self.new }
        ensures folders { self.new.folders ≡ self.old.folders }
        ensures sends { result ≡ may_send self.new }
        ensures lot { O.lot out.new ≡ O.lot out.old }
    {
        let size = found.literal.size as usize;
        let kept = Session::begin_argument(alloc, found.before, size);
        let Ok(tag) = Tag::new(alloc, found.tag) else {
            put_bye(ResponseText::ByeOutOfMemory, out);
            self.ended = true;
            return After::Bye;
        };
        match kept {
            Ok((line, text)) => {
                return self.begin_literal(tag, Purpose::Argument(line), size, Some(text));
            }
            Err(_) => {
                return self.begin_literal(tag, Purpose::Argument(Vec::new(alloc)), size, None);
            }
        }
    }

    // Takes a line that announces a literal, which is an argument of it.
    pub(crate) fn await_argument<O: Outlet>(
        &mut self,
        alloc: Global,
        found: DueArgument<'_>,
        out: &mut O,
    ) -> After
        requires going { self.old.ended ≡ false }
        requires awake { self.old.idling ≡ None }
        requires alone { self.old.mailing.begun ≡ None }
        requires unsent { self.old.mailing.sent ≡ None }
        requires fits { length found.tag.now + LAST ≤ O.room out.old }
        ensures leads { Leads found.entry.tag.now self.old
            (awaiting_argument found.entry.before.now found.entry.literal)
            (O.said out.old) (O.said out.new) result self.new }
        ensures folders { self.new.folders ≡ self.old.folders }
        ensures sends { result ≡ may_send self.new }
        ensures lot { O.lot out.new ≡ O.lot out.old }
    {
        if found.literal.waits {
            return self.ask_for_argument(alloc, found, out);
        }
        if found.literal.size > MOST_UNASKED {
            put_bye(ResponseText::LiteralTooBig, out);
            self.ended = true;
            return After::Bye;
        }
        self.expect_argument(alloc, found, out)
    }

    // Asks for the response to AUTHENTICATE, by an empty challenge.
    // Its frame stands apart: the stack of a thread that waits for its client is as deep as what it once answered.
    #[inline(never)]
    pub(crate) fn await_response<O: Outlet>(
        &mut self,
        alloc: Global,
        tag: &[u8],
        line: &[u8],
        out: &mut O,
    ) -> After
        requires going { self.old.ended ≡ false }
        requires awake { self.old.idling ≡ None }
        requires alone { self.old.mailing.begun ≡ None }
        requires unsent { self.old.mailing.sent ≡ None }
        requires fits { length tag.now + LAST ≤ O.room out.old }
        ensures leads { Leads tag.now self.old (awaiting_response line.now) (O.said out.old)
            (O.said out.new) result self.new }
        ensures folders { self.new.folders ≡ self.old.folders }
        ensures sends { result ≡ may_send self.new }
        ensures lot { O.lot out.new ≡ O.lot out.old }
    {
        let Ok(own_tag) = Tag::new(alloc, tag) else {
            put_last(tag, ResponseText::OutOfMemory, out);
            return After::Go;
        };
        let Ok((line, text)) = Session::begin_argument(alloc, line, 0) else {
            put_last(tag, ResponseText::OutOfMemory, out);
            return After::Go;
        };
        put_challenge(out);
        self.begin_literal(own_tag, Purpose::Response(line), 0, Some(text))
    }

    // Gives a line up that ends so.
    pub(crate) fn give_up<O: Outlet>(
        &mut self,
        tag: &[u8],
        rest: &[u8],
        told: ResponseText,
        parting: ResponseText,
        out: &mut O,
    ) -> After
        requires going { self.old.ended ≡ false }
        requires awake { self.old.idling ≡ None }
        requires alone { self.old.mailing.begun ≡ None }
        requires unsent { self.old.mailing.sent ≡ None }
        requires fits { length tag.now + LAST ≤ O.room out.old }
        requires short { length (response_text parting) + 8 ≤ LAST }
        ensures leads { Leads tag.now self.old (given_up rest.now told parting) (O.said out.old)
            (O.said out.new) result self.new }
        ensures folders { self.new.folders ≡ self.old.folders }
        ensures sends { result ≡ may_send self.new }
        ensures lot { O.lot out.new ≡ O.lot out.old }
    {
        if comes_unasked(rest) {
            put_bye(parting, out);
            self.ended = true;
            return After::Bye;
        }
        put_last(tag, told, out);
        After::Go
    }

    // Answers a line with its literals in it, which ends so, in room that was reserved; None where it is too long.
    fn joined_line<S: Store, O: Outlet>(
        &mut self,
        alloc: Global,
        tag: &[u8],
        line: Option<Vec<u8>>,
        rest: &[u8],
        store: &mut S,
        out: &mut O,
    ) -> After
        requires going { self.old.ended ≡ false }
        requires awake { self.old.idling ≡ None }
        requires alone { self.old.mailing.begun ≡ None }
        requires unsent { self.old.mailing.sent ≡ None }
        requires short { IfSome line (λ l. length l.items ≤ most_line) }
        requires fits { length tag.now + MOST_LINE + LAST + FIRST ≤ O.room out.old }
        ensures answered { (whole : List ℕ) → IsJoined line whole
            → AnswersJoined S.step tag.now self.old whole rest.now store.old store.new (O.said out.old)
            (O.said out.new) result self.new }
        ensures folders { self.new.folders ≡ self.old.folders }
        ensures sends { result ≡ may_send self.new }
        ensures lot { O.lot out.new ≡ O.lot out.old }
    {
        match line {
            Some(line) => self.text_line(alloc, &line, store, out),
            None => {
                let told = ResponseText::LineTooLong;
                self.give_up(tag, rest, told, ResponseText::LiteralTooBig, out)
            }
        }
    }

    // Answers the rest of a line behind a literal that is an argument of it, or behind a challenge.
    pub(crate) fn part_line<S: Store, O: Outlet>(
        &mut self,
        alloc: Global,
        begun: PendingLiteral,
        rest: &[u8],
        store: &mut S,
        out: &mut O,
    ) -> After
        requires going { self.old.ended ≡ false }
        requires awake { self.old.idling ≡ None }
        requires alone { self.old.mailing.begun ≡ None }
        requires unsent { self.old.mailing.sent ≡ None }
        requires part { is_message (purpose_of begun.purpose) ≡ false }
        requires room { HasFirstRoom begun }
        requires fits { length begun.tag + MOST_LINE + LAST + FIRST ≤ O.room out.old }
        ensures answered { Had (on_rest_part (pending_of begun) self.old rest.now) S.step
            store.old store.new (O.said out.old) (O.said out.new) result self.new }
        ensures folders { self.new.folders ≡ self.old.folders }
        ensures sends { result ≡ may_send self.new }
        ensures lot { O.lot out.new ≡ O.lot out.old }
    {
        let PendingLiteral {
            tag,
            purpose,
            size: _,
            due: _,
            text,
        } = begun;
        let tag = tag.as_slice();
        let Some(text) = text else {
            let told = ResponseText::OutOfMemory;
            return self.give_up(tag, rest, told, ResponseText::ByeOutOfMemory, out);
        };
        match purpose {
            Purpose::Argument(before) => {
                let line = with_argument(before, &text, rest);
                self.joined_line(alloc, tag, line, rest, store, out)
            }
            Purpose::Response(before) => {
                let line = with_response(before, rest);
                self.joined_line(alloc, tag, line, rest, store, out)
            }
            Purpose::Message { .. } => unreachable!(),
        }
    }
}
