//! The session of one client, from its greeting to its end.
//! What it answers to a line is told in specs/Commands.antt, and how one line is carried out in `turn`.

use crate::batch::Origin;
use crate::mailing::{Mailing, PendingLiteral, Sent, long_rest_text};
use crate::response::{LAST, Response, put_last};
use crate::say::{put_continuing, put_of_server, put_tagged, put_untagged};
use crate::standing::{Admission, After, Append, Folder, Profile, Selected, SessionFault};
use crate::store::Store;
use crate::tag::Tag;
use crate::texts::{ResponseText, ServerText};
use crate::turn::{FIRST, after_command, carry_out, end_idle};
use crate::user::UserName;
use crate::verdict::{STORED, tell_verdict};
use delivery_token::Verdict;
use imap_grammar::{Command, Verb};
use line_io::Outlet;
use mailbox::MailFault;
use std::alloc::{AllocError, Global};
use std::marker::Model;

/// At most so many changes are shown in a turn of a session that idles.
const MOST_SHOWN_A_TURN: usize = 64;

/// One client's session: its mailboxes by their names, the one that it selected, whether it idles, the message that its client appends or copies, and
/// whether it has ended.
///
/// It holds no mailbox: the store that each call is handed does, and has entered the mailbox that is selected. Where the session has ended the
/// mailbox may still be selected, and whoever holds the session leaves it.
#[derive(Drop)]
pub struct Session {
    pub(crate) folders: Vec<Folder>,
    profile: Profile,
    // As whom the client is to log in.
    login: Option<UserName>,
    selected: Option<Selected>,
    // The tag of the IDLE that isn't done yet.
    idling: Option<Tag>,
    pub(crate) ended: bool,
    pub(crate) mailing: Mailing,
}

impl Model for Session {
    ghost use Rattle.imap_session.specs.Exchange.{Standing};

    ghost Value = { Standing };

    ghost view = { λ s. record { folders = s.folders.items; profile = s.profile; login = s.login; selected = s.selected; idling = s.idling; ended = s.ended; mailing = s.mailing } };
}

impl Session {
    ghost use Rattle.std.specs.Prelude.{◌≡◌, ◌≢◌, ◌==◌, ◌⊎◌, ◌+◌, ◌<◌, ◌≤◌, ◌++◌, ◌↔◌, take, min, if◌then◌else◌, true, false, [], codes, length, is_some, None, Some, Err, OnOk, OnErr, IfOk};
    ghost use Rattle.std.specs.Option.{option_copied, option_map};
    ghost use Rattle.imap_session.specs.Exchange.{Client, Sent as SentSpec, begun_with, Feed, Refused, closed, is_idling, may_send, played, refusal_text, continuing, tagged};
    ghost use Rattle.imap_session.specs.Happenings.{kept_tag};
    ghost use Rattle.imap_session.specs.Texts.{response_text};
    ghost use Rattle.imap_session.specs.declared.texts.ResponseText.TheVariants as texts;
    ghost use Rattle.imap_session.specs.Commands.{due_of, on_verdict, greeting, logged_in, long_line_text, most_changes, on_idle_line, turn_of_long_line};
    ghost use Rattle.imap_session.specs.inner.Lines.{Had};
    ghost use Rattle.imap_session.specs.inner.Seen.{HasFirstRoom, IsRoomy, origin_of, pending_of, purpose_of, sent_of};
    ghost use Rattle.imap_session.specs.Store.{Answers, AnswersVerdict, IdleTurns, Starves, TakesBytes, room_for, room_for_verdict, room_of_sets, room_rest, to_follow};
    ghost use Rattle.imap_session.specs.inner.Store.{Plays, behind_first_line, first_line, is_open};

    /// The session of a client whose mailboxes have these names, and which comes in so. It has selected no mailbox. Where two have the same name, the
    /// first is found.
    pub fn new(folders: Vec<Folder>, admission: Admission) -> Session
        ensures { result ≡ begun_with admission folders.items }
    {
        let Admission {
            max_message,
            profile,
            login,
            budget,
        } = admission;
        Session {
            folders,
            profile,
            login,
            selected: None,
            idling: None,
            ended: false,
            mailing: Mailing {
                most: max_message,
                number: 0,
                begun: None,
                sent: None,
                budget,
            },
        }
    }

    /// Writes what the server says first (RFC 9051, 7.1.4).
    ///
    /// Errors: `AllocError` where `out` has no room for it and memory was refused; `out` is then as it was.
    pub fn greet<O: Outlet>(&self, out: &mut O) -> Result<(), AllocError>
        ensures ok { OnOk result (O.said out.new ≡ O.said out.old ++ greeting self.now.profile) }
        ensures err { OnErr result (O.said out.new ≡ O.said out.old) }
        ensures memory { OnErr result (O.room out.old < length (greeting self.now.profile)) }
        ensures lot { O.lot out.new ≡ O.lot out.old }
    {
        let text = ServerText::Greeting(self.profile);
        out.hold(text.bytes().len() + 4)?;
        put_of_server(text, out);
        Ok(())
    }

    // Which commands and answers it has.
    pub(crate) fn profile(&self) -> Profile
        ensures { result ≡ self.now.profile }
    {
        self.profile
    }

    // The client has logged in, by a command of this verb.
    pub(crate) fn log_in<O: Outlet>(&mut self, tag: &[u8], verb: Verb, out: &mut O) -> After
        requires fits { length tag.now + LAST ≤ O.room out.old }
        ensures after { result ≡ After.Go }
        ensures standing { self.new ≡ logged_in self.old }
        ensures text { O.said out.new
            ≡ O.said out.old ++ tagged tag.now (response_text (texts.Completed verb)) }
        ensures lot { O.lot out.new ≡ O.lot out.old }
    {
        self.login = None;
        put_last(tag, ResponseText::Completed(verb), out);
        After::Go
    }

    // As whom the client is to log in.
    pub(crate) fn awaited(&self) -> Option<&[u8]>
        ensures { option_copied result ≡ self.now.login }
    {
        match &self.login {
            None => None,
            Some(user) => Some(user.as_bytes()),
        }
    }

    /// Whether the session has ended. It then takes no line.
    pub fn ended(&self) -> bool
        ensures { result ≡ self.now.ended }
    {
        self.ended
    }

    /// The mailbox that is selected, also where the session has ended.
    pub fn selected(&self) -> Option<Selected>
        ensures { result ≡ self.now.selected }
    {
        self.selected
    }

    /// Whether the session idles (RFC 2177): the next line ends that, and till then it may have turns.
    pub fn is_idling(&self) -> bool
        ensures { result ≡ is_idling self.now }
    {
        self.idling.is_some() && !self.ended
    }

    /// The tag of the IDLE that isn't done yet.
    pub fn idling(&self) -> Option<&[u8]>
        ensures { option_copied result ≡ self.now.idling }
    {
        match &self.idling {
            None => None,
            Some(tag) => Some(tag.as_slice()),
        }
    }

    /// The tag of the command that isn't done yet, which its last line will have.
    pub fn kept_tag(&self) -> Option<&[u8]>
        ensures { option_copied result ≡ kept_tag self.now }
    {
        match &self.mailing.begun {
            None => self.idling(),
            Some(begun) => Some(begun.tag.as_slice()),
        }
    }

    /// What the client may send next.
    pub fn may_send(&self) -> After
        ensures { result ≡ may_send self.now }
    {
        if self.ended {
            return After::Bye;
        }
        if self.mailing.sent.is_some() {
            return After::Submit;
        }
        match &self.mailing.begun {
            Some(begun) => After::Literal(begun.due),
            None => {
                if self.idling.is_some() {
                    After::Idle
                } else {
                    After::Go
                }
            }
        }
    }

    // Begins to idle. Where memory for the tag is refused, that is told: of a tag of at most 32 bytes it isn't asked.
    pub(crate) fn begin_idling<O: Outlet>(
        &mut self,
        alloc: Global,
        response: Response<'_, O>,
        out: &mut O,
    ) -> After
        ensures begun { result ≡ After.Idle
            → (self.new ≡ record self.old { idling = Some response.entry.tag }) ×
            (O.said out.new ≡ response.entry.text ++ continuing (response_text texts.Idling)) }
        ensures starved { result ≡ After.Go
            → (32 < length response.entry.tag) × (self.new ≡ self.old) ×
            (O.said out.new ≡ response.entry.text
            ++ tagged response.entry.tag (response_text texts.OutOfMemory)) }
        ensures only { (result ≡ After.Idle) ⊎ (result ≡ After.Go) }
        ensures lot { O.lot out.new ≡ response.entry.lot }
    {
        let tag = response.release(out);
        let Ok(kept) = Tag::new(alloc, tag) else {
            put_tagged(tag, ResponseText::OutOfMemory, out);
            return After::Go;
        };
        self.idling = Some(kept);
        put_continuing(ResponseText::Idling, out);
        After::Idle
    }

    // Answers a command other than IDLE, APPEND, COPY and MOVE, behind its first line.
    pub(crate) fn answer<S: Store, O: Outlet>(
        &mut self,
        alloc: Global,
        command: &Command<'_>,
        store: &mut S,
        mut response: Response<'_, O>,
        out: &mut O,
    ) -> After
        requires going { self.old.ended ≡ false }
        requires awake { self.old.idling ≡ None }
        requires alone { self.old.mailing.begun ≡ None }
        requires unsent { self.old.mailing.sent ≡ None }
        requires other { is_open command.now ≡ false }
        requires long { length response.tag + (LAST + FIRST)
            ≤ response.held + length (first_line self.old.profile command.now) }
        ensures plays { Plays S.step response.entry.tag self.old
            (record self.old { selected = self.new.selected })
            (behind_first_line response.entry.tag self.old command.now) store.old store.new response.entry.text
            (O.said out.new) result }
        ensures standing { self.new
            ≡ (closed (record self.old { selected = self.new.selected }) result).standing }
        ensures sends { result ≡ may_send self.new }
        ensures lot { O.lot out.new ≡ response.entry.lot }
    {
        let done = carry_out(
            alloc,
            self.profile,
            &self.folders,
            command,
            &mut self.selected,
            store,
            &mut response,
        );
        let after = response.conclude(after_command(command), done, out);
        self.ended = matches!(after, After::Bye);
        after
    }

    // Answers a line where it doesn't idle.
    fn awake_line<S: Store, O: Outlet>(
        &mut self,
        alloc: Global,
        line: &[u8],
        store: &mut S,
        out: &mut O,
    ) -> Result<After, SessionFault>
        requires going { self.old.ended ≡ false }
        requires awake { self.old.idling ≡ None }
        requires alone { self.old.mailing.begun ≡ None }
        requires unsent { self.old.mailing.sent ≡ None }
        ensures answered { IfOk result (λ after.
            Answers S.step self.old line.now store.old store.new (O.said out.old) (O.said out.new) after
            self.new) }
        ensures lasts { result ≢ Err SessionFault.Ended }
        ensures refused { OnErr result ((self.new ≡ self.old) × (store.new ≡ store.old)
            × (O.said out.new ≡ O.said out.old)) }
        ensures memory { OnErr result (O.room out.old < length line.now + 165) }
        ensures folders { self.new.folders ≡ self.old.folders }
        ensures sends { IfOk result (λ after. after ≡ may_send self.new) }
        ensures lot { O.lot out.new ≡ O.lot out.old }
    {
        out.hold(line.len() + LAST + FIRST)?;
        Ok(self.text_line(alloc, line, store, out))
    }

    // Answers the line that ended an IDLE.
    fn end_idling<S: Store, O: Outlet>(
        &mut self,
        line: &[u8],
        store: &mut S,
        mut response: Response<'_, O>,
        out: &mut O,
    ) -> After
        requires going { self.old.ended ≡ false }
        requires awake { self.old.idling ≡ None }
        requires alone { self.old.mailing.begun ≡ None }
        requires unsent { self.old.mailing.sent ≡ None }
        ensures plays { Plays S.step response.entry.tag self.old self.old
            (on_idle_line self.old.selected line.now) store.old store.new response.entry.text
            (O.said out.new) result }
        ensures standing { self.new ≡ (closed self.old result).standing }
        ensures sends { result ≡ may_send self.new }
        ensures lot { O.lot out.new ≡ response.entry.lot }
    {
        let done = end_idle(line, self.selected, store, &mut response);
        let after = response.conclude(After::Go, done, out);
        self.ended = matches!(after, After::Bye);
        after
    }

    // Answers a line where it idled, with this tag. That is over, unless memory was refused.
    fn idle_line<S: Store, O: Outlet>(
        &mut self,
        tag: Tag,
        line: &[u8],
        store: &mut S,
        out: &mut O,
    ) -> Result<After, SessionFault>
        requires going { self.old.ended ≡ false }
        requires awake { self.old.idling ≡ None }
        requires alone { self.old.mailing.begun ≡ None }
        requires unsent { self.old.mailing.sent ≡ None }
        ensures answered { IfOk result (λ after. Answers S.step
            (record self.old { idling = Some tag }) line.now store.old store.new (O.said out.old)
            (O.said out.new) after self.new) }
        ensures lasts { result ≢ Err SessionFault.Ended }
        ensures refused { OnErr result ((self.new ≡ record self.old { idling = Some tag })
            × (store.new ≡ store.old) ×
            (O.said out.new ≡ O.said out.old)) }
        ensures memory { OnErr result (O.room out.old < length tag + 48) }
        ensures folders { self.new.folders ≡ self.old.folders }
        ensures sends { IfOk result (λ after. after ≡ may_send self.new) }
        ensures lot { O.lot out.new ≡ O.lot out.old }
    {
        if out.hold(tag.as_slice().len() + LAST).is_err() {
            self.idling = Some(tag);
            return Err(SessionFault::NoMemory);
        }
        let response = Response::new(tag.as_slice(), LAST, out);
        Ok(self.end_idling(line, store, response, out))
    }

    /// Answers a line, which comes without its CRLF and may have any bytes (RFC 9051, 6 and 7): asks the store for what its command needs,
    /// writes the answer behind `out`, and says what the client may send next. A line that comes while the session idles isn't read as a
    /// command: it ends that, and is DONE or refused (RFC 2177, 3).
    ///
    /// What the store refuses is told to the client, and so is memory that is refused once the command has begun. The last line of an answer
    /// is always written: room for it is reserved first, so that a client can log out where memory is refused. So is room for all that
    /// CAPABILITY and NAMESPACE say, and to idle, with a tag of at most 32 bytes, or to leave a mailbox the session itself wants no memory.
    /// SELECT and EXAMINE leave the mailbox that was selected, and tell that, before they want any; once they entered the new one all is told.
    ///
    /// Behind the literal of an APPEND the line is the rest of that command's, which is to be empty: the message is then submitted, or it is said
    /// why not (6.3.12). It has the bytes that were taken till then, so whoever calls it hands over all that are due first. While the verdict on a
    /// message is awaited no line may come. With the compatible profile a line may have other literals (4.3): each is an argument, in whose place the
    /// quoted string stands that says the same, and the line may have 8,190 bytes then. So the response goes behind AUTHENTICATE (6.2.2).
    ///
    /// Errors, after which the session, the store and `out` are as they were: `Ended` exactly where the session has ended; `NoMemory` where
    /// memory was refused, and `out` has no room for the line's length and 165 bytes more; where the line ends an IDLE or an APPEND, for the
    /// length of its tag and 48 more; where it goes on with another command, for the length of its tag and 8,347 more.
    pub fn line<S: Store, O: Outlet>(
        &mut self,
        alloc: Global,
        line: &[u8],
        store: &mut S,
        out: &mut O,
    ) -> Result<After, SessionFault>
        requires unsent { self.old.mailing.sent ≡ None }
        // What was asked of the store, what is said, and how the session stands then is what `turn_of` tells, by the store's answers.
        ensures answered { IfOk result (λ after.
            Answers S.step self.old line.now store.old store.new (O.said out.old) (O.said out.new) after
            self.new) }
        ensures ended { (result ≡ Err SessionFault.Ended) ↔ (self.old.ended ≡ true) }
        ensures refused { OnErr result ((self.new ≡ self.old) × (store.new ≡ store.old)
            × (O.said out.new ≡ O.said out.old)) }
        // Where `out` had the room of `room_for`, NoMemory never comes.
        ensures memory { result ≡ Err SessionFault.NoMemory
            → O.room out.old < room_for self.old line.now }
        ensures folders { self.new.folders ≡ self.old.folders }
        ensures sends { IfOk result (λ after. after ≡ may_send self.new) }
        ensures lot { O.lot out.new ≡ O.lot out.old }
    {
        if self.ended {
            return Err(SessionFault::Ended);
        }
        if let Some(begun) = self.mailing.begun.take() {
            return self.rest_line(alloc, begun, line, store, out);
        }
        match self.idling.take() {
            None => self.awake_line(alloc, line, store, out),
            Some(tag) => self.idle_line(tag, line, store, out),
        }
    }

    /// How many bytes of the literal are still due that was announced.
    pub fn literal_due(&self) -> usize
        ensures { result ≡ due_of self.now.mailing.begun }
    {
        match &self.mailing.begun {
            None => 0,
            Some(begun) => begun.due,
        }
    }

    /// Takes bytes of the literal that was announced, those at the front of the piece, and answers how many: as many as are due. When
    /// none is due the rest of the line goes to `line`. Where memory is refused the bytes are dropped, and the command ends with that; but none of the
    /// first 4,096, for which there is room once a literal is taken.
    pub fn literal(&mut self, piece: &[u8]) -> usize
        // As many as are due, from the front of the piece: they are kept, or memory was refused to them.
        ensures count { result ≡ min (length piece.now) (due_of self.old.mailing.begun) }
        ensures taken { TakesBytes self.old (take result piece.now) self.new }
    {
        let Some(mut begun) = self.mailing.begun.take() else {
            return 0;
        };
        let count = piece.len().min(begun.due);
        begun.keep(&piece[..count]);
        self.mailing.begun = Some(begun);
        count
    }

    /// The message that was submitted and waits for the verdict on it.
    pub fn submission(&self) -> Option<&Append>
        ensures { option_map (λ a. a.now) result
            ≡ option_map (λ (s : SentSpec). s.append) self.now.mailing.sent }
    {
        match &self.mailing.sent {
            None => None,
            Some(sent) => Some(&sent.append),
        }
    }

    /// Whether a message was submitted, and the verdict on it isn't there: till then the session takes no line.
    pub fn awaits_verdict(&self) -> bool
        ensures is { result ≡ is_some self.now.mailing.sent }
        ensures none { result ≡ false → self.now.mailing.sent ≡ None }
    {
        self.mailing.sent.is_some()
    }

    // Answers the rest of a line behind a literal.
    // Its frame stands apart: the stack of a thread that waits for its client is as deep as what it once answered.
    #[inline(never)]
    fn rest_line<S: Store, O: Outlet>(
        &mut self,
        alloc: Global,
        begun: PendingLiteral,
        line: &[u8],
        store: &mut S,
        out: &mut O,
    ) -> Result<After, SessionFault>
        requires going { self.old.ended ≡ false }
        requires alone { self.old.mailing.begun ≡ None }
        requires unsent { self.old.mailing.sent ≡ None }
        requires room { HasFirstRoom begun }
        ensures answered { IfOk result (λ after. Answers S.step
            (record self.old { mailing = record self.old.mailing { begun = Some (pending_of begun) } })
            line.now store.old store.new (O.said out.old) (O.said out.new) after self.new) }
        ensures lasts { result ≢ Err SessionFault.Ended }
        ensures refused { OnErr result ((self.new
            ≡ record self.old {
              mailing = record self.old.mailing
                  { begun = Some (pending_of begun) };
            }) ×
            (store.new ≡ store.old) × (O.said out.new ≡ O.said out.old)) }
        ensures memory { OnErr result (O.room out.old
            < length begun.tag + room_rest (purpose_of begun.purpose)) }
        ensures folders { self.new.folders ≡ self.old.folders }
        ensures sends { IfOk result (λ after. after ≡ may_send self.new) }
        ensures lot { O.lot out.new ≡ O.lot out.old }
    {
        if out
            .hold(begun.tag.as_slice().len() + begun.purpose.room())
            .is_err()
        {
            self.mailing.begun = Some(begun);
            return Err(SessionFault::NoMemory);
        }
        self.idling = None;
        if begun.purpose.is_message() {
            return Ok(self.message_line(begun, line, out));
        }
        Ok(self.part_line(alloc, begun, line, store, out))
    }

    // Hears the verdict on a message that was appended.
    fn hear_append<S: Store, O: Outlet>(
        &mut self,
        tag: &[u8],
        mailbox: u8,
        verdict: Verdict,
        store: &mut S,
        out: &mut O,
    ) -> After
        requires going { self.old.ended ≡ false }
        requires awake { self.old.idling ≡ None }
        requires alone { self.old.mailing.begun ≡ None }
        requires unsent { self.old.mailing.sent ≡ None }
        requires fits { length tag.now + STORED ≤ O.room out.old }
        ensures plays { Plays S.step tag.now self.old self.old
            (on_verdict self.old.mailing self.old.selected Client mailbox verdict) store.old store.new
            (O.said out.old) (O.said out.new) result }
        ensures standing { self.new ≡ (closed self.old result).standing }
        ensures mailing { self.new.mailing ≡ self.old.mailing }
        ensures sends { result ≡ may_send self.new }
        ensures lot { O.lot out.new ≡ O.lot out.old }
    {
        let response = Response::new(tag, STORED, out);
        let after = tell_verdict(mailbox, verdict, self.selected, store, response, out);
        self.ended = matches!(after, After::Bye);
        after
    }

    // Hears the verdict on a message, in room that was reserved.
    fn hear_in_room<S: Store, O: Outlet>(
        &mut self,
        sent: Sent,
        verdict: Verdict,
        store: &mut S,
        out: &mut O,
    ) -> After
        requires going { self.old.ended ≡ false }
        requires awake { self.old.idling ≡ None }
        requires alone { self.old.mailing.begun ≡ None }
        requires unsent { self.old.mailing.sent ≡ None }
        requires roomy { IsRoomy sent.origin }
        requires fits { length sent.tag
            + (STORED + room_of_sets (origin_of sent.origin)) ≤ O.room out.old }
        ensures had { Had (played sent.tag self.old
            (on_verdict self.old.mailing self.old.selected (origin_of sent.origin) sent.append.mailbox
            verdict)) S.step store.old store.new (O.said out.old) (O.said out.new) result self.new }
        ensures folders { self.new.folders ≡ self.old.folders }
        ensures alone { self.new.mailing.begun ≡ None }
        ensures sends { result ≡ may_send self.new }
        ensures lot { O.lot out.new ≡ O.lot out.old }
    {
        let Sent {
            tag,
            append,
            origin,
        } = sent;
        let mailbox = append.mailbox;
        match origin {
            Origin::Client => self.hear_append(tag.as_slice(), mailbox, verdict, store, out),
            Origin::Copied(batch) => self.hear_copy(mailbox, tag, batch, verdict, store, out),
        }
    }

    // Hears the verdict on a message that was submitted. It is no longer waited for, unless memory was refused.
    fn hear<S: Store, O: Outlet>(
        &mut self,
        sent: Sent,
        verdict: Verdict,
        store: &mut S,
        out: &mut O,
    ) -> Result<After, SessionFault>
        requires going { self.old.ended ≡ false }
        requires unsent { self.old.mailing.sent ≡ None }
        requires roomy { IsRoomy sent.origin }
        ensures answered { IfOk result (λ after. AnswersVerdict S.step
            (record self.old { mailing = record self.old.mailing { sent = Some (sent_of sent) } })
            verdict store.old store.new (O.said out.old) (O.said out.new) after self.new) }
        ensures lasts { result ≢ Err SessionFault.Ended }
        ensures refused { OnErr result ((self.new
            ≡ record self.old {
              mailing = record self.old.mailing
                  { sent = Some (sent_of sent) };
            }) ×
            (store.new ≡ store.old) × (O.said out.new ≡ O.said out.old)) }
        ensures memory { OnErr result (O.room out.old
            < length sent.tag + (STORED + room_of_sets (origin_of sent.origin))) }
        ensures done { OnOk result (self.new.mailing.begun ≡ None) }
        ensures folders { self.new.folders ≡ self.old.folders }
        ensures sends { IfOk result (λ after. after ≡ may_send self.new) }
        ensures lot { O.lot out.new ≡ O.lot out.old }
    {
        let room = sent.tag.as_slice().len() + (STORED + sent.origin.room());
        if out.hold(room).is_err() {
            self.mailing.sent = Some(sent);
            return Err(SessionFault::NoMemory);
        }
        self.idling = None;
        self.mailing.begun = None;
        Ok(self.hear_in_room(sent, verdict, store, out))
    }

    /// For how many bytes there has to be room before the verdict on the message that was submitted is answered; 0 where none is waited for.
    /// Where there is, the answer is never refused for want of memory.
    pub fn verdict_room(&self) -> usize
        ensures { result ≡ room_for_verdict self.now }
    {
        match &self.mailing.sent {
            None => 0,
            Some(sent) => sent.tag.as_slice().len() + (STORED + sent.origin.room()),
        }
    }

    /// Behind the message that was submitted fewer follow than one command may copy. It does nothing, and is called for what it says.
    pub fn few_follow(&self)
        ensures { to_follow self.now.mailing.sent < 32768 }
    {
        self.mailing.few_follow();
    }

    /// Answers the verdict on the message that was submitted (RFC 9051, 6.3.12 and 6.4.7): where it was stored, shows what is pending in the selected
    /// mailbox and says under which UID (RFC 4315, 3); else says why it wasn't. The session then takes lines again.
    ///
    /// Of messages that are copied the next is submitted, where one is left: nothing is said then, and the verdict on that is waited for. Once all are stored it is told under
    /// which UIDs, and messages that are moved are removed (RFC 6851, 3.3). Where one is refused the copies that were stored are removed again.
    ///
    /// Errors, after which the session, the store and `out` are as they were, and the same verdict is waited for: `Ended` exactly where the
    /// session has ended; `NoMemory` where memory was refused, and `out` has no room for as many bytes as `verdict_room` tells.
    pub fn appended<S: Store, O: Outlet>(
        &mut self,
        verdict: Verdict,
        store: &mut S,
        out: &mut O,
    ) -> Result<After, SessionFault>
        requires waits { is_some self.old.mailing.sent ≡ true }
        // What was asked of the store, what is said, and how the session stands then is what `turn_of_verdict` tells, by the store's answers.
        ensures answered { IfOk result (λ after. AnswersVerdict S.step self.old verdict
            store.old store.new (O.said out.old) (O.said out.new) after self.new) }
        ensures ended { (result ≡ Err SessionFault.Ended) ↔ (self.old.ended ≡ true) }
        ensures refused { OnErr result ((self.new ≡ self.old) × (store.new ≡ store.old)
            × (O.said out.new ≡ O.said out.old)) }
        // Where `out` had the room that `verdict_room` tells, NoMemory never comes.
        ensures memory { result ≡ Err SessionFault.NoMemory
            → O.room out.old < room_for_verdict self.old }
        // Once it is answered, no literal is waited for. A verdict may be, on the next message that is copied.
        ensures done { OnOk result (self.new.mailing.begun ≡ None) }
        ensures folders { self.new.folders ≡ self.old.folders }
        ensures sends { IfOk result (λ after. after ≡ may_send self.new) }
        ensures lot { O.lot out.new ≡ O.lot out.old }
    {
        if self.ended {
            return Err(SessionFault::Ended);
        }
        match self.mailing.sent.take() {
            None => unreachable!(),
            Some(sent) => self.hear(sent, verdict, store, out),
        }
    }

    /// Answers a line that was too long to be kept, of which nothing was read. While the session idles it ends that, as any line does, and so it
    /// ends an APPEND whose literal it stands behind.
    ///
    /// Errors, after which the session and `out` are as they were: `Ended` exactly where the session has ended; `NoMemory` where `out` has no
    /// room for the answer and memory was refused.
    pub fn long_line<O: Outlet>(&mut self, out: &mut O) -> Result<After, SessionFault>
        // One line is said, that of `long_line_text`, and a command may follow: an IDLE or APPEND that was begun is over.
        ensures answered { IfOk result (λ after. (after ≡ After.Go)
            × (O.said out.new ≡ O.said out.old ++ long_line_text self.old)) }
        ensures standing { OnOk result (self.new ≡ (turn_of_long_line self.old).standing) }
        ensures ended { (result ≡ Err SessionFault.Ended) ↔ (self.old.ended ≡ true) }
        ensures refused { OnErr result ((self.new ≡ self.old) × (O.said out.new ≡ O.said out.old)) }
        ensures memory { result ≡ Err SessionFault.NoMemory
            → O.room out.old < length (long_line_text self.old) }
        ensures lot { O.lot out.new ≡ O.lot out.old }
    {
        if self.ended {
            return Err(SessionFault::Ended);
        }
        if let Some(begun) = &self.mailing.begun {
            let text = long_rest_text(begun);
            let tag = begun.tag.as_slice();
            out.hold(tag.len() + text.bytes().len() + 3)?;
            put_tagged(tag, text, out);
            self.mailing.begun = None;
            self.idling = None;
            return Ok(After::Go);
        }
        match &self.idling {
            None => {
                let text = ResponseText::LineTooLong;
                out.hold(text.bytes().len() + 4)?;
                put_untagged(text, out);
            }
            Some(tag) => {
                let tag = tag.as_slice();
                let text = ResponseText::ExpectedDone;
                out.hold(tag.len() + text.bytes().len() + 3)?;
                put_tagged(tag, text, out);
                self.idling = None;
            }
        }
        Ok(After::Go)
    }

    // Says BYE for a fault that ends the session.
    fn part<O: Outlet>(&mut self, fault: MailFault, response: Response<'_, O>, out: &mut O)
        ensures text { O.said out.new
            ≡ response.entry.text ++ refusal_text response.entry.tag fault }
        ensures standing { self.new ≡ record self.old { ended = true } }
        ensures lot { O.lot out.new ≡ response.entry.lot }
    {
        let _ = response.conclude(After::Bye, Err(fault), out);
        self.ended = true;
    }

    /// Has a turn while it idles (RFC 2177, 3): shows what is pending in the selected mailbox, 64 changes at most, and answers how many it
    /// showed. Where no mailbox is selected, or it doesn't idle, nothing is asked of the store and nothing written. A client that missed changes
    /// is told BYE, and so is one that the store doesn't know: the session has then ended.
    ///
    /// Errors, after which the session and `out` are as they were: `Ended` exactly where the session has ended, and the store isn't asked;
    /// `NoMemory` where memory was refused, by the store or for a BYE line, in which case it isn't asked.
    pub fn idle_turn<S: Store, O: Outlet>(
        &mut self,
        store: &mut S,
        out: &mut O,
    ) -> Result<usize, SessionFault>
        // What was asked of the store, what is said, and how the session stands then is what the spec's `idle_turn` tells, for so many changes.
        ensures turned { IfOk result (λ count.
            IdleTurns S.step self.old store.old store.new (O.said out.old) (O.said out.new) count
            self.new) }
        ensures mailing { self.new.mailing ≡ self.old.mailing }
        ensures few { IfOk result (λ count. count ≤ 64) }
        // Where it shows nothing and the session goes on, nothing is changed and nothing said.
        ensures quiet { IfOk result (λ count. count ≡ 0 → self.new.ended ≡ false
            → (self.new ≡ self.old) × (O.said out.new ≡ O.said out.old)) }
        // Ended exactly where the session has ended, and the store is as it was.
        ensures ended { (result ≡ Err SessionFault.Ended) ↔ (self.old.ended ≡ true) }
        ensures over { result ≡ Err SessionFault.Ended → store.new ≡ store.old }
        // After NoMemory the store is as it was, or it refused memory itself.
        ensures starved { result ≡ Err SessionFault.NoMemory → Starves S.step store.old store.new }
        // Where `out` has room for a BYE line, the store was asked.
        ensures asked { result ≡ Err SessionFault.NoMemory
            → 48 ≤ O.room out.old →
            S.step store.old (Feed most_changes) (Refused MailFault.NoMemory) store.new }
        ensures refused { OnErr result ((self.new ≡ self.old) × (O.said out.new ≡ O.said out.old)) }
        ensures lot { O.lot out.new ≡ O.lot out.old }
    {
        if self.ended {
            return Err(SessionFault::Ended);
        }
        if !self.is_idling() {
            return Ok(0);
        }
        let Some(_) = self.selected else {
            return Ok(0);
        };
        out.hold(LAST)?;
        let mut response = Response::new(b"", LAST, out);
        match response.show(MOST_SHOWN_A_TURN, store) {
            Ok(count) => {
                response.release(out);
                Ok(count)
            }
            Err(MailFault::Stranger) => {
                self.part(MailFault::Stranger, response, out);
                Ok(0)
            }
            Err(MailFault::Lapped) => {
                self.part(MailFault::Lapped, response, out);
                Ok(0)
            }
            Err(MailFault::Spent) => unreachable!(),
            Err(MailFault::NoMemory) => {
                response.release(out);
                Err(SessionFault::NoMemory)
            }
        }
    }
}
