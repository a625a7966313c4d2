//! The server's side of one LMTP connection (RFC 2033), over bytes that come in any pieces: it says what is replied and which
//! messages are submitted. Answers to command lines are in commands.rt, building a message in message.rt; it knows nothing of sockets,
//! queues and mailboxes.

ghost use Rattle.std.specs.Prelude.{All, ◌≡◌, ◌+◌, ◌*◌, ◌++◌, ◌≤◌, ◌<◌, take, replicate, true, false, Some, List, [], ◌∷◌, length, IfOk, OnOk, OnErr, ℕ, vec_len, vec_capacity};
ghost use Rattle.lmtp_machine.specs.Dialogue as dialogue;
ghost use Rattle.lmtp_machine.specs.Conversation.{Conversation, opened};
ghost use Rattle.envelope.specs.Names.{Directory};
ghost use Rattle.lmtp_machine.specs.LmtpMachine.{StandsFor, is_data};
ghost use Rattle.lmtp_machine.specs.Standing.{IsOpen};
ghost use Rattle.delivery_token.specs.Text.{undated};
ghost use Rattle.lmtp_machine.specs.Message.{plain, return_path};
ghost use Rattle.dot_stuffing.specs.Unstuffing.{IsBehind};
ghost use Rattle.lmtp_machine.specs.Dialogue.{keys_from, on_outcome, wire, IsBrief};
ghost use Rattle.lmtp_machine.specs.inner.Ending.{Becomes, Does, what_of};
ghost use Rattle.lmtp_machine.specs.Calls.{Awaits, Follows, Happens, Moves, submission_of};

use crate::commands::{Commands, Stage};
use crate::connection::{Fed, Limits, Submission, What};
use crate::message::{begin_data, keys_of, say_to_each, say_verdicts};
use crate::reply::{ANSWER_ROOM, BRIEF_ROOM, NAMED_ROOM, Reply, say, say_any};
use budget::Budget;
use delivery_token::{Text, Verdict};
use dot_stuffing::{Outcome, Progress, Unstuffer};
use envelope::{Directory, MOST_RECIPIENTS};
use line_io::{LineCutter, What as Found};
use std::alloc::{AllocError, Global};
use std::marker::Model;
use std::mem;

/// The most bytes of a command line with its CRLF (RFC 5321, section 4.5.3.1.4).
const MAX_LINE: usize = 512;

/// One LMTP connection.
#[derive(Drop)]
pub struct LmtpMachine {
    alloc: Global,
    seat: u8,
    serial: u64,
    max_message: usize,
    host: Vec<u8>,
    commands: Commands,
    cutter: LineCutter,
    unstuffer: Unstuffer,
    submission: Option<Submission>,
    // What the texts of its messages are charged to.
    budget: Budget,
}

impl Model for LmtpMachine {
    ghost use Rattle.std.specs.Prelude.{◌≡◌, ◌<◌, ◌∷◌, [], length, None};
    ghost use Rattle.std.specs.Option.{option_map, option_to_list};
    ghost use Rattle.lmtp_machine.specs.LmtpMachine.{LmtpMachine};
    ghost use Rattle.lmtp_machine.specs.inner.LmtpMachine.{IsPending};
    ghost use Rattle.lmtp_machine.specs.Calls.{submission_of};

    ghost Value = { LmtpMachine };

    ghost view = { λ m. record {
      setting = record { seat = m.seat; serial = m.serial; max_message = m.max_message };
      host = m.host.items;
      pending = option_to_list (option_map submission_of m.submission);
      commands = m.commands;
      cutter = m.cutter;
      unstuffer = m.unstuffer;
    } };

    ghost invariant = { λ m. (length m.host.items < 256) × (m.cutter.max ≡ 512) × (m.unstuffer.outcome ≡ None)
        × (m.unstuffer.collected.max ≡ m.max_message)
        × IsPending m.commands.stage m.commands.recipients (option_to_list (option_map submission_of m.submission)) };
}

/// What a command line came to.
fn what_of(stage: Stage) -> What
    ensures { result ≡ what_of stage }
{
    match stage {
        Stage::Ended => What::Quit,
        _ => What::More,
    }
}

impl LmtpMachine {
    /// A connection that was just opened, on a seat and with a serial number that its copies' keys have.
    ///
    /// Errors: `AllocError` where memory for the name, a command line, a sender or 100 recipients was refused.
    pub fn new(
        alloc: Global,
        seat: u8,
        serial: u64,
        limits: Limits<'_>,
    ) -> Result<LmtpMachine, AllocError>
        // The server's name has at most 255 bytes.
        requires { length limits.host.now < 256 }
        // It stands for the conversation of a new connection, in which nothing was said.
        ensures stands { IfOk result (λ m. StandsFor m opened) }
        // It has what it was given, and no verdicts are awaited.
        ensures setting { IfOk result (λ m.
            m.setting ≡ record {
              seat = seat;
              serial = serial;
              max_message = limits.entry.max_message;
            }) }
        ensures host { IfOk result (λ m. m.host ≡ limits.entry.host.now) }
        ensures quiet { IfOk result (λ m. m.pending ≡ []) }
    {
        Ok(LmtpMachine {
            alloc,
            seat,
            serial,
            max_message: limits.max_message,
            host: Vec::from_slice(alloc, limits.host)?,
            commands: Commands::new(alloc)?,
            cutter: LineCutter::new(alloc, MAX_LINE)?,
            unstuffer: Unstuffer::new(alloc, limits.max_message),
            submission: None,
            budget: limits.budget.again()?,
        })
    }

    /// Writes the greeting (RFC 5321, section 4.3.1).
    ///
    /// Errors: `AllocError` where `out` has no room for it and memory was refused; then nothing was written and nothing changed.
    pub fn greet(&mut self, out: &mut Vec<u8>) -> Result<(), AllocError>
        // From each conversation for which it stood, the opening leads to one for which it stands, and what the dialogue says to it is written.
        ensures ok { OnOk result ((d : Directory) (c : Conversation) → StandsFor self.old c
            → Happens (StandsFor self.new) self.old.setting self.old.host d c dialogue.Opened
            out.old.items out.new.items) }
        // Seat, serial, limit and name stay, and so does the message whose verdicts are awaited.
        ensures same { OnOk result ((self.new.setting ≡ self.old.setting)
            × (self.new.host ≡ self.old.host) × (self.new.pending ≡ self.old.pending)) }
        // After an error nothing has changed, nor was anything written; `out` had less room than for the name and `NAMED_ROOM` bytes.
        ensures err { OnErr result ((self.new ≡ self.old) × (out.new.items ≡ out.old.items)) }
        ensures full { OnErr result (vec_capacity out.old
            < vec_len out.old + length self.old.host + NAMED_ROOM) }
    {
        out.reserve(self.host.len() + NAMED_ROOM)?;
        say_any(out, self.host.as_slice(), Reply::Greeting);
        Ok(())
    }

    /// Takes bytes from the front of the piece: at most one command line or one end of data. Replies go to `out`. On a connection
    /// that has ended it uses nothing.
    ///
    /// Errors: `AllocError` where `out` has no room for the replies, `ANSWER_ROOM` bytes and the server's name at most, and memory was refused;
    /// then no byte was used, nothing was written and nothing changed.
    pub fn feed(
        &mut self,
        piece: &[u8],
        directory: &Directory,
        out: &mut Vec<u8>,
    ) -> Result<Fed, AllocError>
        // No verdicts are awaited: a message that was submitted was answered.
        requires { self.old.pending ≡ [] }
        // It uses no more than the piece, and, unless it answers Quit, something where there is something.
        ensures used { IfOk result (λ fed. fed.used ≤ length piece.now) }
        ensures moves { IfOk result (λ fed. Moves fed.used fed.what piece.now) }
        // After Submit the verdicts on one message are awaited, and else none; it has at most 100 copies, each with its mailbox.
        ensures awaits { IfOk result (λ fed. Awaits fed.what self.new.pending) }
        ensures most { OnOk result (All (λ s. length s.keys ≤ MOST_RECIPIENTS) self.new.pending) }
        ensures paired { OnOk result (All (λ s. length s.mailboxes
            ≡ length s.keys) self.new.pending) }
        // From each conversation for which it stood the bytes used lead to one for which it stands, and what is said on the way is written.
        ensures ok { IfOk result (λ fed. (c : Conversation) → StandsFor self.old c
            → Follows (StandsFor self.new) self.old.setting self.old.host directory.now c piece.now
            fed
            out.old.items out.new.items self.new.pending) }
        // Seat, serial, limit and name stay.
        ensures same { OnOk result ((self.new.setting ≡ self.old.setting)
            × (self.new.host ≡ self.old.host)) }
        // After an error nothing has changed, nor was anything written.
        ensures err { OnErr result ((self.new ≡ self.old) × (out.new.items ≡ out.old.items)) }
        // An error comes only where `out` had less room than for the name and `ANSWER_ROOM` bytes, and where the connection had not ended.
        ensures full { OnErr result (vec_capacity out.old
            < vec_len out.old + length self.old.host + ANSWER_ROOM) }
        ensures asks { OnErr result (self.old.commands.stage ≡ Stage.Ended → ⊥) }
    {
        match self.commands.stage() {
            Stage::Ended => Ok(Fed {
                used: 0,
                what: What::Quit,
            }),
            Stage::Data => self.feed_data(piece, directory, out),
            _ => self.feed_commands(piece, directory, out),
        }
    }

    /// Whether the connection has ended: then it takes no more bytes.
    pub fn has_ended(&self) -> bool
        ensures ended { result ≡ true → self.now.commands.stage ≡ Stage.Ended }
        ensures going { result ≡ false → self.now.commands.stage ≡ Stage.Ended → ⊥ }
    {
        match self.commands.stage() {
            Stage::Ended => true,
            Stage::Start | Stage::Ready | Stage::Transaction | Stage::Data | Stage::Waiting =>
                false,
        }
    }

    /// Whether the connection is within a message's data, which has begun and not ended: bytes that come are data then, and no copy
    /// was made yet.
    pub fn is_within_data(&self) -> bool
        ensures { (c : Conversation) → StandsFor self.now c → result ≡ is_data c.standing.phase }
    {
        matches!(self.commands.stage(), Stage::Data)
    }

    /// The message that was submitted.
    pub fn submission(&self) -> &Submission
        requires { length self.now.pending ≡ 1 }
        ensures { self.now.pending ≡ submission_of result.now ∷ [] }
    {
        match &self.submission {
            Some(submission) => submission,
            None => unreachable!(),
        }
    }

    /// Answers the message that was submitted, one verdict for each key, in their order. Where none was submitted it says nothing.
    ///
    /// Errors: `AllocError` where `out` has no room for the replies, 40 bytes each at most, and memory was refused; then nothing was
    /// written and the same answer is awaited.
    pub fn answer(&mut self, verdicts: &[Verdict], out: &mut Vec<u8>) -> Result<(), AllocError>
        // There is one verdict for each key of the message that was submitted.
        requires { (s : dialogue.Submission) → self.old.pending ≡ s ∷ []
            → length verdicts.now ≡ length s.keys }
        // From each conversation for which it stood the answer leads to one for which it stands, and what the dialogue says to it is written.
        ensures ok { OnOk result ((d : Directory) (c : Conversation) → StandsFor self.old c
            → Happens (StandsFor self.new) self.old.setting self.old.host d c
            (dialogue.Answered verdicts.now) out.old.items out.new.items) }
        // Seat, serial, limit and name stay, and no verdicts are awaited any more.
        ensures same { OnOk result ((self.new.setting ≡ self.old.setting)
            × (self.new.host ≡ self.old.host)) }
        ensures pending { OnOk result (self.new.pending ≡ []) }
        // After an error nothing has changed, nor was anything written.
        ensures err { OnErr result ((self.new ≡ self.old) × (out.new.items ≡ out.old.items)) }
        // An error comes only where `out` had less room than for `BRIEF_ROOM` bytes a verdict (`ANSWER_ROOM` at most), and where verdicts were awaited.
        ensures brief { OnErr result (vec_capacity out.old
            < vec_len out.old + length verdicts.now * BRIEF_ROOM) }
        ensures full { OnErr result (vec_capacity out.old < vec_len out.old + ANSWER_ROOM) }
        ensures asks { OnErr result (self.old.pending ≡ [] → ⊥) }
    {
        if self.submission.is_none() {
            return Ok(());
        }
        out.reserve(self.commands.recipients().len() * BRIEF_ROOM)?;
        say_verdicts(out, self.host.as_slice(), verdicts);
        self.submission = None;
        self.commands.finish();
        Ok(())
    }

    /// Says that the server shuts down (RFC 5321, section 3.8), and ends.
    ///
    /// Errors: `AllocError` where `out` has no room for that and memory was refused; then nothing was written and nothing changed.
    pub fn shut(&mut self, out: &mut Vec<u8>) -> Result<(), AllocError>
        // From each conversation for which it stood the shutdown leads to one for which it stands, and what is said of it is written.
        ensures ok { OnOk result ((d : Directory) (c : Conversation) → StandsFor self.old c
            → Happens (StandsFor self.new) self.old.setting self.old.host d c dialogue.Shut
            out.old.items out.new.items) }
        // Seat, serial, limit and name stay, and no verdicts are awaited any more.
        ensures same { OnOk result ((self.new.setting ≡ self.old.setting)
            × (self.new.host ≡ self.old.host)) }
        ensures pending { OnOk result (self.new.pending ≡ []) }
        // After an error nothing has changed, nor was anything written; `out` had less room than for `BRIEF_ROOM` bytes.
        ensures err { OnErr result ((self.new ≡ self.old) × (out.new.items ≡ out.old.items)) }
        ensures full { OnErr result (vec_capacity out.old < vec_len out.old + BRIEF_ROOM) }
    {
        out.reserve(BRIEF_ROOM)?;
        say(out, self.host.as_slice(), Reply::ShuttingDown);
        self.submission = None;
        self.commands.end();
        Ok(())
    }

    /// `feed` between commands.
    fn feed_commands(
        &mut self,
        piece: &[u8],
        directory: &Directory,
        out: &mut Vec<u8>,
    ) -> Result<Fed, AllocError>
        requires { IsOpen self.old.commands.stage }
        ensures used { IfOk result (λ fed. fed.used ≤ length piece.now) }
        ensures moves { IfOk result (λ fed. Moves fed.used fed.what piece.now) }
        ensures awaits { IfOk result (λ fed. Awaits fed.what self.new.pending) }
        ensures most { OnOk result (All (λ s. length s.keys ≤ MOST_RECIPIENTS) self.new.pending) }
        ensures paired { OnOk result (All (λ s. length s.mailboxes
            ≡ length s.keys) self.new.pending) }
        ensures ok { IfOk result (λ fed. (c : Conversation) → StandsFor self.old c
            → Follows (StandsFor self.new) self.old.setting self.old.host directory.now c piece.now
            fed
            out.old.items out.new.items self.new.pending) }
        ensures same { OnOk result ((self.new.setting ≡ self.old.setting)
            × (self.new.host ≡ self.old.host)) }
        ensures err { OnErr result ((self.new ≡ self.old) × (out.new.items ≡ out.old.items)) }
        ensures full { OnErr result (vec_capacity out.old
            < vec_len out.old + length self.old.host + ANSWER_ROOM) }
    {
        out.reserve(self.host.len() + NAMED_ROOM)?;
        let cut = self.cutter.take(piece);
        match cut.what {
            Found::NeedMore => {}
            Found::TooLong => say(out, self.host.as_slice(), Reply::LineTooLong),
            Found::Line => {
                self.commands
                    .line(self.cutter.line(), directory, self.host.as_slice(), out);
                begin_data(&self.commands, &mut self.unstuffer);
            }
        }
        Ok(Fed {
            used: cut.used,
            what: what_of(self.commands.stage()),
        })
    }

    /// `feed` within data.
    fn feed_data(
        &mut self,
        piece: &[u8],
        directory: &Directory,
        out: &mut Vec<u8>,
    ) -> Result<Fed, AllocError>
        requires { self.old.commands.stage ≡ Stage.Data }
        ensures used { IfOk result (λ fed. fed.used ≤ length piece.now) }
        ensures moves { IfOk result (λ fed. Moves fed.used fed.what piece.now) }
        ensures awaits { IfOk result (λ fed. Awaits fed.what self.new.pending) }
        ensures most { OnOk result (All (λ s. length s.keys ≤ MOST_RECIPIENTS) self.new.pending) }
        ensures paired { OnOk result (All (λ s. length s.mailboxes
            ≡ length s.keys) self.new.pending) }
        ensures ok { IfOk result (λ fed. (c : Conversation) → StandsFor self.old c
            → Follows (StandsFor self.new) self.old.setting self.old.host directory.now c piece.now
            fed
            out.old.items out.new.items self.new.pending) }
        ensures same { OnOk result ((self.new.setting ≡ self.old.setting)
            × (self.new.host ≡ self.old.host)) }
        ensures err { OnErr result ((self.new ≡ self.old) × (out.new.items ≡ out.old.items)) }
        ensures full { OnErr result (vec_capacity out.old
            < vec_len out.old + length self.old.host + ANSWER_ROOM) }
    {
        out.reserve(self.commands.recipients().len() * BRIEF_ROOM)?;
        let taken = self.unstuffer.take(piece);
        match taken.what {
            Progress::More => Ok(Fed {
                used: taken.used,
                what: What::More,
            }),
            Progress::Done(outcome) => {
                let fresh = Unstuffer::new(self.alloc, self.max_message);
                let ended = mem::replace(&mut self.unstuffer, fresh);
                let what = self.end_data(outcome, ended, out);
                Ok(Fed {
                    used: taken.used,
                    what,
                })
            }
        }
    }

    /// Submits the message, or tells each recipient why not.
    fn end_data(&mut self, outcome: Outcome, ended: Unstuffer, out: &mut Vec<u8>) -> What
        requires stage { self.old.commands.stage ≡ Stage.Data }
        requires outcome { ended.outcome ≡ Some outcome }
        requires room { vec_len out.old + length self.old.commands.recipients * BRIEF_ROOM
            ≤ vec_capacity out.old }
        ensures awaits { Awaits result self.new.pending }
        ensures most { All (λ s. length s.keys ≤ MOST_RECIPIENTS) self.new.pending }
        ensures paired { All (λ s. length s.mailboxes ≡ length s.keys) self.new.pending }
        ensures same { (self.new.setting ≡ self.old.setting) × (self.new.host ≡ self.old.host) }
        ensures does { (lines : List (List ℕ))
            → IsBehind ended.collected (return_path self.old.commands.sender)
            → (outcome ≡ Outcome.Ok → ended.collected.bytes ≡ plain lines)
            → (final : Outcome) × Becomes outcome final
            × Does self.old (on_outcome self.old.setting self.old.commands.submitted
            self.old.commands.sender self.old.commands.recipients
            lines final) self.new result out.old.items out.new.items }
    {
        match outcome {
            Outcome::Nul => self.fail(Reply::NulByte, out),
            Outcome::TooBig => self.fail(Reply::MessageTooBig, out),
            Outcome::NoMemory => self.fail(Reply::OutOfMemory, out),
            Outcome::Ok => match self.build(ended.text()) {
                Ok(submission) => {
                    self.submission = Some(submission);
                    self.commands.submit();
                    What::Submit
                }
                Err(AllocError) => self.fail(Reply::OutOfMemory, out),
            },
        }
    }

    /// Makes the message of this text for the recipients.
    ///
    /// Errors: `AllocError` where memory for it was refused, or the budget of texts has no room for it.
    fn build(&self, text: Vec<u8>) -> Result<Submission, AllocError>
        ensures few { length self.now.commands.recipients ≤ MOST_RECIPIENTS }
        ensures made { IfOk result (λ s. submission_of s ≡ record {
          keys = keys_from self.now.setting self.now.commands.submitted 0
              self.now.commands.recipients;
          mailboxes = self.now.commands.recipients;
          text = undated text.items;
        }) }
    {
        let recipients = self.commands.recipients();
        let message = self.commands.submitted();
        Ok(Submission {
            keys: keys_of(self.alloc, self.seat, self.serial, message, recipients)?,
            mailboxes: Vec::from_slice(self.alloc, recipients)?,
            text: Text::charged(&self.budget, text, None)?,
        })
    }

    /// Gives each recipient the same reply, and the transaction is over.
    fn fail(&mut self, reply: Reply, out: &mut Vec<u8>) -> What
        requires stage { self.old.commands.stage ≡ Stage.Data }
        requires brief { IsBrief reply }
        requires room { vec_len out.old + length self.old.commands.recipients * BRIEF_ROOM
            ≤ vec_capacity out.old }
        ensures what { result ≡ What.More }
        ensures after { self.new
            ≡ record self.old { commands = record self.old.commands { stage = Stage.Ready } } }
        ensures quiet { self.new.pending ≡ [] }
        ensures said { out.new.items
            ≡ out.old.items ++ wire self.old.host
            (replicate (length self.old.commands.recipients) reply) }
    {
        let recipients = self.commands.recipients().len();
        say_to_each(out, self.host.as_slice(), reply, recipients);
        self.commands.finish();
        What::More
    }
}
