//! One connection at its seat: the LMTP machine, what came for it, what it said and has not printed yet, and the verdicts that it
//! awaits. It knows neither the lanes nor the mailboxes: the house puts its copies and tells it what was heard. Nor does it print: the
//! house does, and tells it so.

ghost use Rattle.std.specs.Prelude.{◌≡◌, ◌≤◌, ◌<◌, ℕ, List, [], ◌∷◌, take, length, true, false, Some, None, OnOk, OnErr, IfOk, IfSome};
ghost use Rattle.delivery_token.specs.Keys.{AtLeast};
ghost use Rattle.delivery_token.specs.declared.CopyKey.{CopyKey};
ghost use Rattle.change_ring.specs.Log.{no_flags};
ghost use Rattle.delivery_token.specs.declared.Job.{Job};
ghost use Rattle.delivery_token.specs.declared.log.Noted.{Noted};
ghost use Rattle.lmtp_machine.specs.Calls.{submission_of};
ghost use Rattle.lmtp_machine.specs.Conversation.{Conversation};
ghost use Rattle.lmtp_machine.specs.LmtpMachine.{StandsFor};
ghost use Rattle.lmtp_machine.specs.declared.connection.What.{What};
ghost use Rattle.lmtp_machine.specs.declared.connection.What.TheVariants as whats;
ghost use Rattle.house_peers.specs.Caller as spec;
ghost use Rattle.house_peers.specs.Caller.{Terms, greeted};
ghost use Rattle.house_peers.specs.ConnectionStands.{IsAwaited, Proceeded, StandsForConnection};
ghost use Rattle.house_peers.specs.inner.ConnectionStands.{WentOn, WorkedOff};
ghost use Rattle.house_peers.specs.inner.ConnectionSteps.{SaidVerdicts};
ghost use Rattle.house_peers.specs.inner.Few.{AreFew};
ghost use Rattle.house_peers.specs.Taking.{AreKnown, HasWork, HearsVerdict, IsCalm, IsPatient, awaited_keys, due, line_effort, noted_put, with_all_said, with_more, with_nobody_there};
ghost use Rattle.house_peers.specs.inner.Taking.{AwaitsIn, TakenBy};

use change_ring::NO_FLAGS;
use delivery_token::{CopyKey, NextCopy, Noted, Submitted, Verdict, Verdicts};
use envelope::Directory;
use line_io::Incoming;
use lmtp_machine::{Limits, LmtpMachine, MOST_RECIPIENTS, Submission, What};
use std::alloc::{AllocError, Global};
use std::marker::Model;

/// A connection of the house.
#[derive(Drop)]
pub struct HouseConnection {
    serial: u64,
    // Whether its peer is gone: then it says nothing more and only waits for its verdicts.
    is_gone: bool,
    machine: LmtpMachine,
    incoming: Incoming,
    unsaid: Vec<u8>,
    // Whether a message was submitted whose verdicts are awaited.
    is_waiting: bool,
    verdicts: Verdicts,
}

impl Model for HouseConnection {
    ghost use Rattle.std.specs.Prelude.{◌≡◌, ◌≤◌, length, true, false, []};
    ghost use Rattle.house_peers.specs.HouseConnection.{HouseConnection};
    ghost use Rattle.house_peers.specs.inner.Few.{AreFew};

    ghost Value = { HouseConnection };

    ghost view = { λ c. record {
      serial = c.serial;
      gone = c.is_gone;
      machine = c.machine;
      waits = c.incoming;
      unsaid = c.unsaid.items;
      verdicts = c.verdicts.slots;
    } };

    ghost invariant = { λ c. (c.is_waiting ≡ true → length c.machine.pending ≡ 1) × (c.is_waiting ≡ false → c.machine.pending ≡ [])
        × (100 ≤ c.verdicts.most) × AreFew c.machine.pending × (c.is_gone ≡ true → c.unsaid.items ≡ []) };
}

/// How much of a piece was taken, and what that came to: None where memory was wanting.
#[derive(Clone, Copy)]
struct Progress {
    used: usize,
    what: Option<What>,
}

/// Feeds a piece until all of it is taken, a message waits, the connection ends or memory is wanting. What was taken till then stands.
fn take_all(
    machine: &mut LmtpMachine,
    piece: &[u8],
    directory: &Directory,
    out: &mut Vec<u8>,
) -> Progress
    requires { machine.old.pending ≡ [] }
    ensures used { result.used ≤ length piece.now }
    ensures all { result.what ≡ Some whats.More → result.used ≡ length piece.now }
    ensures moves { result.what ≡ Some whats.Submit → 0 < result.used }
    ensures awaits { AwaitsIn result.what machine.new.pending }
    ensures most { AreFew machine.new.pending }
    ensures same { (machine.new.setting ≡ machine.old.setting)
        × (machine.new.host ≡ machine.old.host) }
    ensures taken { (c : Conversation) → StandsFor machine.old c → IsAwaited [] c.standing.phase →
        TakenBy (StandsFor machine.new) machine.old.setting machine.old.host directory.now c
        (take result.used piece.now) out.old.items
        out.new.items result.what machine.new.pending }
{
    let mut used = 0;
    loop {
        let Ok(fed) = machine.feed(&piece[used..], directory, out) else {
            return Progress { used, what: None };
        };
        used += fed.used;
        let progress = Progress {
            used,
            what: Some(fed.what),
        };
        match fed.what {
            What::More if used < piece.len() => {}
            What::More => return progress,
            What::Submit => return progress,
            What::Quit => return progress,
        }
    }
}

// A message that was submitted, where it lies.
fn submitted(message: &Submission) -> Submitted<'_, '_>
    ensures keys { result.keys.now ≡ (submission_of message.now).keys }
    ensures mailboxes { result.mailboxes.now ≡ (submission_of message.now).mailboxes }
    ensures text { result.text.now ≡ (submission_of message.now).text }
    ensures flags { result.flags ≡ no_flags }
{
    Submitted {
        keys: message.keys.as_slice(),
        mailboxes: message.mailboxes.as_slice(),
        text: &message.text,
        flags: NO_FLAGS,
    }
}

impl HouseConnection {
    /// A connection that was just opened at a seat. Its greeting is said, and still to be printed.
    ///
    /// Errors: `AllocError` where memory was refused.
    pub fn open(
        alloc: Global,
        seat: u8,
        serial: u64,
        limits: Limits<'_>,
    ) -> Result<HouseConnection, AllocError>
        // The server's name has at most 255 bytes.
        requires { length limits.host.now < 256 }
        // On all terms with this name and limit, where its seat may use keys of this serial from the first on, it stands for a new caller, greeted.
        ensures { IfOk result (λ h. (k : Terms) (next : CopyKey) (heard : List Noted)
            → k.host ≡ limits.entry.host.now
            → k.max_message ≡ limits.entry.max_message
            → AtLeast next (record { seat = seat; serial = serial; message = 0; recipient = 0 })
            → StandsForConnection k seat next heard h (greeted k seat serial)) }
    {
        let verdicts = Verdicts::with_room(alloc, MOST_RECIPIENTS)?;
        let mut machine = LmtpMachine::new(alloc, seat, serial, limits)?;
        let mut unsaid = Vec::new(alloc);
        machine.greet(&mut unsaid)?;
        Ok(HouseConnection {
            serial,
            is_gone: false,
            machine,
            incoming: Incoming::new(alloc),
            unsaid,
            is_waiting: false,
            verdicts,
        })
    }

    /// Adds bytes that came to those that wait.
    ///
    /// Errors: `AllocError` where memory was refused, which isn't asked for where there are no bytes; nothing is changed then.
    pub fn append(&mut self, piece: &[u8]) -> Result<(), AllocError>
        // After Ok the bytes wait behind all others; after an error nothing has changed, and there were bytes.
        ensures ok { OnOk result (self.new ≡ with_more piece.now self.old) }
        ensures err { OnErr result (self.new ≡ self.old) }
        ensures asks { OnErr result (0 < length piece.now) }
    {
        self.incoming.append(piece)
    }

    // Takes what waits, as far as it goes. Where memory is wanting, what was done stands, and the next call goes on from there.
    fn work_off(&mut self, directory: &Directory) -> Result<What, AllocError>
        requires quiet { self.old.machine.pending ≡ [] }
        requires read { self.old.gone ≡ false }
        ensures same { self.new.gone ≡ self.old.gone }
        ensures less { line_effort self.new ≤ line_effort self.old }
        ensures ok { IfOk result (λ what.
            (k : Terms) (seat : ℕ) (next : CopyKey) (heard : List Noted) (b : spec.Caller)
            → directory.now ≡ k.directory → StandsForConnection k seat next heard self.old b →
            WorkedOff k true seat next heard b what self.new) }
        ensures err { OnErr result
            ((k : Terms) (seat : ℕ) (next : CopyKey) (heard : List Noted) (b : spec.Caller)
            → directory.now ≡ k.directory
            → StandsForConnection k seat next heard self.old b →
            (what : What) × WorkedOff k false seat next heard b what self.new) }
        ensures asks { OnErr result (IsCalm self.old → ⊥) }
    {
        // With nothing to take the machine would still ask for room for replies.
        if self.incoming.as_slice().is_empty() && !self.machine.has_ended() {
            return Ok(What::More);
        }
        let progress = take_all(
            &mut self.machine,
            self.incoming.as_slice(),
            directory,
            &mut self.unsaid,
        );
        self.incoming.take(progress.used);
        self.is_waiting = matches!(progress.what, Some(What::Submit));
        progress.what.ok_or(AllocError)
    }

    // Goes on as far as it can: where every verdict on the message at hand is known they are said, and what waits is taken.
    fn go_on(&mut self, directory: &Directory) -> Result<What, AllocError>
        requires read { self.old.gone ≡ false }
        ensures same { self.new.gone ≡ self.old.gone }
        ensures less { line_effort self.new ≤ line_effort self.old }
        ensures ok { IfOk result (λ what.
            (k : Terms) (seat : ℕ) (next : CopyKey) (heard : List Noted) (b : spec.Caller)
            → directory.now ≡ k.directory → StandsForConnection k seat next heard self.old b →
            WentOn k true seat next heard b what self.new) }
        ensures err { OnErr result
            ((k : Terms) (seat : ℕ) (next : CopyKey) (heard : List Noted) (b : spec.Caller)
            → directory.now ≡ k.directory
            → StandsForConnection k seat next heard self.old b →
            (what : What) × WentOn k false seat next heard b what self.new) }
        ensures asks { OnErr result (HasWork self.old) }
    {
        if self.is_waiting {
            return self.answer(directory);
        }
        self.work_off(directory)
    }

    // The same, where a message is at hand.
    fn answer(&mut self, directory: &Directory) -> Result<What, AllocError>
        requires one { length self.old.machine.pending ≡ 1 }
        requires read { self.old.gone ≡ false }
        ensures same { self.new.gone ≡ self.old.gone }
        ensures less { line_effort self.new ≤ line_effort self.old }
        ensures ok { IfOk result (λ what.
            (k : Terms) (seat : ℕ) (next : CopyKey) (heard : List Noted) (b : spec.Caller)
            → directory.now ≡ k.directory → StandsForConnection k seat next heard self.old b →
            WentOn k true seat next heard b what self.new) }
        ensures err { OnErr result
            ((k : Terms) (seat : ℕ) (next : CopyKey) (heard : List Noted) (b : spec.Caller)
            → directory.now ≡ k.directory
            → StandsForConnection k seat next heard self.old b →
            (what : What) × WentOn k false seat next heard b what self.new) }
        ensures asks { OnErr result (IsPatient self.old → ⊥) }
    {
        let Some(verdicts) = self.verdicts.known(self.awaited())? else {
            return Ok(What::Submit);
        };
        self.say(&verdicts)?;
        self.work_off(directory)
    }

    // Says the verdicts on the message at hand.
    fn say(&mut self, verdicts: &[Verdict]) -> Result<(), AllocError>
        requires one { length self.old.machine.pending ≡ 1 }
        requires known { AreKnown self.old verdicts.now }
        requires read { self.old.gone ≡ false }
        ensures less { line_effort self.new ≤ line_effort self.old }
        ensures err { OnErr result (self.new ≡ self.old) }
        ensures quiet { OnOk result (self.new.machine.pending ≡ []) }
        ensures read { self.new.gone ≡ false }
        ensures ok { OnOk result
            ((k : Terms) (seat : ℕ) (next : CopyKey) (heard : List Noted) (b : spec.Caller)
            → StandsForConnection k seat next heard self.old b → 0 < length b.talk.pending →
            SaidVerdicts k seat next heard b verdicts.now self.new) }
    {
        self.machine.answer(verdicts, &mut self.unsaid)?;
        self.verdicts.clear();
        self.is_waiting = false;
        Ok(())
    }

    /// Whether its peer is gone.
    pub fn is_gone(&self) -> bool
        ensures { result ≡ self.now.gone }
    {
        self.is_gone
    }

    /// Its peer is gone: what waited, and what was still to be printed, is dropped.
    pub fn vanish(&mut self)
        ensures { self.new ≡ with_nobody_there self.old }
    {
        self.incoming.clear();
        self.unsaid.clear();
        self.is_gone = true;
    }

    // How many copies the message at hand has; 0 where there is none.
    fn awaited(&self) -> usize
        ensures { result ≡ length (awaited_keys self.now) }
    {
        if self.is_waiting {
            self.machine.submission().keys.len()
        } else {
            0
        }
    }

    /// Does what it can now: it goes on, where every verdict on the message at hand is known by saying them, and takes what waits; or, where
    /// its peer is gone, it only waits for its verdicts. What it says is still to be printed. Submit tells that verdicts are awaited, Quit
    /// that the dialogue has ended, or that a peer is gone and nothing is awaited any more.
    ///
    /// Errors: `AllocError` where memory was refused, and only where there was something to be done and its peer is there. What was done stands,
    /// and the next call goes on from there.
    pub fn proceed(&mut self, directory: &Directory) -> Result<What, AllocError>
        // Whether its peer is gone stays, and no more is left to do than before.
        ensures same { self.new.gone ≡ self.old.gone }
        ensures less { line_effort self.new ≤ line_effort self.old }

        // After Ok: for each caller for which it stood, it stands for one that did all it could, and the answer is what that one came to.
        ensures ok { IfOk result (λ what.
            (k : Terms) (seat : ℕ) (next : CopyKey) (heard : List Noted) (b : spec.Caller)
            → directory.now ≡ k.directory → StandsForConnection k seat next heard self.old b →
            Proceeded k true seat next heard b what self.new) }
        // After an error: the same, but that the caller may have stopped for want of memory; what was done stands.
        ensures err { OnErr result
            ((k : Terms) (seat : ℕ) (next : CopyKey) (heard : List Noted) (b : spec.Caller)
            → directory.now ≡ k.directory
            → StandsForConnection k seat next heard self.old b →
            (what : What) × Proceeded k false seat next heard b what self.new) }
        // An error only where the peer is there and there was something to be done.
        ensures asks { OnErr result ((self.old.gone ≡ false) × HasWork self.old) }
    {
        if self.is_gone {
            return Ok(if self.verdicts.are_known(self.awaited()) {
                What::Quit
            } else {
                What::Submit
            });
        }
        self.go_on(directory)
    }

    /// What it said and isn't printed yet. Where its peer is gone that is nothing.
    pub fn unsaid(&self) -> &[u8]
        ensures words { result.now ≡ self.now.unsaid }
        ensures gone { self.now.gone ≡ true → result.now ≡ [] }
    {
        self.unsaid.as_slice()
    }

    /// All that it said is printed.
    pub fn note_printed(&mut self)
        ensures { self.new ≡ with_all_said self.old }
    {
        self.unsaid.clear();
    }

    /// The next copy of the message at hand that is to be put. None where all are put, or no message waits.
    pub fn next_copy(&self) -> Option<NextCopy<'_>>
        // None only where no copy is due; else the answer is the first that is.
        ensures none { result ≡ None → due self.now ≡ [] }
        ensures some { IfSome result (λ c. (others : List Job)
            × (due self.now ≡ record {
              key = c.key;
              mailbox = c.mailbox;
              text = c.text.now;
              flags = c.flags;
            } ∷ others)) }
    {
        if !self.is_waiting {
            return None;
        }
        let message = submitted(self.machine.submission());
        self.verdicts.next_copy(message)
    }

    /// Notes that the next copy was put: with its verdict, where that was heard at once.
    pub fn note_put(&mut self, verdict: Option<Verdict>)
        // A copy is due.
        requires { 0 < length (due self.old) }
        ensures { self.new ≡ noted_put verdict self.old }
    {
        self.verdicts.note_put(verdict);
    }

    /// Notes a verdict that was heard, where its copy is one of the message and was put.
    pub fn hear(&mut self, noted: &Noted)
        // It is noted at the position of its copy, where that is one of the message and was put; nothing else has changed.
        ensures { HearsVerdict self.old noted.now self.new }
    {
        if !self.is_waiting {
            return;
        }
        let keys = self.machine.submission().keys.as_slice();
        self.verdicts.hear(keys, noted);
    }
}
