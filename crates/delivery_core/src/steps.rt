//! Lanes, hands, reply lanes, heard verdicts and mailboxes, on one thread. Each call is one event of
//! the world. No connection, no session and no output stands here.

ghost use Rattle.std.specs.Prelude.{max, replicate, Some, None, true, ◌≡◌, ℕ, ◌⊎◌, ◌%◌, ◌+◌, ◌++◌, ◌<◌, ◌≤◌, ◌↔◌, [], ◌∷◌, length, OnOk, OnErr, Err, IfOk, IfSome, IsSome, IsTrue, option_map, slice_index_or, slice_set};
ghost use Rattle.world.specs.World.{Answer, Box, Config, Deliver, Hear, Put, PutEnd, Take, empty_world, in_hand};
ghost use Rattle.shard_queue.specs.Plain.{taken_entry};
ghost use Rattle.delivery_core.specs.Changes.{CannotEnd, Ends, Hears, SameCounts};
ghost use Rattle.delivery_token.specs.Copies.{heard_at_once};
ghost use Rattle.delivery_core.specs.DeliveryCore.{has_ended, is_ended, lane_of};
ghost use Rattle.delivery_core.specs.Load.{load};
ghost use Rattle.delivery_core.specs.Attached.{cursors_of};
ghost use Rattle.delivery_core.specs.Puts.{IsNextKey};
ghost use Rattle.delivery_core.specs.inner.Puts.{LanePuts};
ghost use Rattle.delivery_token.specs.Keys.{AtLeast, past};
ghost use Rattle.delivery_core.specs.Stands.{EachAt, Follows, ChangesNothing, StandsFor, StandsForBox};
ghost use Rattle.delivery_core.specs.inner.Boxes.{BoxDelivers};
ghost use Rattle.delivery_core.specs.Settled.{IsFor};
ghost use Rattle.delivery_core.specs.New.{IsNewBox, first_key};
ghost use Rattle.delivery_token.specs.WorkerLog.{WorkerLog};
ghost use Rattle.delivery_token.specs.declared.CopyKey.{CopyKey};
ghost use Rattle.mailbox.specs.Mailbox.{Mailbox, SameMailbox};

use crate::client::Client;
use crate::group::{Seat, Shard};
use crate::make::{new_boxes, new_seats, new_shards, no_clients};
use change_ring::{Change, Flags};
use delivery_token::{
    CopyKey, Job, Noted, REPLY_ROOM, Refusal, Text, Verdict, WorkerLog, precedes,
};
use mailbox::{Limits, Mailbox, verdict_of};
use shard_queue::{Full, PlainLane, Taken};
use std::alloc::{AllocError, Global};
use std::marker::Model;
use world::hand::Hand;

/// Why an event was not made. Nothing is changed by a call that answers so.
#[derive(Clone, Copy, Debug, PartialEq, Eq)]
pub enum Fault {
    /// There is no such shard or seat.
    Nobody,
    /// The event would change nothing, or is not one of those that may happen now.
    Nothing,
}

/// Why a seat heard nothing. Nothing is changed then.
#[derive(Clone, Copy, Debug, PartialEq, Eq)]
pub enum HearFault {
    /// There is no such seat.
    Nobody,
    /// No verdict waits for it.
    Nothing,
    /// Memory was refused.
    NoMemory,
}

/// What lies between the seats that put copies and the mailboxes that take them: for each shard a
/// lane and what its consumer has in its hand, for each seat a reply lane, the verdicts that it has
/// heard and the least key that it may use next, the mailboxes, and for each session a place for
/// the client that it has in the mailbox that it entered. The copies for a mailbox pass
/// through the shard of its number modulo the number of shards.
#[derive(Drop)]
pub struct DeliveryCore {
    shards: Vec<Shard>,
    seats: Vec<Seat>,
    pub(crate) boxes: Vec<Mailbox>,
    pub(crate) clients: Vec<Option<Client>>,
}

impl Model for DeliveryCore {
    ghost use Rattle.delivery_core.specs.DeliveryCore.{DeliveryCore};
    ghost use Rattle.delivery_core.specs.inner.DeliveryCore.{AreKept, in_groups};
    ghost use Rattle.delivery_core.specs.Attached.{AreAttached, cursors_of};

    ghost Value = { DeliveryCore };

    ghost view = { λ p. in_groups p.shards.items p.seats.items p.boxes.items p.clients.items };

    ghost invariant = { λ p. AreAttached (cursors_of p.boxes.items) p.clients.items × AreKept p.boxes.items };
}

// Whether a seat may put no more into this lane.
fn is_ended(seat: u8, lane: &PlainLane<Job>) -> bool
    ensures { result ≡ is_ended seat lane.now }
{
    !lane.is_live(seat)
}

// Delivers a copy to a mailbox.
fn deliver_to(mailbox: &mut Mailbox, job: &Job) -> Verdict
    ensures delivers { (k : Config) (w : Box) → StandsForBox k mailbox.old w
        → BoxDelivers k w job.now result mailbox.new }
    ensures same { SameMailbox mailbox.old mailbox.new }
    ensures cursors { mailbox.new.cursors ≡ mailbox.old.cursors }
{
    verdict_of(mailbox.deliver(job))
}

// What a consumer has in its hand after it took an entry.
fn hand_of(taken: Taken<Job>) -> Option<Hand>
    ensures { result ≡ option_map in_hand (taken_entry taken) }
{
    match taken {
        Taken::Item(_, job) => Some(Hand::Taken(job)),
        Taken::End(_) => Some(Hand::Empty),
        Taken::Empty => None,
    }
}

// Puts a copy of its own into a lane. None is made for a lane into which its seat has put its end, nor
// for one that is full.
fn put_in(
    lane: &mut PlainLane<Job>,
    key: CopyKey,
    mailbox: u8,
    text: &Text,
    flags: Flags,
) -> Option<Refusal>
    ensures { LanePuts lane.old key.seat (record {
      key = key;
      mailbox = mailbox;
      text = text.now;
      flags = flags;
    }) lane.new result }
{
    if !lane.is_live(key.seat) {
        return Some(Refusal::Shut);
    }
    if lane.is_full() {
        return Some(Refusal::Full);
    }
    let Ok(text) = text.copy() else {
        return Some(Refusal::NoMemory);
    };
    let job = Job {
        key,
        mailbox,
        text,
        flags,
    };
    match lane.put(key.seat, job) {
        Ok(()) => None,
        Err(Full(_)) => unreachable!(),
    }
}

/// How much there is of each.
#[derive(Clone, Copy, Debug, PartialEq, Eq)]
pub struct Settings {
    /// So many connections may stand at a time, each at a seat of its own.
    pub seats: u8,
    /// So many consumers deliver, each to the mailboxes of its shard.
    pub shards: u8,
    /// So many mailboxes there are, numbered from 0.
    pub mailboxes: u8,
    /// So many entries have room in a shard's lane.
    pub depth: usize,
    /// What each mailbox tells as its UIDVALIDITY (RFC 9051, 2.3.1.1).
    pub uidvalidity: u32,
    /// The UID of a mailbox's first message.
    pub first_uid: u32,
    /// How much each mailbox keeps.
    pub limits: Limits,
    /// So many sessions may have entered a mailbox at a time, each at a place of its own.
    pub sessions: usize,
}

impl DeliveryCore {
    /// At the start of all: nothing was put, and the mailboxes are empty. An error where memory is
    /// refused.
    pub fn new(alloc: Global, settings: Settings) -> Result<DeliveryCore, AllocError>
        // A window has room for one change at least.
        requires { 0 < settings.limits.ring }
        // It stands for the world in which nothing has happened yet.
        ensures stands { IfOk result (λ h. (k : Config) → IsFor k settings
            → StandsFor k h empty_world) }
        // There are as many of each as the settings say.
        ensures seats { IfOk result (λ h. length h.replies ≡ settings.seats) }
        ensures shards { IfOk result (λ h. length h.lanes ≡ settings.shards) }
        ensures mailboxes { IfOk result (λ h. length h.boxes ≡ settings.mailboxes) }
        // Each mailbox is new, with these settings; no session has entered one, and each seat begins with its least key.
        ensures boxes { IfOk result (λ h. EachAt
            (λ m b. IsNewBox m settings.uidvalidity settings.first_uid settings.limits.messages
            settings.limits.ring
            (max settings.limits.ring settings.limits.ring_max) b) h.boxes) }
        ensures clients { IfOk result (λ h. h.clients ≡ replicate settings.sessions None) }
        ensures next { IfOk result (λ h. (p : ℕ) (d : CopyKey) → p < settings.seats
            → slice_index_or h.next p d ≡ first_key p) }
    {
        Ok(DeliveryCore {
            shards: new_shards(alloc, settings.shards, settings.depth, settings.seats)?,
            seats: new_seats(alloc, settings.seats, settings.shards)?,
            boxes: new_boxes(
                alloc,
                settings.mailboxes,
                settings.uidvalidity,
                settings.first_uid,
                settings.limits,
            )?,
            clients: no_clients(alloc, settings.sessions)?,
        })
    }

    /// Whether a seat may put a copy with this key: the key is the next that it may use or a later
    /// one of its own, and its mailbox and a shard are there.
    pub fn may_put(&self, key: CopyKey, mailbox: u8) -> bool
        ensures { IsTrue result ↔ IsNextKey self.now key mailbox }
    {
        let seat = usize::from(key.seat);
        if seat >= self.seats.len()
            || usize::from(mailbox) >= self.boxes.len()
            || self.shards.is_empty()
        {
            return false;
        }
        let next = &self.seats[seat].next;
        key.recipient < 255 && (*next == key || precedes(next, &key))
    }

    /// A seat puts a copy with these flags, and with a text of its own, into the lane of its mailbox's shard: None where
    /// it joined. Where it was refused, the seat has heard so, the lane is as it was, and it is told
    /// why: as Shut where the seat has put its end into that lane, or else as Full where the lane is,
    /// or for want of memory. Either way the key is used up.
    ///
    /// An error where its log has no room for the note of a refusal and gets none; nothing is then changed.
    pub fn put(
        &mut self,
        key: CopyKey,
        mailbox: u8,
        text: &Text,
        flags: Flags,
    ) -> Result<Option<Refusal>, AllocError>
        // The seat is there, and the key is its next one or a later one, and there is one behind it.
        requires seat { key.seat < length self.old.replies }
        requires next { AtLeast (slice_index_or self.old.next key.seat key) key }
        requires last { key.recipient < 255 }
        // There is such a mailbox, and a shard.
        requires mailbox { mailbox < length self.old.boxes }
        requires shards { 0 < length self.old.lanes }

        // After Ok: from each world for which it stood, the event leads to one for which it stands.
        ensures follows { OnOk result ((k : Config) → Follows k self.old
            (Put key.seat (mailbox % length self.old.lanes) (record {
              key = key;
              mailbox = mailbox;
              text = text.now;
              flags = flags;
            }) ∷ []) self.new) }
        // The key is used up: the one behind it is next.
        ensures next { OnOk result (self.new.next ≡ slice_set self.old.next key.seat (past key)) }

        // An error only where the seat's log had no room for a note.
        ensures memory { OnErr result ((d : WorkerLog)
            → (slice_index_or self.old.heard key.seat d).spare ≡ 0) }
        // Shut exactly where the seat had put its end into that lane.
        ensures shut { IfOk result (λ why. (why ≡ Some Refusal.Shut) ↔
            (is_ended key.seat (lane_of self.old (mailbox % length self.old.lanes)) ≡ true)) }
        // The seat has heard of a refusal, where there was one; nobody has heard anything else.
        ensures heard { IfOk result (λ why.
            Hears self.old self.new key.seat (heard_at_once key mailbox why)) }

        // Mailboxes and clients stay, and there are as many of each.
        ensures boxes { self.new.boxes ≡ self.old.boxes }
        ensures clients { self.new.clients ≡ self.old.clients }
        ensures counts { SameCounts self.old self.new }
        // What is left to do is more by one copy at most: it is taken, delivered, answered and heard.
        ensures load { OnOk result (load self.new ≤ load self.old + 4) }
        // After an error nothing has changed.
        ensures refused { OnErr result (self.new ≡ self.old) }
    {
        let seat = usize::from(key.seat);
        let shard = usize::from(mailbox) % self.shards.len();
        let own = &mut self.seats[seat];
        if own.heard.reserve(1).is_err() {
            return Err(AllocError);
        }
        own.next = CopyKey {
            seat: key.seat,
            serial: key.serial,
            message: key.message,
            recipient: key.recipient + 1,
        };
        let lane = &mut self.shards[shard].lane;
        let Some(why) = put_in(lane, key, mailbox, text, flags) else {
            return Ok(None);
        };
        own.heard.note(key, mailbox, Verdict::Refused(why));
        Ok(Some(why))
    }

    /// How many shards there are.
    pub fn shards(&self) -> usize
        ensures { result ≡ length self.now.lanes }
    {
        self.shards.len()
    }

    /// How many seats there are.
    pub fn seats(&self) -> usize
        ensures { result ≡ length self.now.replies }
    {
        self.seats.len()
    }

    /// Whether a seat has put its end into the lane of any shard.
    pub fn has_ended(&self, seat: u8) -> bool
        ensures { result ≡ has_ended self.now seat }
    {
        self.shards.iter().any(|shard| is_ended(seat, &shard.lane))
    }

    /// A seat puts its end into a shard's lane, after which it puts nothing more there. Nobody where
    /// shard or seat is not there, and Nothing where it has ended there already or the lane is full.
    pub fn end(&mut self, seat: u8, shard: u8) -> Result<(), Fault>
        // After Ok: from each world for which it stood, the event leads to one for which it stands.
        ensures follows { OnOk result ((k : Config)
            → Follows k self.old (PutEnd seat shard ∷ []) self.new) }
        // Nobody exactly where shard or seat is not there; Nothing only where the event would change nothing.
        ensures nobody { (result ≡ Err Fault.Nobody)
            ↔ ((length self.old.lanes ≤ shard) ⊎ (length self.old.replies ≤ seat)) }
        ensures changes_nothing { result ≡ Err Fault.Nothing → (k : Config)
            → ChangesNothing k self.old (PutEnd seat shard) }

        // After Ok the end waits behind all that waited: the seat had put none there, and there was room.
        ensures ends { OnOk result (Ends self.old self.new seat shard) }
        // Nothing only where the seat had put its end there, or the lane was full.
        ensures nothing { result ≡ Err Fault.Nothing → CannotEnd self.old seat shard }

        // No seat has heard anything, and the keys stay; mailboxes and clients too, and there are as many of each.
        ensures heard { self.new.heard ≡ self.old.heard }
        ensures next { self.new.next ≡ self.old.next }
        ensures boxes { self.new.boxes ≡ self.old.boxes }
        ensures clients { self.new.clients ≡ self.old.clients }
        ensures counts { SameCounts self.old self.new }
        // After Ok less is left to do than before: so such events come to an end.
        ensures load { OnOk result (load self.new < load self.old) }
        // After an error nothing has changed.
        ensures refused { OnErr result (self.new ≡ self.old) }
    {
        let at = usize::from(shard);
        if at >= self.shards.len() || usize::from(seat) >= self.seats.len() {
            return Err(Fault::Nobody);
        }
        if !self.shards[at].lane.is_live(seat) {
            return Err(Fault::Nothing);
        }
        let lane = &mut self.shards[at].lane;
        let Ok(()) = lane.end(seat) else {
            return Err(Fault::Nothing);
        };
        Ok(())
    }

    /// The consumer of a shard takes what waits at the front of its lane. Nobody where the shard is
    /// not there, and Nothing where its hand is not empty or nothing waits.
    pub fn take(&mut self, shard: u8) -> Result<(), Fault>
        // After Ok: from each world for which it stood, the event leads to one for which it stands.
        ensures follows { OnOk result ((k : Config)
            → Follows k self.old (Take shard ∷ []) self.new) }
        // Nobody exactly where the shard is not there; Nothing only where the event would change nothing.
        ensures nobody { (result ≡ Err Fault.Nobody) ↔ (length self.old.lanes ≤ shard) }
        ensures changes_nothing { result ≡ Err Fault.Nothing → (k : Config)
            → ChangesNothing k self.old (Take shard) }

        // No seat has heard anything, and the keys stay; mailboxes and clients too, and there are as many of each.
        ensures heard { self.new.heard ≡ self.old.heard }
        ensures next { self.new.next ≡ self.old.next }
        ensures boxes { self.new.boxes ≡ self.old.boxes }
        ensures clients { self.new.clients ≡ self.old.clients }
        ensures counts { SameCounts self.old self.new }
        // After Ok less is left to do than before: so such events come to an end.
        ensures load { OnOk result (load self.new < load self.old) }
        // After an error nothing has changed.
        ensures refused { OnErr result (self.new ≡ self.old) }
    {
        let at = usize::from(shard);
        if at >= self.shards.len() {
            return Err(Fault::Nobody);
        }
        let Hand::Empty = &self.shards[at].hand else {
            return Err(Fault::Nothing);
        };
        let one = &mut self.shards[at];
        let Some(hand) = hand_of(one.lane.take()) else {
            return Err(Fault::Nothing);
        };
        one.hand = hand;
        Ok(())
    }

    /// The copy in a shard's hand is delivered to its mailbox, or refused by it, and the hand holds
    /// the verdict. Nobody where the shard is not there, and Nothing where it has no copy in hand.
    pub fn deliver(&mut self, shard: u8) -> Result<(), Fault>
        // After Ok: from each world for which it stood, the event leads to one for which it stands.
        ensures follows { OnOk result ((k : Config)
            → Follows k self.old (Deliver shard ∷ []) self.new) }
        // Nobody exactly where the shard is not there; Nothing only where the event would change nothing.
        ensures nobody { (result ≡ Err Fault.Nobody) ↔ (length self.old.lanes ≤ shard) }
        ensures changes_nothing { result ≡ Err Fault.Nothing → (k : Config)
            → ChangesNothing k self.old (Deliver shard) }

        // No seat has heard anything, and the keys stay; so do all cursors, the settings of mailboxes and the clients.
        ensures heard { self.new.heard ≡ self.old.heard }
        ensures next { self.new.next ≡ self.old.next }
        ensures cursors { cursors_of self.new.boxes ≡ cursors_of self.old.boxes }
        ensures same { OnOk result ((m : ℕ) (d : Mailbox)
            → SameMailbox (slice_index_or self.old.boxes m d) (slice_index_or self.new.boxes m d)) }
        ensures clients { self.new.clients ≡ self.old.clients }
        ensures counts { SameCounts self.old self.new }
        // After Ok less is left to do than before: so such events come to an end.
        ensures load { OnOk result (load self.new < load self.old) }
        // After an error nothing has changed.
        ensures refused { OnErr result (self.new ≡ self.old) }
    {
        let at = usize::from(shard);
        if at >= self.shards.len() {
            return Err(Fault::Nobody);
        }
        let Hand::Taken(job) = &self.shards[at].hand else {
            return Err(Fault::Nothing);
        };
        let position = usize::from(job.mailbox);
        if position >= self.boxes.len() {
            return Err(Fault::Nothing);
        }
        let key = job.key;
        let mailbox = job.mailbox;
        let verdict = deliver_to(&mut self.boxes[position], job);
        self.shards[at].hand = Hand::Done(Noted {
            key,
            mailbox,
            verdict,
        });
        Ok(())
    }

    /// The verdict in a shard's hand goes into the reply lane of the copy's seat. Nobody where the
    /// shard is not there, and Nothing where it has no verdict in hand or the reply lane is full.
    pub fn answer(&mut self, shard: u8) -> Result<(), Fault>
        // After Ok: from each world for which it stood, the event leads to one for which it stands.
        ensures follows { OnOk result ((k : Config)
            → Follows k self.old (Answer shard ∷ []) self.new) }
        // Nobody exactly where the shard is not there; Nothing only where the event would change nothing.
        ensures nobody { (result ≡ Err Fault.Nobody) ↔ (length self.old.lanes ≤ shard) }
        ensures changes_nothing { result ≡ Err Fault.Nothing → (k : Config)
            → ChangesNothing k self.old (Answer shard) }

        // No seat has heard anything, and the keys stay; mailboxes and clients too, and there are as many of each.
        ensures heard { self.new.heard ≡ self.old.heard }
        ensures next { self.new.next ≡ self.old.next }
        ensures boxes { self.new.boxes ≡ self.old.boxes }
        ensures clients { self.new.clients ≡ self.old.clients }
        ensures counts { SameCounts self.old self.new }
        // After Ok less is left to do than before: so such events come to an end.
        ensures load { OnOk result (load self.new < load self.old) }
        // After an error nothing has changed.
        ensures refused { OnErr result (self.new ≡ self.old) }
    {
        let at = usize::from(shard);
        if at >= self.shards.len() {
            return Err(Fault::Nobody);
        }
        let Hand::Done(noted) = self.shards[at].hand else {
            return Err(Fault::Nothing);
        };
        let seat = usize::from(noted.key.seat);
        if seat >= self.seats.len() || !self.seats[seat].replies.is_live(shard) {
            return Err(Fault::Nothing);
        }
        let lane = &mut self.seats[seat].replies;
        match lane.put(shard, noted) {
            Ok(()) => {
                self.shards[at].hand = Hand::Empty;
                Ok(())
            }
            Err(_) => Err(Fault::Nothing),
        }
    }

    /// A seat hears the verdict at the front of its reply lane, and notes it. Nobody where the seat
    /// is not there, Nothing where no verdict waits, and NoMemory where its log has no room for the
    /// note and gets none.
    pub fn hear(&mut self, seat: u8) -> Result<Noted, HearFault>
        // After Ok: from each world for which it stood, the event leads to one for which it stands.
        ensures follows { OnOk result ((k : Config)
            → Follows k self.old (Hear seat ∷ []) self.new) }
        // Nobody exactly where the seat is not there.
        ensures nobody { (result ≡ Err HearFault.Nobody) ↔ (length self.old.replies ≤ seat) }
        // NoMemory only where the seat's log had no room for a note; Nothing only where the event would change nothing.
        ensures memory { result ≡ Err HearFault.NoMemory → (d : WorkerLog)
            → (slice_index_or self.old.heard seat d).spare ≡ 0 }
        ensures changes_nothing { result ≡ Err HearFault.Nothing → (k : Config)
            → ChangesNothing k self.old (Hear seat) }

        // The seat has noted the verdict behind all that it had heard, and no other seat has heard anything.
        ensures heard { IfOk result (λ noted. Hears self.old self.new seat (noted ∷ [])) }

        // Keys, mailboxes and clients stay, and there are as many of each.
        ensures next { self.new.next ≡ self.old.next }
        ensures boxes { self.new.boxes ≡ self.old.boxes }
        ensures clients { self.new.clients ≡ self.old.clients }
        ensures counts { SameCounts self.old self.new }
        // After Ok less is left to do than before: so such events come to an end.
        ensures load { OnOk result (load self.new < load self.old) }
        // After an error nothing has changed.
        ensures refused { OnErr result (self.new ≡ self.old) }
    {
        let at = usize::from(seat);
        if at >= self.seats.len() {
            return Err(HearFault::Nobody);
        }
        if !self.seats[at].replies.has_item() {
            return Err(HearFault::Nothing);
        }
        let own = &mut self.seats[at];
        if own.heard.reserve(1).is_err() {
            return Err(HearFault::NoMemory);
        }
        let Taken::Item(_, noted) = own.replies.take() else {
            unreachable!()
        };
        own.heard.note(noted.key, noted.mailbox, noted.verdict);
        Ok(noted)
    }

    /// The last changes of a mailbox, as the mailbox tells them. None where it is not there.
    pub fn tail(&self, mailbox: u8) -> Option<(u64, &[Change], &[Change])>
        // None exactly where the mailbox is not there.
        ensures there { IsSome result ↔ (mailbox < length self.now.boxes) }
        // The number is that of the oldest change that is kept, and the two slices, one behind the other, are all that are kept.
        ensures base { IfSome result (λ t. (d : Mailbox)
            → t.0 ≡ (slice_index_or self.now.boxes mailbox d).window.base) }
        ensures changes { IfSome result (λ t. (d : Mailbox)
            → t.1.now ++ t.2.now ≡ (slice_index_or self.now.boxes mailbox d).window.changes) }
    {
        let at = usize::from(mailbox);
        if at >= self.boxes.len() {
            return None;
        }
        Some(self.boxes[at].tail())
    }

    /// The copies that a mailbox accepted, each with its UID, in the order of the deliveries. None
    /// where it is not there.
    pub fn accepted(&self, mailbox: u8) -> Option<&[(CopyKey, u32)]>
        ensures there { IsSome result ↔ (mailbox < length self.now.boxes) }
        ensures accepted { IfSome result (λ a. (d : Mailbox)
            → a.now ≡ (slice_index_or self.now.boxes mailbox d).accepted) }
    {
        let at = usize::from(mailbox);
        if at >= self.boxes.len() {
            return None;
        }
        Some(self.boxes[at].accepted())
    }
}
