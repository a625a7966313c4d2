//! The house: who stands at each seat, over the delivery core. Each call is one event, and what it appends to `out` is what the event
//! prints. No script and no socket is known here.

ghost use Rattle.std.specs.Prelude.{true, false, IsTrue, ◌≡◌, ◌≢◌, ◌≤◌, ◌<◌, ◌+◌, ◌-◌, ◌⊎◌, ◌↔◌, ℕ, List, length, None, Some, Err, OnOk, OnErr, IfOk, IfErr, IfSome};
ghost use Rattle.delivery_token.specs.Keys.{AtLeast};
ghost use Rattle.delivery_token.specs.declared.CopyKey.{CopyKey};
ghost use Rattle.delivery_token.specs.declared.log.Noted.{Noted};
ghost use Rattle.house_peers.specs.ConnectionStands.{StandsForConnection};
ghost use Rattle.house.specs.inner.Steps.{IsOf};
ghost use Rattle.house_peers.specs.Caller as spec;
ghost use Rattle.house.specs.Scene as scene;
ghost use Rattle.house_peers.specs.Caller.{Terms, greeted, more_waits};
ghost use Rattle.house.specs.Setup.{Setup};
ghost use Rattle.house.specs.Stands.{StandsFor};
ghost use Rattle.house.specs.Effort.{MakesLess, caller_effort};
ghost use Rattle.house.specs.Steps.{CallerWants, Follows, FollowsInPart, IsBusy, IsEmptySeat, ChangesNothing, IsNoNumber, IsNoSeat, IsNobody, KeepsMarks, Led, MayFindNothing, MayWant};
ghost use Rattle.house.specs.inner.Steps.{CallerWentOn, HasSeat, IsOpen, IsRead, StandsForMaybe, fault_of};
ghost use Rattle.house.specs.declared.event.Event.TheVariants as events;

use crate::core_store::CoreStore;
use crate::event::{Event, HouseFault};
use crate::peer::{Seats, append_to, hears, is_left, notes_put, put_next, vanishes};
use crate::printing::proceed;
use budget::Budget;
use delivery_core::{Fault, HearFault};
use delivery_token::Noted;
use envelope::Directory;
use house_peers::{HouseConnection, SeatedSession};
use lmtp_machine::{Limits, What};
use std::alloc::{AllocError, Global};
use std::marker::Model;

/// A house on one thread.
#[derive(Drop)]
pub struct House {
    pub(crate) store: CoreStore,
    pub(crate) connections: Seats<HouseConnection>,
    pub(crate) sessions: Seats<SeatedSession>,
    pub(crate) directory: Directory,
    pub(crate) host: Vec<u8>,
    pub(crate) max_message: usize,
    // Sessions have the compatible profile.
    pub(crate) compatible: bool,
}

impl Model for House {
    ghost use Rattle.std.specs.Prelude.{◌≡◌, ◌+◌, ◌<◌, ◌≤◌, length};
    ghost use Rattle.house.specs.House.{House};

    ghost Value = { House };

    ghost view = { λ h. record {
      core = h.store.core;
      callers = h.connections.peers.items;
      serials = h.connections.serials.items;
      visitors = h.sessions.peers.items;
      entered = h.sessions.serials.items;
      directory = h.directory;
      host = h.host.items;
      max_message = h.max_message;
      compatible = h.compatible;
    } };

    ghost invariant = { λ h.
        (length h.connections.serials.items ≡ length h.connections.peers.items)
        × (length h.host.items < 256)
        × (length h.connections.peers.items + length h.sessions.peers.items < 256)
        × (length h.sessions.serials.items ≡ length h.sessions.peers.items)
        × (h.max_message < 4294967296) };
}

// The seat of a connection or the place of a session, which are numbered from 1, among all of its kind.
pub(crate) fn index_of(number: u8) -> usize
    requires { 0 < number }
    ensures { result ≡ number - 1 }
{
    usize::from(number - 1)
}

// The caller at a seat goes on, and leaves it where its connection has ended.
fn caller_goes_on(
    occupant: &mut Option<HouseConnection>,
    number: u8,
    directory: &Directory,
    out: &mut Vec<u8>,
) -> Result<(), AllocError>
    ensures less { caller_effort occupant.new ≤ caller_effort occupant.old }
    ensures ok { OnOk result
        ((k : Terms) (seat : ℕ) (next : CopyKey) (heard : List Noted) (b : spec.Caller) →
        IsOf k number seat directory.now → StandsForMaybe k seat next heard occupant.old (Some b) →
        CallerWentOn k true seat next heard b occupant.new out.old.items out.new.items) }
    ensures err { OnErr result
        ((k : Terms) (seat : ℕ) (next : CopyKey) (heard : List Noted) (b : spec.Caller) →
        IsOf k number seat directory.now → StandsForMaybe k seat next heard occupant.old (Some b) →
        CallerWentOn k false seat next heard b occupant.new out.old.items out.new.items) }
    ensures asks { OnErr result (IfSome occupant.old (λ h. h.gone ≡ false)) }
    ensures works { OnErr result (CallerWants occupant.old occupant.new) }
{
    let Some(caller) = occupant else {
        return Ok(());
    };
    let what = proceed(caller, number, directory, out)?;
    if let What::Quit = what {
        *occupant = None;
    }
    Ok(())
}

// A connection that was just opened, with the first bytes that came for it.
fn opened(
    alloc: Global,
    seat: u8,
    serial: u64,
    limits: Limits<'_>,
    piece: &[u8],
) -> Result<HouseConnection, AllocError>
    requires { length limits.host.now < 256 }
    ensures { IfOk result (λ h. (k : Terms) (next : CopyKey) (heard : List Noted)
        → k.host ≡ limits.entry.host.now →
        k.max_message ≡ limits.entry.max_message
        → AtLeast next (record { seat = seat; serial = serial; message = 0; recipient = 0 })
        → StandsForConnection k seat next heard h (more_waits (greeted k seat serial) piece.now)) }
{
    let mut caller = HouseConnection::open(alloc, seat, serial, limits)?;
    caller.append(piece)?;
    Ok(caller)
}

impl House {
    // Bytes came for a connection that stands at its seat.
    fn receive(&mut self, connection: u8, piece: &[u8], out: &mut Vec<u8>) -> Result<(), HouseFault>
        requires there { IsRead self.old connection }
        ensures follows { OnOk result
            (Follows self.old (events.Bytes connection piece.entry) self.new out.old.items
            out.new.items) }
        ensures only { IfErr result (λ e. e ≡ HouseFault.NoMemory) }
        ensures no_memory { OnErr result
            (FollowsInPart self.old (events.Bytes connection piece.entry) self.new out.old.items
            out.new.items) }
        ensures asks { OnErr result
            (MayWant (events.Bytes connection piece.entry) self.old self.new) }
    {
        let occupant = &mut self.connections.peers[index_of(connection)];
        append_to(occupant, piece)?;
        caller_goes_on(occupant, connection, &self.directory, out)?;
        Ok(())
    }
    // The peer of a connection that stands at its seat is gone.
    fn lose(&mut self, connection: u8, out: &mut Vec<u8>)
        requires there { IsRead self.old connection }
        ensures { Follows self.old (events.Vanish connection) self.new out.old.items out.new.items }
    {
        let occupant = &mut self.connections.peers[index_of(connection)];
        vanishes(occupant);
        // Nobody is told anything any more, so this asks for no memory.
        let _ = caller_goes_on(occupant, connection, &self.directory, out);
    }

    // Bytes came for a connection at whose seat nobody stands: one is opened first, with the seat's next serial.
    fn welcome(&mut self, connection: u8, piece: &[u8], out: &mut Vec<u8>) -> Result<(), HouseFault>
        requires vacant { IsOpen self.old connection }
        ensures follows { OnOk result
            (Follows self.old (events.Bytes connection piece.entry) self.new out.old.items
            out.new.items) }
        ensures only { IfErr result (λ e. e ≡ HouseFault.NoMemory) }
        ensures no_memory { OnErr result
            (FollowsInPart self.old (events.Bytes connection piece.entry) self.new out.old.items
            out.new.items) }
        ensures asks { OnErr result
            (MayWant (events.Bytes connection piece.entry) self.old self.new) }
    {
        let seat = index_of(connection);
        let serial = self.connections.serials[seat];
        let limits = Limits {
            host: &self.host,
            max_message: self.max_message,
            budget: &Budget::unlimited(),
        };
        let caller = opened(
            *self.host.allocator(),
            connection - 1,
            serial,
            limits,
            piece,
        )?;
        self.connections.serials[seat] = serial + 1;
        let occupant = &mut self.connections.peers[seat];
        *occupant = Some(caller);
        caller_goes_on(occupant, connection, &self.directory, out)?;
        Ok(())
    }

    // A connection puts the next copy of its message.
    fn put_of_connection(&mut self, connection: u8, out: &mut Vec<u8>) -> Result<(), HouseFault>
        requires seat { HasSeat self.old connection }
        ensures follows { OnOk result
            (Follows self.old (events.Put connection) self.new out.old.items out.new.items) }
        ensures effort { OnOk result (MakesLess (events.Put connection) self.old self.new) }
        ensures marks { self.new.directory ≡ self.old.directory }
        ensures nobody { (result ≡ Err HouseFault.Nobody) ↔ IsEmptySeat self.old connection }
        ensures busy { result ≢ Err HouseFault.Busy }
        ensures changes_nothing { result ≡ Err HouseFault.Nothing
            → ChangesNothing self.old (events.Put connection) }
        ensures no_memory { result ≡ Err HouseFault.NoMemory
            → FollowsInPart self.old (events.Put connection) self.new out.old.items out.new.items }
        ensures asks { result ≡ Err HouseFault.NoMemory
            → MayWant (events.Put connection) self.old self.new }
        ensures refused { result ≢ Err HouseFault.NoMemory
            → OnErr result ((self.new ≡ self.old) × (out.new.items ≡ out.old.items)) }
    {
        let seat = index_of(connection);
        let why = put_next(&mut self.store.core, &self.connections.peers[seat])?;
        let occupant = &mut self.connections.peers[seat];
        notes_put(occupant, why);
        caller_goes_on(occupant, connection, &self.directory, out)?;
        Ok(())
    }

    // A connection hears the verdict at the front of its reply lane.
    fn hear_of_connection(&mut self, connection: u8, out: &mut Vec<u8>) -> Result<(), HouseFault>
        requires seat { HasSeat self.old connection }
        requires lane { connection ≤ length self.old.core.replies }
        ensures follows { OnOk result
            (Follows self.old (events.Hear connection) self.new out.old.items out.new.items) }
        ensures effort { OnOk result (MakesLess (events.Hear connection) self.old self.new) }
        ensures marks { self.new.directory ≡ self.old.directory }
        ensures nobody { (result ≡ Err HouseFault.Nobody) ↔ IsEmptySeat self.old connection }
        ensures busy { result ≢ Err HouseFault.Busy }
        ensures changes_nothing { result ≡ Err HouseFault.Nothing
            → ChangesNothing self.old (events.Hear connection) }
        ensures no_memory { result ≡ Err HouseFault.NoMemory
            → FollowsInPart self.old (events.Hear connection) self.new out.old.items out.new.items }
        ensures asks { result ≡ Err HouseFault.NoMemory
            → MayWant (events.Hear connection) self.old self.new }
        ensures refused { result ≢ Err HouseFault.NoMemory
            → OnErr result ((self.new ≡ self.old) × (out.new.items ≡ out.old.items)) }
    {
        let seat = index_of(connection);
        if self.connections.peers[seat].is_none() {
            return Err(HouseFault::Nobody);
        }
        let noted = match self.store.core.hear(connection - 1) {
            Ok(noted) => noted,
            Err(HearFault::NoMemory) => return Err(HouseFault::NoMemory),
            Err(HearFault::Nothing) => return Err(HouseFault::Nothing),
            Err(HearFault::Nobody) => return Err(HouseFault::Nobody),
        };
        let occupant = &mut self.connections.peers[seat];
        hears(occupant, &noted);
        caller_goes_on(occupant, connection, &self.directory, out)?;
        Ok(())
    }

    // A shard's consumer takes what waits at the front of its lane.
    fn take(&mut self, shard: u8) -> Result<(), HouseFault>
        ensures follows { OnOk result ((k : Setup) (s : scene.Scene) (old : List ℕ)
            → StandsFor k self.old s →
            Led k true s (events.Take shard) self.new old old) }
        ensures effort { OnOk result (MakesLess (events.Take shard) self.old self.new) }
        ensures marks { self.new.directory ≡ self.old.directory }
        ensures nobody { (result ≡ Err HouseFault.Nobody) ↔ IsNobody self.old (events.Take shard) }
        ensures changes_nothing { result ≡ Err HouseFault.Nothing
            → ChangesNothing self.old (events.Take shard) }
        ensures only { IfErr result (λ e. (e ≡ HouseFault.Nobody) ⊎ (e ≡ HouseFault.Nothing)) }
        ensures refused { OnErr result (self.new ≡ self.old) }
    {
        if let Err(fault) = self.store.core.take(shard) {
            return Err(fault_of(fault));
        }
        Ok(())
    }

    // The copy in a shard's hand is delivered, or refused.
    fn deliver(&mut self, shard: u8) -> Result<(), HouseFault>
        ensures follows { OnOk result ((k : Setup) (s : scene.Scene) (old : List ℕ)
            → StandsFor k self.old s →
            Led k true s (events.Deliver shard) self.new old old) }
        ensures effort { OnOk result (MakesLess (events.Deliver shard) self.old self.new) }
        ensures marks { self.new.directory ≡ self.old.directory }
        ensures nobody { (result ≡ Err HouseFault.Nobody)
            ↔ IsNobody self.old (events.Deliver shard) }
        ensures changes_nothing { result ≡ Err HouseFault.Nothing
            → ChangesNothing self.old (events.Deliver shard) }
        ensures only { IfErr result (λ e. (e ≡ HouseFault.Nobody) ⊎ (e ≡ HouseFault.Nothing)) }
        ensures refused { OnErr result (self.new ≡ self.old) }
    {
        if let Err(fault) = self.store.core.deliver(shard) {
            return Err(fault_of(fault));
        }
        Ok(())
    }

    // The verdict in a shard's hand goes into the reply lane of the copy's seat.
    fn answer(&mut self, shard: u8) -> Result<(), HouseFault>
        ensures follows { OnOk result ((k : Setup) (s : scene.Scene) (old : List ℕ)
            → StandsFor k self.old s →
            Led k true s (events.Answer shard) self.new old old) }
        ensures effort { OnOk result (MakesLess (events.Answer shard) self.old self.new) }
        ensures marks { self.new.directory ≡ self.old.directory }
        ensures nobody { (result ≡ Err HouseFault.Nobody)
            ↔ IsNobody self.old (events.Answer shard) }
        ensures changes_nothing { result ≡ Err HouseFault.Nothing
            → ChangesNothing self.old (events.Answer shard) }
        ensures only { IfErr result (λ e. (e ≡ HouseFault.Nobody) ⊎ (e ≡ HouseFault.Nothing)) }
        ensures refused { OnErr result (self.new ≡ self.old) }
    {
        if let Err(fault) = self.store.core.answer(shard) {
            return Err(fault_of(fault));
        }
        Ok(())
    }

    /// One event. What it appends to `out` is what it prints.
    ///
    /// Nobody, Busy and Nothing come in this order, and after them nothing changed: Nobody where the connection, the shard, the session or
    /// the user isn't there (an end asks for its seat alone), and where a seat that is free takes nobody any more; Busy where bytes, a vanishing, an
    /// idle turn or a leave are for a seat that still waits for the verdicts of a peer that is gone, where a shard is shut that is shut already, and
    /// where a user enters at a place that is taken; Nothing where an event of the house's own, or an idle turn, would change nothing. After
    /// NoMemory, which no take, delivery, answer, end, close, leave or vanishing answers, what was done by then stands, and the next event of the
    /// connection or session goes on from there; bytes that came with it were taken up or weren't there at all.
    pub fn step(&mut self, event: Event<'_>, out: &mut Vec<u8>) -> Result<(), HouseFault>
        // From each scene for which the house stood, an event that happened leads to one for which it stands; `out` gets what it prints.
        ensures follows { OnOk result
            (Follows self.old event.entry self.new out.old.items out.new.items) }

        // A put, take, delivery, answer, hearing or end that happened leaves less to do, an idle turn less for its session: so settling ends.
        ensures effort { OnOk result (MakesLess (event.entry) self.old self.new) }

        // The same six, whatever is answered, leave the directory as it was: they shut no shard.
        ensures marks { KeepsMarks event.entry self.old self.new }

        // Nobody exactly where the connection, session, user or shard (of an end: the seat) isn't there, or a free seat takes no more.
        ensures nobody { (result ≡ Err HouseFault.Nobody) ↔ IsNobody self.old event.entry }

        // Busy exactly for bytes, a vanishing, an idle turn or a leave where the peer is gone, a close of a shut shard, a user at a taken place.
        ensures busy { (result ≡ Err HouseFault.Busy) ↔ IsBusy self.old event.entry }

        // Nothing comes only where the event would change and print nothing, and to none that comes from outside but an idle turn.
        ensures changes_nothing { result ≡ Err HouseFault.Nothing
            → ChangesNothing self.old event.entry }
        ensures finds_nothing { result ≡ Err HouseFault.Nothing → MayFindNothing event.entry }

        // From each such scene the event was cut short, or nothing happened, and the house stands for what came of it.
        ensures no_memory { result ≡ Err HouseFault.NoMemory
            → FollowsInPart self.old event.entry self.new out.old.items out.new.items }

        // No take, delivery, answer, end, close, leave or vanishing is refused so; the others only as `MayWant` says.
        ensures asks { result ≡ Err HouseFault.NoMemory → MayWant event.entry self.old self.new }

        // A refusal but for memory leaves the house and `out` as they were.
        ensures refused { result ≢ Err HouseFault.NoMemory
            → OnErr result ((self.new ≡ self.old) × (out.new.items ≡ out.old.items)) }
    {
        match event {
            Event::Bytes(connection, piece) => self.bytes(connection, piece, out),
            Event::Vanish(connection) => self.vanish(connection, out),
            Event::Put(number) => self.put(number, out),
            Event::Take(shard) => self.take(shard),
            Event::Deliver(shard) => self.deliver(shard),
            Event::Answer(shard) => self.answer(shard),
            Event::Hear(number) => self.hear(number, out),
            Event::End { producer, shard } => self.end(producer, shard),
            Event::Close(shard) => self.close(shard),
            Event::Enter(session, user) => self.enter(session, user, out),
            Event::Say(session, piece) => self.say(session, piece, out),
            Event::Idle(session) => self.idle(session, out),
            Event::Leave(session) => self.leave(session),
        }
    }

    /// So many shards keep the mailboxes, numbered from 0.
    pub fn shards(&self) -> u8
        ensures { result ≡ self.now.directory.shards }
    {
        self.directory.shards()
    }

    // Whether there is no such connection.
    fn has_no_seat(&self, connection: u8) -> bool
        ensures { IsTrue result ↔ IsNoSeat self.now connection }
    {
        connection == 0 || usize::from(connection) > self.connections.peers.len()
    }

    // Bytes came from the peer of a connection.
    fn bytes(&mut self, connection: u8, piece: &[u8], out: &mut Vec<u8>) -> Result<(), HouseFault>
        ensures follows { OnOk result
            (Follows self.old (events.Bytes connection piece.entry) self.new out.old.items
            out.new.items) }
        ensures nobody { (result ≡ Err HouseFault.Nobody)
            ↔ IsNobody self.old (events.Bytes connection piece.entry) }
        ensures busy { (result ≡ Err HouseFault.Busy)
            ↔ IsBusy self.old (events.Bytes connection piece.entry) }
        ensures nothing { result ≢ Err HouseFault.Nothing }
        ensures no_memory { result ≡ Err HouseFault.NoMemory →
            FollowsInPart self.old (events.Bytes connection piece.entry) self.new out.old.items
            out.new.items }
        ensures asks { result ≡ Err HouseFault.NoMemory
            → MayWant (events.Bytes connection piece.entry) self.old self.new }
        ensures refused { result ≢ Err HouseFault.NoMemory
            → OnErr result ((self.new ≡ self.old) × (out.new.items ≡ out.old.items)) }
    {
        if self.has_no_seat(connection) {
            return Err(HouseFault::Nobody);
        }
        let seat = index_of(connection);
        if is_left(&self.connections.peers[seat]) {
            return Err(HouseFault::Busy);
        }
        if self.connections.peers[seat].is_some() {
            return self.receive(connection, piece, out);
        }
        if self.connections.serials[seat] == u64::MAX {
            return Err(HouseFault::Nobody);
        }
        self.welcome(connection, piece, out)
    }

    // The peer of a connection is gone.
    fn vanish(&mut self, connection: u8, out: &mut Vec<u8>) -> Result<(), HouseFault>
        ensures follows { OnOk result
            (Follows self.old (events.Vanish connection) self.new out.old.items out.new.items) }
        ensures nobody { (result ≡ Err HouseFault.Nobody)
            ↔ IsNobody self.old (events.Vanish connection) }
        ensures busy { (result ≡ Err HouseFault.Busy) ↔ IsBusy self.old (events.Vanish connection) }
        ensures nothing { result ≢ Err HouseFault.Nothing }
        ensures memory { result ≢ Err HouseFault.NoMemory }
        ensures refused { OnErr result ((self.new ≡ self.old) × (out.new.items ≡ out.old.items)) }
    {
        if self.has_no_seat(connection) {
            return Err(HouseFault::Nobody);
        }
        let seat = index_of(connection);
        if self.connections.peers[seat].is_none() {
            return Err(HouseFault::Nobody);
        }
        if is_left(&self.connections.peers[seat]) {
            return Err(HouseFault::Busy);
        }
        self.lose(connection, out);
        Ok(())
    }

    // Whether there is neither a connection nor a session of this number, or no seat for it.
    fn has_no_number(&self, number: u8) -> bool
        ensures { IsTrue result ↔ IsNoNumber self.now number }
    {
        let number = usize::from(number);
        number == 0
            || number > self.connections.peers.len() + self.sessions.peers.len()
            || number > self.store.core.seats()
    }

    // A shard is marked as shut, where it wasn't.
    fn close(&mut self, shard: u8) -> Result<(), HouseFault>
        ensures follows { OnOk result ((k : Setup) (s : scene.Scene) (old : List ℕ)
            → StandsFor k self.old s →
            Led k true s (events.Close shard) self.new old old) }
        ensures effort { OnOk result (MakesLess (events.Close shard) self.old self.new) }
        ensures nobody { (result ≡ Err HouseFault.Nobody) ↔ IsNobody self.old (events.Close shard) }
        ensures busy { (result ≡ Err HouseFault.Busy) ↔ IsBusy self.old (events.Close shard) }
        ensures only { IfErr result (λ e. (e ≡ HouseFault.Nobody) ⊎ (e ≡ HouseFault.Busy)) }
        ensures refused { OnErr result (self.new ≡ self.old) }
    {
        if shard >= self.directory.shards() {
            return Err(HouseFault::Nobody);
        }
        if self.directory.is_shut(usize::from(shard)) {
            return Err(HouseFault::Busy);
        }
        self.directory.shut(shard);
        Ok(())
    }

    // A seat puts its end into a shard's lane.
    fn end(&mut self, number: u8, shard: u8) -> Result<(), HouseFault>
        ensures follows { OnOk result ((k : Setup) (s : scene.Scene) (old : List ℕ)
            → StandsFor k self.old s →
            Led k true s (events.End number shard) self.new old old) }
        ensures marks { self.new.directory ≡ self.old.directory }
        ensures nobody { (result ≡ Err HouseFault.Nobody)
            ↔ IsNobody self.old (events.End number shard) }
        ensures busy { result ≢ Err HouseFault.Busy }
        ensures changes_nothing { result ≡ Err HouseFault.Nothing
            → ChangesNothing self.old (events.End number shard) }
        ensures memory { result ≢ Err HouseFault.NoMemory }
        ensures effort { OnOk result (MakesLess (events.End number shard) self.old self.new) }
        ensures refused { OnErr result (self.new ≡ self.old) }
    {
        if self.has_no_number(number) {
            return Err(HouseFault::Nobody);
        }
        if usize::from(shard) >= self.store.core.shards() {
            return Err(HouseFault::Nobody);
        }
        if let Err(fault) = self.store.core.end(number - 1, shard) {
            return Err(fault_of(fault));
        }
        Ok(())
    }

    // A connection or a session puts the next copy of its message.
    fn put(&mut self, number: u8, out: &mut Vec<u8>) -> Result<(), HouseFault>
        ensures follows { OnOk result
            (Follows self.old (events.Put number) self.new out.old.items out.new.items) }
        ensures effort { OnOk result (MakesLess (events.Put number) self.old self.new) }
        ensures marks { self.new.directory ≡ self.old.directory }
        ensures nobody { (result ≡ Err HouseFault.Nobody) ↔ IsNobody self.old (events.Put number) }
        ensures busy { result ≢ Err HouseFault.Busy }
        ensures changes_nothing { result ≡ Err HouseFault.Nothing
            → ChangesNothing self.old (events.Put number) }
        ensures no_memory { result ≡ Err HouseFault.NoMemory
            → FollowsInPart self.old (events.Put number) self.new out.old.items out.new.items }
        ensures asks { result ≡ Err HouseFault.NoMemory
            → MayWant (events.Put number) self.old self.new }
        ensures refused { result ≢ Err HouseFault.NoMemory
            → OnErr result ((self.new ≡ self.old) × (out.new.items ≡ out.old.items)) }
    {
        if self.has_no_number(number) {
            return Err(HouseFault::Nobody);
        }
        if usize::from(number) > self.connections.peers.len() {
            return self.put_of_session(number, out);
        }
        self.put_of_connection(number, out)
    }

    // A connection or a session hears the verdict at the front of its reply lane.
    fn hear(&mut self, number: u8, out: &mut Vec<u8>) -> Result<(), HouseFault>
        ensures follows { OnOk result
            (Follows self.old (events.Hear number) self.new out.old.items out.new.items) }
        ensures effort { OnOk result (MakesLess (events.Hear number) self.old self.new) }
        ensures marks { self.new.directory ≡ self.old.directory }
        ensures nobody { (result ≡ Err HouseFault.Nobody) ↔ IsNobody self.old (events.Hear number) }
        ensures busy { result ≢ Err HouseFault.Busy }
        ensures changes_nothing { result ≡ Err HouseFault.Nothing
            → ChangesNothing self.old (events.Hear number) }
        ensures no_memory { result ≡ Err HouseFault.NoMemory
            → FollowsInPart self.old (events.Hear number) self.new out.old.items out.new.items }
        ensures asks { result ≡ Err HouseFault.NoMemory
            → MayWant (events.Hear number) self.old self.new }
        ensures refused { result ≢ Err HouseFault.NoMemory
            → OnErr result ((self.new ≡ self.old) × (out.new.items ≡ out.old.items)) }
    {
        if self.has_no_number(number) {
            return Err(HouseFault::Nobody);
        }
        if usize::from(number) > self.connections.peers.len() {
            return self.hear_of_session(number, out);
        }
        self.hear_of_connection(number, out)
    }
}

// Why a step of the core that asks for no memory did nothing, as one of the house's faults.
fn fault_of(fault: Fault) -> HouseFault
    ensures { result ≡ fault_of fault }
{
    match fault {
        Fault::Nobody => HouseFault::Nobody,
        Fault::Nothing => HouseFault::Nothing,
    }
}
