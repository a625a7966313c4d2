//! What happens to sessions: users enter, their clients say something and leave, and the messages that they append are put and heard of. What a
//! session answers is its own matter, over the mailboxes of the delivery core.

ghost use Rattle.std.specs.Prelude.{◌≡◌, ◌≢◌, ◌↔◌, ◌⊎◌, ◌+◌, ◌-◌, ◌<◌, ◌≤◌, ℕ, List, length, true, false, None, Some, Err, OnOk, OnErr, IfErr, IfOk, IsTrue};
ghost use Rattle.delivery_core.specs.Changes.{SameDelivery};
ghost use Rattle.delivery_core.specs.Stands as core;
ghost use Rattle.delivery_token.specs.Keys.{AtLeast};
ghost use Rattle.delivery_token.specs.declared.CopyKey.{CopyKey};
ghost use Rattle.delivery_token.specs.declared.log.Noted.{Noted as NotedSpec};
ghost use Rattle.house.specs.Effort.{MakesLess, visitor_effort};
ghost use Rattle.house.specs.Scene as scene;
ghost use Rattle.house.specs.Setup.{Setup, session_seat};
ghost use Rattle.house.specs.Stands.{StandsFor, first_of};
ghost use Rattle.house.specs.Steps.{Follows, FollowsInPart, IsBusy, ChangesNothing, IsNobody, IsNoPlace, IsVacant, Led, MayWant, VisitorWants, is_left};
ghost use Rattle.house.specs.inner.Steps.{CanEnter, HasLingered, IsSession, IsTalking, PlaceTalked, PlaceVisited, StandsForSomebody};
ghost use Rattle.house.specs.declared.event.Event.TheVariants as events;
ghost use Rattle.house_peers.specs.Visitor as spec;
ghost use Rattle.house_peers.specs.SeatedSession.{StandsForSeated};
ghost use Rattle.world.specs.World.{World};

use crate::core_store::CoreStore;
use crate::event::HouseFault;
use crate::house::{House, index_of};
use crate::peer::{append_to, hears, is_left, notes_put, put_next, vanishes};
use crate::printing::go_on;
use budget::Budget;
use delivery_core::HearFault;
use house_peers::SeatedSession;
use imap_session::{Admission, Folder, Store, admission_of, folders_of, has_user};
use std::alloc::{AllocError, Global};

// The session at a place, whose client is there, goes on, and leaves its mailbox and its place where it has ended.
fn visitor_talks(
    place: &mut Option<SeatedSession>,
    alloc: Global,
    number: u8,
    store: &mut CoreStore,
    out: &mut Vec<u8>,
) -> Result<(), AllocError>
    requires counted { 0 < number }
    requires there { is_left place.old ≡ false }
    ensures less { visitor_effort place.new ≤ visitor_effort place.old }
    ensures delivery { SameDelivery store.old.core store.new.core }
    ensures ok { OnOk result
        ((k : Setup) (next : CopyKey) (heard : List NotedSpec) (w : World)
        (b : spec.SeatedVisitor) →
        core.StandsFor k.config store.old.core w
        → StandsForSomebody (session_seat k (number - 1)) next heard place.old (Some b) →
        PlaceTalked k true (number
        - 1) next heard w b place.new store.new.core out.old.items out.new.items) }
    ensures err { OnErr result
        ((k : Setup) (next : CopyKey) (heard : List NotedSpec) (w : World)
        (b : spec.SeatedVisitor) →
        core.StandsFor k.config store.old.core w
        → StandsForSomebody (session_seat k (number - 1)) next heard place.old (Some b) →
        PlaceTalked k false (number
        - 1) next heard w b place.new store.new.core out.old.items out.new.items) }
    ensures works { OnErr result (VisitorWants place.old place.new) }
{
    let Some(visitor) = place else {
        return Ok(());
    };
    store.session = number - 1;
    go_on(visitor, alloc, number, store, out)?;
    if visitor.has_ended() {
        let _ = store.leave(false);
        *place = None;
    }
    Ok(())
}

// Where the client of the session at a place is gone, it leaves its place as soon as the verdict that it awaited was heard.
fn visitor_lingers(place: &mut Option<SeatedSession>)
    ensures less { visitor_effort place.new ≤ visitor_effort place.old }
    ensures who { (seat : ℕ) (next : CopyKey) (heard : List NotedSpec) (b : spec.SeatedVisitor) →
        StandsForSomebody seat next heard place.old (Some b)
        → HasLingered seat next heard b place.new }
{
    let Some(visitor) = place else {
        return;
    };
    if !visitor.awaits_verdict() {
        *place = None;
    }
}

// The session at a place goes on, whether its client is there or not.
fn visitor_goes_on(
    place: &mut Option<SeatedSession>,
    alloc: Global,
    number: u8,
    store: &mut CoreStore,
    out: &mut Vec<u8>,
) -> Result<(), AllocError>
    requires counted { 0 < number }
    ensures less { visitor_effort place.new ≤ visitor_effort place.old }
    ensures delivery { SameDelivery store.old.core store.new.core }
    ensures ok { OnOk result
        ((k : Setup) (next : CopyKey) (heard : List NotedSpec) (w : World)
        (b : spec.SeatedVisitor) →
        core.StandsFor k.config store.old.core w
        → StandsForSomebody (session_seat k (number - 1)) next heard place.old (Some b) →
        PlaceVisited k true (number
        - 1) next heard w b place.new store.new.core out.old.items out.new.items) }
    ensures err { OnErr result
        ((k : Setup) (next : CopyKey) (heard : List NotedSpec) (w : World)
        (b : spec.SeatedVisitor) →
        core.StandsFor k.config store.old.core w
        → StandsForSomebody (session_seat k (number - 1)) next heard place.old (Some b) →
        PlaceVisited k false (number
        - 1) next heard w b place.new store.new.core out.old.items out.new.items) }
{
    if is_left(place) {
        visitor_lingers(place);
        return Ok(());
    }
    visitor_talks(place, alloc, number, store, out)
}

// A session that was just let in to a seat, with these of the user's mailboxes, and which comes in so.
fn admitted(
    alloc: Global,
    seat: u8,
    serial: u64,
    folders: Vec<Folder>,
    admission: Admission,
) -> Result<SeatedSession, AllocError>
    ensures { IfOk result (λ p. (p.gone ≡ false)
        × ((next : CopyKey) (heard : List NotedSpec) → AtLeast next (first_of seat serial) →
        StandsForSeated seat next heard p
        (spec.seated_greeted serial admission folders.items))) }
{
    SeatedSession::open(alloc, seat, serial, folders, admission)
}

impl House {
    // Whether there is no such session.
    pub(crate) fn has_no_place(&self, session: u8) -> bool
        ensures { IsTrue result ↔ IsNoPlace self.now session }
    {
        session == 0 || usize::from(session) > self.sessions.peers.len()
    }

    // The seat of a session: behind those of connections.
    fn session_seat(&self, session: u8) -> u8
        requires there { (0 < session) × (session ≤ length self.now.visitors) }
        ensures { result ≡ length self.now.callers + (session - 1) }
    {
        self.connections.peers.len() as u8 + (session - 1)
    }

    // A user opens a session at a place where nobody is, with the serial that is next there.
    fn admit(&mut self, session: u8, user: &[u8], out: &mut Vec<u8>) -> Result<(), HouseFault>
        requires free { CanEnter self.old session user.now }
        ensures follows { OnOk result
            (Follows self.old (events.Enter session user.entry) self.new out.old.items
            out.new.items) }
        ensures only { IfErr result (λ e. e ≡ HouseFault.NoMemory) }
        ensures no_memory { OnErr result
            (FollowsInPart self.old (events.Enter session user.entry) self.new out.old.items
            out.new.items) }
    {
        let place = index_of(session);
        let seat = self.session_seat(session);
        let serial = self.sessions.serials[place];
        let alloc = *self.host.allocator();
        let folders = folders_of(alloc, &self.directory, user)?;
        let max_message = Some(self.max_message as u32);
        let budget = Budget::unlimited();
        let admission = admission_of(alloc, self.compatible, max_message, user, budget)?;
        let visitor = admitted(alloc, seat, serial, folders, admission)?;
        self.sessions.serials[place] = serial + 1;
        let here = &mut self.sessions.peers[place];
        *here = Some(visitor);
        visitor_talks(here, alloc, session, &mut self.store, out)?;
        Ok(())
    }

    // A user opens a session.
    pub(crate) fn enter(
        &mut self,
        session: u8,
        user: &[u8],
        out: &mut Vec<u8>,
    ) -> Result<(), HouseFault>
        ensures follows { OnOk result
            (Follows self.old (events.Enter session user.entry) self.new out.old.items
            out.new.items) }
        ensures nobody { (result ≡ Err HouseFault.Nobody)
            ↔ IsNobody self.old (events.Enter session user.entry) }
        ensures busy { (result ≡ Err HouseFault.Busy)
            ↔ IsBusy self.old (events.Enter session user.entry) }
        ensures nothing { result ≢ Err HouseFault.Nothing }
        ensures no_memory { result ≡ Err HouseFault.NoMemory →
            FollowsInPart self.old (events.Enter session user.entry) self.new out.old.items
            out.new.items }
        ensures refused { result ≢ Err HouseFault.NoMemory
            → OnErr result ((self.new ≡ self.old) × (out.new.items ≡ out.old.items)) }
    {
        if self.has_no_place(session) || !has_user(&self.directory, user) {
            return Err(HouseFault::Nobody);
        }
        let place = index_of(session);
        if self.sessions.peers[place].is_some() {
            return Err(HouseFault::Busy);
        }
        if self.sessions.serials[place] == u64::MAX {
            return Err(HouseFault::Nobody);
        }
        self.admit(session, user, out)
    }

    // Bytes came from the client of a session at its place, which is there.
    fn listen(&mut self, session: u8, piece: &[u8], out: &mut Vec<u8>) -> Result<(), HouseFault>
        requires there { IsTalking self.old session }
        ensures follows { OnOk result
            (Follows self.old (events.Say session piece.entry) self.new out.old.items
            out.new.items) }
        ensures only { IfErr result (λ e. e ≡ HouseFault.NoMemory) }
        ensures no_memory { OnErr result
            (FollowsInPart self.old (events.Say session piece.entry) self.new out.old.items
            out.new.items) }
        ensures asks { OnErr result (MayWant (events.Say session piece.entry) self.old self.new) }
    {
        let place = &mut self.sessions.peers[index_of(session)];
        append_to(place, piece)?;
        let alloc = *self.host.allocator();
        visitor_talks(place, alloc, session, &mut self.store, out)?;
        Ok(())
    }

    // Bytes came from a session's client.
    pub(crate) fn say(
        &mut self,
        session: u8,
        piece: &[u8],
        out: &mut Vec<u8>,
    ) -> Result<(), HouseFault>
        ensures follows { OnOk result
            (Follows self.old (events.Say session piece.entry) self.new out.old.items
            out.new.items) }
        ensures nobody { (result ≡ Err HouseFault.Nobody)
            ↔ IsNobody self.old (events.Say session piece.entry) }
        ensures busy { (result ≡ Err HouseFault.Busy)
            ↔ IsBusy self.old (events.Say session piece.entry) }
        ensures nothing { result ≢ Err HouseFault.Nothing }
        ensures no_memory { result ≡ Err HouseFault.NoMemory →
            FollowsInPart self.old (events.Say session piece.entry) self.new out.old.items
            out.new.items }
        ensures asks { result ≡ Err HouseFault.NoMemory
            → MayWant (events.Say session piece.entry) self.old self.new }
        ensures refused { result ≢ Err HouseFault.NoMemory
            → OnErr result ((self.new ≡ self.old) × (out.new.items ≡ out.old.items)) }
    {
        if self.has_no_place(session) {
            return Err(HouseFault::Nobody);
        }
        let place = index_of(session);
        if self.sessions.peers[place].is_none() {
            return Err(HouseFault::Nobody);
        }
        if is_left(&self.sessions.peers[place]) {
            return Err(HouseFault::Busy);
        }
        self.listen(session, piece, out)
    }

    // The client of a session at its place, which was there, is gone.
    fn part(&mut self, session: u8)
        requires there { IsTalking self.old session }
        ensures { (k : Setup) (s : scene.Scene) (old : List ℕ) → StandsFor k self.old s
            → Led k true s (events.Leave session) self.new old old }
    {
        self.store.session = session - 1;
        let _ = self.store.leave(false);
        let place = &mut self.sessions.peers[index_of(session)];
        vanishes(place);
        visitor_lingers(place);
    }

    // A session's client is gone.
    pub(crate) fn leave(&mut self, session: u8) -> Result<(), HouseFault>
        ensures follows { OnOk result ((k : Setup) (s : scene.Scene) (old : List ℕ)
            → StandsFor k self.old s →
            Led k true s (events.Leave session) self.new old old) }
        ensures nobody { (result ≡ Err HouseFault.Nobody)
            ↔ IsNobody self.old (events.Leave session) }
        ensures busy { (result ≡ Err HouseFault.Busy) ↔ IsBusy self.old (events.Leave session) }
        ensures only { IfErr result (λ e. (e ≡ HouseFault.Nobody) ⊎ (e ≡ HouseFault.Busy)) }
        ensures refused { OnErr result (self.new ≡ self.old) }
    {
        if self.has_no_place(session) {
            return Err(HouseFault::Nobody);
        }
        let place = index_of(session);
        if self.sessions.peers[place].is_none() {
            return Err(HouseFault::Nobody);
        }
        if is_left(&self.sessions.peers[place]) {
            return Err(HouseFault::Busy);
        }
        self.part(session);
        Ok(())
    }

    // A session puts the copy of the message that it submitted.
    pub(crate) fn put_of_session(&mut self, number: u8, out: &mut Vec<u8>) -> Result<(), HouseFault>
        requires number { IsSession self.old number }
        ensures follows { OnOk result
            (Follows self.old (events.Put number) self.new out.old.items out.new.items) }
        ensures effort { OnOk result (MakesLess (events.Put number) self.old self.new) }
        ensures marks { self.new.directory ≡ self.old.directory }
        ensures nobody { (result ≡ Err HouseFault.Nobody) ↔ IsVacant self.old number }
        ensures busy { result ≢ Err HouseFault.Busy }
        ensures changes_nothing { result ≡ Err HouseFault.Nothing
            → ChangesNothing self.old (events.Put number) }
        ensures no_memory { result ≡ Err HouseFault.NoMemory
            → FollowsInPart self.old (events.Put number) self.new out.old.items out.new.items }
        ensures asks { result ≡ Err HouseFault.NoMemory
            → MayWant (events.Put number) self.old self.new }
        ensures refused { result ≢ Err HouseFault.NoMemory
            → OnErr result ((self.new ≡ self.old) × (out.new.items ≡ out.old.items)) }
    {
        let session = number - self.connections.peers.len() as u8;
        let place = index_of(session);
        let why = put_next(&mut self.store.core, &self.sessions.peers[place])?;
        let here = &mut self.sessions.peers[place];
        notes_put(here, why);
        let alloc = *self.host.allocator();
        visitor_goes_on(here, alloc, session, &mut self.store, out)?;
        Ok(())
    }

    // A session hears the verdict at the front of its reply lane.
    pub(crate) fn hear_of_session(
        &mut self,
        number: u8,
        out: &mut Vec<u8>,
    ) -> Result<(), HouseFault>
        requires number { IsSession self.old number }
        requires lane { number ≤ length self.old.core.replies }
        ensures follows { OnOk result
            (Follows self.old (events.Hear number) self.new out.old.items out.new.items) }
        ensures effort { OnOk result (MakesLess (events.Hear number) self.old self.new) }
        ensures marks { self.new.directory ≡ self.old.directory }
        ensures nobody { (result ≡ Err HouseFault.Nobody) ↔ IsVacant self.old number }
        ensures busy { result ≢ Err HouseFault.Busy }
        ensures changes_nothing { result ≡ Err HouseFault.Nothing
            → ChangesNothing self.old (events.Hear number) }
        ensures no_memory { result ≡ Err HouseFault.NoMemory
            → FollowsInPart self.old (events.Hear number) self.new out.old.items out.new.items }
        ensures asks { result ≡ Err HouseFault.NoMemory
            → MayWant (events.Hear number) self.old self.new }
        ensures refused { result ≢ Err HouseFault.NoMemory
            → OnErr result ((self.new ≡ self.old) × (out.new.items ≡ out.old.items)) }
    {
        let session = number - self.connections.peers.len() as u8;
        let place = index_of(session);
        if self.sessions.peers[place].is_none() {
            return Err(HouseFault::Nobody);
        }
        let noted = match self.store.core.hear(number - 1) {
            Ok(noted) => noted,
            Err(HearFault::NoMemory) => return Err(HouseFault::NoMemory),
            Err(HearFault::Nothing) => return Err(HouseFault::Nothing),
            Err(HearFault::Nobody) => return Err(HouseFault::Nobody),
        };
        let here = &mut self.sessions.peers[place];
        hears(here, &noted);
        let alloc = *self.host.allocator();
        visitor_goes_on(here, alloc, session, &mut self.store, out)?;
        Ok(())
    }
}
