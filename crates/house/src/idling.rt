//! Sessions that idle (RFC 2177): the event by which one is shown what is new, and the turns that all of them have when the house settles. What
//! a turn shows is the session's matter, over the mailboxes of the delivery core.

ghost use Rattle.std.specs.Prelude.{◌≡◌, ◌≢◌, ◌↔◌, ◌<◌, ◌-◌, List, [], ◌∷◌, true, false, Some, Err, IfSome, OnErr, OnOk};
ghost use Rattle.house.specs.Setup.{Setup, session_seat};
ghost use Rattle.delivery_core.specs.DeliveryCore.{behind};
ghost use Rattle.delivery_core.specs.Stands as core;
ghost use Rattle.house.specs.Effort.{MakesLess, turns_left};
ghost use Rattle.house.specs.Settling.{Stint, StintBreaksOff, Stints, StintsBreakOff, idle_turns};
ghost use Rattle.house.specs.Stands.{StandsFor};
ghost use Rattle.house.specs.Steps.{Follows, FollowsInPart, IsBusy, ChangesNothing, IsNobody, MayIdle, MayWant};
ghost use Rattle.house.specs.inner.Steps.{HasNoTurn, PlaceIdled, PlaceIdledInPart, StandsForSomebody};
ghost use Rattle.house.specs.inner.Trying.{Goes, IsAmong, Wants};
ghost use Rattle.house.specs.declared.event.Event.TheVariants as events;
ghost use Rattle.house_peers.specs.Visitor as spec;
ghost use Rattle.delivery_token.specs.declared.CopyKey.{CopyKey};
ghost use Rattle.delivery_token.specs.declared.log.Noted.{Noted};
ghost use Rattle.world.specs.World.{World};

use crate::core_store::CoreStore;
use crate::event::{Event, HouseFault};
use crate::house::{House, index_of};
use crate::printing::take_turn;
use delivery_core::DeliveryCore;
use house_peers::SeatedSession;
use imap_session::Store;
use std::alloc::AllocError;

// Whether the session at a place, counted from 0, has something to do in a turn: its client is there, it idles in a mailbox and wasn't shown all of
// its log.
fn has_turn(visitor: &SeatedSession, place: u8, core: &DeliveryCore) -> bool
    ensures some { result ≡ true → MayIdle visitor.now place core.now }
    ensures none { result ≡ false → HasNoTurn place (Some visitor.now) core.now }
{
    if visitor.is_gone() {
        return false;
    }
    if !visitor.is_idling() {
        return false;
    }
    if visitor.selected().is_none() {
        return false;
    }
    !core.is_up_to_date(place)
}

// The session at a place has a turn, and leaves where it has ended.
fn turn_at(
    place: &mut Option<SeatedSession>,
    number: u8,
    store: &mut CoreStore,
    out: &mut Vec<u8>,
) -> Result<(), AllocError>
    requires counted { 0 < number }
    requires idles { IfSome place.old (λ p. MayIdle p (number - 1) store.old.core) }
    ensures ok { OnOk result
        ((k : Setup) (next : CopyKey) (heard : List Noted) (w : World) (b : spec.SeatedVisitor) →
        core.StandsFor k.config store.old.core w
        → StandsForSomebody (session_seat k (number - 1)) next heard place.old (Some b) →
        PlaceIdled k true (number
        - 1) next heard w b store.old.core place.new store.new.core out.old.items out.new.items) }
    ensures less { OnOk result (IfSome place.old (λ p.
        turns_left place.new (behind store.new.core (number - 1))
        < turns_left (Some p) (behind store.old.core (number - 1)))) }
    ensures err { OnErr result
        ((k : Setup) (next : CopyKey) (heard : List Noted) (w : World) (b : spec.SeatedVisitor) →
        core.StandsFor k.config store.old.core w
        → StandsForSomebody (session_seat k (number - 1)) next heard place.old (Some b) →
        PlaceIdledInPart k (number
        - 1) next heard w b store.old.core place.new store.new.core out.old.items out.new.items) }
{
    let Some(visitor) = place else {
        return Ok(());
    };
    store.session = number - 1;
    take_turn(visitor, number, store, out)?;
    if visitor.has_ended() {
        let _ = store.leave(false);
        *place = None;
    }
    Ok(())
}

impl House {
    // A session that idles is shown what is pending.
    pub(crate) fn idle(&mut self, session: u8, out: &mut Vec<u8>) -> Result<(), HouseFault>
        ensures follows { OnOk result
            (Follows self.old (events.Idle session) self.new out.old.items out.new.items) }
        ensures effort { OnOk result (MakesLess (events.Idle session) self.old self.new) }
        ensures nobody { (result ≡ Err HouseFault.Nobody)
            ↔ IsNobody self.old (events.Idle session) }
        ensures busy { (result ≡ Err HouseFault.Busy) ↔ IsBusy self.old (events.Idle session) }
        ensures changes_nothing { result ≡ Err HouseFault.Nothing
            → ChangesNothing self.old (events.Idle session) }
        ensures no_memory { result ≡ Err HouseFault.NoMemory
            → FollowsInPart self.old (events.Idle session) self.new out.old.items out.new.items }
        ensures asks { result ≡ Err HouseFault.NoMemory
            → MayWant (events.Idle session) self.old self.new }
        ensures refused { result ≢ Err HouseFault.NoMemory
            → OnErr result ((self.new ≡ self.old) × (out.new.items ≡ out.old.items)) }
    {
        if self.has_no_place(session) {
            return Err(HouseFault::Nobody);
        }
        let place = &mut self.sessions.peers[index_of(session)];
        let Some(visitor) = place else {
            return Err(HouseFault::Nobody);
        };
        if visitor.is_gone() {
            return Err(HouseFault::Busy);
        }
        if !has_turn(visitor, session - 1, &self.store.core) {
            return Err(HouseFault::Nothing);
        }
        turn_at(place, session, &mut self.store, out)?;
        Ok(())
    }

    // A session that idles is shown what is pending, until nothing is.
    fn idle_out(&mut self, session: u8, out: &mut Vec<u8>) -> Result<(), AllocError>
        ensures ok { OnOk result (Goes (λ k. IsAmong k (events.Idle session)) (λ k s t printed.
            Stint k (events.Idle session
            ∷ []) s t printed) self.old out.old.items self.new out.new.items) }
        ensures err { OnErr result (Wants (λ k. IsAmong k (events.Idle session)) (λ k s t printed.
            StintBreaksOff k (events.Idle session
            ∷ []) s t printed) self.old out.old.items self.new out.new.items) }
    {
        loop {
            match self.step(Event::Idle(session), out) {
                Ok(()) => {}
                Err(HouseFault::NoMemory) => return Err(AllocError),
                Err(HouseFault::Nobody) => return Ok(()),
                Err(HouseFault::Busy) => return Ok(()),
                Err(HouseFault::Nothing) => return Ok(()),
            }
        }
    }

    // Each session that idles is shown what is pending.
    pub(crate) fn idle_all(&mut self, out: &mut Vec<u8>) -> Result<(), AllocError>
        ensures ok { OnOk result (Goes (λ k. Unit {0}) (λ k s t printed.
            Stints k (idle_turns k.config.sessions) s t printed) self.old out.old.items self.new
            out.new.items) }
        ensures err { OnErr result (Wants (λ k. Unit {0}) (λ k s t printed.
            StintsBreakOff k (idle_turns k.config.sessions) s t printed) self.old out.old.items
            self.new out.new.items) }
    {
        let sessions = self.sessions.peers.len() as u8;
        for place in 0..sessions {
            self.idle_out(place + 1, out)?;
        }
        Ok(())
    }
}
