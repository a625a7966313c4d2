//! Who is at a seat: what a connection and a session have in common there. Bytes wait for both, both put copies and hear of them, and the peer of
//! either may be gone. What each says, and when it leaves, is told in `house` and in `sessions`.

ghost use Rattle.std.specs.Prelude.{◌≡◌, ◌≢◌, ◌↔◌, ◌<◌, ◌≤◌, ◌+◌, ◌∷◌, ℕ, Bool, List, [], Option, None, Some, Err, OnOk, OnErr, IfOk, IfSome, IsSomeAnd, MatchOption, length, option_map, replicate};
ghost use Rattle.delivery_core.specs.Load.{load};
ghost use Rattle.delivery_token.specs.declared.Job.{Job};
ghost use Rattle.delivery_token.specs.declared.Verdict.{Verdict};
ghost use Rattle.delivery_token.specs.declared.log.Noted.{Noted};
ghost use Rattle.delivery_token.specs.inner.Verdicts.{heard_verdict};
ghost use Rattle.house.specs.Steps.{CannotNote, CorePuts, HasNoRoom, PutsNext, is_gone_at};
ghost use Rattle.house.specs.inner.Steps.{IsNoNext, MayNotPut, job_of};
ghost use Rattle.house_peers.specs.Taking as line;
ghost use Rattle.house_peers.specs.SeatedSession as seat;
ghost use Rattle.house_peers.specs.HouseSession as place;

use crate::event::HouseFault;
use delivery_core::DeliveryCore;
use delivery_token::{NextCopy, Noted, Refusal, Verdict};
use house_peers::{HouseConnection, SeatedSession};
use std::alloc::{AllocError, Global};

/// Who may be at a seat.
pub(crate) trait Peer {
    // It, and these bytes that came and wait behind all others.
    ghost with_more: { List ℕ → Self → Self };
    // Whether whoever it speaks with is gone.
    ghost gone: { Self → Bool };
    // It, and nobody whom it speaks with: what waited and what was still to be printed is dropped.
    ghost with_nobody_there: { Self → Self };
    // The copies of the message at hand that are still to be put.
    ghost due: { Self → List Job };
    // It, and the next copy put, of which this was heard at once.
    ghost noted_put: { Option Verdict → Self → Self };
    // From one to the other it heard a verdict.
    ghost heard: { Self → Noted → Self → Type 0 };

    /// Adds bytes that came to those that wait.
    ///
    /// Errors: `AllocError` where memory was refused, which isn't asked for where there are no bytes; nothing is changed then.
    fn append(&mut self, piece: &[u8]) -> Result<(), AllocError>
        ensures ok { OnOk result (self.new ≡ with_more piece.now self.old) }
        ensures err { OnErr result (self.new ≡ self.old) }
        ensures asks { OnErr result (0 < length piece.now) };

    /// Whether whoever it speaks with is gone.
    fn is_gone(&self) -> bool
        ensures { result ≡ gone self.now };

    /// Whoever it speaks with is gone.
    fn vanish(&mut self)
        ensures { self.new ≡ with_nobody_there self.old };

    /// The next copy of the message at hand that is to be put. None where there is none.
    fn next_copy(&self) -> Option<NextCopy<'_>>
        ensures none { result ≡ None → due self.now ≡ [] }
        ensures some { IfSome result (λ c. (others : List Job)
            × (due self.now ≡ job_of c ∷ others)) };

    /// Notes that the next copy was put: with its verdict, where that was heard at once.
    fn note_put(&mut self, verdict: Option<Verdict>)
        requires { 0 < length (due self.old) }
        ensures { self.new ≡ noted_put verdict self.old };

    /// Notes a verdict that was heard, where it is awaited.
    fn hear(&mut self, noted: &Noted)
        ensures { heard self.old noted.now self.new };
}

impl Peer for HouseConnection {
    ghost with_more = { line.with_more };

    ghost gone = { λ h. h.gone };

    ghost with_nobody_there = { line.with_nobody_there };

    ghost due = { line.due };

    ghost noted_put = { line.noted_put };

    ghost heard = { λ old noted new. line.HearsVerdict old noted new };

    fn append(&mut self, piece: &[u8]) -> Result<(), AllocError> {
        HouseConnection::append(self, piece)
    }

    fn is_gone(&self) -> bool {
        HouseConnection::is_gone(self)
    }

    fn vanish(&mut self) {
        HouseConnection::vanish(self);
    }

    fn next_copy(&self) -> Option<NextCopy<'_>> {
        HouseConnection::next_copy(self)
    }

    fn note_put(&mut self, verdict: Option<Verdict>) {
        HouseConnection::note_put(self, verdict);
    }

    fn hear(&mut self, noted: &Noted) {
        HouseConnection::hear(self, noted);
    }
}

impl Peer for SeatedSession {
    ghost with_more = { λ piece p. seat.with_place (place.with_more piece p.place) p };

    ghost gone = { λ p. p.gone };

    ghost with_nobody_there = { seat.with_nobody_there };

    ghost due = { seat.due };

    ghost noted_put = { seat.noted_put };

    ghost heard = { λ old noted new. seat.HearsVerdict old noted new };

    fn append(&mut self, piece: &[u8]) -> Result<(), AllocError> {
        SeatedSession::append(self, piece)
    }

    fn is_gone(&self) -> bool {
        SeatedSession::is_gone(self)
    }

    fn vanish(&mut self) {
        SeatedSession::vanish(self);
    }

    fn next_copy(&self) -> Option<NextCopy<'_>> {
        SeatedSession::next_copy(self)
    }

    fn note_put(&mut self, verdict: Option<Verdict>) {
        SeatedSession::note_put(self, verdict);
    }

    fn hear(&mut self, noted: &Noted) {
        SeatedSession::hear(self, noted);
    }
}

/// The seats of one kind of peer, which are numbered from 1.
#[derive(Drop)]
pub(crate) struct Seats<P> {
    // Who is at each.
    pub(crate) peers: Vec<Option<P>>,
    // The serial of whoever comes next to each.
    pub(crate) serials: Vec<u64>,
}

impl<P: Drop> Seats<P> {
    // So many seats, where nobody was yet.
    pub(crate) fn empty(alloc: Global, count: u8) -> Result<Seats<P>, AllocError>
        ensures peers { IfOk result (λ s. s.peers.items ≡ replicate count None) }
        ensures serials { IfOk result (λ s. s.serials.items ≡ replicate count 0) }
    {
        let mut peers = Vec::new(alloc);
        for _seat in 0..count {
            peers.push(None)?;
        }
        let serials = vec![in alloc; 0; usize::from(count)]?;
        Ok(Seats { peers, serials })
    }
}

// Bytes more wait for whoever is at a seat.
pub(crate) fn append_to<P: Peer>(occupant: &mut Option<P>, piece: &[u8]) -> Result<(), AllocError>
    ensures ok { OnOk result (occupant.new ≡ option_map (P.with_more piece.now) occupant.old) }
    ensures err { OnErr result (occupant.new ≡ occupant.old) }
    ensures asks { OnErr result (0 < length piece.now) }
{
    match occupant {
        Some(peer) => peer.append(piece),
        None => Ok(()),
    }
}

// Whether somebody is at a seat whose peer is gone.
pub(crate) fn is_left<P: Peer>(occupant: &Option<P>) -> bool
    ensures { result ≡ is_gone_at P.gone occupant.now }
{
    match occupant {
        Some(peer) => peer.is_gone(),
        None => false,
    }
}

// The peer of whoever is at a seat is gone.
pub(crate) fn vanishes<P: Peer>(occupant: &mut Option<P>)
    ensures { occupant.new ≡ option_map P.with_nobody_there occupant.old }
{
    if let Some(peer) = occupant {
        peer.vanish();
    }
}

// Puts a copy, where it may be put.
fn put_copy(core: &mut DeliveryCore, copy: NextCopy<'_>) -> Result<Option<Refusal>, HouseFault>
    ensures nobody { result ≢ Err HouseFault.Nobody }
    ensures busy { result ≢ Err HouseFault.Busy }
    ensures nothing { result ≡ Err HouseFault.Nothing → IsNoNext core.old (job_of copy.entry) }
    ensures memory { result ≡ Err HouseFault.NoMemory → HasNoRoom core.old copy.entry.key.seat }
    ensures puts { IfOk result (λ why. CorePuts core.old (job_of copy.entry) core.new why) }
    ensures load { OnOk result (load core.new ≤ load core.old + 4) }
    ensures refused { OnErr result (core.new ≡ core.old) }
{
    if !core.may_put(copy.key, copy.mailbox) {
        return Err(HouseFault::Nothing);
    }
    Ok(core.put(copy.key, copy.mailbox, copy.text, copy.flags)?)
}

// Puts the next copy of whoever is at a seat.
pub(crate) fn put_next<P: Peer>(
    core: &mut DeliveryCore,
    occupant: &Option<P>,
) -> Result<Option<Refusal>, HouseFault>
    ensures nobody { (result ≡ Err HouseFault.Nobody) ↔ (occupant.now ≡ None) }
    ensures busy { result ≢ Err HouseFault.Busy }
    ensures nothing { result ≡ Err HouseFault.Nothing
        → (p : P) × (occupant.now ≡ Some p) × MayNotPut core.old (P.due p) }
    ensures memory { result ≡ Err HouseFault.NoMemory
        → (p : P) × (occupant.now ≡ Some p) × CannotNote core.old (P.due p) }
    ensures puts { IfOk result (λ why. (p : P) × (occupant.now ≡ Some p)
        × PutsNext core.old (P.due p) core.new why) }
    ensures load { OnOk result (load core.new ≤ load core.old + 4) }
    ensures refused { OnErr result (core.new ≡ core.old) }
{
    let Some(peer) = occupant else {
        return Err(HouseFault::Nobody);
    };
    let Some(copy) = peer.next_copy() else {
        return Err(HouseFault::Nothing);
    };
    put_copy(core, copy)
}

// The next copy of whoever is at a seat was put, and this was heard of it at once.
pub(crate) fn notes_put<P: Peer>(occupant: &mut Option<P>, why: Option<Refusal>)
    requires { IfSome occupant.old (λ p. 0 < length (P.due p)) }
    ensures { occupant.new ≡ option_map (P.noted_put (heard_verdict why)) occupant.old }
{
    let verdict = why.map(Verdict::Refused);
    if let Some(peer) = occupant {
        peer.note_put(verdict);
    }
}

// Whoever is at a seat hears a verdict.
pub(crate) fn hears<P: Peer>(occupant: &mut Option<P>, noted: &Noted)
    ensures { MatchOption occupant.old (occupant.new
        ≡ None) (λ p. IsSomeAnd occupant.new (P.heard p noted.now)) }
{
    if let Some(peer) = occupant {
        peer.hear(noted);
    }
}
