//! The world of the post house, as lists and numbers, and what holds of it whatever happens. Laws
//! about definitions alone: the code that makes the events stands in the crates above.
#![tactic(auto)]

pub mod hand;

ghost use Rattle.std.specs.Prelude.{◌≡◌, [], ◌∷◌, Some};
ghost use Rattle.change_ring.specs.declared.change.Change.TheVariants.{Add};
ghost use Rattle.world.specs.First.{one_house, one_copy, one_reply, one_run};
ghost use Rattle.world.specs.Known.{WhatWaits};
ghost use Rattle.world.specs.Law.{Always, Headline};
ghost use Rattle.world.specs.Refusals.{FullIsNotShut, ShutComesFirst};
ghost use Rattle.world.specs.World.{Allowed, Config, Event, IsWorld, Step, World};

/// Over every list of events, so over every interleaving of the actors: each copy that was heard as
/// stored stands in its mailbox's history exactly once, under one UID, with the text that was put,
/// and each seat's copies in the order it sent them; a copy that was heard as refused stands in no
/// history, and no copy has two verdicts; nothing is taken from a shard after its close, which is when
/// the end of each of its producers was taken; and what a session was shown since it selected is exactly
/// the mailbox's changes up to its cursor, in order.
pub fn in_every_world()
    ensures { Always Headline }
{}

/// An event that is allowed has an outcome in each world, and one that has an outcome is allowed.
pub fn each_allowed_event_happens()
    ensures outcome { (k : Config) (w : World) (e : Event) → Allowed k w e
        → (v : World) × Step k w e v }
    ensures allowed { (k : Config) (w : World) (e : Event) (v : World) → Step k w e v
        → Allowed k w e }
{}

/// One run: a session selects an empty mailbox, a copy goes from its seat to that mailbox and is
/// heard as stored, and the session is shown it.
pub fn one_run_happens()
    ensures { (w : World) × IsWorld one_house one_run w × (w.heard 0 ≡ one_reply ∷ [])
        × (w.box 0 ≡ record { log = Add 1 ∷ []; base = 0; accepted = (one_copy, 1) ∷ [] })
        × (w.session 0 ≡ Some (record { mailbox = 0; start = 0; cursor = 1; shown = Add 1 ∷ [] })) }
{}

/// Two worlds in which a put is refused, each for one reason alone: a seat that has put its end into
/// the lane hears that it is shut, though the lane is full too, and one that has not hears that the
/// lane is full.
pub fn a_put_is_refused_for_its_reason()
    ensures shut { ShutComesFirst }
    ensures full { FullIsNotShut }
{}

/// In every world, each copy and each verdict that waits or is in a hand has a key that its seat
/// sent, of a seat and for a mailbox that are there, and no reply lane has ended.
pub fn what_waits_was_sent()
    ensures { Always WhatWaits }
{}
