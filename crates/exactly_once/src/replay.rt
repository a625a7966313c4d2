//! Any list of events in a house, one after another, and what is promised of them all. What one event does is the house's matter.

ghost use Rattle.std.specs.Prelude.{[], ◌∷◌, OnErr, OnOk};
ghost use Rattle.house.specs.Setup.{Setup};
ghost use Rattle.exactly_once.specs.Promise.{CameOnce, TriedFrom, TriedInPart};
ghost use Rattle.house.specs.Scene.{Scene, empty_scene};
ghost use Rattle.house.specs.Stands.{StandsFor};
ghost use Rattle.house.specs.Steps.{FollowsInPart};

use house::{Event, House, HouseFault};
use std::alloc::AllocError;

// An event is tried; one that is refused changes nothing.
fn try_event(house: &mut House, event: Event<'_>, out: &mut Vec<u8>) -> Result<(), AllocError>
    ensures tried { OnOk result ((k : Setup) (s : Scene) → StandsFor k house.old s →
        TriedFrom k (event.entry ∷ []) house.old s house.new out.old.items out.new.items) }
    ensures wanting { OnErr result
        (FollowsInPart house.old event.entry house.new out.old.items out.new.items) }
{
    match house.step(event, out) {
        Ok(()) => Ok(()),
        Err(HouseFault::NoMemory) => Err(AllocError),
        Err(HouseFault::Nobody) => Ok(()),
        Err(HouseFault::Busy) => Ok(()),
        Err(HouseFault::Nothing) => Ok(()),
    }
}

/// Tries events in a house, one after another; what they print is appended to `out`. One that is refused changes nothing, and the next is
/// tried.
///
/// Where the house was new, each recipient copy that was answered 250 on the way stands in its mailbox's history exactly once, under one
/// UID, and the copies of each connection in the order in which it sent them; no copy was taken from a shard after its close, which is when
/// the end of each of its producers was taken; and what a session was shown since its SELECT is exactly the mailbox's changes up to its
/// cursor, in order. So it is whatever the events were and however they were mixed, and also after an error.
///
/// Errors: `AllocError` where memory was wanting as an event was tried. That one happened in part or not at all, those before it were tried as
/// ever, and those behind it weren't. What happened by then stands.
pub fn play(house: &mut House, events: &[Event<'_>], out: &mut Vec<u8>) -> Result<(), AllocError>
    // Each event happened, or was refused and changed nothing, from each scene for which the house stood.
    ensures tried { OnOk result ((k : Setup) (s : Scene) → StandsFor k house.old s →
        TriedFrom k events.now house.old s house.new out.old.items out.new.items) }

    // From each such scene, after an error: the first events were tried so, the next happened in part or not at all, and nothing else happened.
    ensures wanting { OnErr result ((k : Setup) (s : Scene) → StandsFor k house.old s →
        TriedInPart k events.now house.old s house.new out.old.items out.new.items) }

    // In a house that was new, also after an error: some of the events happened, in their order, and what was printed is exactly-once delivery.
    ensures once { (k : Setup) → StandsFor k house.old (empty_scene k)
        → CameOnce k events.now house.new out.old.items out.new.items }
{
    for event in events {
        try_event(house, *event, out)?;
    }
    Ok(())
}
