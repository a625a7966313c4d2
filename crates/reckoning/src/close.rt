//! What is left of all permits is collected, lane by lane, and each lane is closed: those of the shards, and
//! the reply channels. What the permits' holders did does not belong here.

ghost use Rattle.std.specs.Prelude.{◌≡◌, ◌≤◌, [], MatchOption, map, vec_len, vec_capacity};
ghost use Rattle.lane_work.specs.Rooms.{AreRooms};
ghost use Rattle.lane_work.specs.SharedLanes.{AreConsumers, AreEndedHands};
ghost use Rattle.reckoning.specs.Closing.{AreClosedOf, AreTornOf};

use lane_work::{close_lanes, collect_all};
use shard_queue::{Carrier, ClosedLane, ConsumersPermit, EndedPermit, SharedLane};
use std::alloc::Global;

/// Closes each lane with what is left of all producers' permits, a hand for each producer, and with its
/// consumer's. None only where some lane is torn. `lists` has an empty list for each lane with room for
/// all producers, `closed` has room for all lanes.
pub fn close_all<C: Carrier>(
    alloc: Global,
    lanes: Vec<SharedLane<C>>,
    hands: Vec<Vec<EndedPermit<C::Pass>>>,
    consumers: Vec<ConsumersPermit<C::Pass>>,
    mut lists: Vec<Vec<EndedPermit<C::Pass>>>,
    closed: Vec<ClosedLane<C::Pass>>,
) -> Option<Vec<ClosedLane<C::Pass>>>
    // Hand p has producer p's ended permits, one on each lane, and the i-th consumer's permit is the i-th lane's.
    requires hands { AreEndedHands C.view C.is_of lanes.items 0 (map (λ h. h.items) hands.items) }
    requires consumers { AreConsumers C.view C.is_of lanes.items consumers.items }

    // There is an empty list for each lane, with room for all producers.
    requires lists { AreRooms (vec_len lanes) (vec_len hands) lists }
    requires closed { (closed.items ≡ []) × (vec_len lanes ≤ vec_capacity closed) }

    // `None`: some lane was torn. Else each lane was closed, with the ended permits of all these producers there.
    ensures { MatchOption result (AreTornOf C.view lanes.items (map (λ h.
        h.items) hands.items) consumers.items)
        (λ cs. AreClosedOf C.view (λ l. C.room l.carrier) lanes.items (map (λ h.
        h.items) hands.items) consumers.items cs.items) }
{
    collect_all(&mut lists, hands);
    close_lanes(alloc, lanes, lists, consumers, closed)
}
