//! What holds of every lane, whatever its producers and its consumer do. Laws about definitions
//! alone: no function here does anything.

ghost use Rattle.std.specs.Prelude.{◌≡◌, ◌≢◌, ℕ, ◌<◌, ◌≤◌, List, [], ◌++◌, true, false, length, None};
ghost use Rattle.shard_queue.specs.declared.lane.Entry.{Entry};
ghost use Rattle.shard_queue.specs.declared.shared.View.{View};
ghost use Rattle.shard_queue.specs.Lane.{empty_lane, of, has_end, ComesBy, IsClosed, IsMerge, Lane, Move};
ghost use Rattle.shard_queue.specs.Shared.{IsSharedBy, PermitsMerge, Saw, consumer, sender};
ghost use Rattle.shard_queue.specs.Permits.{WasEmpty, WasFull};

/// By every legal history of a lane, for any items: what was taken and what waits is a merge of
/// what the producers sent, an end is sent last, and where the end of every producer was taken
/// nothing waits.
pub fn each_lane_is_a_merge<T>()
    ensures merge { (producers room : ℕ) (history : List (Move T)) (l : Lane T)
        → ComesBy producers room empty_lane history l
        → IsMerge producers room l }
    ensures closed { (producers room : ℕ) (history : List (Move T)) (l : Lane T)
        → ComesBy producers room empty_lane history l
        → IsClosed producers l → l.waiting ≡ [] }
{}

/// Of each lane that threads share, whenever its rule holds, which is between any two atomic steps:
/// what the consumer has taken and then what waits is, of each producer, what its permit has sent; each
/// entry is a producer's, and nothing follows an end.
pub fn shared_lanes_merge<T>()
    ensures { (waiting : List (Entry T)) (permits : List (View T)) → IsSharedBy waiting permits
        → PermitsMerge waiting permits }
{}

/// What Empty and Full rule out. Where something stood behind the entry that was taken last, the next
/// take isn't Empty. Where each other producer had ended when this one last put, and fewer entries had
/// been put then, in all, than there is room for, its next put isn't Full.
pub fn empty_and_full_tell<T>()
    ensures empty { (producers room : ℕ) (got others : List (Entry T))
        → WasEmpty producers room got (got ++ others) → others ≡ [] }
    ensures full { (producers room p : ℕ) (sent seen : List (Entry T))
        → ((q : ℕ) → q < producers → q ≢ p → has_end (of q seen) ≡ true)
        → of p seen ≡ sent
        → WasFull producers room p sent seen → room ≤ length seen }
{}

/// What a permit learns by a look, when something waits or not, gives no leave to answer Empty or Full.
pub fn a_look_is_not_enough<T>()
    ensures empty { ((producers room : ℕ) (got seen waiting : List (Entry T))
        → Saw (consumer producers producers got None seen) waiting
        → WasEmpty producers room got seen) → ⊥ }
    ensures full { ((producers room p : ℕ) (sent seen waiting : List (Entry T))
        → has_end sent ≡ false
        → Saw (sender producers p sent seen) waiting → WasFull producers room p sent seen) → ⊥ }
{}
