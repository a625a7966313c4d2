//! What the threads left is taken apart, part by part, each part into a list of its own in the order of
//! the actors. Nothing is closed or compared here.

ghost use Rattle.std.specs.Prelude.{◌≡◌, ◌<◌, ◌++◌, ◌∷◌, [], None, map, vec_len, vec_capacity};
ghost use Rattle.reckoning.specs.Gathered.{AreConsumers, AreWorkers, IsRoomForConsumers, IsRoomForWorkers, fault_of_consumer, fault_of_fate, graver, gravest};

use delivery_token::{Job, WorkerLog};
use house_history::{Answer, Letter, Naming};
use lane_work::{Consumed, Fate, Worked};
use shard_queue::{ConsumerPermit, Ended, Entry, ReceiverPermit, SenderEnded};
use std::alloc::AllocError;

/// Why what the threads left is no report.
#[derive(Clone, Copy, Debug, PartialEq, Eq)]
pub enum Fault {
    /// A producer never had a thread.
    Spawn,
    /// An actor wanted memory.
    NoMemory,
    /// A producer heard what it didn't await, a consumer met a copy that was nobody's, or behind a mailbox's lock lay another one.
    Torn,
}

impl From<AllocError> for Fault {
    ghost use Rattle.reckoning.specs.declared.gather.Fault.{Fault};

    ghost from_gives = { λ _ fault. fault ≡ Fault.NoMemory };

    fn from(_error: AllocError) -> Fault {
        Fault::NoMemory
    }
}

/// What the producers left, by their numbers.
pub struct FromWorkers<B: Naming> {
    /// Of each, what is left of its permit on each lane.
    pub hands: Vec<Vec<Ended<Letter<B>>>>,
    /// Of each, its end of its reply channel.
    pub receivers: Vec<ReceiverPermit<Answer<B>>>,
    /// Of each, what it said: of a worker the replies to each connection, of a session one text.
    pub replies: Vec<Vec<Vec<u8>>>,
    /// Of each, the verdicts on its copies.
    pub logs: Vec<WorkerLog>,
}

/// What the consumers left, by their shards.
pub struct FromConsumers<B: Naming> {
    /// Of each, its end of its lane.
    pub permits: Vec<ConsumerPermit<Letter<B>>>,
    /// Of each, what is left of its permit on each reply channel.
    pub hands: Vec<Vec<SenderEnded<Answer<B>>>>,
    /// Of each, the entries that it took, in order.
    pub taken: Vec<Vec<Entry<Job>>>,
}

// The fault of a fate, if it is one.
fn fault_of(fate: Fate) -> Option<Fault>
    ensures { result ≡ fault_of_fate fate }
{
    match fate {
        Fate::Whole => None,
        Fate::NotBegun => Some(Fault::Spawn),
        Fate::NoMemory => Some(Fault::NoMemory),
        Fate::Torn => Some(Fault::Torn),
    }
}

// The graver of two faults: Spawn before NoMemory, NoMemory before Torn.
pub(crate) fn graver(one: Option<Fault>, other: Option<Fault>) -> Option<Fault>
    ensures { result ≡ graver one other }
{
    match one {
        None | Some(Fault::Torn) => match other {
            None => one,
            Some(fault) => Some(fault),
        },
        Some(Fault::NoMemory) => match other {
            Some(Fault::Spawn) => other,
            _ => one,
        },
        Some(Fault::Spawn) => one,
    }
}

// Lays a producer's parts behind those of the producers before it.
fn lay_worker<B: Naming>(worked: Worked<B>, into: &mut FromWorkers<B>) -> Fate
    requires hands { vec_len into.old.hands < vec_capacity into.old.hands }
    requires receivers { vec_len into.old.receivers < vec_capacity into.old.receivers }
    requires replies { vec_len into.old.replies < vec_capacity into.old.replies }
    requires logs { vec_len into.old.logs < vec_capacity into.old.logs }
    ensures hands { (into.new.hands.items ≡ into.old.hands.items ++ worked.ended ∷ [])
        × (vec_capacity into.new.hands ≡ vec_capacity into.old.hands) }
    ensures receivers { (into.new.receivers.items
        ≡ into.old.receivers.items ++ worked.receiver ∷ []) ×
        (vec_capacity into.new.receivers ≡ vec_capacity into.old.receivers) }
    ensures replies { (into.new.replies.items ≡ into.old.replies.items ++ worked.replies ∷ []) ×
        (vec_capacity into.new.replies ≡ vec_capacity into.old.replies) }
    ensures logs { (into.new.logs.items ≡ into.old.logs.items ++ worked.log ∷ [])
        × (vec_capacity into.new.logs ≡ vec_capacity into.old.logs) }
    ensures fate { result ≡ worked.fate }
{
    let Worked {
        ended,
        receiver,
        replies,
        log,
        dispatch: _,
        fate,
    } = worked;
    into.hands.push_reserved(ended);
    into.receivers.push_reserved(receiver);
    into.replies.push_reserved(replies);
    into.logs.push_reserved(log);
    fate
}

/// Takes apart what the producers left; `into` is empty and has room for all. Answers the gravest fault
/// of a producer, if one has any.
pub fn gather_workers<B: Naming>(
    mut worked: Vec<Worked<B>>,
    into: &mut FromWorkers<B>,
) -> Option<Fault>
    requires room { IsRoomForWorkers (vec_len worked) into.old }

    // `into` has the producers' parts in their order, and the gravest fault is answered, if one had any.
    ensures parts { AreWorkers worked.items into.new }
    ensures fault { result ≡ gravest None (map (λ w. fault_of_fate w.fate) worked.items) }
{
    let mut worst = None;
    for _ in 0..worked.len() {
        let fate = lay_worker(worked.remove(0), into);
        worst = graver(worst, fault_of(fate));
    }
    worked.destroy_empty();
    worst
}

// Lays a consumer's parts behind those of the consumers before it, and answers its fault.
fn lay_consumer<B: Naming>(consumed: Consumed<B>, into: &mut FromConsumers<B>) -> Option<Fault>
    requires permits { vec_len into.old.permits < vec_capacity into.old.permits }
    requires hands { vec_len into.old.hands < vec_capacity into.old.hands }
    requires taken { vec_len into.old.taken < vec_capacity into.old.taken }
    ensures permits { (into.new.permits.items ≡ into.old.permits.items ++ consumed.permit ∷ []) ×
        (vec_capacity into.new.permits ≡ vec_capacity into.old.permits) }
    ensures hands { (into.new.hands.items ≡ into.old.hands.items ++ consumed.senders ∷ []) ×
        (vec_capacity into.new.hands ≡ vec_capacity into.old.hands) }
    ensures taken { (into.new.taken.items ≡ into.old.taken.items ++ consumed.taken ∷ []) ×
        (vec_capacity into.new.taken ≡ vec_capacity into.old.taken) }
    ensures fault { result ≡ fault_of_consumer consumed }
{
    let Consumed {
        permit,
        senders,
        taken,
        kept,
        torn,
    } = consumed;
    into.permits.push_reserved(permit);
    into.hands.push_reserved(senders);
    into.taken.push_reserved(taken);
    if !kept {
        return Some(Fault::NoMemory);
    }
    if torn { Some(Fault::Torn) } else { None }
}

/// Takes apart what the consumers left; `into` is empty and has room for all. Answers the gravest fault
/// of a consumer, if one has any.
pub fn gather_consumers<B: Naming>(
    mut consumed: Vec<Consumed<B>>,
    into: &mut FromConsumers<B>,
) -> Option<Fault>
    requires room { IsRoomForConsumers (vec_len consumed) into.old }

    // `into` has the consumers' parts in their order, and the gravest fault is answered, if one had any.
    ensures parts { AreConsumers consumed.items into.new }
    ensures fault { result ≡ gravest None (map fault_of_consumer consumed.items) }
{
    let mut worst = None;
    for _ in 0..consumed.len() {
        let fault = lay_consumer(consumed.remove(0), into);
        worst = graver(worst, fault);
    }
    consumed.destroy_empty();
    worst
}
