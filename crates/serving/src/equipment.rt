//! What the threads of a server use, made before the first of them. What they do with it stands elsewhere.

ghost use Rattle.std.specs.Prelude.{◌≡◌, ◌≤◌, ◌<◌, ◌+◌, [], All, IfOk, length, vec_len, vec_capacity};
ghost use Rattle.serving_workers.specs.Leaving.{IsOutfit, IsFresh};

use crate::sessions::Ear;
use crate::visiting::{Sign, signs_of};
use crate::watch::{Lookout, Watch};
use house_history::Naming;
use house_shared::HouseShared;
use imap_stream::Rows;
use lane_work::Buffers;
use locked_mailbox::LockedMailbox;
use server_report::Presence;
use serving_workers::{Line, Lines, Outfit, Served};
use shared_consumers::{ConsumerSet, LaneGroup};
use std::alloc::{AllocError, Global};
use std::sync::Arc;
use workers_sync::{Listening, SessionParker, ShutdownHandle};

/// So many bytes of a mail connection are read at once, until more comes.
const MAIL_BUFFER: usize = 4_096;

/// So many bytes of a mail client are read at once: each client slot has that much room, also while its client is silent, and more while it sends more.
const CLIENT_BUFFER: usize = 256;

// Room for a connection: so many bytes are read at once. The number is a parameter, since a proof would count up to a constant.
fn buffer_of(alloc: Global, size: usize) -> Result<Buffers, AllocError>
    requires { 0 < size }
    ensures { IfOk result (λ b. 0 < length b.input.items) }
{
    Ok(Buffers {
        input: vec![in alloc; 0; size]?,
        output: Vec::new(alloc),
    })
}

// What a worker takes mail in with, which has this line.
fn outfit_of<L: Line>(alloc: Global, line: L) -> Result<Outfit<L>, AllocError>
    requires { IsFresh (L.told line) }
    ensures { IfOk result (IsOutfit L.told) }
{
    let buffers = buffer_of(alloc, MAIL_BUFFER)?;
    Ok(Outfit { line, buffers })
}

// The same for each of these lines.
fn outfits_for<L: Line>(alloc: Global, lines: Vec<L>) -> Result<Vec<Outfit<L>>, AllocError>
    requires { All (λ line. IsFresh (L.told line)) lines.items }
    ensures count { IfOk result (λ os. vec_len os ≡ vec_len lines) }
    ensures each { IfOk result (λ os. All (λ o. IsOutfit L.told o) os.items) }
{
    let mut all = Vec::with_capacity(alloc, lines.len())?;
    for line in lines {
        all.push_reserved(outfit_of(alloc, line)?);
    }
    Ok(all)
}

// So many shutdown handles with no connection.
fn shutdown_handles_for(alloc: Global, count: usize) -> Result<Vec<ShutdownHandle>, AllocError>
    ensures { IfOk result (λ shutdown_handles. vec_len shutdown_handles ≡ count) }
{
    let mut all = Vec::with_capacity(alloc, count)?;
    for _ in 0..count {
        all.push_reserved(ShutdownHandle::new());
    }
    Ok(all)
}

/// What each of so many workers shows while it has no connection at hand. An error where memory is refused.
pub(crate) fn presences_of(alloc: Global, count: usize) -> Result<Vec<Presence>, AllocError> {
    let mut all = Vec::with_capacity(alloc, count)?;
    for _ in 0..count {
        all.push(Presence::new())?;
    }
    Ok(all)
}

/// A shutdown handle for each thread that serves connections.
#[derive(Drop)]
pub(crate) struct ShutdownHandles {
    /// The workers'.
    pub(crate) mail: Vec<ShutdownHandle>,
    /// The client slots'.
    pub(crate) clients: Vec<ShutdownHandle>,
}

/// The shutdown handles of so many workers and client slots, with no connection. An error where memory is refused.
pub(crate) fn shutdown_handles_of_all(
    alloc: Global,
    workers: usize,
    client_slots: usize,
) -> Result<ShutdownHandles, AllocError>
    ensures { IfOk result (λ g. (vec_len g.mail ≡ workers) × (vec_len g.clients ≡ client_slots)) }
{
    Ok(ShutdownHandles {
        mail: shutdown_handles_for(alloc, workers)?,
        clients: shutdown_handles_for(alloc, client_slots)?,
    })
}

/// What the threads take in with what comes.
#[derive(Drop)]
pub(crate) struct Equipment<L> {
    /// For each worker.
    pub(crate) outfits: Vec<Outfit<L>>,
    /// For each client slot's clients.
    pub(crate) client_buffers: Vec<Vec<u8>>,
}

// The same for each client slot's clients.
fn client_buffers_for(alloc: Global, client_slots: usize) -> Result<Vec<Vec<u8>>, AllocError>
    ensures { IfOk result (λ bs. vec_len bs ≡ client_slots) }
{
    let mut all = Vec::with_capacity(alloc, client_slots)?;
    for _ in 0..client_slots {
        all.push_reserved(vec![in alloc; 0; CLIENT_BUFFER]?);
    }
    Ok(all)
}

/// What workers with these lines and so many client slots take in with. An error where memory is refused.
fn equip<L: Line>(
    alloc: Global,
    lines: Vec<L>,
    client_slots: usize,
) -> Result<Equipment<L>, AllocError>
    requires { All (λ line. IsFresh (L.told line)) lines.items }
    ensures outfits { IfOk result (λ e. All (λ o. IsOutfit L.told o) e.outfits.items
        × (vec_len e.outfits ≡ vec_len lines)) }
    ensures clients { IfOk result (λ e. vec_len e.client_buffers ≡ client_slots) }
{
    Ok(Equipment {
        outfits: outfits_for(alloc, lines)?,
        client_buffers: client_buffers_for(alloc, client_slots)?,
    })
}

// An ear for each of these bells, in the order of the client slots.
fn ears_of(alloc: Global, mut bells: Vec<SessionParker>) -> Result<Vec<Ear>, AllocError>
    requires { vec_len bells < 256 }
    ensures { IfOk result (λ ears. vec_len ears ≡ vec_len bells) }
{
    let count = bells.len();
    let mut ears = Vec::with_capacity(alloc, count)?;
    for client_slot in 0..count {
        let bell = bells.remove(0);
        let idles = bell.idling()?;
        ears.push_reserved(Ear {
            client_slot: client_slot as u8,
            bell,
            idles,
            waits: 0,
        });
    }
    Ok(ears)
}

/// All that is made before the first thread.
pub(crate) struct Rooms<B: Naming, H: LaneGroup, L> {
    pub(crate) shutdown_handles: ShutdownHandles,
    pub(crate) watch: Watch,
    pub(crate) rows: Rows,
    /// For each client slot.
    pub(crate) ears: Vec<Ear>,
    pub(crate) equipment: Equipment<L>,
    pub(crate) served: Vec<Served<B, L>>,
    pub(crate) consumer_set: ConsumerSet<B, H>,
    pub(crate) signs: Vec<Sign>,
    pub(crate) presences: Vec<Presence>,
    /// For the mailboxes, once they are out of their locks.
    pub(crate) unlocked: Vec<LockedMailbox<B>>,
    /// For the producers' lines, once nobody comes in there any more.
    pub(crate) lines: Vec<Option<L>>,
}

/// What so many workers and client slots of a house want before the first thread; the client slots have these bells, and the workers' lines are at that
/// listener. An error where memory is refused.
pub(crate) fn make_rooms<B: Naming, H: LaneGroup, L: Line, D: Lines<L> + Drop>(
    shared: &HouseShared<B>,
    mail: D,
    lmtp: &Arc<Listening>,
    workers: usize,
    bells: Vec<SessionParker>,
    lookout: &Lookout,
) -> Result<Rooms<B, H, L>, AllocError>
    requires few { workers + vec_len bells < 256 }
    ensures outfits { IfOk result (λ r. All (λ o. IsOutfit L.told o) r.equipment.outfits.items
        × (vec_len r.equipment.outfits ≡ workers)) }
    ensures shutdown_handles { IfOk result (λ r. (vec_len r.shutdown_handles.mail ≡ workers)
        × (vec_len r.shutdown_handles.clients ≡ vec_len bells)) }
    ensures clients { IfOk result (λ r. vec_len r.equipment.client_buffers ≡ vec_len bells) }
    ensures ears { IfOk result (λ r. vec_len r.ears ≡ vec_len bells) }
    ensures served { IfOk result (λ r. (r.served.items ≡ [])
        × (workers + vec_len bells ≤ vec_capacity r.served)) }
    ensures shared_consumers { IfOk result (λ r. (r.consumer_set.shared_consumers.items ≡ [])
        × (length shared.now.intake.lanes.items ≤ vec_capacity r.consumer_set.shared_consumers)) }
    ensures rooms { IfOk result (λ r. (r.consumer_set.rooms.items ≡ [])
        × (length shared.now.intake.lanes.items ≤ vec_capacity r.consumer_set.rooms)) }
    ensures stands { IfOk result (λ r. (r.consumer_set.stands.items ≡ [])
        × (length shared.now.intake.lanes.items ≤ vec_capacity r.consumer_set.stands)) }
    ensures unlocked { IfOk result (λ r. (r.unlocked.items ≡ [])
        × (vec_len shared.now.delivery.mailboxes ≤ vec_capacity r.unlocked)) }
    ensures lines { IfOk result (λ r. (r.lines.items ≡ [])
        × (workers + vec_len bells ≤ vec_capacity r.lines)) }
{
    let alloc = shared.alloc;
    let client_slots = bells.len();
    let shutdown_handles = shutdown_handles_of_all(alloc, workers, client_slots)?;
    let equipment = equip(alloc, mail.lines(alloc, lmtp, workers)?, client_slots)?;
    let signs = signs_of(alloc, &bells)?;
    let Ok(watch) = Watch::new(alloc, lookout, &bells) else {
        return Err(AllocError);
    };
    let rows = Rows::new(alloc)?;
    let ears = ears_of(alloc, bells)?;
    let presences = presences_of(alloc, workers)?;
    let unlocked = Vec::with_capacity(alloc, shared.delivery.mailboxes.len())?;
    let lines = Vec::with_capacity(alloc, workers + client_slots)?;
    let served = Vec::with_capacity(alloc, workers + client_slots)?;
    let Ok(consumer_set) = ConsumerSet::with_room(alloc, shared.intake.lanes.len()) else {
        served.destroy_empty();
        return Err(AllocError);
    };
    Ok(Rooms {
        shutdown_handles,
        watch,
        rows,
        ears,
        equipment,
        served,
        consumer_set,
        signs,
        presences,
        unlocked,
        lines,
    })
}
