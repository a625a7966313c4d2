//! What all threads of a run share. Who starts them stands in `consumers` and `producers`, and how far they are started in `parcels`.

use crate::parcels::Manned;
use house_history::Naming;
use house_shared::{Guest, HouseShared};
use workers_sync::Gate;

/// What all threads of a run share. It goes by value: a closure that captured a reference to it would promise nothing of what its
/// thread returns.
#[derive_where(Clone, Copy)]
pub(crate) struct Common<'s, B: Naming, G: Gate> {
    /// The lanes, the mailboxes and the channels of the house.
    pub(crate) shared: &'s HouseShared<B>,
    /// Where each actor waits for its turn.
    pub(crate) gate: &'s G,
    /// For each worker, for each of its connections, the bytes that come.
    pub(crate) plans: &'s [Vec<Vec<u8>>],
    /// The sessions, whose numbers follow the workers'.
    pub(crate) guests: &'s [Guest],
    /// Up to which actor of each kind there are threads.
    pub(crate) manned: &'s Manned,
}
