//! What all threads of a server share. What is dealt to each of them, and what they do, stands elsewhere.

use crate::equipment::ShutdownHandles;
use crate::limit::ClientLimit;
use crate::page::Page;
use crate::visiting::Sign;
use crate::watch::Watch;
use house_history::Naming;
use house_shared::Guest;
use imap_stream::Rows;
use serving_workers::Workplace;
use shared_consumers::{LaneGroup, Unhindered};
use workers_sync::Listening;

/// What all threads of a server share. It is made before the first of them, and taken apart when the last was joined. It owns what it
/// holds: a closure that captures a reference to a struct with borrows in it loses what is proved of its result.
pub(crate) struct Site<B: Naming, H: LaneGroup> {
    /// What workers and client slots work with.
    pub(crate) workplace: Workplace<B, H>,
    /// The gate of everybody, which holds nobody up.
    pub(crate) gate: Unhindered,
    /// The guest of each client slot, in the order of the client slots.
    pub(crate) guests: Vec<Guest>,
    /// Sessions have the compatible profile: their clients log in.
    pub(crate) compatible: bool,
    /// How many clients of each user are served at a time, in the compatible profile: in the order of the users.
    pub(crate) limits: Vec<ClientLimit>,
    /// Where each user's clients come in, in the order of the users.
    pub(crate) imap: Vec<Listening>,
    /// For the connections that threads have at hand.
    pub(crate) shutdown_handles: ShutdownHandles,
    /// What the clients' sessions are seen to do, in the order of the client slots.
    pub(crate) signs: Vec<Sign>,
    /// Where the page is asked for, if there is one.
    pub(crate) page: Option<Page>,
    /// What waits for clients whose sessions idle, and wakes their threads.
    pub(crate) watch: Watch,
    /// What clients are told waits there.
    pub(crate) rows: Rows,
}
