//! The history of a house, as its threads know it: one list of events for all mailboxes and seats. It is there in proofs alone: at
//! run time a token is its number, or nothing, and a call that tells of an event does nothing.
//!
//! - An *event* is what happened to a copy or to a mailbox (`Event`). A history is legal where `HouseRule` holds of it.
//! - A *front* is a beginning of the history that somebody has seen. It may be copied, and it only goes on.
//! - A *seat* is where copies are sent from. Who has its `Seat` says what it sends, and knows all that it has sent.
//! - A *ticket* is a copy's own: who has it says what becomes of the copy. So nobody can say it twice.
//! - A *mailbox part* is a mailbox's share of the history. Who has it says what happens there, and knows all that has happened there.
//! - A *letter* is a copy with its ticket, which has been sent; an *answer* is what is noted of a copy, with a front that shows it.
#![tactic(auto)]

mod event;
mod front;
mod laws;
mod letters;
mod mailbox_part;
mod opening;
mod seat;

pub use event::{Event, Step};
pub use front::{Front, HouseRule, Naming};
pub use laws::{
    accepted_in_order, accepted_was_stored, judged_as_sent, judged_in_the_order_sent, no_key_twice,
    noted_is_own, one_copy_of_a_uid, one_verdict, refused_stands_nowhere, settled_is_final,
    stands_once, uid_fits, uids_fit, uids_rise, withdrawn_never_judged,
};
pub use letters::{Answer, Letter};
pub use mailbox_part::MailboxPart;
pub use opening::{MailboxParts, Opened, Seats};
pub use seat::{Seat, Ticket, Tickets};
