//! The copies among what was taken from the lanes, which are compared with the mailboxes. The ends do
//! not belong there.

ghost use Rattle.std.specs.Prelude.{◌≡◌, ◌≤◌, ◌++◌, IfOk, length, map};
ghost use Rattle.lane_work.specs.Consuming.{items_of};

use delivery_token::Job;
use shard_queue::Entry;
use std::alloc::{AllocError, Global};

// The copies among what was taken from one lane. The only error is that memory is refused.
fn copies_in(alloc: Global, taken: Vec<Entry<Job>>) -> Result<Vec<Job>, AllocError>
    ensures { IfOk result (λ copies. copies.items ≡ items_of taken.items) }
{
    let mut copies = Vec::new(alloc);
    for entry in taken {
        if let Entry::Item(_, job) = entry {
            copies.push(job)?;
        }
    }
    Ok(copies)
}

/// The copies among what was taken from each lane, in order. The only error is that memory is refused.
pub(crate) fn all_copies(
    alloc: Global,
    taken: Vec<Vec<Entry<Job>>>,
) -> Result<Vec<Vec<Job>>, AllocError>
    ensures { IfOk result (λ copies. map (λ c. c.items) copies.items
        ≡ map (λ t. items_of t.items) taken.items) }
{
    let mut copies = Vec::with_capacity(alloc, taken.len())?;
    for one in taken {
        copies.push(copies_in(alloc, one)?)?;
    }
    Ok(copies)
}
