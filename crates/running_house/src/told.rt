//! What a mailbox accepted, beside what the workers heard of it: keys and UIDs alone. The messages'
//! texts do not belong here.

ghost use Rattle.std.specs.Prelude.{◌≡◌, ◌<◌, ◌↔◌, All, IfOk, IsTrue, map};
ghost use Rattle.delivery_token.specs.Copies.{stored_in};
ghost use Rattle.running_house.specs.Lists.{AreTold, IsTold, Rise, keys_of, of_seat};

use delivery_token::{CopyKey, WorkerLog, precedes};
use std::alloc::{AllocError, Global};

/// The accepted copies of one seat, in their order.
fn of_seat(
    alloc: Global,
    seat: usize,
    accepted: &[(CopyKey, u32)],
) -> Result<Vec<(CopyKey, u32)>, AllocError>
    ensures { IfOk result (λ v. v.items ≡ of_seat seat accepted.now) }
{
    accepted
        .iter()
        .filter(|pair| usize::from(pair.0.seat) == seat)
        .copied()
        .collect(alloc)
}

/// Whether each key comes before the next.
fn rise(pairs: &[(CopyKey, u32)]) -> bool
    ensures { IsTrue result ↔ Rise (keys_of pairs.now) }
{
    let mut last: Option<CopyKey> = None;
    for pair in pairs {
        if let Some(before) = last {
            if !precedes(&before, &pair.0) {
                return false;
            }
        }
        last = Some(pair.0);
    }
    true
}

/// Whether each is of one of so many workers.
fn are_owned(accepted: &[(CopyKey, u32)], workers: usize) -> bool
    ensures { IsTrue result ↔ All (λ pair. pair.0.seat < workers) accepted.now }
{
    accepted
        .iter()
        .all(|pair| usize::from(pair.0.seat) < workers)
}

/// Whether these are the same keys with the same UIDs.
fn are_same(some: &[(CopyKey, u32)], others: &[(CopyKey, u32)]) -> bool
    ensures { IsTrue result ↔ (some.now ≡ others.now) }
{
    some == others
}

/// Whether what a mailbox accepted of one worker is what that worker heard.
fn is_told(
    alloc: Global,
    mailbox: u8,
    accepted: &[(CopyKey, u32)],
    seat: usize,
    log: &WorkerLog,
) -> Result<bool, AllocError>
    ensures { IfOk result (λ b. IsTrue b ↔ IsTold mailbox accepted.now seat log.now.notes) }
{
    let accepted_of_it = of_seat(alloc, seat, accepted)?;
    let stored = log.stored_in(alloc, mailbox)?;
    Ok(are_same(accepted_of_it.as_slice(), stored.as_slice()) && rise(accepted_of_it.as_slice()))
}

/// Whether what a mailbox accepted is what the workers heard, and is theirs alone.
pub(crate) fn are_told(
    alloc: Global,
    logs: &[WorkerLog],
    mailbox: u8,
    accepted: &[(CopyKey, u32)],
) -> Result<bool, AllocError>
    ensures { IfOk result (λ b. IsTrue b
        ↔ AreTold (map (λ l. l.notes) logs.now) mailbox accepted.now) }
{
    if !are_owned(accepted, logs.len()) {
        return Ok(false);
    }
    for seat in 0..logs.len() {
        if !is_told(alloc, mailbox, accepted, seat, &logs[seat])? {
            return Ok(false);
        }
    }
    Ok(true)
}
