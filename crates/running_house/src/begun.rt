//! What is compared beside the lists, after all threads were joined: where UIDs begin.

ghost use Rattle.std.specs.Prelude.{◌≡◌};
ghost use Rattle.std.specs.List.{list_all};
ghost use Rattle.running_house.specs.inner.Begun.{begins_at};

use delivery_token::CopyKey;

// Whether the first of these copies, if there is one, has this UID.
fn begins_at(accepted: &[(CopyKey, u32)], uid: u32) -> bool
    ensures { result ≡ begins_at uid accepted.now }
{
    match accepted.split_first() {
        Some((pair, _)) => pair.1 == uid,
        None => true,
    }
}

/// Whether each mailbox gave its first copy this UID.
pub(crate) fn begin_at(accepted: &[Vec<(CopyKey, u32)>], uid: u32) -> bool
    ensures { result ≡ list_all (λ own. begins_at uid own.items) accepted.now }
{
    accepted.iter().all(|own| begins_at(own.as_slice(), uid))
}
