//! What a client was shown: the UIDs that it counts, which rise. A mailbox lends them; which of them a
//! command names is told above.

ghost use Rattle.std.specs.Prelude.{◌≡◌, ◌↔◌, true, IfSome, IsSome};
ghost use Rattle.std.specs.List.Sorted.{IsStrictlyIncreasing};

use std::marker::Model;

/// The UIDs that a client counts, in their order, which rise: in contracts their list. They are borrowed
/// from whoever keeps them.
#[derive(Drop)]
pub struct View<'a> {
    uids: &'a [u32],
}

impl<'a> Model for View<'a> {
    ghost use Rattle.std.specs.Prelude.{ℕ, List};
    ghost use Rattle.std.specs.List.Sorted.{IsStrictlyIncreasing};

    ghost Value = { List ℕ };

    ghost view = { λ v. v.uids.now };

    ghost invariant = { λ v. IsStrictlyIncreasing v.uids.now };
}

// Whether each of these UIDs is above the one before it.
fn do_rise(uids: &[u32]) -> bool
    ensures { (result ≡ true) ↔ IsStrictlyIncreasing uids.now }
{
    for index in 1..uids.len() {
        if uids[index - 1] >= uids[index] {
            return false;
        }
    }
    true
}

impl<'a> View<'a> {
    /// The view of these UIDs: None where one of them isn't above the one before it. It costs a pass over
    /// them; a mailbox lends its views without one.
    pub fn of(uids: &'a [u32]) -> Option<View<'a>>
        ensures view { IfSome result (λ view. view ≡ uids.now) }
        ensures rising { IsSome result ↔ IsStrictlyIncreasing uids.now }
    {
        if do_rise(uids) {
            Some(View { uids })
        } else {
            None
        }
    }

    /// The view of UIDs that rise, which costs nothing.
    pub fn rising(uids: &'a [u32]) -> View<'a>
        requires { IsStrictlyIncreasing uids.now }
        ensures { result ≡ uids.now }
    {
        View { uids }
    }

    /// The UIDs, which rise.
    pub fn uids(&self) -> &'a [u32]
        ensures uids { result.now ≡ self.now }
        ensures rising { IsStrictlyIncreasing result.now }
    {
        self.uids
    }
}
