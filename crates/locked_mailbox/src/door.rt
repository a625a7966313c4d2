//! The door to what lies behind a lock: the lock is taken, what is given is called once with what is found, and the lock is let go. So what one
//! hold does is what the closure says of it, and nothing more.

ghost use Rattle.std.specs.Prelude.{◌≡◌};
ghost use Rattle.std.specs.Fn.{FnOnceReturnsAtMut};
ghost use Rattle.locked_mailbox.specs.Locking.{InOneHold, ReturnsLent};

use std::sync::{Mutex, Wait};

/// Takes a lock, calls `once` with what is found, and lets go.
pub fn under<V, R: Wait, T, F: FnOnce(&mut V) -> T>(rt: &R, lock: &Mutex<V>, once: F) -> T
    // It may be called, whatever is found.
    requires { F.IsAlwaysCallable once }
    // What is answered is what the call answers that found one value, and left one.
    ensures { InOneHold (λ found left. FnOnceReturnsAtMut F.FnOnce once found result left) }
{
    let mut held = lock.lock(rt);
    once(&mut held)
}

/// The same, where something more is lent to the call.
pub fn under_with<V, R: Wait, A, T, F: FnOnce(&mut V, &mut A) -> T>(
    rt: &R,
    lock: &Mutex<V>,
    lent: &mut A,
    once: F,
) -> T
    requires { F.IsAlwaysCallable once }
    ensures { InOneHold (λ found left.
        ReturnsLent F.FnOnce once found lent.old result left lent.new) }
{
    let mut held = lock.lock(rt);
    once(&mut held, lent)
}
