//! How a value that isn't to be dropped gets into a thread and out of it, and up to which actor there
//! are threads. What is in a parcel, and who starts a thread, stands elsewhere.

ghost use Rattle.std.specs.Prelude.{◌≡◌};
ghost use Rattle.std.specs.Mem.{manually_drop_value};

use std::mem::ManuallyDrop;
use std::sync::atomic::{AtomicU64, Ordering};

/// The first shard, and the first producer, that has no thread. Those before them have one. A flag would
/// not do: a consumer that was started and hadn't looked yet would step aside too, and whoever ends a
/// permit on its full lane would wait for ever.
#[derive(Drop)]
pub(crate) struct Manned {
    pub(crate) shards: AtomicU64,
    pub(crate) producers: AtomicU64,
}

// Notes the first that has no thread. Only the thread that starts the others writes it.
pub(crate) fn mark(first: &AtomicU64, number: u8) {
    let number = u64::from(number);
    if number < first.load(Ordering::SeqCst) {
        first.store(number, Ordering::SeqCst);
    }
}

/// A value that isn't to be dropped, for a closure to hold or a thread to return: those may hold only
/// what may be dropped. Whoever gets it takes the value out.
pub(crate) fn packed<T>(value: T) -> ManuallyDrop<T>
    ensures { manually_drop_value result ≡ value }
{
    unsafe { ManuallyDrop::new_unchecked(value) }
}
