//! How a value that isn't to be dropped gets into a thread and out of it. What is in a parcel stands elsewhere.

ghost use Rattle.std.specs.Prelude.{◌≡◌};
ghost use Rattle.std.specs.Mem.{manually_drop_value};

use std::mem::ManuallyDrop;

/// A value that isn't to be dropped, for a closure to hold or a thread to return: those may hold only what may be dropped. Whoever gets
/// it takes the value out.
pub fn packed<T>(value: T) -> ManuallyDrop<T>
    ensures { manually_drop_value result ≡ value }
{
    unsafe { ManuallyDrop::new_unchecked(value) }
}
