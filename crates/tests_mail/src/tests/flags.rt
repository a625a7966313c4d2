//! Flags that are set, inserted and removed.

use change_ring::{FlagOp, Flags, NO_FLAGS};

#[test]
fn flags_are_set_inserted_and_removed(rt: HostRuntime) {
    let seen = Flags {
        seen: true,
        ..NO_FLAGS
    };
    let deleted = Flags {
        deleted: true,
        ..NO_FLAGS
    };
    let both = Flags {
        seen: true,
        deleted: true,
        ..NO_FLAGS
    };
    assert_eq!(rt; FlagOp::Set(deleted).after(seen), deleted);
    assert_eq!(rt; FlagOp::Insert(deleted).after(seen), both);
    assert_eq!(rt; FlagOp::Insert(deleted).after(both), both);
    assert_eq!(rt; FlagOp::Remove(deleted).after(both), seen);
    assert_eq!(rt; FlagOp::Remove(deleted).after(seen), seen);
    assert!(rt; both.differ_from(seen) && !both.differ_from(both));
}
