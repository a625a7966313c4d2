//! Which UIDs are a view.

use change_ring::View;

#[test]
fn uids_that_do_not_rise_are_no_view(rt: HostRuntime) {
    for uids in [[9, 4, 12, 4].as_slice(), &[4, 4], &[2, 1]] {
        assert!(rt; View::of(uids).is_none());
    }
    for uids in [[].as_slice(), &[7], &[4, 9, 12]] {
        assert!(rt; View::of(uids).is_some_and(|view| view.uids() == uids));
    }
}
