//! Sets of UIDs as COPYUID tells them: what is expected is what RFC 4315 and RFC 9051, 9, say of them.

use imap_answers::put_uid_set;
use line_io::put;
use std::alloc::{AllocError, Global};

// UIDs, and the set that they are.
struct Case {
    uids: &'static [u32],
    set: &'static [u8],
}

// The sets of more than two runs are those of RFC 4315's example of COPYUID, and what its grammar has besides.
const CASES: &[Case] = &[
    Case {
        uids: &[],
        set: b"= ",
    },
    Case {
        uids: &[7],
        set: b"= 7",
    },
    Case {
        uids: &[304, 319, 320],
        set: b"= 304,319:320",
    },
    Case {
        uids: &[3956, 3957, 3958],
        set: b"= 3956:3958",
    },
    Case {
        uids: &[1, 3, 5, 6, 9],
        set: b"= 1,3,5:6,9",
    },
    Case {
        uids: &[9, 8, 1, 1],
        set: b"= 9,8,1,1",
    },
    Case {
        uids: &[1, 4294967294, 4294967295],
        set: b"= 1,4294967294:4294967295",
    },
    Case {
        uids: &[4294967295, 0],
        set: b"= 4294967295,0",
    },
];

// The set of these UIDs behind other bytes. Of more than 8 it tells nothing.
fn set_of(alloc: Global, uids: &[u32]) -> Result<Vec<u8>, AllocError> {
    let mut out = Vec::with_capacity(alloc, 90)?;
    put(b"= ", &mut out);
    if uids.len() > 8 {
        return Err(AllocError);
    }
    put_uid_set(uids, &mut out);
    Ok(out)
}

// Whether these UIDs are told so.
fn is_told(alloc: Global, uids: &[u32], wanted: &[u8]) -> bool {
    match set_of(alloc, uids) {
        Ok(text) => text.as_slice() == wanted,
        Err(_) => false,
    }
}

#[test]
fn runs_of_uids_are_ranges(rt: HostRuntime) {
    for case in CASES {
        assert!(rt; is_told(rt.alloc(), case.uids, case.set));
    }
}
