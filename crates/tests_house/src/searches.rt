//! Answers to searches: what is expected is what RFC 9051, 6.4.4 and 7.3.4, and RFC 3501, 6.4.4, say of them.

use imap_answers::write_found;
use imap_grammar::SearchReturns;
use std::alloc::{AllocError, Global};

// What a search is to return and finds, and its answer.
struct Case {
    tag: &'static [u8],
    by_uid: bool,
    returns: Option<SearchReturns>,
    numbers: &'static [usize],
    answer: &'static [u8],
}

// Some are the examples of these pages. In the others is what they say besides: of no messages only their count is told.
const CASES: &[Case] = &[
    Case {
        tag: b"A282",
        by_uid: false,
        returns: None,
        numbers: &[2, 84, 882],
        answer: b"= * SEARCH 2 84 882\r\n",
    },
    Case {
        tag: b"A282",
        by_uid: false,
        returns: Some(SearchReturns {
            min: true,
            max: false,
            count: true,
            all: false,
        }),
        numbers: &[2, 10, 11],
        answer: b"= * ESEARCH (TAG \"A282\") MIN 2 COUNT 3\r\n",
    },
    Case {
        tag: b"A283",
        by_uid: false,
        returns: Some(SearchReturns {
            min: false,
            max: false,
            count: false,
            all: true,
        }),
        numbers: &[2, 10, 11],
        answer: b"= * ESEARCH (TAG \"A283\") ALL 2,10:11\r\n",
    },
    Case {
        tag: b"A284",
        by_uid: false,
        returns: Some(SearchReturns {
            min: false,
            max: false,
            count: false,
            all: true,
        }),
        numbers: &[],
        answer: b"= * ESEARCH (TAG \"A284\")\r\n",
    },
    Case {
        tag: b"A284",
        by_uid: true,
        returns: Some(SearchReturns {
            min: true,
            max: true,
            count: true,
            all: true,
        }),
        numbers: &[],
        answer: b"= * ESEARCH (TAG \"A284\") UID COUNT 0\r\n",
    },
    Case {
        tag: b"a567",
        by_uid: true,
        returns: Some(SearchReturns {
            min: false,
            max: false,
            count: true,
            all: true,
        }),
        numbers: &[4, 5, 6, 7, 8, 9, 10, 11, 12, 13, 14, 15, 16, 17, 18, 21, 23],
        answer: b"= * ESEARCH (TAG \"a567\") UID COUNT 17 ALL 4:18,21,23\r\n",
    },
    Case {
        tag: b"C3",
        by_uid: true,
        returns: Some(SearchReturns {
            min: true,
            max: true,
            count: false,
            all: false,
        }),
        numbers: &[4294967294, 7, 4294967295, 9],
        answer: b"= * ESEARCH (TAG \"C3\") UID MIN 7 MAX 4294967295\r\n",
    },
];

// The answer of a case behind other bytes.
fn answer_of(alloc: Global, case: &Case) -> Result<Vec<u8>, AllocError> {
    let mut out = Vec::with_capacity(alloc, 2)?;
    line_io::put(b"= ", &mut out);
    write_found(case.tag, case.by_uid, case.returns, case.numbers, &mut out)?;
    Ok(out)
}

// Whether a case is answered so.
fn is_answered(alloc: Global, case: &Case) -> bool {
    match answer_of(alloc, case) {
        Ok(text) => text.as_slice() == case.answer,
        Err(_) => false,
    }
}

#[test]
fn searches_are_answered_as_they_ask(rt: HostRuntime) {
    for case in CASES {
        assert!(rt; is_answered(rt.alloc(), case));
    }
}
