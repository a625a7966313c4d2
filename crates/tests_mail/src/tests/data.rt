//! Data and their texts by the published rules (RFC 5321, section 4.5.2): the text is what stands before the line of one dot, without
//! the first dot of each line that begins with one. Pieces of several sizes, single bytes among them.

use dot_stuffing::{Outcome, Progress, Unstuffer, stuff};
use std::alloc::{AllocError, Global};

// What comes of data in pieces of this size, and the text where there is one. After it stands how many bytes were used.
fn unstuff(
    alloc: Global,
    max: usize,
    wire: &[u8],
    size: usize,
) -> (Option<Outcome>, Option<Vec<u8>>, usize) {
    let mut unstuffer = Unstuffer::new(alloc, max);
    let mut rest = wire;
    for _ in 0..wire.len() {
        let piece = &rest[..size.min(rest.len())];
        let taken = unstuffer.take(piece);
        rest = &rest[taken.used..];
        let at = wire.len().saturating_sub(rest.len());
        match taken.what {
            Progress::More => {}
            Progress::Done(Outcome::Ok) => {
                return (Some(Outcome::Ok), Some(unstuffer.text()), at);
            }
            Progress::Done(outcome) => return (Some(outcome), None, at),
        }
    }
    (None, None, wire.len())
}

// Whether the data at the front of these bytes have this text, and no byte behind them was used.
fn has_text(alloc: Global, wire: &[u8], behind: usize, text: &[u8], size: usize) -> bool {
    let (outcome, found, used) = unstuff(alloc, 1_000, wire, size);
    let Some(found) = found else {
        return false;
    };
    outcome == Some(Outcome::Ok)
        && found.as_slice() == text
        && used == wire.len().saturating_sub(behind)
}

// The same in pieces of several sizes.
fn always_has_text(alloc: Global, wire: &[u8], behind: usize, text: &[u8]) -> bool {
    [1, 2, 3, 5, 100, 1_000]
        .iter()
        .all(|size| { has_text(alloc, wire, behind, text, *size) })
}

#[test]
fn no_lines(rt: HostRuntime) {
    assert!(rt; always_has_text(rt.alloc(), b".\r\n", 0, b""));
}

#[test]
fn dots_come_off(rt: HostRuntime) {
    let alloc = rt.alloc();
    assert!(rt; always_has_text(alloc, b"..\r\n.\r\n", 0, b".\r\n"));
    assert!(rt; always_has_text(alloc, b".x\r\n.\r\n", 0, b"x\r\n"));
    assert!(rt; always_has_text(alloc, b"x.\r\n.\r\n", 0, b"x.\r\n"));
    assert!(rt;
        always_has_text(
            alloc,
            b"..\r\n.x\r\nx.\r\n.\r\nQUIT\r\n",
            6,
            b".\r\nx\r\nx.\r\n"
        )
    );
}

#[test]
fn only_crlf_ends_a_line(rt: HostRuntime) {
    let alloc = rt.alloc();
    let lf = b"a\n.\r\n\n.\nb\r\n.\r\n";
    assert!(rt; always_has_text(alloc, lf, 0, b"a\n.\r\n\n.\nb\r\n"));
    let cr = b"\r.\r\n.\r\r\n\r\r.\r\n.\r\n";
    assert!(rt; always_has_text(alloc, cr, 0, b"\r.\r\n\r\r\n\r\r.\r\n"));
}

// Lines that are longer than what is searched at once.
#[test]
fn long_lines(rt: HostRuntime) {
    let wire =
        b"..23456789012345678901234567890123456789012345678901234567890123456789\r234567890123456789\r\n0123456789.\r\n.\r\n";
    assert!(rt; always_has_text(rt.alloc(), wire, 0, &wire[1..wire.len() - 3]));
}

// Whether data of at most so many bytes have this outcome, in pieces of several sizes.
fn always_ends(alloc: Global, max: usize, wire: &[u8], wanted: Option<Outcome>) -> bool {
    [1, 2, 100].iter().all(|size| {
        let (outcome, _, _) = unstuff(alloc, max, wire, *size);
        outcome == wanted
    })
}

#[test]
fn outcomes(rt: HostRuntime) {
    let cases = [
        (3, b".\r\n".as_slice(), Some(Outcome::Ok)),
        (3, b"a\r\n.\r\n".as_slice(), Some(Outcome::Ok)),
        (3, b"hi\r\n.\r\n".as_slice(), Some(Outcome::TooBig)),
        (3, b"\0\r\n.\r\n".as_slice(), Some(Outcome::Nul)),
        (3, b"\0hi\r\n.\r\n".as_slice(), Some(Outcome::Nul)),
        (3, b"hi\0\r\n.\r\n".as_slice(), Some(Outcome::Nul)),
        (5, b"hi\0\r\n.\r\n".as_slice(), Some(Outcome::Nul)),
        (5, b"hi you\r\n.\r\n".as_slice(), Some(Outcome::TooBig)),
        (3, b"hi\r\n.\r".as_slice(), None),
    ];
    for (max, wire, want) in cases {
        assert!(rt; always_ends(rt.alloc(), max, wire, want));
    }
}

// The text of "a\r\n" behind two parts, where other data had begun behind another.
fn behind_parts(alloc: Global, max: usize) -> Option<Vec<u8>> {
    let mut unstuffer = Unstuffer::new(alloc, max);
    unstuffer.begin_behind(&[b"other".as_slice()]);
    let _ = unstuffer.take(b"\0, too big");
    unstuffer.begin_behind(&[b"the front: ".as_slice(), b"<>".as_slice()]);
    match unstuffer.take(b"a\r\n.\r\n").what {
        Progress::Done(Outcome::Ok) => Some(unstuffer.text()),
        _ => None,
    }
}

// What stands before a text doesn't count as bytes of it, and a text that is done has little room that it doesn't need.
#[test]
fn a_front(rt: HostRuntime) {
    let text = behind_parts(rt.alloc(), 3);
    assert!(rt; text.is_some());
    if let Some(text) = text {
        assert_eq!(rt; text.as_slice(), b"the front: <>a\r\n".as_slice());
        assert!(rt; text.capacity() <= 18);
    }
    assert!(rt; behind_parts(rt.alloc(), 2).is_none());
}

#[test]
fn dots_go_on(rt: HostRuntime) -> Result<(), AllocError> {
    let mut wire = vec![in rt.alloc(); b'>']?;
    stuff(b".x\r\nab\r\n.\r\n", &mut wire)?;
    assert_eq!(rt; wire.as_slice(), b">..x\r\nab\r\n..\r\n".as_slice());
    Ok(())
}
