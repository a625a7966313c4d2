//! Lines that are cut from a stream in pieces, at the least room that a line may have here.

ghost use Rattle.std.specs.Prelude.{◌≤◌};

use line_io::{LineCutter, What};
use std::alloc::{AllocError, Global};

// The lines of a stream that comes in pieces: each as it is, `-` for one that is too long, and `|` after each.
fn cut_all(alloc: Global, max: usize, pieces: &[&[u8]]) -> Result<Vec<u8>, AllocError>
    requires { 3 ≤ max }
{
    let mut cutter = LineCutter::new(alloc, max)?;
    let mut out = Vec::new(alloc);
    for piece in pieces {
        let mut rest = *piece;
        for _ in 0..piece.len() {
            let cut = cutter.take(rest);
            rest = &rest[cut.used..];
            match cut.what {
                What::NeedMore => break,
                What::Line => {
                    out.extend_from_slice(cutter.line())?;
                    out.push(b'|')?;
                }
                What::TooLong => {
                    out.extend_from_slice(b"-|")?;
                }
            }
        }
    }
    Ok(out)
}

#[test]
fn lines_of_eight_bytes(rt: HostRuntime) -> Result<(), AllocError> {
    let alloc = rt.alloc();
    let long = cut_all(alloc, 8, &[b"abcdef\r\nabcdefg\r\nx\r\n"])?;
    assert_eq!(rt; long.as_slice(), b"abcdef|-|x|".as_slice());
    Ok(())
}

#[test]
fn pieces_and_bare_ends(rt: HostRuntime) -> Result<(), AllocError> {
    let alloc = rt.alloc();
    let lines = cut_all(
        alloc,
        8,
        &[b"ab\r", b"\n\n\r", b"\r\n\r\n", b"abcdefgh\r", b"\nz"],
    )?;
    assert_eq!(rt; lines.as_slice(), b"ab|\n\r||-|".as_slice());
    Ok(())
}
