//! What is measured: data and lines that come in pieces of 64 KiB.

ghost use Rattle.std.specs.Prelude.{◌≤◌, length};

use dot_stuffing::{Outcome, Progress, Unstuffer};
use line_io::{LineCutter, What};
use std::alloc::Global;

/// The most bytes of a piece.
const PIECE: usize = 65_536;

/// The most bytes of a line, its CRLF counted.
const LINE: usize = 1_000;

/// How long the text of these data is; 0 where they don't end, or memory for it was refused.
pub fn text_len(alloc: Global, wire: &[u8]) -> usize {
    let mut unstuffer = Unstuffer::new(alloc, wire.len());
    for piece in wire.chunks(PIECE) {
        match unstuffer.take(piece).what {
            Progress::More => {}
            Progress::Done(Outcome::Ok) => return unstuffer.text().len(),
            Progress::Done(_) => return 0,
        }
    }
    0
}

/// How many lines the cutter finds in a piece.
fn lines_in(cutter: &mut LineCutter, piece: &[u8]) -> usize
    ensures { result ≤ length piece.now }
{
    let mut used = 0;
    let mut lines = 0;
    while used < piece.len() {
        let cut = cutter.take(&piece[used..]);
        used += cut.used;
        if let What::Line = cut.what {
            lines += 1;
        }
    }
    lines
}

/// How many lines these bytes have that aren't too long; 0 where memory for the cutter was refused.
pub fn line_count(alloc: Global, wire: &[u8]) -> usize {
    let Ok(mut cutter) = LineCutter::new(alloc, LINE) else {
        return 0;
    };
    let mut lines: usize = 0;
    for piece in wire.chunks(PIECE) {
        lines = lines.saturating_add(lines_in(&mut cutter, piece));
    }
    lines
}
