//! Mail data to measure with.

use std::alloc::{AllocError, Global};

/// One of eight lines as mail has them, 72 bytes each with its CRLF. One of them begins with a dot, and so with two on the wire.
fn line_at(i: usize) -> &'static [u8] {
    match i % 8 {
        0 => b"Dear all, the minutes of last week's meeting are below; please send me\r\n",
        1 => b"what is missing or wrong by Friday, so that they can be put into the f\r\n",
        2 => b"iles. Present were Alice, Bob, Carol and Dan; Erin was excused, and we\r\n",
        3 => b"..conf files are not to be sent by mail any more, as was agreed on in \r\n",
        4 => b"spring. The budget for the second half of the year was taken as it was\r\n",
        5 => b"put to us, with the change that travel comes out of each group's share\r\n",
        6 => b"> > On Tue, 3 Mar 2020 at 10:14:07 +0100, Bob wrote: and what about it\r\n",
        _ => b"The next meeting is on the first Monday of the month, at ten, upstairs\r\n",
    }
}

/// Mail data of so many lines, with the line of one dot that ends them.
pub fn data(alloc: Global, lines: usize) -> Result<Vec<u8>, AllocError> {
    let mut wire = Vec::new(alloc);
    for i in 0..lines {
        wire.extend_from_slice(line_at(i))?;
    }
    wire.extend_from_slice(b".\r\n")?;
    Ok(wire)
}
