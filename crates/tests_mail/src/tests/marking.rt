//! Marks before what was said.

use line_io::append_marked;
use std::alloc::AllocError;

#[test]
fn each_line_is_marked(rt: HostRuntime) -> Result<(), AllocError> {
    let mut out = Vec::from_slice(rt.alloc(), b"before\n")?;
    append_marked(b'L', 3, b"220 a\rb\nc\r\n\r\nrest", &mut out)?;
    assert_eq!(rt; out.as_slice(), b"before\nL3 220 a\rb\nc\nL3 \n".as_slice());
    Ok(())
}
