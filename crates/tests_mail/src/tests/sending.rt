//! Bytes that are sent to a sink that takes few at a time, or fails.

ghost use Rattle.std.specs.Prelude.{Some};

use line_io::{SendFault, Sink, Watched, send};
use std::alloc::AllocError;

/// Takes at most `step` bytes a call, and fails once its calls are used up.
#[derive(Drop)]
pub struct Failing {
    /// What it took.
    pub bytes: Vec<u8>,
    /// The most that it takes at a call.
    pub step: usize,
    /// So many calls are left.
    pub calls: usize,
    /// Whether a call found none left.
    pub has_failed: bool,
}

impl Sink for Failing {
    ghost taken = { λ s. Some s.bytes.items };

    ghost failed = { λ s. s.has_failed };

    fn offer(&mut self, bytes: &[u8]) -> Option<usize> {
        let n = bytes.len().min(self.step);
        if n > 0 && self.calls > 0 && self.bytes.extend_from_slice(&bytes[..n]).is_ok() {
            self.calls -= 1;
            Some(n)
        } else {
            self.has_failed = true;
            None
        }
    }
}

#[test]
fn tells_what_went_out(rt: HostRuntime) -> Result<(), AllocError> {
    let cases = [
        (3, 0, Err(SendFault { sent: 0 })),
        (3, 2, Err(SendFault { sent: 6 })),
        (1, 6, Err(SendFault { sent: 6 })),
        (3, 3, Ok(())),
        (7, 1, Ok(())),
        (100, 1, Ok(())),
    ];
    for (step, calls, want) in cases {
        let mut sink = Failing {
            bytes: Vec::new(rt.alloc()),
            step,
            calls,
            has_failed: false,
        };
        assert_eq!(rt; send(&mut sink, b"abcdefg"), want);
        match want {
            Ok(()) => assert_eq!(rt; sink.bytes.as_slice(), b"abcdefg".as_slice()),
            Err(fault) => assert_eq!(rt; sink.bytes.len(), fault.sent),
        }
    }
    Ok(())
}

#[test]
fn writes_to_a_writer(rt: HostRuntime) {
    let mut bytes = Vec::new(rt.alloc());
    let mut sink = Watched::new(&mut bytes);
    assert!(rt; send(&mut sink, b"hi\r\n").is_ok());
    assert_eq!(rt; bytes.as_slice(), b"hi\r\n".as_slice());
}
