//! What several tests of houses of threads begin with: a directory, the sizes of a house, and keys.

ghost use Rattle.std.specs.Prelude.{◌≡◌, ◌<◌, IfOk, length};

use delivery_token::CopyKey;
use envelope::Directory;
use house_shared::Sizes;
use mailbox::{History, Limits};
use std::alloc::Global;
use std::test::Fail;

/// Three mailboxes on two shards: alice's, with a folder, and bob's.
pub(crate) fn directory(alloc: Global) -> Result<Directory, Fail>
    ensures { IfOk result (λ d. d.shards ≡ 2) }
{
    let Ok(directory) = Directory::new(
        alloc,
        &[b"example.org".as_slice()],
        &[
            b"alice".as_slice(),
            b"alice/Work".as_slice(),
            b"bob".as_slice(),
        ],
        2,
    ) else {
        return Err(Fail::new("directory"));
    };
    Ok(directory)
}

/// The sizes of a house of so many producers, whose mailboxes hold so many messages. Nobody closes a shard before the end.
pub(crate) fn sizes(producers: u8, messages: usize) -> Sizes<'static>
    ensures host { length result.host.now < 256 }
    ensures producers { result.producers ≡ producers }
    ensures depth { result.depth ≡ 4 }
    ensures ring { 0 < result.limits.ring }
{
    Sizes {
        host: b"mx.example.org",
        max_message: 1000,
        memory: None,
        producers,
        depth: 4,
        uidvalidity: 7,
        first_uid: 1,
        limits: Limits {
            messages,
            ring: 16,
            ring_max: 0,
        },
        history: History::Kept,
        turns: 10,
        closings: &[],
    }
}

/// The key of a message's first copy, in the first connection of a seat.
pub(crate) fn key(seat: u8, message: u32) -> CopyKey {
    CopyKey {
        seat,
        serial: 0,
        message,
        recipient: 0,
    }
}
