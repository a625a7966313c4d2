//! What the threads of a house leave when all were joined, whoever started them. No thread is started here.

ghost use Rattle.std.specs.Prelude.{◌≡◌};
ghost use Rattle.house_shared.specs.Left.{most_of};

use crate::shared::{Post, Stand};
use house_history::Naming;
use lane_work::{Consumed, Worked};

/// How the threads were started.
#[derive(Clone, Copy, Debug, PartialEq, Eq)]
pub enum Started {
    /// Each has had its thread.
    All,
    /// A thread could not be made.
    Spawn,
    /// There was no memory to note the threads in: none was started.
    NoMemory,
}

/// What the threads left, and what was never handed to one: consumers' stands, and producers' posts,
/// which may have ended their permits on some lanes.
pub struct Ran<B: Naming> {
    /// What the workers left, and behind them the sessions.
    pub worked: Vec<Worked<B>>,
    pub consumed: Vec<Consumed<B>>,
    pub stands: Vec<Stand<B>>,
    pub posts: Vec<Post<B>>,
    pub started: Started,
}

/// The most bytes of a message that a session's client may append: as many as one that a worker takes may have, as far as a session
/// counts.
pub fn most_of(max_message: usize) -> u32
    ensures { result ≡ most_of max_message }
{
    if max_message > u32::MAX as usize {
        u32::MAX
    } else {
        max_message as u32
    }
}
