//! A reply channel's two ends, kept together: neither is ever gone while the channel is there.

ghost use Rattle.std.specs.Prelude.{◌≡◌};
ghost use Rattle.crossbeam_channel.specs.Ends.{sends_on, receives_on};

use crate::lane::Entry;
use crate::shared::{Merge, View};
use crossbeam_channel::{RuledReceiver, RuledSender};

/// What carries a reply channel's entries.
#[derive(Drop)]
pub struct BothEnds<T: Drop> {
    pub(crate) sender: RuledSender<Entry<T>, View<T>, Merge>,
    pub(crate) receiver: RuledReceiver<Entry<T>, View<T>, Merge>,
    ghost both: { receives_on receiver ≡ sends_on sender },
}
