//! What holds of every mailbox, as the contract of a function that anybody may call.

ghost use Rattle.mailbox.specs.Mailbox.{IsKept};

use crate::mailbox::Mailbox;

/// What the type keeps: a lock around a mailbox keeps it too.
pub fn every_mailbox_keeps(mailbox: &Mailbox)
    ensures { IsKept mailbox.now }
{
    // Read for their bounds: what the window has fits it, its room is at most its most, and its changes can be numbered.
    let _room = mailbox.ring.capacity();
    let _logged = mailbox.ring.total();
}
