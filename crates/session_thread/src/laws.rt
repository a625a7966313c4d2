//! What holds of every session over locks, as the contract of a function that anybody may call. No
//! code of a session stands here.

ghost use Rattle.session_thread.specs.ByHistory.{HoldsAreByHistory, ShownByHistory, ShownByCall, ShownSinceSelect};

/// What a session was shown since its SELECT is exactly its mailbox's changes in the house's history, up to its cursor, in order,
/// whatever others do between two holds of a lock: nothing is left out, and nothing is shown twice. What it is told of the mailbox
/// is what the history says: how many messages SELECT found, the view that each call met, and the text under a UID.
pub fn shown_since_select()
    // Each call of the store tells what the history says, and goes on from where the cursor was.
    ensures call { ShownByCall }

    // So behind any calls, one after another, what was shown is up to the cursor.
    ensures since { ShownSinceSelect }

    // Each call is what the history says of it, whatever a mailbox keeps and whoever has its lock. That is enough for what was shown.
    ensures history { HoldsAreByHistory }
    ensures by_history { ShownByHistory }
{}
