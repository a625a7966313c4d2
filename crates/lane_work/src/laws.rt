//! Laws of the definitions, as functions that do nothing. What is done stands in the modules beside
//! this one.

ghost use Rattle.lane_work.specs.Backing.{BooksStand, WordsStand};
ghost use Rattle.lane_work.specs.Histories.{SaidIsTaken, StoredWasPut};

/// What an ended worker said is, lane by lane, what was taken of it; and a copy that was stored was put
/// on its mailbox's lane.
pub fn accounts_meet_histories()
    ensures taken { SaidIsTaken }
    ensures stored { StoredWasPut }
{}

/// Where the books of a producer tell of messages, and the house's history has what it put and heard, each copy of which they tell
/// Stored stands in that history: in its mailbox, under that UID, with its text.
pub fn books_stand()
    ensures stand { BooksStand }

    // And where the producer's permits have ended.
    ensures ended { WordsStand }
{}
