//! Laws of the definitions, as functions that do nothing.

ghost use Rattle.delivery_token.specs.Laws.{KeepsWhatWasHeard};

/// A verdict more that is heard, for this message or for another, leaves of each copy that was put what was heard for its key.
pub fn what_was_heard_is_kept()
    ensures { KeepsWhatWasHeard }
{}
