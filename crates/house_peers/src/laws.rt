//! Laws of the definitions, as functions that do nothing.

ghost use Rattle.house_peers.specs.Laws.{KeepsWhatWaits};

/// What comes behind a message waits until its verdicts are said.
pub fn what_waits_is_kept()
    ensures { KeepsWhatWaits }
{}
