//! Laws of the definitions, as functions that do nothing: what lanes and channels that were closed
//! tell of those who held their permits, and when they can be closed. No code lives here.

ghost use Rattle.lane_work.specs.Telling.{AccountsMeet, ChannelsAreWhole, LanesAreWhole, SaidIsHistory, SaidOnIsHistory};
ghost use Rattle.lane_work.specs.WholeClose.{WholeChannelsClose, WholeLanesClose};

/// What is known of lanes that were closed: what each producer said is what was taken of it, so that a
/// worker's account is one of the histories, and nothing else was taken.
pub fn closed_lanes_tell()
    // What a producer said, lane by lane, is what was taken of it; so an account by the one is an account by the other.
    ensures said { SaidIsHistory }
    ensures accounts { AccountsMeet }

    // There is a history for each lane: it is what its consumer took, and it is whole.
    ensures whole { LanesAreWhole }
{}

/// The same of reply channels: what each sender said is what was received of it, and nothing else was
/// received.
pub fn closed_channels_tell()
    ensures said { SaidOnIsHistory }
    ensures whole { ChannelsAreWhole }
{}

/// Where each producer's end was taken on each lane, and what is left of each permit is there, no lane is torn.
/// So `close_lanes` answers what was taken of them, and never that it can't.
pub fn whole_lanes_close()
    ensures lanes { WholeLanesClose }

    // The same of reply channels and their senders.
    ensures channels { WholeChannelsClose }
{}
