//! What one worker and one consumer of a running house do with their permits. A worker's connections are served from the greeting to the
//! end of its permit on each lane, and shards are closed before them. A consumer's lane is taken from the first copy to the last end.
//! Nothing is known here of how threads begin and are joined.
//! The permits are made, dealt, collected and closed here too, lane by lane, and one LMTP connection of a worker is served over a reader and a sink.
#![tactic(auto)]

mod answering;
mod bells;
mod carrying;
mod closing;
mod consumer;
mod desk;
mod dispatch;
mod ending;
mod hearing;
mod lanes;
mod laws;
mod outcome;
mod permit_laws;
mod piece;
mod producer;
mod putting;
mod reading;
mod rooms;
mod shutting;
mod talk;
mod verdict_log;
mod worker;

pub use answering::serve_copy;
pub use bells::Notifier;
pub use carrying::LaneCourier;
pub use consumer::{Consumed, Delivery, Stall, consume};
pub use desk::{Closing, Desk, Intake, LanePermit};
pub use dispatch::Dispatch;
pub use ending::{end_all, end_one, end_permit, end_senders, hear_ends};
pub use lanes::{
    Held, Lanes, abandon_lanes, close_lanes, collect, collect_all, deal, deal_all, make_lanes,
};
pub use laws::{accounts_meet_histories, books_stand};
pub use outcome::{Ending, TalkFault};
pub use permit_laws::{closed_channels_tell, closed_lanes_tell, whole_lanes_close};
pub use producer::{Context, Producer};
pub use reading::Buffers;
pub use rooms::{
    Hands, PermitRooms, Rooms, make_hands, make_lists, make_permit_rooms, make_rooms, spend_hands,
    spend_lists, spend_permit_rooms, spend_rooms,
};
pub use talk::converse;
pub use verdict_log::{Unkept, VerdictLog};
pub use worker::{Fate, Stop, Worked, finish, turn, work};
