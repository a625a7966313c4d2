//! The promise of the product, as a law over everything that may happen in a house: which copies were answered as delivered, and where they
//! stand. What each event does is told in `house`; nothing here is run by a house.
#![tactic(auto)]

mod replay;

ghost use Rattle.std.specs.Prelude.{List, ℕ};
ghost use Rattle.house_peers.specs.Lmtp.{lmtp};
ghost use Rattle.house_peers.specs.Speech.{IsSpeech};
ghost use Rattle.house.specs.LmtpAndImap.{lmtp_and_imap};
ghost use Rattle.house.specs.Setup.{AreGuests, Peers, Setup};
ghost use Rattle.exactly_once.specs.AnyPromise as promised;
ghost use Rattle.exactly_once.specs.Appended.{SessionsAnswerOnce};
ghost use Rattle.exactly_once.specs.Promise.{Entry, ExactlyOnce, NoneTwice, TellsOnce};
ghost use Rattle.house.specs.AnyScene as any;
ghost use Rattle.house.specs.Scene.{Scene, empty_scene};
ghost use Rattle.house.specs.Settling.{Happened};
ghost use Rattle.house.specs.declared.event.Event.{Event};
ghost use Rattle.world.specs.World.{World};

pub use replay::play;

/// What the connections and the sessions of a house speak, and the little that is asked of it.
pub trait Dialogues {
    ghost peers: { Peers };

    ghost speaks: { IsSpeech peers.speech };

    ghost visits: { AreGuests peers };
}

/// Over every list of events, so over every interleaving of connections, consumers and sessions, also where memory was wanting, and whatever connections and
/// sessions speak: each recipient copy that was answered as delivered stands in its mailbox's history exactly once, under one UID, and the copies of each
/// connection in the order in which it sent them; it was answered so once, on the connection that sent it; no copy is taken from a shard after its
/// close; and what a session was shown since its SELECT is exactly the mailbox's changes up to its cursor, in order. And nothing was
/// printed but the replies of connections and whole lines of sessions, each at an event of its own.
pub fn exactly_once_over_any<D: Dialogues>()
    ensures { (k : Setup) (events : List Event) (s : any.Scene D.peers) (printed : List ℕ)
        → any.Happened D.peers k events (any.empty_scene D.peers k) s printed →
        promised.ExactlyOnce D.peers k events s printed }
{}

/// LMTP is such a dialogue of connections.
pub fn connections_may_speak_lmtp()
    ensures { IsSpeech lmtp }
{}

/// IMAP is such a dialogue of sessions.
pub fn sessions_may_speak_imap()
    ensures { AreGuests lmtp_and_imap }
{}

/// So it is where connections speak LMTP and sessions IMAP: each recipient copy that was answered 250 stands in its mailbox's history exactly once, under
/// one UID, and the copies of each connection in the order in which it sent them; it was answered so once, on the connection that sent it; no copy is taken
/// from a shard after its close; and what a session was shown since its SELECT is exactly the mailbox's changes up to its cursor, in order. And nothing was
/// printed but the replies of connections and whole lines of sessions, each at an event of its own.
pub fn exactly_once_delivery()
    ensures { (k : Setup) (events : List Event) (s : Scene) (printed : List ℕ)
        → Happened k events (empty_scene k) s printed →
        ExactlyOnce k events s printed }
{}

/// No two verdicts that were told are about one copy, at one seat or at two. So no copy has two lines that say it was delivered.
pub fn no_copy_is_told_twice()
    ensures { (w : World) (entries : List Entry) → TellsOnce w entries → NoneTwice entries }
{}

/// The same of what sessions are told of the messages that their clients append, over every record of a house, as `ExactlyOnce` has one: each verdict
/// that a session answers is on a message of its own seat, as that seat has heard it; those of a seat come in the order of its messages,
/// so none is told twice; and each that says that the message is stored under a UID is on a copy that stands in its
/// mailbox's history exactly once, under that UID.
pub fn no_verdict_is_answered_twice()
    ensures { SessionsAnswerOnce }
{}
