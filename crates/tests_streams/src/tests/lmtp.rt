//! Connections over readers and sinks of a test, with one lane and one channel: in one piece and byte by byte, pipelined, broken off on
//! either side, and shut at each position where the house may stop.

ghost use Rattle.std.specs.Prelude.{◌≡◌, ◌<◌, ◌≤◌, ◌∷◌, [], Some, IfSome, IfOk, OnOk, length, vec_len, vec_capacity};
ghost use Rattle.shard_queue.specs.Permits.{IsConsumer, IsProducer, number_of};
ghost use Rattle.shard_queue.specs.Reply.{IsReceiver, IsSender};
ghost use Rattle.lane_work.specs.Permits.{AreInForce};

use super::houses::{Shelf, open_shelf};
use super::permits::{Permits, Room, make_permits, make_room, sort, spend_room};
use budget::Budget;
use envelope::Directory;
use house_history::{Answer, Letter, Naming, Opened};
use lane_work::{
    Buffers, Context, Desk, Dispatch, Ending, Intake, LanePermit, Notifier, Producer, TalkFault,
    Unkept, converse,
};
use line_io::Sink;
use mailbox::Limits;
use shard_queue::{
    ConsumerPermit, Ended, ProducerPermit, ReceiverPermit, ReplyChannel, SenderPermit, ShardQueue,
    Taken,
};
use std::alloc::{AllocError, Global};
use std::io::{Error, ErrorKind, Read, Result as IoResult};
use std::marker::Brand;
use std::sync::atomic::{AtomicBool, Ordering};
use std::sync::{Mutex, Wait};
use workers_sync::{Actor, Gate, SyncPoint};

// No read and no copy has this number.
const NEVER: usize = 1000;

const GREETING: &[u8] = b"220 mx.example.org LMTP ready\r\n";

const EXTENSIONS: &[u8] =
    b"250-mx.example.org\r\n250-PIPELINING\r\n250-ENHANCEDSTATUSCODES\r\n250 8BITMIME\r\n";

const SENDER: &[u8] = b"250 2.1.0 Sender OK\r\n";

const RECIPIENT: &[u8] = b"250 2.1.5 Recipient OK\r\n";

const START: &[u8] = b"354 Start mail input\r\n";

const DELIVERED: &[u8] = b"250 2.1.5 Delivered\r\n";

const BYE: &[u8] = b"221 2.0.0 Bye\r\n";

const SHUTTING: &[u8] = b"421 4.3.2 Shutting down\r\n";

const ENVELOPE: &[u8] =
    b"LHLO c.example\r\nMAIL FROM:<s@a.example>\r\nRCPT TO:<alice@example.org>\r\nDATA\r\n";

const MESSAGE: &[u8] =
    b"LHLO c.example\r\nMAIL FROM:<s@a.example>\r\nRCPT TO:<alice@example.org>\r\nDATA\r\nhi\r\n.\r\n";

const WHOLE: &[u8] =
    b"LHLO c.example\r\nMAIL FROM:<s@a.example>\r\nRCPT TO:<alice@example.org>\r\nDATA\r\nhi\r\n.\r\nQUIT\r\nNOOP\r\n";

const TWO: &[u8] =
    b"LHLO c.example\r\nMAIL FROM:<s@a.example>\r\nRCPT TO:<alice@example.org>\r\nRCPT TO:<bob@example.org>\r\nDATA\r\nhi\r\n.\r\nMAIL FROM:<>\r\nRCPT TO:<bob@example.org>\r\nDATA\r\n..\r\n.\r\nQUIT\r\n";

// A shard's consumer that serves where it is notified: each copy is stored.
struct SharedConsumer<'a, B: Naming> {
    shelf: &'a Shelf<B>,
    lane: &'a ShardQueue<Letter<B>>,
    channel: &'a ReplyChannel<Answer<B>>,
    permit: ConsumerPermit<Letter<B>>,
    sender: SenderPermit<Answer<B>>,
    ghost takes: { IsConsumer lane.now permit },
    ghost answers: { IsSender channel.now sender },
}

impl<'a, B: Naming> SharedConsumer<'a, B> {
    // Delivers a copy, and tells its producer.
    fn answer<R: Wait>(&mut self, rt: &R, letter: Letter<B>) {
        if let Some(answer) = self.shelf.judge(rt, letter) {
            let _ = self.channel.put_as(rt, &mut self.sender, answer);
        }
    }

    fn serve<R: Wait>(&mut self, rt: &R) {
        for _ in rt.forever() {
            match self.lane.take_as(rt, &mut self.permit) {
                Taken::Item(_, letter) => self.answer(rt, letter),
                Taken::End(_) => {}
                Taken::Empty => return,
            }
        }
    }
}

// The shared consumer behind its lock, who may set the mark of the house's end as it is notified.
struct Counter<'a, B: Naming> {
    shared_consumer: Mutex<SharedConsumer<'a, B>>,
    stop: &'a AtomicBool,
    stops: bool,
}

impl<'a, B: Naming> Notifier for Counter<'a, B> {
    fn notify<R: Wait>(&self, rt: &R, _shard: usize) {
        if self.stops {
            self.stop.store(true, Ordering::SeqCst);
        }
        let mut held = self.shared_consumer.lock(rt);
        held.serve(rt);
    }
}

// All pass.
#[derive(Drop)]
struct Open;

impl Gate for Open {
    fn pass(&self, _who: Actor, _number: u64) {}
}

// Gives these pieces, one a read or in parts, and then ends or fails. The first read is interrupted.
#[derive(Drop)]
struct Pieces<'a> {
    pieces: &'a [&'a [u8]],
    piece: usize,
    offset: usize,
    reads: usize,
    fails: bool,
    stop: &'a AtomicBool,
    stops_at: usize,
}

impl<'a> Read for Pieces<'a> {
    fn read(&mut self, buf: &mut [u8]) -> IoResult<usize> {
        self.reads = self.reads.saturating_add(1);
        if self.reads == 1 {
            return Err(Error::from(ErrorKind::Interrupted));
        }
        if self.reads == self.stops_at {
            self.stop.store(true, Ordering::SeqCst);
        }
        let Some(piece) = self.pieces.get(self.piece) else {
            if self.fails {
                return Err(Error::from(ErrorKind::ConnectionReset));
            }
            return Ok(0);
        };
        let rest = piece.get(self.offset..).unwrap_or(b"");
        let count = rest.len().min(buf.len());
        buf[..count].copy_from_slice(&rest[..count]);
        self.offset = self.offset.saturating_add(count);
        if self.offset >= piece.len() {
            self.piece = self.piece.saturating_add(1);
            self.offset = 0;
        }
        Ok(count)
    }
}

// Takes so many bytes, five at most a call, and then fails.
#[derive(Drop)]
struct Taking {
    bytes: Vec<u8>,
    room: usize,
    has_failed: bool,
}

impl Sink for Taking {
    ghost taken = { λ s. Some s.bytes.items };

    ghost failed = { λ s. s.has_failed };

    fn offer(&mut self, bytes: &[u8]) -> Option<usize> {
        let n = bytes.len().min(self.room).min(5);
        if n > 0 && self.bytes.extend_from_slice(&bytes[..n]).is_ok() {
            self.room -= n;
            Some(n)
        } else {
            self.has_failed = true;
            None
        }
    }
}

// A connection, and what comes of it.
struct Case {
    pieces: &'static [&'static [u8]],
    // how many bytes are read at once at most
    buffer: usize,
    // whether the reader fails behind the pieces
    fails: bool,
    // at which read the house stops; the first is interrupted
    stops_at: usize,
    // whether it stops as a copy is put
    stops_at_put: bool,
    // how many bytes the sink takes
    room: usize,
    want: Result<Ending, TalkFault>,
    replies: &'static [&'static [u8]],
}

const PLAIN: Case = Case {
    pieces: &[MESSAGE],
    buffer: 64,
    fails: false,
    stops_at: NEVER,
    stops_at_put: false,
    room: 5000,
    want: Ok(Ending::Gone),
    replies: &[GREETING, EXTENSIONS, SENDER, RECIPIENT, START, DELIVERED],
};

// two messages in one burst, the first for two recipients
const TWO_AT_ONCE: Case = Case {
    pieces: &[TWO],
    buffer: 300,
    want: Ok(Ending::Quit),
    replies: &[
        GREETING, EXTENSIONS, SENDER, RECIPIENT, RECIPIENT, START, DELIVERED, DELIVERED, SENDER,
        RECIPIENT, START, DELIVERED, BYE,
    ],
    ..PLAIN
};

const CASES: &[Case] = &[
    PLAIN,
    // byte by byte
    Case { buffer: 1, ..PLAIN },
    // an end between two pieces
    Case {
        pieces: &[ENVELOPE, b"hi\r\n.\r", b"\n"],
        ..PLAIN
    },
    // nothing behind QUIT is taken
    Case {
        pieces: &[WHOLE],
        buffer: 200,
        want: Ok(Ending::Quit),
        replies: &[
            GREETING, EXTENSIONS, SENDER, RECIPIENT, START, DELIVERED, BYE,
        ],
        ..PLAIN
    },
    TWO_AT_ONCE,
    // the same byte by byte
    Case {
        buffer: 1,
        ..TWO_AT_ONCE
    },
    // a peer that says nothing
    Case {
        pieces: &[],
        replies: &[GREETING],
        ..PLAIN
    },
    // the reader fails behind a message, within data, and at once
    Case {
        fails: true,
        want: Err(TalkFault::Read),
        ..PLAIN
    },
    Case {
        pieces: &[ENVELOPE, b"hi\r\n"],
        fails: true,
        want: Err(TalkFault::Read),
        replies: &[GREETING, EXTENSIONS, SENDER, RECIPIENT, START],
        ..PLAIN
    },
    Case {
        pieces: &[],
        fails: true,
        want: Err(TalkFault::Read),
        replies: &[GREETING],
        ..PLAIN
    },
    // the sink fails in the greeting, in the middle of the replies, and at their last byte
    Case {
        room: 7,
        want: Err(TalkFault::Write),
        ..PLAIN
    },
    Case {
        buffer: 200,
        room: 150,
        want: Err(TalkFault::Write),
        ..PLAIN
    },
    Case {
        pieces: &[],
        room: 30,
        want: Err(TalkFault::Write),
        replies: &[GREETING],
        ..PLAIN
    },
    // the house stops before the first bytes come, and then the sink fails
    Case {
        stops_at: 2,
        want: Ok(Ending::Stopped),
        replies: &[GREETING, SHUTTING],
        ..PLAIN
    },
    Case {
        stops_at: 2,
        room: 40,
        want: Err(TalkFault::Write),
        replies: &[GREETING, SHUTTING],
        ..PLAIN
    },
    // within a begun line
    Case {
        pieces: &[b"LHLO c.ex", b"ample\r\n"],
        stops_at: 3,
        want: Ok(Ending::Stopped),
        replies: &[GREETING, SHUTTING],
        ..PLAIN
    },
    // within data: no word and no copy
    Case {
        pieces: &[ENVELOPE, b"hi\r\n.\r\n"],
        buffer: 200,
        stops_at: 3,
        want: Ok(Ending::Stopped),
        replies: &[GREETING, EXTENSIONS, SENDER, RECIPIENT, START],
        ..PLAIN
    },
    // behind a message that was put by then, whose verdicts are told; what stands behind it is dropped
    Case {
        pieces: &[TWO],
        buffer: 300,
        stops_at_put: true,
        want: Ok(Ending::Stopped),
        replies: &[
            GREETING, EXTENSIONS, SENDER, RECIPIENT, RECIPIENT, START, DELIVERED, DELIVERED,
            SHUTTING,
        ],
        ..PLAIN
    },
    Case {
        buffer: 200,
        stops_at_put: true,
        want: Ok(Ending::Stopped),
        replies: &[
            GREETING, EXTENSIONS, SENDER, RECIPIENT, START, DELIVERED, SHUTTING,
        ],
        ..PLAIN
    },
    // whoever stops the house shuts the side that is read
    Case {
        pieces: &[],
        stops_at: 2,
        want: Ok(Ending::Stopped),
        replies: &[GREETING, SHUTTING],
        ..PLAIN
    },
];

// Whether the sink has the front of the replies, as far as it had room.
fn has_front(bytes: &[u8], replies: &[&[u8]], room: usize) -> bool {
    let mut at = 0usize;
    for reply in replies {
        for byte in *reply {
            if at == room {
                return bytes.len() == at;
            }
            if bytes.get(at) != Some(byte) {
                return false;
            }
            at = at.saturating_add(1);
        }
    }
    bytes.len() == at
}

// Plays the connection of a case, and answers whether it came as it was to come.
fn talk<B: Naming, R: Wait, S: Notifier>(
    context: &Context<'_, B, R, S>,
    producer: &mut Producer<'_, B, Open, Unkept>,
    stop: &AtomicBool,
    case: &Case,
) -> Result<bool, AllocError>
    requires permits { AreInForce context.now.intake.now.directory
        context.now.intake.now.lanes.items producer.old.desk.number
        producer.old.desk.permits.items }
    requires receiver { IsReceiver context.now.channel.now producer.old.desk.receiver }
    requires lanes { context.now.intake.now.directory.shards
        ≡ length context.now.intake.now.lanes.items }
    requires host { length context.now.intake.now.host.items < 256 }
    ensures { length producer.new.desk.permits.items ≡ length context.now.intake.now.lanes.items }
{
    let mut input = Pieces {
        pieces: case.pieces,
        piece: 0,
        offset: 0,
        reads: 0,
        fails: case.fails,
        stop,
        stops_at: case.stops_at,
    };
    let mut output = Taking {
        bytes: Vec::new(context.alloc),
        room: case.room,
        has_failed: false,
    };
    let most = case.buffer.clamp(1, 300);
    let mut buffers = Buffers {
        input: vec![in context.alloc; 0; most]?,
        output: Vec::from_slice(context.alloc, b"what stood there before")?,
    };
    let came = converse(
        context,
        producer,
        7,
        &mut input,
        &mut output,
        stop,
        &mut buffers,
    );
    Ok(came == case.want && has_front(output.bytes.as_slice(), case.replies, case.room))
}

// The same with a shared consumer who serves the lane.
fn with_shared_consumer<'x, B: Naming, R: Wait>(
    rt: &'x R,
    alloc: Global,
    intake: &'x Intake<B>,
    lane: &'x ShardQueue<Letter<B>>,
    channel: &'x ReplyChannel<Answer<B>>,
    producer: &mut Producer<'_, B, Open, Unkept>,
    permit: ConsumerPermit<Letter<B>>,
    sender: SenderPermit<Answer<B>>,
    shelf: &'x Shelf<B>,
    case: &Case,
) -> (
    ConsumerPermit<Letter<B>>,
    SenderPermit<Answer<B>>,
    Result<bool, AllocError>,
)
    requires permits { AreInForce intake.now.directory intake.now.lanes.items
        producer.old.desk.number
        producer.old.desk.permits.items }
    requires receiver { IsReceiver channel.now producer.old.desk.receiver }
    requires lanes { intake.now.directory.shards ≡ length intake.now.lanes.items }
    requires host { length intake.now.host.items < 256 }
    requires takes { IsConsumer lane.now permit }
    requires answers { IsSender channel.now sender }
    ensures { length producer.new.desk.permits.items ≡ length intake.now.lanes.items }
{
    let stop = AtomicBool::new(false);
    let counter = Counter {
        shared_consumer: Mutex::new(SharedConsumer {
            shelf,
            lane,
            channel,
            permit,
            sender,
        }),
        stop: &stop,
        stops: case.stops_at_put,
    };
    let context = Context {
        rt,
        alloc,
        intake,
        notifier: &counter,
        channel,
    };
    let told = talk(&context, producer, &stop, case);
    let Counter {
        shared_consumer,
        stop: _,
        stops: _,
    } = counter;
    let SharedConsumer {
        shelf: _,
        lane: _,
        channel: _,
        permit,
        sender,
    } = shared_consumer.into_inner();
    (permit, sender, told)
}

fn directory(alloc: Global) -> Option<Directory>
    ensures { IfSome result (λ d. d.shards ≡ 1) }
{
    Directory::new(alloc, &[b"example.org"], &[b"alice", b"bob"], 1).ok()
}

// What comes back when the connection is over.
struct Back<B: Naming> {
    live: Vec<ProducerPermit<Letter<B>>>,
    ended: Vec<Ended<Letter<B>>>,
    senders: Vec<SenderPermit<Answer<B>>>,
}

// What is left goes.
fn spend<B: Naming>(
    intake: Intake<B>,
    desk: Desk<B>,
    channel: ReplyChannel<Answer<B>>,
    permit: ConsumerPermit<Letter<B>>,
    back: Back<B>,
    alloc: Global,
)
    requires lanes { vec_len intake.lanes ≡ 1 }
    requires permits { vec_len desk.permits ≡ 1 }
    requires room { (vec_len back.live < vec_capacity back.live)
        × (vec_len back.ended < vec_capacity back.ended) }
{
    let Intake {
        directory: _,
        host: _,
        max_message: _,
        budget: _,
        mut lanes,
        closings: _,
    } = intake;
    let Desk {
        number: _,
        permits,
        receiver,
        ends: _,
        dispatch: _,
    } = desk;
    let Back {
        mut live,
        mut ended,
        senders,
    } = back;
    sort(permits, &mut live, &mut ended);
    let lane = lanes.remove(0);
    lanes.destroy_empty();
    lane.abandon(live, ended, permit);
    channel.abandon(senders, Vec::new(alloc), receiver);
}

// The desk of the one producer, which has heard nothing yet.
fn desk_of<B: Naming>(
    permits: Vec<LanePermit<Letter<B>>>,
    receiver: ReceiverPermit<Answer<B>>,
    dispatch: Dispatch<B>,
) -> Desk<B>
    ensures { (result.number ≡ 0) × (result.permits ≡ permits) × (result.receiver ≡ receiver) }
{
    Desk {
        number: 0,
        permits,
        receiver,
        ends: 0,
        dispatch,
    }
}

// A case is played in a house of these permits.
fn play_in<B: Naming, R: Wait>(
    rt: &R,
    alloc: Global,
    directory: Directory,
    host: Vec<u8>,
    room: Room<B>,
    permits: Permits<B>,
    shelf: &Shelf<B>,
    dispatch: Dispatch<B>,
    case: &Case,
) -> Result<bool, AllocError>
    requires shards { directory.shards ≡ 1 }
    requires host { vec_len host < 256 }
    requires empty { (room.lanes.items ≡ []) × (room.hand.items ≡ []) × (room.live.items ≡ [])
        × (room.ended.items ≡ []) × (room.back.items ≡ []) }
    requires room { (1 ≤ vec_capacity room.lanes) × (1 ≤ vec_capacity room.hand)
        × (1 ≤ vec_capacity room.live) ×
        (1 ≤ vec_capacity room.ended) × (1 ≤ vec_capacity room.back) }
    requires producer { IsProducer permits.lane permits.producer
        × (number_of permits.producer ≡ 0) }
    requires permit { IsConsumer permits.lane permits.permit }
    requires sender { IsSender permits.channel permits.sender }
    requires receiver { IsReceiver permits.channel permits.receiver }
{
    let Room {
        mut lanes,
        mut hand,
        live,
        ended,
        back: mut senders,
    } = room;
    let Permits {
        lane,
        producer,
        permit,
        channel,
        sender,
        receiver,
    } = permits;
    lanes.push_reserved(lane);
    hand.push_reserved(LanePermit::Live(producer));
    let intake = Intake {
        directory,
        host,
        max_message: 100,
        budget: Budget::unlimited(),
        lanes,
        closings: Vec::new(alloc),
    };
    let gate = Open;
    let mut own = Producer {
        sync_point: SyncPoint::new(&gate, Actor::Worker(0)),
        desk: desk_of(hand, receiver, dispatch),
        book: Unkept,
    };
    let served = &intake.lanes[0];
    let (permit, sender, told) = with_shared_consumer(
        rt, alloc, &intake, served, &channel, &mut own, permit, sender, shelf, case,
    );
    let Producer {
        sync_point: _,
        desk,
        book: _,
    } = own;
    senders.push_reserved(sender);
    let back = Back {
        live,
        ended,
        senders,
    };
    spend(intake, desk, channel, permit, back, alloc);
    told
}

const LIMITS: Limits = Limits {
    messages: 8,
    ring: 16,
    ring_max: 0,
};

// A case is played in a house of its own, whose history was just opened.
fn play<B: Naming, R: Wait>(
    rt: &R,
    alloc: Global,
    history: Opened,
    case: &Case,
) -> Result<bool, AllocError>
    requires { history ≡ B.book }
{
    let Some(directory) = directory(alloc) else {
        return Err(AllocError);
    };
    let host = Vec::from_slice(alloc, b"mx.example.org")?;
    let (shelf, dispatch) = open_shelf::<B>(alloc, history, 2, LIMITS)?;
    let room = make_room(alloc)?;
    let permits = match make_permits(alloc) {
        Ok(permits) => permits,
        Err(e) => {
            spend_room(room);
            return Err(e);
        }
    };
    play_in(
        rt, alloc, directory, host, room, permits, &shelf, dispatch, case,
    )
}

// The first case that doesn't come as it is to come.
fn first_other<R: Wait>(rt: &R, alloc: Global) -> Result<Option<usize>, AllocError> {
    for position in 0..CASES.len() {
        if !play::<Brand, R>(rt, alloc, Opened::new(), &CASES[position])? {
            return Ok(Some(position));
        }
    }
    Ok(None)
}

#[test]
fn each_connection_comes_as_it_is_to_come(rt: HostRuntime) -> Result<(), AllocError> {
    assert_eq!(rt; first_other(&rt, rt.alloc())?, None);
    Ok(())
}
