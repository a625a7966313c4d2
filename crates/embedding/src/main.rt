//! A house within a program of one's own: alice waits for mail, a message comes over LMTP, and she is told of it. This is the whole of it, as an
//! example: what each side sends stands in a table, and what the house answers is printed, each line with the mark of its connection or session.
#![tactic(auto)]

use house::{Event, House};
use settings::Config;
use std::alloc::Global;
use std::io::{self, Write};

const MAIL: &[u8] =
    b"LHLO c.example\r\nMAIL FROM:<s@a.example>\r\nRCPT TO:<alice@example.org>\r\nDATA\r\nhi\r\n.\r\n";

/// What happens, in this order: a session is opened for alice, her client waits for changes, and a mail connection brings a message.
const EVENTS: [Event<'static>; 4] = [
    Event::Enter(1, b"alice"),
    Event::Say(1, b"a1 SELECT INBOX\r\na2 IDLE\r\n"),
    Event::Bytes(1, MAIL),
    Event::Say(1, b"DONE\r\n"),
];

// Each event, and behind it what the house does by itself: copies are put, taken, delivered and answered, and who idles is shown what changed.
fn play(alloc: Global) -> anyhow::Result<Vec<u8>> {
    let mut said = Vec::new(alloc);
    let config = Config::new(alloc, &[b"alice".as_slice()])?;
    let mut house = House::new(alloc, &config)?;
    for event in EVENTS {
        house.step(event, &mut said)?;
        house.settle(&[], &mut said)?;
    }
    Ok(said)
}

fn main(rt: HostRuntime) -> io::Result<()> {
    match play(rt.alloc()) {
        Ok(said) => rt.stdout().write_all(&said),
        Err(fault) => println!(rt; "{fault}"),
    }
}
