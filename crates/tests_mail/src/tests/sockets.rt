//! Sockets of the system, on ports that it chooses.

use std::alloc::Global;
use std::io::{ErrorKind, Read, Write};
use std::net::{Net, TcpListener, TcpStream};
use std::sync::atomic::{AtomicBool, Ordering};
use std::time::Duration;
use std::{io, thread};
use workers_sync::{Listening, Patience, Pause, ShutdownHandle, Timely, farewell, prepare};

/// More bytes than the system keeps for a peer that takes none.
const MUCH: usize = 32 << 20;

/// So many pauses of a tenth of a second a peer makes that takes a little at a time.
const SIPS: u32 = 60;

// A listener, and both sides of a connection to it.
fn connected<R: Net<Listener = TcpListener, Stream = TcpStream>>(
    rt: &R,
) -> io::Result<(Listening, TcpStream, TcpStream)> {
    let listening = Listening::bind(rt, 0)?;
    let client = TcpStream::connect(rt, ("127.0.0.1", listening.port()))?;
    let stream = listening.accept()?;
    Ok((listening, client, stream))
}

#[test]
fn bytes_go_both_ways(rt: HostRuntime) -> io::Result<()> {
    let (_listening, mut client, stream) = connected(&rt)?;
    prepare(&stream, Patience::Limited)?;
    client.write_all(b"hello")?;
    let mut heard = [0u8; 8];
    let mut server = &stream;
    assert_eq!(rt; server.read(&mut heard)?, 5);
    server.write_all(b"you")?;
    let mut told = [0u8; 8];
    assert_eq!(rt; client.read(&mut told)?, 3);
    assert_eq!(rt; &told[..3], b"you".as_slice());
    Ok(())
}

#[test]
fn a_shut_listener_wakes_who_waits(rt: HostRuntime) -> io::Result<()> {
    let listening = Listening::bind(&rt, 0)?;
    let (accepted, ()) = thread::join(&rt, || listening.accept().is_ok(), || listening.shut());
    assert!(rt; !accepted);
    Ok(())
}

#[test]
fn a_hushed_thread_finds_the_end_and_is_heard_still(rt: HostRuntime) -> io::Result<()> {
    let (_listening, mut client, stream) = connected(&rt)?;
    let shutdown_handle = ShutdownHandle::new();
    assert!(rt; shutdown_handle.is_empty(&rt));
    assert!(rt; shutdown_handle.hold(&rt, &stream));
    assert!(rt; !shutdown_handle.is_empty(&rt));
    shutdown_handle.shut_read(&rt);
    let mut nothing = [0u8; 8];
    let mut server = &stream;
    assert_eq!(rt; server.read(&mut nothing)?, 0);
    server.write_all(b"bye")?;
    let mut told = [0u8; 8];
    assert_eq!(rt; client.read(&mut told)?, 3);
    shutdown_handle.clear(&rt);
    assert!(rt; shutdown_handle.is_empty(&rt));
    Ok(())
}

#[test]
fn a_cut_connection_is_at_its_end(rt: HostRuntime) -> io::Result<()> {
    let (_listening, mut client, stream) = connected(&rt)?;
    let shutdown_handle = ShutdownHandle::new();
    assert!(rt; shutdown_handle.hold(&rt, &stream));
    shutdown_handle.cut(&rt);
    let mut told = [0u8; 8];
    assert_eq!(rt; client.read(&mut told)?, 0);
    let mut server = &stream;
    assert!(rt; server.write(b"x").is_err());
    Ok(())
}

#[test]
fn what_was_said_last_is_read(rt: HostRuntime) -> io::Result<()> {
    let (_listening, mut client, stream) = connected(&rt)?;
    client.write_all(b"bytes that nobody reads")?;
    let mut server = &stream;
    server.write_all(b"421")?;
    let mut buffer = [0u8; 64];
    farewell(&stream, &mut buffer);
    drop(stream);
    let mut told = [0u8; 8];
    assert_eq!(rt; client.read(&mut told)?, 3);
    Ok(())
}

// Bytes, of which many are sent.
fn much(alloc: Global) -> io::Result<Vec<u8>> {
    Ok(vec![in alloc; b'x'; MUCH]?)
}

// Gives a connection more than its peer takes in the second that it has: whether the first call was cut short, and the next took no time.
fn is_sent_in_time(stream: &TcpStream, bytes: &[u8]) -> io::Result<bool> {
    prepare(stream, Patience::Limited)?;
    stream.set_write_timeout(Some(Duration::from_secs(1)))?;
    let mut output = Timely::new(stream);
    let taken = output.write(bytes)?;
    // Who asks the system again waits for a minute, and is told `WouldBlock`.
    stream.set_write_timeout(Some(Duration::from_secs(60)))?;
    let Err(refused) = output.write(bytes) else {
        return Ok(false);
    };
    Ok(0 < taken && taken < bytes.len() && refused.kind() == ErrorKind::TimedOut)
}

// Takes a little at a time, until the other side has sent what it could: how often.
fn sip(mut client: TcpStream, pause: &Pause, is_sent: &AtomicBool) -> u32 {
    let mut some = [0u8; 4096];
    for sips in 0..SIPS {
        if is_sent.load(Ordering::SeqCst) {
            return sips;
        }
        let _ = client.read(&mut some);
        pause.wait();
    }
    SIPS
}

#[test]
fn a_peer_that_takes_nothing_has_its_time_once(rt: HostRuntime) -> io::Result<()> {
    let (_listening, client, stream) = connected(&rt)?;
    let bytes = much(rt.alloc())?;
    assert!(rt; is_sent_in_time(&stream, &bytes)?);
    drop(client);
    Ok(())
}

#[test]
fn a_peer_that_takes_a_little_has_no_more_time(rt: HostRuntime) -> io::Result<()> {
    let (_listening, client, stream) = connected(&rt)?;
    let (pause, bytes) = (Pause::new(&rt)?, much(rt.alloc())?);
    let is_sent = AtomicBool::new(false);
    let (in_time, sips) = thread::join(
        &rt,
        || {
            let in_time = is_sent_in_time(&stream, &bytes);
            is_sent.store(true, Ordering::SeqCst);
            in_time
        },
        || sip(client, &pause, &is_sent),
    );
    assert!(rt; in_time?);
    assert!(rt; sips < SIPS / 2);
    Ok(())
}
