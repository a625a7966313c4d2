//! A pause lasts about as long as it is to, and ends.

use std::io;
use std::time::{Duration, Instant};
use workers_sync::Pause;

#[test]
fn a_pause_lasts_and_ends(rt: HostRuntime) -> io::Result<()> {
    let pause = Pause::new(&rt)?;
    let began = Instant::now(&rt)?;
    pause.wait();
    // Half of what it is to last, since the system's clocks may differ a little.
    assert!(rt; began.elapsed(&rt)? >= Duration::from_millis(50));
    Ok(())
}
