//! What stands where no settings are given, and to which ports mail may come. Which fault comes first is tried on the built program (tests/command_lines.py).

ghost use Rattle.std.specs.Prelude.{◌≤◌};

use house::House;
use settings::{Config, ConfigFault};
use std::alloc::{AllocError, Global};

// Whether settings are those of one mailbox where nothing is given.
fn are_standing(config: &Config) -> bool {
    config.host.as_slice() == b"mx.example.org".as_slice()
        && config.domain.as_slice() == b"example.org".as_slice()
        && config.mailboxes.len() == 1
        && config.max_message == 1_048_576
        && config.workers == 4
        && config.lmtp_port == 2424
        && config.imap_port == 14_300
        && !config.compatible
}

#[test]
fn what_stands_where_nothing_is_given(rt: HostRuntime) -> Result<(), AllocError> {
    let config = Config::new(rt.alloc(), &[b"alice".as_slice()])?;
    assert!(rt; are_standing(&config));
    Ok(())
}

// What is wrong with settings of two users and a folder where mail comes to this port, the users' sessions to 14300 and 14301, and the ring
// keeps so many changes.
fn fault_at(alloc: Global, port: u16, ring: usize) -> Result<Option<ConfigFault>, AllocError>
    requires least { 16 ≤ ring }
    requires most { ring ≤ 65536 }
    requires port { 1 ≤ port }
{
    let words = [
        b"alice".as_slice(),
        b"alice/Work".as_slice(),
        b"bob".as_slice(),
    ];
    let mut config = Config::new(alloc, &words)?;
    config.lmtp_port = port;
    config.ring = ring;
    Ok(House::new(alloc, &config).err())
}

const WRONG: Result<Option<ConfigFault>, AllocError> = Ok(Some(ConfigFault::Ports));

#[test]
fn mail_comes_to_a_port_of_its_own(rt: HostRuntime) {
    let alloc = rt.alloc();
    assert_eq!(rt; fault_at(alloc, 2424, 2048), Ok(None));
    assert_eq!(rt; fault_at(alloc, 25, 2048), WRONG);
    assert_eq!(rt; fault_at(alloc, 14_299, 2048), Ok(None));
    assert_eq!(rt; fault_at(alloc, 14_300, 2048), WRONG);
    assert_eq!(rt; fault_at(alloc, 14_301, 2048), WRONG);
    assert_eq!(rt; fault_at(alloc, 14_302, 2048), Ok(None));
    assert_eq!(rt; fault_at(alloc, 25, 2047), Ok(Some(ConfigFault::Ring)));
}
