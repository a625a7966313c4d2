//! How the program may fail, with the exit status of each and the text that is said of it. Mistakes of the command line are clap's.

ghost use Rattle.std.specs.Prelude.{◌≡◌};
ghost use Rattle.post_house.specs.Status.{config_failure, run_failure, script_failure, serve_failure, status_of};

use script::{RunFault, ScriptFault};
use serving::ServeFault;
use settings::ConfigFault;
use thiserror::Error;

/// Why the program fails.
#[derive(Clone, Copy, Debug, PartialEq, Eq, Error)]
pub enum Failure {
    /// The settings are wrong.
    #[error("bad configuration: {0}")]
    Config(ConfigFault),
    /// The input or the output failed, a listener could not be made, or a thread.
    #[error("device fault")]
    Device,
    /// Memory was refused.
    #[error("out of memory")]
    NoMemory,
    /// A server's house could not be closed as it should, or a worker or a client slot heard what it didn't await.
    #[error("torn")]
    Torn,
}

// Want of memory is no fault of the settings.
impl From<ConfigFault> for Failure {
    ghost from_gives = { λ fault failure. failure ≡ config_failure fault };

    fn from(fault: ConfigFault) -> Failure {
        match fault {
            ConfigFault::NoMemory => Failure::NoMemory,
            fault => Failure::Config(fault),
        }
    }
}

impl From<ScriptFault> for Failure {
    ghost from_gives = { λ fault failure. failure ≡ script_failure fault };

    fn from(fault: ScriptFault) -> Failure {
        match fault {
            ScriptFault::Config(fault) => Failure::from(fault),
            ScriptFault::Run(fault) => device_or_memory(fault),
        }
    }
}

impl From<ServeFault> for Failure {
    ghost from_gives = { λ fault failure. failure ≡ serve_failure fault };

    fn from(fault: ServeFault) -> Failure {
        match fault {
            ServeFault::Config(fault) => Failure::from(fault),
            ServeFault::Device | ServeFault::Spawn => Failure::Device,
            ServeFault::NoMemory => Failure::NoMemory,
            ServeFault::Torn => Failure::Torn,
        }
    }
}

// What a run that ended early comes to: a device that failed, or want of memory.
fn device_or_memory(fault: RunFault) -> Failure
    ensures { result ≡ run_failure fault }
{
    match fault {
        RunFault::Read | RunFault::Write { .. } => Failure::Device,
        RunFault::NoMemory => Failure::NoMemory,
    }
}

/// The exit status where the settings are wrong.
const WRONG_SETTINGS: u8 = 3;

/// Where the input or the output failed, a listener could not be made, or a thread.
const DEVICE: u8 = 4;

/// Where memory was refused.
const NO_MEMORY: u8 = 5;

/// Where a server's house could not be closed as it should, or somebody heard what wasn't awaited.
const TORN: u8 = 6;

impl Failure {
    /// The exit status: 3 for wrong settings, 4 for a device, 5 for memory, 6 for a server that was torn.
    pub fn status(self) -> u8
        ensures { result ≡ status_of self }
    {
        match self {
            Failure::Config(_) => WRONG_SETTINGS,
            Failure::Device => DEVICE,
            Failure::NoMemory => NO_MEMORY,
            Failure::Torn => TORN,
        }
    }
}
