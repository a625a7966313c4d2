//! Why a house doesn't serve. Plain data.

ghost use Rattle.std.specs.Prelude.{◌≡◌};
ghost use Rattle.serving.specs.Faults.{of_config};
ghost use Rattle.serving.specs.inner.Faults.{IsOfSocket};

use settings::ConfigFault;
use std::alloc::AllocError;
use std::io;
use thiserror::Error;

/// Why a house doesn't serve, or didn't to its end. Of several causes the first in this order is told; but memory that is refused ends what
/// wanted it, so `NoMemory` can come in place of whatever would have been found later.
#[derive(Clone, Copy, Debug, PartialEq, Eq, Error)]
pub enum ServeFault {
    /// The settings are wrong.
    #[error("{0}")]
    Config(ConfigFault),
    /// A listener could not be made, or what is said of it could not be written.
    #[error("Device")]
    Device,
    /// A thread could not be made; nobody was served.
    #[error("Spawn")]
    Spawn,
    /// Memory was refused before the first thread ran.
    #[error("NoMemory")]
    NoMemory,
    /// A worker or a client slot heard a verdict that it didn't await, a shared consumer met a copy that was nobody's, or a queue could not be closed.
    #[error("Torn")]
    Torn,
}

impl From<AllocError> for ServeFault {
    ghost use Rattle.serving.specs.declared.fault.ServeFault.{ServeFault};

    ghost from_gives = { λ _ fault. fault ≡ ServeFault.NoMemory };

    fn from(_error: AllocError) -> ServeFault {
        ServeFault::NoMemory
    }
}

impl From<ConfigFault> for ServeFault {
    ghost from_gives = { λ config fault. fault ≡ of_config config };

    fn from(fault: ConfigFault) -> ServeFault {
        match fault {
            ConfigFault::NoMemory => ServeFault::NoMemory,
            fault => ServeFault::Config(fault),
        }
    }
}

/// What a socket that can't be had comes to: want of memory, or a device.
pub(crate) fn device_or_memory(error: &io::Error) -> ServeFault
    ensures { IsOfSocket result }
{
    match error.kind() {
        io::ErrorKind::OutOfMemory => ServeFault::NoMemory,
        _ => ServeFault::Device,
    }
}
