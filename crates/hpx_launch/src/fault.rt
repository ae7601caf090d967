//! Why the launcher answers with a status of its own.
ghost use Rattle.std.specs.Prelude.{◌≡◌};
ghost use Rattle.hpx_launch.specs.Launches.{fault_line, fault_of_spawn, fault_status};
ghost use Rattle.hpx_launch.specs.declared.fault.LaunchFault.TheVariants.{OutOfMemory as NoMemory};

use hpx_ports::spawner::SpawnFault;
use hpx_value::memory::OutOfMemory;
use std::alloc::{AllocError, AllocFailed};
use thiserror::Error;

/// Why the children gave no answer.
#[derive(Clone, Copy, Debug, PartialEq, Eq, Error)]
pub enum LaunchFault {
    /// The words are no order.
    #[error("bad words")]
    BadWords,
    /// A child could not be started, or ended without a status.
    #[error("start failed")]
    StartFailed,
    /// There was no memory.
    #[error("out of memory")]
    OutOfMemory,
}

impl LaunchFault {
    /// The status for it.
    pub fn status(self) -> u8
        ensures { result ≡ fault_status self }
    {
        match self {
            LaunchFault::BadWords => 1,
            LaunchFault::StartFailed => 4,
            LaunchFault::OutOfMemory => 6,
        }
    }

    /// The line for it.
    pub fn line(self) -> &'static [u8]
        ensures { result.now ≡ fault_line self }
    {
        match self {
            LaunchFault::BadWords => b"hpxrun: bad words\n",
            LaunchFault::StartFailed => b"hpxrun: start failed\n",
            LaunchFault::OutOfMemory => b"hpxrun: out of memory\n",
        }
    }
}

impl From<OutOfMemory> for LaunchFault {
    ghost from_gives = { λ _ fault. fault ≡ NoMemory };

    fn from(_error: OutOfMemory) -> LaunchFault {
        LaunchFault::OutOfMemory
    }
}

impl From<AllocError> for LaunchFault {
    ghost from_gives = { λ _ fault. fault ≡ NoMemory };

    fn from(_error: AllocError) -> LaunchFault {
        LaunchFault::OutOfMemory
    }
}

impl<T: Drop> From<AllocFailed<T>> for LaunchFault {
    ghost from_gives = { λ _ fault. fault ≡ NoMemory };

    fn from(_error: AllocFailed<T>) -> LaunchFault {
        LaunchFault::OutOfMemory
    }
}

impl From<SpawnFault> for LaunchFault {
    ghost from_gives = { λ spawn fault. fault ≡ fault_of_spawn spawn };

    fn from(fault: SpawnFault) -> LaunchFault {
        match fault {
            SpawnFault::Failed => LaunchFault::StartFailed,
            SpawnFault::OutOfMemory => LaunchFault::OutOfMemory,
        }
    }
}
