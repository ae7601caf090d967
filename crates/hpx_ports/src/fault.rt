ghost use Rattle.std.specs.Prelude.{◌≡◌};
ghost use Rattle.hpx_ports.specs.declared.fault.FabricFault.TheVariants.{OutOfMemory as NoMemory};
ghost use Rattle.hpx_ports.specs.Faults.{raised};

use hpx_value::memory::OutOfMemory;
use std::alloc::AllocError;
use thiserror::Error;

/// The outside did not do what was asked of it.
#[derive(Clone, Copy, Debug, PartialEq, Eq, Error)]
#[error("failed")]
pub struct Failed;

/// Why a frame was not carried.
#[derive(Clone, Copy, Debug, PartialEq, Eq, Error)]
pub enum FabricFault {
    /// The fabric did not do what was asked of it.
    #[error("failed")]
    Failed,
    /// There was no memory.
    #[error("out of memory")]
    OutOfMemory,
}

impl From<AllocError> for FabricFault {
    ghost from_gives = { λ _ fault. fault ≡ NoMemory };

    fn from(_error: AllocError) -> FabricFault {
        FabricFault::OutOfMemory
    }
}

impl From<OutOfMemory> for FabricFault {
    ghost from_gives = { λ _ fault. fault ≡ NoMemory };

    fn from(_error: OutOfMemory) -> FabricFault {
        FabricFault::OutOfMemory
    }
}

/// One more, unless the count stands at its last value.
pub(crate) fn raise(count: u64) -> u64
    ensures { result ≡ raised count }
{
    count.saturating_add(1)
}
