//! Spawners: what starts programs, and waits for them.
ghost use Rattle.std.specs.Prelude.{ℕ, List, ◌≡◌};
ghost use Rattle.hpx_ports.specs.declared.spawner.SpawnFault.TheVariants.{OutOfMemory as NoMemory};
ghost use Rattle.hpx_ports.specs.Spawns.{Start, End};

use hpx_value::items::{Text, Texts};
use hpx_value::memory::OutOfMemory;
use thiserror::Error;

/// Why a program was not started, or not waited for.
#[derive(Clone, Copy, Debug, PartialEq, Eq, Error)]
pub enum SpawnFault {
    /// The spawner did not do what was asked of it.
    #[error("failed")]
    Failed,
    /// There was no memory.
    #[error("out of memory")]
    OutOfMemory,
}

impl From<OutOfMemory> for SpawnFault {
    ghost from_gives = { λ _ fault. fault ≡ NoMemory };

    fn from(_error: OutOfMemory) -> SpawnFault {
        SpawnFault::OutOfMemory
    }
}

/// What starts programs as children, and waits until they end.
pub trait Spawner {
    ghost use Rattle.std.specs.Prelude.{◌≡◌, ◌≤◌, ◌∷◌, ◌++◌, [], length, IfOk, OnOk, OnErr, IsErrOf};
    ghost use Rattle.hpx_ports.specs.Faults.{Rose};

    /// How often it has failed. The count never falls, and stands still at `2^64 - 1`.
    ghost faults: { Self → ℕ };

    /// The children that were started, oldest first.
    ghost started: { Self → List Start };

    /// The children that have ended, in the order in which they were waited for.
    ghost ended: { Self → List End };

    /// Starts a program with these words, and answers its place among all that were started.
    fn start(&mut self, program: &Text, words: &Texts) -> Result<u32, SpawnFault>
        ensures place { IfOk result (λ child. child ≡ length (started self.old)) }
        ensures started { OnOk result (started self.new ≡ started self.old ++ (program.now, words.now) ∷ []) }
        ensures started_err { OnErr result (started self.new ≡ started self.old) }
        ensures ended { ended self.new ≡ ended self.old }
        ensures cause { IsErrOf result SpawnFault.Failed → Rose (faults self.old) (faults self.new) }
        ensures stands { (IsErrOf result SpawnFault.Failed → ⊥) → faults self.new ≡ faults self.old }
        ensures never_falls { faults self.old ≤ faults self.new };

    /// Waits until a child ends, and answers its status. One that ends without a status is a fault.
    fn wait(&mut self, child: u32) -> Result<u8, SpawnFault>
        ensures ended { IfOk result (λ status. ended self.new ≡ ended self.old ++ (child, status) ∷ []) }
        ensures ended_err { OnErr result (ended self.new ≡ ended self.old) }
        ensures started { started self.new ≡ started self.old }
        ensures cause { IsErrOf result SpawnFault.Failed → Rose (faults self.old) (faults self.new) }
        ensures stands { (IsErrOf result SpawnFault.Failed → ⊥) → faults self.new ≡ faults self.old }
        ensures never_falls { faults self.old ≤ faults self.new };
}
