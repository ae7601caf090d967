ghost use Rattle.std.specs.Prelude.{◌≡◌, ◌+◌, ◌^◌, ◌<◌, ◌≤◌, ℕ, List, IfOk, OnOk, OnErr};
ghost use Rattle.std.specs.declared.option.Option.{Option};
ghost use Rattle.hpx_ports.specs.Faults.{Rose};
ghost use Rattle.hpx_ports.specs.Bytes.{Reads};

use crate::fault::Failed;

/// Where bytes come from.
pub trait Source {
    /// How often it has failed. The count never falls, and stands still at `2^64 - 1`.
    ghost faults: { Self → ℕ };

    /// How many bytes were read.
    ghost taken: { Self → ℕ };

    /// The bytes that are left, where it tells.
    ghost left: { Self → Option (List ℕ) };

    /// Reads some bytes into the front of a buffer, and answers how many. 0 for a buffer with
    /// room is the end of the bytes. A read after which more than `2^64 - 1` bytes would have
    /// been taken fails.
    fn read(&mut self, buf: &mut [u8]) -> Result<usize, Failed>
        ensures ok { IfOk result (λ n. Reads n buf.new (left self.old) (left self.new)) }
        ensures taken { IfOk result (λ n. taken self.new ≡ taken self.old + n) }
        ensures taken_fits { OnOk result (taken self.new < 2 ^ 64) }
        ensures stands { OnOk result (faults self.new ≡ faults self.old) }

        ensures left_err { OnErr result (left self.new ≡ left self.old) }
        ensures taken_err { OnErr result (taken self.new ≡ taken self.old) }
        ensures cause { OnErr result (Rose (faults self.old) (faults self.new)) }
        ensures never_falls { faults self.old ≤ faults self.new };
}
