ghost use Rattle.std.specs.Prelude.{◌≡◌, ◌+◌, ◌^◌, ◌<◌, ◌≤◌, ◌↔◌, ℕ, List, Some, IsTrue, length, min, drop, IfOk, OnOk, OnErr, IsOk, IsErr};
ghost use Rattle.hpx_ports.specs.Faults.{Rose, raised};
ghost use Rattle.hpx_ports.specs.Bytes.{Reads};
ghost use Rattle.hpx_ports.specs.Plans.{fails_next, after_call};

use crate::fault::{Failed, raise};
use crate::plan::Plan;
use crate::source::Source;
use crate::unread::Reading;
use hpx_value::items::{Bytes, Lengths};
use std::marker::Model;

/// A source of bytes in memory that never fails.
#[derive(Drop)]
pub struct SureSource {
    reading: Reading,
}

impl Model for SureSource {
    ghost use Rattle.hpx_ports.specs.Supplies.{Unread};

    ghost Value = { Unread };

    ghost view = { λ s. s.reading };
}

impl SureSource {
    /// All the bytes are left.
    pub fn new(bytes: Bytes) -> SureSource
        ensures left { result.left ≡ bytes }
        ensures taken { result.taken ≡ 0 }
    {
        SureSource {
            reading: Reading::new(bytes),
        }
    }
}

impl Source for SureSource {
    ghost faults = { λ s. 0 };

    ghost taken = { λ s. s.taken };

    ghost left = { λ s. Some s.left };

    /// Reads as many bytes as the buffer has room for.
    fn read(&mut self, buf: &mut [u8]) -> Result<usize, Failed>
        ensures sure { IsOk result }
        ensures count { IfOk result (λ n. n ≡ min (length self.old.left) (length buf.old)) }
        ensures ok { IfOk result (λ n. Reads n buf.new (Some self.old.left) (Some self.new.left)) }
        ensures behind { IfOk result (λ n. drop n buf.new ≡ drop n buf.old) }
        ensures taken { IfOk result (λ n. self.new.taken ≡ self.old.taken + n) }
        ensures taken_fits { OnOk result (self.new.taken < 2 ^ 64) }
    {
        Ok(self.reading.read(buf))
    }
}

/// A source of bytes in memory, of which chosen reads fail.
#[derive(Drop)]
pub struct MemSource {
    reading: Reading,
    reads: Plan,
    faults: u64,
}

impl Model for MemSource {
    ghost use Rattle.hpx_ports.specs.Supplies.{Supply};

    ghost Value = { Supply };

    ghost view = { λ s. record { left = s.reading.left; taken = s.reading.taken; reads = s.reads; faults = s.faults } };
}

impl MemSource {
    /// All the bytes are left. The reads with these numbers are to fail, from 1.
    pub fn new(bytes: Bytes, reads: Lengths) -> MemSource
        ensures left { result.left ≡ bytes }
        ensures taken { result.taken ≡ 0 }
        ensures reads { result.reads ≡ record { numbers = reads; calls = 0 } }
        ensures faults { result.faults ≡ 0 }
    {
        MemSource {
            reading: Reading::new(bytes),
            reads: Plan {
                numbers: reads,
                calls: 0,
            },
            faults: 0,
        }
    }

    /// How many reads have failed.
    pub fn faults(&self) -> u64
        ensures { result ≡ self.now.faults }
    {
        self.faults
    }
}

impl Source for MemSource {
    ghost faults = { λ s. s.faults };

    ghost taken = { λ s. s.taken };

    ghost left = { λ s. Some s.left };

    /// Reads as many bytes as the buffer has room for, unless this read is to fail.
    fn read(&mut self, buf: &mut [u8]) -> Result<usize, Failed>
        ensures planned { IsErr result ↔ IsTrue (fails_next self.old.reads) }
        ensures counted { self.new.reads ≡ after_call self.old.reads }
        ensures count { IfOk result (λ n. n ≡ min (length self.old.left) (length buf.old)) }
        ensures ok { IfOk result (λ n. Reads n buf.new (Some self.old.left) (Some self.new.left)) }
        ensures behind { IfOk result (λ n. drop n buf.new ≡ drop n buf.old) }
        ensures taken { IfOk result (λ n. self.new.taken ≡ self.old.taken + n) }
        ensures taken_fits { OnOk result (self.new.taken < 2 ^ 64) }
        ensures stands { OnOk result (self.new.faults ≡ self.old.faults) }

        ensures left_err { OnErr result (self.new.left ≡ self.old.left) }
        ensures taken_err { OnErr result (self.new.taken ≡ self.old.taken) }
        ensures buf_err { OnErr result (buf.new ≡ buf.old) }
        ensures faults_err { OnErr result (self.new.faults ≡ raised self.old.faults) }
        ensures cause { OnErr result (Rose self.old.faults self.new.faults) }
        ensures never_falls { self.old.faults ≤ self.new.faults }
    {
        if self.reads.next_fails() {
            self.faults = raise(self.faults);
            return Err(Failed);
        }
        Ok(self.reading.read(buf))
    }
}
