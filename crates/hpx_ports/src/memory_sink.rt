ghost use Rattle.std.specs.Prelude.{◌≡◌, ◌+◌, ◌≤◌, ◌++◌, [], Some, IsTrue, length, IfOk, OnOk, OnErr, IsErr};
ghost use Rattle.hpx_ports.specs.Faults.{Rose, raised};
ghost use Rattle.hpx_ports.specs.Bytes.{Writes};
ghost use Rattle.hpx_ports.specs.Plans.{fails_next, after_call};

use crate::fault::{Failed, raise};
use crate::plan::Plan;
use crate::sink::Sink;
use hpx_value::items::Lengths;
use std::alloc::Global;
use std::marker::Model;

/// A sink of bytes in memory that fails only for want of memory, which it counts.
#[derive(Drop)]
pub struct SureSink {
    held: Vec<u8>,
    faults: u64,
}

impl Model for SureSink {
    ghost use Rattle.hpx_ports.specs.Holdings.{Kept};

    ghost Value = { Kept };

    ghost view = { λ s. record { held = s.held.items; faults = s.faults } };
}

impl SureSink {
    /// It holds nothing.
    pub fn new(alloc: Global) -> SureSink
        ensures held { result.held ≡ [] }
        ensures faults { result.faults ≡ 0 }
    {
        SureSink {
            held: Vec::new(alloc),
            faults: 0,
        }
    }

    /// The bytes that it holds.
    pub fn bytes(&self) -> &[u8]
        ensures { result.now ≡ self.now.held }
    {
        self.held.as_slice()
    }

    /// How many writes failed.
    pub fn faults(&self) -> u64
        ensures { result ≡ self.now.faults }
    {
        self.faults
    }
}

impl Sink for SureSink {
    ghost faults = { λ s. s.faults };

    ghost held = { λ s. Some s.held };

    /// Takes the whole piece.
    fn write(&mut self, piece: &[u8]) -> Result<usize, Failed>
        ensures whole { IfOk result (λ n. n ≡ length piece.now) }
        ensures held { OnOk result (self.new.held ≡ self.old.held ++ piece.now) }
        ensures stands { OnOk result (self.new.faults ≡ self.old.faults) }
        ensures faults_err { OnErr result (self.new.faults ≡ raised self.old.faults) }

        ensures ok { IfOk result (λ n. Writes n piece.now (Some self.old.held) (Some self.new.held)) }
        ensures err { OnErr result (self.new.held ≡ self.old.held) }
        ensures cause { OnErr result (Rose self.old.faults self.new.faults) }
        ensures never_falls { self.old.faults ≤ self.new.faults }
    {
        if self.held.extend_from_slice(piece).is_err() {
            self.faults = raise(self.faults);
            return Err(Failed);
        }
        Ok(piece.len())
    }
}

/// A sink of bytes in memory, of which chosen writes fail. Want of memory is a failure too.
#[derive(Drop)]
pub struct MemSink {
    held: Vec<u8>,
    writes: Plan,
    faults: u64,
}

impl Model for MemSink {
    ghost use Rattle.hpx_ports.specs.Holdings.{Holding};

    ghost Value = { Holding };

    ghost view = { λ s. record { held = s.held.items; writes = s.writes; faults = s.faults } };
}

impl MemSink {
    /// It holds nothing. The writes with these numbers are to fail, from 1.
    pub fn new(alloc: Global, writes: Lengths) -> MemSink
        ensures held { result.held ≡ [] }
        ensures writes { result.writes ≡ record { numbers = writes; calls = 0 } }
        ensures faults { result.faults ≡ 0 }
    {
        MemSink {
            held: Vec::new(alloc),
            writes: Plan {
                numbers: writes,
                calls: 0,
            },
            faults: 0,
        }
    }

    /// The bytes that it holds.
    pub fn bytes(&self) -> &[u8]
        ensures { result.now ≡ self.now.held }
    {
        self.held.as_slice()
    }

    /// How many writes failed.
    pub fn faults(&self) -> u64
        ensures { result ≡ self.now.faults }
    {
        self.faults
    }
}

impl Sink for MemSink {
    ghost faults = { λ s. s.faults };

    ghost held = { λ s. Some s.held };

    /// Takes the whole piece, unless this write is to fail.
    fn write(&mut self, piece: &[u8]) -> Result<usize, Failed>
        ensures planned { IsTrue (fails_next self.old.writes) → IsErr result }
        ensures counted { self.new.writes ≡ after_call self.old.writes }
        ensures whole { IfOk result (λ n. n ≡ length piece.now) }
        ensures held { OnOk result (self.new.held ≡ self.old.held ++ piece.now) }
        ensures stands { OnOk result (self.new.faults ≡ self.old.faults) }
        ensures faults_err { OnErr result (self.new.faults ≡ raised self.old.faults) }

        ensures ok { IfOk result (λ n. Writes n piece.now (Some self.old.held) (Some self.new.held)) }
        ensures err { OnErr result (self.new.held ≡ self.old.held) }
        ensures cause { OnErr result (Rose self.old.faults self.new.faults) }
        ensures never_falls { self.old.faults ≤ self.new.faults }
    {
        if self.writes.next_fails() || self.held.extend_from_slice(piece).is_err() {
            self.faults = raise(self.faults);
            return Err(Failed);
        }
        Ok(piece.len())
    }
}
