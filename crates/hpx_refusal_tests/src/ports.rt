//! Ports in memory of which one call is refused, and a gate that counts.
use hpx_ports::gate::Gate;
use hpx_ports::memory_fabric::MemFabric;
use hpx_ports::memory_sink::{MemSink, SureSink};
use hpx_ports::memory_source::MemSource;
use hpx_ports::order::Order;
use hpx_value::items::{Bytes, Lengths};
use hpx_value::memory::OutOfMemory;
use std::alloc::Global;
use std::sync::atomic::{AtomicU64, Ordering};

/// The call that is refused.
#[derive(Clone, Copy, Debug, PartialEq, Eq)]
pub enum Call {
    Read,
    Write,
    Send,
    Deliver,
}

/// Which call is refused, and at which time that it comes, from 1; at 0 none is.
#[derive(Clone, Copy)]
pub struct Refusal {
    pub call: Call,
    pub n: u64,
}

/// Where a run reads and writes, and what carries its frames.
#[derive(Drop)]
pub struct Ports {
    pub source: MemSource,
    pub text: MemSink,
    pub line: SureSink,
}

impl Refusal {
    /// When calls of a sort are refused.
    fn plan(&self, alloc: Global, call: Call) -> Result<Lengths, OutOfMemory> {
        let n = if call == self.call { self.n } else { 0 };
        Ok(Lengths::from_vec(Vec::from_slice(alloc, &[n])?))
    }

    /// The ports over an input.
    pub fn open(&self, alloc: Global, input: &[u8]) -> Result<Ports, OutOfMemory> {
        let input = Bytes::from_vec(Vec::from_slice(alloc, input)?);
        Ok(Ports {
            source: MemSource::new(input, self.plan(alloc, Call::Read)?),
            text: MemSink::new(alloc, self.plan(alloc, Call::Write)?),
            line: SureSink::new(alloc),
        })
    }

    /// The fabric, which brings first what was sent first.
    pub fn fabric(&self, alloc: Global) -> Result<MemFabric, OutOfMemory> {
        let sends = self.plan(alloc, Call::Send)?;
        let delivers = self.plan(alloc, Call::Deliver)?;
        Ok(MemFabric::new(alloc, Order::FirstIn, sends, delivers))
    }

    /// The status then, and what is written for errors.
    pub fn told(&self) -> (u8, &'static [u8]) {
        match self.call {
            Call::Read => (2, b"hpx: read failed\n"),
            Call::Write => (3, b"hpx: write failed\n"),
            Call::Send => (4, b"hpx: fabric failed\n"),
            Call::Deliver => (4, b"hpx: fabric failed\n"),
        }
    }
}

/// Counts the jobs that workers run.
#[derive(Drop)]
pub struct Counting {
    jobs: AtomicU64,
}

impl Counting {
    pub fn new() -> Counting {
        Counting {
            jobs: AtomicU64::new(0),
        }
    }

    /// How many jobs have passed.
    pub fn jobs(&self) -> u64 {
        self.jobs.load(Ordering::SeqCst)
    }
}

impl Gate for Counting {
    fn pass(&self, _worker: u32, _serial: u64) {
        self.jobs.fetch_add(1, Ordering::SeqCst);
    }
}
