//! What a command line means.

use arrayvec::ArrayVec;
use hpx_counters::counter::Counter;
use hpx_value::profile::Profile;
use thiserror::Error;

/// The most counters that one line can ask for.
pub const COUNTERS: usize = 64;

/// Counters that a line asks for, in order.
pub type Counters = ArrayVec<Counter, COUNTERS>;

/// A collective operation.
#[derive(Clone, Copy, Debug, PartialEq, Eq)]
pub enum Op {
    Broadcast,
    Reduce,
    AllGather,
    Scatter,
}

/// What is to be run, with its numbers, or printed.
#[derive(Clone, Copy, Debug, PartialEq, Eq)]
pub enum App {
    Accumulator,
    Space,
    Fib { n: u32, threshold: u32 },
    Stencil { points: u32, parts: u32, steps: u32 },
    Load { start: u32, lines: u32 },
    Check,
    Collect { op: Op, start: u32 },
    Vector { points: u32, parts: u32 },
    Help,
    Version,
    ListCounters,
}

/// Whether all localities are in this process, or this is one of many.
#[derive(Clone, Copy, Debug, PartialEq, Eq)]
pub enum Mode {
    Hosted,
    /// Locality 0, with the port at which it listens.
    Console { port: u16 },
    /// Another locality, with the port of locality 0.
    Worker { node: u32, port: u16 },
}

/// What a command line means.
#[derive(Drop)]
pub struct Settings {
    pub app: App,
    pub localities: u32,
    pub threads: u32,
    pub profile: Profile,
    /// The counters that are printed at the end, in order.
    pub counters: Counters,
    pub mode: Mode,
    /// Whether the console waits before each prompt until all is done everywhere.
    pub settle: bool,
    /// Whether the journal is written in place of the text.
    pub journal: bool,
}

/// A command line has no meaning: the word at this place, from 1, does not fit; 0 where a word is missing, or words clash.
#[derive(Clone, Copy, Debug, PartialEq, Eq, Error)]
#[error("bad word {place}")]
pub struct OptionFault {
    pub place: u32,
}
