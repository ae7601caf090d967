//! Runs of the top call over ports in memory, and what each leaves, in plain values.
use crate::running::{OBJECT, sent};
use hpx_journal::entry::Event;
use hpx_journal::journal::Journal;
use hpx_judged::worlds::{Asks, PROFILE, asks_in, is_legal};
use hpx_ports::gate::OpenGate;
use hpx_ports::memory_fabric::MemFabric;
use hpx_ports::memory_sink::MemSink;
use hpx_ports::memory_source::MemSource;
use hpx_ports::order::Order;
use hpx_top::acts::AllActs;
use hpx_top::run::{End, run};
use hpx_value::items::{Bytes, Items, Lengths, Text, Texts};
use hpx_world::world::World;
use std::alloc::{AllocError, Global};
use std::sync::Wait;
use std::thread::Threads;

/// Which calls of the ports fail, by their numbers from 1.
#[derive(Clone, Copy)]
pub struct Faults<'a> {
    pub reads: &'a [u64],
    pub writes: &'a [u64],
    pub errors: &'a [u64],
    pub sends: &'a [u64],
    pub delivers: &'a [u64],
}

pub const NONE: Faults = Faults {
    reads: &[],
    writes: &[],
    errors: &[],
    sends: &[],
    delivers: &[],
};

/// What a world tells: the entries of its journal and their weight, how many lines were fed, how many frames brought an object, what was
/// asked of credit, whether a frame is in hand, whether nothing is under way, and whether the judge accepts the journal by the usual
/// profile.
#[derive(Clone, Copy)]
pub struct Told {
    pub entries: u64,
    pub weight: u64,
    pub lines: usize,
    pub objects: usize,
    pub asks: Asks,
    pub hand: bool,
    pub quiet: bool,
    pub legal: bool,
}

/// What a run leaves: its status, what its world tells where there is one, how long the journal was behind each line, and how many
/// events the fabric saw and how many frames are in flight.
#[derive(Drop)]
pub struct Left {
    pub status: u8,
    pub told: Option<Told>,
    pub cuts: Vec<u64>,
    pub events: usize,
    pub in_flight: usize,
}

/// A run that has ended: what it leaves, what was written, and what was written for errors.
#[derive(Drop)]
pub struct Ended {
    pub left: Left,
    pub text: Vec<u8>,
    pub line: Vec<u8>,
}

impl Ended {
    /// The status, and what was written for errors.
    pub fn status(&self) -> (u8, &[u8]) {
        (self.left.status, self.line.as_slice())
    }

    /// How many entries the journal has, where there is one.
    pub fn entries(&self) -> u64 {
        match &self.left.told {
            Some(told) => told.entries,
            None => 0,
        }
    }
}

/// Where a run reads and writes.
#[derive(Drop)]
pub struct Ports {
    source: MemSource,
    sink: MemSink,
    err: MemSink,
}

fn calls(alloc: Global, numbers: &[u64]) -> Result<Lengths, AllocError> {
    Ok(Lengths::from_vec(Vec::from_slice(alloc, numbers)?))
}

fn source(alloc: Global, input: &[u8], reads: &[u64]) -> Result<MemSource, AllocError> {
    let input = Bytes::from_vec(Vec::from_slice(alloc, input)?);
    Ok(MemSource::new(input, calls(alloc, reads)?))
}

fn sink(alloc: Global, writes: &[u64]) -> Result<MemSink, AllocError> {
    Ok(MemSink::new(alloc, calls(alloc, writes)?))
}

/// The ports over an input.
pub fn open_ports(alloc: Global, input: &[u8], faults: &Faults) -> Result<Ports, AllocError> {
    Ok(Ports {
        source: source(alloc, input, faults.reads)?,
        sink: sink(alloc, faults.writes)?,
        err: sink(alloc, faults.errors)?,
    })
}

fn words(alloc: Global, words: &[&[u8]]) -> Result<Texts, AllocError> {
    let mut texts = Vec::new(alloc);
    for word in words {
        texts.push(Text::from_vec(Vec::from_slice(alloc, word)?))?;
    }
    Ok(Items::from_vec(texts))
}

/// The run over a fabric of which these sends and deliveries fail. What `run` says of it is not needed behind it.
fn run_over<R: Threads + Wait + Sync>(
    rt: &R,
    alloc: Global,
    words: &Texts,
    ports: &mut Ports,
    order: Order,
    sends: Lengths,
    delivers: Lengths,
) -> End<MemFabric> {
    let fabric = MemFabric::new(alloc, order, sends, delivers);
    run(
        rt,
        alloc,
        words,
        &mut ports.source,
        &mut ports.sink,
        &mut ports.err,
        fabric,
        &OpenGate,
    )
}

/// How a run on these words over these ports ends.
pub fn end_of<R: Threads + Wait + Sync>(
    rt: &R,
    alloc: Global,
    given: &[&[u8]],
    ports: &mut Ports,
    order: Order,
    faults: &Faults,
) -> Result<End<MemFabric>, AllocError> {
    let words = words(alloc, given)?;
    let sends = calls(alloc, faults.sends)?;
    let delivers = calls(alloc, faults.delivers)?;
    Ok(run_over(rt, alloc, &words, ports, order, sends, delivers))
}

/// How many lines were fed.
fn fed(journal: &Journal) -> usize {
    let mut lines = 0usize;
    for entry in journal.as_slice() {
        if let Event::Line { .. } = &entry.event {
            lines = lines.saturating_add(1);
        }
    }
    lines
}

/// What a world tells.
fn tells(alloc: Global, world: &World<AllActs>) -> Told {
    let journal = world.journal();
    Told {
        entries: journal.entries(),
        weight: journal.weight(),
        lines: fed(journal),
        objects: sent(journal, OBJECT),
        asks: asks_in(journal),
        hand: world.in_hand().is_some(),
        quiet: world.quiet(),
        legal: is_legal(alloc, world, PROFILE),
    }
}

/// What the world tells, where there is one.
fn told_by(alloc: Global, world: &Option<World<AllActs>>) -> Option<Told> {
    match world {
        Some(world) => Some(tells(alloc, world)),
        None => None,
    }
}

/// What an end leaves.
fn leaves(alloc: Global, end: End<MemFabric>) -> Left {
    Left {
        status: end.status,
        told: told_by(alloc, &end.world),
        events: end.fabric.trace().len(),
        in_flight: end.fabric.in_flight(),
        cuts: end.cuts,
    }
}

/// What was written behind a run that leaves this.
fn written(alloc: Global, ports: &Ports, left: Left) -> Result<Ended, AllocError> {
    Ok(Ended {
        text: Vec::from_slice(alloc, ports.sink.bytes())?,
        line: Vec::from_slice(alloc, ports.err.bytes())?,
        left,
    })
}

/// The run on these words over this input.
pub fn ran<R: Threads + Wait + Sync>(
    rt: &R,
    alloc: Global,
    given: &[&[u8]],
    input: &[u8],
    order: Order,
    faults: Faults,
) -> Result<Ended, AllocError> {
    let mut ports = open_ports(alloc, input, &faults)?;
    let left = leaves(alloc, end_of(rt, alloc, given, &mut ports, order, &faults)?);
    written(alloc, &ports, left)
}
