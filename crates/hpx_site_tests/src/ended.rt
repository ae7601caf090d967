//! Runs of the top call over ports in memory, and what each leaves, in plain values.
use hpx_journal::entry::Event;
use hpx_journal::journal::Journal;
use hpx_judged::worlds::{PROFILE, is_legal};
use hpx_ports::gate::Gate;
use hpx_ports::memory_fabric::MemFabric;
use hpx_ports::memory_sink::SureSink;
use hpx_ports::memory_source::SureSource;
use hpx_ports::order::Order;
use hpx_top::acts::AllActs;
use hpx_top::run::{End, run};
use hpx_value::items::{Bytes, Items, Lengths, Text, Texts};
use hpx_value::memory::OutOfMemory;
use hpx_world::world::World;
use std::alloc::Global;
use std::sync::Wait;
use std::thread::Threads;

/// What a world tells: how many jobs were handed out directly one after another, where most were, whether nothing is under way, and
/// whether the judge accepts the journal.
#[derive(Clone, Copy, Debug, PartialEq, Eq)]
pub struct Told {
    pub fires: u64,
    pub quiet: bool,
    pub legal: bool,
}

/// A run that has ended: its status, what its world tells where there is one, and what was written.
#[derive(Drop)]
pub struct Ended {
    pub status: u8,
    pub told: Option<Told>,
    pub text: Vec<u8>,
}

/// What a run is given: its words, apart by blanks, the order of delivery, and which sends fail, by their numbers from 1.
#[derive(Clone, Copy)]
pub struct Given<'a> {
    pub words: &'a str,
    pub order: Order,
    pub sends: &'a [u64],
}

fn words(alloc: Global, line: &str) -> Result<Texts, OutOfMemory> {
    let mut texts = Vec::new(alloc);
    for word in line.split(' ') {
        texts.push(Text::from_vec(Vec::from_slice(alloc, word.as_bytes())?))?;
    }
    Ok(Items::from_vec(texts))
}

fn calls(alloc: Global, numbers: &[u64]) -> Result<Lengths, OutOfMemory> {
    Ok(Lengths::from_vec(Vec::from_slice(alloc, numbers)?))
}

/// How many jobs were handed out directly one after another, where most were.
fn most_fires(journal: &Journal) -> u64 {
    let mut most = 0;
    let mut fires = 0u64;
    for entry in journal.as_slice() {
        fires = match entry.event {
            Event::Fire { action: _ } => fires.saturating_add(1),
            _ => 0,
        };
        most = fires.max(most);
    }
    most
}

/// What a world tells.
fn tells(alloc: Global, world: &World<AllActs>) -> Told {
    Told {
        fires: most_fires(world.journal()),
        quiet: world.quiet(),
        legal: is_legal(alloc, world, PROFILE),
    }
}

/// What the world tells, where there is one.
fn told_by(alloc: Global, world: &Option<World<AllActs>>) -> Option<Told> {
    match world {
        Some(world) => Some(tells(alloc, world)),
        None => None,
    }
}

/// The status of an end, and what its world tells.
fn leaves(alloc: Global, end: End<MemFabric>) -> (u8, Option<Told>) {
    (end.status, told_by(alloc, &end.world))
}

/// The run over these ports, and over a fabric of which these sends fail. What `run` says of it is not needed behind it.
fn run_over<R: Threads + Wait + Sync, G: Gate>(
    rt: &R,
    alloc: Global,
    words: &Texts,
    source: &mut SureSource,
    sink: &mut SureSink,
    err: &mut SureSink,
    order: Order,
    sends: Lengths,
    gate: &G,
) -> End<MemFabric> {
    let delivers = Lengths::from_vec(Vec::new(alloc));
    let fabric = MemFabric::new(alloc, order, sends, delivers);
    run(rt, alloc, words, source, sink, err, fabric, gate)
}

/// What a run leaves that writes to a sink. No input is read.
fn left_by<R: Threads + Wait + Sync, G: Gate>(
    rt: &R,
    alloc: Global,
    given: &Given,
    sink: &mut SureSink,
    gate: &G,
) -> Result<(u8, Option<Told>), OutOfMemory> {
    let words = words(alloc, given.words)?;
    let sends = calls(alloc, given.sends)?;
    let mut source = SureSource::new(Bytes::from_vec(Vec::new(alloc)));
    let mut err = SureSink::new(alloc);
    let end = run_over(
        rt,
        alloc,
        &words,
        &mut source,
        sink,
        &mut err,
        given.order,
        sends,
        gate,
    );
    Ok(leaves(alloc, end))
}

/// The run on what is given, over a gate that workers pass.
pub fn ran<R: Threads + Wait + Sync, G: Gate>(
    rt: &R,
    alloc: Global,
    given: &Given,
    gate: &G,
) -> Result<Ended, OutOfMemory> {
    let mut sink = SureSink::new(alloc);
    let (status, told) = left_by(rt, alloc, given, &mut sink, gate)?;
    let text = Vec::from_slice(alloc, sink.bytes())?;
    Ok(Ended { status, told, text })
}
