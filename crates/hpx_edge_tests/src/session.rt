//! A session over a source and a sink.
use hpx_ports::gate::OpenGate;
use hpx_ports::memory_fabric::SureFabric;
use hpx_ports::memory_sink::SureSink;
use hpx_ports::memory_source::SureSource;
use hpx_ports::order::Order;
use hpx_ports::sink::Sink;
use hpx_ports::source::Source;
use hpx_top::run::{End, run};
use hpx_value::items::{Bytes, Items, Text, Texts};
use hpx_value::memory::OutOfMemory;
use std::alloc::Global;
use std::sync::Wait;
use std::thread::Threads;

/// What is written before the first line is read.
pub const COMMANDS: &[u8] = b"commands: reset, add [amount], query, help, quit\n";

/// A session that has ended: its status, what was written for errors, and how many entries its journal has.
#[derive(Drop)]
pub struct Ended {
    pub status: u8,
    pub line: SureSink,
    pub entries: u64,
}

/// Words.
pub fn words(alloc: Global, given: &[&[u8]]) -> Result<Texts, OutOfMemory> {
    let mut words = Items::new(alloc);
    for word in given {
        words.push(Text::from_vec(Vec::from_slice(alloc, word)?))?;
    }
    Ok(words)
}

/// How many entries the journal has, where there is one.
fn entries_of(end: &End<SureFabric>) -> u64 {
    match &end.world {
        Some(world) => world.journal().entries(),
        None => 0,
    }
}

/// The status of a run on these words, and how many entries its journal has. What `run` says of it is not needed behind it.
fn run_over<S: Source, K: Sink, R: Threads + Wait + Sync>(
    rt: &R,
    alloc: Global,
    words: &Texts,
    source: &mut S,
    sink: &mut K,
    err: &mut SureSink,
    order: Order,
) -> (u8, u64) {
    let fabric = SureFabric::new(alloc, order);
    let end = run(rt, alloc, words, source, sink, err, fabric, &OpenGate);
    (end.status, entries_of(&end))
}

/// The accumulator over two localities.
pub fn session<S: Source, K: Sink, R: Threads + Wait + Sync>(
    rt: &R,
    alloc: Global,
    source: &mut S,
    sink: &mut K,
    order: Order,
) -> Result<Ended, OutOfMemory> {
    let words = words(alloc, &[b"accumulator", b"--hpx:localities=2"])?;
    let mut line = SureSink::new(alloc);
    let (status, entries) = run_over(rt, alloc, &words, source, sink, &mut line, order);
    Ok(Ended {
        status,
        line,
        entries,
    })
}

/// What a session prints whose input is this, where no port fails, and how it ended.
pub fn printed<R: Threads + Wait + Sync>(
    rt: &R,
    alloc: Global,
    input: Vec<u8>,
    order: Order,
) -> Result<(SureSink, Ended), OutOfMemory> {
    let mut source = SureSource::new(Bytes::from_vec(input));
    let mut sink = SureSink::new(alloc);
    let ended = session(rt, alloc, &mut source, &mut sink, order)?;
    Ok((sink, ended))
}

/// So many times the same bytes, behind others.
pub fn push_times(out: &mut Vec<u8>, piece: &[u8], times: usize) -> Result<(), OutOfMemory> {
    for _ in 0..times {
        out.extend_from_slice(piece)?;
    }
    Ok(())
}
