//! Runs of the top call, and what each leaves, in plain values.
use crate::ports::{Counting, Ports, Refusal};
use hpx_journal::entry::Event;
use hpx_journal::journal::Journal;
use hpx_judged::worlds::{PROFILE, is_legal};
use hpx_ports::fabric::Wire;
use hpx_ports::memory_fabric::MemFabric;
use hpx_top::acts::AllActs;
use hpx_top::run::{End, run};
use hpx_value::items::{Items, Text, Texts};
use hpx_value::memory::OutOfMemory;
use hpx_world::world::World;
use std::alloc::Global;
use std::sync::Wait;
use std::thread::Threads;

/// What a world tells: how many lines were fed, whether a frame is in hand, whether nothing is under way, and whether the judge accepts
/// the journal.
#[derive(Clone, Copy, Debug, PartialEq, Eq)]
pub struct Told {
    pub lines: usize,
    pub hand: bool,
    pub quiet: bool,
    pub legal: bool,
}

/// What a fabric tells: how many frames were sent and how many delivered, how many are in flight, and all that happened, spelled.
#[derive(Drop)]
pub struct Crossed {
    pub sent: usize,
    pub delivered: usize,
    pub in_flight: usize,
    pub trace: Vec<u8>,
}

/// What a run leaves: its status, what its world tells where there is one, how many lines were handled, and what its fabric tells.
#[derive(Drop)]
pub struct Left {
    pub status: u8,
    pub told: Option<Told>,
    pub handled: usize,
    pub crossed: Crossed,
}

/// A run that has ended: what it leaves, what was written, what was written for errors, and how many jobs workers ran.
#[derive(Drop)]
pub struct Ended {
    pub left: Left,
    pub text: Vec<u8>,
    pub line: Vec<u8>,
    pub jobs: u64,
}

fn words(alloc: Global, words: &[&[u8]]) -> Result<Texts, OutOfMemory> {
    let mut texts = Vec::new(alloc);
    for word in words {
        texts.push(Text::from_vec(Vec::from_slice(alloc, word)?))?;
    }
    Ok(Items::from_vec(texts))
}

/// How many lines were fed.
fn fed(journal: &Journal) -> usize {
    let mut lines = 0usize;
    for entry in journal.as_slice() {
        if let Event::Line { .. } = &entry.event {
            lines = lines.saturating_add(1);
        }
    }
    lines
}

/// What a world tells.
fn tells(alloc: Global, world: &World<AllActs>) -> Told {
    Told {
        lines: fed(world.journal()),
        hand: world.in_hand().is_some(),
        quiet: world.quiet(),
        legal: is_legal(alloc, world, PROFILE),
    }
}

/// What the world tells, where there is one.
fn told_by(alloc: Global, world: &Option<World<AllActs>>) -> Option<Told> {
    match world {
        Some(world) => Some(tells(alloc, world)),
        None => None,
    }
}

/// One thing that happened, spelled, and whether a frame was sent.
fn spell(out: &mut Vec<u8>, wire: &Wire) -> Result<bool, OutOfMemory> {
    let (sent, from, to, bytes) = match wire {
        Wire::Sent { from, to, bytes } => (true, *from, *to, bytes),
        Wire::Delivered { to, bytes } => (false, 0, *to, bytes),
    };
    out.push(if sent { b's' } else { b'd' })?;
    out.extend_from_slice(from.to_be_bytes().as_slice())?;
    out.extend_from_slice(to.to_be_bytes().as_slice())?;
    out.extend_from_slice(bytes.as_slice())?;
    Ok(sent)
}

/// What happened, counted and spelled. Where memory is wanting the spelling is cut.
fn crossing(alloc: Global, trace: &[Wire], in_flight: usize) -> Crossed {
    let mut crossed = Crossed {
        sent: 0,
        delivered: 0,
        in_flight,
        trace: Vec::new(alloc),
    };
    for wire in trace {
        match spell(&mut crossed.trace, wire) {
            Ok(true) => crossed.sent = crossed.sent.saturating_add(1),
            Ok(false) => crossed.delivered = crossed.delivered.saturating_add(1),
            Err(_) => break,
        }
    }
    crossed
}

/// What an end leaves.
fn leaves(alloc: Global, end: End<MemFabric>) -> Left {
    Left {
        status: end.status,
        told: told_by(alloc, &end.world),
        handled: end.cuts.len(),
        crossed: crossing(alloc, end.fabric.trace(), end.fabric.in_flight()),
    }
}

/// The run over a fabric. What `run` says of it is not needed behind it.
fn run_over<R: Threads + Wait + Sync>(
    rt: &R,
    alloc: Global,
    words: &Texts,
    ports: &mut Ports,
    fabric: MemFabric,
    gate: &Counting,
) -> End<MemFabric> {
    run(
        rt,
        alloc,
        words,
        &mut ports.source,
        &mut ports.text,
        &mut ports.line,
        fabric,
        gate,
    )
}

/// What a run leaves over these ports.
fn left_by<R: Threads + Wait + Sync>(
    rt: &R,
    alloc: Global,
    words: &Texts,
    ports: &mut Ports,
    refusal: &Refusal,
    gate: &Counting,
) -> Result<Left, OutOfMemory> {
    let fabric = refusal.fabric(alloc)?;
    Ok(leaves(alloc, run_over(rt, alloc, words, ports, fabric, gate)))
}

/// The run on these words over this input, of which one call is refused.
pub fn ran<R: Threads + Wait + Sync>(
    rt: &R,
    alloc: Global,
    given: &[&[u8]],
    input: &[u8],
    refusal: &Refusal,
) -> Result<Ended, OutOfMemory> {
    let words = words(alloc, given)?;
    let gate = Counting::new();
    let mut ports = refusal.open(alloc, input)?;
    let left = left_by(rt, alloc, &words, &mut ports, refusal, &gate)?;
    Ok(Ended {
        text: Vec::from_slice(alloc, ports.text.bytes())?,
        line: Vec::from_slice(alloc, ports.line.bytes())?,
        jobs: gate.jobs(),
        left,
    })
}
