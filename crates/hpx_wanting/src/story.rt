//! A world and its fabric, and what is seen of them where memory is wanting.
use hpx_journal::cargo::one;
use hpx_journal::entry::Event;
use hpx_journal::journal::Journal;
use hpx_judged::worlds::{is_legal, printed};
use hpx_ports::memory_fabric::SureFabric;
use hpx_ports::order::Order;
use hpx_trial::trial::Trial;
use hpx_value::acts::{Acts, Done};
use hpx_value::memory::OutOfMemory;
use hpx_value::profile::Profile;
use hpx_world::turns::{Choice, WorldFault};
use hpx_world::world::World;
use std::alloc::Global;

/// A new object has a credit of 256.
const PROFILE: Profile = Profile {
    credit_log: 8,
    credit_limit: 1024,
    cache: 1,
};

/// A world, and how often memory was wanting, and whether what was left then was not right.
#[derive(Drop)]
pub struct Session {
    world: World<Trial>,
    fabric: SureFabric,
    wanted: u32,
    wrong: bool,
}

/// How often memory was wanting, and whether what was left then, or in the end, was not right.
#[derive(Clone, Copy)]
pub struct Told {
    pub wanted: u32,
    pub wrong: bool,
}

/// What the session prints.
const TEXT: &[u8] = b"5\n10\n";

/// Whether a job is out: one was handed out and is not done.
fn is_out(journal: &Journal) -> bool {
    let mut out = 0u32;
    for entry in journal.as_slice() {
        match &entry.event {
            Event::Fire { .. } => out = out.saturating_add(1),
            Event::Done { .. } => out = out.saturating_sub(1),
            _ => (),
        }
    }
    out > 0
}

impl Session {
    /// A world of two localities.
    pub fn boot(alloc: Global) -> Result<Session, OutOfMemory> {
        if !PROFILE.is_valid() {
            return Err(OutOfMemory);
        }
        Ok(Session {
            world: World::boot(alloc, Trial, PROFILE)?,
            fabric: SureFabric::new(alloc, Order::FirstIn),
            wanted: 0,
            wrong: false,
        })
    }

    /// Memory was wanting: the judge has to accept the journal, and a job was handed back exactly where one is out.
    fn note(&mut self, alloc: Global, back: bool) {
        self.wanted = self.wanted.saturating_add(1);
        if back != is_out(self.world.journal()) || !is_legal(alloc, &self.world, PROFILE) {
            self.wrong = true;
        }
    }

    /// Commits a job that was handed back.
    fn finish(&mut self, alloc: Global, done: Done<Trial>) -> Result<(), OutOfMemory> {
        if done.job().at >= self.world.acts().localities() {
            return Err(OutOfMemory);
        }
        match self
            .world
            .turn(alloc, Choice::Finish(done), &mut self.fabric)
        {
            Ok(_) => Ok(()),
            Err(_) => Err(OutOfMemory),
        }
    }

    /// Goes on from a refusal for want of memory.
    fn mend(&mut self, alloc: Global, fault: WorldFault<Trial>) -> Result<(), OutOfMemory> {
        match fault {
            WorldFault::OutOfMemory { undone: None } => {
                self.note(alloc, false);
                Ok(())
            }
            WorldFault::OutOfMemory { undone: Some(done) } => {
                self.note(alloc, true);
                self.finish(alloc, done)
            }
            WorldFault::NotRun { job } => {
                self.note(alloc, true);
                match Done::compute(alloc, &Trial, job) {
                    Ok(done) => self.finish(alloc, done),
                    Err(_) => Err(OutOfMemory),
                }
            }
            _ => Err(OutOfMemory),
        }
    }

    /// One step, if there is one.
    fn step(&mut self, alloc: Global) -> Result<bool, OutOfMemory> {
        match self.world.step(alloc, &mut self.fabric) {
            Ok(more) => Ok(more),
            Err(fault) => {
                self.mend(alloc, fault)?;
                Ok(true)
            }
        }
    }

    /// A line of one byte is fed.
    fn feed(&mut self, alloc: Global, byte: u8) -> Result<(), OutOfMemory> {
        let line = one(alloc, byte)?;
        match self.world.turn(alloc, Choice::Feed(line), &mut self.fabric) {
            Ok(_) => Ok(()),
            Err(_) => Err(OutOfMemory),
        }
    }

    /// A line is fed, once more where memory was wanting, and all is done that follows.
    pub fn line(&mut self, alloc: Global, byte: u8) -> Result<(), OutOfMemory> {
        if self.feed(alloc, byte).is_err() {
            self.note(alloc, false);
            self.feed(alloc, byte)?;
        }
        for _ in 0..400 {
            if !self.step(alloc)? {
                return Ok(());
            }
        }
        Ok(())
    }

    /// Whether all has come to rest, the text is whole, and the judge accepts the journal.
    fn is_whole(&self, alloc: Global) -> bool {
        let text = match printed(alloc, self.world.journal(), 0) {
            Ok(text) => text,
            Err(_) => return false,
        };
        self.world.quiet() && text.as_slice() == TEXT && is_legal(alloc, &self.world, PROFILE)
    }

    /// What a session came to that was broken off.
    pub fn broken_off(&self) -> Told {
        Told {
            wanted: self.wanted,
            wrong: true,
        }
    }

    /// What it came to. Where memory was wanting to tell it, that is tried once more.
    pub fn told(&self, alloc: Global) -> Told {
        let whole = self.is_whole(alloc) || self.is_whole(alloc);
        Told {
            wanted: self.wanted,
            wrong: self.wrong || !whole,
        }
    }
}
