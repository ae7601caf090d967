//! A locality with its journal, step by step.
ghost use Rattle.std.specs.Prelude.{◌<◌};

use hpx_journal::cargo::one;
use hpx_journal::entry::Event;
use hpx_journal::journal::Journal;
use hpx_node::node::Node;
use hpx_node::parts::{DeskFault, Finished, TakeFault};
use hpx_parcel::write::encode;
use hpx_trial::trial::Trial;
use hpx_value::acts::{Done, Job};
use hpx_value::exact::Exact;
use hpx_value::gid::Gid;
use hpx_value::items::Bytes;
use hpx_value::memory::OutOfMemory;
use hpx_value::profile::Profile;
use std::alloc::Global;
use std::marker::Model;

/// A locality, and the journal that it writes.
#[derive(Drop)]
pub struct Site {
    node: Node<Trial>,
    book: Journal,
}

impl Model for Site {
    ghost use Rattle.hpx_trial.specs.Trial.{trial};
    ghost use Rattle.hpx_steps.specs.Rest.{Stands};
    ghost use Rattle.hpx_tables.specs.Tables.{Tables};

    ghost Value = { Tables };

    ghost view = { λ s. s.node.tables };

    ghost invariant = { λ s. Stands trial s.node.tables s.book.entries };
}

/// What is seen of a locality and of the number.
#[derive(Clone, Copy, PartialEq, Eq)]
pub struct Seen {
    pub here: u32,
    pub entries: u64,
    pub weight: u64,
    pub sent: u64,
    pub taken: u64,
    pub passive: bool,
    pub holds: bool,
    pub count: u128,
    pub held: u128,
    pub owed: u128,
    pub place: Option<u32>,
    pub live: Option<Gid>,
    pub number: u32,
    pub runs: bool,
    pub awaited: u64,
    pub front: Option<u32>,
}

/// What is seen of an object at a locality.
#[derive(Clone, Copy, PartialEq, Eq)]
pub struct Told {
    pub holds: bool,
    pub count: u128,
    pub held: u128,
    pub owed: u128,
    pub place: Option<u32>,
}

/// The number: the first object that is made at locality 1.
pub fn number() -> Gid {
    Gid::new(1, 16, 1)
}

impl Site {
    /// One of two localities, at boot, with so much credit for an object at most.
    pub fn boot(alloc: Global, here: u32, credit_limit: u128) -> Result<Site, OutOfMemory>
        requires { here < 2 }
    {
        let profile = Profile {
            credit_log: 8,
            credit_limit,
            cache: 1,
        };
        if !profile.is_valid() {
            return Err(OutOfMemory);
        }
        Ok(Site {
            node: Node::boot(alloc, Trial, here, profile)?,
            book: Journal::new(alloc),
        })
    }

    /// Feeds a line of one byte, where the session stands.
    pub fn feed(&mut self, alloc: Global, byte: u8) -> Result<(), OutOfMemory> {
        if self.node.here() != 0 || !self.book.room() {
            return Err(OutOfMemory);
        }
        let line = one(alloc, byte)?;
        self.node.feed(alloc, &mut self.book, line)
    }

    /// The next job, if there is one.
    pub fn fire(&mut self, alloc: Global) -> Result<Option<Job>, OutOfMemory> {
        if !self.book.room() {
            return Err(OutOfMemory);
        }
        self.node.fire(alloc, &mut self.book)
    }

    /// Commits a job that is done.
    fn finish(&mut self, alloc: Global, done: Done<Trial>) -> Result<Finished, OutOfMemory> {
        if !self.book.room() {
            return Err(OutOfMemory);
        }
        match self.node.finish(alloc, &mut self.book, done) {
            Ok(finished) => Ok(finished),
            Err(_) => Err(OutOfMemory),
        }
    }

    /// Runs the next job, if there is one.
    pub fn run(&mut self, alloc: Global) -> Result<Option<Finished>, OutOfMemory> {
        match self.fire(alloc)? {
            Some(job) => {
                let done = compute(alloc, job)?;
                Ok(Some(self.finish(alloc, done)?))
            }
            None => Ok(None),
        }
    }

    /// Runs the next job twice, and finishes it twice.
    pub fn twice(
        &mut self,
        alloc: Global,
    ) -> Result<(Option<Finished>, Option<Finished>), OutOfMemory> {
        let Some(job) = self.fire(alloc)? else {
            return Ok((None, None));
        };
        let again = Job {
            at: job.at,
            kind: job.kind,
            state: job.state.duplicate(alloc)?,
            action: job.action.duplicate(alloc)?,
        };
        let one = self.finish(alloc, compute(alloc, job)?)?;
        let other = self.finish(alloc, compute(alloc, again)?)?;
        Ok((Some(one), Some(other)))
    }

    /// Takes a frame, or refuses it.
    pub fn take(&mut self, alloc: Global, frame: &Bytes) -> Result<(), TakeFault> {
        if !self.book.room() {
            return Err(TakeFault::OutOfMemory);
        }
        self.node.take(alloc, &mut self.book, frame)
    }

    /// Deals with the first message on the desk, if there is one.
    pub fn desk(&mut self, alloc: Global) -> Result<bool, DeskFault> {
        if !self.book.room() {
            return Err(DeskFault::OutOfMemory);
        }
        self.node.desk(alloc, &mut self.book)
    }

    /// Sends the first message, if there is one, and answers its frame.
    pub fn send(&mut self, alloc: Global) -> Result<Option<Bytes>, OutOfMemory> {
        if !self.book.room() {
            return Err(OutOfMemory);
        }
        self.book.reserve(1)?;
        let (to, frame) = match self.node.front() {
            Some((to, parcel)) => (to, encode(alloc, parcel)?),
            None => return Ok(None),
        };
        let copy = frame.duplicate(alloc)?;
        self.node.gone(&mut self.book, to, frame);
        Ok(Some(copy))
    }

    /// What it did last; 0 is the last.
    pub fn event(&self, back: u64) -> Option<&Event> {
        let place = self.book.entries().checked_sub(1)?.checked_sub(back)?;
        match self.book.entry(place) {
            Some(entry) => Some(&entry.event),
            None => None,
        }
    }

    /// How many actions have failed here.
    pub fn failures(&self) -> u64 {
        let mut n = 0u64;
        for entry in self.book.as_slice() {
            if matches!(
                entry.event,
                Event::Done {
                    action: _,
                    failed: true
                }
            ) {
                n = n.saturating_add(1);
            }
        }
        n
    }

    /// What is seen of it, and of the number.
    pub fn seen(&self) -> Seen {
        Seen {
            here: self.node.here(),
            entries: self.book.entries(),
            weight: self.book.weight(),
            sent: self.node.sent(),
            taken: self.node.taken(),
            passive: self.node.is_passive(),
            holds: self.node.holds(number()),
            count: self.node.count(number()),
            held: self.node.held(number()),
            owed: self.node.owed(number()),
            place: self.node.place(number()),
            live: self.node.live(0),
            number: self.node.number(),
            runs: self.node.runs(),
            awaited: self.node.awaited(),
            front: self.front(),
        }
    }

    /// What is seen of an object.
    pub fn told(&self, object: Gid) -> Told {
        Told {
            holds: self.node.holds(object),
            count: self.node.count(object),
            held: self.node.held(object),
            owed: self.node.owed(object),
            place: self.node.place(object),
        }
    }

    /// Where its first message goes, if there is one.
    fn front(&self) -> Option<u32> {
        match self.node.front() {
            Some((to, _)) => Some(to),
            None => None,
        }
    }
}

/// A job, done.
fn compute(alloc: Global, job: Job) -> Result<Done<Trial>, OutOfMemory> {
    match Done::compute(alloc, &Trial, job) {
        Ok(done) => Ok(done),
        Err(_) => Err(OutOfMemory),
    }
}
