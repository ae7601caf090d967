//! A world over a fabric, and what it is asked one after another.
ghost use Rattle.std.specs.Prelude.{◌≡◌, length, IfOk, IfSome};
ghost use Rattle.hpx_world.specs.Refusals.{IsAsked};

use crate::trials::Trials;
use hpx_journal::cargo::one;
use hpx_node::parts::Finished;
use hpx_ports::fabric::Fabric;
use hpx_replay::replay::replay;
use hpx_value::acts::{Acts, Done, Job};
use hpx_value::exact::Exact;
use hpx_value::memory::OutOfMemory;
use hpx_value::profile::Profile;
use hpx_world::turns::{Choice, Turned, WorldFault};
use hpx_world::world::World;
use std::alloc::Global;
use std::process::Abort;
use std::test::Fail;

/// A new object has a credit of 256, which is halved eight times.
pub const PROFILE: Profile = Profile {
    credit_log: 8,
    credit_limit: 1024,
    cache: 1,
};

/// What is asked of a world.
#[derive(Clone, Copy, Debug, PartialEq, Eq)]
pub enum Ask {
    /// A line of one byte is fed.
    Feed(u8),
    Fire(u32),
    /// The job that was handed out last is run, and finished.
    Finish,
    Desk(u32),
    Pump(u32),
    Take,
    Step,
    Drain,
}

/// What came of it.
#[derive(Clone, Copy, Debug, PartialEq, Eq)]
pub enum Got {
    Fed,
    /// A job of this locality was handed out.
    Fired(u32),
    Idle,
    Committed,
    Asking,
    NotRunning,
    Moved,
    Empty,
    /// A step was made.
    Stepped,
    /// No step could be made.
    Still,
    Drained,
    Fabric,
    /// The frame for this locality spells nothing, from this byte on.
    BadFrame(u32, u32),
    /// What came to this locality breaks this rule; and what is there instead.
    Strange(u32, u8, u128),
    /// So many frames were sent and accepted.
    EarlyEnd(u64, u64),
    /// The journal has so many entries, of so much weight; and whether a job was handed back.
    Full(u64, u64, bool),
    /// Whether a job was handed back.
    NoMemory(bool),
    /// A job of this locality was handed back that was not run.
    NotRun(u32),
}

/// What is asked, what comes of it, and how many entries there are then, and whether the world is quiet.
pub type Row = (Ask, Got, u64, bool);

/// A world, its fabric, and the job that was handed out last.
#[derive(Drop)]
pub struct Story<F: Fabric> {
    pub world: World<Trials>,
    pub fabric: F,
    job: Option<Job>,
}

/// A job once more.
fn again(alloc: Global, job: &Job) -> Result<Job, OutOfMemory>
    ensures { IfOk result (λ copy. copy.at ≡ job.now.at) }
{
    Ok(Job {
        at: job.at,
        kind: job.kind,
        state: job.state.duplicate(alloc)?,
        action: job.action.duplicate(alloc)?,
    })
}

/// A job, done at so many localities.
fn done(alloc: Global, localities: u32, job: Job) -> Result<Done<Trials>, OutOfMemory>
    ensures { IfOk result (λ done. done.job ≡ job) }
{
    let acts = Trials {
        localities,
        is_full: false,
    };
    match Done::compute(alloc, &acts, job) {
        Ok(done) => Ok(done),
        Err(_) => Err(OutOfMemory),
    }
}

impl<F: Fabric + Drop> Story<F> {
    /// A world at boot, where jobs find memory or not.
    pub fn boot(
        alloc: Global,
        localities: u32,
        is_full: bool,
        fabric: F,
    ) -> Result<Story<F>, OutOfMemory> {
        if localities == 0 || localities > 64 || !PROFILE.is_valid() {
            return Err(OutOfMemory);
        }
        let acts = Trials {
            localities,
            is_full,
        };
        Ok(Story {
            world: World::boot(alloc, acts, PROFILE)?,
            fabric,
            job: None,
        })
    }

    /// How many entries the journal has.
    pub fn entries(&self) -> u64 {
        self.world.journal().entries()
    }

    /// Whether the judge accepts the journal.
    pub fn is_legal(&self, alloc: Global) -> bool {
        let n = self.world.acts().localities;
        let acts = Trials {
            localities: n,
            is_full: false,
        };
        n > 0
            && n <= 64
            && PROFILE.is_valid()
            && replay(alloc, &acts, n, PROFILE, self.world.journal()).is_ok()
    }

    /// What a turn did; a job is kept.
    fn turned(&mut self, turned: Turned) -> Got {
        match turned {
            Turned::Fed => Got::Fed,
            Turned::Fired(job) => {
                let at = job.at;
                self.job = Some(job);
                Got::Fired(at)
            }
            Turned::Idle => Got::Idle,
            Turned::Finished(Finished::Committed) => Got::Committed,
            Turned::Finished(Finished::Asking) => Got::Asking,
            Turned::Finished(Finished::NotRunning) => Got::NotRunning,
            Turned::Moved => Got::Moved,
            Turned::Empty => Got::Empty,
        }
    }

    /// Why something was refused; a job that was handed back is kept.
    fn refused(&mut self, fault: WorldFault<Trials>) -> Got {
        match fault {
            WorldFault::Fabric => Got::Fabric,
            WorldFault::BadFrame { to, at, .. } => Got::BadFrame(to, at),
            WorldFault::Strange { to, rule, kept, .. } => Got::Strange(to, rule, kept),
            WorldFault::EarlyEnd { sent, taken } => Got::EarlyEnd(sent, taken),
            WorldFault::JournalFull {
                entries,
                weight,
                undone,
            } => Got::Full(entries, weight, undone.is_some()),
            WorldFault::OutOfMemory { undone } => Got::NoMemory(undone.is_some()),
            WorldFault::NotRun { job } => {
                let at = job.at;
                self.job = Some(job);
                Got::NotRun(at)
            }
        }
    }

    /// What a turn is to do; none where there is no such locality, or no job.
    fn choice(&self, alloc: Global, ask: Ask) -> Result<Option<Choice<Trials>>, OutOfMemory>
        ensures { IfOk result (λ found. IfSome found (λ choice. IsAsked (length self.now.world.nodes) choice)) }
    {
        let n = self.world.acts().localities;
        match ask {
            Ask::Feed(byte) => Ok(Some(Choice::Feed(one(alloc, byte)?))),
            Ask::Fire(k) if k < n => Ok(Some(Choice::Fire(k))),
            Ask::Desk(k) if k < n => Ok(Some(Choice::Desk(k))),
            Ask::Pump(k) if k < n => Ok(Some(Choice::Pump(k))),
            Ask::Take => Ok(Some(Choice::Take)),
            Ask::Finish => match &self.job {
                Some(job) if job.at < n => {
                    let copy = again(alloc, job)?;
                    Ok(Some(Choice::Finish(done(alloc, n, copy)?)))
                }
                _ => Ok(None),
            },
            _ => Ok(None),
        }
    }

    /// One turn.
    fn turn(&mut self, alloc: Global, ask: Ask) -> Result<Got, OutOfMemory> {
        let Some(choice) = self.choice(alloc, ask)? else {
            return Err(OutOfMemory);
        };
        match self.world.turn(alloc, choice, &mut self.fabric) {
            Ok(turned) => Ok(self.turned(turned)),
            Err(fault) => Ok(self.refused(fault)),
        }
    }

    /// One thing.
    pub fn ask(&mut self, alloc: Global, ask: Ask) -> Result<Got, OutOfMemory> {
        match ask {
            Ask::Step => match self.world.step(alloc, &mut self.fabric) {
                Ok(true) => Ok(Got::Stepped),
                Ok(false) => Ok(Got::Still),
                Err(fault) => Ok(self.refused(fault)),
            },
            Ask::Drain => match self.world.drain(alloc, &mut self.fabric) {
                Ok(()) => Ok(Got::Drained),
                Err(fault) => Ok(self.refused(fault)),
            },
            _ => self.turn(alloc, ask),
        }
    }

    /// The first row that is not so, from 1; what came of it, how many entries there are, and whether the world is quiet.
    pub fn first_wrong(
        &mut self,
        alloc: Global,
        rows: &[Row],
    ) -> Result<Option<(usize, Got, u64, bool)>, OutOfMemory> {
        for (i, row) in rows.iter().enumerate() {
            let got = self.ask(alloc, row.0)?;
            let entries = self.entries();
            let quiet = self.world.quiet();
            if got != row.1 || entries != row.2 || quiet != row.3 {
                return Ok(Some((i.saturating_add(1), got, entries, quiet)));
            }
        }
        Ok(None)
    }
}

/// Each row is so of a world.
pub fn assert_rows<F: Fabric + Drop>(
    rt: &impl Abort,
    alloc: Global,
    story: &mut Story<F>,
    rows: &[Row],
) -> Result<(), Fail> {
    assert_eq!(rt; story.first_wrong(alloc, rows)?, None);
    Ok(())
}

/// Each row is so of a world, and its journal is legal then.
pub fn assert_story<F: Fabric + Drop>(
    rt: &impl Abort,
    alloc: Global,
    story: &mut Story<F>,
    rows: &[Row],
) -> Result<(), Fail> {
    assert_rows(rt, alloc, story, rows)?;
    assert!(rt; story.is_legal(alloc));
    Ok(())
}
