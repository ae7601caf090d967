//! Workers: each runs jobs of its hand, or of the others', with no lock held, and brings them back.
ghost use Rattle.hpx_pool.specs.Hands.{frame_of, AreAll};
ghost use Rattle.hpx_site.specs.Held.{Held, IsShort};
ghost use Rattle.hpx_site.specs.Seen.{seen};
ghost use Rattle.hpx_world.specs.Quiet.{IsQuiet, NoneRuns};
ghost use Rattle.std.specs.Prelude.{◌≡◌, ◌<◌, ◌≤◌, ◌↔◌, IfErr, IfNone, IfOk, IfSome, IsTrue, None, OnOk, map};
ghost use Rattle.std.specs.Result.{result_err};
ghost use Rattle.hpx_journal.specs.Weights.{HasRoom};
ghost use denote.Param.Send.{IsSend};
ghost use Rattle.hpx_agas.specs.contracts.records.Records as records_type;
ghost use Rattle.hpx_tables.specs.contracts.kept.Letter as letter_type;

use crate::found::Found;
use crate::kept::{Kept, MOST, Past};
use crate::site::{Lent, Site};
use crossbeam_utils::Backoff;
use hpx_agas::records::Records;
use hpx_pool::hand::Hand;
use hpx_pool::pool::{gather, hands};
use hpx_ports::fabric::Fabric;
use hpx_ports::gate::Gate;
use hpx_tables::kept::Letter;
use hpx_value::acts::{Acts, Done, Job};
use hpx_world::turns::WorldFault;
use hpx_world::world::World;
use std::alloc::Global;
use std::marker::Brand;
use std::sync::{Condvar, Mutex, Wait};
use std::thread;
use std::thread::Threads;

/// The greatest number of a worker.
const LAST: usize = 63;

/// How many steps the caller makes alone before there are workers.
const ALONE: u32 = 64;

/// What the workers share. Those that wait are told where jobs come or all is over (`news`).
#[derive(Drop)]
struct Shared<'s, 'b, 'w, 'f, A: Acts + Copy, F: Fabric, E: Past, G> {
    lock: &'s Mutex<Kept<'b, 'w, 'f, A, F, E>>,
    acts: A,
    gate: &'s G,
    alloc: Global,
    news: &'s Condvar,
}

impl<'s, 'b, 'w, 'f, A: Acts + Copy, F: Fabric, E: Past, G: Gate> Shared<
    's,
    'b,
    'w,
    'f,
    A,
    F,
    E,
    G,
> {
    /// Runs a job with no lock held, and brings it back alone.
    fn run<R: Wait>(&self, rt: &R, number: u32, job: Job) {
        self.gate.pass(number, job.action.serial);
        match Done::compute(self.alloc, &self.acts, job) {
            Ok(done) => self.lock.lock(rt).take_back(self.alloc, done),
            Err(job) => self.lock.lock(rt).stand_still(job),
        }
    }

    /// Runs jobs with no lock held, until it gets none, or so many are to be brought back.
    fn run_some<R: Wait>(&self, rt: &R, number: u32, hand: &mut Hand, ran: &mut Vec<Done<A>>)
        ensures { frame_of hand.new ≡ frame_of hand.old }
    {
        while ran.len() < ran.capacity() {
            let Some(job) = hand.get(rt) else {
                return;
            };
            self.gate.pass(number, job.action.serial);
            match Done::compute(self.alloc, &self.acts, job) {
                Ok(done) => ran.push_reserved(done),
                Err(job) => return self.lock.lock(rt).stand_still(job),
            }
        }
    }

    /// Brings back what was run, and looks what there is to do, while it has the lock once. Where there is nothing to do before
    /// another worker brings jobs, a worker that is `patient` sleeps until others may take jobs, or all is over.
    fn bring<R: Wait>(
        &self,
        rt: &R,
        hand: &mut Hand,
        ran: &mut Vec<Done<A>>,
        patient: bool,
    ) -> Found
        ensures { frame_of hand.new ≡ frame_of hand.old }
    {
        let mut kept = self.lock.lock(rt);
        let found = kept.exchange(self.alloc, hand, ran);
        match &found {
            Found::Nothing if patient => drop(self.news.wait(rt, kept)),
            Found::Jobs | Found::Over => {
                drop(kept);
                self.news.notify_all();
            }
            _ => drop(kept),
        }
        found
    }

    /// Runs jobs until there is nothing to wait for. Where it finds nothing to do it waits a little, longer each time, then yields,
    /// and then sleeps.
    fn work<R: Wait>(&self, rt: &R, number: u32, hand: &mut Hand)
        ensures { frame_of hand.new ≡ frame_of hand.old }
    {
        let Ok(mut ran) = Vec::with_capacity(self.alloc, MOST as usize) else {
            return;
        };
        let backoff = Backoff::new();
        for _ in rt.forever() {
            self.run_some(rt, number, hand, &mut ran);
            match self.bring(rt, hand, &mut ran, backoff.is_completed()) {
                Found::Job(job) => self.run(rt, number, job),
                Found::Jobs | Found::Moved => backoff.reset(),
                Found::Nothing => backoff.snooze(),
                Found::Over => return,
            }
        }
        unreachable!()
    }
}

/// What may cross threads does.
fn crosses<T: Send>()
    ensures { IsSend T.row }
{}

/// The records of a home do.
fn records_cross()
    ensures { IsSend (records_type.the_row letter_type.the_row) }
{
    crosses::<Records<Letter>>();
}

/// Work on each hand, each on a thread of its own, as far as there are threads.
fn work_each<S: Sync, R: Threads + Wait + Sync, H: Fn(&S, &R, u32, &mut Hand) + Sync>(
    rt: &R,
    shared: &S,
    hands: &mut [Hand],
    work: &H,
)
    requires calls { H.IsAlwaysCallable work.now }
    requires keeps { (s : _) (t : _) (n : _) (hand : _) (u : _) (after : _) → H.post work.now s t n hand u after → frame_of after.now ≡ frame_of hand.now }
    ensures { map frame_of hands.new ≡ map frame_of hands.old }
{
    let threads = hands.len();
    if threads == 0 {
        return;
    }
    thread::for_each_mut(
        rt,
        hands,
        threads,
        &|number, hand: &mut Hand|
            requires { H.IsAlwaysCallable work.now × ((s : _) (t : _) (n : _) (hand : _) (u : _) (after : _) → H.post work.now s t n hand u after → frame_of after.now ≡ frame_of hand.now) }
            ensures { frame_of hand.exit.now ≡ frame_of hand.entry.now }
        { work(shared, rt, number.min(LAST) as u32, hand) },
    );
}

/// A worker for each hand.
fn work_all<
    A: Acts + Copy + Send + Sync,
    F: Fabric + Send,
    E: Past + Send + Sync,
    G: Gate,
    R: Threads + Wait + Sync,
>(rt: &R, shared: &Shared<A, F, E, G>, hands: &mut [Hand])
    ensures { map frame_of hands.new ≡ map frame_of hands.old }
{
    records_cross();
    work_each(
        rt,
        shared,
        hands,
        &|shared: &Shared<A, F, E, G>, rt: &R, number: u32, hand: &mut Hand|
            ensures { frame_of hand.exit.now ≡ frame_of hand.entry.now }
        { shared.work(rt, number, hand) },
    );
}

/// Runs the jobs that are left on a hand and on those that it steals from.
fn run_left<A: Acts + Copy, F: Fabric, E: Past, R: Wait>(
    rt: &R,
    alloc: Global,
    kept: &mut Kept<A, F, E>,
    acts: &A,
    hand: &mut Hand,
) {
    for _ in rt.forever() {
        match hand.get(rt) {
            Some(job) => kept.run(alloc, acts, job),
            None => return,
        }
    }
    unreachable!()
}

/// Runs what the workers left. Where there is no memory to gather the jobs, they are taken from the hands.
fn run_rest<A: Acts + Copy, F: Fabric, E: Past, R: Wait>(
    rt: &R,
    alloc: Global,
    kept: &mut Kept<A, F, E>,
    acts: &A,
    hands: Vec<Hand>,
)
    requires { AreAll (map frame_of hands.items) }
{
    match gather(alloc, hands) {
        Ok(jobs) => kept.run_all(alloc, acts, jobs),
        Err(mut hands) => {
            for hand in hands.iter_mut() {
                run_left(rt, alloc, kept, acts, hand);
            }
        }
    }
}

/// Workers on what is lent, of which `E` says what was seen of it when they began: one for each hand.
fn work_on<
    'b,
    'w,
    'f,
    A: Acts + Copy + Send + Sync,
    F: Fabric,
    E: Past + Send + Sync,
    G: Gate,
    R: Threads + Wait + Sync,
>(
    rt: &R,
    alloc: Global,
    lent: &'b mut Lent<'w, 'f, A, F>,
    mut all: Vec<Hand>,
    gate: &G,
    stop: &mut Option<WorldFault<A>>,
) -> &'b mut Lent<'w, 'f, A, F>
    requires all { AreAll (map frame_of all.items) }
    requires lent { lent.ghost_name ≡ E.lent }
    requires world { lent.old.world.ghost_name ≡ E.world }
    requires fabric { lent.old.fabric.ghost_name ≡ E.fabric }
    requires was { E.was ≡ seen lent.old.world.now (F.flight lent.old.fabric.now) (F.trace lent.old.fabric.now) (F.faults lent.old.fabric.now) (F.latest lent.old.fabric.now) }
    ensures lent { result.ghost_name ≡ E.lent }
    ensures world { result.now.world.ghost_name ≡ E.world }
    ensures fabric { result.now.fabric.ghost_name ≡ E.fabric }
    ensures held { Held A.act_of E.was (seen result.now.world.now (F.flight result.now.fabric.now) (F.trace result.now.fabric.now) (F.faults result.now.fabric.now) (F.latest result.now.fabric.now)) stop.new }
{
    let acts = *lent.world.acts();
    let lock = Mutex::new(Kept::<A, F, E>::new(lent));
    let news = Condvar::new();
    let shared = Shared {
        lock: &lock,
        acts,
        gate,
        alloc,
        news: &news,
    };
    work_all(rt, &shared, all.as_mut_slice());
    let mut kept = lock.into_inner();
    run_rest(rt, alloc, &mut kept, &acts, all);
    kept.into_lent(stop)
}

/// Workers on a world: why it stands still, if it does. Where there is no memory for their hands there is none, and nothing is done.
#[tactic(auto, using(crate::proofs::Helds::held_first))]
fn work_in<A: Acts + Copy + Send + Sync, F: Fabric, G: Gate, R: Threads + Wait + Sync>(
    rt: &R,
    alloc: Global,
    world: &mut World<A>,
    fabric: &mut F,
    threads: u32,
    gate: &G,
) -> Option<WorldFault<A>>
    requires threads { (0 < threads) × (threads ≤ 64) }
    ensures held { Held A.act_of (seen world.old (F.flight fabric.old) (F.trace fabric.old) (F.faults fabric.old) (F.latest fabric.old))
        (seen world.new (F.flight fabric.new) (F.trace fabric.new) (F.faults fabric.new) (F.latest fabric.new)) result }
{
    let Ok(all) = hands(alloc, threads) else {
        return None;
    };
    let mut stop = None;
    let mut lent = Lent { world, fabric };
    let _lent = work_on::<A, F, Brand, G, R>(rt, alloc, &mut lent, all, gate, &mut stop);
    stop
}

/// A few steps of the caller. True where none can be made any more.
#[tactic(auto, using(crate::proofs::Helds::held_first))]
fn step_alone<A: Acts + Copy, F: Fabric>(
    alloc: Global,
    world: &mut World<A>,
    fabric: &mut F,
) -> Result<bool, WorldFault<A>>
    ensures held { Held A.act_of (seen world.old (F.flight fabric.old) (F.trace fabric.old) (F.faults fabric.old) (F.latest fabric.old))
        (seen world.new (F.flight fabric.new) (F.trace fabric.new) (F.faults fabric.new) (F.latest fabric.new)) (result_err result) }
{
    for _step in 0..ALONE {
        if !world.step(alloc, fabric)? {
            return Ok(true);
        }
    }
    Ok(false)
}

/// Several workers on a world, unless it comes to rest by a few steps of the caller: why it stands still, if it does. One worker is
/// none, since the caller drains.
#[tactic(auto, using(crate::proofs::Helds::held_first))]
fn work_some<A: Acts + Copy + Send + Sync, F: Fabric, G: Gate, R: Threads + Wait + Sync>(
    rt: &R,
    alloc: Global,
    world: &mut World<A>,
    fabric: &mut F,
    threads: u32,
    gate: &G,
) -> Option<WorldFault<A>>
    requires threads { (0 < threads) × (threads ≤ 64) }
    ensures held { Held A.act_of (seen world.old (F.flight fabric.old) (F.trace fabric.old) (F.faults fabric.old) (F.latest fabric.old))
        (seen world.new (F.flight fabric.new) (F.trace fabric.new) (F.faults fabric.new) (F.latest fabric.new)) result }
{
    if threads == 1 {
        return None;
    }
    match step_alone(alloc, world, fabric) {
        Ok(true) => None,
        Ok(false) => work_in(rt, alloc, world, fabric, threads, gate),
        Err(fault) => Some(fault),
    }
}

/// Lets a world be drained by so many threads. One thread makes its steps, one after another. Several begin where it has not come to
/// rest by a few steps of the caller: they take jobs out, run them with no lock held and bring their outcomes back, and between jobs
/// they move messages on. Where no thread is to be had, or no memory for their hands, the caller does that work.
pub fn drain_by<A: Acts + Copy + Send + Sync, F: Fabric, G: Gate, R: Threads + Wait + Sync>(
    rt: &R,
    alloc: Global,
    world: &mut World<A>,
    fabric: &mut F,
    threads: u32,
    gate: &G,
) -> Result<(), WorldFault<A>>
    requires threads { (0 < threads) × (threads ≤ 64) }
    ensures held { Held A.act_of (seen world.old (F.flight fabric.old) (F.trace fabric.old) (F.faults fabric.old) (F.latest fabric.old))
        (seen world.new (F.flight fabric.new) (F.trace fabric.new) (F.faults fabric.new) (F.latest fabric.new)) (result_err result) }
    ensures room { OnOk result (HasRoom world.new.journal.entries) }
    ensures quiet { OnOk result (NoneRuns world.new.nodes → IsQuiet world.new.nodes world.new.hand) }
{
    if let Some(fault) = work_some(rt, alloc, world, fabric, threads, gate) {
        return Err(fault);
    }
    world.drain(alloc, fabric)
}

/// Whether memory was wanting. A job that was to be run or committed is in the fault.
fn is_short<A: Acts>(fault: &WorldFault<A>) -> bool
    ensures { IsTrue result ↔ IsShort fault.now }
{
    match fault {
        WorldFault::OutOfMemory { undone: _ } => true,
        WorldFault::NotRun { job: _ } => true,
        WorldFault::Fabric => false,
        WorldFault::BadFrame {
            to: _,
            at: _,
            why: _,
        } => false,
        WorldFault::Strange {
            to: _,
            rule: _,
            object: _,
            kept: _,
        } => false,
        WorldFault::EarlyEnd { sent: _, taken: _ } => false,
        WorldFault::JournalFull {
            entries: _,
            weight: _,
            undone: _,
        } => false,
    }
}

/// Workers on a site. `Ok`: the world is quiet, or `stop` says why it stands still. `Err`: memory was wanting; a job that was to be run
/// or committed is in `stop`.
pub fn run_workers<A: Acts + Copy + Send + Sync, F: Fabric, G: Gate, R: Threads + Wait + Sync>(
    rt: &R,
    alloc: Global,
    mut site: Site<A, F>,
    threads: u32,
    gate: &G,
) -> Result<Site<A, F>, Site<A, F>>
    requires threads { (0 < threads) × (threads ≤ 64) }
    requires going { site.stop ≡ None }
    ensures ok { IfOk result (λ s. Held A.act_of (seen site.world (F.flight site.fabric) (F.trace site.fabric) (F.faults site.fabric) (F.latest site.fabric))
        (seen s.world (F.flight s.fabric) (F.trace s.fabric) (F.faults s.fabric) (F.latest s.fabric)) s.stop) }
    ensures err { IfErr result (λ s. Held A.act_of (seen site.world (F.flight site.fabric) (F.trace site.fabric) (F.faults site.fabric) (F.latest site.fabric))
        (seen s.world (F.flight s.fabric) (F.trace s.fabric) (F.faults s.fabric) (F.latest s.fabric)) s.stop) }
    ensures quiet { IfOk result (λ s. IfNone s.stop (IsQuiet s.world.nodes s.world.hand)) }
    ensures told { IfOk result (λ s. IfSome s.stop (λ fault. IsShort fault → ⊥)) }
    ensures short { IfErr result (λ s. IfSome s.stop IsShort) }
{
    if let Err(fault) = drain_by(rt, alloc, &mut site.world, &mut site.fabric, threads, gate) {
        let short = is_short(&fault);
        site.stop = Some(fault);
        return if short { Err(site) } else { Ok(site) };
    }
    if site.world.quiet() {
        Ok(site)
    } else {
        Err(site)
    }
}
