//! What lies under the lock.
ghost use Rattle.hpx_site.specs.Held.{Held};
ghost use Rattle.hpx_site.specs.Seen.{Seen, seen, nowhere};
ghost use Rattle.std.specs.Prelude.{◌≡◌, ◌≤◌, ◌+◌, [], ℕ, IsTrue, length};
ghost use Rattle.hpx_pool.specs.Hands.{frame_of, put_of};
ghost use Rattle.hpx_world.specs.Refusals.{FeedsNoLine, IsAsked};

use crate::found::Found;
use crate::site::Lent;
use hpx_pool::hand::Hand;
use hpx_ports::fabric::Fabric;
use hpx_value::acts::{Acts, Done, Job};
use hpx_world::turns::{Choice, Turned, WorldFault};
use std::alloc::Global;
use std::marker::{Brand, Model, PhantomData};

/// How many jobs a worker takes out at most while it has the lock, and how many it brings back.
pub(crate) const MOST: u32 = 32;

/// How many turns by which messages go on a worker makes at most while it has the lock.
const TURNS: u32 = 128;

/// What was seen of a site when the workers began, and which world and which fabric were lent. Each call of them picks it.
pub trait Past {
    ghost was: { Seen };

    ghost lent: { ℕ };

    ghost world: { ℕ };

    ghost fabric: { ℕ };
}

impl Past for Brand {
    ghost was = { nowhere };

    ghost lent = { 0 };

    ghost world = { 0 };

    ghost fabric = { 0 };
}

/// A site under its lock. Contracts see nothing of it, since other threads change it: what is known is what its type says.
pub struct Kept<'b, 'w, 'f, A: Acts + Copy, F: Fabric, E: Past> {
    lent: &'b mut Lent<'w, 'f, A, F>,
    stop: Option<WorldFault<A>>,
    of: PhantomData<E>,
}

impl<'b, 'w, 'f, A: Acts + Copy, F: Fabric, E: Past> Model for Kept<'b, 'w, 'f, A, F, E> {
    ghost use Rattle.std.specs.Prelude.{⊤, ◌≡◌};
    ghost use Rattle.hpx_site.specs.Held.{Held};
    ghost use Rattle.hpx_site.specs.Seen.{seen};

    ghost Value = { ⊤ };

    ghost view = { λ k. tt };

    ghost invariant = { λ k. (k.lent.ghost_name ≡ E.lent) × (k.lent.now.world.ghost_name ≡ E.world) × (k.lent.now.fabric.ghost_name ≡ E.fabric)
        × Held A.act_of E.was (seen k.lent.now.world.now (F.flight k.lent.now.fabric.now) (F.trace k.lent.now.fabric.now) (F.faults k.lent.now.fabric.now) (F.latest k.lent.now.fabric.now)) k.stop };
}

/// Whether this may be asked of so many localities, where workers ask it.
fn may_be<A: Acts>(n: u32, choice: &Choice<A>) -> bool
    ensures { IsTrue result → IsAsked n choice.now }
{
    match choice {
        Choice::Feed(_) => false,
        Choice::Fire(k) => *k < n,
        Choice::Finish(done) => done.job().at < n,
        Choice::Desk(k) => *k < n,
        Choice::Pump(k) => *k < n,
        Choice::Take => true,
    }
}

impl<'b, 'w, 'f, A: Acts + Copy, F: Fabric, E: Past> Kept<'b, 'w, 'f, A, F, E> {
    /// What is lent, to be shared.
    #[tactic(auto, using(crate::proofs::Helds::held_first))]
    pub(crate) fn new(lent: &'b mut Lent<'w, 'f, A, F>) -> Kept<'b, 'w, 'f, A, F, E>
        requires lent { lent.ghost_name ≡ E.lent }
        requires world { lent.old.world.ghost_name ≡ E.world }
        requires fabric { lent.old.fabric.ghost_name ≡ E.fabric }
        requires was { E.was ≡ seen lent.old.world.now (F.flight lent.old.fabric.now) (F.trace lent.old.fabric.now) (F.faults lent.old.fabric.now) (F.latest lent.old.fabric.now) }
    {
        Kept {
            lent,
            stop: None,
            of: PhantomData,
        }
    }

    /// What was lent, which is shared no more; and why the world stands still, if it does.
    pub fn into_lent(self, stop: &mut Option<WorldFault<A>>) -> &'b mut Lent<'w, 'f, A, F>
        ensures lent { result.ghost_name ≡ E.lent }
        ensures world { result.now.world.ghost_name ≡ E.world }
        ensures fabric { result.now.fabric.ghost_name ≡ E.fabric }
        ensures held { Held A.act_of E.was (seen result.now.world.now (F.flight result.now.fabric.now) (F.trace result.now.fabric.now) (F.faults result.now.fabric.now) (F.latest result.now.fabric.now)) stop.new }
    {
        let Kept {
            lent,
            stop: why,
            of: _,
        } = self;
        *stop = why;
        lent
    }

    /// How many localities there are.
    fn localities(&self) -> u32 {
        self.lent.localities()
    }

    /// One turn of the world, unless it stands still. A turn that is refused is why it does from then on.
    fn turn(&mut self, alloc: Global, choice: Choice<A>) -> Option<Turned>
        requires { FeedsNoLine choice }
    {
        if self.stop.is_some() || !may_be(self.lent.localities(), &choice) {
            return None;
        }
        let lent = &mut *self.lent;
        match lent.world.turn(alloc, choice, lent.fabric) {
            Ok(turned) => Some(turned),
            Err(fault) => {
                self.stop = Some(fault);
                None
            }
        }
    }

    /// A job of this locality, if it has one that can be run.
    fn fire(&mut self, alloc: Global, k: u32) -> Option<Job> {
        self.turn(alloc, Choice::Fire(k))?.job()
    }

    /// A job of the least locality that has one.
    fn fire_first(&mut self, alloc: Global) -> Option<Job> {
        for k in 0..self.localities() {
            if let Some(job) = self.fire(alloc, k) {
                return Some(job);
            }
        }
        None
    }

    /// Takes back a job that was run. Where the world stands still its action stays fired.
    pub(crate) fn take_back(&mut self, alloc: Global, done: Done<A>) {
        self.turn(alloc, Choice::Finish(done));
    }

    /// Takes back what was run, the last first.
    fn take_back_all(&mut self, alloc: Global, ran: &mut Vec<Done<A>>)
        ensures { ran.new.items ≡ [] }
    {
        while let Some(done) = ran.pop() {
            self.take_back(alloc, done);
        }
    }

    /// The world stands still, as there was no memory to run a job.
    pub(crate) fn stand_still(&mut self, job: Job) {
        if self.stop.is_none() {
            self.stop = Some(WorldFault::NotRun { job });
        }
    }

    /// Whether a turn moved something.
    fn moves(&mut self, alloc: Global, choice: Choice<A>) -> bool
        requires { FeedsNoLine choice }
    {
        match self.turn(alloc, choice) {
            Some(turned) => turned.moved(),
            None => false,
        }
    }

    /// The first locality that has something of its own to tend to does. False where none has.
    fn clear_one(&mut self, alloc: Global) -> bool {
        for k in 0..self.localities() {
            if self.moves(alloc, Choice::Desk(k)) {
                return true;
            }
        }
        false
    }

    /// Localities tend to what they have of their own. False where none has anything.
    fn clear(&mut self, alloc: Global) -> bool {
        for cleared in 0..TURNS {
            if !self.clear_one(alloc) {
                return cleared > 0;
            }
        }
        true
    }

    /// The first locality with a message to another sends it. False where none has one.
    fn send_one(&mut self, alloc: Global) -> bool {
        for k in 0..self.localities() {
            if self.moves(alloc, Choice::Pump(k)) {
                return true;
            }
        }
        false
    }

    /// A message goes to another locality, or a frame is accepted. False where neither can be.
    fn carry_one(&mut self, alloc: Global) -> bool {
        self.send_one(alloc) || self.moves(alloc, Choice::Take)
    }

    /// Messages go to other localities, and frames are accepted. False where neither can be.
    fn carry(&mut self, alloc: Global) -> bool {
        for carried in 0..TURNS {
            if !self.carry_one(alloc) {
                return carried > 0;
            }
        }
        true
    }

    /// What was found where no job is ready: something moved, or nothing did, and there is something to wait for or not.
    fn without_jobs(&self, moved: bool) -> Found {
        if moved {
            Found::Moved
        } else if self.waits_for_none() {
            Found::Over
        } else {
            Found::Nothing
        }
    }

    /// Whether no job is out, or the world stands still: where nothing moves either, there is nothing to wait for.
    fn waits_for_none(&self) -> bool {
        self.stop.is_some() || self.lent.none_runs()
    }

    /// Runs a job here, and takes it back.
    pub(crate) fn run(&mut self, alloc: Global, acts: &A, job: Job) {
        match Done::compute(alloc, acts, job) {
            Ok(done) => self.take_back(alloc, done),
            Err(job) => self.stand_still(job),
        }
    }

    /// Runs jobs that are left.
    pub(crate) fn run_all(&mut self, alloc: Global, acts: &A, jobs: Vec<Job>) {
        for job in jobs {
            self.run(alloc, acts, job);
        }
    }

    /// Takes jobs out, the least locality first, and puts them on a hand. Answers one that the hand has no memory for, or
    /// whether it took none, one or several.
    fn fill(&mut self, alloc: Global, hand: &mut Hand) -> Found
        ensures frame { frame_of hand.new ≡ frame_of hand.old }
        ensures few { length (put_of hand.new) ≤ length (put_of hand.old) + 32 }
    {
        let mut found = Found::Nothing;
        for taken in 0..MOST {
            let Some(job) = self.fire_first(alloc) else {
                return found;
            };
            if let Err(job) = hand.put(job) {
                return Found::Job(job);
            }
            found = if taken == 0 {
                Found::Moved
            } else {
                Found::Jobs
            };
        }
        found
    }

    /// What there is to do. First what localities have of their own is tended to, and messages go on; then jobs are put on the hand,
    /// all that are ready, up to 32.
    pub fn look(&mut self, alloc: Global, hand: &mut Hand) -> Found
        ensures frame { frame_of hand.new ≡ frame_of hand.old }
        ensures few { length (put_of hand.new) ≤ length (put_of hand.old) + 32 }
    {
        let cleared = self.clear(alloc);
        let carried = self.carry(alloc);
        match self.fill(alloc, hand) {
            Found::Nothing => self.without_jobs(cleared || carried),
            found => found,
        }
    }

    /// Takes back what a worker has run, the last first, and looks what there is to do.
    pub fn exchange(&mut self, alloc: Global, hand: &mut Hand, ran: &mut Vec<Done<A>>) -> Found
        ensures frame { frame_of hand.new ≡ frame_of hand.old }
        ensures few { length (put_of hand.new) ≤ length (put_of hand.old) + 32 }
        ensures none { ran.new.items ≡ [] }
    {
        let brings = !ran.is_empty();
        self.take_back_all(alloc, ran);
        match self.look(alloc, hand) {
            Found::Nothing if brings => Found::Moved,
            found => found,
        }
    }
}
