ghost use Rattle.std.specs.Prelude.{◌≡◌, ◌<◌, ◌≤◌, ℕ, IfOk, IfErr};
ghost use Rattle.hpx_value.specs.Values.{State, Act, bare_act, bare_state, message_of, named};
ghost use Rattle.hpx_value.specs.Shapes.{IsAct, IsState};
ghost use Rattle.hpx_value.specs.Hands.{Outcome};
ghost use Rattle.hpx_value.specs.Riders.{plain};
ghost use Rattle.hpx_value.specs.Laws.{KeepsLaws};

use crate::items::Items;
use crate::memory::OutOfMemory;
use crate::outcome::Outcome;
use crate::value::{Act, State};
use std::alloc::Global;
use std::marker::PhantomData;

/// What actions do, and the laws that they keep, whatever they are.
///
/// The laws are in `specs/Laws.antt`: an outcome names its hand alone and nothing too often, uses each continuation once,
/// makes, sends and prints little, is well formed, moves objects rightly, and leaves a plain object empty.
pub trait Acts {
    /// The number of localities.
    ghost count: { Self → ℕ };

    /// The outcome at so many localities, of an action on an object of a kind, at a locality, in a state.
    ghost act_of: { ℕ → ℕ → ℕ → State → Act → Outcome };

    /// How many localities there are.
    fn localities(&self) -> u32
        ensures { result ≡ count self.now };

    /// The outcome of an action here. An `Err` is for want of memory alone.
    fn act(
        &self,
        alloc: Global,
        kind: u32,
        here: u32,
        state: &State,
        action: &Act,
    ) -> Result<Outcome, OutOfMemory>
        ensures { IfOk result (λ outcome. outcome ≡ act_of (count self.now) kind here state.now action.now) };

    ghost keeps_laws: { (n kind here : ℕ) (s : State) (a : Act) → 1 ≤ n → n ≤ 64 → here < n → IsState s → IsAct a
        → KeepsLaws n kind here s a (act_of n kind here s a) };

    /// Neither the name of the action nor the credits of ids matter.
    ghost is_blind: { (n kind here : ℕ) (s : State) (a : Act)
        → act_of n kind here s a ≡ act_of n kind here (bare_state s) (named 0 0 (message_of (bare_act a))) };
}

/// An action to be run, and what it is run on.
#[derive(Drop)]
pub struct Job {
    pub at: u32,
    pub kind: u32,
    pub state: State,
    pub action: Act,
}

/// Jobs, in order.
pub type Jobs = Items<Job>;

/// A job with its outcome, which is no other than the acts' own of the plain action: no act sees a rider.
#[derive(Drop)]
pub struct Done<A: Acts> {
    pub job: Job,
    pub localities: u32,
    pub outcome: Outcome,
    acts: PhantomData<A>,
    ghost right: { outcome ≡ A.act_of localities job.kind job.at job.state (plain job.action) },
}

/// What acts do with a job's plain action.
fn run<A: Acts>(alloc: Global, acts: &A, job: &Job) -> Result<Outcome, OutOfMemory>
    ensures { IfOk result (λ outcome. outcome
        ≡ A.act_of (A.count acts.now) job.now.kind job.now.at job.now.state (plain job.now.action)) }
{
    let action = job.action.plain(alloc)?;
    acts.act(alloc, job.kind, job.at, &job.state, &action)
}

impl<A: Acts> Done<A> {
    /// Runs a job. An `Err` hands it back, for want of memory alone.
    pub fn compute(alloc: Global, acts: &A, job: Job) -> Result<Done<A>, Job>
        ensures job { IfOk result (λ done. done.job ≡ job) }
        ensures localities { IfOk result (λ done. done.localities ≡ A.count acts.now) }
        ensures outcome { IfOk result (λ done. done.outcome ≡ A.act_of (A.count acts.now) job.kind job.at job.state (plain job.action)) }
        ensures err { IfErr result (λ back. back ≡ job) }
    {
        let localities = acts.localities();
        match run(alloc, acts, &job) {
            Ok(outcome) => Ok(Done {
                job,
                localities,
                outcome,
                acts: PhantomData,
            }),
            Err(_) => Err(job),
        }
    }

    /// The job that was run.
    pub fn job(&self) -> &Job
        ensures { result.now ≡ self.now.job }
    {
        &self.job
    }

    /// What it does.
    pub fn outcome(&self) -> &Outcome
        ensures { result.now ≡ self.now.outcome }
    {
        &self.outcome
    }

    /// At how many localities it was run.
    pub fn localities(&self) -> u32
        ensures { result ≡ self.now.localities }
    {
        self.localities
    }

    /// The job and its outcome.
    pub fn parts(self) -> (Job, Outcome)
        ensures job { result.0 ≡ self.job }
        ensures outcome { result.1 ≡ self.outcome }
    {
        let Done {
            job,
            localities: _,
            outcome,
            acts: _,
        } = self;
        (job, outcome)
    }
}
