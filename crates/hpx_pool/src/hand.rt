//! A hand: a deque of its own, and thieves for the others'.
ghost use Rattle.std.specs.Prelude.{◌≡◌, ◌<◌, ◌++◌, ◌∷◌, [], IfSome, IfNone};
ghost use Rattle.crossbeam_deque.specs.Handles.{view, IsPassOf, worker_view, worker_flavor, stealer_deque, stealer_flavor};

use crate::rule::{Fair, Gets, Tally};
use crossbeam_deque::{Pass, Steal, Stealer, Worker};
use hpx_value::acts::Job;
use std::alloc::Global;
use std::sync::Wait;

/// A deque, first in, first out, with what was put into it and got from it.
pub type Owner = Worker<Job, Global, Tally, Fair>;

/// Steals from one deque.
#[derive(Drop)]
pub struct Thief {
    pub stealer: Stealer<Job, Global, Tally, Fair>,
    pub pass: Pass<Job, Tally>,
    ghost of: { IsPassOf (stealer_deque stealer) pass },
    ghost fifo: { stealer_flavor stealer ≡ 0 },
    ghost active: { (view pass).parts ≡ 1 },
    ghost taker: { (view pass).put ≡ [] },
}

impl Thief {
    /// The oldest job of the deque, which it has no more. None where it was empty at a step of this call. A steal that another
    /// thief was ahead of is tried again, so it may wait.
    pub fn steal<R: Wait>(&mut self, rt: &R) -> Option<Job>
        ensures same { stealer_deque self.new.stealer ≡ stealer_deque self.old.stealer }
        ensures some { IfSome result (λ job. (view self.new.pass).got ≡ (view self.old.pass).got ++ job ∷ []) }
        ensures none { IfNone result (view self.new.pass ≡ view self.old.pass) }
        ensures kept { ((view self.new.pass).parts ≡ (view self.old.pass).parts) × ((view self.new.pass).put ≡ (view self.old.pass).put) }
    {
        for _ in rt.forever() {
            match self.stealer.steal_as::<Gets>(&mut self.pass) {
                Steal::Success(job) => return Some(job),
                Steal::Empty => return None,
                Steal::Retry => {}
            }
        }
        unreachable!()
    }
}

/// A deque of its own, and a thief for each deque of its pool, its own among them; none where it is alone.
#[derive(Drop)]
pub struct Hand {
    pub own: Owner,
    pub thieves: Vec<Thief>,
    ghost fifo: { worker_flavor own ≡ 0 },
    ghost active: { 0 < (worker_view own).parts },
}
