//! Failing an action that could get no credit: its object keeps its state, its continuation is answered, and the rest is given up.
ghost use Rattle.std.specs.Prelude.{◌≡◌, ◌≤◌, ◌<◌, ◌+◌, ◌^◌, ◌++◌, [], false, Some, IfOk, IfSome, IfNone, length};
ghost use Rattle.std.specs.List.{slice_get};
ghost use Rattle.std.specs.Option.{option_to_list};
ghost use Rattle.hpx_journal.specs.Weights.{total_weight};
ghost use Rattle.hpx_node.specs.Fails.{MustFail, IsFailure, Fails, IsFailingFor, dooms, failed_events};
ghost use Rattle.hpx_node.specs.Changes.{Writes};
ghost use Rattle.hpx_tables.specs.Pending.{hand_with};
ghost use Rattle.hpx_steps.specs.Rest.{IsTidy};
ghost use Rattle.hpx_steps.specs.Steps.{with_credit};

use crate::node::Node;
use hpx_commit::failure::plan_failure;
use hpx_commit::plan::Plan;
use hpx_journal::journal::Journal;
use hpx_parcel::parcel::Parcel;
use hpx_tables::find::{target, waiting_at};
use hpx_tables::pending::lawful;
use hpx_value::acts::Acts;
use hpx_value::gid::Gid;
use hpx_value::memory::OutOfMemory;
use std::alloc::Global;

/// An action that fails, before its first change: where its commit waits, where its object stands, and what it leaves.
#[derive(Drop)]
pub struct Failing {
    pub i: usize,
    pub j: usize,
    pub plan: Plan,
}

/// A rider, if there is one that has a credit, and then these ids.
fn with_rider(alloc: Global, rider: Option<Gid>, ids: Vec<Gid>) -> Result<Vec<Gid>, OutOfMemory>
    ensures { IfOk result (λ all. all.items ≡ with_credit (option_to_list rider) ++ ids.items) }
{
    let Some(rider) = rider else {
        return Ok(ids);
    };
    if rider.log().is_none() {
        return Ok(ids);
    }
    let mut all = Vec::from_slice(alloc, &[rider])?;
    all.extend_from_slice(ids.as_slice())?;
    Ok(all)
}

impl<A: Acts + Copy> Node<A> {
    /// What the action leaves that fails, whose commit waits at i, with this id in its hand.
    fn failure(&self, alloc: Global, i: usize, id: Gid, entry: u64) -> Result<Plan, OutOfMemory>
        requires there { i < length self.now.tables.pending }
        requires tidy { IsTidy self.now.tables [] }
        ensures plan { IfOk result (λ p. (w : _) → slice_get self.now.tables.pending i ≡ Some w → IsFailure (record w { hand = hand_with id entry w }) p) }
        ensures few { IfOk result (λ p. length p.ups.items ≤ 256) }
    {
        let waits = &self.pending[i];
        let done = waits.done();
        lawful(done);
        let hand = waits.hand_with(alloc, id, entry)?;
        let job = done.job();
        let makes = done.outcome().makes.len();
        let action = job.action.plain(alloc)?;
        let plan = plan_failure(alloc, &job.state, &action, makes, hand.as_slice())?;
        Ok(Plan {
            state: plan.state,
            due: plan.due,
            ups: with_rider(alloc, job.action.rider(), plan.ups)?,
        })
    }

    /// What fails once a message is dealt with: the action of the commit to which it brings the last answer, where some id got no
    /// more credit.
    pub(crate) fn failing(
        &self,
        alloc: Global,
        parcel: &Parcel,
    ) -> Result<Option<Failing>, OutOfMemory>
        requires tidy { IsTidy self.now.tables [] }
        ensures some { IfOk result (λ o. IfSome o (IsFailingFor self.now.tables parcel.now)) }
        ensures none { IfOk result (λ o. IfNone o (dooms self.now.tables parcel.now ≡ false)) }
    {
        let (id, entry) = match parcel {
            Parcel::Give { id, entry } => (*id, *entry),
            _ => return Ok(None),
        };
        let Some(i) = waiting_at(self.pending.as_slice(), id, entry) else {
            return Ok(None);
        };
        let waits = &self.pending[i];
        if !waits.fails_with(id) {
            return Ok(None);
        }
        let Some(j) = self.objects.place(target(waits.action())) else {
            return Ok(None);
        };
        let plan = self.failure(alloc, i, id, entry)?;
        Ok(Some(Failing { i, j, plan }))
    }

    /// Fails the action whose commit is at i, and whose object stands at j. It takes no memory.
    pub(crate) fn fail(&mut self, book: &mut Journal, i: usize, j: usize, plan: Plan)
        requires must { MustFail i j self.old.tables }
        requires plan { (w : _) → slice_get self.old.tables.pending i ≡ Some w → IsFailure w plan }
        requires few { length plan.ups.items ≤ 256 }
        requires serial { self.old.tables.serial + 2 < 2 ^ 64 }
        requires answers { self.old.tables.answered + 1 < 2 ^ 64 }
        requires spare { 512 ≤ self.old.spare }
        requires page { 512 ≤ book.old.spare }
        ensures running { self.new.tables.running ≡ self.old.tables.running }
        ensures taken { self.new.tables.taken ≡ self.old.tables.taken }
        ensures sent { self.new.tables.sent ≡ self.old.tables.sent }
        ensures fails { Fails i j self.old.tables self.new.tables }
        ensures writes { (w : _) → slice_get self.old.tables.pending i ≡ Some w → Writes (failed_events self.old.tables w) self.old.tables self.new.tables book.old.entries book.new.entries }
        ensures few { length book.new.entries ≤ length book.old.entries + 259 }
        ensures light { total_weight book.new.entries ≤ total_weight book.old.entries + 16640 }
    {
        let Plan { state, due, ups } = plan;
        self.settle_waiting(book, i, j, state, true);
        self.leave(book, j, due, None, ups, None);
    }
}
