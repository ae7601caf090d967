//! A commit that waited and goes on: the last that it asked for has come.
ghost use Rattle.std.specs.Prelude.{◌≡◌, ◌≤◌, ◌<◌, ◌+◌, ◌^◌, ◌∷◌, ◌++◌, [], false, Some, None, IfOk, IfSome, IfNone, length, option_map, set, slice_get};
ghost use Rattle.std.specs.List.{remove};
ghost use Rattle.hpx_journal.specs.Entries.{name_of};
ghost use Rattle.hpx_journal.specs.Weights.{total_weight};
ghost use Rattle.hpx_parcel.specs.Parcels.{IsParcel};
ghost use Rattle.hpx_part.specs.Parts.{at_all};
ghost use Rattle.hpx_part.specs.Data.{Done};
ghost use Rattle.hpx_tables.specs.Awaited.{answered_by};
ghost use Rattle.hpx_node.specs.Commits.{committed_from, seen, IsStock, IsPrepared, Commits};
ghost use Rattle.hpx_tables.specs.Fit.{IsKept};
ghost use Rattle.hpx_tables.specs.Jobs.{IsFitJob};
ghost use Rattle.hpx_tables.specs.Pending.{ids_named, action_of};
ghost use Rattle.hpx_node.specs.Resumes.{full_stock, stock_with, MayResume, IsReadyFor, completes};
ghost use Rattle.hpx_steps.specs.Rest.{IsTidy};
ghost use Rattle.hpx_tables.specs.Rules.{broken_near};
ghost use Rattle.hpx_node.specs.Changes.{Writes};

use crate::node::Node;
use crate::node::finish::Prepared;
use hpx_commit::deal::log_of;
use hpx_commit::hand::Hand;
use hpx_commit::plan::Plan;
use hpx_commit::stock::Stock;
use hpx_journal::entry::{Entry, Event};
use hpx_journal::journal::Journal;
use hpx_journal::local::name_of;
use hpx_parcel::parcel::Parcel;
use hpx_tables::find::{answered_by, target, waiting_at};
use hpx_tables::pending::{Pending, lawful};
use hpx_value::acts::Acts;
use hpx_value::gid::Gid;
use hpx_value::memory::OutOfMemory;
use hpx_value::value::State;
use std::alloc::Global;

/// A commit that goes on, before its first change: where it waits, where its object stands, and what it writes.
#[derive(Drop)]
pub struct Ready {
    pub i: usize,
    pub j: usize,
    pub prepared: Prepared,
}

impl<A: Acts + Copy> Node<A> {
    /// Plans a commit that waited, with these ids in its hand.
    fn prepare_waiting(
        &self,
        alloc: Global,
        waits: &Pending<A>,
        hand: &[Gid],
    ) -> Result<Prepared, OutOfMemory>
        requires localities { waits.now.localities ≡ self.now.tables.localities }
        requires near { self.now.tables.localities ≤ 64 }
        requires at { waits.now.job.at < waits.now.localities }
        requires fit { IsFitJob waits.now.job }
        requires few { self.now.tables.births + 1024 < 2 ^ 32 }
        requires fits { length (ids_named waits.now) + length waits.now.outcome.makes ≤ length hand.now }
        requires short { length hand.now ≤ 1024 }
        requires stock { IsStock self.now.tables (seen waits.now.job) waits.now.outcome (stock_with self.now.tables waits.now hand.now) }
        ensures prepared { IfOk result (IsPrepared self.now.tables waits.now.job waits.now.outcome) }
        ensures stock { IfOk result (λ p. p.stock ≡ stock_with self.now.tables waits.now hand.now) }
    {
        lawful(waits.done());
        let job = waits.done().job();
        let outcome = waits.done().outcome();
        let action = job.action.plain(alloc)?;
        let made = self.made(alloc, outcome.makes.as_slice())?;
        let mut stock = Stock::of(alloc, hand, waits.places())?;
        stock.replace_from(job.state.ids.len() + action.ids.len(), made.as_slice());
        let hand = Hand::of(alloc, &job.state, &action, made.as_slice())?;
        self.prepare_from(alloc, waits.done(), &hand, stock)
    }

    /// What goes on once a message is dealt with: the commit for which it brings the last credit.
    pub(crate) fn ready(&self, alloc: Global, parcel: &Parcel) -> Result<Option<Ready>, OutOfMemory>
        requires fit { IsParcel parcel.now }
        requires tidy { IsTidy self.now.tables [] }
        requires right { broken_near self.now.tables parcel.now ≡ None }
        requires few { self.now.tables.births + 1024 < 2 ^ 32 }
        ensures some { IfOk result (λ o. IfSome o (IsReadyFor A.act_of self.now.tables parcel.now)) }
        ensures none { IfOk result (λ o. IfNone o (completes self.now.tables parcel.now ≡ false)) }
    {
        let (id, entry) = match parcel {
            Parcel::Give { id, entry } => (*id, *entry),
            _ => return Ok(None),
        };
        let Some(i) = waiting_at(self.pending.as_slice(), id, entry) else {
            return Ok(None);
        };
        let waits = &self.pending[i];
        lawful(waits.done());
        if log_of(id) == 0 || !waits.waits_for_one() {
            return Ok(None);
        }
        let Some(j) = self.objects.place(target(waits.action())) else {
            return Ok(None);
        };
        let hand = waits.hand_with(alloc, id, entry)?;
        let prepared = self.prepare_waiting(alloc, waits, hand.as_slice())?;
        Ok(Some(Ready { i, j, prepared }))
    }

    /// Ends the job of a commit that waited: it waits no more, its action is done or failed, and its object has this state.
    pub(crate) fn settle_waiting(
        &mut self,
        book: &mut Journal,
        i: usize,
        j: usize,
        state: State,
        failed: bool,
    )
        requires waits { i < length self.old.tables.pending }
        requires object { j < length self.old.tables.objects }
        requires kept { (x : _) → slice_get self.old.tables.objects j ≡ Some x → IsKept (record { object = x.object; state = state }) }
        requires answers { self.old.tables.answered + 1 < 2 ^ 64 }
        requires page { 1 ≤ book.old.spare }
        ensures pending { self.new.tables.pending ≡ remove self.old.tables.pending i }
        ensures objects { (x : _) → slice_get self.old.tables.objects j ≡ Some x → self.new.tables.objects ≡ set self.old.tables.objects j (record { object = x.object; state = state }) }
        ensures rest { self.new.tables ≡ record self.old.tables {
          pending = self.new.tables.pending;
          objects = self.new.tables.objects;
          answered = self.old.tables.answered + answered_by (option_map action_of (slice_get self.old.tables.pending i));
        } }
        ensures spare { self.old.spare ≤ self.new.spare }
        ensures page { book.new.spare + 1 ≡ book.old.spare }
        ensures entries { (w : _) → slice_get self.old.tables.pending i ≡ Some w
            → book.new.entries ≡ book.old.entries ++ at_all self.old.tables.here (Done (name_of w.job.action) failed ∷ []) }
    {
        let at = self.here;
        let waits = self.pending.remove(i);
        self.answered += answered_by(waits.action());
        self.put_state(j, state);
        book.push(Entry {
            at,
            event: Event::Done {
                action: name_of(waits.action()),
                failed,
            },
        });
    }

    /// Writes a commit that waited. It takes no memory.
    pub(crate) fn resume(&mut self, book: &mut Journal, ready: Ready)
        requires waits { ready.i < length self.old.tables.pending }
        requires may { (w : _) → slice_get self.old.tables.pending ready.i ≡ Some w → MayResume self.old.tables w ready.j ready.prepared }
        requires births { self.old.tables.births + 1024 < 2 ^ 32 }
        requires serial { self.old.tables.serial + 1024 < 2 ^ 64 }
        requires answers { self.old.tables.answered + 1 < 2 ^ 64 }
        requires spare { 1024 ≤ self.old.spare }
        requires page { 1024 ≤ book.old.spare }
        ensures running { self.new.tables.running ≡ self.old.tables.running }
        ensures pending { self.new.tables.pending ≡ remove self.old.tables.pending ready.i }
        ensures taken { self.new.tables.taken ≡ self.old.tables.taken }
        ensures sent { self.new.tables.sent ≡ self.old.tables.sent }
        ensures few { length book.new.entries ≤ length book.old.entries + 598 }
        ensures light { total_weight book.new.entries ≤ total_weight book.old.entries + 2380416 }
        ensures writes { (w : _) → slice_get self.old.tables.pending ready.i ≡ Some w
            → Writes (committed_from self.old.tables w.job w.outcome (full_stock self.old.tables w)) self.old.tables self.new.tables book.old.entries book.new.entries }
        ensures commits { (w : _) → slice_get self.old.tables.pending ready.i ≡ Some w
            → Commits w.job w.outcome (full_stock self.old.tables w) ready.j (record self.old.tables { pending = remove self.old.tables.pending ready.i }) self.new.tables }
    {
        let Ready { i, j, prepared } = ready;
        let Prepared {
            births,
            stock,
            plan: Plan { state, due, ups },
        } = prepared;
        let rider = self.pending[i].action().rider();
        self.make(book, births, &stock);
        self.settle_waiting(book, i, j, state, false);
        self.leave(book, j, due, rider, ups, None);
    }
}
