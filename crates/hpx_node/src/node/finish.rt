//! Committing a job that is done: what its outcome makes, what it leaves due, and what nobody names.
ghost use Rattle.std.specs.Prelude.{◌≡◌, ◌≤◌, ◌<◌, ◌+◌, ◌^◌, [], IfOk, IfErr, OnErr, IfSome, IfNone, length, map};
ghost use Rattle.std.specs.List.{AllByRecursion};
ghost use Rattle.hpx_value.specs.Laws.{IsManaged, KeepsLaws};
ghost use Rattle.hpx_journal.specs.Weights.{HasRoom};
ghost use Rattle.hpx_commit.specs.Deals.{AllLast};
ghost use Rattle.hpx_node.specs.Asks.{Begins};
ghost use Rattle.hpx_tables.specs.Births.{birth_of, ids_of};
ghost use Rattle.hpx_value.specs.Riders.{plain};
ghost use Rattle.hpx_node.specs.Commits.{committed, made_of, seen, hand_of, places_in_hand, own_stock, IsStock, IsPrepared, Ends};
ghost use Rattle.hpx_tables.specs.Jobs.{IsAt, IsRunning, IsFitJob};
ghost use Rattle.hpx_steps.specs.Rest.{IsTidy, Stands};
ghost use Rattle.hpx_node.specs.Changes.{OnlySpare, Writes};
ghost use Rattle.hpx_steps.specs.Limits.{AddsATurn};

use crate::node::Node;
use crate::parts::{FinishFault, Finished};
use hpx_commit::deal::all_last;
use hpx_commit::hand::Hand;
use hpx_commit::plan::{Plan, places_named, plan_stock};
use hpx_commit::stock::Stock;
use hpx_journal::journal::Journal;
use hpx_tables::births::{Birth, births};
use hpx_tables::find::{index_of, target};
use hpx_tables::pending::lawful;
use hpx_value::acts::{Acts, Done};
use hpx_value::exact::Exact;
use hpx_value::gid::Gid;
use hpx_value::memory::OutOfMemory;
use hpx_value::outcome::Make;
use std::alloc::Global;
use std::collections::VecDeque;

/// How many entries a commit may write, and how many messages it may send.
pub const MOST_ENTRIES: u32 = 1024;

/// A commit, before its first change: what it makes, the stock that it deals, and what it leaves.
#[derive(Drop)]
pub struct Prepared {
    pub births: VecDeque<Birth>,
    pub stock: Stock,
    pub plan: Plan,
}

impl<A: Acts + Copy> Node<A> {
    /// Where the action of a job runs, and where its object stands.
    fn spot(&self, done: &Done<A>) -> Option<(usize, usize)>
        requires tidy { IsTidy self.now.tables [] }
        ensures found { IfSome result (λ p. (done.now.localities ≡ self.now.tables.localities) × IsAt self.now.tables p.0 p.1 done.now.job) }
        ensures fit { IfSome result (λ p. IsFitJob done.now.job) }
        ensures few { IfSome result (λ p. done.now.localities ≤ 64) }
        ensures here { IfSome result (λ p. done.now.job.at < done.now.localities) }
        ensures none { IfNone result (done.now.localities ≡ self.now.tables.localities → IsRunning self.now.tables done.now.job → ⊥) }
    {
        let job = done.job();
        if job.at != self.here || done.localities() != self.localities {
            return None;
        }
        let i = index_of(self.running.as_slice(), &job.action)?;
        let j = self.objects.place(target(&job.action))?;
        let running = &self.running[i];
        let kept = self.objects.at(j);
        if kept.object().kind() != job.kind
            || !kept.state().same(&job.state)
            || !running.act().same(&job.action)
        {
            return None;
        }
        Some((i, j))
    }

    /// The ids of the objects that an outcome makes.
    pub(crate) fn made(&self, alloc: Global, makes: &[Make]) -> Result<Vec<Gid>, OutOfMemory>
        requires managed { AllByRecursion (λ make. IsManaged make.kind) makes.now }
        requires few { self.now.tables.births + length makes.now < 2 ^ 32 }
        ensures { IfOk result (λ ids. ids.items ≡ ids_of self.now.tables.here self.now.tables.births self.now.tables.profile.credit_log (map birth_of makes.now)) }
    {
        let mut number = self.records.births() as u64;
        let mut ids = Vec::new(alloc);
        for make in makes {
            number += 1;
            ids.push(Gid::new(self.here, make.kind, number).with_log(self.profile.credit_log))?;
        }
        Ok(ids)
    }

    /// Plans a commit that deals a stock of its hand.
    pub(crate) fn prepare_from(
        &self,
        alloc: Global,
        done: &Done<A>,
        hand: &Hand,
        stock: Stock,
    ) -> Result<Prepared, OutOfMemory>
        requires state { hand.now.state.now ≡ done.now.job.state }
        requires action { hand.now.action.now ≡ plain done.now.job.action }
        requires made { hand.now.made.now ≡ made_of self.now.tables done.now.outcome }
        requires localities { done.now.localities ≡ self.now.tables.localities }
        requires few { self.now.tables.localities ≤ 64 }
        requires fit { IsFitJob done.now.job }
        requires laws { KeepsLaws done.now.localities done.now.job.kind done.now.job.at done.now.job.state (plain done.now.job.action) done.now.outcome }
        requires stock { IsStock self.now.tables (seen done.now.job) done.now.outcome stock }
        ensures prepared { IfOk result (IsPrepared self.now.tables done.now.job done.now.outcome) }
        ensures stock { IfOk result (λ p. p.stock ≡ stock) }
    {
        let outcome = done.outcome();
        let plan = plan_stock(alloc, hand, outcome, stock.hand(), stock.places())?;
        Ok(Prepared {
            births: births(alloc, outcome.makes.as_slice())?,
            stock,
            plan,
        })
    }

    /// Plans a commit. There is none where some id of the hand does not last for all who name it.
    fn prepare(&self, alloc: Global, done: &Done<A>) -> Result<Option<Prepared>, OutOfMemory>
        requires localities { done.now.localities ≡ self.now.tables.localities }
        requires near { self.now.tables.localities ≤ 64 }
        requires at { done.now.job.at < done.now.localities }
        requires fit { IsFitJob done.now.job }
        requires few { self.now.tables.births + 1024 < 2 ^ 32 }
        ensures laws { KeepsLaws done.now.localities done.now.job.kind done.now.job.at done.now.job.state (plain done.now.job.action) done.now.outcome }
        ensures some { IfOk result (λ o. IfSome o (λ p. IsPrepared self.now.tables done.now.job done.now.outcome p)) }
        ensures own { IfOk result (λ o. IfSome o (λ p. p.stock ≡ own_stock self.now.tables (seen done.now.job) done.now.outcome)) }
        ensures none { IfOk result (λ o. IfNone o (AllLast (hand_of self.now.tables (seen done.now.job) done.now.outcome) (places_in_hand self.now.tables (seen done.now.job) done.now.outcome) → ⊥)) }
    {
        lawful(done);
        let job = done.job();
        let outcome = done.outcome();
        let action = job.action.plain(alloc)?;
        let made = self.made(alloc, outcome.makes.as_slice())?;
        let hand = Hand::of(alloc, &job.state, &action, made.as_slice())?;
        let places = places_named(alloc, &hand, outcome)?;
        if !all_last(hand.ids(), places.as_slice()) {
            return Ok(None);
        }
        let stock = Stock::of(alloc, hand.ids(), places.as_slice())?;
        Ok(Some(self.prepare_from(alloc, done, &hand, stock)?))
    }

    /// Writes a commit that is prepared. It takes no memory.
    fn commit(&mut self, book: &mut Journal, i: usize, j: usize, done: &Done<A>, prepared: Prepared)
        requires at { IsAt self.old.tables i j done.now.job }
        requires localities { done.now.localities ≡ self.old.tables.localities }
        requires few { self.old.tables.localities ≤ 64 }
        requires fit { IsFitJob done.now.job }
        requires here { done.now.job.at < done.now.localities }
        requires laws { KeepsLaws done.now.localities done.now.job.kind done.now.job.at done.now.job.state (plain done.now.job.action) done.now.outcome }
        requires prepared { IsPrepared self.old.tables done.now.job done.now.outcome prepared }
        requires own { prepared.stock ≡ own_stock self.old.tables (seen done.now.job) done.now.outcome }
        requires room { HasRoom book.old.entries }
        requires spare { 1024 ≤ self.old.spare }
        requires page { 1024 ≤ book.old.spare }
        requires stands { Stands A.act_of self.old.tables book.old.entries }
        ensures stands { Stands A.act_of self.new.tables book.new.entries }
        ensures turn { AddsATurn book.old.entries book.new.entries }
        ensures committed { Writes (committed self.old.tables done.now.job done.now.outcome) self.old.tables self.new.tables book.old.entries book.new.entries }
        ensures ends { Ends self.old.tables self.new.tables done.now.job done.now.outcome }
    {
        let Prepared {
            births,
            stock,
            plan: Plan { state, due, ups },
        } = prepared;
        self.make(book, births, &stock);
        self.settle(book, i, j, state);
        let told = self.note(&done.job().action, ups.as_slice());
        self.leave(book, j, due, done.job().action.rider(), ups, told);
    }

    /// Commits a job that is done, or lets it wait where some id of its hand has too little credit for all who name it.
    /// Nothing changes where it is not one that runs here, or without memory; in the last case the job is handed back.
    pub fn finish(
        &mut self,
        alloc: Global,
        book: &mut Journal,
        done: Done<A>,
    ) -> Result<Finished, FinishFault<A>>
        requires room { HasRoom book.old.entries }
        requires stands { Stands A.act_of self.old.tables book.old.entries }
        ensures stands { Stands A.act_of self.new.tables book.new.entries }
        ensures turn { AddsATurn book.old.entries book.new.entries }
        ensures committed { IfOk result (λ f. f ≡ Finished.Committed →
            Writes (committed self.old.tables done.job done.outcome) self.old.tables self.new.tables book.old.entries book.new.entries) }
        ensures lasts { IfOk result (λ f. f ≡ Finished.Committed →
            AllLast (hand_of self.old.tables (seen done.job) done.outcome) (places_in_hand self.old.tables (seen done.job) done.outcome)) }
        ensures asks { IfOk result (λ f. f ≡ Finished.Asking →
            (AllLast (hand_of self.old.tables (seen done.job) done.outcome) (places_in_hand self.old.tables (seen done.job) done.outcome) → ⊥)
            × Begins self.old.tables self.new.tables done.job done.outcome book.old.entries book.new.entries) }
        ensures not_running { IfOk result (λ f. f ≡ Finished.NotRunning →
            (done.localities ≡ self.old.tables.localities → IsRunning self.old.tables done.job → ⊥) × OnlySpare self.old.tables self.new.tables book.old book.new) }
        ensures running { IfOk result (λ f. (f ≡ Finished.NotRunning → ⊥) → (done.localities ≡ self.old.tables.localities) × IsRunning self.old.tables done.job) }
        ensures ends { IfOk result (λ f. f ≡ Finished.Committed → Ends self.old.tables self.new.tables done.job done.outcome) }
        ensures err { IfErr result (λ e. (e.undone ≡ done) × OnlySpare self.old.tables self.new.tables book.old book.new) }
        ensures runs { OnErr result ((done.localities ≡ self.old.tables.localities) × IsRunning self.old.tables done.job) }
    {
        let (i, j) = match self.spot(&done) {
            Some(spot) => spot,
            None => return Ok(Finished::NotRunning),
        };
        let prepared = match self.prepare(alloc, &done) {
            Ok(Some(prepared)) => prepared,
            Ok(None) => return self.wait(alloc, book, i, j, done),
            Err(_) => return Err(FinishFault { undone: done }),
        };
        if self.reserve(MOST_ENTRIES).is_err() || book.reserve(MOST_ENTRIES).is_err() {
            return Err(FinishFault { undone: done });
        }
        self.commit(book, i, j, &done, prepared);
        Ok(Finished::Committed)
    }
}
