//! A commit whose ids do not last: what it has is split ahead, and it waits for credit that it asks for.
ghost use Rattle.std.specs.Prelude.{◌≡◌, ◌≤◌, ◌<◌, ◌+◌, ◌^◌, Some, IfOk, IfErr, length, map, slice_get};
ghost use Rattle.std.specs.List.{AllByRecursion};
ghost use Rattle.hpx_value.specs.Laws.{IsManaged, KeepsLaws};
ghost use Rattle.hpx_journal.specs.Weights.{HasRoom};
ghost use Rattle.hpx_value.specs.Ids.{bare};
ghost use Rattle.hpx_value.specs.Values.{bare_state};
ghost use Rattle.hpx_parcel.specs.Parcels.{HasLeastCredit};
ghost use Rattle.hpx_node.specs.Asks.{IsBefore, Pauses, Begins};
ghost use Rattle.hpx_tables.specs.Pending.{asked_at};
ghost use Rattle.hpx_tables.specs.Fit.{IsKept};
ghost use Rattle.hpx_commit.specs.Deals.{AllLast};
ghost use Rattle.hpx_value.specs.Riders.{plain};
ghost use Rattle.hpx_node.specs.Commits.{hand_of, places_in_hand, seen};
ghost use Rattle.hpx_tables.specs.Births.{birth_of, ids_of};
ghost use Rattle.hpx_tables.specs.Jobs.{IsAt, IsFitJob};
ghost use Rattle.hpx_steps.specs.Calls.{with_asks};
ghost use Rattle.hpx_steps.specs.Rest.{Stands};
ghost use Rattle.hpx_node.specs.Changes.{OnlySpare};
ghost use Rattle.hpx_steps.specs.Limits.{AddsATurn};

use crate::node::Node;
use crate::node::finish::MOST_ENTRIES;
use crate::parts::{FinishFault, Finished};
use hpx_commit::hand::Hand;
use hpx_commit::plan::places_named;
use hpx_commit::stock::{Stock, split_ahead};
use hpx_journal::journal::Journal;
use hpx_parcel::parcel::Parcel;
use hpx_tables::kept::{Letter, bare_state};
use hpx_tables::pending::{Asked, Pending, lawful};
use hpx_tables::splits::{push_asks, push_first_splits};
use hpx_value::acts::{Acts, Done};
use hpx_value::gid::Gid;
use hpx_value::memory::OutOfMemory;
use hpx_value::outcome::Make;
use hpx_value::value::State;
use std::alloc::Global;

/// What a commit has that waits: its hand and the places that are named there, of which so many first are its own, the stock that
/// is split ahead, the ids that are asked for and their numbers and places, and the state of its object without credits.
#[derive(Drop)]
struct Before {
    hand: Vec<Gid>,
    places: Vec<u32>,
    own: u32,
    stock: Stock,
    lacking: Vec<Gid>,
    asked: Vec<Asked>,
    state: State,
}

impl<A: Acts + Copy> Node<A> {
    /// The ids of the objects that an outcome makes, without credit.
    fn later(&self, alloc: Global, makes: &[Make]) -> Result<Vec<Gid>, OutOfMemory>
        requires managed { AllByRecursion (λ make. IsManaged make.kind) makes.now }
        requires few { self.now.tables.births + length makes.now < 2 ^ 32 }
        ensures { IfOk result (λ ids. ids.items ≡ map bare (ids_of self.now.tables.here self.now.tables.births self.now.tables.profile.credit_log (map birth_of makes.now))) }
    {
        let mut last = self.records.births() as u64;
        let mut ids = Vec::new(alloc);
        for make in makes {
            last += 1;
            ids.push(Gid::new(self.here, make.kind, last))?;
        }
        Ok(ids)
    }

    /// What is asked for at these places: each under the next number.
    fn asks(&self, alloc: Global, places: &[u32]) -> Result<Vec<Asked>, OutOfMemory>
        requires few { self.now.tables.asked + length places.now < 2 ^ 64 }
        ensures { IfOk result (λ asked. asked.items ≡ asked_at self.now.tables.asked places.now) }
    {
        let mut entry = self.asked;
        let mut asked = Vec::new(alloc);
        for place in places {
            entry += 1;
            asked.push(Asked {
                entry,
                place: *place,
            })?;
        }
        Ok(asked)
    }

    /// What a commit has that waits: its hand, its stock, and what it asks for.
    fn before(&self, alloc: Global, done: &Done<A>) -> Result<Before, OutOfMemory>
        requires localities { done.now.localities ≤ 64 }
        requires at { done.now.job.at < done.now.localities }
        requires fit { IsFitJob done.now.job }
        requires few { self.now.tables.births + 1024 < 2 ^ 32 }
        requires asked { self.now.tables.asked + 1024 < 2 ^ 64 }
        ensures { IfOk result (IsBefore self.now.tables (seen done.now.job) done.now.outcome) }
    {
        lawful(done);
        let job = done.job();
        let outcome = done.outcome();
        let action = job.action.plain(alloc)?;
        let made = self.made(alloc, outcome.makes.as_slice())?;
        let hand = Hand::of(alloc, &job.state, &action, made.as_slice())?;
        let places = places_named(alloc, &hand, outcome)?;
        let later = self.later(alloc, outcome.makes.as_slice())?;
        let own = job.state.ids.len() + action.ids.len();
        let hand = Hand::of(alloc, &job.state, &action, later.as_slice())?;
        let mut stock = split_ahead(alloc, hand.ids(), places.as_slice(), own as u32)?;
        let short = stock.short_places(alloc, own as u32)?;
        let lacking = stock.ids_at(alloc, short.as_slice())?;
        let asked = self.asks(alloc, short.as_slice())?;
        stock.strip(short.as_slice());
        Ok(Before {
            hand: Vec::from_slice(alloc, hand.ids())?,
            places,
            own: own as u32,
            stock,
            lacking,
            asked,
            state: bare_state(alloc, &job.state)?,
        })
    }

    /// Lets the action at i wait for credit; its object, at j, keeps its state without credits.
    fn pause(&mut self, i: usize, j: usize, state: State, waits: Pending<A>)
        requires at { IsAt self.old.tables i j waits.job }
        requires object { j < length self.old.tables.objects }
        requires kept { (x : _) → slice_get self.old.tables.objects j ≡ Some x → IsKept (record { object = x.object; state = state }) }
        requires state { state ≡ bare_state waits.job.state }
        requires spare { 1 ≤ self.old.spare }
        ensures pauses { Pauses i j waits.job waits self.old.tables self.new.tables }
        ensures spare { self.old.spare ≤ self.new.spare + 1 }
    {
        let _ = self.running.remove(i);
        self.objects.put_state(j, state);
        self.pending.push_reserved(waits);
    }

    /// Asks for more of each of these ids at its home.
    fn ask_all(&mut self, ids: &[Gid])
        requires least { AllByRecursion HasLeastCredit ids.now }
        requires few { self.old.tables.asked + length ids.now < 2 ^ 64 }
        requires spare { length ids.now ≤ self.old.spare }
        ensures asks { self.new.tables ≡ record (with_asks self.old.tables.here self.old.tables.asked ids.now self.old.tables) { asked = self.old.tables.asked + length ids.now } }
        ensures spare { self.old.spare ≤ self.new.spare + length ids.now }
    {
        for id in ids {
            self.asked += 1;
            let ask = Parcel::Ask {
                id: *id,
                asker: self.here as u16,
                entry: self.asked,
            };
            self.mail(id.home(), Letter::new(ask));
        }
    }

    /// Splits what a commit has, lets it wait, and asks for what it lacks. It takes no memory.
    fn begin(&mut self, book: &mut Journal, i: usize, j: usize, done: Done<A>, before: Before)
        requires at { IsAt self.old.tables i j done.job }
        requires localities { done.localities ≡ self.old.tables.localities }
        requires few { self.old.tables.localities ≤ 64 }
        requires fit { IsFitJob done.job }
        requires here { done.job.at < done.localities }
        requires laws { KeepsLaws done.localities done.job.kind done.job.at done.job.state (plain done.job.action) done.outcome }
        requires short { AllLast (hand_of self.old.tables (seen done.job) done.outcome) (places_in_hand self.old.tables (seen done.job) done.outcome) → ⊥ }
        requires before { IsBefore self.old.tables (seen done.job) done.outcome before }
        requires asked { self.old.tables.asked + 1024 < 2 ^ 64 }
        requires spare { 1024 ≤ self.old.spare }
        requires page { 1024 ≤ book.old.spare }
        requires stands { Stands A.act_of self.old.tables book.old.entries }
        ensures stands { Stands A.act_of self.new.tables book.new.entries }
        ensures turn { AddsATurn book.old.entries book.new.entries }
        ensures begins { Begins self.old.tables self.new.tables done.job done.outcome book.old.entries book.new.entries }
    {
        let Before {
            hand,
            places,
            own,
            stock,
            lacking,
            asked,
            state,
        } = before;
        push_first_splits(book, self.here, hand.as_slice(), places.as_slice(), own);
        push_asks(book, self.here, lacking.as_slice());
        self.pause(i, j, state, Pending::new(done, stock, asked));
        self.ask_all(lacking.as_slice());
    }

    /// Lets a commit wait: what it has is split ahead, and what it lacks is asked for. The job is handed back without memory.
    pub(crate) fn wait(
        &mut self,
        alloc: Global,
        book: &mut Journal,
        i: usize,
        j: usize,
        done: Done<A>,
    ) -> Result<Finished, FinishFault<A>>
        requires at { IsAt self.old.tables i j done.job }
        requires localities { done.localities ≡ self.old.tables.localities }
        requires few { self.old.tables.localities ≤ 64 }
        requires fit { IsFitJob done.job }
        requires here { done.job.at < done.localities }
        requires short { AllLast (hand_of self.old.tables (seen done.job) done.outcome) (places_in_hand self.old.tables (seen done.job) done.outcome) → ⊥ }
        requires room { HasRoom book.old.entries }
        requires stands { Stands A.act_of self.old.tables book.old.entries }
        ensures stands { Stands A.act_of self.new.tables book.new.entries }
        ensures turn { AddsATurn book.old.entries book.new.entries }
        ensures asks { IfOk result (λ f. (f ≡ Finished.Asking) × Begins self.old.tables self.new.tables done.job done.outcome book.old.entries book.new.entries) }
        ensures err { IfErr result (λ e. (e.undone ≡ done) × OnlySpare self.old.tables self.new.tables book.old book.new) }
    {
        lawful(&done);
        let before = match self.before(alloc, &done) {
            Ok(before) => before,
            Err(_) => return Err(FinishFault { undone: done }),
        };
        if self.reserve(MOST_ENTRIES).is_err() || book.reserve(MOST_ENTRIES).is_err() {
            return Err(FinishFault { undone: done });
        }
        self.begin(book, i, j, done, before);
        Ok(Finished::Asking)
    }
}
