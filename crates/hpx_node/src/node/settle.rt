//! Settling a job: what it makes is made, the ids of its hand are halved, and it is done.
ghost use Rattle.std.specs.Prelude.{◌≡◌, ◌≤◌, ◌<◌, ◌+◌, ◌^◌, ◌∷◌, ◌++◌, [], false, Some, length, set, slice_get};
ghost use Rattle.std.specs.List.{remove, AllByRecursion};
ghost use Rattle.hpx_journal.specs.Entries.{name_of};
ghost use Rattle.hpx_part.specs.Parts.{at_all};
ghost use Rattle.hpx_part.specs.Data.{Done};
ghost use Rattle.hpx_commit.specs.Deals.{AllLast};
ghost use Rattle.hpx_tables.specs.Births.{AreDrawn, IsBirth, Makes, births_of};
ghost use Rattle.hpx_tables.specs.Splits.{splits_from};
ghost use Rattle.hpx_tables.specs.Awaited.{answered_by};
ghost use Rattle.hpx_tables.specs.Fit.{IsKept};

use crate::node::Node;
use hpx_commit::stock::Stock;
use hpx_journal::entry::{Entry, Event};
use hpx_journal::journal::Journal;
use hpx_tables::births::Birth;
use hpx_tables::find::answered_by;
use hpx_tables::kept::Kept;
use hpx_tables::splits::push_splits;
use hpx_value::acts::Acts;
use hpx_value::value::State;
use std::collections::VecDeque;

impl<A: Acts + Copy> Node<A> {
    /// Makes the first of the objects that are about to be made.
    fn bear(&mut self, book: &mut Journal, births: &mut VecDeque<Birth>)
        requires some { 0 < length births.old.items }
        requires fit { AllByRecursion IsBirth births.old.items }
        requires few { self.old.tables.births + length births.old.items < 2 ^ 32 }
        requires drawn { AreDrawn self.old.tables }
        requires spare { length births.old.items ≤ self.old.spare }
        requires page { length births.old.items ≤ book.old.spare }
        ensures made { Makes births.old.items births.new.items self.old.tables self.new.tables }
        ensures fewer { length births.new.items + 1 ≡ length births.old.items }
        ensures fit { AllByRecursion IsBirth births.new.items }
        ensures drawn { AreDrawn self.new.tables }
        ensures spare { self.old.spare ≤ self.new.spare + 1 }
        ensures page { book.new.spare + length births.old.items ≡ book.old.spare + length births.new.items }
        ensures entries { book.new.entries ++ at_all self.new.tables.here (births_of self.new.tables.here self.new.tables.births births.new.items)
            ≡ book.old.entries ++ at_all self.old.tables.here (births_of self.old.tables.here self.old.tables.births births.old.items) }
    {
        let at = self.here;
        if let Some(Birth { kind, state, entry }) = births.pop_front() {
            let object = self.records.born(kind).bare();
            self.objects.put(Kept::new(object, state));
            book.push(Entry {
                at,
                event: Event::Born {
                    object,
                    state: entry,
                },
            });
        }
    }

    /// Makes the objects that are about to be made.
    #[tactic(auto, using(crate::proofs::Made::makes_none, crate::proofs::Made::makes_then))]
    pub(crate) fn bear_all(&mut self, book: &mut Journal, mut births: VecDeque<Birth>)
        requires fit { AllByRecursion IsBirth births.items }
        requires few { self.old.tables.births + length births.items < 2 ^ 32 }
        requires drawn { AreDrawn self.old.tables }
        requires spare { length births.items ≤ self.old.spare }
        requires page { length births.items ≤ book.old.spare }
        ensures made { Makes births.items [] self.old.tables self.new.tables }
        ensures spare { self.old.spare ≤ self.new.spare + length births.items }
        ensures page { book.new.spare + length births.items ≡ book.old.spare }
        ensures entries { book.new.entries ≡ book.old.entries ++ at_all self.old.tables.here (births_of self.old.tables.here self.old.tables.births births.items) }
    {
        while !births.is_empty() {
            self.bear(book, &mut births);
        }
    }

    /// Makes the objects that are about to be made, and halves the ids of a stock for those who name them.
    pub(crate) fn make(&mut self, book: &mut Journal, births: VecDeque<Birth>, stock: &Stock)
        requires fit { AllByRecursion IsBirth births.items }
        requires few { self.old.tables.births + length births.items < 2 ^ 32 }
        requires drawn { AreDrawn self.old.tables }
        requires short { length stock.now.hand ≤ 1024 }
        requires lasts { AllLast stock.now.hand stock.now.places }
        requires spare { length births.items ≤ self.old.spare }
        requires page { length births.items + length (splits_from 0 stock.now.hand stock.now.places) ≤ book.old.spare }
        ensures made { Makes births.items [] self.old.tables self.new.tables }
        ensures spare { self.old.spare ≤ self.new.spare + length births.items }
        ensures page { book.new.spare + (length births.items + length (splits_from 0 stock.now.hand stock.now.places)) ≡ book.old.spare }
        ensures entries { book.new.entries ≡ book.old.entries
            ++ at_all self.old.tables.here (births_of self.old.tables.here self.old.tables.births births.items ++ splits_from 0 stock.now.hand stock.now.places) }
    {
        self.bear_all(book, births);
        push_splits(book, self.here, stock.hand(), stock.places());
    }

    /// Puts a state in place of that of the object at j.
    pub(crate) fn put_state(&mut self, j: usize, state: State)
        requires object { j < length self.old.tables.objects }
        requires kept { (x : _) → slice_get self.old.tables.objects j ≡ Some x → IsKept (record { object = x.object; state = state }) }
        ensures objects { (x : _) → slice_get self.old.tables.objects j ≡ Some x → self.new.tables.objects ≡ set self.old.tables.objects j (record { object = x.object; state = state }) }
        ensures rest { self.new.tables ≡ record self.old.tables { objects = self.new.tables.objects } }
        ensures spare { self.old.spare ≤ self.new.spare }
    {
        self.objects.put_state(j, state);
    }

    /// Commits the job itself: its action runs no more, and its object has the new state.
    pub(crate) fn settle(&mut self, book: &mut Journal, i: usize, j: usize, state: State)
        requires action { i < length self.old.tables.running }
        requires object { j < length self.old.tables.objects }
        requires kept { (x : _) → slice_get self.old.tables.objects j ≡ Some x → IsKept (record { object = x.object; state = state }) }
        requires answers { self.old.tables.answered + 1 < 2 ^ 64 }
        requires page { 1 ≤ book.old.spare }
        ensures running { self.new.tables.running ≡ remove self.old.tables.running i }
        ensures objects { (x : _) → slice_get self.old.tables.objects j ≡ Some x → self.new.tables.objects ≡ set self.old.tables.objects j (record { object = x.object; state = state }) }
        ensures rest { self.new.tables ≡ record self.old.tables {
          running = self.new.tables.running;
          objects = self.new.tables.objects;
          answered = self.old.tables.answered + answered_by (slice_get self.old.tables.running i);
        } }
        ensures spare { self.old.spare ≤ self.new.spare }
        ensures page { book.new.spare + 1 ≡ book.old.spare }
        ensures entries { (act : _) → slice_get self.old.tables.running i ≡ Some act → book.new.entries ≡ book.old.entries ++ at_all self.old.tables.here (Done (name_of act) false ∷ []) }
    {
        let at = self.here;
        let act = self.running.remove(i);
        self.answered += answered_by(act.act());
        self.put_state(j, state);
        book.push(Entry {
            at,
            event: Event::Done {
                action: act.name(),
                failed: false,
            },
        });
    }
}
