ghost use Rattle.std.specs.Prelude.{◌≡◌, ◌≤◌, ◌<◌, ◌+◌, ◌-◌, ◌^◌, ◌∷◌, ◌++◌, [], ℕ, OnOk, max, length, drop, min, sum_by, MatchOption};
ghost use Rattle.hpx_agas.specs.Queues.{Weighs};

use std::alloc::{AllocError, AllocFailed, Global};
use std::collections::LinkedList;
use std::marker::Model;
use std::mem;

/// What waits for one object, the oldest first.
#[derive(Drop)]
pub(crate) struct Queue<Q> {
    places: LinkedList<Option<Q>>,
}

impl<Q> Model for Queue<Q> {
    ghost use Rattle.std.specs.Prelude.{List, ◌≡◌, map, Some};
    ghost use Rattle.std.specs.Coded.{coded_list};
    ghost use Rattle.hpx_agas.specs.Places.{filled};

    ghost Value = { List Q };

    ghost coded = { coded_list Q.code };

    ghost view = { λ q. filled q.places };

    ghost invariant = { λ q. q.places ≡ map (λ x. Some x) (filled q.places) };
}

impl<Q> Queue<Q> {
    pub(crate) fn new(alloc: Global) -> Queue<Q>
        ensures { result ≡ [] }
    {
        Queue {
            places: LinkedList::new(alloc),
        }
    }

    /// Ends an empty queue.
    pub(crate) fn end(self)
        requires { self ≡ [] }
    {
        self.places.destroy_empty();
    }

    /// How many items there are.
    pub(crate) fn len(&self) -> usize
        ensures { result ≡ length self.now }
    {
        self.places.len()
    }

    /// Puts the items of another queue behind its own. It takes no memory.
    pub(crate) fn append(&mut self, other: Queue<Q>)
        requires { length self.old + length other < 2 ^ 63 }
        ensures { self.new ≡ self.old ++ other }
    {
        let mut more = other.places;
        self.places.append(&mut more).unwrap();
        more.destroy_empty();
    }

    /// What the items weigh together, or the greatest number.
    pub(crate) fn weight<F: Fn(&Q) -> u128>(&self, weigh: &F) -> u128
        requires { F.IsAlwaysCallable weigh.now }
        ensures { (w : Q → ℕ) → Weighs F.Fn weigh.now w → result ≡ min (2 ^ 128 - 1) (sum_by w self.now) }
    {
        let mut sum = 0u128;
        for place in self.places.iter() {
            if let Some(item) = place {
                sum = sum.saturating_add(weigh(item));
            }
        }
        sum
    }

    /// Takes the oldest item.
    pub(crate) fn pop(&mut self) -> Option<Q>
        ensures item { MatchOption result ((self.old ≡ []) × (self.new ≡ [])) (λ item. self.old ≡ item ∷ self.new) }
        ensures rest { self.new ≡ drop 1 self.old }
    {
        self.places.pop_front()?
    }
}

/// Empty places for items, seen as how many there are.
#[derive(Drop)]
pub(crate) struct Room<Q> {
    places: LinkedList<Option<Q>>,
}

impl<Q> Model for Room<Q> {
    ghost use Rattle.std.specs.Prelude.{ℕ, length, ◌≡◌, []};
    ghost use Rattle.hpx_agas.specs.Places.{filled};

    ghost Value = { ℕ };

    ghost view = { λ r. length r.places };

    ghost invariant = { λ r. filled r.places ≡ [] };
}

impl<Q> Room<Q> {
    pub(crate) fn new(alloc: Global) -> Room<Q>
        ensures { result ≡ 0 }
    {
        Room {
            places: LinkedList::new(alloc),
        }
    }

    /// Makes memory for so many items.
    pub(crate) fn reserve(&mut self, n: usize) -> Result<(), AllocError>
        ensures enough { OnOk result (n ≤ self.new) }
        ensures kept { self.old ≤ self.new }
        ensures most { self.new ≤ max self.old n }
    {
        for _ in self.places.len()..n {
            self.add()?;
        }
        Ok(())
    }

    /// Makes memory for one more item.
    fn add(&mut self) -> Result<(), AllocError>
        ensures more { OnOk result (self.new ≡ self.old + 1) }
        ensures kept { self.old ≤ self.new }
        ensures most { self.new ≤ self.old + 1 }
    {
        match self.places.push_back(None) {
            Ok(()) => Ok(()),
            Err(AllocFailed { value }) => {
                let None = value else { unreachable!() };
                Err(AllocError)
            }
        }
    }

    /// A queue of one item, in a place that was empty. It takes no memory.
    pub(crate) fn fill(&mut self, item: Q) -> Queue<Q>
        requires { 1 ≤ self.old }
        ensures queue { result ≡ item ∷ [] }
        ensures room { self.new + 1 ≡ self.old }
    {
        let last = self.places.len() - 1;
        let mut places = self.places.split_off(last).unwrap();
        let Some(place) = places.front_mut() else {
            unreachable!()
        };
        let old = mem::replace(place, Some(item));
        let None = old else { unreachable!() };
        Queue { places }
    }
}
