//! A queue that knows of which objects it carries ids.
ghost use Rattle.std.specs.Prelude.{◌≡◌, ◌≤◌, ◌<◌, ◌+◌, ◌++◌, ◌∷◌, ◌↔◌, ◌==◌, [], IsTrue, IsSome, IfSome, OnSome, IfNone, OnOk, length, drop, sum_by};
ghost use Rattle.std.specs.List.{remove, slice_index_or};
ghost use Rattle.std.specs.Option.{option_to_list};
ghost use Rattle.hpx_tables.specs.Kept.{credit_in};
ghost use Rattle.hpx_tables.specs.Tallies.{Counts};

use crate::carries::Carries;
use crate::tally::Tally;
use hpx_value::gid::Gid;
use std::alloc::{AllocError, Global};
use std::collections::VecDeque;
use std::marker::Model;
use std::ops::Index;

/// Things in the order in which they came.
///
/// The ids that they carry are counted as they come and go. Counting takes no room: where there is no memory for it, the ids are
/// looked for among the things until the queue is empty.
#[derive(Drop)]
pub struct Queue<T: Carries> {
    items: VecDeque<T>,
    tally: Tally,
}

impl<T: Carries> Model for Queue<T> {
    ghost use Rattle.std.specs.Prelude.{◌-◌};
    ghost use Rattle.std.specs.VecDeque.{deque_len, deque_capacity};
    ghost use Rattle.hpx_tables.specs.Queued.{Queued, queued_code};

    ghost Value = { Queued T };

    ghost coded = { queued_code T.code };

    ghost use Rattle.hpx_tables.specs.Tallies.{Counts};

    ghost view = { λ q. record { items = q.items.items; spare = deque_capacity q.items - deque_len q.items } };

    ghost invariant = { λ q. Counts q.tally T.ids_of q.items.items };
}

/// One has left, and these stay.
fn leaves<T: Carries>(tally: &mut Tally, left: &T, rest: &VecDeque<T>)
    ensures { Counts tally.old T.ids_of (left.now ∷ rest.now.items) → Counts tally.new T.ids_of rest.now.items }
{
    tally.take_of(left);
    if rest.is_empty() {
        tally.begin_anew();
    }
}

impl<T: Carries> Queue<T> {
    /// An empty queue.
    pub fn new(alloc: Global) -> Queue<T>
        ensures { result.items ≡ [] }
    {
        Queue {
            items: VecDeque::new(alloc),
            tally: Tally::new(alloc),
        }
    }

    /// Makes room for so many more.
    pub fn reserve(&mut self, n: usize) -> Result<(), AllocError>
        ensures items { self.new.items ≡ self.old.items }
        ensures ok { OnOk result (n ≤ self.new.spare) }
    {
        self.items.reserve(n)
    }

    /// How many there are.
    pub fn len(&self) -> usize
        ensures { result ≡ length self.now.items }
    {
        self.items.len()
    }

    /// Whether there is none.
    pub fn is_empty(&self) -> bool
        ensures { result ≡ (length self.now.items == 0) }
    {
        self.items.is_empty()
    }

    /// Whether none carries credit of an object, for certain.
    pub fn lacks(&self, o: Gid) -> bool
        ensures { IsTrue result → sum_by (λ x. credit_in o (T.ids_of x)) self.now.items ≡ 0 }
    {
        self.tally.lacks(o)
    }

    /// Puts one behind the others, where there is room.
    pub fn push_back_reserved(&mut self, x: T)
        requires { 1 ≤ self.old.spare }
        ensures items { self.new.items ≡ self.old.items ++ x ∷ [] }
        ensures spare { self.old.spare ≤ self.new.spare + 1 }
    {
        self.tally.add_of(&x);
        self.items.push_back_reserved(x);
    }

    /// Takes the first out.
    pub fn pop_front(&mut self) -> Option<T>
        ensures items { self.old.items ≡ option_to_list result ++ self.new.items }
        ensures variant { IsSome result ↔ (0 < length self.old.items) }
        ensures rest { self.new.items ≡ drop 1 self.old.items }
        ensures spare { self.old.spare ≤ self.new.spare }
    {
        let Some(x) = self.items.pop_front() else {
            return None;
        };
        leaves(&mut self.tally, &x, &self.items);
        Some(x)
    }

    /// Takes the one at a place out.
    pub fn remove(&mut self, i: usize) -> Option<T>
        ensures value { IfSome result (λ x. x ≡ slice_index_or self.old.items i x) }
        ensures items { OnSome result (self.new.items ≡ remove self.old.items i) }
        ensures variant { IsSome result ↔ (i < length self.old.items) }
        ensures unchanged { IfNone result (self.new.items ≡ self.old.items) }
        ensures spare { self.old.spare ≤ self.new.spare }
    {
        let Some(x) = self.items.remove(i) else {
            return None;
        };
        leaves(&mut self.tally, &x, &self.items);
        Some(x)
    }
}

impl<T: Carries> Index<usize> for Queue<T> {
    type Output = T;

    ghost can_index = { λ q i. i < length q.items };

    ghost index_gives = { λ q i x. x ≡ slice_index_or q.items i x };

    fn index(&self, index: usize) -> &T
        requires { index < length self.now.items }
        ensures { result.now ≡ slice_index_or self.now.items index result.now }
    {
        &self.items[index]
    }
}
