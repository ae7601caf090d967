ghost use Rattle.std.specs.Prelude.{◌≡◌, ◌∷◌, ◌++◌, ◌↔◌, [], ℕ, Bool, IsTrue, OnOk, OnErr, MatchOption, Some, option_copied, length, ◌<◌};
ghost use Rattle.std.specs.Bool.{OnTrue};
ghost use Rattle.std.specs.List.{slice_get, slice_index_or, find, list_any, count_by};
ghost use Rattle.hpx_journal.specs.Bags.{without, minus, Covers, IsFirst, IsAbsent};

use hpx_value::items::Items;
use hpx_value::memory::OutOfMemory;
use std::alloc::Global;
use std::collections::VecDeque;
use std::marker::Model;

/// What is looked for by a key.
pub trait Keyed<K>: Drop {
    /// Whether this is what the key names.
    ghost test: { K → Self → Bool };

    /// Whether this is what the key names.
    fn is(&self, key: &K) -> bool
        ensures { result ≡ test key.now self.now };
}

/// Elements, the newest first.
#[derive(Drop)]
pub struct Bag<T> {
    items: VecDeque<T>,
}

impl<T> Model for Bag<T> {
    ghost use Rattle.std.specs.Prelude.{List};

    ghost Value = { List T };

    ghost view = { λ b. b.items.items };
}

impl<T> Bag<T> {
    /// No element.
    pub fn new(alloc: Global) -> Bag<T>
        ensures { result ≡ [] }
    {
        Bag {
            items: VecDeque::new(alloc),
        }
    }

    /// The elements of a vector, in its order.
    pub fn from_vec(items: Vec<T>) -> Bag<T>
        ensures { result ≡ items.items }
    {
        Bag {
            items: VecDeque::from_vec(items),
        }
    }

    /// How many there are.
    pub fn len(&self) -> usize
        ensures { result ≡ length self.now }
    {
        self.items.len()
    }

    /// Whether there is none.
    pub fn is_empty(&self) -> bool
        ensures { IsTrue result ↔ (self.now ≡ []) }
    {
        self.items.len() == 0
    }

    /// The one at a place, from the newest.
    pub fn at(&self, i: usize) -> &T
        requires { i < length self.now }
        ensures { result.now ≡ slice_index_or self.now i result.now }
    {
        &self.items[i]
    }

    /// The newest.
    pub fn first(&self) -> Option<&T>
        ensures { option_copied result ≡ slice_get self.now 0 }
    {
        self.items.get(0)
    }

    /// The newest, which leaves.
    pub fn pop(&mut self) -> Option<T>
        ensures { MatchOption result ((self.old ≡ []) × (self.new ≡ [])) (λ x. self.old ≡ x ∷ self.new) }
    {
        self.items.pop_front()
    }
}

impl<T: Drop> Bag<T> {
    /// One more. Without memory nothing changes.
    pub fn put(&mut self, item: T) -> Result<(), OutOfMemory>
        ensures ok { OnOk result (self.new ≡ item ∷ self.old) }
        ensures err { OnErr result (self.new ≡ self.old) }
    {
        self.items.push_front(item)?;
        Ok(())
    }

    /// More, in their order.
    pub fn put_all(&mut self, items: Items<T>) -> Result<(), OutOfMemory>
        ensures { OnOk result (self.new ≡ items ++ self.old) }
    {
        let mut items = items.into_vec();
        while let Some(item) = items.pop() {
            self.put(item)?;
        }
        Ok(())
    }

    /// Where the newest that a key names is.
    fn place<K>(&self, key: &K) -> Option<usize>
    where
        T: Keyed<K>,
        ensures { MatchOption result (IsAbsent (T.test key.now) self.now) (λ i. IsFirst (T.test key.now) self.now i) }
    {
        for i in 0..self.items.len() {
            if self.items[i].is(key) {
                return Some(i);
            }
        }
        None
    }

    /// The newest that a key names.
    pub fn find<K>(&self, key: &K) -> Option<&T>
    where
        T: Keyed<K>,
        ensures { option_copied result ≡ find (T.test key.now) self.now }
    {
        let i = self.place(key)?;
        self.items.get(i)
    }

    /// The newest that a key names, which leaves.
    pub fn take<K>(&mut self, key: &K) -> Option<T>
    where
        T: Keyed<K>,
        ensures found { result ≡ find (T.test key.now) self.old }
        ensures rest { self.new ≡ without (T.test key.now) self.old }
    {
        let i = self.place(key)?;
        self.items.remove(i)
    }

    /// Whether a key names any.
    pub fn any<K>(&self, key: &K) -> bool
    where
        T: Keyed<K>,
        ensures { result ≡ list_any (T.test key.now) self.now }
    {
        for i in 0..self.items.len() {
            if self.items[i].is(key) {
                return true;
            }
        }
        false
    }

    /// How many a key names.
    pub fn count<K>(&self, key: &K) -> usize
    where
        T: Keyed<K>,
        ensures { result ≡ count_by (T.test key.now) self.now }
    {
        let mut count = 0;
        for i in 0..self.items.len() {
            if self.items[i].is(key) {
                count += 1;
            }
        }
        count
    }

    /// Takes out what each key names, one for each; `false` where one finds none.
    pub fn take_each<K>(&mut self, keys: &[K]) -> bool
    where
        T: Keyed<K>,
        ensures covers { IsTrue result ↔ Covers T.test self.old keys.now }
        ensures rest { OnTrue result (self.new ≡ minus T.test self.old keys.now) }
    {
        for key in keys {
            match self.take(key) {
                Some(_) => (),
                None => return false,
            }
        }
        true
    }

    /// Takes out what each key names, one for each; a key that finds nothing takes nothing.
    pub fn remove_each<K>(&mut self, keys: &[K])
    where
        T: Keyed<K>,
        ensures { self.new ≡ minus T.test self.old keys.now }
    {
        for key in keys {
            let _ = self.take(key);
        }
    }
}
