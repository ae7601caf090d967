//! How many ids with credit there are of each object.
ghost use Rattle.std.specs.Prelude.{◌≡◌, ℕ, [], ◌∷◌, cond, true, false, IsTrue};
ghost use Rattle.hpx_value.specs.Ids.{Id, same_object};
ghost use Rattle.hpx_tables.specs.Tallies.{number_of, Adds, Takes};

use crate::carries::Carries;
use crate::object::{Object, key_of};
use hpx_value::gid::Gid;
use indexmap::IndexMap;
use std::alloc::Global;

/// How many ids with credit there are of each object.
///
/// Where there was no memory for a number it has lost count, and says nothing until it begins anew.
#[derive(Drop)]
pub(crate) struct Tally {
    numbers: IndexMap<Object, u64>,
    lost: bool,
}

impl Tally {
    /// No id.
    pub(crate) fn new(alloc: Global) -> Tally
        ensures { (o : Id) → number_of result o ≡ 0 }
    {
        Tally {
            numbers: IndexMap::new(alloc),
            lost: false,
        }
    }

    /// Of nothing it counts anew, where it has lost count.
    pub(crate) fn begin_anew(&mut self)
        ensures lost { self.old.lost ≡ true → (o : Id) → number_of self.new o ≡ 0 }
        ensures kept { self.old.lost ≡ false → self.new ≡ self.old }
    {
        if self.lost {
            self.numbers.clear();
            self.lost = false;
        }
    }

    /// Whether there is no id with credit of an object, for certain.
    pub(crate) fn lacks(&self, o: Gid) -> bool
        ensures { IsTrue result → (self.now.lost ≡ false) × (number_of self.now o ≡ 0) }
    {
        !self.lost && self.number(o) == 0
    }

    /// The number of an object.
    fn number(&self, o: Gid) -> u64
        ensures { result ≡ number_of self.now o }
    {
        match self.numbers.get(&key_of(o)) {
            Some(n) => *n,
            None => 0,
        }
    }

    /// An object has this number.
    fn set(&mut self, gid: Gid, n: u64)
        ensures { self.new.lost ≡ false → (self.old.lost ≡ false)
            × ((o : Id) → number_of self.new o ≡ cond (same_object gid o) n (number_of self.old o)) }
    {
        let key = key_of(gid);
        if n == 0 {
            let _ = self.numbers.swap_remove(&key);
            return;
        }
        match self.numbers.insert(key, n) {
            Ok(_) => (),
            Err(_) => self.lost = true,
        }
    }

    /// One more id.
    fn add_one(&mut self, id: Gid)
        ensures { Adds self.old (id ∷ []) self.new }
    {
        if id.log().is_none() {
            return;
        }
        match self.number(id).checked_add(1) {
            Some(n) => self.set(id, n),
            None => self.lost = true,
        }
    }

    /// One id less.
    fn take_one(&mut self, id: Gid)
        ensures { Takes self.old (id ∷ []) self.new }
    {
        if id.log().is_none() {
            return;
        }
        match self.number(id).checked_sub(1) {
            Some(n) => self.set(id, n),
            None => self.lost = true,
        }
    }

    /// These ids more.
    pub(crate) fn add(&mut self, ids: &[Gid])
        ensures { Adds self.old ids.now self.new }
    {
        for id in ids {
            self.add_one(*id);
        }
    }

    /// These ids less.
    pub(crate) fn take(&mut self, ids: &[Gid])
        ensures { Takes self.old ids.now self.new }
    {
        for id in ids {
            self.take_one(*id);
        }
    }

    /// The ids of a thing more.
    pub(crate) fn add_of<T: Carries>(&mut self, x: &T)
        ensures { Adds self.old (T.ids_of x.now) self.new }
    {
        let (front, back) = x.ids();
        self.add(front);
        self.add(back);
    }

    /// The ids of a thing less.
    pub(crate) fn take_of<T: Carries>(&mut self, x: &T)
        ensures { Takes self.old (T.ids_of x.now) self.new }
    {
        let (front, back) = x.ids();
        self.take(front);
        self.take(back);
    }
}
