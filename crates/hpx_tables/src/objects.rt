//! The objects of a locality, each found at once by its id.
ghost use Rattle.std.specs.Prelude.{◌≡◌, ◌≤◌, ◌<◌, ◌+◌, ◌++◌, ◌∷◌, [], ℕ, length, take, remove, set, slice_get, find, sum_by, IsTrue, IfSome, IfNone, OnOk, Some, None};
ghost use Rattle.std.specs.List.Sorted.{IsPermutation};
ghost use Rattle.hpx_journal.specs.Local.{is_standing};
ghost use Rattle.hpx_tables.specs.Fit.{IsKept};
ghost use Rattle.hpx_tables.specs.Kept.{credit_in};
ghost use Rattle.hpx_tables.specs.Merged.{merged_in};

use crate::kept::Kept;
use crate::object::{Object, key_of};
use crate::tally::Tally;
use hpx_value::gid::Gid;
use hpx_value::memory::OutOfMemory;
use hpx_value::value::State;
use indexmap::IndexMap;
use std::alloc::Global;
use std::marker::Model;

/// The objects of a locality.
///
/// Keys are bare ids: the credit that an id carries is not looked at. The ids in states are counted as these change; where there
/// is no memory for it, they are looked for among the states.
#[derive(Drop)]
pub struct Objects {
    items: IndexMap<Object, Kept>,
    tally: Tally,
}

impl Model for Objects {
    ghost use Rattle.std.specs.List.{AllByRecursion};
    ghost use Rattle.std.specs.Map.{values_of};
    ghost use Rattle.indexmap.specs.IndexMap.{spare};
    ghost use Rattle.hpx_tables.specs.Objects.{Shelf, IsUnder};
    ghost use Rattle.hpx_tables.specs.Tallies.{Counts};

    ghost Value = { Shelf };

    ghost view = { λ s. record { items = values_of s.items.entries; spare = spare s.items } };

    ghost invariant = { λ s. AllByRecursion IsUnder s.items.entries × Counts s.tally (λ x. x.state.ids) (values_of s.items.entries) };
}

impl Objects {
    /// No objects.
    pub fn new(alloc: Global) -> Objects
        ensures { result.items ≡ [] }
    {
        Objects {
            items: IndexMap::new(alloc),
            tally: Tally::new(alloc),
        }
    }

    /// How many there are.
    pub fn len(&self) -> usize
        ensures { result ≡ length self.now.items }
    {
        self.items.len()
    }

    /// Makes room for so many more.
    pub fn reserve(&mut self, n: u32) -> Result<(), OutOfMemory>
        ensures items { self.new.items ≡ self.old.items }
        ensures ok { OnOk result (n ≤ self.new.spare) }
    {
        self.items.reserve(n as usize)?;
        Ok(())
    }

    /// Where an object stands, if it does.
    pub fn place(&self, o: Gid) -> Option<usize>
        ensures inside { IfSome result (λ j. j < length self.now.items) }
        ensures found { IfSome result (λ j. find (is_standing o) self.now.items ≡ slice_get self.now.items j) }
        ensures first { IfSome result (λ j. find (is_standing o) (take j self.now.items) ≡ None) }
        ensures none { IfNone result (find (is_standing o) self.now.items ≡ None) }
    {
        self.items.get_index_of(&key_of(o))
    }

    /// The object at a place.
    pub fn at(&self, j: usize) -> &Kept
        requires { j < length self.now.items }
        ensures { slice_get self.now.items j ≡ Some result.now }
    {
        self.items.get_index(j).unwrap().1
    }

    /// Whether no state has credit of an object, for certain.
    pub fn lacks(&self, o: Gid) -> bool
        ensures { IsTrue result → sum_by (λ x. credit_in o x.state.ids) self.now.items ≡ 0 }
    {
        self.tally.lacks(o)
    }

    /// Puts an object that does not stand here behind the others, where there is room.
    pub fn put(&mut self, kept: Kept)
        requires absent { find (is_standing kept.object) self.old.items ≡ None }
        requires spare { 1 ≤ self.old.spare }
        ensures items { self.new.items ≡ self.old.items ++ kept ∷ [] }
        ensures spare { self.old.spare ≤ self.new.spare + 1 }
    {
        let key = key_of(kept.object());
        self.tally.add(kept.state().ids.as_slice());
        self.items.insert(key, kept).unwrap();
    }

    /// The same, with room made for it.
    pub fn push(&mut self, kept: Kept) -> Result<(), OutOfMemory>
        requires absent { find (is_standing kept.object) self.old.items ≡ None }
        ensures items { OnOk result (self.new.items ≡ self.old.items ++ kept ∷ []) }
    {
        self.reserve(1)?;
        self.put(kept);
        Ok(())
    }

    /// Puts a state in place of that of the object at a place.
    pub fn put_state(&mut self, j: usize, state: State)
        requires inside { j < length self.old.items }
        requires kept { (x : _) → slice_get self.old.items j ≡ Some x → IsKept (record { object = x.object; state = state }) }
        ensures items { (x : _) → slice_get self.old.items j ≡ Some x → self.new.items ≡ set self.old.items j (record { object = x.object; state = state }) }
        ensures spare { self.new.spare ≡ self.old.spare }
    {
        let object = self.at(j).object();
        self.tally.take(self.items[j].state().ids.as_slice());
        self.tally.add(state.ids.as_slice());
        self.items[j] = Kept::new(object, state);
    }

    /// Merges a rider of this log into the state of the object at a place, if an id there is like it.
    pub fn merge(&mut self, j: usize, rider: Gid, log: u8)
        requires inside { j < length self.old.items }
        requires below { log < 31 }
        ensures items { (x : _) → slice_get self.old.items j ≡ Some x → self.new.items ≡ set self.old.items j (merged_in rider log x) }
        ensures spare { self.new.spare ≡ self.old.spare }
    {
        self.items[j].merge(rider, log);
    }

    /// Takes the object at a place out. The last takes its place.
    pub fn take(&mut self, j: usize) -> Kept
        requires { j < length self.old.items }
        ensures kept { slice_get self.old.items j ≡ Some result }
        ensures items { IsPermutation (remove self.old.items j) self.new.items }
        ensures spare { self.old.spare ≤ self.new.spare }
    {
        let kept = self.items.swap_remove_index(j).unwrap().1;
        self.tally.take(kept.state().ids.as_slice());
        kept
    }
}
