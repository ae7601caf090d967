ghost use Rattle.std.specs.Prelude.{◌≡◌, ◌≢◌, ◌≤◌, ◌+◌, ◌^◌, ◌↔◌, ℕ, [], Some, None, true, false, IsTrue, IsSome, IsSomeAnd, IfSome, IfOk, OnOk, OnErr, IsErr, Contains};
ghost use Rattle.std.specs.Option.{option_map};
ghost use Rattle.std.specs.List.Sorted.{IsStrictlyIncreasing};
ghost use Rattle.hpx_value.specs.Ids.{Id, bare, same_object};
ghost use Rattle.hpx_ids.specs.declared.held.Held.{Held};
ghost use Rattle.hpx_ids.specs.Tables.{entry, adopted, asked, shown, half, double, CanSplit, CanDouble, IsIdle, IsSplittable, IsSpent, AreAlike, AsksFor, IsKeptBy, credit_for, credit_at, credit_sum, held_sum};

use crate::held::{Held, Owner};
use hpx_value::exact::Exact;
use hpx_value::gid::Gid;
use hpx_value::items::Keys;
use hpx_value::memory::OutOfMemory;
use slab::Slab;
use std::alloc::Global;
use std::marker::Model;
use thiserror::Error;

/// The entry does not ask for this object.
#[derive(Clone, Copy, Debug, PartialEq, Eq, Error)]
#[error("not asked for")]
pub struct NotAsked;

/// The ids that a locality holds, by key.
///
/// A key keeps its entry until the id is taken whole or given up, and only then can `adopt` give the key out again.
#[derive(Drop)]
pub struct Ids {
    table: Slab<Held>,
}

impl Model for Ids {
    ghost use Rattle.std.specs.Prelude.{◌-◌};
    ghost use Rattle.slab.specs.Slab.{slab_len};
    ghost use Rattle.hpx_ids.specs.Tables.{Table};

    ghost Value = { Table };

    ghost view = { λ s. record { slots = s.table.slots; spare = s.table.capacity - slab_len s.table } };
}

/// Half of an id.
fn halved(gid: Gid) -> Gid
    requires { CanSplit gid }
    ensures { result ≡ half gid }
{
    match gid.log() {
        Some(log) => gid.with_log(log - 1),
        None => gid,
    }
}

/// An id with twice the credit.
fn doubled(gid: Gid) -> Gid
    requires { CanDouble gid }
    ensures { result ≡ double gid }
{
    match gid.log() {
        Some(log) => gid.with_log(log + 1),
        None => gid,
    }
}

impl Ids {
    /// No ids, and no memory for one.
    pub fn new(alloc: Global) -> Ids
        ensures { result.slots ≡ [] }
    {
        Ids {
            table: Slab::new(alloc),
        }
    }

    /// Makes memory for so many more ids.
    pub fn reserve(&mut self, n: u32) -> Result<(), OutOfMemory>
        ensures slots { self.new.slots ≡ self.old.slots }
        ensures spare { OnOk result (n ≤ self.new.spare) }
        ensures kept { self.old.spare ≤ self.new.spare }
    {
        self.table.reserve(n as usize)?;
        Ok(())
    }

    /// Takes in an id under a key that was free. It takes no memory.
    pub fn adopt(&mut self, gid: Gid, owner: Owner) -> usize
        requires { 1 ≤ self.old.spare }
        ensures free { entry self.old result ≡ None }
        ensures entry { entry self.new result ≡ Some (adopted gid owner) }
        ensures others { (k : ℕ) → k ≢ result → entry self.new k ≡ entry self.old k }
        ensures sums { (f : Held → ℕ) → held_sum f self.new ≡ held_sum f self.old + f (adopted gid owner) }
        ensures credits { (o : Id) → credit_sum o self.new ≡ credit_sum o self.old + credit_for o gid }
        ensures spare { self.old.spare ≤ self.new.spare + 1 }
    {
        self.table.insert_reserved(Held {
            gid,
            owner,
            asking: false,
        })
    }

    /// Halves an id: one half stays, the other is the answer. It takes no memory.
    pub fn split(&mut self, e: usize) -> Gid
        requires { IsSomeAnd (entry self.old e) IsSplittable }
        ensures answer { IfSome (entry self.old e) (λ h. result ≡ half h.gid) }
        ensures entry { IfSome (entry self.old e) (λ h. entry self.new e ≡ Some (record h { gid = result })) }
        ensures others { (k : ℕ) → k ≢ e → entry self.new k ≡ entry self.old k }
        ensures sums { IfSome (entry self.old e) (λ h. (f : Held → ℕ) → held_sum f self.new + f h ≡ held_sum f self.old + f (record h { gid = result })) }
        ensures credits { (o : Id) → credit_sum o self.new + credit_for o result ≡ credit_sum o self.old }
        ensures spare { self.old.spare ≤ self.new.spare }
    {
        let held = &mut self.table[e];
        let half = halved(held.gid);
        held.gid = half;
        half
    }

    /// Gives an id away, with all its credit. It takes no memory.
    pub fn take_whole(&mut self, e: usize) -> Gid
        requires { IsSomeAnd (entry self.old e) IsIdle }
        ensures answer { IfSome (entry self.old e) (λ h. result ≡ h.gid) }
        ensures entry { entry self.new e ≡ None }
        ensures others { (k : ℕ) → k ≢ e → entry self.new k ≡ entry self.old k }
        ensures sums { IfSome (entry self.old e) (λ h. (f : Held → ℕ) → held_sum f self.new + f h ≡ held_sum f self.old) }
        ensures credits { (o : Id) → credit_sum o self.new + credit_for o result ≡ credit_sum o self.old }
        ensures spare { self.old.spare ≤ self.new.spare }
    {
        self.table.remove(e).gid
    }

    /// Gives up an id that is to be returned to its home. It takes no memory.
    pub fn give_up(&mut self, e: usize) -> Gid
        requires { IsSomeAnd (entry self.old e) IsIdle }
        ensures answer { IfSome (entry self.old e) (λ h. result ≡ h.gid) }
        ensures entry { entry self.new e ≡ None }
        ensures others { (k : ℕ) → k ≢ e → entry self.new k ≡ entry self.old k }
        ensures sums { IfSome (entry self.old e) (λ h. (f : Held → ℕ) → held_sum f self.new + f h ≡ held_sum f self.old) }
        ensures credits { (o : Id) → credit_sum o self.new + credit_for o result ≡ credit_sum o self.old }
        ensures spare { self.old.spare ≤ self.new.spare }
    {
        self.take_whole(e)
    }

    /// An id gets twice its credit.
    fn raise(&mut self, e: usize)
        requires { IsSomeAnd (entry self.old e) (λ h. IsIdle h × CanDouble h.gid) }
        ensures entry { IfSome (entry self.old e) (λ h. entry self.new e ≡ Some (record h { gid = double h.gid })) }
        ensures others { (k : ℕ) → k ≢ e → entry self.new k ≡ entry self.old k }
        ensures sums { IfSome (entry self.old e) (λ h. (w : Held → ℕ) → held_sum w self.new + w h ≡ held_sum w self.old + w (record h { gid = double h.gid })) }
        ensures credits { IfSome (entry self.old e) (λ h. (o : Id) → credit_sum o self.new ≡ credit_sum o self.old + credit_for o h.gid) }
        ensures spare { self.old.spare ≤ self.new.spare }
    {
        let held = &mut self.table[e];
        held.gid = doubled(held.gid);
    }

    /// Puts two ids of one object with one credit together: the first has the credit of both, the second is gone. It takes
    /// no memory.
    pub fn merge(&mut self, e: usize, f: usize)
        requires two { e ≢ f }
        requires alike { AreAlike (entry self.old e) (entry self.old f) }
        ensures entry { IfSome (entry self.old e) (λ h. entry self.new e ≡ Some (record h { gid = double h.gid })) }
        ensures gone { entry self.new f ≡ None }
        ensures others { (k : ℕ) → k ≢ e → k ≢ f → entry self.new k ≡ entry self.old k }
        ensures sums { IfSome (entry self.old e) (λ h. IfSome (entry self.old f) (λ g. (w : Held → ℕ) →
            held_sum w self.new + w h + w g ≡ held_sum w self.old + w (record h { gid = double h.gid }))) }
        ensures credits { (o : Id) → credit_sum o self.new ≡ credit_sum o self.old }
        ensures spare { self.old.spare ≤ self.new.spare }
    {
        self.take_whole(f);
        self.raise(e);
    }

    /// Sends an id of log 0 off to be replaced. Its entry waits, without credit. It takes no memory.
    pub fn ask(&mut self, e: usize) -> Gid
        requires { IsSomeAnd (entry self.old e) IsSpent }
        ensures answer { IfSome (entry self.old e) (λ h. result ≡ h.gid) }
        ensures entry { IfSome (entry self.old e) (λ h. entry self.new e ≡ Some (asked h)) }
        ensures others { (k : ℕ) → k ≢ e → entry self.new k ≡ entry self.old k }
        ensures sums { IfSome (entry self.old e) (λ h. (f : Held → ℕ) → held_sum f self.new + f h ≡ held_sum f self.old + f (asked h)) }
        ensures credits { (o : Id) → credit_sum o self.new + credit_for o result ≡ credit_sum o self.old }
        ensures spare { self.old.spare ≤ self.new.spare }
    {
        let held = &mut self.table[e];
        let gid = held.gid;
        held.gid = gid.bare();
        held.asking = true;
        gid
    }

    /// Puts the id that was asked for in its place. It takes no memory.
    pub fn given(&mut self, e: usize, gid: Gid) -> Result<(), NotAsked>
        ensures not_asked { IsErr result ↔ ¬ AsksFor (entry self.old e) gid }
        ensures entry { OnOk result (IfSome (entry self.old e) (λ h. entry self.new e ≡ Some (adopted gid h.owner))) }
        ensures others { (k : ℕ) → k ≢ e → entry self.new k ≡ entry self.old k }
        ensures sums { OnOk result (IfSome (entry self.old e) (λ h. (f : Held → ℕ) → held_sum f self.new + f h ≡ held_sum f self.old + f (adopted gid h.owner))) }
        ensures credits { OnOk result ((o : Id) → credit_sum o self.new ≡ credit_sum o self.old + credit_for o gid) }
        ensures err { OnErr result (self.new ≡ self.old) }
        ensures spare { self.old.spare ≤ self.new.spare }
    {
        if !self.asks_for(e, gid) {
            return Err(NotAsked);
        }
        let held = &mut self.table[e];
        held.gid = gid;
        held.asking = false;
        Ok(())
    }

    /// Whether the entry asks for this object.
    fn asks_for(&self, e: usize, gid: Gid) -> bool
        ensures { IsTrue result ↔ AsksFor (entry self.now e) gid }
    {
        match self.table.get(e) {
            Some(held) => held.asking && held.gid.names_same(gid),
            None => false,
        }
    }

    /// An id, its owner, and whether it is asked for.
    pub fn look(&self, e: usize) -> Option<(Gid, Owner, bool)>
        ensures { result ≡ option_map shown (entry self.now e) }
    {
        match self.table.get(e) {
            Some(held) => Some((held.gid, held.owner, held.asking)),
            None => None,
        }
    }

    /// The keys of an owner's ids, rising. It goes over the whole table.
    pub fn of_owner(&self, alloc: Global, owner: Owner) -> Result<Keys, OutOfMemory>
        ensures rising { IfOk result IsStrictlyIncreasing }
        ensures keys { IfOk result (λ keys. (k : ℕ) → Contains keys k ↔ IsKeptBy (entry self.now k) owner) }
    {
        let mut keys = Keys::new(alloc);
        for e in 0..self.table.capacity() {
            if self.is_kept_by(e, &owner) {
                keys.push(e)?;
            }
        }
        Ok(keys)
    }

    /// Whether the entry is kept by this owner.
    fn is_kept_by(&self, e: usize, owner: &Owner) -> bool
        ensures { IsTrue result ↔ IsKeptBy (entry self.now e) owner.now }
    {
        match self.table.get(e) {
            Some(held) => held.owner.same(owner),
            None => false,
        }
    }

    /// The credit that is held of an object, entries that are asked for left out. It goes over the whole table.
    pub fn credit_of(&self, gid: Gid) -> u128
        ensures { result ≡ credit_sum gid self.now }
    {
        let mut sum = 0u128;
        for e in 0..self.table.capacity() {
            sum += self.credit_at(e, gid);
        }
        sum
    }

    /// The credit of an entry for an object.
    fn credit_at(&self, e: usize, gid: Gid) -> u128
        ensures value { result ≡ credit_at gid (entry self.now e) }
        ensures bound { result ≤ 2 ^ 31 }
    {
        match self.table.get(e) {
            Some(held) => {
                if !held.asking && gid.names_same(held.gid) {
                    held.gid.credit()
                } else {
                    0
                }
            }
            None => 0,
        }
    }
}
