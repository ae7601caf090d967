ghost use Rattle.std.specs.Prelude.{◌≡◌, ◌≢◌, ◌≤◌, ◌<◌, ◌+◌, ◌-◌, ◌^◌, ◌∷◌, ◌++◌, ◌↔◌, [], ℕ, Some, None, true, false, if◌then◌else◌, is_some, option_map, min, sum_by, ◌==◌, Ok, slice_get, IsSome, IsSomeAnd, IsErr, IfSome, IfNone, IfOk, OnOk, OnErr, MatchOption, length, find};
ghost use Rattle.std.specs.Option.{option_map_or};
ghost use Rattle.hpx_value.specs.Ids.{Id, same_object, bare_id};
ghost use Rattle.hpx_value.specs.Profiles.{IsValid};
ghost use Rattle.hpx_agas.specs.declared.record.Record.{Record};
ghost use Rattle.hpx_agas.specs.declared.record.Waiting.{Waiting};
ghost use Rattle.hpx_agas.specs.Records.{remade};
ghost use Rattle.hpx_agas.specs.Queues.{waits, is_for, with_last, without_first, Weighs};
ghost use Rattle.hpx_agas.specs.Registries.{record_of, queue_of, newborn, left_of, lowered, granted_of, asked, count_of, move_of, Covers, IsFree, IsMovingTo, IsSound};

use crate::record::Record;
use crate::table::Table;
use hpx_value::gid::Gid;
use hpx_value::memory::OutOfMemory;
use hpx_value::profile::Profile;
use std::alloc::Global;
use std::marker::Model;
use thiserror::Error;

/// No live record fits what was said.
#[derive(Clone, Copy, Debug, PartialEq, Eq, Error)]
#[error("no record fits")]
pub struct Strange;

/// What is left of a record whose count fell.
#[derive(Clone, Copy, Debug, PartialEq, Eq)]
pub enum Left {
    /// There is credit out still.
    Alive,
    /// The object is dead; it was last said to be at this place.
    Dead(u32),
}

/// What is answered to an ask.
#[derive(Clone, Copy, Debug, PartialEq, Eq)]
pub enum Granted {
    /// The count would pass the limit.
    Limit,
    /// The id, with the credit of a new object.
    Yes(Gid),
}

/// The records that a home keeps of its live objects.
///
/// Records are found by number in a tree, and each has the queue of what waits for it. Memory for births and for items
/// that wait is taken by `reserve` alone.
#[derive(Drop)]
pub struct Records<Q> {
    here: u32,
    profile: Profile,
    table: Table<Q>,
}

impl<Q> Model for Records<Q> {
    ghost use Rattle.hpx_agas.specs.Registries.{Registry, registry_code, IsKept};

    ghost Value = { Registry Q };

    ghost coded = { registry_code Q.code };

    ghost view = { λ r. record {
      here = r.here;
      profile = r.profile;
      births = r.table.births;
      records = r.table.records;
      waiting = r.table.waiting;
      spare = r.table.spare;
    } };

    ghost invariant = { λ r. IsKept r.here r.profile r.table.births r.table.records r.table.waiting };
}

impl<Q> Records<Q> {
    /// No records.
    pub fn new(alloc: Global, profile: Profile, here: u32) -> Records<Q>
        requires profile { IsValid profile }
        requires here { here < 64 }
        ensures records { result.records ≡ [] }
        ensures waiting { result.waiting ≡ [] }
        ensures births { result.births ≡ 0 }
        ensures here { result.here ≡ here }
        ensures profile { result.profile ≡ profile }
    {
        Records {
            here,
            profile,
            table: Table::new(alloc),
        }
    }

    /// Makes memory for so many births and items together.
    pub fn reserve(&mut self, n: u32) -> Result<(), OutOfMemory>
        ensures rest { self.new ≡ record self.old { spare = self.new.spare } }
        ensures spare { OnOk result (n ≤ self.new.spare) }
        ensures kept { self.old.spare ≤ self.new.spare }
    {
        self.table.reserve(n)?;
        Ok(())
    }

    /// A new object of this kind. It takes no memory.
    pub fn born(&mut self, kind: u32) -> Gid
        requires spare { 1 ≤ self.old.spare }
        requires managed { 16 ≤ kind }
        requires kind { kind < 64 }
        requires births { self.old.births < 2 ^ 32 - 1 }
        ensures answer { result ≡ record (bare_id self.old.here kind (self.old.births + 1)) { log = Some self.old.profile.credit_log } }
        ensures records { self.new.records ≡ self.old.records ++ newborn self.old kind ∷ [] }
        ensures here { record_of self.new result ≡ Some (newborn self.old kind) }
        ensures others { (o : Id) → same_object result o ≡ false → record_of self.new o ≡ record_of self.old o }
        ensures queue { queue_of self.new result ≡ [] }
        ensures queues { (o : Id) → same_object result o ≡ false → queue_of self.new o ≡ queue_of self.old o }
        ensures rest { self.new ≡ record self.old { births = self.old.births + 1; records = self.new.records; spare = self.new.spare } }
        ensures spare { self.old.spare ≤ self.new.spare + 1 }
    {
        let number = self.table.births() + 1;
        let gid = Gid::new(self.here, kind, number as u64);
        self.table.born(Record {
            gid,
            count: 1u128 << self.profile.credit_log as u32,
            place: self.here,
            moving: None,
        });
        gid.with_log(self.profile.credit_log)
    }

    /// How many births there were, those of dead objects included.
    pub fn births(&self) -> u32
        ensures { result ≡ self.now.births }
    {
        self.table.births()
    }

    /// How many items wait, for all objects together.
    pub fn waiting(&self) -> u64
        ensures { result ≡ length self.now.waiting }
    {
        self.table.waiting()
    }

    /// What all items that wait weigh together, or the greatest number, where each call tells what one weighs.
    pub fn weight<F: Fn(&Q) -> u128>(&self, weigh: F) -> u128
        requires { F.IsAlwaysCallable weigh }
        ensures { (w : Q → ℕ) → Weighs F.Fn weigh w → result ≡ min (2 ^ 128 - 1) (sum_by (λ x. w x.item) self.now.waiting) }
    {
        self.table.weight(&weigh)
    }

    /// How many live records there are.
    pub fn number(&self) -> u32
        ensures value { result ≡ length self.now.records }
        ensures sound { IsSound self.now }
    {
        self.table.len() as u32
    }

    /// The id of the live record at a place, by rising number, from 0.
    pub fn live(&self, i: u32) -> Option<Gid>
        ensures { result ≡ option_map (λ (r : Record). r.gid) (slice_get self.now.records i) }
    {
        self.table.id_at(i as u64)
    }

    /// The recorded place.
    pub fn place(&self, gid: Gid) -> Option<u32>
        ensures { result ≡ option_map (λ (r : Record). r.place) (record_of self.now gid) }
    {
        Some(self.table.find(gid)?.place)
    }

    /// The target of the move under way.
    pub fn moving(&self, gid: Gid) -> Option<u32>
        ensures { result ≡ move_of self.now gid }
    {
        self.table.find(gid)?.moving
    }

    /// The credit that is out, 0 without a live record.
    pub fn count(&self, gid: Gid) -> u128
        ensures { result ≡ count_of self.now gid }
    {
        match self.table.find(gid) {
            Some(record) => record.count,
            None => 0,
        }
    }

    /// Another record in place of that of an object.
    fn set(&mut self, gid: Gid, made: Record)
        requires there { IsSomeAnd (record_of self.old gid) (λ r. made.gid ≡ r.gid) }
        requires least { 1 ≤ made.count }
        requires most { made.count ≤ self.old.profile.credit_limit }
        ensures records { self.new.records ≡ remade gid (λ r. made) self.old.records }
        ensures record { record_of self.new gid ≡ Some made }
        ensures others { (o : Id) → same_object gid o ≡ false → record_of self.new o ≡ record_of self.old o }
        ensures queues { (o : Id) → queue_of self.new o ≡ queue_of self.old o }
        ensures rest { self.new ≡ record self.old { records = self.new.records; spare = self.new.spare } }
        ensures spare { self.old.spare ≤ self.new.spare }
    {
        self.table.put(made);
    }

    /// Takes back the credit of an id. A record whose whole credit has come back is gone, and what waits for it can
    /// no longer be taken: see to `queued` before. It takes no memory.
    pub fn back(&mut self, gid: Gid) -> Result<Left, Strange>
        requires { IsSome gid.log }
        ensures strange { IsErr result ↔ ¬ Covers (record_of self.old gid) gid }
        ensures left { IfOk result (λ left. IfSome (record_of self.old gid) (λ r. left ≡ left_of r gid)) }
        ensures record { OnOk result (IfSome (record_of self.old gid) (λ r. record_of self.new gid ≡ lowered r gid)) }
        ensures others { (o : Id) → same_object gid o ≡ false → record_of self.new o ≡ record_of self.old o }
        ensures queues { (o : Id) → IsSome (record_of self.new o) → queue_of self.new o ≡ queue_of self.old o }
        ensures rest { self.new ≡ record self.old { records = self.new.records; spare = self.new.spare } }
        ensures err { OnErr result (self.new ≡ self.old) }
        ensures spare { self.old.spare ≤ self.new.spare }
    {
        let record = self.table.find(gid).ok_or(Strange)?;
        let credit = gid.credit();
        if credit > record.count {
            return Err(Strange);
        }
        if credit == record.count {
            self.table.remove(gid);
            return Ok(Left::Dead(record.place));
        }
        self.set(
            gid,
            Record {
                count: record.count - credit,
                ..record
            },
        );
        Ok(Left::Alive)
    }

    /// Asks for the credit of a new object in place of an id of log 0. It takes no memory.
    pub fn ask(&mut self, gid: Gid) -> Result<Granted, Strange>
        requires { gid.log ≡ Some 0 }
        ensures strange { IsErr result ↔ ¬ Covers (record_of self.old gid) gid }
        ensures granted { IfOk result (λ granted. IfSome (record_of self.old gid) (λ r. granted ≡ granted_of self.old.profile r gid)) }
        ensures record { OnOk result (IfSome (record_of self.old gid) (λ r. record_of self.new gid ≡ Some (asked self.old.profile r))) }
        ensures limit { result ≡ Ok Granted.Limit → self.new ≡ self.old }
        ensures others { (o : Id) → same_object gid o ≡ false → record_of self.new o ≡ record_of self.old o }
        ensures queues { (o : Id) → queue_of self.new o ≡ queue_of self.old o }
        ensures rest { self.new ≡ record self.old { records = self.new.records; spare = self.new.spare } }
        ensures err { OnErr result (self.new ≡ self.old) }
        ensures spare { self.old.spare ≤ self.new.spare }
    {
        let record = self.table.find(gid).ok_or(Strange)?;
        if gid.credit() > record.count {
            return Err(Strange);
        }
        let log = self.profile.credit_log;
        let count = record.count + (1u128 << log as u32) - 1;
        if count > self.profile.credit_limit {
            return Ok(Granted::Limit);
        }
        self.set(gid, Record { count, ..record });
        Ok(Granted::Yes(gid.with_log(log)))
    }

    /// A move of an object to another place begins. It takes no memory.
    pub fn begin_move(&mut self, gid: Gid, to: u32)
        requires { IsFree (record_of self.old gid) to }
        ensures records { self.new.records ≡ remade gid (λ (r : Record). record r { moving = Some to }) self.old.records }
        ensures record { record_of self.new gid ≡ option_map (λ (r : Record). record r { moving = Some to }) (record_of self.old gid) }
        ensures others { (o : Id) → same_object gid o ≡ false → record_of self.new o ≡ record_of self.old o }
        ensures queues { (o : Id) → queue_of self.new o ≡ queue_of self.old o }
        ensures rest { self.new ≡ record self.old { records = self.new.records; spare = self.new.spare } }
        ensures spare { self.old.spare ≤ self.new.spare }
    {
        if let Some(record) = self.table.find(gid) {
            self.set(
                gid,
                Record {
                    moving: Some(to),
                    ..record
                },
            );
        }
    }

    /// An object has come to the place that it moved to. It takes no memory.
    pub fn landed(&mut self, gid: Gid, place: u32) -> Result<(), Strange>
        ensures strange { IsErr result ↔ ¬ IsMovingTo (record_of self.old gid) place }
        ensures records { OnOk result (self.new.records ≡ remade gid (λ (r : Record). record r { place = place; moving = None }) self.old.records) }
        ensures record { OnOk result (record_of self.new gid ≡ option_map (λ (r : Record). record r { place = place; moving = None }) (record_of self.old gid)) }
        ensures others { (o : Id) → same_object gid o ≡ false → record_of self.new o ≡ record_of self.old o }
        ensures queues { (o : Id) → queue_of self.new o ≡ queue_of self.old o }
        ensures rest { self.new ≡ record self.old { records = self.new.records; spare = self.new.spare } }
        ensures err { OnErr result (self.new ≡ self.old) }
        ensures spare { self.old.spare ≤ self.new.spare }
    {
        let record = self.table.find(gid).ok_or(Strange)?;
        if record.moving != Some(place) {
            return Err(Strange);
        }
        self.set(
            gid,
            Record {
                place,
                moving: None,
                ..record
            },
        );
        Ok(())
    }

    /// Something waits until a move is over. It takes no memory.
    pub fn queue(&mut self, gid: Gid, item: Q)
        requires spare { 1 ≤ self.old.spare }
        requires moving { IsSome (move_of self.old gid) }
        ensures queue { queue_of self.new gid ≡ queue_of self.old gid ++ item ∷ [] }
        ensures queues { (o : Id) → same_object gid o ≡ false → queue_of self.new o ≡ queue_of self.old o }
        ensures all { self.new.waiting ≡ with_last (waits gid.number item) self.old.waiting }
        ensures rest { self.new ≡ record self.old { waiting = self.new.waiting; spare = self.new.spare } }
        ensures spare { self.old.spare ≤ self.new.spare + 1 }
    {
        self.table.push(gid, item);
    }

    /// Takes the oldest item that waits for an object. It takes no memory.
    pub fn release(&mut self, gid: Gid) -> Option<Q>
        ensures item { MatchOption result (queue_of self.old gid ≡ []) (λ item. queue_of self.old gid ≡ item ∷ queue_of self.new gid) }
        ensures queues { (o : Id) → same_object gid o ≡ false → queue_of self.new o ≡ queue_of self.old o }
        ensures first { IfSome result (λ item. find (is_for gid.number) self.old.waiting ≡ Some (waits gid.number item)) }
        ensures all { IfSome result (λ item. self.new.waiting ≡ without_first gid.number self.old.waiting) }
        ensures rest { self.new ≡ record self.old { waiting = self.new.waiting; spare = self.new.spare } }
        ensures none { IfNone result (self.new ≡ self.old) }
        ensures spare { self.old.spare ≤ self.new.spare }
    {
        self.table.find(gid)?;
        self.table.pop(gid)
    }

    /// How many items wait for an object, 0 without a live record.
    pub fn queued(&self, gid: Gid) -> u64
        ensures { result ≡ length (queue_of self.now gid) }
    {
        match self.table.find(gid) {
            Some(_) => self.table.queued(gid.number()),
            None => 0,
        }
    }
}
