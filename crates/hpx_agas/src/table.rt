ghost use Rattle.std.specs.Prelude.{if◌then◌else◌, option_map, ◌≡◌, ◌≢◌, ◌≤◌, ◌<◌, ◌+◌, ◌-◌, ◌^◌, ◌∷◌, ◌++◌, [], ℕ, Some, None, true, false, IsSome, IfSome, IfNone, OnOk, MatchOption, length, min, sum_by, slice_get, vec_len, find};
ghost use Rattle.hpx_value.specs.Ids.{Id, same_object};
ghost use Rattle.hpx_agas.specs.declared.record.Record.{Record};
ghost use Rattle.hpx_agas.specs.declared.record.Waiting.{Waiting};
ghost use Rattle.hpx_agas.specs.Records.{find_record, Rises, remade};
ghost use Rattle.hpx_agas.specs.Queues.{items_of, waits, is_for, with_last, without_first, Weighs};

use crate::line::Line;
use crate::queue::{Queue, Room};
use crate::record::Record;
use crate::tree::{Pair, Tree};
use hpx_value::gid::Gid;
use std::alloc::{AllocError, Global};
use std::marker::Model;

/// No more items than this wait while memory is made for others.
const MOST_WAITING: u64 = 0x2000_0000_0000_0000;

/// What is kept of the numbers that were drawn: records of live objects, and what waits.
///
/// Births and items take their memory from what `reserve` made.
#[derive(Drop)]
pub(crate) struct Table<Q> {
    births: u32,
    live: u64,
    waiting: u64,
    lines: Tree<Q>,
    pairs: Vec<Pair<Q>>,
    room: Room<Q>,
    alloc: Global,
}

impl<Q> Model for Table<Q> {
    ghost use Rattle.std.specs.Prelude.{min, length};
    ghost use Rattle.hpx_agas.specs.Tables.{Kept, kept_code, IsTable};
    ghost use Rattle.hpx_agas.specs.Lines.{records_of, waiting_of};

    ghost Value = { Kept Q };

    ghost coded = { kept_code Q.code };

    ghost view = { λ t. record {
      births = t.births;
      records = records_of t.lines;
      waiting = waiting_of t.lines;
      spare = min (length t.pairs.items) t.room;
    } };

    ghost invariant = { λ t. IsTable t.births t.live t.waiting t.lines t.room };
}

impl<Q> Table<Q> {
    pub(crate) fn new(alloc: Global) -> Table<Q>
        ensures births { result.births ≡ 0 }
        ensures records { result.records ≡ [] }
        ensures waiting { result.waiting ≡ [] }
    {
        Table {
            births: 0,
            live: 0,
            waiting: 0,
            lines: Tree::new(),
            pairs: Vec::new(alloc),
            room: Room::new(alloc),
            alloc,
        }
    }

    /// Makes memory for so many births and items together.
    pub(crate) fn reserve(&mut self, n: u32) -> Result<(), AllocError>
        ensures rest { self.new ≡ record self.old { spare = self.new.spare } }
        ensures spare { OnOk result (n ≤ self.new.spare) }
        ensures kept { self.old.spare ≤ self.new.spare }
    {
        if self.waiting > MOST_WAITING {
            return Err(AllocError);
        }
        make_pairs(self.alloc, &mut self.pairs, n as usize)?;
        self.room.reserve(n as usize)
    }

    /// How many numbers were drawn.
    pub(crate) fn births(&self) -> u32
        ensures { result ≡ self.now.births }
    {
        self.births
    }

    /// How many items wait, for all objects together.
    pub(crate) fn waiting(&self) -> u64
        ensures { result ≡ length self.now.waiting }
    {
        self.waiting
    }

    /// What all items that wait weigh together, or the greatest number.
    pub(crate) fn weight<F: Fn(&Q) -> u128>(&self, weigh: &F) -> u128
        requires { F.IsAlwaysCallable weigh.now }
        ensures { (w : Q → ℕ) → Weighs F.Fn weigh.now w → result ≡ min (2 ^ 128 - 1) (sum_by (λ x. w x.item) self.now.waiting) }
    {
        self.lines.weight(weigh)
    }

    /// How many records there are.
    pub(crate) fn len(&self) -> u64
        ensures value { result ≡ length self.now.records }
        ensures rising { Rises 0 self.now.records }
    {
        self.live
    }

    /// The id of the record at a place.
    pub(crate) fn id_at(&self, i: u64) -> Option<Gid>
        ensures { result ≡ option_map (λ (r : Record). r.gid) (slice_get self.now.records i) }
    {
        self.lines.nth(i)
    }

    /// The record of an object.
    pub(crate) fn find(&self, gid: Gid) -> Option<Record>
        ensures value { result ≡ find_record gid self.now.records }
        ensures rising { Rises 0 self.now.records }
    {
        let record = self.lines.find(gid.number())?.live?;
        if gid.names_same(record.gid) {
            Some(record)
        } else {
            None
        }
    }

    /// One more record, of the next number.
    pub(crate) fn born(&mut self, made: Record)
        requires room { 1 ≤ self.old.spare }
        requires few { self.old.births < 2 ^ 32 - 1 }
        requires next { made.gid.number ≡ self.old.births + 1 }
        ensures records { self.new.records ≡ self.old.records ++ made ∷ [] }
        ensures found { (o : Id) → find_record o self.new.records ≡ (if same_object o made.gid then Some made else find_record o self.old.records) }
        ensures rising { Rises 0 self.new.records }
        ensures rest { self.new ≡ record self.old { births = self.old.births + 1; records = self.new.records; spare = self.new.spare } }
        ensures spare { self.old.spare ≤ self.new.spare + 1 }
    {
        self.births += 1;
        let line = Line {
            number: self.births as u64,
            live: Some(made),
            queue: Queue::new(self.alloc),
        };
        let pair = self.pairs.pop().unwrap();
        self.lines.append(line, self.live, pair);
        self.live += 1;
    }

    /// Another record in place of that of the same object.
    pub(crate) fn put(&mut self, made: Record)
        requires { IsSome (find_record made.gid self.old.records) }
        ensures records { self.new.records ≡ remade made.gid (λ r. made) self.old.records }
        ensures found { (o : Id) → find_record o self.new.records ≡ (if same_object o made.gid then Some made else find_record o self.old.records) }
        ensures rising { Rises 0 self.new.records }
        ensures length { length self.new.records ≡ length self.old.records }
        ensures rest { self.new ≡ record self.old { records = self.new.records } }
    {
        self.lines.set(self.alloc, made.gid.number(), made);
    }

    /// Takes the record of an object out.
    pub(crate) fn remove(&mut self, gid: Gid)
        requires { IsSome (find_record gid self.old.records) }
        ensures found { (o : Id) → find_record o self.new.records ≡ (if same_object o gid then None else find_record o self.old.records) }
        ensures rising { Rises 0 self.new.records }
        ensures length { length self.new.records + 1 ≡ length self.old.records }
        ensures rest { self.new ≡ record self.old { records = self.new.records } }
    {
        self.lines.kill(gid.number());
        self.live -= 1;
    }

    /// One more item at the end of the queue of an object.
    pub(crate) fn push(&mut self, gid: Gid, item: Q)
        requires room { 1 ≤ self.old.spare }
        requires there { IsSome (find_record gid self.old.records) }
        ensures here { items_of gid.number self.new.waiting ≡ items_of gid.number self.old.waiting ++ item ∷ [] }
        ensures others { (n : ℕ) → n ≢ gid.number → items_of n self.new.waiting ≡ items_of n self.old.waiting }
        ensures all { self.new.waiting ≡ with_last (waits gid.number item) self.old.waiting }
        ensures rest { self.new ≡ record self.old { waiting = self.new.waiting; spare = self.new.spare } }
        ensures spare { self.old.spare ≤ self.new.spare + 1 }
    {
        let more = self.room.fill(item);
        self.lines.push(self.alloc, gid.number(), more);
        self.waiting += 1;
    }

    /// Takes the oldest item of the queue of an object.
    pub(crate) fn pop(&mut self, gid: Gid) -> Option<Q>
        requires { IsSome (find_record gid self.old.records) }
        ensures item { MatchOption result (items_of gid.number self.old.waiting ≡ []) (λ item. items_of gid.number self.old.waiting ≡ item ∷ items_of gid.number self.new.waiting) }
        ensures none { IfNone result (self.new ≡ self.old) }
        ensures others { (n : ℕ) → n ≢ gid.number → items_of n self.new.waiting ≡ items_of n self.old.waiting }
        ensures first { IfSome result (λ item. find (is_for gid.number) self.old.waiting ≡ Some (waits gid.number item)) }
        ensures all { IfSome result (λ item. self.new.waiting ≡ without_first gid.number self.old.waiting) }
        ensures rest { self.new ≡ record self.old { waiting = self.new.waiting } }
    {
        let item = self.lines.pop(self.alloc, gid.number())?;
        self.waiting -= 1;
        Some(item)
    }

    /// How many items are in the queue of a number.
    pub(crate) fn queued(&self, number: u64) -> u64
        ensures { result ≡ length (items_of number self.now.waiting) }
    {
        match self.lines.find(number) {
            Some(line) => line.queue.len() as u64,
            None => 0,
        }
    }
}

/// Makes memory for so many forks.
fn make_pairs<Q>(alloc: Global, pairs: &mut Vec<Pair<Q>>, n: usize) -> Result<(), AllocError>
    ensures enough { OnOk result (n ≤ vec_len pairs.new) }
    ensures kept { vec_len pairs.old ≤ vec_len pairs.new }
{
    for _ in pairs.len()..n {
        add_pair(alloc, pairs)?;
    }
    Ok(())
}

/// Makes memory for one more fork.
fn add_pair<Q>(alloc: Global, pairs: &mut Vec<Pair<Q>>) -> Result<(), AllocError>
    ensures more { OnOk result (vec_len pairs.new ≡ vec_len pairs.old + 1) }
    ensures kept { vec_len pairs.old ≤ vec_len pairs.new }
{
    match pairs.push(Pair::new(alloc)?) {
        Ok(()) => Ok(()),
        Err(failed) => {
            failed.value.end();
            Err(AllocError)
        }
    }
}
