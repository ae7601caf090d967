//! What is done for objects that move, behind messages: they leave, and what waited for them goes on.
ghost use Rattle.std.specs.Prelude.{◌≡◌, ◌≤◌, List, Option, option_map, true, false, Some, Ok, OnErr, IfSome, IfNone, length, slice_get, take};
ghost use Rattle.std.specs.List.{list_any};
ghost use Rattle.hpx_value.specs.Ids.{bare};
ghost use Rattle.hpx_journal.specs.Data.{Id};
ghost use Rattle.hpx_journal.specs.Local.{acts_on};
ghost use Rattle.hpx_journal.specs.Weights.{HasRoom};
ghost use Rattle.hpx_part.specs.Data.{Entry};
ghost use Rattle.hpx_steps.specs.Limits.{AddsATurn};
ghost use Rattle.hpx_steps.specs.Rest.{Stands, StandsBut};
ghost use Rattle.hpx_node.specs.Changes.{OnlySpare};
ghost use Rattle.hpx_node.specs.Behind.{is_done_with, may_leave, landed_in, is_still, releases, goes_on, Departs};

use crate::node::Node;
use hpx_journal::entry::{Entry, Event};
use hpx_journal::journal::Journal;
use hpx_journal::local::move_to;
use hpx_parcel::parcel::Parcel;
use hpx_tables::find::{is_busy, target};
use hpx_tables::kept::{Fit, Letter};
use hpx_tables::queue::Queue;
use hpx_value::acts::Acts;
use hpx_value::gid::Gid;
use hpx_value::memory::OutOfMemory;

/// Of which object a message tells that it has landed.
pub(crate) fn landed_in(parcel: &Parcel) -> Option<Gid>
    ensures { result ≡ landed_in parcel.now }
{
    match parcel {
        Parcel::Landed { id, place: _ } => Some(*id),
        _ => None,
    }
}

/// Where the first of these actions stands that is on an object.
#[tactic(auto, using(hpx_part::proofs::Keyed::find_step, hpx_part::proofs::Keyed::find_at_index))]
fn acted_on_at(accepted: &Queue<Fit>, o: Gid) -> Option<usize>
    ensures some { IfSome result (λ i. (act : _) × (slice_get accepted.now.items i ≡ Some act) × (acts_on o act ≡ true)) }
    ensures none { IfNone result (list_any (acts_on o) accepted.now.items ≡ false) }
{
    for i in 0..accepted.len() {
        if o.names_same(target(accepted[i].act())) {
            return Some(i);
        }
    }
    None
}

impl<A: Acts + Copy> Node<A> {
    /// Whether no action on an object is accepted or fired.
    fn is_done_with(&self, o: Gid) -> bool
        ensures { result ≡ is_done_with self.now.tables o }
    {
        match acted_on_at(&self.accepted, o) {
            Some(_) => false,
            None => !is_busy(self.running.as_slice(), self.pending.as_slice(), o),
        }
    }

    /// Whether the object of a move that was granted may leave.
    fn may_leave(&self, parcel: &Parcel) -> bool
        ensures { result ≡ may_leave self.now.tables parcel.now }
    {
        match parcel {
            Parcel::Go(act) => self.is_done_with(target(act)),
            _ => false,
        }
    }

    /// Where the first move stands that was granted and whose object may leave.
    #[tactic(auto, using(hpx_part::proofs::Keyed::find_step, hpx_part::proofs::Keyed::find_at_index))]
    fn first_to_leave(&self) -> Option<usize>
        ensures some { IfSome result (λ i. (p : _) × (slice_get self.now.tables.leaving i ≡ Some p) × (may_leave self.now.tables p ≡ true)) }
        ensures first { IfSome result (λ i. list_any (may_leave self.now.tables) (take i self.now.tables.leaving) ≡ false) }
        ensures none { IfNone result (list_any (may_leave self.now.tables) self.now.tables.leaving ≡ false) }
    {
        let leaving = self.moves.leaving();
        for i in 0..leaving.len() {
            if self.may_leave(leaving[i].parcel()) {
                return Some(i);
            }
        }
        None
    }

    /// The object of the move at i leaves, with its MOVE. It takes no memory.
    fn leave_with(&mut self, book: &mut Journal, i: usize)
        requires may { (p : _) × (slice_get self.old.tables.leaving i ≡ Some p) × (may_leave self.old.tables p ≡ true) }
        requires first { list_any (may_leave self.old.tables) (take i self.old.tables.leaving) ≡ false }
        requires stands { Stands A.act_of self.old.tables book.old.entries }
        requires spare { 1 ≤ self.old.spare }
        requires page { 1 ≤ book.old.spare }
        ensures stands { Stands A.act_of self.new.tables book.new.entries }
        ensures running { self.new.tables.running ≡ self.old.tables.running }
        ensures departs { Departs self.old.tables self.new.tables book.old.entries book.new.entries }
    {
        let Some(letter) = self.moves.leave(i) else {
            return;
        };
        let Parcel::Go(action) = letter.into_parcel() else {
            return;
        };
        let Some(to) = move_to(&action) else {
            return;
        };
        let object = target(&action).bare();
        let Some(j) = self.objects.place(target(&action)) else {
            return;
        };
        let state = self.objects.take(j).into_state();
        book.push(Entry {
            at: self.here,
            event: Event::Left { object, to },
        });
        self.mail(to, Letter::new(Parcel::Object { action, state }));
    }

    /// The first object leaves, with its MOVE, that is to leave and on which nothing is done any more, if there is one.
    pub(crate) fn depart(&mut self, book: &mut Journal) -> Result<bool, OutOfMemory>
        requires room { HasRoom book.old.entries }
        requires stands { Stands A.act_of self.old.tables book.old.entries }
        ensures stands { Stands A.act_of self.new.tables book.new.entries }
        ensures running { self.new.tables.running ≡ self.old.tables.running }
        ensures turn { AddsATurn book.old.entries book.new.entries }
        ensures departs { result ≡ Ok true → Departs self.old.tables self.new.tables book.old.entries book.new.entries }
        ensures none { result ≡ Ok false → (list_any (may_leave self.old.tables) self.old.tables.leaving ≡ false) × (self.new ≡ self.old) × (book.new ≡ book.old) }
        ensures err { OnErr result (OnlySpare self.old.tables self.new.tables book.old book.new) }
        ensures waits { OnErr result (list_any (may_leave self.old.tables) self.old.tables.leaving ≡ true) }
    {
        let Some(i) = self.first_to_leave() else {
            return Ok(false);
        };
        self.reserve(1)?;
        book.reserve(1)?;
        self.leave_with(book, i);
        Ok(true)
    }

    /// Whether an object is live here and does not move.
    fn is_still(&self, o: Gid) -> bool
        ensures { result ≡ is_still self.now.tables o }
    {
        match (self.records.moving(o), self.records.place(o)) {
            (None, Some(_)) => true,
            _ => false,
        }
    }

    /// What waits for an object goes its way, the oldest first, until the object moves. It takes no memory.
    fn release(&mut self, o: Gid)
        requires stands { (landed : Option Id) × (entries : List Entry) × StandsBut landed A.act_of self.old.tables entries }
        requires spare { length self.old.tables.queued ≤ self.old.spare }
        ensures { self.new.tables ≡ releases (length self.old.tables.queued) o self.old.tables }
    {
        for _ in 0..self.records.waiting() {
            if !self.is_still(o) {
                return;
            }
            let Some(letter) = self.records.release(o) else {
                return;
            };
            match letter.into_parcel() {
                Parcel::Apply(act) => self.post(act),
                Parcel::Move(act) => self.post(act),
                _ => return,
            }
        }
    }

    /// What waited for an object that landed, if one did, goes on. It takes no memory.
    pub(crate) fn go_on(&mut self, landed: &Option<Gid>)
        requires stands { (entries : List Entry) × StandsBut (option_map bare landed.now) A.act_of self.old.tables entries }
        requires spare { IfSome landed.now (λ o. length self.old.tables.queued ≤ self.old.spare) }
        ensures goes { self.new.tables ≡ goes_on landed.now self.old.tables }
        ensures stands { (entries : List Entry) → StandsBut (option_map bare landed.now) A.act_of self.old.tables entries → Stands A.act_of self.new.tables entries }
    {
        if let Some(o) = landed {
            let _live = self.number();
            self.release(*o);
        }
    }
}
