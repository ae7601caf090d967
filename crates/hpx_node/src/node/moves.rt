//! Objects that move: they are to leave, come, and have come.
ghost use Rattle.std.specs.Prelude.{◌≡◌, ◌≤◌, ◌+◌, ◌++◌, true, false, Some, None, IfSome, IfNone, slice_get};
ghost use Rattle.std.specs.List.{find, list_any};
ghost use Rattle.hpx_value.specs.Ids.{credit};
ghost use Rattle.hpx_parcel.specs.Parcels.{IsParcel, HasCredit};
ghost use Rattle.hpx_journal.specs.Data.{Go, Shipped, Arrived};
ghost use Rattle.hpx_journal.specs.Local.{is_standing};
ghost use Rattle.hpx_journal.specs.Entries.{target_of};
ghost use Rattle.hpx_part.specs.Parts.{at_all};
ghost use Rattle.hpx_tables.specs.Fit.{IsFit, parcel_for};
ghost use Rattle.hpx_tables.specs.Kept.{count_here, moving_here};
ghost use Rattle.hpx_tables.specs.Strange.{is_live};
ghost use Rattle.hpx_node.specs.Commits.{Notes, is_arrival, tells};
ghost use Rattle.hpx_steps.specs.Calls.{DealsWith, Leaves, effects, may_land, with_own};

use crate::node::Node;
use crate::node::ways::Way;
use hpx_journal::entry::{Entry, Event, Name};
use hpx_journal::journal::Journal;
use hpx_journal::local::{move_to, name_of};
use hpx_parcel::parcel::Parcel;
use hpx_tables::find::target;
use hpx_tables::kept::{Arrival, Fit, Kept, Letter};
use hpx_value::acts::Acts;
use hpx_value::codes::MOVE;
use hpx_value::gid::Gid;
use hpx_value::value::{Act, State};

/// Whether an action is a MOVE, and the first of these ids is of its object.
fn tells(act: &Act, loose: &[Gid]) -> bool
    ensures { result ≡ tells act.now loose.now }
{
    match loose.first() {
        Some(id) => act.code == MOVE && target(act).names_same(*id),
        None => false,
    }
}

/// Whether an object came with the MOVE of this name.
fn came_with(arrival: Arrival, name: Name, object: Gid) -> bool
    ensures { result ≡ is_arrival name object arrival }
{
    arrival.name == name && arrival.object.log().is_none() && arrival.object.names_same(object)
}

/// Where the MOVE of this name stands with which an object came.
#[tactic(auto, using(hpx_part::proofs::Keyed::find_step, hpx_part::proofs::Keyed::find_at_index))]
fn arrival_at(came: &[Arrival], name: Name, object: Gid) -> Option<usize>
    ensures some { IfSome result (λ i. (a : _) × (slice_get came.now i ≡ Some a) × (is_arrival name object a ≡ true)) }
    ensures none { IfNone result (list_any (is_arrival name object) came.now ≡ false) }
{
    for i in 0..came.len() {
        if came_with(came[i], name, object) {
            return Some(i);
        }
    }
    None
}

impl<A: Acts + Copy> Node<A> {
    /// An action on the own desk is accepted, or stays for good: it goes on to nowhere.
    pub(crate) fn accept_own(&mut self, act: Act)
        requires fit { IsFit act }
        requires spare { 1 ≤ self.old.spare }
        ensures { self.new.tables ≡ with_own (parcel_for act) act self.old.tables }
    {
        match self.way(&act) {
            Way::Accept => self.accepted.push_back_reserved(Fit::new(act)),
            _ => self.moves.park(Fit::new(act).into_letter()),
        }
    }

    /// A move was granted: the object is to leave.
    pub(crate) fn mark(&mut self, act: Act)
        requires fit { IsParcel (Go act) }
        requires spare { 1 ≤ self.old.spare }
        ensures deals { DealsWith (Go act) self.old.tables self.new.tables }
    {
        self.moves.mark(Letter::new(Parcel::Go(act)));
    }

    /// Whether an object may stand here with which this MOVE came.
    fn may_land(&self, act: &Act) -> bool
        ensures { result ≡ may_land self.now.tables act.now }
    {
        let o = target(act);
        move_to(act) == Some(self.here)
            && (o.home() != self.here || o.number() <= self.records.births() as u64)
    }

    /// An object comes with its MOVE: it stands here and its MOVE is accepted, or both stay for good.
    pub(crate) fn land(&mut self, book: &mut Journal, action: Act, state: State)
        requires fit { IsParcel (Shipped action state) }
        requires absent { find (is_standing (target_of action)) self.old.tables.objects ≡ None }
        requires spare { 1 ≤ self.old.spare }
        requires page { 1 ≤ book.old.spare }
        ensures deals { DealsWith (Shipped action state) self.old.tables self.new.tables }
        ensures grows { book.new.entries ≡ book.old.entries ++ at_all self.old.tables.here (effects self.old.tables (Shipped action state)) }
    {
        if !self.may_land(&action) {
            self.moves
                .park(Letter::new(Parcel::Object { action, state }));
            return;
        }
        let object = target(&action).bare();
        book.push(Entry {
            at: self.here,
            event: Event::Landed { object },
        });
        self.moves.bring(Arrival {
            name: name_of(&action),
            object,
        });
        self.objects.put(Kept::new(object, state));
        self.accepted.push_back_reserved(Fit::new(action));
    }

    /// Takes note of a MOVE that is done with which its object came, where the first of these ids is of that: its home is told.
    pub(crate) fn note(&mut self, act: &Act, loose: &[Gid]) -> Option<Gid>
        ensures notes { Notes act.now loose.now self.old.tables.came self.new.tables.came result }
        ensures rest { self.new.tables ≡ record self.old.tables { came = self.new.tables.came } }
        ensures spare { self.old.spare ≤ self.new.spare }
    {
        if !tells(act, loose) {
            return None;
        }
        let object = target(act);
        let Some(i) = arrival_at(self.moves.came(), name_of(act), object) else {
            return None;
        };
        self.moves.forget(i);
        Some(object.bare())
    }

    /// An object has landed: its record says so, and its credit is taken back.
    pub(crate) fn arrive(&mut self, book: &mut Journal, id: Gid, place: u32)
        requires credit { HasCredit id }
        requires live { is_live self.old.tables id ≡ true }
        requires enough { credit id ≤ count_here self.old.tables id }
        requires moves { moving_here self.old.tables id ≡ Some place }
        requires spare { 1 ≤ self.old.spare }
        requires page { 1 ≤ book.old.spare }
        ensures deals { DealsWith (Arrived id place) self.old.tables self.new.tables }
        ensures spare { self.old.spare ≤ self.new.spare + 1 }
        ensures leaves { Leaves (Arrived id place) self.old.tables self.new.tables }
        ensures grows { book.new.entries ≡ book.old.entries ++ at_all self.old.tables.here (effects self.old.tables (Arrived id place)) }
    {
        let Ok(()) = self.records.landed(id, place) else {
            return;
        };
        self.take_back(book, id);
    }
}
