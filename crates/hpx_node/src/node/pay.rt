//! Paying what a commit leaves: messages are sent, prints are printed, a rider is merged, and ids that nobody names are given up.
ghost use Rattle.std.specs.Prelude.{◌≡◌, ◌≤◌, ◌<◌, ◌+◌, ◌^◌, ◌++◌, ◌∷◌, [], Some, IfSome, length, slice_get};
ghost use Rattle.std.specs.List.{AllByRecursion};
ghost use Rattle.std.specs.Option.{option_to_list};
ghost use Rattle.hpx_parcel.specs.Parcels.{HasCredit, HasRightCredit};
ghost use Rattle.hpx_part.specs.Parts.{at_all};
ghost use Rattle.hpx_node.specs.Changes.{OnlySends, OnlyLeaves};
ghost use Rattle.hpx_tables.specs.Fit.{IsFitDue};
ghost use Rattle.hpx_tables.specs.Merged.{may_merge};
ghost use Rattle.hpx_steps.specs.Calls.{ups, rider_event, rider_events, with_due, with_returns, with_rider, with_riders, with_done_told, with_told, written_due, AreOf};
ghost use Rattle.hpx_value.specs.Values.{named};

use crate::node::Node;
use hpx_commit::deal::log_of;
use hpx_journal::entry::{Entry, Event, Name};
use hpx_journal::journal::Journal;
use hpx_parcel::parcel::Parcel;
use hpx_tables::kept::{Letter, named};
use hpx_value::acts::Acts;
use hpx_value::gid::Gid;
use hpx_value::outcome::Due;
use std::collections::VecDeque;

impl<A: Acts + Copy> Node<A> {
    /// Writes the first of what is due.
    fn pay(&mut self, book: &mut Journal, due: &mut VecDeque<Due>)
        requires some { 0 < length due.old.items }
        requires fit { AllByRecursion IsFitDue due.old.items }
        requires spare { length due.old.items ≤ self.old.spare }
        requires page { length due.old.items ≤ book.old.spare }
        requires few { self.old.tables.serial + 1 < 2 ^ 64 }
        ensures fewer { length due.new.items + 1 ≡ length due.old.items }
        ensures fit { AllByRecursion IsFitDue due.new.items }
        ensures spare { self.old.spare ≤ self.new.spare + 1 }
        ensures page { book.new.spare + 1 ≡ book.old.spare }
        ensures serial { self.new.tables.serial ≤ self.old.tables.serial + 1 }
        ensures rest { OnlySends self.old.tables self.new.tables }
        ensures goes { with_due due.new.items self.new.tables ≡ with_due due.old.items self.old.tables }
        ensures writes { book.new.entries ++ at_all self.new.tables.here (written_due self.new.tables.here self.new.tables.serial due.new.items)
            ≡ book.old.entries ++ at_all self.old.tables.here (written_due self.old.tables.here self.old.tables.serial due.old.items) }
    {
        let at = self.here;
        match due.pop_front() {
            Some(Due::Message(message)) => {
                let action = Name {
                    origin: at as u16,
                    serial: self.serial + 1,
                };
                self.serial += 1;
                self.post(named(action, message));
                book.push(Entry {
                    at,
                    event: Event::Sent { action },
                });
            }
            Some(Due::Print(bytes)) => book.push(Entry {
                at,
                event: Event::Print { bytes },
            }),
            None => (),
        }
    }

    /// Gives up the first of these ids.
    fn give_up(&mut self, book: &mut Journal, loose: &mut VecDeque<Gid>)
        requires some { 0 < length loose.old.items }
        requires credit { AllByRecursion HasCredit loose.old.items }
        requires spare { length loose.old.items ≤ self.old.spare }
        requires page { length loose.old.items ≤ book.old.spare }
        ensures fewer { length loose.new.items + 1 ≡ length loose.old.items }
        ensures credit { AllByRecursion HasCredit loose.new.items }
        ensures spare { self.old.spare ≤ self.new.spare + 1 }
        ensures page { book.new.spare + 1 ≡ book.old.spare }
        ensures rest { OnlySends self.old.tables self.new.tables }
        ensures goes { with_returns loose.new.items self.new.tables ≡ with_returns loose.old.items self.old.tables }
        ensures writes { book.new.entries ++ at_all self.new.tables.here (ups loose.new.items) ≡ book.old.entries ++ at_all self.old.tables.here (ups loose.old.items) }
    {
        let at = self.here;
        if let Some(id) = loose.pop_front() {
            let log = log_of(id);
            self.mail(id.home(), Letter::new(Parcel::Return(id)));
            book.push(Entry {
                at,
                event: Event::Up {
                    object: id.bare(),
                    log,
                },
            });
        }
    }

    /// Writes all that is due.
    pub(crate) fn pay_all(&mut self, book: &mut Journal, mut due: VecDeque<Due>)
        requires fit { AllByRecursion IsFitDue due.items }
        requires spare { length due.items ≤ self.old.spare }
        requires page { length due.items ≤ book.old.spare }
        requires few { self.old.tables.serial + length due.items < 2 ^ 64 }
        ensures spare { self.old.spare ≤ self.new.spare + length due.items }
        ensures page { book.new.spare + length due.items ≡ book.old.spare }
        ensures rest { OnlySends self.old.tables self.new.tables }
        ensures goes { self.new.tables ≡ with_due due.items self.old.tables }
        ensures writes { book.new.entries ≡ book.old.entries ++ at_all self.old.tables.here (written_due self.old.tables.here self.old.tables.serial due.items) }
    {
        while !due.is_empty() {
            self.pay(book, &mut due);
        }
    }

    /// Gives up all of these ids.
    pub(crate) fn give_up_all(&mut self, book: &mut Journal, mut loose: VecDeque<Gid>)
        requires credit { AllByRecursion HasCredit loose.items }
        requires spare { length loose.items ≤ self.old.spare }
        requires page { length loose.items ≤ book.old.spare }
        ensures rest { OnlySends self.old.tables self.new.tables }
        ensures goes { self.new.tables ≡ with_returns loose.items self.old.tables }
        ensures writes { book.new.entries ≡ book.old.entries ++ at_all self.old.tables.here (ups loose.items) }
    {
        while !loose.is_empty() {
            self.give_up(book, &mut loose);
        }
    }

    /// Whether a rider of this log may be merged into an id in the state of the object at j.
    fn may_merge(&self, j: usize, rider: Gid, log: u8) -> bool
        requires object { j < length self.now.tables.objects }
        ensures { (x : _) → slice_get self.now.tables.objects j ≡ Some x → result ≡ may_merge self.now.tables.profile.credit_log rider log x.state.ids }
    {
        log < self.profile.credit_log && self.objects.at(j).has_like(rider, log)
    }

    /// Merges a rider into an id in the state of the object at j, where that may be, or else gives it up.
    fn merge(&mut self, book: &mut Journal, j: usize, rider: Gid)
        requires right { HasRightCredit rider }
        requires object { j < length self.old.tables.objects }
        requires spare { 1 ≤ self.old.spare }
        requires page { 1 ≤ book.old.spare }
        ensures rest { OnlyLeaves self.old.tables self.new.tables }
        ensures goes { (x : _) → slice_get self.old.tables.objects j ≡ Some x → self.new.tables ≡ with_rider j x rider rider.log self.old.tables }
        ensures spare { self.old.spare ≤ self.new.spare + 1 }
        ensures page { book.old.spare ≤ book.new.spare + 1 }
        ensures writes { (x : _) → slice_get self.old.tables.objects j ≡ Some x
            → book.new.entries ≡ book.old.entries ++ at_all self.old.tables.here (rider_event self.old.tables.profile.credit_log x.state.ids rider rider.log) }
    {
        let at = self.here;
        let Some(log) = rider.log() else {
            return;
        };
        if !self.may_merge(j, rider, log) {
            self.let_go(book, rider);
            return;
        }
        self.objects.merge(j, rider, log);
        book.push(Entry {
            at,
            event: Event::Merge {
                object: rider.bare(),
                log,
            },
        });
    }

    /// Merges the rider of an action or gives it up, if there is one.
    pub(crate) fn merge_any(&mut self, book: &mut Journal, j: usize, rider: Option<Gid>)
        requires right { IfSome rider HasRightCredit }
        requires object { j < length self.old.tables.objects }
        requires spare { 1 ≤ self.old.spare }
        requires page { 1 ≤ book.old.spare }
        ensures rest { OnlyLeaves self.old.tables self.new.tables }
        ensures goes { (x : _) → slice_get self.old.tables.objects j ≡ Some x → self.new.tables ≡ with_riders j x (option_to_list rider) self.old.tables }
        ensures spare { self.old.spare ≤ self.new.spare + 1 }
        ensures page { book.old.spare ≤ book.new.spare + 1 }
        ensures writes { (x : _) → slice_get self.old.tables.objects j ≡ Some x
            → book.new.entries ≡ book.old.entries ++ at_all self.old.tables.here (rider_events self.old.tables.profile.credit_log x.state.ids (option_to_list rider)) }
    {
        if let Some(rider) = rider {
            self.merge(book, j, rider);
        }
    }

    /// Tells the home of an object, by the first of these ids, that it stands here.
    fn tell(&mut self, book: &mut Journal, loose: &mut VecDeque<Gid>)
        requires some { 0 < length loose.old.items }
        requires credit { AllByRecursion HasCredit loose.old.items }
        requires spare { length loose.old.items ≤ self.old.spare }
        requires page { length loose.old.items ≤ book.old.spare }
        ensures credit { AllByRecursion HasCredit loose.new.items }
        ensures spare { length loose.new.items ≤ self.new.spare }
        ensures page { length loose.new.items ≤ book.new.spare }
        ensures rest { OnlySends self.old.tables self.new.tables }
        ensures goes { (o : _) → with_returns loose.new.items self.new.tables ≡ with_told (o ∷ []) loose.old.items self.old.tables }
        ensures writes { book.new.entries ++ at_all self.new.tables.here (ups loose.new.items) ≡ book.old.entries ++ at_all self.old.tables.here (ups loose.old.items) }
    {
        let at = self.here;
        if let Some(id) = loose.pop_front() {
            let log = log_of(id);
            let landed = Parcel::Landed {
                id,
                place: at as u16,
            };
            self.mail(id.home(), Letter::new(landed));
            book.push(Entry {
                at,
                event: Event::Up {
                    object: id.bare(),
                    log,
                },
            });
        }
    }

    /// Gives up all of these ids; the first tells the home of its object that this stands here, if one is told.
    fn give_up_told(&mut self, book: &mut Journal, mut loose: VecDeque<Gid>, told: Option<Gid>)
        requires credit { AllByRecursion HasCredit loose.items }
        requires of { AreOf (option_to_list told) loose.items }
        requires spare { length loose.items ≤ self.old.spare }
        requires page { length loose.items ≤ book.old.spare }
        ensures rest { OnlySends self.old.tables self.new.tables }
        ensures goes { self.new.tables ≡ with_told (option_to_list told) loose.items self.old.tables }
        ensures writes { book.new.entries ≡ book.old.entries ++ at_all self.old.tables.here (ups loose.items) }
    {
        match told {
            Some(_object) => {
                self.tell(book, &mut loose);
                self.give_up_all(book, loose);
            }
            None => self.give_up_all(book, loose),
        }
    }

    /// Writes all that a commit leaves, whose object stands at j: what is due, the rider, and then the ids that nobody names, the
    /// first of which tells a home, if one is told.
    pub(crate) fn leave(
        &mut self,
        book: &mut Journal,
        j: usize,
        due: VecDeque<Due>,
        rider: Option<Gid>,
        loose: Vec<Gid>,
        told: Option<Gid>,
    )
        requires fit { AllByRecursion IsFitDue due.items }
        requires right { IfSome rider HasRightCredit }
        requires credit { AllByRecursion HasCredit loose.items }
        requires of { AreOf (option_to_list told) loose.items }
        requires object { j < length self.old.tables.objects }
        requires spare { length due.items + 1 + length loose.items ≤ self.old.spare }
        requires page { length due.items + 1 + length loose.items ≤ book.old.spare }
        requires few { self.old.tables.serial + length due.items < 2 ^ 64 }
        ensures rest { OnlyLeaves self.old.tables self.new.tables }
        ensures goes { (x : _) → slice_get self.old.tables.objects j ≡ Some x → self.new.tables ≡ with_done_told (option_to_list told) j x due.items (option_to_list rider) loose.items self.old.tables }
        ensures writes { (x : _) → slice_get self.old.tables.objects j ≡ Some x → book.new.entries ≡ book.old.entries
            ++ at_all self.old.tables.here (written_due self.old.tables.here self.old.tables.serial due.items
            ++ (rider_events self.old.tables.profile.credit_log x.state.ids (option_to_list rider) ++ ups loose.items)) }
    {
        self.pay_all(book, due);
        self.merge_any(book, j, rider);
        self.give_up_told(book, VecDeque::from_vec(loose), told);
    }
}
