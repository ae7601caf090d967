//! Frames that go out.
ghost use Rattle.std.specs.Prelude.{◌≡◌, ◌≤◌, ◌+◌, ◌∷◌, [], IfSome, IfNone};
ghost use Rattle.hpx_journal.specs.Weights.{HasRoom};
ghost use Rattle.hpx_parcel.specs.Parcels.{IsParcel};
ghost use Rattle.hpx_part.specs.Data.{Out};
ghost use Rattle.hpx_steps.specs.Frames.{IsFront, IsSpelled};
ghost use Rattle.hpx_steps.specs.Rest.{Stands};
ghost use Rattle.hpx_node.specs.Changes.{Writes};
ghost use Rattle.hpx_steps.specs.Limits.{AddsATurn};

use crate::node::Node;
use hpx_journal::entry::{Entry, Event};
use hpx_journal::journal::Journal;
use hpx_parcel::parcel::Parcel;
use hpx_value::acts::Acts;
use hpx_value::items::Bytes;

impl<A: Acts + Copy> Node<A> {
    /// The oldest message for another locality: where it goes, and what it is.
    pub fn front(&self) -> Option<(u32, &Parcel)>
        ensures none { IfNone result (self.now.tables.outgoing ≡ []) }
        ensures some { IfSome result (λ x. IsFront self.now.tables x.0 x.1.now) }
        ensures fit { IfSome result (λ x. IsParcel x.1.now) }
    {
        if self.outgoing.len() == 0 {
            return None;
        }
        let first = &self.outgoing[0];
        Some((first.to, first.parcel.parcel()))
    }

    /// Lets go of the oldest message for another locality, whose frame was sent.
    pub fn gone(&mut self, book: &mut Journal, to: u32, frame: Bytes)
        requires front { IsSpelled self.old.tables to frame }
        requires page { 1 ≤ book.old.spare }
        requires room { HasRoom book.old.entries }
        requires stands { Stands A.act_of self.old.tables book.old.entries }
        ensures stands { Stands A.act_of self.new.tables book.new.entries }
        ensures writes { Writes (Out to frame ∷ []) self.old.tables self.new.tables book.old.entries book.new.entries }
        ensures turn { AddsATurn book.old.entries book.new.entries }
        ensures page { book.old.spare ≤ book.new.spare + 1 }
        ensures rest { (first : _) (rest : _) → self.old.tables.outgoing ≡ first ∷ rest
            → self.new.tables ≡ record self.old.tables { outgoing = rest; sent = self.old.tables.sent + 1 } }
    {
        let _ = self.outgoing.pop_front();
        self.sent += 1;
        book.push(Entry {
            at: self.here,
            event: Event::Out { to, bytes: frame },
        });
    }
}
