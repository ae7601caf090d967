//! What follows a message: a commit that gets its last answer goes on, or its action fails.
ghost use Rattle.std.specs.Prelude.{◌≡◌, ◌≤◌, ◌<◌, ◌+◌, ◌^◌, [], None, IfOk, length};
ghost use Rattle.hpx_parcel.specs.Parcels.{IsParcel};
ghost use Rattle.hpx_journal.specs.Weights.{total_weight};
ghost use Rattle.hpx_node.specs.Next.{IsNext, MayFollow, IfFollows, HasFollowed};
ghost use Rattle.hpx_steps.specs.Rest.{IsTidy};
ghost use Rattle.hpx_tables.specs.Rules.{broken_near};

use crate::node::Node;
use crate::node::fail::Failing;
use crate::node::resume::Ready;
use hpx_journal::journal::Journal;
use hpx_parcel::parcel::Parcel;
use hpx_value::acts::Acts;
use hpx_value::memory::OutOfMemory;
use std::alloc::Global;

/// What follows a message, before its first change.
#[derive(Drop)]
pub enum Next {
    /// Nothing.
    Rests,
    /// A commit goes on.
    GoesOn(Ready),
    /// An action fails.
    Fails(Failing),
}

impl<A: Acts + Copy> Node<A> {
    /// What follows once a message is dealt with.
    pub(crate) fn next(&self, alloc: Global, parcel: &Parcel) -> Result<Next, OutOfMemory>
        requires fit { IsParcel parcel.now }
        requires tidy { IsTidy self.now.tables [] }
        requires right { broken_near self.now.tables parcel.now ≡ None }
        requires few { self.now.tables.births + 1024 < 2 ^ 32 }
        ensures { IfOk result (IsNext A.act_of self.now.tables parcel.now) }
    {
        if let Some(failing) = self.failing(alloc, parcel)? {
            return Ok(Next::Fails(failing));
        }
        match self.ready(alloc, parcel)? {
            Some(ready) => Ok(Next::GoesOn(ready)),
            None => Ok(Next::Rests),
        }
    }

    /// Does what follows. It takes no memory.
    pub(crate) fn follow(&mut self, book: &mut Journal, next: Next)
        requires may { MayFollow self.old.tables next }
        requires births { self.old.tables.births + 1024 < 2 ^ 32 }
        requires serial { self.old.tables.serial + 1024 < 2 ^ 64 }
        requires answers { self.old.tables.answered + 1 < 2 ^ 64 }
        requires spare { IfFollows next (1024 ≤ self.old.spare) }
        requires page { IfFollows next (1024 ≤ book.old.spare) }
        ensures running { self.new.tables.running ≡ self.old.tables.running }
        ensures taken { self.new.tables.taken ≡ self.old.tables.taken }
        ensures sent { self.new.tables.sent ≡ self.old.tables.sent }
        ensures few { length book.new.entries ≤ length book.old.entries + 598 }
        ensures light { total_weight book.new.entries ≤ total_weight book.old.entries + 2380416 }
        ensures rests { IfFollows next ⊥ → self.new ≡ self.old }
        ensures followed { HasFollowed next self.old.tables self.new.tables book.old.entries book.new.entries }
    {
        match next {
            Next::Rests => (),
            Next::GoesOn(ready) => self.resume(book, ready),
            Next::Fails(Failing { i, j, plan }) => self.fail(book, i, j, plan),
        }
    }
}
