//! What stands at a locality, and the credit that is there.
ghost use Rattle.std.specs.Prelude.{◌≡◌, ◌+◌, ◌-◌, ◌^◌, min, length, find, option_map, slice_get, sum_by};
ghost use Rattle.hpx_value.specs.Hands.{session};
ghost use Rattle.hpx_journal.specs.Local.{is_standing};
ghost use Rattle.hpx_agas.specs.declared.record.Record.{Record};
ghost use Rattle.hpx_tables.specs.Awaited.{drawn_by, awaited_here};
ghost use Rattle.hpx_tables.specs.Tables.{messages};
ghost use Rattle.hpx_tables.specs.Kept.{stands_here, credit_in, ids_held, credit_owed, held_here, owed_here, count_here, place_here, HasRecords};

use crate::node::Node;
use hpx_agas::records::Records;
use hpx_tables::credit::{
    held_in_accepted, held_in_commits, held_in_letters, held_in_parcel, held_in_running,
    held_in_states, held_on_the_way, owed_in_letters, owed_in_parcel, owed_on_the_way,
};
use hpx_tables::kept::Letter;
use hpx_value::acts::Acts;
use hpx_value::codes::SESSION;
use hpx_value::gid::Gid;

/// The credit of an object in what waits until its object has moved.
fn held_in_queues(records: &Records<Letter>, o: Gid) -> u128
    ensures { result ≡ min (2 ^ 128 - 1) (sum_by (λ w. credit_in o (ids_held w.item)) records.now.waiting) }
{
    if records.waiting() == 0 {
        return 0;
    }
    records.weight(
        |letter|
            ensures { result ≡ min (2 ^ 128 - 1) (credit_in o (ids_held letter.now)) }
        { held_in_parcel(letter.parcel(), o) },
    )
}

/// What is owed there.
fn owed_in_queues(records: &Records<Letter>, o: Gid) -> u128
    ensures { result ≡ min (2 ^ 128 - 1) (sum_by (λ w. credit_owed o w.item) records.now.waiting) }
{
    records.weight(
        |letter|
            ensures { result ≡ min (2 ^ 128 - 1) (credit_owed o letter.now) }
        { owed_in_parcel(letter.parcel(), o) },
    )
}

impl<A: Acts + Copy> Node<A> {
    /// Whether an object stands here.
    pub fn holds(&self, o: Gid) -> bool
        ensures { result ≡ stands_here self.now.tables o }
    {
        match self.objects.place(o) {
            Some(_) => true,
            None => false,
        }
    }

    /// The credit of an object of this home that is out, 0 without a live record.
    pub fn count(&self, o: Gid) -> u128
        ensures { result ≡ count_here self.now.tables o }
    {
        self.records.count(o)
    }

    /// Where an object of this home was last said to be.
    pub fn place(&self, o: Gid) -> Option<u32>
        ensures { result ≡ place_here self.now.tables o }
    {
        self.records.place(o)
    }

    /// How many objects of this home are live.
    pub fn number(&self) -> u32
        ensures value { result ≡ length self.now.tables.records }
        ensures sound { HasRecords self.now.tables }
    {
        self.records.number()
    }

    /// The id of the live object at a place, by rising number, from 0.
    pub fn live(&self, i: u32) -> Option<Gid>
        ensures { result ≡ option_map (λ (r : Record). r.gid) (slice_get self.now.tables.records i) }
    {
        self.records.live(i)
    }

    /// The credit of an object in states, actions and the hands of commits here, what is in messages included.
    pub fn held(&self, o: Gid) -> u128
        ensures { result ≡ min (2 ^ 128 - 1) (held_here self.now.tables o) }
    {
        held_in_states(&self.objects, o)
            .saturating_add(held_in_accepted(&self.accepted, o))
            .saturating_add(held_in_running(self.running.as_slice(), o))
            .saturating_add(held_in_commits(self.pending.as_slice(), o))
            .saturating_add(self.held_in_messages(o))
    }

    /// The same in messages: on their way, and those that wait for an object to come or to leave.
    fn held_in_messages(&self, o: Gid) -> u128
        ensures { result ≡ min (2 ^ 128 - 1) (sum_by (λ p. credit_in o (ids_held p)) (messages self.now.tables)) }
    {
        held_in_letters(&self.desk, o)
            .saturating_add(held_on_the_way(&self.outgoing, o))
            .saturating_add(held_in_queues(&self.records, o))
            .saturating_add(held_in_letters(self.moves.leaving(), o))
            .saturating_add(held_in_letters(self.moves.stray(), o))
    }

    /// The credit of an object in messages here that bring it home, or ask for more.
    pub fn owed(&self, o: Gid) -> u128
        ensures { result ≡ min (2 ^ 128 - 1) (owed_here self.now.tables o) }
    {
        owed_in_letters(&self.desk, o)
            .saturating_add(owed_on_the_way(&self.outgoing, o))
            .saturating_add(owed_in_queues(&self.records, o))
            .saturating_add(owed_in_letters(self.moves.leaving(), o))
            .saturating_add(owed_in_letters(self.moves.stray(), o))
    }

    /// How many slots the session has drawn, where it stands here.
    fn drawn(&self) -> u64
        ensures { result ≡ drawn_by (find (is_standing session) self.now.tables.objects) }
    {
        match self.objects.place(Gid::new(0, SESSION, 1)) {
            Some(j) => self.objects.at(j).state().drawn as u64,
            None => 0,
        }
    }

    /// How many answers the session still waits for: 0 elsewhere than at locality 0.
    pub fn awaited(&self) -> u64
        ensures { result ≡ awaited_here self.now.tables }
    {
        if self.here != 0 {
            return 0;
        }
        self.drawn().saturating_sub(self.answered)
    }
}
