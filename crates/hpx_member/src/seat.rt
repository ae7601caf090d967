//! A member: its node, its journal and its link.
ghost use Rattle.std.specs.Prelude.{◌≡◌, ◌≤◌, ◌∷◌, [], true, false, Ok, None, IfOk, IfErr, IfSome, IfNone, OnOk, OnErr};
ghost use Rattle.hpx_journal.specs.Weights.{HasRoom};
ghost use Rattle.hpx_ports.specs.declared.link.Latest.TheVariants.{Got};
ghost use Rattle.hpx_steps.specs.Frames.{IsSpelled};
ghost use Rattle.hpx_tables.specs.Tables.{IsPassive};
ghost use Rattle.hpx_member.specs.Bodies.{counts_of, heard, is_frame};
ghost use Rattle.hpx_member.specs.Leads.{IsOfLink, ToldSome};
ghost use Rattle.hpx_member.specs.Rounds.{told_all};
ghost use Rattle.hpx_member.specs.Seats.{Grows, IsSameSite, MaySend, Sits};
ghost use Rattle.hpx_member.specs.Stops.{IsCause, IsOther, MayLeave};
ghost use Rattle.hpx_member.specs.Words.{IsHeeded};
ghost use Rattle.hpx_ports.specs.Told.{followed};
ghost use Rattle.hpx_ports.specs.declared.link.Post.TheVariants.{Received, Sent};

use crate::bodies::counts;
use crate::stop::{Stop, stop_of_link, stop_of_take};
use crate::turn::turn;
use hpx_journal::journal::Journal;
use hpx_node::node::Node;
use hpx_parcel::write::encode;
use hpx_ports::link::Link;
use hpx_value::acts::Acts;
use hpx_value::items::Bytes;
use hpx_value::memory::OutOfMemory;
use std::alloc::Global;

/// A node, with the journal that it writes, over a link.
#[derive(Drop)]
pub struct Seat<A: Acts + Copy, L: Link + Drop> {
    pub acts: A,
    pub node: Node<A>,
    pub book: Journal,
    pub link: L,
}

/// The frame of the oldest message to another locality, and where it goes; with memory for the entry that it is gone.
fn front<A: Acts + Copy>(
    alloc: Global,
    node: &Node<A>,
    book: &mut Journal,
) -> Result<Option<(u32, Bytes)>, OutOfMemory>
    ensures entries { book.new.entries ≡ book.old.entries }
    ensures page { OnOk result (1 ≤ book.new.spare) }
    ensures spelled { IfOk result (λ x. IfSome x (λ y. IsSpelled node.now.tables y.0 y.1)) }
    ensures frame { IfOk result (λ x. IfSome x (λ y. is_frame y.1 ≡ true)) }
{
    book.reserve(1)?;
    match node.front() {
        Some((to, parcel)) => Ok(Some((to, encode(alloc, parcel)?))),
        None => Ok(None),
    }
}

impl<A: Acts + Copy, L: Link + Drop> Seat<A, L> {
    /// One turn of the node's own. False where there is none.
    pub fn act(&mut self, alloc: Global) -> Result<bool, Stop>
        requires room { HasRoom self.old.book.entries }
        requires sits { Sits A.act_of self.old.node.tables self.old.book.entries [] (L.trace self.old.link) }
        ensures sits { Sits A.act_of self.new.node.tables self.new.book.entries [] (L.trace self.new.link) }
        ensures site { IsSameSite self.old.node.tables self.new.node.tables }
        ensures grows { Grows self.old.node.tables self.new.node.tables self.old.book.entries self.new.book.entries }
        ensures none { result ≡ Ok false → self.new.book.entries ≡ self.old.book.entries }
        ensures link { self.new.link ≡ self.old.link }
        ensures stops { IfErr result (IsCause self.new.node.tables self.new.book.entries (L.latest self.new.link) (L.faults self.old.link) (L.faults self.new.link)) }
        ensures other { IfErr result IsOther }
    {
        turn(alloc, &self.acts, &mut self.node, &mut self.book)
    }

    /// Sends the oldest message to another locality. False where there is none.
    pub fn pump(&mut self, alloc: Global) -> Result<bool, Stop>
        requires room { HasRoom self.old.book.entries }
        requires sits { Sits A.act_of self.old.node.tables self.old.book.entries [] (L.trace self.old.link) }
        ensures sits { Sits A.act_of self.new.node.tables self.new.book.entries [] (L.trace self.new.link) }
        ensures site { IsSameSite self.old.node.tables self.new.node.tables }
        ensures grows { Grows self.old.node.tables self.new.node.tables self.old.book.entries self.new.book.entries }
        ensures none { result ≡ Ok false → self.new.book.entries ≡ self.old.book.entries }
        ensures sends { MaySend (L.trace self.old.link) (L.trace self.new.link) }
        ensures calm { OnOk result (L.faults self.new.link ≡ L.faults self.old.link) }
        ensures stops { IfErr result (IsCause self.new.node.tables self.new.book.entries (L.latest self.new.link) (L.faults self.old.link) (L.faults self.new.link)) }
        ensures other { IfErr result IsOther }
    {
        let (to, frame) = match front(alloc, &self.node, &mut self.book) {
            Ok(Some(x)) => x,
            Ok(None) => return Ok(false),
            Err(OutOfMemory) => return Err(Stop::OutOfMemory),
        };
        match self.link.send(to, frame.as_slice()) {
            Ok(()) => {}
            Err(fault) => return Err(stop_of_link(fault)),
        }
        self.node.gone(&mut self.book, to, frame);
        Ok(true)
    }

    /// A turn of the node's own, or else a message is sent; room is looked at only where something is under way here. False where there is neither.
    pub fn go(&mut self, alloc: Global) -> Result<bool, Stop>
        requires sits { Sits A.act_of self.old.node.tables self.old.book.entries [] (L.trace self.old.link) }
        ensures sits { Sits A.act_of self.new.node.tables self.new.book.entries [] (L.trace self.new.link) }
        ensures site { IsSameSite self.old.node.tables self.new.node.tables }
        ensures grows { Grows self.old.node.tables self.new.node.tables self.old.book.entries self.new.book.entries }
        ensures sends { MaySend (L.trace self.old.link) (L.trace self.new.link) }
        ensures calm { OnOk result (L.faults self.new.link ≡ L.faults self.old.link) }
        ensures stops { IfErr result (IsCause self.new.node.tables self.new.book.entries (L.latest self.new.link) (L.faults self.old.link) (L.faults self.new.link)) }
        ensures other { IfErr result IsOther }
    {
        if self.node.is_passive() {
            return Ok(false);
        }
        if !self.book.room() {
            return Err(Stop::JournalFull);
        }
        if self.act(alloc)? {
            return Ok(true);
        }
        self.pump(alloc)
    }

    /// Sends a word of control that tells no numbers.
    fn say(&mut self, to: u32, body: &[u8]) -> Result<(), Stop>
        requires word { is_frame body.now ≡ false }
        requires silent { counts_of body.now ≡ None }
        requires sits { Sits A.act_of self.old.node.tables self.old.book.entries [] (L.trace self.old.link) }
        ensures sits { Sits A.act_of self.new.node.tables self.new.book.entries [] (L.trace self.new.link) }
        ensures node { self.new.node ≡ self.old.node }
        ensures book { self.new.book ≡ self.old.book }
        ensures said { OnOk result (L.trace self.new.link ≡ followed (L.trace self.old.link) (Sent to body.now ∷ [])) }
        ensures unsaid { OnErr result (L.trace self.new.link ≡ L.trace self.old.link) }
        ensures calm { OnOk result (L.faults self.new.link ≡ L.faults self.old.link) }
        ensures stops { IfErr result (IsCause self.new.node.tables self.new.book.entries (L.latest self.new.link) (L.faults self.old.link) (L.faults self.new.link)) }
        ensures link { IfErr result IsOfLink }
    {
        match self.link.send(to, body) {
            Ok(()) => Ok(()),
            Err(fault) => Err(stop_of_link(fault)),
        }
    }

    /// Sends a word of control that tells no numbers to members 1 to so many, in order.
    pub fn tell_all(&mut self, others: u32, body: &[u8]) -> Result<(), Stop>
        requires word { is_frame body.now ≡ false }
        requires silent { counts_of body.now ≡ None }
        requires sits { Sits A.act_of self.old.node.tables self.old.book.entries [] (L.trace self.old.link) }
        ensures sits { Sits A.act_of self.new.node.tables self.new.book.entries [] (L.trace self.new.link) }
        ensures node { self.new.node ≡ self.old.node }
        ensures book { self.new.book ≡ self.old.book }
        ensures told { OnOk result (L.trace self.new.link ≡ followed (L.trace self.old.link) (told_all body.now others)) }
        ensures some { OnErr result (ToldSome body.now others (L.trace self.old.link) (L.trace self.new.link)) }
        ensures calm { OnOk result (L.faults self.new.link ≡ L.faults self.old.link) }
        ensures stops { IfErr result (IsCause self.new.node.tables self.new.book.entries (L.latest self.new.link) (L.faults self.old.link) (L.faults self.new.link)) }
        ensures link { IfErr result IsOfLink }
    {
        for i in 0..others {
            match self.say(i + 1, body) {
                Ok(()) => {}
                Err(stop) => return Err(stop),
            }
        }
        Ok(())
    }

    /// Tells the console how many frames were sent and accepted, where nothing is to be done here.
    pub fn answer(&mut self, alloc: Global, wave: u32) -> Result<(), Stop>
        requires passive { IsPassive self.old.node.tables }
        requires sits { Sits A.act_of self.old.node.tables self.old.book.entries [] (L.trace self.old.link) }
        ensures sits { Sits A.act_of self.new.node.tables self.new.book.entries [] (L.trace self.new.link) }
        ensures node { self.new.node ≡ self.old.node }
        ensures book { self.new.book ≡ self.old.book }
        ensures words { OnOk result ((waiting : _) → IsHeeded (wave ∷ waiting) (L.trace self.old.link) → IsHeeded waiting (L.trace self.new.link)) }
        ensures unsaid { OnErr result (L.trace self.new.link ≡ L.trace self.old.link) }
        ensures calm { OnOk result (L.faults self.new.link ≡ L.faults self.old.link) }
        ensures stops { IfErr result (IsCause self.new.node.tables self.new.book.entries (L.latest self.new.link) (L.faults self.old.link) (L.faults self.new.link)) }
        ensures other { IfErr result IsOther }
    {
        let body = match counts(alloc, wave, self.node.sent(), self.node.taken()) {
            Ok(body) => body,
            Err(OutOfMemory) => return Err(Stop::OutOfMemory),
        };
        match self.link.send(0, body.as_slice()) {
            Ok(()) => Ok(()),
            Err(fault) => Err(stop_of_link(fault)),
        }
    }

    /// Waits for a body: where it comes from, and its bytes.
    pub fn listen(&mut self) -> Result<(u32, Bytes), Stop>
        requires sits { Sits A.act_of self.old.node.tables self.old.book.entries [] (L.trace self.old.link) }
        ensures heard { IfOk result (λ got. Sits A.act_of self.new.node.tables self.new.book.entries (heard self.new.node.tables.here got.1) (L.trace self.new.link)) }
        ensures unheard { OnErr result (Sits A.act_of self.new.node.tables self.new.book.entries [] (L.trace self.new.link)) }
        ensures node { self.new.node ≡ self.old.node }
        ensures book { self.new.book ≡ self.old.book }
        ensures told { IfOk result (λ got. L.trace self.new.link ≡ followed (L.trace self.old.link) (Received got.0 got.1 ∷ [])) }
        ensures untold { OnErr result (L.trace self.new.link ≡ L.trace self.old.link) }
        ensures latest { IfOk result (λ got. L.latest self.new.link ≡ Got got.0 got.1) }
        ensures calm { OnOk result (L.faults self.new.link ≡ L.faults self.old.link) }
        ensures stops { IfErr result (IsCause self.new.node.tables self.new.book.entries (L.latest self.new.link) (L.faults self.old.link) (L.faults self.new.link)) }
        ensures other { IfErr result IsOther }
    {
        match self.link.recv() {
            Ok(got) => Ok(got),
            Err(fault) => Err(stop_of_link(fault)),
        }
    }

    /// Accepts a frame that came; nothing changes at a refusal, nor where there is no room.
    pub fn accept(&mut self, alloc: Global, from: u32, body: &Bytes) -> Result<(), Stop>
        requires frame { is_frame body.now ≡ true }
        requires latest { L.latest self.old.link ≡ Got from body.now }
        requires heard { Sits A.act_of self.old.node.tables self.old.book.entries (heard self.old.node.tables.here body.now) (L.trace self.old.link) }
        ensures sits { OnOk result (Sits A.act_of self.new.node.tables self.new.book.entries [] (L.trace self.new.link)) }
        ensures left { OnErr result (Sits A.act_of self.new.node.tables self.new.book.entries (heard self.new.node.tables.here body.now) (L.trace self.new.link)) }
        ensures site { IsSameSite self.old.node.tables self.new.node.tables }
        ensures grows { Grows self.old.node.tables self.new.node.tables self.old.book.entries self.new.book.entries }
        ensures link { self.new.link ≡ self.old.link }
        ensures leaves { IfErr result MayLeave }
        ensures stops { IfErr result (IsCause self.new.node.tables self.new.book.entries (L.latest self.new.link) (L.faults self.old.link) (L.faults self.new.link)) }
        ensures other { IfErr result IsOther }
    {
        if !self.book.room() {
            return Err(Stop::JournalFull);
        }
        match self.node.take(alloc, &mut self.book, body) {
            Ok(()) => Ok(()),
            Err(fault) => Err(stop_of_take(from, fault)),
        }
    }
}
