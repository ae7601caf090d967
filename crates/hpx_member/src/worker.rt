//! A worker: a member that reads no lines, and ends where the console tells it to.
ghost use Rattle.std.specs.Prelude.{◌≡◌, ◌≢◌, ◌≤◌, ◌<◌, ◌∷◌, [], true, Ok, Some, None, IfErr, IfSome, OnOk, List};
ghost use Rattle.hpx_value.specs.Profiles.{IsValid};
ghost use Rattle.hpx_journal.specs.Weights.{HasRoom};
ghost use Rattle.hpx_steps.specs.Rest.{rules_of};
ghost use Rattle.hpx_ports.specs.Faults.{Rose};
ghost use Rattle.hpx_ports.specs.declared.link.Post.{Post};
ghost use Rattle.hpx_ports.specs.declared.link.Latest.TheVariants.{Got};
ghost use Rattle.hpx_member.specs.Bodies.{end_body};
ghost use Rattle.std.specs.List.{AllByRecursion};
ghost use Rattle.hpx_journal.specs.Sessions.{FeedsNothing};
ghost use Rattle.hpx_member.specs.Feeding.{AddsNoLine};
ghost use Rattle.hpx_member.specs.Seats.{IsNodeAt, IsPart, IsSameSite, Sits, Tells};
ghost use Rattle.hpx_member.specs.Stops.{IsCause, IsFault, IsTurnDue, IsWorkersStatus, SitsLeft, status_of_fault};
ghost use Rattle.hpx_member.specs.Words.{Heeds, HeedsBut, IsHeeded, StopsHeeding};
ghost use Rattle.hpx_ports.specs.declared.link.Post.TheVariants.{Received};

use crate::bodies::{Word, is_frame, read_word};
use crate::end::{MemberEnd, ended, unbooted};
use crate::seat::Seat;
use crate::stop::{MemberFault, Stop};
use hpx_journal::journal::Journal;
use hpx_node::node::Node;
use hpx_ports::link::Link;
use hpx_value::acts::Acts;
use hpx_value::memory::OutOfMemory;
use hpx_value::profile::Profile;
use std::alloc::Global;
use std::collections::VecDeque;
use std::sync::Wait;

/// What became of a step.
#[derive(Clone, Copy, Debug, PartialEq, Eq)]
enum Step {
    On,
    End,
}

/// A member, and the waves that it has yet to answer, the oldest first.
#[derive(Drop)]
struct WorkerSeat<A: Acts + Copy, L: Link + Drop> {
    seat: Seat<A, L>,
    waiting: VecDeque<u32>,
}

impl<A: Acts + Copy, L: Link + Drop> WorkerSeat<A, L> {
    /// Answers the oldest wave that waits, where nothing is to be done here. False where something is, or none waits.
    fn answer(&mut self, alloc: Global) -> Result<bool, Stop>
        requires sits { Sits A.act_of self.old.seat.node.tables self.old.seat.book.entries [] (L.trace self.old.seat.link) }
        requires heeded { IsHeeded self.old.waiting.items (L.trace self.old.seat.link) }
        ensures sits { Sits A.act_of self.new.seat.node.tables self.new.seat.book.entries [] (L.trace self.new.seat.link) }
        ensures node { self.new.seat.node ≡ self.old.seat.node }
        ensures book { self.new.seat.book ≡ self.old.seat.book }
        ensures heeded { OnOk result (IsHeeded self.new.waiting.items (L.trace self.new.seat.link)) }
        ensures stopped { IfErr result (λ stop. StopsHeeding stop (L.trace self.new.seat.link)) }
        ensures calm { OnOk result (L.faults self.new.seat.link ≡ L.faults self.old.seat.link) }
        ensures stops { IfErr result (IsCause self.new.seat.node.tables self.new.seat.book.entries (L.latest self.new.seat.link) (L.faults self.old.seat.link) (L.faults self.new.seat.link)) }
    {
        if !self.seat.node.is_passive() {
            return Ok(false);
        }
        match self.waiting.pop_front() {
            Some(wave) => {
                self.seat.answer(alloc, wave)?;
                Ok(true)
            }
            None => Ok(false),
        }
    }

    /// Waits for a body, and does what it says.
    fn hear(&mut self, alloc: Global) -> Result<Step, Stop>
        requires sits { Sits A.act_of self.old.seat.node.tables self.old.seat.book.entries [] (L.trace self.old.seat.link) }
        requires heeded { IsHeeded self.old.waiting.items (L.trace self.old.seat.link) }
        ensures sits { OnOk result (Sits A.act_of self.new.seat.node.tables self.new.seat.book.entries [] (L.trace self.new.seat.link)) }
        ensures left { IfErr result (λ stop. SitsLeft A.act_of stop self.new.seat.node.tables self.new.seat.book.entries (L.trace self.new.seat.link)) }
        ensures site { IsSameSite self.old.seat.node.tables self.new.seat.node.tables }
        ensures unfed { AddsNoLine self.old.seat.book.entries self.new.seat.book.entries }
        ensures calm { OnOk result (L.faults self.new.seat.link ≡ L.faults self.old.seat.link) }
        ensures heeded { result ≡ Ok Step.On → IsHeeded self.new.waiting.items (L.trace self.new.seat.link) }
        ensures ended { result ≡ Ok Step.End → HeedsBut (Received 0 end_body ∷ []) (L.trace self.new.seat.link) }
        ensures stopped { IfErr result (λ stop. StopsHeeding stop (L.trace self.new.seat.link)) }
        ensures end { result ≡ Ok Step.End → L.latest self.new.seat.link ≡ Got 0 end_body }
        ensures stops { IfErr result (IsCause self.new.seat.node.tables self.new.seat.book.entries (L.latest self.new.seat.link) (L.faults self.old.seat.link) (L.faults self.new.seat.link)) }
    {
        let (from, body) = self.seat.listen()?;
        if is_frame(body.as_slice()) {
            match self.seat.accept(alloc, from, &body) {
                Ok(()) => return Ok(Step::On),
                Err(stop) => return Err(stop),
            }
        }
        match read_word(from, body.as_slice()) {
            Word::Wave(wave) => match self.waiting.push_back(wave) {
                Ok(()) => Ok(Step::On),
                Err(_) => Err(Stop::OutOfMemory),
            },
            Word::End => Ok(Step::End),
            Word::OutOfPlace => Err(Stop::Fault(MemberFault::OutOfPlace { from })),
        }
    }

    /// One step: a turn of its own, a message, an answer; and where there is none of these, it waits for a body.
    fn step(&mut self, alloc: Global) -> Result<Step, Stop>
        requires sits { Sits A.act_of self.old.seat.node.tables self.old.seat.book.entries [] (L.trace self.old.seat.link) }
        requires heeded { IsHeeded self.old.waiting.items (L.trace self.old.seat.link) }
        ensures sits { OnOk result (Sits A.act_of self.new.seat.node.tables self.new.seat.book.entries [] (L.trace self.new.seat.link)) }
        ensures left { IfErr result (λ stop. SitsLeft A.act_of stop self.new.seat.node.tables self.new.seat.book.entries (L.trace self.new.seat.link)) }
        ensures site { IsSameSite self.old.seat.node.tables self.new.seat.node.tables }
        ensures unfed { AddsNoLine self.old.seat.book.entries self.new.seat.book.entries }
        ensures calm { OnOk result (L.faults self.new.seat.link ≡ L.faults self.old.seat.link) }
        ensures heeded { result ≡ Ok Step.On → IsHeeded self.new.waiting.items (L.trace self.new.seat.link) }
        ensures ended { result ≡ Ok Step.End → HeedsBut (Received 0 end_body ∷ []) (L.trace self.new.seat.link) }
        ensures stopped { IfErr result (λ stop. StopsHeeding stop (L.trace self.new.seat.link)) }
        ensures end { result ≡ Ok Step.End → L.latest self.new.seat.link ≡ Got 0 end_body }
        ensures stops { IfErr result (IsCause self.new.seat.node.tables self.new.seat.book.entries (L.latest self.new.seat.link) (L.faults self.old.seat.link) (L.faults self.new.seat.link)) }
    {
        match self.seat.go(alloc) {
            Ok(true) => return Ok(Step::On),
            Ok(false) => {}
            Err(stop) => return Err(stop),
        }
        if self.answer(alloc)? {
            return Ok(Step::On);
        }
        self.hear(alloc)
    }

    /// It goes on until it is told to end.
    fn run<R: Wait>(&mut self, rt: &R, alloc: Global) -> Result<(), Stop>
        requires sits { Sits A.act_of self.old.seat.node.tables self.old.seat.book.entries [] (L.trace self.old.seat.link) }
        requires heeded { IsHeeded self.old.waiting.items (L.trace self.old.seat.link) }
        ensures sits { OnOk result (Sits A.act_of self.new.seat.node.tables self.new.seat.book.entries [] (L.trace self.new.seat.link)) }
        ensures left { IfErr result (λ stop. SitsLeft A.act_of stop self.new.seat.node.tables self.new.seat.book.entries (L.trace self.new.seat.link)) }
        ensures site { IsSameSite self.old.seat.node.tables self.new.seat.node.tables }
        ensures unfed { AddsNoLine self.old.seat.book.entries self.new.seat.book.entries }
        ensures calm { OnOk result (L.faults self.new.seat.link ≡ L.faults self.old.seat.link) }
        ensures ended { OnOk result (HeedsBut (Received 0 end_body ∷ []) (L.trace self.new.seat.link)) }
        ensures stopped { IfErr result (λ stop. StopsHeeding stop (L.trace self.new.seat.link)) }
        ensures end { OnOk result (L.latest self.new.seat.link ≡ Got 0 end_body) }
        ensures stops { IfErr result (IsCause self.new.seat.node.tables self.new.seat.book.entries (L.latest self.new.seat.link) (L.faults self.old.seat.link) (L.faults self.new.seat.link)) }
    {
        for _ in rt.forever() {
            match self.step(alloc) {
                Ok(Step::On) => {}
                Ok(Step::End) => return Ok(()),
                Err(stop) => return Err(stop),
            }
        }
        unreachable!()
    }
}

/// One locality as a member over a link, without lines: it makes the turns of its node, sends what the node sends, accepts what comes, and
/// answers each wave once nothing is to be done here, until the console tells it to end.
///
/// Status 0 where it was told to end, 4 at a fault of the link, 5 where a turn is due and the journal has no room, 6 without memory, 7 at a bad frame, 8 at a strange
/// parcel or a word out of place. At 7 and 8 `fault` is what the node, as it stands then, refuses of what came last.
pub fn worker<R: Wait, A: Acts + Copy, L: Link + Drop>(
    rt: &R,
    alloc: Global,
    acts: A,
    here: u32,
    profile: Profile,
    link: L,
) -> MemberEnd<A, L>
    requires here { here < A.count acts }
    requires few { A.count acts ≤ 64 }
    requires profile { IsValid profile }
    requires empty { (tr : List Post) → L.trace link ≡ Some tr → tr ≡ [] }
    ensures journal { IsPart (rules_of A.act_of (A.count acts) profile) here result.journal.entries }
    ensures node { IfSome result.node (λ n. IsNodeAt A.act_of here (A.count acts) profile n.tables result.journal.entries) }
    ensures tells { (tr : List Post) → L.trace result.link ≡ Some tr → Tells (rules_of A.act_of (A.count acts) profile) here result.status result.journal.entries tr }
    ensures unfed { AllByRecursion (λ e. FeedsNothing e.event) result.journal.entries }
    ensures heeds { (tr : List Post) → L.trace result.link ≡ Some tr → Heeds result.status tr }
    ensures end { result.status ≡ 0 → L.latest result.link ≡ Got 0 end_body }
    ensures ends { IsWorkersStatus result.status }
    ensures failed { result.status ≡ 4 → Rose (L.faults link) (L.faults result.link) }
    ensures calm { result.status ≢ 4 → L.faults result.link ≡ L.faults link }
    ensures full { result.status ≡ 5 → HasRoom result.journal.entries → ⊥ }
    ensures due { result.status ≡ 5 → IfSome result.node (λ n. IsTurnDue n.tables (L.latest result.link)) }
    ensures fault { IfSome result.fault (λ fault. (result.status ≡ status_of_fault fault) × IfSome result.node (λ n. IsFault n.tables (L.latest result.link) fault)) }
    ensures faultless { result.fault ≡ None → (result.status ≢ 7) × (result.status ≢ 8) }
    ensures unbooted { result.node ≡ None → (result.status ≡ 6) × (result.journal.entries ≡ []) × (result.link ≡ link) }
{
    let node = match Node::boot(alloc, acts, here, profile) {
        Ok(node) => node,
        Err(OutOfMemory) => return unbooted(alloc, link),
    };
    let seat = Seat {
        acts,
        node,
        book: Journal::new(alloc),
        link,
    };
    let mut worker = WorkerSeat {
        seat,
        waiting: VecDeque::new(alloc),
    };
    let ran = worker.run(rt, alloc);
    let WorkerSeat { seat, waiting: _ } = worker;
    ended(ran, seat)
}
