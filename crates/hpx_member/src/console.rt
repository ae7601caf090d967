//! A console: the member at locality 0, which is fed lines, and ends the others.
ghost use Rattle.std.specs.Prelude.{◌≡◌, ◌≢◌, ◌≤◌, ◌<◌, ◌∷◌, ◌⊎◌, ◌+◌, [], true, false, Ok, Some, None, IfErr, IfSome, OnOk, OnErr, List, length};
ghost use Rattle.hpx_value.specs.Profiles.{IsValid};
ghost use Rattle.hpx_journal.specs.Weights.{HasRoom};
ghost use Rattle.hpx_tables.specs.Tables.{IsPassive};
ghost use Rattle.hpx_steps.specs.Rest.{rules_of};
ghost use Rattle.hpx_ended.specs.Tally.{verdict_of, waits};
ghost use Rattle.hpx_ended.specs.declared.round.Verdict.TheVariants.{Again, Ended};
ghost use Rattle.hpx_ports.specs.Faults.{Rose};
ghost use Rattle.hpx_ports.specs.declared.link.Post.{Post};
ghost use Rattle.hpx_member.specs.Bodies.{is_frame};
ghost use Rattle.hpx_member.specs.Feeding.{AddsNoLine, FeedsAtMost, FeedsLine};
ghost use Rattle.hpx_member.specs.Leads.{HaltsLeft, HasAsked, HasLineCause, HasLineToFeed, HasServed, IsConsolesStatus, IsDueAt, IsHaltCause, IsNoFrame, IsReady, Leads, LeadsLeft, Saying};
ghost use Rattle.hpx_member.specs.Rounds.{Ending, AsksBut, IsDue, IsUnasked, MayGoOn, TakesCounts};
ghost use Rattle.hpx_member.specs.declared.console.Phase.TheVariants.{LinesOver, Serving};
ghost use Rattle.hpx_member.specs.Seats.{IsNodeAt, IsPart, IsSameSite, Sits, Tells};
ghost use Rattle.hpx_member.specs.Serves.{Asking, Done, IsIdleBehind, IsOver, Serves, Stage};
ghost use Rattle.hpx_member.specs.Stops.{IsCauseBy, IsFaultBy, IsTurnDue, status_of_fault};
ghost use Rattle.hpx_member.specs.Talks.{Only};

use crate::bodies::{END, is_frame, read_counts, wave};
use crate::end::{MemberEnd, halted, unbooted};
use crate::lines::Lines;
use crate::seat::Seat;
use crate::stop::{Halt, MemberFault, Stop};
use hpx_ended::round::{Verdict, Waves};
use hpx_journal::journal::Journal;
use hpx_node::node::Node;
use hpx_ports::link::Link;
use hpx_value::acts::Acts;
use hpx_value::items::Text;
use hpx_value::memory::OutOfMemory;
use hpx_value::profile::Profile;
use std::alloc::Global;
use std::sync::Wait;

/// Counts what a member tells in answer to the wave that waits. False where no wave waits for that.
fn count(waves: &mut Waves, from: u32, body: &[u8]) -> bool
    requires { is_frame body.now ≡ false }
    ensures counts { result ≡ true → TakesCounts from body.now waves.old waves.new }
    ensures refused { result ≡ false → (waves.new ≡ waves.old) × IsUnasked waves.old from body.now }
{
    match read_counts(body) {
        Some(told) => match waves.counts(from, told.wave, told.sent, told.taken) {
            Ok(()) => true,
            Err(_) => false,
        },
        None => false,
    }
}

/// How far the lines of a console are.
#[derive(Clone, Copy, Debug, PartialEq, Eq)]
enum Phase {
    /// None was fed.
    Unfed,
    /// One was, and there may be more.
    Serving,
    /// There are no more.
    LinesOver,
}

/// The member at locality 0, beside so many others, and the waves of its round. `settles` says whether a round is to end before each
/// line but the first.
#[derive(Drop)]
struct ConsoleSeat<A: Acts + Copy, L: Link + Drop> {
    seat: Seat<A, L>,
    waves: Waves,
    others: u32,
    settles: bool,
    phase: Phase,
}

impl<A: Acts + Copy, L: Link + Drop> ConsoleSeat<A, L> {
    /// Waits for a body: a frame is accepted, and Counts are counted, which may leave no wave.
    fn hear(&mut self, alloc: Global) -> Result<(), Stop>
        requires leads { Leads A.act_of self.old.others self.old.settles self.old.phase self.old.seat.node.tables self.old.seat.book.entries (L.trace self.old.seat.link) self.old.waves }
        ensures leads { OnOk result (Leads A.act_of self.new.others self.new.settles self.new.phase self.new.seat.node.tables self.new.seat.book.entries (L.trace self.new.seat.link) self.new.waves) }
        ensures left { IfErr result (λ stop. LeadsLeft A.act_of self.new.settles stop self.new.seat.node.tables self.new.seat.book.entries (L.trace self.new.seat.link)) }
        ensures same { (self.new.others ≡ self.old.others) × (self.new.settles ≡ self.old.settles) × (self.new.phase ≡ self.old.phase) }
        ensures site { IsSameSite self.old.seat.node.tables self.new.seat.node.tables }
        ensures unfed { AddsNoLine self.old.seat.book.entries self.new.seat.book.entries }
        ensures waves { waits self.old.waves ≡ false → OnOk result (self.new.waves ≡ self.old.waves) }
        ensures calm { OnOk result (L.faults self.new.seat.link ≡ L.faults self.old.seat.link) }
        ensures stops { IfErr result (IsCauseBy IsNoFrame ⊥ self.new.seat.node.tables self.new.seat.book.entries (L.latest self.new.seat.link) (L.faults self.old.seat.link) (L.faults self.new.seat.link)) }
    {
        let (from, body) = self.seat.listen()?;
        if is_frame(body.as_slice()) {
            match self.seat.accept(alloc, from, &body) {
                Ok(()) => return Ok(()),
                Err(stop) => return Err(stop),
            }
        }
        if !count(&mut self.waves, from, body.as_slice()) {
            return Err(Stop::Fault(MemberFault::OutOfPlace { from }));
        }
        if self.waves.is_spent() {
            return Err(Stop::Fault(MemberFault::Waves));
        }
        Ok(())
    }

    /// One step of its own, or else it waits for a body. True where nothing is to be done, and no answer is awaited.
    fn step(&mut self, alloc: Global) -> Result<bool, Stop>
        requires leads { Leads A.act_of self.old.others self.old.settles self.old.phase self.old.seat.node.tables self.old.seat.book.entries (L.trace self.old.seat.link) self.old.waves }
        ensures leads { OnOk result (Leads A.act_of self.new.others self.new.settles self.new.phase self.new.seat.node.tables self.new.seat.book.entries (L.trace self.new.seat.link) self.new.waves) }
        ensures ready { result ≡ Ok true → IsReady self.new.seat.node.tables }
        ensures left { IfErr result (λ stop. LeadsLeft A.act_of self.new.settles stop self.new.seat.node.tables self.new.seat.book.entries (L.trace self.new.seat.link)) }
        ensures same { (self.new.others ≡ self.old.others) × (self.new.settles ≡ self.old.settles) × (self.new.phase ≡ self.old.phase) }
        ensures site { IsSameSite self.old.seat.node.tables self.new.seat.node.tables }
        ensures unfed { AddsNoLine self.old.seat.book.entries self.new.seat.book.entries }
        ensures waves { waits self.old.waves ≡ false → OnOk result (self.new.waves ≡ self.old.waves) }
        ensures calm { OnOk result (L.faults self.new.seat.link ≡ L.faults self.old.seat.link) }
        ensures stops { IfErr result (IsCauseBy IsNoFrame ⊥ self.new.seat.node.tables self.new.seat.book.entries (L.latest self.new.seat.link) (L.faults self.old.seat.link) (L.faults self.new.seat.link)) }
    {
        match self.seat.go(alloc) {
            Ok(true) => return Ok(false),
            Ok(false) => {}
            Err(stop) => return Err(stop),
        }
        if self.seat.node.is_passive() && self.seat.node.awaited() == 0 {
            return Ok(true);
        }
        match self.hear(alloc) {
            Ok(()) => Ok(false),
            Err(stop) => Err(stop),
        }
    }

    /// It goes on until nothing is to be done here, and no answer is awaited.
    fn settle<R: Wait>(&mut self, rt: &R, alloc: Global) -> Result<(), Stop>
        requires leads { Leads A.act_of self.old.others self.old.settles self.old.phase self.old.seat.node.tables self.old.seat.book.entries (L.trace self.old.seat.link) self.old.waves }
        ensures leads { OnOk result (Leads A.act_of self.new.others self.new.settles self.new.phase self.new.seat.node.tables self.new.seat.book.entries (L.trace self.new.seat.link) self.new.waves) }
        ensures ready { OnOk result (IsReady self.new.seat.node.tables) }
        ensures left { IfErr result (λ stop. LeadsLeft A.act_of self.new.settles stop self.new.seat.node.tables self.new.seat.book.entries (L.trace self.new.seat.link)) }
        ensures same { (self.new.others ≡ self.old.others) × (self.new.settles ≡ self.old.settles) × (self.new.phase ≡ self.old.phase) }
        ensures site { IsSameSite self.old.seat.node.tables self.new.seat.node.tables }
        ensures unfed { AddsNoLine self.old.seat.book.entries self.new.seat.book.entries }
        ensures waves { waits self.old.waves ≡ false → OnOk result (self.new.waves ≡ self.old.waves) }
        ensures calm { OnOk result (L.faults self.new.seat.link ≡ L.faults self.old.seat.link) }
        ensures stops { IfErr result (IsCauseBy IsNoFrame ⊥ self.new.seat.node.tables self.new.seat.book.entries (L.latest self.new.seat.link) (L.faults self.old.seat.link) (L.faults self.new.seat.link)) }
    {
        for _ in rt.forever() {
            match self.step(alloc) {
                Ok(false) => {}
                Ok(true) => return Ok(()),
                Err(stop) => return Err(stop),
            }
        }
        unreachable!()
    }

    /// Begins the round anew where no wave has a number any more: there are no other members then.
    fn renew(&mut self)
        requires again { verdict_of self.old.waves ≡ Again }
        requires leads { Leads A.act_of self.old.others self.old.settles self.old.phase self.old.seat.node.tables self.old.seat.book.entries (L.trace self.old.seat.link) self.old.waves }
        ensures leads { (Leads A.act_of self.new.others self.new.settles self.new.phase self.new.seat.node.tables self.new.seat.book.entries (L.trace self.new.seat.link) self.new.waves) }
        ensures done { waits self.new.waves ≡ false }
        ensures more { self.new.waves.begun < 4294967295 }
        ensures node { self.new.seat.node ≡ self.old.seat.node }
        ensures book { self.new.seat.book ≡ self.old.seat.book }
        ensures link { self.new.seat.link ≡ self.old.seat.link }
        ensures same { (self.new.others ≡ self.old.others) × (self.new.settles ≡ self.old.settles) × (self.new.phase ≡ self.old.phase) }
    {
        if self.waves.begun() == u32::MAX {
            self.waves.restart();
        }
    }

    /// Begins a wave with its own numbers, and tells the others.
    fn begin(&mut self, alloc: Global) -> Result<(), Stop>
        requires passive { IsPassive self.old.seat.node.tables }
        requires again { verdict_of self.old.waves ≡ Again }
        requires due { IsDue self.old.settles self.old.phase }
        requires leads { Leads A.act_of self.old.others self.old.settles self.old.phase self.old.seat.node.tables self.old.seat.book.entries (L.trace self.old.seat.link) self.old.waves }
        ensures leads { OnOk result (Leads A.act_of self.new.others self.new.settles self.new.phase self.new.seat.node.tables self.new.seat.book.entries (L.trace self.new.seat.link) self.new.waves) }
        ensures left { IfErr result (λ stop. LeadsLeft A.act_of self.new.settles stop self.new.seat.node.tables self.new.seat.book.entries (L.trace self.new.seat.link)) }
        ensures node { self.new.seat.node ≡ self.old.seat.node }
        ensures book { self.new.seat.book ≡ self.old.seat.book }
        ensures same { (self.new.others ≡ self.old.others) × (self.new.settles ≡ self.old.settles) × (self.new.phase ≡ self.old.phase) }
        ensures calm { OnOk result (L.faults self.new.seat.link ≡ L.faults self.old.seat.link) }
        ensures stops { IfErr result (IsCauseBy IsNoFrame ⊥ self.new.seat.node.tables self.new.seat.book.entries (L.latest self.new.seat.link) (L.faults self.old.seat.link) (L.faults self.new.seat.link)) }
    {
        self.renew();
        let body = match wave(alloc, self.waves.begun()) {
            Ok(body) => body,
            Err(OutOfMemory) => return Err(Stop::OutOfMemory),
        };
        self.waves
            .begin(self.seat.node.sent(), self.seat.node.taken());
        match self.seat.tell_all(self.others, body.as_slice()) {
            Ok(()) => Ok(()),
            Err(stop) => Err(stop),
        }
    }

    /// Comes to rest, and goes on with the round: the next wave, where all have answered. True where the round has ended.
    fn advance<R: Wait>(&mut self, rt: &R, alloc: Global) -> Result<bool, Stop>
        requires due { IsDue self.old.settles self.old.phase }
        requires leads { Leads A.act_of self.old.others self.old.settles self.old.phase self.old.seat.node.tables self.old.seat.book.entries (L.trace self.old.seat.link) self.old.waves }
        ensures leads { OnOk result (Leads A.act_of self.new.others self.new.settles self.new.phase self.new.seat.node.tables self.new.seat.book.entries (L.trace self.new.seat.link) self.new.waves) }
        ensures ended { result ≡ Ok true → verdict_of self.new.waves ≡ Ended }
        ensures ready { result ≡ Ok true → IsReady self.new.seat.node.tables }
        ensures left { IfErr result (λ stop. LeadsLeft A.act_of self.new.settles stop self.new.seat.node.tables self.new.seat.book.entries (L.trace self.new.seat.link)) }
        ensures same { (self.new.others ≡ self.old.others) × (self.new.settles ≡ self.old.settles) × (self.new.phase ≡ self.old.phase) }
        ensures site { IsSameSite self.old.seat.node.tables self.new.seat.node.tables }
        ensures unfed { AddsNoLine self.old.seat.book.entries self.new.seat.book.entries }
        ensures calm { OnOk result (L.faults self.new.seat.link ≡ L.faults self.old.seat.link) }
        ensures stops { IfErr result (IsCauseBy IsNoFrame ⊥ self.new.seat.node.tables self.new.seat.book.entries (L.latest self.new.seat.link) (L.faults self.old.seat.link) (L.faults self.new.seat.link)) }
    {
        match self.settle(rt, alloc) {
            Ok(()) => {}
            Err(stop) => return Err(stop),
        }
        match self.waves.verdict() {
            Verdict::Ended => Ok(true),
            Verdict::Again => match self.begin(alloc) {
                Ok(()) => Ok(false),
                Err(stop) => Err(stop),
            },
            Verdict::Unfinished => match self.hear(alloc) {
                Ok(()) => Ok(false),
                Err(stop) => Err(stop),
            },
        }
    }

    /// Waves until a round has ended: all that was sent by the last had been accepted by the one before.
    fn round<R: Wait>(&mut self, rt: &R, alloc: Global) -> Result<(), Stop>
        requires due { IsDue self.old.settles self.old.phase }
        requires leads { Leads A.act_of self.old.others self.old.settles self.old.phase self.old.seat.node.tables self.old.seat.book.entries (L.trace self.old.seat.link) self.old.waves }
        ensures leads { OnOk result (Leads A.act_of self.new.others self.new.settles self.new.phase self.new.seat.node.tables self.new.seat.book.entries (L.trace self.new.seat.link) self.new.waves) }
        ensures ended { OnOk result (verdict_of self.new.waves ≡ Ended) }
        ensures ready { OnOk result (IsReady self.new.seat.node.tables) }
        ensures left { IfErr result (λ stop. LeadsLeft A.act_of self.new.settles stop self.new.seat.node.tables self.new.seat.book.entries (L.trace self.new.seat.link)) }
        ensures same { (self.new.others ≡ self.old.others) × (self.new.settles ≡ self.old.settles) × (self.new.phase ≡ self.old.phase) }
        ensures site { IsSameSite self.old.seat.node.tables self.new.seat.node.tables }
        ensures unfed { AddsNoLine self.old.seat.book.entries self.new.seat.book.entries }
        ensures calm { OnOk result (L.faults self.new.seat.link ≡ L.faults self.old.seat.link) }
        ensures stops { IfErr result (IsCauseBy IsNoFrame ⊥ self.new.seat.node.tables self.new.seat.book.entries (L.latest self.new.seat.link) (L.faults self.old.seat.link) (L.faults self.new.seat.link)) }
    {
        for _ in rt.forever() {
            match self.advance(rt, alloc) {
                Ok(false) => {}
                Ok(true) => return Ok(()),
                Err(stop) => return Err(stop),
            }
        }
        unreachable!()
    }

    /// Feeds a line, which ends the round.
    fn feed(&mut self, alloc: Global, line: Text) -> Result<(), Stop>
        requires short { length line ≤ 1025 }
        requires ready { IsReady self.old.seat.node.tables }
        requires next { MayGoOn self.old.settles self.old.waves self.old.phase }
        requires leads { Leads A.act_of self.old.others self.old.settles self.old.phase self.old.seat.node.tables self.old.seat.book.entries (L.trace self.old.seat.link) self.old.waves }
        ensures leads { OnOk result (Leads A.act_of self.new.others self.new.settles self.new.phase self.new.seat.node.tables self.new.seat.book.entries (L.trace self.new.seat.link) self.new.waves) }
        ensures fed { OnOk result (FeedsLine line self.old.seat.book.entries self.new.seat.book.entries) }
        ensures unfed { OnErr result (self.new.seat.book.entries ≡ self.old.seat.book.entries) }
        ensures done { OnOk result (waits self.new.waves ≡ false) }
        ensures link { self.new.seat.link ≡ self.old.seat.link }
        ensures left { IfErr result (λ stop. LeadsLeft A.act_of self.new.settles stop self.new.seat.node.tables self.new.seat.book.entries (L.trace self.new.seat.link)) }
        ensures same { (self.new.others ≡ self.old.others) × (self.new.settles ≡ self.old.settles) }
        ensures phase { OnOk result (self.new.phase ≡ Serving) }
        ensures site { IsSameSite self.old.seat.node.tables self.new.seat.node.tables }
        ensures stops { IfErr result (IsCauseBy IsNoFrame (self.new.seat.book.entries ≡ self.old.seat.book.entries) self.new.seat.node.tables self.new.seat.book.entries (L.latest self.new.seat.link) (L.faults self.old.seat.link) (L.faults self.new.seat.link)) }
    {
        if !self.seat.book.room() {
            return Err(Stop::JournalFull);
        }
        match self.seat.node.feed(alloc, &mut self.seat.book, line) {
            Ok(()) => {
                self.phase = Phase::Serving;
                self.waves.restart();
                Ok(())
            }
            Err(OutOfMemory) => Err(Stop::OutOfMemory),
        }
    }

    /// Feeds a line, and goes on until nothing is to be done here and no answer is awaited; and where it is so set, until a round has ended.
    fn answer<R: Wait>(&mut self, rt: &R, alloc: Global, line: Text) -> Result<(), Stop>
        requires short { length line ≤ 1025 }
        requires ready { IsReady self.old.seat.node.tables }
        requires next { MayGoOn self.old.settles self.old.waves self.old.phase }
        requires leads { Leads A.act_of self.old.others self.old.settles self.old.phase self.old.seat.node.tables self.old.seat.book.entries (L.trace self.old.seat.link) self.old.waves }
        ensures leads { OnOk result (Leads A.act_of self.new.others self.new.settles self.new.phase self.new.seat.node.tables self.new.seat.book.entries (L.trace self.new.seat.link) self.new.waves) }
        ensures ready { OnOk result (IsReady self.new.seat.node.tables) }
        ensures next { OnOk result (MayGoOn self.new.settles self.new.waves self.new.phase) }
        ensures fed { OnOk result (FeedsLine line self.old.seat.book.entries self.new.seat.book.entries) }
        ensures most { FeedsAtMost line self.old.seat.book.entries self.new.seat.book.entries }
        ensures left { IfErr result (λ stop. LeadsLeft A.act_of self.new.settles stop self.new.seat.node.tables self.new.seat.book.entries (L.trace self.new.seat.link)) }
        ensures same { (self.new.others ≡ self.old.others) × (self.new.settles ≡ self.old.settles) }
        ensures site { IsSameSite self.old.seat.node.tables self.new.seat.node.tables }
        ensures calm { OnOk result (L.faults self.new.seat.link ≡ L.faults self.old.seat.link) }
        ensures stops { IfErr result (IsCauseBy IsNoFrame (self.new.seat.book.entries ≡ self.old.seat.book.entries) self.new.seat.node.tables self.new.seat.book.entries (L.latest self.new.seat.link) (L.faults self.old.seat.link) (L.faults self.new.seat.link)) }
    {
        match self.feed(alloc, line) {
            Ok(()) => {}
            Err(stop) => return Err(stop),
        }
        match self.settle(rt, alloc) {
            Ok(()) => {}
            Err(stop) => return Err(stop),
        }
        if !self.settles {
            return Ok(());
        }
        match self.round(rt, alloc) {
            Ok(()) => Ok(()),
            Err(stop) => Err(stop),
        }
    }

    /// Asks for a line, feeds it, and shows what was written. False where the lines are over.
    fn serve_line<R: Wait, I: Lines>(
        &mut self,
        rt: &R,
        alloc: Global,
        lines: &mut I,
    ) -> Result<bool, Halt>
        requires ready { IsReady self.old.seat.node.tables }
        requires next { MayGoOn self.old.settles self.old.waves self.old.phase }
        requires leads { Leads A.act_of self.old.others self.old.settles self.old.phase self.old.seat.node.tables self.old.seat.book.entries (L.trace self.old.seat.link) self.old.waves }
        ensures leads { OnOk result (Leads A.act_of self.new.others self.new.settles self.new.phase self.new.seat.node.tables self.new.seat.book.entries (L.trace self.new.seat.link) self.new.waves) }
        ensures ready { OnOk result (IsReady self.new.seat.node.tables) }
        ensures next { OnOk result (MayGoOn self.new.settles self.new.waves self.new.phase) }
        ensures serves { (first : _) → Serves (rules_of A.act_of self.old.seat.node.tables.localities self.old.seat.node.tables.profile) self.old.seat.book.entries (Only (I.went first lines.old)) Asking →
            result ≡ Ok true → Serves (rules_of A.act_of self.new.seat.node.tables.localities self.new.seat.node.tables.profile) self.new.seat.book.entries (Only (I.went first lines.new)) Asking }
        ensures over { (first : _) → Serves (rules_of A.act_of self.old.seat.node.tables.localities self.old.seat.node.tables.profile) self.old.seat.book.entries (Only (I.went first lines.old)) Asking →
            result ≡ Ok false → IsOver (rules_of A.act_of self.new.seat.node.tables.localities self.new.seat.node.tables.profile) self.new.seat.book.entries (I.went first lines.new) }
        ensures broken { (first : _) → Serves (rules_of A.act_of self.old.seat.node.tables.localities self.old.seat.node.tables.profile) self.old.seat.book.entries (Only (I.went first lines.old)) Asking →
            IfErr result (λ halt. (stage : Stage) × Serves (rules_of A.act_of self.new.seat.node.tables.localities self.new.seat.node.tables.profile) self.new.seat.book.entries (Saying (I.went first lines.new) (I.broke first lines.new) halt) stage
            × IsDueAt halt stage self.new.seat.node.tables (L.latest self.new.seat.link)) }
        ensures left { IfErr result (λ halt. HaltsLeft A.act_of self.new.settles halt self.new.seat.node.tables self.new.seat.book.entries (L.trace self.new.seat.link)) }
        ensures same { (self.new.others ≡ self.old.others) × (self.new.settles ≡ self.old.settles) }
        ensures site { IsSameSite self.old.seat.node.tables self.new.seat.node.tables }
        ensures calm { OnOk result ((L.faults self.new.seat.link ≡ L.faults self.old.seat.link) × (I.reads lines.new ≡ I.reads lines.old) × (I.writes lines.new ≡ I.writes lines.old)) }
        ensures stops { IfErr result (IsHaltCause self.new.seat.node.tables self.new.seat.book.entries (L.latest self.new.seat.link) (I.reads lines.old) (I.reads lines.new)
            (I.writes lines.old) (I.writes lines.new) (I.full lines.new) (L.faults self.old.seat.link) (L.faults self.new.seat.link)) }
    {
        let line = match lines.next(alloc) {
            Ok(Some(line)) => line,
            Ok(None) => return Ok(false),
            Err(fault) => return Err(Halt::Lines(fault)),
        };
        let cut = self.seat.book.entries();
        match self.answer(rt, alloc, line) {
            Ok(()) => {}
            Err(stop) => return Err(Halt::Member(stop)),
        }
        match lines.show(&self.seat.book, cut) {
            Ok(()) => Ok(true),
            Err(fault) => Err(Halt::Lines(fault)),
        }
    }

    /// Serves lines until they are over.
    fn serve<R: Wait, I: Lines>(&mut self, rt: &R, alloc: Global, lines: &mut I) -> Result<(), Halt>
        requires ready { IsReady self.old.seat.node.tables }
        requires next { MayGoOn self.old.settles self.old.waves self.old.phase }
        requires leads { Leads A.act_of self.old.others self.old.settles self.old.phase self.old.seat.node.tables self.old.seat.book.entries (L.trace self.old.seat.link) self.old.waves }
        ensures leads { OnOk result (Leads A.act_of self.new.others self.new.settles self.new.phase self.new.seat.node.tables self.new.seat.book.entries (L.trace self.new.seat.link) self.new.waves) }
        ensures next { OnOk result (MayGoOn self.new.settles self.new.waves self.new.phase) }
        ensures over { (first : _) → Serves (rules_of A.act_of self.old.seat.node.tables.localities self.old.seat.node.tables.profile) self.old.seat.book.entries (Only (I.went first lines.old)) Asking →
            OnOk result (IsOver (rules_of A.act_of self.new.seat.node.tables.localities self.new.seat.node.tables.profile) self.new.seat.book.entries (I.went first lines.new)) }
        ensures broken { (first : _) → Serves (rules_of A.act_of self.old.seat.node.tables.localities self.old.seat.node.tables.profile) self.old.seat.book.entries (Only (I.went first lines.old)) Asking →
            IfErr result (λ halt. (stage : Stage) × Serves (rules_of A.act_of self.new.seat.node.tables.localities self.new.seat.node.tables.profile) self.new.seat.book.entries (Saying (I.went first lines.new) (I.broke first lines.new) halt) stage
            × IsDueAt halt stage self.new.seat.node.tables (L.latest self.new.seat.link)) }
        ensures left { IfErr result (λ halt. HaltsLeft A.act_of self.new.settles halt self.new.seat.node.tables self.new.seat.book.entries (L.trace self.new.seat.link)) }
        ensures same { (self.new.others ≡ self.old.others) × (self.new.settles ≡ self.old.settles) }
        ensures site { IsSameSite self.old.seat.node.tables self.new.seat.node.tables }
        ensures calm { OnOk result ((L.faults self.new.seat.link ≡ L.faults self.old.seat.link) × (I.reads lines.new ≡ I.reads lines.old) × (I.writes lines.new ≡ I.writes lines.old)) }
        ensures stops { IfErr result (IsHaltCause self.new.seat.node.tables self.new.seat.book.entries (L.latest self.new.seat.link) (I.reads lines.old) (I.reads lines.new)
            (I.writes lines.old) (I.writes lines.new) (I.full lines.new) (L.faults self.old.seat.link) (L.faults self.new.seat.link)) }
    {
        for _ in rt.forever() {
            match self.serve_line(rt, alloc, lines) {
                Ok(true) => {}
                Ok(false) => return Ok(()),
                Err(halt) => return Err(halt),
            }
        }
        unreachable!()
    }

    /// The lines are over: the last round begins, and where it has ended, what was written is shown.
    #[tactic(auto, using(crate::proofs::Led::leads_closed))]
    fn close<R: Wait, I: Lines>(&mut self, rt: &R, alloc: Global, lines: &mut I) -> Result<(), Halt>
        requires next { MayGoOn self.old.settles self.old.waves self.old.phase }
        requires leads { Leads A.act_of self.old.others self.old.settles self.old.phase self.old.seat.node.tables self.old.seat.book.entries (L.trace self.old.seat.link) self.old.waves }
        ensures leads { OnOk result (Leads A.act_of self.new.others self.new.settles self.new.phase self.new.seat.node.tables self.new.seat.book.entries (L.trace self.new.seat.link) self.new.waves) }
        ensures ready { OnOk result (IsReady self.new.seat.node.tables) }
        ensures phase { OnOk result (self.new.phase ≡ LinesOver) }
        ensures ended { OnOk result (verdict_of self.new.waves ≡ Ended) }
        ensures serves { (first : _) → IsOver (rules_of A.act_of self.old.seat.node.tables.localities self.old.seat.node.tables.profile) self.old.seat.book.entries (I.went first lines.old) →
            OnOk result (Serves (rules_of A.act_of self.new.seat.node.tables.localities self.new.seat.node.tables.profile) self.new.seat.book.entries (Only (I.went first lines.new)) Done) }
        ensures broken { (first : _) → IsOver (rules_of A.act_of self.old.seat.node.tables.localities self.old.seat.node.tables.profile) self.old.seat.book.entries (I.went first lines.old) →
            IfErr result (λ halt. (stage : Stage) × Serves (rules_of A.act_of self.new.seat.node.tables.localities self.new.seat.node.tables.profile) self.new.seat.book.entries (Saying (I.went first lines.new) (I.broke first lines.new) halt) stage
            × IsDueAt halt stage self.new.seat.node.tables (L.latest self.new.seat.link)) }
        ensures left { IfErr result (λ halt. HaltsLeft A.act_of self.new.settles halt self.new.seat.node.tables self.new.seat.book.entries (L.trace self.new.seat.link)) }
        ensures same { (self.new.others ≡ self.old.others) × (self.new.settles ≡ self.old.settles) }
        ensures site { IsSameSite self.old.seat.node.tables self.new.seat.node.tables }
        ensures calm { OnOk result ((L.faults self.new.seat.link ≡ L.faults self.old.seat.link) × (I.reads lines.new ≡ I.reads lines.old) × (I.writes lines.new ≡ I.writes lines.old)) }
        ensures stops { IfErr result (IsHaltCause self.new.seat.node.tables self.new.seat.book.entries (L.latest self.new.seat.link) (I.reads lines.old) (I.reads lines.new)
            (I.writes lines.old) (I.writes lines.new) (I.full lines.new) (L.faults self.old.seat.link) (L.faults self.new.seat.link)) }
    {
        let cut = self.seat.book.entries();
        self.phase = Phase::LinesOver;
        self.waves.restart();
        match self.round(rt, alloc) {
            Ok(()) => {}
            Err(stop) => return Err(Halt::Member(stop)),
        }
        match lines.show(&self.seat.book, cut) {
            Ok(()) => Ok(()),
            Err(fault) => Err(Halt::Lines(fault)),
        }
    }

    /// Tells the others to end.
    fn end(&mut self) -> Result<(), Stop>
        requires closed { self.old.phase ≡ LinesOver }
        requires ended { verdict_of self.old.waves ≡ Ended }
        requires leads { Leads A.act_of self.old.others self.old.settles self.old.phase self.old.seat.node.tables self.old.seat.book.entries (L.trace self.old.seat.link) self.old.waves }
        ensures sits { OnOk result (Sits A.act_of self.new.seat.node.tables self.new.seat.book.entries [] (L.trace self.new.seat.link)) }
        ensures asks { OnOk result (AsksBut (rules_of A.act_of self.new.seat.node.tables.localities self.new.seat.node.tables.profile) self.new.settles self.new.seat.book.entries (L.trace self.new.seat.link) (Ending self.new.others)) }
        ensures node { self.new.seat.node ≡ self.old.seat.node }
        ensures book { self.new.seat.book ≡ self.old.seat.book }
        ensures left { IfErr result (λ stop. LeadsLeft A.act_of self.new.settles stop self.new.seat.node.tables self.new.seat.book.entries (L.trace self.new.seat.link)) }
        ensures same { (self.new.others ≡ self.old.others) × (self.new.settles ≡ self.old.settles) × (self.new.phase ≡ self.old.phase) }
        ensures calm { OnOk result (L.faults self.new.seat.link ≡ L.faults self.old.seat.link) }
        ensures stops { IfErr result (IsCauseBy IsNoFrame ⊥ self.new.seat.node.tables self.new.seat.book.entries (L.latest self.new.seat.link) (L.faults self.old.seat.link) (L.faults self.new.seat.link)) }
    {
        match self.seat.tell_all(self.others, END) {
            Ok(()) => Ok(()),
            Err(stop) => Err(stop),
        }
    }

    /// Serves lines until they are over, ends the last round, and tells the others to end.
    fn run<R: Wait, I: Lines>(&mut self, rt: &R, alloc: Global, lines: &mut I) -> Result<(), Halt>
        requires ready { IsReady self.old.seat.node.tables }
        requires next { MayGoOn self.old.settles self.old.waves self.old.phase }
        requires leads { Leads A.act_of self.old.others self.old.settles self.old.phase self.old.seat.node.tables self.old.seat.book.entries (L.trace self.old.seat.link) self.old.waves }
        ensures sits { OnOk result (Sits A.act_of self.new.seat.node.tables self.new.seat.book.entries [] (L.trace self.new.seat.link)) }
        ensures asks { OnOk result (AsksBut (rules_of A.act_of self.new.seat.node.tables.localities self.new.seat.node.tables.profile) self.new.settles self.new.seat.book.entries (L.trace self.new.seat.link) (Ending self.new.others)) }
        ensures ready { OnOk result (IsReady self.new.seat.node.tables) }
        ensures serves { (first : _) → Serves (rules_of A.act_of self.old.seat.node.tables.localities self.old.seat.node.tables.profile) self.old.seat.book.entries (Only (I.went first lines.old)) Asking →
            OnOk result (Serves (rules_of A.act_of self.new.seat.node.tables.localities self.new.seat.node.tables.profile) self.new.seat.book.entries (Only (I.went first lines.new)) Done) }
        ensures broken { (first : _) → Serves (rules_of A.act_of self.old.seat.node.tables.localities self.old.seat.node.tables.profile) self.old.seat.book.entries (Only (I.went first lines.old)) Asking →
            IfErr result (λ halt. (stage : Stage) × Serves (rules_of A.act_of self.new.seat.node.tables.localities self.new.seat.node.tables.profile) self.new.seat.book.entries (Saying (I.went first lines.new) (I.broke first lines.new) halt) stage
            × IsDueAt halt stage self.new.seat.node.tables (L.latest self.new.seat.link)) }
        ensures left { IfErr result (λ halt. HaltsLeft A.act_of self.new.settles halt self.new.seat.node.tables self.new.seat.book.entries (L.trace self.new.seat.link)) }
        ensures same { (self.new.others ≡ self.old.others) × (self.new.settles ≡ self.old.settles) }
        ensures site { IsSameSite self.old.seat.node.tables self.new.seat.node.tables }
        ensures calm { OnOk result ((L.faults self.new.seat.link ≡ L.faults self.old.seat.link) × (I.reads lines.new ≡ I.reads lines.old) × (I.writes lines.new ≡ I.writes lines.old)) }
        ensures stops { IfErr result (IsHaltCause self.new.seat.node.tables self.new.seat.book.entries (L.latest self.new.seat.link) (I.reads lines.old) (I.reads lines.new)
            (I.writes lines.old) (I.writes lines.new) (I.full lines.new) (L.faults self.old.seat.link) (L.faults self.new.seat.link)) }
    {
        match self.serve(rt, alloc, lines) {
            Ok(()) => {}
            Err(halt) => return Err(halt),
        }
        match self.close(rt, alloc, lines) {
            Ok(()) => {}
            Err(halt) => return Err(halt),
        }
        match self.end() {
            Ok(()) => Ok(()),
            Err(stop) => Err(Halt::Member(stop)),
        }
    }
}

/// Locality 0 as a member over a link: it is fed lines, one after another, each once nothing is to be done here and no answer is awaited, and
/// what its journal has behind each is shown. Once they are over it asks the others, wave after wave, how many frames they have sent and
/// accepted; where all that was sent by a wave had been accepted by the one before, it tells them to end. With `settles` such a round
/// ends before each line but the first, too.
///
/// Status 0 where all this was done, 2 where no line was read, 3 where something was not written, 4 at a fault of the link, 5 where a turn is due and the
/// journal has no room, 6 without memory, 7 at a bad frame, 8 at a strange parcel, at a word that no wave waits for, or where 2^32 - 1 waves of one round
/// have not ended it, 9 where no more lines are read.
pub fn console<R: Wait, A: Acts + Copy, L: Link + Drop, I: Lines>(
    rt: &R,
    alloc: Global,
    acts: A,
    profile: Profile,
    settles: bool,
    link: L,
    lines: &mut I,
) -> MemberEnd<A, L>
    requires some { 0 < A.count acts }
    requires few { A.count acts ≤ 64 }
    requires profile { IsValid profile }
    requires empty { (tr : List Post) → L.trace link ≡ Some tr → tr ≡ [] }
    requires first { I.went lines.old lines.old [] }
    ensures journal { IsPart (rules_of A.act_of (A.count acts) profile) 0 result.journal.entries }
    ensures node { IfSome result.node (λ n. IsNodeAt A.act_of 0 (A.count acts) profile n.tables result.journal.entries) }
    ensures tells { (tr : List Post) → L.trace result.link ≡ Some tr → Tells (rules_of A.act_of (A.count acts) profile) 0 result.status result.journal.entries tr }
    ensures asked { HasAsked (rules_of A.act_of (A.count acts) profile) settles result.status result.fault result.journal.entries (L.trace result.link) }
    ensures served { HasServed (rules_of A.act_of (A.count acts) profile) result.status result.journal.entries (I.went lines.old lines.new) (I.broke lines.old lines.new) }
    ensures rest { result.status ≡ 0 → IsIdleBehind (rules_of A.act_of (A.count acts) profile) result.journal.entries }
    ensures lines { HasLineCause result.status (I.reads lines.old) (I.reads lines.new) (I.writes lines.old) (I.writes lines.new) (I.full lines.new) }
    ensures ends { IsConsolesStatus result.status }
    ensures failed { result.status ≡ 4 → Rose (L.faults link) (L.faults result.link) }
    ensures calm { result.status ≢ 4 → L.faults result.link ≡ L.faults link }
    ensures full { result.status ≡ 5 → HasRoom result.journal.entries → ⊥ }
    ensures due { result.status ≡ 5 → HasLineToFeed (rules_of A.act_of (A.count acts) profile) result.journal.entries (I.went lines.old lines.new)
        ⊎ IfSome result.node (λ n. IsTurnDue n.tables (L.latest result.link)) }
    ensures fault { IfSome result.fault (λ fault. (result.status ≡ status_of_fault fault) × IfSome result.node (λ n. IsFaultBy IsNoFrame n.tables (L.latest result.link) fault)) }
    ensures faultless { result.fault ≡ None → (result.status ≢ 7) × (result.status ≢ 8) }
    ensures unbooted { result.node ≡ None → (result.status ≡ 6) × (result.journal.entries ≡ []) × (result.link ≡ link) }
{
    let members = acts.localities();
    let waves = match Waves::new(alloc, members) {
        Ok(waves) => waves,
        Err(OutOfMemory) => return unbooted(alloc, link),
    };
    let node = match Node::boot(alloc, acts, 0, profile) {
        Ok(node) => node,
        Err(OutOfMemory) => return unbooted(alloc, link),
    };
    let seat = Seat {
        acts,
        node,
        book: Journal::new(alloc),
        link,
    };
    let mut console = ConsoleSeat {
        seat,
        waves,
        others: members - 1,
        settles,
        phase: Phase::Unfed,
    };
    let ran = console.run(rt, alloc, lines);
    let ConsoleSeat {
        seat,
        waves: _,
        others: _,
        settles: _,
        phase: _,
    } = console;
    halted(ran, seat)
}
