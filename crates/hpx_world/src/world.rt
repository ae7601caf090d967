//! The world: all localities over a fabric, with what is promised of the journal that they write.
ghost use Rattle.std.specs.Prelude.{◌≡◌, ◌≢◌, ◌≤◌, ◌<◌, ◌+◌, ◌-◌, ◌^◌, ◌∷◌, [], ℕ, length, min, OnOk, OnErr, IfOk, IfErr, IsTrue, ◌↔◌, ◌⊎◌, true, false, Ok, Err, Some, None, sum_by, slice_get};
ghost use Rattle.std.specs.List.{AllByRecursion};
ghost use Rattle.hpx_value.specs.Profiles.{IsValid};
ghost use Rattle.hpx_journal.specs.Weights.{HasRoom, total_weight};
ghost use Rattle.hpx_journal.specs.Whole.{IsCarried, part, replayed};
ghost use Rattle.hpx_steps.specs.Rest.{IsPaid, StandsAtRest};
ghost use Rattle.hpx_steps.specs.Limits.{IsWithin, AddsATurn};
ghost use Rattle.hpx_ports.specs.Faults.{Rose};
ghost use Rattle.hpx_world.specs.Places.{rules_in};
ghost use Rattle.hpx_world.specs.Sound.{IsSound, IsSame};
ghost use Rattle.hpx_world.specs.Away.{IsCarrying, Fetches, Puts, Keeps};
ghost use Rattle.hpx_world.specs.Heard.{HearsTurn, KeepsLatest};
ghost use Rattle.hpx_world.specs.Quiet.{IsQuiet, IsAtRest, NoneRuns, running_in};
ghost use Rattle.hpx_world.specs.Promises.{KeepsPromises};
ghost use Rattle.hpx_world.specs.Audit.{audit_lines, HaveRecords, AreOrdered, StandWhereTold, IsAudit};
ghost use Rattle.hpx_world.specs.Stages.{stage};
ghost use Rattle.hpx_world.specs.Steps.{IsUnfed};
ghost use Rattle.hpx_world.specs.Refusals.{IsAsked, Did, Refused, IsApart, FeedsNoLine, CountsFaults, CanCome, RunsNothing, undone_of};

use crate::audit::AuditLines;
use crate::locals::Locals;
use crate::turns::{Choice, Turned, WorldFault};
use hpx_journal::journal::Journal;
use hpx_ports::fabric::Fabric;
use hpx_value::acts::Acts;
use hpx_value::items::Bytes;
use hpx_value::memory::OutOfMemory;
use hpx_value::profile::Profile;
use std::alloc::Global;
use std::marker::Model;

/// All localities.
#[derive(Drop)]
pub struct World<A: Acts + Copy> {
    acts: A,
    locals: Locals<A>,
}

impl<A: Acts + Copy> Model for World<A> {
    ghost use Rattle.std.specs.Prelude.{◌≡◌, length};
    ghost use Rattle.hpx_value.specs.Profiles.{IsValid};
    ghost use Rattle.hpx_node.specs.Locality.{tables_of};
    ghost use Rattle.hpx_world.specs.Places.{Places};
    ghost use Rattle.hpx_world.specs.Sound.{IsSound};

    ghost Value = { Places };

    ghost view = { λ w. record { profile = w.locals.profile; nodes = tables_of w.locals.nodes.items; journal = w.locals.journal; hand = w.locals.hand } };

    ghost invariant = { λ w. (A.count w.acts ≡ length (tables_of w.locals.nodes.items))
        × IsSound A.act_of w.locals.profile (tables_of w.locals.nodes.items) w.locals.journal.entries
        × IsValid w.locals.profile };
}

impl<A: Acts + Copy> World<A> {
    /// All localities at boot: the roots stand, and the journal is empty.
    pub fn boot(alloc: Global, acts: A, profile: Profile) -> Result<World<A>, OutOfMemory>
        requires some { 1 ≤ A.count acts }
        requires few { A.count acts ≤ 64 }
        requires profile { IsValid profile }
        ensures count { IfOk result (λ w. length w.nodes ≡ A.count acts) }
        ensures profile { IfOk result (λ w. w.profile ≡ profile) }
        ensures empty { IfOk result (λ w. w.journal.entries ≡ []) }
        ensures hand { IfOk result (λ w. w.hand ≡ None) }
        ensures jobs { IfOk result (λ w. NoneRuns w.nodes) }
        ensures quiet { IfOk result (λ w. IsQuiet w.nodes w.hand) }
    {
        Ok(World {
            acts,
            locals: Locals::boot(alloc, acts, profile)?,
        })
    }

    /// What actions do here.
    pub fn acts(&self) -> &A
        ensures { A.count result.now ≡ length self.now.nodes }
    {
        &self.acts
    }

    /// The journal. Where each frame that was accepted had been sent, it keeps all that is promised.
    pub fn journal(&self) -> &Journal
        ensures journal { result.now ≡ self.now.journal }
        ensures promises { let r = rules_in A.act_of self.now in IsCarried r [] self.now.journal.entries → KeepsPromises r self.now.journal.entries }
    {
        &self.locals.journal
    }

    /// The frame that was delivered and not accepted, whole.
    pub fn in_hand(&self) -> Option<&(u32, Bytes)>
        ensures none { result ≡ None → self.now.hand ≡ None }
        ensures some { (frame : _) → result ≡ Some frame → self.now.hand ≡ Some frame.now }
    {
        self.locals.hand.as_ref()
    }

    /// Whether nothing is to be done anywhere: then nothing is under way, and at each locality as many credits are held as names.
    pub fn quiet(&self) -> bool
        ensures is { IsTrue result ↔ IsQuiet self.now.nodes self.now.hand }
        ensures rest { let r = rules_in A.act_of self.now in
            IsCarried r [] self.now.journal.entries → result ≡ true → IsAtRest r (replayed r self.now.journal.entries) }
    {
        self.locals.quiet()
    }

    /// A line for each object of which credit is out, by home, and then by number.
    pub fn audit(&self, alloc: Global) -> Result<AuditLines, OutOfMemory>
        ensures lines { IfOk result (λ lines. lines ≡ audit_lines self.now.nodes) }
        ensures records { OnOk result (HaveRecords self.now.nodes) }
        ensures ordered { IfOk result (λ lines. AreOrdered lines) }
        ensures tells { let r = rules_in A.act_of self.now in
            IsCarried r [] self.now.journal.entries → IfOk result (λ lines. IsAudit r self.now.journal.entries lines) }
        ensures stand { let r = rules_in A.act_of self.now in IsCarried r [] self.now.journal.entries →
            IsQuiet self.now.nodes self.now.hand → IfOk result (λ lines. StandWhereTold r self.now.journal.entries lines) }
    {
        self.locals.audit(alloc)
    }

    /// What always holds: the contract is the law. The journal is within its limits, and at each locality nothing is idle: what
    /// goes was caused, and actions go through messages no more often than they came or were sent; all that `idle_law` of hpx_node
    /// says holds of each (`stands`). Where each frame that was accepted had been sent, the journal keeps all that is promised,
    /// where nothing is to be done nothing is under way, and the lines of an audit tell what the journal leads to.
    pub fn law(&self)
        ensures promises { let r = rules_in A.act_of self.now in IsCarried r [] self.now.journal.entries → KeepsPromises r self.now.journal.entries }
        ensures rest { let r = rules_in A.act_of self.now in
            IsCarried r [] self.now.journal.entries → IsQuiet self.now.nodes self.now.hand → IsAtRest r (replayed r self.now.journal.entries) }
        ensures within { IsWithin self.now.journal.entries }
        ensures paid { (k : ℕ) (t : _) → slice_get self.now.nodes k ≡ Some t → IsPaid (rules_in A.act_of self.now) t (part k self.now.journal.entries) }
        ensures stands { (k : ℕ) (t : _) → slice_get self.now.nodes k ≡ Some t → StandsAtRest (rules_in A.act_of self.now) t self.now.journal.entries }
        ensures records { HaveRecords self.now.nodes }
        ensures ordered { AreOrdered (audit_lines self.now.nodes) }
        ensures audit { let r = rules_in A.act_of self.now in
            IsCarried r [] self.now.journal.entries → IsAudit r self.now.journal.entries (audit_lines self.now.nodes) }
        ensures stand { let r = rules_in A.act_of self.now in IsCarried r [] self.now.journal.entries →
            IsQuiet self.now.nodes self.now.hand → StandWhereTold r self.now.journal.entries (audit_lines self.now.nodes) }
        ensures sound { IsSound A.act_of self.now.profile self.now.nodes self.now.journal.entries }
    {
        self.locals.records_law();
    }

    /// What always holds of the nodes, by the type.
    pub(crate) fn standing(&self)
        ensures { IsSound A.act_of self.now.profile self.now.nodes self.now.journal.entries }
    {
        let _acts = &self.acts;
    }

    /// Whether no job is out anywhere.
    pub fn none_runs(&self) -> bool
        ensures { IsTrue result ↔ NoneRuns self.now.nodes }
    {
        self.locals.none_runs()
    }

    /// How many frames were sent, and how many accepted, in all.
    pub(crate) fn frames(&self) -> (u128, u128)
        ensures sent { result.0 ≡ sum_by (λ t. t.sent) self.now.nodes }
        ensures taken { result.1 ≡ sum_by (λ t. t.taken) self.now.nodes }
    {
        self.locals.frames()
    }

    /// Why the journal is full, with a job that was to be committed.
    fn full(&self, choice: Choice<A>) -> WorldFault<A>
        ensures { result ≡ WorldFault.JournalFull (length self.now.journal.entries) (min (2 ^ 64 - 1) (total_weight self.now.journal.entries)) (undone_of choice) }
    {
        let undone = match choice {
            Choice::Finish(done) => Some(done),
            Choice::Feed(_) => None,
            Choice::Fire(_) => None,
            Choice::Desk(_) => None,
            Choice::Pump(_) => None,
            Choice::Take => None,
        };
        self.locals.full(undone)
    }

    /// One turn. At a refusal nothing has changed, save that a frame that was delivered stays in hand.
    #[tactic(auto, using(hpx_node::proofs::Turns::adds_none))]
    pub fn turn<F: Fabric>(
        &mut self,
        alloc: Global,
        choice: Choice<A>,
        fabric: &mut F,
    ) -> Result<Turned, WorldFault<A>>
        requires asked { IsAsked (length self.old.nodes) choice }
        ensures count { length self.new.nodes ≡ length self.old.nodes }
        ensures profile { self.new.profile ≡ self.old.profile }
        ensures did { IfOk result (λ turned. HasRoom self.old.journal.entries
            × Did choice turned (stage self.old (F.flight fabric.old) (F.trace fabric.old)) (stage self.new (F.flight fabric.new) (F.trace fabric.new))) }
        ensures stops { IfErr result (λ fault. Refused choice fault (stage self.old (F.flight fabric.old) (F.trace fabric.old)) (stage self.new (F.flight fabric.new) (F.trace fabric.new))) }
        ensures apart { IsApart choice result (stage self.old (F.flight fabric.old) (F.trace fabric.old)) → fabric.new ≡ fabric.old }
        ensures faults { CountsFaults result (F.faults fabric.old) (F.faults fabric.new) }
        ensures hears { KeepsLatest self.old.hand (F.latest fabric.old) self.new.hand (F.latest fabric.new) }
        ensures finds { HearsTurn choice result (F.latest fabric.new) }
        ensures turn { AddsATurn self.old.journal.entries self.new.journal.entries }
        ensures unfed { FeedsNoLine choice → IsUnfed self.old.journal.entries self.new.journal.entries }
        ensures jobs { RunsNothing choice → running_in self.new.nodes ≡ running_in self.old.nodes }
        ensures carrying { let r = rules_in A.act_of self.old in
            IsCarrying r self.old.hand (F.flight fabric.old) (F.trace fabric.old) self.old.journal.entries
            → IsCarrying r self.new.hand (F.flight fabric.new) (F.trace fabric.new) self.new.journal.entries }
        ensures never { let r = rules_in A.act_of self.old in
            IsCarrying r self.old.hand (F.flight fabric.old) (F.trace fabric.old) self.old.journal.entries → IfErr result (CanCome r) }
    {
        if !self.journal().room() {
            return Err(self.full(choice));
        }
        match choice {
            Choice::Feed(line) => self.locals.feed(alloc, line),
            Choice::Fire(k) => self.locals.fire(alloc, k as usize),
            Choice::Finish(done) => self.locals.finish(alloc, done.job().at as usize, done),
            Choice::Desk(k) => self.locals.desk(alloc, k as usize),
            Choice::Pump(k) => self.locals.pump(alloc, k as usize, fabric),
            Choice::Take => self.locals.take(alloc, fabric),
        }
    }
}
