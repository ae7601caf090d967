//! All localities, and each turn of them.
ghost use Rattle.std.specs.Prelude.{◌≡◌, ◌≢◌, ◌≤◌, ◌<◌, ◌+◌, ◌-◌, ◌^◌, ◌∷◌, ◌⊎◌, [], ℕ, length, OnOk, OnErr, IfOk, IfErr, IfSome, IfNone, IsTrue, ◌↔◌, true, false, Ok, Err, Some, None, sum_by, min, slice_get};
ghost use Rattle.std.specs.List.{AllByRecursion};
ghost use Rattle.hpx_value.specs.Profiles.{IsValid};
ghost use Rattle.hpx_journal.specs.Weights.{HasRoom, total_weight};
ghost use Rattle.hpx_node.specs.Handled.{Takes};
ghost use Rattle.hpx_steps.specs.Limits.{AddsATurn};
ghost use Rattle.hpx_tables.specs.Tables.{IsPassive};
ghost use Rattle.hpx_steps.specs.Rest.{rules_of};
ghost use Rattle.hpx_ports.specs.Faults.{Rose};
ghost use Rattle.hpx_node.specs.Locality.{tables_of};
ghost use Rattle.hpx_world.specs.Sound.{IsSound, IsSame, DoneAt};
ghost use Rattle.hpx_world.specs.Away.{IsCarrying, IsInside, Fetches, Puts, Keeps};
ghost use Rattle.hpx_world.specs.Heard.{HearsTurn, KeepsLatest};
ghost use Rattle.hpx_ports.specs.declared.link.Latest.{Latest};
ghost use Rattle.hpx_world.specs.declared.turns.Choice.{Choice};
ghost use Rattle.hpx_world.specs.Quiet.{IsQuiet, NoneRuns, running_in};
ghost use Rattle.hpx_world.specs.Turns.{DidFeed, DidFire, DidFinish, DidDesk, DidPump, DidTake, IsBadFrame, IsStrangeFrame, IsStrangeMail, HasToTend, HasToFire, HasToSend, HasJob, IsFarFault, IsRightFrame, HoldsBadFrame, HoldsStrangeFrame, HoldsRightFrame};

use crate::turns::{Turned, WorldFault};
use hpx_journal::journal::Journal;
use hpx_node::node::Node;
use hpx_node::parts::{DeskFault, FinishFault, TakeFault};
use hpx_parcel::outline::outline_of;
use hpx_parcel::write::encode;
use hpx_ports::fabric::Fabric;
use hpx_ports::fault::FabricFault;
use hpx_value::acts::{Acts, Done};
use hpx_value::exact::Exact;
use hpx_value::items::{Bytes, Text};
use hpx_value::memory::OutOfMemory;
use hpx_value::profile::Profile;
use std::alloc::Global;

/// All localities, the one journal, and a frame that was delivered and not yet accepted.
#[derive(Drop)]
pub struct Locals<A: Acts + Copy> {
    pub profile: Profile,
    pub nodes: Vec<Node<A>>,
    pub journal: Journal,
    pub hand: Option<(u32, Bytes)>,
}

/// Why a frame to none of n localities is refused.
fn far_fault(n: u32, frame: &Bytes) -> TakeFault
    ensures { IsFarFault n frame.now result }
{
    match outline_of(frame.as_slice()) {
        Ok(message) => TakeFault::Strange {
            rule: 9,
            object: message.id.bare(),
            kept: n as u128,
        },
        Err(fault) => TakeFault::BadFrame {
            at: fault.at,
            why: fault.why,
        },
    }
}

/// A node's refusal of a frame to it.
fn refusal<A: Acts>(to: u32, fault: TakeFault) -> WorldFault<A>
    ensures bad { (at : _) (why : _) → fault ≡ TakeFault.BadFrame at why → result ≡ WorldFault.BadFrame to at why }
    ensures strange { (rule : _) (object : _) (kept : _) → fault ≡ TakeFault.Strange rule object kept → result ≡ WorldFault.Strange to rule object kept }
    ensures memory { fault ≡ TakeFault.OutOfMemory → result ≡ WorldFault.OutOfMemory None }
{
    match fault {
        TakeFault::BadFrame { at, why } => WorldFault::BadFrame { to, at, why },
        TakeFault::Strange { rule, object, kept } => WorldFault::Strange {
            to,
            rule,
            object,
            kept,
        },
        TakeFault::OutOfMemory => WorldFault::OutOfMemory { undone: None },
    }
}

/// A node's refusal of a message to itself.
fn mail_refusal<A: Acts>(at: u32, fault: DeskFault) -> WorldFault<A>
    ensures strange { (rule : _) (object : _) (kept : _) → fault ≡ DeskFault.Strange rule object kept → result ≡ WorldFault.Strange at rule object kept }
    ensures memory { fault ≡ DeskFault.OutOfMemory → result ≡ WorldFault.OutOfMemory None }
{
    match fault {
        DeskFault::Strange { rule, object, kept } => WorldFault::Strange {
            to: at,
            rule,
            object,
            kept,
        },
        DeskFault::OutOfMemory => WorldFault::OutOfMemory { undone: None },
    }
}

impl<A: Acts + Copy> Locals<A> {
    /// Why the journal is full.
    pub fn full(&self, undone: Option<Done<A>>) -> WorldFault<A>
        ensures { result ≡ WorldFault.JournalFull (length self.now.journal.entries) (min (2 ^ 64 - 1) (total_weight self.now.journal.entries)) undone }
    {
        WorldFault::JournalFull {
            entries: self.journal.entries(),
            weight: self.journal.weight(),
            undone,
        }
    }

    /// All localities at boot.
    #[tactic(auto, using(crate::proofs::Booted::booted_none, crate::proofs::Booted::idle_none))]
    pub fn boot(alloc: Global, acts: A, profile: Profile) -> Result<Locals<A>, OutOfMemory>
        requires some { 1 ≤ A.count acts }
        requires few { A.count acts ≤ 64 }
        requires profile { IsValid profile }
        ensures sound { IfOk result (λ w. IsSound A.act_of w.profile (tables_of w.nodes.items) w.journal.entries) }
        ensures count { IfOk result (λ w. length (tables_of w.nodes.items) ≡ A.count acts) }
        ensures profile { IfOk result (λ w. w.profile ≡ profile) }
        ensures empty { IfOk result (λ w. w.journal.entries ≡ []) }
        ensures hand { IfOk result (λ w. w.hand ≡ None) }
        ensures jobs { IfOk result (λ w. NoneRuns (tables_of w.nodes.items)) }
        ensures quiet { IfOk result (λ w. IsQuiet (tables_of w.nodes.items) w.hand) }
    {
        let mut nodes = Vec::new(alloc);
        for k in 0..acts.localities() {
            nodes.push(Node::boot(alloc, acts, k, profile)?)?;
        }
        Ok(Locals {
            profile,
            nodes,
            journal: Journal::new(alloc),
            hand: None,
        })
    }

    /// How many frames were sent, and how many accepted, in all.
    pub(crate) fn frames(&self) -> (u128, u128)
        requires few { length (tables_of self.now.nodes.items) ≤ 64 }
        ensures sent { result.0 ≡ sum_by (λ t. t.sent) (tables_of self.now.nodes.items) }
        ensures taken { result.1 ≡ sum_by (λ t. t.taken) (tables_of self.now.nodes.items) }
    {
        let mut sent = 0;
        let mut taken = 0;
        for node in self.nodes.iter() {
            sent += node.sent() as u128;
            taken += node.taken() as u128;
        }
        (sent, taken)
    }

    /// Whether each node is passive.
    fn are_passive(&self) -> bool
        ensures { IsTrue result ↔ AllByRecursion IsPassive (tables_of self.now.nodes.items) }
    {
        for node in self.nodes.iter() {
            if !node.is_passive() {
                return false;
            }
        }
        true
    }

    /// Whether no job is out anywhere.
    #[tactic(auto, using(crate::proofs::Jobs::all_none, crate::proofs::Jobs::none_all))]
    pub(crate) fn none_runs(&self) -> bool
        ensures { IsTrue result ↔ NoneRuns (tables_of self.now.nodes.items) }
    {
        for node in self.nodes.iter() {
            if node.runs() {
                return false;
            }
        }
        true
    }

    /// Whether nothing is to be done anywhere: each node is passive, and each frame that was sent was accepted.
    pub fn quiet(&self) -> bool
        requires few { length (tables_of self.now.nodes.items) ≤ 64 }
        ensures { IsTrue result ↔ IsQuiet (tables_of self.now.nodes.items) self.now.hand }
    {
        let (sent, taken) = self.frames();
        sent == taken && self.hand.is_none() && self.are_passive()
    }

    /// Locality 0 accepts a line.
    pub fn feed(&mut self, alloc: Global, line: Text) -> Result<Turned, WorldFault<A>>
        requires short { length line ≤ 1025 }
        requires room { HasRoom self.old.journal.entries }
        requires sound { IsSound A.act_of self.old.profile (tables_of self.old.nodes.items) self.old.journal.entries }
        ensures sound { IsSound A.act_of self.new.profile (tables_of self.new.nodes.items) self.new.journal.entries }
        ensures count { length (tables_of self.new.nodes.items) ≡ length (tables_of self.old.nodes.items) }
        ensures profile { self.new.profile ≡ self.old.profile }
        ensures turn { AddsATurn self.old.journal.entries self.new.journal.entries }
        ensures inside { IsInside (rules_of A.act_of (length (tables_of self.old.nodes.items)) self.old.profile) self.old.journal.entries self.new.journal.entries }
        ensures hand { self.new.hand ≡ self.old.hand }
        ensures did { IfOk result (λ turned. DidFeed line turned (tables_of self.old.nodes.items) (tables_of self.new.nodes.items) self.old.journal.entries self.new.journal.entries) }
        ensures jobs { running_in (tables_of self.new.nodes.items) ≡ running_in (tables_of self.old.nodes.items) }
        ensures err { OnErr result (IsSame (tables_of self.old.nodes.items) (tables_of self.new.nodes.items) self.old.journal.entries self.new.journal.entries) }
        ensures memory { IfErr result (λ e. e ≡ WorldFault.OutOfMemory None) }
    {
        match self.nodes[0].feed(alloc, &mut self.journal, line) {
            Ok(()) => Ok(Turned::Fed),
            Err(OutOfMemory) => Err(WorldFault::OutOfMemory { undone: None }),
        }
    }

    /// The locality k fires its first action that can be.
    pub fn fire(&mut self, alloc: Global, k: usize) -> Result<Turned, WorldFault<A>>
        requires range { k < length (tables_of self.old.nodes.items) }
        requires room { HasRoom self.old.journal.entries }
        requires sound { IsSound A.act_of self.old.profile (tables_of self.old.nodes.items) self.old.journal.entries }
        ensures sound { IsSound A.act_of self.new.profile (tables_of self.new.nodes.items) self.new.journal.entries }
        ensures count { length (tables_of self.new.nodes.items) ≡ length (tables_of self.old.nodes.items) }
        ensures profile { self.new.profile ≡ self.old.profile }
        ensures turn { AddsATurn self.old.journal.entries self.new.journal.entries }
        ensures inside { IsInside (rules_of A.act_of (length (tables_of self.old.nodes.items)) self.old.profile) self.old.journal.entries self.new.journal.entries }
        ensures hand { self.new.hand ≡ self.old.hand }
        ensures did { IfOk result (λ turned. DidFire k turned (tables_of self.old.nodes.items) (tables_of self.new.nodes.items) self.old.journal.entries self.new.journal.entries) }
        ensures err { OnErr result (IsSame (tables_of self.old.nodes.items) (tables_of self.new.nodes.items) self.old.journal.entries self.new.journal.entries) }
        ensures memory { IfErr result (λ e. e ≡ WorldFault.OutOfMemory None) }
        ensures waits { OnErr result (HasToFire (tables_of self.old.nodes.items) k) }
    {
        match self.nodes[k].fire(alloc, &mut self.journal) {
            Ok(Some(job)) => Ok(Turned::Fired(job)),
            Ok(None) => Ok(Turned::Idle),
            Err(OutOfMemory) => Err(WorldFault::OutOfMemory { undone: None }),
        }
    }

    /// A job that is done is committed at its locality k, or waits there for credit.
    pub fn finish(
        &mut self,
        alloc: Global,
        k: usize,
        done: Done<A>,
    ) -> Result<Turned, WorldFault<A>>
        requires range { k < length (tables_of self.old.nodes.items) }
        requires own { done.job.at ≡ k }
        requires room { HasRoom self.old.journal.entries }
        requires sound { IsSound A.act_of self.old.profile (tables_of self.old.nodes.items) self.old.journal.entries }
        ensures sound { IsSound A.act_of self.new.profile (tables_of self.new.nodes.items) self.new.journal.entries }
        ensures count { length (tables_of self.new.nodes.items) ≡ length (tables_of self.old.nodes.items) }
        ensures profile { self.new.profile ≡ self.old.profile }
        ensures turn { AddsATurn self.old.journal.entries self.new.journal.entries }
        ensures inside { IsInside (rules_of A.act_of (length (tables_of self.old.nodes.items)) self.old.profile) self.old.journal.entries self.new.journal.entries }
        ensures hand { self.new.hand ≡ self.old.hand }
        ensures did { IfOk result (λ turned. DidFinish done.localities done.job done.outcome turned (tables_of self.old.nodes.items) (tables_of self.new.nodes.items) self.old.journal.entries self.new.journal.entries) }
        ensures err { OnErr result (IsSame (tables_of self.old.nodes.items) (tables_of self.new.nodes.items) self.old.journal.entries self.new.journal.entries) }
        ensures memory { IfErr result (λ e. e ≡ WorldFault.OutOfMemory (Some done)) }
        ensures runs { OnErr result (HasJob (tables_of self.old.nodes.items) done.localities done.job) }
    {
        match self.nodes[k].finish(alloc, &mut self.journal, done) {
            Ok(finished) => Ok(Turned::Finished(finished)),
            Err(FinishFault { undone }) => Err(WorldFault::OutOfMemory {
                undone: Some(undone),
            }),
        }
    }

    /// The locality k tends to its own: an object leaves, or the oldest message to itself is dealt with.
    pub fn desk(&mut self, alloc: Global, k: usize) -> Result<Turned, WorldFault<A>>
        requires range { k < length (tables_of self.old.nodes.items) }
        requires room { HasRoom self.old.journal.entries }
        requires sound { IsSound A.act_of self.old.profile (tables_of self.old.nodes.items) self.old.journal.entries }
        ensures sound { IsSound A.act_of self.new.profile (tables_of self.new.nodes.items) self.new.journal.entries }
        ensures count { length (tables_of self.new.nodes.items) ≡ length (tables_of self.old.nodes.items) }
        ensures profile { self.new.profile ≡ self.old.profile }
        ensures turn { AddsATurn self.old.journal.entries self.new.journal.entries }
        ensures inside { IsInside (rules_of A.act_of (length (tables_of self.old.nodes.items)) self.old.profile) self.old.journal.entries self.new.journal.entries }
        ensures hand { self.new.hand ≡ self.old.hand }
        ensures did { IfOk result (λ turned. DidDesk k turned (tables_of self.old.nodes.items) (tables_of self.new.nodes.items) self.old.journal.entries self.new.journal.entries) }
        ensures jobs { running_in (tables_of self.new.nodes.items) ≡ running_in (tables_of self.old.nodes.items) }
        ensures err { OnErr result (IsSame (tables_of self.old.nodes.items) (tables_of self.new.nodes.items) self.old.journal.entries self.new.journal.entries) }
        ensures strange { (to : _) (rule : _) (object : _) (kept : _) → result ≡ Err (WorldFault.Strange to rule object kept) →
            (to ≡ k) × IsStrangeMail (tables_of self.old.nodes.items) k rule object kept }
        ensures right { (u : _) → result ≡ Err (WorldFault.OutOfMemory u) → HasToTend (tables_of self.old.nodes.items) k }
        ensures which { IfErr result (λ e. (e ≡ WorldFault.OutOfMemory None)
            ⊎ ((rule : _) × (object : _) × (kept : _) × (e ≡ WorldFault.Strange k rule object kept))) }
    {
        match self.nodes[k].desk(alloc, &mut self.journal) {
            Ok(true) => Ok(Turned::Moved),
            Ok(false) => Ok(Turned::Empty),
            Err(fault) => Err(mail_refusal(k as u32, fault)),
        }
    }

    /// The oldest message of locality k to another is spelled and sent.
    #[tactic(auto, using(hpx_node::proofs::Turns::adds_none, hpx_node::proofs::Turns::turn_from))]
    pub fn pump<F: Fabric>(
        &mut self,
        alloc: Global,
        k: usize,
        fabric: &mut F,
    ) -> Result<Turned, WorldFault<A>>
        requires range { k < length (tables_of self.old.nodes.items) }
        requires room { HasRoom self.old.journal.entries }
        requires sound { IsSound A.act_of self.old.profile (tables_of self.old.nodes.items) self.old.journal.entries }
        ensures sound { IsSound A.act_of self.new.profile (tables_of self.new.nodes.items) self.new.journal.entries }
        ensures count { length (tables_of self.new.nodes.items) ≡ length (tables_of self.old.nodes.items) }
        ensures profile { self.new.profile ≡ self.old.profile }
        ensures turn { AddsATurn self.old.journal.entries self.new.journal.entries }
        ensures carrying { let r = rules_of A.act_of (length (tables_of self.old.nodes.items)) self.old.profile in
            IsCarrying r self.old.hand (F.flight fabric.old) (F.trace fabric.old) self.old.journal.entries
            → IsCarrying r self.new.hand (F.flight fabric.new) (F.trace fabric.new) self.new.journal.entries }
        ensures hand { self.new.hand ≡ self.old.hand }
        ensures did { IfOk result (λ turned. DidPump (Puts k (F.flight fabric.old) (F.flight fabric.new) (F.trace fabric.old) (F.trace fabric.new)) k turned (tables_of self.old.nodes.items) (tables_of self.new.nodes.items) self.old.journal.entries self.new.journal.entries) }
        ensures jobs { running_in (tables_of self.new.nodes.items) ≡ running_in (tables_of self.old.nodes.items) }
        ensures err { OnErr result (IsSame (tables_of self.old.nodes.items) (tables_of self.new.nodes.items) self.old.journal.entries self.new.journal.entries) }
        ensures kept_out { OnErr result ((F.flight fabric.new ≡ F.flight fabric.old) × (F.trace fabric.new ≡ F.trace fabric.old)) }
        ensures waits { OnErr result (HasToSend (tables_of self.old.nodes.items) k) }
        ensures which { IfErr result (λ e. (e ≡ WorldFault.Fabric) ⊎ (e ≡ WorldFault.OutOfMemory None)) }
        ensures apart_empty { result ≡ Ok Turned.Empty → fabric.new ≡ fabric.old }
        ensures hears { KeepsLatest self.old.hand (F.latest fabric.old) self.new.hand (F.latest fabric.new) }
        ensures cause { result ≡ Err WorldFault.Fabric → Rose (F.faults fabric.old) (F.faults fabric.new) }
        ensures stands { result ≢ Err WorldFault.Fabric → F.faults fabric.new ≡ F.faults fabric.old }
    {
        let node = &mut self.nodes[k];
        let (to, bytes) = match node.front() {
            Some((to, parcel)) => (to, encode(alloc, parcel)),
            None => return Ok(Turned::Empty),
        };
        let bytes = match bytes {
            Ok(bytes) => bytes,
            Err(OutOfMemory) => return Err(WorldFault::OutOfMemory { undone: None }),
        };
        if self.journal.reserve(1).is_err() {
            return Err(WorldFault::OutOfMemory { undone: None });
        }
        match fabric.send(k as u32, to, bytes.as_slice()) {
            Ok(()) => {}
            Err(FabricFault::Failed) => return Err(WorldFault::Fabric),
            Err(FabricFault::OutOfMemory) => return Err(WorldFault::OutOfMemory { undone: None }),
        }
        node.gone(&mut self.journal, to, bytes);
        Ok(Turned::Moved)
    }

    /// A frame is accepted where it goes, or refused there. A frame to no locality is refused as its parcel would be.
    #[tactic(auto, using(hpx_node::proofs::Turns::adds_none, hpx_node::proofs::Turns::turn_from))]
    fn accept(&mut self, alloc: Global, frame: &(u32, Bytes)) -> Result<(), WorldFault<A>>
        requires room { HasRoom self.old.journal.entries }
        requires sound { IsSound A.act_of self.old.profile (tables_of self.old.nodes.items) self.old.journal.entries }
        ensures sound { IsSound A.act_of self.new.profile (tables_of self.new.nodes.items) self.new.journal.entries }
        ensures count { length (tables_of self.new.nodes.items) ≡ length (tables_of self.old.nodes.items) }
        ensures profile { self.new.profile ≡ self.old.profile }
        ensures turn { AddsATurn self.old.journal.entries self.new.journal.entries }
        ensures hand { self.new.hand ≡ self.old.hand }
        ensures ok { OnOk result (DoneAt frame.now.0 (λ t t'. Takes frame.now.1 t t' self.old.journal.entries self.new.journal.entries) (tables_of self.old.nodes.items) (tables_of self.new.nodes.items)) }
        ensures jobs { running_in (tables_of self.new.nodes.items) ≡ running_in (tables_of self.old.nodes.items) }
        ensures err { OnErr result (IsSame (tables_of self.old.nodes.items) (tables_of self.new.nodes.items) self.old.journal.entries self.new.journal.entries) }
        ensures bad_frame { (to : _) (at : _) (why : _) → result ≡ Err (WorldFault.BadFrame to at why) → (to ≡ frame.now.0) × IsBadFrame frame.now.1 at why }
        ensures strange { (to : _) (rule : _) (object : _) (kept : _) → result ≡ Err (WorldFault.Strange to rule object kept) →
            (to ≡ frame.now.0) × IsStrangeFrame (tables_of self.old.nodes.items) to frame.now.1 rule object kept }
        ensures memory { (u : _) → result ≡ Err (WorldFault.OutOfMemory u) → IsRightFrame (tables_of self.old.nodes.items) frame.now }
        ensures which { (e : _) → result ≡ Err e → (e ≡ WorldFault.OutOfMemory None)
            ⊎ (((at : _) × (why : _) × (e ≡ WorldFault.BadFrame frame.now.0 at why))
            ⊎ ((rule : _) × (object : _) × (kept : _) × (e ≡ WorldFault.Strange frame.now.0 rule object kept))) }
    {
        let n = self.nodes.len();
        if frame.0 as usize >= n {
            return Err(refusal(frame.0, far_fault(n as u32, &frame.1)));
        }
        match self.nodes[frame.0 as usize].take(alloc, &mut self.journal, &frame.1) {
            Ok(()) => Ok(()),
            Err(fault) => Err(refusal(frame.0, fault)),
        }
    }

    /// Takes a frame into the hand, where none is.
    fn fill<F: Fabric>(&mut self, fabric: &mut F) -> Result<(), FabricFault>
        ensures same { self.new ≡ record self.old { hand = self.new.hand } }
        ensures ok { OnOk result (Fetches self.old.hand (F.flight fabric.old) (F.flight fabric.new) (F.trace fabric.old) (F.trace fabric.new) self.new.hand) }
        ensures err { OnErr result ((self.new.hand ≡ self.old.hand) × (F.flight fabric.new ≡ F.flight fabric.old) × (F.trace fabric.new ≡ F.trace fabric.old)) }
        ensures none { OnErr result (self.new.hand ≡ None) }
        ensures hears { KeepsLatest self.old.hand (F.latest fabric.old) self.new.hand (F.latest fabric.new) }
        ensures finds { OnOk result (self.new.hand ≡ None → F.latest fabric.new ≡ Latest.Nothing) }
        ensures memory { result ≡ Err FabricFault.OutOfMemory → F.flight fabric.new ≢ Some [] }
        ensures held { (frame : _) → self.old.hand ≡ Some frame → fabric.new ≡ fabric.old }
        ensures cause { result ≡ Err FabricFault.Failed → Rose (F.faults fabric.old) (F.faults fabric.new) }
        ensures stands { result ≢ Err FabricFault.Failed → F.faults fabric.new ≡ F.faults fabric.old }
    {
        if let None = self.hand {
            self.hand = fabric.deliver()?;
        }
        Ok(())
    }

    /// What it says that no frame is left: nothing to take, or an early end.
    fn ended(&self) -> Result<Turned, WorldFault<A>>
        requires few { length (tables_of self.now.nodes.items) ≤ 64 }
        requires room { HasRoom self.now.journal.entries }
        requires sound { IsSound A.act_of self.now.profile (tables_of self.now.nodes.items) self.now.journal.entries }
        ensures empty { IfOk result (λ turned. (turned ≡ Turned.Empty) × (sum_by (λ t. t.taken) (tables_of self.now.nodes.items) ≡ sum_by (λ t. t.sent) (tables_of self.now.nodes.items))) }
        ensures early { IfErr result (λ e. (e ≡ WorldFault.EarlyEnd (sum_by (λ t. t.sent) (tables_of self.now.nodes.items)) (sum_by (λ t. t.taken) (tables_of self.now.nodes.items)))
            × (sum_by (λ t. t.taken) (tables_of self.now.nodes.items) ≢ sum_by (λ t. t.sent) (tables_of self.now.nodes.items))) }
    {
        let (sent, taken) = self.frames();
        if sent == taken {
            return Ok(Turned::Empty);
        }
        Err(WorldFault::EarlyEnd {
            sent: sent as u64,
            taken: taken as u64,
        })
    }

    /// Accepts the frame in hand, or one that is delivered now. One that was delivered and not accepted stays in hand.
    #[tactic(auto, using(hpx_node::proofs::Turns::adds_none, hpx_node::proofs::Turns::turn_from))]
    pub fn take<F: Fabric>(
        &mut self,
        alloc: Global,
        fabric: &mut F,
    ) -> Result<Turned, WorldFault<A>>
        requires room { HasRoom self.old.journal.entries }
        requires sound { IsSound A.act_of self.old.profile (tables_of self.old.nodes.items) self.old.journal.entries }
        ensures sound { IsSound A.act_of self.new.profile (tables_of self.new.nodes.items) self.new.journal.entries }
        ensures count { length (tables_of self.new.nodes.items) ≡ length (tables_of self.old.nodes.items) }
        ensures profile { self.new.profile ≡ self.old.profile }
        ensures turn { AddsATurn self.old.journal.entries self.new.journal.entries }
        ensures carrying { let r = rules_of A.act_of (length (tables_of self.old.nodes.items)) self.old.profile in
            IsCarrying r self.old.hand (F.flight fabric.old) (F.trace fabric.old) self.old.journal.entries
            → IsCarrying r self.new.hand (F.flight fabric.new) (F.trace fabric.new) self.new.journal.entries }
        ensures did { IfOk result (λ turned. DidTake (Fetches self.old.hand (F.flight fabric.old) (F.flight fabric.new) (F.trace fabric.old) (F.trace fabric.new)) turned (tables_of self.old.nodes.items) (tables_of self.new.nodes.items) self.old.journal.entries self.new.journal.entries) }
        ensures clears { OnOk result (self.new.hand ≡ None) }
        ensures jobs { running_in (tables_of self.new.nodes.items) ≡ running_in (tables_of self.old.nodes.items) }
        ensures err { OnErr result (IsSame (tables_of self.old.nodes.items) (tables_of self.new.nodes.items) self.old.journal.entries self.new.journal.entries) }
        ensures kept { OnErr result (Keeps self.old.hand (F.flight fabric.old) (F.flight fabric.new) (F.trace fabric.old) (F.trace fabric.new) self.new.hand) }
        ensures bad_frame { (to : _) (at : _) (why : _) → result ≡ Err (WorldFault.BadFrame to at why) → HoldsBadFrame self.new.hand to at why }
        ensures strange { (to : _) (rule : _) (object : _) (kept : _) → result ≡ Err (WorldFault.Strange to rule object kept) →
            HoldsStrangeFrame (tables_of self.old.nodes.items) self.new.hand to rule object kept }
        ensures early { (sent : _) (taken : _) → result ≡ Err (WorldFault.EarlyEnd sent taken) →
            (self.new.hand ≡ None) × (sent ≡ sum_by (λ t. t.sent) (tables_of self.old.nodes.items)) × (taken ≡ sum_by (λ t. t.taken) (tables_of self.old.nodes.items)) × (sent ≢ taken)
            × Fetches self.old.hand (F.flight fabric.old) (F.flight fabric.new) (F.trace fabric.old) (F.trace fabric.new) None }
        ensures memory { (u : _) → result ≡ Err (WorldFault.OutOfMemory u) → (u ≡ None) × HoldsRightFrame (tables_of self.old.nodes.items) self.new.hand (F.flight fabric.new) }
        ensures room { (e : _) (w : _) (u : _) → result ≢ Err (WorldFault.JournalFull e w u) }
        ensures runs_none { (job : _) → result ≢ Err (WorldFault.NotRun job) }
        ensures never_bad { IsCarrying (rules_of A.act_of (length (tables_of self.old.nodes.items)) self.old.profile) self.old.hand (F.flight fabric.old) (F.trace fabric.old) self.old.journal.entries →
            (to : _) (at : _) (why : _) → result ≢ Err (WorldFault.BadFrame to at why) }
        ensures never_early { IsCarrying (rules_of A.act_of (length (tables_of self.old.nodes.items)) self.old.profile) self.old.hand (F.flight fabric.old) (F.trace fabric.old) self.old.journal.entries →
            (sent : _) (taken : _) → result ≢ Err (WorldFault.EarlyEnd sent taken) }
        ensures hears { KeepsLatest self.old.hand (F.latest fabric.old) self.new.hand (F.latest fabric.new) }
        ensures finds { HearsTurn Choice.Take result (F.latest fabric.new) }
        ensures held { (frame : _) → self.old.hand ≡ Some frame → fabric.new ≡ fabric.old }
        ensures fabric_same { result ≡ Err WorldFault.Fabric → (self.new.hand ≡ self.old.hand) × (F.flight fabric.new ≡ F.flight fabric.old) × (F.trace fabric.new ≡ F.trace fabric.old) }
        ensures cause { result ≡ Err WorldFault.Fabric → Rose (F.faults fabric.old) (F.faults fabric.new) }
        ensures stands { result ≢ Err WorldFault.Fabric → F.faults fabric.new ≡ F.faults fabric.old }
    {
        match self.fill(fabric) {
            Ok(()) => {}
            Err(FabricFault::Failed) => return Err(WorldFault::Fabric),
            Err(FabricFault::OutOfMemory) => return Err(WorldFault::OutOfMemory { undone: None }),
        }
        let frame = match self.hand.take() {
            Some(frame) => frame,
            None => return self.ended(),
        };
        match self.accept(alloc, &frame) {
            Ok(()) => Ok(Turned::Moved),
            Err(fault) => {
                self.hand = Some(frame);
                Err(fault)
            }
        }
    }
}
