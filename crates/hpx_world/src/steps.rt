//! Turns of all localities, one after another, until nothing can be done.
ghost use Rattle.std.specs.Prelude.{◌≡◌, ◌<◌, ◌⊎◌, [], ℕ, length, true, false, Ok, Err, Some, None, OnOk, IfOk, IfErr, sum_by, slice_get};
ghost use Rattle.std.specs.List.{AllByRecursion};
ghost use Rattle.hpx_journal.specs.Weights.{HasRoom};
ghost use Rattle.hpx_world.specs.Places.{rules_in};
ghost use Rattle.hpx_world.specs.Away.{IsCarrying, Puts};
ghost use Rattle.hpx_world.specs.Heard.{HearsDrain, HearsEnd, HearsStep, KeepsLatest};
ghost use Rattle.hpx_world.specs.Quiet.{IsQuiet, IsStuck, SendsNothing, NoneRuns};
ghost use Rattle.hpx_node.specs.Handled.{HasNothingToTend};
ghost use Rattle.hpx_world.specs.Stages.{stage};
ghost use Rattle.hpx_world.specs.Steps.{IsUnfed, AtFirst, DidWork, DidStep, IsIdle, GoesTo, NoneFires, NoneClears, NonePumps};
ghost use Rattle.hpx_world.specs.Refusals.{RefusedWork, RefusedStep, RefusedDrain, CountsFaults, CanCome, HandsNoJob};
ghost use Rattle.hpx_world.specs.Turns.{DidDesk, DidPump};
ghost use Rattle.hpx_world.specs.declared.turns.Turned.TheVariants.{Moved};

use crate::turns::{Choice, WorldFault};
use crate::world::World;
use hpx_ports::fabric::Fabric;
use hpx_value::acts::{Acts, Done};
use std::alloc::Global;

impl<A: Acts + Copy> World<A> {
    /// Locality k fires an action that can be, runs it, and finishes it. False where none can be fired.
    fn work<F: Fabric>(
        &mut self,
        alloc: Global,
        acts: &A,
        k: u32,
        fabric: &mut F,
    ) -> Result<bool, WorldFault<A>>
        requires acts { A.count acts.now ≡ length self.old.nodes }
        requires range { k < length self.old.nodes }
        ensures count { length self.new.nodes ≡ length self.old.nodes }
        ensures profile { self.new.profile ≡ self.old.profile }
        ensures did { result ≡ Ok true → let x = stage self.old (F.flight fabric.old) (F.trace fabric.old) in let z = stage self.new (F.flight fabric.new) (F.trace fabric.new) in
            HasRoom x.entries × DidWork A.act_of k x z × (z.outside ≡ x.outside) }
        ensures none { result ≡ Ok false → let x = stage self.old (F.flight fabric.old) (F.trace fabric.old) in
            (stage self.new (F.flight fabric.new) (F.trace fabric.new) ≡ x) × ((t : _) → slice_get x.nodes k ≡ Some t → IsStuck t) }
        ensures stops { IfErr result (λ fault. RefusedWork k fault (stage self.old (F.flight fabric.old) (F.trace fabric.old)) (stage self.new (F.flight fabric.new) (F.trace fabric.new))) }
        ensures hears { KeepsLatest self.old.hand (F.latest fabric.old) self.new.hand (F.latest fabric.new) }
        ensures finds { IfErr result (λ fault. HearsEnd fault (F.latest fabric.new)) }
        ensures apart { fabric.new ≡ fabric.old }
        ensures unfed { IsUnfed self.old.journal.entries self.new.journal.entries }
        ensures jobs { HandsNoJob result → NoneRuns self.old.nodes → NoneRuns self.new.nodes }
        ensures carrying { let r = rules_in A.act_of self.old in
            IsCarrying r self.old.hand (F.flight fabric.old) (F.trace fabric.old) self.old.journal.entries
            → IsCarrying r self.new.hand (F.flight fabric.new) (F.trace fabric.new) self.new.journal.entries }
    {
        self.standing();
        let job = match self.turn(alloc, Choice::Fire(k), fabric)?.job() {
            Some(job) => job,
            None => return Ok(false),
        };
        let done = match Done::compute(alloc, acts, job) {
            Ok(done) => done,
            Err(job) => return Err(WorldFault::NotRun { job }),
        };
        self.turn(alloc, Choice::Finish(done), fabric)?;
        Ok(true)
    }

    /// The first locality that can fires an action, runs it, and finishes it. False where none can.
    fn work_first<F: Fabric>(
        &mut self,
        alloc: Global,
        acts: &A,
        fabric: &mut F,
    ) -> Result<bool, WorldFault<A>>
        requires acts { A.count acts.now ≡ length self.old.nodes }
        ensures count { length self.new.nodes ≡ length self.old.nodes }
        ensures profile { self.new.profile ≡ self.old.profile }
        ensures did { result ≡ Ok true → DidStep A.act_of (stage self.old (F.flight fabric.old) (F.trace fabric.old)) (stage self.new (F.flight fabric.new) (F.trace fabric.new)) }
        ensures none { result ≡ Ok false → let x = stage self.old (F.flight fabric.old) (F.trace fabric.old) in
            (stage self.new (F.flight fabric.new) (F.trace fabric.new) ≡ x) × NoneFires x }
        ensures stops { IfErr result (λ fault. RefusedStep fault (stage self.old (F.flight fabric.old) (F.trace fabric.old)) (stage self.new (F.flight fabric.new) (F.trace fabric.new))) }
        ensures hears { KeepsLatest self.old.hand (F.latest fabric.old) self.new.hand (F.latest fabric.new) }
        ensures finds { IfErr result (λ fault. HearsEnd fault (F.latest fabric.new)) }
        ensures faults { CountsFaults result (F.faults fabric.old) (F.faults fabric.new) }
        ensures unfed { IsUnfed self.old.journal.entries self.new.journal.entries }
        ensures jobs { HandsNoJob result → NoneRuns self.old.nodes → NoneRuns self.new.nodes }
        ensures carrying { let r = rules_in A.act_of self.old in
            IsCarrying r self.old.hand (F.flight fabric.old) (F.trace fabric.old) self.old.journal.entries
            → IsCarrying r self.new.hand (F.flight fabric.new) (F.trace fabric.new) self.new.journal.entries }
        ensures never { let r = rules_in A.act_of self.old in
            IsCarrying r self.old.hand (F.flight fabric.old) (F.trace fabric.old) self.old.journal.entries → IfErr result (CanCome r) }
    {
        for k in 0..acts.localities() {
            if self.work(alloc, acts, k, fabric)? {
                return Ok(true);
            }
        }
        Ok(false)
    }

    /// The first locality that has something to tend to does: an object leaves, or a message to itself is dealt with. False where
    /// none has.
    fn desk_first<F: Fabric>(
        &mut self,
        alloc: Global,
        n: u32,
        fabric: &mut F,
    ) -> Result<bool, WorldFault<A>>
        requires count { n ≡ length self.old.nodes }
        requires none { NoneFires (stage self.old (F.flight fabric.old) (F.trace fabric.old)) }
        ensures count { length self.new.nodes ≡ length self.old.nodes }
        ensures profile { self.new.profile ≡ self.old.profile }
        ensures did { result ≡ Ok true → DidStep A.act_of (stage self.old (F.flight fabric.old) (F.trace fabric.old)) (stage self.new (F.flight fabric.new) (F.trace fabric.new)) }
        ensures none { result ≡ Ok false → let x = stage self.old (F.flight fabric.old) (F.trace fabric.old) in
            (stage self.new (F.flight fabric.new) (F.trace fabric.new) ≡ x) × NoneClears x }
        ensures stops { IfErr result (λ fault. RefusedStep fault (stage self.old (F.flight fabric.old) (F.trace fabric.old)) (stage self.new (F.flight fabric.new) (F.trace fabric.new))) }
        ensures hears { KeepsLatest self.old.hand (F.latest fabric.old) self.new.hand (F.latest fabric.new) }
        ensures finds { IfErr result (λ fault. HearsEnd fault (F.latest fabric.new)) }
        ensures faults { CountsFaults result (F.faults fabric.old) (F.faults fabric.new) }
        ensures unfed { IsUnfed self.old.journal.entries self.new.journal.entries }
        ensures jobs { NoneRuns self.old.nodes → NoneRuns self.new.nodes }
        ensures carrying { let r = rules_in A.act_of self.old in
            IsCarrying r self.old.hand (F.flight fabric.old) (F.trace fabric.old) self.old.journal.entries
            → IsCarrying r self.new.hand (F.flight fabric.new) (F.trace fabric.new) self.new.journal.entries }
        ensures never { let r = rules_in A.act_of self.old in
            IsCarrying r self.old.hand (F.flight fabric.old) (F.trace fabric.old) self.old.journal.entries → IfErr result (CanCome r) }
    {
        for k in 0..n {
            if self.turn(alloc, Choice::Desk(k), fabric)?.moved() {
                return Ok(true);
            }
        }
        Ok(false)
    }

    /// The first locality with a message to another sends it. False where none has one.
    fn pump_first<F: Fabric>(
        &mut self,
        alloc: Global,
        n: u32,
        fabric: &mut F,
    ) -> Result<bool, WorldFault<A>>
        requires count { n ≡ length self.old.nodes }
        requires none { NoneClears (stage self.old (F.flight fabric.old) (F.trace fabric.old)) }
        ensures count { length self.new.nodes ≡ length self.old.nodes }
        ensures profile { self.new.profile ≡ self.old.profile }
        ensures did { result ≡ Ok true → DidStep A.act_of (stage self.old (F.flight fabric.old) (F.trace fabric.old)) (stage self.new (F.flight fabric.new) (F.trace fabric.new)) }
        ensures none { result ≡ Ok false → let x = stage self.old (F.flight fabric.old) (F.trace fabric.old) in
            (stage self.new (F.flight fabric.new) (F.trace fabric.new) ≡ x) × NonePumps x }
        ensures stops { IfErr result (λ fault. RefusedStep fault (stage self.old (F.flight fabric.old) (F.trace fabric.old)) (stage self.new (F.flight fabric.new) (F.trace fabric.new))) }
        ensures hears { KeepsLatest self.old.hand (F.latest fabric.old) self.new.hand (F.latest fabric.new) }
        ensures finds { IfErr result (λ fault. HearsEnd fault (F.latest fabric.new)) }
        ensures faults { CountsFaults result (F.faults fabric.old) (F.faults fabric.new) }
        ensures unfed { IsUnfed self.old.journal.entries self.new.journal.entries }
        ensures jobs { NoneRuns self.old.nodes → NoneRuns self.new.nodes }
        ensures carrying { let r = rules_in A.act_of self.old in
            IsCarrying r self.old.hand (F.flight fabric.old) (F.trace fabric.old) self.old.journal.entries
            → IsCarrying r self.new.hand (F.flight fabric.new) (F.trace fabric.new) self.new.journal.entries }
        ensures never { let r = rules_in A.act_of self.old in
            IsCarrying r self.old.hand (F.flight fabric.old) (F.trace fabric.old) self.old.journal.entries → IfErr result (CanCome r) }
    {
        for k in 0..n {
            if self.turn(alloc, Choice::Pump(k), fabric)?.moved() {
                return Ok(true);
            }
        }
        Ok(false)
    }

    /// The first of the turns that can be made, in this order: a job is handed out, run and taken back at the first locality that
    /// can; the first locality that has something of its own to tend to does; the first message to another is sent; a frame is accepted.
    /// False where none can. Nothing is fed.
    pub fn step<F: Fabric>(&mut self, alloc: Global, fabric: &mut F) -> Result<bool, WorldFault<A>>
        ensures count { length self.new.nodes ≡ length self.old.nodes }
        ensures profile { self.new.profile ≡ self.old.profile }
        ensures did { result ≡ Ok true → DidStep A.act_of (stage self.old (F.flight fabric.old) (F.trace fabric.old)) (stage self.new (F.flight fabric.new) (F.trace fabric.new)) }
        ensures idle { result ≡ Ok false → IsIdle (stage self.old (F.flight fabric.old) (F.trace fabric.old)) (stage self.new (F.flight fabric.new) (F.trace fabric.new)) }
        ensures stops { IfErr result (λ fault. RefusedStep fault (stage self.old (F.flight fabric.old) (F.trace fabric.old)) (stage self.new (F.flight fabric.new) (F.trace fabric.new))) }
        ensures hears { KeepsLatest self.old.hand (F.latest fabric.old) self.new.hand (F.latest fabric.new) }
        ensures finds { HearsStep result (F.latest fabric.new) }
        ensures faults { CountsFaults result (F.faults fabric.old) (F.faults fabric.new) }
        ensures unfed { IsUnfed self.old.journal.entries self.new.journal.entries }
        ensures jobs { HandsNoJob result → NoneRuns self.old.nodes → NoneRuns self.new.nodes }
        ensures carrying { let r = rules_in A.act_of self.old in
            IsCarrying r self.old.hand (F.flight fabric.old) (F.trace fabric.old) self.old.journal.entries
            → IsCarrying r self.new.hand (F.flight fabric.new) (F.trace fabric.new) self.new.journal.entries }
        ensures never { let r = rules_in A.act_of self.old in
            IsCarrying r self.old.hand (F.flight fabric.old) (F.trace fabric.old) self.old.journal.entries → IfErr result (CanCome r) }
    {
        let acts = *self.acts();
        let n = acts.localities();
        if self.work_first(alloc, &acts, fabric)? {
            return Ok(true);
        }
        if self.desk_first(alloc, n, fabric)? {
            return Ok(true);
        }
        if self.pump_first(alloc, n, fabric)? {
            return Ok(true);
        }
        Ok(self.turn(alloc, Choice::Take, fabric)?.moved())
    }

    /// What it says that nothing can be done: where no job is out the world is quiet, or has ended early.
    fn settled(&self) -> Result<(), WorldFault<A>>
        requires { HasRoom self.now.journal.entries }
        ensures quiet { OnOk result (NoneRuns self.now.nodes → IsQuiet self.now.nodes self.now.hand) }
        ensures early { IfErr result (λ e. (e ≡ WorldFault.EarlyEnd (sum_by (λ t. t.sent) self.now.nodes) (sum_by (λ t. t.taken) self.now.nodes))
            × NoneRuns self.now.nodes × (IsQuiet self.now.nodes self.now.hand → ⊥)) }
    {
        self.standing();
        if !self.none_runs() || self.quiet() {
            return Ok(());
        }
        let (sent, taken) = self.frames();
        Err(WorldFault::EarlyEnd {
            sent: sent as u64,
            taken: taken as u64,
        })
    }

    /// Steps, until none can be made. Where no job is out then, the world is quiet, and nothing is under way. At a refusal the
    /// steps before it stand.
    pub fn drain<F: Fabric>(&mut self, alloc: Global, fabric: &mut F) -> Result<(), WorldFault<A>>
        ensures count { length self.new.nodes ≡ length self.old.nodes }
        ensures profile { self.new.profile ≡ self.old.profile }
        ensures goes { OnOk result (GoesTo A.act_of (stage self.old (F.flight fabric.old) (F.trace fabric.old)) (λ last.
            IsIdle last (stage self.new (F.flight fabric.new) (F.trace fabric.new)))) }
        ensures quiet { OnOk result (NoneRuns self.new.nodes → IsQuiet self.new.nodes self.new.hand) }
        ensures stops { IfErr result (λ fault. RefusedDrain A.act_of fault (stage self.old (F.flight fabric.old) (F.trace fabric.old)) (stage self.new (F.flight fabric.new) (F.trace fabric.new))) }
        ensures hears { KeepsLatest self.old.hand (F.latest fabric.old) self.new.hand (F.latest fabric.new) }
        ensures finds { HearsDrain result (F.latest fabric.new) }
        ensures faults { CountsFaults result (F.faults fabric.old) (F.faults fabric.new) }
        ensures unfed { IsUnfed self.old.journal.entries self.new.journal.entries }
        ensures jobs { HandsNoJob result → NoneRuns self.old.nodes → NoneRuns self.new.nodes }
        ensures carrying { let r = rules_in A.act_of self.old in
            IsCarrying r self.old.hand (F.flight fabric.old) (F.trace fabric.old) self.old.journal.entries
            → IsCarrying r self.new.hand (F.flight fabric.new) (F.trace fabric.new) self.new.journal.entries }
        ensures never { let r = rules_in A.act_of self.old in
            IsCarrying r self.old.hand (F.flight fabric.old) (F.trace fabric.old) self.old.journal.entries → IfErr result (CanCome r) }
    {
        while self.step(alloc, fabric)? {}
        self.standing();
        self.settled()
    }
}
