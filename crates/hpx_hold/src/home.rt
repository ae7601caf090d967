//! Locality 0 alone goes on, and nothing is sent or accepted.
ghost use Rattle.std.specs.Prelude.{◌≡◌, [], length, true, false, Ok, OnOk, IfErr};
ghost use Rattle.hpx_journal.specs.Whole.{IsCarried, replayed};
ghost use Rattle.hpx_world.specs.Places.{rules_in};
ghost use Rattle.hpx_world.specs.Sound.{IsSound};
ghost use Rattle.hpx_world.specs.Away.{IsCarrying};
ghost use Rattle.hpx_world.specs.Heard.{HearsEnd, KeepsLatest};
ghost use Rattle.hpx_world.specs.Quiet.{IsStuck, NoneRuns};
ghost use Rattle.hpx_world.specs.Stages.{stage};
ghost use Rattle.hpx_world.specs.Steps.{IsUnfed, DidWork};
ghost use Rattle.hpx_world.specs.Refusals.{RefusedWork, CanCome, HandsNoJob};
ghost use Rattle.hpx_journal.specs.Weights.{HasRoom};
ghost use Rattle.hpx_hold.specs.Room.{TellsRoom};
ghost use Rattle.hpx_hold.specs.Home.{GrowsAtHome, WaitsBusy, AtHome, DidAtHome, IsDoneAtHome, GoesAtHome, RefusedAtHome};

use hpx_ports::fabric::Fabric;
use hpx_value::acts::{Acts, Done};
use hpx_world::turns::{Choice, WorldFault};
use hpx_world::world::World;
use std::alloc::Global;

/// What always holds of the nodes.
pub(crate) fn standing<A: Acts + Copy>(world: &World<A>)
    ensures { IsSound A.act_of world.now.profile world.now.nodes world.now.journal.entries }
{
    world.law();
}

/// Locality 0 fires an action that can be, runs it, and finishes it. False where none can be fired.
fn work_at_home<A: Acts + Copy, F: Fabric>(
    alloc: Global,
    world: &mut World<A>,
    acts: &A,
    fabric: &mut F,
) -> Result<bool, WorldFault<A>>
    requires acts { A.count acts.now ≡ length world.old.nodes }
    ensures count { length world.new.nodes ≡ length world.old.nodes }
    ensures profile { world.new.profile ≡ world.old.profile }
    ensures did { result ≡ Ok true → let x = stage world.old (F.flight fabric.old) (F.trace fabric.old) in let z = stage world.new (F.flight fabric.new) (F.trace fabric.new) in
        HasRoom x.entries × DidWork A.act_of 0 x z × (z.outside ≡ x.outside) }
    ensures none { result ≡ Ok false → let x = stage world.old (F.flight fabric.old) (F.trace fabric.old) in
        (stage world.new (F.flight fabric.new) (F.trace fabric.new) ≡ x) × AtHome IsStuck x }
    ensures stops { IfErr result (λ fault. RefusedWork 0 fault (stage world.old (F.flight fabric.old) (F.trace fabric.old)) (stage world.new (F.flight fabric.new) (F.trace fabric.new))) }
    ensures apart { fabric.new ≡ fabric.old }
    ensures home { GrowsAtHome world.old.journal.entries world.new.journal.entries }
    ensures unfed { IsUnfed world.old.journal.entries world.new.journal.entries }
    ensures jobs { HandsNoJob result → NoneRuns world.old.nodes → NoneRuns world.new.nodes }
    ensures hears { KeepsLatest world.old.hand (F.latest fabric.old) world.new.hand (F.latest fabric.new) }
    ensures finds { IfErr result (λ fault. HearsEnd fault (F.latest fabric.new)) }
    ensures carrying { let r = rules_in A.act_of world.old in
        IsCarrying r world.old.hand (F.flight fabric.old) (F.trace fabric.old) world.old.journal.entries
        → IsCarrying r world.new.hand (F.flight fabric.new) (F.trace fabric.new) world.new.journal.entries }
{
    standing(world);
    let job = match world.turn(alloc, Choice::Fire(0), fabric)?.job() {
        Some(job) => job,
        None => return Ok(false),
    };
    let done = match Done::compute(alloc, acts, job) {
        Ok(done) => done,
        Err(job) => return Err(WorldFault::NotRun { job }),
    };
    world.turn(alloc, Choice::Finish(done), fabric)?;
    Ok(true)
}

/// The first of the turns that locality 0 can make: a job is handed out, run and taken back, or it tends to its own. False where it can
/// make none.
fn turn_at_home<A: Acts + Copy, F: Fabric>(
    alloc: Global,
    world: &mut World<A>,
    fabric: &mut F,
) -> Result<bool, WorldFault<A>>
    ensures count { length world.new.nodes ≡ length world.old.nodes }
    ensures profile { world.new.profile ≡ world.old.profile }
    ensures did { result ≡ Ok true → DidAtHome A.act_of (stage world.old (F.flight fabric.old) (F.trace fabric.old)) (stage world.new (F.flight fabric.new) (F.trace fabric.new)) }
    ensures none { result ≡ Ok false → let x = stage world.old (F.flight fabric.old) (F.trace fabric.old) in
        (stage world.new (F.flight fabric.new) (F.trace fabric.new) ≡ x) × IsDoneAtHome x }
    ensures stops { IfErr result (λ fault. RefusedAtHome fault (stage world.old (F.flight fabric.old) (F.trace fabric.old)) (stage world.new (F.flight fabric.new) (F.trace fabric.new))) }
    ensures apart { fabric.new ≡ fabric.old }
    ensures home { GrowsAtHome world.old.journal.entries world.new.journal.entries }
    ensures unfed { IsUnfed world.old.journal.entries world.new.journal.entries }
    ensures jobs { HandsNoJob result → NoneRuns world.old.nodes → NoneRuns world.new.nodes }
    ensures hears { KeepsLatest world.old.hand (F.latest fabric.old) world.new.hand (F.latest fabric.new) }
    ensures finds { IfErr result (λ fault. HearsEnd fault (F.latest fabric.new)) }
    ensures carrying { let r = rules_in A.act_of world.old in
        IsCarrying r world.old.hand (F.flight fabric.old) (F.trace fabric.old) world.old.journal.entries
        → IsCarrying r world.new.hand (F.flight fabric.new) (F.trace fabric.new) world.new.journal.entries }
    ensures never { let r = rules_in A.act_of world.old in
        IsCarrying r world.old.hand (F.flight fabric.old) (F.trace fabric.old) world.old.journal.entries → IfErr result (CanCome r) }
{
    let acts = *world.acts();
    if work_at_home(alloc, world, &acts, fabric)? {
        return Ok(true);
    }
    standing(world);
    Ok(world.turn(alloc, Choice::Desk(0), fabric)?.moved())
}

/// Locality 0 goes on until it can fire no action and has nothing of its own to tend to. No other locality does anything, and no frame is
/// sent or accepted. At a refusal the turns before it stand.
pub fn stay_home<A: Acts + Copy, F: Fabric>(
    alloc: Global,
    world: &mut World<A>,
    fabric: &mut F,
) -> Result<(), WorldFault<A>>
    ensures count { length world.new.nodes ≡ length world.old.nodes }
    ensures profile { world.new.profile ≡ world.old.profile }
    ensures apart { fabric.new ≡ fabric.old }
    ensures goes { OnOk result (GoesAtHome A.act_of (stage world.old (F.flight fabric.old) (F.trace fabric.old)) (λ last.
        (stage world.new (F.flight fabric.new) (F.trace fabric.new) ≡ last) × IsDoneAtHome last)) }
    ensures waits { let r = rules_in A.act_of world.old in
        IsCarried r [] world.new.journal.entries → OnOk result (WaitsBusy (replayed r world.new.journal.entries)) }
    ensures home { GrowsAtHome world.old.journal.entries world.new.journal.entries }
    ensures stops { IfErr result (λ fault. GoesAtHome A.act_of (stage world.old (F.flight fabric.old) (F.trace fabric.old)) (λ last.
        RefusedAtHome fault last (stage world.new (F.flight fabric.new) (F.trace fabric.new)))) }
    ensures unfed { IsUnfed world.old.journal.entries world.new.journal.entries }
    ensures jobs { HandsNoJob result → NoneRuns world.old.nodes → NoneRuns world.new.nodes }
    ensures hears { KeepsLatest world.old.hand (F.latest fabric.old) world.new.hand (F.latest fabric.new) }
    ensures finds { IfErr result (λ fault. HearsEnd fault (F.latest fabric.new)) }
    ensures carrying { let r = rules_in A.act_of world.old in
        IsCarrying r world.old.hand (F.flight fabric.old) (F.trace fabric.old) world.old.journal.entries
        → IsCarrying r world.new.hand (F.flight fabric.new) (F.trace fabric.new) world.new.journal.entries }
    ensures never { let r = rules_in A.act_of world.old in
        IsCarrying r world.old.hand (F.flight fabric.old) (F.trace fabric.old) world.old.journal.entries → IfErr result (CanCome r) }
    ensures room { TellsRoom result world.new.journal.entries }
{
    while turn_at_home(alloc, world, fabric)? {}
    standing(world);
    Ok(())
}
