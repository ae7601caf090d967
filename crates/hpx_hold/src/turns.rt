//! So many steps, and no more.
ghost use Rattle.std.specs.Prelude.{◌≡◌, ◌<◌, [], length, IfOk, IfErr};
ghost use Rattle.hpx_journal.specs.Whole.{IsCarried};
ghost use Rattle.hpx_world.specs.Places.{rules_in};
ghost use Rattle.hpx_world.specs.Away.{IsCarrying};
ghost use Rattle.hpx_world.specs.Heard.{HearsEnd, KeepsLatest};
ghost use Rattle.hpx_world.specs.Quiet.{IsQuiet, NoneRuns};
ghost use Rattle.hpx_world.specs.Stages.{stage};
ghost use Rattle.hpx_world.specs.Steps.{IsUnfed};
ghost use Rattle.hpx_world.specs.Refusals.{CountsFaults, CanCome, HandsNoJob};
ghost use Rattle.hpx_hold.specs.Room.{TellsRoom};
ghost use Rattle.hpx_hold.specs.Turns.{MakesTurns, GoesIn, EndsTurns, RefusedTurns};

use crate::home::standing;
use hpx_ports::fabric::Fabric;
use hpx_value::acts::Acts;
use hpx_world::turns::WorldFault;
use hpx_world::world::World;
use std::alloc::Global;

/// Up to so many steps, and how many were made: fewer only where no more can be. Behind them the journal has room for a further
/// one. At a refusal the steps before it stand.
pub fn turns<A: Acts + Copy, F: Fabric>(
    alloc: Global,
    world: &mut World<A>,
    most: u32,
    fabric: &mut F,
) -> Result<u32, WorldFault<A>>
    ensures count { length world.new.nodes ≡ length world.old.nodes }
    ensures profile { world.new.profile ≡ world.old.profile }
    ensures goes { IfOk result (λ made. GoesIn A.act_of made (stage world.old (F.flight fabric.old) (F.trace fabric.old)) (λ last.
        EndsTurns most made last (stage world.new (F.flight fabric.new) (F.trace fabric.new)))) }
    ensures turns { NoneRuns world.old.nodes
        → IfOk result (λ made. MakesTurns (rules_in A.act_of world.old) most made world.old.journal.entries world.new.journal.entries) }
    ensures quiet { IsCarried (rules_in A.act_of world.old) [] world.new.journal.entries → NoneRuns world.old.nodes
        → IfOk result (λ made. made < most → IsQuiet world.new.nodes world.new.hand) }
    ensures stops { IfErr result (λ fault. RefusedTurns A.act_of most fault (stage world.old (F.flight fabric.old) (F.trace fabric.old)) (stage world.new (F.flight fabric.new) (F.trace fabric.new))) }
    ensures faults { CountsFaults result (F.faults fabric.old) (F.faults fabric.new) }
    ensures unfed { IsUnfed world.old.journal.entries world.new.journal.entries }
    ensures jobs { HandsNoJob result → NoneRuns world.old.nodes → NoneRuns world.new.nodes }
    ensures hears { KeepsLatest world.old.hand (F.latest fabric.old) world.new.hand (F.latest fabric.new) }
    ensures finds { IfErr result (λ fault. HearsEnd fault (F.latest fabric.new)) }
    ensures carrying { let r = rules_in A.act_of world.old in
        IsCarrying r world.old.hand (F.flight fabric.old) (F.trace fabric.old) world.old.journal.entries
        → IsCarrying r world.new.hand (F.flight fabric.new) (F.trace fabric.new) world.new.journal.entries }
    ensures never { let r = rules_in A.act_of world.old in
        IsCarrying r world.old.hand (F.flight fabric.old) (F.trace fabric.old) world.old.journal.entries → IfErr result (CanCome r) }
    ensures room { TellsRoom result world.new.journal.entries }
{
    for made in 0..most {
        if !world.step(alloc, fabric)? {
            standing(world);
            return Ok(made);
        }
    }
    let journal = world.journal();
    if !journal.room() {
        return Err(WorldFault::JournalFull {
            entries: journal.entries(),
            weight: journal.weight(),
            undone: None,
        });
    }
    Ok(most)
}
