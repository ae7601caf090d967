//! What a typed line does to the world.
ghost use Rattle.std.specs.Prelude.{◌≡◌, ◌≢◌, ◌<◌, ◌∷◌, [], ℕ, Ok, Err, OnOk, IfErr, length, vec_capacity, false};
ghost use Rattle.hpx_journal.specs.Weights.{HasRoom};
ghost use Rattle.hpx_journal.specs.Whole.{IsCarried, replayed};
ghost use Rattle.hpx_hold.specs.Home.{GrowsAtHome, WaitsBusy};
ghost use Rattle.hpx_hold.specs.Turns.{MakesTurns};
ghost use Rattle.hpx_own.specs.Lines.{handled_as};
ghost use Rattle.hpx_ports.specs.Faults.{Rose};
ghost use Rattle.hpx_world.specs.Heard.{KeepsLatest};
ghost use Rattle.hpx_top.specs.Breaches.{IsOfTurn, NoBreach};
ghost use Rattle.hpx_world.specs.Quiet.{NoneRuns};
ghost use Rattle.hpx_world.specs.Steps.{IsUnfed};
ghost use Rattle.app_console.specs.Lines.{is_long};
ghost use Rattle.hpx_top.specs.Texts.{Typed, held_by, mark_of, owns};
ghost use Rattle.hpx_top.specs.Parts.{Does, GrowsBy, IsTurned};
ghost use Rattle.hpx_top.specs.Session.{rules, Carries, IsRested, HasBegun};

use crate::acts::AllActs;
use crate::consoles::UserConsole;
use crate::crew::Crew;
use crate::progress::Progress;
use crate::session::{SessionFault, begin, fault_of, settle};
use app_console::lines::marked;
use hpx_hold::home::stay_home;
use hpx_hold::turns::turns;
use hpx_own::lines::Handled;
use hpx_ports::fabric::Fabric;
use hpx_ports::gate::Gate;
use hpx_value::items::Text;
use hpx_world::world::World;
use std::alloc::Global;
use std::sync::Wait;
use std::thread::Threads;

/// Lets locality 0 alone go on, until it can do nothing.
fn stay<F: Fabric>(
    alloc: Global,
    world: &mut World<AllActs>,
    fabric: &mut F,
) -> Result<(), SessionFault>
    ensures carrying { Carries world.old (F.flight fabric.old) (F.trace fabric.old) → Carries world.new (F.flight fabric.new) (F.trace fabric.new) }
    ensures hears { KeepsLatest world.old.hand (F.latest fabric.old) world.new.hand (F.latest fabric.new) }
    ensures count { length world.new.nodes ≡ length world.old.nodes }
    ensures profile { world.new.profile ≡ world.old.profile }
    ensures home { GrowsAtHome world.old.journal.entries world.new.journal.entries }
    ensures unfed { IsUnfed world.old.journal.entries world.new.journal.entries }
    ensures waits { OnOk result (IsCarried (rules world.old) [] world.new.journal.entries → WaitsBusy (replayed (rules world.old) world.new.journal.entries)) }
    ensures jobs { OnOk result (NoneRuns world.old.nodes → NoneRuns world.new.nodes) }
    ensures apart { fabric.new ≡ fabric.old }

    ensures full { result ≡ Err SessionFault.JournalFull → HasRoom world.new.journal.entries → ⊥ }
    ensures room { result ≢ Err SessionFault.JournalFull → HasRoom world.new.journal.entries }
    ensures cause { IfErr result (λ fault. (fault ≢ SessionFault.Fabric) × IsOfTurn fault world.new (F.latest fabric.new)) }
    ensures told { Carries world.old (F.flight fabric.old) (F.trace fabric.old) → IfErr result NoBreach }
{
    match stay_home(alloc, world, fabric) {
        Ok(()) => Ok(()),
        Err(fault) => Err(fault_of(fault, world.journal().room())),
    }
}

/// Makes up to so many steps.
fn go_on<F: Fabric>(
    alloc: Global,
    world: &mut World<AllActs>,
    most: u32,
    fabric: &mut F,
) -> Result<(), SessionFault>
    requires jobs { NoneRuns world.old.nodes }

    ensures carrying { Carries world.old (F.flight fabric.old) (F.trace fabric.old) → Carries world.new (F.flight fabric.new) (F.trace fabric.new) }
    ensures hears { KeepsLatest world.old.hand (F.latest fabric.old) world.new.hand (F.latest fabric.new) }
    ensures count { length world.new.nodes ≡ length world.old.nodes }
    ensures profile { world.new.profile ≡ world.old.profile }
    ensures turns { OnOk result ((made : ℕ) × MakesTurns (rules world.old) most made world.old.journal.entries world.new.journal.entries) }
    ensures unfed { IsUnfed world.old.journal.entries world.new.journal.entries }
    ensures jobs { OnOk result (NoneRuns world.new.nodes) }

    ensures fabric { result ≡ Err SessionFault.Fabric → Rose (F.faults fabric.old) (F.faults fabric.new) }
    ensures full { result ≡ Err SessionFault.JournalFull → HasRoom world.new.journal.entries → ⊥ }
    ensures room { result ≢ Err SessionFault.JournalFull → HasRoom world.new.journal.entries }
    ensures cause { IfErr result (λ fault. IsOfTurn fault world.new (F.latest fabric.new)) }
    ensures told { Carries world.old (F.flight fabric.old) (F.trace fabric.old) → IfErr result NoBreach }
    ensures stands { result ≢ Err SessionFault.Fabric → F.faults fabric.new ≡ F.faults fabric.old }
{
    match turns(alloc, world, most, fabric) {
        Ok(_) => Ok(()),
        Err(fault) => Err(fault_of(fault, world.journal().room())),
    }
}

/// Makes up to so many steps, and lets locality 0 alone go on behind them.
fn take_turns<F: Fabric>(
    alloc: Global,
    world: &mut World<AllActs>,
    most: u32,
    fabric: &mut F,
) -> Result<(), SessionFault>
    requires jobs { NoneRuns world.old.nodes }

    ensures carrying { Carries world.old (F.flight fabric.old) (F.trace fabric.old) → Carries world.new (F.flight fabric.new) (F.trace fabric.new) }
    ensures hears { KeepsLatest world.old.hand (F.latest fabric.old) world.new.hand (F.latest fabric.new) }
    ensures count { length world.new.nodes ≡ length world.old.nodes }
    ensures profile { world.new.profile ≡ world.old.profile }
    ensures turned { OnOk result (GrowsBy (IsTurned (rules world.old) most world.old.journal.entries) world.old.journal.entries world.new.journal.entries) }
    ensures unfed { IsUnfed world.old.journal.entries world.new.journal.entries }
    ensures jobs { OnOk result (NoneRuns world.new.nodes) }

    ensures fabric { result ≡ Err SessionFault.Fabric → Rose (F.faults fabric.old) (F.faults fabric.new) }
    ensures full { result ≡ Err SessionFault.JournalFull → HasRoom world.new.journal.entries → ⊥ }
    ensures room { result ≢ Err SessionFault.JournalFull → HasRoom world.new.journal.entries }
    ensures cause { IfErr result (λ fault. IsOfTurn fault world.new (F.latest fabric.new)) }
    ensures told { Carries world.old (F.flight fabric.old) (F.trace fabric.old) → IfErr result NoBreach }
    ensures stands { result ≢ Err SessionFault.Fabric → F.faults fabric.new ≡ F.faults fabric.old }
{
    go_on(alloc, world, most, fabric)?;
    stay(alloc, world, fabric)
}

/// Feeds a line. All that follows from it is done, or in a hold what locality 0 alone can do of it.
fn feed_line<F: Fabric, R: Threads + Wait + Sync, G: Gate>(
    crew: &Crew<R, G>,
    alloc: Global,
    console: UserConsole,
    world: &mut World<AllActs>,
    line: &Text,
    held: bool,
    fabric: &mut F,
) -> Result<(), SessionFault>
    requires short { is_long line.now ≡ false }
    requires fed { handled_as (owns console) line.now ≡ Handled.Fed }
    requires jobs { NoneRuns world.old.nodes }

    ensures carrying { Carries world.old (F.flight fabric.old) (F.trace fabric.old) → Carries world.new (F.flight fabric.new) (F.trace fabric.new) }
    ensures hears { KeepsLatest world.old.hand (F.latest fabric.old) world.new.hand (F.latest fabric.new) }
    ensures count { length world.new.nodes ≡ length world.old.nodes }
    ensures profile { world.new.profile ≡ world.old.profile }
    ensures did { OnOk result (GrowsBy (Does (rules world.old) (mark_of console ∷ line.now) held (Typed Handled.Fed) world.old.journal.entries) world.old.journal.entries world.new.journal.entries) }
    ensures rest { OnOk result (held ≡ false → IsRested world.new) }
    ensures jobs { OnOk result (NoneRuns world.new.nodes) }
    ensures once { HasBegun console line.now world.old.journal.entries world.new.journal.entries }

    ensures fabric { result ≡ Err SessionFault.Fabric → Rose (F.faults fabric.old) (F.faults fabric.new) }
    ensures full { result ≡ Err SessionFault.JournalFull → HasRoom world.new.journal.entries → ⊥ }
    ensures room { HasRoom world.old.journal.entries → result ≢ Err SessionFault.JournalFull → HasRoom world.new.journal.entries }
    ensures cause { IfErr result (λ fault. IsOfTurn fault world.new (F.latest fabric.new)) }
    ensures told { Carries world.old (F.flight fabric.old) (F.trace fabric.old) → IfErr result NoBreach }
    ensures stands { result ≢ Err SessionFault.Fabric → F.faults fabric.new ≡ F.faults fabric.old }
{
    let Ok(text) = marked(alloc, console.mark(), line.as_slice()) else {
        return Err(SessionFault::OutOfMemory);
    };
    begin(alloc, world, text, fabric)?;
    if held {
        stay(alloc, world, fabric)
    } else {
        settle(crew, alloc, world, fabric)
    }
}

/// Does what a line asks of the world. Outside a hold nothing is left for `turn` and `drain` to do. Memory to note it has been made.
pub(crate) fn handle<F: Fabric, R: Threads + Wait + Sync, G: Gate>(
    crew: &Crew<R, G>,
    alloc: Global,
    console: UserConsole,
    world: &mut World<AllActs>,
    line: &Text,
    handled: Handled,
    progress: &Progress,
    fabric: &mut F,
) -> Result<(), SessionFault>
    requires short { is_long line.now ≡ false }
    requires so { handled_as (owns console) line.now ≡ handled }
    requires noted { length progress.now.cuts.items < vec_capacity progress.now.cuts }
    requires rest { progress.now.held ≡ false → IsRested world.old }
    requires jobs { NoneRuns world.old.nodes }

    ensures carrying { Carries world.old (F.flight fabric.old) (F.trace fabric.old) → Carries world.new (F.flight fabric.new) (F.trace fabric.new) }
    ensures hears { KeepsLatest world.old.hand (F.latest fabric.old) world.new.hand (F.latest fabric.new) }
    ensures count { length world.new.nodes ≡ length world.old.nodes }
    ensures profile { world.new.profile ≡ world.old.profile }
    ensures did { OnOk result (GrowsBy (Does (rules world.old) (mark_of console ∷ line.now) progress.now.held (Typed handled) world.old.journal.entries) world.old.journal.entries world.new.journal.entries) }
    ensures rest { OnOk result (held_by progress.now.held (Typed handled) ≡ false → IsRested world.new) }
    ensures jobs { OnOk result (NoneRuns world.new.nodes) }
    ensures once { HasBegun console line.now world.old.journal.entries world.new.journal.entries }

    ensures fabric { result ≡ Err SessionFault.Fabric → Rose (F.faults fabric.old) (F.faults fabric.new) }
    ensures full { result ≡ Err SessionFault.JournalFull → HasRoom world.new.journal.entries → ⊥ }
    ensures room { HasRoom world.old.journal.entries → result ≢ Err SessionFault.JournalFull → HasRoom world.new.journal.entries }
    ensures cause { IfErr result (λ fault. IsOfTurn fault world.new (F.latest fabric.new)) }
    ensures told { Carries world.old (F.flight fabric.old) (F.trace fabric.old) → IfErr result NoBreach }
    ensures stands { result ≢ Err SessionFault.Fabric → F.faults fabric.new ≡ F.faults fabric.old }
{
    let held = progress.held;
    match handled {
        Handled::Fed => feed_line(crew, alloc, console, world, line, held, fabric),
        Handled::Turn(most) if held => take_turns(alloc, world, most, fabric),
        Handled::Drain if held => settle(crew, alloc, world, fabric),
        Handled::Turn(_) => Ok(()),
        Handled::Drain => Ok(()),
        Handled::Hold => Ok(()),
        Handled::Audit => Ok(()),
        Handled::Count(_) => Ok(()),
        Handled::Refused(_) => Ok(()),
    }
}

/// Whether delivery is held back behind a line that is not too long, by whether it was before.
pub(crate) fn held_by(held: bool, handled: Handled) -> bool
    ensures { result ≡ held_by held (Typed handled) }
{
    match handled {
        Handled::Hold => true,
        Handled::Drain => false,
        Handled::Fed => held,
        Handled::Turn(_) => held,
        Handled::Audit => held,
        Handled::Count(_) => held,
        Handled::Refused(_) => held,
    }
}
