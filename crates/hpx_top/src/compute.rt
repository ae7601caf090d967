//! Applications that compute: one line is fed, and what it prints is written once all is done.
ghost use Rattle.std.specs.Prelude.{◌≡◌, ◌≢◌, ◌≤◌, [], Err, Ok, Some, None, OnOk, IfOk, IfErr, IfSome, length};
ghost use Rattle.hpx_value.specs.Profiles.{IsValid};
ghost use Rattle.hpx_journal.specs.Weights.{HasRoom};
ghost use Rattle.hpx_ports.specs.Faults.{Rose};
ghost use Rattle.hpx_world.specs.Heard.{IsLatest, KeepsLatest};
ghost use Rattle.hpx_top.specs.Breaches.{IsShown, IsShownIn, NoBreach};
ghost use Rattle.hpx_world.specs.Quiet.{IsQuiet};
ghost use Rattle.hpx_top.specs.Computed.{IsAnswered, IsUnanswered, IsWorkOf};
ghost use Rattle.hpx_top.specs.Runs.{ports_of, HasCause, HasEnded, IsLawful};
ghost use Rattle.hpx_top.specs.Session.{rules, Carries, IsRested};
ghost use Rattle.hpx_top.specs.Statuses.{IsStatus, status_after};

use crate::acts::AllActs;
use crate::consoles::UserConsole;
use crate::crew::Crew;
use crate::session::{SessionFault, feed, show};
use crate::task::{Task, Workload};
use app_compute::line::fib_line;
use app_compute::session::MARK;
use app_compute::shape::stencil_line;
use app_console::lines::marked;
use hpx_ports::fabric::Fabric;
use hpx_ports::gate::Gate;
use hpx_ports::sink::Sink;
use hpx_value::items::Text;
use hpx_value::memory::OutOfMemory;
use hpx_value::profile::Profile;
use hpx_world::world::World;
use std::alloc::Global;
use std::sync::Wait;
use std::thread::Threads;

/// What is done for a task.
#[derive(Drop)]
pub(crate) enum Work {
    /// A console serves its input.
    Serves(UserConsole),
    /// A line is answered.
    Answers(Text),
    /// A made session is fed.
    Loads(Workload),
}

/// What is done for a task. An `Err` is for want of memory for its line.
pub(crate) fn work_of(alloc: Global, task: Task) -> Result<Work, OutOfMemory>
    ensures work { IfOk result (λ work. IsWorkOf task work) }
    ensures console { (console : UserConsole) → task ≡ Task.Console console → result ≡ Ok (Work.Serves console) }
{
    match task {
        Task::Console(console) => Ok(Work::Serves(console)),
        Task::Fib(question) => {
            let line = fib_line(alloc, question.number, question.threshold)?;
            Ok(Work::Answers(marked(alloc, MARK, line.as_slice())?))
        }
        Task::Stencil(shape) => {
            let line = stencil_line(alloc, shape.points, shape.parts, shape.steps)?;
            Ok(Work::Answers(marked(alloc, MARK, line.as_slice())?))
        }
        Task::Load(load) => Ok(Work::Loads(load)),
    }
}

/// Feeds the line at boot, and writes what is printed once the world has come to rest.
fn answer<K: Sink, F: Fabric, R: Threads + Wait + Sync, G: Gate>(
    crew: &Crew<R, G>,
    alloc: Global,
    world: &mut World<AllActs>,
    line: Text,
    sink: &mut K,
    fabric: &mut F,
) -> Result<(), SessionFault>
    requires short { length line ≤ 1025 }
    requires empty { world.old.journal.entries ≡ [] }
    requires quiet { IsQuiet world.old.nodes world.old.hand }

    ensures carrying { Carries world.old (F.flight fabric.old) (F.trace fabric.old) → Carries world.new (F.flight fabric.new) (F.trace fabric.new) }
    ensures hears { KeepsLatest world.old.hand (F.latest fabric.old) world.new.hand (F.latest fabric.new) }
    ensures count { length world.new.nodes ≡ length world.old.nodes }
    ensures profile { world.new.profile ≡ world.old.profile }
    ensures answered { OnOk result (IsAnswered (rules world.old) line world.new.journal.entries (K.held sink.old) (K.held sink.new)) }
    ensures unanswered { IfErr result (λ fault. IsUnanswered fault (rules world.old) line world.new.journal.entries (K.held sink.old) (K.held sink.new)) }
    ensures rest { OnOk result (IsRested world.new) }

    ensures write { result ≡ Err SessionFault.Write → Rose (K.faults sink.old) (K.faults sink.new) }
    ensures fabric { result ≡ Err SessionFault.Fabric → Rose (F.faults fabric.old) (F.faults fabric.new) }
    ensures full { result ≡ Err SessionFault.JournalFull → HasRoom world.new.journal.entries → ⊥ }
    ensures room { result ≢ Err SessionFault.JournalFull → HasRoom world.new.journal.entries }
    ensures shown { IfErr result (λ fault. IsShown fault world.new (F.latest fabric.new)) }
    ensures told { Carries world.old (F.flight fabric.old) (F.trace fabric.old) → IfErr result NoBreach }
    ensures write_only { result ≢ Err SessionFault.Write → K.faults sink.new ≡ K.faults sink.old }
    ensures fabric_only { result ≢ Err SessionFault.Fabric → F.faults fabric.new ≡ F.faults fabric.old }
{
    feed(crew, alloc, world, line, fabric)?;
    show(world.journal(), 0, sink)
}

/// Feeds the line to so many localities, and writes what is printed. It has no source.
pub(crate) fn compute_all<K: Sink, F: Fabric, R: Threads + Wait + Sync, G: Gate>(
    crew: &Crew<R, G>,
    alloc: Global,
    localities: u32,
    profile: Profile,
    line: Text,
    sink: &mut K,
    fabric: &mut F,
) -> (Option<World<AllActs>>, Result<(), SessionFault>)
    requires some { 1 ≤ localities }
    requires few { localities ≤ 64 }
    requires profile { IsValid profile }
    requires short { length line ≤ 1025 }

    ensures answered { IfSome result.0 (λ w. OnOk result.1 (IsAnswered (rules w) line w.journal.entries (K.held sink.old) (K.held sink.new))) }
    ensures unanswered { IfSome result.0 (λ w.
        IfErr result.1 (λ fault. IsUnanswered fault (rules w) line w.journal.entries (K.held sink.old) (K.held sink.new))) }
    ensures cause { let x = ports_of None 0 (K.held sink.old) 0 (K.faults sink.old) (F.faults fabric.old) in
        let z = ports_of None 0 (K.held sink.new) 0 (K.faults sink.new) (F.faults fabric.new) in
        HasCause (status_after result.1) result.0 x z }
    ensures status { F.flight fabric.old ≡ Some [] → F.trace fabric.old ≡ Some [] → IsStatus (status_after result.1) }
    ensures shown { IfErr result.1 (λ fault. IsShownIn fault result.0 (F.latest fabric.new)) }
    ensures no_read { (result.1 ≢ Err SessionFault.Read) × (result.1 ≢ Err SessionFault.InputFull) }
    ensures places { IfSome result.0 (λ w. (length w.nodes ≡ localities) × (w.profile ≡ profile)) }
    ensures lawful { IfSome result.0 IsLawful }
    ensures carrying { F.flight fabric.old ≡ Some [] → F.trace fabric.old ≡ Some [] → IfSome result.0 (λ w. Carries w (F.flight fabric.new) (F.trace fabric.new)) }
    ensures hears { IfSome result.0 (λ w. IsLatest w.hand (F.latest fabric.new)) }
    ensures ended { OnOk result.1 (IfSome result.0 HasEnded) }
    ensures none { result.0 ≡ None → result.1 ≡ Err SessionFault.OutOfMemory }
    ensures untouched { result.0 ≡ None → (sink.new ≡ sink.old) × (fabric.new ≡ fabric.old) }
{
    let mut world = match World::boot(alloc, AllActs { localities }, profile) {
        Ok(world) => world,
        Err(_) => return (None, Err(SessionFault::OutOfMemory)),
    };
    let answered = answer(crew, alloc, &mut world, line, sink, fabric);
    world.law();
    (Some(world), answered)
}
