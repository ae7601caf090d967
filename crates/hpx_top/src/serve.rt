//! A session of a console: each line that is read is handled, and its text is written.
ghost use Rattle.std.specs.Prelude.{◌≡◌, ◌≢◌, ◌≤◌, ◌<◌, ◌+◌, ◌-◌, ◌⊎◌, ℕ, [], Ok, Err, Some, OnOk, IfErr, length, drop, true, false};
ghost use Rattle.std.specs.List.{concat};
ghost use Rattle.std.specs.Option.{option_map};
ghost use Rattle.hpx_journal.specs.Pool.{prints_of};
ghost use Rattle.hpx_journal.specs.Weights.{HasRoom};
ghost use Rattle.hpx_ports.specs.Faults.{Rose};
ghost use Rattle.hpx_ports.specs.Told.{followed};
ghost use Rattle.hpx_world.specs.Heard.{KeepsLatest};
ghost use Rattle.hpx_top.specs.Breaches.{IsShown, NoBreach};
ghost use Rattle.hpx_world.specs.Quiet.{IsQuiet, NoneRuns};
ghost use Rattle.hpx_world.specs.Steps.{IsUnfed};
ghost use Rattle.app_console.specs.Lines.{is_long};
ghost use Rattle.hpx_top.specs.Reader.{HasRead, IsOut, input_left, bytes_left, behind_line};
ghost use Rattle.hpx_top.specs.Session.{rules, ByJournal, Carries, IsRested, IsLineEndedBy, IsServed, IsServing, IsCutAt, IsCutBy, IsEndCutBy, IsOver, IsStopped};
ghost use Rattle.hpx_top.specs.Ends.{IsWhole, IsEndedBy, IsBegun, IsShort, IsReadFrom, IsReadUp, IsReadOn};
ghost use Rattle.hpx_top.specs.Runs.{ports_of, HasCause, HasServed};
ghost use Rattle.hpx_top.specs.Statuses.{IsStatus, status_after};

use crate::acts::AllActs;
use crate::consoles::UserConsole;
use crate::crew::Crew;
use crate::own::{own_of, write_own};
use crate::progress::Progress;
use crate::reader::{LineReader, Next, ReadFault};
use crate::session::{SessionFault, open, settle, show, write};
use crate::typed::{handle, held_by};
use app_console::lines::{PROMPT, TOO_LONG};
use hpx_own::lines::handled_as;
use hpx_ports::fabric::Fabric;
use hpx_ports::gate::Gate;
use hpx_ports::sink::Sink;
use hpx_ports::source::Source;
use hpx_value::items::Text;
use hpx_world::world::World;
use std::alloc::Global;
use std::sync::Wait;
use std::thread::Threads;

/// Handles a line, and writes its text.
fn serve_text<K: Sink, F: Fabric, R: Threads + Wait + Sync, G: Gate>(
    crew: &Crew<R, G>,
    alloc: Global,
    console: UserConsole,
    world: &mut World<AllActs>,
    line: &Text,
    progress: &mut Progress,
    sink: &mut K,
    fabric: &mut F,
) -> Result<(), SessionFault>
    requires short { is_long line.now ≡ false }
    requires rest { progress.old.held ≡ false → IsRested world.old }
    requires jobs { NoneRuns world.old.nodes }

    ensures carrying { Carries world.old (F.flight fabric.old) (F.trace fabric.old) → Carries world.new (F.flight fabric.new) (F.trace fabric.new) }
    ensures hears { KeepsLatest world.old.hand (F.latest fabric.old) world.new.hand (F.latest fabric.new) }
    ensures count { length world.new.nodes ≡ length world.old.nodes }
    ensures profile { world.new.profile ≡ world.old.profile }
    ensures served { OnOk result (IsServed console (rules world.old) line.now progress.old.held progress.new.held progress.old.cuts.items progress.new.cuts.items
        world.old.journal.entries world.new.journal.entries (K.held sink.old) (K.held sink.new)) }
    ensures rest { OnOk result (progress.new.held ≡ false → IsRested world.new) }
    ensures jobs { OnOk result (NoneRuns world.new.nodes) }
    ensures err { IfErr result (λ fault. IsLineEndedBy console fault (rules world.old) line.now progress.old.held progress.new.held progress.old.cuts.items progress.new.cuts.items
        world.old.journal.entries world.new.journal.entries (K.held sink.old) (K.held sink.new)) }
    ensures noted { length progress.new.cuts.items ≤ length progress.old.cuts.items + 1 }

    ensures write { result ≡ Err SessionFault.Write → Rose (K.faults sink.old) (K.faults sink.new) }
    ensures fabric { result ≡ Err SessionFault.Fabric → Rose (F.faults fabric.old) (F.faults fabric.new) }
    ensures full { result ≡ Err SessionFault.JournalFull → HasRoom world.new.journal.entries → ⊥ }
    ensures room { HasRoom world.old.journal.entries → result ≢ Err SessionFault.JournalFull → HasRoom world.new.journal.entries }
    ensures shown { IfErr result (λ fault. IsShown fault world.new (F.latest fabric.new)) }
    ensures told { Carries world.old (F.flight fabric.old) (F.trace fabric.old) → IfErr result NoBreach }
    ensures write_only { result ≢ Err SessionFault.Write → K.faults sink.new ≡ K.faults sink.old }
    ensures fabric_only { result ≢ Err SessionFault.Fabric → F.faults fabric.new ≡ F.faults fabric.old }
{
    let from = world.journal().entries();
    let handled = handled_as(console.owns(), line.as_slice());
    progress.reserve()?;
    handle(crew, alloc, console, world, line, handled, progress, fabric)?;
    let own = own_of(alloc, world, handled)?;
    let held = held_by(progress.held, handled);
    progress.pass(held, world.journal().entries());
    show(world.journal(), from, sink)?;
    write_own(&own, world.journal(), sink)
}

/// Handles a line that is too long.
fn serve_long<K: Sink>(
    world: &World<AllActs>,
    progress: &mut Progress,
    sink: &mut K,
) -> Result<(), SessionFault>
    requires rest { progress.old.held ≡ false → IsRested world.now }

    ensures served { (console : UserConsole) (line : _) → is_long line ≡ true → OnOk result (IsServed console (rules world.now) line progress.old.held progress.new.held
        progress.old.cuts.items progress.new.cuts.items world.now.journal.entries world.now.journal.entries (K.held sink.old) (K.held sink.new)) }
    ensures held { OnOk result (progress.new.held ≡ progress.old.held) }
    ensures err { (console : UserConsole) (line : _) → is_long line ≡ true → IfErr result (λ fault. IsLineEndedBy console fault (rules world.now) line progress.old.held progress.new.held
        progress.old.cuts.items progress.new.cuts.items world.now.journal.entries world.now.journal.entries (K.held sink.old) (K.held sink.new)) }
    ensures noted { length progress.new.cuts.items ≤ length progress.old.cuts.items + 1 }

    ensures cause { IfErr result (λ fault. (fault ≡ SessionFault.OutOfMemory) ⊎ ((fault ≡ SessionFault.Write) × Rose (K.faults sink.old) (K.faults sink.new))) }
    ensures write_only { result ≢ Err SessionFault.Write → K.faults sink.new ≡ K.faults sink.old }
{
    progress.reserve()?;
    let held = progress.held;
    progress.pass(held, world.journal().entries());
    write(sink, TOO_LONG)
}

/// One line: a prompt, and what the line prints. False where the lines end.
fn serve_line<S: Source, K: Sink, F: Fabric, R: Threads + Wait + Sync, G: Gate>(
    crew: &Crew<R, G>,
    alloc: Global,
    console: UserConsole,
    world: &mut World<AllActs>,
    reader: &mut LineReader,
    progress: &mut Progress,
    source: &mut S,
    sink: &mut K,
    fabric: &mut F,
) -> Result<bool, SessionFault>
    requires rest { progress.old.held ≡ false → IsRested world.old }
    requires jobs { NoneRuns world.old.nodes }

    ensures line { result ≡ Ok true → (all : _) (before : _) →
        IsServing console (rules world.old) all before reader.old (S.left source.old) progress.old.held progress.old.cuts.items world.old.journal.entries (K.held sink.old) →
        IsServing console (rules world.old) all before reader.new (S.left source.new) progress.new.held progress.new.cuts.items world.new.journal.entries (K.held sink.new) }
    ensures behind { result ≡ Ok true → (length progress.new.cuts.items ≡ length progress.old.cuts.items + 1)
        × (input_left reader.new (S.left source.new) ≡ option_map behind_line (input_left reader.old (S.left source.old))) }
    ensures short { result ≡ Err SessionFault.OutOfMemory → (all : _) (before : _) →
        IsServing console (rules world.old) all before reader.old (S.left source.old) progress.old.held progress.old.cuts.items world.old.journal.entries (K.held sink.old) →
        IsCutAt console (length progress.old.cuts.items) (ByJournal (rules world.old) progress.new.cuts.items) 1 all before world.new.journal.entries (K.held sink.new) }
    ensures over { result ≡ Ok false → (all : _) (before : _) →
        IsServing console (rules world.old) all before reader.old (S.left source.old) progress.old.held progress.old.cuts.items world.old.journal.entries (K.held sink.old) →
        IsOver console (rules world.old) reader.new.ended all before progress.new.held progress.new.cuts.items world.new.journal.entries (K.held sink.new) }
    ensures err { IfErr result (λ fault. (all : _) (before : _) →
        IsServing console (rules world.old) all before reader.old (S.left source.old) progress.old.held progress.old.cuts.items world.old.journal.entries (K.held sink.old) →
        IsCutBy console fault (ByJournal (rules world.old) progress.new.cuts.items) all before world.new.journal.entries (K.held sink.new)) }
    ensures input { (result ≡ Err SessionFault.InputFull) ⊎ (result ≡ Err SessionFault.Read) → (all : _) (before : _) →
        IsServing console (rules world.old) all before reader.old (S.left source.old) progress.old.held progress.old.cuts.items world.old.journal.entries (K.held sink.old) →
        IsStopped (length progress.new.cuts.items) all reader.new (S.left source.new) }
    ensures reads { (all : _) → HasRead all reader.old (S.left source.old) → HasRead all reader.new (S.left source.new) }
    ensures counted { reader.new.read + S.taken source.old ≡ reader.old.read + S.taken source.new }
    ensures limit { reader.old.read ≤ 67108864 → reader.new.read ≤ 67108864 }

    ensures rest { OnOk result (progress.new.held ≡ false → IsRested world.new) }
    ensures jobs { OnOk result (NoneRuns world.new.nodes) }
    ensures carrying { Carries world.old (F.flight fabric.old) (F.trace fabric.old) → Carries world.new (F.flight fabric.new) (F.trace fabric.new) }
    ensures hears { KeepsLatest world.old.hand (F.latest fabric.old) world.new.hand (F.latest fabric.new) }
    ensures count { length world.new.nodes ≡ length world.old.nodes }
    ensures profile { world.new.profile ≡ world.old.profile }
    ensures fewer { result ≡ Ok true → bytes_left reader.new < bytes_left reader.old }
    ensures noted { length progress.new.cuts.items ≤ length progress.old.cuts.items + 1 }

    ensures read { result ≡ Err SessionFault.Read → Rose (S.faults source.old) (S.faults source.new) }
    ensures write { result ≡ Err SessionFault.Write → Rose (K.faults sink.old) (K.faults sink.new) }
    ensures fabric { result ≡ Err SessionFault.Fabric → Rose (F.faults fabric.old) (F.faults fabric.new) }
    ensures full { result ≡ Err SessionFault.JournalFull → HasRoom world.new.journal.entries → ⊥ }
    ensures room { HasRoom world.old.journal.entries → result ≢ Err SessionFault.JournalFull → HasRoom world.new.journal.entries }
    ensures full_input { result ≡ Err SessionFault.InputFull → reader.new.read ≡ 67108864 }
    ensures out { result ≡ Err SessionFault.OutOfMemory → IsOut reader.new (input_left reader.old (S.left source.old)) (S.left source.new) → ⊥ }
    ensures read_only { result ≢ Err SessionFault.Read → S.faults source.new ≡ S.faults source.old }
    ensures shown { IfErr result (λ fault. IsShown fault world.new (F.latest fabric.new)) }
    ensures told { Carries world.old (F.flight fabric.old) (F.trace fabric.old) → IfErr result NoBreach }
    ensures write_only { result ≢ Err SessionFault.Write → K.faults sink.new ≡ K.faults sink.old }
    ensures fabric_only { result ≢ Err SessionFault.Fabric → F.faults fabric.new ≡ F.faults fabric.old }
{
    write(sink, PROMPT)?;
    match reader.next_line(alloc, source) {
        Ok(Next::Line(line)) => {
            serve_text(crew, alloc, console, world, &line, progress, sink, fabric)?;
            Ok(true)
        }
        Ok(Next::Long) => {
            serve_long(world, progress, sink)?;
            Ok(true)
        }
        Ok(Next::Quit) => Ok(false),
        Ok(Next::End) => Ok(false),
        Ok(Next::Full) => Err(SessionFault::InputFull),
        Err(ReadFault::Failed) => Err(SessionFault::Read),
        Err(ReadFault::OutOfMemory) => Err(SessionFault::OutOfMemory),
    }
}

/// Lets go what was held back, if anything was, and writes what it prints.
fn let_go<K: Sink, F: Fabric, R: Threads + Wait + Sync, G: Gate>(
    crew: &Crew<R, G>,
    alloc: Global,
    world: &mut World<AllActs>,
    held: bool,
    sink: &mut K,
    fabric: &mut F,
) -> Result<(), SessionFault>
    requires rest { held ≡ false → IsRested world.old }
    requires jobs { NoneRuns world.old.nodes }

    ensures carrying { Carries world.old (F.flight fabric.old) (F.trace fabric.old) → Carries world.new (F.flight fabric.new) (F.trace fabric.new) }
    ensures hears { KeepsLatest world.old.hand (F.latest fabric.old) world.new.hand (F.latest fabric.new) }
    ensures count { length world.new.nodes ≡ length world.old.nodes }
    ensures profile { world.new.profile ≡ world.old.profile }
    ensures unfed { IsUnfed world.old.journal.entries world.new.journal.entries }
    ensures still { held ≡ false → (result ≡ Ok tt) × (world.new.journal.entries ≡ world.old.journal.entries) }
    ensures rest { OnOk result (IsRested world.new) }
    ensures held { OnOk result (K.held sink.new ≡ followed (K.held sink.old) (concat (prints_of (drop (length world.old.journal.entries) world.new.journal.entries)))) }
    ensures err { IfErr result (λ fault. IsEndCutBy fault world.old.journal.entries world.new.journal.entries (K.held sink.old) (K.held sink.new)) }

    ensures write { result ≡ Err SessionFault.Write → Rose (K.faults sink.old) (K.faults sink.new) }
    ensures fabric { result ≡ Err SessionFault.Fabric → Rose (F.faults fabric.old) (F.faults fabric.new) }
    ensures full { result ≡ Err SessionFault.JournalFull → HasRoom world.new.journal.entries → ⊥ }
    ensures room { HasRoom world.old.journal.entries → result ≢ Err SessionFault.JournalFull → HasRoom world.new.journal.entries }
    ensures shown { IfErr result (λ fault. IsShown fault world.new (F.latest fabric.new)) }
    ensures told { Carries world.old (F.flight fabric.old) (F.trace fabric.old) → IfErr result NoBreach }
    ensures write_only { result ≢ Err SessionFault.Write → K.faults sink.new ≡ K.faults sink.old }
    ensures fabric_only { result ≢ Err SessionFault.Fabric → F.faults fabric.new ≡ F.faults fabric.old }
{
    if !held {
        return Ok(());
    }
    let from = world.journal().entries();
    settle(crew, alloc, world, fabric)?;
    show(world.journal(), from, sink)
}

/// Writes the commands, does what comes before the first line, and serves each line.
fn serve_lines<S: Source, K: Sink, F: Fabric, R: Threads + Wait + Sync, G: Gate>(
    crew: &Crew<R, G>,
    alloc: Global,
    console: UserConsole,
    world: &mut World<AllActs>,
    progress: &mut Progress,
    source: &mut S,
    sink: &mut K,
    fabric: &mut F,
) -> Result<(), SessionFault>
    requires free { progress.old.held ≡ false }
    requires first { progress.old.cuts.items ≡ [] }
    requires empty { world.old.journal.entries ≡ [] }
    requires quiet { IsQuiet world.old.nodes world.old.hand }

    ensures whole { (input : _) → S.left source.old ≡ Some input →
        OnOk result (IsWhole console (ByJournal (rules world.old) progress.new.cuts.items) input world.new.journal.entries (K.held sink.old) (K.held sink.new)) }
    ensures reads { (input : _) → S.left source.old ≡ Some input → IsReadFrom input (S.left source.new) (S.taken source.old) (S.taken source.new) }
    ensures limit { S.taken source.new ≤ S.taken source.old + 67108864 }
    ensures read_up { (input : _) → S.left source.old ≡ Some input → OnOk result (IsReadUp input (S.left source.new)) }
    ensures ended { (input : _) → S.left source.old ≡ Some input →
        IfErr result (λ fault. IsEndedBy console fault (ByJournal (rules world.old) progress.new.cuts.items) input (S.left source.new) world.new.journal.entries (K.held sink.old) (K.held sink.new)) }
    ensures short { (input : _) → S.left source.old ≡ Some input → result ≡ Err SessionFault.OutOfMemory →
        IsShort console (ByJournal (rules world.old) progress.new.cuts.items) input (S.left source.new) world.new.journal.entries (K.held sink.old) (K.held sink.new) }
    ensures begun { (input : _) → S.left source.old ≡ Some input →
        IsBegun console (ByJournal (rules world.old) progress.new.cuts.items) input world.new.journal.entries (K.held sink.old) (K.held sink.new) }
    ensures read_on { (input : _) → S.left source.old ≡ Some input → (result ≡ Err SessionFault.Read) ⊎ (result ≡ Err SessionFault.InputFull) →
        IsReadOn (S.taken source.new - S.taken source.old) (length progress.new.cuts.items) input (S.left source.new) }
    ensures taken { result ≡ Err SessionFault.InputFull → S.taken source.new ≡ S.taken source.old + 67108864 }
    ensures few { length progress.new.cuts.items ≤ 67108865 }

    ensures rest { OnOk result (IsRested world.new) }
    ensures carrying { Carries world.old (F.flight fabric.old) (F.trace fabric.old) → Carries world.new (F.flight fabric.new) (F.trace fabric.new) }
    ensures hears { KeepsLatest world.old.hand (F.latest fabric.old) world.new.hand (F.latest fabric.new) }
    ensures count { length world.new.nodes ≡ length world.old.nodes }
    ensures profile { world.new.profile ≡ world.old.profile }

    ensures read { result ≡ Err SessionFault.Read → Rose (S.faults source.old) (S.faults source.new) }
    ensures write { result ≡ Err SessionFault.Write → Rose (K.faults sink.old) (K.faults sink.new) }
    ensures fabric { result ≡ Err SessionFault.Fabric → Rose (F.faults fabric.old) (F.faults fabric.new) }
    ensures full { result ≡ Err SessionFault.JournalFull → HasRoom world.new.journal.entries → ⊥ }
    ensures room { result ≢ Err SessionFault.JournalFull → HasRoom world.new.journal.entries }
    ensures read_only { result ≢ Err SessionFault.Read → S.faults source.new ≡ S.faults source.old }
    ensures shown { IfErr result (λ fault. IsShown fault world.new (F.latest fabric.new)) }
    ensures told { Carries world.old (F.flight fabric.old) (F.trace fabric.old) → IfErr result NoBreach }
    ensures write_only { result ≢ Err SessionFault.Write → K.faults sink.new ≡ K.faults sink.old }
    ensures fabric_only { result ≢ Err SessionFault.Fabric → F.faults fabric.new ≡ F.faults fabric.old }
{
    write(sink, console.commands())?;
    open(crew, alloc, console, world, fabric)?;
    let mut reader = LineReader::new(alloc);
    while serve_line(
        crew,
        alloc,
        console,
        world,
        &mut reader,
        progress,
        source,
        sink,
        fabric,
    )? {}
    let held = progress.held;
    let_go(crew, alloc, world, held, sink, fabric)
}

/// A session of a console, from the first text to the last prompt. Its world is at boot. The numbers are how long the journal
/// was behind each line that was handled.
pub fn serve<S: Source, K: Sink, F: Fabric, R: Threads + Wait + Sync, G: Gate>(
    crew: &Crew<R, G>,
    alloc: Global,
    console: UserConsole,
    world: &mut World<AllActs>,
    source: &mut S,
    sink: &mut K,
    fabric: &mut F,
) -> (Vec<u64>, Result<(), SessionFault>)
    requires empty { world.old.journal.entries ≡ [] }
    requires quiet { IsQuiet world.old.nodes world.old.hand }

    ensures served { let x = ports_of (S.left source.old) (S.taken source.old) (K.held sink.old) (S.faults source.old) (K.faults sink.old) (F.faults fabric.old) in
        let z = ports_of (S.left source.new) (S.taken source.new) (K.held sink.new) (S.faults source.new) (K.faults sink.new) (F.faults fabric.new) in
        (input : _) → S.left source.old ≡ Some input →
        HasServed console (ByJournal (rules world.old) result.0.items) (status_after result.1) input (Some world.new) x z }
    ensures cause { let x = ports_of (S.left source.old) (S.taken source.old) (K.held sink.old) (S.faults source.old) (K.faults sink.old) (F.faults fabric.old) in
        let z = ports_of (S.left source.new) (S.taken source.new) (K.held sink.new) (S.faults source.new) (K.faults sink.new) (F.faults fabric.new) in
        HasCause (status_after result.1) (Some world.new) x z }
    ensures status { Carries world.old (F.flight fabric.old) (F.trace fabric.old) → IsStatus (status_after result.1) }
    ensures shown { IfErr result.1 (λ fault. IsShown fault world.new (F.latest fabric.new)) }
    ensures few { length result.0.items ≤ 67108865 }
    ensures rest { OnOk result.1 (IsRested world.new) }
    ensures carrying { Carries world.old (F.flight fabric.old) (F.trace fabric.old) → Carries world.new (F.flight fabric.new) (F.trace fabric.new) }
    ensures hears { KeepsLatest world.old.hand (F.latest fabric.old) world.new.hand (F.latest fabric.new) }
    ensures count { length world.new.nodes ≡ length world.old.nodes }
    ensures profile { world.new.profile ≡ world.old.profile }
{
    let mut progress = Progress::new(alloc);
    let served = serve_lines(
        crew,
        alloc,
        console,
        world,
        &mut progress,
        source,
        sink,
        fabric,
    );
    (progress.cuts, served)
}
