//! What a session does with its world and its sink: texts are fed, all comes to rest, and what is printed is written.
ghost use Rattle.std.specs.Prelude.{◌≡◌, ◌≢◌, ◌≤◌, ◌<◌, ◌⊎◌, ℕ, [], Ok, Err, Some, OnOk, OnErr, IfErr, length, drop, true, false, slice_get};
ghost use Rattle.std.specs.List.{concat};
ghost use Rattle.hpx_journal.specs.Pool.{prints_by, prints_of};
ghost use Rattle.hpx_journal.specs.Weights.{HasRoom};
ghost use Rattle.hpx_journal.specs.Whole.{IsCarried};
ghost use Rattle.hpx_hold.specs.Home.{GrowsAtHome};
ghost use Rattle.hpx_ports.specs.Faults.{Rose};
ghost use Rattle.hpx_ports.specs.Told.{followed};
ghost use Rattle.hpx_world.specs.Heard.{KeepsLatest};
ghost use Rattle.hpx_top.specs.Breaches.{breach_in, breach_of, IsOfTurn, IsShown, NoBreach};
ghost use Rattle.hpx_world.specs.Promises.{KeepsPromises};
ghost use Rattle.hpx_world.specs.Quiet.{IsQuiet, NoneRuns};
ghost use Rattle.hpx_world.specs.Steps.{IsUnfed};
ghost use Rattle.hpx_world.specs.Turns.{DidFeed};
ghost use Rattle.hpx_world.specs.declared.turns.Turned.{Turned};
ghost use Rattle.app_console.specs.Lines.{opening};
ghost use Rattle.hpx_top.specs.Session.{rules, Carries, IsRested, FeedsAtMost, Feeds, HasOpened, WritesFront};

use crate::acts::AllActs;
use crate::breach::Breach;
use crate::consoles::UserConsole;
use crate::crew::Crew;
use app_console::lines::opening;
use hpx_journal::entry::{Entry, Event};
use hpx_journal::journal::Journal;
use hpx_ports::fabric::Fabric;
use hpx_ports::fault::Failed;
use hpx_ports::gate::Gate;
use hpx_ports::sink::{Sink, write_all};
use hpx_site::workers::drain_by;
use hpx_value::items::Text;
use hpx_world::turns::{Choice, WorldFault};
use hpx_world::world::World;
use std::alloc::Global;
use std::sync::Wait;
use std::thread::Threads;
use thiserror::Error;

/// Why a session ends before its input does.
#[derive(Clone, Copy, Debug, PartialEq, Eq, Error)]
pub enum SessionFault {
    #[error("read failed")]
    Read,
    #[error("write failed")]
    Write,
    #[error("fabric failed")]
    Fabric,
    #[error("journal full")]
    JournalFull,
    #[error("out of memory")]
    OutOfMemory,
    #[error("not carried as it was sent")]
    Broken(Breach),
    #[error("input full")]
    InputFull,
}

impl SessionFault {
    /// The breach, if it is one.
    pub fn breach(self) -> Option<Breach>
        ensures { result ≡ breach_in self }
    {
        match self {
            SessionFault::Broken(breach) => Some(breach),
            SessionFault::Read => None,
            SessionFault::Write => None,
            SessionFault::Fabric => None,
            SessionFault::JournalFull => None,
            SessionFault::OutOfMemory => None,
            SessionFault::InputFull => None,
        }
    }
}

pub(crate) fn write<K: Sink>(sink: &mut K, bytes: &[u8]) -> Result<(), SessionFault>
    ensures held { OnOk result (K.held sink.new ≡ followed (K.held sink.old) bytes.now) }
    ensures front { OnErr result (WritesFront bytes.now (K.held sink.old) (K.held sink.new)) }
    ensures cause { IfErr result (λ fault. (fault ≡ SessionFault.Write) × Rose (K.faults sink.old) (K.faults sink.new)) }
    ensures stands { OnOk result (K.faults sink.new ≡ K.faults sink.old) }
{
    match write_all(sink, bytes) {
        Ok(()) => Ok(()),
        Err(Failed) => Err(SessionFault::Write),
    }
}

/// What an entry prints.
fn printed_by(entry: &Entry) -> &[u8]
    ensures { result.now ≡ concat (prints_by entry.now.event) }
{
    match &entry.event {
        Event::Print { bytes } => bytes.as_slice(),
        _ => &[],
    }
}

/// Writes what one entry prints.
fn show_entry<K: Sink>(journal: &Journal, i: u64, sink: &mut K) -> Result<(), SessionFault>
    requires there { i < length journal.now.entries }
    ensures held { (entry : _) → slice_get journal.now.entries i ≡ Some entry → OnOk result (K.held sink.new ≡ followed (K.held sink.old) (concat (prints_by entry.event))) }
    ensures front { (entry : _) → slice_get journal.now.entries i ≡ Some entry → OnErr result (WritesFront (concat (prints_by entry.event)) (K.held sink.old) (K.held sink.new)) }
    ensures cause { IfErr result (λ fault. (fault ≡ SessionFault.Write) × Rose (K.faults sink.old) (K.faults sink.new)) }
    ensures stands { OnOk result (K.faults sink.new ≡ K.faults sink.old) }
{
    match journal.entry(i) {
        Some(entry) => write(sink, printed_by(entry)),
        None => Ok(()),
    }
}

/// Writes what was printed since a cut of the journal.
pub fn show<K: Sink>(journal: &Journal, cut: u64, sink: &mut K) -> Result<(), SessionFault>
    requires within { cut ≤ length journal.now.entries }
    ensures held { OnOk result (K.held sink.new ≡ followed (K.held sink.old) (concat (prints_of (drop cut journal.now.entries)))) }
    ensures front { OnErr result (WritesFront (concat (prints_of (drop cut journal.now.entries))) (K.held sink.old) (K.held sink.new)) }
    ensures cause { IfErr result (λ fault. (fault ≡ SessionFault.Write) × Rose (K.faults sink.old) (K.faults sink.new)) }
    ensures stands { OnOk result (K.faults sink.new ≡ K.faults sink.old) }
{
    for i in cut..journal.entries() {
        show_entry(journal, i, sink)?;
    }
    Ok(())
}

/// What a refusal of the world is for a session. A job that was not run is want of memory only where its journal has room.
pub(crate) fn fault_of(fault: WorldFault<AllActs>, room: bool) -> SessionFault
    ensures fabric { result ≡ SessionFault.Fabric → fault ≡ WorldFault.Fabric }
    ensures fabric_too { fault ≡ WorldFault.Fabric → result ≡ SessionFault.Fabric }
    ensures full { result ≡ SessionFault.JournalFull →
        ((e w : ℕ) × (u : _) × (fault ≡ WorldFault.JournalFull e w u)) ⊎ ((job : _) × (fault ≡ WorldFault.NotRun job) × (room ≡ false)) }
    ensures full_too { (e w : ℕ) (u : _) → fault ≡ WorldFault.JournalFull e w u → result ≡ SessionFault.JournalFull }
    ensures memory { result ≡ SessionFault.OutOfMemory →
        ((u : _) × (fault ≡ WorldFault.OutOfMemory u)) ⊎ ((job : _) × (fault ≡ WorldFault.NotRun job) × (room ≡ true)) }
    ensures broken { breach_in result ≡ breach_of fault }
    ensures other { (result ≢ SessionFault.Read) × (result ≢ SessionFault.Write) × (result ≢ SessionFault.InputFull) }
{
    match fault {
        WorldFault::Fabric => SessionFault::Fabric,
        WorldFault::BadFrame { to, at, why } => SessionFault::Broken(Breach::BadFrame {
            to,
            at,
            why,
        }),
        WorldFault::Strange {
            to,
            rule,
            object,
            kept,
        } => SessionFault::Broken(Breach::Strange {
            to,
            rule,
            object,
            kept,
        }),
        WorldFault::EarlyEnd { sent, taken } => SessionFault::Broken(Breach::EarlyEnd {
            sent,
            taken,
        }),
        WorldFault::JournalFull {
            entries: _,
            weight: _,
            undone: _,
        } => SessionFault::JournalFull,
        WorldFault::OutOfMemory { undone: _ } => SessionFault::OutOfMemory,
        WorldFault::NotRun { job: _ } if room => SessionFault::OutOfMemory,
        WorldFault::NotRun { job: _ } => SessionFault::JournalFull,
    }
}

/// Has a text fed. At a refusal the journal stays.
pub(crate) fn begin<F: Fabric>(
    alloc: Global,
    world: &mut World<AllActs>,
    text: Text,
    fabric: &mut F,
) -> Result<(), SessionFault>
    requires short { length text ≤ 1025 }

    ensures carrying { Carries world.old (F.flight fabric.old) (F.trace fabric.old) → Carries world.new (F.flight fabric.new) (F.trace fabric.new) }
    ensures hears { KeepsLatest world.old.hand (F.latest fabric.old) world.new.hand (F.latest fabric.new) }
    ensures count { length world.new.nodes ≡ length world.old.nodes }
    ensures profile { world.new.profile ≡ world.old.profile }
    ensures fed { OnOk result ((turned : Turned) × DidFeed text turned world.old.nodes world.new.nodes world.old.journal.entries world.new.journal.entries) }
    ensures jobs { OnOk result (NoneRuns world.old.nodes → NoneRuns world.new.nodes) }
    ensures home { OnOk result (GrowsAtHome world.old.journal.entries world.new.journal.entries) }
    ensures same { OnErr result (world.new.journal.entries ≡ world.old.journal.entries) }
    ensures apart { fabric.new ≡ fabric.old }

    ensures full { result ≡ Err SessionFault.JournalFull → HasRoom world.new.journal.entries → ⊥ }
    ensures fabric { result ≡ Err SessionFault.Fabric → Rose (F.faults fabric.old) (F.faults fabric.new) }
    ensures room { result ≢ Err SessionFault.JournalFull → HasRoom world.old.journal.entries }
    ensures cause { IfErr result (λ fault. (fault ≡ SessionFault.Fabric) ⊎ (fault ≡ SessionFault.JournalFull) ⊎ (fault ≡ SessionFault.OutOfMemory)) }
{
    world.law();
    match world.turn(alloc, Choice::Feed(text), fabric) {
        Ok(_) => Ok(()),
        Err(fault) => Err(fault_of(fault, world.journal().room())),
    }
}

/// Lets the world come to rest, by those who run its bodies.
pub(crate) fn settle<F: Fabric, R: Threads + Wait + Sync, G: Gate>(
    crew: &Crew<R, G>,
    alloc: Global,
    world: &mut World<AllActs>,
    fabric: &mut F,
) -> Result<(), SessionFault>
    ensures carrying { Carries world.old (F.flight fabric.old) (F.trace fabric.old) → Carries world.new (F.flight fabric.new) (F.trace fabric.new) }
    ensures hears { KeepsLatest world.old.hand (F.latest fabric.old) world.new.hand (F.latest fabric.new) }
    ensures count { length world.new.nodes ≡ length world.old.nodes }
    ensures profile { world.new.profile ≡ world.old.profile }
    ensures unfed { IsUnfed world.old.journal.entries world.new.journal.entries }
    ensures promises { IsCarried (rules world.new) [] world.new.journal.entries → KeepsPromises (rules world.new) world.new.journal.entries }
    ensures rest { NoneRuns world.old.nodes → OnOk result (IsRested world.new) }

    ensures fabric { result ≡ Err SessionFault.Fabric → Rose (F.faults fabric.old) (F.faults fabric.new) }
    ensures full { result ≡ Err SessionFault.JournalFull → HasRoom world.new.journal.entries → ⊥ }
    ensures room { result ≢ Err SessionFault.JournalFull → HasRoom world.new.journal.entries }
    ensures cause { IfErr result (λ fault. IsOfTurn fault world.new (F.latest fabric.new)) }
    ensures told { Carries world.old (F.flight fabric.old) (F.trace fabric.old) → IfErr result NoBreach }
    ensures stands { result ≢ Err SessionFault.Fabric → F.faults fabric.new ≡ F.faults fabric.old }
{
    let drained = drain_by(crew.rt, alloc, world, fabric, crew.threads, crew.gate);
    world.law();
    if let Err(fault) = drained {
        return Err(fault_of(fault, world.journal().room()));
    }
    if world.quiet() {
        Ok(())
    } else {
        // A job is out that no worker has brought back.
        Err(SessionFault::OutOfMemory)
    }
}

/// Feeds a text, and lets the world come to rest.
pub(crate) fn feed<F: Fabric, R: Threads + Wait + Sync, G: Gate>(
    crew: &Crew<R, G>,
    alloc: Global,
    world: &mut World<AllActs>,
    text: Text,
    fabric: &mut F,
) -> Result<(), SessionFault>
    requires short { length text ≤ 1025 }
    requires quiet { IsQuiet world.old.nodes world.old.hand }

    ensures carrying { Carries world.old (F.flight fabric.old) (F.trace fabric.old) → Carries world.new (F.flight fabric.new) (F.trace fabric.new) }
    ensures hears { KeepsLatest world.old.hand (F.latest fabric.old) world.new.hand (F.latest fabric.new) }
    ensures count { length world.new.nodes ≡ length world.old.nodes }
    ensures profile { world.new.profile ≡ world.old.profile }
    ensures fed { OnOk result (Feeds (rules world.old) text world.old.journal.entries world.new.journal.entries) }
    ensures rest { OnOk result (IsRested world.new) }
    ensures once { FeedsAtMost text world.old.journal.entries world.new.journal.entries }

    ensures fabric { result ≡ Err SessionFault.Fabric → Rose (F.faults fabric.old) (F.faults fabric.new) }
    ensures full { result ≡ Err SessionFault.JournalFull → HasRoom world.new.journal.entries → ⊥ }
    ensures room { result ≢ Err SessionFault.JournalFull → HasRoom world.new.journal.entries }
    ensures other { (result ≢ Err SessionFault.Read) × (result ≢ Err SessionFault.Write) × (result ≢ Err SessionFault.InputFull) }
    ensures shown { IfErr result (λ fault. IsShown fault world.new (F.latest fabric.new)) }
    ensures told { Carries world.old (F.flight fabric.old) (F.trace fabric.old) → IfErr result NoBreach }
    ensures stands { result ≢ Err SessionFault.Fabric → F.faults fabric.new ≡ F.faults fabric.old }
{
    begin(alloc, world, text, fabric)?;
    settle(crew, alloc, world, fabric)
}

/// Has the accumulator made.
fn make_accumulator<F: Fabric, R: Threads + Wait + Sync, G: Gate>(
    crew: &Crew<R, G>,
    alloc: Global,
    world: &mut World<AllActs>,
    fabric: &mut F,
) -> Result<(), SessionFault>
    requires quiet { IsQuiet world.old.nodes world.old.hand }

    ensures carrying { Carries world.old (F.flight fabric.old) (F.trace fabric.old) → Carries world.new (F.flight fabric.new) (F.trace fabric.new) }
    ensures hears { KeepsLatest world.old.hand (F.latest fabric.old) world.new.hand (F.latest fabric.new) }
    ensures count { length world.new.nodes ≡ length world.old.nodes }
    ensures profile { world.new.profile ≡ world.old.profile }
    ensures fed { OnOk result (Feeds (rules world.old) opening world.old.journal.entries world.new.journal.entries) }
    ensures rest { OnOk result (IsRested world.new) }
    ensures once { FeedsAtMost opening world.old.journal.entries world.new.journal.entries }

    ensures fabric { result ≡ Err SessionFault.Fabric → Rose (F.faults fabric.old) (F.faults fabric.new) }
    ensures full { result ≡ Err SessionFault.JournalFull → HasRoom world.new.journal.entries → ⊥ }
    ensures room { HasRoom world.old.journal.entries → result ≢ Err SessionFault.JournalFull → HasRoom world.new.journal.entries }
    ensures other { (result ≢ Err SessionFault.Read) × (result ≢ Err SessionFault.Write) × (result ≢ Err SessionFault.InputFull) }
    ensures shown { IfErr result (λ fault. IsShown fault world.new (F.latest fabric.new)) }
    ensures told { Carries world.old (F.flight fabric.old) (F.trace fabric.old) → IfErr result NoBreach }
    ensures stands { result ≢ Err SessionFault.Fabric → F.faults fabric.new ≡ F.faults fabric.old }
{
    match opening(alloc) {
        Ok(text) => feed(crew, alloc, world, text, fabric),
        Err(_) => Err(SessionFault::OutOfMemory),
    }
}

/// What is done before the first line: the accumulator is made, or nothing.
pub(crate) fn open<F: Fabric, R: Threads + Wait + Sync, G: Gate>(
    crew: &Crew<R, G>,
    alloc: Global,
    console: UserConsole,
    world: &mut World<AllActs>,
    fabric: &mut F,
) -> Result<(), SessionFault>
    requires empty { world.old.journal.entries ≡ [] }
    requires quiet { IsQuiet world.old.nodes world.old.hand }

    ensures carrying { Carries world.old (F.flight fabric.old) (F.trace fabric.old) → Carries world.new (F.flight fabric.new) (F.trace fabric.new) }
    ensures hears { KeepsLatest world.old.hand (F.latest fabric.old) world.new.hand (F.latest fabric.new) }
    ensures count { length world.new.nodes ≡ length world.old.nodes }
    ensures profile { world.new.profile ≡ world.old.profile }
    ensures opened { OnOk result (HasOpened console (rules world.old) world.old.journal.entries world.new.journal.entries) }
    ensures rest { OnOk result (IsRested world.new) }
    ensures only { OnErr result (console ≡ UserConsole.Accumulator) }
    ensures once { OnErr result (FeedsAtMost opening world.old.journal.entries world.new.journal.entries) }

    ensures fabric { result ≡ Err SessionFault.Fabric → Rose (F.faults fabric.old) (F.faults fabric.new) }
    ensures full { result ≡ Err SessionFault.JournalFull → HasRoom world.new.journal.entries → ⊥ }
    ensures room { HasRoom world.old.journal.entries → result ≢ Err SessionFault.JournalFull → HasRoom world.new.journal.entries }
    ensures other { (result ≢ Err SessionFault.Read) × (result ≢ Err SessionFault.Write) × (result ≢ Err SessionFault.InputFull) }
    ensures shown { IfErr result (λ fault. IsShown fault world.new (F.latest fabric.new)) }
    ensures told { Carries world.old (F.flight fabric.old) (F.trace fabric.old) → IfErr result NoBreach }
    ensures stands { result ≢ Err SessionFault.Fabric → F.faults fabric.new ≡ F.faults fabric.old }
{
    match console {
        UserConsole::Accumulator => make_accumulator(crew, alloc, world, fabric),
        UserConsole::Space => {
            world.law();
            Ok(())
        }
    }
}
