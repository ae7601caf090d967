//! `load`: the lines of a made session are fed, and what they come to is written as one line. It has no source.
ghost use Rattle.std.specs.Prelude.{◌∷◌, ◌++◌, ◌≡◌, ◌≢◌, ◌≤◌, ◌<◌, ◌⊎◌, [], Err, Some, None, OnOk, IfOk, IfErr, IfSome, drop, false, length};
ghost use Rattle.std.specs.List.{concat, slice_get};
ghost use Rattle.hpx_value.specs.Profiles.{IsValid};
ghost use Rattle.hpx_journal.specs.Pool.{prints_by, prints_of};
ghost use Rattle.hpx_journal.specs.Weights.{HasRoom};
ghost use Rattle.hpx_ports.specs.Faults.{Rose};
ghost use Rattle.hpx_world.specs.Heard.{IsLatest, KeepsLatest};
ghost use Rattle.hpx_top.specs.Breaches.{IsShown, IsShownIn, NoBreach};
ghost use Rattle.hpx_world.specs.Quiet.{IsQuiet};
ghost use Rattle.app_console.specs.Lines.{is_long};
ghost use Rattle.hpx_top.specs.Loaded.{counted, number_told, FeedsFirst, IsBounded, IsLoading, IsSummed, IsUnloaded, WritesSo};
ghost use Rattle.app_load.specs.Session.{IsNext};
ghost use Rattle.hpx_top.specs.Runs.{ports_of, HasCause, HasEnded, IsLawful};
ghost use Rattle.hpx_top.specs.Session.{rules, Carries, Feeds, FeedsAtMost, IsRested};
ghost use Rattle.hpx_top.specs.Statuses.{IsStatus, status_after};

use crate::acts::AllActs;
use crate::crew::Crew;
use crate::session::{SessionFault, feed, write};
use crate::task::Workload;
use app_console::console::number;
use app_console::lines::{SPACE, marked};
use app_load::line::{is_error, summary};
use app_load::session::Session;
use hpx_journal::entry::{Entry, Event};
use hpx_journal::journal::Journal;
use hpx_ports::fabric::Fabric;
use hpx_ports::gate::Gate;
use hpx_ports::sink::Sink;
use hpx_value::items::Text;
use hpx_value::memory::OutOfMemory;
use hpx_value::profile::Profile;
use hpx_world::world::World;
use std::alloc::Global;
use std::sync::Wait;
use std::thread::Threads;

/// How many lines make the objects, before those that are made from a number.
const FIRST: u32 = 8;

/// What was counted of a session so far: how many lines were fed, how many of those behind the first eight print an error, and the sum
/// of the numbers that the queries print.
#[derive(Clone, Copy, Debug, PartialEq, Eq)]
pub(crate) struct Tally {
    pub fed: u32,
    pub errors: u32,
    pub sum: i128,
}

/// The number that a text tells before its newline, 0 where it tells none.
fn number_told(text: &[u8]) -> i64
    ensures { result ≡ number_told text.now }
{
    number(&text[..text.len().saturating_sub(1)]).unwrap_or(0)
}

impl Tally {
    /// One more line, of those made so many, printed this text.
    fn count(&mut self, lines: u32, text: &[u8])
        requires bounded { IsBounded self.old }
        requires few { self.old.fed < 4000000000 }
        requires lines { lines ≤ 20000 }
        ensures counted { self.new ≡ counted lines self.old text.now }
        ensures bounded { IsBounded self.new }
    {
        if self.fed >= FIRST + lines {
            self.sum += i128::from(number_told(text));
        } else if self.fed >= FIRST && is_error(text) {
            self.errors += 1;
        }
        self.fed += 1;
    }
}

/// What an entry prints.
fn printed_by(entry: &Entry) -> &[u8]
    ensures { result.now ≡ concat (prints_by entry.now.event) }
{
    match &entry.event {
        Event::Print { bytes } => bytes.as_slice(),
        _ => &[],
    }
}

/// Adds what one entry prints.
fn push_printed(journal: &Journal, i: u64, text: &mut Vec<u8>) -> Result<(), OutOfMemory>
    requires { i < length journal.now.entries }
    ensures { (entry : _) → slice_get journal.now.entries i ≡ Some entry → OnOk result (text.new.items ≡ text.old.items ++ concat (prints_by entry.event)) }
{
    match journal.entry(i) {
        Some(entry) => Ok(text.extend_from_slice(printed_by(entry))?),
        None => Ok(()),
    }
}

/// What was printed since a cut of the journal.
fn printed_since(alloc: Global, journal: &Journal, cut: u64) -> Result<Vec<u8>, OutOfMemory>
    requires within { cut ≤ length journal.now.entries }
    ensures { IfOk result (λ text. text.items ≡ concat (prints_of (drop cut journal.now.entries))) }
{
    let mut text = Vec::new(alloc);
    for i in cut..journal.entries() {
        push_printed(journal, i, &mut text)?;
    }
    Ok(text)
}

/// Feeds a line of a session, of those made so many, and counts what it prints.
fn load_line<F: Fabric, R: Threads + Wait + Sync, G: Gate>(
    crew: &Crew<R, G>,
    alloc: Global,
    lines: u32,
    world: &mut World<AllActs>,
    tally: &mut Tally,
    line: &Text,
    fabric: &mut F,
) -> Result<(), SessionFault>
    requires short { is_long line.now ≡ false }
    requires lines { lines ≤ 20000 }
    requires few { tally.old.fed < 4000000000 }
    requires bounded { IsBounded tally.old }
    requires room { HasRoom world.old.journal.entries }
    requires quiet { IsQuiet world.old.nodes world.old.hand }

    ensures carrying { Carries world.old (F.flight fabric.old) (F.trace fabric.old) → Carries world.new (F.flight fabric.new) (F.trace fabric.new) }
    ensures hears { KeepsLatest world.old.hand (F.latest fabric.old) world.new.hand (F.latest fabric.new) }
    ensures count { length world.new.nodes ≡ length world.old.nodes }
    ensures profile { world.new.profile ≡ world.old.profile }
    ensures fed { OnOk result (Feeds (rules world.old) (115 ∷ line.now) world.old.journal.entries world.new.journal.entries) }
    ensures counted { OnOk result (tally.new ≡ counted lines tally.old (concat (prints_of (drop (length world.old.journal.entries) world.new.journal.entries)))) }
    ensures bounded { OnOk result (IsBounded tally.new) }
    ensures rest { OnOk result (IsRested world.new) }
    ensures once { FeedsAtMost (115 ∷ line.now) world.old.journal.entries world.new.journal.entries }

    ensures fabric { result ≡ Err SessionFault.Fabric → Rose (F.faults fabric.old) (F.faults fabric.new) }
    ensures full { result ≡ Err SessionFault.JournalFull → HasRoom world.new.journal.entries → ⊥ }
    ensures room { result ≢ Err SessionFault.JournalFull → HasRoom world.new.journal.entries }
    ensures other { (result ≢ Err SessionFault.Read) × (result ≢ Err SessionFault.Write) × (result ≢ Err SessionFault.InputFull) }
    ensures shown { IfErr result (λ fault. IsShown fault world.new (F.latest fabric.new)) }
    ensures told { Carries world.old (F.flight fabric.old) (F.trace fabric.old) → IfErr result NoBreach }
    ensures stands { result ≢ Err SessionFault.Fabric → F.faults fabric.new ≡ F.faults fabric.old }
{
    let Ok(text) = marked(alloc, SPACE, line.as_slice()) else {
        return Err(SessionFault::OutOfMemory);
    };
    let cut = world.journal().entries();
    feed(crew, alloc, world, text, fabric)?;
    match printed_since(alloc, world.journal(), cut) {
        Ok(printed) => {
            tally.count(lines, printed.as_slice());
            Ok(())
        }
        Err(OutOfMemory) => Err(SessionFault::OutOfMemory),
    }
}

/// The next line of a session.
fn next_line(alloc: Global, session: &mut Session) -> Result<Option<Text>, SessionFault>
    ensures next { IfOk result (λ line. IsNext line session.old session.new) }
    ensures cause { IfErr result (λ fault. fault ≡ SessionFault.OutOfMemory) }
{
    match session.next(alloc) {
        Ok(line) => Ok(line),
        Err(OutOfMemory) => Err(SessionFault::OutOfMemory),
    }
}

/// Feeds the lines of a session at boot, one by one, each once nothing is under way, and counts what they print.
fn load_lines<F: Fabric, R: Threads + Wait + Sync, G: Gate>(
    crew: &Crew<R, G>,
    alloc: Global,
    localities: u32,
    load: Workload,
    world: &mut World<AllActs>,
    fabric: &mut F,
) -> Result<Tally, SessionFault>
    requires some { 1 ≤ localities }
    requires few { localities ≤ 64 }
    requires lines { load.lines ≤ 20000 }
    requires places { length world.old.nodes ≡ localities }
    requires empty { world.old.journal.entries ≡ [] }
    requires quiet { IsQuiet world.old.nodes world.old.hand }

    ensures carrying { Carries world.old (F.flight fabric.old) (F.trace fabric.old) → Carries world.new (F.flight fabric.new) (F.trace fabric.new) }
    ensures hears { KeepsLatest world.old.hand (F.latest fabric.old) world.new.hand (F.latest fabric.new) }
    ensures count { length world.new.nodes ≡ length world.old.nodes }
    ensures profile { world.new.profile ≡ world.old.profile }
    ensures loaded { IfOk result (λ tally. IsLoading (rules world.old) load [] world.new.journal.entries tally) }
    ensures fed { FeedsFirst (rules world.old) load world.new.journal.entries }
    ensures rest { OnOk result (IsRested world.new) }

    ensures fabric { result ≡ Err SessionFault.Fabric → Rose (F.faults fabric.old) (F.faults fabric.new) }
    ensures full { result ≡ Err SessionFault.JournalFull → HasRoom world.new.journal.entries → ⊥ }
    ensures room { result ≢ Err SessionFault.JournalFull → HasRoom world.new.journal.entries }
    ensures other { (result ≢ Err SessionFault.Read) × (result ≢ Err SessionFault.Write) × (result ≢ Err SessionFault.InputFull) }
    ensures shown { IfErr result (λ fault. IsShown fault world.new (F.latest fabric.new)) }
    ensures told { Carries world.old (F.flight fabric.old) (F.trace fabric.old) → IfErr result NoBreach }
    ensures stands { result ≢ Err SessionFault.Fabric → F.faults fabric.new ≡ F.faults fabric.old }
{
    world.law();
    let mut session = Session::new(load.start, load.lines, localities);
    let mut tally = Tally {
        fed: 0,
        errors: 0,
        sum: 0,
    };
    'lines: while let Some(line) = next_line(alloc, &mut session)? {
        load_line(crew, alloc, load.lines, world, &mut tally, &line, fabric)?;
    }
    Ok(tally)
}

/// What a session comes to, whose lines were all fed.
fn summed(
    alloc: Global,
    load: Workload,
    world: &World<AllActs>,
    tally: Tally,
) -> Result<Vec<u8>, OutOfMemory>
    requires loaded { IsLoading (rules world.now) load [] world.now.journal.entries tally }
    ensures { IfOk result (λ text. IsSummed (rules world.now) load world.now.journal.entries text.items) }
{
    world.law();
    let live = world.audit(alloc)?.len();
    summary(alloc, load.lines, tally.errors, live, tally.sum)
}

/// Writes what a session comes to.
fn write_sum<K: Sink>(
    alloc: Global,
    load: Workload,
    world: &World<AllActs>,
    tally: Tally,
    sink: &mut K,
) -> Result<(), SessionFault>
    requires loaded { IsLoading (rules world.now) load [] world.now.journal.entries tally }
    ensures loaded { OnOk result (WritesSo (IsSummed (rules world.now) load world.now.journal.entries) (K.held sink.old) (K.held sink.new)) }
    ensures unloaded { IfErr result (λ fault. IsUnloaded fault (rules world.now) load world.now.journal.entries (K.held sink.old) (K.held sink.new)) }
    ensures cause { IfErr result (λ fault. ((fault ≡ SessionFault.Write) × Rose (K.faults sink.old) (K.faults sink.new))
        ⊎ ((fault ≡ SessionFault.OutOfMemory) × (K.faults sink.new ≡ K.faults sink.old))) }
    ensures stands { OnOk result (K.faults sink.new ≡ K.faults sink.old) }
{
    match summed(alloc, load, world, tally) {
        Ok(text) => write(sink, text.as_slice()),
        Err(OutOfMemory) => Err(SessionFault::OutOfMemory),
    }
}

/// Feeds the lines of a session at boot, and writes what they come to.
fn load_made<K: Sink, F: Fabric, R: Threads + Wait + Sync, G: Gate>(
    crew: &Crew<R, G>,
    alloc: Global,
    localities: u32,
    load: Workload,
    world: &mut World<AllActs>,
    sink: &mut K,
    fabric: &mut F,
) -> Result<(), SessionFault>
    requires some { 1 ≤ localities }
    requires few { localities ≤ 64 }
    requires lines { load.lines ≤ 20000 }
    requires places { length world.old.nodes ≡ localities }
    requires empty { world.old.journal.entries ≡ [] }
    requires quiet { IsQuiet world.old.nodes world.old.hand }

    ensures carrying { Carries world.old (F.flight fabric.old) (F.trace fabric.old) → Carries world.new (F.flight fabric.new) (F.trace fabric.new) }
    ensures hears { KeepsLatest world.old.hand (F.latest fabric.old) world.new.hand (F.latest fabric.new) }
    ensures count { length world.new.nodes ≡ length world.old.nodes }
    ensures profile { world.new.profile ≡ world.old.profile }
    ensures loaded { OnOk result (WritesSo (IsSummed (rules world.old) load world.new.journal.entries) (K.held sink.old) (K.held sink.new)) }
    ensures unloaded { IfErr result (λ fault. IsUnloaded fault (rules world.old) load world.new.journal.entries (K.held sink.old) (K.held sink.new)) }
    ensures fed { FeedsFirst (rules world.old) load world.new.journal.entries }
    ensures rest { OnOk result (IsRested world.new) }

    ensures write { result ≡ Err SessionFault.Write → Rose (K.faults sink.old) (K.faults sink.new) }
    ensures fabric { result ≡ Err SessionFault.Fabric → Rose (F.faults fabric.old) (F.faults fabric.new) }
    ensures full { result ≡ Err SessionFault.JournalFull → HasRoom world.new.journal.entries → ⊥ }
    ensures room { result ≢ Err SessionFault.JournalFull → HasRoom world.new.journal.entries }
    ensures no_read { (result ≢ Err SessionFault.Read) × (result ≢ Err SessionFault.InputFull) }
    ensures shown { IfErr result (λ fault. IsShown fault world.new (F.latest fabric.new)) }
    ensures told { Carries world.old (F.flight fabric.old) (F.trace fabric.old) → IfErr result NoBreach }
    ensures write_only { result ≢ Err SessionFault.Write → K.faults sink.new ≡ K.faults sink.old }
    ensures fabric_only { result ≢ Err SessionFault.Fabric → F.faults fabric.new ≡ F.faults fabric.old }
{
    let tally = load_lines(crew, alloc, localities, load, world, fabric)?;
    write_sum(alloc, load, world, tally, sink)
}

/// Feeds the lines of a session to so many localities, and writes what they come to.
pub(crate) fn load_all<K: Sink, F: Fabric, R: Threads + Wait + Sync, G: Gate>(
    crew: &Crew<R, G>,
    alloc: Global,
    localities: u32,
    profile: Profile,
    load: Workload,
    sink: &mut K,
    fabric: &mut F,
) -> (Option<World<AllActs>>, Result<(), SessionFault>)
    requires some { 1 ≤ localities }
    requires few { localities ≤ 64 }
    requires profile { IsValid profile }
    requires lines { load.lines ≤ 20000 }

    ensures loaded { IfSome result.0 (λ w. OnOk result.1 (WritesSo (IsSummed (rules w) load w.journal.entries) (K.held sink.old) (K.held sink.new))) }
    ensures unloaded { IfSome result.0 (λ w.
        IfErr result.1 (λ fault. IsUnloaded fault (rules w) load w.journal.entries (K.held sink.old) (K.held sink.new))) }
    ensures fed { IfSome result.0 (λ w. FeedsFirst (rules w) load w.journal.entries) }
    ensures cause { let x = ports_of None 0 (K.held sink.old) 0 (K.faults sink.old) (F.faults fabric.old) in
        let z = ports_of None 0 (K.held sink.new) 0 (K.faults sink.new) (F.faults fabric.new) in
        HasCause (status_after result.1) result.0 x z }
    ensures status { F.flight fabric.old ≡ Some [] → F.trace fabric.old ≡ Some [] → IsStatus (status_after result.1) }
    ensures shown { IfErr result.1 (λ fault. IsShownIn fault result.0 (F.latest fabric.new)) }
    ensures no_read { (result.1 ≢ Err SessionFault.Read) × (result.1 ≢ Err SessionFault.InputFull) }
    ensures places { IfSome result.0 (λ w. (length w.nodes ≡ localities) × (w.profile ≡ profile)) }
    ensures lawful { IfSome result.0 IsLawful }
    ensures carrying { F.flight fabric.old ≡ Some [] → F.trace fabric.old ≡ Some [] → IfSome result.0 (λ w. Carries w (F.flight fabric.new) (F.trace fabric.new)) }
    ensures hears { IfSome result.0 (λ w. IsLatest w.hand (F.latest fabric.new)) }
    ensures ended { OnOk result.1 (IfSome result.0 HasEnded) }
    ensures none { result.0 ≡ None → result.1 ≡ Err SessionFault.OutOfMemory }
    ensures untouched { result.0 ≡ None → (sink.new ≡ sink.old) × (fabric.new ≡ fabric.old) }
{
    let mut world = match World::boot(alloc, AllActs { localities }, profile) {
        Ok(world) => world,
        Err(_) => return (None, Err(SessionFault::OutOfMemory)),
    };
    let loaded = load_made(crew, alloc, localities, load, &mut world, sink, fabric);
    world.law();
    (Some(world), loaded)
}
