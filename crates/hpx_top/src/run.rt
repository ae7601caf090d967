//! The top call: all that the program does, over ports that it is given.
ghost use Rattle.std.specs.Prelude.{◌≡◌, ◌≢◌, ◌≤◌, ◌⊎◌, [], false, Ok, Some, None, Err, IfSome, OnOk, OnErr, IfErr, ℕ, length};
ghost use Rattle.hpx_value.specs.Profiles.{IsValid};
ghost use Rattle.hpx_options.specs.Texts.{bad_word_text};
ghost use Rattle.hpx_world.specs.Heard.{IsLatest};
ghost use Rattle.hpx_top.specs.Computed.{reads_input};
ghost use Rattle.hpx_ports.specs.Faults.{Rose};
ghost use Rattle.hpx_ports.specs.Told.{followed};
ghost use Rattle.hpx_top.specs.Printed.{HasTold, counters_text};
ghost use Rattle.hpx_top.specs.Runs.{ports_of, HasCause, HasDone, HasEnded, HasRun, HasServed, IsLawful, NothingFailed, Says};
ghost use Rattle.hpx_steps.specs.Rest.{rules_of};
ghost use Rattle.hpx_top.specs.Acts.{act_of};
ghost use Rattle.hpx_top.specs.Breaches.{breach_after, breach_status, IsShownIn, TellsBreach};
ghost use Rattle.hpx_top.specs.Session.{entries_in, ByJournal, Carries, WritesFront};
ghost use Rattle.hpx_top.specs.Statuses.{IsStatus, status_after, status_of, status_line};
ghost use Rattle.hpx_top.specs.Usage.{IsRequest, IsSetup, bad_word, notice_in, request_in};

use crate::acts::AllActs;
use crate::breach::Breach;
use crate::compute::{Work, compute_all, work_of};
use crate::consoles::UserConsole;
use crate::crew::Crew;
use crate::load::load_all;
use crate::printed::{print, write_values};
use crate::serve::serve;
use crate::session::SessionFault;
use crate::task::{Notice, Request, Setup, request_in};
use hpx_counters::counter::Counter;
use hpx_options::texts;
use hpx_ports::fabric::Fabric;
use hpx_ports::gate::Gate;
use hpx_ports::sink::{Sink, write_all};
use hpx_ports::source::Source;
use hpx_value::items::Texts;
use hpx_value::memory::OutOfMemory;
use hpx_value::profile::Profile;
use hpx_world::world::World;
use std::alloc::Global;
use std::sync::Wait;
use std::thread::Threads;

/// How a run ended: its status, the world where one was booted, and the fabric. There is a fault exactly at status 7 and 8.
#[derive(Drop)]
pub struct End<F: Fabric> {
    pub status: u8,
    pub world: Option<World<AllActs>>,
    pub fault: Option<Breach>,
    pub fabric: F,
    /// How long the journal was behind each line of the console that was handled; empty without a world.
    pub cuts: Vec<u64>,
}

/// The line and the status where a fabric did not carry what was sent.
fn line_of_breach(breach: Breach) -> (&'static [u8], u8)
    ensures status { result.1 ≡ breach_status breach }
    ensures line { result.0.now ≡ status_line (breach_status breach) }
{
    match breach {
        Breach::BadFrame {
            to: _,
            at: _,
            why: _,
        } => (b"hpx: bad frame\n", 7),
        Breach::Strange {
            to: _,
            rule: _,
            object: _,
            kept: _,
        } => (b"hpx: strange parcel\n", 8),
        Breach::EarlyEnd { sent: _, taken: _ } => (b"hpx: strange parcel\n", 8),
    }
}

/// The line and the status of a session that ended early.
fn line_of(fault: SessionFault) -> (&'static [u8], u8)
    ensures status { result.1 ≡ status_of fault }
    ensures line { result.0.now ≡ status_line (status_of fault) }
{
    match fault {
        SessionFault::Read => (b"hpx: read failed\n", 2),
        SessionFault::Write => (b"hpx: write failed\n", 3),
        SessionFault::Fabric => (b"hpx: fabric failed\n", 4),
        SessionFault::JournalFull => (b"hpx: journal full\n", 5),
        SessionFault::OutOfMemory => (b"hpx: out of memory\n", 6),
        SessionFault::Broken(breach) => line_of_breach(breach),
        SessionFault::InputFull => (b"hpx: input full\n", 9),
    }
}

/// The breach that a session ended with, if it did.
fn breach_after(ended: &Result<(), SessionFault>) -> Option<Breach>
    ensures { result ≡ breach_after ended.now }
{
    match ended {
        Ok(()) => None,
        Err(fault) => fault.breach(),
    }
}

/// Says something on `err`. Where that fails, nothing comes of it but the front of the line.
fn say<E: Sink>(err: &mut E, line: &[u8])
    ensures { Says line.now (record { text = E.held err.old; faults = E.faults err.old }) (record { text = E.held err.new; faults = E.faults err.new }) }
{
    match write_all(err, line) {
        Ok(()) => (),
        Err(_) => (),
    }
}

/// A session of a console over so many localities.
fn serve_all<S: Source, K: Sink, F: Fabric, R: Threads + Wait + Sync, G: Gate>(
    crew: &Crew<R, G>,
    alloc: Global,
    console: UserConsole,
    localities: u32,
    profile: Profile,
    source: &mut S,
    sink: &mut K,
    fabric: &mut F,
) -> (Option<World<AllActs>>, Result<(), SessionFault>, Vec<u64>)
    requires some { 1 ≤ localities }
    requires few { localities ≤ 64 }
    requires profile { IsValid profile }

    ensures served { let x = ports_of (S.left source.old) (S.taken source.old) (K.held sink.old) (S.faults source.old) (K.faults sink.old) (F.faults fabric.old) in
        let z = ports_of (S.left source.new) (S.taken source.new) (K.held sink.new) (S.faults source.new) (K.faults sink.new) (F.faults fabric.new) in
        (input : _) → S.left source.old ≡ Some input →
        HasServed console (ByJournal (rules_of act_of localities profile) result.2.items) (status_after result.1) input result.0 x z }
    ensures cause { let x = ports_of (S.left source.old) (S.taken source.old) (K.held sink.old) (S.faults source.old) (K.faults sink.old) (F.faults fabric.old) in
        let z = ports_of (S.left source.new) (S.taken source.new) (K.held sink.new) (S.faults source.new) (K.faults sink.new) (F.faults fabric.new) in
        HasCause (status_after result.1) result.0 x z }
    ensures status { F.flight fabric.old ≡ Some [] → F.trace fabric.old ≡ Some [] → IsStatus (status_after result.1) }
    ensures shown { IfErr result.1 (λ fault. IsShownIn fault result.0 (F.latest fabric.new)) }
    ensures places { IfSome result.0 (λ w. (length w.nodes ≡ localities) × (w.profile ≡ profile)) }
    ensures few { length result.2.items ≤ 67108865 }
    ensures lawful { IfSome result.0 IsLawful }
    ensures carrying { F.flight fabric.old ≡ Some [] → F.trace fabric.old ≡ Some [] → IfSome result.0 (λ w. Carries w (F.flight fabric.new) (F.trace fabric.new)) }
    ensures hears { IfSome result.0 (λ w. IsLatest w.hand (F.latest fabric.new)) }
    ensures ended { OnOk result.1 (IfSome result.0 HasEnded) }
    ensures none { result.0 ≡ None → result.1 ≡ Err SessionFault.OutOfMemory }
    ensures untouched { result.0 ≡ None → (source.new ≡ source.old) × (sink.new ≡ sink.old) × (fabric.new ≡ fabric.old) }
    ensures uncut { result.0 ≡ None → result.2.items ≡ [] }
{
    let mut world = match World::boot(alloc, AllActs { localities }, profile) {
        Ok(world) => world,
        Err(_) => return (None, Err(SessionFault::OutOfMemory), Vec::new(alloc)),
    };
    let (cuts, served) = serve(crew, alloc, console, &mut world, source, sink, fabric);
    world.law();
    (Some(world), served, cuts)
}

/// The task of a setup.
fn run_task<S: Source, K: Sink, F: Fabric, R: Threads + Wait + Sync, G: Gate>(
    crew: &Crew<R, G>,
    alloc: Global,
    setup: &Setup,
    source: &mut S,
    sink: &mut K,
    fabric: &mut F,
) -> (Option<World<AllActs>>, Result<(), SessionFault>, Vec<u64>)
    requires setup { IsSetup setup.now }

    ensures did { let x = ports_of (S.left source.old) (S.taken source.old) (K.held sink.old) (S.faults source.old) (K.faults sink.old) (F.faults fabric.old) in
        let z = ports_of (S.left source.new) (S.taken source.new) (K.held sink.new) (S.faults source.new) (K.faults sink.new) (F.faults fabric.new) in
        HasDone setup.now.task setup.now.localities setup.now.profile (status_after result.1) result.2.items result.0 x z }
    ensures unread { reads_input setup.now.task ≡ false → source.new ≡ source.old }
    ensures cause { let x = ports_of (S.left source.old) (S.taken source.old) (K.held sink.old) (S.faults source.old) (K.faults sink.old) (F.faults fabric.old) in
        let z = ports_of (S.left source.new) (S.taken source.new) (K.held sink.new) (S.faults source.new) (K.faults sink.new) (F.faults fabric.new) in
        HasCause (status_after result.1) result.0 x z }
    ensures status { F.flight fabric.old ≡ Some [] → F.trace fabric.old ≡ Some [] → IsStatus (status_after result.1) }
    ensures shown { IfErr result.1 (λ fault. IsShownIn fault result.0 (F.latest fabric.new)) }
    ensures places { IfSome result.0 (λ w. (length w.nodes ≡ setup.now.localities) × (w.profile ≡ setup.now.profile)) }
    ensures lawful { IfSome result.0 IsLawful }
    ensures carrying { F.flight fabric.old ≡ Some [] → F.trace fabric.old ≡ Some [] → IfSome result.0 (λ w. Carries w (F.flight fabric.new) (F.trace fabric.new)) }
    ensures hears { IfSome result.0 (λ w. IsLatest w.hand (F.latest fabric.new)) }
    ensures ended { OnOk result.1 (IfSome result.0 HasEnded) }
    ensures none { result.0 ≡ None → result.1 ≡ Err SessionFault.OutOfMemory }
    ensures untouched { result.0 ≡ None → (source.new ≡ source.old) × (sink.new ≡ sink.old) × (fabric.new ≡ fabric.old) }
    ensures uncut { result.0 ≡ None → result.2.items ≡ [] }
{
    let (localities, profile) = (setup.localities, setup.profile);
    match work_of(alloc, setup.task) {
        Ok(Work::Serves(console)) => {
            serve_all(
                crew, alloc, console, localities, profile, source, sink, fabric,
            )
        }
        Ok(Work::Answers(line)) => {
            let (world, done) = compute_all(crew, alloc, localities, profile, line, sink, fabric);
            (world, done, Vec::new(alloc))
        }
        Ok(Work::Loads(load)) => {
            let (world, done) = load_all(crew, alloc, localities, profile, load, sink, fabric);
            (world, done, Vec::new(alloc))
        }
        Err(OutOfMemory) => (None, Err(SessionFault::OutOfMemory), Vec::new(alloc)),
    }
}

/// Writes the values of counters in the world that there is.
fn write_counters<K: Sink>(
    counters: &[Counter],
    world: &Option<World<AllActs>>,
    sink: &mut K,
) -> Result<(), SessionFault>
    requires there { world.now ≢ None }
    ensures held { OnOk result (K.held sink.new ≡ followed (K.held sink.old) (counters_text counters.now (entries_in world.now))) }
    ensures front { OnErr result (WritesFront (counters_text counters.now (entries_in world.now)) (K.held sink.old) (K.held sink.new)) }
    ensures cause { IfErr result (λ fault. (fault ≡ SessionFault.Write) × Rose (K.faults sink.old) (K.faults sink.new)) }
    ensures stands { OnOk result (K.faults sink.new ≡ K.faults sink.old) }
    ensures some { OnErr result (counters.now ≢ []) }
{
    match world {
        Some(world) => write_values(counters, world.journal(), sink),
        None => Ok(()),
    }
}

/// A setup: its task, and where that ends well, the values of its counters.
fn run_setup<S: Source, K: Sink, F: Fabric, R: Threads + Wait + Sync, G: Gate>(
    rt: &R,
    gate: &G,
    alloc: Global,
    setup: &Setup,
    source: &mut S,
    sink: &mut K,
    fabric: &mut F,
) -> (Option<World<AllActs>>, Result<(), SessionFault>, Vec<u64>)
    requires setup { IsSetup setup.now }

    ensures did { let x = ports_of (S.left source.old) (S.taken source.old) (K.held sink.old) (S.faults source.old) (K.faults sink.old) (F.faults fabric.old) in
        let z = ports_of (S.left source.new) (S.taken source.new) (K.held sink.new) (S.faults source.new) (K.faults sink.new) (F.faults fabric.new) in
        HasRun setup.now (status_after result.1) result.2.items result.0 x z }
    ensures unread { reads_input setup.now.task ≡ false → source.new ≡ source.old }
    ensures cause { let x = ports_of (S.left source.old) (S.taken source.old) (K.held sink.old) (S.faults source.old) (K.faults sink.old) (F.faults fabric.old) in
        let z = ports_of (S.left source.new) (S.taken source.new) (K.held sink.new) (S.faults source.new) (K.faults sink.new) (F.faults fabric.new) in
        HasCause (status_after result.1) result.0 x z }
    ensures status { F.flight fabric.old ≡ Some [] → F.trace fabric.old ≡ Some [] → IsStatus (status_after result.1) }
    ensures shown { IfErr result.1 (λ fault. IsShownIn fault result.0 (F.latest fabric.new)) }
    ensures lawful { IfSome result.0 IsLawful }
    ensures carrying { F.flight fabric.old ≡ Some [] → F.trace fabric.old ≡ Some [] → IfSome result.0 (λ w. Carries w (F.flight fabric.new) (F.trace fabric.new)) }
    ensures hears { IfSome result.0 (λ w. IsLatest w.hand (F.latest fabric.new)) }
    ensures ended { OnOk result.1 (IfSome result.0 HasEnded) }
    ensures none { result.0 ≡ None → result.1 ≡ Err SessionFault.OutOfMemory }
    ensures untouched { result.0 ≡ None → (source.new ≡ source.old) × (sink.new ≡ sink.old) × (fabric.new ≡ fabric.old) }
    ensures uncut { result.0 ≡ None → result.2.items ≡ [] }
{
    let crew = Crew {
        rt,
        gate,
        threads: setup.threads,
    };
    let (world, done, cuts) = run_task(&crew, alloc, setup, source, sink, fabric);
    let counted = match done {
        Ok(()) => write_counters(setup.counters.as_slice(), &world, sink),
        Err(fault) => Err(fault),
    };
    (world, counted, cuts)
}

/// What the words ask for.
fn fulfil<S: Source, K: Sink, F: Fabric, R: Threads + Wait + Sync, G: Gate>(
    rt: &R,
    gate: &G,
    alloc: Global,
    request: &Request,
    source: &mut S,
    sink: &mut K,
    fabric: &mut F,
) -> (Option<World<AllActs>>, Result<(), SessionFault>, Vec<u64>)
    requires request { IsRequest request.now }

    ensures told { (notice : Notice) → request.now ≡ Request.Print notice →
        (result.0 ≡ None) × HasTold notice (status_after result.1) (K.held sink.old) (K.held sink.new) }
    ensures did { let x = ports_of (S.left source.old) (S.taken source.old) (K.held sink.old) (S.faults source.old) (K.faults sink.old) (F.faults fabric.old) in
        let z = ports_of (S.left source.new) (S.taken source.new) (K.held sink.new) (S.faults source.new) (K.faults sink.new) (F.faults fabric.new) in
        (setup : Setup) → request.now ≡ Request.Run setup → HasRun setup (status_after result.1) result.2.items result.0 x z }
    ensures unread { (setup : Setup) → request.now ≡ Request.Run setup → reads_input setup.task ≡ false → source.new ≡ source.old }
    ensures cause { let x = ports_of (S.left source.old) (S.taken source.old) (K.held sink.old) (S.faults source.old) (K.faults sink.old) (F.faults fabric.old) in
        let z = ports_of (S.left source.new) (S.taken source.new) (K.held sink.new) (S.faults source.new) (K.faults sink.new) (F.faults fabric.new) in
        HasCause (status_after result.1) result.0 x z }
    ensures status { F.flight fabric.old ≡ Some [] → F.trace fabric.old ≡ Some [] → IsStatus (status_after result.1) }
    ensures shown { IfErr result.1 (λ fault. IsShownIn fault result.0 (F.latest fabric.new)) }
    ensures lawful { IfSome result.0 IsLawful }
    ensures carrying { F.flight fabric.old ≡ Some [] → F.trace fabric.old ≡ Some [] → IfSome result.0 (λ w. Carries w (F.flight fabric.new) (F.trace fabric.new)) }
    ensures hears { IfSome result.0 (λ w. IsLatest w.hand (F.latest fabric.new)) }
    ensures ended { OnOk result.1 (IfSome result.0 HasEnded) }
    ensures there { result.1 ≡ Err SessionFault.JournalFull → result.0 ≢ None }
    ensures none { result.0 ≡ None → (source.new ≡ source.old) × (fabric.new ≡ fabric.old)
        × (((notice : Notice) → request.now ≢ Request.Print notice) → (sink.new ≡ sink.old) × (result.1 ≡ Err SessionFault.OutOfMemory)) }
    ensures uncut { result.0 ≡ None → result.2.items ≡ [] }
{
    match request {
        Request::Print(notice) => (None, print(alloc, *notice, sink), Vec::new(alloc)),
        Request::Run(setup) => run_setup(rt, gate, alloc, setup, source, sink, fabric),
    }
}

/// Runs the program on its words, by as many threads as they ask for, each of which passes the gate before a body. A status other than
/// 0 writes one line on `err`; where that fails, the status stays. Any fabric will do: on one that tells, and in which nothing is in flight,
/// each frame that is accepted had been sent; on any other that shows in the journal.
pub fn run<S: Source, K: Sink, E: Sink, F: Fabric, R: Threads + Wait + Sync, G: Gate>(
    rt: &R,
    alloc: Global,
    words: &Texts,
    source: &mut S,
    sink: &mut K,
    err: &mut E,
    mut fabric: F,
    gate: &G,
) -> End<F>
    ensures refused { (place : ℕ) → bad_word words.now ≡ Some place → (result.status ≡ 1) × (result.world ≡ None)
        × Says (bad_word_text place) (record { text = E.held err.old; faults = E.faults err.old }) (record { text = E.held err.new; faults = E.faults err.new }) }
    ensures taken { bad_word words.now ≡ None → (result.status ≢ 1)
        × Says (status_line result.status) (record { text = E.held err.old; faults = E.faults err.old }) (record { text = E.held err.new; faults = E.faults err.new }) }
    ensures silent { result.status ≡ 0 → err.new ≡ err.old }
    ensures no_other { F.flight fabric ≡ Some [] → F.trace fabric ≡ Some [] → IsStatus result.status }
    ensures fault { TellsBreach result.status result.fault result.world (F.latest result.fabric) }
    ensures none { result.world ≡ None → (source.new ≡ source.old) × (result.fabric ≡ fabric)
        × (notice_in words.now ≡ None → (sink.new ≡ sink.old) × ((result.status ≡ 1) ⊎ (result.status ≡ 6))) }
    ensures uncut { result.world ≡ None → result.cuts.items ≡ [] }
    ensures told { (notice : Notice) → notice_in words.now ≡ Some notice → (result.world ≡ None) × HasTold notice result.status (K.held sink.old) (K.held sink.new) }
    ensures did { let x = ports_of (S.left source.old) (S.taken source.old) (K.held sink.old) (S.faults source.old) (K.faults sink.old) (F.faults fabric) in
        let z = ports_of (S.left source.new) (S.taken source.new) (K.held sink.new) (S.faults source.new) (K.faults sink.new) (F.faults result.fabric) in
        (setup : Setup) → request_in words.now ≡ Ok (Request.Run setup) → HasRun setup result.status result.cuts.items result.world x z }
    ensures unread { (setup : Setup) → request_in words.now ≡ Ok (Request.Run setup) → reads_input setup.task ≡ false → source.new ≡ source.old }
    ensures cause { let x = ports_of (S.left source.old) (S.taken source.old) (K.held sink.old) (S.faults source.old) (K.faults sink.old) (F.faults fabric) in
        let z = ports_of (S.left source.new) (S.taken source.new) (K.held sink.new) (S.faults source.new) (K.faults sink.new) (F.faults result.fabric) in
        HasCause result.status result.world x z }
    ensures ends_well { let x = ports_of (S.left source.old) (S.taken source.old) (K.held sink.old) (S.faults source.old) (K.faults sink.old) (F.faults fabric) in
        let z = ports_of (S.left source.new) (S.taken source.new) (K.held sink.new) (S.faults source.new) (K.faults sink.new) (F.faults result.fabric) in
        F.flight fabric ≡ Some [] → F.trace fabric ≡ Some [] → bad_word words.now ≡ None → NothingFailed result.world x z → (result.status ≡ 0) ⊎ (result.status ≡ 6) }
    ensures lawful { IfSome result.world IsLawful }
    ensures carrying { F.flight fabric ≡ Some [] → F.trace fabric ≡ Some [] → IfSome result.world (λ w. Carries w (F.flight result.fabric) (F.trace result.fabric)) }
    ensures hears { IfSome result.world (λ w. IsLatest w.hand (F.latest result.fabric)) }
    ensures ended { result.status ≡ 0 → IfSome result.world HasEnded }
{
    let request = match request_in(words) {
        Ok(request) => request,
        Err(place) => {
            say(err, texts::bad_word(place).as_str().as_bytes());
            return End {
                status: 1,
                world: None,
                fault: None,
                fabric,
                cuts: Vec::new(alloc),
            };
        }
    };
    let (world, ended, cuts) = fulfil(rt, gate, alloc, &request, source, sink, &mut fabric);
    let fault = breach_after(&ended);
    let status = match ended {
        Ok(()) => 0,
        Err(fault) => {
            let (line, status) = line_of(fault);
            say(err, line);
            status
        }
    };
    End {
        status,
        world,
        fault,
        fabric,
        cuts,
    }
}
