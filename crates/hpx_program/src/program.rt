ghost use Rattle.std.specs.Prelude.{◌≡◌, ◌≢◌, ◌⊎◌, [], Some, None, IfSome, ℕ, option_map};
ghost use Rattle.std.specs.Process.{exit_status};
ghost use Rattle.hpx_options.specs.Texts.{bad_word_text};
ghost use Rattle.hpx_ports.specs.Links.{asked_for};
ghost use Rattle.hpx_world.specs.Heard.{IsLatest};
ghost use Rattle.hpx_member.specs.Leads.{IsConsolesStatus};
ghost use Rattle.hpx_process.specs.Members.{HasJoined, left};
ghost use Rattle.hpx_process.specs.declared.membership.Role.TheVariants.{Worker};
ghost use Rattle.hpx_process.specs.Memberships.{IsMembership, membership_in, seat_of};
ghost use Rattle.hpx_top.specs.Breaches.{TellsBreach};
ghost use Rattle.hpx_top.specs.Printed.{HasTold};
ghost use Rattle.hpx_top.specs.Runs.{ports_of, HasCause, NothingFailed, Says};
ghost use Rattle.hpx_top.specs.Statuses.{IsStatus, status_line};
ghost use Rattle.hpx_top.specs.Usage.{bad_word, notice_in};
ghost use Rattle.hpx_program.specs.Program.{HasJoinedAsAsked, HasRunAsAsked};

use hpx_ports::fabric::Fabric;
use hpx_ports::gate::Gate;
use hpx_ports::link::{Link, Opener};
use hpx_ports::sink::{Sink, write_all};
use hpx_ports::source::Source;
use hpx_ports::words::{Words, all_words};
use hpx_process::join::{Joined, join};
use hpx_process::membership::{Errand, Membership, membership_in};
use hpx_process::problem::Problem;
use hpx_top::acts::AllActs;
use hpx_top::breach::Breach;
use hpx_top::run::run;
use hpx_top::task::Notice;
use hpx_value::memory::OutOfMemory;
use hpx_world::world::World;
use std::alloc::Global;
use std::process::ExitCode;
use std::sync::Wait;
use std::thread::Threads;

/// The status where there is no memory for the words.
const OUT_OF_MEMORY: u8 = 6;

/// How the program ended: the status, what its process ends with, the world where one was booted, the fault of the fabric, the fabric, and the
/// cuts of the session, as `hpx_top::run::End` has them; and how it ended as one locality of several processes, where it was to be that.
#[derive(Drop)]
pub struct Ended<F: Fabric, L: Link + Drop> {
    pub status: u8,
    pub code: ExitCode,
    pub world: Option<World<AllActs>>,
    pub fault: Option<Breach>,
    pub fabric: F,
    pub cuts: Vec<u64>,
    pub joined: Option<Joined<L>>,
}

/// Says something on `err`. Where that fails, nothing comes of it but the front of the line.
fn say<E: Sink>(err: &mut E, line: &[u8])
    ensures { Says line.now (record { text = E.held err.old; faults = E.faults err.old }) (record { text = E.held err.new; faults = E.faults err.new }) }
{
    match write_all(err, line) {
        Ok(()) => (),
        Err(_) => (),
    }
}

/// The line for a status.
fn line_of(status: u8) -> &'static [u8]
    ensures { result.now ≡ status_line status }
{
    match status {
        2 => b"hpx: read failed\n",
        3 => b"hpx: write failed\n",
        4 => b"hpx: fabric failed\n",
        5 => b"hpx: journal full\n",
        6 => b"hpx: out of memory\n",
        7 => b"hpx: bad frame\n",
        8 => b"hpx: strange parcel\n",
        9 => b"hpx: input full\n",
        _ => b"",
    }
}

/// Says that there is no memory, and answers what the process ends with then.
pub(crate) fn say_no_memory<E: Sink>(err: &mut E) -> ExitCode
    ensures code { exit_status result ≡ 6 }
    ensures says { Says (status_line 6) (record { text = E.held err.old; faults = E.faults err.old }) (record { text = E.held err.new; faults = E.faults err.new }) }
{
    say(err, line_of(OUT_OF_MEMORY));
    ExitCode::from(OUT_OF_MEMORY)
}

/// Is one locality of several processes, and says how that ended where it did not end well.
fn take_part<R: Wait, P: Opener, S: Source, K: Sink, E: Sink, F: Fabric>(
    rt: &R,
    alloc: Global,
    membership: &Membership,
    source: &mut S,
    sink: &mut K,
    err: &mut E,
    fabric: F,
    opener: &mut P,
) -> Ended<F, P::Link>
    requires { IsMembership membership.now }
    ensures code { exit_status result.code ≡ result.status }
    ensures says { Says (status_line result.status) (record { text = E.held err.old; faults = E.faults err.old }) (record { text = E.held err.new; faults = E.faults err.new }) }
    ensures silent { result.status ≡ 0 → err.new ≡ err.old }
    ensures apart { (result.world ≡ None) × (result.fault ≡ None) × (result.fabric ≡ fabric) × (result.cuts.items ≡ []) }
    ensures there { result.joined ≢ None }
    ensures ends { IsConsolesStatus result.status }
    ensures joined { let x = ports_of (S.left source.old) (S.taken source.old) (K.held sink.old) (S.faults source.old) (K.faults sink.old) (P.faults opener.old) in
        let z = ports_of (S.left source.new) (S.taken source.new) (K.held sink.new) (S.faults source.new) (K.faults sink.new) (P.faults opener.new) in
        IfSome result.joined (λ j. (j.status ≡ result.status)
        × HasJoined membership.now j.status (option_map (λ m. left m.status (option_map (λ n. n.tables) m.node) m.journal.entries m.fault (P.Link.trace m.link) (P.Link.latest m.link) (P.Link.faults m.link)) j.member) x z) }
    ensures worker { (node : ℕ) → membership.now.role ≡ Worker node → (source.new ≡ source.old) × (sink.new ≡ sink.old) }
    ensures unread { (problem : Problem) → membership.now.errand ≡ Errand.Problem problem → (source.new ≡ source.old) × (result.status ≢ 2) × (result.status ≢ 9) }
    ensures asked { P.asked opener.new ≡ asked_for (seat_of membership.now) (P.asked opener.old) }
{
    let joined = join(rt, alloc, membership, opener, source, sink);
    let status = joined.status;
    if status != 0 {
        say(err, line_of(status));
    }
    Ended {
        status,
        code: ExitCode::from(status),
        world: None,
        fault: None,
        fabric,
        cuts: Vec::new(alloc),
        joined: Some(joined),
    }
}

/// Runs on the words that it is started with, and ends as that run ends. Where there is no memory for the words, nothing is run, and
/// the status is 6. A status other than 0 writes one line on `err`, and nothing else is written there.
pub fn program<
    W: Words,
    S: Source,
    K: Sink,
    E: Sink,
    F: Fabric,
    P: Opener,
    R: Threads + Wait + Sync,
    G: Gate,
>(
    rt: &R,
    alloc: Global,
    given: &W,
    source: &mut S,
    sink: &mut K,
    err: &mut E,
    fabric: F,
    opener: &mut P,
    gate: &G,
) -> Ended<F, P::Link>
    ensures code { exit_status result.code ≡ result.status }
    ensures refused { (words : _) (place : ℕ) → W.words given.now ≡ Some words → membership_in words ≡ None → bad_word words ≡ Some place → (result.world ≡ None)
        × ((result.status ≡ 6) ⊎ ((result.status ≡ 1) × Says (bad_word_text place) (record { text = E.held err.old; faults = E.faults err.old })
        (record { text = E.held err.new; faults = E.faults err.new }))) }
    ensures taken { (words : _) → W.words given.now ≡ Some words → bad_word words ≡ None → result.status ≢ 1 }
    ensures says { result.status ≢ 1 → Says (status_line result.status) (record { text = E.held err.old; faults = E.faults err.old })
        (record { text = E.held err.new; faults = E.faults err.new }) }
    ensures silent { result.status ≡ 0 → err.new ≡ err.old }
    ensures no_other { result.joined ≡ None → F.flight fabric ≡ Some [] → F.trace fabric ≡ Some [] → IsStatus result.status }
    ensures fault { result.joined ≡ None → TellsBreach result.status result.fault result.world (F.latest result.fabric) }
    ensures hears { IfSome result.world (λ w. IsLatest w.hand (F.latest result.fabric)) }
    ensures none { result.joined ≡ None → result.world ≡ None → (source.new ≡ source.old) × (result.fabric ≡ fabric) }
    ensures uncut { result.world ≡ None → result.cuts.items ≡ [] }
    ensures untouched { (words : _) → W.words given.now ≡ Some words → notice_in words ≡ None → result.joined ≡ None → result.world ≡ None →
        (sink.new ≡ sink.old) × ((result.status ≡ 1) ⊎ (result.status ≡ 6)) }
    ensures told { (words : _) (notice : Notice) → W.words given.now ≡ Some words → notice_in words ≡ Some notice → (result.world ≡ None)
        × (((result.status ≡ 6) × (sink.new ≡ sink.old)) ⊎ HasTold notice result.status (K.held sink.old) (K.held sink.new)) }
    ensures cause { let x = ports_of (S.left source.old) (S.taken source.old) (K.held sink.old) (S.faults source.old) (K.faults sink.old) (F.faults fabric) in
        let z = ports_of (S.left source.new) (S.taken source.new) (K.held sink.new) (S.faults source.new) (K.faults sink.new) (F.faults result.fabric) in
        result.joined ≡ None → HasCause result.status result.world x z }
    ensures ends_well { let x = ports_of (S.left source.old) (S.taken source.old) (K.held sink.old) (S.faults source.old) (K.faults sink.old) (F.faults fabric) in
        let z = ports_of (S.left source.new) (S.taken source.new) (K.held sink.new) (S.faults source.new) (K.faults sink.new) (F.faults result.fabric) in
        result.joined ≡ None → F.flight fabric ≡ Some [] → F.trace fabric ≡ Some [] → NothingFailed result.world x z → (result.status ≡ 0) ⊎ (result.status ≡ 1) ⊎ (result.status ≡ 6) }
    ensures did { let x = ports_of (S.left source.old) (S.taken source.old) (K.held sink.old) (S.faults source.old) (K.faults sink.old) (F.faults fabric) in
        let z = ports_of (S.left source.new) (S.taken source.new) (K.held sink.new) (S.faults source.new) (K.faults sink.new) (F.faults result.fabric) in
        IfSome result.world (λ w. HasRunAsAsked (W.words given.now) result.status result.cuts.items w x z) }
    ensures hosted { (words : _) → W.words given.now ≡ Some words → membership_in words ≡ None → (result.joined ≡ None) × (opener.new ≡ opener.old) }
    ensures apart { result.joined ≢ None → (result.world ≡ None) × (result.fault ≡ None) × (result.fabric ≡ fabric) }
    ensures member { (words : _) (membership : Membership) → W.words given.now ≡ Some words → membership_in words ≡ Some membership → (result.joined ≢ None)
        ⊎ ((result.status ≡ 6) × (source.new ≡ source.old) × (sink.new ≡ sink.old) × (opener.new ≡ opener.old)) }
    ensures joined { let x = ports_of (S.left source.old) (S.taken source.old) (K.held sink.old) (S.faults source.old) (K.faults sink.old) (P.faults opener.old) in
        let z = ports_of (S.left source.new) (S.taken source.new) (K.held sink.new) (S.faults source.new) (K.faults sink.new) (P.faults opener.new) in
        IfSome result.joined (λ j. HasJoinedAsAsked (W.words given.now) j.status
        (option_map (λ m. left m.status (option_map (λ n. n.tables) m.node) m.journal.entries m.fault (P.Link.trace m.link) (P.Link.latest m.link) (P.Link.faults m.link)) j.member) x z × (j.status ≡ result.status)) }
    ensures worker { (words : _) (membership : Membership) (node : ℕ) → W.words given.now ≡ Some words → membership_in words ≡ Some membership
        → membership.role ≡ Worker node → (source.new ≡ source.old) × (sink.new ≡ sink.old) }
    ensures unread { (words : _) (membership : Membership) (problem : Problem) → W.words given.now ≡ Some words → membership_in words ≡ Some membership
        → membership.errand ≡ Errand.Problem problem → (source.new ≡ source.old) × (result.status ≢ 2) × (result.status ≢ 9) }
    ensures asked { (words : _) (membership : Membership) → W.words given.now ≡ Some words → membership_in words ≡ Some membership → result.joined ≢ None →
        P.asked opener.new ≡ asked_for (seat_of membership) (P.asked opener.old) }
{
    match all_words(alloc, given) {
        Ok(words) => match membership_in(&words) {
            Some(membership) => {
                take_part(rt, alloc, &membership, source, sink, err, fabric, opener)
            }
            None => {
                let end = run(rt, alloc, &words, source, sink, err, fabric, gate);
                Ended {
                    status: end.status,
                    code: ExitCode::from(end.status),
                    world: end.world,
                    fault: end.fault,
                    fabric: end.fabric,
                    cuts: end.cuts,
                    joined: None,
                }
            }
        },
        Err(OutOfMemory) => {
            let code = say_no_memory(err);
            Ended {
                status: OUT_OF_MEMORY,
                code,
                world: None,
                fault: None,
                fabric,
                cuts: Vec::new(alloc),
                joined: None,
            }
        }
    }
}
