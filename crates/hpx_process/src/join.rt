//! What a process does as one locality of several.
ghost use Rattle.std.specs.Prelude.{◌≡◌, ◌≢◌, ◌≤◌, ◌<◌, ◌⊎◌, ◌==◌, [], false, ℕ, List, Some, None, option_map};
ghost use Rattle.hpx_value.specs.Profiles.{IsValid};
ghost use Rattle.hpx_ports.specs.Faults.{Rose};
ghost use Rattle.hpx_ports.specs.Links.{asked_for};
ghost use Rattle.hpx_ports.specs.declared.link.Post.{Post};
ghost use Rattle.hpx_member.specs.Leads.{HasLineCause, HasServed, IsConsolesStatus};
ghost use Rattle.hpx_steps.specs.Rest.{rules_of};
ghost use Rattle.hpx_top.specs.Acts.{act_of};
ghost use Rattle.hpx_top.specs.Printed.{HasCounted};
ghost use Rattle.hpx_top.specs.Runs.{ports_of};
ghost use Rattle.hpx_process.specs.Members.{HasJoined, HasLed, HasMembersCause, HasReckoned, HasSat, IsConsole, IsDue, IsWorker, left};
ghost use Rattle.hpx_process.specs.Deeds.{HasBroken, HasTalked, sitting};
ghost use Rattle.hpx_process.specs.Memberships.{IsMembership, problem_line, seat_of};
ghost use Rattle.hpx_process.specs.Slips.{HasPassed, HasStuck, note};

use crate::desk::Desk;
use crate::membership::{Errand, Membership, Role};
use crate::problem::Problem;
use crate::sheet::Sheet;
use crate::slip::Slip;
use hpx_counters::counter::Counter;
use hpx_member::console::console;
use hpx_member::end::MemberEnd;
use hpx_member::worker::worker;
use hpx_ports::link::{Link, LinkFault, Opener, Seat};
use hpx_ports::sink::Sink;
use hpx_ports::source::Source;
use hpx_top::acts::AllActs;
use hpx_top::printed::write_values;
use hpx_top::reader::LineReader;
use std::alloc::Global;
use std::sync::Wait;

/// How a process ended that was to be a member: its status, and the member where it was connected to the others.
#[derive(Drop)]
pub struct Joined<L: Link + Drop> {
    pub status: u8,
    pub member: Option<MemberEnd<AllActs, L>>,
}

/// The status where a member could not be connected.
fn status_of(fault: LinkFault) -> u8
    ensures failed { fault ≡ LinkFault.Failed → result ≡ 4 }
    ensures memory { fault ≡ LinkFault.OutOfMemory → result ≡ 6 }
{
    match fault {
        LinkFault::Failed => 4,
        LinkFault::OutOfMemory => 6,
    }
}

/// A console at a desk.
fn sit<R: Wait, L: Link + Drop, S: Source, K: Sink>(
    rt: &R,
    alloc: Global,
    membership: &Membership,
    settles: bool,
    link: L,
    desk: &mut Desk<S, K>,
) -> MemberEnd<AllActs, L>
    requires some { 1 ≤ membership.now.localities }
    requires few { membership.now.localities ≤ 64 }
    requires profile { IsValid membership.now.profile }
    requires empty { (tr : List Post) → L.trace link ≡ Some tr → tr ≡ [] }
    requires faultless { L.faults link ≡ 0 }
    requires blank { desk.old.sheet ≡ Sheet.Blank }
    ensures source { desk.new.source.ghost_name ≡ desk.old.source.ghost_name }
    ensures sink { desk.new.sink.ghost_name ≡ desk.old.sink.ghost_name }
    ensures console { IsConsole membership.now.localities membership.now.profile settles (left result.status (option_map (λ n. n.tables) result.node) result.journal.entries result.fault (L.trace result.link) (L.latest result.link) (L.faults result.link)) }
    ensures served { let x = sitting desk.old.sheet desk.old.reader.now (S.left desk.old.source.now) (S.taken desk.old.source.now) (K.held desk.old.sink.now) in
        let z = sitting desk.new.sheet desk.new.reader.now (S.left desk.new.source.now) (S.taken desk.new.source.now) (K.held desk.new.sink.now) in
        HasServed (rules_of act_of membership.now.localities membership.now.profile) result.status result.journal.entries (HasTalked x z) (HasBroken x z) }
    ensures due { let x = sitting desk.old.sheet desk.old.reader.now (S.left desk.old.source.now) (S.taken desk.old.source.now) (K.held desk.old.sink.now) in
        let z = sitting desk.new.sheet desk.new.reader.now (S.left desk.new.source.now) (S.taken desk.new.source.now) (K.held desk.new.sink.now) in
        result.status ≡ 5 → IsDue (rules_of act_of membership.now.localities membership.now.profile) (left result.status (option_map (λ n. n.tables) result.node) result.journal.entries result.fault (L.trace result.link) (L.latest result.link) (L.faults result.link)) (HasTalked x z) }
    ensures lines { HasLineCause result.status (S.faults desk.old.source.now) (S.faults desk.new.source.now) (K.faults desk.old.sink.now) (K.faults desk.new.sink.now) (desk.new.reader.now.read == 67108864) }
{
    let acts = AllActs {
        localities: membership.localities,
    };
    console(rt, alloc, acts, membership.profile, settles, link, desk)
}

/// The console of a session.
fn serve<R: Wait, L: Link + Drop, S: Source, K: Sink>(
    rt: &R,
    alloc: Global,
    membership: &Membership,
    settles: bool,
    link: L,
    source: &mut S,
    sink: &mut K,
) -> MemberEnd<AllActs, L>
    requires some { 1 ≤ membership.now.localities }
    requires few { membership.now.localities ≤ 64 }
    requires profile { IsValid membership.now.profile }
    requires empty { (tr : List Post) → L.trace link ≡ Some tr → tr ≡ [] }
    requires faultless { L.faults link ≡ 0 }
    ensures console { IsConsole membership.now.localities membership.now.profile settles (left result.status (option_map (λ n. n.tables) result.node) result.journal.entries result.fault (L.trace result.link) (L.latest result.link) (L.faults result.link)) }
    ensures sat { let x = ports_of (S.left source.old) (S.taken source.old) (K.held sink.old) (S.faults source.old) (K.faults sink.old) 0 in
        let z = ports_of (S.left source.new) (S.taken source.new) (K.held sink.new) (S.faults source.new) (K.faults sink.new) 0 in
        HasSat (rules_of act_of membership.now.localities membership.now.profile) (left result.status (option_map (λ n. n.tables) result.node) result.journal.entries result.fault (L.trace result.link) (L.latest result.link) (L.faults result.link)) x z }
    ensures cause { let x = ports_of (S.left source.old) (S.taken source.old) (K.held sink.old) (S.faults source.old) (K.faults sink.old) 0 in
        let z = ports_of (S.left source.new) (S.taken source.new) (K.held sink.new) (S.faults source.new) (K.faults sink.new) 0 in
        HasMembersCause result.status (L.faults result.link) x z }
{
    let mut reader = LineReader::new(alloc);
    let mut desk = Desk {
        source,
        sink,
        reader: &mut reader,
        sheet: Sheet::Blank,
    };
    sit(rt, alloc, membership, settles, link, &mut desk)
}

/// A console with a slip.
fn pass<R: Wait, L: Link + Drop, K: Sink>(
    rt: &R,
    alloc: Global,
    membership: &Membership,
    settles: bool,
    link: L,
    slip: &mut Slip<K>,
) -> MemberEnd<AllActs, L>
    requires some { 1 ≤ membership.now.localities }
    requires few { membership.now.localities ≤ 64 }
    requires profile { IsValid membership.now.profile }
    requires empty { (tr : List Post) → L.trace link ≡ Some tr → tr ≡ [] }
    requires faultless { L.faults link ≡ 0 }
    ensures sink { slip.new.sink.ghost_name ≡ slip.old.sink.ghost_name }
    ensures console { IsConsole membership.now.localities membership.now.profile settles (left result.status (option_map (λ n. n.tables) result.node) result.journal.entries result.fault (L.trace result.link) (L.latest result.link) (L.faults result.link)) }
    ensures served { let x = note slip.old.asked (K.held slip.old.sink.now) in
        let z = note slip.new.asked (K.held slip.new.sink.now) in
        HasServed (rules_of act_of membership.now.localities membership.now.profile) result.status result.journal.entries
        (HasPassed (problem_line slip.old.problem) x z) (HasStuck (problem_line slip.old.problem) x z) }
    ensures due { let x = note slip.old.asked (K.held slip.old.sink.now) in
        let z = note slip.new.asked (K.held slip.new.sink.now) in
        result.status ≡ 5 → IsDue (rules_of act_of membership.now.localities membership.now.profile) (left result.status (option_map (λ n. n.tables) result.node) result.journal.entries result.fault (L.trace result.link) (L.latest result.link) (L.faults result.link)) (HasPassed (problem_line slip.old.problem) x z) }
    ensures lines { HasLineCause result.status 0 0 (K.faults slip.old.sink.now) (K.faults slip.new.sink.now) false }
{
    let acts = AllActs {
        localities: membership.localities,
    };
    console(rt, alloc, acts, membership.profile, settles, link, slip)
}

/// The console of processes that compute. It has no source.
fn reckon<R: Wait, L: Link + Drop, K: Sink>(
    rt: &R,
    alloc: Global,
    membership: &Membership,
    settles: bool,
    problem: Problem,
    link: L,
    sink: &mut K,
) -> MemberEnd<AllActs, L>
    requires some { 1 ≤ membership.now.localities }
    requires few { membership.now.localities ≤ 64 }
    requires profile { IsValid membership.now.profile }
    requires empty { (tr : List Post) → L.trace link ≡ Some tr → tr ≡ [] }
    requires faultless { L.faults link ≡ 0 }
    ensures console { IsConsole membership.now.localities membership.now.profile settles (left result.status (option_map (λ n. n.tables) result.node) result.journal.entries result.fault (L.trace result.link) (L.latest result.link) (L.faults result.link)) }
    ensures reckoned { let x = ports_of None 0 (K.held sink.old) 0 (K.faults sink.old) 0 in
        let z = ports_of None 0 (K.held sink.new) 0 (K.faults sink.new) 0 in
        HasReckoned (rules_of act_of membership.now.localities membership.now.profile) (problem_line problem) (left result.status (option_map (λ n. n.tables) result.node) result.journal.entries result.fault (L.trace result.link) (L.latest result.link) (L.faults result.link)) x z }
    ensures cause { let x = ports_of None 0 (K.held sink.old) 0 (K.faults sink.old) 0 in
        let z = ports_of None 0 (K.held sink.new) 0 (K.faults sink.new) 0 in
        HasMembersCause result.status (L.faults result.link) x z }
    ensures no_read { (result.status ≢ 2) × (result.status ≢ 9) }
{
    let mut slip = Slip {
        problem,
        asked: false,
        sink,
    };
    pass(rt, alloc, membership, settles, link, &mut slip)
}

/// Another locality than the console.
fn work<R: Wait, L: Link + Drop>(
    rt: &R,
    alloc: Global,
    membership: &Membership,
    node: u32,
    link: L,
) -> MemberEnd<AllActs, L>
    requires node { node < membership.now.localities }
    requires few { membership.now.localities ≤ 64 }
    requires profile { IsValid membership.now.profile }
    requires empty { (tr : List Post) → L.trace link ≡ Some tr → tr ≡ [] }
    requires faultless { L.faults link ≡ 0 }
    ensures worker { IsWorker membership.now.localities membership.now.profile node (left result.status (option_map (λ n. n.tables) result.node) result.journal.entries result.fault (L.trace result.link) (L.latest result.link) (L.faults result.link)) }
{
    let acts = AllActs {
        localities: membership.localities,
    };
    worker(rt, alloc, acts, node, membership.profile, link)
}

/// Where a console has ended well, writes the counters of its own journal, and answers the status then.
fn count<L: Link + Drop, K: Sink>(
    counters: &[Counter],
    member: &MemberEnd<AllActs, L>,
    sink: &mut K,
) -> u8
    ensures counted { HasCounted counters.now result member.now.status member.now.journal.entries (K.held sink.old) (K.held sink.new) }
    ensures other { member.now.status ≢ 0 → (result ≡ member.now.status) × (sink.new ≡ sink.old) }
    ensures well { member.now.status ≡ 0 → ((result ≡ 0) × (K.faults sink.new ≡ K.faults sink.old)) ⊎ ((result ≡ 3) × Rose (K.faults sink.old) (K.faults sink.new)) }
{
    if member.status != 0 {
        return member.status;
    }
    match write_values(counters, &member.journal, sink) {
        Ok(()) => 0,
        Err(_) => 3,
    }
}

/// The console, and the status that it ends with once its counters were written.
fn lead<R: Wait, L: Link + Drop, S: Source, K: Sink>(
    rt: &R,
    alloc: Global,
    membership: &Membership,
    settles: bool,
    link: L,
    source: &mut S,
    sink: &mut K,
) -> (u8, MemberEnd<AllActs, L>)
    requires some { 1 ≤ membership.now.localities }
    requires few { membership.now.localities ≤ 64 }
    requires profile { IsValid membership.now.profile }
    requires empty { (tr : List Post) → L.trace link ≡ Some tr → tr ≡ [] }
    requires faultless { L.faults link ≡ 0 }
    ensures console { IsConsole membership.now.localities membership.now.profile settles (left result.1.status (option_map (λ n. n.tables) result.1.node) result.1.journal.entries result.1.fault (L.trace result.1.link) (L.latest result.1.link) (L.faults result.1.link)) }
    ensures led { let x = ports_of (S.left source.old) (S.taken source.old) (K.held sink.old) (S.faults source.old) (K.faults sink.old) 0 in
        let z = ports_of (S.left source.new) (S.taken source.new) (K.held sink.new) (S.faults source.new) (K.faults sink.new) 0 in
        HasLed membership.now result.0 (left result.1.status (option_map (λ n. n.tables) result.1.node) result.1.journal.entries result.1.fault (L.trace result.1.link) (L.latest result.1.link) (L.faults result.1.link)) x z }
    ensures cause { let x = ports_of (S.left source.old) (S.taken source.old) (K.held sink.old) (S.faults source.old) (K.faults sink.old) 0 in
        let z = ports_of (S.left source.new) (S.taken source.new) (K.held sink.new) (S.faults source.new) (K.faults sink.new) 0 in
        HasMembersCause result.0 (L.faults result.1.link) x z }
    ensures ends { IsConsolesStatus result.0 }
    ensures unread { (problem : Problem) → membership.now.errand ≡ Errand.Problem problem → source.new ≡ source.old }
    ensures no_read { (problem : Problem) → membership.now.errand ≡ Errand.Problem problem → (result.0 ≢ 2) × (result.0 ≢ 9) }
{
    let member = match membership.errand {
        Errand::Session => serve(rt, alloc, membership, settles, link, source, sink),
        Errand::Problem(problem) => reckon(rt, alloc, membership, settles, problem, link, sink),
    };
    let status = count(membership.counters.as_slice(), &member, sink);
    (status, member)
}

/// Connects this process to the others, and is one locality of theirs until all is done. Only locality 0 reads and writes, and only it writes
/// counters, of its own journal, where all has ended well.
///
/// Status 0 where all is done, 2 where no line was read, 3 where something was not written, 4 where the members were not connected or the link
/// failed, 5 where the journal has no room, 6 without memory, 7 at a bad frame, 8 at a strange parcel or a word out of place, 9 where no more
/// lines are read.
pub fn join<R: Wait, P: Opener, S: Source, K: Sink>(
    rt: &R,
    alloc: Global,
    membership: &Membership,
    opener: &mut P,
    source: &mut S,
    sink: &mut K,
) -> Joined<P::Link>
    requires { IsMembership membership.now }
    ensures joined { let x = ports_of (S.left source.old) (S.taken source.old) (K.held sink.old) (S.faults source.old) (K.faults sink.old) (P.faults opener.old) in
        let z = ports_of (S.left source.new) (S.taken source.new) (K.held sink.new) (S.faults source.new) (K.faults sink.new) (P.faults opener.new) in
        HasJoined membership.now result.status
        (option_map (λ m. left m.status (option_map (λ n. n.tables) m.node) m.journal.entries m.fault (P.Link.trace m.link) (P.Link.latest m.link) (P.Link.faults m.link)) result.member) x z }
    ensures worker { (node : ℕ) → membership.now.role ≡ Role.Worker node → (source.new ≡ source.old) × (sink.new ≡ sink.old) }
    ensures unread { (problem : Problem) → membership.now.errand ≡ Errand.Problem problem → source.new ≡ source.old }
    ensures no_read { (problem : Problem) → membership.now.errand ≡ Errand.Problem problem → (result.status ≢ 2) × (result.status ≢ 9) }
    ensures asked { P.asked opener.new ≡ asked_for (seat_of membership.now) (P.asked opener.old) }
    ensures unlinked { result.member ≡ None → (source.new ≡ source.old) × (sink.new ≡ sink.old) }
{
    let seat = Seat {
        node: membership.role.node(),
        n: membership.localities,
        port: membership.port,
    };
    let link = match opener.connect(seat) {
        Ok(link) => link,
        Err(fault) => {
            return Joined {
                status: status_of(fault),
                member: None,
            };
        }
    };
    let (status, member) = match membership.role {
        Role::Console { settles } => lead(rt, alloc, membership, settles, link, source, sink),
        Role::Worker { node } => {
            let member = work(rt, alloc, membership, node, link);
            (member.status, member)
        }
    };
    Joined {
        status,
        member: Some(member),
    }
}
