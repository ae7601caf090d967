//! Where things are in a node's lists.
ghost use Rattle.std.specs.Prelude.{◌≡◌, ◌<◌, ℕ, false, Some, None, IfSome, IfNone, length, slice_get, take, find};
ghost use Rattle.std.specs.List.{list_any};
ghost use Rattle.hpx_journal.specs.Entries.{target_of};
ghost use Rattle.hpx_journal.specs.Local.{is_standing, acts_on, is_busy};
ghost use Rattle.hpx_tables.specs.Awaited.{answered_by};
ghost use Rattle.hpx_tables.specs.Free.{NoneIsFree, IsFree};
ghost use Rattle.hpx_tables.specs.Pending.{fired_of, awaits};

use crate::kept::Fit;
use crate::objects::Objects;
use crate::pending::Pending;
use crate::queue::Queue;
use hpx_value::acts::Acts;
use hpx_value::codes::{PLAIN, SESSION, SET};
use hpx_value::exact::Exact;
use hpx_value::gid::Gid;
use hpx_value::value::Act;

/// The object that an action is for.
pub fn target(act: &Act) -> Gid
    ensures { result ≡ target_of act.now }
{
    match act.ids.as_slice().first() {
        Some(id) => *id,
        None => Gid::new(0, SESSION, 1),
    }
}

/// 1 for an action that answers the session, and 0 for any other.
pub fn answered_by(act: &Act) -> u64
    ensures { result ≡ answered_by (Some act.now) }
{
    let session = Gid::new(0, SESSION, 1);
    if act.code == SET && session.names_same(target(act)) {
        1
    } else {
        0
    }
}

/// Whether an action on the object runs.
fn runs_on(running: &[Fit], o: Gid) -> bool
    ensures { result ≡ list_any (acts_on o) running.now }
{
    running.iter().any(|a| o.names_same(target(a.act())))
}

/// Whether a commit of an action on the object waits.
pub fn waits_on<A: Acts>(pending: &[Pending<A>], o: Gid) -> bool
    ensures { result ≡ list_any (λ w. acts_on o w.job.action) pending.now }
{
    pending.iter().any(|w| o.names_same(target(w.action())))
}

/// Whether a fired action on the object keeps it busy: one that runs, or one whose commit waits. One of kind Plain is never busy.
#[tactic(auto, using(crate::proofs::FreeLemmas::busy_fired))]
pub fn is_busy<A: Acts>(running: &[Fit], pending: &[Pending<A>], o: Gid) -> bool
    ensures { result ≡ is_busy o (fired_of running.now pending.now) }
{
    if o.kind() == PLAIN {
        return false;
    }
    runs_on(running, o) || waits_on(pending, o)
}

/// Where the object of an action stands, if it is free.
fn free_at<A: Acts>(
    running: &[Fit],
    pending: &[Pending<A>],
    objects: &Objects,
    act: &Act,
) -> Option<usize>
    ensures inside { IfSome result (λ j. j < length objects.now.items) }
    ensures free { IfSome result (λ j. IsFree (fired_of running.now pending.now) objects.now.items act.now) }
    ensures found { IfSome result (λ j. find (is_standing (target_of act.now)) objects.now.items ≡ slice_get objects.now.items j) }
    ensures none { IfNone result (IsFree (fired_of running.now pending.now) objects.now.items act.now → ⊥) }
{
    let o = target(act);
    match objects.place(o) {
        Some(j) if !is_busy(running, pending, o) => Some(j),
        _ => None,
    }
}

/// The first accepted action whose object is free, and where that object stands.
pub fn first_free<A: Acts>(
    accepted: &Queue<Fit>,
    running: &[Fit],
    pending: &[Pending<A>],
    objects: &Objects,
) -> Option<(usize, usize)>
    ensures inside { IfSome result (λ p. (p.0 < length accepted.now.items) × (p.1 < length objects.now.items)) }
    ensures free { IfSome result (λ p. (act : _) → slice_get accepted.now.items p.0 ≡ Some act → IsFree (fired_of running.now pending.now) objects.now.items act) }
    ensures found { IfSome result (λ p. (act : _) → slice_get accepted.now.items p.0 ≡ Some act
        → find (is_standing (target_of act)) objects.now.items ≡ slice_get objects.now.items p.1) }
    ensures first { IfSome result (λ p. NoneIsFree (fired_of running.now pending.now) objects.now.items (take p.0 accepted.now.items)) }
    ensures none { IfNone result (NoneIsFree (fired_of running.now pending.now) objects.now.items accepted.now.items) }
{
    for i in 0..accepted.len() {
        match free_at(running, pending, objects, accepted[i].act()) {
            Some(j) => return Some((i, j)),
            None => (),
        }
    }
    None
}

/// Where a commit waits for an id of the object, asked for under a number.
#[tactic(auto, using(hpx_part::proofs::Keyed::find_step, hpx_part::proofs::Keyed::find_at_index, crate::proofs::FreeLemmas::find_none_more))]
pub fn waiting_at<A: Acts>(pending: &[Pending<A>], o: Gid, entry: u64) -> Option<usize>
    ensures inside { IfSome result (λ i. i < length pending.now) }
    ensures found { IfSome result (λ i. find (awaits o entry) pending.now ≡ slice_get pending.now i) }
    ensures first { IfSome result (λ i. find (awaits o entry) (take i pending.now) ≡ None) }
    ensures none { IfNone result (find (awaits o entry) pending.now ≡ None) }
{
    for (i, w) in pending.iter().enumerate() {
        if w.awaits(o, entry) {
            return Some(i);
        }
    }
    None
}

/// Whether a commit waits for an id of the object, asked for under a number.
pub fn is_awaited<A: Acts>(pending: &[Pending<A>], o: Gid, entry: u64) -> bool
    ensures { result ≡ list_any (awaits o entry) pending.now }
{
    pending.iter().any(|w| w.awaits(o, entry))
}

/// Where an action runs, if it does.
pub fn index_of(running: &[Fit], act: &Act) -> Option<usize>
    ensures some { IfSome result (λ i. slice_get running.now i ≡ Some act.now) }
    ensures none { IfNone result ((i : ℕ) → i < length running.now → slice_get running.now i ≡ Some act.now → ⊥) }
{
    for (i, x) in running.iter().enumerate() {
        if x.act().same(act) {
            return Some(i);
        }
    }
    None
}
