//! Sharing the ids of a hand among those who name them.
ghost use Rattle.std.specs.Prelude.{◌≡◌, ◌<◌, ◌≤◌, ◌+◌, ◌^◌, ◌∷◌, ◌↔◌, [], ℕ, IsSomeAnd, IsTrue, IfOk, OnOk, length};
ghost use Rattle.hpx_value.specs.Hands.{id_at};
ghost use Rattle.hpx_commit.specs.Deals.{is_managed, half, named, managed_places, share, dealt, Lasts, AllLast, AreWithin, unnamed, filled, unused, log_of};

use crate::hand::id_at;
use hpx_value::gid::{Gid, Gids};
use hpx_value::items::Items;
use hpx_value::memory::OutOfMemory;
use std::alloc::Global;
use std::collections::VecDeque;

/// The least kind of objects that are counted.
const LEAST_MANAGED: u32 = 16;

/// Whether ids of the object carry credit.
pub fn is_managed(id: Gid) -> bool
    ensures { result ≡ is_managed id }
{
    LEAST_MANAGED <= id.kind()
}

/// The log of an id's credit, or 0.
pub fn log_of(id: Gid) -> u8
    ensures log { result ≡ log_of id.log }
    ensures bound { result ≤ 31 }
{
    let _upper = id.msb;
    match id.log() {
        Some(log) => log,
        None => 0,
    }
}

/// How often a place is named.
pub fn named(places: &[u32], place: u32) -> usize
    ensures count { result ≡ named places.now place }
    ensures bound { result ≤ length places.now }
{
    let mut n = 0;
    for p in places {
        if *p == place {
            n += 1;
        }
    }
    n
}

/// Half of an id.
pub fn half(id: Gid) -> Gid
    requires { 1 ≤ log_of id.log }
    ensures { result ≡ half id }
{
    match id.log() {
        Some(log) => id.with_log(log - 1),
        None => id,
    }
}

/// What one who names an id gets while so many others are still to get of it.
fn share(id: Gid, others: usize) -> Gid
    requires { Lasts id (others + 1) }
    ensures { result ≡ share id others }
{
    if others > 0 { half(id) } else { id }
}

/// The named places of managed objects.
pub fn managed_places(alloc: Global, hand: &[Gid], places: &[u32]) -> Result<Vec<u32>, OutOfMemory>
    ensures { IfOk result (λ some. some.items ≡ managed_places hand.now places.now) }
{
    let mut some = Vec::new(alloc);
    for place in places {
        if is_managed(id_at(hand, *place as usize)) {
            some.push(*place)?;
        }
    }
    Ok(some)
}

/// Whether an id lasts for so many who name it.
pub fn lasts(id: Gid, n: usize) -> bool
    ensures { IsTrue result ↔ Lasts id n }
{
    n <= log_of(id) as usize + 1
}

/// Whether each id of the hand lasts for those who name its place.
#[tactic(auto, using(crate::proofs::Deals::all_last_seen, crate::proofs::Deals::all_last_more))]
pub fn all_last(hand: &[Gid], places: &[u32]) -> bool
    requires few { length hand.now < 2 ^ 32 }
    requires within { AreWithin hand.now places.now }
    ensures { IsTrue result ↔ AllLast hand.now places.now }
{
    for (p, id) in hand.iter().enumerate() {
        if !lasts(*id, named(places, p as u32)) {
            return false;
        }
    }
    true
}

/// What each of those who name places gets, in order.
pub fn deal(alloc: Global, hand: &[Gid], places: &[u32]) -> Result<VecDeque<Gid>, OutOfMemory>
    requires within { AreWithin hand.now places.now }
    requires lasts { AllLast hand.now places.now }
    ensures { IfOk result (λ out. out.items ≡ dealt hand.now places.now) }
{
    let mut hand = Vec::from_slice(alloc, hand)?;
    let mut out = VecDeque::new(alloc);
    for i in 0..places.len() {
        let place = places[i];
        let id = id_at(hand.as_slice(), place as usize);
        let part = share(id, named(&places[i + 1..], place));
        hand[place as usize] = part;
        out.push_back(part)?;
    }
    Ok(out)
}

/// The ids of managed objects of the hand that nobody names.
pub fn unnamed(alloc: Global, hand: &[Gid], places: &[u32]) -> Result<Vec<Gid>, OutOfMemory>
    requires few { length hand.now < 2 ^ 32 }
    ensures { IfOk result (λ some. some.items ≡ unnamed hand.now places.now) }
{
    let mut some = Vec::new(alloc);
    for (p, id) in hand.iter().enumerate() {
        if is_managed(*id) && named(places, p as u32) == 0 {
            some.push(*id)?;
        }
    }
    Ok(some)
}

/// An id, or the next of what was dealt if it is of a managed object.
fn fill_one(id: Gid, dealt: &mut VecDeque<Gid>) -> Gid
    ensures id { filled (id ∷ []) dealt.old.items ≡ result ∷ [] }
    ensures rest { dealt.new.items ≡ unused (id ∷ []) dealt.old.items }
{
    if !is_managed(id) {
        return id;
    }
    match dealt.pop_front() {
        Some(next) => next,
        None => id,
    }
}

/// The ids with the managed ones among them replaced by what was dealt, which is taken from the front.
pub fn fill(alloc: Global, ids: &[Gid], dealt: &mut VecDeque<Gid>) -> Result<Gids, OutOfMemory>
    ensures ids { IfOk result (λ out. out ≡ filled ids.now dealt.old.items) }
    ensures rest { OnOk result (dealt.new.items ≡ unused ids.now dealt.old.items) }
{
    let mut out = Vec::new(alloc);
    for id in ids {
        out.push(fill_one(*id, dealt))?;
    }
    Ok(Items::from_vec(out))
}
