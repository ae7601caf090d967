//! A pool: hands that steal from one another, and what is left once they are done.
ghost use Rattle.std.specs.Prelude.{◌≡◌, ◌<◌, ◌≤◌, ◌++◌, [], IfErr, IfOk, OnOk, map, length, true, false};
ghost use Rattle.hpx_pool.specs.Bags.{SameBag, joined, Each};
ghost use Rattle.hpx_pool.specs.Hands.{put_of, got_of, frame_of, AreAll, thieving, IsLone};

use crate::hand::Hand;
use crate::rows::{cut_row, drain_all, give_row, left_all, merge_row, take_row};
use hpx_value::acts::Job;
use hpx_value::memory::OutOfMemory;
use std::alloc::{AllocError, Global};

/// Hands that cannot steal.
fn lone_hands(alloc: Global, n: u32) -> Result<Vec<Hand>, AllocError>
    ensures { IfOk result (λ v. (length v.items ≡ n) × Each IsLone v.items) }
{
    let mut all = Vec::new(alloc);
    for _ in 0..n {
        all.push(Hand::lone(alloc)?)?;
    }
    Ok(all)
}

/// Takes in the thieves of a hand, if any has some.
fn merge_one(alloc: Global, hands: &mut [Hand]) -> bool
    requires { AreAll (map frame_of hands.old) }
    ensures all { AreAll (map frame_of hands.new) }
    ensures put { map put_of hands.new ≡ map put_of hands.old }
    ensures got { SameBag (joined got_of hands.new) (joined got_of hands.old) }
    ensures fewer { result ≡ true → thieving (map frame_of hands.new) < thieving (map frame_of hands.old) }
    ensures none { result ≡ false → thieving (map frame_of hands.new) ≡ 0 }
{
    match take_row(alloc, hands) {
        Some(row) => {
            merge_row(hands, row);
            true
        }
        None => false,
    }
}

/// One hand more can steal, if any could not.
fn share_one(alloc: Global, hands: &mut [Hand]) -> Result<(), AllocError>
    requires some { 1 < length hands.old }
    requires few { length hands.old ≤ 64 }
    requires all { AreAll (map frame_of hands.old) }
    ensures put { map put_of hands.new ≡ map put_of hands.old }
    ensures got { SameBag (joined got_of hands.new) (joined got_of hands.old) }
    ensures all { OnOk result (AreAll (map frame_of hands.new)) }
{
    let mut row = Vec::new(alloc);
    cut_row(hands, &mut row)?;
    if let Some(row) = give_row(hands, row) {
        merge_row(hands, row);
    }
    Ok(())
}

/// Each hand can steal from every deque.
fn share_all(alloc: Global, mut all: Vec<Hand>) -> Result<Vec<Hand>, OutOfMemory>
    requires some { 1 < length all.items }
    requires few { length all.items ≤ 64 }
    requires all { AreAll (map frame_of all.items) }
    ensures count { IfOk result (λ v. length v.items ≡ length all.items) }
    ensures all { IfOk result (λ v. AreAll (map frame_of v.items)) }
    ensures put { IfOk result (λ v. SameBag (joined put_of v.items) (joined put_of all.items)) }
    ensures got { IfOk result (λ v. SameBag (joined got_of v.items) (joined got_of all.items)) }
{
    for _ in 0..all.len() {
        share_one(alloc, all.as_mut_slice())?;
    }
    Ok(all)
}

/// The hands of a new pool, which hold nothing. Each can steal from every deque, where there are several.
pub fn hands(alloc: Global, n: u32) -> Result<Vec<Hand>, OutOfMemory>
    requires { (0 < n) × (n ≤ 64) }
    ensures count { IfOk result (λ v. length v.items ≡ n) }
    ensures all { IfOk result (λ v. AreAll (map frame_of v.items)) }
    ensures put { IfOk result (λ v. SameBag (joined put_of v.items) []) }
    ensures got { IfOk result (λ v. SameBag (joined got_of v.items) []) }
{
    let all = lone_hands(alloc, n)?;
    if n == 1 {
        return Ok(all);
    }
    share_all(alloc, all)
}

/// The jobs that are left, once no thread has a hand any more. For want of memory the hands come back.
pub fn gather(alloc: Global, mut hands: Vec<Hand>) -> Result<Vec<Job>, Vec<Hand>>
    requires { AreAll (map frame_of hands.items) }
    ensures ok { IfOk result (λ jobs. SameBag (joined put_of hands.items) (joined got_of hands.items ++ jobs.items)) }
    ensures all { IfErr result (λ h. AreAll (map frame_of h.items)) }
    ensures put { IfErr result (λ h. map put_of h.items ≡ map put_of hands.items) }
    ensures got { IfErr result (λ h. SameBag (joined got_of h.items) (joined got_of hands.items)) }
{
    while merge_one(alloc, hands.as_mut_slice()) {}
    let mut left = Vec::new(alloc);
    let Some(n) = left_all(hands.as_mut_slice()) else {
        return Err(hands);
    };
    if left.reserve(n).is_err() {
        return Err(hands);
    }
    drain_all(hands.as_mut_slice(), &mut left);
    Ok(left)
}
