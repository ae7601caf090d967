//! Rows of hands, and of thieves: one for each deque.
ghost use Rattle.std.specs.Prelude.{◌≡◌, ◌+◌, ◌<◌, ◌++◌, [], IfSome, IfNone, OnOk, map, ℕ, vec_len, vec_capacity};
ghost use Rattle.hpx_pool.specs.Bags.{joined, weigh, Each};
ghost use Rattle.hpx_pool.specs.Hands.{put_of, got_of, own_deck, own_parts, frame_of, thief_deck, loot_of, thieving, TakesRow, GivesRow, with_more, with_fewer, IsWhole, Leaves, HasRoom};

use crate::hand::{Hand, Thief};
use hpx_value::acts::Job;
use std::alloc::{AllocError, Global};
use std::mem;

/// Takes the thieves of the first hand that has any.
pub(crate) fn take_row(alloc: Global, hands: &mut [Hand]) -> Option<Vec<Thief>>
    ensures put { map put_of hands.new ≡ map put_of hands.old }
    ensures some { IfSome result (λ row. TakesRow (map frame_of hands.old) (map thief_deck row.items) (map frame_of hands.new) × ((h : Job → ℕ) → weigh h (joined got_of hands.old) ≡ weigh h (joined got_of hands.new) + weigh h (joined loot_of row.items))) }
    ensures none { IfNone result ((map frame_of hands.new ≡ map frame_of hands.old) × (thieving (map frame_of hands.old) ≡ 0) × (joined got_of hands.new ≡ joined got_of hands.old)) }
{
    let (first, rest) = hands.split_first_mut()?;
    if first.thieves.is_empty() {
        return take_row(alloc, rest);
    }
    Some(mem::replace(&mut first.thieves, Vec::new(alloc)))
}

/// Takes in the passes of a row of thieves, one for each hand.
pub(crate) fn merge_row(hands: &mut [Hand], mut row: Vec<Thief>)
    requires { map thief_deck row.items ≡ map own_deck hands.old }
    ensures put { map put_of hands.new ≡ map put_of hands.old }
    ensures frames { map frame_of hands.new ≡ map with_more hands.old }
    ensures got { (h : Job → ℕ) → weigh h (joined got_of hands.new) ≡ weigh h (joined got_of hands.old) + weigh h (joined loot_of row.items) }
{
    if let Some((last, rest)) = hands.split_last_mut() {
        if let Some(thief) = row.pop() {
            last.take_in(thief);
            merge_row(rest, row);
        }
    }
}

/// A thief of each hand's deque.
pub(crate) fn cut_row(hands: &mut [Hand], row: &mut Vec<Thief>) -> Result<(), AllocError>
    requires { Each (λ h. 1 < own_parts h) hands.old }
    ensures put { map put_of hands.new ≡ map put_of hands.old }
    ensures got { map got_of hands.new ≡ map got_of hands.old }
    ensures frames { OnOk result (map frame_of hands.new ≡ map with_fewer hands.old) }
    ensures row { OnOk result (map thief_deck row.new.items ≡ map thief_deck row.old.items ++ map own_deck hands.old) }
    ensures none { OnOk result (joined loot_of row.new.items ≡ joined loot_of row.old.items) }
{
    let Some((first, rest)) = hands.split_first_mut() else {
        return Ok(());
    };
    row.push(first.thief()?)?;
    cut_row(rest, row)
}

/// Gives the thieves to the first hand that has none. Gives them back if there is no such hand.
pub(crate) fn give_row(hands: &mut [Hand], row: Vec<Thief>) -> Option<Vec<Thief>>
    requires { joined loot_of row.items ≡ [] }
    ensures put { map put_of hands.new ≡ map put_of hands.old }
    ensures got { map got_of hands.new ≡ map got_of hands.old }
    ensures none { IfNone result (GivesRow (map frame_of hands.old) (map thief_deck row.items) (map frame_of hands.new)) }
    ensures some { IfSome result (λ back. (back ≡ row) × (map frame_of hands.new ≡ map frame_of hands.old)) }
{
    let Some((first, rest)) = hands.split_first_mut() else {
        return Some(row);
    };
    if !first.thieves.is_empty() {
        return give_row(rest, row);
    }
    first.thieves = row;
    None
}

/// How many jobs are left. None if they are too many to count.
pub(crate) fn left_all(hands: &mut [Hand]) -> Option<usize>
    requires { Each IsWhole hands.old }
    ensures frames { map frame_of hands.new ≡ map frame_of hands.old }
    ensures put { map put_of hands.new ≡ map put_of hands.old }
    ensures got { map got_of hands.new ≡ map got_of hands.old }
    ensures left { IfSome result (λ n. Leaves n hands.new) }
{
    let Some((first, rest)) = hands.split_first_mut() else {
        return Some(0);
    };
    let here = first.left();
    let there = left_all(rest)?;
    here.checked_add(there)
}

/// Takes all that is left.
pub(crate) fn drain_all(hands: &mut [Hand], left: &mut Vec<Job>)
    requires { HasRoom (vec_len left.old) (vec_capacity left.old) hands.old }
    ensures { (h : Job → ℕ) → weigh h left.new.items + weigh h (joined got_of hands.old) ≡ weigh h left.old.items + weigh h (joined put_of hands.old) }
{
    if let Some((first, rest)) = hands.split_first_mut() {
        first.drain(left);
        drain_all(rest, left);
    }
}
