//! The jobs of a hand: what is put on its deque, and what is got from it or from the others'.
ghost use Rattle.std.specs.Prelude.{◌≡◌, ◌+◌, ◌<◌, ◌≤◌, ◌++◌, ◌∷◌, [], IfSome, IfNone, IsNone, IfErr, IfOk, OnOk, map, length, ℕ, vec_len, vec_capacity};
ghost use Rattle.hpx_pool.specs.Bags.{SameBag, joined, weigh};
ghost use Rattle.hpx_pool.specs.Hands.{put_of, got_of, own_got, own_deck, own_parts, frame_of, AreAll, thief_deck, loot_of, with_more, with_fewer, IsLone};

use crate::hand::{Hand, Owner, Thief};
use crate::rule::{Cut, Gets, Left, Puts};
use hpx_value::acts::Job;
use std::alloc::{AllocError, Global};
use std::sync::Wait;

/// How many jobs a new deque has memory for.
const ROOM: usize = 8;

impl Hand {
    /// Puts a job on the own deque. Gives it back where the deque cannot grow.
    pub fn put(&mut self, job: Job) -> Result<(), Job>
        ensures ok { OnOk result ((put_of self.new ≡ put_of self.old ++ job ∷ []) × (got_of self.new ≡ got_of self.old)) }
        ensures err { IfErr result (λ back. (back ≡ job) × (put_of self.new ≡ put_of self.old) × (got_of self.new ≡ got_of self.old)) }
        ensures same { frame_of self.new ≡ frame_of self.old }
    {
        self.own.push_as::<Puts>(job)
    }

    /// A job of the own deque, or else one of another's.
    pub fn get<R: Wait>(&mut self, rt: &R) -> Option<Job>
        ensures put { put_of self.new ≡ put_of self.old }
        ensures some { IfSome result (λ job. SameBag (got_of self.new) (job ∷ got_of self.old)) }
        ensures none { IfNone result (got_of self.new ≡ got_of self.old) }
        ensures exact { AreAll (frame_of self.old ∷ []) → SameBag (put_of self.old) (got_of self.old) → IsNone result }
        ensures alone { IfNone result (AreAll (frame_of self.old ∷ []) → SameBag (put_of self.new) (got_of self.new)) }
        ensures same { frame_of self.new ≡ frame_of self.old }
    {
        if let Some(job) = self.own.pop_as::<Gets>() {
            return Some(job);
        }
        steal_any(rt, self.thieves.as_mut_slice())
    }

    /// Takes in the pass of a thief of the own deque.
    pub(crate) fn take_in(&mut self, thief: Thief)
        requires { thief_deck thief ≡ own_deck self.old }
        ensures frame { frame_of self.new ≡ with_more self.old }
        ensures put { put_of self.new ≡ put_of self.old }
        ensures got { SameBag (got_of self.new) (got_of self.old ++ loot_of thief) }
    {
        let Thief { stealer: _, pass } = thief;
        self.own.absorb::<Cut>(pass);
    }

    /// A hand with the whole of a new deque.
    pub(crate) fn lone(alloc: Global) -> Result<Hand, AllocError>
        ensures { IfOk result (λ h. IsLone h) }
    {
        let own = Owner::fifo_as(alloc, ROOM)?;
        Ok(Hand {
            own,
            thieves: Vec::new(alloc),
        })
    }

    /// A thief of the own deque.
    pub(crate) fn thief(&mut self) -> Result<Thief, AllocError>
        requires { 1 < own_parts self.old }
        ensures ok { IfOk result (λ t. (thief_deck t ≡ own_deck self.old) × (loot_of t ≡ []) × (frame_of self.new ≡ with_fewer self.old)) }
        ensures put { put_of self.new ≡ put_of self.old }
        ensures got { got_of self.new ≡ got_of self.old }
    {
        let stealer = self.own.stealer()?;
        let pass = self.own.another::<Cut>();
        Ok(Thief { stealer, pass })
    }

    /// Takes all that is left in the own deque.
    pub(crate) fn drain(&mut self, left: &mut Vec<Job>)
        requires all { own_parts self.old ≡ 128 }
        requires room { (length (own_got self.old) ≤ length (put_of self.old)) × (vec_len left.old + length (put_of self.old) ≤ vec_capacity left.old + length (own_got self.old)) }
        ensures taken { (h : Job → ℕ) → weigh h left.new.items + weigh h (own_got self.old) ≡ weigh h left.old.items + weigh h (put_of self.old) }
        ensures room { (vec_len left.new + length (own_got self.old) ≡ vec_len left.old + length (put_of self.old)) × (vec_capacity left.new ≡ vec_capacity left.old) }
    {
        while let Some(job) = self.own.pop_as::<Gets>() {
            left.push_reserved(job);
        }
    }

    /// How many jobs are left in the own deque.
    pub(crate) fn left(&mut self) -> usize
        ensures frame { frame_of self.new ≡ frame_of self.old }
        ensures put { put_of self.new ≡ put_of self.old }
        ensures got { got_of self.new ≡ got_of self.old }
        ensures own { (own_got self.new ≡ own_got self.old) × (self.new.thieves ≡ self.old.thieves) }
        ensures left { own_parts self.old ≡ 128 → length (put_of self.old) ≡ length (own_got self.old) + result }
    {
        self.own.len_as::<Left>()
    }
}

/// A job of the first of these thieves that finds one.
fn steal_any<R: Wait>(rt: &R, thieves: &mut [Thief]) -> Option<Job>
    ensures decks { map thief_deck thieves.new ≡ map thief_deck thieves.old }
    ensures some { IfSome result (λ job. SameBag (joined loot_of thieves.new) (job ∷ joined loot_of thieves.old)) }
    ensures none { IfNone result (joined loot_of thieves.new ≡ joined loot_of thieves.old) }
{
    let (first, rest) = thieves.split_first_mut()?;
    if let Some(job) = first.steal(rt) {
        return Some(job);
    }
    steal_any(rt, rest)
}
