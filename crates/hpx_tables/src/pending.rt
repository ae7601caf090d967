//! Commits that wait for credit that was asked for.
ghost use Rattle.std.specs.Prelude.{◌≡◌, ◌≤◌, ◌<◌, true, None, IfSome, IfNone, IfOk, length, find};
ghost use Rattle.std.specs.List.{AllByRecursion, slice_get};
ghost use Rattle.hpx_value.specs.Laws.{KeepsLaws};
ghost use Rattle.hpx_value.specs.Riders.{plain};
ghost use Rattle.hpx_tables.specs.Jobs.{IsFitJob};
ghost use Rattle.hpx_tables.specs.Pending.{is_asked_for, awaits, waits_for_one, fails_with, hand_with, waits_with, Refills};

use hpx_commit::deal::log_of;
use hpx_commit::hand::id_at;
use hpx_commit::stock::Stock;
use hpx_value::acts::{Acts, Done};
use hpx_value::gid::Gid;
use hpx_value::memory::OutOfMemory;
use hpx_value::value::Act;
use std::alloc::Global;
use std::marker::Model;

/// What was asked for: the number of the ask, and the place in the hand.
#[derive(Clone, Copy, Debug, PartialEq, Eq)]
pub struct Asked {
    pub entry: u64,
    pub place: u32,
}

/// A job that is done and waits for credit to be committed. Its hand has the ids of its object and of its plain action, bare ids
/// for what it makes, and what was split off; what was asked for stands there without credit. A rider stays in its action.
#[derive(Drop)]
pub struct Pending<A: Acts> {
    done: Done<A>,
    stock: Stock,
    asked: Vec<Asked>,
    refused: Option<Gid>,
}

impl<A: Acts> Model for Pending<A> {
    ghost use Rattle.std.specs.Prelude.{◌≡◌};
    ghost use Rattle.hpx_value.specs.Riders.{plain};
    ghost use Rattle.hpx_tables.specs.Jobs.{IsFitJob};
    ghost use Rattle.hpx_tables.specs.Pending.{Waits};

    ghost Value = { Waits };

    ghost view = { λ w. record {
      job = w.done.job;
      outcome = w.done.outcome;
      localities = w.done.localities;
      hand = w.stock.hand;
      places = w.stock.places;
      asked = w.asked.items;
      refused = w.refused;
    } };

    ghost invariant = { λ w. IsFitJob w.done.job
        × (w.done.outcome ≡ A.act_of w.done.localities w.done.job.kind w.done.job.at w.done.job.state (plain w.done.job.action)) };
}

impl<A: Acts> Pending<A> {
    /// A job that is done, with its stock and what it has asked for.
    pub fn new(done: Done<A>, stock: Stock, asked: Vec<Asked>) -> Pending<A>
        requires { IsFitJob done.job }
        ensures { result ≡ waits_with done.job done.outcome done.localities asked.items stock }
    {
        Pending {
            done,
            stock,
            asked,
            refused: None,
        }
    }

    /// The action, which is still fired.
    pub fn action(&self) -> &Act
        ensures { result.now ≡ self.now.job.action }
    {
        &self.done.job().action
    }

    /// The job that is done.
    pub fn done(&self) -> &Done<A>
        ensures job { result.now.job ≡ self.now.job }
        ensures outcome { result.now.outcome ≡ self.now.outcome }
        ensures localities { result.now.localities ≡ self.now.localities }
    {
        &self.done
    }

    /// The places that are named in its hand.
    pub fn places(&self) -> &[u32]
        ensures { result.now ≡ self.now.places }
    {
        self.stock.places()
    }

    /// Whether it waits for one id alone, and none was refused.
    pub fn waits_for_one(&self) -> bool
        ensures { result ≡ waits_for_one self.now }
    {
        self.asked.len() == 1 && self.refused.is_none()
    }

    /// Whether it fails with an id: it waits for nothing else, and this or another has no more credit.
    pub fn fails_with(&self, id: Gid) -> bool
        ensures { result ≡ fails_with id self.now }
    {
        self.asked.len() == 1 && (log_of(id) == 0 || self.refused.is_some())
    }

    /// The ids in its hand.
    pub fn hand(&self) -> &[Gid]
        ensures { result.now ≡ self.now.hand }
    {
        self.stock.hand()
    }

    /// Whether this was asked for under a number, of the object of an id.
    fn is_for(&self, ask: Asked, o: Gid, entry: u64) -> bool
        ensures { result ≡ is_asked_for self.now o entry ask }
    {
        ask.entry == entry && o.names_same(id_at(self.stock.hand(), ask.place as usize))
    }

    /// Where what is asked for under a number, of the object of an id, stands among what was asked for.
    #[tactic(auto, using(hpx_part::proofs::Keyed::find_step, hpx_part::proofs::Keyed::find_at_index))]
    fn ask_at(&self, o: Gid, entry: u64) -> Option<usize>
        ensures inside { IfSome result (λ k. k < length self.now.asked) }
        ensures found { IfSome result (λ k. find (is_asked_for self.now o entry) self.now.asked ≡ slice_get self.now.asked k) }
        ensures none { IfNone result (find (is_asked_for self.now o entry) self.now.asked ≡ None) }
    {
        for (k, x) in self.asked.iter().enumerate() {
            if self.is_for(*x, o, entry) {
                return Some(k);
            }
        }
        None
    }

    /// Whether it waits for this.
    pub fn awaits(&self, o: Gid, entry: u64) -> bool
        ensures { result ≡ awaits o entry self.now }
    {
        self.asked.iter().any(|x| self.is_for(*x, o, entry))
    }

    /// The ids in its hand, with one that it waits for in its place.
    pub fn hand_with(&self, alloc: Global, id: Gid, entry: u64) -> Result<Vec<Gid>, OutOfMemory>
        requires { AllByRecursion (λ x. x.place < length self.now.hand) self.now.asked }
        ensures { IfOk result (λ hand. hand.items ≡ hand_with id entry self.now) }
    {
        let mut hand = Vec::from_slice(alloc, self.stock.hand())?;
        if let Some(k) = self.ask_at(id, entry) {
            hand[self.asked[k].place as usize] = id;
        }
        Ok(hand)
    }

    /// Takes an id that it waits for into its hand.
    pub fn refill(&mut self, id: Gid, entry: u64)
        requires waits { awaits id entry self.old ≡ true }
        requires within { AllByRecursion (λ x. x.place < length self.old.hand) self.old.asked }
        ensures { Refills id entry self.old self.new }
    {
        let Some(k) = self.ask_at(id, entry) else {
            return;
        };
        let place = self.asked.remove(k).place;
        self.stock.replace(place as usize, id);
        if log_of(id) == 0 {
            self.refused = Some(id.bare());
        }
    }
}

/// The outcome of a job keeps the laws of actions, for its action without a rider.
pub fn lawful<A: Acts>(done: &Done<A>)
    requires localities { done.now.localities ≤ 64 }
    requires at { done.now.job.at < done.now.localities }
    requires fit { IsFitJob done.now.job }
    ensures { KeepsLaws done.now.localities done.now.job.kind done.now.job.at done.now.job.state (plain done.now.job.action) done.now.outcome }
{
    let _at = done.job().at;
}
