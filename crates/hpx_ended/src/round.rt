//! The waves of one round: each member tells once in a wave how many frames it has sent and accepted.
ghost use Rattle.std.specs.Prelude.{◌≡◌, ◌≤◌, ◌<◌, ◌+◌, length, IfOk, IfErr, IsErr, OnOk, ◌↔◌, IsTrue, false};
ghost use Rattle.std.specs.List.{sum_by, list_any, slice_get};
ghost use Rattle.hpx_ended.specs.Tally.{Tally, fresh, IsSpent, MayCount, is_missing, sent_of, taken_of, waits, current, opened, counted, verdict_of};

use hpx_value::memory::OutOfMemory;
use std::alloc::Global;
use std::marker::Model;
use thiserror::Error;

/// How many frames a member has sent, and accepted.
#[derive(Clone, Copy, Debug, PartialEq, Eq)]
pub struct Counted {
    pub sent: u64,
    pub taken: u64,
}

/// What the waves of a round show so far.
#[derive(Clone, Copy, Debug, PartialEq, Eq)]
pub enum Verdict {
    /// An answer to the last wave is missing.
    Unfinished,
    /// Not all that was sent had been accepted one wave before, or there was no wave before.
    Again,
    /// All that was sent by the last wave had been accepted by the one before.
    Ended,
}

/// Counts came that no wave waits for: which wave waits, if one does, and who told them.
#[derive(Clone, Copy, Debug, PartialEq, Eq, Error)]
#[error("counts out of place")]
pub struct OutOfPlace {
    pub current: Option<u32>,
    pub node: u32,
}

/// The waves of one round.
#[derive(Drop)]
pub struct Waves {
    begun: u32,
    earlier: Option<u128>,
    answers: Vec<Option<Counted>>,
}

impl Model for Waves {
    ghost use Rattle.std.specs.Prelude.{◌≤◌, length};
    ghost use Rattle.hpx_ended.specs.Tally.{Tally};

    ghost Value = { Tally };

    ghost view = { λ w. record { begun = w.begun; earlier = w.earlier; answers = w.answers.items } };

    ghost invariant = { λ w. (1 ≤ length w.answers.items) × (length w.answers.items ≤ 64) };
}

impl Waves {
    /// Those of n members, with no wave begun.
    pub fn new(alloc: Global, n: u32) -> Result<Waves, OutOfMemory>
        requires some { 1 ≤ n }
        requires few { n ≤ 64 }
        ensures { IfOk result (λ w. w ≡ fresh n) }
    {
        let answers = vec![in alloc; Some(Counted { sent: 0, taken: 0 }); n as usize]?;
        Ok(Waves {
            begun: 0,
            earlier: None,
            answers,
        })
    }

    /// Begins the round anew: no wave was begun.
    pub fn restart(&mut self)
        ensures { self.new ≡ fresh (length self.old.answers) }
    {
        self.begun = 0;
        self.earlier = None;
        self.answers.fill(Some(Counted { sent: 0, taken: 0 }));
    }

    /// How many waves were begun.
    pub fn begun(&self) -> u32
        ensures { result ≡ self.now.begun }
    {
        self.begun
    }

    /// Begins a wave with the numbers of member 0, and answers its number.
    pub fn begin(&mut self, sent: u64, taken: u64) -> u32
        requires done { waits self.old ≡ false }
        requires more { self.old.begun < 4294967295 }
        ensures opened { self.new ≡ opened (record { sent = sent; taken = taken }) self.old }
        ensures number { result ≡ self.old.begun }
    {
        let number = self.begun;
        self.earlier = if number == 0 {
            None
        } else {
            Some(taken_sum(self.answers.as_slice()))
        };
        self.answers.fill(None);
        self.answers[0] = Some(Counted { sent, taken });
        self.begun = number + 1;
        number
    }

    /// Takes the numbers that another member tells in a wave. They are out of place where that wave does not wait for them.
    pub fn counts(&mut self, node: u32, wave: u32, sent: u64, taken: u64) -> Result<(), OutOfPlace>
        ensures refused { IsErr result ↔ ¬ MayCount self.old node wave }
        ensures right { OnOk result (MayCount self.old node wave) }
        ensures told { IfErr result (λ e. (e.current ≡ current self.old) × (e.node ≡ node) × (self.new ≡ self.old)) }
        ensures counted { IfOk result (λ _. self.new ≡ counted node (record { sent = sent; taken = taken }) self.old) }
    {
        let current = self.current();
        if current == Some(wave) && self.misses(node) {
            self.answers[node as usize] = Some(Counted { sent, taken });
            return Ok(());
        }
        Err(OutOfPlace { current, node })
    }

    /// The wave that waits for answers, if one does.
    fn current(&self) -> Option<u32>
        ensures { result ≡ current self.now }
    {
        if some_missing(self.answers.as_slice()) {
            Some(self.begun.saturating_sub(1))
        } else {
            None
        }
    }

    /// Whether the answer of this member is missing.
    fn misses(&self, node: u32) -> bool
        ensures { IsTrue result ↔ (slice_get self.now.answers node ≡ Some None) }
    {
        matches!(self.answers.get(node as usize), Some(None))
    }

    /// Whether no wave is left: there are other members, and the last wave that has a number does not end the round.
    pub fn is_spent(&self) -> bool
        ensures { IsTrue result ↔ IsSpent self.now }
    {
        self.begun == u32::MAX && self.answers.len() > 1 && self.verdict() == Verdict::Again
    }

    /// What the waves show so far.
    pub fn verdict(&self) -> Verdict
        ensures { result ≡ verdict_of self.now }
    {
        if some_missing(self.answers.as_slice()) {
            return Verdict::Unfinished;
        }
        match self.earlier {
            Some(taken) => if taken == sent_sum(self.answers.as_slice()) {
                Verdict::Ended
            } else {
                Verdict::Again
            },
            None => Verdict::Again,
        }
    }
}

/// Whether an answer is missing.
fn some_missing(answers: &[Option<Counted>]) -> bool
    ensures { result ≡ list_any is_missing answers.now }
{
    answers.iter().any(|x| x.is_none())
}

/// How many frames were sent, by the answers.
fn sent_sum(answers: &[Option<Counted>]) -> u128
    requires { length answers.now ≤ 64 }
    ensures { result ≡ sum_by sent_of answers.now }
{
    let mut sum = 0u128;
    for i in 0..answers.len() {
        if let Some(x) = answers[i] {
            sum += x.sent as u128;
        }
    }
    sum
}

/// How many were accepted.
fn taken_sum(answers: &[Option<Counted>]) -> u128
    requires { length answers.now ≤ 64 }
    ensures { result ≡ sum_by taken_of answers.now }
{
    let mut sum = 0u128;
    for i in 0..answers.len() {
        if let Some(x) = answers[i] {
            sum += x.taken as u128;
        }
    }
    sum
}
