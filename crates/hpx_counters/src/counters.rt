//! Counters by their names, their values, and the list of them.
ghost use Rattle.std.specs.Prelude.{◌≡◌, ◌+◌, ◌<◌, ◌≤◌, ◌++◌, List, ℕ, IfOk, IfErr, false, is_ok, length, drop, map, OnErr, ◌≢◌};
ghost use Rattle.std.specs.Result.{result_ok};
ghost use Rattle.std.specs.Str.{bytes_eq};
ghost use Rattle.hpx_counters.specs.Counters.{name_of, counters_at, counters_below, counter_in, counter_named, shared, longest_front, counter_value};

use crate::counter::{Counted, Counter, both_digits, digits};
use hpx_journal::journal::Journal;
use hpx_value::items::{Items, Texts};
use hpx_value::memory::OutOfMemory;
use std::alloc::Global;
use thiserror::Error;

/// A text that names no counter.
#[derive(Clone, Copy, Debug, PartialEq, Eq, Error)]
#[error("no counter's name goes on behind byte {at}")]
pub struct BadCounter {
    /// The length of the longest front of the text that begins a name.
    pub at: u32,
}

/// What can be counted, in the order of lists.
const ALL: [Counted; 10] = [
    Counted::ParcelsSent,
    Counted::ParcelsReceived,
    Counted::ActionsDone,
    Counted::CacheHits,
    Counted::CacheMisses,
    Counted::ObjectsBorn,
    Counted::ObjectsFreed,
    Counted::ObjectsLanded,
    Counted::CreditsSplit,
    Counted::CreditsAsked,
];

/// The most localities that there can be.
const LOCALITIES: u16 = 64;

/// The counter that a text names.
pub fn read(name: &[u8]) -> Result<Counter, BadCounter>
    ensures named { result_ok result ≡ counter_named name.now }
    ensures locality { IfOk result (λ counter. counter.locality < 64) }
    ensures front { IfErr result (λ bad. bad.at ≡ longest_front name.now (counters_below 64)) }
{
    let mut longest = 0;
    for locality in 0..LOCALITIES {
        match read_at(name, locality) {
            Ok(counter) => return Ok(counter),
            Err(front) => longest = front.max(longest),
        }
    }
    Err(BadCounter { at: longest })
}

/// The counter of one locality that a text names, or the length of the longest front that begins the name of one.
fn read_at(name: &[u8], locality: u16) -> Result<Counter, u32>
    requires { locality < 64 }
    ensures named { result_ok result ≡ counter_in name.now (counters_at locality) }
    ensures here { IfOk result (λ counter. counter.locality ≡ locality) }
    ensures front { IfErr result (λ front. front ≡ longest_front name.now (counters_at locality)) }
{
    let mut longest = 0;
    for what in ALL {
        let counter = Counter { what, locality };
        match compare(name, counter) {
            Ok(()) => return Ok(counter),
            Err(front) => longest = front.max(longest),
        }
    }
    Err(longest)
}

/// Whether a text is the name of a counter; if not, how many first bytes the two share.
fn compare(name: &[u8], counter: Counter) -> Result<(), u32>
    requires { counter.locality < 64 }
    ensures named { is_ok result ≡ bytes_eq name.now (name_of counter) }
    ensures front { IfErr result (λ front. front ≡ shared name.now (name_of counter)) }
{
    let both = both_digits(counter.locality);
    let at = past(name, 0, counter.what.head().as_bytes())?;
    let at = past(name, at, digits(&both, counter.locality))?;
    match past(name, at, counter.what.tail().as_bytes()) {
        Ok(end) if end as usize == name.len() => Ok(()),
        Ok(end) => Err(end),
        Err(front) => Err(front),
    }
}

/// The place behind a piece of a text that stands at a place; if another stands there, the place where it differs.
fn past(text: &[u8], from: u32, piece: &[u8]) -> Result<u32, u32>
    requires within { from ≤ length text.now }
    requires small { from + length piece.now < 200 }
    ensures within { IfOk result (λ end. end ≤ length text.now) }
    ensures end { IfOk result (λ end. end ≡ from + length piece.now) }
    ensures goes_on { IfOk result (λ end. (more : List ℕ) →
        from + shared (drop from text.now) (piece.now ++ more) ≡ end + shared (drop end text.now) more) }
    ensures stands { IfOk result (λ end. (more : List ℕ) → bytes_eq (drop from text.now) (piece.now ++ more) ≡ bytes_eq (drop end text.now) more) }
    ensures differs { IfErr result (λ at. (more : List ℕ) → from + shared (drop from text.now) (piece.now ++ more) ≡ at) }
    ensures other { IfErr result (λ at. (more : List ℕ) → bytes_eq (drop from text.now) (piece.now ++ more) ≡ false) }
{
    let (_, rest) = text.split_at(from as usize);
    let there = shared(rest, piece);
    let at = from + there as u32;
    if there == piece.len() {
        Ok(at)
    } else {
        Err(at)
    }
}

/// How many first bytes two texts share.
fn shared(text: &[u8], other: &[u8]) -> usize
    ensures value { result ≡ shared text.now other.now }
    ensures within { result ≤ length text.now }
    ensures short { result ≤ length other.now }
{
    let mut n = 0;
    while n < text.len() && n < other.len() && text[n] == other[n] {
        n += 1;
    }
    n
}

/// How many entries of a journal a counter counts.
pub fn value(counter: &Counter, journal: &Journal) -> u64
    ensures { result ≡ counter_value counter.now journal.now.entries }
{
    journal
        .as_slice()
        .iter()
        .filter(|entry| counter.counts(entry))
        .count() as u64
}

/// The names of all counters of so many localities: locality by locality. Only where there are some is memory wanted.
pub fn list(alloc: Global, n: u32) -> Result<Texts, OutOfMemory>
    requires { n ≤ 64 }
    ensures ok { IfOk result (λ names. names ≡ map name_of (counters_below n)) }
    ensures memory { OnErr result (n ≢ 0) }
{
    let mut names = Items::new(alloc);
    for locality in 0..n as u16 {
        list_at(alloc, &mut names, locality)?;
    }
    Ok(names)
}

/// Adds the names of the counters at a locality.
fn list_at(alloc: Global, names: &mut Texts, locality: u16) -> Result<(), OutOfMemory>
    requires { locality < 64 }
    ensures { IfOk result (λ _. names.new ≡ names.old ++ map name_of (counters_at locality)) }
{
    for what in ALL {
        names.push(Counter { what, locality }.name(alloc)?)?;
    }
    Ok(())
}
