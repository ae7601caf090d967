//! Tables: maps from keys to objects, in the order of the keys' bytes.
ghost use Rattle.std.specs.Prelude.{◌≡◌, ◌∷◌, ◌++◌, [], IfOk, OnOk, option_copied, if◌then◌else◌};
ghost use Rattle.hpx_calls.specs.Values.{spelled};
ghost use Rattle.hpx_calls.specs.Tables.{added, found, listed, on_table, registers, removed, resolves, unregisters};
ghost use Rattle.hpx_names.specs.Places.{index_of, place_of};

use hpx_calls::answer::{does, leaves, refuses, wrong};
use hpx_calls::codes::{FULL, NO_NAME, TAKEN};
use hpx_calls::content::{Content, Pair};
use hpx_calls::effect::{Called, Effect};
use hpx_calls::read::precedes;
use hpx_calls::request::Request;
use hpx_value::exact::Exact;
use hpx_value::items::{Items, Text};
use hpx_value::memory::OutOfMemory;
use hpx_value::value::Value;
use std::alloc::Global;

const MOST_PAIRS: usize = 100;

/// What is asked of a table.
pub fn on_table(
    alloc: Global,
    pairs: Items<Pair<Value>>,
    request: Request<Value>,
) -> Result<Called<Value>, OutOfMemory>
    ensures { IfOk result (λ called. called ≡ on_table spelled pairs request) }
{
    match request {
        Request::Register { key, to } => registers(pairs, key, to),
        Request::Resolve(key) => resolves(alloc, pairs, key.as_slice()),
        Request::Unregister(key) => Ok(unregisters(pairs, key.as_slice())),
        Request::Keys => {
            let text = listed(alloc, pairs.as_slice())?;
            Ok(leaves(Content::Table(pairs), Effect::Answers(Value::Text(text))))
        }
        _ => Ok(wrong(Content::Table(pairs))),
    }
}

/// One more pair, where the key is new and there is room.
fn registers(pairs: Items<Pair<Value>>, key: Text, to: Value) -> Result<Called<Value>, OutOfMemory>
    ensures { IfOk result (λ called. called ≡ registers spelled pairs key to (found key pairs)) }
{
    if found(key.as_slice(), pairs.as_slice()).is_some() {
        return Ok(refuses(Content::Table(pairs), TAKEN));
    }
    if pairs.len() == MOST_PAIRS {
        return Ok(refuses(Content::Table(pairs), FULL));
    }
    Ok(does(Content::Table(added(pairs, key, to)?)))
}

/// The pairs with one more, at its place.
#[tactic(auto, using(crate::proofs::Placed::added_is, crate::proofs::Placed::place_within))]
fn added(pairs: Items<Pair<Value>>, key: Text, to: Value) -> Result<Items<Pair<Value>>, OutOfMemory>
    ensures { IfOk result (λ more. more ≡ added key to pairs) }
{
    let place = place_of(key.as_slice(), pairs.as_slice());
    let mut pairs = pairs.into_vec();
    pairs.insert(place, Pair { key, to })?;
    Ok(Items::from_vec(pairs))
}

/// How many keys a new one comes after.
#[tactic(auto, using(crate::proofs::Placed::place_within))]
fn place_of(key: &[u8], pairs: &[Pair<Value>]) -> usize
    ensures { result ≡ place_of key.now pairs.now }
{
    let mut place = 0;
    let mut left = pairs;
    'pairs: while let Some((first, rest)) = left.split_first() {
        if precedes(key, first.key.as_slice()) {
            return place;
        }
        place += 1;
        left = rest;
    }
    place
}

/// The object under a key.
fn found<'a>(key: &[u8], pairs: &'a [Pair<Value>]) -> Option<&'a Value>
    ensures { option_copied result ≡ found key.now pairs.now }
{
    let mut left = pairs;
    'pairs: while let Some((first, rest)) = left.split_first() {
        if key == first.key.as_slice() {
            return Some(&first.to);
        }
        left = rest;
    }
    None
}

/// A copy of the object under a key.
fn resolves(
    alloc: Global,
    pairs: Items<Pair<Value>>,
    key: &[u8],
) -> Result<Called<Value>, OutOfMemory>
    ensures { IfOk result (λ called. called ≡ resolves spelled pairs (found key.now pairs)) }
{
    let to = match found(key, pairs.as_slice()) {
        Some(to) => to.duplicate(alloc)?,
        None => return Ok(refuses(Content::Table(pairs), NO_NAME)),
    };
    Ok(leaves(Content::Table(pairs), Effect::Answers(to)))
}

/// The pairs without a key.
#[tactic(auto, using(crate::proofs::Placed::removed_is, crate::proofs::Placed::index_within))]
fn unregisters(pairs: Items<Pair<Value>>, key: &[u8]) -> Called<Value>
    ensures { result ≡ unregisters spelled pairs key.now (found key.now pairs) }
{
    if found(key, pairs.as_slice()).is_none() {
        return refuses(Content::Table(pairs), NO_NAME);
    }
    let index = index_of(key, pairs.as_slice());
    let mut pairs = pairs.into_vec();
    pairs.remove(index);
    does(Content::Table(Items::from_vec(pairs)))
}

/// How many keys stand before this one.
fn index_of(key: &[u8], pairs: &[Pair<Value>]) -> usize
    ensures { result ≡ index_of key.now pairs.now }
{
    let mut index = 0;
    let mut left = pairs;
    'pairs: while let Some((first, rest)) = left.split_first() {
        if key == first.key.as_slice() {
            return index;
        }
        index += 1;
        left = rest;
    }
    index
}

/// The keys in order, one space between.
#[tactic(auto, using(crate::proofs::Placed::listed_more))]
fn listed(alloc: Global, pairs: &[Pair<Value>]) -> Result<Text, OutOfMemory>
    ensures { IfOk result (λ text. text ≡ listed pairs.now) }
{
    let mut text = Vec::new(alloc);
    let mut left = pairs;
    'pairs: while let Some((first, rest)) = left.split_first() {
        push_key(&mut text, first.key.as_slice(), rest.is_empty())?;
        left = rest;
    }
    Ok(Items::from_vec(text))
}

/// A key more, and a space where it is not the last.
fn push_key(text: &mut Vec<u8>, key: &[u8], is_last: bool) -> Result<(), OutOfMemory>
    ensures { OnOk result (text.new.items ≡ (text.old.items ++ key.now) ++ (if is_last then [] else 32 ∷ [])) }
{
    text.extend_from_slice(key)?;
    if !is_last {
        text.push(b' ')?;
    }
    Ok(())
}
