//! What the session keeps, as it changes.
ghost use Rattle.std.specs.Prelude.{◌≡◌, ◌<◌, ◌+◌, ◌++◌, [], IfOk, IfSome, length};
ghost use Rattle.hpx_calls.specs.Values.{spelled, shifted};
ghost use Rattle.app_console.specs.Desks.{without, erased, held_at, opened, answered, desk_out, names_out, awaits_out, index_named, index_awaited};
ghost use Rattle.app_console.specs.Session.{awaiting};

use crate::desk::{Await, Desk, Naming, What};
use crate::read::{to_out, what_out};
use hpx_value::exact::Exact;
use hpx_value::items::Items;
use hpx_value::memory::OutOfMemory;
use hpx_value::value::{Value, Values};
use std::alloc::Global;

/// Names, in the order in which their objects came.
pub type Namings = Items<Naming<Value>>;

/// Where a name stands among names.
fn index_named(names: &[Naming<Value>], name: &[u8]) -> Option<usize>
    ensures index { result ≡ index_named name.now names.now }
    ensures within { IfSome result (λ i. i < length names.now) }
{
    match names {
        [] => None,
        [first, rest @ ..] => {
            if name == first.name.as_slice() {
                return Some(0);
            }
            match index_named(rest, name) {
                Some(i) => Some(i + 1),
                None => None,
            }
        }
    }
}

/// Names without the first that is this one.
#[tactic(auto, using(crate::proofs::Rests::without_none, crate::proofs::Rests::without_at))]
pub fn without(names: Namings, name: &[u8]) -> Namings
    ensures { result ≡ without name.now names }
{
    match index_named(names.as_slice(), name) {
        None => names,
        Some(i) => {
            let mut names = names.into_vec();
            let _gone = names.remove(i);
            Items::from_vec(names)
        }
    }
}

/// Where a slot stands among awaited answers.
fn index_awaited(awaits: &[Await], slot: u64) -> Option<usize>
    ensures index { result ≡ index_awaited slot awaits.now }
    ensures within { IfSome result (λ i. i < length awaits.now) }
{
    match awaits {
        [] => None,
        [first, rest @ ..] => {
            if slot == u64::from(first.slot) {
                return Some(0);
            }
            match index_awaited(rest, slot) {
                Some(i) => Some(i + 1),
                None => None,
            }
        }
    }
}

/// Takes out the answer that is awaited in a slot, and what is done with it.
#[tactic(auto, using(crate::proofs::Rests::erased_none, crate::proofs::Rests::held_none, crate::proofs::Rests::erased_at, crate::proofs::Rests::held_here))]
pub fn take_awaited(awaits: Items<Await>, slot: u64) -> (Items<Await>, Option<What>)
    ensures awaits { result.0 ≡ erased slot awaits }
    ensures what { result.1 ≡ held_at slot awaits }
{
    match index_awaited(awaits.as_slice(), slot) {
        None => (awaits, None),
        Some(i) => {
            let mut awaits = awaits.into_vec();
            let Await { slot: _, what } = awaits.remove(i);
            (Items::from_vec(awaits), Some(what))
        }
    }
}

/// One answer more is awaited, in a slot; a name that is to stand for it is pending.
pub fn awaiting(
    alloc: Global,
    desk: Desk<Value>,
    slot: u32,
    what: What,
) -> Result<Desk<Value>, OutOfMemory>
    ensures { IfOk result (λ after. after ≡ awaiting desk slot what) }
{
    let Desk { names, awaits } = desk;
    let names = opened(alloc, names, &what)?;
    let mut awaits = awaits.into_vec();
    awaits.insert(0, Await { slot, what })?;
    Ok(Desk {
        names,
        awaits: Items::from_vec(awaits),
    })
}

fn opened(alloc: Global, names: Namings, what: &What) -> Result<Namings, OutOfMemory>
    ensures { IfOk result (λ after. after ≡ opened what.now names) }
{
    match what {
        What::Binds(name) => {
            let mut names = names;
            names.push(Naming {
                name: name.duplicate(alloc)?,
                to: None,
            })?;
            Ok(names)
        }
        _ => Ok(names),
    }
}

/// Names once an answer has come, whose place is so many behind: the object stands for its name, which is the last then.
/// A name that no object comes for is no name more. An `Err` is for want of memory, or where the place is above 65,535.
pub fn answered(
    alloc: Global,
    names: Namings,
    what: &What,
    places: usize,
    value: &Value,
) -> Result<Namings, OutOfMemory>
    ensures { IfOk result (λ after. after ≡ answered spelled what.now (shifted places value.now) names) }
{
    let What::Binds(name) = what else {
        return Ok(names);
    };
    let mut names = without(names, name.as_slice());
    let Value::Ref(place) = value else {
        return Ok(names);
    };
    let place = place_behind(places, *place)?;
    names.push(Naming {
        name: name.duplicate(alloc)?,
        to: Some(Value::Ref(place)),
    })?;
    Ok(names)
}

fn place_behind(places: usize, place: u16) -> Result<u16, OutOfMemory>
    ensures { IfOk result (λ behind. behind ≡ places + place) }
{
    let Ok(places) = u16::try_from(places) else {
        return Err(OutOfMemory);
    };
    match places.checked_add(place) {
        Some(place) => Ok(place),
        None => Err(OutOfMemory),
    }
}

/// The values of a session's state.
#[tactic(auto, using(crate::proofs::Layouts::names_before))]
pub fn values_of(alloc: Global, desk: Desk<Value>) -> Result<Values, OutOfMemory>
    ensures { IfOk result (λ values. values ≡ desk_out spelled desk) }
{
    let Desk { names, awaits } = desk;
    let values = name_values(alloc, names)?;
    await_values(values, awaits)
}

/// The values of names.
#[tactic(auto, using(crate::proofs::Layouts::names_more))]
fn name_values(alloc: Global, names: Namings) -> Result<Values, OutOfMemory>
    ensures { IfOk result (λ values. values ≡ names_out spelled names []) }
{
    let mut values = Items::new(alloc);
    for naming in names.into_vec() {
        values.push(Value::Text(naming.name))?;
        values.push(to_out(naming.to))?;
    }
    Ok(values)
}

/// The values of awaited answers, behind those of names.
#[tactic(auto, using(crate::proofs::Layouts::awaits_behind))]
fn await_values(values: Values, awaits: Items<Await>) -> Result<Values, OutOfMemory>
    ensures { IfOk result (λ all. all ≡ values ++ awaits_out spelled awaits) }
{
    let mut values = values;
    for waiting in awaits.into_vec() {
        values.push(Value::Int(i64::from(waiting.slot)))?;
        values.push(what_out(waiting.what))?;
    }
    Ok(values)
}
