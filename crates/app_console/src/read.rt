//! What the values of a session's state show, and how they are laid out.
ghost use Rattle.std.specs.Prelude.{◌≡◌, ◌∷◌, ◌++◌, [], ◌≤◌, IfOk, IfSome};
ghost use Rattle.hpx_calls.specs.Values.{spelled};
ghost use Rattle.app_console.specs.Desks.{awaits_in, awaits_before, awaits_out, desk_in, names_before, desk_out, desk_shown, names_out, slot_in, what_in, what_out, to_in, to_out, fits_name, erased, held_at, without};
ghost use Rattle.app_console.specs.Session.{desk_at};

use crate::desk::{Await, Desk, Naming, What};
use hpx_value::exact::Exact;
use hpx_value::items::{Items, Text};
use hpx_value::memory::OutOfMemory;
use hpx_value::value::{State, Value, Values};
use std::alloc::Global;

const MOST: usize = 100;

const MOST_NAME: usize = 32;

const MOST_DRAWN: u32 = 4_000_000_000;

/// The number of a slot.
fn slot_in(number: i64) -> Option<u32>
    ensures { result ≡ slot_in number }
{
    match u32::try_from(number) {
        Ok(slot) => Some(slot),
        Err(_) => None,
    }
}

/// Whether a text can be a name.
fn fits_name(name: &Text) -> bool
    ensures { result ≡ fits_name name.now }
{
    name.len() <= MOST_NAME
}

/// What is done with an answer, as a value shows it.
fn what_in(alloc: Global, value: &Value) -> Result<Option<What>, OutOfMemory>
    ensures { IfOk result (λ what. what ≡ what_in (spelled.look value.now)) }
{
    Ok(match value {
        Value::Int(0) => Some(What::Silent),
        Value::Int(1) => Some(What::Tells),
        Value::Int(2) => Some(What::Releases),
        Value::Text(name) if fits_name(name) => Some(What::Binds(name.duplicate(alloc)?)),
        _ => None,
    })
}

/// What a name stands for, as a value shows it.
fn to_in(value: &Value) -> Option<Option<Value>>
    ensures { result ≡ to_in (spelled.look value.now) value.now }
{
    match value {
        Value::Unit => Some(None),
        Value::Ref(place) => Some(Some(Value::Ref(*place))),
        _ => None,
    }
}

/// Items, and one more behind them.
fn with<T: Drop>(items: Items<T>, item: T) -> Result<Items<T>, OutOfMemory>
    ensures { IfOk result (λ all. all ≡ items ++ item ∷ []) }
{
    let mut items = items;
    items.push(item)?;
    Ok(items)
}

/// The answers that values show, behind those that were read.
#[tactic(auto, using(crate::proofs::Reading::no_more_awaits, crate::proofs::Reading::more_awaits))]
fn awaits_in(
    alloc: Global,
    read: Items<Await>,
    values: &[Value],
) -> Result<Option<Items<Await>>, OutOfMemory>
    ensures { IfOk result (λ all. all ≡ awaits_before read (awaits_in spelled values.now)) }
{
    match values {
        [] => Ok(Some(read)),
        [_] => Ok(None),
        [Value::Int(number), value, rest @ ..] => {
            let Some(slot) = slot_in(*number) else {
                return Ok(None);
            };
            let Some(what) = what_in(alloc, value)? else {
                return Ok(None);
            };
            awaits_in(alloc, with(read, Await { slot, what })?, rest)
        }
        [_, _, ..] => Ok(None),
    }
}

/// The names that values show, behind those that were read, and then the answers.
#[tactic(auto, using(crate::proofs::Reading::no_more_names, crate::proofs::Reading::more_names, crate::proofs::Reading::none_alone))]
fn names_in(
    alloc: Global,
    read: Items<Naming<Value>>,
    values: &[Value],
) -> Result<Option<Desk<Value>>, OutOfMemory>
    ensures { IfOk result (λ all. all ≡ names_before read (desk_in spelled values.now)) }
{
    match values {
        [] => Ok(Some(Desk {
            names: read,
            awaits: Items::new(alloc),
        })),
        [_] => Ok(None),
        [Value::Text(name), value, rest @ ..] => {
            let Some(to) = to_in(value) else {
                return Ok(None);
            };
            if !fits_name(name) {
                return Ok(None);
            }
            let name = name.duplicate(alloc)?;
            names_in(alloc, with(read, Naming { name, to })?, rest)
        }
        [_, _, ..] => match awaits_in(alloc, Items::new(alloc), values)? {
            Some(awaits) => Ok(Some(Desk {
                names: read,
                awaits,
            })),
            None => Ok(None),
        },
    }
}

/// The names that values show, and then the answers.
#[tactic(auto, using(crate::proofs::Reading::names_alone))]
fn desk_in(alloc: Global, values: &[Value]) -> Result<Option<Desk<Value>>, OutOfMemory>
    ensures { IfOk result (λ read. read ≡ desk_in spelled values.now) }
{
    names_in(alloc, Items::new(alloc), values)
}

/// What a session keeps, where a state is one of a session that can draw another slot.
pub fn desk_at(alloc: Global, state: &State) -> Result<Option<Desk<Value>>, OutOfMemory>
    ensures desk { IfOk result (λ desk. desk ≡ desk_at state.now) }
    ensures drawn { IfOk result (λ desk. IfSome desk (λ desk. state.now.drawn ≤ 4000000000)) }
{
    if !state.conts.is_empty() || state.drawn > MOST_DRAWN {
        return Ok(None);
    }
    match desk_in(alloc, state.values.as_slice())? {
        Some(desk) if desk.names.len() <= MOST && desk.awaits.len() <= MOST => Ok(Some(desk)),
        _ => Ok(None),
    }
}

/// The value of what is done with an answer.
pub fn what_out(what: What) -> Value
    ensures { result ≡ what_out spelled what }
{
    match what {
        What::Silent => Value::Int(0),
        What::Tells => Value::Int(1),
        What::Releases => Value::Int(2),
        What::Binds(name) => Value::Text(name),
    }
}

/// The value of what a name stands for.
pub fn to_out(to: Option<Value>) -> Value
    ensures { result ≡ to_out spelled to }
{
    match to {
        Some(value) => value,
        None => Value::Unit,
    }
}
