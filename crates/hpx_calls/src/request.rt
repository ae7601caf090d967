//! What actions ask.
ghost use Rattle.std.specs.Prelude.{◌≡◌, ◌∷◌, [], IfOk, map};
ghost use Rattle.hpx_calls.specs.Values.{shifted, spelled};
ghost use Rattle.hpx_calls.specs.Requests.{asks_bare, asks_move, asks_many, asks_single, is_key, request_of};
ghost use Rattle.hpx_calls.specs.Outcomes.{has_cont, request_in};

use crate::codes::{
    ARRIVE, CLOSE, COUNT, DOWN, GET, LIST, NEW, PUT, REGISTER, RESET, RESOLVE, STEP, UNREGISTER,
    WAIT, WHERE,
};
use hpx_value::codes::{ADD, MOVE, QUERY, SET};
use hpx_value::exact::Exact;
use hpx_value::items::{Items, Text};
use hpx_value::memory::OutOfMemory;
use hpx_value::value::{Act, State, Value, Values};
use std::alloc::Global;

/// What an action asks, by its code and the shape of its arguments.
#[derive(Drop)]
pub enum Request<V> {
    Move(u32),
    Where,
    Set { slot: i64, value: V },
    New { name: Text, values: Items<V> },
    Register { key: Text, to: V },
    Resolve(Text),
    Unregister(Text),
    Keys,
    Count,
    Add(i64),
    Query,
    Reset,
    Step { left: i64, right: i64 },
    Get,
    Put(V),
    PutAt { slot: i64, value: V },
    Close,
    Down,
    Wait,
    Arrive,
    /// It is not listed, or its arguments have another shape.
    Other,
}

const MOST_PLACE: i64 = 63;

const MOST_KEY: usize = 32;

/// What an action asks of an object in this state. No hand has more than 65,536 places.
#[tactic(auto, using(crate::proofs::Fronts::many_asked))]
pub fn request_in(alloc: Global, state: &State, action: &Act) -> Result<Request<Value>, OutOfMemory>
    ensures { IfOk result (λ request. request ≡ request_in state.now action.now) }
{
    let Ok(by) = u16::try_from(state.ids.len()) else {
        return Err(OutOfMemory);
    };
    match action.args.as_slice() {
        [] => Ok(bare(action.code)),
        [value] => one(alloc, by, action.code, value),
        [first, second] => two(alloc, by, action, first, second),
        [first, _, _, ..] => many(alloc, by, action.code, first, &action.args.as_slice()[1..]),
    }
}

/// What a code asks without arguments.
fn bare(code: u16) -> Request<Value>
    ensures { result ≡ asks_bare code }
{
    match code {
        WHERE => Request::Where,
        LIST => Request::Keys,
        COUNT => Request::Count,
        QUERY => Request::Query,
        RESET => Request::Reset,
        GET => Request::Get,
        CLOSE => Request::Close,
        DOWN => Request::Down,
        WAIT => Request::Wait,
        ARRIVE => Request::Arrive,
        _ => Request::Other,
    }
}

/// What a code asks with one argument.
fn one(alloc: Global, by: u16, code: u16, value: &Value) -> Result<Request<Value>, OutOfMemory>
    ensures { IfOk result (λ request. request ≡ asks_single spelled code (shifted by value.now)) }
{
    if code == PUT {
        return Ok(Request::Put(shifted(alloc, by, value)?));
    }
    Ok(match value {
        Value::Int(number) => match code {
            MOVE => moving(*number),
            ADD => Request::Add(*number),
            _ => Request::Other,
        },
        Value::Text(text) => match code {
            NEW => Request::New {
                name: text.duplicate(alloc)?,
                values: Items::new(alloc),
            },
            RESOLVE => Request::Resolve(text.duplicate(alloc)?),
            UNREGISTER => Request::Unregister(text.duplicate(alloc)?),
            _ => Request::Other,
        },
        _ => Request::Other,
    })
}

/// What MOVE asks with this argument.
fn moving(to: i64) -> Request<Value>
    ensures { result ≡ asks_move to }
{
    if 0 <= to && to <= MOST_PLACE {
        Request::Move(to as u32)
    } else {
        Request::Other
    }
}

/// What an action asks with two arguments.
fn two(
    alloc: Global,
    by: u16,
    action: &Act,
    first: &Value,
    second: &Value,
) -> Result<Request<Value>, OutOfMemory>
    ensures { IfOk result (λ request. request
        ≡ request_of spelled action.now.code (has_cont action.now.cont) (shifted by first.now ∷ shifted by second.now ∷ [])) }
{
    match first {
        Value::Int(number) => counted(alloc, by, action, *number, second),
        Value::Text(text) => worded(alloc, by, action, text, second),
        _ => Ok(Request::Other),
    }
}

/// What an action asks with a number and a second argument.
fn counted(
    alloc: Global,
    by: u16,
    action: &Act,
    number: i64,
    second: &Value,
) -> Result<Request<Value>, OutOfMemory>
    ensures { IfOk result (λ request. request
        ≡ request_of spelled action.now.code (has_cont action.now.cont) (Value.Int number ∷ shifted by second.now ∷ [])) }
{
    Ok(match action.code {
        SET if action.cont.is_none() => Request::Set {
            slot: number,
            value: shifted(alloc, by, second)?,
        },
        STEP => match second {
            Value::Int(right) => Request::Step {
                left: number,
                right: *right,
            },
            _ => Request::Other,
        },
        PUT => Request::PutAt {
            slot: number,
            value: shifted(alloc, by, second)?,
        },
        _ => Request::Other,
    })
}

/// What an action asks with a text and a second argument.
fn worded(
    alloc: Global,
    by: u16,
    action: &Act,
    text: &Text,
    second: &Value,
) -> Result<Request<Value>, OutOfMemory>
    ensures { IfOk result (λ request. request
        ≡ request_of spelled action.now.code (has_cont action.now.cont) (Value.Text text.now ∷ shifted by second.now ∷ [])) }
{
    match action.code {
        NEW => {
            let mut values = Items::new(alloc);
            values.push(shifted(alloc, by, second)?)?;
            Ok(Request::New {
                name: text.duplicate(alloc)?,
                values,
            })
        }
        REGISTER => match second {
            Value::Ref(_) if is_key(text) => Ok(Request::Register {
                key: text.duplicate(alloc)?,
                to: shifted(alloc, by, second)?,
            }),
            _ => Ok(Request::Other),
        },
        _ => Ok(Request::Other),
    }
}

/// Whether a text can be a key.
pub fn is_key(text: &Text) -> bool
    ensures { result ≡ is_key text.now }
{
    1 <= text.len() && text.len() <= MOST_KEY
}

/// What a code asks with many arguments, here three or more.
fn many(
    alloc: Global,
    by: u16,
    code: u16,
    first: &Value,
    rest: &[Value],
) -> Result<Request<Value>, OutOfMemory>
    ensures { IfOk result (λ request. request ≡ asks_many code (spelled.look (shifted by first.now)) (map (shifted by) rest.now)) }
{
    match first {
        Value::Text(text) if code == NEW => {
            let mut values = Values::new(alloc);
            for value in rest {
                values.push(shifted(alloc, by, value)?)?;
            }
            Ok(Request::New {
                name: text.duplicate(alloc)?,
                values,
            })
        }
        _ => Ok(Request::Other),
    }
}

/// A value of an action's arguments with its place after those of the state.
fn shifted(alloc: Global, by: u16, value: &Value) -> Result<Value, OutOfMemory>
    ensures { IfOk result (λ copy. copy ≡ shifted by value.now) }
{
    match value {
        Value::Ref(place) => match by.checked_add(*place) {
            Some(place) => Ok(Value::Ref(place)),
            None => Err(OutOfMemory),
        },
        value => value.duplicate(alloc),
    }
}
