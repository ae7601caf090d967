//! What states show.
ghost use Rattle.std.specs.Prelude.{◌≡◌, ◌≤◌, ◌+◌, ◌*◌, ◌^◌, ℕ, IfOk, MatchOption, Some, option_copied};
ghost use Rattle.std.specs.List.{list_all};
ghost use Rattle.hpx_calls.specs.Requests.{is_key};
ghost use Rattle.hpx_calls.specs.Values.{is_small, size, spelled};
ghost use Rattle.hpx_calls.specs.Contents.{are_fitted, are_inputs, barrier_in, channel_in, control_in, count_in, dataflow_in, flow_in, given_in, given_of, given_size, input_of, inputs_in, is_channel, is_dataflow, is_full, is_given, is_table, latch_in, of_first, of_one, of_two, pair_of, pairs_in, precedes, promise_in, resting_in, rises, room_after, row_in, size_in, table_in};
ghost use Rattle.hpx_calls.specs.Outcomes.{content_in};
ghost use Rattle.hpx_calls.specs.Sorts.{IsControl, IsNaming};

use crate::codes::{ACCUMULATOR, BARRIER, CHANNEL, DATAFLOW, FULL, LATCH, PARTITION, PROMISE};
use crate::content::{Content, Given, Pair};
use crate::request::is_key;
use hpx_value::codes::{COMPONENTS, LINE, LOCALITIES, MOVE, SET, SHELF, SYMBOLS};
use hpx_value::exact::Exact;
use hpx_value::items::Items;
use hpx_value::memory::OutOfMemory;
use hpx_value::value::{State, Value};
use std::alloc::Global;

const MOST_PAIRS: usize = 100;

const MOST_KEPT: usize = 1000;

const MOST_WAITING: usize = 100;

const MOST_AT_PROMISE: usize = 7;

const MOST_CODE: u32 = 65535;

const MOST_INPUTS: u32 = 16;

/// The most bytes of the values that are kept for inputs.
pub const MOST_BYTES: u64 = 64_000;

const FULL_BYTES: u64 = 2;

const MOST_TEXT: usize = 32;

/// The highest that a latch can be.
pub const MOST_LEFT: u32 = 1_000_000;

/// The most that can meet at a barrier.
pub const MOST_TO_ARRIVE: u32 = 100;

const MOST_NUMBERS: usize = 1024;

const FIRST_CONTROL: u32 = 32;

/// What a state of a kind shows, at so many localities.
pub fn content_in(
    alloc: Global,
    localities: u32,
    kind: u32,
    state: &State,
) -> Result<Content<Value>, OutOfMemory>
    ensures { IfOk result (λ content. content ≡ content_in localities kind state.now) }
{
    let waiting = state.conts.len();
    let values = state.values.as_slice();
    let read = if FIRST_CONTROL <= kind {
        control(alloc, kind, waiting, values)?
    } else if waiting == 0 {
        resting(alloc, localities, kind, values)?
    } else {
        None
    };
    match read {
        Some(content) => Ok(content),
        None => Ok(Content::Unreadable(state.values.duplicate(alloc)?)),
    }
}

/// What a state of a control object shows, whatever the number of localities.
pub fn control_content_in(
    alloc: Global,
    kind: u32,
    state: &State,
) -> Result<Content<Value>, OutOfMemory>
    requires { 32 ≤ kind }
    ensures content { IfOk result (λ content. (n : ℕ) → content ≡ content_in n kind state.now) }
    ensures control { IfOk result IsControl }
{
    content_in(alloc, 1, kind, state)
}

/// What a state of a name service shows, at so many localities.
pub fn naming_content_in(
    alloc: Global,
    localities: u32,
    kind: u32,
    state: &State,
) -> Result<Content<Value>, OutOfMemory>
    requires { kind ≤ 15 }
    ensures content { IfOk result (λ content. content ≡ content_in localities kind state.now) }
    ensures naming { IfOk result IsNaming }
{
    content_in(alloc, localities, kind, state)
}

/// A content of a kind where nobody waits.
fn resting(
    alloc: Global,
    localities: u32,
    kind: u32,
    values: &[Value],
) -> Result<Option<Content<Value>>, OutOfMemory>
    ensures { IfOk result (λ read. read ≡ resting_in spelled localities kind values.now) }
{
    match kind {
        SYMBOLS | SHELF => table(alloc, values),
        COMPONENTS => Ok(if values.is_empty() {
            Some(Content::Maker)
        } else {
            None
        }),
        LOCALITIES => Ok(size(localities, values)),
        ACCUMULATOR => Ok(match values {
            [Value::Int(number)] => Some(Content::Number(*number)),
            _ => None,
        }),
        PARTITION => row(alloc, values),
        _ => Ok(None),
    }
}

/// A content of a kind where some may wait.
fn control(
    alloc: Global,
    kind: u32,
    waiting: usize,
    values: &[Value],
) -> Result<Option<Content<Value>>, OutOfMemory>
    ensures { IfOk result (λ read. read ≡ control_in spelled kind waiting values.now) }
{
    match kind {
        PROMISE => promise(alloc, waiting, values),
        DATAFLOW => dataflow(alloc, waiting, values),
        CHANNEL => channel(alloc, waiting, values),
        LATCH => Ok(latch(waiting, values)),
        BARRIER => Ok(barrier(waiting, values)),
        _ => Ok(None),
    }
}

/// The number of localities.
fn size(localities: u32, values: &[Value]) -> Option<Content<Value>>
    ensures { result ≡ of_one spelled (size_in localities) values.now }
{
    match values {
        [Value::Int(number)] => match u32::try_from(*number) {
            Ok(number) if number == localities => Some(Content::Size(number)),
            _ => None,
        },
        _ => None,
    }
}

/// The numbers of a partition.
fn row(alloc: Global, values: &[Value]) -> Result<Option<Content<Value>>, OutOfMemory>
    ensures { IfOk result (λ read. read ≡ of_one spelled row_in values.now) }
{
    match values {
        [Value::Ints(numbers)] => {
            if 1 <= numbers.len() && numbers.len() <= MOST_NUMBERS {
                Ok(Some(Content::Row(numbers.duplicate(alloc)?)))
            } else {
                Ok(None)
            }
        }
        _ => Ok(None),
    }
}

/// The value of a promise.
fn promise(
    alloc: Global,
    waiting: usize,
    values: &[Value],
) -> Result<Option<Content<Value>>, OutOfMemory>
    ensures { IfOk result (λ read. read ≡ promise_in waiting values.now) }
{
    match values {
        [] => Ok(if waiting <= MOST_AT_PROMISE {
            Some(Content::Promise(None))
        } else {
            None
        }),
        [value] => {
            if waiting == 0 {
                Ok(Some(Content::Promise(Some(value.duplicate(alloc)?))))
            } else {
                Ok(None)
            }
        }
        _ => Ok(None),
    }
}

/// The number, where it is not above a bound.
pub fn count_in(most: u32, number: i64) -> Option<u32>
    ensures { result ≡ count_in most number }
{
    if 0 <= number && number <= i64::from(most) {
        Some(number as u32)
    } else {
        None
    }
}

/// How many DOWNs are left of a latch.
fn latch(waiting: usize, values: &[Value]) -> Option<Content<Value>>
    ensures { result ≡ of_one spelled (latch_in waiting) values.now }
{
    match values {
        [Value::Int(left)] => match count_in(MOST_LEFT, *left) {
            Some(left) if waiting <= MOST_WAITING && (waiting == 0 || 1 <= left) => {
                Some(Content::Latch(left))
            }
            _ => None,
        },
        _ => None,
    }
}

/// How many are to arrive at a barrier.
fn barrier(waiting: usize, values: &[Value]) -> Option<Content<Value>>
    ensures { result ≡ of_one spelled (barrier_in waiting) values.now }
{
    match values {
        [Value::Int(size)] => match count_in(MOST_TO_ARRIVE, *size) {
            Some(size) if waiting < size as usize => Some(Content::Barrier(size)),
            _ => None,
        },
        _ => None,
    }
}

/// The values of a channel.
fn channel(
    alloc: Global,
    waiting: usize,
    values: &[Value],
) -> Result<Option<Content<Value>>, OutOfMemory>
    ensures { IfOk result (λ read. read ≡ of_first spelled (channel_in spelled waiting) values.now) }
{
    match values.split_first() {
        Some((Value::Flag(closed), kept)) => {
            if is_channel(waiting, *closed, kept) {
                Ok(Some(Content::Channel {
                    closed: *closed,
                    kept: duplicates(alloc, kept)?,
                }))
            } else {
                Ok(None)
            }
        }
        _ => Ok(None),
    }
}

/// Whether a channel can hold these values where so many wait.
fn is_channel(waiting: usize, closed: bool, kept: &[Value]) -> bool
    ensures { result ≡ is_channel spelled waiting closed kept.now }
{
    waiting <= MOST_WAITING
        && kept.len() <= MOST_KEPT
        && are_small(kept)
        && (waiting == 0 || (!closed && kept.is_empty()))
}

/// Whether a channel takes each value.
fn are_small(values: &[Value]) -> bool
    ensures { result ≡ list_all (λ v. is_small (spelled.look v)) values.now }
{
    let mut left = values;
    'values: while let Some((first, rest)) = left.split_first() {
        if !is_small(first) {
            return false;
        }
        left = rest;
    }
    true
}

/// Whether a channel takes a value.
pub fn is_small(value: &Value) -> bool
    ensures { result ≡ is_small (spelled.look value.now) }
{
    match value {
        Value::Unit => true,
        Value::Flag(_) => true,
        Value::Int(_) => true,
        Value::Text(text) => text.len() <= MOST_TEXT,
        Value::Ref(_) => false,
        Value::Fault(_) => false,
        Value::Ints(_) => false,
    }
}

/// Copies of values.
fn duplicates(alloc: Global, values: &[Value]) -> Result<Items<Value>, OutOfMemory>
    ensures { IfOk result (λ copies. copies ≡ values.now) }
{
    let mut copies = Items::new(alloc);
    for value in values {
        copies.push(value.duplicate(alloc)?)?;
    }
    Ok(copies)
}

/// The map of a table.
fn table(alloc: Global, values: &[Value]) -> Result<Option<Content<Value>>, OutOfMemory>
    ensures { IfOk result (λ read. read ≡ table_in (pairs_in spelled values.now)) }
{
    match pairs_in(alloc, values)? {
        Some(pairs) => {
            if is_table(pairs.as_slice()) {
                Ok(Some(Content::Table(pairs)))
            } else {
                Ok(None)
            }
        }
        None => Ok(None),
    }
}

/// A key and a reference.
fn pair_of(alloc: Global, first: &Value, second: &Value) -> Result<Option<Pair<Value>>, OutOfMemory>
    ensures { IfOk result (λ pair. pair ≡ pair_of spelled first.now second.now) }
{
    match first {
        Value::Text(key) => match second {
            Value::Ref(place) => Ok(Some(Pair {
                key: key.duplicate(alloc)?,
                to: Value::Ref(*place),
            })),
            _ => Ok(None),
        },
        _ => Ok(None),
    }
}

/// Values that alternate between keys and references.
fn pairs_in(alloc: Global, values: &[Value]) -> Result<Option<Items<Pair<Value>>>, OutOfMemory>
    ensures { IfOk result (λ pairs. pairs ≡ pairs_in spelled values.now) }
{
    let mut pairs = Items::new(alloc);
    let mut left = values;
    'pairs: while let Some((first, others)) = left.split_first() {
        let Some((second, rest)) = others.split_first() else {
            return Ok(None);
        };
        let Some(pair) = pair_of(alloc, first, second)? else {
            return Ok(None);
        };
        pairs.push(pair)?;
        left = rest;
    }
    Ok(Some(pairs))
}

/// Whether keys are keys, in order, and few.
fn is_table(pairs: &[Pair<Value>]) -> bool
    ensures { result ≡ is_table pairs.now }
{
    pairs.len() <= MOST_PAIRS && are_keys(pairs) && rises(pairs)
}

/// Whether each key can be one.
fn are_keys(pairs: &[Pair<Value>]) -> bool
    ensures { result ≡ list_all (λ x. is_key x.key) pairs.now }
{
    let mut left = pairs;
    'pairs: while let Some((first, rest)) = left.split_first() {
        if !is_key(&first.key) {
            return false;
        }
        left = rest;
    }
    true
}

/// Whether each key comes after the one before.
fn rises(pairs: &[Pair<Value>]) -> bool
    ensures { result ≡ rises pairs.now }
{
    let mut last: &[u8] = &[];
    let mut left = pairs;
    'pairs: while let Some((pair, rest)) = left.split_first() {
        if !precedes(last, pair.key.as_slice()) {
            return false;
        }
        last = pair.key.as_slice();
        left = rest;
    }
    true
}

/// Whether bytes come before others, in the order of a lexicon.
pub fn precedes(xs: &[u8], ys: &[u8]) -> bool
    ensures { result ≡ precedes xs.now ys.now }
{
    let mut xs = xs;
    let mut ys = ys;
    'bytes: while let Some((x, others)) = xs.split_first() {
        let Some((y, rest)) = ys.split_first() else {
            return false;
        };
        if *x != *y {
            return *x < *y;
        }
        xs = others;
        ys = rest;
    }
    !ys.is_empty()
}

/// The inputs of a dataflow.
fn dataflow(
    alloc: Global,
    waiting: usize,
    values: &[Value],
) -> Result<Option<Content<Value>>, OutOfMemory>
    ensures { IfOk result (λ read. read ≡ of_two spelled (dataflow_in spelled waiting) values.now) }
{
    let Some((first, others)) = values.split_first() else {
        return Ok(None);
    };
    let Some((second, rest)) = others.split_first() else {
        return Ok(None);
    };
    let (Value::Int(code), Value::Int(inputs)) = (first, second) else {
        return Ok(None);
    };
    let Some(code) = count_in(MOST_CODE, *code) else {
        return Ok(None);
    };
    match count_in(MOST_INPUTS, *inputs) {
        Some(inputs) if is_dataflow(code, inputs) => flow(
            alloc,
            waiting,
            code as u16,
            inputs,
            rest,
        ),
        _ => Ok(None),
    }
}

/// Whether a code may be sent, with so many inputs.
fn is_dataflow(code: u32, inputs: u32) -> bool
    ensures { result ≡ is_dataflow code inputs }
{
    1 <= inputs && code != MOVE as u32 && code != SET as u32 && code != LINE as u32
}

/// What is kept for the inputs of a dataflow.
fn flow(
    alloc: Global,
    waiting: usize,
    code: u16,
    inputs: u32,
    values: &[Value],
) -> Result<Option<Content<Value>>, OutOfMemory>
    ensures { IfOk result (λ read. read ≡ flow_in spelled waiting code inputs values.now) }
{
    match values {
        [Value::Unit] if waiting == 0 => Ok(Some(Content::Started { code, inputs })),
        [_] => Ok(None),
        _ => not_started(alloc, waiting, code, inputs, values),
    }
}

/// A dataflow that has not started, with what is kept for its inputs.
fn not_started(
    alloc: Global,
    waiting: usize,
    code: u16,
    inputs: u32,
    values: &[Value],
) -> Result<Option<Content<Value>>, OutOfMemory>
    ensures { IfOk result (λ read. read ≡ inputs_in spelled waiting code inputs (given_in spelled values.now)) }
{
    Ok(match given_in(alloc, values)? {
        Some(given) if is_given(waiting, inputs, given.as_slice()) => Some(Content::Dataflow {
            code,
            inputs,
            given,
        }),
        _ => None,
    })
}

/// The number of an input and a value.
fn given_of(
    alloc: Global,
    first: &Value,
    second: &Value,
) -> Result<Option<Given<Value>>, OutOfMemory>
    ensures { IfOk result (λ given. given ≡ given_of spelled first.now second.now) }
{
    match first {
        Value::Int(slot) => match count_in(MOST_INPUTS - 1, *slot) {
            Some(slot) => Ok(Some(Given {
                slot,
                value: second.duplicate(alloc)?,
            })),
            None => Ok(None),
        },
        _ => Ok(None),
    }
}

/// Values that alternate between numbers of inputs and what is kept for them.
fn given_in(alloc: Global, values: &[Value]) -> Result<Option<Items<Given<Value>>>, OutOfMemory>
    ensures { IfOk result (λ given. given ≡ given_in spelled values.now) }
{
    let mut given = Items::new(alloc);
    let mut left = values;
    'pairs: while let Some((first, others)) = left.split_first() {
        let Some((second, rest)) = others.split_first() else {
            return Ok(None);
        };
        let Some(one) = given_of(alloc, first, second)? else {
            return Ok(None);
        };
        given.push(one)?;
        left = rest;
    }
    Ok(Some(given))
}

/// Whether a dataflow can hold these where so many wait.
fn is_given(waiting: usize, inputs: u32, given: &[Given<Value>]) -> bool
    ensures { result ≡ is_given spelled waiting inputs given.now }
{
    are_inputs(inputs, given)
        && are_fitted(given)
        && given.len() <= inputs as usize
        && waiting <= 1
        && (waiting == 0 || given.len() < inputs as usize)
}

/// Whether each value fits into the bytes that are left, in the order in which they came, or is the fault Full.
fn are_fitted(given: &[Given<Value>]) -> bool
    ensures { result ≡ are_fitted spelled (Some 64000) given.now }
{
    let mut room = MOST_BYTES;
    let mut left = given;
    'inputs: while let Some((first, rest)) = left.split_first() {
        let Some(less) = room_after(room, &first.value) else {
            return false;
        };
        room = less;
        left = rest;
    }
    true
}

/// How many bytes are left with one value more. None where it does not fit and is not the fault Full.
fn room_after(room: u64, value: &Value) -> Option<u64>
    ensures { result ≡ room_after room (spelled.look value.now) }
{
    if is_full(value) {
        return Some(room.saturating_sub(FULL_BYTES));
    }
    let size = size_of(value)?;
    if size <= room {
        Some(room - size)
    } else {
        None
    }
}

/// Whether a value is the fault Full.
fn is_full(value: &Value) -> bool
    ensures { result ≡ is_full (spelled.look value.now) }
{
    match value {
        Value::Unit => false,
        Value::Flag(_) => false,
        Value::Int(_) => false,
        Value::Text(_) => false,
        Value::Ref(_) => false,
        Value::Fault(code) => *code == FULL,
        Value::Ints(_) => false,
    }
}

/// Whether the inputs are below their number, and none is there twice.
fn are_inputs(inputs: u32, given: &[Given<Value>]) -> bool
    ensures { result ≡ are_inputs inputs given.now }
{
    let mut left = given;
    'inputs: while let Some((first, rest)) = left.split_first() {
        if first.slot >= inputs || input_of(first.slot, rest).is_some() {
            return false;
        }
        left = rest;
    }
    true
}

/// The value of an input.
pub fn input_of(slot: u32, given: &[Given<Value>]) -> Option<&Value>
    ensures { option_copied result ≡ input_of slot given.now }
{
    let mut left = given;
    'inputs: while let Some((first, rest)) = left.split_first() {
        if first.slot == slot {
            return Some(&first.value);
        }
        left = rest;
    }
    None
}

/// How many bytes values take in a frame. None where that is no number of 64 bits.
pub fn given_size(given: &[Given<Value>]) -> Option<u64>
    ensures { MatchOption result (2 ^ 64 ≤ given_size spelled given.now) (λ n. n ≡ given_size spelled given.now) }
{
    let mut total: u64 = 0;
    let mut left = given;
    'inputs: while let Some((first, rest)) = left.split_first() {
        total = total.checked_add(size_of(&first.value)?)?;
        left = rest;
    }
    Some(total)
}

/// How many bytes a value takes in a frame. None where that is no number of 64 bits.
pub fn size_of(value: &Value) -> Option<u64>
    ensures { MatchOption result (2 ^ 64 ≤ size (spelled.look value.now)) (λ n. n ≡ size (spelled.look value.now)) }
{
    match value {
        Value::Unit => Some(1),
        Value::Flag(_) => Some(2),
        Value::Int(_) => Some(9),
        Value::Text(text) => (text.len() as u64).checked_add(3),
        Value::Ref(_) => Some(17),
        Value::Fault(_) => Some(2),
        Value::Ints(numbers) => ints_size(numbers.len() as u64),
    }
}

/// How many bytes so many numbers take in a frame.
fn ints_size(count: u64) -> Option<u64>
    ensures { MatchOption result (2 ^ 64 ≤ 3 + count * 8) (λ n. n ≡ 3 + count * 8) }
{
    if count <= (u64::MAX - 3) / 8 {
        Some(3 + count * 8)
    } else {
        None
    }
}
