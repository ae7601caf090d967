//! Values, read from the front of bytes.

ghost use Rattle.std.specs.Prelude.{◌≡◌, ◌≢◌, ◌+◌, ◌≤◌, ◌++◌, [], ℕ, length, IfOk, OnOk};
ghost use Rattle.hpx_parcel.specs.Reading.{Tells, Gives, flag_at, text_at, fault_at, numbers_at, ints_at, plain_at, value_at, id_list, each_at, joined, values_at};

use crate::fields::{
    IdRule, ReadError, Stop, byte_of, count_of, cut_off, id_with, int_of, stop_at,
};
use crate::parcel::Why;
use hpx_value::gid::{Gid, Gids};
use hpx_value::items::{Ints, Items, Text};
use hpx_value::memory::OutOfMemory;
use hpx_value::value::{Value, Values};
use std::alloc::Global;

/// The most values of an action, or of a state.
pub(crate) const MOST_VALUES: u16 = 1_024;

/// The most bytes of a text.
const LONGEST_TEXT: u16 = 16_384;

/// The most numbers of one value.
pub(crate) const MOST_INTS: u16 = 4_096;

/// The greatest number of a fault.
const LAST_FAULT: u8 = 11;

/// A flag, behind its tag.
#[tactic(auto, unfolding(crate::specs::Reading::flag_at))]
fn flag_of(bytes: &[u8]) -> Result<(Value, &[u8]), Stop>
    ensures { Tells (λ x. (x.0, x.1.now)) result (flag_at bytes.now) }
{
    let (byte, rest) = byte_of(bytes)?;
    match byte {
        0 => Ok((Value::Flag(false), rest)),
        1 => Ok((Value::Flag(true), rest)),
        _ => Err(stop_at(bytes, Why::BadValue)),
    }
}

/// The bytes of a text, behind its tag.
#[tactic(auto, unfolding(crate::specs::Reading::text_at))]
pub(crate) fn text_in(bytes: &[u8]) -> Result<(&[u8], &[u8]), Stop>
    ensures { Tells (λ x. (x.0.now, x.1.now)) result (text_at bytes.now) }
{
    let (len, rest) = count_of(LONGEST_TEXT, bytes)?;
    let len = len as usize;
    if rest.len() < len {
        return Err(cut_off());
    }
    Ok(rest.split_at(len))
}

/// A text, behind its tag.
fn text_of(alloc: Global, bytes: &[u8]) -> Result<(Text, &[u8]), ReadError>
    ensures { Gives (λ x. (x.0, x.1.now)) result (text_at bytes.now) }
{
    let (text, rest) = text_in(bytes)?;
    Ok((Items::from_vec(Vec::from_slice(alloc, text)?), rest))
}

/// A fault, behind its tag.
#[tactic(auto, unfolding(crate::specs::Reading::fault_at))]
fn fault_of(bytes: &[u8]) -> Result<(Value, &[u8]), Stop>
    ensures { Tells (λ x. (x.0, x.1.now)) result (fault_at bytes.now) }
{
    let (code, rest) = byte_of(bytes)?;
    if 1 <= code && code <= LAST_FAULT {
        Ok((Value::Fault(code), rest))
    } else {
        Err(stop_at(bytes, Why::BadValue))
    }
}

/// So many numbers with a sign.
fn numbers_of(alloc: Global, count: u16, bytes: &[u8]) -> Result<(Ints, &[u8]), ReadError>
    ensures { Gives (λ x. (x.0, x.1.now)) result (numbers_at count bytes.now) }
{
    let mut numbers = Items::new(alloc);
    let mut rest = bytes;
    for _ in 0..count {
        let (number, after) = int_of(rest)?;
        numbers.push(number)?;
        rest = after;
    }
    Ok((numbers, rest))
}

/// A count of numbers, and these.
#[tactic(auto, unfolding(crate::specs::Reading::ints_at))]
fn ints_of(alloc: Global, bytes: &[u8]) -> Result<(Ints, &[u8]), ReadError>
    ensures { Gives (λ x. (x.0, x.1.now)) result (ints_at bytes.now) }
{
    let (count, rest) = count_of(MOST_INTS, bytes)?;
    numbers_of(alloc, count, rest)
}

/// A value that takes no memory, behind its tag; another tag is a fault at the first of `bytes`.
#[tactic(auto, unfolding(crate::specs::Reading::plain_at))]
pub(crate) fn small_of<'a>(tag: u8, bytes: &[u8], rest: &'a [u8]) -> Result<(Value, &'a [u8]), Stop>
    requires text { tag ≢ 3 }
    requires ints { tag ≢ 6 }
    ensures { Tells (λ x. (x.0, x.1.now)) result (plain_at tag bytes.now rest.now) }
{
    match tag {
        0 => Ok((Value::Unit, rest)),
        1 => flag_of(rest),
        2 => {
            let (number, rest) = int_of(rest)?;
            Ok((Value::Int(number), rest))
        }
        5 => fault_of(rest),
        _ => Err(stop_at(bytes, Why::BadValue)),
    }
}

/// A value other than a Ref, behind its tag; another tag is a fault at the first of `bytes`.
#[tactic(auto, unfolding(crate::specs::Reading::plain_at))]
fn plain_of<'a>(
    alloc: Global,
    tag: u8,
    bytes: &[u8],
    rest: &'a [u8],
) -> Result<(Value, &'a [u8]), ReadError>
    ensures { Gives (λ x. (x.0, x.1.now)) result (plain_at tag bytes.now rest.now) }
{
    match tag {
        3 => {
            let (text, rest) = text_of(alloc, rest)?;
            Ok((Value::Text(text), rest))
        }
        6 => {
            let (numbers, rest) = ints_of(alloc, rest)?;
            Ok((Value::Ints(numbers), rest))
        }
        _ => {
            let (value, rest) = small_of(tag, bytes, rest)?;
            Ok((value, rest))
        }
    }
}

/// A value, and its id where it is a Ref, which comes to stand at this place, below the limit.
#[tactic(auto, unfolding(crate::specs::Reading::value_at))]
fn value_of(
    alloc: Global,
    limit: u16,
    place: usize,
    bytes: &[u8],
) -> Result<(Value, Option<Gid>, &[u8]), ReadError>
    ensures given { Gives (λ x. (x.0, x.1, x.2.now)) result (value_at limit place bytes.now) }
    ensures few { IfOk result (λ x. place ≤ limit → place + length (id_list x.1) ≤ limit) }
{
    let (tag, rest) = byte_of(bytes)?;
    if tag != 4 {
        let (value, rest) = plain_of(alloc, tag, bytes, rest)?;
        return Ok((value, None, rest));
    }
    if place >= limit as usize {
        return Err(ReadError::Stop(stop_at(bytes, Why::BadValue)));
    }
    match id_with(IdRule::Named, rest) {
        Ok((id, rest)) => Ok((Value::Ref(place as u16), Some(id), rest)),
        Err(stop) => Err(ReadError::Stop(stop)),
    }
}

/// One more id, where one was found.
pub(crate) fn push_found(ids: &mut Gids, id: Option<Gid>) -> Result<(), OutOfMemory>
    ensures { OnOk result (ids.new ≡ ids.old ++ id_list id) }
{
    if let Some(id) = id {
        ids.push(id)?;
    }
    Ok(())
}

/// Values, whose ids come after those that there are.
fn each_of(
    alloc: Global,
    limit: u16,
    count: u16,
    mut ids: Gids,
    bytes: &[u8],
) -> Result<(Values, Gids, &[u8]), ReadError>
    ensures given { Gives (λ x. (x.0, x.1, x.2.now)) result (joined [] ids (each_at limit (length ids) count bytes.now)) }
    ensures few { IfOk result (λ x. length ids ≤ limit → length x.1 ≤ limit) }
{
    let mut values = Items::new(alloc);
    let mut rest = bytes;
    for _ in 0..count {
        match value_of(alloc, limit, ids.len(), rest) {
            Ok((value, id, after)) => {
                values.push(value)?;
                push_found(&mut ids, id)?;
                rest = after;
            }
            Err(error) => return Err(error),
        }
    }
    Ok((values, ids, rest))
}

/// A count of values, at most 1,024, and these; their ids come after those that there are.
#[tactic(auto, unfolding(crate::specs::Reading::values_at))]
pub(crate) fn values_of(
    alloc: Global,
    limit: u16,
    ids: Gids,
    bytes: &[u8],
) -> Result<(Values, Gids, &[u8]), ReadError>
    ensures given { Gives (λ x. (x.0, x.1, x.2.now)) result (joined [] ids (values_at limit (length ids) bytes.now)) }
    ensures few { IfOk result (λ x. length ids ≤ limit → length x.1 ≤ limit) }
{
    let (count, rest) = count_of(MOST_VALUES, bytes)?;
    each_of(alloc, limit, count, ids, rest)
}
