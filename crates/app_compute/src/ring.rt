//! What a session keeps of a ring that it steps, and how it is laid out as values.
ghost use Rattle.std.specs.Prelude.{◌≡◌, ◌++◌, IfOk, OnOk};
ghost use Rattle.app_compute.specs.Stencil.{part_by, parts_in, parts_out, ring_by, ring_in, ring_out, ring_sized, row_in, row_out, to_in, to_out};

use hpx_calls::content::one;
use hpx_calls::read::count_in;
use hpx_value::exact::Exact;
use hpx_value::items::{Ints, Items};
use hpx_value::memory::OutOfMemory;
use hpx_value::value::{Value, Values};
use std::alloc::Global;

/// A part: the place of its object, once it has come, and its numbers, once they have come.
#[derive(Drop)]
pub struct Part {
    pub to: Option<u16>,
    pub row: Option<Ints>,
}

/// Parts, in order.
pub type Parts = Items<Part>;

/// A ring: so many rows are to come, of parts of so many points, which answer in the slots from the first on.
#[derive(Drop)]
pub struct Ring {
    pub rows: u32,
    pub first: u32,
    pub size: u32,
    pub parts: Parts,
}

const MOST_ROWS: u32 = 1000;

const MOST_POINTS: u32 = 1024;

const MOST_PARTS: usize = 32;

/// The values of a session that keeps this.
#[tactic(auto, using(crate::proofs::Rings::parts_more))]
pub fn ring_out(alloc: Global, ring: Ring) -> Result<Values, OutOfMemory>
    ensures { IfOk result (λ values. values ≡ ring_out ring) }
{
    let Ring {
        rows,
        first,
        size,
        parts,
    } = ring;
    let mut values = one(alloc, Value::Flag(true))?;
    values.push(Value::Int(i64::from(rows)))?;
    values.push(Value::Int(i64::from(first)))?;
    values.push(Value::Int(i64::from(size)))?;
    for part in parts.into_vec() {
        values.push(to_out(part.to))?;
        values.push(row_out(part.row))?;
    }
    Ok(values)
}

fn to_out(to: Option<u16>) -> Value
    ensures { result ≡ to_out to }
{
    match to {
        None => Value::Unit,
        Some(place) => Value::Ref(place),
    }
}

fn row_out(row: Option<Ints>) -> Value
    ensures { result ≡ row_out row }
{
    match row {
        None => Value::Unit,
        Some(numbers) => Value::Ints(numbers),
    }
}

/// The ring that values show.
pub fn ring_in(alloc: Global, values: &[Value]) -> Result<Option<Ring>, OutOfMemory>
    ensures { IfOk result (λ ring. ring ≡ ring_in values.now) }
{
    match values {
        [
            Value::Flag(true),
            Value::Int(rows),
            Value::Int(first),
            Value::Int(size),
            rest @ ..,
        ] => {
            ring_sized(
                alloc,
                count_in(MOST_ROWS, *rows),
                count_in(u32::MAX, *first),
                count_in(MOST_POINTS, *size),
                rest,
            )
        }
        _ => Ok(None),
    }
}

fn ring_sized(
    alloc: Global,
    rows: Option<u32>,
    first: Option<u32>,
    size: Option<u32>,
    values: &[Value],
) -> Result<Option<Ring>, OutOfMemory>
    ensures { IfOk result (λ ring. ring ≡ ring_sized rows first size values.now) }
{
    match (rows, first, size) {
        (Some(rows), Some(first), Some(size)) => {
            Ok(ring_by(rows, first, size, parts_in(alloc, size, values)?))
        }
        _ => Ok(None),
    }
}

/// A ring within the bounds.
fn ring_by(rows: u32, first: u32, size: u32, parts: Option<Parts>) -> Option<Ring>
    ensures { result ≡ ring_by rows first size parts }
{
    let parts = parts?;
    if parts.len() <= MOST_PARTS && u64::from(size) * parts.len() as u64 <= u64::from(MOST_POINTS) {
        Some(Ring {
            rows,
            first,
            size,
            parts,
        })
    } else {
        None
    }
}

/// The parts that values show.
fn parts_in(alloc: Global, size: u32, values: &[Value]) -> Result<Option<Parts>, OutOfMemory>
    ensures { IfOk result (λ parts. parts ≡ parts_in size values.now) }
{
    let mut parts = Items::new(alloc);
    let mut left = values;
    'pairs: while let Some((first, others)) = left.split_first() {
        let Some((second, rest)) = others.split_first() else {
            return Ok(None);
        };
        let Some(part) = part_by(to_in(first), row_in(alloc, size, second)?) else {
            return Ok(None);
        };
        parts.push(part)?;
        left = rest;
    }
    Ok(Some(parts))
}

fn part_by(to: Option<Option<u16>>, row: Option<Option<Ints>>) -> Option<Part>
    ensures { result ≡ part_by to row }
{
    match (to, row) {
        (Some(to), Some(row)) => Some(Part { to, row }),
        _ => None,
    }
}

fn to_in(value: &Value) -> Option<Option<u16>>
    ensures { result ≡ to_in value.now }
{
    match value {
        Value::Unit => Some(None),
        Value::Ref(place) => Some(Some(*place)),
        _ => None,
    }
}

fn row_in(alloc: Global, size: u32, value: &Value) -> Result<Option<Option<Ints>>, OutOfMemory>
    ensures { IfOk result (λ row. row ≡ row_in size value.now) }
{
    match value {
        Value::Unit => Ok(Some(None)),
        Value::Ints(numbers) if numbers.len() == size as usize => {
            Ok(Some(Some(numbers.duplicate(alloc)?)))
        }
        _ => Ok(None),
    }
}
