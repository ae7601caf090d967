//! The session, where a ring is stepped: it has the parts made, steps them together, and prints a row for each step.
ghost use Rattle.std.specs.Prelude.{◌≡◌, ◌≤◌, ◌∷◌, ◌++◌, ◌+◌, ◌*◌, [], map, IfOk, OnOk, IfSome, length};
ghost use Rattle.std.specs.Fmt.{signed_decimal};
ghost use Rattle.app_compute.specs.Acts.{refused};
ghost use Rattle.app_compute.specs.Ring.{first_of, first_or, joined, last_of, last_or, points_from, row_text, row_words};
ghost use Rattle.app_compute.specs.Stencil.{ring_in};
ghost use Rattle.app_compute.specs.StencilSession.{answered, answers, answers_by, are_bare, are_made, begins, begins_by, blank_parts, cleared, first_rows, goes, new_call, new_calls, next_of, parts_with, place_or_0, printed, ring_args, ring_outcome, rows_of, step_call, step_calls, stepped_on, steps, waits};

use crate::plain::refused;
use crate::ring::{Part, Parts, Ring, ring_in, ring_out};
use crate::session::{MARK, fault_text, spoken};
use crate::shape::{Shape, shape_of};
use hpx_calls::codes::{FULL, NEW, STEP};
use hpx_calls::content::one;
use hpx_value::codes::{COMPONENTS, LINE, SET};
use hpx_value::exact::Exact;
use hpx_value::items::{Ints, Items, Text, Texts};
use hpx_value::memory::OutOfMemory;
use hpx_value::outcome::{Outcome, SendCont, Sending, Sends, Target};
use hpx_value::value::{Act, State, Value};
use std::alloc::Global;

/// The numbers of parts, in order.
type Rows = Items<Ints>;

const MOST_DRAWN: u32 = 4_000_000_000;

const LONGEST: usize = 16384;

/// The outcome of an action on the session at so many localities. An `Err` is for want of memory, or where a hand has more
/// than 65,535 places or continuations, as none has that is well formed.
#[tactic(auto, unfolding(crate::specs::StencilSession::ring_outcome))]
pub fn ring_act(
    alloc: Global,
    here: u32,
    localities: u32,
    state: &State,
    action: &Act,
) -> Result<Outcome, OutOfMemory>
    requires some { 1 ≤ localities }
    ensures { IfOk result (λ outcome. outcome ≡ ring_outcome localities state.now action.now) }
{
    if !state.conts.is_empty() || state.drawn > MOST_DRAWN || action.cont.is_some() {
        return refused(alloc, here, state, action);
    }
    ring_args(alloc, here, localities, state, action)
}

/// What an action without a continuation does, where further slots can be drawn.
#[tactic(auto, using(crate::proofs::RingBounds::shape_bounds, crate::proofs::RingBounds::ring_bounds))]
fn ring_args(
    alloc: Global,
    here: u32,
    localities: u32,
    state: &State,
    action: &Act,
) -> Result<Outcome, OutOfMemory>
    requires some { 1 ≤ localities }
    requires drawn { state.now.drawn ≤ 4000000000 }
    ensures { IfOk result (λ outcome. outcome ≡ ring_args localities state.now action.now action.now.args) }
{
    match action.args.as_slice() {
        [Value::Text(text)] => match text.as_slice() {
            [MARK, line @ ..] if action.code == LINE && state.values.is_empty() => {
                let shape = shape_of(alloc, line)?;
                begins_by(alloc, here, localities, state, action, shape)
            }
            _ => refused(alloc, here, state, action),
        },
        [Value::Int(slot), value] if action.code == SET => match u64::try_from(*slot) {
            Ok(slot) => {
                let ring = ring_in(alloc, state.values.as_slice())?;
                answers_by(alloc, here, state, action, slot, value, ring)
            }
            Err(_) => refused(alloc, here, state, action),
        },
        _ => refused(alloc, here, state, action),
    }
}

/// The ring that a line asks for begins.
fn begins_by(
    alloc: Global,
    here: u32,
    localities: u32,
    state: &State,
    action: &Act,
    shape: Option<Shape>,
) -> Result<Outcome, OutOfMemory>
    requires some { 1 ≤ localities }
    requires drawn { state.now.drawn ≤ 4000000000 }
    requires shape { IfSome shape (λ x. (1 ≤ x.parts) × (x.parts ≤ 32) × (x.points ≤ 1024)) }
    ensures { IfOk result (λ outcome. outcome ≡ begins_by localities state.now action.now shape) }
{
    let Some(shape) = shape else {
        return refused(alloc, here, state, action);
    };
    if shape.steps == 0 {
        return Ok(spoken(
            alloc,
            state.drawn,
            Items::new(alloc),
            Items::new(alloc),
            Items::new(alloc),
        ));
    }
    let size = shape.points / shape.parts;
    let ring = Ring {
        rows: shape.steps,
        first: state.drawn,
        size,
        parts: blank_parts(alloc, shape.parts)?,
    };
    let sends = new_calls(alloc, localities, state.drawn, size, shape.parts)?;
    Ok(spoken(
        alloc,
        state.drawn + shape.parts,
        ring_out(alloc, ring)?,
        sends,
        Items::new(alloc),
    ))
}

/// Parts of which nothing has come.
#[tactic(auto, using(crate::proofs::RingLists::blank_more))]
fn blank_parts(alloc: Global, count: u32) -> Result<Parts, OutOfMemory>
    ensures { IfOk result (λ parts. parts ≡ blank_parts count) }
{
    let mut parts = Items::new(alloc);
    for _ in 0..count {
        parts.push(Part {
            to: None,
            row: None,
        })?;
    }
    Ok(parts)
}

/// So many parts are asked for, in turn at all localities.
#[tactic(auto, using(crate::proofs::RingLists::calls_more))]
fn new_calls(
    alloc: Global,
    localities: u32,
    slot: u32,
    size: u32,
    count: u32,
) -> Result<Sends, OutOfMemory>
    requires some { 1 ≤ localities }
    requires slot { slot ≤ 4000000000 }
    requires size { size ≤ 1024 }
    requires count { count ≤ 32 }
    ensures { IfOk result (λ sends. sends ≡ new_calls localities slot size 0 count) }
{
    let mut sends = Items::new(alloc);
    for q in 0..count {
        sends.push(new_call(alloc, localities, slot + q, size, q)?)?;
    }
    Ok(sends)
}

/// A part is asked for, with its points.
fn new_call(
    alloc: Global,
    localities: u32,
    slot: u32,
    size: u32,
    q: u32,
) -> Result<Sending, OutOfMemory>
    requires some { 1 ≤ localities }
    requires size { size ≤ 1024 }
    requires q { q ≤ 32 }
    ensures { IfOk result (λ sending. sending ≡ new_call localities slot size q) }
{
    let kind = Items::from_vec(Vec::from_slice(alloc, b"partition")?);
    let mut args = one(alloc, Value::Text(kind))?;
    args.push(Value::Ints(points_from(alloc, q * size, size)?))?;
    Ok(Sending {
        target: Target::Root {
            kind: COMPONENTS,
            at: q % localities,
        },
        code: NEW,
        args,
        cont: SendCont::Here { slot },
    })
}

/// The numbers from one on, so many.
#[tactic(auto, using(crate::proofs::RingLists::points_more))]
fn points_from(alloc: Global, first: u32, count: u32) -> Result<Ints, OutOfMemory>
    requires first { first ≤ 32768 }
    requires count { count ≤ 1024 }
    ensures { IfOk result (λ points. points ≡ points_from first count) }
{
    let mut points = Items::new(alloc);
    for i in 0..count {
        points.push(i64::from(first + i))?;
    }
    Ok(points)
}

/// The answer in a slot is one of those that a ring awaits.
fn answers_by(
    alloc: Global,
    here: u32,
    state: &State,
    action: &Act,
    slot: u64,
    value: &Value,
    ring: Option<Ring>,
) -> Result<Outcome, OutOfMemory>
    requires drawn { state.now.drawn ≤ 4000000000 }
    requires ring { IfSome ring (λ x. (length x.parts ≤ 32) × (x.size ≤ 1024)) }
    ensures { IfOk result (λ outcome. outcome ≡ answers_by state.now action.now slot value.now ring) }
{
    match ring {
        Some(ring) if u64::from(ring.first) <= slot => {
            let q = slot - u64::from(ring.first);
            answers(alloc, here, state, action, value, ring, q)
        }
        _ => refused(alloc, here, state, action),
    }
}

/// The answer of the q-th part.
fn answers(
    alloc: Global,
    here: u32,
    state: &State,
    action: &Act,
    value: &Value,
    ring: Ring,
    q: u64,
) -> Result<Outcome, OutOfMemory>
    requires drawn { state.now.drawn ≤ 4000000000 }
    requires parts { length ring.parts ≤ 32 }
    requires size { ring.size ≤ 1024 }
    ensures { IfOk result (λ outcome. outcome ≡ answers state.now action.now value.now ring q) }
{
    let Value::Fault(code) = value else {
        let parts = parts_with(
            alloc,
            ring.size,
            state.ids.len(),
            value,
            ring.parts.as_slice(),
            q,
        )?;
        return goes(alloc, here, state, action, ring, parts);
    };
    if q >= ring.parts.len() as u64 {
        return refused(alloc, here, state, action);
    }
    Ok(spoken(
        alloc,
        state.drawn,
        Items::new(alloc),
        Items::new(alloc),
        one(alloc, fault_text(alloc, *code)?)?,
    ))
}

/// What a part is after an answer, if it was awaited.
fn answered(
    alloc: Global,
    size: u32,
    places: usize,
    value: &Value,
    part: &Part,
) -> Result<Option<Part>, OutOfMemory>
    ensures { IfOk result (λ part'. part' ≡ answered size places value.now part.now.to part.now.row) }
{
    match (value, part.to, &part.row) {
        (Value::Ref(place), None, _) => {
            let Some(to) = u16::try_from(places)
                .ok()
                .and_then(|n| n.checked_add(*place))
            else {
                return Err(OutOfMemory);
            };
            Ok(Some(Part {
                to: Some(to),
                row: None,
            }))
        }
        (Value::Ints(numbers), Some(to), None) if numbers.len() == size as usize => {
            Ok(Some(Part {
                to: Some(to),
                row: Some(numbers.duplicate(alloc)?),
            }))
        }
        _ => Ok(None),
    }
}

/// The parts with the answer of the q-th, if it was awaited.
#[tactic(auto, using(crate::proofs::RingLists::with_none))]
fn parts_with(
    alloc: Global,
    size: u32,
    places: usize,
    value: &Value,
    parts: &[Part],
    q: u64,
) -> Result<Option<Parts>, OutOfMemory>
    ensures is { IfOk result (λ new. new ≡ parts_with size places value.now parts.now q) }
    ensures count { IfOk result (λ new. IfSome new (λ xs. length xs ≡ length parts.now)) }
{
    if q >= parts.len() as u64 {
        return Ok(None);
    }
    let at = q as usize;
    let Some(part) = answered(alloc, size, places, value, &parts[at])? else {
        return Ok(None);
    };
    let mut new = Items::new(alloc);
    push_copies(alloc, &mut new, &parts[..at])?;
    new.push(part)?;
    push_copies(alloc, &mut new, &parts[at + 1..])?;
    Ok(Some(new))
}

/// Parts behind others.
fn push_copies(alloc: Global, new: &mut Parts, parts: &[Part]) -> Result<(), OutOfMemory>
    ensures { OnOk result (new.new ≡ new.old ++ parts.now) }
{
    for part in parts {
        new.push(Part {
            to: part.to,
            row: match &part.row {
                Some(row) => Some(row.duplicate(alloc)?),
                None => None,
            },
        })?;
    }
    Ok(())
}

/// Once all parts are made they are stepped, and once all numbers have come, again.
fn goes(
    alloc: Global,
    here: u32,
    state: &State,
    action: &Act,
    ring: Ring,
    parts: Option<Parts>,
) -> Result<Outcome, OutOfMemory>
    requires drawn { state.now.drawn ≤ 4000000000 }
    requires parts { IfSome parts (λ xs. length xs ≤ 32) }
    requires size { ring.size ≤ 1024 }
    ensures { IfOk result (λ outcome. outcome ≡ goes state.now.drawn ring parts state.now action.now) }
{
    let Some(parts) = parts else {
        return refused(alloc, here, state, action);
    };
    let drawn = state.drawn;
    if !are_made(parts.as_slice()) {
        return waits(alloc, drawn, ring, parts);
    }
    if are_bare(parts.as_slice()) {
        let rows = first_rows(alloc, ring.size, parts.len() as u32)?;
        return steps(
            alloc,
            drawn,
            ring.rows,
            ring.size,
            parts,
            rows,
            Items::new(alloc),
        );
    }
    match rows_of(alloc, parts.as_slice())? {
        Some(rows) => stepped_on(alloc, drawn, ring, parts, rows),
        None => waits(alloc, drawn, ring, parts),
    }
}

/// What is awaited still is awaited.
fn waits(alloc: Global, drawn: u32, ring: Ring, parts: Parts) -> Result<Outcome, OutOfMemory>
    ensures { IfOk result (λ outcome. outcome ≡ waits drawn ring parts) }
{
    let Ring {
        rows,
        first,
        size,
        parts: _,
    } = ring;
    let ring = Ring {
        rows,
        first,
        size,
        parts,
    };
    let values = ring_out(alloc, ring)?;
    Ok(spoken(alloc, drawn, values, Items::new(alloc), Items::new(alloc)))
}

/// The row is printed, and the next step is made if one is to come.
fn stepped_on(
    alloc: Global,
    drawn: u32,
    ring: Ring,
    parts: Parts,
    rows: Rows,
) -> Result<Outcome, OutOfMemory>
    requires drawn { drawn ≤ 4000000000 }
    requires parts { length parts ≤ 32 }
    ensures { IfOk result (λ outcome. outcome ≡ stepped_on drawn ring parts (Some rows)) }
{
    let texts = printed(alloc, joined(alloc, rows.as_slice())?.as_slice())?;
    if ring.rows == 1 {
        return Ok(spoken(alloc, drawn, Items::new(alloc), Items::new(alloc), texts));
    }
    steps(
        alloc,
        drawn,
        ring.rows.saturating_sub(1),
        ring.size,
        parts,
        rows,
        texts,
    )
}

/// One more step of all parts, from these rows on, where so many are to come.
fn steps(
    alloc: Global,
    drawn: u32,
    left: u32,
    size: u32,
    parts: Parts,
    rows: Rows,
    texts: Texts,
) -> Result<Outcome, OutOfMemory>
    requires drawn { drawn ≤ 4000000000 }
    requires parts { length parts ≤ 32 }
    ensures { IfOk result (λ outcome. outcome ≡ steps drawn left size parts rows texts) }
{
    let mut sends = Items::new(alloc);
    let (first, last) = (first_of(rows.as_slice()), last_of(rows.as_slice()));
    push_steps(
        alloc,
        &mut sends,
        drawn,
        last,
        parts.as_slice(),
        rows.as_slice(),
        first,
    )?;
    let count = parts.len() as u32;
    let ring = Ring {
        rows: left,
        first: drawn,
        size,
        parts: cleared(alloc, parts.as_slice())?,
    };
    Ok(spoken(alloc, drawn + count, ring_out(alloc, ring)?, sends, texts))
}

/// Each part is asked to step, between the nearest numbers of those beside it.
fn push_steps(
    alloc: Global,
    sends: &mut Sends,
    slot: u32,
    left: i64,
    parts: &[Part],
    rows: &[Ints],
    right: i64,
) -> Result<(), OutOfMemory>
    requires slot { slot + length parts.now ≤ 4000000032 }
    ensures { OnOk result (sends.new ≡ sends.old ++ step_calls slot left parts.now rows.now right) }
{
    match parts {
        [] => Ok(()),
        [part, parts @ ..] => match rows {
            [] => Ok(()),
            [row, rows @ ..] => {
                let next = next_of(rows, right);
                sends.push(step_call(alloc, slot, part.to, left, next)?)?;
                let last = last_or(row.as_slice(), left);
                push_steps(alloc, sends, slot + 1, last, parts, rows, right)
            }
        },
    }
}

/// A part is asked to step.
fn step_call(
    alloc: Global,
    slot: u32,
    to: Option<u16>,
    left: i64,
    right: i64,
) -> Result<Sending, OutOfMemory>
    ensures { IfOk result (λ sending. sending ≡ step_call slot to left right) }
{
    let mut args = one(alloc, Value::Int(left))?;
    args.push(Value::Int(right))?;
    Ok(Sending {
        target: Target::Place(to.unwrap_or(0)),
        code: STEP,
        args,
        cont: SendCont::Here { slot },
    })
}

/// The first number of the rows that follow, or what stands behind them.
fn next_of(rows: &[Ints], right: i64) -> i64
    ensures { result ≡ next_of rows.now right }
{
    match rows {
        [] => right,
        [row, ..] => first_or(row.as_slice(), right),
    }
}

fn first_or(numbers: &[i64], other: i64) -> i64
    ensures { result ≡ first_or numbers.now other }
{
    match numbers {
        [] => other,
        [number, ..] => *number,
    }
}

fn last_or(numbers: &[i64], other: i64) -> i64
    ensures { result ≡ last_or numbers.now other }
{
    match numbers {
        [] => other,
        [number, rest @ ..] => last_or(rest, *number),
    }
}

/// The first number of the first row.
fn first_of(rows: &[Ints]) -> i64
    ensures { result ≡ first_of rows.now }
{
    match rows {
        [] => 0,
        [row, ..] => first_or(row.as_slice(), 0),
    }
}

/// The last number of the last row.
fn last_of(rows: &[Ints]) -> i64
    ensures { result ≡ last_of rows.now }
{
    match rows {
        [] => 0,
        [row] => last_or(row.as_slice(), 0),
        [_, rest @ ..] => last_of(rest),
    }
}

/// Each part has its object.
fn are_made(parts: &[Part]) -> bool
    ensures { result ≡ are_made parts.now }
{
    match parts {
        [] => true,
        [part, rest @ ..] => part.to.is_some() && are_made(rest),
    }
}

/// No part has its numbers.
fn are_bare(parts: &[Part]) -> bool
    ensures { result ≡ are_bare parts.now }
{
    match parts {
        [] => true,
        [part, rest @ ..] => part.row.is_none() && are_bare(rest),
    }
}

/// The parts, of which no numbers have come.
fn cleared(alloc: Global, parts: &[Part]) -> Result<Parts, OutOfMemory>
    ensures { IfOk result (λ new. new ≡ cleared parts.now) }
{
    let mut new = Items::new(alloc);
    for part in parts {
        new.push(Part {
            to: part.to,
            row: None,
        })?;
    }
    Ok(new)
}

/// The numbers of all parts, once they have come.
fn rows_of(alloc: Global, parts: &[Part]) -> Result<Option<Rows>, OutOfMemory>
    ensures { IfOk result (λ rows. rows ≡ rows_of parts.now) }
{
    let mut rows = Items::new(alloc);
    for part in parts {
        match &part.row {
            Some(row) => rows.push(row.duplicate(alloc)?)?,
            None => return Ok(None),
        }
    }
    Ok(Some(rows))
}

/// The points that parts begin with.
#[tactic(auto, using(crate::proofs::RingLists::rows_more))]
fn first_rows(alloc: Global, size: u32, count: u32) -> Result<Rows, OutOfMemory>
    requires size { size ≤ 1024 }
    requires count { count ≤ 32 }
    ensures { IfOk result (λ rows. rows ≡ first_rows size 0 count) }
{
    let mut rows = Items::new(alloc);
    for q in 0..count {
        rows.push(points_from(alloc, q * size, size)?)?;
    }
    Ok(rows)
}

/// The numbers of all rows.
fn joined(alloc: Global, rows: &[Ints]) -> Result<Vec<i64>, OutOfMemory>
    ensures { IfOk result (λ numbers. numbers.items ≡ joined rows.now) }
{
    let mut numbers = Vec::new(alloc);
    for row in rows {
        numbers.extend_from_slice(row.as_slice())?;
    }
    Ok(numbers)
}

/// A row, or the fault Full where it is too long to be printed.
fn printed(alloc: Global, numbers: &[i64]) -> Result<Texts, OutOfMemory>
    ensures { IfOk result (λ texts. texts ≡ printed numbers.now) }
{
    let text = row_text(alloc, numbers)?;
    if text.len() <= LONGEST {
        one(alloc, text)
    } else {
        one(alloc, fault_text(alloc, FULL)?)
    }
}

/// Numbers with one space between, on a line.
fn row_text(alloc: Global, numbers: &[i64]) -> Result<Text, OutOfMemory>
    ensures { IfOk result (λ text. text ≡ row_text numbers.now) }
{
    let mut bytes = Vec::new(alloc);
    push_words(alloc, &mut bytes, numbers)?;
    bytes.push(b'\n')?;
    Ok(Items::from_vec(bytes))
}

/// Numbers with one space between, behind bytes.
#[tactic(auto, using(crate::proofs::RingLists::word_last))]
fn push_words(alloc: Global, bytes: &mut Vec<u8>, numbers: &[i64]) -> Result<(), OutOfMemory>
    ensures { OnOk result (bytes.new.items ≡ bytes.old.items ++ row_words numbers.now) }
{
    match numbers {
        [] => Ok(()),
        [number, rest @ ..] => {
            push_number(alloc, bytes, *number)?;
            if rest.is_empty() {
                return Ok(());
            }
            bytes.push(b' ')?;
            push_words(alloc, bytes, rest)
        }
    }
}

/// A number, behind bytes.
fn push_number(alloc: Global, bytes: &mut Vec<u8>, number: i64) -> Result<(), OutOfMemory>
    ensures { OnOk result (bytes.new.items ≡ bytes.old.items ++ signed_decimal number) }
{
    Ok(bytes.extend_from_slice(format!(in alloc; "{number}")?.as_bytes())?)
}
