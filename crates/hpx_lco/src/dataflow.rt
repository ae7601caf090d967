//! Dataflows: an action starts once, when all its inputs are there and somebody waits for its answer.
ghost use Rattle.std.specs.Prelude.{◌≡◌, IfOk, option_copied};
ghost use Rattle.hpx_calls.specs.Values.{spelled};
ghost use Rattle.hpx_calls.specs.Tables.{fitted, gives, inputs_from, on_dataflow, on_started, or_nothing, puts, puts_free, puts_late, starts};
ghost use Rattle.hpx_calls.specs.Contents.{input_of};

use hpx_calls::answer::{does, leaves, refuses, wrong};
use hpx_calls::codes::{ALREADY_SET, FULL, NO_SLOT, SPENT};
use hpx_calls::content::{Content, Given};
use hpx_calls::effect::{Called, Effect};
use hpx_calls::read::{MOST_BYTES, given_size, input_of, size_of};
use hpx_calls::request::Request;
use hpx_value::exact::Exact;
use hpx_value::items::Items;
use hpx_value::memory::OutOfMemory;
use hpx_value::value::{Value, Values};
use std::alloc::Global;

/// What is asked of a dataflow that has not started.
pub fn on_dataflow(
    alloc: Global,
    waiting: usize,
    code: u16,
    inputs: u32,
    given: Items<Given<Value>>,
    request: Request<Value>,
) -> Result<Called<Value>, OutOfMemory>
    ensures { IfOk result (λ called. called ≡ on_dataflow spelled waiting code inputs given request) }
{
    match request {
        Request::Set { slot, value } => puts(alloc, waiting, code, inputs, given, slot, value),
        Request::PutAt { slot, value } => puts(alloc, waiting, code, inputs, given, slot, value),
        Request::Get => starts(alloc, waiting, code, inputs, given),
        _ => Ok(wrong(Content::Dataflow {
            code,
            inputs,
            given,
        })),
    }
}

/// What is asked of a dataflow that has started.
pub fn on_started(code: u16, inputs: u32, request: Request<Value>) -> Called<Value>
    ensures { result ≡ on_started spelled code inputs request }
{
    let content = Content::Started { code, inputs };
    match request {
        Request::Set { slot, value: _ } => puts_late(code, inputs, slot),
        Request::PutAt { slot, value: _ } => puts_late(code, inputs, slot),
        Request::Get => refuses(content, SPENT),
        _ => wrong(content),
    }
}

/// All inputs count as full.
fn puts_late(code: u16, inputs: u32, slot: i64) -> Called<Value>
    ensures { result ≡ puts_late spelled code inputs slot }
{
    let content = Content::Started { code, inputs };
    if 0 <= slot && slot < i64::from(inputs) {
        refuses(content, ALREADY_SET)
    } else {
        refuses(content, NO_SLOT)
    }
}

/// A value for an input.
fn puts(
    alloc: Global,
    waiting: usize,
    code: u16,
    inputs: u32,
    given: Items<Given<Value>>,
    slot: i64,
    value: Value,
) -> Result<Called<Value>, OutOfMemory>
    ensures { IfOk result (λ called. called ≡ puts spelled waiting code inputs given slot value) }
{
    if 0 <= slot && slot < i64::from(inputs) {
        puts_below(alloc, waiting, code, inputs, given, slot as u32, value)
    } else {
        Ok(refuses(
            Content::Dataflow {
                code,
                inputs,
                given,
            },
            NO_SLOT,
        ))
    }
}

/// A value for an input that there is.
fn puts_below(
    alloc: Global,
    waiting: usize,
    code: u16,
    inputs: u32,
    given: Items<Given<Value>>,
    slot: u32,
    value: Value,
) -> Result<Called<Value>, OutOfMemory>
    ensures { IfOk result (λ called. called
        ≡ puts_free spelled waiting code inputs given slot value (input_of slot given)) }
{
    if input_of(slot, given.as_slice()).is_some() {
        return Ok(refuses(
            Content::Dataflow {
                code,
                inputs,
                given,
            },
            ALREADY_SET,
        ));
    }
    let value = fitted(given.as_slice(), value);
    let mut given = given;
    given.push(Given { slot, value })?;
    gives(alloc, waiting, code, inputs, given)
}

/// A value that would make what is kept too long is a fault from then on.
fn fitted(given: &[Given<Value>], value: Value) -> Value
    ensures { result ≡ fitted spelled given.now value }
{
    let (Some(kept), Some(size)) = (given_size(given), size_of(&value)) else {
        return Value::Fault(FULL);
    };
    if kept <= MOST_BYTES && size <= MOST_BYTES - kept {
        value
    } else {
        Value::Fault(FULL)
    }
}

/// With the last input the action starts, where somebody waits.
fn gives(
    alloc: Global,
    waiting: usize,
    code: u16,
    inputs: u32,
    given: Items<Given<Value>>,
) -> Result<Called<Value>, OutOfMemory>
    ensures { IfOk result (λ called. called ≡ gives spelled waiting code inputs given) }
{
    if given.len() == inputs as usize && 1 <= waiting {
        Ok(leaves(
            Content::Started { code, inputs },
            Effect::Hands {
                code,
                args: inputs_of(alloc, given.as_slice(), inputs)?,
                own: Value::Unit,
            },
        ))
    } else {
        Ok(does(Content::Dataflow {
            code,
            inputs,
            given,
        }))
    }
}

/// Somebody waits, once; the action starts where all inputs are there.
fn starts(
    alloc: Global,
    waiting: usize,
    code: u16,
    inputs: u32,
    given: Items<Given<Value>>,
) -> Result<Called<Value>, OutOfMemory>
    ensures { IfOk result (λ called. called ≡ starts spelled waiting code inputs given) }
{
    if 1 <= waiting {
        return Ok(refuses(
            Content::Dataflow {
                code,
                inputs,
                given,
            },
            SPENT,
        ));
    }
    if given.len() == inputs as usize {
        return Ok(leaves(
            Content::Started { code, inputs },
            Effect::Starts {
                code,
                args: inputs_of(alloc, given.as_slice(), inputs)?,
            },
        ));
    }
    Ok(leaves(
        Content::Dataflow {
            code,
            inputs,
            given,
        },
        Effect::Waits,
    ))
}

/// The values of the inputs, in order.
#[tactic(auto, using(crate::proofs::Inputs::inputs_more))]
fn inputs_of(alloc: Global, given: &[Given<Value>], inputs: u32) -> Result<Values, OutOfMemory>
    ensures { IfOk result (λ values. values ≡ inputs_from spelled given.now 0 inputs) }
{
    let mut values = Items::new(alloc);
    for slot in 0..inputs {
        let value = copy_of(alloc, input_of(slot, given))?;
        values.push(value)?;
    }
    Ok(values)
}

/// A copy, or Unit where there is none.
fn copy_of(alloc: Global, value: Option<&Value>) -> Result<Value, OutOfMemory>
    ensures { IfOk result (λ copy. copy ≡ or_nothing spelled (option_copied value.entry)) }
{
    match value {
        Some(value) => value.duplicate(alloc),
        None => Ok(Value::Unit),
    }
}
