//! Promises: one value, for all that ask.
ghost use Rattle.std.specs.Prelude.{◌≡◌, IfOk};
ghost use Rattle.hpx_calls.specs.Values.{spelled, is_number_or_text};
ghost use Rattle.hpx_calls.specs.Tables.{gets, on_promise, sets};

use hpx_calls::answer::{leaves, refuses, waits, wrong};
use hpx_calls::codes::ALREADY_SET;
use hpx_calls::content::Content;
use hpx_calls::effect::{Called, Effect};
use hpx_calls::request::Request;
use hpx_value::exact::Exact;
use hpx_value::memory::OutOfMemory;
use hpx_value::value::Value;
use std::alloc::Global;

const MOST_WAITING: usize = 7;

/// What is asked of a promise.
pub fn on_promise(
    alloc: Global,
    waiting: usize,
    held: Option<Value>,
    request: Request<Value>,
) -> Result<Called<Value>, OutOfMemory>
    ensures { IfOk result (λ called. called ≡ on_promise spelled waiting held request) }
{
    match request {
        Request::Set { slot, value } => {
            if slot == 0 {
                sets(alloc, waiting, held, value)
            } else {
                Ok(leaves(Content::Promise(held), Effect::Silent))
            }
        }
        Request::Put(value) => {
            if is_number_or_text(&value) {
                sets(alloc, waiting, held, value)
            } else {
                Ok(wrong(Content::Promise(held)))
            }
        }
        Request::Get => gets(alloc, waiting, held),
        _ => Ok(wrong(Content::Promise(held))),
    }
}

/// Whether PUT gives a promise such a value.
fn is_number_or_text(value: &Value) -> bool
    ensures { result ≡ is_number_or_text (spelled.look value.now) }
{
    match value {
        Value::Int(_) => true,
        Value::Text(_) => true,
        Value::Unit => false,
        Value::Flag(_) => false,
        Value::Ref(_) => false,
        Value::Fault(_) => false,
        Value::Ints(_) => false,
    }
}

/// The first value is kept, and answers all that wait.
fn sets(
    alloc: Global,
    waiting: usize,
    held: Option<Value>,
    value: Value,
) -> Result<Called<Value>, OutOfMemory>
    ensures { IfOk result (λ called. called ≡ sets spelled waiting held value) }
{
    match held {
        None => {
            let answer = value.duplicate(alloc)?;
            Ok(leaves(
                Content::Promise(Some(value)),
                Effect::Frees {
                    count: waiting,
                    value: answer,
                    own: Value::Unit,
                },
            ))
        }
        Some(old) => Ok(refuses(Content::Promise(Some(old)), ALREADY_SET)),
    }
}

/// The value, or a wait for it.
fn gets(alloc: Global, waiting: usize, held: Option<Value>) -> Result<Called<Value>, OutOfMemory>
    ensures { IfOk result (λ called. called ≡ gets spelled waiting held) }
{
    match held {
        None => Ok(waits(Content::Promise(None), MOST_WAITING, waiting)),
        Some(value) => {
            let answer = value.duplicate(alloc)?;
            Ok(leaves(Content::Promise(Some(value)), Effect::Answers(answer)))
        }
    }
}
