//! What actions on name services do.
ghost use Rattle.std.specs.Prelude.{◌≡◌, ◌≤◌, IfOk, pos};
ghost use Rattle.hpx_calls.specs.Values.{spelled};
ghost use Rattle.hpx_calls.specs.Outcomes.{outcome_of};
ghost use Rattle.hpx_calls.specs.Sorts.{IsNaming};
ghost use Rattle.hpx_calls.specs.Tables.{called, on_content, on_size};

use crate::maker::on_maker;
use crate::table::on_table;
use hpx_calls::answer::{awaits, leaves, moves, place, wrong};
use hpx_calls::content::Content;
use hpx_calls::effect::{Called, Effect};
use hpx_calls::read::naming_content_in;
use hpx_calls::request::{Request, request_in};
use hpx_value::memory::OutOfMemory;
use hpx_value::outcome::Outcome;
use hpx_value::value::{Act, State, Value};
use std::alloc::Global;

/// The outcome of an action on Symbols, Components, Localities or a Shelf, which are kinds below 16, at so many
/// localities. An `Err` is for want of memory, or where a hand has more than 65,535 places or continuations, as none
/// has that is well formed.
pub fn names_act(
    alloc: Global,
    kind: u32,
    here: u32,
    localities: u32,
    state: &State,
    action: &Act,
) -> Result<Outcome, OutOfMemory>
    requires { kind ≤ 15 }
    ensures { IfOk result (λ outcome. outcome ≡ outcome_of localities kind here state.now action.now) }
{
    let content = naming_content_in(alloc, localities, kind, state)?;
    let request = request_in(alloc, state, action)?;
    let waiting = state.conts.len();
    let waits = action.cont.is_some();
    let called = called(alloc, here, kind, waiting, waits, content, request)?;
    called.outcome(alloc, here, state, action)
}

/// What a call does, where the caller waits for an answer or not.
fn called(
    alloc: Global,
    here: u32,
    kind: u32,
    waiting: usize,
    waits: bool,
    content: Content<Value>,
    request: Request<Value>,
) -> Result<Called<Value>, OutOfMemory>
    requires { IsNaming content }
    ensures { IfOk result (λ done. done ≡ called spelled here kind waiting waits content request) }
{
    if !waits && awaits(&request) {
        return Ok(leaves(content, Effect::Silent));
    }
    match request {
        Request::Where => Ok(place(here, kind, content)),
        Request::Move(to) => Ok(moves(kind, content, to)),
        request => on_content(alloc, waiting, content, request),
    }
}

/// What is asked of a content, where it does not matter how many wait.
fn on_content(
    alloc: Global,
    waiting: usize,
    content: Content<Value>,
    request: Request<Value>,
) -> Result<Called<Value>, OutOfMemory>
    requires { IsNaming content }
    ensures { IfOk result (λ done. done ≡ on_content spelled waiting content request) }
{
    let _ = waiting;
    match content {
        Content::Table(pairs) => on_table(alloc, pairs, request),
        Content::Maker => on_maker(alloc, request),
        Content::Size(count) => Ok(on_size(count, request)),
        content => Ok(wrong(content)),
    }
}

/// What is asked of the namespace of localities.
fn on_size(count: u32, request: Request<Value>) -> Called<Value>
    ensures { result ≡ on_size spelled count request }
{
    match request {
        Request::Count => leaves(
            Content::Size(count),
            Effect::Answers(Value::Int(i64::from(count))),
        ),
        _ => wrong(Content::Size(count)),
    }
}
