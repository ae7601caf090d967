//! What actions on control objects do.
ghost use Rattle.std.specs.Prelude.{◌≡◌, ◌≤◌, ℕ, IfOk};
ghost use Rattle.hpx_calls.specs.Values.{spelled};
ghost use Rattle.hpx_calls.specs.Outcomes.{outcome_of};
ghost use Rattle.hpx_calls.specs.Sorts.{IsControl};
ghost use Rattle.hpx_calls.specs.Tables.{called, on_content};

use crate::channel::on_channel;
use crate::dataflow::{on_dataflow, on_started};
use crate::meeting::{on_barrier, on_latch};
use crate::promise::on_promise;
use hpx_calls::answer::{awaits, leaves, moves, place, wrong};
use hpx_calls::content::Content;
use hpx_calls::effect::{Called, Effect};
use hpx_calls::read::control_content_in;
use hpx_calls::request::{Request, request_in};
use hpx_value::memory::OutOfMemory;
use hpx_value::outcome::Outcome;
use hpx_value::value::{Act, State, Value};
use std::alloc::Global;

/// The outcome of an action on a promise, a dataflow, a channel, a latch or a barrier, which are the kinds from 32 on,
/// at any number of localities. An `Err` is for want of memory, or where a hand has more than 65,535 places or
/// continuations, as none has that is well formed.
pub fn lco_act(
    alloc: Global,
    kind: u32,
    here: u32,
    state: &State,
    action: &Act,
) -> Result<Outcome, OutOfMemory>
    requires { 32 ≤ kind }
    ensures { IfOk result (λ outcome. (n : ℕ) → outcome ≡ outcome_of n kind here state.now action.now) }
{
    let content = control_content_in(alloc, kind, state)?;
    let request = request_in(alloc, state, action)?;
    let waiting = state.conts.len();
    let waits = action.cont.is_some();
    let called = called(alloc, here, kind, waiting, waits, content, request)?;
    called.outcome(alloc, here, state, action)
}

/// What a call does, where the caller waits for an answer or not.
fn called(
    alloc: Global,
    here: u32,
    kind: u32,
    waiting: usize,
    waits: bool,
    content: Content<Value>,
    request: Request<Value>,
) -> Result<Called<Value>, OutOfMemory>
    requires { IsControl content }
    ensures { IfOk result (λ done. done ≡ called spelled here kind waiting waits content request) }
{
    if !waits && awaits(&request) {
        return Ok(leaves(content, Effect::Silent));
    }
    match request {
        Request::Where => Ok(place(here, kind, content)),
        Request::Move(to) => Ok(moves(kind, content, to)),
        request => on_content(alloc, waiting, content, request),
    }
}

/// What is asked of a content.
fn on_content(
    alloc: Global,
    waiting: usize,
    content: Content<Value>,
    request: Request<Value>,
) -> Result<Called<Value>, OutOfMemory>
    requires { IsControl content }
    ensures { IfOk result (λ done. done ≡ on_content spelled waiting content request) }
{
    match content {
        Content::Promise(held) => on_promise(alloc, waiting, held, request),
        Content::Dataflow {
            code,
            inputs,
            given,
        } => on_dataflow(alloc, waiting, code, inputs, given, request),
        Content::Started { code, inputs } => Ok(on_started(code, inputs, request)),
        Content::Channel { closed, kept } => on_channel(waiting, closed, kept, request),
        Content::Latch(left) => Ok(on_latch(waiting, left, request)),
        Content::Barrier(size) => Ok(on_barrier(waiting, size, request)),
        content => Ok(wrong(content)),
    }
}
