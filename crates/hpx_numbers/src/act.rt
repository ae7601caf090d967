//! What actions on accumulators and partitions do.
ghost use Rattle.std.specs.Prelude.{◌≡◌, ◌≤◌, ℕ, IfOk};
ghost use Rattle.hpx_calls.specs.Values.{spelled};
ghost use Rattle.hpx_calls.specs.Outcomes.{content_in, outcome_of};
ghost use Rattle.hpx_calls.specs.Tables.{called, on_content};
ghost use Rattle.hpx_numbers.specs.Sort.{IsNumeral};

use crate::number::on_number;
use crate::row::on_row;
use hpx_calls::answer::{awaits, leaves, moves, place, wrong};
use hpx_calls::content::Content;
use hpx_calls::effect::{Called, Effect};
use hpx_calls::read::content_in;
use hpx_calls::request::{Request, request_in};
use hpx_value::memory::OutOfMemory;
use hpx_value::outcome::Outcome;
use hpx_value::value::{Act, State, Value};
use std::alloc::Global;

/// The outcome of an action on an accumulator or a partition, which are kinds from 16 to 31, at any number of localities.
/// An `Err` is for want of memory, or where a hand has more than 65,535 places or continuations, as none has that is well
/// formed.
pub fn number_act(
    alloc: Global,
    kind: u32,
    here: u32,
    state: &State,
    action: &Act,
) -> Result<Outcome, OutOfMemory>
    requires low { 16 ≤ kind }
    requires high { kind ≤ 31 }
    ensures { IfOk result (λ outcome. (n : ℕ) → outcome ≡ outcome_of n kind here state.now action.now) }
{
    let content = number_content_in(alloc, kind, state)?;
    let request = request_in(alloc, state, action)?;
    let waiting = state.conts.len();
    let waits = action.cont.is_some();
    let called = called(alloc, here, kind, waiting, waits, content, request)?;
    called.outcome(alloc, here, state, action)
}

/// What a state shows, whatever the number of localities.
fn number_content_in(alloc: Global, kind: u32, state: &State) -> Result<Content<Value>, OutOfMemory>
    requires low { 16 ≤ kind }
    requires high { kind ≤ 31 }
    ensures content { IfOk result (λ content. (n : ℕ) → content ≡ content_in n kind state.now) }
    ensures numeral { IfOk result IsNumeral }
{
    content_in(alloc, 1, kind, state)
}

/// What a call does, where the caller waits for an answer or not.
fn called(
    alloc: Global,
    here: u32,
    kind: u32,
    waiting: usize,
    waits: bool,
    content: Content<Value>,
    request: Request<Value>,
) -> Result<Called<Value>, OutOfMemory>
    requires { IsNumeral content }
    ensures { IfOk result (λ done. done ≡ called spelled here kind waiting waits content request) }
{
    if !waits && awaits(&request) {
        return Ok(leaves(content, Effect::Silent));
    }
    match request {
        Request::Where => Ok(place(here, kind, content)),
        Request::Move(to) => Ok(moves(kind, content, to)),
        request => on_content(alloc, waiting, content, request),
    }
}

/// What is asked of a content, where it does not matter how many wait.
fn on_content(
    alloc: Global,
    waiting: usize,
    content: Content<Value>,
    request: Request<Value>,
) -> Result<Called<Value>, OutOfMemory>
    requires { IsNumeral content }
    ensures { IfOk result (λ done. done ≡ on_content spelled waiting content request) }
{
    let _ = waiting;
    match content {
        Content::Number(number) => Ok(on_number(number, request)),
        Content::Row(numbers) => on_row(alloc, numbers, request),
        content => Ok(wrong(content)),
    }
}
