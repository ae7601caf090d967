//! What calls leave, in the words of the tables.
ghost use Rattle.std.specs.Prelude.{◌≡◌, nat_le, pos, if◌then◌else◌};
ghost use Rattle.hpx_calls.specs.Values.{spelled};
ghost use Rattle.hpx_calls.specs.Tables.{awaits, does, is_movable, leaves, refuses, waits, wrong};

use crate::codes::FULL;
use crate::content::Content;
use crate::effect::{Called, Effect};
use crate::request::Request;
use hpx_value::codes::{FIRST_MANAGED, NO_ACTION};
use hpx_value::value::Value;

const FIRST_CONTROL: u32 = 32;

/// The content afterwards, and what is done.
pub fn leaves(content: Content<Value>, effect: Effect<Value>) -> Called<Value>
    ensures { result ≡ leaves content effect }
{
    Called { content, effect }
}

/// Nothing changes, and a fault is the answer.
pub fn refuses(content: Content<Value>, code: u8) -> Called<Value>
    ensures { result ≡ refuses spelled content code }
{
    leaves(content, Effect::Answers(Value::Fault(code)))
}

/// The call is not listed.
pub fn wrong(content: Content<Value>) -> Called<Value>
    ensures { result ≡ wrong spelled content }
{
    refuses(content, NO_ACTION)
}

/// The call is answered Unit.
pub fn does(content: Content<Value>) -> Called<Value>
    ensures { result ≡ does spelled content }
{
    leaves(content, Effect::Answers(Value::Unit))
}

/// The call waits, unless so many wait already.
pub fn waits(content: Content<Value>, most: usize, waiting: usize) -> Called<Value>
    ensures { result ≡ waits spelled content most waiting }
{
    if waiting == most {
        refuses(content, FULL)
    } else {
        leaves(content, Effect::Waits)
    }
}

/// What WHERE does to an object of a kind.
pub fn place(here: u32, kind: u32, content: Content<Value>) -> Called<Value>
    ensures { result ≡ (if nat_le 16 kind then leaves content (Effect.Answers (Value.Int (pos here))) else wrong spelled content) }
{
    if FIRST_MANAGED <= kind {
        leaves(content, Effect::Answers(Value::Int(i64::from(here))))
    } else {
        wrong(content)
    }
}

/// What MOVE does to an object of a kind.
pub fn moves(kind: u32, content: Content<Value>, to: u32) -> Called<Value>
    ensures { result ≡ (if is_movable kind then leaves content (Effect.Moves to) else wrong spelled content) }
{
    if FIRST_MANAGED <= kind && kind < FIRST_CONTROL {
        leaves(content, Effect::Moves(to))
    } else {
        wrong(content)
    }
}

/// Whether a call is for an answer to come.
pub fn awaits(request: &Request<Value>) -> bool
    ensures { result ≡ awaits request.now }
{
    match request {
        Request::Get => true,
        Request::Wait => true,
        Request::Arrive => true,
        _ => false,
    }
}
