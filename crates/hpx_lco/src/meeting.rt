//! Latches and barriers: all that wait go on at once.
ghost use Rattle.std.specs.Prelude.{◌≡◌};
ghost use Rattle.hpx_calls.specs.Values.{spelled};
ghost use Rattle.hpx_calls.specs.Tables.{downs, on_barrier, on_latch};

use hpx_calls::answer::{does, leaves, refuses, waits, wrong};
use hpx_calls::codes::SPENT;
use hpx_calls::content::Content;
use hpx_calls::effect::{Called, Effect};
use hpx_calls::request::Request;
use hpx_value::value::Value;

const MOST_WAITING: usize = 100;

/// What is asked of a latch.
pub fn on_latch(waiting: usize, left: u32, request: Request<Value>) -> Called<Value>
    ensures { result ≡ on_latch spelled waiting left request }
{
    match request {
        Request::Down => downs(waiting, left),
        Request::Wait => {
            if left == 0 {
                does(Content::Latch(left))
            } else {
                waits(Content::Latch(left), MOST_WAITING, waiting)
            }
        }
        _ => wrong(Content::Latch(left)),
    }
}

/// One less is left; the last one frees all that wait.
fn downs(waiting: usize, left: u32) -> Called<Value>
    ensures { result ≡ downs spelled waiting left }
{
    match left {
        0 => refuses(Content::Latch(left), SPENT),
        1 => leaves(Content::Latch(0), frees_all(waiting)),
        _ => does(Content::Latch(left - 1)),
    }
}

/// What is asked of a barrier.
pub fn on_barrier(waiting: usize, size: u32, request: Request<Value>) -> Called<Value>
    ensures { result ≡ on_barrier spelled waiting size request }
{
    match request {
        Request::Arrive => {
            if size > 0 && waiting == size as usize - 1 {
                leaves(Content::Barrier(size), frees_all(waiting))
            } else {
                leaves(Content::Barrier(size), Effect::Waits)
            }
        }
        _ => wrong(Content::Barrier(size)),
    }
}

/// All that wait are answered Unit, and so is the call.
fn frees_all(waiting: usize) -> Effect<Value>
    ensures { result ≡ Effect.Frees waiting Value.Unit Value.Unit }
{
    Effect::Frees {
        count: waiting,
        value: Value::Unit,
        own: Value::Unit,
    }
}
