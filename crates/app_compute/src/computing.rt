//! The session, where it computes: numbers, or a ring.
ghost use Rattle.std.specs.Prelude.{◌≡◌, ◌≤◌, IfOk};
ghost use Rattle.app_compute.specs.Computing.{asks_ring, computing_outcome, is_stepping, rings};

use crate::session::session_act;
use crate::shape::shape_of;
use crate::stencil::ring_act;
use hpx_value::memory::OutOfMemory;
use hpx_value::outcome::Outcome;
use hpx_value::value::{Act, State, Value};
use std::alloc::Global;

/// The outcome of an action on the session at so many localities, where it computes. An `Err` is for want of memory, or where
/// a hand has more than 65,535 places or continuations, as none has that is well formed.
pub fn computing_act(
    alloc: Global,
    here: u32,
    localities: u32,
    state: &State,
    action: &Act,
) -> Result<Outcome, OutOfMemory>
    requires some { 1 ≤ localities }
    ensures { IfOk result (λ outcome. outcome ≡ computing_outcome localities state.now action.now) }
{
    if rings(alloc, state, action)? {
        ring_act(alloc, here, localities, state, action)
    } else {
        session_act(alloc, here, state, action)
    }
}

/// Whether a ring is stepped, or asked for.
fn rings(alloc: Global, state: &State, action: &Act) -> Result<bool, OutOfMemory>
    ensures { IfOk result (λ is. is ≡ rings state.now action.now) }
{
    if is_stepping(state.values.as_slice()) {
        return Ok(true);
    }
    asks_ring(alloc, action.args.as_slice())
}

fn is_stepping(values: &[Value]) -> bool
    ensures { result ≡ is_stepping values.now }
{
    matches!(values, [Value::Flag(true), ..])
}

fn asks_ring(alloc: Global, args: &[Value]) -> Result<bool, OutOfMemory>
    ensures { IfOk result (λ is. is ≡ asks_ring args.now) }
{
    match args {
        [Value::Text(text)] => match text.as_slice() {
            [_, line @ ..] => Ok(shape_of(alloc, line)?.is_some()),
            [] => Ok(false),
        },
        _ => Ok(false),
    }
}
