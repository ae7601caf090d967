//! Outcomes that keep the state as it was, and answer.
ghost use Rattle.std.specs.Prelude.{◌≡◌, IfOk, ◌∷◌, [], length};
ghost use Rattle.hpx_value.specs.Kept.{answers, kept, stays};

use hpx_calls::content::one;
use hpx_value::codes::NO_ACTION;
use hpx_value::exact::Exact;
use hpx_value::items::Items;
use hpx_value::memory::OutOfMemory;
use hpx_value::outcome::{NewState, Outcome, Replies, Reply};
use hpx_value::value::{Act, State, Value};
use std::alloc::Global;

/// An action that is not listed: the state stays, and a fault is answered.
pub fn refused(alloc: Global, state: &State, action: &Act) -> Result<Outcome, OutOfMemory>
    ensures { IfOk result (λ outcome. outcome ≡ stays state.now action.now (Value.Fault 11)) }
{
    Ok(Outcome {
        state: kept(alloc, state)?,
        makes: Items::new(alloc),
        sends: Items::new(alloc),
        replies: answers(alloc, state, action, Value::Fault(NO_ACTION))?,
        prints: Items::new(alloc),
    })
}

/// How many continuations a state keeps. No outcome can number more than 65,535.
fn cont_count(state: &State) -> Result<u16, OutOfMemory>
    ensures { IfOk result (λ count. count ≡ length state.now.conts) }
{
    match u16::try_from(state.conts.len()) {
        Ok(count) => Ok(count),
        Err(_) => Err(OutOfMemory),
    }
}

/// The state as it was.
fn kept(alloc: Global, state: &State) -> Result<NewState, OutOfMemory>
    ensures { IfOk result (λ new. new ≡ kept state.now) }
{
    let mut conts = Items::new(alloc);
    for number in 0..cont_count(state)? {
        conts.push(u32::from(number))?;
    }
    Ok(NewState {
        drawn: state.drawn,
        values: state.values.duplicate(alloc)?,
        conts,
    })
}

/// The answer to the action's own continuation, if it has one.
fn answers(alloc: Global, state: &State, action: &Act, value: Value) -> Result<Replies, OutOfMemory>
    ensures { IfOk result (λ replies. replies ≡ answers state.now action.now.cont value) }
{
    if action.cont.is_none() {
        return Ok(Items::new(alloc));
    }
    let cont = cont_count(state)?;
    one(alloc, Reply { cont, value })
}
