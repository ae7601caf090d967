//! Acts that keep the laws of actions: every state stays, and the place is answered.
ghost use Rattle.std.specs.Prelude.{◌≡◌, ◌∷◌, [], pos, length, IfOk};
ghost use Rattle.hpx_value.specs.Kept.{kept, answers, stays};
ghost use Rattle.hpx_trial.specs.Data.{Int};

use hpx_value::acts::Acts;
use hpx_value::exact::Exact;
use hpx_value::items::Items;
use hpx_value::memory::OutOfMemory;
use hpx_value::outcome::{NewState, Outcome, Replies, Reply};
use hpx_value::value::{Act, State, Value};
use std::alloc::Global;

/// Acts of two localities.
#[derive(Clone, Copy)]
pub struct Still;

/// A list of one.
pub(crate) fn one<T: Drop>(alloc: Global, item: T) -> Result<Items<T>, OutOfMemory>
    ensures { IfOk result (λ out. out ≡ item ∷ []) }
{
    let mut out = Items::new(alloc);
    out.push(item)?;
    Ok(out)
}

/// How many continuations a state keeps. No outcome can number more than 65,535.
fn cont_count(state: &State) -> Result<u16, OutOfMemory>
    ensures { IfOk result (λ count. count ≡ length state.now.conts) }
{
    match u16::try_from(state.conts.len()) {
        Ok(count) => Ok(count),
        Err(_) => Err(OutOfMemory),
    }
}

/// The state as it was.
fn kept(alloc: Global, state: &State) -> Result<NewState, OutOfMemory>
    ensures { IfOk result (λ new. new ≡ kept state.now) }
{
    let mut conts = Items::new(alloc);
    for number in 0..cont_count(state)? {
        conts.push(u32::from(number))?;
    }
    Ok(NewState {
        drawn: state.drawn,
        values: state.values.duplicate(alloc)?,
        conts,
    })
}

/// The place, to the action's own continuation, if it has one.
fn answers(alloc: Global, here: u32, state: &State, action: &Act) -> Result<Replies, OutOfMemory>
    ensures { IfOk result (λ replies. replies ≡ answers state.now action.now.cont (Int (pos here))) }
{
    if action.cont.is_none() {
        return Ok(Items::new(alloc));
    }
    let cont = cont_count(state)?;
    let value = Value::Int(i64::from(here));
    one(alloc, Reply { cont, value })
}

/// The state stays, and the place is answered.
pub(crate) fn stays(
    alloc: Global,
    here: u32,
    state: &State,
    action: &Act,
) -> Result<Outcome, OutOfMemory>
    ensures { IfOk result (λ out. out ≡ stays state.now action.now (Int (pos here))) }
{
    Ok(Outcome {
        state: kept(alloc, state)?,
        makes: Items::new(alloc),
        sends: Items::new(alloc),
        replies: answers(alloc, here, state, action)?,
        prints: Items::new(alloc),
    })
}

impl Acts for Still {
    ghost use Rattle.hpx_trial.specs.Still.{still, still_keeps, still_blind};

    ghost count = { λ _. 2 };

    ghost act_of = { still };

    fn localities(&self) -> u32 {
        2
    }

    fn act(
        &self,
        alloc: Global,
        _kind: u32,
        here: u32,
        state: &State,
        action: &Act,
    ) -> Result<Outcome, OutOfMemory> {
        stays(alloc, here, state, action)
    }

    ghost keeps_laws = { still_keeps };

    ghost is_blind = { still_blind };
}
