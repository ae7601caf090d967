//! Plain objects: Fibonacci numbers, by tasks that make tasks, and sums.
ghost use Rattle.std.specs.Prelude.{◌≡◌, ◌≤◌, ◌<◌, ◌∷◌, ◌+◌, [], IfOk, IfSome, Some, pos, length};
ghost use Rattle.hpx_value.specs.Kept.{stays};
ghost use Rattle.app_compute.specs.Acts.{fib_call, fib_outcome, get_call, handed, plain_outcome, refused, splits, sum_of, sum_of_two};
ghost use Rattle.app_compute.specs.Numbers.{fibonacci, is_direct};
ghost use Rattle.hpx_calls.specs.Contents.{count_in};

use crate::codes::{FIB, SUM};
use hpx_calls::codes::{DATAFLOW, GET};
use hpx_calls::content::{Content, one};
use hpx_calls::effect::{Called, Effect};
use hpx_calls::read::count_in;
use hpx_value::codes::{NO_ACTION, OVERFLOW, PLAIN};
use hpx_value::exact::Exact;
use hpx_value::items::Items;
use hpx_value::memory::OutOfMemory;
use hpx_value::outcome::{Make, NewState, Outcome, SendCont, Sending, Sends, Target};
use hpx_value::value::{Act, Cont, State, Value};
use std::alloc::Global;

/// The greatest number whose Fibonacci number has 63 bits.
const MOST: u32 = 92;

/// The least threshold.
const LEAST: u32 = 2;

/// The outcome of an action on the plain object of a locality.
#[tactic(auto, using(crate::proofs::Small::count_below), unfolding(crate::specs::Acts::plain_outcome))]
pub fn plain_act(
    alloc: Global,
    here: u32,
    localities: u32,
    state: &State,
    action: &Act,
) -> Result<Outcome, OutOfMemory>
    requires { here < localities }
    ensures { IfOk result (λ outcome. outcome ≡ plain_outcome localities here state.now action.now) }
{
    if !state.values.is_empty() || !state.conts.is_empty() {
        return refused(alloc, here, state, action);
    }
    match action.args.as_slice() {
        [Value::Int(first), Value::Int(second)] => match action.code {
            FIB => {
                let (number, threshold) = (count_in(MOST, *first), count_in(MOST, *second));
                fib(alloc, here, localities, state, action, number, threshold)
            }
            SUM => answered(alloc, here, state, action, sum_of(*first, *second)),
            _ => refused(alloc, here, state, action),
        },
        _ => refused(alloc, here, state, action),
    }
}

/// A sum that fits, or a fault.
fn sum_of(first: i64, second: i64) -> Value
    ensures { result ≡ sum_of first second }
{
    match first.checked_add(second) {
        Some(sum) => Value::Int(sum),
        None => Value::Fault(OVERFLOW),
    }
}

/// What FIB does with these arguments, of numbers up to 92.
fn fib(
    alloc: Global,
    here: u32,
    localities: u32,
    state: &State,
    action: &Act,
    number: Option<u32>,
    threshold: Option<u32>,
) -> Result<Outcome, OutOfMemory>
    requires place { here < localities }
    requires number { IfSome number (λ n. n ≤ 92) }
    ensures { IfOk result (λ outcome. outcome ≡ fib_outcome localities here state.now action.now number threshold) }
{
    match (number, threshold) {
        (Some(number), Some(threshold)) if LEAST <= threshold => {
            if number < threshold || number < 2 {
                let value = Value::Int(fibonacci(number));
                answered(alloc, here, state, action, value)
            } else {
                splits(alloc, here, localities, state, action, threshold, number)
            }
        }
        _ => refused(alloc, here, state, action),
    }
}

/// The number, in one loop.
#[tactic(auto, using(crate::proofs::Small::fibonacci_next, crate::proofs::Small::fibonacci_small, crate::proofs::Small::fibonacci_wide))]
fn fibonacci(number: u32) -> i64
    requires { number ≤ 92 }
    ensures { result ≡ pos (fibonacci number) }
{
    let mut this: u64 = 0;
    let mut next: u64 = 1;
    for _ in 0..number {
        let sum = this + next;
        this = next;
        next = sum;
    }
    this as i64
}

/// Two numbers are computed by further actions, and a third adds them.
fn splits(
    alloc: Global,
    here: u32,
    localities: u32,
    state: &State,
    action: &Act,
    threshold: u32,
    number: u32,
) -> Result<Outcome, OutOfMemory>
    requires place { here < localities }
    requires some { 2 ≤ number }
    ensures { IfOk result (λ outcome. outcome ≡ splits localities here state.now action.now threshold number) }
{
    let mut values = one(alloc, Value::Int(i64::from(SUM)))?;
    values.push(Value::Int(2))?;
    let make = Make {
        kind: DATAFLOW,
        values,
    };
    let next = (here + 1) % localities;
    let mut sends = one(alloc, fib_call(alloc, threshold, number - 1, next, 0)?)?;
    sends.push(fib_call(alloc, threshold, number - 2, here, 1)?)?;
    sends.push(get_call(alloc, state, action)?)?;
    Ok(Outcome {
        state: NewState {
            drawn: state.drawn,
            values: Items::new(alloc),
            conts: Items::new(alloc),
        },
        makes: one(alloc, make)?,
        sends,
        replies: Items::new(alloc),
        prints: Items::new(alloc),
    })
}

/// A number is asked for, as an input of the dataflow.
fn fib_call(
    alloc: Global,
    threshold: u32,
    number: u32,
    at: u32,
    slot: u32,
) -> Result<Sending, OutOfMemory>
    ensures { IfOk result (λ sending. sending ≡ fib_call threshold number at slot) }
{
    let mut args = one(alloc, Value::Int(i64::from(number)))?;
    args.push(Value::Int(i64::from(threshold)))?;
    Ok(Sending {
        target: Target::Root { kind: PLAIN, at },
        code: FIB,
        args,
        cont: SendCont::Made { make: 0, slot },
    })
}

/// The dataflow is asked, and answers in place of the action.
fn get_call(alloc: Global, state: &State, action: &Act) -> Result<Sending, OutOfMemory>
    ensures { IfOk result (λ sending. sending ≡ get_call (length state.now.ids + length action.now.ids) (handed action.now.cont)) }
{
    let (Ok(before), Ok(own)) = (
        u16::try_from(state.ids.len()),
        u16::try_from(action.ids.len()),
    ) else {
        return Err(OutOfMemory);
    };
    let Some(place) = before.checked_add(own) else {
        return Err(OutOfMemory);
    };
    Ok(Sending {
        target: Target::Place(place),
        code: GET,
        args: Items::new(alloc),
        cont: handed(&action.cont),
    })
}

/// The continuation of the action, handed on.
fn handed(cont: &Option<Cont>) -> SendCont
    ensures { result ≡ handed cont.now }
{
    match cont {
        Some(_) => SendCont::Own(0),
        None => SendCont::Nothing,
    }
}

/// The action is not listed.
pub(crate) fn refused(
    alloc: Global,
    here: u32,
    state: &State,
    action: &Act,
) -> Result<Outcome, OutOfMemory>
    ensures { IfOk result (λ outcome. outcome ≡ refused state.now action.now) }
{
    answered(alloc, here, state, action, Value::Fault(NO_ACTION))
}

/// The state stays, and the action is answered.
#[tactic(auto, using(crate::proofs::Answers::stays_as))]
fn answered(
    alloc: Global,
    here: u32,
    state: &State,
    action: &Act,
    value: Value,
) -> Result<Outcome, OutOfMemory>
    ensures { IfOk result (λ outcome. outcome ≡ stays state.now action.now value) }
{
    let called = Called {
        content: Content::Unreadable(state.values.duplicate(alloc)?),
        effect: Effect::Answers(value),
    };
    called.outcome(alloc, here, state, action)
}
