//! The session, where numbers are computed: it asks, and prints the answers.
ghost use Rattle.std.specs.Prelude.{◌≡◌, ◌≤◌, ◌∷◌, [], IfOk};
ghost use Rattle.app_compute.specs.Acts.{refused};
ghost use Rattle.app_compute.specs.Session.{answers, asks, awaited_by, awaited_in, awaited_out, computes, first_call, is_awaiting, is_marked, session_args, session_cont, session_outcome, spoken};
ghost use Rattle.app_compute.specs.Texts.{answer_texts, fault_text, fault_word, fibonacci_text};

use crate::codes::FIB;
use crate::line::{Question, question_of};
use crate::plain::refused;
use hpx_calls::content::one;
use hpx_calls::read::count_in;
use hpx_value::codes::{LINE, PLAIN, SET};
use hpx_value::items::{Items, Text, Texts};
use hpx_value::memory::OutOfMemory;
use hpx_value::outcome::{NewState, Outcome, SendCont, Sending, Sends, Target};
use hpx_value::value::{Act, State, Value, Values};
use std::alloc::Global;

/// A Fibonacci number that is awaited in a slot.
#[derive(Clone, Copy, Debug, PartialEq, Eq)]
pub struct Awaited {
    pub number: u32,
    pub slot: u32,
}

/// What stands before a line of the top call that asks for numbers or a ring.
pub const MARK: u8 = b'c';

const MOST: u32 = 92;

const MOST_DRAWN: u32 = 4_000_000_000;

/// Whether an action on the session is a line that asks for numbers or a ring, or comes while one is awaited.
pub fn computes(state: &State, action: &Act) -> bool
    ensures { result ≡ computes state.now action.now }
{
    is_marked(action.args.as_slice()) || is_awaiting(state.values.as_slice())
}

fn is_marked(args: &[Value]) -> bool
    ensures { result ≡ is_marked args.now }
{
    match args {
        [Value::Text(text)] => match text.as_slice() {
            [mark, ..] => *mark == MARK,
            [] => false,
        },
        _ => false,
    }
}

fn is_awaiting(values: &[Value]) -> bool
    ensures { result ≡ is_awaiting values.now }
{
    matches!(values, [Value::Flag(_), ..])
}

/// The outcome of an action on the session. An `Err` is for want of memory, or where a hand has more than 65,535 places or
/// continuations, as none has that is well formed.
#[tactic(auto, unfolding(crate::specs::Session::session_outcome))]
pub fn session_act(
    alloc: Global,
    here: u32,
    state: &State,
    action: &Act,
) -> Result<Outcome, OutOfMemory>
    ensures { IfOk result (λ outcome. outcome ≡ session_outcome state.now action.now) }
{
    if !state.conts.is_empty() || state.drawn > MOST_DRAWN || action.cont.is_some() {
        return refused(alloc, here, state, action);
    }
    session_args(alloc, here, state, action)
}

/// What an action without a continuation does, where another slot can be drawn.
fn session_args(
    alloc: Global,
    here: u32,
    state: &State,
    action: &Act,
) -> Result<Outcome, OutOfMemory>
    requires { state.now.drawn ≤ 4000000000 }
    ensures { IfOk result (λ outcome. outcome ≡ session_args state.now action.now action.now.args) }
{
    match action.args.as_slice() {
        [Value::Text(text)] => match text.as_slice() {
            [MARK, line @ ..] if action.code == LINE && state.values.is_empty() => {
                asks(alloc, here, state, action, question_of(alloc, line)?)
            }
            _ => refused(alloc, here, state, action),
        },
        [Value::Int(slot), value] if action.code == SET => match u64::try_from(*slot) {
            Ok(slot) => answers(alloc, here, state, action, slot, value),
            Err(_) => refused(alloc, here, state, action),
        },
        _ => refused(alloc, here, state, action),
    }
}

/// A question is sent, and its answer awaited.
fn asks(
    alloc: Global,
    here: u32,
    state: &State,
    action: &Act,
    question: Option<Question>,
) -> Result<Outcome, OutOfMemory>
    requires { state.now.drawn ≤ 4000000000 }
    ensures { IfOk result (λ outcome. outcome ≡ asks state.now action.now question) }
{
    let Some(question) = question else {
        return refused(alloc, here, state, action);
    };
    let awaited = Awaited {
        number: question.number,
        slot: state.drawn,
    };
    let sending = first_call(alloc, question, state.drawn)?;
    Ok(spoken(
        alloc,
        state.drawn + 1,
        awaited_out(alloc, awaited)?,
        one(alloc, sending)?,
        Items::new(alloc),
    ))
}

/// The first action, for the plain object of locality 0.
fn first_call(alloc: Global, question: Question, slot: u32) -> Result<Sending, OutOfMemory>
    ensures { IfOk result (λ sending. sending ≡ first_call question slot) }
{
    let mut args = one(alloc, Value::Int(i64::from(question.number)))?;
    args.push(Value::Int(i64::from(question.threshold)))?;
    Ok(Sending {
        target: Target::Root { kind: PLAIN, at: 0 },
        code: FIB,
        args,
        cont: SendCont::Here { slot },
    })
}

/// The values of a session's state that awaits this.
fn awaited_out(alloc: Global, awaited: Awaited) -> Result<Values, OutOfMemory>
    ensures { IfOk result (λ values. values ≡ awaited_out awaited) }
{
    let mut values = one(alloc, Value::Flag(false))?;
    values.push(Value::Int(i64::from(awaited.number)))?;
    values.push(Value::Int(i64::from(awaited.slot)))?;
    Ok(values)
}

/// What is awaited, as values show it.
fn awaited_in(values: &[Value]) -> Option<Awaited>
    ensures { result ≡ awaited_in values.now }
{
    match values {
        [Value::Flag(false), Value::Int(number), Value::Int(slot)] => {
            awaited_by(count_in(MOST, *number), count_in(u32::MAX, *slot))
        }
        _ => None,
    }
}

fn awaited_by(number: Option<u32>, slot: Option<u32>) -> Option<Awaited>
    ensures { result ≡ awaited_by number slot }
{
    match (number, slot) {
        (Some(number), Some(slot)) => Some(Awaited { number, slot }),
        _ => None,
    }
}

/// The answer that is awaited in a slot is printed.
fn answers(
    alloc: Global,
    here: u32,
    state: &State,
    action: &Act,
    slot: u64,
    value: &Value,
) -> Result<Outcome, OutOfMemory>
    ensures { IfOk result (λ outcome. outcome ≡ answers state.now action.now slot value.now (awaited_in state.now.values)) }
{
    match awaited_in(state.values.as_slice()) {
        Some(awaited) if slot == u64::from(awaited.slot) => {
            let texts = answer_texts(alloc, awaited.number, value)?;
            Ok(spoken(
                alloc,
                state.drawn,
                Items::new(alloc),
                Items::new(alloc),
                texts,
            ))
        }
        _ => refused(alloc, here, state, action),
    }
}

/// What is printed for an answer.
fn answer_texts(alloc: Global, number: u32, value: &Value) -> Result<Texts, OutOfMemory>
    ensures { IfOk result (λ texts. texts ≡ answer_texts number value.now) }
{
    match value {
        Value::Int(value) => one(alloc, fibonacci_text(alloc, number, *value)?),
        Value::Fault(code) => one(alloc, fault_text(alloc, *code)?),
        _ => Ok(Items::new(alloc)),
    }
}

/// The line of a Fibonacci number.
fn fibonacci_text(alloc: Global, number: u32, value: i64) -> Result<Text, OutOfMemory>
    ensures { IfOk result (λ text. text ≡ fibonacci_text number value) }
{
    Ok(Items::from_vec(format!(in alloc; "fibonacci({number}) == {value}\n")?.into_bytes()))
}

/// The line of a fault.
pub(crate) fn fault_text(alloc: Global, code: u8) -> Result<Text, OutOfMemory>
    ensures { IfOk result (λ text. text ≡ fault_text code) }
{
    let word = fault_word(code);
    Ok(Items::from_vec(format!(in alloc; "error: {word}\n")?.into_bytes()))
}

fn fault_word(code: u8) -> &'static str
    ensures { result.now ≡ fault_word code }
{
    match code {
        1 => "overflow",
        2 => "taken",
        3 => "no such name",
        4 => "no such kind",
        5 => "credit limit",
        6 => "already set",
        7 => "no such slot",
        8 => "closed",
        9 => "spent",
        10 => "full",
        11 => "wrong kind",
        _ => "",
    }
}

/// What the session keeps then, and what it sends and prints.
pub(crate) fn spoken(
    alloc: Global,
    drawn: u32,
    values: Values,
    sends: Sends,
    prints: Texts,
) -> Outcome
    ensures { result ≡ spoken drawn values sends prints }
{
    Outcome {
        state: NewState {
            drawn,
            values,
            conts: Items::new(alloc),
        },
        makes: Items::new(alloc),
        sends,
        replies: Items::new(alloc),
        prints,
    }
}
