//! Acts that keep the laws of actions: a session that has a number made, adds to it, asks for it, moves it and drops it.
ghost use Rattle.std.specs.Prelude.{◌≡◌, ◌<◌, ◌∷◌, [], ℕ, IfOk};
ghost use Rattle.hpx_trial.specs.Trial.{said, told, one_send, first_line, later_line, line_outcome, byte_in, number_text, set_outcome, session_outcome, made_outcome, add_outcome, query_outcome, free_outcome, some_outcome, is_number};

use crate::still::{one, stays};
use hpx_value::acts::Acts;
use hpx_value::codes::{ADD, COMPONENTS, LINE, QUERY, SESSION, SET};
use hpx_value::gid::Gid;
use hpx_value::items::{Items, Numbers, Texts};
use hpx_value::memory::OutOfMemory;
use hpx_value::outcome::{Make, Makes, NewState, Outcome, Reply, SendCont, Sending, Sends, Target};
use hpx_value::value::{Act, State, Value, Values};
use std::alloc::Global;

/// The code that asks for a number to be made.
const NEW: u16 = 5;

/// The kind of a number.
const NUMBER: u32 = 16;

/// How many slots the session draws at most.
const MOST_SLOTS: u32 = 100;

/// Acts of two localities.
#[derive(Clone, Copy)]
pub struct Trial;

/// The session keeps values, sends, and prints.
fn said(alloc: Global, drawn: u32, values: Values, sends: Sends, prints: Texts) -> Outcome
    ensures { result ≡ said drawn values sends prints }
{
    Outcome {
        state: NewState {
            drawn,
            values,
            conts: Numbers::new(alloc),
        },
        makes: Items::new(alloc),
        sends,
        replies: Items::new(alloc),
        prints,
    }
}

/// The session keeps values, and sends.
fn sent(alloc: Global, drawn: u32, values: Values, sends: Sends) -> Option<Outcome>
    ensures { result ≡ Some (said drawn values sends []) }
{
    Some(said(alloc, drawn, values, sends, Items::new(alloc)))
}

/// An object keeps values, makes, and answers.
fn told(
    alloc: Global,
    drawn: u32,
    values: Values,
    makes: Makes,
    value: Value,
) -> Result<Outcome, OutOfMemory>
    ensures { IfOk result (λ out. out ≡ told drawn values makes value) }
{
    Ok(Outcome {
        state: NewState {
            drawn,
            values,
            conts: Numbers::new(alloc),
        },
        makes,
        sends: Items::new(alloc),
        replies: one(alloc, Reply { cont: 0, value })?,
        prints: Items::new(alloc),
    })
}

/// One message.
fn send(
    alloc: Global,
    target: Target,
    code: u16,
    args: Values,
    cont: SendCont,
) -> Result<Sends, OutOfMemory>
    ensures { IfOk result (λ out. out ≡ one_send target code args cont) }
{
    one(
        alloc,
        Sending {
            target,
            code,
            args,
            cont,
        },
    )
}

/// A line where the session keeps nothing.
fn first_line(alloc: Global, drawn: u32, byte: u8) -> Result<Option<Outcome>, OutOfMemory>
    requires { drawn < 100 }
    ensures { IfOk result (λ out. out ≡ first_line 2 drawn byte) }
{
    if byte != b'n' {
        return Ok(None);
    }
    let target = Target::Root {
        kind: COMPONENTS,
        at: 1,
    };
    let none = Items::new(alloc);
    let sends = send(alloc, target, NEW, none, SendCont::Here { slot: drawn })?;
    Ok(sent(alloc, drawn + 1, Items::new(alloc), sends))
}

/// A line where the session keeps one id.
fn later_line(
    alloc: Global,
    drawn: u32,
    movable: bool,
    byte: u8,
) -> Result<Option<Outcome>, OutOfMemory>
    requires { drawn < 100 }
    ensures { IfOk result (λ out. out ≡ later_line drawn movable byte) }
{
    let target = Target::Place(0);
    if byte == b'a' {
        let args = one(alloc, Value::Int(5))?;
        let sends = send(alloc, target, ADD, args, SendCont::Here { slot: drawn })?;
        Ok(sent(alloc, drawn + 1, one(alloc, Value::Ref(0))?, sends))
    } else if byte == b'q' {
        let args = Items::new(alloc);
        let sends = send(alloc, target, QUERY, args, SendCont::Here { slot: drawn })?;
        Ok(sent(alloc, drawn + 1, one(alloc, Value::Ref(0))?, sends))
    } else if byte == b'm' && movable {
        let args = one(alloc, Value::Int(0))?;
        let sends = send(alloc, target, 1, args, SendCont::Nothing)?;
        Ok(sent(alloc, drawn, one(alloc, Value::Ref(0))?, sends))
    } else if byte == b'd' {
        Ok(sent(alloc, drawn, Items::new(alloc), Items::new(alloc)))
    } else {
        Ok(None)
    }
}

/// A line, by what the session keeps.
fn line(
    alloc: Global,
    drawn: u32,
    movable: bool,
    values: &[Value],
    byte: u8,
) -> Result<Option<Outcome>, OutOfMemory>
    requires { drawn < 100 }
    ensures { IfOk result (λ out. out ≡ line_outcome 2 drawn movable values.now byte) }
{
    match values {
        [] => first_line(alloc, drawn, byte),
        [Value::Ref(_)] => later_line(alloc, drawn, movable, byte),
        _ => Ok(None),
    }
}

/// The byte of a line of one byte; 0 for any other.
fn byte_in(args: &[Value]) -> u8
    ensures { result ≡ byte_in args.now }
{
    let [Value::Text(text)] = args else {
        return 0;
    };
    match text.as_slice() {
        [byte] => *byte,
        _ => 0,
    }
}

/// A number in digits, as a text alone.
fn shown(alloc: Global, number: i64) -> Result<Texts, OutOfMemory>
    ensures { IfOk result (λ texts. texts ≡ number_text number ∷ []) }
{
    let text = format!(in alloc; "{number}\n")?.into_bytes();
    one(alloc, Items::from_vec(text))
}

/// An answer that is an id is kept, where nothing is; one that is a number is printed, where an id is kept.
fn set(
    alloc: Global,
    drawn: u32,
    values: &[Value],
    args: &[Value],
) -> Result<Option<Outcome>, OutOfMemory>
    ensures { IfOk result (λ out. out ≡ set_outcome drawn values.now args.now) }
{
    match (values, args) {
        ([], [Value::Int(_), Value::Ref(_)]) => {
            let kept = one(alloc, Value::Ref(1))?;
            Ok(sent(alloc, drawn, kept, Items::new(alloc)))
        }
        ([Value::Ref(_)], [Value::Int(_), Value::Int(number)]) => {
            let kept = one(alloc, Value::Ref(0))?;
            let prints = shown(alloc, *number)?;
            Ok(Some(said(alloc, drawn, kept, Items::new(alloc), prints)))
        }
        _ => Ok(None),
    }
}

/// What the session does.
fn session(
    alloc: Global,
    movable: bool,
    state: &State,
    action: &Act,
) -> Result<Option<Outcome>, OutOfMemory>
    requires { state.now.drawn < 100 }
    ensures { IfOk result (λ out. out ≡ session_outcome 2 movable state.now action.now) }
{
    let values = state.values.as_slice();
    let args = action.args.as_slice();
    match action.code {
        LINE => line(alloc, state.drawn, movable, values, byte_in(args)),
        SET => set(alloc, state.drawn, values, args),
        _ => Ok(None),
    }
}

/// A number is made.
fn made(
    alloc: Global,
    drawn: u32,
    values: &[Value],
    args: &[Value],
) -> Result<Option<Outcome>, OutOfMemory>
    ensures { IfOk result (λ out. out ≡ made_outcome drawn values.now args.now) }
{
    if !values.is_empty() || !args.is_empty() {
        return Ok(None);
    }
    let make = Make {
        kind: NUMBER,
        values: one(alloc, Value::Int(0))?,
    };
    let makes = one(alloc, make)?;
    Ok(Some(told(alloc, drawn, Items::new(alloc), makes, Value::Ref(2))?))
}

/// A number is added to a number, in 64 bits.
fn add(
    alloc: Global,
    drawn: u32,
    values: &[Value],
    args: &[Value],
) -> Result<Option<Outcome>, OutOfMemory>
    ensures { IfOk result (λ out. out ≡ add_outcome drawn values.now args.now) }
{
    match (values, args) {
        ([Value::Int(held)], [Value::Int(more)]) => {
            let kept = one(alloc, Value::Int(held.wrapping_add(*more)))?;
            Ok(Some(told(alloc, drawn, kept, Items::new(alloc), Value::Unit)?))
        }
        _ => Ok(None),
    }
}

/// A number is answered.
fn query(
    alloc: Global,
    drawn: u32,
    values: &[Value],
    args: &[Value],
) -> Result<Option<Outcome>, OutOfMemory>
    ensures { IfOk result (λ out. out ≡ query_outcome drawn values.now args.now) }
{
    match (values, args) {
        ([Value::Int(held)], []) => {
            let kept = one(alloc, Value::Int(*held))?;
            Ok(Some(told(alloc, drawn, kept, Items::new(alloc), Value::Int(*held))?))
        }
        _ => Ok(None),
    }
}

/// What is done where the state keeps no continuation.
fn free(
    alloc: Global,
    movable: bool,
    kind: u32,
    state: &State,
    action: &Act,
) -> Result<Option<Outcome>, OutOfMemory>
    ensures { IfOk result (λ out. out ≡ free_outcome 2 movable kind state.now action.now action.now.cont) }
{
    let values = state.values.as_slice();
    let args = action.args.as_slice();
    if action.cont.is_none() {
        if kind != SESSION || state.drawn >= MOST_SLOTS {
            return Ok(None);
        }
        return session(alloc, movable, state, action);
    }
    if kind == COMPONENTS && action.code == NEW {
        made(alloc, state.drawn, values, args)
    } else if kind == NUMBER && action.code == ADD {
        add(alloc, state.drawn, values, args)
    } else if kind == NUMBER && action.code == QUERY {
        query(alloc, state.drawn, values, args)
    } else {
        Ok(None)
    }
}

/// Whether the one id is that of a number.
fn is_number(ids: &[Gid]) -> bool
    ensures { result ≡ is_number ids.now }
{
    match ids {
        [id] => id.kind() == NUMBER,
        _ => false,
    }
}

/// What is done, if anything but an answer.
fn some(
    alloc: Global,
    kind: u32,
    state: &State,
    action: &Act,
) -> Result<Option<Outcome>, OutOfMemory>
    ensures { IfOk result (λ out. out ≡ some_outcome 2 (is_number state.now.ids) kind state.now action.now state.now.conts) }
{
    if !state.conts.is_empty() {
        return Ok(None);
    }
    free(alloc, is_number(state.ids.as_slice()), kind, state, action)
}

impl Acts for Trial {
    ghost use Rattle.hpx_trial.specs.Trial.{trial};
    ghost use Rattle.hpx_trial.specs.TrialLaws.{trial_keeps, trial_blind};

    ghost count = { λ _. 2 };

    ghost act_of = { trial };

    fn localities(&self) -> u32 {
        2
    }

    fn act(
        &self,
        alloc: Global,
        kind: u32,
        here: u32,
        state: &State,
        action: &Act,
    ) -> Result<Outcome, OutOfMemory> {
        match some(alloc, kind, state, action)? {
            Some(outcome) => Ok(outcome),
            None => stays(alloc, here, state, action),
        }
    }

    ghost keeps_laws = { trial_keeps };

    ghost is_blind = { trial_blind };
}
