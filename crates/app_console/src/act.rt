//! The acts of the consoles: lines, the answers to what they asked, and what an accumulator does.
ghost use Rattle.std.specs.Prelude.{◌≡◌, ◌≤◌, ◌<◌, ◌⊎◌, ◌+◌, ◌∷◌, [], Some, IfOk, map, length};
ghost use Rattle.hpx_calls.specs.Values.{spelled};
ghost use Rattle.app_console.specs.Desks.{desk_out, held_at};
ghost use Rattle.app_console.specs.Session.{session_outcome, session_by, line_of, taken, planned, call_to, target_of, given, spoken, console_of, act_of};

use crate::desk::{Desk, Naming};
use crate::keep::{answered, awaiting, take_awaited, values_of, without};
use crate::line::{place_of, plan_of, seek};
use crate::lines::{ACCUMULATOR, SPACE};
use crate::plan::{Argument, Goal, Plan};
use crate::read::desk_at;
use crate::say::{answer_text, help, printed, refusal_text};
use crate::stay::refused;
use crate::table::Console;
use hpx_calls::content::one;
use hpx_numbers::act::number_act;
use hpx_value::codes::{LINE, SESSION, SET};
use hpx_value::exact::Exact;
use hpx_value::items::{Items, Texts};
use hpx_value::memory::OutOfMemory;
use hpx_value::outcome::{NewState, Outcome, SendCont, Sending, Sends, Target};
use hpx_value::value::{Act, State, Value, Values};
use std::alloc::Global;

/// The kind of accumulators.
pub const ACCUMULATOR_KIND: u32 = 16;

/// The outcome of an action on a session, of kind 1, or on an accumulator, of kind 16. An `Err` is for want of memory, or
/// where a hand has more than 65,535 places or continuations, as none has that is well formed.
#[tactic(auto, unfolding(crate::specs::Session::act_of))]
pub fn console_act(
    alloc: Global,
    kind: u32,
    here: u32,
    localities: u32,
    state: &State,
    action: &Act,
) -> Result<Outcome, OutOfMemory>
    requires kind { (kind ≡ 1) ⊎ (kind ≡ 16) }
    requires here { here < localities }
    requires few { localities ≤ 64 }
    ensures { IfOk result (λ outcome. outcome ≡ act_of localities kind here state.now action.now) }
{
    if kind == SESSION {
        session_act(alloc, localities, state, action)
    } else {
        number_act(alloc, kind, here, state, action)
    }
}

/// The outcome of an action on the session, at so many localities.
#[tactic(auto, unfolding(crate::specs::Session::session_outcome))]
fn session_act(
    alloc: Global,
    localities: u32,
    state: &State,
    action: &Act,
) -> Result<Outcome, OutOfMemory>
    ensures { IfOk result (λ outcome. outcome ≡ session_outcome localities state.now action.now) }
{
    match desk_at(alloc, state)? {
        Some(desk) => desk_act(alloc, localities, state, action, desk),
        None => refused(alloc, state, action),
    }
}

/// What an action does where the session keeps this.
fn desk_act(
    alloc: Global,
    localities: u32,
    state: &State,
    action: &Act,
    desk: Desk<Value>,
) -> Result<Outcome, OutOfMemory>
    requires { state.now.drawn ≤ 4000000000 }
    ensures { IfOk result (λ outcome. outcome ≡ session_by localities state.now action.now (Some desk)) }
{
    if action.cont.is_some() {
        return refused(alloc, state, action);
    }
    match action.args.as_slice() {
        [Value::Text(text)] if action.code == LINE => match text.as_slice() {
            [mark, line @ ..] => line_act(alloc, localities, state, action, desk, *mark, line),
            [] => refused(alloc, state, action),
        },
        [Value::Int(slot), value] if action.code == SET => match u64::try_from(*slot) {
            Ok(slot) => take(alloc, state, action, desk, slot, value),
            Err(_) => refused(alloc, state, action),
        },
        _ => refused(alloc, state, action),
    }
}

/// The console of a mark.
fn console_of(mark: u8) -> Option<Console>
    ensures { result ≡ console_of mark }
{
    match mark {
        ACCUMULATOR => Some(Console::Accumulator),
        SPACE => Some(Console::Space),
        b'o' => Some(Console::Own),
        _ => None,
    }
}

/// What a line behind its mark does.
fn line_act(
    alloc: Global,
    localities: u32,
    state: &State,
    action: &Act,
    desk: Desk<Value>,
    mark: u8,
    line: &[u8],
) -> Result<Outcome, OutOfMemory>
    requires { state.now.drawn ≤ 4000000000 }
    ensures { IfOk result (λ outcome. outcome ≡ line_of localities state.now action.now desk line.now (console_of mark)) }
{
    let Some(console) = console_of(mark) else {
        return refused(alloc, state, action);
    };
    let plan = plan_of(alloc, console, localities, state, &desk, line)?;
    planned(alloc, console, state.drawn, desk, plan)
}

/// What the session does by a plan.
fn planned(
    alloc: Global,
    console: Console,
    drawn: u32,
    desk: Desk<Value>,
    plan: Plan,
) -> Result<Outcome, OutOfMemory>
    requires { drawn ≤ 4000000000 }
    ensures { IfOk result (λ outcome. outcome ≡ planned console drawn desk plan) }
{
    match plan {
        Plan::Nothing => says(alloc, drawn, desk, Items::new(alloc)),
        Plan::Helps => {
            let text = printed(alloc, help(console).to_vec(alloc)?)?;
            says(alloc, drawn, desk, text)
        }
        Plan::Refuses(refusal) => {
            let text = printed(alloc, refusal_text(alloc, refusal)?)?;
            says(alloc, drawn, desk, text)
        }
        Plan::GivesUp(name) => {
            let Desk { names, awaits } = desk;
            let names = without(names, name.as_slice());
            says(alloc, drawn, Desk { names, awaits }, Items::new(alloc))
        }
        Plan::Calls {
            goal,
            code,
            args,
            what,
        } => {
            let sending = call_to(alloc, desk.names.as_slice(), drawn, goal, code, args)?;
            let desk = awaiting(alloc, desk, drawn, what)?;
            spoken(
                alloc,
                drawn + 1,
                desk,
                one(alloc, sending)?,
                Items::new(alloc),
            )
        }
    }
}

/// The action, whose answer goes to a slot of the session.
fn call_to(
    alloc: Global,
    names: &[Naming<Value>],
    slot: u32,
    goal: Goal,
    code: u16,
    args: Items<Argument>,
) -> Result<Sending, OutOfMemory>
    ensures { IfOk result (λ sending. sending ≡ call_to names.now slot goal code args) }
{
    Ok(Sending {
        target: target_of(names, &goal),
        code,
        args: values_given(alloc, names, args)?,
        cont: SendCont::Here { slot },
    })
}

/// Where an action goes.
fn target_of(names: &[Naming<Value>], goal: &Goal) -> Target
    ensures { result ≡ target_of names.now goal.now }
{
    match goal {
        Goal::Named(name) => match seek(names, name.as_slice()) {
            Some(value) => Target::Place(place_of(value)),
            None => Target::Place(0),
        },
        Goal::Root { kind, at } => Target::Root {
            kind: *kind,
            at: *at,
        },
    }
}

/// The values that are sent.
fn values_given(
    alloc: Global,
    names: &[Naming<Value>],
    args: Items<Argument>,
) -> Result<Values, OutOfMemory>
    ensures { IfOk result (λ values. values ≡ map (given spelled names.now) args) }
{
    let mut values = Items::new(alloc);
    for arg in args.into_vec() {
        values.push(given(alloc, names, arg)?)?;
    }
    Ok(values)
}

/// The value that is sent.
fn given(alloc: Global, names: &[Naming<Value>], arg: Argument) -> Result<Value, OutOfMemory>
    ensures { IfOk result (λ value. value ≡ given spelled names.now arg) }
{
    match arg {
        Argument::Word(word) => Ok(Value::Text(word)),
        Argument::Object(name) => match seek(names, name.as_slice()) {
            Some(value) => value.duplicate(alloc),
            None => Ok(Value::Unit),
        },
        Argument::Number(number) => Ok(Value::Int(number)),
    }
}

/// An answer to what is awaited in a slot.
fn take(
    alloc: Global,
    state: &State,
    action: &Act,
    desk: Desk<Value>,
    slot: u64,
    value: &Value,
) -> Result<Outcome, OutOfMemory>
    ensures { IfOk result (λ outcome. outcome ≡ taken state.now action.now desk slot value.now (held_at slot desk.awaits)) }
{
    let Desk { names, awaits } = desk;
    let (awaits, what) = take_awaited(awaits, slot);
    let Some(what) = what else {
        return refused(alloc, state, action);
    };
    let names = answered(alloc, names, &what, state.ids.len(), value)?;
    let text = printed(alloc, answer_text(alloc, &what, value)?)?;
    says(alloc, state.drawn, Desk { names, awaits }, text)
}

/// The session prints, and sends nothing.
fn says(alloc: Global, drawn: u32, desk: Desk<Value>, prints: Texts) -> Result<Outcome, OutOfMemory>
    ensures { IfOk result (λ outcome. outcome ≡ spoken drawn desk [] prints) }
{
    spoken(alloc, drawn, desk, Items::new(alloc), prints)
}

/// What the session keeps then, and what it sends and prints.
fn spoken(
    alloc: Global,
    drawn: u32,
    desk: Desk<Value>,
    sends: Sends,
    prints: Texts,
) -> Result<Outcome, OutOfMemory>
    ensures { IfOk result (λ outcome. outcome ≡ spoken drawn desk sends prints) }
{
    Ok(Outcome {
        state: NewState {
            drawn,
            values: values_of(alloc, desk)?,
            conts: Items::new(alloc),
        },
        makes: Items::new(alloc),
        sends,
        replies: Items::new(alloc),
        prints,
    })
}
