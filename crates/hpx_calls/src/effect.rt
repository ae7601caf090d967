//! What calls do, and the outcomes that this comes to.
ghost use Rattle.std.specs.Prelude.{◌≡◌, ◌+◌, ◌-◌, ◌≤◌, ◌++◌, ◌∷◌, [], IfOk, OnOk, length};
ghost use Rattle.hpx_calls.specs.Values.{spelled};
ghost use Rattle.hpx_calls.specs.Contents.{layout};
ghost use Rattle.hpx_calls.specs.Outcomes.{comes_to, cont_count, freed, kind_of, made_place, make_of, numbers, outcome, own_reply, started};

use crate::codes::{ACCUMULATOR, BARRIER, CHANNEL, DATAFLOW, LATCH, PARTITION, PROMISE};
use crate::content::{Content, one};
use hpx_value::codes::{COMPONENTS, LOCALITIES, PLAIN, SYMBOLS};
use hpx_value::exact::Exact;
use hpx_value::items::{Items, Numbers};
use hpx_value::memory::OutOfMemory;
use hpx_value::outcome::{Make, NewState, Outcome, Replies, Reply, SendCont, Sending, Target};
use hpx_value::value::{Act, State, Value, Values};
use std::alloc::Global;

/// What a call does, besides to the content.
#[derive(Drop)]
pub enum Effect<V> {
    /// Nobody is answered.
    Silent,
    /// The call is answered.
    Answers(V),
    /// The call waits for its answer.
    Waits,
    /// Those that wait longest are answered a value, and the call its own.
    Frees { count: usize, value: V, own: V },
    /// An action on the plain object here is to answer in place of the call.
    Starts { code: u16, args: Items<V> },
    /// An action on the plain object here is to answer the one that waits longest, and the call is answered its own.
    Hands { code: u16, args: Items<V>, own: V },
    /// The object moves, and the call is answered where it was.
    Moves(u32),
    /// An object is made, and the call is answered its id.
    Makes(Content<V>),
}

/// The content afterwards, and what is done.
#[derive(Drop)]
pub struct Called<V> {
    pub content: Content<V>,
    pub effect: Effect<V>,
}

impl Called<Value> {
    /// The outcome of an action that does this. An `Err` is for want of memory, or where a hand has more than 65,535
    /// continuations.
    pub fn outcome(
        self,
        alloc: Global,
        here: u32,
        state: &State,
        action: &Act,
    ) -> Result<Outcome, OutOfMemory>
        ensures { IfOk result (λ outcome. outcome
            ≡ comes_to here state.now action.now (layout spelled self.content) self.effect) }
    {
        let values = self.content.into_values(alloc)?;
        let Ok(kept) = u16::try_from(state.conts.len()) else {
            return Err(OutOfMemory);
        };
        match self.effect {
            Effect::Silent => silent(alloc, kept, state, values),
            Effect::Answers(value) => answers(alloc, kept, state, action, values, value),
            Effect::Waits => waits(alloc, kept, state, action, values),
            Effect::Frees { count, value, own } => {
                let Ok(count) = u16::try_from(count) else {
                    return Err(OutOfMemory);
                };
                let replies = freed(alloc, count, &value)?;
                frees(alloc, kept, state, action, values, count, replies, own)
            }
            Effect::Starts { code, args } => {
                starts(alloc, kept, state, values, started(here, code, args, kept))
            }
            Effect::Hands { code, args, own } => {
                let sending = started(here, code, args, 0);
                hands(alloc, kept, state, action, values, sending, own)
            }
            Effect::Moves(_) => {
                let place = Value::Int(i64::from(here));
                answers(alloc, kept, state, action, values, place)
            }
            Effect::Makes(content) => makes(alloc, kept, state, action, values, content),
        }
    }
}

/// An outcome with new values and these kept continuations, and nothing else.
fn settled(alloc: Global, state: &State, values: Values, conts: Numbers) -> Outcome
    ensures { result ≡ outcome state.now values conts [] [] [] }
{
    Outcome {
        state: NewState {
            drawn: state.drawn,
            values,
            conts,
        },
        makes: Items::new(alloc),
        sends: Items::new(alloc),
        replies: Items::new(alloc),
        prints: Items::new(alloc),
    }
}

fn silent(alloc: Global, kept: u16, state: &State, values: Values) -> Result<Outcome, OutOfMemory>
    requires { kept ≡ length state.now.conts }
    ensures { IfOk result (λ done. done ≡ outcome state.now values (numbers 0 (length state.now.conts)) [] [] []) }
{
    let conts = numbers(alloc, 0, u32::from(kept))?;
    Ok(settled(alloc, state, values, conts))
}

fn answers(
    alloc: Global,
    kept: u16,
    state: &State,
    action: &Act,
    values: Values,
    value: Value,
) -> Result<Outcome, OutOfMemory>
    requires { kept ≡ length state.now.conts }
    ensures { IfOk result (λ done. done
        ≡ outcome state.now values (numbers 0 (length state.now.conts)) [] [] (own_reply state.now action.now.cont value)) }
{
    let mut outcome = silent(alloc, kept, state, values)?;
    outcome.replies = own_reply(alloc, kept, state, action, value)?;
    Ok(outcome)
}

fn waits(
    alloc: Global,
    kept: u16,
    state: &State,
    action: &Act,
    values: Values,
) -> Result<Outcome, OutOfMemory>
    requires { kept ≡ length state.now.conts }
    ensures { IfOk result (λ done. done
        ≡ outcome state.now values (numbers 0 (length state.now.conts + cont_count action.now.cont)) [] [] []) }
{
    let own = match action.cont {
        Some(_) => 1,
        None => 0,
    };
    let conts = numbers(alloc, 0, u32::from(kept) + own)?;
    Ok(settled(alloc, state, values, conts))
}

fn frees(
    alloc: Global,
    kept: u16,
    state: &State,
    action: &Act,
    values: Values,
    count: u16,
    replies: Replies,
    own: Value,
) -> Result<Outcome, OutOfMemory>
    requires { kept ≡ length state.now.conts }
    ensures { IfOk result (λ done. done
        ≡ outcome state.now values (numbers count (length state.now.conts - count)) [] [] (replies ++ own_reply state.now action.now.cont own)) }
{
    let conts = numbers(alloc, count, u32::from(kept.saturating_sub(count)))?;
    let mut outcome = settled(alloc, state, values, conts);
    let mut replies = replies;
    push_own(&mut replies, kept, state, action, own)?;
    outcome.replies = replies;
    Ok(outcome)
}

fn starts(
    alloc: Global,
    kept: u16,
    state: &State,
    values: Values,
    sending: Sending,
) -> Result<Outcome, OutOfMemory>
    requires { kept ≡ length state.now.conts }
    ensures { IfOk result (λ done. done
        ≡ outcome state.now values (numbers 0 (length state.now.conts)) [] (sending ∷ []) []) }
{
    let mut outcome = silent(alloc, kept, state, values)?;
    outcome.sends = one(alloc, sending)?;
    Ok(outcome)
}

fn hands(
    alloc: Global,
    kept: u16,
    state: &State,
    action: &Act,
    values: Values,
    sending: Sending,
    own: Value,
) -> Result<Outcome, OutOfMemory>
    requires { kept ≡ length state.now.conts }
    ensures { IfOk result (λ done. done
        ≡ outcome state.now values (numbers 1 (length state.now.conts - 1)) [] (sending ∷ []) (own_reply state.now action.now.cont own)) }
{
    let conts = numbers(alloc, 1, u32::from(kept.saturating_sub(1)))?;
    let mut outcome = settled(alloc, state, values, conts);
    outcome.sends = one(alloc, sending)?;
    outcome.replies = own_reply(alloc, kept, state, action, own)?;
    Ok(outcome)
}

fn makes(
    alloc: Global,
    kept: u16,
    state: &State,
    action: &Act,
    values: Values,
    content: Content<Value>,
) -> Result<Outcome, OutOfMemory>
    requires { kept ≡ length state.now.conts }
    ensures { IfOk result (λ done. done
        ≡ outcome state.now values (numbers 0 (length state.now.conts)) (make_of content ∷ []) []
        (own_reply state.now action.now.cont (Value.Ref (made_place state.now action.now)))) }
{
    let place = made_place(state, action)?;
    let mut outcome = answers(alloc, kept, state, action, values, Value::Ref(place))?;
    outcome.makes = one(alloc, make_of(alloc, content)?)?;
    Ok(outcome)
}

/// So many numbers from one on.
#[tactic(auto, using(crate::proofs::Numbers::numbers_more))]
fn numbers(alloc: Global, first: u16, count: u32) -> Result<Numbers, OutOfMemory>
    requires { count ≤ 65536 }
    ensures { IfOk result (λ items. items ≡ numbers first count) }
{
    let mut items = Items::new(alloc);
    for i in 0..count {
        items.push(u32::from(first) + i)?;
    }
    Ok(items)
}

/// The answers to the continuations that were kept first.
#[tactic(auto, using(crate::proofs::Numbers::freed_more))]
fn freed(alloc: Global, count: u16, value: &Value) -> Result<Replies, OutOfMemory>
    ensures { IfOk result (λ replies. replies ≡ freed value.now 0 count) }
{
    let mut replies = Items::new(alloc);
    for cont in 0..count {
        replies.push(Reply {
            cont,
            value: value.duplicate(alloc)?,
        })?;
    }
    Ok(replies)
}

/// The answer to the action's own continuation, where it has one.
fn own_reply(
    alloc: Global,
    kept: u16,
    state: &State,
    action: &Act,
    value: Value,
) -> Result<Replies, OutOfMemory>
    requires { kept ≡ length state.now.conts }
    ensures { IfOk result (λ replies. replies ≡ own_reply state.now action.now.cont value) }
{
    let mut replies = Items::new(alloc);
    push_own(&mut replies, kept, state, action, value)?;
    Ok(replies)
}

/// One more answer, to the action's own continuation, where it has one.
fn push_own(
    replies: &mut Replies,
    kept: u16,
    state: &State,
    action: &Act,
    value: Value,
) -> Result<(), OutOfMemory>
    requires { kept ≡ length state.now.conts }
    ensures { OnOk result (replies.new ≡ replies.old ++ own_reply state.now action.now.cont value) }
{
    if action.cont.is_some() {
        replies.push(Reply { cont: kept, value })?;
    }
    Ok(())
}

/// An action for the plain object here, which hands a continuation on.
fn started(here: u32, code: u16, args: Values, cont: u16) -> Sending
    ensures { result ≡ started here code args cont }
{
    Sending {
        target: Target::Root {
            kind: PLAIN,
            at: here,
        },
        code,
        args,
        cont: SendCont::Own(cont),
    }
}

/// An object with this content.
fn make_of(alloc: Global, content: Content<Value>) -> Result<Make, OutOfMemory>
    ensures { IfOk result (λ make. make ≡ make_of content) }
{
    let kind = content.kind();
    let values = content.into_values(alloc)?;
    Ok(Make { kind, values })
}

impl Content<Value> {
    /// The kind of an object that holds this, or 0 where that is not known.
    pub fn kind(&self) -> u32
        ensures { result ≡ kind_of self.now }
    {
        match self {
            Content::Table(_) => SYMBOLS,
            Content::Maker => COMPONENTS,
            Content::Size(_) => LOCALITIES,
            Content::Number(_) => ACCUMULATOR,
            Content::Row(_) => PARTITION,
            Content::Promise(_) => PROMISE,
            Content::Dataflow { .. } | Content::Started { .. } => DATAFLOW,
            Content::Channel { .. } => CHANNEL,
            Content::Latch(_) => LATCH,
            Content::Barrier(_) => BARRIER,
            Content::Unreadable(_) => 0,
        }
    }
}

/// The place of the first object that is made.
fn made_place(state: &State, action: &Act) -> Result<u16, OutOfMemory>
    ensures { IfOk result (λ place. place ≡ made_place state.now action.now) }
{
    let Ok(before) = u16::try_from(state.ids.len()) else {
        return Err(OutOfMemory);
    };
    let Ok(own) = u16::try_from(action.ids.len()) else {
        return Err(OutOfMemory);
    };
    match before.checked_add(own) {
        Some(place) => Ok(place),
        None => Err(OutOfMemory),
    }
}
