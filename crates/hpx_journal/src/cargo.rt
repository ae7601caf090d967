//! What a parcel carries.
ghost use Rattle.std.specs.Prelude.{◌≡◌, ◌++◌, ◌∷◌, [], map, IfOk, Some, false, true};
ghost use Rattle.hpx_value.specs.Ids.{bare};
ghost use Rattle.hpx_value.specs.Values.{bare_act, bare_state, named};
ghost use Rattle.hpx_value.specs.Hands.{slot_at, answer};
ghost use Rattle.hpx_value.specs.declared.value.Value.TheVariants.{Fault};
ghost use Rattle.hpx_parcel.specs.Credits.{credits_of};
ghost use Rattle.hpx_parcel.specs.Reading.{parcel_of};
ghost use Rattle.hpx_journal.specs.Entries.{line_act};
ghost use Rattle.hpx_journal.specs.Frames.{acts_in, travel_of, travels_in, tokens_in, asks_in, credited, parcel_in, cargo_of};
ghost use Rattle.hpx_journal.specs.Local.{failure};

use crate::entry::{Event, Name, Token, Travel};
use crate::local::{id_at, move_to, target};
use hpx_parcel::parcel::{DecodeFault, Parcel};
use hpx_parcel::read::decode;
use hpx_value::codes::{LINE, SESSION, SET};
use hpx_value::exact::Exact;
use hpx_value::gid::{Gid, Gids};
use hpx_value::items::{Items, Text};
use hpx_value::memory::OutOfMemory;
use hpx_value::outcome::Due;
use hpx_value::value::{Act, Cont, Message, State, Value};
use std::alloc::Global;

/// Actions and objects with bare ids, credits as tokens, and the objects that are asked for.
#[derive(Drop)]
pub struct Cargo {
    pub acts: Items<Act>,
    pub travels: Items<Travel>,
    pub tokens: Items<Token>,
    pub asks: Gids,
}

/// The ids without their credits.
fn bare_ids(alloc: Global, ids: &[Gid]) -> Result<Gids, OutOfMemory>
    ensures { IfOk result (λ out. out ≡ map bare ids.now) }
{
    let mut out = Vec::new(alloc);
    for id in ids {
        out.push(id.bare())?;
    }
    Ok(Items::from_vec(out))
}

/// An action with bare ids.
pub fn bare_act(alloc: Global, act: &Act) -> Result<Act, OutOfMemory>
    ensures { IfOk result (λ out. out ≡ bare_act act.now) }
{
    Ok(Act {
        origin: act.origin,
        serial: act.serial,
        code: act.code,
        args: act.args.duplicate(alloc)?,
        cont: act.cont,
        ids: bare_ids(alloc, act.ids.as_slice())?,
    })
}

/// A state with bare ids.
pub fn bare_state(alloc: Global, state: &State) -> Result<State, OutOfMemory>
    ensures { IfOk result (λ out. out ≡ bare_state state.now) }
{
    Ok(State {
        drawn: state.drawn,
        values: state.values.duplicate(alloc)?,
        conts: state.conts.duplicate(alloc)?,
        ids: bare_ids(alloc, state.ids.as_slice())?,
    })
}

/// One element.
pub fn one<T: Drop>(alloc: Global, item: T) -> Result<Items<T>, OutOfMemory>
    ensures { IfOk result (λ out. out ≡ item ∷ []) }
{
    let mut out = Items::new(alloc);
    out.push(item)?;
    Ok(out)
}

/// The credits of ids, owed or held.
fn tokens_of(alloc: Global, ids: &[Gid], owed: bool) -> Result<Items<Token>, OutOfMemory>
    ensures { IfOk result (λ out. out ≡ map (credited owed) (credits_of ids.now)) }
{
    let mut out = Vec::new(alloc);
    for id in ids {
        if let Some(log) = id.log() {
            out.push(Token {
                object: id.bare(),
                log,
                owed,
            })?;
        }
    }
    Ok(Items::from_vec(out))
}

/// The credits of the ids of an action and of a state, which are held.
fn tokens_of_both(alloc: Global, act: &Act, state: &State) -> Result<Items<Token>, OutOfMemory>
    ensures { IfOk result (λ out. out ≡ map (credited false) (credits_of (act.now.ids ++ state.now.ids))) }
{
    let mut ids = Vec::from_slice(alloc, act.ids.as_slice())?;
    ids.extend_from_slice(state.ids.as_slice())?;
    tokens_of(alloc, ids.as_slice(), false)
}

/// The actions in a parcel.
fn acts_in(alloc: Global, parcel: &Parcel) -> Result<Items<Act>, OutOfMemory>
    ensures { IfOk result (λ out. out ≡ acts_in (Some parcel.now)) }
{
    match parcel {
        Parcel::Apply(act) => one(alloc, bare_act(alloc, act)?),
        Parcel::Move(act) => one(alloc, bare_act(alloc, act)?),
        Parcel::Go(act) => one(alloc, bare_act(alloc, act)?),
        Parcel::Object { action, state: _ } => one(alloc, bare_act(alloc, action)?),
        _ => Ok(Items::new(alloc)),
    }
}

/// The object of an action, towards a place.
fn travel_of(
    alloc: Global,
    act: &Act,
    state: State,
    to: Option<u32>,
) -> Result<Items<Travel>, OutOfMemory>
    ensures { IfOk result (λ out. out ≡ travel_of act.now state to) }
{
    match to {
        Some(to) => {
            let object = target(act);
            one(alloc, Travel { object, state, to })
        }
        None => Ok(Items::new(alloc)),
    }
}

/// The object that a parcel ships, towards the place of its MOVE.
fn travels_in(alloc: Global, parcel: &Parcel) -> Result<Items<Travel>, OutOfMemory>
    ensures { IfOk result (λ out. out ≡ travels_in (Some parcel.now)) }
{
    match parcel {
        Parcel::Object { action, state } => travel_of(
            alloc,
            &bare_act(alloc, action)?,
            bare_state(alloc, state)?,
            move_to(action),
        ),
        _ => Ok(Items::new(alloc)),
    }
}

/// The tokens of a parcel: those of actions and objects are held, the others are owed.
fn tokens_in(alloc: Global, parcel: &Parcel) -> Result<Items<Token>, OutOfMemory>
    ensures { IfOk result (λ out. out ≡ tokens_in (Some parcel.now)) }
{
    match parcel {
        Parcel::Apply(act) => tokens_of(alloc, act.ids.as_slice(), false),
        Parcel::Move(act) => tokens_of(alloc, act.ids.as_slice(), false),
        Parcel::Go(act) => tokens_of(alloc, act.ids.as_slice(), false),
        Parcel::Object { action, state } => tokens_of_both(alloc, action, state),
        Parcel::Return(id) => tokens_of(alloc, &[*id], true),
        Parcel::Ask { id, .. } => tokens_of(alloc, &[*id], true),
        Parcel::Give { id, .. } => tokens_of(alloc, &[*id], true),
        Parcel::Landed { id, .. } => tokens_of(alloc, &[*id], true),
        Parcel::Cached { id, .. } => tokens_of(alloc, &[*id], false),
        Parcel::Free(id) => tokens_of(alloc, &[*id], false),
    }
}

/// The objects that an Ask or a Give is about.
fn asks_in(alloc: Global, parcel: &Parcel) -> Result<Gids, OutOfMemory>
    ensures { IfOk result (λ out. out ≡ asks_in (Some parcel.now)) }
{
    match parcel {
        Parcel::Ask { id, .. } => one(alloc, *id),
        Parcel::Give { id, .. } => one(alloc, *id),
        _ => Ok(Items::new(alloc)),
    }
}

/// What a parcel carries; nothing where there is none.
pub fn cargo_of(alloc: Global, parcel: &Option<Parcel>) -> Result<Cargo, OutOfMemory>
    ensures { IfOk result (λ out. out ≡ cargo_of parcel.now) }
{
    match parcel {
        Some(parcel) => Ok(Cargo {
            acts: acts_in(alloc, parcel)?,
            travels: travels_in(alloc, parcel)?,
            tokens: tokens_in(alloc, parcel)?,
            asks: asks_in(alloc, parcel)?,
        }),
        None => Ok(Cargo {
            acts: Items::new(alloc),
            travels: Items::new(alloc),
            tokens: Items::new(alloc),
            asks: Items::new(alloc),
        }),
    }
}

/// The parcel that bytes spell, if they spell one.
pub fn parcel_of(alloc: Global, bytes: &[u8]) -> Result<Option<Parcel>, OutOfMemory>
    ensures { IfOk result (λ p. p ≡ parcel_of bytes.now) }
{
    match decode(alloc, bytes) {
        Ok(parcel) => Ok(Some(parcel)),
        Err(DecodeFault::BadFrame { .. }) => Ok(None),
        Err(DecodeFault::OutOfMemory) => Err(OutOfMemory),
    }
}

/// The parcel of the frame that an event sends or accepts.
pub fn parcel_in(alloc: Global, event: &Event) -> Result<Option<Parcel>, OutOfMemory>
    ensures { IfOk result (λ p. p ≡ parcel_in event.now) }
{
    match event {
        Event::Out { to: _, bytes } => parcel_of(alloc, bytes.as_slice()),
        Event::In { bytes } => parcel_of(alloc, bytes.as_slice()),
        _ => Ok(None),
    }
}

/// The action that a line is.
pub fn line_act(alloc: Global, action: Name, bytes: &Text) -> Result<Act, OutOfMemory>
    ensures { IfOk result (λ act. act ≡ line_act action bytes.now) }
{
    Ok(Act {
        origin: action.origin,
        serial: action.serial,
        code: LINE,
        args: one(alloc, Value::Text(bytes.duplicate(alloc)?))?,
        cont: None,
        ids: one(alloc, Gid::new(0, SESSION, 1))?,
    })
}

/// A message under a name.
pub fn named(action: Name, message: Message) -> Act
    ensures { result ≡ named action.origin action.serial message }
{
    Act {
        origin: action.origin,
        serial: action.serial,
        code: message.code,
        args: message.args,
        cont: message.cont,
        ids: message.ids,
    }
}

/// The fault of an action that could get no credit.
const CREDIT_LIMIT: u8 = 5;

/// The answer of a failed action to where its continuation leads.
fn refusal(alloc: Global, ids: &[Gid], cont: Cont) -> Result<Message, OutOfMemory>
    ensures { IfOk result (λ m. m ≡ answer [] (slot_at ids.now cont) (Fault 5)) }
{
    let mut args = one(alloc, Value::Int(cont.slot as i64))?;
    args.push(Value::Fault(CREDIT_LIMIT))?;
    Ok(Message {
        code: SET,
        args,
        cont: None,
        ids: one(alloc, id_at(ids, cont.place as usize))?,
    })
}

/// What a failed action leaves due.
pub fn failure(alloc: Global, act: &Act) -> Result<Vec<Due>, OutOfMemory>
    ensures { IfOk result (λ due. due.items ≡ failure act.now) }
{
    let mut due = Vec::new(alloc);
    if let Some(cont) = act.cont {
        due.push(Due::Message(refusal(alloc, act.ids.as_slice(), cont)?))?;
    }
    if target(act).kind() == SESSION {
        let text = Vec::from_slice(alloc, b"error: credit limit\n")?;
        due.push(Due::Print(Items::from_vec(text)))?;
    }
    Ok(due)
}
