//! Actions and states, read from the front of bytes.

ghost use Rattle.std.specs.Prelude.{◌≡◌, ◌+◌, ◌<◌, ◌≤◌, ◌^◌, ◌++◌, ◌∷◌, [], length, OnOk};
ghost use Rattle.hpx_parcel.specs.Reading.{Tells, Gives, slot_at, cont_at, target_rule, takes_code, takes_args, are_move_args, ended_at, call_at, message_at, act_at, conts_at, joined_conts, kept_at, state_at};

use crate::fields::{
    IdRule, ReadError, Stop, byte_of, count_of, id_with, stop_at, u16_of, u32_of, u64_of,
};
use crate::parcel::Why;
use crate::values::{push_found, values_of};
use hpx_value::codes::MOVE;
use hpx_value::gid::{Gid, Gids};
use hpx_value::items::Items;
use hpx_value::memory::OutOfMemory;
use hpx_value::value::{Act, Cont, Conts, Message, State, Value, Values};
use std::alloc::Global;

/// The most bytes that an action, or a state, takes in a frame.
pub(crate) const LONGEST_PART: usize = 65_000;

/// The place behind the target and 32 Refs.
pub(crate) const REFS_END: u16 = 33;

/// The most ids that a state has.
pub(crate) const MOST_IDS: u16 = 128;

/// Which actions a field takes.
#[derive(Clone, Copy)]
pub(crate) enum ActRule {
    /// All but a MOVE.
    Applied,
    /// A MOVE alone.
    Moves,
}

impl ActRule {
    /// Which targets such an action may have.
    pub(crate) fn target(self) -> IdRule
        ensures { result ≡ target_rule self }
    {
        match self {
            ActRule::Applied => IdRule::Named,
            ActRule::Moves => IdRule::Movable,
        }
    }

    /// Whether such an action may have this code.
    pub(crate) fn takes_code(self, code: u16) -> bool
        ensures { result ≡ takes_code self code }
    {
        match self {
            ActRule::Applied => code != MOVE,
            ActRule::Moves => code == MOVE,
        }
    }

    /// Whether such an action may have these arguments.
    pub(crate) fn takes_args(self, args: &[Value]) -> bool
        ensures { result ≡ takes_args self args.now }
    {
        match self {
            ActRule::Applied => true,
            ActRule::Moves => are_move_args(args),
        }
    }
}

/// Whether they are one number, that of a locality.
fn are_move_args(args: &[Value]) -> bool
    ensures { result ≡ are_move_args args.now }
{
    match args {
        [Value::Int(place)] => 0 <= *place && *place <= 63,
        _ => false,
    }
}

/// Where an answer goes: a slot of an object.
#[derive(Drop)]
pub(crate) struct Link {
    pub(crate) id: Gid,
    pub(crate) slot: u32,
}

/// An id and a slot.
#[tactic(auto, unfolding(crate::specs::Reading::slot_at))]
pub(crate) fn link_of(bytes: &[u8]) -> Result<(Link, &[u8]), Stop>
    ensures { Tells (λ x. (x.0.id, x.0.slot, x.1.now)) result (slot_at bytes.now) }
{
    match id_with(IdRule::Named, bytes) {
        Ok((id, rest)) => {
            let (slot, rest) = u32_of(rest)?;
            Ok((Link { id, slot }, rest))
        }
        Err(stop) => Err(stop),
    }
}

/// A continuation, if there is one, whose id comes to stand at this place.
#[tactic(auto, unfolding(crate::specs::Reading::cont_at))]
pub(crate) fn cont_of(place: u16, bytes: &[u8]) -> Result<(Option<Cont>, Option<Gid>, &[u8]), Stop>
    ensures { Tells (λ x. (x.0, x.1, x.2.now)) result (cont_at place bytes.now) }
{
    let (byte, rest) = byte_of(bytes)?;
    match byte {
        0 => Ok((None, None, rest)),
        1 => match link_of(rest) {
            Ok((Link { id, slot }, rest)) => Ok((Some(Cont { place, slot }), Some(id), rest)),
            Err(stop) => Err(stop),
        },
        _ => Err(stop_at(bytes, Why::BadValue)),
    }
}

/// The end of an action: its continuation, whose id comes last.
#[tactic(auto, unfolding(crate::specs::Reading::ended_at))]
fn ended_of(
    code: u16,
    args: Values,
    mut ids: Gids,
    bytes: &[u8],
) -> Result<(Message, &[u8]), ReadError>
    requires { length ids ≤ 33 }
    ensures { Gives (λ x. (x.0, x.1.now)) result (ended_at code args ids bytes.now) }
{
    match cont_of(ids.len() as u16, bytes) {
        Ok((cont, id, rest)) => {
            push_found(&mut ids, id)?;
            Ok((
                Message {
                    code,
                    args,
                    cont,
                    ids,
                },
                rest,
            ))
        }
        Err(stop) => Err(ReadError::Stop(stop)),
    }
}

/// An action without its name, behind its target.
#[tactic(auto, unfolding(crate::specs::Reading::call_at))]
fn call_of(
    alloc: Global,
    rule: ActRule,
    target: Gid,
    bytes: &[u8],
) -> Result<(Message, &[u8]), ReadError>
    ensures { Gives (λ x. (x.0, x.1.now)) result (call_at rule target bytes.now) }
{
    let (code, rest) = u16_of(bytes)?;
    if !rule.takes_code(code) {
        return Err(ReadError::Stop(stop_at(bytes, Why::BadValue)));
    }
    let mut ids = Items::new(alloc);
    ids.push(target)?;
    match values_of(alloc, REFS_END, ids, rest) {
        Ok((args, ids, after)) => {
            if rule.takes_args(args.as_slice()) {
                ended_of(code, args, ids, after)
            } else {
                Err(ReadError::Stop(stop_at(rest, Why::BadValue)))
            }
        }
        Err(error) => Err(error),
    }
}

/// An action without its name.
#[tactic(auto, unfolding(crate::specs::Reading::message_at))]
fn message_of(alloc: Global, rule: ActRule, bytes: &[u8]) -> Result<(Message, &[u8]), ReadError>
    ensures { Gives (λ x. (x.0, x.1.now)) result (message_at rule bytes.now) }
{
    match id_with(rule.target(), bytes) {
        Ok((target, rest)) => call_of(alloc, rule, target, rest),
        Err(stop) => Err(ReadError::Stop(stop)),
    }
}

/// An action that such a field takes, of at most 65,000 bytes.
#[tactic(auto, unfolding(crate::specs::Reading::act_at, crate::specs::Reading::long_act_at))]
pub(crate) fn act_of(alloc: Global, rule: ActRule, bytes: &[u8]) -> Result<(Act, &[u8]), ReadError>
    ensures { Gives (λ x. (x.0, x.1.now)) result (act_at rule bytes.now) }
{
    let (origin, rest) = u16_of(bytes)?;
    let (serial, rest) = u64_of(rest)?;
    match message_of(alloc, rule, rest) {
        Ok((message, rest)) => {
            if rest.len() + LONGEST_PART < bytes.len() {
                return Err(ReadError::Stop(stop_at(bytes, Why::BadValue)));
            }
            let Message {
                code,
                args,
                cont,
                ids,
            } = message;
            Ok((
                Act {
                    origin,
                    serial,
                    code,
                    args,
                    cont,
                    ids,
                },
                rest,
            ))
        }
        Err(error) => Err(error),
    }
}

/// One more continuation and its id.
fn push_link(conts: &mut Conts, ids: &mut Gids, link: Link) -> Result<(), OutOfMemory>
    requires { length ids.old < 2 ^ 16 }
    ensures conts { OnOk result (conts.new ≡ conts.old ++ record { place = length ids.old; slot = link.slot } ∷ []) }
    ensures ids { OnOk result (ids.new ≡ ids.old ++ link.id ∷ []) }
{
    let Link { id, slot } = link;
    let place = ids.len() as u16;
    conts.push(Cont { place, slot })?;
    ids.push(id)
}

/// Kept continuations, whose ids come after those that there are.
fn conts_of(
    alloc: Global,
    count: u16,
    mut ids: Gids,
    bytes: &[u8],
) -> Result<(Conts, Gids, &[u8]), ReadError>
    requires { length ids + count ≤ 128 }
    ensures { Gives (λ x. (x.0, x.1, x.2.now)) result (joined_conts [] ids (conts_at (length ids) count bytes.now)) }
{
    let mut conts = Items::new(alloc);
    let mut rest = bytes;
    for _ in 0..count {
        match link_of(rest) {
            Ok((link, after)) => {
                push_link(&mut conts, &mut ids, link)?;
                rest = after;
            }
            Err(stop) => return Err(ReadError::Stop(stop)),
        }
    }
    Ok((conts, ids, rest))
}

/// The end of a state: its continuations, whose ids come last.
#[tactic(auto, unfolding(crate::specs::Reading::kept_at))]
fn kept_of(
    alloc: Global,
    drawn: u32,
    values: Values,
    ids: Gids,
    bytes: &[u8],
) -> Result<(State, &[u8]), ReadError>
    requires { length ids ≤ 128 }
    ensures { Gives (λ x. (x.0, x.1.now)) result (kept_at drawn values ids bytes.now) }
{
    let (count, rest) = count_of(MOST_IDS - ids.len() as u16, bytes)?;
    match conts_of(alloc, count, ids, rest) {
        Ok((conts, ids, rest)) => Ok((
            State {
                drawn,
                values,
                conts,
                ids,
            },
            rest,
        )),
        Err(error) => Err(error),
    }
}

/// A state, of at most 65,000 bytes.
#[tactic(auto, unfolding(crate::specs::Reading::state_at, crate::specs::Reading::long_state_at))]
pub(crate) fn state_of(alloc: Global, bytes: &[u8]) -> Result<(State, &[u8]), ReadError>
    ensures { Gives (λ x. (x.0, x.1.now)) result (state_at bytes.now) }
{
    let (drawn, rest) = u32_of(bytes)?;
    match values_of(alloc, MOST_IDS, Items::new(alloc), rest) {
        Ok((values, ids, rest)) => match kept_of(alloc, drawn, values, ids, rest) {
            Ok((state, rest)) => {
                if rest.len() + LONGEST_PART < bytes.len() {
                    return Err(ReadError::Stop(stop_at(bytes, Why::BadValue)));
                }
                Ok((state, rest))
            }
            Err(error) => Err(error),
        },
        Err(error) => Err(error),
    }
}
