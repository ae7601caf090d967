//! Frames, read from the left.

ghost use Rattle.std.specs.Prelude.{◌≡◌, ◌≢◌, ℕ, IfOk, IfErr, Some, Ok};
ghost use Rattle.hpx_parcel.specs.Parcels.{Spells};
ghost use Rattle.hpx_parcel.specs.Reading.{Tells, Gives, ask_at, object_at, fields_at, parcel_at, whole_of, reading, parcel_of, Refuses, Stops};

use crate::acts::{ActRule, act_of, state_of};
use crate::fields::{
    IdRule, ReadError, Stop, byte_of, id_u16_of, id_u64_of, id_with, stop_at, u64_of,
};
use crate::outline::outline_of;
use crate::parcel::{DecodeFault, Parcel, Why};
use std::alloc::Global;

/// The most bytes of a frame.
pub(crate) const LONGEST_FRAME: usize = 65_536;

/// The first byte of each frame.
pub(crate) const VERSION: u8 = 1;

/// The fields of an Ask.
#[tactic(auto, unfolding(crate::specs::Reading::ask_at))]
fn ask_of(bytes: &[u8]) -> Result<(Parcel, &[u8]), Stop>
    ensures { Tells (λ x. (x.0, x.1.now)) result (ask_at bytes.now) }
{
    match id_u16_of(IdRule::Least, bytes) {
        Ok((id, asker, rest)) => {
            let (entry, rest) = u64_of(rest)?;
            Ok((Parcel::Ask { id, asker, entry }, rest))
        }
        Err(stop) => Err(stop),
    }
}

/// The fields of an Object.
#[tactic(auto, unfolding(crate::specs::Reading::object_at))]
fn object_of(alloc: Global, bytes: &[u8]) -> Result<(Parcel, &[u8]), ReadError>
    ensures { Gives (λ x. (x.0, x.1.now)) result (object_at bytes.now) }
{
    match act_of(alloc, ActRule::Moves, bytes) {
        Ok((action, rest)) => match state_of(alloc, rest) {
            Ok((state, rest)) => Ok((Parcel::Object { action, state }, rest)),
            Err(error) => Err(error),
        },
        Err(error) => Err(error),
    }
}

/// A parcel with no action in it, of its fields; another kind is a fault at the first of `bytes`.
#[tactic(auto, unfolding(crate::specs::Reading::fields_at))]
pub(crate) fn small_of<'a>(
    kind: u8,
    bytes: &[u8],
    rest: &'a [u8],
) -> Result<(Parcel, &'a [u8]), Stop>
    requires apply { kind ≢ 1 }
    requires moves { kind ≢ 6 }
    requires goes { kind ≢ 7 }
    requires object { kind ≢ 8 }
    ensures { Tells (λ x. (x.0, x.1.now)) result (fields_at kind bytes.now rest.now) }
{
    match kind {
        2 => match id_with(IdRule::Credited, rest) {
            Ok((id, rest)) => Ok((Parcel::Return(id), rest)),
            Err(stop) => Err(stop),
        },
        3 => ask_of(rest),
        4 => match id_u64_of(IdRule::Credited, rest) {
            Ok((id, entry, rest)) => Ok((Parcel::Give { id, entry }, rest)),
            Err(stop) => Err(stop),
        },
        5 => match id_u16_of(IdRule::Bare, rest) {
            Ok((id, place, rest)) => Ok((Parcel::Cached { id, place }, rest)),
            Err(stop) => Err(stop),
        },
        9 => match id_u16_of(IdRule::Credited, rest) {
            Ok((id, place, rest)) => Ok((Parcel::Landed { id, place }, rest)),
            Err(stop) => Err(stop),
        },
        10 => match id_with(IdRule::Bare, rest) {
            Ok((id, rest)) => Ok((Parcel::Free(id), rest)),
            Err(stop) => Err(stop),
        },
        _ => Err(stop_at(bytes, Why::Kind)),
    }
}

/// A parcel of this kind, of its fields; another kind is a fault at the first of `bytes`.
#[tactic(auto, unfolding(crate::specs::Reading::fields_at))]
fn fields_of<'a>(
    alloc: Global,
    kind: u8,
    bytes: &[u8],
    rest: &'a [u8],
) -> Result<(Parcel, &'a [u8]), ReadError>
    ensures { Gives (λ x. (x.0, x.1.now)) result (fields_at kind bytes.now rest.now) }
{
    match kind {
        1 => match act_of(alloc, ActRule::Applied, rest) {
            Ok((act, rest)) => Ok((Parcel::Apply(act), rest)),
            Err(error) => Err(error),
        },
        6 => match act_of(alloc, ActRule::Moves, rest) {
            Ok((act, rest)) => Ok((Parcel::Move(act), rest)),
            Err(error) => Err(error),
        },
        7 => match act_of(alloc, ActRule::Moves, rest) {
            Ok((act, rest)) => Ok((Parcel::Go(act), rest)),
            Err(error) => Err(error),
        },
        8 => object_of(alloc, rest),
        _ => match small_of(kind, bytes, rest) {
            Ok((parcel, rest)) => Ok((parcel, rest)),
            Err(stop) => Err(ReadError::Stop(stop)),
        },
    }
}

/// A parcel, and the bytes behind it.
#[tactic(auto, unfolding(crate::specs::Reading::parcel_at))]
fn parcel_of(alloc: Global, bytes: &[u8]) -> Result<(Parcel, &[u8]), ReadError>
    ensures { Gives (λ x. (x.0, x.1.now)) result (parcel_at bytes.now) }
{
    let (version, rest) = byte_of(bytes)?;
    if version != VERSION {
        return Err(ReadError::Stop(stop_at(bytes, Why::Kind)));
    }
    let (kind, after) = byte_of(rest)?;
    fields_of(alloc, kind, rest, after)
}

/// A parcel that takes all of the bytes.
#[tactic(auto, unfolding(crate::specs::Reading::whole_of))]
fn whole(alloc: Global, bytes: &[u8]) -> Result<Parcel, ReadError>
    ensures { Gives (λ x. x) result (whole_of bytes.now) }
{
    let (parcel, rest) = parcel_of(alloc, bytes)?;
    if !rest.is_empty() {
        return Err(ReadError::Stop(stop_at(rest, Why::Trailing)));
    }
    Ok(parcel)
}

/// Why bytes were not decoded for which there was no memory: for that alone, if they spell a parcel.
fn unread(bytes: &[u8]) -> DecodeFault
    ensures { Stops result (reading bytes.now) }
{
    match outline_of(bytes) {
        Ok(_outline) => DecodeFault::OutOfMemory,
        Err(fault) => DecodeFault::BadFrame {
            at: fault.at,
            why: fault.why,
        },
    }
}

/// The parcel, or the first fault with its place from the left.
#[tactic(auto, unfolding(crate::specs::Reading::reading))]
fn read(alloc: Global, bytes: &[u8]) -> Result<Parcel, DecodeFault>
    ensures ok { IfOk result (λ p. reading bytes.now ≡ Ok p) }
    ensures err { IfErr result (λ e. Stops e (reading bytes.now)) }
{
    if LONGEST_FRAME < bytes.len() {
        return Err(DecodeFault::BadFrame {
            at: LONGEST_FRAME as u32,
            why: Why::Long,
        });
    }
    match whole(alloc, bytes) {
        Ok(parcel) => Ok(parcel),
        Err(ReadError::Stop(stop)) => Err(DecodeFault::BadFrame {
            at: bytes.len().saturating_sub(stop.left) as u32,
            why: stop.why,
        }),
        Err(ReadError::OutOfMemory) => Err(unread(bytes)),
    }
}

/// The parcel that the bytes spell. Want of memory is answered only for bytes that spell one.
pub fn decode(alloc: Global, bytes: &[u8]) -> Result<Parcel, DecodeFault>
    ensures ok { IfOk result (λ p. Spells bytes.now p) }
    ensures read { IfOk result (λ p. parcel_of bytes.now ≡ Some p) }
    ensures bad { IfErr result (λ e. Refuses e bytes.now) }
{
    read(alloc, bytes)
}
