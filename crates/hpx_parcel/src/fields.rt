//! Numbers and ids, read from the front of bytes.

ghost use Rattle.std.specs.Prelude.{◌≡◌, ◌≤◌, IfOk};
ghost use Rattle.hpx_parcel.specs.Reading.{Tells, stop_at, cut_off, next_byte, number_at, count_at, credit_fits, is_least, allows, id_of, id_at, int_at, pair_at};
ghost use Rattle.hpx_parcel.specs.declared.fields.ReadError.TheVariants.{OutOfMemory as Memory, Stop as Broken};

use crate::parcel::Why;
use byteorder::{BigEndian, ByteOrder};
use hpx_value::codes::{FIRST_MANAGED, LAST_MOVABLE};
use hpx_value::gid::Gid;
use hpx_value::memory::OutOfMemory;
use std::alloc::{AllocError, AllocFailed};

/// The first fault, and how many bytes are left from there on.
#[derive(Clone, Copy)]
pub(crate) struct Stop {
    pub(crate) left: usize,
    pub(crate) why: Why,
}

/// Why nothing was kept.
#[derive(Drop)]
pub(crate) enum ReadError {
    Stop(Stop),
    OutOfMemory,
}

impl From<Stop> for ReadError {
    ghost from_gives = { λ s e. e ≡ Broken s };

    fn from(stop: Stop) -> ReadError {
        ReadError::Stop(stop)
    }
}

impl From<AllocError> for ReadError {
    ghost from_gives = { λ _ e. e ≡ Memory };

    fn from(_error: AllocError) -> ReadError {
        ReadError::OutOfMemory
    }
}

impl From<OutOfMemory> for ReadError {
    ghost from_gives = { λ _ e. e ≡ Memory };

    fn from(_error: OutOfMemory) -> ReadError {
        ReadError::OutOfMemory
    }
}

impl<T: Drop> From<AllocFailed<T>> for ReadError {
    ghost from_gives = { λ _ e. e ≡ Memory };

    fn from(_error: AllocFailed<T>) -> ReadError {
        ReadError::OutOfMemory
    }
}

/// Which ids a field takes.
#[derive(Clone, Copy)]
pub(crate) enum IdRule {
    /// Those whose credit fits their kind.
    Named,
    /// Such ids of a movable kind.
    Movable,
    /// Those with a credit.
    Credited,
    /// Those with a credit of log 0.
    Least,
    /// Those of managed objects, without credit.
    Bare,
}

impl IdRule {
    /// Whether such a field takes this id.
    pub(crate) fn allows(self, id: Gid) -> bool
        ensures { result ≡ allows self id }
    {
        match self {
            IdRule::Named => credit_fits(id),
            IdRule::Movable => {
                credit_fits(id) && FIRST_MANAGED <= id.kind() && id.kind() <= LAST_MOVABLE
            }
            IdRule::Credited => id.log().is_some() && FIRST_MANAGED <= id.kind(),
            IdRule::Least => is_least(id.log()) && FIRST_MANAGED <= id.kind(),
            IdRule::Bare => id.log().is_none() && FIRST_MANAGED <= id.kind(),
        }
    }
}

/// Whether it is the log of the least credit.
fn is_least(log: Option<u8>) -> bool
    ensures { result ≡ is_least log }
{
    match log {
        None => false,
        Some(log) => log == 0,
    }
}

/// Whether there is a credit exactly where the kind is managed.
fn credit_fits(id: Gid) -> bool
    ensures { result ≡ credit_fits id }
{
    if id.kind() < FIRST_MANAGED {
        id.log().is_none()
    } else {
        id.log().is_some()
    }
}

/// A fault at the first of these bytes.
pub(crate) fn stop_at(bytes: &[u8], why: Why) -> Stop
    ensures { result ≡ stop_at bytes.now why }
{
    Stop {
        left: bytes.len(),
        why,
    }
}

/// The bytes end too early.
pub(crate) fn cut_off() -> Stop
    ensures { result ≡ cut_off }
{
    Stop {
        left: 0,
        why: Why::Cut,
    }
}

/// A byte.
pub(crate) fn byte_of(bytes: &[u8]) -> Result<(u8, &[u8]), Stop>
    ensures { Tells (λ x. (x.0, x.1.now)) result (next_byte bytes.now) }
{
    match bytes {
        [] => Err(cut_off()),
        [byte, rest @ ..] => Ok((*byte, rest)),
    }
}

/// A number of two bytes, the highest first.
#[tactic(auto, unfolding(crate::specs::Reading::number_at))]
pub(crate) fn u16_of(bytes: &[u8]) -> Result<(u16, &[u8]), Stop>
    ensures { Tells (λ x. (x.0, x.1.now)) result (number_at 2 bytes.now) }
{
    if bytes.len() < 2 {
        return Err(cut_off());
    }
    Ok((BigEndian::read_u16(bytes), &bytes[2..]))
}

/// A number of four bytes, the highest first.
#[tactic(auto, unfolding(crate::specs::Reading::number_at))]
pub(crate) fn u32_of(bytes: &[u8]) -> Result<(u32, &[u8]), Stop>
    ensures { Tells (λ x. (x.0, x.1.now)) result (number_at 4 bytes.now) }
{
    if bytes.len() < 4 {
        return Err(cut_off());
    }
    Ok((BigEndian::read_u32(bytes), &bytes[4..]))
}

/// A number of eight bytes, the highest first.
#[tactic(auto, unfolding(crate::specs::Reading::number_at))]
pub(crate) fn u64_of(bytes: &[u8]) -> Result<(u64, &[u8]), Stop>
    ensures { Tells (λ x. (x.0, x.1.now)) result (number_at 8 bytes.now) }
{
    if bytes.len() < 8 {
        return Err(cut_off());
    }
    Ok((BigEndian::read_u64(bytes), &bytes[8..]))
}

/// A number with a sign, in 8 bytes, the highest first.
#[tactic(auto, unfolding(crate::specs::Reading::number_at, crate::specs::Reading::int_at))]
pub(crate) fn int_of(bytes: &[u8]) -> Result<(i64, &[u8]), Stop>
    ensures { Tells (λ x. (x.0, x.1.now)) result (int_at bytes.now) }
{
    if bytes.len() < 8 {
        return Err(cut_off());
    }
    Ok((BigEndian::read_i64(bytes), &bytes[8..]))
}

/// A count of two bytes, at most a limit.
#[tactic(auto, unfolding(crate::specs::Reading::count_at))]
pub(crate) fn count_of(limit: u16, bytes: &[u8]) -> Result<(u16, &[u8]), Stop>
    ensures given { Tells (λ x. (x.0, x.1.now)) result (count_at limit bytes.now) }
    ensures few { IfOk result (λ x. x.0 ≤ limit) }
{
    let (count, rest) = u16_of(bytes)?;
    if limit < count {
        return Err(stop_at(bytes, Why::BadValue));
    }
    Ok((count, rest))
}

/// The id that two halves are, if they are one.
fn gid_of(msb: u64, lsb: u64) -> Option<Gid>
    ensures { result ≡ id_of msb lsb }
{
    Gid::read(msb, lsb)
}

/// An id that such a field takes.
#[tactic(auto, unfolding(crate::specs::Reading::id_at))]
pub(crate) fn id_with(rule: IdRule, bytes: &[u8]) -> Result<(Gid, &[u8]), Stop>
    ensures { Tells (λ x. (x.0, x.1.now)) result (id_at rule bytes.now) }
{
    let (msb, rest) = u64_of(bytes)?;
    let (lsb, rest) = u64_of(rest)?;
    match gid_of(msb, lsb) {
        Some(id) if rule.allows(id) => Ok((id, rest)),
        _ => Err(stop_at(bytes, Why::BadId)),
    }
}

/// An id and a number of two bytes.
#[tactic(auto, unfolding(crate::specs::Reading::pair_at))]
pub(crate) fn id_u16_of(rule: IdRule, bytes: &[u8]) -> Result<(Gid, u16, &[u8]), Stop>
    ensures { Tells (λ x. (x.0, x.1, x.2.now)) result (pair_at rule 2 bytes.now) }
{
    match id_with(rule, bytes) {
        Ok((id, rest)) => {
            let (number, rest) = u16_of(rest)?;
            Ok((id, number, rest))
        }
        Err(stop) => Err(stop),
    }
}

/// An id and a number of eight bytes.
#[tactic(auto, unfolding(crate::specs::Reading::pair_at))]
pub(crate) fn id_u64_of(rule: IdRule, bytes: &[u8]) -> Result<(Gid, u64, &[u8]), Stop>
    ensures { Tells (λ x. (x.0, x.1, x.2.now)) result (pair_at rule 8 bytes.now) }
{
    match id_with(rule, bytes) {
        Ok((id, rest)) => {
            let (number, rest) = u64_of(rest)?;
            Ok((id, number, rest))
        }
        Err(stop) => Err(stop),
    }
}
