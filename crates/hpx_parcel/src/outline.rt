//! What the rules ask of a parcel, read of its frame without memory.

ghost use Rattle.std.specs.Prelude.{◌≡◌, None, IfOk, IfErr};
ghost use Rattle.hpx_parcel.specs.Reading.{IsRefused, object_at, fields_at, parcel_at, whole_of, reading};
ghost use Rattle.hpx_parcel.specs.Outlines.{Shows, IsOutline, place_in, move_to, target_of, most_home, act_outline, moving, applied, outline, parcel_part};

use crate::acts::ActRule;
use crate::fields::{Stop, byte_of, stop_at};
use crate::glance::{ActOutline, act_in, place_of, state_in};
use crate::parcel::{FaultAt, Parcel, Why};
use crate::read::{LONGEST_FRAME, VERSION, small_of};
use hpx_value::codes::{FIRST_MANAGED, LAST_MOVABLE, MOVE, SESSION};
use hpx_value::gid::Gid;
use hpx_value::value::{Act, Value};

/// Which parcel it is.
#[derive(Clone, Copy, Debug, PartialEq, Eq)]
pub enum ParcelKind {
    Apply,
    Return,
    Ask,
    Give,
    Cached,
    Move,
    Go,
    Object,
    Landed,
    Free,
}

/// What the rules ask of a parcel.
#[derive(Clone, Copy, Debug, PartialEq, Eq)]
pub struct Outline {
    pub kind: ParcelKind,
    /// The first id: that of the target, or of the object.
    pub id: Gid,
    /// Where a MOVE moves its target, or its target has landed.
    pub to: Option<u32>,
    /// The entry of an Ask or a Give, and else 0.
    pub entry: u64,
    /// The greatest locality that is named, homes of ids among them.
    pub most: u32,
}

/// The object that an action is for.
fn target_of(act: &Act) -> Gid
    ensures { result ≡ target_of act.now }
{
    match act.ids.as_slice().first() {
        Some(id) => *id,
        None => Gid::new(0, SESSION, 1),
    }
}

/// The place in the arguments of a MOVE, if they are those of one.
fn place_in(args: &[Value]) -> Option<u32>
    ensures { result ≡ place_in args.now }
{
    match args {
        [value] => place_of(value),
        _ => None,
    }
}

/// Where a MOVE moves its target; any other action moves nothing.
fn move_to(act: &Act) -> Option<u32>
    ensures { result ≡ move_to act.now }
{
    let kind = target_of(act).kind();
    if act.code != MOVE || kind < FIRST_MANAGED || LAST_MOVABLE < kind {
        return None;
    }
    place_in(act.args.as_slice())
}

/// The greatest home of ids, and of what was there before.
fn most_home(before: u32, ids: &[Gid]) -> u32
    ensures { result ≡ most_home before ids.now }
{
    let mut most = before;
    for id in ids {
        most = most.max(id.home());
    }
    most
}

impl ActOutline {
    /// The outline of an action.
    fn of(act: &Act) -> ActOutline
        ensures { result ≡ act_outline act.now }
    {
        ActOutline {
            target: target_of(act),
            to: move_to(act),
            most: most_home(act.origin as u32, act.ids.as_slice()),
        }
    }

    /// That of a parcel with such a MOVE.
    fn moving(&self, kind: ParcelKind) -> Outline
        ensures { result ≡ moving kind self.now }
    {
        let most = match self.to {
            Some(to) => self.most.max(to),
            None => self.most,
        };
        Outline {
            kind,
            id: self.target,
            to: self.to,
            entry: 0,
            most,
        }
    }

    /// That of a parcel with such an action, which moves nothing.
    fn applied(&self) -> Outline
        ensures { result ≡ applied self.now }
    {
        Outline::new(ParcelKind::Apply, self.target, 0, self.most)
    }
}

impl Outline {
    /// That of a parcel that moves nothing.
    fn new(kind: ParcelKind, id: Gid, entry: u64, most: u32) -> Outline
        ensures { result ≡ record { kind = kind; id = id; to = None; entry = entry; most = most } }
    {
        Outline {
            kind,
            id,
            to: None,
            entry,
            most,
        }
    }

    /// The outline of a parcel.
    pub fn of(parcel: &Parcel) -> Outline
        ensures { result ≡ outline parcel.now }
    {
        match parcel {
            Parcel::Apply(act) => ActOutline::of(act).applied(),
            Parcel::Return(id) => Outline::new(ParcelKind::Return, *id, 0, id.home()),
            Parcel::Ask { id, asker, entry } => {
                let most = id.home().max(*asker as u32);
                Outline::new(ParcelKind::Ask, *id, *entry, most)
            }
            Parcel::Give { id, entry } => { Outline::new(ParcelKind::Give, *id, *entry, id.home()) }
            Parcel::Cached { id, place } => {
                let most = id.home().max(*place as u32);
                Outline::new(ParcelKind::Cached, *id, 0, most)
            }
            Parcel::Move(act) => ActOutline::of(act).moving(ParcelKind::Move),
            Parcel::Go(act) => ActOutline::of(act).moving(ParcelKind::Go),
            Parcel::Object { action, state } => {
                let moved = ActOutline::of(action).moving(ParcelKind::Object);
                let most = most_home(moved.most, state.ids.as_slice());
                moved.with_most(most)
            }
            Parcel::Landed { id, place } => {
                let most = id.home().max(*place as u32);
                Outline {
                    kind: ParcelKind::Landed,
                    id: *id,
                    to: Some(*place as u32),
                    entry: 0,
                    most,
                }
            }
            Parcel::Free(id) => Outline::new(ParcelKind::Free, *id, 0, id.home()),
        }
    }

    /// The same with another greatest locality.
    fn with_most(&self, most: u32) -> Outline
        ensures { result ≡ record self.now { most = most } }
    {
        Outline {
            kind: self.kind,
            id: self.id,
            to: self.to,
            entry: self.entry,
            most,
        }
    }
}

/// The fields of an Object.
#[tactic(auto, unfolding(crate::specs::Reading::object_at))]
fn object_in(bytes: &[u8]) -> Result<(Outline, &[u8]), Stop>
    ensures { Shows parcel_part (λ x. (x.0, x.1.now)) result (object_at bytes.now) }
{
    match act_in(ActRule::Moves, bytes) {
        Ok((act, rest)) => {
            let moved = act.moving(ParcelKind::Object);
            let (most, rest) = state_in(moved.most, rest)?;
            Ok((moved.with_most(most), rest))
        }
        Err(stop) => Err(stop),
    }
}

/// A parcel of this kind, of its fields; another kind is a fault at the first of `bytes`.
#[tactic(auto, unfolding(crate::specs::Reading::fields_at))]
fn fields_in<'a>(kind: u8, bytes: &[u8], rest: &'a [u8]) -> Result<(Outline, &'a [u8]), Stop>
    ensures { Shows parcel_part (λ x. (x.0, x.1.now)) result (fields_at kind bytes.now rest.now) }
{
    match kind {
        1 => match act_in(ActRule::Applied, rest) {
            Ok((act, rest)) => Ok((act.applied(), rest)),
            Err(stop) => Err(stop),
        },
        6 => match act_in(ActRule::Moves, rest) {
            Ok((act, rest)) => Ok((act.moving(ParcelKind::Move), rest)),
            Err(stop) => Err(stop),
        },
        7 => match act_in(ActRule::Moves, rest) {
            Ok((act, rest)) => Ok((act.moving(ParcelKind::Go), rest)),
            Err(stop) => Err(stop),
        },
        8 => object_in(rest),
        _ => match small_of(kind, bytes, rest) {
            Ok((parcel, rest)) => Ok((Outline::of(&parcel), rest)),
            Err(stop) => Err(stop),
        },
    }
}

/// A parcel, and the bytes behind it.
#[tactic(auto, unfolding(crate::specs::Reading::parcel_at))]
fn parcel_in(bytes: &[u8]) -> Result<(Outline, &[u8]), Stop>
    ensures { Shows parcel_part (λ x. (x.0, x.1.now)) result (parcel_at bytes.now) }
{
    let (version, rest) = byte_of(bytes)?;
    if version != VERSION {
        return Err(stop_at(bytes, Why::Kind));
    }
    let (kind, after) = byte_of(rest)?;
    fields_in(kind, rest, after)
}

/// A parcel that takes all of the bytes.
#[tactic(auto, unfolding(crate::specs::Reading::whole_of))]
fn whole(bytes: &[u8]) -> Result<Outline, Stop>
    ensures { Shows outline (λ x. x) result (whole_of bytes.now) }
{
    match parcel_in(bytes) {
        Ok((outline, rest)) => {
            if !rest.is_empty() {
                return Err(stop_at(rest, Why::Trailing));
            }
            Ok(outline)
        }
        Err(stop) => Err(stop),
    }
}

/// The outline of the parcel that the bytes spell, or their first fault. It takes no memory.
#[tactic(auto, unfolding(crate::specs::Reading::reading))]
pub fn outline_of(bytes: &[u8]) -> Result<Outline, FaultAt>
    ensures ok { IfOk result (λ o. IsOutline bytes.now o) }
    ensures bad { IfErr result (λ f. IsRefused bytes.now f) }
{
    if LONGEST_FRAME < bytes.len() {
        return Err(FaultAt {
            at: LONGEST_FRAME as u32,
            why: Why::Long,
        });
    }
    match whole(bytes) {
        Ok(outline) => Ok(outline),
        Err(stop) => Err(FaultAt {
            at: bytes.len().saturating_sub(stop.left) as u32,
            why: stop.why,
        }),
    }
}
