//! The rules in their order, by what is known of a locality.
use crate::facts::Facts;
use hpx_journal::local::target;
use hpx_node::parts::TakeFault;
use hpx_parcel::parcel::{DecodeFault, Parcel};
use hpx_parcel::read::decode;
use hpx_stepped::site::number;
use hpx_value::gid::Gid;
use hpx_value::items::Bytes;
use hpx_value::memory::OutOfMemory;
use hpx_value::value::{Act, Value};
use std::alloc::Global;

/// How many localities there are.
const LOCALITIES: u32 = 2;

/// The log of the credit of a new object.
const NEW_LOG: u8 = 8;

/// A rule that is broken, and what the locality has instead.
type Broken = Option<(u8, u128)>;

/// Whether the home of one of these ids is not there.
fn are_far(ids: &[Gid]) -> bool {
    for i in 0..ids.len() {
        if ids[i].home() >= LOCALITIES {
            return true;
        }
    }
    false
}

/// Where a MOVE goes.
fn moves_to(act: &Act) -> Option<u32> {
    match act.args.as_slice() {
        [Value::Int(to)] => u32::try_from(*to).ok(),
        _ => None,
    }
}

/// Whether a MOVE names a locality that is not there.
fn moves_far(act: &Act) -> bool {
    match moves_to(act) {
        Some(to) => to >= LOCALITIES,
        None => false,
    }
}

/// Whether an action does so.
fn is_far_act(act: &Act) -> bool {
    u32::from(act.origin) >= LOCALITIES || are_far(act.ids.as_slice())
}

/// Whether a message names a locality that is not there.
fn is_far(parcel: &Parcel) -> bool {
    match parcel {
        Parcel::Apply(act) => is_far_act(act),
        Parcel::Move(act) | Parcel::Go(act) => is_far_act(act) || moves_far(act),
        Parcel::Object { action, state } => {
            is_far_act(action) || moves_far(action) || are_far(state.ids.as_slice())
        }
        Parcel::Ask {
            id,
            asker,
            entry: _,
        } => id.home() >= LOCALITIES || u32::from(*asker) >= LOCALITIES,
        Parcel::Cached { id, place } | Parcel::Landed { id, place } => {
            id.home() >= LOCALITIES || u32::from(*place) >= LOCALITIES
        }
        Parcel::Return(id) | Parcel::Give { id, entry: _ } | Parcel::Free(id) => {
            id.home() >= LOCALITIES
        }
    }
}

/// The object that a message is about.
fn object_of(parcel: &Parcel) -> Gid {
    match parcel {
        Parcel::Apply(act) | Parcel::Move(act) | Parcel::Go(act) => target(act),
        Parcel::Object { action, state: _ } => target(action),
        Parcel::Return(id) | Parcel::Free(id) | Parcel::Give { id, entry: _ } => *id,
        Parcel::Ask {
            id,
            asker: _,
            entry: _,
        } => *id,
        Parcel::Cached { id, place: _ } | Parcel::Landed { id, place: _ } => *id,
    }
}

/// Rules 1 and 2: credit that comes home.
fn comes_home(facts: &Facts, id: Gid) -> Broken {
    let Some(record) = facts.record(id) else {
        return Some((1, facts.records()));
    };
    let credit = id.credit();
    if credit > record.count || (credit == record.count && record.queued) {
        return Some((2, record.count));
    }
    None
}

/// Rule 3: credit that was asked for.
fn gives(facts: &Facts, id: Gid, entry: u64) -> Broken {
    let right = matches!(id.log(), Some(log) if log == 0 || log == NEW_LOG);
    if right && facts.asked == Some(entry) && number().names_same(id) {
        return None;
    }
    Some((3, u128::from(entry)))
}

/// Rules 1, 2 and 5: an object has landed.
fn lands(facts: &Facts, id: Gid, place: u32) -> Broken {
    if let Some(broken) = comes_home(facts, id) {
        return Some(broken);
    }
    let record = facts.record(id)?;
    if record.moving == Some(place) {
        return None;
    }
    Some((5, u128::from(record.place)))
}

/// Rule 6: a MOVE that was granted.
fn goes(facts: &Facts, act: &Act) -> Broken {
    if facts.stays(target(act)) && moves_to(act) != Some(facts.here) {
        return None;
    }
    Some((6, u128::from(facts.here)))
}

/// Rule 7: an object is to be freed.
fn frees(facts: &Facts, id: Gid) -> Broken {
    let held = facts.held(id);
    if facts.stands(id) && held == 0 {
        return None;
    }
    Some((7, held))
}

/// Rule 8: an action that has no place to go.
fn applies(facts: &Facts, id: Gid) -> Broken {
    let lost = if id.kind() < 16 {
        !facts.stands(id)
    } else if id.home() == facts.here {
        match facts.record(id) {
            None => true,
            Some(record) => {
                record.moving.is_none() && record.place == facts.here && !facts.stays(id)
            }
        }
    } else {
        false
    };
    if lost {
        Some((8, facts.records()))
    } else {
        None
    }
}

/// The first rule that a message breaks. No locality remembers places yet, so it takes none in.
fn broken(facts: &Facts, parcel: &Parcel) -> Broken {
    if is_far(parcel) {
        return Some((9, u128::from(LOCALITIES)));
    }
    let here = u128::from(facts.here);
    match parcel {
        Parcel::Apply(act) | Parcel::Move(act) => applies(facts, target(act)),
        Parcel::Return(id) => comes_home(facts, *id),
        Parcel::Ask {
            id,
            asker: _,
            entry: _,
        } => comes_home(facts, *id),
        Parcel::Give { id, entry } => gives(facts, *id, *entry),
        Parcel::Cached { id: _, place: _ } => Some((8, facts.records())),
        Parcel::Go(act) => goes(facts, act),
        Parcel::Object { action, state: _ } => {
            if facts.stands(target(action)) {
                Some((4, here))
            } else {
                None
            }
        }
        Parcel::Landed { id, place } => lands(facts, *id, u32::from(*place)),
        Parcel::Free(id) => frees(facts, *id),
    }
}

/// What a locality is to answer to a frame.
pub fn wanted(
    alloc: Global,
    facts: &Facts,
    frame: &Bytes,
) -> Result<Result<(), TakeFault>, OutOfMemory> {
    let parcel = match decode(alloc, frame.as_slice()) {
        Ok(parcel) => parcel,
        Err(DecodeFault::BadFrame { at, why }) => return Ok(Err(TakeFault::BadFrame { at, why })),
        Err(DecodeFault::OutOfMemory) => return Err(OutOfMemory),
    };
    match broken(facts, &parcel) {
        None => Ok(Ok(())),
        Some((rule, kept)) => Ok(Err(TakeFault::Strange {
            rule,
            object: object_of(&parcel).bare(),
            kept,
        })),
    }
}
