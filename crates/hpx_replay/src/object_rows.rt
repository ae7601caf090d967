//! Where an entry of an object is allowed.
ghost use Rattle.std.specs.Prelude.{◌≡◌, ◌≢◌, ◌↔◌, ℕ, IsTrue, IfOk, Some};
ghost use Rattle.std.specs.List.{find};
ghost use Rattle.hpx_value.specs.Ids.{same_object};
ghost use Rattle.hpx_journal.specs.Entries.{Rules};
ghost use Rattle.hpx_journal.specs.declared.entry.Standing.{Standing};
ghost use Rattle.hpx_journal.specs.Local.{is_standing};
ghost use Rattle.hpx_journal.specs.Rows.{IsDead, IsManaged, LetsGo, SentTo, Row};
ghost use Rattle.hpx_replay.specs.Spaces.{Meaning, rules_of};

use crate::act_rows::is_busy;
use hpx_journal::cargo::parcel_of;
use hpx_journal::entry::Event;
use hpx_journal::local::{Dead, Local, MoveOf, target};
use hpx_parcel::parcel::Parcel;
use hpx_value::codes::FIRST_MANAGED;
use hpx_value::exact::Exact;
use hpx_value::gid::Gid;
use hpx_value::memory::OutOfMemory;
use hpx_value::value::State;
use std::alloc::Global;

/// The last of the managed kinds.
const LAST_MANAGED: u32 = 63;

/// The kind of the message to the own locality that an object is to be freed.
const FREE: u8 = 10;

/// Whether an object is made, and not a root.
fn is_managed(o: Gid) -> bool
    ensures { IsTrue result ↔ IsManaged o }
{
    FIRST_MANAGED <= o.kind() && o.kind() <= LAST_MANAGED
}

/// Whether a parcel says that an object is to be freed.
fn frees(parcel: &Option<Parcel>, o: Gid) -> bool
    ensures { IsTrue result ↔ (parcel.now ≡ Some (Parcel.Free o)) }
{
    match parcel {
        Some(Parcel::Free(id)) => id.same(&o),
        _ => false,
    }
}

pub(crate) fn is_dead(local: &Local, o: Gid) -> bool
    ensures { IsTrue result ↔ IsDead o local.now }
{
    local.counts.any(&Dead { object: o })
}

fn stands(local: &Local, o: Gid) -> bool
    ensures { IsTrue result ↔ ((x : Standing) × (find (is_standing o) local.now.objects ≡ Some x)) }
{
    local.objects.find(&o).is_some()
}

pub(crate) fn born_row(local: &Local, o: Gid, state: &State) -> bool
    ensures { (r : Rules) → IsTrue result ↔ Row r local.now (Event.Born o state.now) }
{
    o.home() == local.here
        && is_managed(o)
        && o.number() - 1 == local.number
        && state.drawn == 0
        && state.conts.is_empty()
        && state.ids.is_empty()
}

/// Whether the entry before says that an object is to be freed.
fn lets_go(local: &Local, alloc: Global, o: Gid) -> Result<bool, OutOfMemory>
    ensures { IfOk result (λ b. (n : ℕ) (p : _) (f : Meaning) → IsTrue b ↔ LetsGo (rules_of n p f) local.now o local.now.last) }
{
    match &local.last {
        Some(Event::In { bytes }) => {
            let parcel = parcel_of(alloc, bytes.as_slice())?;
            Ok(frees(&parcel, o))
        }
        Some(Event::Mail { kind }) => {
            Ok(*kind == FREE && o.home() == local.here && is_dead(local, o))
        }
        _ => Ok(false),
    }
}

pub(crate) fn freed_row(local: &Local, alloc: Global, o: Gid) -> Result<bool, OutOfMemory>
    ensures { IfOk result (λ b. (n : ℕ) (p : _) (f : Meaning) → IsTrue b ↔ Row (rules_of n p f) local.now (Event.Freed o)) }
{
    if !is_managed(o) || !stands(local, o) || local.waiting.any(&o) || local.fired.any(&o) {
        return Ok(false);
    }
    let free = lets_go(local, alloc, o)?;
    Ok(free)
}

pub(crate) fn left_row(local: &Local, o: Gid, to: u32) -> bool
    ensures { (r : Rules) → IsTrue result ↔ Row r local.now (Event.Left o to) }
{
    is_managed(o)
        && stands(local, o)
        && !is_busy(local, o)
        && local.waiting.any(&MoveOf { object: o, to })
        && to != local.here
}

pub(crate) fn landed_row(local: &Local, o: Gid) -> bool
    ensures { (r : Rules) → IsTrue result ↔ Row r local.now (Event.Landed o) }
{
    match local.travels.find(&o) {
        Some(x) => is_managed(o) && x.to == local.here,
        None => false,
    }
}

/// Whether the entry before sent an action on an object.
fn sent_to(local: &Local, o: Gid) -> bool
    ensures { IsTrue result ↔ SentTo local.now o local.now.last }
{
    match &local.last {
        Some(Event::Sent { action }) => match local.waiting.find(action) {
            Some(act) => o.names_same(target(act)),
            None => false,
        },
        _ => false,
    }
}

pub(crate) fn looked_row(local: &Local, o: Gid, hit: bool) -> bool
    ensures { (r : Rules) → IsTrue result ↔ Row r local.now (Event.Looked o hit) }
{
    o.home() != local.here && sent_to(local, o)
}
