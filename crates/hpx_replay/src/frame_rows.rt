//! Where an entry of a frame is allowed.
ghost use Rattle.std.specs.Prelude.{◌≡◌, ◌↔◌, ℕ, List, IsTrue, Some};
ghost use Rattle.hpx_journal.specs.Entries.{Rules};
ghost use Rattle.hpx_journal.specs.Frames.{travels_in, cargo_of};
ghost use Rattle.hpx_journal.specs.Rows.{MayGo, AreWaiting, Row};
ghost use Rattle.hpx_replay.specs.Spaces.{IsLeaving};

use crate::object_rows::is_dead;
use hpx_journal::cargo::Cargo;
use hpx_journal::entry::{Event, Travel};
use hpx_journal::local::{Local, name_of};
use hpx_parcel::parcel::Parcel;
use hpx_value::exact::Exact;
use hpx_value::value::Act;

/// Whether two objects on their way are the same, with their states and places.
fn is_same(x: &Travel, y: &Travel) -> bool
    ensures { IsTrue result ↔ (x.now ≡ y.now) }
{
    x.object.same(&y.object) && x.state.same(&y.state) && x.to == y.to
}

/// Whether each of these actions waits here.
fn are_waiting(local: &Local, acts: &[Act]) -> bool
    ensures { IsTrue result ↔ AreWaiting local.now acts.now }
{
    for act in acts {
        match local.waiting.find(&name_of(act)) {
            Some(x) if x.same(act) => (),
            _ => return false,
        }
    }
    true
}

/// Whether the one object that is shipped leaves from here to this place.
fn is_leaving(local: &Local, to: u32, travels: &[Travel]) -> bool
    ensures { IsTrue result ↔ IsLeaving local.now to travels.now }
{
    match travels {
        [x] => match local.travels.find(&x.object) {
            Some(y) => x.to == to && is_same(x, y),
            None => false,
        },
        _ => false,
    }
}

/// Whether a parcel may go to a place, its actions aside.
fn may_go(local: &Local, to: u32, parcel: &Parcel, travels: &[Travel]) -> bool
    requires { travels.now ≡ travels_in (Some parcel.now) }
    ensures { IsTrue result ↔ MayGo local.now to parcel.now }
{
    match parcel {
        Parcel::Apply(_) => true,
        Parcel::Move(_) => true,
        Parcel::Go(_) => true,
        Parcel::Object { .. } => is_leaving(local, to, travels),
        Parcel::Return(id) => to == id.home(),
        Parcel::Ask { id, .. } => to == id.home(),
        Parcel::Landed { id, .. } => to == id.home(),
        Parcel::Give { id, .. } => local.here == id.home(),
        Parcel::Free(o) => local.here == o.home() && is_dead(local, *o),
        Parcel::Cached { .. } => true,
    }
}

pub(crate) fn out_row(
    local: &Local,
    localities: u32,
    to: u32,
    parcel: &Option<Parcel>,
    cargo: &Cargo,
) -> bool
    requires { cargo.now ≡ cargo_of parcel.now }
    ensures { (r : Rules) (bytes : List ℕ) → r.localities ≡ localities → parcel.now ≡ r.parcel_of bytes
        → IsTrue result ↔ Row r local.now (Event.Out to bytes) }
{
    match parcel {
        Some(parcel) => {
            to < localities
                && to != local.here
                && are_waiting(local, cargo.acts.as_slice())
                && may_go(local, to, parcel, cargo.travels.as_slice())
        }
        None => false,
    }
}

pub(crate) fn in_row(local: &Local, parcel: &Option<Parcel>) -> bool
    ensures { (r : Rules) (bytes : List ℕ) → parcel.now ≡ r.parcel_of bytes → IsTrue result ↔ Row r local.now (Event.In bytes) }
{
    parcel.is_some()
}
