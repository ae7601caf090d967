//! The ids that things carry.
ghost use Rattle.std.specs.Prelude.{◌≡◌, ◌++◌, List};
ghost use Rattle.hpx_value.specs.Ids.{Id};
ghost use Rattle.hpx_tables.specs.Kept.{ids_held};

use crate::kept::{Fit, Letter, Outgoing};
use hpx_parcel::parcel::Parcel;
use hpx_value::gid::Gid;

/// What carries ids, and holds their credit.
pub trait Carries: Drop {
    /// Its ids.
    ghost ids_of: { Self → List Id };

    /// Its ids, in two parts.
    fn ids(&self) -> (&[Gid], &[Gid])
        ensures { result.0.now ++ result.1.now ≡ ids_of self.now };
}

/// The ids of a message that holds its credits.
fn ids_in(parcel: &Parcel) -> (&[Gid], &[Gid])
    ensures { result.0.now ++ result.1.now ≡ ids_held parcel.now }
{
    match parcel {
        Parcel::Apply(act) => (act.ids.as_slice(), &[]),
        Parcel::Move(act) => (act.ids.as_slice(), &[]),
        Parcel::Go(act) => (act.ids.as_slice(), &[]),
        Parcel::Object { action, state } => (action.ids.as_slice(), state.ids.as_slice()),
        _ => (&[], &[]),
    }
}

impl Carries for Fit {
    ghost ids_of = { λ act. act.ids };

    fn ids(&self) -> (&[Gid], &[Gid]) {
        (self.act().ids.as_slice(), &[])
    }
}

impl Carries for Letter {
    ghost ids_of = { ids_held };

    fn ids(&self) -> (&[Gid], &[Gid]) {
        ids_in(self.parcel())
    }
}

impl Carries for Outgoing {
    ghost ids_of = { λ x. ids_held x.parcel };

    fn ids(&self) -> (&[Gid], &[Gid]) {
        ids_in(self.parcel.parcel())
    }
}
