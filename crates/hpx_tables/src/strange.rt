//! A rule that a message breaks, and the object that it is about.
ghost use Rattle.std.specs.Prelude.{◌≡◌};
ghost use Rattle.hpx_value.specs.Ids.{bare};
ghost use Rattle.hpx_tables.specs.Strange.{object_of, is_far, breaks_at};

use hpx_parcel::outline::Outline;
use hpx_parcel::parcel::Parcel;
use hpx_value::gid::Gid;

/// A rule that a message breaks, its object, and what the locality has instead.
#[derive(Clone, Copy, Debug, PartialEq, Eq)]
pub struct Broken {
    pub rule: u8,
    pub object: Gid,
    pub kept: u128,
}

/// The object that a message is about.
#[tactic(auto, using(crate::proofs::Outlined::told_object))]
pub fn object_of(parcel: &Parcel) -> Gid
    ensures { result ≡ object_of parcel.now }
{
    Outline::of(parcel).id.bare()
}

/// Whether a locality in a message, or the home of an id in it, is none of n.
#[tactic(auto, using(crate::proofs::Outlined::told_far))]
pub fn is_far(n: u32, parcel: &Parcel) -> bool
    ensures { result ≡ is_far n parcel.now }
{
    n <= Outline::of(parcel).most
}

/// A rule that is broken.
pub fn breaks(rule: u8, message: &Outline, kept: u128) -> Option<Broken>
    ensures { result ≡ breaks_at rule (bare message.now.id) kept }
{
    Some(Broken {
        rule,
        object: message.id.bare(),
        kept,
    })
}
