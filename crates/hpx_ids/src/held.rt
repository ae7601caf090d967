use hpx_value::exact::Exact;
use hpx_value::gid::Gid;
use hpx_value::memory::OutOfMemory;
use std::alloc::Global;

/// Who keeps an id: an object, by its state, or an action, by the place of its origin and its number.
///
/// Owners are equal where all of their fields are, the credit of an object's id included. So an object stands under its
/// bare id, at `adopt` and at `of_owner`.
#[derive(Clone, Copy, Debug, PartialEq, Eq)]
pub enum Owner {
    Object(Gid),
    Action(u16, u64),
}

/// An id that is held, who keeps it, and whether it is asked for: its credit has then left.
#[derive(Clone, Copy, Debug, PartialEq, Eq)]
pub struct Held {
    pub gid: Gid,
    pub owner: Owner,
    pub asking: bool,
}

impl Exact for Owner {
    fn duplicate(&self, _alloc: Global) -> Result<Owner, OutOfMemory> {
        Ok(*self)
    }

    fn same(&self, other: &Owner) -> bool {
        match self {
            Owner::Object(gid) => match other {
                Owner::Object(there) => gid.same(there),
                Owner::Action(_, _) => false,
            },
            Owner::Action(origin, serial) => match other {
                Owner::Object(_) => false,
                Owner::Action(place, number) => *origin == *place && *serial == *number,
            },
        }
    }
}
