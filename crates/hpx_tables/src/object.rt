//! What names an object, as a key.
ghost use Rattle.std.specs.Prelude.{◌≡◌};
ghost use Rattle.hpx_value.specs.Ids.{bare};
ghost use Rattle.hpx_tables.specs.Objects.{id_of};

use hpx_value::gid::Gid;

/// What names an object.
#[derive(Clone, Copy, Debug, PartialEq, Eq, Hash)]
pub(crate) struct Object {
    home: u32,
    kind: u32,
    number: u64,
}

/// The key of an id.
pub(crate) fn key_of(gid: Gid) -> Object
    ensures { id_of result ≡ bare gid }
{
    Object {
        home: gid.home(),
        kind: gid.kind(),
        number: gid.number(),
    }
}
