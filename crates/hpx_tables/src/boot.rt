//! What stands at a locality at boot.
ghost use Rattle.std.specs.Prelude.{◌≡◌, ◌≤◌, ◌<◌, [], ◌∷◌, ◌++◌, ◌==◌, if◌then◌else◌, IfOk, pos};
ghost use Rattle.hpx_journal.specs.Roots.{root, roots, roots_of_first};
ghost use Rattle.hpx_value.specs.declared.value.Value.{Value};

use crate::kept::Kept;
use crate::objects::Objects;
use hpx_value::codes::{COMPONENTS, LOCALITIES, PLAIN, SESSION, SHELF, SYMBOLS};
use hpx_value::gid::Gid;
use hpx_value::items::Items;
use hpx_value::memory::OutOfMemory;
use hpx_value::value::{State, Value};
use std::alloc::Global;

/// A root of a kind.
fn root(alloc: Global, here: u32, kind: u32) -> Kept
    requires here { here < 64 }
    requires kind { kind < 16 }
    requires some { 1 ≤ kind }
    ensures { result ≡ root here kind [] }
{
    Kept::new(
        Gid::new(here, kind, 1),
        State {
            drawn: 0,
            values: Items::new(alloc),
            conts: Items::new(alloc),
            ids: Items::new(alloc),
        },
    )
}

/// The root of the localities, which keeps how many there are.
fn localities_root(alloc: Global, n: u32) -> Result<Kept, OutOfMemory>
    ensures { IfOk result (λ x. x ≡ root 0 4 (Value.Int (pos n) ∷ [])) }
{
    let mut values = Items::new(alloc);
    values.push(Value::Int(n as i64))?;
    Ok(Kept::new(
        Gid::new(0, LOCALITIES, 1),
        State {
            drawn: 0,
            values,
            conts: Items::new(alloc),
            ids: Items::new(alloc),
        },
    ))
}

/// The roots that locality 0 has alone.
fn first_roots(alloc: Global, n: u32, here: u32) -> Result<Objects, OutOfMemory>
    ensures { IfOk result (λ objects. objects.items ≡ (if here == 0 then roots_of_first n else [])) }
{
    let mut objects = Objects::new(alloc);
    if here != 0 {
        return Ok(objects);
    }
    objects.push(root(alloc, 0, SESSION))?;
    objects.push(root(alloc, 0, SYMBOLS))?;
    objects.push(localities_root(alloc, n)?)?;
    Ok(objects)
}

/// What stands at a locality at boot: behind those, the roots that each has.
pub fn roots(alloc: Global, n: u32, here: u32) -> Result<Objects, OutOfMemory>
    requires here { here < 64 }
    ensures { IfOk result (λ objects. objects.items ≡ roots n here) }
{
    let mut objects = first_roots(alloc, n, here)?;
    objects.push(root(alloc, here, COMPONENTS))?;
    objects.push(root(alloc, here, SHELF))?;
    objects.push(root(alloc, here, PLAIN))?;
    Ok(objects)
}
