//! Objects that are about to be made.
ghost use Rattle.std.specs.Prelude.{◌≡◌, IfOk, map};
ghost use Rattle.hpx_value.specs.Laws.{birth_state};
ghost use Rattle.hpx_tables.specs.Births.{birth_of};

use hpx_value::exact::Exact;
use hpx_value::items::Items;
use hpx_value::memory::OutOfMemory;
use hpx_value::outcome::Make;
use hpx_value::value::State;
use std::alloc::Global;
use std::collections::VecDeque;

/// An object that is about to be made: its kind, its state, and the state once more for its entry.
#[derive(Drop)]
pub struct Birth {
    pub kind: u32,
    pub state: State,
    pub entry: State,
}

/// The state of an object at its birth.
fn birth_state(alloc: Global, make: &Make) -> Result<State, OutOfMemory>
    ensures { IfOk result (λ state. state ≡ birth_state make.now) }
{
    Ok(State {
        drawn: 0,
        values: make.values.duplicate(alloc)?,
        conts: Items::new(alloc),
        ids: Items::new(alloc),
    })
}

/// What is about to be made.
pub fn births(alloc: Global, makes: &[Make]) -> Result<VecDeque<Birth>, OutOfMemory>
    ensures { IfOk result (λ out. out.items ≡ map birth_of makes.now) }
{
    let mut out = VecDeque::new(alloc);
    for make in makes {
        out.push_back(Birth {
            kind: make.kind,
            state: birth_state(alloc, make)?,
            entry: birth_state(alloc, make)?,
        })?;
    }
    Ok(out)
}
