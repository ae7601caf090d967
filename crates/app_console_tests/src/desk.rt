//! States of a session and of an accumulator, and the actions on them.
ghost use Rattle.std.specs.Prelude.{◌≡◌, ◌⊎◌};

use app_console::act::{ACCUMULATOR_KIND, console_act};
use hpx_value::codes::{ADD, LINE, SESSION, SET};
use hpx_value::gid::Gid;
use hpx_value::items::{Items, Text};
use hpx_value::memory::OutOfMemory;
use hpx_value::outcome::Outcome;
use hpx_value::value::{Act, Cont, State, Value, Values};
use std::alloc::Global;

/// What is done with an awaited answer.
#[derive(Clone, Copy)]
pub enum Said {
    Nothing,
    Told,
    Released,
    Bound(&'static [u8]),
}

/// What a name stands for.
#[derive(Clone, Copy)]
pub enum Stands {
    Accumulator,
    Latch,
    /// Its object has not come.
    Pending,
}

/// A name, and what it stands for.
pub type Name = (&'static [u8], Stands);

pub fn text(alloc: Global, bytes: &[u8]) -> Result<Text, OutOfMemory> {
    Ok(Items::from_vec(bytes.to_vec(alloc)?))
}

/// A session with these names, which waits for these answers.
pub fn session(
    alloc: Global,
    names: &[Name],
    awaits: &[(u32, Said)],
) -> Result<State, OutOfMemory> {
    let mut values = Items::new(alloc);
    let mut ids = Items::new(alloc);
    let mut place = 0u16;
    for (name, stands) in names {
        values.push(Value::Text(text(alloc, name)?))?;
        let id = match stands {
            Stands::Accumulator => Gid::new(1, 16, 1),
            Stands::Latch => Gid::new(1, 35, 2),
            Stands::Pending => {
                values.push(Value::Unit)?;
                continue;
            }
        };
        values.push(Value::Ref(place))?;
        ids.push(id)?;
        place = place.saturating_add(1);
    }
    for (slot, said) in awaits {
        values.push(Value::Int(i64::from(*slot)))?;
        values.push(match said {
            Said::Nothing => Value::Int(0),
            Said::Told => Value::Int(1),
            Said::Released => Value::Int(2),
            Said::Bound(name) => Value::Text(text(alloc, name)?),
        })?;
    }
    Ok(State {
        drawn: 7,
        values,
        conts: Items::new(alloc),
        ids,
    })
}

fn action(alloc: Global, code: u16, args: Values) -> Act {
    Act {
        origin: 0,
        serial: 1,
        code,
        args,
        cont: None,
        ids: Items::new(alloc),
    }
}

/// What a session or an accumulator does, at the second of two localities.
fn acted(alloc: Global, kind: u32, state: &State, action: &Act) -> Result<Outcome, OutOfMemory>
    requires { (kind ≡ 1) ⊎ (kind ≡ 16) }
{
    console_act(alloc, kind, 1, 2, state, action)
}

/// What a line behind a mark does.
pub fn fed(alloc: Global, state: &State, mark: u8, line: &[u8]) -> Result<Outcome, OutOfMemory> {
    let mut bytes = Vec::new(alloc);
    bytes.push(mark)?;
    bytes.extend_from_slice(line)?;
    let mut args = Items::new(alloc);
    args.push(Value::Text(Items::from_vec(bytes)))?;
    acted(alloc, SESSION, state, &action(alloc, LINE, args))
}

/// What an answer to a slot does.
pub fn answered(
    alloc: Global,
    state: &State,
    slot: i64,
    value: Value,
) -> Result<Outcome, OutOfMemory> {
    let mut args = Items::new(alloc);
    args.push(Value::Int(slot))?;
    args.push(value)?;
    acted(alloc, SESSION, state, &action(alloc, SET, args))
}

/// What an accumulator with a number does where another is added.
pub fn added(alloc: Global, number: i64, other: i64) -> Result<Outcome, OutOfMemory> {
    let mut values = Items::new(alloc);
    values.push(Value::Int(number))?;
    let state = State {
        drawn: 0,
        values,
        conts: Items::new(alloc),
        ids: Items::new(alloc),
    };
    let mut args = Items::new(alloc);
    args.push(Value::Int(other))?;
    let mut add = action(alloc, ADD, args);
    add.ids.push(Gid::new(0, SESSION, 1))?;
    add.cont = Some(Cont { place: 0, slot: 3 });
    acted(alloc, ACCUMULATOR_KIND, &state, &add)
}

/// All that an outcome prints.
pub fn printed(alloc: Global, outcome: &Outcome) -> Result<Vec<u8>, OutOfMemory> {
    let mut all = Vec::new(alloc);
    for print in outcome.prints.as_slice() {
        all.extend_from_slice(print.as_slice())?;
    }
    Ok(all)
}
