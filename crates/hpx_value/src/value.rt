ghost use Rattle.std.specs.Prelude.{◌≡◌, ◌↔◌, IfOk, IsTrue};
ghost use Rattle.std.specs.List.{remove};
ghost use Rattle.std.specs.Option.{option_to_list};
ghost use Rattle.hpx_value.specs.Values.{message_of};
ghost use Rattle.hpx_value.specs.Riders.{rider_place, less_one, plain, rider_of};

use crate::codes::{SESSION, SET};
use crate::exact::Exact;
use crate::gid::{Gid, Gids};
use crate::items::{Ints, Items, Text, copied};
use crate::memory::OutOfMemory;
use std::alloc::Global;

/// What actions are given and answer, and states keep.
#[derive(Drop)]
pub enum Value {
    Unit,
    Flag(bool),
    Int(i64),
    Text(Text),
    /// The id at this place of the ids beside the values.
    Ref(u16),
    /// A fault, by its number.
    Fault(u8),
    Ints(Ints),
}

/// Values, in order.
pub type Values = Items<Value>;

/// Where an answer goes: to a slot of the object at this place of the ids beside it.
#[derive(Clone, Copy, Debug, PartialEq, Eq)]
pub struct Cont {
    pub place: u16,
    pub slot: u32,
}

/// Continuations, in order.
pub type Conts = Items<Cont>;

/// What an object keeps. Its ids are the Refs of its values in order, then the targets of its continuations.
#[derive(Drop)]
pub struct State {
    pub drawn: u32,
    pub values: Values,
    pub conts: Conts,
    pub ids: Gids,
}

/// What is to be done, named by the locality where it was sent and a number drawn there. Its ids are the target, the
/// Refs of its arguments in order, then the target of its continuation.
#[derive(Drop)]
pub struct Act {
    pub origin: u16,
    pub serial: u64,
    pub code: u16,
    pub args: Values,
    pub cont: Option<Cont>,
    pub ids: Gids,
}

/// An action without its name.
#[derive(Drop)]
pub struct Message {
    pub code: u16,
    pub args: Values,
    pub cont: Option<Cont>,
    pub ids: Gids,
}

impl Act {
    /// The place of the rider behind the target's, if this is a SET with one.
    fn rider_place(&self) -> Option<u16>
        ensures { result ≡ rider_place (message_of self.now) }
    {
        if self.code != SET {
            return None;
        }
        match self.args.as_slice() {
            [_, _, Value::Ref(place)] if *place > 0 => Some(*place - 1),
            _ => None,
        }
    }

    /// The id of the target that rides with an answer, if this is one with a rider.
    pub fn rider(&self) -> Option<Gid>
        ensures { option_to_list result ≡ rider_of self.now }
    {
        let place = self.rider_place()?;
        match self.ids.as_slice().get(place as usize + 1) {
            Some(id) => Some(*id),
            None => Some(Gid::new(0, SESSION, 1)),
        }
    }

    /// The action as its target sees it: without a rider.
    pub fn plain(&self, alloc: Global) -> Result<Act, OutOfMemory>
        ensures { IfOk result (λ a. a ≡ plain self.now) }
    {
        match self.rider_place() {
            None => self.duplicate(alloc),
            Some(place) => Ok(Act {
                origin: self.origin,
                serial: self.serial,
                code: self.code,
                args: Items::from_vec(copied(alloc, &self.args.as_slice()[..2])?),
                cont: earlier(self.cont),
                ids: without_place(alloc, &self.ids, place as usize + 1)?,
            }),
        }
    }
}

/// The continuation, with its target one place earlier.
fn earlier(cont: Option<Cont>) -> Option<Cont>
    ensures { result ≡ less_one cont }
{
    let cont = cont?;
    Some(Cont {
        place: cont.place.saturating_sub(1),
        slot: cont.slot,
    })
}

/// The ids without the one at a place.
fn without_place(alloc: Global, ids: &Gids, place: usize) -> Result<Gids, OutOfMemory>
    ensures { IfOk result (λ less. less ≡ remove ids.now place) }
{
    let mut less = copied(alloc, ids.as_slice())?;
    if place < less.len() {
        less.remove(place);
    }
    Ok(Items::from_vec(less))
}

impl Exact for Cont {
    fn duplicate(&self, _alloc: Global) -> Result<Cont, OutOfMemory> {
        Ok(*self)
    }

    fn same(&self, other: &Cont) -> bool {
        *self == *other
    }
}

impl Exact for Value {
    fn duplicate(&self, alloc: Global) -> Result<Value, OutOfMemory> {
        match self {
            Value::Unit => Ok(Value::Unit),
            Value::Flag(flag) => Ok(Value::Flag(*flag)),
            Value::Int(number) => Ok(Value::Int(*number)),
            Value::Text(text) => Ok(Value::Text(text.duplicate(alloc)?)),
            Value::Ref(place) => Ok(Value::Ref(*place)),
            Value::Fault(code) => Ok(Value::Fault(*code)),
            Value::Ints(numbers) => Ok(Value::Ints(numbers.duplicate(alloc)?)),
        }
    }

    fn same(&self, other: &Value) -> bool {
        match (self, other) {
            (Value::Unit, Value::Unit) => true,
            (Value::Flag(a), Value::Flag(b)) => *a == *b,
            (Value::Int(a), Value::Int(b)) => *a == *b,
            (Value::Text(a), Value::Text(b)) => a.same(b),
            (Value::Ref(a), Value::Ref(b)) => *a == *b,
            (Value::Fault(a), Value::Fault(b)) => *a == *b,
            (Value::Ints(a), Value::Ints(b)) => a.same(b),
            _ => false,
        }
    }
}

impl Exact for State {
    fn duplicate(&self, alloc: Global) -> Result<State, OutOfMemory> {
        Ok(State {
            drawn: self.drawn,
            values: self.values.duplicate(alloc)?,
            conts: self.conts.duplicate(alloc)?,
            ids: self.ids.duplicate(alloc)?,
        })
    }

    fn same(&self, other: &State) -> bool {
        self.drawn == other.drawn
            && self.values.same(&other.values)
            && self.conts.same(&other.conts)
            && self.ids.same(&other.ids)
    }
}

impl Exact for Act {
    fn duplicate(&self, alloc: Global) -> Result<Act, OutOfMemory> {
        Ok(Act {
            origin: self.origin,
            serial: self.serial,
            code: self.code,
            args: self.args.duplicate(alloc)?,
            cont: self.cont,
            ids: self.ids.duplicate(alloc)?,
        })
    }

    fn same(&self, other: &Act) -> bool {
        self.origin == other.origin
            && self.serial == other.serial
            && self.code == other.code
            && self.args.same(&other.args)
            && self.cont == other.cont
            && self.ids.same(&other.ids)
    }
}
