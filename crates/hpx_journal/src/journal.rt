ghost use Rattle.std.specs.Prelude.{◌≡◌, ◌≤◌, ◌<◌, ◌+◌, ◌-◌, ◌^◌, ◌∷◌, ◌++◌, ◌↔◌, [], List, min, length, IsTrue, OnOk, OnErr, slice_get, option_copied};
ghost use Rattle.hpx_value.specs.Shapes.{value_size};
ghost use Rattle.hpx_journal.specs.Weights.{state_size, weight_of, total_weight, HasRoom};

use crate::entry::{Entry, Event};
use hpx_value::memory::OutOfMemory;
use hpx_value::value::{State, Value};
use std::alloc::Global;
use std::marker::Model;

/// The entries so far, and for how many more there is memory.
#[derive(Drop)]
pub struct Journal {
    items: Vec<Entry>,
    weight: u64,
}

impl Model for Journal {
    ghost use Rattle.std.specs.Prelude.{◌≡◌, ◌-◌, ◌^◌, min, length, vec_capacity};
    ghost use Rattle.hpx_journal.specs.Weights.{Book, total_weight};

    ghost Value = { Book };

    ghost view = { λ j. record { entries = j.items.items; spare = vec_capacity j.items - length j.items.items } };

    ghost invariant = { λ j. j.weight ≡ min (2 ^ 64 - 1) (total_weight j.items.items) };
}

/// The greatest number of entries, and of the weight of all.
const MOST_ENTRIES: u64 = 2_097_152;

const MOST_WEIGHT: u64 = 1 << 30;
/// What one turn may add at most.
const TURN_ENTRIES: u64 = 1_024;

const TURN_WEIGHT: u64 = 16_777_216;

impl Journal {
    /// No entries.
    pub fn new(alloc: Global) -> Journal
        ensures { result.entries ≡ [] }
    {
        Journal {
            items: Vec::new(alloc),
            weight: 0,
        }
    }

    /// Makes memory for so many more entries.
    pub fn reserve(&mut self, n: u32) -> Result<(), OutOfMemory>
        ensures entries { self.new.entries ≡ self.old.entries }
        ensures spare { OnOk result (n ≤ self.new.spare) }
        ensures kept { self.old.spare ≤ self.new.spare }
    {
        self.items.reserve(n as usize)?;
        Ok(())
    }

    /// One more entry. It takes no memory.
    pub fn push(&mut self, entry: Entry)
        requires { 1 ≤ self.old.spare }
        ensures entries { self.new.entries ≡ self.old.entries ++ entry ∷ [] }
        ensures spare { self.new.spare ≡ self.old.spare - 1 }
    {
        self.weight = self.weight.saturating_add(weight_of(&entry));
        self.items.push_reserved(entry);
    }

    /// How many entries there are.
    pub fn entries(&self) -> u64
        ensures { result ≡ length self.now.entries }
    {
        self.items.len() as u64
    }

    /// What they weigh together, or `2^64 - 1` where that is more.
    pub fn weight(&self) -> u64
        ensures { result ≡ min (2 ^ 64 - 1) (total_weight self.now.entries) }
    {
        self.weight
    }

    /// Whether there is room for one more turn.
    pub fn room(&self) -> bool
        ensures { IsTrue result ↔ HasRoom self.now.entries }
    {
        self.items.len() as u64 <= MOST_ENTRIES - TURN_ENTRIES
            && self.weight <= MOST_WEIGHT - TURN_WEIGHT
    }

    /// The entries, in order.
    pub fn as_slice(&self) -> &[Entry]
        ensures { result.now ≡ self.now.entries }
    {
        self.items.as_slice()
    }

    /// The entry at a place, from 0.
    pub fn entry(&self, i: u64) -> Option<&Entry>
        ensures { option_copied result ≡ slice_get self.now.entries i }
    {
        self.items.as_slice().get(i as usize)
    }
}

/// How many bytes a value takes as it is spelled, an id 16 of them.
fn value_size(value: &Value) -> u64
    ensures { result ≡ min (2 ^ 64 - 1) (value_size value.now) }
{
    match value {
        Value::Unit => 1,
        Value::Flag(_) => 2,
        Value::Int(_) => 9,
        Value::Text(text) => (text.len() as u64).saturating_add(3),
        Value::Ref(_) => 17,
        Value::Fault(_) => 2,
        Value::Ints(numbers) => (numbers.len() as u64).saturating_mul(8).saturating_add(3),
    }
}

/// How many bytes a state takes as it is spelled.
fn state_size(state: &State) -> u64
    ensures { result ≡ min (2 ^ 64 - 1) (state_size state.now) }
{
    let mut size = (state.conts.len() as u64)
        .saturating_mul(20)
        .saturating_add(8);
    for value in state.values.as_slice() {
        size = size.saturating_add(value_size(value));
    }
    size
}

/// What an entry weighs: 64, and the byte strings, states and prints in it.
fn weight_of(entry: &Entry) -> u64
    ensures { result ≡ min (2 ^ 64 - 1) (weight_of entry.now) }
{
    let bytes = match &entry.event {
        Event::Line { action: _, bytes } => bytes.len() as u64,
        Event::Born { object: _, state } => state_size(state),
        Event::Print { bytes } => bytes.len() as u64,
        Event::Out { to: _, bytes } => bytes.len() as u64,
        Event::In { bytes } => bytes.len() as u64,
        _ => 0,
    };
    bytes.saturating_add(64)
}
