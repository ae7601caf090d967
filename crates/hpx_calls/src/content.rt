//! What objects hold, and how the values of a state are laid out.
//!
//! - A table (Symbols, Shelf): for each pair its key, a Text, and then its object, a Ref.
//! - Components: no values. Localities: their number, an Int.
//! - An accumulator: its number, an Int. A partition: its numbers, Ints.
//! - A promise: its value, or no values.
//! - A dataflow: its code and the number of its inputs, two Ints, and then for each value that came the number of its
//!   input, an Int, and the value. One that has started: the two Ints, and Unit.
//! - A channel: whether it is closed, a Flag, and then its values, the oldest first.
//! - A latch: how many DOWNs are left, an Int. A barrier: how many are to arrive, an Int.
ghost use Rattle.std.specs.Prelude.{◌≡◌, ◌∷◌, [], IfOk, pos};
ghost use Rattle.hpx_calls.specs.Values.{spelled};
ghost use Rattle.hpx_calls.specs.Contents.{layout, pairs_out, given_out};

use hpx_value::items::{Ints, Items, Text};
use hpx_value::memory::OutOfMemory;
use hpx_value::value::{Value, Values};
use std::alloc::Global;

/// A key and what it stands for.
#[derive(Drop)]
pub struct Pair<V> {
    pub key: Text,
    pub to: V,
}

/// The value of an input.
#[derive(Drop)]
pub struct Given<V> {
    pub slot: u32,
    pub value: V,
}

/// What an object holds, by its kind.
#[derive(Drop)]
pub enum Content<V> {
    /// Keys in the order of their bytes.
    Table(Items<Pair<V>>),
    Maker,
    Size(u32),
    Number(i64),
    Row(Ints),
    Promise(Option<V>),
    /// The values in the order in which they came.
    Dataflow {
        code: u16,
        inputs: u32,
        given: Items<Given<V>>,
    },
    Started {
        code: u16,
        inputs: u32,
    },
    /// The oldest value first.
    Channel {
        closed: bool,
        kept: Items<V>,
    },
    Latch(u32),
    Barrier(u32),
    /// Values that are not of the shape or within the bounds of the kind.
    Unreadable(Items<V>),
}

impl Content<Value> {
    /// The values of a state that holds this.
    pub fn into_values(self, alloc: Global) -> Result<Values, OutOfMemory>
        ensures { IfOk result (λ values. values ≡ layout spelled self) }
    {
        match self {
            Content::Table(pairs) => pairs_out(alloc, pairs),
            Content::Maker => Ok(Items::new(alloc)),
            Content::Size(count) => one(alloc, Value::Int(i64::from(count))),
            Content::Number(number) => one(alloc, Value::Int(number)),
            Content::Row(numbers) => one(alloc, Value::Ints(numbers)),
            Content::Promise(None) => Ok(Items::new(alloc)),
            Content::Promise(Some(value)) => one(alloc, value),
            Content::Dataflow {
                code,
                inputs,
                given,
            } => given_out(alloc, code, inputs, given),
            Content::Started { code, inputs } => {
                let mut values = one(alloc, Value::Int(i64::from(code)))?;
                values.push(Value::Int(i64::from(inputs)))?;
                values.push(Value::Unit)?;
                Ok(values)
            }
            Content::Channel { closed, kept } => channel_out(closed, kept),
            Content::Latch(left) => one(alloc, Value::Int(i64::from(left))),
            Content::Barrier(size) => one(alloc, Value::Int(i64::from(size))),
            Content::Unreadable(values) => Ok(values),
        }
    }
}

/// A list of one.
pub fn one<T: Drop>(alloc: Global, item: T) -> Result<Items<T>, OutOfMemory>
    ensures { IfOk result (λ items. items ≡ item ∷ []) }
{
    let mut items = Items::new(alloc);
    items.push(item)?;
    Ok(items)
}

/// The mark, and then the values.
fn channel_out(closed: bool, kept: Values) -> Result<Values, OutOfMemory>
    ensures { IfOk result (λ values. values ≡ Value.Flag closed ∷ kept) }
{
    let mut values = kept.into_vec();
    values.insert(0, Value::Flag(closed))?;
    Ok(Items::from_vec(values))
}

/// The keys, each with its object.
#[tactic(auto, using(crate::proofs::Layouts::pairs_more))]
fn pairs_out(alloc: Global, pairs: Items<Pair<Value>>) -> Result<Values, OutOfMemory>
    ensures { IfOk result (λ values. values ≡ pairs_out spelled pairs) }
{
    let mut values = Items::new(alloc);
    for pair in pairs.into_vec() {
        values.push(Value::Text(pair.key))?;
        values.push(pair.to)?;
    }
    Ok(values)
}

/// The code and the number of inputs, and then the values with the numbers of their inputs.
#[tactic(auto, using(crate::proofs::Layouts::given_more))]
fn given_out(
    alloc: Global,
    code: u16,
    inputs: u32,
    given: Items<Given<Value>>,
) -> Result<Values, OutOfMemory>
    ensures { IfOk result (λ values. values ≡ Value.Int (pos code) ∷ Value.Int (pos inputs) ∷ given_out spelled given) }
{
    let mut values = one(alloc, Value::Int(i64::from(code)))?;
    values.push(Value::Int(i64::from(inputs)))?;
    for one in given.into_vec() {
        values.push(Value::Int(i64::from(one.slot)))?;
        values.push(one.value)?;
    }
    Ok(values)
}
