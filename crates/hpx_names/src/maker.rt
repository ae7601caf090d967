//! The namespace of components, which makes objects.
ghost use Rattle.std.specs.Prelude.{◌≡◌, IfOk};
ghost use Rattle.hpx_calls.specs.Values.{spelled};
ghost use Rattle.hpx_calls.specs.Tables.{makes, makes_bare, makes_counted, makes_row, on_maker, with_one};

use hpx_calls::answer::{leaves, refuses, wrong};
use hpx_calls::codes::NO_KIND;
use hpx_calls::content::Content;
use hpx_calls::effect::{Called, Effect};
use hpx_calls::read::{MOST_LEFT, MOST_TO_ARRIVE, count_in};
use hpx_calls::request::Request;
use hpx_value::exact::Exact;
use hpx_value::items::Items;
use hpx_value::memory::OutOfMemory;
use hpx_value::value::Value;
use std::alloc::Global;

const MOST_NUMBERS: usize = 1024;

/// What is asked of the namespace of components.
pub fn on_maker(alloc: Global, request: Request<Value>) -> Result<Called<Value>, OutOfMemory>
    ensures { IfOk result (λ called. called ≡ on_maker spelled request) }
{
    match request {
        Request::New { name, values } => makes(alloc, name.as_slice(), values.as_slice()),
        _ => Ok(wrong(Content::Maker)),
    }
}

/// An object of the kind that a name says, by the kind's values.
fn makes(alloc: Global, name: &[u8], values: &[Value]) -> Result<Called<Value>, OutOfMemory>
    ensures { IfOk result (λ called. called ≡ makes spelled name.now values.now) }
{
    if name == b"accumulator".as_slice() {
        Ok(made_bare(Content::Number(0), values))
    } else if name == b"partition".as_slice() {
        made_row(alloc, values)
    } else if name == b"promise".as_slice() {
        Ok(made_bare(Content::Promise(None), values))
    } else if name == b"channel".as_slice() {
        let content = Content::Channel {
            closed: false,
            kept: Items::new(alloc),
        };
        Ok(made_bare(content, values))
    } else if name == b"latch".as_slice() {
        Ok(made_latch(values))
    } else if name == b"barrier".as_slice() {
        Ok(made_barrier(values))
    } else {
        Ok(refuses(Content::Maker, NO_KIND))
    }
}

/// An object whose kind takes no values.
fn made_bare(content: Content<Value>, values: &[Value]) -> Called<Value>
    ensures { result ≡ makes_bare spelled content values.now }
{
    if values.is_empty() {
        leaves(Content::Maker, Effect::Makes(content))
    } else {
        wrong(Content::Maker)
    }
}

/// A partition of from 1 to 1,024 numbers.
fn made_row(alloc: Global, values: &[Value]) -> Result<Called<Value>, OutOfMemory>
    ensures { IfOk result (λ called. called ≡ with_one spelled (makes_row spelled) values.now) }
{
    match values {
        [Value::Ints(numbers)] => {
            if 1 <= numbers.len() && numbers.len() <= MOST_NUMBERS {
                let row = Content::Row(numbers.duplicate(alloc)?);
                Ok(leaves(Content::Maker, Effect::Makes(row)))
            } else {
                Ok(wrong(Content::Maker))
            }
        }
        _ => Ok(wrong(Content::Maker)),
    }
}

/// A latch from 1 on.
fn made_latch(values: &[Value]) -> Called<Value>
    ensures { result ≡ with_one spelled (makes_counted spelled 1000000 (λ n. Content.Latch n)) values.now }
{
    match values {
        [Value::Int(left)] => match count_in(MOST_LEFT, *left) {
            Some(left) if 1 <= left => leaves(Content::Maker, Effect::Makes(Content::Latch(left))),
            _ => wrong(Content::Maker),
        },
        _ => wrong(Content::Maker),
    }
}

/// A barrier of 1 at least.
fn made_barrier(values: &[Value]) -> Called<Value>
    ensures { result ≡ with_one spelled (makes_counted spelled 100 (λ n. Content.Barrier n)) values.now }
{
    match values {
        [Value::Int(size)] => match count_in(MOST_TO_ARRIVE, *size) {
            Some(size) if 1 <= size => {
                leaves(Content::Maker, Effect::Makes(Content::Barrier(size)))
            }
            _ => wrong(Content::Maker),
        },
        _ => wrong(Content::Maker),
    }
}
