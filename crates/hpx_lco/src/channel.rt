//! Channels: values go to those that ask, each to one, in order.
ghost use Rattle.std.specs.Prelude.{◌≡◌, IfOk};
ghost use Rattle.hpx_calls.specs.Values.{spelled};
ghost use Rattle.hpx_calls.specs.Tables.{closes, on_channel, receives, sends, sends_small};

use hpx_calls::answer::{does, leaves, refuses, waits, wrong};
use hpx_calls::codes::{CLOSED, FULL};
use hpx_calls::content::Content;
use hpx_calls::effect::{Called, Effect};
use hpx_calls::read::is_small;
use hpx_calls::request::Request;
use hpx_value::items::Items;
use hpx_value::memory::OutOfMemory;
use hpx_value::value::{Value, Values};

const MOST_WAITING: usize = 100;

const MOST_KEPT: usize = 1000;

/// What is asked of a channel.
pub fn on_channel(
    waiting: usize,
    closed: bool,
    kept: Values,
    request: Request<Value>,
) -> Result<Called<Value>, OutOfMemory>
    ensures { IfOk result (λ called. called ≡ on_channel spelled waiting closed kept request) }
{
    match request {
        Request::Set { slot, value } => {
            if slot == 0 {
                sends_small(waiting, closed, kept, value)
            } else {
                Ok(leaves(Content::Channel { closed, kept }, Effect::Silent))
            }
        }
        Request::Put(value) => sends_small(waiting, closed, kept, value),
        Request::Get => Ok(receives(waiting, closed, kept)),
        Request::Close => Ok(closes(waiting, closed, kept)),
        _ => Ok(wrong(Content::Channel { closed, kept })),
    }
}

/// A value that a channel takes goes on, and no other.
fn sends_small(
    waiting: usize,
    closed: bool,
    kept: Values,
    value: Value,
) -> Result<Called<Value>, OutOfMemory>
    ensures { IfOk result (λ called. called ≡ sends_small spelled waiting closed kept value) }
{
    if is_small(&value) {
        sends(waiting, closed, kept, value)
    } else {
        Ok(wrong(Content::Channel { closed, kept }))
    }
}

/// A value goes to the one that waits longest, or is kept last.
fn sends(
    waiting: usize,
    closed: bool,
    kept: Values,
    value: Value,
) -> Result<Called<Value>, OutOfMemory>
    ensures { IfOk result (λ called. called ≡ sends spelled waiting closed kept value) }
{
    if closed {
        return Ok(refuses(Content::Channel { closed: true, kept }, CLOSED));
    }
    if waiting > 0 {
        return Ok(leaves(
            Content::Channel {
                closed: false,
                kept,
            },
            Effect::Frees {
                count: 1,
                value,
                own: Value::Unit,
            },
        ));
    }
    if kept.len() == MOST_KEPT {
        return Ok(refuses(
            Content::Channel {
                closed: false,
                kept,
            },
            FULL,
        ));
    }
    let mut kept = kept;
    kept.push(value)?;
    Ok(does(Content::Channel {
        closed: false,
        kept,
    }))
}

/// The oldest value, or a wait for one.
fn receives(waiting: usize, closed: bool, kept: Values) -> Called<Value>
    ensures { result ≡ receives spelled waiting closed kept }
{
    let mut values = kept.into_vec();
    if values.is_empty() {
        let content = Content::Channel {
            closed,
            kept: Items::from_vec(values),
        };
        if closed {
            return refuses(content, CLOSED);
        }
        return waits(content, MOST_WAITING, waiting);
    }
    let oldest = values.remove(0);
    leaves(
        Content::Channel {
            closed,
            kept: Items::from_vec(values),
        },
        Effect::Answers(oldest),
    )
}

/// All that wait are told.
fn closes(waiting: usize, closed: bool, kept: Values) -> Called<Value>
    ensures { result ≡ closes spelled waiting closed kept }
{
    if closed {
        return refuses(Content::Channel { closed: true, kept }, CLOSED);
    }
    leaves(
        Content::Channel { closed: true, kept },
        Effect::Frees {
            count: waiting,
            value: Value::Fault(CLOSED),
            own: Value::Unit,
        },
    )
}
