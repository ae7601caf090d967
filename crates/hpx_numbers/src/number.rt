//! Accumulators: one number, to which others are added.
ghost use Rattle.std.specs.Prelude.{◌≡◌};
ghost use Rattle.hpx_calls.specs.Values.{spelled};
ghost use Rattle.hpx_calls.specs.Tables.{on_number};

use hpx_calls::answer::{does, leaves, refuses, wrong};
use hpx_calls::content::Content;
use hpx_calls::effect::{Called, Effect};
use hpx_calls::request::Request;
use hpx_value::codes::OVERFLOW;
use hpx_value::value::Value;

/// What is asked of an accumulator.
pub fn on_number(number: i64, request: Request<Value>) -> Called<Value>
    ensures { result ≡ on_number spelled number request }
{
    match request {
        Request::Add(amount) => match number.checked_add(amount) {
            Some(sum) => does(Content::Number(sum)),
            None => refuses(Content::Number(number), OVERFLOW),
        },
        Request::Query => leaves(Content::Number(number), Effect::Answers(Value::Int(number))),
        Request::Reset => does(Content::Number(0)),
        _ => wrong(Content::Number(number)),
    }
}
