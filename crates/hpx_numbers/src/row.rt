//! Partitions: rows of numbers, which go on step by step.
ghost use Rattle.std.specs.Prelude.{◌≡◌, ◌+ℤ◌, ◌<ℤ◌, ◌≤ℤ◌, ◌-ℤ◌, ◌^◌, pos, negsuc, IfOk};
ghost use Rattle.hpx_calls.specs.Values.{spelled};
ghost use Rattle.hpx_calls.specs.Tables.{half, on_row, stepped};
ghost use Rattle.hpx_numbers.specs.Sort.{ahead};

use hpx_calls::answer::{leaves, wrong};
use hpx_calls::content::Content;
use hpx_calls::effect::{Called, Effect};
use hpx_calls::request::Request;
use hpx_value::exact::Exact;
use hpx_value::items::{Ints, Items};
use hpx_value::memory::OutOfMemory;
use hpx_value::value::Value;
use std::alloc::Global;

/// What is asked of a partition.
pub fn on_row(
    alloc: Global,
    numbers: Ints,
    request: Request<Value>,
) -> Result<Called<Value>, OutOfMemory>
    ensures { IfOk result (λ called. called ≡ on_row spelled numbers request) }
{
    match request {
        Request::Step { left, right } => {
            let next = stepped(alloc, left, numbers.as_slice(), right)?;
            let answer = next.duplicate(alloc)?;
            Ok(leaves(Content::Row(next), Effect::Answers(Value::Ints(answer))))
        }
        _ => Ok(wrong(Content::Row(numbers))),
    }
}

/// Each number becomes half the sum of those at its sides.
#[tactic(auto, using(crate::proofs::Rows::stepped_on))]
fn stepped(alloc: Global, left: i64, numbers: &[i64], right: i64) -> Result<Ints, OutOfMemory>
    ensures { IfOk result (λ next. next ≡ stepped left numbers.now right) }
{
    let mut next = Items::new(alloc);
    let mut before = left;
    let mut rest = numbers;
    'numbers: while let Some((number, others)) = rest.split_first() {
        next.push(half(before, ahead(others, right)))?;
        before = *number;
        rest = others;
    }
    Ok(next)
}

/// The first of these numbers, or another where there is none.
fn ahead(numbers: &[i64], other: i64) -> i64
    ensures { result ≡ ahead other numbers.now }
{
    match numbers {
        [first, ..] => *first,
        [] => other,
    }
}

/// Half the sum of two numbers, rounded down.
#[tactic(auto, using(crate::proofs::Rows::half_below))]
fn half(left: i64, right: i64) -> i64
    ensures { result ≡ half (left +ℤ right) }
{
    let sum = i128::from(left) + i128::from(right);
    if sum < 0 {
        -1 - halved(-1 - sum)
    } else {
        halved(sum)
    }
}

/// Half a number that is not negative, rounded down.
fn halved(number: i128) -> i64
    requires low { pos 0 ≤ℤ number }
    requires high { number <ℤ pos (2 ^ 64) }
    ensures half { result ≡ half number }
    ensures low { pos 0 ≤ℤ result }
{
    (number / 2) as i64
}
