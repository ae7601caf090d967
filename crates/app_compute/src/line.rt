//! The lines of the top call, and what they ask for.
ghost use Rattle.std.specs.Prelude.{◌≡◌, IfOk, map};
ghost use Rattle.std.specs.List.{slice_split};
ghost use Rattle.app_compute.specs.Lines.{fib_line, is_space, number_from, number_in, question_by, question_in, question_of};

use hpx_value::items::{Items, Text};
use hpx_value::memory::OutOfMemory;
use std::alloc::Global;

/// A question for a Fibonacci number.
#[derive(Clone, Copy, Debug, PartialEq, Eq)]
pub struct Question {
    pub number: u32,
    pub threshold: u32,
}

const MOST: u32 = 92;

const LEAST_THRESHOLD: u32 = 2;

/// The line that asks for a Fibonacci number.
pub fn fib_line(alloc: Global, number: u32, threshold: u32) -> Result<Text, OutOfMemory>
    ensures { IfOk result (λ line. line ≡ fib_line number threshold) }
{
    Ok(Items::from_vec(format!(in alloc; "fib {number} {threshold}")?.into_bytes()))
}

/// What a line asks for.
pub fn question_of(alloc: Global, line: &[u8]) -> Result<Option<Question>, OutOfMemory>
    ensures { IfOk result (λ asked. asked ≡ question_of line.now) }
{
    let words = words(alloc, line)?;
    Ok(match words.as_slice() {
        [word, number, threshold] if *word == b"fib".as_slice() => {
            question_by(number_in(MOST, number), number_in(MOST, threshold))
        }
        _ => None,
    })
}

/// The words of a line.
pub(crate) fn words(alloc: Global, line: &[u8]) -> Result<Vec<&[u8]>, OutOfMemory>
    ensures { IfOk result (λ words. map (λ w. w.now) words.items ≡ slice_split is_space line.now) }
{
    Ok(line.split(|b| *b == b' ').collect(alloc)?)
}

/// A question with these numbers.
fn question_by(number: Option<u32>, threshold: Option<u32>) -> Option<Question>
    ensures { result ≡ question_by number threshold }
{
    match (number, threshold) {
        (Some(number), Some(threshold)) if LEAST_THRESHOLD <= threshold => {
            Some(Question { number, threshold })
        }
        _ => None,
    }
}

/// The number that a word is, where it is no greater than a bound.
pub(crate) fn number_in(most: u32, word: &[u8]) -> Option<u32>
    ensures { result ≡ number_in most word.now }
{
    if word.is_empty() {
        return None;
    }
    number_from(most, 0, word)
}

/// A number that goes on with these digits.
fn number_from(most: u32, value: u32, digits: &[u8]) -> Option<u32>
    ensures { result ≡ number_from most value digits.now }
{
    match digits {
        [] => Some(value),
        [digit, rest @ ..] => {
            if !digit.is_ascii_digit() {
                return None;
            }
            let value = value
                .checked_mul(10)?
                .checked_add(u32::from(*digit - b'0'))?;
            if value > most {
                return None;
            }
            number_from(most, value, rest)
        }
    }
}
