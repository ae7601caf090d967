//! What the session prints.
ghost use Rattle.std.specs.Prelude.{◌≡◌, ◌∷◌, ◌++◌, [], IfOk};
ghost use Rattle.hpx_calls.specs.Values.{spelled};
ghost use Rattle.app_console.specs.Commands.{answer_text, clipped, told_text, help_of, refusal_word, refusal_text};
ghost use Rattle.app_console.specs.Session.{printed};

use crate::console::{fault_text, number_text};
use crate::desk::What;
use crate::plan::Refusal;
use crate::table::Console;
use hpx_calls::codes::FULL;
use hpx_calls::content::one;
use hpx_value::items::{Items, Texts};
use hpx_value::memory::OutOfMemory;
use hpx_value::value::Value;
use std::alloc::Global;

/// The most bytes that are printed at once.
const MOST_PRINTED: usize = 16_384;

/// What a console prints first, and for `help`.
pub fn help(console: Console) -> &'static [u8]
    ensures { result.now ≡ help_of console }
{
    match console {
        Console::Space => {
            b"commands: new, add, query, move, where, drop, share, unshare, register, lookup, unregister, names, localities, promise, channel, latch, barrier, put, get, close, down, wait, arrive, hold, turn, drain, audit, counter, help, quit\n"
        }
        Console::Accumulator => b"commands: reset, add [amount], query, help, quit\n",
        Console::Own => b"commands: help, quit\n",
    }
}

fn refusal_word(refusal: Refusal) -> &'static str
    ensures { result.now ≡ refusal_word refusal }
{
    match refusal {
        Refusal::BadCommand => "bad command",
        Refusal::BadName => "bad name",
        Refusal::NameInUse => "name in use",
        Refusal::UnknownName => "unknown name",
        Refusal::NotReady => "not ready",
        Refusal::NoSuchLocality => "no such locality",
        Refusal::BadNumber => "bad number",
        Refusal::NotMovable => "not movable",
        Refusal::TooManyNames => "too many names",
        Refusal::TooManyPending => "too many pending",
    }
}

/// What is printed for a line that is refused.
pub fn refusal_text(alloc: Global, refusal: Refusal) -> Result<Vec<u8>, OutOfMemory>
    ensures { IfOk result (λ text. text.items ≡ refusal_text refusal) }
{
    let word = refusal_word(refusal);
    Ok(format!(in alloc; "error: {word}\n")?.into_bytes())
}

/// What is printed for an answer.
pub fn answer_text(alloc: Global, what: &What, value: &Value) -> Result<Vec<u8>, OutOfMemory>
    ensures { IfOk result (λ text. text.items ≡ answer_text what.now (spelled.look value.now)) }
{
    if let Value::Fault(code) = value {
        return fault_text(alloc, *code);
    }
    match what {
        What::Tells => told_text(alloc, value),
        What::Releases => Ok(b"released\n".to_vec(alloc)?),
        _ => Ok(Vec::new(alloc)),
    }
}

fn told_text(alloc: Global, value: &Value) -> Result<Vec<u8>, OutOfMemory>
    ensures { IfOk result (λ text. text.items ≡ told_text (spelled.look value.now)) }
{
    match value {
        Value::Int(number) => number_text(alloc, *number),
        Value::Text(bytes) => clipped(alloc, bytes.as_slice()),
        _ => Ok(Vec::new(alloc)),
    }
}

/// A line of text, or the fault that it is too long.
fn clipped(alloc: Global, bytes: &[u8]) -> Result<Vec<u8>, OutOfMemory>
    ensures { IfOk result (λ text. text.items ≡ clipped (bytes.now ++ 10 ∷ [])) }
{
    let mut text = bytes.to_vec(alloc)?;
    text.push(b'\n')?;
    if text.len() <= MOST_PRINTED {
        Ok(text)
    } else {
        fault_text(alloc, FULL)
    }
}

/// A text as it is printed, unless it is empty.
pub fn printed(alloc: Global, text: Vec<u8>) -> Result<Texts, OutOfMemory>
    ensures { IfOk result (λ texts. texts ≡ printed text.items) }
{
    if text.is_empty() {
        Ok(Items::new(alloc))
    } else {
        one(alloc, Items::from_vec(text))
    }
}
