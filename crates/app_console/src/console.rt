//! Words, numbers, and the texts of numbers and faults.
ghost use Rattle.std.specs.Prelude.{◌≡◌, IfOk, map};
ghost use Rattle.app_console.specs.Console.{words_of, number_of, number_text, fault_word, fault_text};

use hpx_value::memory::OutOfMemory;
use std::alloc::Global;

/// The words of a line.
pub fn words(alloc: Global, line: &[u8]) -> Result<Vec<&[u8]>, OutOfMemory>
    ensures { IfOk result (λ words. map (λ w. w.now) words.items ≡ words_of line.now) }
{
    Ok(
        line.split(|b| *b == b' ' || *b == b'\t')
            .filter(|word| !word.is_empty())
            .collect(alloc)?,
    )
}

/// The number that a word is, if it is one.
pub fn number(word: &[u8]) -> Option<i64>
    ensures { result ≡ number_of word.now }
{
    if word.starts_with(b"+") {
        return None;
    }
    match std::str::from_utf8(word) {
        Ok(text) => text.parse().ok(),
        Err(_) => None,
    }
}

/// The word for a fault.
fn fault_word(code: u8) -> &'static str
    ensures { result.now ≡ fault_word code }
{
    match code {
        1 => "overflow",
        2 => "taken",
        3 => "no such name",
        4 => "no such kind",
        5 => "credit limit",
        6 => "already set",
        7 => "no such slot",
        8 => "closed",
        9 => "spent",
        10 => "full",
        11 => "wrong kind",
        _ => "",
    }
}

/// What is printed for a number.
pub fn number_text(alloc: Global, number: i64) -> Result<Vec<u8>, OutOfMemory>
    ensures { IfOk result (λ text. text.items ≡ number_text number) }
{
    Ok(format!(in alloc; "{number}\n")?.into_bytes())
}

/// What is printed for a fault.
pub fn fault_text(alloc: Global, code: u8) -> Result<Vec<u8>, OutOfMemory>
    ensures { IfOk result (λ text. text.items ≡ fault_text code) }
{
    let word = fault_word(code);
    Ok(format!(in alloc; "error: {word}\n")?.into_bytes())
}
