//! The rows of the tables of words.

use crate::described::meaning;
use std::alloc::{AllocError, Global};

/// A row of a table.
#[derive(Drop)]
pub enum Row<'a> {
    Application(&'a str),
    /// A word up to its number, the application that it stands behind, the range of the number, and what none means.
    Number {
        word: &'a str,
        behind: &'a str,
        least: u128,
        greatest: u128,
        usual: Option<u128>,
    },
}

/// The text of a cell between its first two marks of code.
fn code(cell: &str) -> Option<&str> {
    let (_, behind) = cell.split_once('`')?;
    let (code, _) = behind.split_once('`')?;
    Some(code)
}

/// The row that a line is: one of applications has three cells, and one of numbers five.
pub fn row_of(line: &str) -> Option<Row<'_>> {
    let mut cells = line.split('|');
    let _ = cells.next()?;
    let word = code(cells.next()?)?;
    let behind = cells.next()?;
    let least = cells.next()?;
    let greatest = cells.next()?;
    let Some(usual) = cells.next() else {
        return greatest.is_empty().then_some(Row::Application(word));
    };
    Some(Row::Number {
        word,
        behind: code(behind).unwrap_or("accumulator"),
        least: least.trim().parse().ok()?,
        greatest: greatest.trim().parse().ok()?,
        usual: usual.trim().parse().ok(),
    })
}

/// Whether a row is what the command line takes.
pub fn holds(alloc: Global, row: &Row<'_>) -> Result<bool, AllocError> {
    match row {
        Row::Application(word) => {
            let means = meaning(alloc, *word)?;
            Ok(!means.as_str().starts_with("bad word"))
        }
        Row::Number {
            word,
            behind,
            least,
            greatest,
            usual,
        } => {
            let fits = takes(alloc, *behind, *word, *least)?
                && takes(alloc, *behind, *word, *greatest)?
                && (*least == 0 || !takes(alloc, *behind, *word, least.saturating_sub(1))?)
                && !takes(alloc, *behind, *word, greatest.saturating_add(1))?;
            match usual {
                Some(usual) => Ok(fits && means_nothing(alloc, *behind, *word, *usual)?),
                None => Ok(fits),
            }
        }
    }
}

/// Whether a word with this number is taken behind an application. What other words it needs may be missing.
fn takes(alloc: Global, behind: &str, word: &str, number: u128) -> Result<bool, AllocError> {
    let line = format!(in alloc; "{behind} {word}{number}")?;
    let means = meaning(alloc, line.as_str())?;
    Ok(means.as_str() != "bad word 2")
}

/// Whether a word with this number means the same as none.
fn means_nothing(
    alloc: Global,
    behind: &str,
    word: &str,
    number: u128,
) -> Result<bool, AllocError> {
    let line = format!(in alloc; "{behind} {word}{number}")?;
    let with = meaning(alloc, line.as_str())?;
    let without = meaning(alloc, behind)?;
    Ok(with == without)
}
