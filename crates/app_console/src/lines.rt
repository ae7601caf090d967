//! The lines of an input.
ghost use Rattle.std.specs.Prelude.{◌≡◌, ◌∷◌, IfOk, IfSome, IfNone, length, codes};
ghost use Rattle.std.specs.List.{list_all};
ghost use Rattle.std.specs.Str.{bytes_eq};
ghost use Rattle.std.specs.Str.Lines.{strip_carriage_return};
ghost use Rattle.app_console.specs.Console.{words_of};
ghost use Rattle.app_console.specs.Lines.{IsPiece, IsFirstLine, is_long, is_quit, opening};

use hpx_value::items::{Items, Text};
use hpx_value::memory::OutOfMemory;
use std::alloc::Global;

/// What stands before each line.
pub const PROMPT: &[u8] = b"> ";

/// What is printed for a line that is too long, which is not fed.
pub const TOO_LONG: &[u8] = b"error: line too long\n";

/// What stands before a line of the accumulator's console where it is fed.
pub const ACCUMULATOR: u8 = b'a';

/// What stands before a line of `space` where it is fed.
pub const SPACE: u8 = b's';

/// How many bytes a line has at most.
const MOST_BYTES: usize = 1024;

/// The first line of an input, and what comes after its newline, if there is a newline.
pub fn first_line(input: &[u8]) -> Option<(&[u8], &[u8])>
    ensures some { IfSome result (λ pieces. IsFirstLine input.now pieces.0.now pieces.1.now) }
    ensures none { IfNone result (IsPiece input.now) }
{
    for (i, b) in input.iter().enumerate() {
        if *b == b'\n' {
            return Some((line_of(&input[..i]), &input[i + 1..]));
        }
    }
    None
}

/// A piece between newlines, without the one carriage return at its end.
pub fn line_of(piece: &[u8]) -> &[u8]
    ensures { result.now ≡ strip_carriage_return piece.now }
{
    match piece {
        [line @ .., b'\r'] => line,
        _ => piece,
    }
}

/// Whether a line is too long to be fed.
pub fn is_long(line: &[u8]) -> bool
    ensures { result ≡ is_long line.now }
{
    line.len() > MOST_BYTES
}

/// Whether a line ends reading.
pub fn is_quit(line: &[u8]) -> bool
    ensures { result ≡ is_quit line.now }
{
    !is_long(line) && word_count(line) == 1 && are_all_quit(line)
}

fn word_count(line: &[u8]) -> usize
    ensures { result ≡ length (words_of line.now) }
{
    line.split(|b| *b == b' ' || *b == b'\t')
        .filter(|word| !word.is_empty())
        .count()
}

fn are_all_quit(line: &[u8]) -> bool
    ensures { result ≡ list_all (λ word. bytes_eq word (codes "quit")) (words_of line.now) }
{
    line.split(|b| *b == b' ' || *b == b'\t')
        .filter(|word| !word.is_empty())
        .all(|word| word == b"quit".as_slice())
}

/// The line by which the accumulator's console has it made.
pub fn opening(alloc: Global) -> Result<Text, OutOfMemory>
    ensures { IfOk result (λ text. text ≡ opening) }
{
    Ok(Items::from_vec(b"oopen".to_vec(alloc)?))
}

/// The text that is fed for a line of the user: the mark of a console, and the line.
pub fn marked(alloc: Global, mark: u8, line: &[u8]) -> Result<Text, OutOfMemory>
    ensures { IfOk result (λ text. text ≡ mark ∷ line.now) }
{
    let mut text = Vec::new(alloc);
    text.push(mark)?;
    text.extend_from_slice(line)?;
    Ok(Items::from_vec(text))
}
