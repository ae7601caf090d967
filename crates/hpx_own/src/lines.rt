//! Which lines the top call handles itself.
ghost use Rattle.std.specs.Prelude.{◌≡◌};
ghost use Rattle.app_console.specs.Console.{words_of, number_of};
ghost use Rattle.hpx_counters.specs.Counters.{counter_named};
ghost use Rattle.hpx_own.specs.Lines.{handled_as, handled_words, handled_alone, handled_with, turn_of, count_of};

use app_console::console::number;
use hpx_counters::counter::Counter;
use hpx_counters::counters;

/// The most steps that a line asks for.
pub const MOST_STEPS: u32 = 1_000_000;

/// What is done with a line.
#[derive(Clone, Copy, Debug, PartialEq, Eq)]
pub enum Handled {
    /// It is fed to the session, as every line that is none of the others.
    Fed,
    /// From the next line on delivery is held back.
    Hold,
    /// So many steps are made.
    Turn(u32),
    /// Steps are made until none is left, and delivery is held back no more.
    Drain,
    /// The credit of each object is told.
    Audit,
    /// The value of a counter is told.
    Count(Counter),
    /// Why is told.
    Refused(Refusal),
}

/// Why a line is refused.
#[derive(Clone, Copy, Debug, PartialEq, Eq)]
pub enum Refusal {
    BadNumber,
    BadCounter,
}

/// What is done with a line of a console that has lines of the top call's own, as `space` has, or has none.
pub fn handled_as(owns: bool, line: &[u8]) -> Handled
    ensures { result ≡ handled_as owns line.now }
{
    if owns {
        handled_words(line)
    } else {
        Handled::Fed
    }
}

/// What is done with the words of a line.
fn handled_words(line: &[u8]) -> Handled
    ensures { result ≡ handled_words (words_of line.now) }
{
    let mut words = line
        .split(|b| *b == b' ' || *b == b'\t')
        .filter(|word| !word.is_empty());
    match (words.next(), words.next(), words.next()) {
        (Some(word), None, _) => handled_alone(word),
        (Some(word), Some(argument), None) => handled_with(word, argument),
        _ => Handled::Fed,
    }
}

/// What is done with one word alone.
fn handled_alone(word: &[u8]) -> Handled
    ensures { result ≡ handled_alone word.now }
{
    match word {
        b"hold" => Handled::Hold,
        b"drain" => Handled::Drain,
        b"audit" => Handled::Audit,
        _ => Handled::Fed,
    }
}

/// What is done with a word and one behind it.
fn handled_with(word: &[u8], argument: &[u8]) -> Handled
    ensures { result ≡ handled_with word.now argument.now }
{
    if word == b"turn".as_slice() {
        turn_of(argument)
    } else if word == b"counter".as_slice() {
        count_of(argument)
    } else {
        Handled::Fed
    }
}

/// So many steps, or none: of a word that should be a number.
fn turn_of(argument: &[u8]) -> Handled
    ensures { result ≡ turn_of (number_of argument.now) }
{
    match number(argument) {
        Some(steps) if 0 <= steps && steps <= i64::from(MOST_STEPS) => Handled::Turn(steps as u32),
        _ => Handled::Refused(Refusal::BadNumber),
    }
}

/// The counter that a word names.
fn count_of(argument: &[u8]) -> Handled
    ensures { result ≡ count_of (counter_named argument.now) }
{
    match counters::read(argument) {
        Ok(counter) => Handled::Count(counter),
        Err(_) => Handled::Refused(Refusal::BadCounter),
    }
}
