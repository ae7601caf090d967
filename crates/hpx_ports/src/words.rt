//! The words behind a program's name.
ghost use Rattle.std.specs.Prelude.{◌≡◌, Some, None, ℕ, List, IfOk, IfSome};
ghost use Rattle.std.specs.declared.option.Option.{Option};
ghost use Rattle.hpx_ports.specs.Words.{IsWordAt};

use hpx_value::exact::Exact;
use hpx_value::items::{Items, Text, Texts};
use hpx_value::memory::OutOfMemory;
use std::alloc::Global;
use std::env::{Env, FillError};

/// So many bytes are made ready for a word at first; twice as many each time that they are too few.
const ROOM: usize = 64;
/// So often at most: no system hands out a word of more than 2^32 bytes.
const TIMES: u32 = 26;

/// Where the words of a command line come from.
pub trait Words {
    /// The words, in order, where it tells.
    ghost words: { Self → Option (List (List ℕ)) };

    /// The word at a place, from 0, whole; none behind the last.
    fn word(&self, alloc: Global, place: usize) -> Result<Option<Text>, OutOfMemory>
        ensures { IfOk result (λ word. IsWordAt (words self.now) place word) };
}

/// All words, whole and in order.
pub fn all_words<W: Words>(alloc: Global, source: &W) -> Result<Texts, OutOfMemory>
    ensures { IfOk result (λ all. IfSome (W.words source.now) (λ told. all ≡ told)) }
{
    let mut all = Items::new(alloc);
    for place in 0..usize::MAX {
        match source.word(alloc, place)? {
            Some(word) => all.push(word)?,
            None => return Ok(all),
        }
    }
    Err(OutOfMemory)
}

/// The words that the system started the program with. It tells nothing of them.
#[derive(Drop)]
pub struct EnvWords<'a, E: Env> {
    env: &'a E,
}

impl<'a, E: Env> EnvWords<'a, E> {
    /// Those that an environment has behind the program's name.
    pub fn new(env: &'a E) -> EnvWords<'a, E> {
        EnvWords { env }
    }
}

impl<'a, E: Env> Words for EnvWords<'a, E> {
    ghost words = { λ w. None };

    fn word(&self, alloc: Global, place: usize) -> Result<Option<Text>, OutOfMemory> {
        let Some(behind_name) = place.checked_add(1) else {
            return Ok(None);
        };
        let mut bytes = Vec::new(alloc);
        let mut room = ROOM;
        for _ in 0..TIMES {
            bytes.resize(room, 0)?;
            match self.env.arg(behind_name, bytes.as_mut_slice()) {
                Ok(len) => {
                    bytes.truncate(len);
                    return Ok(Some(Text::from_vec(bytes)));
                }
                Err(FillError::NotPresent) => return Ok(None),
                Err(FillError::TooLong) => room = room.saturating_mul(2),
            }
        }
        Err(OutOfMemory)
    }
}

/// Words in memory, for tests.
#[derive(Drop)]
pub struct MemWords {
    pub words: Texts,
}

impl Words for MemWords {
    ghost words = { λ w. Some w.words };

    fn word(&self, alloc: Global, place: usize) -> Result<Option<Text>, OutOfMemory> {
        match self.words.as_slice().get(place) {
            Some(word) => Ok(Some(word.duplicate(alloc)?)),
            None => Ok(None),
        }
    }
}
