//! What a command line asks for, and the words of each child.
ghost use Rattle.std.specs.Prelude.{◌≡◌, [], Some, None, IfOk, IsErrOf, codes, map, option_and_then, string_bytes, unwrap_or};
ghost use Rattle.clap.specs.Words.{all_of, first_of, found_of, rows_of};
ghost use Rattle.hpx_launch.specs.Lines.{child_words, launch_in, launch_of, number_in, side_of};

use crate::fault::LaunchFault;
use crate::matches::{matches, number, texts_of};
use clap::ArgMatches;
use hpx_value::exact::Exact;
use hpx_value::items::{Items, Text, Texts};
use hpx_value::memory::OutOfMemory;
use std::alloc::{AllocError, Global};

/// So many localities there are at most.
const LOCALITIES: u16 = 64;
/// The greatest port of locality 0: each locality has a port of its own, one above the one before.
const LAST_PORT: u16 = 65472;

/// What is to be launched: a program, once for each locality, with the port of locality 0 and words that all are given.
#[derive(Drop)]
pub struct Launch {
    pub program: Text,
    pub localities: u16,
    pub port: u16,
    pub words: Texts,
}

impl Launch {
    /// What words ask for.
    pub fn read(alloc: Global, words: &Texts) -> Result<Launch, LaunchFault>
        ensures ok { IfOk result (λ launch. launch_in words.now ≡ Some launch) }
        ensures bad { IsErrOf result LaunchFault.BadWords → launch_in words.now ≡ None }
        ensures started { IsErrOf result LaunchFault.StartFailed → ⊥ }
    {
        let texts = texts_of(alloc, words.as_slice())?;
        let matches = matches(alloc, texts.as_slice())?;
        launch_of(alloc, &matches)
    }

    /// The words that a locality's child is started with.
    pub fn child_words(&self, alloc: Global, node: u16) -> Result<Texts, OutOfMemory>
        ensures { IfOk result (λ words. words ≡ child_words self.now node) }
    {
        let localities = self.localities;
        let port = self.port;
        let mut words = self.words.duplicate(alloc)?;
        words.push(text(format!(in alloc; "--hpx:localities={localities}")?))?;
        words.push(text(format!(in alloc; "--hpx:agas=127.0.0.1:{port}")?))?;
        words.push(text(format!(in alloc; "--hpx:node={node}")?))?;
        words.push(copied(alloc, side_of(node))?)?;
        Ok(words)
    }
}

/// The word for what a locality is: the console at 0, else a worker.
fn side_of(node: u16) -> &'static str
    ensures { result.now ≡ side_of node }
{
    if node == 0 {
        "--hpx:console"
    } else {
        "--hpx:worker"
    }
}

/// What clap's matches ask for.
fn launch_of<'a>(alloc: Global, matches: &ArgMatches<'a>) -> Result<Launch, LaunchFault>
    ensures ok { IfOk result (λ launch. launch_of (rows_of (found_of matches.now)) ≡ Some launch) }
    ensures bad { IsErrOf result LaunchFault.BadWords → launch_of (rows_of (found_of matches.now)) ≡ None }
    ensures started { IsErrOf result LaunchFault.StartFailed → ⊥ }
{
    let program = matches.get_str("program").ok_or(LaunchFault::BadWords)?;
    let localities = number_of(matches, "localities", LOCALITIES).ok_or(LaunchFault::BadWords)?;
    let port = number_of(matches, "port", LAST_PORT).ok_or(LaunchFault::BadWords)?;
    Ok(Launch {
        program: copied(alloc, program)?,
        localities,
        port,
        words: words_of(alloc, matches)?,
    })
}

/// The words that are handed on.
fn words_of<'a>(alloc: Global, matches: &ArgMatches<'a>) -> Result<Texts, OutOfMemory>
    ensures { IfOk result (λ words. unwrap_or (all_of (codes "words") (rows_of (found_of matches.now))) [] ≡ words) }
{
    match matches.get_strs("words") {
        Some(words) => all_copied(alloc, words),
        None => Ok(Items::new(alloc)),
    }
}

/// The number that an option's value is.
fn number_of<'a>(matches: &ArgMatches<'a>, id: &str, greatest: u16) -> Option<u16>
    ensures { result ≡ option_and_then (number_in greatest) (first_of id.now (rows_of (found_of matches.now))) }
{
    number(matches.get_str(id)?, greatest)
}

/// A string as a text.
fn text(string: String) -> Text
    ensures { result ≡ string_bytes string }
{
    Text::from_vec(string.into_bytes())
}

/// A text as one of its own.
fn copied(alloc: Global, text: &str) -> Result<Text, AllocError>
    ensures { IfOk result (λ copy. copy ≡ text.now) }
{
    Ok(Text::from_vec(Vec::from_slice(alloc, text.as_bytes())?))
}

/// Texts as texts of their own.
fn all_copied(alloc: Global, texts: &[&str]) -> Result<Texts, OutOfMemory>
    ensures { IfOk result (λ copies. copies ≡ map (λ text. text.now) texts.now) }
{
    let mut copies = Items::new(alloc);
    for text in texts {
        copies.push(copied(alloc, *text)?)?;
    }
    Ok(copies)
}
