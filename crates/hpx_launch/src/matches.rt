//! The command line, as clap reads it.
ghost use Rattle.std.specs.Prelude.{◌≡◌, ◌≢◌, [], IfOk, IsErrOf, map, true, false};
ghost use Rattle.std.specs.List.{list_all};
ghost use Rattle.std.specs.Str.{is_utf8};
ghost use Rattle.clap.specs.Words.{app_of, found_of, rows_of, rule_of};
ghost use Rattle.hpx_launch.specs.Lines.{faults_in, hpxrun, number_in, option_named, rows_in};

use crate::fault::LaunchFault;
use clap::error::ErrorKind;
use clap::{Arg, ArgAction, ArgMatches, Command};
use hpx_value::items::Text;
use std::alloc::{AllocError, Global};

/// An option that has one value.
fn option<'a>(alloc: Global, name: &'a str) -> Arg<'a>
    ensures rule { rule_of result ≡ option_named name.entry.now }
    ensures local { result.global ≡ false }
{
    Arg::new(alloc, name).long(name).action(ArgAction::Set)
}

/// `hpxrun --program PATH --localities N [--port P] [--] WORDS`.
fn command<'a>(alloc: Global) -> Result<Command<'a>, AllocError>
    ensures { IfOk result (λ command. app_of command ≡ hpxrun) }
{
    let program = option(alloc, "program").required(true);
    let localities = option(alloc, "localities").required(true);
    let port = option(alloc, "port").default_value("7910");
    let words = Arg::new(alloc, "words").action(ArgAction::Append);
    Command::new(alloc, "hpxrun")
        .no_binary_name(true)
        .disable_help_flag(true)
        .arg(program)?
        .arg(localities)?
        .arg(port)?
        .arg(words)
}

/// Why clap takes no words.
fn fault_of(kind: ErrorKind) -> LaunchFault
    ensures memory { kind ≡ ErrorKind.OutOfMemory → result ≡ LaunchFault.OutOfMemory }
    ensures started { result ≢ LaunchFault.StartFailed }
{
    match kind {
        ErrorKind::OutOfMemory => LaunchFault::OutOfMemory,
        _ => LaunchFault::BadWords,
    }
}

/// What clap finds in the words that it takes.
pub(crate) fn matches<'a>(
    alloc: Global,
    words: &'a [&'a str],
) -> Result<ArgMatches<'a>, LaunchFault>
    ensures taken { IfOk result (λ _. faults_in (map (λ word. word.now) words.entry.now) ≡ []) }
    ensures found { IfOk result (λ matches. rows_of (found_of matches) ≡ rows_in (map (λ word. word.now) words.entry.now)) }
    ensures bad { IsErrOf result LaunchFault.BadWords → faults_in (map (λ word. word.now) words.entry.now) ≡ [] → ⊥ }
    ensures started { IsErrOf result LaunchFault.StartFailed → ⊥ }
{
    match command(alloc)?.try_get_matches_from(words) {
        Ok(matches) => Ok(matches),
        Err(error) => Err(fault_of(error.kind())),
    }
}

/// The words as text, if all of them are.
pub(crate) fn texts_of<'a>(alloc: Global, words: &'a [Text]) -> Result<Vec<&'a str>, LaunchFault>
    ensures ok { IfOk result (λ texts. map (λ text. text.now) texts.items ≡ words.entry.now) }
    ensures text { IfOk result (λ _. list_all is_utf8 words.entry.now ≡ true) }
    ensures bad { IsErrOf result LaunchFault.BadWords → list_all is_utf8 words.entry.now ≡ false }
    ensures started { IsErrOf result LaunchFault.StartFailed → ⊥ }
{
    let mut texts = Vec::new(alloc);
    for word in words {
        match std::str::from_utf8(word.as_slice()) {
            Ok(text) => texts.push(text)?,
            Err(_) => return Err(LaunchFault::BadWords),
        }
    }
    Ok(texts)
}

/// The number that a text of digits is, from 1 on.
pub(crate) fn number(text: &str, greatest: u16) -> Option<u16>
    ensures { result ≡ number_in greatest text.now }
{
    if text.as_bytes().starts_with(b"+") {
        return None;
    }
    match text.parse::<u16>() {
        Ok(number) if 1 <= number && number <= greatest => Some(number),
        Ok(_) => None,
        Err(_) => None,
    }
}
