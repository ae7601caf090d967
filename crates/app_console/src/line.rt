//! What a line asks for, by the table of commands.
ghost use Rattle.std.specs.Prelude.{◌≡◌, ◌++◌, Some, IfOk, map};
ghost use Rattle.std.specs.List.{list_all};
ghost use Rattle.std.specs.Option.{option_copied};
ghost use Rattle.app_console.specs.Commands.{as_does, as_row, is_letter, is_name, refusal, refusals, last_refusal, named_refusal, new_refusal, bound_refusal, it_refusal, moved_refusal, word_at, argument_of, goal_of, what_of, kind_name, locality_or_0, done_by, judged, plan_by, plan_of, commands_of, row_in, first_of, count_of};
ghost use Rattle.app_console.specs.Desks.{seek, status_by, status_in};
ghost use Rattle.app_console.specs.Session.{kind_of, place_of, sight};
ghost use Rattle.app_console.specs.Console.{number_of};

use crate::console::{number, words};
use crate::desk::{Desk, Naming, What};
use crate::plan::{Argument, Goal, Plan, Refusal, Status};
use crate::table::{Answer, Arg, Command, Console, Does, Kind, Need, Receiver, command_of};
use hpx_value::codes::{FIRST_MANAGED, LAST_MOVABLE, MOVE, SESSION};
use hpx_value::items::{Items, Text};
use hpx_value::memory::OutOfMemory;
use hpx_value::value::{State, Value};
use std::alloc::Global;

const MOST_NAMES: usize = 100;

const MOST_AWAITED: usize = 100;

const MOST_BYTES: usize = 32;

const MOST_LOCALITIES: u32 = 64;

/// The place of a Ref.
pub fn place_of(value: &Value) -> u16
    ensures { result ≡ place_of value.now }
{
    match value {
        Value::Ref(place) => *place,
        _ => 0,
    }
}

/// The kind of the object at a Ref's place in a state.
fn kind_of(state: &State, value: &Value) -> u32
    ensures { result ≡ kind_of state.now value.now }
{
    match state.ids.as_slice().get(usize::from(place_of(value))) {
        Some(id) => id.kind(),
        None => SESSION,
    }
}

/// What a name is that stands for this.
fn status_by(state: &State, to: &Option<Value>) -> Status
    ensures { result ≡ status_by (kind_of state.now) to.now }
{
    match to {
        None => Status::Pending,
        Some(value) => Status::Stands(kind_of(state, value)),
    }
}

/// What a name is.
fn status(names: &[Naming<Value>], state: &State, name: &[u8]) -> Status
    ensures { result ≡ status_in (kind_of state.now) names.now name.now }
{
    match names {
        [] => Status::Unknown,
        [first, rest @ ..] => {
            if name == first.name.as_slice() {
                status_by(state, &first.to)
            } else {
                status(rest, state, name)
            }
        }
    }
}

/// What a name stands for.
pub fn seek<'a>(names: &'a [Naming<Value>], name: &[u8]) -> Option<&'a Value>
    ensures { option_copied result ≡ seek name.now names.now }
{
    match names {
        [] => None,
        [first, rest @ ..] => {
            if name == first.name.as_slice() {
                first.to.as_ref()
            } else {
                seek(rest, name)
            }
        }
    }
}

fn is_letter(byte: u8) -> bool
    ensures { result ≡ is_letter byte }
{
    matches!(byte, b'a'..=b'z' | b'A'..=b'Z' | b'0'..=b'9' | b'_')
}

fn are_letters(word: &[u8]) -> bool
    ensures { result ≡ list_all is_letter word.now }
{
    word.iter().all(|byte| is_letter(*byte))
}

/// Whether a word can be a name or a key.
fn is_name(word: &[u8]) -> bool
    ensures { result ≡ is_name word.now }
{
    1 <= word.len() && word.len() <= MOST_BYTES && are_letters(word)
}

/// Why a word is not a name that is needed.
fn named_refusal(word: &[u8], refusal: Option<Refusal>) -> Option<Refusal>
    ensures { result ≡ named_refusal word.now refusal }
{
    if is_name(word) {
        refusal
    } else {
        Some(Refusal::BadName)
    }
}

fn new_refusal(status: Status) -> Option<Refusal>
    ensures { result ≡ new_refusal status }
{
    match status {
        Status::Unknown => None,
        _ => Some(Refusal::NameInUse),
    }
}

fn bound_refusal(status: Status) -> Option<Refusal>
    ensures { result ≡ bound_refusal status }
{
    match status {
        Status::Unknown => Some(Refusal::UnknownName),
        Status::Pending => Some(Refusal::NotReady),
        Status::Stands(_) => None,
    }
}

fn it_refusal(status: Status) -> Option<Refusal>
    ensures { result ≡ it_refusal status }
{
    match status {
        Status::Stands(_) => None,
        _ => Some(Refusal::NotReady),
    }
}

fn moved_refusal(status: Status) -> Option<Refusal>
    ensures { result ≡ moved_refusal status }
{
    match status {
        Status::Stands(kind) if FIRST_MANAGED <= kind && kind <= LAST_MOVABLE => None,
        _ => Some(Refusal::NotMovable),
    }
}

/// The number that a word is, if it is one without a minus.
fn count_of(word: &[u8]) -> Option<u64>
    ensures { result ≡ count_of (number_of word.now) }
{
    match number(word) {
        Some(number) => u64::try_from(number).ok(),
        None => None,
    }
}

/// Why an argument is not as it is needed.
fn refusal(
    localities: u32,
    state: &State,
    desk: &Desk<Value>,
    need: Need,
    word: &[u8],
) -> Option<Refusal>
    ensures { result ≡ refusal (sight localities (kind_of state.now) desk.now) need word.now }
{
    let names = desk.names.as_slice();
    match need {
        Need::NewName => named_refusal(word, new_refusal(status(names, state, word))),
        Need::BoundName => named_refusal(word, bound_refusal(status(names, state, word))),
        Need::AnyName => named_refusal(word, None),
        Need::It => it_refusal(status(names, state, word)),
        Need::NewIt => None,
        Need::Locality => match count_of(word) {
            Some(at) if at < u64::from(localities) => None,
            _ => Some(Refusal::NoSuchLocality),
        },
        Need::Number => match number(word) {
            Some(_) => None,
            None => Some(Refusal::BadNumber),
        },
        Need::Count(most) => match count_of(word) {
            Some(count) if 1 <= count && count <= u64::from(most) => None,
            _ => Some(Refusal::BadNumber),
        },
    }
}

/// The first refusal of the arguments, from left to right.
fn refusals(
    localities: u32,
    state: &State,
    desk: &Desk<Value>,
    needs: &[Need],
    words: &[&[u8]],
) -> Option<Refusal>
    ensures { result ≡ refusals (sight localities (kind_of state.now) desk.now) needs.now (map (λ w. w.now) words.now) }
{
    let [need, needs @ ..] = needs else {
        return None;
    };
    let [word, words @ ..] = words else {
        return None;
    };
    match refusal(localities, state, desk, *need, word) {
        Some(refusal) => Some(refusal),
        None => refusals(localities, state, desk, needs, words),
    }
}

/// What is refused besides.
fn last_refusal(
    localities: u32,
    state: &State,
    desk: &Desk<Value>,
    words: &[&[u8]],
    does: &Does,
) -> Option<Refusal>
    ensures { result ≡ last_refusal (sight localities (kind_of state.now) desk.now) (map (λ w. w.now) words.now) (as_does does.now) }
{
    let Does::Sends {
        to: _,
        code,
        args: _,
        answer,
    } = does
    else {
        return None;
    };
    if *code == MOVE {
        let status = status(desk.names.as_slice(), state, word_at(words, 0));
        if let Some(refusal) = moved_refusal(status) {
            return Some(refusal);
        }
    }
    if *answer == Answer::Binds && desk.names.len() >= MOST_NAMES {
        return Some(Refusal::TooManyNames);
    }
    if desk.awaits.len() >= MOST_AWAITED {
        return Some(Refusal::TooManyPending);
    }
    None
}

/// An argument by its number, or the empty word.
fn word_at<'a>(words: &[&'a [u8]], n: usize) -> &'a [u8]
    ensures { result.now ≡ word_at n (map (λ w. w.now) words.now) }
{
    match words {
        [] => &[],
        [word, rest @ ..] => { if n == 0 { word } else { word_at(rest, n - 1) } }
    }
}

fn text(alloc: Global, bytes: &[u8]) -> Result<Text, OutOfMemory>
    ensures { IfOk result (λ text. text ≡ bytes.now) }
{
    Ok(Items::from_vec(bytes.to_vec(alloc)?))
}

/// The name of a kind.
fn kind_name(kind: Kind) -> &'static [u8]
    ensures { result.now ≡ kind_name kind }
{
    match kind {
        Kind::Accumulator => b"accumulator",
        Kind::Promise => b"promise",
        Kind::Channel => b"channel",
        Kind::Latch => b"latch",
        Kind::Barrier => b"barrier",
    }
}

/// What an action is given.
fn argument_of(alloc: Global, words: &[&[u8]], arg: Arg) -> Result<Argument, OutOfMemory>
    ensures { IfOk result (λ argument. argument ≡ argument_of (map (λ w. w.now) words.now) arg) }
{
    Ok(match arg {
        Arg::Word(i) => Argument::Word(text(alloc, word_at(words, i))?),
        Arg::Object(i) => Argument::Object(text(alloc, word_at(words, i))?),
        Arg::Number(i) => Argument::Number(match number(word_at(words, i)) {
            Some(number) => number,
            None => 0,
        }),
        Arg::Made(kind) => Argument::Word(text(alloc, kind_name(kind))?),
    })
}

fn arguments_of(
    alloc: Global,
    words: &[&[u8]],
    args: &[Arg],
) -> Result<Items<Argument>, OutOfMemory>
    ensures { IfOk result (λ arguments. arguments ≡ map (argument_of (map (λ w. w.now) words.now)) args.now) }
{
    let mut arguments = Items::new(alloc);
    for arg in args {
        arguments.push(argument_of(alloc, words, *arg)?)?;
    }
    Ok(arguments)
}

/// The locality that a word is, or 0.
fn locality_or_0(word: &[u8]) -> u32
    ensures { result ≡ locality_or_0 (number_of word.now) }
{
    match count_of(word) {
        Some(at) if at < u64::from(MOST_LOCALITIES) => at as u32,
        _ => 0,
    }
}

/// Where an action goes.
#[tactic(auto, using(crate::proofs::Numbering::one_mod))]
fn goal_of(
    alloc: Global,
    localities: u32,
    words: &[&[u8]],
    to: Receiver,
) -> Result<Goal, OutOfMemory>
    ensures { IfOk result (λ goal. goal ≡ goal_of localities (map (λ w. w.now) words.now) to) }
{
    Ok(match to {
        Receiver::First => Goal::Named(text(alloc, word_at(words, 0))?),
        Receiver::Root(kind) => Goal::Root { kind, at: 0 },
        Receiver::RootThere(kind) => Goal::Root {
            kind,
            at: locality_or_0(word_at(words, 1)),
        },
        Receiver::RootBeside(kind) => Goal::Root {
            kind,
            at: if localities == 1 { 0 } else { 1 },
        },
    })
}

/// What is done with the answer.
fn what_of(alloc: Global, answer: Answer, name: &[u8]) -> Result<What, OutOfMemory>
    ensures { IfOk result (λ what. what ≡ what_of answer name.now) }
{
    Ok(match answer {
        Answer::Silent => What::Silent,
        Answer::Tells => What::Tells,
        Answer::Releases => What::Releases,
        Answer::Binds => What::Binds(text(alloc, name)?),
    })
}

/// What a command does that is not refused.
fn done_by(
    alloc: Global,
    localities: u32,
    words: &[&[u8]],
    does: &Does,
) -> Result<Plan, OutOfMemory>
    ensures { IfOk result (λ plan. plan ≡ done_by localities (map (λ w. w.now) words.now) (as_does does.now)) }
{
    match does {
        Does::Helps => Ok(Plan::Helps),
        Does::Drops => Ok(Plan::GivesUp(text(alloc, word_at(words, 0))?)),
        Does::Sends {
            to,
            code,
            args,
            answer,
        } => Ok(Plan::Calls {
            goal: goal_of(alloc, localities, words, *to)?,
            code: *code,
            args: arguments_of(alloc, words, args)?,
            what: what_of(alloc, *answer, word_at(words, 0))?,
        }),
    }
}

/// A command with its arguments: its shape, then each argument, then the rest.
fn judged(
    alloc: Global,
    localities: u32,
    state: &State,
    desk: &Desk<Value>,
    words: &[&[u8]],
    command: &Command,
) -> Result<Plan, OutOfMemory>
    ensures { IfOk result (λ plan. plan
        ≡ judged (sight localities (kind_of state.now) desk.now) (map (λ w. w.now) words.now) (Some (as_row command.now))) }
{
    if command.needs.len() != words.len() {
        return Ok(Plan::Refuses(Refusal::BadCommand));
    }
    if let Some(refusal) = refusals(localities, state, desk, command.needs, words) {
        return Ok(Plan::Refuses(refusal));
    }
    if let Some(refusal) = last_refusal(localities, state, desk, words, &command.does) {
        return Ok(Plan::Refuses(refusal));
    }
    done_by(alloc, localities, words, &command.does)
}

/// What a command is given: in a console without names the empty name, and then the words behind its own.
fn given<'a>(
    alloc: Global,
    console: Console,
    words: &[&'a [u8]],
) -> Result<Vec<&'a [u8]>, OutOfMemory>
    ensures { IfOk result (λ given. map (λ w. w.now) given.items ≡ first_of console ++ map (λ w. w.now) words.now) }
{
    let mut given: Vec<&[u8]> = Vec::new(alloc);
    if console != Console::Space {
        given.push(&[])?;
    }
    given.extend_from_slice(words)?;
    Ok(given)
}

/// What the command under a word does with the words behind it.
fn command(
    alloc: Global,
    console: Console,
    localities: u32,
    state: &State,
    desk: &Desk<Value>,
    word: &[u8],
    rest: &[&[u8]],
) -> Result<Plan, OutOfMemory>
    ensures { IfOk result (λ plan. plan
        ≡ judged (sight localities (kind_of state.now) desk.now) (first_of console ++ map (λ w. w.now) rest.now) (row_in (commands_of console) word.now)) }
{
    let Some(command) = command_of(console, word) else {
        return Ok(Plan::Refuses(Refusal::BadCommand));
    };
    let given = given(alloc, console, rest)?;
    judged(alloc, localities, state, desk, given.as_slice(), command)
}

/// What a line does, by its words.
fn plan_by(
    alloc: Global,
    console: Console,
    localities: u32,
    state: &State,
    desk: &Desk<Value>,
    words: &[&[u8]],
) -> Result<Plan, OutOfMemory>
    ensures { IfOk result (λ plan. plan ≡ plan_by console (sight localities (kind_of state.now) desk.now) (map (λ w. w.now) words.now)) }
{
    match words {
        [] => Ok(Plan::Nothing),
        [word, rest @ ..] => command(alloc, console, localities, state, desk, word, rest),
    }
}

/// What a line does.
pub fn plan_of(
    alloc: Global,
    console: Console,
    localities: u32,
    state: &State,
    desk: &Desk<Value>,
    line: &[u8],
) -> Result<Plan, OutOfMemory>
    ensures { IfOk result (λ plan. plan ≡ plan_of console (sight localities (kind_of state.now) desk.now) line.now) }
{
    let words = words(alloc, line)?;
    plan_by(alloc, console, localities, state, desk, words.as_slice())
}
