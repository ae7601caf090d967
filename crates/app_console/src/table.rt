//! The commands of the consoles: one table for each, which the session reads.
ghost use Rattle.std.specs.Prelude.{◌≡◌};
ghost use Rattle.std.specs.Option.{option_map, option_copied};
ghost use Rattle.app_console.specs.Commands.{as_row, row_under, row_in, commands_of};

use hpx_calls::codes::{
    ARRIVE, CLOSE, COUNT, DOWN, GET, LIST, NEW, PUT, REGISTER, RESET, RESOLVE, UNREGISTER, WAIT,
    WHERE,
};
use hpx_calls::read::{MOST_LEFT, MOST_TO_ARRIVE};
use hpx_value::codes::{ADD, COMPONENTS, LOCALITIES, MOVE, QUERY, SHELF, SYMBOLS};

/// A console, by its mark: a line of the user of `space` or of `accumulator`, or a line of the top call's own.
#[derive(Clone, Copy, Debug, PartialEq, Eq)]
pub enum Console {
    Space,
    Accumulator,
    Own,
}

/// What is asked of an argument.
#[derive(Clone, Copy, Debug, PartialEq, Eq)]
pub enum Need {
    /// A name that stands for nothing yet.
    NewName,
    /// A name that stands for an object that has come.
    BoundName,
    /// A name or a key, whatever it stands for.
    AnyName,
    /// The one object of a console without names, which has come.
    It,
    /// The one object of a console without names.
    NewIt,
    Locality,
    Number,
    /// A number from 1 to this.
    Count(u32),
}

/// Where a command's action goes.
#[derive(Clone, Copy, Debug, PartialEq, Eq)]
pub enum Receiver {
    /// The object that the first argument names.
    First,
    /// A root of locality 0.
    Root(u32),
    /// A root of the locality that the second argument is.
    RootThere(u32),
    /// A root of locality 1, or of 0 where there is no other.
    RootBeside(u32),
}

/// A kind of objects that are made.
#[derive(Clone, Copy, Debug, PartialEq, Eq)]
pub enum Kind {
    Accumulator,
    Promise,
    Channel,
    Latch,
    Barrier,
}

/// What an action is given.
#[derive(Clone, Copy, Debug, PartialEq, Eq)]
pub enum Arg {
    /// An argument, as it stands.
    Word(usize),
    /// The object that an argument names.
    Object(usize),
    /// An argument, as a number.
    Number(usize),
    /// The name of a kind.
    Made(Kind),
}

/// What is done with an answer that is no fault.
#[derive(Clone, Copy, Debug, PartialEq, Eq)]
pub enum Answer {
    Silent,
    /// It is printed.
    Tells,
    /// `released` is printed.
    Releases,
    /// The first argument stands for it.
    Binds,
}

/// What a command does.
#[derive(Clone, Copy, Debug)]
pub enum Does {
    /// The commands are printed.
    Helps,
    /// The first argument is a name no more.
    Drops,
    /// An action is sent, and answered.
    Sends {
        to: Receiver,
        code: u16,
        args: &'static [Arg],
        answer: Answer,
    },
}

/// A command: its word, what it needs of its arguments, in order, and what it does.
#[derive(Clone, Copy, Debug)]
pub struct Command {
    pub word: &'static [u8],
    pub needs: &'static [Need],
    pub does: Does,
}

/// A command whose action is sent.
macro_rules! sends {
    ($word:expr, $needs:expr, $to:expr, $code:expr, $args:expr, $answer:expr) => {
        Command {
            word: $word,
            needs: $needs,
            does: Does::Sends {
                to: $to,
                code: $code,
                args: $args,
                answer: $answer,
            },
        }
    };
}

/// Something of a kind is made, which may take a count of at most so many.
macro_rules! makes {
    ($word:expr, $kind:expr) => {
        sends!(
            $word,
            &[Need::NewName, Need::Locality],
            Receiver::RootThere(COMPONENTS),
            NEW,
            &[Arg::Made($kind)],
            Answer::Binds
        )
    };
    ($word:expr, $kind:expr, $most:expr) => {
        sends!(
            $word,
            &[Need::NewName, Need::Locality, Need::Count($most)],
            Receiver::RootThere(COMPONENTS),
            NEW,
            &[Arg::Made($kind), Arg::Number(2)],
            Answer::Binds
        )
    };
}

/// Something is asked of the first argument, which is needed so.
macro_rules! asks {
    ($word:expr, $need:expr, $code:expr, $answer:expr) => {
        sends!($word, &[$need], Receiver::First, $code, &[], $answer)
    };
}

/// The first argument, which is needed so, is given a number.
macro_rules! gives {
    ($word:expr, $need:expr, $code:expr) => {
        sends!(
            $word,
            &[$need, Need::Number],
            Receiver::First,
            $code,
            &[Arg::Number(1)],
            Answer::Silent
        )
    };
}

/// The commands of `space`.
const SPACE: &[Command] = &[
    makes!(b"new", Kind::Accumulator),
    gives!(b"add", Need::BoundName, ADD),
    asks!(b"query", Need::BoundName, QUERY, Answer::Tells),
    sends!(
        b"move",
        &[Need::BoundName, Need::Locality],
        Receiver::First,
        MOVE,
        &[Arg::Number(1)],
        Answer::Silent
    ),
    asks!(b"where", Need::BoundName, WHERE, Answer::Tells),
    Command {
        word: b"drop",
        needs: &[Need::BoundName],
        does: Does::Drops,
    },
    sends!(
        b"share",
        &[Need::BoundName, Need::Locality],
        Receiver::RootThere(SHELF),
        REGISTER,
        &[Arg::Word(0), Arg::Object(0)],
        Answer::Silent
    ),
    sends!(
        b"unshare",
        &[Need::AnyName, Need::Locality],
        Receiver::RootThere(SHELF),
        UNREGISTER,
        &[Arg::Word(0)],
        Answer::Silent
    ),
    sends!(
        b"register",
        &[Need::BoundName, Need::AnyName],
        Receiver::Root(SYMBOLS),
        REGISTER,
        &[Arg::Word(1), Arg::Object(0)],
        Answer::Silent
    ),
    sends!(
        b"lookup",
        &[Need::NewName, Need::AnyName],
        Receiver::Root(SYMBOLS),
        RESOLVE,
        &[Arg::Word(1)],
        Answer::Binds
    ),
    sends!(
        b"unregister",
        &[Need::AnyName],
        Receiver::Root(SYMBOLS),
        UNREGISTER,
        &[Arg::Word(0)],
        Answer::Silent
    ),
    sends!(
        b"names",
        &[],
        Receiver::Root(SYMBOLS),
        LIST,
        &[],
        Answer::Tells
    ),
    sends!(
        b"localities",
        &[],
        Receiver::Root(LOCALITIES),
        COUNT,
        &[],
        Answer::Tells
    ),
    makes!(b"promise", Kind::Promise),
    makes!(b"channel", Kind::Channel),
    makes!(b"latch", Kind::Latch, MOST_LEFT),
    makes!(b"barrier", Kind::Barrier, MOST_TO_ARRIVE),
    gives!(b"put", Need::BoundName, PUT),
    asks!(b"get", Need::BoundName, GET, Answer::Tells),
    asks!(b"close", Need::BoundName, CLOSE, Answer::Silent),
    asks!(b"down", Need::BoundName, DOWN, Answer::Silent),
    asks!(b"wait", Need::BoundName, WAIT, Answer::Releases),
    asks!(b"arrive", Need::BoundName, ARRIVE, Answer::Releases),
    Command {
        word: b"help",
        needs: &[],
        does: Does::Helps,
    },
];

/// The commands of `accumulator`, whose one object has no name: each is given it as its first argument.
const ACCUMULATOR: &[Command] = &[
    asks!(b"reset", Need::It, RESET, Answer::Silent),
    gives!(b"add", Need::It, ADD),
    asks!(b"query", Need::It, QUERY, Answer::Tells),
    Command {
        word: b"help",
        needs: &[Need::NewIt],
        does: Does::Helps,
    },
];

/// The one line of the top call's own.
const OWN: &[Command] = &[sends!(
    b"open",
    &[Need::NewIt],
    Receiver::RootBeside(COMPONENTS),
    NEW,
    &[Arg::Made(Kind::Accumulator)],
    Answer::Binds
)];

/// The command under a word of a console, if there is one.
pub fn command_of(console: Console, word: &[u8]) -> Option<&'static Command>
    ensures { option_map as_row (option_copied result) ≡ row_in (commands_of console) word.now }
{
    match console {
        Console::Space => find(SPACE, word),
        Console::Accumulator => find(ACCUMULATOR, word),
        Console::Own => find(OWN, word),
    }
}

/// The first command under a word.
fn find(commands: &'static [Command], word: &[u8]) -> Option<&'static Command>
    ensures { option_map as_row (option_copied result) ≡ row_under commands.now word.now }
{
    match commands {
        [] => None,
        [first, rest @ ..] => {
            if word == first.word {
                Some(first)
            } else {
                find(rest, word)
            }
        }
    }
}
