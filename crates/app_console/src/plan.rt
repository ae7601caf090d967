//! What a line does.
use crate::desk::What;
use hpx_value::items::{Items, Text};

/// Why a line does nothing.
#[derive(Clone, Copy, Debug, PartialEq, Eq)]
pub enum Refusal {
    BadCommand,
    BadName,
    NameInUse,
    UnknownName,
    NotReady,
    NoSuchLocality,
    BadNumber,
    NotMovable,
    TooManyNames,
    TooManyPending,
}

/// What a name stands for.
#[derive(Clone, Copy, Debug, PartialEq, Eq)]
pub enum Status {
    Unknown,
    /// Its object has not come yet.
    Pending,
    /// An object of this kind.
    Stands(u32),
}

/// What an action is given, where objects are named.
#[derive(Drop)]
pub enum Argument {
    Word(Text),
    Object(Text),
    Number(i64),
}

/// Where an action goes: to what a name stands for, or to a root.
#[derive(Drop)]
pub enum Goal {
    Named(Text),
    Root { kind: u32, at: u32 },
}

/// What a line does.
#[derive(Drop)]
pub enum Plan {
    /// It has no words.
    Nothing,
    Helps,
    Refuses(Refusal),
    /// A name is given up.
    GivesUp(Text),
    /// An action is sent, and its answer awaited.
    Calls {
        goal: Goal,
        code: u16,
        args: Items<Argument>,
        what: What,
    },
}
