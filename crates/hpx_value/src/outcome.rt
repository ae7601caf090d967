use crate::items::{Items, Numbers, Text, Texts};
use crate::value::{Message, Value, Values};

/// The target of a send: a place of the hand, or a root.
#[derive(Clone, Copy, Debug, PartialEq, Eq)]
pub enum Target {
    Place(u16),
    Root { kind: u32, at: u32 },
}

/// Where the answer to a send goes.
#[derive(Clone, Copy, Debug, PartialEq, Eq)]
pub enum SendCont {
    Nothing,
    /// A continuation of the hand, by its number, which is handed on.
    Own(u16),
    /// A slot of an object that is made here.
    Made { make: u16, slot: u32 },
    /// A slot of the session itself.
    Here { slot: u32 },
}

/// The state that an action leaves; its continuations are numbers of the hand's.
#[derive(Drop)]
pub struct NewState {
    pub drawn: u32,
    pub values: Values,
    pub conts: Numbers,
}

/// An object to be made.
#[derive(Drop)]
pub struct Make {
    pub kind: u32,
    pub values: Values,
}

/// An action to be sent.
#[derive(Drop)]
pub struct Sending {
    pub target: Target,
    pub code: u16,
    pub args: Values,
    pub cont: SendCont,
}

/// The answer to a continuation of the hand.
#[derive(Drop)]
pub struct Reply {
    pub cont: u16,
    pub value: Value,
}

/// Objects to be made, in order.
pub type Makes = Items<Make>;
/// Actions to be sent, in order.
pub type Sends = Items<Sending>;
/// Answers, in order.
pub type Replies = Items<Reply>;

/// What an action does. Places are those of the hand: the state's ids, the action's, and the objects made.
#[derive(Drop)]
pub struct Outcome {
    pub state: NewState,
    pub makes: Makes,
    pub sends: Sends,
    pub replies: Replies,
    pub prints: Texts,
}

/// What an action leaves to be written: a send or a reply, or a print.
#[derive(Drop)]
pub enum Due {
    Message(Message),
    Print(Text),
}
