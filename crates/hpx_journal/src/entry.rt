ghost use Rattle.std.specs.Prelude.{◌≡◌, IfOk};

use hpx_value::exact::Exact;
use hpx_value::gid::Gid;
use hpx_value::items::{Bytes, Text};
use hpx_value::memory::OutOfMemory;
use hpx_value::value::State;
use std::alloc::Global;
use std::marker::Model;

/// What an action is called: the locality where it was sent or fed, and a number drawn there.
#[derive(Clone, Copy, Debug, PartialEq, Eq)]
pub struct Name {
    pub origin: u16,
    pub serial: u64,
}

/// Why the home writes the count of an object.
#[derive(Clone, Copy, Debug, PartialEq, Eq)]
pub enum Reason {
    /// A credit of this log came back.
    Returned(u8),
    /// More credit was asked for, and there is room below the limit.
    Granted,
    /// More credit was asked for, and there is no room; the count stays.
    Refused,
}

/// What was done. Objects are bare ids.
#[derive(Drop)]
pub enum Event {
    /// A line was fed.
    Line {
        action: Name,
        bytes: Text,
    },
    /// A job was handed out.
    Fire {
        action: Name,
    },
    /// An id of this log became two of the log below.
    Split {
        object: Gid,
        log: u8,
    },
    /// An object was made, with its first id.
    Born {
        object: Gid,
        state: State,
    },
    /// An action was committed, or failed for want of credit.
    Done {
        action: Name,
        failed: bool,
    },
    /// The next send or reply of the Done before was sent.
    Sent {
        action: Name,
    },
    /// The next print of the Done before was printed.
    Print {
        bytes: Text,
    },
    /// A rider of this log and an id of the same object and log became one id of the log above.
    Merge {
        object: Gid,
        log: u8,
    },
    /// An id of this log was given up; its credit is owed to the home.
    Up {
        object: Gid,
        log: u8,
    },
    /// An id of log 0 was given away to ask for more credit.
    Asked {
        object: Gid,
    },
    /// The id that was asked for came, with this log.
    Given {
        object: Gid,
        log: u8,
    },
    /// The home wrote the count of an object.
    Count {
        object: Gid,
        count: u128,
        why: Reason,
    },
    /// The storage of a dead object was freed.
    Freed {
        object: Gid,
    },
    /// An object left for another locality.
    Left {
        object: Gid,
        to: u32,
    },
    /// An object arrived.
    Landed {
        object: Gid,
    },
    /// The cache was asked where the target of the action sent just before is.
    Looked {
        object: Gid,
        hit: bool,
    },
    /// A message to the own locality was handled; its kind is that of its frame.
    Mail {
        kind: u8,
    },
    /// A frame was sent.
    Out {
        to: u32,
        bytes: Bytes,
    },
    /// A frame was accepted.
    In {
        bytes: Bytes,
    },
}

impl Event {
    /// The same event once more.
    pub fn duplicate(&self, alloc: Global) -> Result<Event, OutOfMemory>
        ensures { IfOk result (λ e. e ≡ self.now) }
    {
        match self {
            Event::Line { action, bytes } => Ok(Event::Line {
                action: *action,
                bytes: bytes.duplicate(alloc)?,
            }),
            Event::Born { object, state } => Ok(Event::Born {
                object: *object,
                state: state.duplicate(alloc)?,
            }),
            Event::Print { bytes } => Ok(Event::Print {
                bytes: bytes.duplicate(alloc)?,
            }),
            Event::Out { to, bytes } => Ok(Event::Out {
                to: *to,
                bytes: bytes.duplicate(alloc)?,
            }),
            Event::In { bytes } => Ok(Event::In {
                bytes: bytes.duplicate(alloc)?,
            }),
            Event::Fire { action } => Ok(Event::Fire { action: *action }),
            Event::Done { action, failed } => Ok(Event::Done {
                action: *action,
                failed: *failed,
            }),
            Event::Sent { action } => Ok(Event::Sent { action: *action }),
            Event::Split { object, log } => Ok(Event::Split {
                object: *object,
                log: *log,
            }),
            Event::Merge { object, log } => Ok(Event::Merge {
                object: *object,
                log: *log,
            }),
            Event::Up { object, log } => Ok(Event::Up {
                object: *object,
                log: *log,
            }),
            Event::Asked { object } => Ok(Event::Asked { object: *object }),
            Event::Given { object, log } => Ok(Event::Given {
                object: *object,
                log: *log,
            }),
            Event::Count { object, count, why } => Ok(Event::Count {
                object: *object,
                count: *count,
                why: *why,
            }),
            Event::Freed { object } => Ok(Event::Freed { object: *object }),
            Event::Left { object, to } => Ok(Event::Left {
                object: *object,
                to: *to,
            }),
            Event::Landed { object } => Ok(Event::Landed { object: *object }),
            Event::Looked { object, hit } => Ok(Event::Looked {
                object: *object,
                hit: *hit,
            }),
            Event::Mail { kind } => Ok(Event::Mail { kind: *kind }),
        }
    }
}

/// What was done, and at which locality.
#[derive(Drop)]
pub struct Entry {
    pub at: u32,
    pub event: Event,
}

/// An object that stands at a locality.
#[derive(Drop)]
pub struct Standing {
    pub object: Gid,
    pub state: State,
}

/// An object that has left a locality or has come to one, and where it is to stand.
#[derive(Drop)]
pub struct Travel {
    pub object: Gid,
    pub state: State,
    pub to: u32,
}

/// A credit of `2^log` of an object at a locality: held by an id there, or owed to the object's home.
#[derive(Clone, Copy, Debug, Drop)]
pub struct Token {
    pub object: Gid,
    pub log: u8,
    pub owed: bool,
}

/// A number that was written in the record of an object.
#[derive(Clone, Copy, Debug, Drop)]
pub struct Recorded {
    pub object: Gid,
    pub count: u128,
}

/// An id of the object came back with no more credit while the action was fired.
#[derive(Clone, Copy, Debug, Drop)]
pub struct Refusal {
    pub action: Name,
    pub object: Gid,
}

/// A credit of `2^log` of an object.
#[derive(Clone, Copy)]
pub struct Credit {
    object: Gid,
    log: u8,
}

impl Model for Credit {
    ghost use Rattle.hpx_parcel.specs.Credits.{Credit};

    ghost Value = { Credit };

    ghost view = { λ c. record { object = c.object; log = c.log } };

    ghost inverse = { λ x. record { object = x.object; log = x.log } };
}

impl Credit {
    /// A credit of an object.
    pub fn new(object: Gid, log: u8) -> Credit
        ensures { result ≡ record { object = object; log = log } }
    {
        Credit { object, log }
    }

    /// The object.
    pub fn object(self) -> Gid
        ensures { result ≡ self.object }
    {
        self.object
    }

    /// The log.
    pub fn log(self) -> u8
        ensures { result ≡ self.log }
    {
        self.log
    }
}
