//! What a line of the script asks.
use crate::frames::hex;
use hpx_value::items::Bytes;
use hpx_value::memory::OutOfMemory;
use std::alloc::Global;

/// What is asked of the pair.
#[derive(Drop)]
pub enum Order {
    /// Nothing: the line is a note.
    Note,
    /// Both at boot, where an object has so much credit at most.
    Boot(u128),
    /// The first is fed a line of one byte.
    Feed(u8),
    /// The same, and all is done that follows.
    Line(u8),
    /// So many lines that call the number, one after another.
    Calls(u128),
    /// So many of them, each of whose calls goes to the number and is not run there.
    Rush(u128),
    /// All is done that there is to do.
    Settle,
    /// The credit of the number.
    Credit,
    /// One locality is asked something.
    At(bool, Asked),
}

/// What is asked of one locality.
#[derive(Drop)]
pub enum Asked {
    /// Its next job is run.
    Run,
    /// Its next job is run twice, and finished twice.
    Twice,
    /// Its first message goes to the other.
    Carry,
    /// Its first message goes, and its frame is shown.
    Send,
    /// It takes a frame.
    Take(Bytes),
    /// It deals with a message to itself.
    Desk,
    /// What is seen of it.
    Seen,
    /// What it did last, and before that.
    Last,
}

impl Order {
    /// The limit, where both are to be at boot.
    pub fn boots(&self) -> Option<u128> {
        match self {
            Order::Boot(limit) => Some(*limit),
            _ => None,
        }
    }
}

/// The first byte of a word.
fn byte(word: Option<&str>) -> u8 {
    match word {
        Some(word) => word.as_bytes().first().copied().unwrap_or(b'?'),
        None => b'?',
    }
}

/// A number, or else 0.
fn number(word: Option<&str>) -> u128 {
    match word {
        Some(word) => word.parse::<u128>().unwrap_or(0),
        None => 0,
    }
}

/// What one locality is asked.
fn ask_of(alloc: Global, word: &str, rest: &str) -> Result<Option<Asked>, OutOfMemory> {
    Ok(Some(match word {
        "run" => Asked::Run,
        "twice" => Asked::Twice,
        "carry" => Asked::Carry,
        "send" => Asked::Send,
        "take" => Asked::Take(hex(alloc, rest)?),
        "desk" => Asked::Desk,
        "seen" => Asked::Seen,
        "last" => Asked::Last,
        _ => return Ok(None),
    }))
}

/// What a line asks: a word, then a locality or an argument.
pub fn read(alloc: Global, line: &str) -> Result<Order, OutOfMemory> {
    let (word, rest) = line.split_once(' ').unwrap_or((line, ""));
    let first = rest.split_whitespace().next();
    Ok(match word {
        "boot" => Order::Boot(number(first)),
        "feed" => Order::Feed(byte(first)),
        "line" => Order::Line(byte(first)),
        "calls" => Order::Calls(number(first)),
        "rush" => Order::Rush(number(first)),
        "settle" => Order::Settle,
        "credit" => Order::Credit,
        _ => {
            let frame = rest.split_once(' ').unwrap_or(("", "")).1;
            match ask_of(alloc, word, frame)? {
                Some(asked) => Order::At(first == Some("1"), asked),
                None => Order::Note,
            }
        }
    })
}
