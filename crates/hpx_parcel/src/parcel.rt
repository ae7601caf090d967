use hpx_value::gid::Gid;
use hpx_value::value::{Act, State};
use thiserror::Error;

/// What one locality sends to another.
#[derive(Drop)]
pub enum Parcel {
    /// An action, on its way to its target.
    Apply(Act),
    /// An id that is given back.
    Return(Gid),
    /// An id of log 0, whose holder asks for more credit, and the entry of the holder that waits.
    Ask { id: Gid, asker: u16, entry: u64 },
    /// The id that answers, and the entry that waits for it.
    Give { id: Gid, entry: u64 },
    /// Where an object stands, to be remembered.
    Cached { id: Gid, place: u16 },
    /// A MOVE, on its way to the home of its target.
    Move(Act),
    /// A MOVE that its home has granted, on its way to the object.
    Go(Act),
    /// An object that moves, with the MOVE that it answers.
    Object { action: Act, state: State },
    /// An object has come to a place.
    Landed { id: Gid, place: u16 },
    /// An object that no id is left of, to be freed.
    Free(Gid),
}

/// Why bytes are no frame.
#[derive(Clone, Copy, Debug, PartialEq, Eq)]
pub enum Why {
    /// More than 65,536 bytes.
    Long,
    /// A field needs more bytes than are left.
    Cut,
    /// Another version, or another kind of parcel.
    Kind,
    /// No id, or one that its field does not take.
    BadId,
    /// A value that its field does not take.
    BadValue,
    /// Bytes after the last field.
    Trailing,
}

/// The first fault of bytes from the left, and its place.
#[derive(Clone, Copy, Debug, PartialEq, Eq)]
pub struct FaultAt {
    pub at: u32,
    pub why: Why,
}

/// Why bytes were not decoded.
#[derive(Clone, Copy, Debug, PartialEq, Eq, Error)]
pub enum DecodeFault {
    /// They are no frame: the first fault from the left, and its place.
    #[error("no frame: {why:?} at byte {at}")]
    BadFrame { at: u32, why: Why },
    #[error("out of memory")]
    OutOfMemory,
}
