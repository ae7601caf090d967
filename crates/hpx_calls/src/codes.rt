//! Codes of actions and faults that the tables name, as numbers.

/// Answers the place.
pub const WHERE: u16 = 2;
/// Makes an object.
pub const NEW: u16 = 5;
/// Adds a key.
pub const REGISTER: u16 = 6;
/// Answers the object under a key.
pub const RESOLVE: u16 = 7;
/// Removes a key.
pub const UNREGISTER: u16 = 8;
/// Answers the keys.
pub const LIST: u16 = 9;
/// Answers the number of localities.
pub const COUNT: u16 = 10;
/// Keeps 0.
pub const RESET: u16 = 18;
/// Makes one step between two numbers.
pub const STEP: u16 = 19;
/// Takes a value, or waits for one.
pub const GET: u16 = 32;
/// Gives a value.
pub const PUT: u16 = 33;
/// Closes a channel.
pub const CLOSE: u16 = 34;
/// Lowers a latch.
pub const DOWN: u16 = 35;
/// Waits for a latch.
pub const WAIT: u16 = 36;
/// Arrives at a barrier.
pub const ARRIVE: u16 = 37;

/// An accumulator: it is managed, and moves.
pub const ACCUMULATOR: u32 = 16;
/// A partition: it is managed, and moves.
pub const PARTITION: u32 = 17;
/// A promise: it is managed.
pub const PROMISE: u32 = 32;
/// A dataflow: it is managed.
pub const DATAFLOW: u32 = 33;
/// A channel: it is managed.
pub const CHANNEL: u32 = 34;
/// A latch: it is managed.
pub const LATCH: u32 = 35;
/// A barrier: it is managed.
pub const BARRIER: u32 = 36;

/// The key is there.
pub const TAKEN: u8 = 2;
/// The key is not there.
pub const NO_NAME: u8 = 3;
/// There is no such kind of object.
pub const NO_KIND: u8 = 4;
/// There is a value.
pub const ALREADY_SET: u8 = 6;
/// There is no such input.
pub const NO_SLOT: u8 = 7;
/// The channel is closed.
pub const CLOSED: u8 = 8;
/// It can be had once, or so many times.
pub const SPENT: u8 = 9;
/// There is no room.
pub const FULL: u8 = 10;
