//! Kinds of objects, codes of actions, and faults, as numbers in frames and states.

/// The session: a root of locality 0.
pub const SESSION: u32 = 1;
/// The symbol namespace: a root of locality 0.
pub const SYMBOLS: u32 = 2;
/// The component namespace: a root of each locality.
pub const COMPONENTS: u32 = 3;
/// The locality namespace: a root of locality 0, whose state is their number.
pub const LOCALITIES: u32 = 4;
/// The shelf: a root of each locality.
pub const SHELF: u32 = 5;
/// The plain object: a root of each locality, without state and never busy.
pub const PLAIN: u32 = 7;
/// The first kind of managed objects, which is movable.
pub const FIRST_MANAGED: u32 = 16;
/// The last movable kind.
pub const LAST_MOVABLE: u32 = 31;
/// The last managed kind.
pub const LAST_MANAGED: u32 = 63;

/// Moves an object.
pub const MOVE: u16 = 1;
/// Answers the place of an object.
pub const WHERE: u16 = 2;
/// Answers a continuation; made by replies alone.
pub const SET: u16 = 3;
/// A line of input; made by feeding alone.
pub const LINE: u16 = 4;
/// Adds a number.
pub const ADD: u16 = 16;
/// Answers the number kept.
pub const QUERY: u16 = 17;
/// Keeps the number 0.
pub const RESET: u16 = 18;

/// A sum that does not fit.
pub const OVERFLOW: u8 = 1;
/// An action that is not listed for its target.
pub const NO_ACTION: u8 = 11;
