//! The records that a home keeps of its live objects: counts, places, moves under way, and what waits for them.
#![tactic(auto)]

mod line;
mod queue;
pub mod record;
pub mod records;
mod table;
mod tree;
