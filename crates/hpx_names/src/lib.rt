//! Symbols, components, localities and shelves: objects that name others.
//!
//! How the values of their states are laid out stands in `hpx_calls::content`. In short: Symbols and a Shelf keep for
//! each pair its key, a Text, and then its object, a Ref, in the order of the keys' bytes; Components keep no values;
//! Localities keep their number, an Int.
#![tactic(auto)]

pub mod act;
pub mod laws;
mod maker;
mod table;
