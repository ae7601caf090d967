//! The ids that a locality holds, each with its owner: a table by key.
#![tactic(auto)]

pub mod held;
pub mod ids;
