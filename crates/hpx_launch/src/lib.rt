//! The launcher: one process for each locality, started in order and waited for.
#![tactic(auto)]

pub mod fault;
pub mod launch;
pub mod line;
mod matches;
pub mod program;
