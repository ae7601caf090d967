//! The tables of a locality: the objects that stand there, actions, commits that wait, and messages; what is found and counted in them, and
//! what is about to be made or halved.
#![tactic(auto)]

pub mod births;
pub mod boot;
pub mod carries;
pub mod credit;
pub mod find;
pub mod kept;
mod object;
pub mod objects;
pub mod pending;
pub mod queue;
pub mod splits;
pub mod strange;
mod tally;
