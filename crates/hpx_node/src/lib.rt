//! One locality: the objects that stand there, the actions that wait and run, the commits that wait, the messages on their way, and the records of
//! the objects that were born there.
#![tactic(auto)]

pub mod law;
mod moves;
pub mod node;
pub mod parts;
