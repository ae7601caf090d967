//! A member of several processes: one locality over a link to the others.
#![tactic(auto)]

pub mod bodies;
pub mod console;
pub mod end;
pub mod lines;
mod seat;
pub mod stop;
mod turn;
pub mod worker;
