//! The program as one locality of several processes: what it is asked to be, and what it reads and writes as that.
#![tactic(auto)]

pub mod desk;
pub mod join;
pub mod law;
pub mod membership;
pub mod problem;
pub mod sheet;
mod show;
pub mod slip;
