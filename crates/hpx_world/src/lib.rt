//! All localities over a fabric, and the one journal that they write.
#![tactic(auto)]

pub mod audit;
pub mod law;
mod locals;
mod steps;
pub mod turns;
pub mod world;
