//! What a commit does with the ids of a hand: which places an outcome names, how the ids are dealt to those who name them,
//! and what is left due then.
#![tactic(auto)]

pub mod deal;
pub mod failure;
pub mod hand;
pub mod law;
pub mod mentions;
pub mod plan;
pub mod stock;
