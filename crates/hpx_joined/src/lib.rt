//! What several processes wrote together, by the journals of all of them.
#![tactic(auto)]

pub mod law;
