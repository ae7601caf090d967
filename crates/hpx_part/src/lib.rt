//! A locality's part of the journal: what the locality is seen to have, and which entries it may then write.
#![tactic(auto)]

pub mod law;
