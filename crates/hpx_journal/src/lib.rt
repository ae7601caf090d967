//! The journal: every change of the world is an entry.
#![tactic(auto)]

pub mod bag;
pub mod cargo;
pub mod entry;
pub mod journal;
pub mod law;
pub mod local;
pub mod natives;
