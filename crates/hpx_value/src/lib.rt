//! Ids, values, actions and outcomes: what localities speak of.
#![tactic(auto)]

pub mod acts;
pub mod codes;
pub mod exact;
pub mod gid;
pub mod items;
pub mod law;
pub mod memory;
pub mod outcome;
pub mod profile;
pub mod value;
