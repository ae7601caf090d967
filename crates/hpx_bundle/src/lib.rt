//! Frames of several parcels to one locality.
#![tactic(auto)]

pub mod bundle;
pub mod hand;
pub mod law;
pub mod unbundle;
