//! Frames: the one spelling of each parcel, and the parcel that bytes spell.
#![tactic(auto)]

mod acts;
mod fields;
mod glance;
pub mod laws;
pub mod outline;
pub mod parcel;
pub mod read;
mod values;
pub mod write;
