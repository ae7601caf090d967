//! Members connected over loopback TCP.
#![tactic(auto)]

pub mod body;
pub mod hello;
pub mod link;
pub mod open;
pub mod reader;
