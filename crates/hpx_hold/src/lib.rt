//! Delivery that is held back, and let go by turns.
#![tactic(auto)]

pub mod home;
pub mod turns;
