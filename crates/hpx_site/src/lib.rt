//! A world with its fabric, as it stands under a lock: what workers take out of it, bring back, or find to do.
#![tactic(auto)]

pub mod found;
pub mod kept;
pub mod site;
pub mod workers;
