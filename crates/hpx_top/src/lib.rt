//! A session of a console over all localities, applications that compute, and the top call.
#![tactic(auto)]

pub mod acts;
pub mod breach;
mod compute;
pub mod consoles;
pub mod crew;
mod load;
mod own;
pub mod printed;
mod progress;
pub mod reader;
pub mod run;
pub mod serve;
pub mod session;
pub mod task;
mod typed;
