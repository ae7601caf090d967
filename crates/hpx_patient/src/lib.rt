//! What a console knows that waits only until its own locality is idle: what is still on its way elsewhere is no business of
//! its session.
#![tactic(auto)]

pub mod law;
