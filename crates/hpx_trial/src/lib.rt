//! Acts for the tests of other crates, which keep the laws of actions: `Still` changes nothing, and `Trial` has a session that
//! has a number made, adds to it, asks for it, moves it and drops it.
#![tactic(auto)]

pub mod still;
pub mod trial;
